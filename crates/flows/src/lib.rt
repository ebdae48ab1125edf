// The simulator for its users: every type and every call in one place. What each does is in crates/rules/specs.
#![tactic(auto)]

// ---- types
pub use rules::{
    Answer, Call, Cap, Clock, Completion, Delay, Edge, EdgeLoad, EdgeRead, Estimate, Flows, Limit,
    Made, NextDone, Outcome, Owner, Route, Said, Submission, Tally, TimeLeft, Tolerance, Totals,
    Transfer,
};
pub use totals::{Bytes, Counts, PerKind};

// ---- calls
pub use advance::advance;
pub use cancel::cancel;
pub use collecting::take_completed;
pub use edges::{add_edge, widen};
pub use submission::{submit, submit_capped};
pub use time_left::settle;

// ---- questions
pub use estimates::{estimate_new, estimate_new_capped};
pub use lists::owners_with_completions;
pub use questions::{bottleneck, edge, mean_in_flight, next_completion_delay, rate};
pub use time_left::remaining;
pub use totals::{
    bytes_submitted, cancelled_counts, completed_counts, contains, now, num_edges, num_in_flight,
    num_uncollected, peak_in_flight, rounds, submitted_counts, totals,
};

// ---- any of them, as data
pub use calls::make;
