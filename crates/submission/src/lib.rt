// Submission: a transfer starts, or the lowest refusal that applies is answered.
#![tactic(auto)]

ghost use Rattle.std.specs.Prelude.{◌≡◌, ◌||◌, ◌≤◌, length};
ghost use Rattle.doubles.specs.Doubles.{read_zero};
ghost use Rattle.rules.specs.Refusals.{not_finite, not_a_cap, not_a_time, read_cap};
ghost use Rattle.rules.specs.Submission.{submitted_transfer, submit_capped, submit};
ghost use Rattle.rules.specs.Invariant.{Invariant};

use rules::{Cap, Flows, Limit, Outcome, Owner, Transfer};

// A transfer starts, with no cap of its own: the Rust has a name for each.
pub fn submit(
    flows: Flows,
    id: u32,
    owner: Owner,
    path: &[u32],
    bytes: u64,
    latency: f64,
    time: f64,
) -> Outcome
    requires { Invariant flows }
    ensures exactly { result ≡ submit id owner path.now bytes latency time flows }
    ensures sound { Invariant result.flows }
{
    submit_capped(flows, id, owner, path, bytes, latency, Cap::Uncapped, time)
}

// A transfer starts, with or without a cap of its own. What is wrong with the arguments is asked here, and of the tables by `starting::start`.
pub fn submit_capped(
    flows: Flows,
    id: u32,
    owner: Owner,
    path: &[u32],
    bytes: u64,
    latency: f64,
    rate_cap: Cap,
    time: f64,
) -> Outcome
    requires { Invariant flows }
    ensures exactly { result ≡ submit_capped id owner path.now bytes latency rate_cap time flows }
    ensures sound { Invariant result.flows }
{
    if not_numbers(latency, rate_cap, time) {
        return arguments::refused(flows, 1);
    }
    if time < flows.clock.now {
        return arguments::refused(flows, 2);
    }
    if arguments::names_no_edge(path, flows.num_edges) {
        return arguments::refused(flows, 3);
    }
    if 8 < path.len() {
        return arguments::refused(flows, 4);
    }
    if 9007199254740992 < bytes {
        return arguments::refused(flows, 5);
    }
    let transfer = submitted_transfer(id, owner, path, bytes, latency, rate_cap, time);
    starting::start(flows, transfer, bytes)
}

// Whether one of the numbers cannot be taken; an estimate has no time, and a submission no double for its bytes.
fn not_numbers(latency: f64, rate_cap: Cap, time: f64) -> bool
    ensures { result ≡ (not_finite latency || not_a_cap rate_cap || not_a_time time) }
{
    arguments::not_finite(latency) || arguments::not_a_cap(rate_cap) || arguments::not_a_time(time)
}

// The transfer as it is put into its slot: no bytes flow before a filling, and it has been drained up to its own time. Its arguments come one by one, as in the definition and the public call.
fn submitted_transfer(
    id: u32,
    owner: Owner,
    path: &[u32],
    bytes: u64,
    latency: f64,
    rate_cap: Cap,
    time: f64,
) -> Transfer
    requires { length path.now ≤ 8 }
    ensures { result ≡ submitted_transfer id owner path.now bytes (read_zero latency) (read_cap rate_cap) (read_zero time) }
{
    Transfer {
        taken: true,
        id,
        owner,
        path: arguments::route_of(path),
        latency_remaining: doubles::larger(doubles::read_zero(latency), 0.0),
        bytes_remaining: doubles::whole(bytes),
        rate_cap: arguments::read_cap(rate_cap),
        rate: 0.0,
        limit: Limit::Nowhere,
        last_update: doubles::read_zero(time),
    }
}
