// The time a transfer still takes: a call that settles the simulator at its clock, and a question that only reads.
#![tactic(auto)]

ghost use Rattle.std.specs.Prelude.{◌≡◌};
ghost use Rattle.rules.specs.TimeLeft.{settle, or_cannot_finish, remaining_in, behind, remaining};
ghost use Rattle.rules.specs.Invariant.{Invariant};

use rules::{Answer, Clock, Delay, Flows, Outcome, TimeLeft, Transfer};

// Drained to the clock, and rates brought up to date: what is read next is of now.
#[tactic(auto, unfolding(rules::specs::TimeLeft::settle))]
pub fn settle(mut flows: Flows) -> Outcome
    requires { Invariant flows }
    ensures exactly { result ≡ settle flows }
    ensures sound { Invariant result.flows }
{
    clock::drained_to_clock(&mut flows);
    clock::ensure_rates(&mut flows);
    Outcome {
        answer: Answer::Done,
        flows,
    }
}

// How long a transfer still takes by what the last drain left of it, and whether that is behind. It hands no simulator back, for it changes none.
#[tactic(auto, unfolding(rules::specs::TimeLeft::remaining, rules::specs::Done::done_eps))]
pub fn remaining(flows: Flows, id: u32) -> TimeLeft
    ensures { result ≡ remaining id flows }
{
    let eps = transfers::done_eps(flows.tolerance, flows.clock.now);
    TimeLeft {
        answer: remaining_in(&flows.in_flight, id, eps),
        behind: behind(flows.clock),
    }
}

// The time to done of the transfer with that id, if one has it.
fn remaining_in(in_flight: &[Transfer; 256], id: u32, eps: f64) -> Answer
    ensures { result ≡ remaining_in id eps in_flight.now }
{
    let t = slots::of_id(in_flight, id);
    if t.taken {
        or_cannot_finish(transfers::time_to_done(t, eps))
    } else {
        Answer::Unknown
    }
}

// A delay as an answer; one that never ends is no time.
#[tactic(auto, unfolding(rules::specs::TimeLeft::or_cannot_finish))]
fn or_cannot_finish(d: Delay) -> Answer
    ensures { result ≡ or_cannot_finish d }
{
    let Delay::After(x) = d else {
        return Answer::CannotFinish;
    };
    Answer::Value(x)
}

// Whether the last drain lies before the clock, or rates are stale.
#[tactic(auto, unfolding(rules::specs::TimeLeft::behind))]
fn behind(clock: Clock) -> bool
    ensures { result ≡ behind clock }
{
    clock.last_drain < clock.now || clock.rates_dirty
}
