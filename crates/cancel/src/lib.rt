// The call that gives a transfer up. An id that is not in flight changes nothing; else it drains to the clock, counts and frees the slot, and leaves rates stale.
#![tactic(auto)]

ghost use Rattle.std.specs.Prelude.{◌≡◌};
ghost use Rattle.rules.specs.Cancel.{cancel};
ghost use Rattle.rules.specs.Invariant.{Invariant};

use rules::{Answer, Flows, Outcome, Transfer};
use slots::Lookup;

// A transfer is given up; what it has moved stays counted.
pub fn cancel(mut flows: Flows, id: u32) -> Outcome
    requires { Invariant flows }
    ensures exactly { result ≡ cancel id flows }
    ensures sound { Invariant result.flows }
{
    let Lookup::Slot(i) = slots::find(&flows.in_flight, id) else {
        return Outcome {
            answer: Answer::Unknown,
            flows,
        };
    };
    let owner = flows.in_flight[i].owner;
    clock::drained_to_clock(&mut flows);
    tallies::cancelled(&mut flows, owner);
    flows.in_flight[i] = Transfer::free();
    clock::made_stale(&mut flows);
    Outcome {
        answer: Answer::Done,
        flows,
    }
}
