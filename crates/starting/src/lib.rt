// Starting: what the tables refuse of a submission, and its work once nothing is refused.
#![tactic(auto)]

ghost use Rattle.std.specs.Prelude.{◌≤◌, ◌<◌, ◌+◌, ◌-◌, ◌^◌, ◌≡◌, T, eqb};
ghost use Rattle.doubles.specs.Doubles.{◌≼◌};
ghost use Rattle.rules.specs.Records.{num_in_flight, tally_of};
ghost use Rattle.rules.specs.Refusals.{is_full};
ghost use Rattle.rules.specs.Invariant.{ClockTime, Invariant};
ghost use Rattle.rules.specs.Submission.{joined, started};
ghost use Rattle.starting.specs.Started.{start};

use rules::{Answer, Flows, Outcome, Owner, Transfer};
use slots::Lookup;

// A transfer of that many bytes starts at its own time, where the tables take it.
pub fn start(mut flows: Flows, transfer: Transfer, bytes: u64) -> Outcome
    requires sound { Invariant flows }
    requires time { ClockTime transfer.last_update }
    requires later { T (flows.clock.now ≼ transfer.last_update) }
    ensures { result ≡ start transfer bytes flows }
{
    if let Lookup::Slot(_) = slots::find(&flows.in_flight, transfer.id) {
        return arguments::refused(flows, 6);
    }
    if is_full(&flows) {
        return arguments::refused(flows, 7);
    }
    if has_last_number(&flows, transfer.owner) {
        return arguments::refused(flows, 9);
    }
    started(&mut flows, transfer, bytes);
    Outcome {
        answer: Answer::Done,
        flows,
    }
}

// Whether those in flight and those that wait to be collected leave no room.
fn is_full(flows: &Flows) -> bool
    requires { num_in_flight flows.now + flows.now.num_completed ≤ 256 }
    ensures { result ≡ is_full flows.now }
{
    256 <= slots::num_taken(&flows.in_flight) + flows.num_completed
}

// Whether the owner's kind has had the last number that its tally can hold.
fn has_last_number(flows: &Flows, owner: Owner) -> bool
    ensures { result ≡ eqb (tally_of owner flows.now.totals).submitted (2 ^ 64 - 1) }
{
    tallies::tally_of(flows.totals, owner).submitted == u64::MAX
}

// The work: all is drained to the transfer's time under the rates before it, and then it is counted and inserted.
fn started(flows: &mut Flows, transfer: Transfer, bytes: u64)
    requires sound { Invariant flows.old }
    requires time { ClockTime transfer.last_update }
    requires later { T (flows.old.clock.now ≼ transfer.last_update) }
    requires room { num_in_flight flows.old < 256 }
    requires numbered { (tally_of transfer.owner flows.old.totals).submitted + 1 < 2 ^ 64 }
    ensures { flows.new ≡ started transfer bytes flows.old }
{
    clock::drain_to(flows, transfer.last_update);
    tallies::submitted(flows, transfer.owner, bytes);
    joined(flows, transfer);
    clock::made_stale(flows);
}

// The transfer in the lowest free slot, and the peak raised to the number that is then in flight.
fn joined(flows: &mut Flows, transfer: Transfer)
    requires { num_in_flight flows.old < 256 }
    ensures { flows.new ≡ joined transfer flows.old }
{
    let i = slots::free_slot(&flows.in_flight);
    flows.in_flight[i] = transfer;
    let n = slots::num_taken(&flows.in_flight);
    flows.totals.peak_in_flight = flows.totals.peak_in_flight.max(n);
}
