// What is counted of each kind of owner.
#![tactic(auto)]

ghost use Rattle.std.specs.Prelude.{◌<◌, ◌^◌, ◌+◌, ◌≡◌};
ghost use Rattle.rules.specs.declared.Tally.{Tally};
ghost use Rattle.rules.specs.Records.{tally_of, on_tally};
ghost use Rattle.rules.specs.Submission.{count_submitted};
ghost use Rattle.rules.specs.Advance.{count_completed};
ghost use Rattle.rules.specs.Cancel.{count_cancelled};

use rules::{Flows, Owner, Tally, Totals};

// What has been counted of the owner's kind.
#[tactic(auto, unfolding(rules::specs::Records::tally_of))]
pub fn tally_of(totals: Totals, owner: Owner) -> Tally
    ensures { result ≡ tally_of owner totals }
{
    match owner {
        Owner::Worker(_) => totals.worker,
        Owner::Handoff => totals.handoff,
        Owner::Write => totals.write,
    }
}

// One more submitted, with its bytes. Three names, each by its own definition, over one function.
pub fn submitted(flows: &mut Flows, owner: Owner, bytes: u64)
    requires { (tally_of owner flows.old.totals).submitted + 1 < 2 ^ 64 }
    ensures { flows.new ≡ on_tally owner (count_submitted bytes) flows.old }
{
    on_tally(
        flows,
        owner,
        |tally| Tally {
            submitted: tally.submitted + 1,
            bytes_submitted: tally.bytes_submitted + doubles::whole(bytes),
            ..tally
        },
    );
}

// One more completed.
pub fn completed(flows: &mut Flows, owner: Owner)
    requires { (tally_of owner flows.old.totals).completed + 1 < 2 ^ 64 }
    ensures { flows.new ≡ on_tally owner count_completed flows.old }
{
    on_tally(
        flows,
        owner,
        |tally| Tally {
            completed: tally.completed + 1,
            ..tally
        },
    );
}

// One more cancelled.
pub fn cancelled(flows: &mut Flows, owner: Owner)
    requires { (tally_of owner flows.old.totals).cancelled + 1 < 2 ^ 64 }
    ensures { flows.new ≡ on_tally owner count_cancelled flows.old }
{
    on_tally(
        flows,
        owner,
        |tally| Tally {
            cancelled: tally.cancelled + 1,
            ..tally
        },
    );
}

// The tally of the owner's kind put through a change.
fn on_tally<F: FnOnce(Tally) -> Tally>(flows: &mut Flows, owner: Owner, change: F)
    requires { F.pre change (tally_of owner flows.old.totals) }
    ensures { (tally : Tally) × F.post change (tally_of owner flows.old.totals) tally × (flows.new ≡ on_tally owner (λ y. tally) flows.old) }
{
    let tally = change(tally_of(flows.totals, owner));
    match owner {
        Owner::Worker(_) => flows.totals.worker = tally,
        Owner::Handoff => flows.totals.handoff = tally,
        Owner::Write => flows.totals.write = tally,
    }
}
