// Collecting: an owner takes what waits for it out of the queue, into a lent buffer.
#![tactic(auto)]

ghost use Rattle.std.specs.Prelude.{◌≡◌, not, map, ◌≤◌, length};
ghost use Rattle.rules.specs.Lists.{count, those, write_front};
ghost use Rattle.rules.specs.Queue.{belongs, take_completed};
ghost use Rattle.rules.specs.Invariant.{Invariant};
ghost use Rattle.queue.specs.Tables.{table_of};

use queue::Table;
use rules::{Answer, Completion, Flows, Outcome, Owner};

// An owner collects what waits for it: its ids are written, and they wait no longer.
pub fn take_completed(flows: Flows, owner: Owner, out: &mut [u32]) -> Outcome
    requires { Invariant flows }
    ensures exactly { result ≡ (take_completed owner flows out.old).outcome }
    ensures buffer { out.new ≡ (take_completed owner flows out.old).buffer }
    ensures sound { Invariant result.flows }
{
    let waiting = &flows.completed[..flows.num_completed];
    let found = num_waiting(waiting, owner);
    if found == 0 {
        return Outcome {
            answer: Answer::Nothing,
            flows,
        };
    }
    if out.len() < found {
        return arguments::refused(flows, 8);
    }
    write_ids(waiting, owner, out);
    let Table { entries, count } = without(waiting, owner);
    Outcome {
        answer: Answer::Listed(found),
        flows: Flows {
            completed: entries,
            num_completed: count,
            ..flows
        },
    }
}

// How many entries wait for an owner.
fn num_waiting(waiting: &[Completion], owner: Owner) -> usize
    ensures { result ≡ count (belongs owner) waiting.now }
{
    waiting.iter().filter(|c| belongs(owner, **c)).count()
}

// Whether a completion is the owner's.
#[tactic(auto, unfolding(rules::specs::Queue::belongs))]
fn belongs(owner: Owner, c: Completion) -> bool
    ensures { result ≡ belongs owner c }
{
    owners::same_owner(owner, c.owner)
}

// The owner's ids at the front of the buffer, in the order of the queue. The place is counted, since not every entry takes one.
fn write_ids(waiting: &[Completion], owner: Owner, out: &mut [u32])
    requires room { count (belongs owner) waiting.now ≤ length out.old }
    ensures { out.new ≡ write_front (map (λ c. c.id) (those (belongs owner) waiting.now)) out.old }
{
    let mut k: usize = 0;
    for c in waiting {
        if belongs(owner, *c) {
            out[k] = c.id;
            k += 1;
        }
    }
}

// A table without the owner's entries: the others close up, with blanks behind.
fn without(waiting: &[Completion], owner: Owner) -> Table
    requires { length waiting.now ≤ 256 }
    ensures { result ≡ table_of (those (λ c. not (belongs owner c)) waiting.now) }
{
    let none = Completion {
        owner: Owner::Handoff,
        id: 0,
    };
    let mut entries = [none; 256];
    let mut count: usize = 0;
    for c in waiting {
        if !belongs(owner, *c) {
            entries[count] = *c;
            count += 1;
        }
    }
    Table { entries, count }
}
