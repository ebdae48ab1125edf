// Who has something to collect, listed into a lent buffer; nothing changes.
#![tactic(auto)]

ghost use Rattle.std.specs.Prelude.{◌≤◌, ◌<◌, ◌+◌, ◌*◌, ◌≡◌, length, drop, get_or};
ghost use Rattle.rules.specs.Lists.{any, write_front};
ghost use Rattle.rules.specs.Records.{blank_completion};
ghost use Rattle.rules.specs.Queue.{belongs, owners, pairs, owners_with_completions};
ghost use Rattle.rules.specs.Invariant.{Invariant, InOrder};

use rules::{Answer, Completion, Flows};

// The owners with something to collect, workers by ascending number, then hand-off, then write; nothing is collected.
pub fn owners_with_completions(flows: Flows, out: &mut [u32]) -> Answer
    requires { Invariant flows }
    ensures answer { result ≡ (owners_with_completions flows out.old).outcome.answer }
    ensures buffer { out.new ≡ (owners_with_completions flows out.old).buffer }
{
    let waiting = &flows.completed[..flows.num_completed];
    let found = num_owners(waiting);
    if out.len() < 2 * found {
        return Answer::Refused(8);
    }
    write_owners(waiting, out);
    Answer::Listed(found)
}

// Whether an owner comes again behind its entry i: in a queue that is in order, whether the next entry is the owner's too.
fn comes_again(waiting: &[Completion], i: usize) -> bool
    requires within { i < length waiting.now }
    requires in_order { InOrder (length waiting.now) waiting.now }
    ensures { result ≡ any (belongs (get_or waiting.now i blank_completion).owner) (drop (i + 1) waiting.now) }
{
    i + 1 < waiting.len() && owners::same_owner(waiting[i].owner, waiting[i + 1].owner)
}

// How many owners have entries: each is counted at its last one. By index, since an entry is looked at beside the next.
fn num_owners(waiting: &[Completion]) -> usize
    requires { InOrder (length waiting.now) waiting.now }
    ensures { result ≡ length (owners waiting.now) }
{
    let mut found: usize = 0;
    for i in 0..waiting.len() {
        if !comes_again(waiting, i) {
            found += 1;
        }
    }
    found
}

// The owners with entries at the front of the buffer, two numbers each. Each writer has its own entries: a closure would need its bound on the buffer at every call.
fn write_owners(waiting: &[Completion], out: &mut [u32])
    requires in_order { InOrder (length waiting.now) waiting.now }
    requires room { 2 * length (owners waiting.now) ≤ length out.old }
    ensures { out.new ≡ write_front (pairs (owners waiting.now)) out.old }
{
    let mut k: usize = 0;
    for i in 0..waiting.len() {
        if !comes_again(waiting, i) {
            out[k] = owners::owner_kind(waiting[i].owner);
            out[k + 1] = owners::owner_worker(waiting[i].owner);
            k += 2;
        }
    }
}
