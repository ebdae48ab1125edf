// The words of a script that go from completion to completion: each step asks for the delay and advances by it, so that whoever is done gives up its share at once.
#![tactic(auto)]

ghost use Rattle.std.specs.Prelude.{◌≤◌, length};
ghost use Rattle.rules.specs.Invariant.{Invariant};

use rules::{Answer, Delay, Flows};
use session_fields::{room, spaced};
use session_pages::Page;
use session_told::{entries, remark};

// How a walk stands: no step was taken yet or the last one listed somebody, or it listed nobody, or it ended the walk.
#[derive(Clone, Copy, PartialEq)]
enum Walk {
    Going,
    Stuck,
    Over,
}

// ---- the two words

// Up to a time, to which the clock moves at last; refused as an advance to it would be.
pub fn run_until<R: Print + Eprint + Alloc>(rt: &R, flows: &mut Flows, time: f64, page: &mut Page)
    requires invariant { Invariant flows.old }
    requires at_bound { page.old.len ≤ 49152 }
    ensures { Invariant flows.new }
{
    if arguments::not_a_time(time) {
        page.put_text(b"refused 1\n");
    } else if time < flows.clock.now {
        page.put_text(b"refused 2\n");
    } else {
        walk_by(rt, flows, doubles::read_zero(time), true, page);
    }
}

// Until nobody is ever done, or only past the last clock time.
pub fn finish<R: Print + Eprint + Alloc>(rt: &R, flows: &mut Flows, page: &mut Page)
    requires invariant { Invariant flows.old }
    requires at_bound { page.old.len ≤ 49152 }
    ensures { Invariant flows.new }
{
    walk_by(rt, flows, 1099511627776.0, false, page);
}

// ---- a walk

// A proved loop has to end, and nothing says that a walk does, so it has more turns than any run uses up.
fn walk_by<R: Print + Eprint + Alloc>(
    rt: &R,
    flows: &mut Flows,
    last: f64,
    to_last: bool,
    page: &mut Page,
)
    requires { Invariant flows.old }
    ensures { Invariant flows.new }
{
    let mut walk = Walk::Going;
    for _ in 0..u64::MAX {
        walk = step(rt, flows, walk, last, to_last, page);
        if walk == Walk::Over {
            break;
        }
    }
    room(rt, page);
    page.put_text(b"done\n");
}

// From where the walk stands to the next completion, if it comes by the last time; else to that time, or nowhere.
fn step<R: Print + Eprint + Alloc>(
    rt: &R,
    flows: &mut Flows,
    walk: Walk,
    last: f64,
    to_last: bool,
    page: &mut Page,
) -> Walk
    requires { Invariant flows.old }
    ensures { Invariant flows.new }
{
    let asked = flows::next_completion_delay(*flows);
    *flows = asked.flows;
    let next = ahead(asked.answer, flows.clock.now, walk);
    let Some(time) = by(next, last, to_last) else {
        return Walk::Over;
    };
    stepped(rt, flows, time, to_last && !(time < last), page)
}

// When the next completion comes. Where the last step listed nobody and the delay leads nowhere, the next double is tried.
fn ahead(answer: Answer, now: f64, walk: Walk) -> Option<f64> {
    let Answer::Due(Delay::After(seconds)) = answer else {
        return None;
    };
    let time = now + seconds;
    if walk == Walk::Stuck && !(now < time) {
        let bits = doubles::bits_of(now).wrapping_add(1);
        return Some(doubles::of_bits(bits));
    }
    Some(time)
}

// The time of the next step: that of the next completion where it comes by the last time, and otherwise that time itself, or none.
fn by(next: Option<f64>, last: f64, to_last: bool) -> Option<f64> {
    match next {
        Some(time) if time < last => next,
        _ if to_last => Some(last),
        Some(time) if time <= last => next,
        _ => None,
    }
}

// ---- a step

// An advance to a time, and a line where it lists somebody. A step to the last time that lists nobody ends the walk.
fn stepped<R: Print + Eprint + Alloc>(
    rt: &R,
    flows: &mut Flows,
    time: f64,
    last: bool,
    page: &mut Page,
) -> Walk
    requires { Invariant flows.old }
    ensures { Invariant flows.new }
{
    let mut lent = [0u32; 768];
    let moved = flows::advance(*flows, time, &mut lent);
    *flows = moved.flows;
    match moved.answer {
        Answer::Listed(0) if !last => Walk::Stuck,
        Answer::Listed(n) if n > 0 => {
            line(rt, page, time, n, &lent[..3 * n]);
            Walk::Going
        }
        _ => Walk::Over,
    }
}

// Who was done at a time.
fn line<R: Print + Eprint + Alloc>(rt: &R, page: &mut Page, time: f64, n: usize, list: &[u32])
    requires { length list.now ≤ 1024 }
{
    room(rt, page);
    page.put_text(b"at ");
    page.put_double(time);
    page.put_text(b" list");
    spaced(page, n as u64);
    entries(page, list);
    remark(page, time);
    page.put_text(b"\n");
}
