// The whole state as text. Nothing is filled or drained for it.
#![tactic(auto)]

ghost use Rattle.std.specs.Prelude.{◌+◌, ◌<◌, ◌≤◌};
ghost use Rattle.rules.specs.Invariant.{Invariant};

use rules::{
    Cap, Clock, Completion, Edge, Flows, Limit, NextDone, Route, Tally, Tolerance, Totals, Transfer,
};
use session_fields::{
    limit, named, room, spaced, spaced_double, spaced_owner, spaced_short, tally,
};
use session_pages::Page;

pub fn dump<R: Print + Eprint + Alloc>(rt: &R, flows: Flows, page: &mut Page)
    requires invariant { Invariant flows }
    requires at_bound { page.old.len ≤ 49152 }
    ensures within { page.new.len ≤ 65536 }
    ensures told { 0 < page.new.len }
{
    times(page, flows.clock);
    sizes(page, flows);
    floor_and_drain(page, flows.tolerance, flows.clock);
    kinds(page, flows.totals);
    for (i, edge) in flows.edges.iter().enumerate().take(flows.num_edges) {
        edge_line(rt, page, i, *edge);
    }
    for (i, t) in flows.in_flight.iter().enumerate() {
        if t.taken {
            slot(rt, page, i, *t);
        }
    }
    for entry in flows.completed.iter().take(flows.num_completed) {
        queued(rt, page, *entry);
    }
    room(rt, page);
    page.put_text(b"end\n");
}

// ---- the first line

fn times(page: &mut Page, clock: Clock)
    requires { page.old.len ≤ 49152 }
    ensures { page.new.len ≤ 49400 }
{
    page.put_text(b"dump clock");
    spaced_double(page, clock.now);
    named(page, b" stale", clock.rates_dirty as u64);
    page.put_text(b" next");
    next_done_field(page, clock.next_done_at);
    named(page, b" rounds", clock.rounds as u64);
}

fn next_done_field(page: &mut Page, next_done: NextDone)
    requires { page.old.len ≤ 65400 }
    ensures { page.new.len ≤ page.old.len + 17 }
{
    match next_done {
        NextDone::At(x) => spaced_double(page, x),
        NextDone::Nobody => page.put_text(b" -"),
    }
}

fn sizes(page: &mut Page, flows: Flows)
    requires invariant { Invariant flows }
    requires at_bound { page.old.len ≤ 49400 }
    ensures { page.new.len ≤ 49520 }
{
    named(page, b" edges", flows.num_edges as u64);
    named(page, b" flight", flows::num_in_flight(flows) as u64);
    named(page, b" queued", flows.num_completed as u64);
    named(page, b" peak", flows.totals.peak_in_flight as u64);
}

fn floor_and_drain(page: &mut Page, tolerance: Tolerance, clock: Clock)
    requires { page.old.len ≤ 49520 }
    ensures { page.new.len ≤ 49600 }
{
    page.put_text(b" floor");
    spaced_double(page, tolerance.floor);
    page.put_text(b" drained");
    spaced_double(page, clock.last_drain);
    page.put_text(b"\n");
}

// ---- kinds, edges

fn kinds(page: &mut Page, totals: Totals)
    requires { page.old.len ≤ 49600 }
{
    kind(page, b"kind 0", totals.worker);
    kind(page, b"kind 1", totals.handoff);
    kind(page, b"kind 2", totals.write);
}

fn kind(page: &mut Page, name: &[u8; 6], counted: Tally)
    requires { page.old.len ≤ 60000 }
    ensures { page.new.len ≤ page.old.len + 87 }
{
    page.put_text(name);
    tally(page, counted);
    page.put_text(b"\n");
}

fn edge_line<R: Print + Eprint + Alloc>(rt: &R, page: &mut Page, number: usize, edge: Edge) {
    room(rt, page);
    named(page, b"edge", number as u64);
    session_fields::edge(page, edge);
    page.put_text(b"\n");
}

// ---- slots, the queue

// The line of a taken slot.
fn slot<R: Print + Eprint + Alloc>(rt: &R, page: &mut Page, number: usize, t: Transfer) {
    room(rt, page);
    named(page, b"slot", number as u64);
    spaced_short(page, t.id);
    spaced_owner(page, t.owner);
    remains(page, t);
    route(page, t.path);
    limited_by(page, t.limit);
}

// The doubles of a transfer.
fn remains(page: &mut Page, t: Transfer)
    requires { page.old.len ≤ 50000 }
    ensures { page.new.len ≤ page.old.len + 85 }
{
    spaced_double(page, t.latency_remaining);
    spaced_double(page, t.bytes_remaining);
    cap_field(page, t.rate_cap);
    spaced_double(page, t.rate);
    spaced_double(page, t.last_update);
}

fn cap_field(page: &mut Page, cap: Cap)
    requires { page.old.len ≤ 65400 }
    ensures { page.new.len ≤ page.old.len + 17 }
{
    match cap {
        Cap::AtMost(limit) => spaced_double(page, limit),
        Cap::Uncapped => page.put_text(b" -"),
    }
}

// The end of a slot's line: who froze the transfer at the last filling.
fn limited_by(page: &mut Page, by: Limit)
    requires { page.old.len ≤ 60200 }
    ensures { page.new.len ≤ 60300 }
{
    page.put_text(b" by ");
    limit(page, by);
    page.put_text(b"\n");
}

// A path with its length in front.
fn route(page: &mut Page, path: Route)
    requires { page.old.len ≤ 60000 }
    ensures { page.new.len ≤ 60200 }
{
    spaced(page, path.len as u64);
    for edge in path.hops.iter().take(path.len) {
        spaced(page, *edge as u64);
    }
}

fn queued<R: Print + Eprint + Alloc>(rt: &R, page: &mut Page, entry: Completion) {
    room(rt, page);
    page.put_text(b"queued");
    spaced_owner(page, entry.owner);
    spaced_short(page, entry.id);
    page.put_text(b"\n");
}
