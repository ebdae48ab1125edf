// Answers as text, one line each: a double by its bits, with a remark in decimal for people where one can be made.
#![tactic(auto)]

ghost use Rattle.std.specs.Prelude.{◌+◌, ◌*◌, ◌<◌, ◌≤◌, ◌≡◌, length};
ghost use Rattle.rules.specs.Invariant.{Invariant};
ghost use Rattle.flows.specs.Fits.{width_of, Fits, FitsSaid};

use rules::{Answer, Call, Delay, Edge, EdgeRead, Flows, Limit, Said, TimeLeft};
use session_asked::Look;
use session_dumps::dump;
use session_fields::{limit, named, spaced, spaced_short, tally};
use session_pages::{Page, readable};

// ---- calls

// What a call said, so many numbers an entry where it lists, with what became of its buffer.
#[tactic(auto, unfolding(flows::specs::Fits::FitsSaid))]
pub fn said(said: Said, width: usize, lent: &[u32], page: &mut Page)
    requires fits_said { FitsSaid width (length lent.now) said }
    requires lent_len_bound { (length lent.now ≤ 1024) × (page.old.len ≤ 49152) }
    ensures within { page.new.len ≤ 65536 }
    ensures told { 0 < page.new.len }
{
    match said {
        Said::Answered(given) => answer(given, width, lent, page),
        Said::Edge(read) => edge_read(page, read),
        Said::TimeLeft(left) => time_left(page, left),
        Said::Truth(yes) => truth(page, yes),
        Said::Number(n) => numbered(page, b"number", n as u64),
    }
}

fn edge_read(page: &mut Page, read: EdgeRead)
    requires { page.old.len ≤ 49152 }
    ensures { 0 < page.new.len }
{
    match read {
        EdgeRead::Found(edge) => edge_line(page, edge),
        EdgeRead::Refused(n) => numbered(page, b"refused", u64::from(n)),
    }
}

// The time left, with a word on whether that is of now; the remark on a time comes last.
fn time_left(page: &mut Page, left: TimeLeft)
    requires { page.old.len ≤ 49152 }
    ensures { 0 < page.new.len }
{
    if let Answer::Value(x) = left.answer {
        page.put_text(b"value ");
        page.put_double(x);
        whether_of_now(page, left.behind);
        remark(page, x);
    } else {
        no_time(page, left.answer);
        whether_of_now(page, left.behind);
    }
    page.put_text(b"\n");
}

fn no_time(page: &mut Page, answer: Answer)
    requires { page.old.len ≤ 49152 }
    ensures { page.new.len ≤ 49200 }
{
    match answer {
        Answer::CannotFinish => page.put_text(b"cannot_finish"),
        _ => page.put_text(b"unknown"),
    }
}

fn whether_of_now(page: &mut Page, behind: bool)
    requires { page.old.len ≤ 49200 }
    ensures { page.new.len ≤ 49300 }
{
    if behind {
        page.put_text(b" behind");
    } else {
        page.put_text(b" current");
    }
}

fn truth(page: &mut Page, yes: bool)
    requires { page.old.len ≤ 49152 }
    ensures { 0 < page.new.len }
{
    if yes {
        page.put_text(b"yes\n");
    } else {
        page.put_text(b"no\n");
    }
}

// An answer, with the list and what became of the buffer where it was lent one.
#[tactic(auto, unfolding(flows::specs::Fits::Fits))]
fn answer(answer: Answer, width: usize, lent: &[u32], page: &mut Page)
    requires fits { Fits width (length lent.now) answer }
    requires lent_len_bound { (length lent.now ≤ 1024) × (page.old.len ≤ 49152) }
    ensures { 0 < page.new.len }
{
    match answer {
        Answer::Done => page.put_text(b"done\n"),
        Answer::Added(edge) => numbered(page, b"edge", u64::from(edge)),
        Answer::Listed(n) => list(page, n, width, lent),
        Answer::Nothing => {
            page.put_text(b"nothing");
            unwritten(page, lent);
        }
        Answer::Unknown | Answer::CannotFinish => {
            no_time(page, answer);
            page.put_text(b"\n");
        }
        Answer::Value(x) => valued(page, b"value ", x),
        Answer::Due(delay) => due(page, delay),
        Answer::Limited(by) => limited(page, by),
        Answer::Refused(n) => {
            page.put_text(b"refused");
            spaced_short(page, n);
            unwritten(page, lent);
        }
    }
}

// The end of an answer that writes no list, with a word where the buffer was written all the same.
fn unwritten(page: &mut Page, lent: &[u32])
    requires { page.old.len ≤ 65000 }
    ensures { 0 < page.new.len }
{
    if untouched(lent) {
        page.put_text(b"\n");
    } else {
        page.put_text(b" buffer-changed\n");
    }
}

// A list as it stands in the buffer, and whether the places behind it are as they were.
fn list(page: &mut Page, n: usize, width: usize, lent: &[u32])
    requires width_in_bounds { n * width ≤ length lent.now }
    requires lent_len_bound { (length lent.now ≤ 1024) × (page.old.len ≤ 49152) }
    ensures { 0 < page.new.len }
{
    let (listed, tail) = lent.split_at(n * width);
    page.put_text(b"list");
    spaced(page, n as u64);
    entries(page, listed);
    if untouched(tail) {
        page.put_text(b" tail-kept\n");
    } else {
        page.put_text(b" tail-changed\n");
    }
}

// The numbers of a list, each with a blank in front.
pub fn entries(page: &mut Page, list: &[u32])
    requires { (length list.now ≤ 1024) × (page.old.len ≤ 50000) }
    ensures { page.new.len ≤ 65000 }
{
    for n in list {
        spaced_short(page, *n);
    }
}

// Whether every place still holds what it was lent with.
fn untouched(lent: &[u32]) -> bool {
    lent.iter().all(|x| *x == 0xa5a5_a5a5)
}

fn due(page: &mut Page, delay: Delay)
    requires { page.old.len ≤ 49152 }
    ensures { 0 < page.new.len }
{
    match delay {
        Delay::After(x) => valued(page, b"after ", x),
        Delay::Never => page.put_text(b"never\n"),
    }
}

fn limited(page: &mut Page, by: Limit)
    requires { page.old.len ≤ 49152 }
    ensures { 0 < page.new.len }
{
    limit(page, by);
    page.put_text(b"\n");
}

// How many numbers an entry of a call's list has; 0 where it lists nothing.
#[tactic(auto, unfolding(flows::specs::Fits::width_of))]
pub fn width(call: Call) -> usize
    ensures { result ≡ width_of call }
{
    match call {
        Call::Advance(_) => 3,
        Call::OwnersWithCompletions => 2,
        Call::TakeCompleted(_) => 1,
        _ => 0,
    }
}

// ---- looks

// What is told of the state as it stands.
pub fn look<R: Print + Eprint + Alloc>(rt: &R, flows: Flows, look: Look, page: &mut Page)
    requires invariant { Invariant flows }
    requires at_bound { page.old.len ≤ 49152 }
    ensures within { page.new.len ≤ 65536 }
    ensures told { 0 < page.new.len }
{
    match look {
        Look::Now => valued(page, b"value ", flows::now(flows)),
        Look::Counts => counts(flows, page),
        Look::Dump => dump(rt, flows, page),
    }
}

fn edge_line(page: &mut Page, edge: Edge)
    requires { page.old.len ≤ 49152 }
    ensures { 0 < page.new.len }
{
    page.put_text(b"edge");
    session_fields::edge(page, edge);
    remark_of_three(page, edge);
    page.put_text(b"\n");
}

// All three in decimal, or none.
fn remark_of_three(page: &mut Page, edge: Edge)
    requires { page.old.len ≤ 65000 }
    ensures { page.new.len ≤ page.old.len + 153 }
{
    if readable(edge.capacity)
        && readable(edge.bytes_moved)
        && readable(edge.busy_transfer_seconds)
    {
        page.put_text(b" # ");
        page.put_fixed(edge.capacity);
        page.put_text(b" ");
        page.put_fixed(edge.bytes_moved);
        page.put_text(b" ");
        page.put_fixed(edge.busy_transfer_seconds);
    }
}

fn counts(flows: Flows, page: &mut Page)
    requires invariant { Invariant flows }
    requires at_bound { page.old.len ≤ 49152 }
    ensures { 0 < page.new.len }
{
    let totals = flows::totals(flows);
    sizes(flows, page);
    spaced(page, totals.peak_in_flight as u64);
    tally(page, totals.worker);
    tally(page, totals.handoff);
    tally(page, totals.write);
    page.put_text(b"\n");
}

fn sizes(flows: Flows, page: &mut Page)
    requires invariant { Invariant flows }
    requires at_bound { page.old.len ≤ 49152 }
    ensures { page.new.len ≤ 49300 }
{
    named(page, b"counts", flows::num_edges(flows) as u64);
    spaced(page, flows::num_in_flight(flows) as u64);
    spaced(page, flows::num_uncollected(flows) as u64);
}

// ---- what a line is made of

fn numbered(page: &mut Page, name: &[u8], n: u64)
    requires { (length name.now ≤ 8) × (page.old.len ≤ 49152) }
    ensures { 0 < page.new.len }
{
    named(page, name, n);
    page.put_text(b"\n");
}

// A double with a remark, where it can have one.
fn valued(page: &mut Page, name: &[u8], x: f64)
    requires { (length name.now ≤ 8) × (page.old.len ≤ 49152) }
    ensures { 0 < page.new.len }
{
    page.put_text(name);
    page.put_double(x);
    remark(page, x);
    page.put_text(b"\n");
}

// A double in decimal for people, where that can be read.
pub fn remark(page: &mut Page, x: f64)
    requires { page.old.len ≤ 65400 }
    ensures { page.new.len ≤ page.old.len + 60 }
{
    if readable(x) {
        page.put_text(b" # ");
        page.put_fixed(x);
    }
}
