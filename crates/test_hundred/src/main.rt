// A hundred calls of each kind on one simulator; of each kind it says how many did their work, found nothing or were refused, and what the last one
// answered. tools/stack runs it in 1 MB of stack. What it has to print is what the patched copy of the Rust answers to the same calls.
#![tactic(auto)]

ghost use Rattle.std.specs.Prelude.{◌<◌};
ghost use Rattle.rules.specs.Invariant.{Invariant};

use flows::{Answer, Cap, Delay, EdgeRead, Flows, Limit, Outcome, Owner};
use std::io;

// How many calls of a kind did their work, found nothing to do it on, or were refused.
#[derive(Clone, Copy, Default)]
struct Counts {
    done: u64,
    nothing: u64,
    refused: u64,
}

fn main(rt: HostRuntime) -> io::Result<()> {
    let mut flows = fresh();
    begun(&rt, &mut flows)?;
    shared(&rt, &mut flows)?;
    ended(&rt, &mut flows)?;
    asked(&rt, &flows)?;
    read(&rt, &flows)?;
    tallied(&rt, &flows)
}

// Not joined to main, whose frame stands below every call: it would bring a place for one more simulator along.
#[inline(never)]
fn fresh() -> Flows
    ensures { Invariant result }
{
    Flows::new()
}

// ---- the kinds, in the order in which they are called

fn begun(rt: &HostRuntime, flows: &mut Flows) -> io::Result<()>
    requires { Invariant flows.now }
    ensures { Invariant flows.new }
{
    hundred(
        rt,
        "add_edge",
        flows,
        |flows, i| flows::add_edge(flows, doubles::whole(u64::from(i))),
    )?;
    hundred(rt, "widen", flows, |flows, i| flows::widen(flows, i, 1.0))?;
    hundred(rt, "submit", flows, submitted)?;
    hundred(rt, "submit_capped", flows, submitted_capped)
}

fn shared(rt: &HostRuntime, flows: &mut Flows) -> io::Result<()>
    requires { Invariant flows.now }
    ensures { Invariant flows.new }
{
    hundred(
        rt,
        "next_completion_delay",
        flows,
        |flows, _| flows::next_completion_delay(flows),
    )?;
    hundred(rt, "rate", flows, |flows, i| flows::rate(flows, 2 * i))?;
    hundred(
        rt,
        "bottleneck",
        flows,
        |flows, i| flows::bottleneck(flows, 2 * i),
    )?;
    questions(rt, "estimate_new", |i| estimated(*flows, i))?;
    questions(rt, "estimate_new_capped", |i| estimated_capped(*flows, i))?;
    hundred(rt, "settle", flows, |flows, _| flows::settle(flows))?;
    questions(rt, "remaining", |i| flows::remaining(*flows, i).answer)
}

fn ended(rt: &HostRuntime, flows: &mut Flows) -> io::Result<()>
    requires { Invariant flows.now }
    ensures { Invariant flows.new }
{
    let mut lent = [0u32; 768];
    hundred(
        rt,
        "advance",
        flows,
        |flows, i| flows::advance(flows, doubles::whole(u64::from(i)) / 16.0, &mut lent),
    )?;
    hundred(rt, "cancel", flows, |flows, i| flows::cancel(flows, 2 * i))?;
    questions(
        rt,
        "owners_with_completions",
        |_| flows::owners_with_completions(*flows, &mut lent),
    )?;
    hundred(
        rt,
        "take_completed",
        flows,
        |flows, i| flows::take_completed(flows, Owner::Worker(i), &mut lent),
    )
}

fn asked(rt: &HostRuntime, flows: &Flows) -> io::Result<()>
    requires { Invariant flows.now }
{
    questions(
        rt,
        "mean_in_flight",
        |i| flows::mean_in_flight(*flows, i % 64, doubles::whole(u64::from(i))),
    )?;
    questions(rt, "edge", |i| edge(*flows, i % 64))?;
    questions(rt, "contains", |i| contains(*flows, i))?;
    questions(rt, "now", |_| Answer::Value(flows::now(*flows)))
}

fn read(rt: &HostRuntime, flows: &Flows) -> io::Result<()> {
    questions(rt, "rounds", |_| Answer::Listed(flows::rounds(*flows)))?;
    questions(
        rt,
        "num_edges",
        |_| Answer::Listed(flows::num_edges(*flows)),
    )?;
    questions(
        rt,
        "num_in_flight",
        |_| Answer::Listed(flows::num_in_flight(*flows)),
    )?;
    questions(
        rt,
        "num_uncollected",
        |_| Answer::Listed(flows::num_uncollected(*flows)),
    )?;
    questions(
        rt,
        "peak_in_flight",
        |_| Answer::Listed(flows::peak_in_flight(*flows)),
    )?;
    questions(
        rt,
        "totals",
        |_| Answer::Listed(flows::totals(*flows).peak_in_flight),
    )
}

fn tallied(rt: &HostRuntime, flows: &Flows) -> io::Result<()> {
    questions(
        rt,
        "submitted_counts",
        |_| whole(flows::submitted_counts(*flows).worker),
    )?;
    questions(
        rt,
        "completed_counts",
        |_| whole(flows::completed_counts(*flows).handoff),
    )?;
    questions(
        rt,
        "cancelled_counts",
        |_| whole(flows::cancelled_counts(*flows).worker),
    )?;
    questions(
        rt,
        "bytes_submitted",
        |_| Answer::Value(flows::bytes_submitted(*flows).worker),
    )
}

// ---- a hundred of a kind

// Calls that may change the simulator: each is given it as the one before left it. Neither this nor `questions` is joined to its caller, where the
// places of all kinds would stand in one frame.
#[inline(never)]
fn hundred<R: Print, F: FnMut(Flows, u32) -> Outcome>(
    rt: &R,
    name: &str,
    flows: &mut Flows,
    mut call: F,
) -> io::Result<()>
    requires sound { Invariant flows.now }
    requires callable { (f : F) (given : _) (i : _) → Invariant given → i < 100 → F.pre f given i }
    requires keeps { (f : F) (given : _) (i : _) (made : _) (f' : F) → Invariant given → i < 100 → F.step f given i made f' → Invariant made.flows }
    ensures { Invariant flows.new }
{
    let mut counts = Counts::default();
    let mut last = 0;
    for i in 0..100 {
        let made = call(*flows, i);
        *flows = made.flows;
        counts.count(made.answer);
        last = number(made.answer);
    }
    tell(rt, name, counts, last)
}

// Questions, which leave the simulator as it is.
#[inline(never)]
fn questions<R: Print, F: FnMut(u32) -> Answer>(rt: &R, name: &str, mut ask: F) -> io::Result<()>
    requires { F.IsAlwaysCallable ask }
{
    let mut counts = Counts::default();
    let mut last = 0;
    for i in 0..100 {
        let answer = ask(i);
        counts.count(answer);
        last = number(answer);
    }
    tell(rt, name, counts, last)
}

// ---- the i-th of a kind

fn submitted(flows: Flows, i: u32) -> Outcome
    requires sound { Invariant flows }
    ensures { Invariant result.flows }
{
    let path = [i % 64];
    let time = doubles::whole(u64::from(i)) / 1024.0;
    flows::submit(
        flows,
        i,
        Owner::Worker(i % 4),
        &path,
        u64::from(i),
        0.5,
        time,
    )
}

fn submitted_capped(flows: Flows, i: u32) -> Outcome
    requires sound { Invariant flows }
    requires bounded { i < 100 }
    ensures { Invariant result.flows }
{
    let path = [i % 64, 63 - i % 64];
    let bytes = u64::from(i);
    let cap = Cap::AtMost(doubles::whole(bytes));
    let time = doubles::whole(bytes + 100) / 1024.0;
    flows::submit_capped(flows, i + 100, Owner::Handoff, &path, bytes, 0.5, cap, time)
}

fn estimated(flows: Flows, i: u32) -> Answer
    requires { Invariant flows }
{
    flows::estimate_new(flows, &[i % 64], doubles::whole(u64::from(i)), 0.5)
}

fn estimated_capped(flows: Flows, i: u32) -> Answer
    requires { Invariant flows }
{
    let x = doubles::whole(u64::from(i));
    flows::estimate_new_capped(flows, &[i % 64], x, 0.5, Cap::AtMost(x))
}

fn edge(flows: Flows, number: u32) -> Answer
    requires { Invariant flows }
{
    match flows::edge(flows, number) {
        EdgeRead::Found(e) => Answer::Value(e.bytes_moved),
        EdgeRead::Refused(n) => Answer::Refused(n),
    }
}

fn contains(flows: Flows, id: u32) -> Answer {
    if flows::contains(flows, id) {
        Answer::Done
    } else {
        Answer::Unknown
    }
}

fn whole(n: u64) -> Answer {
    Answer::Value(doubles::whole(n))
}

// ---- the lines

impl Counts {
    fn count(&mut self, answer: Answer) {
        let of_its_kind = match answer {
            Answer::Refused(_) => &mut self.refused,
            Answer::Unknown | Answer::Nothing => &mut self.nothing,
            _ => &mut self.done,
        };
        *of_its_kind = of_its_kind.wrapping_add(1);
    }
}

fn tell(rt: &impl Print, name: &str, counts: Counts, last: u64) -> io::Result<()> {
    let Counts {
        done,
        nothing,
        refused,
    } = counts;
    println!(rt; "{name} done {done} nothing {nothing} refused {refused} last {last:016x}")
}

// An answer as one number: a double by its bits.
fn number(answer: Answer) -> u64 {
    match answer {
        Answer::Added(n) => n as u64,
        Answer::Listed(n) => n as u64,
        Answer::Refused(n) => n as u64,
        Answer::Value(x) => doubles::bits_of(x),
        Answer::Due(d) => delay(d),
        Answer::Limited(l) => limit(l),
        _ => 0,
    }
}

fn delay(d: Delay) -> u64 {
    match d {
        Delay::After(x) => doubles::bits_of(x),
        Delay::Never => 0,
    }
}

// The number of the edge, if it is one.
fn limit(l: Limit) -> u64 {
    match l {
        Limit::AtEdge(e) => e as u64,
        _ => 0,
    }
}
