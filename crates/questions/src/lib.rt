// Questions with some work to them. Three bring rates up to date and hand back the simulator that answered; two read an edge.
#![tactic(auto)]

ghost use Rattle.std.specs.Prelude.{◌≡◌};
ghost use Rattle.std.specs.Fn.{FnOnceReturnsAt};
ghost use Rattle.rules.specs.declared.Answer.{Answer};
ghost use Rattle.rules.specs.declared.Answer.TheVariants.{Unknown};
ghost use Rattle.rules.specs.declared.Transfer.{Transfer};
ghost use Rattle.rules.specs.Records.{of_id};
ghost use Rattle.rules.specs.Clock.{ensure_rates};
ghost use Rattle.rules.specs.Refusals.{no_such_edge};
ghost use Rattle.rules.specs.Questions.{next_completion_delay, delay_until, rate, bottleneck, mean_in_flight, mean_over, edge as the_edge};
ghost use Rattle.rules.specs.Invariant.{Invariant};

use rules::{Answer, Delay, Edge, EdgeRead, Flows, NextDone, Outcome, Transfer};

// ---- answered under rates brought up to date

// How long until somebody is done, if anybody ever is.
#[tactic(auto, unfolding(rules::specs::Questions::next_completion_delay))]
pub fn next_completion_delay(flows: Flows) -> Outcome
    requires { Invariant flows }
    ensures exactly { result ≡ next_completion_delay flows }
    ensures sound { Invariant result.flows }
{
    up_to_date(
        flows,
        |f| Answer::Due(delay_until(f.clock.now, f.clock.next_done_at)),
    )
}

// From one time to another; a time that is past has no delay left.
#[tactic(auto, unfolding(rules::specs::Questions::delay_until))]
fn delay_until(now: f64, next_done_at: NextDone) -> Delay
    ensures { result ≡ delay_until now next_done_at }
{
    let NextDone::At(next) = next_done_at else {
        return Delay::Never;
    };
    Delay::After(doubles::larger(next - now, 0.0))
}

// The bytes a second that a transfer gets. (A public name of its own, as `bottleneck` is.)
#[tactic(auto, unfolding(rules::specs::Questions::rate, rules::specs::Questions::rate_in))]
pub fn rate(flows: Flows, id: u32) -> Outcome
    requires { Invariant flows }
    ensures exactly { result ≡ rate id flows }
    ensures sound { Invariant result.flows }
{
    up_to_date(
        flows,
        |f| read_of(&f.in_flight, id, |t| Answer::Value(t.rate)),
    )
}

// Why a transfer gets no more.
#[tactic(auto, unfolding(rules::specs::Questions::bottleneck, rules::specs::Questions::limit_in))]
pub fn bottleneck(flows: Flows, id: u32) -> Outcome
    requires { Invariant flows }
    ensures exactly { result ≡ bottleneck id flows }
    ensures sound { Invariant result.flows }
{
    up_to_date(
        flows,
        |f| read_of(&f.in_flight, id, |t| Answer::Limited(t.limit)),
    )
}

// What is asked of a simulator once its rates are brought up to date.
fn up_to_date<F: FnOnce(&Flows) -> Answer>(mut flows: Flows, ask: F) -> Outcome
    requires callable { F.IsAlwaysCallable ask }
    requires sound { Invariant flows }
    ensures exactly { result.flows ≡ ensure_rates flows }
    ensures asked { FnOnceReturnsAt F.FnOnce ask (ensure_rates flows) result.answer }
    ensures sound { Invariant result.flows }
{
    clock::ensure_rates(&mut flows);
    Outcome {
        answer: ask(&flows),
        flows,
    }
}

// What is read in the slot that holds the transfer, if one does.
fn read_of<F: FnOnce(Transfer) -> Answer>(in_flight: &[Transfer; 256], id: u32, read: F) -> Answer
    requires { F.IsAlwaysCallable read }
    ensures { (some : Transfer → Answer) → ((t : Transfer) (a : Answer) → F.post read t a → a ≡ some t) → result ≡ of_id id Unknown some in_flight.now }
{
    let t = slots::of_id(in_flight, id);
    if t.taken { read(t) } else { Answer::Unknown }
}

// ---- edges

// An edge by its number.
#[tactic(auto, unfolding(rules::specs::Questions::edge, rules::specs::Refusals::refusing))]
pub fn edge(flows: Flows, edge: u32) -> EdgeRead
    requires { Invariant flows }
    ensures { result ≡ the_edge edge flows }
{
    if no_such_edge(&flows, edge) {
        return EdgeRead::Refused(3);
    }
    EdgeRead::Found(flows.edges[arguments::wide(edge)])
}

// The mean number of crossings in flight on an edge, from 0 to `until`.
#[tactic(auto, unfolding(rules::specs::Questions::mean_in_flight, rules::specs::Refusals::refusing))]
pub fn mean_in_flight(flows: Flows, edge: u32, until: f64) -> Answer
    requires { Invariant flows }
    ensures { result ≡ mean_in_flight edge until flows }
{
    if arguments::not_finite(until) {
        return Answer::Refused(1);
    }
    if no_such_edge(&flows, edge) {
        return Answer::Refused(3);
    }
    Answer::Value(mean_over(flows.edges[arguments::wide(edge)], until))
}

// Whether no edge has that number.
#[tactic(auto, unfolding(rules::specs::Refusals::no_such_edge))]
fn no_such_edge(flows: &Flows, edge: u32) -> bool
    ensures { result ≡ no_such_edge flows.now edge }
{
    flows.num_edges <= arguments::wide(edge)
}

// An edge's load integral spread over a time; none where no time has passed.
#[tactic(auto, unfolding(rules::specs::Questions::mean_over))]
fn mean_over(edge: Edge, until: f64) -> f64
    ensures { result ≡ mean_over until edge }
{
    if until > 0.0 {
        edge.busy_transfer_seconds / until
    } else {
        0.0
    }
}
