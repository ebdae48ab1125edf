// The calls that change edges: one more edge, and another capacity. Each tests its refusals first, lowest number first, then drains to the clock, makes its change and leaves rates stale.
#![tactic(auto)]

ghost use Rattle.std.specs.Prelude.{◌≡◌};
ghost use Rattle.rules.specs.Edges.{add_edge, no_widening, widen};
ghost use Rattle.rules.specs.Invariant.{Invariant};

use rules::{Answer, Edge, Flows, Outcome};

// One more edge, which gets the next number.
pub fn add_edge(mut flows: Flows, capacity: f64) -> Outcome
    requires { Invariant flows }
    ensures exactly { result ≡ add_edge capacity flows }
    ensures sound { Invariant result.flows }
{
    if arguments::not_an_amount(capacity) {
        return arguments::refused(flows, 1);
    }
    let e = flows.num_edges;
    if 64 <= e {
        return arguments::refused(flows, 7);
    }
    clock::drained_to_clock(&mut flows);
    flows.edges[e] = Edge {
        capacity: doubles::read_zero(capacity),
        bytes_moved: 0.0,
        busy_transfer_seconds: 0.0,
    };
    flows.num_edges = e + 1;
    clock::made_stale(&mut flows);
    Outcome {
        answer: Answer::Added(e as u32),
        flows,
    }
}

// An amount of either sign added to an edge's capacity, from the clock on.
pub fn widen(mut flows: Flows, edge: u32, bytes_per_sec: f64) -> Outcome
    requires { Invariant flows }
    ensures exactly { result ≡ widen edge bytes_per_sec flows }
    ensures sound { Invariant result.flows }
{
    let e = edge as usize;
    if no_widening(&flows, e, bytes_per_sec) {
        return arguments::refused(flows, 1);
    }
    if flows.num_edges <= e {
        return arguments::refused(flows, 3);
    }
    clock::drained_to_clock(&mut flows);
    flows.edges[e].capacity += doubles::read_zero(bytes_per_sec);
    clock::made_stale(&mut flows);
    Outcome {
        answer: Answer::Done,
        flows,
    }
}

// Whether an amount is no number, or would leave an edge that is there without a capacity.
fn no_widening(flows: &Flows, e: usize, amount: f64) -> bool
    requires { Invariant flows.now }
    ensures { result ≡ no_widening amount e flows.now }
{
    arguments::not_finite(amount)
        || e < flows.num_edges && arguments::not_an_amount(flows.edges[e].capacity + amount)
}
