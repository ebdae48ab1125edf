// Estimates: the time a transfer would need that is not there yet.
#![tactic(auto)]

ghost use Rattle.std.specs.Prelude.{◌≡◌, ◌||◌, ◌+◌, ◌≤◌};
ghost use Rattle.doubles.specs.Doubles.{◌⊘◌, whole};
ghost use Rattle.rules.specs.Filling.{takes_part};
ghost use Rattle.rules.specs.Refusals.{not_finite, not_an_amount, not_a_cap};
ghost use Rattle.rules.specs.Questions.{estimate_new_capped, estimate_new, estimate, path_share, share_or_cap, time_at_share, time_alone};
ghost use Rattle.rules.specs.Invariant.{Invariant};
ghost use Rattle.paths.specs.Known.{Known};
ghost use Rattle.crossings.specs.Loads.{loads_by};

use rules::{Answer, Cap, Edge, Flows};

// How long a new transfer would take without a cap of its own: the Rust has a name for each.
#[tactic(auto, unfolding(rules::specs::Questions::estimate_new))]
pub fn estimate_new(flows: Flows, path: &[u32], bytes: f64, latency: f64) -> Answer
    requires { Invariant flows }
    ensures { result ≡ estimate_new path.now bytes latency flows }
{
    estimate_new_capped(flows, path, bytes, latency, Cap::Uncapped)
}

// How long a new transfer would take, with or without a cap. Nothing is drained for it.
#[tactic(auto, using(crate::proofs::Shares::known_path), unfolding(rules::specs::Questions::estimate_new_capped, rules::specs::Refusals::refusing, rules::specs::Refusals::too_long, rules::specs::Refusals::no_such_edge))]
pub fn estimate_new_capped(
    flows: Flows,
    path: &[u32],
    bytes: f64,
    latency: f64,
    rate_cap: Cap,
) -> Answer
    requires { Invariant flows }
    ensures { result ≡ estimate_new_capped path.now bytes latency rate_cap flows }
{
    if not_numbers(bytes, latency, rate_cap) {
        return Answer::Refused(1);
    }
    if arguments::names_no_edge(path, flows.num_edges) {
        return Answer::Refused(3);
    }
    if 8 < path.len() {
        return Answer::Refused(4);
    }
    let amount = doubles::read_zero(bytes);
    let wait = doubles::larger(doubles::read_zero(latency), 0.0);
    let cap = arguments::read_cap(rate_cap);
    Answer::Value(estimate(&flows, path, amount, wait, cap))
}

// Whether one of the numbers cannot be taken; an estimate has no time, and a submission no double for its bytes.
fn not_numbers(bytes: f64, latency: f64, cap: Cap) -> bool
    ensures { result ≡ (not_an_amount bytes || not_finite latency || not_a_cap cap) }
{
    arguments::not_an_amount(bytes) || arguments::not_finite(latency) || arguments::not_a_cap(cap)
}

// The time over a path whose edges there are. Everybody who takes part is counted once, and then the path is walked.
#[tactic(auto, using(crate::proofs::Shares::by_length))]
fn estimate(flows: &Flows, path: &[u32], bytes: f64, latency: f64, cap: Cap) -> f64
    requires sound { Invariant flows.now }
    requires known { Known 64 path.now }
    ensures { result ≡ estimate flows.now path.now bytes latency cap }
{
    if path.is_empty() {
        return time_alone(latency, bytes, cap);
    }
    let load = crossings::loads_of(&flows.in_flight, transfers::takes_part);
    let share = path_share(flows, &load, path);
    time_at_share(latency, bytes, share_or_cap(cap, share))
}

// The smallest share along a path. What the later edges offer is compared with the least of the earlier ones.
fn path_share(flows: &Flows, load: &[usize; 64], path: &[u32]) -> f64
    requires sound { Invariant flows.now }
    requires right { load.now ≡ loads_by takes_part flows.now.in_flight }
    requires known { Known 64 path.now }
    ensures { result ≡ path_share flows.now path.now }
{
    let mut share = f64::INFINITY;
    for hop in path {
        let e = arguments::wide(*hop);
        share = doubles::smaller(share, new_share(flows.edges[e], load[e]));
    }
    share
}

// What one more transfer would get of an edge.
fn new_share(edge: Edge, load: usize) -> f64
    requires { load ≤ 2048 }
    ensures { result ≡ edge.capacity ⊘ whole (load + 1) }
{
    edge.capacity / doubles::whole((load + 1) as u64)
}

// A share, or the cap where that is smaller.
#[tactic(auto, unfolding(rules::specs::Questions::share_or_cap))]
fn share_or_cap(cap: Cap, share: f64) -> f64
    ensures { result ≡ share_or_cap cap share }
{
    let Cap::AtMost(c) = cap else {
        return share;
    };
    doubles::smaller(share, c)
}

// The time over shared edges, which never ends at a share of nothing; nor is an infinite share one to go by.
#[tactic(auto, unfolding(rules::specs::Questions::time_at_share))]
fn time_at_share(latency: f64, bytes: f64, share: f64) -> f64
    ensures { result ≡ time_at_share latency bytes share }
{
    if share <= 0.0 || !doubles::is_finite(share) {
        f64::INFINITY
    } else {
        latency + bytes / share
    }
}

// The time where no edge is crossed: bytes count only under a cap above 0.
#[tactic(auto, unfolding(rules::specs::Questions::time_alone))]
fn time_alone(latency: f64, bytes: f64, cap: Cap) -> f64
    ensures { result ≡ time_alone latency bytes cap }
{
    let Cap::AtMost(c) = cap else {
        return latency;
    };
    if c > 0.0 {
        latency + bytes / c
    } else {
        latency
    }
}
