// Numbers, caps and paths as a caller hands them over: whether they can be taken, how they are read, and the refusal where not.
#![tactic(auto)]

ghost use Rattle.std.specs.Prelude.{◌≤◌, ◌≡◌, leb, length};
ghost use Rattle.rules.specs.Lists.{any};
ghost use Rattle.rules.specs.Records.{route};
ghost use Rattle.rules.specs.Refusals.{refused, not_finite, not_an_amount, not_a_time, not_a_cap, read_cap};

use rules::{Answer, Cap, Flows, Outcome, Route};

// A NaN or an infinity.
#[tactic(auto, unfolding(rules::specs::Refusals::not_finite))]
pub fn not_finite(x: f64) -> bool
    ensures { result ≡ not_finite x }
{
    !doubles::is_finite(x)
}

// A NaN, an infinity or something below zero.
#[tactic(auto, unfolding(rules::specs::Refusals::not_finite, rules::specs::Refusals::not_an_amount))]
pub fn not_an_amount(x: f64) -> bool
    ensures { result ≡ not_an_amount x }
{
    not_finite(x) || x < 0.0
}

// No time from 0 to 2^40 seconds.
pub fn not_a_time(x: f64) -> bool
    ensures { result ≡ not_a_time x }
{
    not_an_amount(x) || 1099511627776.0 < x
}

// A cap that is no amount.
#[tactic(auto, unfolding(rules::specs::Refusals::not_a_cap))]
pub fn not_a_cap(cap: Cap) -> bool
    ensures { result ≡ not_a_cap cap }
{
    let Cap::AtMost(c) = cap else {
        return false;
    };
    not_an_amount(c)
}

// The cap with a negative zero read as zero.
#[tactic(auto, unfolding(rules::specs::Refusals::read_cap))]
pub fn read_cap(cap: Cap) -> Cap
    ensures { result ≡ read_cap cap }
{
    let Cap::AtMost(c) = cap else {
        return Cap::Uncapped;
    };
    Cap::AtMost(doubles::read_zero(c))
}

// Whether a lent path names an edge that n edges do not have.
pub fn names_no_edge(path: &[u32], n: usize) -> bool
    ensures { result ≡ any (leb n) path.now }
{
    path.iter().any(|e| n <= wide(*e))
}

// A lent path of at most eight edges, put into the places of a transfer: by index, since it fills a longer array.
pub fn route_of(path: &[u32]) -> Route
    requires { length path.now ≤ 8 }
    ensures { result ≡ route path.now }
{
    let mut hops: [usize; 8] = [0; 8];
    for i in 0..path.len() {
        hops[i] = wide(path[i]);
    }
    Route {
        hops,
        len: path.len(),
    }
}

// A u32 as an edge number: by a cast, since Rust has no `From` between the two.
pub fn wide(x: u32) -> usize
    ensures { result ≡ x }
{
    x as usize
}

// A refusal leaves the simulator as it was.
pub fn refused(flows: Flows, number: u32) -> Outcome
    ensures { result ≡ refused flows number }
{
    Outcome {
        answer: Answer::Refused(number),
        flows,
    }
}
