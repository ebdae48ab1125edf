// How often each edge is crossed, and what that adds to the load integrals.
#![tactic(auto)]

ghost use Rattle.std.specs.Prelude.{◌≡◌, map, ◌≤◌, get_or, length};
ghost use Rattle.rules.specs.Lists.{Each, map_from, sum};
ghost use Rattle.rules.specs.Records.{free, own_path};
ghost use Rattle.rules.specs.Clock.{gain_busy};
ghost use Rattle.rules.specs.Invariant.{SoundRoute};
ghost use Rattle.crossings.specs.Loads.{CountsBy, loads};

use rules::{Edge, Transfer};

// The crossings of each edge by the transfers in flight.
pub fn edge_loads(in_flight: &[Transfer; 256]) -> [usize; 64]
    requires routes { Each (λ t. SoundRoute 64 t.path) free in_flight.now }
    requires room { sum (map (λ t. length (own_path t)) in_flight.now) ≤ 2048 }
    ensures { result ≡ loads in_flight.now }
{
    loads_of(in_flight, transfers::counts_in_loads)
}

// The crossings of each edge by the transfers that pass a test.
pub fn loads_of<F: Fn(Transfer) -> bool>(in_flight: &[Transfer; 256], counts: F) -> [usize; 64]
    requires callable { F.IsAlwaysCallable counts }
    requires routes { Each (λ t. SoundRoute 64 t.path) free in_flight.now }
    requires room { sum (map (λ t. length (own_path t)) in_flight.now) ≤ 2048 }
    ensures { CountsBy (F.post counts) in_flight.now result }
{
    let mut load = [0; 64];
    for t in in_flight {
        if counts(*t) {
            paths::raise(&mut load, paths::hops(&t.path));
        }
    }
    load
}

// The load integrals after `dt` seconds, each edge crossed as often as its load says: by index, since the proof over a `zip` speaks of both its halves and is longer.
pub fn gain_busy_all(edges: &[Edge; 64], load: &[usize; 64], dt: f64) -> [Edge; 64]
    ensures { result ≡ map_from 0 (λ e edge. gain_busy dt (get_or load.now e 0) edge) edges.now }
{
    let mut after = *edges;
    for e in 0..64 {
        after[e] = gain_busy(after[e], load[e], dt);
    }
    after
}

// One edge's load integral. An edge that nobody crosses keeps it to the bit.
fn gain_busy(edge: Edge, crossings: usize, dt: f64) -> Edge
    ensures { result ≡ gain_busy dt crossings edge }
{
    if crossings == 0 {
        return edge;
    }
    Edge {
        busy_transfer_seconds: edge.busy_transfer_seconds + doubles::whole(crossings as u64) * dt,
        ..edge
    }
}
