// Draining: transfers brought forward to a time, and the edges credited with what they move.
#![tactic(auto)]

ghost use Rattle.std.specs.Prelude.{◌≡◌, get_or};
ghost use mathlib.Core.List.{map, foldl};
ghost use Rattle.doubles.specs.Doubles.{nought};
ghost use Rattle.rules.specs.Lists.{Each, map_from};
ghost use Rattle.rules.specs.Records.{free, own_path};
ghost use Rattle.rules.specs.Clock.{latency_paid, flowing_time, moves, bytes_flowing, drained, deliver};
ghost use Rattle.rules.specs.Invariant.{SoundRoute};
ghost use Rattle.draining.specs.Credits.{credited, with_moved};

use rules::{Edge, Transfer};

// ---- one transfer

// Whether a transfer moves bytes when it is drained to a time.
pub fn moves(t: Transfer, until: f64) -> bool
    ensures { result ≡ moves until t }
{
    t.taken && flowing_time(t, until) > 0.0 && t.rate > 0.0 && t.bytes_remaining > 0.0
}

// The latency that a transfer pays on the way to a time.
fn latency_paid(t: Transfer, until: f64) -> f64
    ensures { result ≡ latency_paid until t }
{
    doubles::smaller(t.latency_remaining, until - t.last_update)
}

// The time that remains for its bytes.
fn flowing_time(t: Transfer, until: f64) -> f64
    ensures { result ≡ flowing_time until t }
{
    until - t.last_update - latency_paid(t, until)
}

// The bytes that flow meanwhile.
fn bytes_flowing(t: Transfer, until: f64) -> f64
    ensures { result ≡ bytes_flowing until t }
{
    doubles::smaller(t.rate * flowing_time(t, until), t.bytes_remaining)
}

// A transfer brought forward to a time at its current rate. A free slot stays as it is.
pub fn drained(t: Transfer, until: f64) -> Transfer
    ensures { result ≡ drained until t }
{
    if t.taken {
        let mut after = Transfer {
            latency_remaining: t.latency_remaining - latency_paid(t, until),
            last_update: until,
            ..t
        };
        if moves(t, until) {
            after.bytes_remaining -= bytes_flowing(t, until);
        }
        after
    } else {
        t
    }
}

// Every slot brought forward to a time. Not joined to its caller: a map takes some five times its array on the stack, given back as it ends.
#[inline(never)]
pub fn drained_all(in_flight: &[Transfer; 256], until: f64) -> [Transfer; 256]
    ensures { result ≡ map (drained until) in_flight.now }
{
    in_flight.map(|t| drained(t, until))
}

// ---- the edges

// The edges with the bytes that a drain moves, slot by slot and crossing by crossing. The sums are kept apart from the edges meanwhile.
pub fn delivered(edges: &[Edge; 64], in_flight: &[Transfer; 256], until: f64) -> [Edge; 64]
    requires { Each (λ t. SoundRoute 64 t.path) free in_flight.now }
    ensures { result ≡ foldl (deliver own_path until) edges.now in_flight.now }
{
    let mut moved = bytes_moved(edges);
    for t in in_flight {
        deliver(&mut moved, *t, until);
    }
    with_bytes_moved(edges, &moved)
}

// What one transfer moves in a drain, added at each of its crossings.
fn deliver(moved: &mut [f64; 64], t: Transfer, until: f64)
    requires { SoundRoute 64 t.path }
    ensures { moved.new ≡ credited until moved.old t }
{
    if moves(t, until) {
        paths::credit(moved, paths::hops(&t.path), bytes_flowing(t, until));
    }
}

// The bytes moved over each edge so far.
fn bytes_moved(edges: &[Edge; 64]) -> [f64; 64]
    ensures { result ≡ map (λ e. e.bytes_moved) edges.now }
{
    edges.map(|e| e.bytes_moved)
}

// The edges with other sums of bytes moved: by index, as in `crossings::gain_busy_all`.
fn with_bytes_moved(edges: &[Edge; 64], moved: &[f64; 64]) -> [Edge; 64]
    ensures { result ≡ map_from 0 (λ e edge. with_moved (get_or moved.now e nought) edge) edges.now }
{
    let mut after = *edges;
    for e in 0..64 {
        after[e].bytes_moved = moved[e];
    }
    after
}
