// One round of a filling: what it decides, and whom that freezes.
#![tactic(auto)]

ghost use Rattle.std.specs.Prelude.{◌≡◌, cond, ℕ, ◌-◌, ◌≤◌, ◌<◌, ltb, length, get_or};
ghost use Rattle.std.specs.List.{position_or_len};
ghost use Rattle.rules.specs.Lists.{at_each_crossing};
ghost use Rattle.rules.specs.Records.{own_path};
ghost use Rattle.rules.specs.Filling.{tighter_share, blank_share, smallest_share, freezes, spend, smallest_cap};
ghost use Rattle.rules.specs.Filling.{winning_edge as the_winning_edge, share as the_share};
ghost use Rattle.rules.specs.Filling.{verdict as the_verdict, rate_by as the_rate_by, limit_by as the_limit_by, names as the_names, freeze as the_freeze};
ghost use Rattle.caps.specs.Order.{frozen_front};
ghost use Rattle.caps.specs.Listed.{listed, Passed};
ghost use Rattle.rounds.specs.Standing.{filling, Freezable, Standing, Coming, Frozen, Loaded, shares_by};

use caps::CapOrder;
use rules::{Best, Limit, Seat, Share, Verdict};

// What a round decides, and how far it used the order of caps up.
#[derive(Clone, Copy)]
pub struct Decision {
    pub verdict: Verdict,
    pub cursor: usize,
}

// A filling under way.
#[derive(Clone, Copy)]
pub struct Scratch {
    pub seats: [Seat; 256],
    // What is left of each edge's capacity, and its crossings by the unfrozen: two tables, for the definitions of a filling have the first alone.
    pub residual: [f64; 64],
    pub load: [usize; 64],
    pub unfrozen: usize,
    // All in the cap order before this place are frozen.
    pub cap_cursor: usize,
    pub rounds: usize,
}

// ---- the edges

// What each crossing of edge e would get.
fn share(e: usize, residual: f64, load: usize) -> Share
    requires { load ≤ 2048 }
    ensures { result ≡ the_share e residual load }
{
    Share {
        edge: e,
        share: residual / (load as f64),
    }
}

// The first, unless the second is strictly smaller.
fn tighter(x: Share, y: Share) -> Share
    ensures { result ≡ tighter_share x y }
{
    if y.share < x.share { y } else { x }
}

// The best so far against edge e, which counts only with load.
fn against(best: Share, e: usize, residual: f64, load: usize) -> Share
    requires { load ≤ 2048 }
    ensures { result ≡ cond (ltb 0 load) (tighter_share best (the_share e residual load)) best }
{
    if 0 < load {
        tighter(best, share(e, residual, load))
    } else {
        best
    }
}

// The lowest edge with load; there is one.
fn first_loaded(load: &[usize]) -> usize
    requires { Loaded load.now }
    ensures within { result < length load.now }
    ensures first { result ≡ position_or_len (ltb 0) load.now }
{
    load.iter().position(|n| 0 < *n).unwrap()
}

// The share of the lowest edge with load.
fn first_share(residual: &[f64], load: &[usize]) -> Share
    requires same { length load.now ≡ length residual.now }
    requires few { (e : ℕ) → get_or load.now e 0 ≤ 2048 }
    requires loaded { Loaded load.now }
    ensures { result ≡ get_or (shares_by load.now 0 residual.now) 0 blank_share }
{
    let first = first_loaded(load);
    share(first, residual[first], load[first])
}

// The most contended edge: the smallest share, and at equality the lowest number.
fn winning_edge(residual: &[f64], load: &[usize]) -> Share
    requires same { length load.now ≡ length residual.now }
    requires few { (e : ℕ) → get_or load.now e 0 ≤ 2048 }
    requires loaded { Loaded load.now }
    ensures { result ≡ smallest_share (shares_by load.now 0 residual.now) }
{
    let mut best = first_share(residual, load);
    for (e, left) in residual.iter().enumerate() {
        best = against(best, e, *left, load[e]);
    }
    best
}

// ---- a round

// What the round decides: the next cap against the most contended edge.
pub fn decide(f: &Scratch, order: &CapOrder) -> Decision
    requires standing { Standing f.now }
    requires coming { Coming order.now f.now }
    requires loaded { Loaded f.now.load }
    ensures verdict { result.verdict ≡ the_verdict (smallest_cap (filling f.now)) (the_winning_edge own_path (filling f.now)) }
    ensures cursor { result.cursor ≡ frozen_front f.now.seats (listed order.now) }
    ensures passed { Passed f.now.seats (listed order.now) result.cursor }
{
    let next = caps::next_cap(&f.seats, order, f.cap_cursor);
    let best = winning_edge(&f.residual, &f.load);
    Decision {
        verdict: verdict(next.best, best),
        cursor: next.cursor,
    }
}

// The smallest cap, if there is one, wins only where it is strictly below the smallest share.
fn verdict(capped: Best, best: Share) -> Verdict
    ensures { result ≡ the_verdict capped best }
{
    let Best::At(i, cap) = capped else {
        return Verdict::ByEdge(best.edge, best.share);
    };
    if cap < best.share {
        Verdict::ByCap(i, cap)
    } else {
        Verdict::ByEdge(best.edge, best.share)
    }
}

// The rate that a verdict gives.
fn rate_by(v: Verdict) -> f64
    ensures { result ≡ the_rate_by v }
{
    match v {
        Verdict::ByCap(_, cap) => cap,
        Verdict::ByEdge(_, share) => share,
    }
}

// What it leaves as the limit of those it freezes.
fn limit_by(v: Verdict) -> Limit
    ensures { result ≡ the_limit_by v }
{
    match v {
        Verdict::ByCap(_, _) => Limit::AtCap,
        Verdict::ByEdge(e, _) => Limit::AtEdge(e),
    }
}

// Whether a verdict names the transfer in slot i on that path.
fn names(v: Verdict, i: usize, path: &[usize]) -> bool
    ensures { result ≡ the_names v i path.now }
{
    match v {
        Verdict::ByCap(j, _) => i == j,
        Verdict::ByEdge(e, _) => paths::crosses(path, e),
    }
}

// A seat after the verdict. If it is frozen, each edge on its path loses the rate and one crossing, as often as it is crossed.
fn freeze(residual: &mut [f64], load: &mut [usize], v: Verdict, i: usize, s: Seat) -> Seat
    requires { Freezable s residual.old load.old }
    ensures seat { result ≡ the_freeze own_path v i s }
    ensures residual { residual.new ≡ cond (freezes own_path v i s) (at_each_crossing (own_path s.transfer) (spend (the_rate_by v)) residual.old) residual.old }
    ensures load { load.new ≡ cond (freezes own_path v i s) (at_each_crossing (own_path s.transfer) (λ n. n - 1) load.old) load.old }
{
    let path = paths::hops(&s.transfer.path);
    if s.unfrozen && names(v, i, path) {
        let rate = rate_by(v);
        paths::spend(residual, path, rate);
        paths::lower(load, path);
        return Seat {
            transfer: transfers::with_rate(s.transfer, rate, limit_by(v)),
            unfrozen: false,
        };
    }
    s
}

// One round: those that the verdict names are frozen in slot order, and it is counted.
pub fn round(f: &mut Scratch, v: Verdict, cursor: usize)
    requires standing { Standing f.old }
    requires few { f.old.rounds < 256 }
    ensures { Frozen f.old v cursor f.new }
{
    let Scratch {
        seats,
        residual,
        load,
        ..
    } = f;
    let mut unfrozen = 0;
    for (i, s) in seats.iter_mut().enumerate() {
        *s = freeze(residual, load, v, i, *s);
        if s.unfrozen {
            unfrozen += 1;
        }
    }
    f.unfrozen = unfrozen;
    f.cap_cursor = cursor;
    f.rounds += 1;
}
