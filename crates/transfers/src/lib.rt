// One transfer: whose bytes and crossings count, at which rate, when it is done, and who is done first.
#![tactic(auto)]

ghost use Rattle.std.specs.Prelude.{◌≡◌, cond};
ghost use Rattle.rules.specs.Tolerance.{eps};
ghost use Rattle.rules.specs.Filling.{takes_part, with_rate};
ghost use Rattle.rules.specs.Done.{is_done, time_to_done, sooner};
ghost use Rattle.rules.specs.Clock.{counts_in_loads, soonest, ahead};

use rules::{Delay, Limit, NextDone, Tolerance, Transfer};

// ---- who counts

// Whether a transfer takes part in a filling.
pub fn takes_part(t: Transfer) -> bool
    ensures { result ≡ takes_part t }
{
    t.taken && t.bytes_remaining > Tolerance::B
}

// Whether a transfer's crossings count in the load of edges.
pub fn counts_in_loads(t: Transfer) -> bool
    ensures { result ≡ counts_in_loads t }
{
    t.taken
}

// The transfer at another rate, with the reason why it is no higher.
pub fn with_rate(t: Transfer, rate: f64, limit: Limit) -> Transfer
    ensures { result ≡ with_rate rate limit t }
{
    Transfer { rate, limit, ..t }
}

// ---- being done

// Seconds that count as none at the clock time `now`.
pub fn done_eps(tolerance: Tolerance, now: f64) -> f64
    ensures { result ≡ eps tolerance now }
{
    tolerance.eps(now)
}

// Finished within the tolerance: the latency is paid, and the bytes are gone or would be within `eps`.
pub fn is_done(t: Transfer, eps: f64) -> bool
    ensures { result ≡ is_done eps t }
{
    t.latency_remaining <= eps
        && (t.bytes_remaining <= Tolerance::B || t.rate > 0.0 && t.bytes_remaining / t.rate <= eps)
}

// How long a transfer takes to be done at its rate.
pub fn time_to_done(t: Transfer, eps: f64) -> Delay
    ensures { result ≡ time_to_done eps t }
{
    if is_done(t, eps) {
        return Delay::After(0.0);
    }
    if t.bytes_remaining <= Tolerance::B {
        return Delay::After(t.latency_remaining);
    }
    if t.rate > 0.0 {
        Delay::After(t.latency_remaining + t.bytes_remaining / t.rate)
    } else {
        Delay::Never
    }
}

// The earlier of two delays.
pub fn sooner(a: Delay, b: Delay) -> Delay
    ensures { result ≡ sooner a b }
{
    match (a, b) {
        (Delay::Never, _) => b,
        (_, Delay::Never) => a,
        (Delay::After(x), Delay::After(y)) => if y < x { b } else { a },
    }
}

// The time to the first completion, if anything in flight can complete.
pub fn soonest(in_flight: &[Transfer; 256], eps: f64) -> Delay
    ensures { result ≡ soonest eps in_flight.now }
{
    in_flight
        .iter()
        .fold(Delay::Never, |best, t| sooner_with(best, *t, eps))
}

// One more slot looked at.
fn sooner_with(best: Delay, t: Transfer, eps: f64) -> Delay
    ensures { result ≡ cond t.taken (sooner best (time_to_done eps t)) best }
{
    if t.taken {
        sooner(best, time_to_done(t, eps))
    } else {
        best
    }
}

// The clock time that lies a delay after `now`.
pub fn ahead(now: f64, d: Delay) -> NextDone
    ensures { result ≡ ahead now d }
{
    match d {
        Delay::After(x) => NextDone::At(now + x),
        Delay::Never => NextDone::Nobody,
    }
}
