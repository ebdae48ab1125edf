// The clock: rates brought up to date, and transfers drained to a time.
#![tactic(auto)]

ghost use Rattle.std.specs.Prelude.{◌≡◌, cond, T, length};
ghost use Rattle.doubles.specs.Doubles.{◌≺◌, ◌≼◌};
ghost use Rattle.rules.specs.Records.{made_stale};
ghost use Rattle.rules.specs.Clock.{ensure_rates, pass_time, drain_slots, drain_to, edge_loads, drained_to_clock};
ghost use Rattle.rules.specs.Invariant.{Invariant, ClockTime};

use rules::{Clock, EdgeLoad, Flows};

// Rates worked out anew where the transfers or edges have changed since the last time.
pub fn ensure_rates(flows: &mut Flows)
    requires { Invariant flows.old }
    ensures exactly { flows.new ≡ ensure_rates flows.old }
    ensures sound { Invariant flows.new }
{
    if flows.clock.rates_dirty {
        let load = crossings::edge_loads(&flows.in_flight);
        let filled = filling::recompute_rates(&flows.edges, &flows.in_flight);
        let eps = transfers::done_eps(flows.tolerance, flows.clock.now);
        let next_done_at = transfers::ahead(
            flows.clock.now,
            transfers::soonest(&filled.in_flight, eps),
        );
        flows.in_flight = filled.in_flight;
        flows.edge_load = EdgeLoad {
            load,
            len: flows.num_edges,
        };
        flows.clock = Clock {
            rates_dirty: false,
            next_done_at,
            rounds: filled.rounds,
            ..flows.clock
        };
    }
}

// Every transfer moved forward to a time at its rate, which is brought up to date where time passes; then the clock.
pub fn drain_to(flows: &mut Flows, until: f64)
    requires sound { Invariant flows.old }
    requires time { ClockTime until }
    requires later { T (flows.old.clock.now ≼ until) }
    ensures exactly { flows.new ≡ drain_to until flows.old }
    ensures sound { Invariant flows.new }
{
    rated_for(flows, until);
    let load = crossings::edge_loads(&flows.in_flight);
    drain_slots(flows, until);
    pass_time(flows, &load, until);
}

// A drain to the time it is: what every change of edges, and every known cancel, begins with.
pub fn drained_to_clock(flows: &mut Flows)
    requires { Invariant flows.old }
    ensures exactly { flows.new ≡ drained_to_clock flows.old }
    ensures sound { Invariant flows.new }
{
    let now = flows.clock.now;
    drain_to(flows, now);
}

// Rates gone stale.
pub fn made_stale(flows: &mut Flows)
    ensures { flows.new ≡ made_stale flows.old }
{
    flows.clock.rates_dirty = true;
}

// Rates up to date before time passes; where none does they may stay stale.
fn rated_for(flows: &mut Flows, until: f64)
    requires { Invariant flows.old }
    ensures exactly { flows.new ≡ cond (flows.old.clock.now ≺ until) (ensure_rates flows.old) flows.old }
    ensures sound { Invariant flows.new }
{
    if flows.clock.now < until {
        ensure_rates(flows);
    }
}

// The load integrals and the clock moved on to a time, under the crossings of all in flight.
pub fn pass_time(flows: &mut Flows, load: &[usize; 64], until: f64)
    requires places { length flows.old.edges ≡ 64 }
    requires right { load.now ≡ (edge_loads flows.old).load }
    ensures { flows.new ≡ pass_time until flows.old }
{
    let dt = until - flows.clock.now;
    if dt > 0.0 {
        flows.edges = crossings::gain_busy_all(&flows.edges, load, dt);
    }
    flows.clock.now = until;
}

// Every slot drained to a time, the edges credited with what was moved, and the time noted.
pub fn drain_slots(flows: &mut Flows, until: f64)
    requires { Invariant flows.old }
    ensures { flows.new ≡ drain_slots until flows.old }
{
    flows.edges = draining::delivered(&flows.edges, &flows.in_flight, until);
    flows.in_flight = draining::drained_all(&flows.in_flight, until);
    flows.clock.last_drain = until;
}
