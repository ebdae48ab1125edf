// What can be read off a simulator as it stands: nothing is brought up to date, and nothing changes.
#![tactic(auto)]

ghost use Rattle.std.specs.Prelude.{◌≡◌};
ghost use Rattle.rules.specs.Records.{contains, num_in_flight};

use rules::{Flows, Tally, Totals};
use slots::Lookup;

// One of a thing for each kind of owner.
#[derive(Clone, Copy)]
pub struct PerKind<T> {
    pub worker: T,
    pub handoff: T,
    pub write: T,
}

// A number for each kind of owner.
pub type Counts = PerKind<u64>;

// Bytes for each kind of owner.
pub type Bytes = PerKind<f64>;

// ---- edges and transfers

// How many edges there are.
pub fn num_edges(flows: Flows) -> usize
    ensures { result ≡ flows.num_edges }
{
    flows.num_edges
}

// Whether a transfer with that id is in flight.
#[tactic(auto, using(slots::proofs::Found::contains_by), unfolding(rules::specs::Records::contains))]
pub fn contains(flows: Flows, id: u32) -> bool
    ensures { result ≡ contains id flows }
{
    let Lookup::Slot(_) = slots::find(&flows.in_flight, id) else {
        return false;
    };
    true
}

// How many transfers are in flight.
#[tactic(auto, unfolding(rules::specs::Records::num_in_flight))]
pub fn num_in_flight(flows: Flows) -> usize
    ensures { result ≡ num_in_flight flows }
{
    slots::num_taken(&flows.in_flight)
}

// The most that were in flight at once.
pub fn peak_in_flight(flows: Flows) -> usize
    ensures { result ≡ flows.totals.peak_in_flight }
{
    flows.totals.peak_in_flight
}

// How many completions wait to be collected.
pub fn num_uncollected(flows: Flows) -> usize
    ensures { result ≡ flows.num_completed }
{
    flows.num_completed
}

// ---- the clock

// The time.
pub fn now(flows: Flows) -> f64
    ensures { result ≡ flows.clock.now }
{
    flows.clock.now
}

// The rounds of the last filling.
pub fn rounds(flows: Flows) -> usize
    ensures { result ≡ flows.clock.rounds }
{
    flows.clock.rounds
}

// ---- what was counted of each kind of owner: four public names with a contract each, over one function

// How many were submitted.
pub fn submitted_counts(flows: Flows) -> Counts
    ensures worker { result.worker ≡ flows.totals.worker.submitted }
    ensures handoff { result.handoff ≡ flows.totals.handoff.submitted }
    ensures write { result.write ≡ flows.totals.write.submitted }
{
    per_kind(flows.totals, |tally| tally.submitted)
}

// How many were completed.
pub fn completed_counts(flows: Flows) -> Counts
    ensures worker { result.worker ≡ flows.totals.worker.completed }
    ensures handoff { result.handoff ≡ flows.totals.handoff.completed }
    ensures write { result.write ≡ flows.totals.write.completed }
{
    per_kind(flows.totals, |tally| tally.completed)
}

// How many were cancelled.
pub fn cancelled_counts(flows: Flows) -> Counts
    ensures worker { result.worker ≡ flows.totals.worker.cancelled }
    ensures handoff { result.handoff ≡ flows.totals.handoff.cancelled }
    ensures write { result.write ≡ flows.totals.write.cancelled }
{
    per_kind(flows.totals, |tally| tally.cancelled)
}

// The sums of bytes submitted.
pub fn bytes_submitted(flows: Flows) -> Bytes
    ensures worker { result.worker ≡ flows.totals.worker.bytes_submitted }
    ensures handoff { result.handoff ≡ flows.totals.handoff.bytes_submitted }
    ensures write { result.write ≡ flows.totals.write.bytes_submitted }
{
    per_kind(flows.totals, |tally| tally.bytes_submitted)
}

// All that was counted, of each kind, with the peak.
pub fn totals(flows: Flows) -> Totals
    ensures { result ≡ flows.totals }
{
    flows.totals
}

// What is read of the tally of each kind.
fn per_kind<T, R: Fn(Tally) -> T>(totals: Totals, read: R) -> PerKind<T>
    requires { R.IsAlwaysCallable read }
    ensures worker { R.post read totals.worker result.worker }
    ensures handoff { R.post read totals.handoff result.handoff }
    ensures write { R.post read totals.write result.write }
{
    PerKind {
        worker: read(totals.worker),
        handoff: read(totals.handoff),
        write: read(totals.write),
    }
}
