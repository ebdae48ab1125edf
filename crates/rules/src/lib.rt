// The types of the simulator, its tolerance, and the fresh state. What is right of them stands in specs/.
#![tactic(auto)]

ghost use Rattle.std.specs.Prelude.{◌≡◌};
ghost use Rattle.rules.specs.Tolerance.{eps, default_tolerance};
ghost use Rattle.rules.specs.Records.{free, fresh};
ghost use Rattle.rules.specs.Refusals.{not_a_floor};
ghost use Rattle.rules.specs.Floors.{with_floor};
ghost use Rattle.rules.specs.Invariant.{Invariant};

// Who a transfer belongs to, and so which queue its completion waits in.
#[derive(Clone, Copy, PartialEq, Eq, PartialOrd, Ord)]
pub enum Owner {
    Worker(u32),
    Handoff,
    Write,
}

// The private limit on a transfer's rate, in bytes a second, if it has one.
// An enum and no Option, for document 01 has it so ("Our forms"); so are `Delay`, `NextDone` and `Best`.
#[derive(Clone, Copy)]
pub enum Cap {
    AtMost(f64),
    Uncapped,
}

// What kept a transfer from a higher rate at the last filling: the edge or the cap whose round froze it, or nothing if it had no part in the rounds.
#[derive(Clone, Copy)]
pub enum Limit {
    AtEdge(usize),
    AtCap,
    Nowhere,
}

// How long until something happens, in seconds.
#[derive(Clone, Copy)]
pub enum Delay {
    After(f64),
    Never,
}

// When the next transfer is done under the rates of the last filling.
// The form of `Delay`, which document 01 fixes: definitions and theorems on histories speak of it.
#[derive(Clone, Copy)]
pub enum NextDone {
    At(f64),
    Nobody,
}

// A drive or a bus.
#[derive(Clone, Copy)]
pub struct Edge {
    // Bytes a second.
    pub capacity: f64,
    // Bytes that have crossed it so far, a repeat counted again.
    pub bytes_moved: f64,
    // Crossings in flight, summed over time.
    pub busy_transfer_seconds: f64,
}

// The edges that a transfer crosses, in order: the first `len` of the places, and zeros behind them.
// A length beside its places, as in all tables here: the simulator is fixed memory with no heap, and equal states are equal.
#[derive(Clone, Copy)]
pub struct Route {
    pub hops: [usize; 8],
    pub len: usize,
}

// A slot of the table: a transfer in flight where `taken`, and otherwise the blank.
// A mark and no Option: the blank's fields stand in `free`, and so in the definitions and the invariant.
#[derive(Clone, Copy)]
pub struct Transfer {
    pub taken: bool,
    pub id: u32,
    pub owner: Owner,
    pub path: Route,
    // Seconds still to be paid before bytes flow.
    pub latency_remaining: f64,
    pub bytes_remaining: f64,
    pub rate_cap: Cap,
    // Bytes a second, as the last filling set it.
    pub rate: f64,
    // Why it is no faster, as the last filling found.
    pub limit: Limit,
    // The time up to which it has been drained.
    pub last_update: f64,
}

// A transfer that is done and waits to be collected.
#[derive(Clone, Copy, PartialEq, Eq, PartialOrd, Ord)]
pub struct Completion {
    pub owner: Owner,
    pub id: u32,
}

// What has been counted of one kind of owner.
#[derive(Clone, Copy)]
pub struct Tally {
    pub submitted: u64,
    pub completed: u64,
    pub cancelled: u64,
    pub bytes_submitted: f64,
}

// What has been counted in all, and the most that were ever in flight at once.
#[derive(Clone, Copy)]
pub struct Totals {
    pub peak_in_flight: usize,
    pub worker: Tally,
    pub handoff: Tally,
    pub write: Tally,
}

// The crossings of each edge by all transfers in flight, as of the last filling, and how many edges there were then.
#[derive(Clone, Copy)]
pub struct EdgeLoad {
    pub load: [usize; 64],
    // Nothing is decided by it: while rates are not stale it is the number of edges, as `AlwaysMatched` (specs/Promises) says, and that statement is what it stays for.
    pub len: usize,
}

// The time, when transfers were last drained, and what the last filling left: whether it is out of date, when the next transfer is done, how many rounds it took.
#[derive(Clone, Copy)]
pub struct Clock {
    pub now: f64,
    // Before `now` where time has passed since by quiet advances alone.
    pub last_drain: f64,
    pub rates_dirty: bool,
    pub next_done_at: NextDone,
    pub rounds: usize,
}

// What counts as done: the floor of the time within which a remainder is nothing.
#[derive(Clone, Copy)]
pub struct Tolerance {
    pub floor: f64,
}

// The simulator.
// Its invariant stands in contracts and not in the type, since promises speak of any simulator (`WatchedAsUnwatched`, `FloorStays`).
#[derive(Clone, Copy)]
pub struct Flows {
    pub edges: [Edge; 64],
    pub num_edges: usize,
    pub in_flight: [Transfer; 256],
    pub completed: [Completion; 256],
    pub num_completed: usize,
    pub edge_load: EdgeLoad,
    pub clock: Clock,
    pub totals: Totals,
    pub tolerance: Tolerance,
}

// What a call says. Each call's definition tells which of these it can say.
#[derive(Clone, Copy)]
pub enum Answer {
    // The work is done.
    Done,
    // The number of the edge that was added.
    Added(u32),
    // How many entries were listed in the lent buffer.
    Listed(usize),
    // Nobody waits to be collected.
    Nothing,
    // No transfer with that id is in flight.
    Unknown,
    // The transfer has bytes left that do not flow, so no time is enough.
    CannotFinish,
    // A number of seconds, a rate or another double.
    Value(f64),
    // The time to the next completion.
    Due(Delay),
    // Why a transfer is no faster.
    Limited(Limit),
    // The number of the refusal, by document 01's table, which asks for a number and so leaves no error enum.
    Refused(u32),
}

// The simulator after a call, and what the call said.
#[derive(Clone, Copy)]
pub struct Outcome {
    pub answer: Answer,
    pub flows: Flows,
}

// An edge as it was asked for, or the number of the refusal.
// An enum and no Result: the public call `edge` and the theorems of uniqueness answer it.
#[derive(Clone, Copy)]
pub enum EdgeRead {
    Found(Edge),
    Refused(u32),
}

// The time left of a transfer as things stand, and whether that is behind: not drained to the clock, or told by stale rates.
#[derive(Clone, Copy)]
pub struct TimeLeft {
    pub answer: Answer,
    pub behind: bool,
}

// A submission as data. Its path is lent beside it.
#[derive(Clone, Copy)]
pub struct Submission {
    pub id: u32,
    pub owner: Owner,
    pub bytes: u64,
    pub latency: f64,
    pub cap: Cap,
    pub time: f64,
}

// An estimate as data. Its path is lent beside it.
#[derive(Clone, Copy)]
pub struct Estimate {
    pub bytes: f64,
    pub latency: f64,
    pub cap: Cap,
}

// A call or a question as data, with its arguments; a path and a buffer are lent beside it.
#[derive(Clone, Copy)]
pub enum Call {
    Advance(f64),
    Submit(Submission),
    Cancel(u32),
    AddEdge(f64),
    Widen(u32, f64),
    TakeCompleted(Owner),
    OwnersWithCompletions,
    NextCompletionDelay,
    EstimateNew(Estimate),
    Settle,
    Remaining(u32),
    MeanInFlight(u32, f64),
    Rate(u32),
    Bottleneck(u32),
    Edge(u32),
    Contains(u32),
    Rounds,
}

// What a call or a question gives back, in whichever form it does.
#[derive(Clone, Copy)]
pub enum Said {
    Answered(Answer),
    Edge(EdgeRead),
    TimeLeft(TimeLeft),
    Truth(bool),
    Number(usize),
}

// What was said, and the simulator then.
#[derive(Clone, Copy)]
pub struct Made {
    pub said: Said,
    pub flows: Flows,
}

// A slot during a filling: the transfer with its rate so far, and whether a round has yet to freeze it.
#[derive(Clone, Copy)]
pub struct Seat {
    pub transfer: Transfer,
    pub unfrozen: bool,
}

// The smallest of some caps: whose slot it is, and the cap. Not everybody has one. (Document 01, "Our forms".)
#[derive(Clone, Copy)]
pub enum Best {
    At(usize, f64),
    Nobody,
}

// An edge with load, and what each crossing of it would get.
#[derive(Clone, Copy)]
pub struct Share {
    pub edge: usize,
    pub share: f64,
}

// What a round decides: one slot is frozen at its cap, or all that cross an edge at its share.
#[derive(Clone, Copy)]
pub enum Verdict {
    ByCap(usize, f64),
    ByEdge(usize, f64),
}

impl Tolerance {
    // Bytes left that count as none.
    pub const B: f64 = 1e-6;
    // Seconds that count as none, whatever the clock says, where no other floor was given; no floor is finer.
    pub const F: f64 = 1e-12;
    // No floor is coarser.
    pub const MAX_FLOOR: f64 = 1e-3;

    // The tolerance of a simulator that was not given another.
    pub fn new() -> Tolerance
        ensures { result ≡ default_tolerance }
    {
        Tolerance {
            floor: Tolerance::F,
        }
    }

    // No floor from 1e-12 to 1e-3, both included; a NaN is none.
    fn not_a_floor(floor: f64) -> bool
        ensures { result ≡ not_a_floor floor }
    {
        !(Tolerance::F <= floor && floor <= Tolerance::MAX_FLOOR)
    }

    // Seconds that count as none at a clock time: the clock times four over 2^52, or the floor.
    pub fn eps(self, clock: f64) -> f64
        ensures { result ≡ eps self clock }
    {
        let steps = clock * 4.0 * 2.220446049250313e-16;
        doubles::larger(steps, self.floor)
    }
}

impl Transfer {
    // A free slot.
    pub fn free() -> Transfer
        ensures { result ≡ free }
    {
        Transfer {
            taken: false,
            id: 0,
            owner: Owner::Handoff,
            path: Route {
                hops: [0; 8],
                len: 0,
            },
            latency_remaining: 0.0,
            bytes_remaining: 0.0,
            rate_cap: Cap::Uncapped,
            rate: 0.0,
            limit: Limit::Nowhere,
            last_update: 0.0,
        }
    }
}

impl Flows {
    // The simulator before any call: every slot free, the clock at 0, nothing stale.
    pub fn new() -> Flows
        ensures exactly { result ≡ fresh }
        ensures sound { Invariant result }
    {
        let edge = Edge {
            capacity: 0.0,
            bytes_moved: 0.0,
            busy_transfer_seconds: 0.0,
        };
        let free = Transfer::free();
        let none = Tally {
            submitted: 0,
            completed: 0,
            cancelled: 0,
            bytes_submitted: 0.0,
        };
        Flows {
            edges: [edge; 64],
            num_edges: 0,
            in_flight: [free; 256],
            completed: [Completion {
                owner: Owner::Handoff,
                id: 0,
            }; 256],
            num_completed: 0,
            edge_load: EdgeLoad {
                load: [0; 64],
                len: 0,
            },
            clock: Clock {
                now: 0.0,
                last_drain: 0.0,
                rates_dirty: false,
                next_done_at: NextDone::Nobody,
                rounds: 0,
            },
            totals: Totals {
                peak_in_flight: 0,
                worker: none,
                handoff: none,
                write: none,
            },
            tolerance: Tolerance::new(),
        }
    }

    // The same with a floor of its own, which nothing changes from then on; beside a refusal stands the default one.
    pub fn with_floor(floor: f64) -> Outcome
        ensures exactly { result ≡ with_floor floor }
        ensures sound { Invariant result.flows }
    {
        let mut flows = Flows::new();
        if Tolerance::not_a_floor(floor) {
            return Outcome {
                answer: Answer::Refused(1),
                flows,
            };
        }
        flows.tolerance.floor = floor;
        Outcome {
            answer: Answer::Done,
            flows,
        }
    }
}
