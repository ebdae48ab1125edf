// The table of transfers: who is where, how many there are, and the lowest free slot.
#![tactic(auto)]

ghost use Rattle.std.specs.Prelude.{◌≤◌, ◌<◌, ◌≡◌};
ghost use Rattle.rules.specs.Lists.{count};
ghost use Rattle.rules.specs.Records.{free, has_id, of_id};
ghost use Rattle.slots.specs.Lookup.{lookup, first_free};

use rules::Transfer;

// Where a transfer was found.
// An enum and no Option, for document 01 has it so ("Our forms").
#[derive(Clone, Copy)]
pub enum Lookup {
    Slot(usize),
    Nowhere,
}

// The lowest slot that holds the transfer with that id.
pub fn find(in_flight: &[Transfer; 256], id: u32) -> Lookup
    ensures { result ≡ lookup id in_flight.now }
{
    in_flight
        .iter()
        .position(|t| has_id(*t, id))
        .map_or(Lookup::Nowhere, Lookup::Slot)
}

// The transfer with that id, or the blank where none is in flight.
pub fn of_id(in_flight: &[Transfer; 256], id: u32) -> Transfer
    ensures { result ≡ of_id id free (λ t. t) in_flight.now }
{
    let Lookup::Slot(i) = find(in_flight, id) else {
        return Transfer::free();
    };
    in_flight[i]
}

// The lowest slot that holds nobody, where not all are taken.
pub fn free_slot(in_flight: &[Transfer; 256]) -> usize
    requires { count (λ t. t.taken) in_flight.now < 256 }
    ensures lowest { result ≡ first_free in_flight.now }
    ensures bounded { result < 256 }
{
    in_flight.iter().position(|t| !t.taken).unwrap()
}

// How many slots hold a transfer.
pub fn num_taken(in_flight: &[Transfer; 256]) -> usize
    ensures exactly { result ≡ count (λ t. t.taken) in_flight.now }
    ensures bounded { result ≤ 256 }
{
    in_flight.iter().filter(|t| t.taken).count()
}

// Whether a slot holds the transfer with that id.
#[tactic(auto, unfolding(rules::specs::Records::has_id))]
fn has_id(t: Transfer, id: u32) -> bool
    ensures { result ≡ has_id id t }
{
    t.taken && t.id == id
}
