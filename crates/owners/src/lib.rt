// Owners and completions compared: which is listed first, and which are one.
#![tactic(auto)]

ghost use Rattle.std.specs.Prelude.{◌≡◌};
ghost use Rattle.rules.specs.Records.{owner_kind, owner_worker, same_owner, owner_before, before};
ghost use Rattle.rules.specs.Queue.{same_completion};

use rules::{Completion, Owner};

// ---- owners

// The number of an owner's kind, as lists have it.
#[tactic(auto, unfolding(rules::specs::Records::owner_kind))]
pub fn owner_kind(o: Owner) -> u32
    ensures { result ≡ owner_kind o }
{
    match o {
        Owner::Worker(_) => 0,
        Owner::Handoff => 1,
        Owner::Write => 2,
    }
}

// An owner's worker number, or 0.
#[tactic(auto, unfolding(rules::specs::Records::owner_worker))]
pub fn owner_worker(o: Owner) -> u32
    ensures { result ≡ owner_worker o }
{
    match o {
        Owner::Worker(n) => n,
        Owner::Handoff => 0,
        Owner::Write => 0,
    }
}

// Whether two owners are one.
#[tactic(auto, using(crate::proofs::Derived::owners_eq))]
pub fn same_owner(a: Owner, b: Owner) -> bool
    ensures { result ≡ same_owner a b }
{
    a == b
}

// Whether one owner is listed before another.
#[tactic(auto, using(crate::proofs::Derived::owners_lt))]
pub fn owner_before(a: Owner, b: Owner) -> bool
    ensures { result ≡ owner_before a b }
{
    a < b
}

// ---- completions

// Whether one completion stands before another in the queue. The definitions are opened too, so that a body which takes owners apart is judged by what it answers.
#[tactic(auto, using(crate::proofs::Derived::completions_lt), unfolding(rules::specs::Records::before, rules::specs::Records::owner_before, rules::specs::Records::same_owner, rules::specs::Records::owner_kind, rules::specs::Records::owner_worker))]
pub fn before(c: Completion, d: Completion) -> bool
    ensures { result ≡ before c d }
{
    c < d
}

// Whether two completions are one entry of the queue.
#[tactic(auto, using(crate::proofs::Derived::completions_eq))]
pub fn same_completion(c: Completion, d: Completion) -> bool
    ensures { result ≡ same_completion c d }
{
    c == d
}
