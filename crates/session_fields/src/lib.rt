// The fields that answers and dumps are made of, most with a blank in front, and the page that they gather on.
// Functions and no `Display`: a clause says how many bytes a field may take, which a formatter's writer can't promise. They are one for each width.
#![tactic(auto)]

mod page;

ghost use Rattle.std.specs.Prelude.{◌+◌, ◌≤◌, length};

pub use page::{fail, room, write_out};
use rules::{Edge, Limit, Owner, Tally};
use session_pages::Page;

pub fn spaced(page: &mut Page, n: u64)
    requires { page.old.len ≤ 65500 }
    ensures { page.new.len ≤ page.old.len + 21 }
{
    page.put_text(b" ");
    page.put_number(n);
}

// A number behind its name.
pub fn named(page: &mut Page, name: &[u8], n: u64)
    requires { (length name.now ≤ 8) × (page.old.len ≤ 65000) }
    ensures { page.new.len ≤ page.old.len + 29 }
{
    page.put_text(name);
    spaced(page, n);
}

// The digits of a number below 2^32 are at most ten.
pub fn spaced_short(page: &mut Page, n: u32)
    requires { page.old.len ≤ 65500 }
    ensures { page.new.len ≤ page.old.len + 11 }
{
    page.put_text(b" ");
    page.put_number(u64::from(n));
}

pub fn spaced_double(page: &mut Page, x: f64)
    requires { page.old.len ≤ 65500 }
    ensures { page.new.len ≤ page.old.len + 17 }
{
    page.put_text(b" ");
    page.put_double(x);
}

// An owner's kind, and its worker number or 0.
pub fn spaced_owner(page: &mut Page, owner: Owner)
    requires { page.old.len ≤ 65400 }
    ensures { page.new.len ≤ page.old.len + 13 }
{
    page.put_text(b" ");
    page.put_number(u64::from(owners::owner_kind(owner)));
    spaced_short(page, owners::owner_worker(owner));
}

// Why a transfer is no faster, with no blank in front.
pub fn limit(page: &mut Page, limit: Limit)
    requires { page.old.len ≤ 65000 }
    ensures { page.new.len ≤ page.old.len + 29 }
{
    match limit {
        Limit::AtEdge(e) => named(page, b"edge", e as u64),
        Limit::AtCap => page.put_text(b"cap"),
        Limit::Nowhere => page.put_text(b"none"),
    }
}

// What an edge can carry, what has passed it, and how long transfers were busy on it.
pub fn edge(page: &mut Page, edge: Edge)
    requires { page.old.len ≤ 65000 }
    ensures { page.new.len ≤ page.old.len + 51 }
{
    spaced_double(page, edge.capacity);
    spaced_double(page, edge.bytes_moved);
    spaced_double(page, edge.busy_transfer_seconds);
}

// What has been counted of a kind.
pub fn tally(page: &mut Page, tally: Tally)
    requires { page.old.len ≤ 65000 }
    ensures { page.new.len ≤ page.old.len + 80 }
{
    spaced(page, tally.submitted);
    spaced(page, tally.completed);
    spaced(page, tally.cancelled);
    spaced_double(page, tally.bytes_submitted);
}
