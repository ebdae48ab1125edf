// The page that answers gather on, so that many lines are one write.
ghost use Rattle.std.specs.Prelude.{◌≤◌, ◌≡◌};

use session_pages::Page;
use std::io;

// Before the next line begins: every line has 16,384 bytes of room.
pub fn room<R: Print + Eprint + Alloc>(rt: &R, page: &mut Page)
    ensures { page.new.len ≤ 49152 }
{
    if page.len > 49152 {
        page.len = write_out(rt, &page.text, page.len);
    }
}

// Writes out what stands before a place. The page is free again from its start, which is the answer.
pub fn write_out<R: Print + Eprint + Alloc>(rt: &R, page: &[u8; 65536], at: usize) -> usize
    requires { at ≤ 65536 }
    ensures { result ≡ 0 }
{
    match rt.write_all(&page[..at]) {
        Ok(()) => 0,
        Err(error) => fail(rt, "standard output", error),
    }
}

// A line on standard error: what failed, as the caller names it, and why. Where that cannot be written either, nothing is left to tell it to.
// The answer is how much was read or written: nothing.
pub fn fail<R: Eprint + Alloc>(rt: &R, what: &str, error: io::Error) -> usize
    ensures { result ≡ 0 }
{
    let _ = told(rt, what, error);
    0
}

// Why, in the system's own words: what std puts behind them is left out.
fn told<R: Eprint + Alloc>(rt: &R, what: &str, error: io::Error) -> io::Result<()> {
    let why = format!(in rt.alloc(); "{error}")?;
    match why.as_str().split_once(" (os error ") {
        Some((words, _)) => eprintln!(rt; "{what}: {words}"),
        None => eprintln!(rt; "{what}: {why}"),
    }
}
