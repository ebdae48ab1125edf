// Reads a script of calls, from the file that its argument names or from standard input, makes each on the simulator and prints the answers.
#![tactic(auto)]

ghost use Rattle.std.specs.Prelude.{◌≤◌, ◌≡◌, cond, length};
ghost use Rattle.rules.specs.Refusals.{not_a_floor};
ghost use Rattle.rules.specs.Floors.{with_floor};
ghost use Rattle.rules.specs.Histories.{call as the_call};
ghost use Rattle.rules.specs.Invariant.{Invariant};

use rules::{Answer, Call, Flows};
use session_asked::Ask;
use session_fields::named;
use session_pages::Page;
use session_words::Line;
use std::env::{Env, FillError};
use std::io::{ErrorKind, Read};
use std::rt::Files;
use std::{fs, io};

fn main(rt: HostRuntime) {
    let mut name = [0u8; 4096];
    match rt.arg(1, &mut name) {
        Ok(length) => run_file(&rt, &name[..length]),
        Err(FillError::NotPresent) => run_script(&rt, &mut rt.stdin(), "standard input"),
        Err(FillError::TooLong) => {
            let _ = eprintln!(rt; "script: File name too long");
        }
    }
}

// A name that is no text names no file for the library, so that it is refused here.
fn run_file<R: Print + Eprint + Alloc + Files>(rt: &R, name: &[u8]) {
    let Ok(path) = std::str::from_utf8(name) else {
        session_fields::fail(rt, "script", io::Error::from(ErrorKind::InvalidFilename));
        return;
    };
    match fs::open(rt, path) {
        Ok(mut file) => run_script(rt, &mut file, path),
        Err(error) => {
            session_fields::fail(rt, path, error);
        }
    }
}

// A proved loop has to end, and nothing says that a script does, so it has more turns than any run uses up.
fn run_script<R: Print + Eprint + Alloc, I: Read>(rt: &R, input: &mut I, name: &str) {
    let mut buffer = [0u8; 65536];
    let mut text = [0u8; 4096];
    let mut page = Page::new();
    let mut flows = Flows::new();
    let mut line = Line::new();
    for turn in 0..u64::MAX {
        let n = read_some(rt, input, name, &mut buffer);
        if n == 0 {
            break;
        }
        let start = if turn == 0 { unmarked(&buffer[..n]) } else { 0 };
        line = lines(
            rt,
            &mut flows,
            line,
            &buffer[start..n],
            &mut text,
            &mut page,
        );
    }
    ended(rt, &mut flows, line, &text, &mut page);
    session_fields::write_out(rt, &page.text, page.len);
}

// How many bytes a read put at the buffer's start. One that fails is told of, and counts as the end.
fn read_some<R: Eprint + Alloc, I: Read>(
    rt: &R,
    input: &mut I,
    name: &str,
    buffer: &mut [u8; 65536],
) -> usize
    ensures { result ≤ 65536 }
{
    match input.read(buffer) {
        Ok(n) => n,
        Err(error) => session_fields::fail(rt, name, error),
    }
}

// Where the text starts: behind a byte order mark, where the very first bytes are one.
fn unmarked(bytes: &[u8]) -> usize
    ensures { result ≤ length bytes.now }
{
    match bytes {
        [0xef, 0xbb, 0xbf, ..] => 3,
        _ => 0,
    }
}

// Answers every line that ends in what was read, and writes the answers out before it is waited for more. What is left is the line so far.
fn lines<R: Print + Eprint + Alloc>(
    rt: &R,
    flows: &mut Flows,
    mut line: Line,
    bytes: &[u8],
    text: &mut [u8; 4096],
    page: &mut Page,
) -> Line
    requires invariant { Invariant flows.old }
    requires len_bound { line.len ≤ 4096 }
    ensures invariant_2 { Invariant flows.new }
    ensures len_bound_2 { result.len ≤ 4096 }
{
    let mut rest = bytes;
    // A `while let`: each turn cuts one line off, and what has no end yet is left over.
    while let Some(end) = rest.iter().position(|b| *b == b'\n') {
        line = gathered(line, &rest[..end], text);
        ended(rt, flows, line, text, page);
        line = Line::new();
        rest = &rest[end + 1..];
    }
    page.len = session_fields::write_out(rt, &page.text, page.len);
    gathered(line, rest, text)
}

// The bytes of a line, or of a part of one, put behind those before them.
fn gathered(mut line: Line, bytes: &[u8], text: &mut [u8; 4096]) -> Line
    requires { line.len ≤ 4096 }
    ensures { result.len ≤ 4096 }
{
    for b in bytes {
        line = line.with(text, *b);
    }
    line
}

// A line that has ended: it is skipped where it is blank, and answered otherwise.
fn ended<R: Print + Eprint + Alloc>(
    rt: &R,
    flows: &mut Flows,
    line: Line,
    text: &[u8; 4096],
    page: &mut Page,
)
    requires invariant { Invariant flows.old }
    requires len_bound { line.len ≤ 4096 }
    ensures { Invariant flows.new }
{
    if line.len == 0 {
        return;
    }
    session_fields::room(rt, page);
    if line.long {
        page.put_text(b"malformed\n");
    } else {
        answered(rt, flows, &text[..line.len], page);
    }
}

fn answered<R: Print + Eprint + Alloc>(rt: &R, flows: &mut Flows, line: &[u8], page: &mut Page)
    requires invariant { Invariant flows.old }
    requires at_bound { page.old.len ≤ 49152 }
    ensures { Invariant flows.new }
{
    let mut path = [0u32; 128];
    let request = session_asked::read(line, &mut path);
    match request.ask {
        Ask::Malformed => page.put_text(b"malformed\n"),
        Ask::New => {
            *flows = Flows::new();
            page.put_text(b"done\n");
        }
        Ask::NewWith(floor) => renewed(flows, floor, page),
        Ask::Make(call) => {
            let mut lent = [0xa5a5_a5a5u32; 1024];
            made(
                flows,
                call,
                &path[..request.hops],
                &mut lent[..request.places],
                page,
            );
        }
        Ask::RunUntil(time) => session_stepping::run_until(rt, flows, time, page),
        Ask::Finish => session_stepping::finish(rt, flows, page),
        Ask::See(look) => session_told::look(rt, *flows, look, page),
    }
}

// A fresh simulator with a floor of its own; where that is refused the one before stays.
#[tactic(auto, unfolding(rules::specs::Floors::with_floor, rules::specs::Refusals::refusing))]
fn renewed(flows: &mut Flows, floor: f64, page: &mut Page)
    requires invariant { Invariant flows.old }
    requires at_bound { page.old.len ≤ 49152 }
    ensures exactly { flows.new ≡ cond (not_a_floor floor) flows.old (with_floor floor).flows }
    ensures sound { Invariant flows.new }
{
    let fresh = Flows::with_floor(floor);
    if let Answer::Refused(n) = fresh.answer {
        named(page, b"refused", u64::from(n));
        page.put_text(b"\n");
    } else {
        *flows = fresh.flows;
        page.put_text(b"done\n");
    }
}

// A call made and told, its path and its buffer cut to their lengths.
fn made(flows: &mut Flows, call: Call, path: &[u32], lent: &mut [u32], page: &mut Page)
    requires invariant { Invariant flows.old }
    requires lent_len_bound { (length lent.old ≤ 1024) × (page.old.len ≤ 49152) }
    ensures exactly { flows.new ≡ (the_call call path.now flows.old lent.old).made.flows }
    ensures sound { Invariant flows.new }
{
    let made = flows::make(*flows, call, path, lent);
    *flows = made.flows;
    session_told::said(made.said, session_told::width(call), lent, page);
}
