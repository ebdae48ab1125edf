// A line of the script as a request. Whatever the format does not allow is malformed.
#![tactic(auto)]

ghost use Rattle.std.specs.Prelude.{◌≤◌, IfSome, length};
ghost use Rattle.session_asked.specs.Request.{Within};

use rules::{Call, Cap, Estimate, Owner, Submission};

// What a line asks for: a call of the simulator, or what the program makes of several, or of none.
#[derive(Clone, Copy)]
pub enum Ask {
    Malformed,
    // A fresh simulator, with the default floor or with that one.
    New,
    NewWith(f64),
    Make(Call),
    // From completion to completion up to a time, or until nobody is ever done.
    RunUntil(f64),
    Finish,
    See(Look),
}

// What is told of the state as it stands.
#[derive(Clone, Copy)]
pub enum Look {
    Now,
    Counts,
    Dump,
}

// What is asked, with the length of its path and of its lent buffer, 0 where it has none.
#[derive(Clone, Copy)]
pub struct Request {
    pub ask: Ask,
    pub hops: usize,
    pub places: usize,
}

// ---- by the first word

pub fn read(line: &[u8], path: &mut [u32]) -> Request
    requires { 128 ≤ length path.old }
    ensures { Within result }
{
    let mut words = Words { line, at: 0 };
    asked(&mut words, path).unwrap_or(bare(Ask::Malformed))
}

fn asked(words: &mut Words, path: &mut [u32]) -> Option<Request>
    requires { 128 ≤ length path.old }
    ensures { IfSome result Within }
{
    match words.word() {
        b"submit" => submit(words, path),
        b"estimate_new" => estimate_new(words, path),
        b"advance" => {
            let time = words.double()?;
            lending(words, Call::Advance(time))
        }
        b"take_completed" => {
            let owner = words.owner()?;
            lending(words, Call::TakeCompleted(owner))
        }
        b"owners_with_completions" => lending(words, Call::OwnersWithCompletions),
        name => {
            let ask = plain(name, words)?;
            words.ended().then_some(bare(ask))
        }
    }
}

// The calls with neither a path nor a buffer, up to the end of their lines.
fn plain(name: &[u8], words: &mut Words) -> Option<Ask> {
    Some(match name {
        b"new" if words.ended() => Ask::New,
        b"new" => Ask::NewWith(words.double()?),
        b"run_until" => Ask::RunUntil(words.double()?),
        b"finish" => Ask::Finish,
        b"now" => Ask::See(Look::Now),
        b"counts" => Ask::See(Look::Counts),
        b"dump" => Ask::See(Look::Dump),
        _ => Ask::Make(call(name, words)?),
    })
}

fn call(name: &[u8], words: &mut Words) -> Option<Call> {
    Some(match name {
        b"add_edge" => Call::AddEdge(words.double()?),
        b"widen" => Call::Widen(words.short()?, words.double()?),
        b"mean_in_flight" => Call::MeanInFlight(words.short()?, words.double()?),
        b"next_completion_delay" => Call::NextCompletionDelay,
        b"settle" => Call::Settle,
        b"rounds" => Call::Rounds,
        _ => call_by_number(name, words)?,
    })
}

// The calls that only name a transfer or an edge.
fn call_by_number(name: &[u8], words: &mut Words) -> Option<Call> {
    Some(match name {
        b"cancel" => Call::Cancel(words.short()?),
        b"remaining" => Call::Remaining(words.short()?),
        b"rate" => Call::Rate(words.short()?),
        b"bottleneck" => Call::Bottleneck(words.short()?),
        b"contains" => Call::Contains(words.short()?),
        b"edge" => Call::Edge(words.short()?),
        _ => return None,
    })
}

fn submit(words: &mut Words, path: &mut [u32]) -> Option<Request>
    requires { 128 ≤ length path.old }
    ensures { IfSome result Within }
{
    let call = Call::Submit(Submission {
        id: words.short()?,
        owner: words.owner()?,
        bytes: words.long()?,
        latency: words.double()?,
        cap: words.cap()?,
        time: words.double()?,
    });
    along(words, path, call)
}

fn estimate_new(words: &mut Words, path: &mut [u32]) -> Option<Request>
    requires { 128 ≤ length path.old }
    ensures { IfSome result Within }
{
    let call = Call::EstimateNew(Estimate {
        bytes: words.double()?,
        latency: words.double()?,
        cap: words.cap()?,
    });
    along(words, path, call)
}

// ---- how a line ends

fn bare(ask: Ask) -> Request
    ensures { Within result }
{
    Request {
        ask,
        hops: 0,
        places: 0,
    }
}

// With the length of the buffer that is lent.
fn lending(words: &mut Words, call: Call) -> Option<Request>
    ensures { IfSome result Within }
{
    let places = words.short()? as usize;
    if places > 1024 || !words.ended() {
        return None;
    }
    Some(Request {
        ask: Ask::Make(call),
        hops: 0,
        places,
    })
}

// With a path.
fn along(words: &mut Words, path: &mut [u32], call: Call) -> Option<Request>
    requires { 128 ≤ length path.old }
    ensures { IfSome result Within }
{
    let hops = words.short()? as usize;
    if hops > 128 {
        return None;
    }
    words.path(&mut path[..hops])?;
    if !words.ended() {
        return None;
    }
    Some(Request {
        ask: Ask::Make(call),
        hops,
        places: 0,
    })
}

// ---- the words that are still to be read, each taken as what is wanted there

// The line, and where its last word that was read ends.
#[derive(Clone, Copy)]
struct Words<'a> {
    line: &'a [u8],
    at: usize,
}

impl<'a> Words<'a> {
    // The next word, which is empty where the line has none left.
    fn word(&mut self) -> &'a [u8] {
        let word = session_words::next_word(self.line, self.at);
        self.at = word.end;
        &self.line[word.start..word.end]
    }

    fn ended(mut self) -> bool {
        self.word().is_empty()
    }

    fn short(&mut self) -> Option<u32> {
        let (n, end) = session_numbers::short_at(self.line, self.at)?;
        self.at = end;
        Some(n)
    }

    fn long(&mut self) -> Option<u64> {
        let (n, end) = session_numbers::long_at(self.line, self.at)?;
        self.at = end;
        Some(n)
    }

    fn double(&mut self) -> Option<f64> {
        let (x, end) = session_numbers::double_at(self.line, self.at)?;
        self.at = end;
        Some(x)
    }

    // Only a worker has a number: the other kinds have 0 there.
    fn owner(&mut self) -> Option<Owner> {
        match (self.short()?, self.short()?) {
            (0, worker) => Some(Owner::Worker(worker)),
            (1, 0) => Some(Owner::Handoff),
            (2, 0) => Some(Owner::Write),
            _ => None,
        }
    }

    fn cap(&mut self) -> Option<Cap> {
        let mut behind = *self;
        if let b"-" = behind.word() {
            *self = behind;
            return Some(Cap::Uncapped);
        }
        Some(Cap::AtMost(self.double()?))
    }

    // A number for each hop.
    fn path(&mut self, hops: &mut [u32]) -> Option<()> {
        for hop in hops {
            *hop = self.short()?;
        }
        Some(())
    }
}
