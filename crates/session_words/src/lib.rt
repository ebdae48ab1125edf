// The words of a script's line, and the line while its bytes come in.
#![tactic(auto)]

mod line;

ghost use Rattle.std.specs.Prelude.{◌+◌, ◌≤◌, ◌≡◌, length, drop};
ghost use Rattle.session_words.specs.Words.{run, index_of};
ghost use Rattle.session_words.specs.Words.{is_blank as blank, stops as the_end, next_word as the_next_word};

pub use line::Line;

// A word of a line: its bytes stand from `start` up to, not including, `end`. There are none where the line has no word left.
#[derive(Clone, Copy)]
pub struct Word {
    pub start: usize,
    pub end: usize,
}

// The first word at or behind a place. A place behind the line's end counts as its end.
// A line and a place, here and in `past`, and no rest of a line: their definitions are over both.
#[tactic(auto, unfolding(crate::specs::Words::next_word))]
pub fn next_word(line: &[u8], at: usize) -> Word
    ensures exactly { result ≡ the_next_word line.now at }
    ensures within { (result.start ≤ result.end) × (result.end ≤ length line.now) }
{
    let start = past(line, at.min(line.len()), true);
    let end = past(line, start, false);
    Word { start, end }
}

// Past the blanks that stand there, or past what is none.
fn past(line: &[u8], at: usize, blanks: bool) -> usize
    requires { at ≤ length line.now }
    ensures exactly { result ≡ at + run blanks (drop at line.now) }
    ensures within { (at ≤ result) × (result ≤ length line.now) }
{
    line[at..]
        .iter()
        .position(|b| stops(*b, blanks))
        .map_or(line.len(), |n| at + n)
}

// Whether a byte ends a run of blanks, or one of what is none.
#[tactic(auto, unfolding(crate::specs::Words::stops))]
fn stops(b: u8, blanks: bool) -> bool
    ensures { result ≡ the_end blanks b }
{
    is_blank(b) != blanks
}

// A space, a tab, a form feed, or the carriage return that some systems end a line with.
#[tactic(auto, unfolding(crate::specs::Words::is_blank))]
pub fn is_blank(b: u8) -> bool
    ensures { result ≡ blank b }
{
    matches!(b, b' ' | b'\t' | b'\r' | b'\x0c')
}

// The first place at or behind one where a byte stands, and the end where it stands nowhere.
pub fn find(bytes: &[u8], from: usize, b: u8) -> usize
    requires { from ≤ length bytes.now }
    ensures exactly { result ≡ from + index_of b (drop from bytes.now) }
    ensures within { (from ≤ result) × (result ≤ length bytes.now) }
{
    bytes[from..]
        .iter()
        .position(|x| *x == b)
        .map_or(bytes.len(), |n| from + n)
}
