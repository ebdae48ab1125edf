// The numbers that a script's words spell, whole ones and doubles. Nothing here knows what is simulated.
#![tactic(auto)]

ghost use Rattle.std.specs.Prelude.{◌≡◌, ◌<◌, ◌≤◌};
ghost use mathlib.Core.List.{foldl};
ghost use Rattle.session_numbers.specs.Numbers.{more, number_of};
ghost use Rattle.session_numbers.specs.Numbers.{digit as the_digit};
ghost use Rattle.session_numbers.specs.Reals.{double_of, signed_of, plain_of};
ghost use Rattle.session_numbers.specs.Reals.{fraction as the_fraction};
ghost use Rattle.session_numbers.specs.Next.{long_in, short_in, real_in};

// ---- whole numbers

// The number that a word spells in a base up to sixteen: digits only, at least one, and below 2^64.
#[tactic(auto, using(crate::proofs::Reading::by_length))]
pub fn spelled(word: &[u8], base: u64) -> Option<u64>
    requires { (0 < base) × (base ≤ 16) }
    ensures { result ≡ number_of base word.now }
{
    if word.is_empty() {
        return None;
    }
    more_digits(0, word, base)
}

// Digits read on behind a number that is there already.
#[tactic(auto, using(crate::proofs::Reading::one_on, crate::proofs::Reading::none_stays))]
fn more_digits(first: u64, word: &[u8], base: u64) -> Option<u64>
    requires { (0 < base) × (base ≤ 16) }
    ensures { result ≡ foldl (more base) (Some first) word.now }
{
    let mut n = first;
    for b in word {
        n = one_more(n, *b, base)?;
    }
    Some(n)
}

// One digit read on, unless it is none or the number no longer fits.
#[tactic(auto, unfolding(crate::specs::Numbers::more))]
fn one_more(n: u64, b: u8, base: u64) -> Option<u64>
    requires { (0 < base) × (base ≤ 16) }
    ensures { result ≡ more base (Some n) b }
{
    let d = digit(b);
    if d >= base {
        return None;
    }
    n.checked_mul(base)?.checked_add(d)
}

// What a digit counts, in either case of its letter; 16 where there is no digit.
#[tactic(auto, unfolding(crate::specs::Numbers::digit))]
fn digit(b: u8) -> u64
    ensures exactly { result ≡ the_digit b }
    ensures small { result ≤ 16 }
{
    match b {
        b'0'..=b'9' => u64::from(b - b'0'),
        b'A'..=b'F' => u64::from(b - b'A') + 10,
        b'a'..=b'f' => u64::from(b - b'a') + 10,
        _ => 16,
    }
}

// ---- doubles

// The double that a word spells: sixteen hexadecimal digits are its bits, and anything else is a decimal number.
#[tactic(auto, unfolding(crate::specs::Reals::double_of, crate::specs::Reals::bits_or))]
pub fn read_double(word: &[u8]) -> Option<f64>
    ensures { result ≡ double_of word.now }
{
    if word.len() == 16
        && let Some(bits) = spelled(word, 16)
    {
        return Some(doubles::of_bits(bits));
    }
    signed(word)
}

// A decimal number, below zero where a minus stands in front.
#[tactic(auto, unfolding(crate::specs::Reals::signed_of, crate::specs::Reals::negated))]
fn signed(word: &[u8]) -> Option<f64>
    ensures { result ≡ signed_of word.now }
{
    match word {
        [] => None,
        [b'-', size @ ..] => Some(-unsigned(size)?),
        _ => unsigned(word),
    }
}

// At most fifteen digits, with or without a point among them: a point has digits on both sides.
#[tactic(auto, unfolding(crate::specs::Reals::plain_of, crate::specs::Reals::pointed, crate::specs::Reals::joined, crate::specs::Reals::fraction))]
fn unsigned(word: &[u8]) -> Option<f64>
    ensures { result ≡ plain_of word.now }
{
    if word.len() > 16 {
        return None;
    }
    let point = session_words::find(word, 0, b'.');
    if point == word.len() {
        return fraction(spelled(word, 10)?, word.len(), 0);
    }
    let after = point + 1;
    if after == word.len() {
        return None;
    }
    let front = spelled(&word[..point], 10)?;
    let all = more_digits(front, &word[after..], 10)?;
    fraction(all, word.len() - 1, word.len() - after)
}

// Digits with a point before the last few of them. Both parts of the quotient are below 2^53, so only the quotient rounds.
#[tactic(auto, unfolding(crate::specs::Reals::fraction))]
fn fraction(n: u64, digits: usize, places: usize) -> Option<f64>
    requires { places ≤ 15 }
    ensures { result ≡ the_fraction (Some n) digits places }
{
    if digits > 15 {
        return None;
    }
    Some(doubles::whole(n) / doubles::whole(10u64.pow(places as u32)))
}

// ---- the next word of a line as a number: one function for each definition of specs/Next

// A number below 2^64, in decimal, and where the word ends.
#[tactic(auto, unfolding(crate::specs::Next::long_in, crate::specs::Next::long_to, session_words::specs::Words::bytes_of))]
pub fn long_at(line: &[u8], at: usize) -> Option<(u64, usize)>
    ensures { result ≡ long_in line.now at }
{
    let word = session_words::next_word(line, at);
    let n = spelled(&line[word.start..word.end], 10)?;
    Some((n, word.end))
}

// A number below 2^32, in decimal, and where the word ends.
#[tactic(auto, unfolding(crate::specs::Next::short_in, crate::specs::Next::short_of))]
pub fn short_at(line: &[u8], at: usize) -> Option<(u32, usize)>
    ensures { result ≡ short_in line.now at }
{
    let (n, end) = long_at(line, at)?;
    Some((u32::try_from(n).ok()?, end))
}

// A double, and where the word ends.
#[tactic(auto, unfolding(crate::specs::Next::real_in, crate::specs::Next::real_to, session_words::specs::Words::bytes_of))]
pub fn double_at(line: &[u8], at: usize) -> Option<(f64, usize)>
    ensures { result ≡ real_in line.now at }
{
    let word = session_words::next_word(line, at);
    let x = read_double(&line[word.start..word.end])?;
    Some((x, word.end))
}
