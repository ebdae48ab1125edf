// Helpers on doubles that every layer above uses. Each contract decides the answer on every double, NaN and the infinities included.
#![tactic(auto)]

ghost use Rattle.std.specs.Prelude.{◌≡◌};
ghost use Rattle.doubles.specs.Doubles.{is_finite, read_zero, bits_of, of_bits};
ghost use Rattle.doubles.specs.Doubles.{larger as the_larger, smaller as the_smaller, whole as the_whole};

// The smaller of two. A tie keeps the first, so a fold over candidates keeps the earliest.
pub fn smaller(x: f64, y: f64) -> f64
    ensures { result ≡ the_smaller x y }
{
    if y < x { y } else { x }
}

// The larger of two. A tie keeps the first, as in smaller.
pub fn larger(x: f64, y: f64) -> f64
    ensures { result ≡ the_larger x y }
{
    if x < y { y } else { x }
}

// Takes the sign off a zero, so that equal numbers have equal bits from there on.
pub fn read_zero(x: f64) -> f64
    ensures { result ≡ read_zero x }
{
    if x == 0.0 { 0.0 } else { x }
}

// Both comparisons are false of a NaN, and one of them of each infinity.
pub fn is_finite(x: f64) -> bool
    ensures { result ≡ is_finite x }
{
    let top = 1.0 / 0.0;
    x < top && -top < x
}

// A count as a double. The cast `n as f64` asks for a bound on n, and this rounds where n has none.
pub fn whole(n: u64) -> f64
    ensures { result ≡ the_whole n }
{
    std::num::nearest_u64_to_f64(n)
}

// The double that the bits spell. A NaN pattern is read as a NaN that is made here, since from_bits takes none.
pub fn of_bits(n: u64) -> f64
    ensures { result ≡ of_bits n }
{
    let size = n % 0x8000_0000_0000_0000;
    if size <= 0x7ff0_0000_0000_0000 {
        f64::from_bits(n)
    } else {
        0.0 / 0.0
    }
}

// The bits of a double. Only a NaN differs from itself, and it gets one pattern, whatever its own.
pub fn bits_of(x: f64) -> u64
    ensures { result ≡ bits_of x }
{
    if x == x {
        f64::to_bits(x)
    } else {
        0x7ff8_0000_0000_0000
    }
}
