// Runs the helpers of `doubles` on a table of bit patterns and prints what they answer, to be held against the answers of Rust.
// A line of the table has nineteen bytes: a letter, a space, sixteen hexadecimal digits and the line's end.
#![tactic(auto)]

ghost use Rattle.std.specs.Prelude.{◌≤◌, ◌<◌, length, IfOk};

use std::io;
use std::io::Read;

fn main(rt: HostRuntime) -> io::Result<()> {
    let mut buf = [0u8; 65536];
    let n = read_full(&mut rt.stdin(), &mut buf)?;
    let text = &buf[..n];
    each_line(text, b'b', |pattern| show_pattern(&rt, pattern))?;
    // Every member beside every member, so that both orders of two are tried.
    each_line(
        text,
        b'p',
        |first| each_line(text, b'p', |second| show_pair(&rt, first, second)),
    )?;
    each_line(text, b'w', |count| show_count(&rt, count))
}

// Reads until the buffer is full or the input ends, and answers how many bytes stand at its start. A `while`, for how often it reads is not known before.
fn read_full<R: Read>(input: &mut R, buf: &mut [u8]) -> io::Result<usize>
    ensures { IfOk result (λ n. n ≤ length buf.new) }
{
    let mut done = 0;
    while done < buf.len() {
        let n = input.read(&mut buf[done..])?;
        if n == 0 {
            return Ok(done);
        }
        done += n;
    }
    Ok(done)
}

// Shows the numbers of the lines that begin with the letter, in order: one file feeds all the lists.
fn each_line<F: FnMut(u64) -> io::Result<()>>(
    text: &[u8],
    letter: u8,
    mut show: F,
) -> io::Result<()>
    requires { F.IsAlwaysCallable show }
{
    for line in text.chunks_exact(19) {
        if line[0] == letter {
            show(number(&line[2..18]))?;
        }
    }
    Ok(())
}

fn show_pattern(rt: &impl Print, pattern: u64) -> io::Result<()> {
    let x = doubles::of_bits(pattern);
    let bits = doubles::bits_of(x);
    let finite = doubles::is_finite(x) as u64;
    let zero_read = doubles::bits_of(doubles::read_zero(x));
    println!(rt; "bits {bits:016x} finite {finite} zero_read {zero_read:016x}")
}

fn show_pair(rt: &impl Print, first: u64, second: u64) -> io::Result<()> {
    let x = doubles::of_bits(first);
    let y = doubles::of_bits(second);
    let min = doubles::bits_of(doubles::smaller(x, y));
    let max = doubles::bits_of(doubles::larger(x, y));
    println!(rt; "pair {first:016x} {second:016x} min {min:016x} max {max:016x}")
}

fn show_count(rt: &impl Print, count: u64) -> io::Result<()> {
    let bits = doubles::bits_of(doubles::whole(count));
    println!(rt; "whole {count} {bits:016x}")
}

// The number that sixteen hexadecimal digits spell. The remainder keeps the sum within a u64, and loses nothing before the sixteenth digit.
fn number(digits: &[u8]) -> u64 {
    let mut value = 0;
    for b in digits {
        value = value % 0x1000_0000_0000_0000 * 16 + digit(*b);
    }
    value
}

// What is no hexadecimal digit in lower case counts as 0.
fn digit(b: u8) -> u64
    ensures { result < 16 }
{
    match b {
        b'a'..=b'f' => u64::from(b - b'a') + 10,
        b'0'..=b'9' => u64::from(b - b'0'),
        _ => 0,
    }
}
