// What the programs write: words, numbers, and columns of numbers with a space before each. No contract can say what the standard output does with the bytes.
// So each function answers how many bytes it handed over, modulo 2^64. One that leaves out a part of its text would answer another number. A write that fails
// is handed on as an error, and nothing is said then of how much was written.
#![tactic(auto)]

ghost use Rattle.std.specs.Prelude.{◌≡◌, IfOk, length};
ghost use Rattle.print.specs.Printed.{digit_count, spaced_bytes, line_bytes, column_bytes};

use columns::Number;
use itoa::Buffer;
use std::io;

pub fn word(rt: &impl Print, text: &[u8]) -> io::Result<usize>
    ensures { IfOk result (λ bytes. bytes ≡ length text.now) }
{
    rt.write_all(text)?;
    Ok(text.len())
}

// The digits themselves are the contract of `itoa`.
#[tactic(auto, using(crate::proofs::Printed::count_written))]
pub fn number(rt: &impl Print, n: u64) -> io::Result<usize>
    ensures { IfOk result (λ bytes. bytes ≡ digit_count n) }
{
    let mut text = Buffer::new();
    let digits = text.format(n);
    word(rt, digits.as_bytes())
}

// A word and a number, on a line of their own.
pub fn line(rt: &impl Print, text: &[u8], n: u64) -> io::Result<usize>
    ensures { IfOk result (λ bytes. bytes ≡ line_bytes text.now n) }
{
    let bytes = word(rt, text)?.wrapping_add(number(rt, n)?);
    Ok(bytes.wrapping_add(end(rt)?))
}

fn next(rt: &impl Print, n: u64) -> io::Result<usize>
    ensures { IfOk result (λ bytes. bytes ≡ spaced_bytes n) }
{
    let bytes = word(rt, b" ")?;
    Ok(bytes.wrapping_add(number(rt, n)?))
}

fn end(rt: &impl Print) -> io::Result<usize>
    ensures { IfOk result (λ bytes. bytes ≡ 1) }
{
    word(rt, b"\n")
}

pub fn column<T: Number>(rt: &impl Print, text: &[u8], xs: &[T]) -> io::Result<usize>
    ensures { IfOk result (λ bytes. bytes ≡ column_bytes text.now (T.numbers xs.now)) }
{
    let mut bytes = word(rt, text)?;
    for x in xs {
        bytes = bytes.wrapping_add(next(rt, x.wide())?);
    }
    Ok(bytes.wrapping_add(end(rt)?))
}
