// How a column is written: its numbers with a space before each, a stretch of eight or more with one step between them as `n*x` or `n*x+d`.
ghost use Rattle.std.specs.Prelude.{◌<◌, IfOk, IfSome, length};

use crate::form;
use columns::Number;
use std::io;

// The stretch that is written in short has at least so many numbers.
const LONG: usize = 8;

// The number at a place; 0 past the end.
fn get<T: Number>(xs: &[T], at: usize) -> u64 {
    match xs.get(at) {
        Some(x) => x.wide(),
        None => 0,
    }
}

// The step that the stretch that begins at a place has, and where the stretch ends. A number alone has no step.
fn stretch<T: Number>(xs: &[T], from: usize) -> Option<(u64, usize)>
    requires { from < length xs.now }
    ensures { IfSome result (λ found. from < found.1) }
{
    let mut before = get(xs, from);
    let step = get(xs, from + 1).checked_sub(before)?;
    for i in from + 1..xs.len() {
        let value = xs[i].wide();
        if value.checked_sub(before) != Some(step) {
            return Some((step, i));
        }
        before = value;
    }
    Some((step, xs.len()))
}

// Writes the stretch that begins at a place, or its first number alone, and says where the rest of the column begins.
fn told<T: Number>(rt: &impl Print, xs: &[T], at: usize) -> io::Result<usize>
    requires { at < length xs.now }
    ensures { IfOk result (λ next. at < next) }
{
    let first = get(xs, at);
    if let Some((step, end)) = stretch(xs, at)
        && LONG <= end - at
    {
        let count = (end - at) as u64;
        if 0 < step {
            form::fill(rt, b" #*#+#", &[count, first, step])?;
        } else {
            form::fill(rt, b" #*#", &[count, first])?;
        }
        return Ok(end);
    }
    print::word(rt, b" ")?;
    print::number(rt, first)?;
    Ok(at + 1)
}

pub fn of<T: Number>(rt: &impl Print, name: &str, xs: &[T]) -> io::Result<()> {
    print::word(rt, name.as_bytes())?;
    let mut i = 0;
    while i < xs.len() {
        i = told(rt, xs, i)?;
    }
    print::word(rt, b"\n")?;
    Ok(())
}

// The columns of the offsets and of the fields, each whole, with what is behind its used part.
pub fn offset_columns(
    rt: &impl Print,
    bases: &[u64],
    short: &[u16],
    long_at: &[u32],
    long_value: &[u64],
    fields: &[u32],
    table: &[u16],
) -> io::Result<()> {
    of(rt, "  bases", bases)?;
    of(rt, "  short", short)?;
    of(rt, "  long_at", long_at)?;
    of(rt, "  long_value", long_value)?;
    of(rt, "  fields", fields)?;
    of(rt, "  table", table)
}

// The columns of the codes.
pub fn code_columns(
    rt: &impl Print,
    escape_at: &[u64],
    escape_label: &[u32],
    codes: &[u16],
    counting: &[u64],
    ranking: &[u64],
) -> io::Result<()> {
    of(rt, "  escape_at", escape_at)?;
    of(rt, "  escape_label", escape_label)?;
    of(rt, "  codes", codes)?;
    of(rt, "  counting", counting)?;
    of(rt, "  ranking", ranking)
}

// The used part of a column; all of it where it is shorter.
pub fn used<T>(xs: &[T], n: usize) -> &[T] {
    &xs[..n.min(xs.len())]
}

// A part of a column; none of it where the part is not inside.
pub fn part<T>(xs: &[T], start: usize, end: usize) -> &[T] {
    xs.get(start..end).unwrap_or(&xs[..0])
}
