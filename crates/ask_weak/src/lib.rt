// Where an object's weak pairs sit. `ask_span` passes this on.
#![tactic(auto)]

ghost use Rattle.std.specs.Prelude.{◌≡◌, ◌+◌, ◌^◌, ◌<◌, length};
ghost use Rattle.rules.specs.Types.{weak_says};
ghost use Rattle.ask_weak.specs.Rows.{weak_end, weak_rows_of};

use rules::{ReadError, Span};

// Where the rows of an object end that start at `start`. Most objects have none, and then one search is enough.
fn rows_end(weak_from: &[u32], object: usize, start: usize) -> usize
    requires { object + 1 < 2 ^ 64 }
    ensures { result ≡ weak_end weak_from.now object start }
{
    if weak_from.len() <= start {
        return start;
    }
    if columns::index(weak_from[start]) != object {
        return start;
    }
    columns::bisect(weak_from, object as u64 + 1)
}

// The rows of an object's weak pairs: from the first that is not before the object up to the first behind it.
pub fn weak_referents(
    short: &[u16],
    weak_from: &[u32],
    weak_to: &[u32],
    object: usize,
) -> Result<Span, ReadError>
    ensures { weak_says result ≡ weak_rows_of (length short.now) weak_from.now weak_to.now object }
{
    if short.len() <= object {
        return Err(ReadError::Index(object));
    }
    if short.len() - object < 2 {
        return Err(ReadError::Index(object));
    }
    let start = columns::bisect(weak_from, object as u64);
    let end = rows_end(weak_from, object, start);
    if end < start {
        return Err(ReadError::Columns(object));
    }
    if weak_to.len() < end {
        return Err(ReadError::Columns(object));
    }
    Ok(Span { start, end })
}
