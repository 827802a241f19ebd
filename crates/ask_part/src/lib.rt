// An object's part of a column, by its span. `ask_span` passes this on.
#![tactic(auto)]

ghost use Rattle.std.specs.Prelude.{◌≡◌};
ghost use Rattle.rules.specs.Types.{span_says};
ghost use Rattle.ask_part.specs.Part.{span_part};

use rules::{ReadError, Span};

// The targets or the codes of an object, as a part of their column, by the span that `span` gave, which says whether there is such an object. Of a refusal, or
// of a span that is none of this column's, the part is empty.
pub fn part_of<'a, T>(column: &'a [T], at: Result<Span, ReadError>) -> &'a [T]
    ensures { result.now ≡ span_part (span_says at) column.now }
{
    let Ok(Span { start, end }) = at else {
        return &column[..0];
    };
    if end < start {
        return &column[..0];
    }
    if column.len() < end {
        return &column[..0];
    }
    &column[start..end]
}
