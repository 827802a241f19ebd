// The questions by the short columns alone, without the long offsets and the escapes, which few objects need. Where the answer is no refusal it is the
// whole question's; a refusal says only that the whole question is to be asked. So a host that asks here first lends few columns.
// `ask_short_field` has the questions for a field.
#![tactic(auto)]

pub mod label;

ghost use Rattle.std.specs.Prelude.{◌≡◌};
ghost use Rattle.store.specs.Blocked.{offset_says, read_back};
ghost use Rattle.rules.specs.Types.{span_says};
ghost use Rattle.ask_span.specs.Reading.{span_of};
ghost use Rattle.ask_span.specs.Graph.{span_in};
ghost use Rattle.ask_short.specs.Lean.{short_of, lean_in};

use rules::{ReadError, Span};

// The columns of a graph's edges without the long offsets and the escapes.
#[derive(Clone, Copy)]
pub struct Lean<'a> {
    pub bases: &'a [u64],
    pub short: &'a [u16],
    pub codes: &'a [u16],
    pub targets: &'a [u32],
    pub fields: &'a [u32],
}

// The offset at i, where it is short. A long one cannot be read here. No search is named, not even one of an empty column: so this is small enough to be
// compiled into each question.
fn offset(bases: &[u64], short: &[u16], i: usize) -> Result<u64, ReadError>
    ensures { offset_says result ≡ read_back (short_of bases.now short.now) i }
{
    if short.len() <= i {
        return Err(ReadError::Index(i));
    }
    let above = short[i];
    if above == 65535 {
        return Err(ReadError::Columns(i));
    }
    store::short_at(bases, above, i)
}

// Where the edges of an object sit, where both its offsets are short and it ends within codes and targets.
pub fn span(
    bases: &[u64],
    short: &[u16],
    codes: usize,
    targets: usize,
    object: usize,
) -> Result<Span, ReadError>
    ensures { span_says result ≡ span_of (short_of bases.now short.now) codes targets object }
{
    ask_span::span_by(
        |i| offset(bases, short, i),
        short.len(),
        codes,
        targets,
        object,
    )
}

impl<'a> Lean<'a> {
    // The same by these columns.
    pub fn span(self, object: usize) -> Result<Span, ReadError>
        ensures { span_says result ≡ span_in (lean_in self.entry) object }
    {
        span(
            self.bases,
            self.short,
            self.codes.len(),
            self.targets.len(),
            object,
        )
    }
}
