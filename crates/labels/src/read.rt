// Reading labels back, from the used parts of the columns. An escape's row is found by bisection.
ghost use Rattle.std.specs.Prelude.{◌≡◌, ◌+◌, ◌<◌, leb, length};
ghost use Rattle.std.specs.Bool.{beq};
ghost use Rattle.columns.specs.Ranks.{bisect};
ghost use Rattle.rules.specs.Types.{is_element};
ghost use Rattle.labels.specs.Reading.{read_says, coded_in, edge_label_back, row_back, element_back, field_back, code_back, coarse_back, walk_back, exact_back};

use super::code::{ELEMENT, ESCAPED, after};
use super::{Codes, Unread};
use rules::Label;

// A field's label goes with a field's code, an element's with an element's.
fn fits(label: u32, code: u16) -> bool
    ensures { result ≡ beq (is_element label) (leb 32768 code) }
{
    Label(label).is_element() == (ELEMENT <= code)
}

// The label of an edge whose code is escaped. Compiled into each of its callers, as `read_code`.
#[inline(always)]
fn escape(escape_at: &[u64], escape_label: &[u32], edge: u64, code: u16) -> Result<Label, Unread>
    ensures { read_says result ≡ row_back escape_at.now escape_label.now edge code (bisect escape_at.now edge) }
{
    let k = columns::bisect(escape_at, edge);
    if escape_at.len() <= k {
        return Err(Unread);
    }
    if escape_at[k] != edge {
        return Err(Unread);
    }
    if escape_label.len() <= k {
        return Err(Unread);
    }
    let label = escape_label[k];
    if fits(label, code) {
        return Ok(Label(label));
    }
    Err(Unread)
}

// The label of an element by its gap, which is below 32,768.
fn element(next: u32, gap: u32) -> Result<Label, Unread>
    requires { gap < 32768 }
    ensures { read_says result ≡ element_back (next + gap) }
{
    if Label::ARRAY_ELEMENT - gap <= next {
        return Err(Unread);
    }
    Ok(Label::element(next + gap))
}

// The label of a field by its place. What stands among the fields with an element's label is no field.
fn field(fields: &[u32], at: usize) -> Result<Label, Unread>
    ensures { read_says result ≡ field_back fields.now at }
{
    if fields.len() <= at {
        return Err(Unread);
    }
    let label = fields[at];
    if Label::ARRAY_ELEMENT <= label {
        return Err(Unread);
    }
    Ok(Label(label))
}

// The label of an edge by its code, where an element would have the index `next` at least. Compiled into each of its callers: else nine words would go through
// memory with each label.
#[inline(always)]
pub fn read_code(
    code: u16,
    edge: u64,
    next: u32,
    fields: &[u32],
    escape_at: &[u64],
    escape_label: &[u32],
) -> Result<Label, Unread>
    ensures { read_says result ≡ code_back fields.now escape_at.now escape_label.now edge next code }
{
    if code % ELEMENT == ESCAPED {
        return escape(escape_at, escape_label, edge, code);
    }
    if ELEMENT <= code {
        return element(next, u32::from(code - ELEMENT));
    }
    field(fields, usize::from(code))
}

impl<'a> Codes<'a> {
    // The label of an edge by its code, as `read_code`. Compiled into each of its callers as well.
    #[inline(always)]
    fn read(self, edge: usize, next: u32) -> Result<Label, Unread>
        requires { edge < length self.codes.now }
        ensures { read_says result ≡ edge_label_back (coded_in self.entry) edge next }
    {
        read_code(
            self.codes[edge],
            edge as u64,
            next,
            self.fields,
            self.escape_at,
            self.escape_label,
        )
    }

    // An edge's field label, or just `ARRAY_ELEMENT` for an element.
    pub fn coarse(self, edge: usize) -> Result<Label, Unread>
        requires { edge < length self.codes.now }
        ensures { read_says result ≡ coarse_back (coded_in self.entry) edge }
    {
        if ELEMENT <= self.codes[edge] {
            return Ok(Label(Label::ARRAY_ELEMENT));
        }
        self.read(edge, 0)
    }

    // The label of an object's k-th edge, by the labels of the edges before it.
    fn walk(self, start: usize, k: usize) -> Result<Label, Unread>
        requires { start + k < length self.codes.now }
        ensures { read_says result ≡ walk_back (coded_in self.entry) start k }
    {
        let mut next = 0;
        for i in 0..k {
            let label = self.read(start + i, next)?;
            next = after(label.0, next);
        }
        self.read(start + k, next)
    }

    // An edge's label: the k-th of the object whose edges begin at `start`. An element's index adds up the gaps before it.
    pub fn exact(self, start: usize, k: usize) -> Result<Label, Unread>
        requires { start + k < length self.codes.now }
        ensures { read_says result ≡ exact_back (coded_in self.entry) start k }
    {
        if ELEMENT <= self.codes[start + k] {
            return self.walk(start, k);
        }
        self.read(start + k, 0)
    }
}
