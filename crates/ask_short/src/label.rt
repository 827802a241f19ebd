// Labels without the escapes: a code says its label by the fields, or by the gap and what is expected.
ghost use Rattle.std.specs.Prelude.{◌≡◌};
ghost use Rattle.rules.specs.Types.{label_of_says};
ghost use Rattle.labels.specs.Reading.{read_says};
ghost use Rattle.ask_short.specs.Lean.{plain_back, lean_in, label_found};

use super::Lean;
use labels::{Codes, Unread};
use rules::{Label, ReadError};

// The label of a code that is not escaped, where an element would have the index `next` at least.
pub fn read_code(code: u16, next: u32, fields: &[u32]) -> Result<Label, Unread>
    ensures { read_says result ≡ plain_back fields.now next code }
{
    let none: [u64; 0] = [0; 0];
    labels::read::read_code(code, 0, next, fields, &none, &fields[..0])
}

impl<'a> Lean<'a> {
    // The exact label of an object's first edge to a target.
    pub fn label_of(self, object: usize, target: u32) -> Result<Option<Label>, ReadError>
        ensures { label_of_says result ≡ label_found (lean_in self.entry) object target }
    {
        let at = self.span(object)?;
        let count = at.end - at.start;
        let edge = ask_label::first_to(self.targets, at.start, count, target);
        if count <= edge {
            return Ok(None);
        }
        let plain = Codes {
            codes: self.codes,
            fields: self.fields,
            escape_at: &self.bases[..0],
            escape_label: &self.fields[..0],
        };
        let label = ask_late::exact(plain, at.start, edge);
        ask_label::target_answer(label, object)
    }
}
