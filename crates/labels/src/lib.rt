// Edge labels in two bytes each: what fields, codes and escapes are, and reading a label back (`Labels` and `EdgeLabels`). `label_fields` chooses the fields,
// `label_codes` writes the codes.
#![tactic(auto)]

pub mod code;
pub mod read;

ghost use Rattle.std.specs.Prelude.{◌≡◌, ◌+◌, ◌≤◌};
ghost use Rattle.rules.specs.Types.{loader_label};

// The labels of edges as they are kept: a code for each edge, the fields that have codes, and the escapes, by edge.
#[derive(Clone, Copy)]
pub struct Codes<'a> {
    pub codes: &'a [u16],
    pub fields: &'a [u32],
    pub escape_at: &'a [u64],
    pub escape_label: &'a [u32],
}

// A label that cannot be read back.
#[derive(Clone, Copy)]
pub struct Unread;

// The need of the code table, and of each column of buffer 9: a place for each name, for the loader, and for any other label.
pub fn count_places(names: usize) -> usize
    requires { names ≤ loader_label }
    ensures { result ≡ names + 2 }
{
    names + 2
}
