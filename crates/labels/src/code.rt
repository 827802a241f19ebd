// The code table's places, and what the codes of labels share.
ghost use Rattle.std.specs.Prelude.{◌≡◌, ◌≤◌};
ghost use Rattle.rules.specs.Types.{loader_label};
ghost use Rattle.rules.specs.Labels.{after};
ghost use Rattle.labels.specs.Coding.{table_place};
ghost use Rattle.labels.specs.Fields.{table_label};

use rules::Label;

// The low bits of a code whose label is kept whole in the escapes, and the bit of an element.
pub const ESCAPED: u16 = 32767;

pub const ELEMENT: u16 = 32768;

// Where a label stands in the code table.
pub fn slot_of(label: u32, names: usize) -> usize
    requires { names ≤ loader_label }
    ensures { result ≡ table_place names label }
{
    if label == Label::LOADER {
        return names;
    }
    let at = columns::index(label);
    if at < names {
        return at;
    }
    names + 1
}

// The label at a place of the table.
pub fn label_at(at: usize, names: usize) -> u32
    requires { (at ≤ names) × (names ≤ loader_label) }
    ensures { result ≡ table_label names at }
{
    if at == names {
        Label::LOADER
    } else {
        at as u32
    }
}

// The index that an element has at least behind this label. A field leaves it as it is.
pub fn after(label: u32, next: u32) -> u32
    ensures { result ≡ after next label }
{
    if label < Label::ARRAY_ELEMENT {
        return next;
    }
    label - Label::ARRAY_ELEMENT + 1
}
