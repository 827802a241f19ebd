// The codes of all labels, by the code table, and their escapes.
#![tactic(auto)]

ghost use Rattle.std.specs.Prelude.{◌≡◌, ◌≤◌, ◌-◌, length};
ghost use Rattle.columns.specs.Lists.{one};
ghost use Rattle.columns.specs.Columns.{over};
ghost use Rattle.rules.specs.Labels.{is_escaped};
ghost use Rattle.labels.specs.Coding.{Room, gap_of, code_by, codes_by, all_by, LaidOut, escapes_in, escaped_to, RoomFor, Escapes, EscapesCounted};

use labels::code::{ELEMENT, ESCAPED, after, slot_of};
use rules::Label;

// The gap from what is expected up to an index: 32,767 stands for it and all over. Elements rise, so that none is below what is expected.
fn gap_of(index: u32, next: u32) -> u16
    ensures { result ≡ gap_of next index }
{
    index.saturating_sub(next).min(32767) as u16
}

// A label's code where an element would have the index `next` at least.
fn code_of(label: u32, next: u32, names: usize, table: &[u16]) -> u16
    requires { Room names table.now }
    ensures { result ≡ code_by names table.now next label }
{
    if label < Label::ARRAY_ELEMENT {
        return table[slot_of(label, names)];
    }
    ELEMENT + gap_of(label - Label::ARRAY_ELEMENT, next)
}

// The codes of one object's labels. The first element's gap is its index.
fn code_object(labels: &[u32], names: usize, table: &[u16], edge_codes: &mut [u16])
    requires { Room names table.now × (length labels.now ≤ length edge_codes.old) }
    ensures { edge_codes.new ≡ over (codes_by names table.now labels.now) edge_codes.old }
{
    let mut next = 0;
    for (i, label) in labels.iter().enumerate() {
        edge_codes[i] = code_of(*label, next, names, table);
        next = after(*label, next);
    }
}

// The codes of all objects. No element is carried over to the next object.
pub fn code_objects(
    offsets: &[u64],
    labels: &[u32],
    names: usize,
    table: &[u16],
    edge_codes: &mut [u16],
)
    requires { Room names table.now × LaidOut offsets.now (length labels.now) × (length labels.now ≤ length edge_codes.old) }
    ensures { edge_codes.new ≡ over (all_by names table.now offsets.now labels.now (length offsets.now - 1)) edge_codes.old }
{
    let objects = offsets.len() - 1;
    for o in 0..objects {
        let from = offsets[o] as usize;
        let to = offsets[o + 1] as usize;
        code_object(&labels[from..to], names, table, &mut edge_codes[from..to]);
    }
}

// 1 for a code that is escaped.
fn rows_of(code: u16) -> usize
    ensures { result ≡ one (is_escaped code) }
{
    usize::from(code % ELEMENT == ESCAPED)
}

// How many of one object's labels are escaped.
fn count_object(labels: &[u32], names: usize, table: &[u16]) -> usize
    requires { Room names table.now }
    ensures { result ≡ escapes_in (codes_by names table.now labels.now) }
{
    let mut rows = 0;
    let mut next = 0;
    for label in labels {
        rows += rows_of(code_of(*label, next, names, table));
        next = after(*label, next);
    }
    rows
}

// The need of buffer 7: how many labels are escaped.
pub fn count_escapes(offsets: &[u64], labels: &[u32], names: usize, table: &[u16]) -> usize
    requires { Room names table.now × LaidOut offsets.now (length labels.now) }
    ensures { EscapesCounted names table.now offsets.now labels.now result }
{
    let objects = offsets.len() - 1;
    let mut rows = 0;
    for o in 0..objects {
        let start = offsets[o] as usize;
        let end = offsets[o + 1] as usize;
        rows += count_object(&labels[start..end], names, table);
    }
    rows
}

// The escapes among the codes of the labels: the edge, and the label whole.
pub fn write_escapes(
    labels: &[u32],
    edge_codes: &[u16],
    escape_at: &mut [u64],
    escape_label: &mut [u32],
) -> usize
    requires labels_in_bounds { length labels.now ≤ length edge_codes.now }
    requires room_for { RoomFor (length (escaped_to edge_codes.now (length labels.now))) escape_at.old escape_label.old }
    ensures { Escapes edge_codes.now labels.now escape_at.old escape_label.old result escape_at.new escape_label.new }
{
    let mut k = 0;
    for (e, label) in labels.iter().enumerate() {
        if edge_codes[e] % ELEMENT == ESCAPED {
            escape_at[k] = e as u64;
            escape_label[k] = *label;
            k += 1;
        }
    }
    k
}

// The need of buffer 8: one code for each label.
pub fn count_codes(labels: &[u32]) -> usize
    ensures { result ≡ length labels.now }
{
    labels.len()
}
