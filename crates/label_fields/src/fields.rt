// Which fields have codes, and the code table.
ghost use Rattle.std.specs.Prelude.{◌≡◌, ◌∷◌, ◌+◌, ◌-◌, ◌≤◌, length};
ghost use Rattle.columns.specs.Columns.{over};
ghost use Rattle.columns.specs.Loans.{now_of};
ghost use Rattle.rules.specs.Types.{loader_label};
ghost use Rattle.rules.specs.Labels.{code_table};
ghost use Rattle.labels.specs.Coding.{Room};
ghost use Rattle.labels.specs.Fields.{Named, slots_named, statics_named, name_columns, named_by, Ranges};
ghost use Rattle.label_fields.specs.Marks.{uncoded, mark_label, mark_labels, marked_labels};

use labels::code::{label_at, slot_of};
use rules::Label;

// A table of n places without codes.
fn clear_table(table: &mut [u16], n: usize)
    requires { n ≤ length table.old }
    ensures { table.new ≡ over (uncoded n) table.old }
{
    table[..n].fill(32767);
}

// The code table of the fields: the code of each is its place among them. From the last to the first, so that the first place counts.
pub fn write_table(fields: &[u32], names: usize, table: &mut [u16])
    requires room { Room names table.old × (length fields.now ≤ 32767) }
    requires named { Named names fields.now }
    ensures { table.new ≡ over (code_table names fields.now) table.old }
{
    clear_table(table, names + 2);
    for k in (0..fields.len()).rev() {
        table[slot_of(fields[k], names)] = k as u16;
    }
}

// 1 at the label's place.
fn mark_label(label: u32, names: usize, table: &mut [u16])
    requires { Room names table.old }
    ensures { table.new ≡ mark_label names table.old label }
{
    table[slot_of(label, names)] = 1;
}

// The labels of one class's slots; or of a range of edges, where the fields that occur are counted.
pub fn mark_slots(slot_labels: &[u32], from: usize, to: usize, names: usize, table: &mut [u16])
    requires { (from ≤ to) × (to ≤ length slot_labels.now) × Room names table.old }
    ensures { table.new ≡ mark_labels names table.old (slots_named slot_labels.now from (to - from)) }
{
    for label in &slot_labels[from..to] {
        mark_label(*label, names, table);
    }
}

// The names of one class's object statics.
fn mark_statics(
    static_names: &[u32],
    static_types: &[u8],
    from: usize,
    to: usize,
    names: usize,
    table: &mut [u16],
)
    requires { (from ≤ to) × (to ≤ length static_names.now) × (to ≤ length static_types.now) × Room names table.old }
    ensures { table.new ≡ mark_labels names table.old (statics_named static_names.now static_types.now from (to - from)) }
{
    for i in from..to {
        if static_types[i] == 2 {
            mark_label(static_names[i], names, table);
        }
    }
}

// Marks `loader_label` and every slot label and object static name of the classes.
pub fn mark_named(
    classes: usize,
    slot_starts: &[u32],
    slot_ends: &[u32],
    static_starts: &[u32],
    static_ends: &[u32],
    slot_labels: &[u32],
    static_names: &[u32],
    static_types: &[u8],
    names: usize,
    table: &mut [u16],
)
    requires { Room names table.old × Ranges (name_columns (λ x. x.now) slot_starts slot_ends static_starts static_ends slot_labels static_names static_types) classes }
    ensures { let columns = name_columns now_of slot_starts slot_ends static_starts static_ends slot_labels static_names static_types in
        table.new ≡ mark_labels names table.old (loader_label ∷ named_by columns classes) }
{
    mark_label(Label::LOADER, names, table);
    for c in 0..classes {
        let from = columns::index(slot_starts[c]);
        let to = columns::index(slot_ends[c]);
        mark_slots(slot_labels, from, to, names, table);
        let first = columns::index(static_starts[c]);
        let last = columns::index(static_ends[c]);
        mark_statics(static_names, static_types, first, last, names, table);
    }
}

// How many labels are marked.
pub fn count_marked(table: &[u16], names: usize) -> usize
    requires { Room names table.now }
    ensures { result ≡ length (marked_labels names table.now) }
{
    table[..names + 1].iter().filter(|mark| **mark == 1).count()
}

// The labels that are marked: names rising, then the loader.
pub fn write_marked(table: &[u16], names: usize, fields: &mut [u32])
    requires { Room names table.now × (length (marked_labels names table.now) ≤ length fields.old) }
    ensures { fields.new ≡ over (marked_labels names table.now) fields.old }
{
    let mut k = 0;
    for (i, mark) in table[..names + 1].iter().enumerate() {
        if *mark == 1 {
            fields[k] = label_at(i, names);
            k += 1;
        }
    }
}
