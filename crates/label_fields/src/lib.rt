// The fields that have codes: all that are listed, or of too many the most used.
#![tactic(auto)]

pub mod fields;

ghost use Rattle.std.specs.Prelude.{◌≡◌, ◌≤◌, length};
ghost use Rattle.columns.specs.Loans.{now_of};
ghost use Rattle.rules.specs.Labels.{fields_of};
ghost use Rattle.labels.specs.Coding.{Room};
ghost use Rattle.labels.specs.Fields.{name_columns, named_by, Ranges, Chosen};

// The need of buffer 6: how many fields have codes. The code table serves as marks.
pub fn count_fields(
    classes: usize,
    slot_starts: &[u32],
    slot_ends: &[u32],
    static_starts: &[u32],
    static_ends: &[u32],
    slot_labels: &[u32],
    static_names: &[u32],
    static_types: &[u8],
    labels: &[u32],
    names: usize,
    table: &mut [u16],
) -> usize
    requires { Room names table.old × Ranges (name_columns (λ x. x.now) slot_starts slot_ends static_starts static_ends slot_labels static_names static_types) classes }
    ensures { let columns = name_columns now_of slot_starts slot_ends static_starts static_ends slot_labels static_names static_types in
        result ≡ length (fields_of names (named_by columns classes) labels.now) }
{
    columns::zero(table, 0);
    fields::mark_named(
        classes,
        slot_starts,
        slot_ends,
        static_starts,
        static_ends,
        slot_labels,
        static_names,
        static_types,
        names,
        table,
    );
    let listed = fields::count_marked(table, names);
    if listed <= 32767 {
        return listed;
    }
    columns::zero(table, 0);
    fields::mark_slots(labels, 0, labels.len(), names, table);
    label_ranks::coded_of(fields::count_marked(table, names))
}

// The fields that have codes, from the front of their column; the answer is how many they are. A field's code is its place.
pub fn write_fields(
    classes: usize,
    slot_starts: &[u32],
    slot_ends: &[u32],
    static_starts: &[u32],
    static_ends: &[u32],
    slot_labels: &[u32],
    static_names: &[u32],
    static_types: &[u8],
    labels: &[u32],
    names: usize,
    fields: &mut [u32],
    table: &mut [u16],
    counting: &mut [u64],
    ranking: &mut [u64],
) -> usize
    requires room { Room names table.old × Room names counting.old × Room names ranking.old × (length labels.now ≤ 4294967295) }
    requires ranges { Ranges (name_columns (λ x. x.now) slot_starts slot_ends static_starts static_ends slot_labels static_names static_types) classes }
    requires labels_in_bounds { let columns = name_columns (λ x. x.now) slot_starts slot_ends static_starts static_ends slot_labels static_names static_types in
        length (fields_of names (named_by columns classes) labels.now) ≤ length fields.old }
    ensures { let columns = name_columns now_of slot_starts slot_ends static_starts static_ends slot_labels static_names static_types in
        Chosen (fields_of names (named_by columns classes) labels.now) fields.old result fields.new }
{
    columns::zero(table, 0);
    fields::mark_named(
        classes,
        slot_starts,
        slot_ends,
        static_starts,
        static_ends,
        slot_labels,
        static_names,
        static_types,
        names,
        table,
    );
    let listed = fields::count_marked(table, names);
    if listed <= 32767 {
        fields::write_marked(table, names, fields);
        return listed;
    }
    label_ranks::rank_fields(labels, names, fields, counting, ranking)
}
