// The checks of the tables: lengths of one table, and the first class at fault.
ghost use Rattle.std.specs.Prelude.{◌≡◌, [], ◌∷◌, length};
ghost use Rattle.columns.specs.Lists.{first_place};
ghost use Rattle.columns.specs.Columns.{zeros};
ghost use Rattle.columns.specs.Ranks.{Rises};
ghost use Rattle.columns.specs.Loans.{now_of};
ghost use Rattle.rules.specs.Tables.{object_table, class_table, slot_table, static_table, copied_route, schema_of, input_of};
ghost use Rattle.rules.specs.Verdict.{bad_lengths, bad_dumped, bad_find};
ghost use Rattle.check_tables.specs.Reads.{Tables, no_policy};
ghost use Rattle.check_tables.specs.Found.{marks_if, find_columns};
ghost use Rattle.check_whole.specs.Whole.{bodies_only, dumped_columns};

use check_tables::{classes, found, lengths};

// Whether columns of one table differ in length.
#[tactic(auto, unfolding(rules::specs::Verdict::bad_lengths, rules::specs::Verdict::route_lengths, columns::specs::Lists::any_of))]
pub fn copied_lengths(
    ids: &[u64],
    kinds: &[u8],
    classes: &[u32],
    lengths: &[u32],
    class_ids: &[u64],
    loaders: &[u64],
    dumped: &[u8],
    class_kinds: &[u8],
    slot_starts: &[u32],
    slot_ends: &[u32],
    static_starts: &[u32],
    static_ends: &[u32],
    slot_offsets: &[u32],
    slot_labels: &[u32],
    slot_weak: &[u8],
    static_names: &[u32],
    static_types: &[u8],
    static_values: &[u64],
    codes: &[u32],
    escape_places: &[u64],
    escape_ids: &[u64],
    starts: &[u32],
) -> bool
    ensures { let schema = schema_of (class_table now_of class_ids loaders dumped class_kinds slot_starts slot_ends static_starts static_ends)
        (slot_table now_of slot_offsets slot_labels slot_weak) (static_table now_of static_names static_types static_values) 0 in
        let input = input_of (object_table now_of ids kinds classes lengths) schema (copied_route now_of codes escape_places escape_ids 0 starts) [] no_policy in
        result ≡ bad_lengths input }
{
    lengths::differ(ids.len(), &[kinds.len(), classes.len(), lengths.len()])
        || lengths::schema_lengths(
            class_ids,
            loaders,
            dumped,
            class_kinds,
            slot_starts,
            slot_ends,
            static_starts,
            static_ends,
            slot_offsets,
            slot_labels,
            slot_weak,
            static_names,
            static_types,
            static_values,
        )
        || lengths::differ(escape_places.len(), &[escape_ids.len()])
        || lengths::differ(ids.len(), &[starts.len()])
}

// Whether columns of one table differ in length.
#[tactic(auto, unfolding(rules::specs::Verdict::bad_lengths, rules::specs::Verdict::route_lengths, columns::specs::Lists::any_of))]
pub fn raw_lengths(
    ids: &[u64],
    kinds: &[u8],
    classes: &[u32],
    lengths: &[u32],
    class_ids: &[u64],
    loaders: &[u64],
    dumped: &[u8],
    class_kinds: &[u8],
    slot_starts: &[u32],
    slot_ends: &[u32],
    static_starts: &[u32],
    static_ends: &[u32],
    slot_offsets: &[u32],
    slot_labels: &[u32],
    slot_weak: &[u8],
    static_names: &[u32],
    static_types: &[u8],
    static_values: &[u64],
    starts: &[u64],
    bodies: &[u32],
) -> bool
    ensures { let schema = schema_of (class_table now_of class_ids loaders dumped class_kinds slot_starts slot_ends static_starts static_ends)
        (slot_table now_of slot_offsets slot_labels slot_weak) (static_table now_of static_names static_types static_values) 0 in
        let input = input_of (object_table now_of ids kinds classes lengths) schema (bodies_only starts.now bodies.now) [] no_policy in
        result ≡ bad_lengths input }
{
    lengths::differ(ids.len(), &[kinds.len(), classes.len(), lengths.len()])
        || lengths::schema_lengths(
            class_ids,
            loaders,
            dumped,
            class_kinds,
            slot_starts,
            slot_ends,
            static_starts,
            static_ends,
            slot_offsets,
            slot_labels,
            slot_weak,
            static_names,
            static_types,
            static_values,
        )
        || lengths::differ(ids.len(), &[starts.len(), bodies.len()])
}

// The first class at fault, by its own tables or by where it is found; or the number of classes.
pub fn first_dumped(
    ids: &[u64],
    kinds: &[u8],
    class_ids: &[u64],
    dumped: &[u8],
    class_kinds: &[u8],
    slot_starts: &[u32],
    slot_ends: &[u32],
    static_starts: &[u32],
    static_ends: &[u32],
    slot_offsets: &[u32],
    slot_labels: &[u32],
    slot_weak: &[u8],
    static_names: &[u32],
    static_types: &[u8],
    names: usize,
    working: &mut [u64],
) -> usize
    requires rises { Rises ids.now }
    requires kinds_len { length kinds.now ≡ length ids.now }
    requires dumped_len { length dumped.now ≡ length class_ids.now }
    requires working_value { working.old ≡ zeros (length working.old) }
    requires tables { Tables dumped.now class_kinds.now slot_starts.now slot_ends.now static_starts.now static_ends.now
        slot_offsets.now slot_labels.now slot_weak.now static_names.now static_types.now }
    ensures result_value { let columns = dumped_columns ids.now kinds.now
        class_ids.now dumped.now class_kinds.now slot_starts.now slot_ends.now static_starts.now static_ends.now
        slot_offsets.now slot_labels.now slot_weak.now static_names.now static_types.now names in
        result ≡ first_place (bad_dumped columns) (length class_ids.now) }
    ensures working_value_2 { let columns = find_columns ids.now kinds.now class_ids.now dumped.now in
        working.new ≡ marks_if columns (first_place (bad_find columns) (length class_ids.now)) (length working.old) }
{
    let found = found::first_find(ids, kinds, class_ids, dumped, working);
    let class = classes::first_class(
        dumped,
        class_kinds,
        slot_starts,
        slot_ends,
        static_starts,
        static_ends,
        slot_offsets,
        slot_labels,
        slot_weak,
        static_names,
        static_types,
        names,
    );
    if class < found { class } else { found }
}
