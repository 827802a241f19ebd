// The checks of both routes in the order of refusal, but for the count of places.
ghost use Rattle.std.specs.Prelude.{◌≡◌, [], ◌∷◌, length, true};
ghost use Rattle.columns.specs.Columns.{zeros, accepts};
ghost use Rattle.columns.specs.Loans.{now_of};
ghost use Rattle.rules.specs.Types.{checked_says};
ghost use Rattle.rules.specs.Verdict.{first_of};
ghost use Rattle.rules.specs.Tables.{object_table, class_table, slot_table, static_table, copied_route, raw_route, schema_of, input_of};
ghost use Rattle.check_tables.specs.Reads.{no_policy, Tables};
ghost use Rattle.check_ids.specs.Copying.{held_codes};
ghost use Rattle.check_tables.specs.Found.{marks_if, find_columns};
ghost use Rattle.check_input.specs.Flat.{faults_before, faults_tables, table_columns, passed_says};

use crate::late;
use check_tables::{lengths, objects};
use check_whole::tables;
use rules::Refusal;

// The objects and the classes, which are the same on both routes. Where they are accepted, the working column holds the marks of the classes.
fn judge_tables(
    ids: &[u64],
    kinds: &[u8],
    classes: &[u32],
    lengths: &[u32],
    class_ids: &[u64],
    dumped: &[u8],
    class_kinds: &[u8],
    slot_starts: &[u32],
    slot_ends: &[u32],
    static_starts: &[u32],
    static_ends: &[u32],
    slot_offsets: &[u32],
    slot_labels: &[u32],
    slot_weak: &[u8],
    static_names: &[u32],
    static_types: &[u8],
    names: usize,
    working: &mut [u64],
) -> Result<(), Refusal>
    requires kinds_len { length kinds.now ≡ length ids.now }
    requires classes_len { length classes.now ≡ length ids.now }
    requires lengths_len { length lengths.now ≡ length ids.now }
    requires dumped_len { length dumped.now ≡ length class_ids.now }
    requires tables { Tables dumped.now class_kinds.now slot_starts.now slot_ends.now static_starts.now static_ends.now
        slot_offsets.now slot_labels.now slot_weak.now static_names.now static_types.now }
    requires working_value { working.old ≡ zeros (length working.old) }
    ensures result_value { let columns = table_columns ids.now kinds.now classes.now lengths.now class_ids.now dumped.now class_kinds.now
        slot_starts.now slot_ends.now static_starts.now static_ends.now slot_offsets.now slot_labels.now slot_weak.now
        static_names.now static_types.now names in
        passed_says result ≡ first_of (faults_tables columns) (0 ∷ 0 ∷ []) }
    ensures working_value { accepts (passed_says result) ≡ true →
        working.new ≡ marks_if (find_columns ids.now kinds.now class_ids.now dumped.now) (length class_ids.now) (length working.old) }
{
    let o = objects::first_object(ids, kinds, classes, lengths, class_ids);
    if o < ids.len() {
        return Err(Refusal::Object(o));
    }
    let class = tables::first_dumped(
        ids,
        kinds,
        class_ids,
        dumped,
        class_kinds,
        slot_starts,
        slot_ends,
        static_starts,
        static_ends,
        slot_offsets,
        slot_labels,
        slot_weak,
        static_names,
        static_types,
        names,
        working,
    );
    if class < class_ids.len() {
        return Err(Refusal::Class(class));
    }
    Ok(())
}

// The checks before the places are counted. Where they accept, they tell how many codes are not 0, and the working column holds the marks of the classes.
pub(crate) fn judge_copied(
    ids: &[u64],
    kinds: &[u8],
    classes: &[u32],
    lengths: &[u32],
    class_ids: &[u64],
    loaders: &[u64],
    dumped: &[u8],
    class_kinds: &[u8],
    slot_starts: &[u32],
    slot_ends: &[u32],
    static_starts: &[u32],
    static_ends: &[u32],
    slot_offsets: &[u32],
    slot_labels: &[u32],
    slot_weak: &[u8],
    static_names: &[u32],
    static_types: &[u8],
    static_values: &[u64],
    names: usize,
    codes: &[u32],
    escape_places: &[u64],
    escape_ids: &[u64],
    base: u64,
    starts: &[u32],
    roots: &[u32],
    working: &mut [u64],
) -> Result<usize, Refusal>
    requires { working.old ≡ zeros (length working.old) }
    ensures result_value { let schema = schema_of (class_table now_of class_ids loaders dumped class_kinds slot_starts slot_ends static_starts static_ends)
        (slot_table now_of slot_offsets slot_labels slot_weak) (static_table now_of static_names static_types static_values) names in
        let input = input_of (object_table now_of ids kinds classes lengths) schema (copied_route now_of codes escape_places escape_ids base starts) roots.now no_policy in
        checked_says result ≡ first_of (faults_before input) (0 ∷ held_codes codes.now ∷ []) }
    ensures working_value { accepts (checked_says result) ≡ true →
        working.new ≡ marks_if (find_columns ids.now kinds.now class_ids.now dumped.now) (length class_ids.now) (length working.old) }
{
    if tables::copied_lengths(
        ids,
        kinds,
        classes,
        lengths,
        class_ids,
        loaders,
        dumped,
        class_kinds,
        slot_starts,
        slot_ends,
        static_starts,
        static_ends,
        slot_offsets,
        slot_labels,
        slot_weak,
        static_names,
        static_types,
        static_values,
        codes,
        escape_places,
        escape_ids,
        starts,
    ) {
        return Err(Refusal::Lengths);
    }
    if lengths::over_limit(
        ids.len(),
        class_ids.len(),
        names,
        slot_offsets.len(),
        static_names.len(),
    ) {
        return Err(Refusal::Limit);
    }
    judge_tables(
        ids,
        kinds,
        classes,
        lengths,
        class_ids,
        dumped,
        class_kinds,
        slot_starts,
        slot_ends,
        static_starts,
        static_ends,
        slot_offsets,
        slot_labels,
        slot_weak,
        static_names,
        static_types,
        names,
        working,
    )?;
    late::judge_ids(
        ids,
        kinds,
        classes,
        lengths,
        slot_starts,
        slot_ends,
        codes,
        escape_places,
        escape_ids,
        base,
        starts,
        roots,
    )
}

// The checks before the places are counted. Where they accept, the working column holds the marks of the classes.
pub(crate) fn judge_raw(
    ids: &[u64],
    kinds: &[u8],
    classes: &[u32],
    lengths: &[u32],
    class_ids: &[u64],
    loaders: &[u64],
    dumped: &[u8],
    class_kinds: &[u8],
    slot_starts: &[u32],
    slot_ends: &[u32],
    static_starts: &[u32],
    static_ends: &[u32],
    slot_offsets: &[u32],
    slot_labels: &[u32],
    slot_weak: &[u8],
    static_names: &[u32],
    static_types: &[u8],
    static_values: &[u64],
    names: usize,
    bytes: &[u8],
    size: usize,
    starts: &[u64],
    bodies: &[u32],
    roots: &[u32],
    working: &mut [u64],
) -> Result<(), Refusal>
    requires { working.old ≡ zeros (length working.old) }
    ensures result_value { let schema = schema_of (class_table now_of class_ids loaders dumped class_kinds slot_starts slot_ends static_starts static_ends)
        (slot_table now_of slot_offsets slot_labels slot_weak) (static_table now_of static_names static_types static_values) names in
        let input = input_of (object_table now_of ids kinds classes lengths) schema (raw_route now_of bytes size starts bodies) roots.now no_policy in
        passed_says result ≡ first_of (faults_before input) (0 ∷ 0 ∷ []) }
    ensures working_value { accepts (passed_says result) ≡ true →
        working.new ≡ marks_if (find_columns ids.now kinds.now class_ids.now dumped.now) (length class_ids.now) (length working.old) }
{
    if tables::raw_lengths(
        ids,
        kinds,
        classes,
        lengths,
        class_ids,
        loaders,
        dumped,
        class_kinds,
        slot_starts,
        slot_ends,
        static_starts,
        static_ends,
        slot_offsets,
        slot_labels,
        slot_weak,
        static_names,
        static_types,
        static_values,
        starts,
        bodies,
    ) {
        return Err(Refusal::Lengths);
    }
    if lengths::over_limit(
        ids.len(),
        class_ids.len(),
        names,
        slot_offsets.len(),
        static_names.len(),
    ) || lengths::bad_size(size)
    {
        return Err(Refusal::Limit);
    }
    judge_tables(
        ids,
        kinds,
        classes,
        lengths,
        class_ids,
        dumped,
        class_kinds,
        slot_starts,
        slot_ends,
        static_starts,
        static_ends,
        slot_offsets,
        slot_labels,
        slot_weak,
        static_names,
        static_types,
        names,
        working,
    )?;
    late::judge_bodies(ids, kinds, lengths, bytes, size, starts, bodies, roots)
}
