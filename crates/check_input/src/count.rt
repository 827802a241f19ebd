// All checks, of which PLACES comes last.
ghost use Rattle.std.specs.Prelude.{◌≡◌, length};
ghost use Rattle.columns.specs.Columns.{zeros};
ghost use Rattle.columns.specs.Loans.{now_of};
ghost use Rattle.rules.specs.Tables.{object_table, class_table, slot_table, static_table, copied_route, raw_route, schema_of, input_of};
ghost use Rattle.check_input.specs.Flat.{Counted};

use crate::judge;
use rules::{ReferencePolicy, Refusal};

// Whether an input of the copied route may be built, and how many places it has, of which no more matters than whether they fit the room. The checks
// before tell how many codes are not 0. The working column is left with the marks of the classes, for what they are worth after a refusal.
pub(crate) fn count_copied(
    ids: &[u64],
    kinds: &[u8],
    classes: &[u32],
    lengths: &[u32],
    class_ids: &[u64],
    loaders: &[u64],
    dumped: &[u8],
    class_kinds: &[u8],
    slot_starts: &[u32],
    slot_ends: &[u32],
    static_starts: &[u32],
    static_ends: &[u32],
    slot_offsets: &[u32],
    slot_labels: &[u32],
    slot_weak: &[u8],
    static_names: &[u32],
    static_types: &[u8],
    static_values: &[u64],
    names: usize,
    codes: &[u32],
    escape_places: &[u64],
    escape_ids: &[u64],
    base: u64,
    starts: &[u32],
    roots: &[u32],
    policy: ReferencePolicy,
    room: usize,
    working: &mut [u64],
) -> Result<usize, Refusal>
    requires { working.old ≡ zeros (length working.old) }
    ensures { let schema = schema_of (class_table now_of class_ids loaders dumped class_kinds slot_starts slot_ends static_starts static_ends)
        (slot_table now_of slot_offsets slot_labels slot_weak) (static_table now_of static_names static_types static_values) names in
        let input = input_of (object_table now_of ids kinds classes lengths) schema (copied_route now_of codes escape_places escape_ids base starts) roots.now policy in
        Counted input room (length working.old) result working.new }
{
    let held = judge::judge_copied(
        ids,
        kinds,
        classes,
        lengths,
        class_ids,
        loaders,
        dumped,
        class_kinds,
        slot_starts,
        slot_ends,
        static_starts,
        static_ends,
        slot_offsets,
        slot_labels,
        slot_weak,
        static_names,
        static_types,
        static_values,
        names,
        codes,
        escape_places,
        escape_ids,
        base,
        starts,
        roots,
        working,
    )?;
    let places = check_places::fit_places(
        held,
        check_whole::least_room(room),
        ids,
        kinds,
        classes,
        lengths,
        class_ids,
        loaders,
        dumped,
        class_kinds,
        slot_starts,
        slot_ends,
        static_starts,
        static_ends,
        slot_weak,
        static_types,
        static_values,
        codes,
        starts,
        policy,
    );
    check_whole::limited(places)
}

// The same on the raw route, and how many places it has: no room is asked for.
pub(crate) fn count_raw(
    ids: &[u64],
    kinds: &[u8],
    classes: &[u32],
    lengths: &[u32],
    class_ids: &[u64],
    loaders: &[u64],
    dumped: &[u8],
    class_kinds: &[u8],
    slot_starts: &[u32],
    slot_ends: &[u32],
    static_starts: &[u32],
    static_ends: &[u32],
    slot_offsets: &[u32],
    slot_labels: &[u32],
    slot_weak: &[u8],
    static_names: &[u32],
    static_types: &[u8],
    static_values: &[u64],
    names: usize,
    bytes: &[u8],
    size: usize,
    starts: &[u64],
    bodies: &[u32],
    roots: &[u32],
    policy: ReferencePolicy,
    working: &mut [u64],
) -> Result<usize, Refusal>
    requires { working.old ≡ zeros (length working.old) }
    ensures { let schema = schema_of (class_table now_of class_ids loaders dumped class_kinds slot_starts slot_ends static_starts static_ends)
        (slot_table now_of slot_offsets slot_labels slot_weak) (static_table now_of static_names static_types static_values) names in
        let input = input_of (object_table now_of ids kinds classes lengths) schema (raw_route now_of bytes size starts bodies) roots.now policy in
        Counted input 0 (length working.old) result working.new }
{
    judge::judge_raw(
        ids,
        kinds,
        classes,
        lengths,
        class_ids,
        loaders,
        dumped,
        class_kinds,
        slot_starts,
        slot_ends,
        static_starts,
        static_ends,
        slot_offsets,
        slot_labels,
        slot_weak,
        static_names,
        static_types,
        static_values,
        names,
        bytes,
        size,
        starts,
        bodies,
        roots,
        working,
    )?;
    let places = check_places::raw_places(
        ids,
        kinds,
        classes,
        lengths,
        class_ids,
        loaders,
        dumped,
        slot_starts,
        slot_ends,
        static_starts,
        static_ends,
        static_types,
        static_values,
    );
    check_whole::limited(places)
}
