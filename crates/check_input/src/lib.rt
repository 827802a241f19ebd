// The input checks of document 01, put together: refusals 1 to 8 for both routes.
#![tactic(auto)]

ghost use Rattle.std.specs.Prelude.{length};
ghost use Rattle.columns.specs.Loans.{now_of};
ghost use Rattle.rules.specs.Tables.{object_table, class_table, slot_table, static_table, copied_route, raw_route, schema_of, input_of};
ghost use Rattle.check_input.specs.Flat.{Judged, Marked, Fitted};

use rules::{ReferencePolicy, Refusal};

pub mod count;
pub mod judge;
pub mod late;

// Whether an input of the copied route may be built, and how many places it has, or a number within the room where they fit in it. The working column,
// whatever it held, is left with the marks of the classes that are found, which a build goes on with; after a refusal with zeros.
pub fn fit_copied(
    ids: &[u64],
    kinds: &[u8],
    classes: &[u32],
    lengths: &[u32],
    class_ids: &[u64],
    loaders: &[u64],
    dumped: &[u8],
    class_kinds: &[u8],
    slot_starts: &[u32],
    slot_ends: &[u32],
    static_starts: &[u32],
    static_ends: &[u32],
    slot_offsets: &[u32],
    slot_labels: &[u32],
    slot_weak: &[u8],
    static_names: &[u32],
    static_types: &[u8],
    static_values: &[u64],
    names: usize,
    codes: &[u32],
    escape_places: &[u64],
    escape_ids: &[u64],
    base: u64,
    starts: &[u32],
    roots: &[u32],
    policy: ReferencePolicy,
    room: usize,
    working: &mut [u64],
) -> Result<usize, Refusal>
    ensures { let schema = schema_of (class_table now_of class_ids loaders dumped class_kinds slot_starts slot_ends static_starts static_ends)
        (slot_table now_of slot_offsets slot_labels slot_weak) (static_table now_of static_names static_types static_values) names in
        let input = input_of (object_table now_of ids kinds classes lengths) schema (copied_route now_of codes escape_places escape_ids base starts) roots.now policy in
        Fitted input room (length working.old) result working.new }
{
    columns::zero(working, 0);
    let answer = count::count_copied(
        ids,
        kinds,
        classes,
        lengths,
        class_ids,
        loaders,
        dumped,
        class_kinds,
        slot_starts,
        slot_ends,
        static_starts,
        static_ends,
        slot_offsets,
        slot_labels,
        slot_weak,
        static_names,
        static_types,
        static_values,
        names,
        codes,
        escape_places,
        escape_ids,
        base,
        starts,
        roots,
        policy,
        room,
        working,
    );
    check_whole::settle(answer.is_ok(), working);
    answer
}

// The same on the raw route, and how many places it has: no room is asked for.
pub fn fit_raw(
    ids: &[u64],
    kinds: &[u8],
    classes: &[u32],
    lengths: &[u32],
    class_ids: &[u64],
    loaders: &[u64],
    dumped: &[u8],
    class_kinds: &[u8],
    slot_starts: &[u32],
    slot_ends: &[u32],
    static_starts: &[u32],
    static_ends: &[u32],
    slot_offsets: &[u32],
    slot_labels: &[u32],
    slot_weak: &[u8],
    static_names: &[u32],
    static_types: &[u8],
    static_values: &[u64],
    names: usize,
    bytes: &[u8],
    size: usize,
    starts: &[u64],
    bodies: &[u32],
    roots: &[u32],
    policy: ReferencePolicy,
    working: &mut [u64],
) -> Result<usize, Refusal>
    ensures { let schema = schema_of (class_table now_of class_ids loaders dumped class_kinds slot_starts slot_ends static_starts static_ends)
        (slot_table now_of slot_offsets slot_labels slot_weak) (static_table now_of static_names static_types static_values) names in
        let input = input_of (object_table now_of ids kinds classes lengths) schema (raw_route now_of bytes size starts bodies) roots.now policy in
        Marked input (length working.old) result working.new }
{
    columns::zero(working, 0);
    let answer = count::count_raw(
        ids,
        kinds,
        classes,
        lengths,
        class_ids,
        loaders,
        dumped,
        class_kinds,
        slot_starts,
        slot_ends,
        static_starts,
        static_ends,
        slot_offsets,
        slot_labels,
        slot_weak,
        static_names,
        static_types,
        static_values,
        names,
        bytes,
        size,
        starts,
        bodies,
        roots,
        policy,
        working,
    );
    check_whole::settle(answer.is_ok(), working);
    answer
}

// Whether an input of the copied route may be built, and how many places it has, as no room is lent. The working column, whatever it held, is left with
// zeros.
pub fn check_copied(
    ids: &[u64],
    kinds: &[u8],
    classes: &[u32],
    lengths: &[u32],
    class_ids: &[u64],
    loaders: &[u64],
    dumped: &[u8],
    class_kinds: &[u8],
    slot_starts: &[u32],
    slot_ends: &[u32],
    static_starts: &[u32],
    static_ends: &[u32],
    slot_offsets: &[u32],
    slot_labels: &[u32],
    slot_weak: &[u8],
    static_names: &[u32],
    static_types: &[u8],
    static_values: &[u64],
    names: usize,
    codes: &[u32],
    escape_places: &[u64],
    escape_ids: &[u64],
    base: u64,
    starts: &[u32],
    roots: &[u32],
    policy: ReferencePolicy,
    working: &mut [u64],
) -> Result<usize, Refusal>
    ensures { let schema = schema_of (class_table now_of class_ids loaders dumped class_kinds slot_starts slot_ends static_starts static_ends)
        (slot_table now_of slot_offsets slot_labels slot_weak) (static_table now_of static_names static_types static_values) names in
        let input = input_of (object_table now_of ids kinds classes lengths) schema (copied_route now_of codes escape_places escape_ids base starts) roots.now policy in
        Judged input (length working.old) result working.new }
{
    let answer = fit_copied(
        ids,
        kinds,
        classes,
        lengths,
        class_ids,
        loaders,
        dumped,
        class_kinds,
        slot_starts,
        slot_ends,
        static_starts,
        static_ends,
        slot_offsets,
        slot_labels,
        slot_weak,
        static_names,
        static_types,
        static_values,
        names,
        codes,
        escape_places,
        escape_ids,
        base,
        starts,
        roots,
        policy,
        0,
        working,
    );
    check_whole::clear(working);
    answer
}

// The same on the raw route.
pub fn check_raw(
    ids: &[u64],
    kinds: &[u8],
    classes: &[u32],
    lengths: &[u32],
    class_ids: &[u64],
    loaders: &[u64],
    dumped: &[u8],
    class_kinds: &[u8],
    slot_starts: &[u32],
    slot_ends: &[u32],
    static_starts: &[u32],
    static_ends: &[u32],
    slot_offsets: &[u32],
    slot_labels: &[u32],
    slot_weak: &[u8],
    static_names: &[u32],
    static_types: &[u8],
    static_values: &[u64],
    names: usize,
    bytes: &[u8],
    size: usize,
    starts: &[u64],
    bodies: &[u32],
    roots: &[u32],
    policy: ReferencePolicy,
    working: &mut [u64],
) -> Result<usize, Refusal>
    ensures { let schema = schema_of (class_table now_of class_ids loaders dumped class_kinds slot_starts slot_ends static_starts static_ends)
        (slot_table now_of slot_offsets slot_labels slot_weak) (static_table now_of static_names static_types static_values) names in
        let input = input_of (object_table now_of ids kinds classes lengths) schema (raw_route now_of bytes size starts bodies) roots.now policy in
        Judged input (length working.old) result working.new }
{
    let answer = fit_raw(
        ids,
        kinds,
        classes,
        lengths,
        class_ids,
        loaders,
        dumped,
        class_kinds,
        slot_starts,
        slot_ends,
        static_starts,
        static_ends,
        slot_offsets,
        slot_labels,
        slot_weak,
        static_names,
        static_types,
        static_values,
        names,
        bytes,
        size,
        starts,
        bodies,
        roots,
        policy,
        working,
    );
    check_whole::clear(working);
    answer
}
