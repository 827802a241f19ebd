// The two builds. They stay two calls: each route is lent columns of its own, and C knows no call that takes the one or the other.
ghost use Rattle.columns.specs.Loans.{now_of, old_of, new_of};
ghost use Rattle.rules.specs.Built.{build_left};
ghost use Rattle.rules.specs.Tables.{object_table, class_table, slot_table, static_table, schema_of, copied_route, raw_route, input_of, room_of, coding_room, coding_left};
ghost use Rattle.yokefathom.specs.Calls.{policy_of, BuildTold};

use rules::ReferencePolicy;

// The graph of an input by the copied route, in the columns lent, with its account; or a refusal, and all of them zero.
#[unsafe(no_mangle)]
pub extern "C" fn yokefathom_build_copied(
    ids: &[u64],
    kinds: &[u8],
    classes: &[u32],
    lengths: &[u32],
    class_ids: &[u64],
    loaders: &[u64],
    dumped: &[u8],
    class_kinds: &[u8],
    slot_starts: &[u32],
    slot_ends: &[u32],
    static_starts: &[u32],
    static_ends: &[u32],
    slot_offsets: &[u32],
    slot_labels: &[u32],
    slot_weak: &[u8],
    static_names: &[u32],
    static_types: &[u8],
    static_values: &[u64],
    names: usize,
    codes: &[u32],
    escape_places: &[u64],
    escape_ids: &[u64],
    base: u64,
    starts: &[u32],
    roots: &[u32],
    keep_soft: bool,
    keep_weak: bool,
    targets: &mut [u32],
    labels: &mut [u32],
    weak_from: &mut [u32],
    weak_to: &mut [u32],
    roots_out: &mut [u32],
    working: &mut [u64],
    account: &mut [[u64; 3]; 4],
    bases: &mut [u64],
    short: &mut [u16],
    long_at: &mut [u32],
    long_value: &mut [u64],
    fields: &mut [u32],
    table: &mut [u16],
    escape_at: &mut [u64],
    escape_label: &mut [u32],
    edge_codes: &mut [u16],
    counting: &mut [u64],
    ranking: &mut [u64],
    answer: &mut [u64; 9],
)
    ensures { let schema = schema_of (class_table now_of class_ids loaders dumped class_kinds slot_starts slot_ends static_starts static_ends)
        (slot_table now_of slot_offsets slot_labels slot_weak) (static_table now_of static_names static_types static_values) names in
        let route = copied_route now_of codes escape_places escape_ids base starts in
        let input = input_of (object_table now_of ids kinds classes lengths) schema route roots.now (policy_of keep_soft keep_weak) in
        let room = room_of old_of targets labels weak_from weak_to roots_out working
        (coding_room old_of bases short long_at long_value fields table escape_at escape_label edge_codes counting ranking) in
        let coded = coding_left new_of bases short long_at long_value fields table escape_at escape_label edge_codes counting ranking in
        BuildTold (build_left input room) answer.new
        targets.new labels.new weak_from.new weak_to.new roots_out.new working.new coded account.new }
{
    let built = build::build_copied(
        ids,
        kinds,
        classes,
        lengths,
        class_ids,
        loaders,
        dumped,
        class_kinds,
        slot_starts,
        slot_ends,
        static_starts,
        static_ends,
        slot_offsets,
        slot_labels,
        slot_weak,
        static_names,
        static_types,
        static_values,
        names,
        codes,
        escape_places,
        escape_ids,
        base,
        starts,
        roots,
        ReferencePolicy {
            soft: keep_soft,
            weak: keep_weak,
        },
        targets,
        labels,
        weak_from,
        weak_to,
        roots_out,
        working,
        account,
        bases,
        short,
        long_at,
        long_value,
        fields,
        table,
        escape_at,
        escape_label,
        edge_codes,
        counting,
        ranking,
    );
    *answer = answer_builds::built(built);
}

// The graph of an input by the raw route, in the columns lent, with its account; or a refusal, and all of them zero.
#[unsafe(no_mangle)]
pub extern "C" fn yokefathom_build_raw(
    ids: &[u64],
    kinds: &[u8],
    classes: &[u32],
    lengths: &[u32],
    class_ids: &[u64],
    loaders: &[u64],
    dumped: &[u8],
    class_kinds: &[u8],
    slot_starts: &[u32],
    slot_ends: &[u32],
    static_starts: &[u32],
    static_ends: &[u32],
    slot_offsets: &[u32],
    slot_labels: &[u32],
    slot_weak: &[u8],
    static_names: &[u32],
    static_types: &[u8],
    static_values: &[u64],
    names: usize,
    bytes: &[u8],
    size: usize,
    starts: &[u64],
    bodies: &[u32],
    roots: &[u32],
    keep_soft: bool,
    keep_weak: bool,
    targets: &mut [u32],
    labels: &mut [u32],
    weak_from: &mut [u32],
    weak_to: &mut [u32],
    roots_out: &mut [u32],
    working: &mut [u64],
    account: &mut [[u64; 3]; 4],
    bases: &mut [u64],
    short: &mut [u16],
    long_at: &mut [u32],
    long_value: &mut [u64],
    fields: &mut [u32],
    table: &mut [u16],
    escape_at: &mut [u64],
    escape_label: &mut [u32],
    edge_codes: &mut [u16],
    counting: &mut [u64],
    ranking: &mut [u64],
    answer: &mut [u64; 9],
)
    ensures { let schema = schema_of (class_table now_of class_ids loaders dumped class_kinds slot_starts slot_ends static_starts static_ends)
        (slot_table now_of slot_offsets slot_labels slot_weak) (static_table now_of static_names static_types static_values) names in
        let route = raw_route now_of bytes size starts bodies in
        let input = input_of (object_table now_of ids kinds classes lengths) schema route roots.now (policy_of keep_soft keep_weak) in
        let room = room_of old_of targets labels weak_from weak_to roots_out working
        (coding_room old_of bases short long_at long_value fields table escape_at escape_label edge_codes counting ranking) in
        let coded = coding_left new_of bases short long_at long_value fields table escape_at escape_label edge_codes counting ranking in
        BuildTold (build_left input room) answer.new
        targets.new labels.new weak_from.new weak_to.new roots_out.new working.new coded account.new }
{
    let built = build::build_raw(
        ids,
        kinds,
        classes,
        lengths,
        class_ids,
        loaders,
        dumped,
        class_kinds,
        slot_starts,
        slot_ends,
        static_starts,
        static_ends,
        slot_offsets,
        slot_labels,
        slot_weak,
        static_names,
        static_types,
        static_values,
        names,
        bytes,
        size,
        starts,
        bodies,
        roots,
        ReferencePolicy {
            soft: keep_soft,
            weak: keep_weak,
        },
        targets,
        labels,
        weak_from,
        weak_to,
        roots_out,
        working,
        account,
        bases,
        short,
        long_at,
        long_value,
        fields,
        table,
        escape_at,
        escape_label,
        edge_codes,
        counting,
        ranking,
    );
    *answer = answer_builds::built(built);
}
