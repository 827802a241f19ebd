// A graph from its plain columns.
ghost use Rattle.columns.specs.Loans.{now_of, old_of, new_of};
ghost use Rattle.rules.specs.Built.{parts_left};
ghost use Rattle.rules.specs.Tables.{class_table, slot_table, static_table, schema_of, coding_room, coding_left};
ghost use Rattle.from_parts.specs.Parts.{plain_columns};
ghost use Rattle.yokefathom.specs.Calls.{PartsTold};

// The coded columns of the graph whose plain columns these are, with the used lengths; or the refusal, and all of them zero.
#[unsafe(no_mangle)]
pub extern "C" fn yokefathom_from_parts(
    class_ids: &[u64],
    loaders: &[u64],
    dumped: &[u8],
    class_kinds: &[u8],
    slot_starts: &[u32],
    slot_ends: &[u32],
    static_starts: &[u32],
    static_ends: &[u32],
    slot_offsets: &[u32],
    slot_labels: &[u32],
    slot_weak: &[u8],
    static_names: &[u32],
    static_types: &[u8],
    static_values: &[u64],
    names: usize,
    offsets: &[u64],
    targets: &[u32],
    labels: &[u32],
    weak_from: &[u32],
    weak_to: &[u32],
    roots: &[u32],
    dangling: u64,
    bases: &mut [u64],
    short: &mut [u16],
    long_at: &mut [u32],
    long_value: &mut [u64],
    fields: &mut [u32],
    table: &mut [u16],
    escape_at: &mut [u64],
    escape_label: &mut [u32],
    edge_codes: &mut [u16],
    counting: &mut [u64],
    ranking: &mut [u64],
    answer: &mut [u64; 9],
)
    ensures { let schema = schema_of (class_table now_of class_ids loaders dumped class_kinds slot_starts slot_ends static_starts static_ends)
        (slot_table now_of slot_offsets slot_labels slot_weak) (static_table now_of static_names static_types static_values) names in
        let parts = plain_columns now_of offsets targets labels weak_from weak_to roots dangling in
        let room = coding_room old_of bases short long_at long_value fields table escape_at escape_label edge_codes counting ranking in
        let left = coding_left new_of bases short long_at long_value fields table escape_at escape_label edge_codes counting ranking in
        PartsTold (parts_left schema parts room) answer.new left }
{
    let built = from_parts::from_parts(
        class_ids,
        loaders,
        dumped,
        class_kinds,
        slot_starts,
        slot_ends,
        static_starts,
        static_ends,
        slot_offsets,
        slot_labels,
        slot_weak,
        static_names,
        static_types,
        static_values,
        names,
        offsets,
        targets,
        labels,
        weak_from,
        weak_to,
        roots,
        dangling,
        bases,
        short,
        long_at,
        long_value,
        fields,
        table,
        escape_at,
        escape_label,
        edge_codes,
        counting,
        ranking,
    );
    *answer = answer_builds::built(built);
}
