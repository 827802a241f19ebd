// The checks of lengths: LENGTHS and LIMIT.
ghost use Rattle.std.specs.Prelude.{◌≡◌, [], ◌∷◌, length};
ghost use Rattle.columns.specs.Loans.{now_of};
ghost use Rattle.rules.specs.Verdict.{differs, schema_lengths, bad_size, limits};
ghost use Rattle.rules.specs.Tables.{class_table, slot_table, static_table, schema_of};
ghost use Rattle.check_tables.specs.Reads.{size_only};

// Whether one of the lengths differs from n.
pub fn differ(n: usize, lengths: &[usize]) -> bool
    ensures { result ≡ differs n lengths.now }
{
    lengths.iter().any(|length| *length != n)
}

// Whether columns of the classes, the slots or the statics differ in length.
#[tactic(auto, unfolding(rules::specs::Verdict::schema_lengths, columns::specs::Lists::any_of))]
pub fn schema_lengths(
    class_ids: &[u64],
    loaders: &[u64],
    dumped: &[u8],
    class_kinds: &[u8],
    slot_starts: &[u32],
    slot_ends: &[u32],
    static_starts: &[u32],
    static_ends: &[u32],
    slot_offsets: &[u32],
    slot_labels: &[u32],
    slot_weak: &[u8],
    static_names: &[u32],
    static_types: &[u8],
    static_values: &[u64],
) -> bool
    ensures { let schema = schema_of (class_table now_of class_ids loaders dumped class_kinds slot_starts slot_ends static_starts static_ends)
        (slot_table now_of slot_offsets slot_labels slot_weak) (static_table now_of static_names static_types static_values) 0 in
        result ≡ schema_lengths schema }
{
    let n = class_ids.len();
    differ(n, &[loaders.len(), dumped.len(), class_kinds.len()])
        || differ(
            n,
            &[
                slot_starts.len(),
                slot_ends.len(),
                static_starts.len(),
                static_ends.len(),
            ],
        )
        || differ(slot_offsets.len(), &[slot_labels.len(), slot_weak.len()])
        || differ(
            static_names.len(),
            &[static_types.len(), static_values.len()],
        )
}

// Whether the objects, classes, names, slots or statics are over the limit.
#[tactic(auto, unfolding(rules::specs::Verdict::limits, columns::specs::Lists::any_of))]
pub fn over_limit(
    objects: usize,
    classes: usize,
    names: usize,
    slots: usize,
    statics: usize,
) -> bool
    ensures { result ≡ limits objects classes names slots statics }
{
    67108864 < objects
        || 67108864 < classes
        || 16777216 < names
        || 268435456 < slots
        || 268435456 < statics
}

#[tactic(auto, unfolding(rules::specs::Verdict::bad_size, columns::specs::Lists::any_of))]
pub fn bad_size(size: usize) -> bool
    ensures { result ≡ bad_size (size_only size) }
{
    !matches!(size, 4 | 8)
}
