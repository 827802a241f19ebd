// The check of the classes, without the causes about found objects.
ghost use Rattle.std.specs.Prelude.{◌≡◌, ◌-◌, ◌≤◌, length};
ghost use Rattle.columns.specs.Lists.{any, first_place};
ghost use Rattle.rules.specs.Verdict.{bad_class};
ghost use Rattle.check_tables.specs.Reads.{row_fault, slot_fault, static_fault, static_fault_at, schema_columns, Tables};

// A class's flag, its reference kind and its two ranges.
#[tactic(auto, unfolding(crate::specs::Reads::row_fault, columns::specs::Lists::any_of))]
fn row_fault(
    dumped: u8,
    kind: u8,
    slot_start: u32,
    slot_end: u32,
    static_start: u32,
    static_end: u32,
    slots: usize,
    statics: usize,
) -> bool
    ensures { result ≡ row_fault dumped kind slot_start slot_end static_start static_end slots statics }
{
    1 < dumped
        || 4 < kind
        || slot_end < slot_start
        || slots < columns::index(slot_end)
        || static_end < static_start
        || statics < columns::index(static_end)
}

#[tactic(auto, unfolding(crate::specs::Reads::slot_fault, columns::specs::Lists::any_of))]
fn slot_fault(names: usize, label: u32, weak: u8, offset: u64, low: u64) -> bool
    ensures { result ≡ slot_fault names label weak offset low }
{
    names <= columns::index(label) || 1 < weak || offset < low
}

#[tactic(auto, unfolding(crate::specs::Reads::static_fault, columns::specs::Lists::any_of, columns::specs::Lists::all_of))]
fn static_fault(names: usize, name: u32, kind: u8) -> bool
    ensures { result ≡ static_fault names name kind }
{
    names <= columns::index(name) || !matches!(kind, 2 | 4..=11)
}

// Whether one of the statics from a place up to another is at fault.
fn statics_fault(
    static_names: &[u32],
    static_types: &[u8],
    names: usize,
    from: usize,
    to: usize,
) -> bool
    requires { (from ≤ to) × (to ≤ length static_names.now) × (length static_types.now ≡ length static_names.now) }
    ensures { result ≡ any (static_fault_at static_names.now static_types.now names from) (to - from) }
{
    (from..to).any(|i| static_fault(names, static_names[i], static_types[i]))
}

// The first class at fault, or the number of classes. The walk stops at the first faulty slot of the first faulty class.
pub fn first_class(
    dumped: &[u8],
    class_kinds: &[u8],
    slot_starts: &[u32],
    slot_ends: &[u32],
    static_starts: &[u32],
    static_ends: &[u32],
    slot_offsets: &[u32],
    slot_labels: &[u32],
    slot_weak: &[u8],
    static_names: &[u32],
    static_types: &[u8],
    names: usize,
) -> usize
    requires { Tables dumped.now class_kinds.now slot_starts.now slot_ends.now static_starts.now static_ends.now
        slot_offsets.now slot_labels.now slot_weak.now static_names.now static_types.now }
    ensures { result ≡ first_place (bad_class (schema_columns dumped.now class_kinds.now
        slot_starts.now slot_ends.now static_starts.now static_ends.now
        slot_offsets.now slot_labels.now slot_weak.now static_names.now static_types.now names)) (length dumped.now) }
{
    'check: {
        for class in 0..dumped.len() {
            if row_fault(
                dumped[class],
                class_kinds[class],
                slot_starts[class],
                slot_ends[class],
                static_starts[class],
                static_ends[class],
                slot_offsets.len(),
                static_names.len(),
            ) {
                break 'check class;
            }
            let mut low: u64 = 0;
            for slot in columns::index(slot_starts[class])..columns::index(slot_ends[class]) {
                let offset = u64::from(slot_offsets[slot]);
                if slot_fault(names, slot_labels[slot], slot_weak[slot], offset, low) {
                    break 'check class;
                }
                low = offset + 1;
            }
            let from = columns::index(static_starts[class]);
            let to = columns::index(static_ends[class]);
            if statics_fault(static_names, static_types, names, from, to) {
                break 'check class;
            }
        }
        dumped.len()
    }
}
