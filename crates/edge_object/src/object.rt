// One object: its references in order, then the run of its weak pairs.
ghost use Rattle.std.specs.Prelude.{◌≡◌, ◌+◌, ◌*◌, ◌^◌, ◌≤◌, ◌<◌, length};
ghost use Rattle.columns.specs.Ranks.{Rises};
ghost use Rattle.index.specs.Copied.{ids_of};
ghost use Rattle.edge_append.specs.Held.{SlotsIn, StaticsIn};
ghost use Rattle.edge_append.specs.Raw.{BodyIn};
ghost use Rattle.edge_append.specs.Object.{copied_parts, raw_parts, ObjectReady, Done};

use edge_append::{Pass, account, append, weak};
use edge_sources::{class, copied, raw};

// By the copied route; escapes are sought from row `row` on.
pub fn object_copied(
    from: Pass,
    object: usize,
    kind: u8,
    class: usize,
    count: usize,
    start: usize,
    row: usize,
    mark: usize,
    ids: &[u64],
    loaders: &[u64],
    class_kinds: &[u8],
    slot_starts: &[u32],
    slot_ends: &[u32],
    static_starts: &[u32],
    static_ends: &[u32],
    slot_labels: &[u32],
    slot_weak: &[u8],
    static_names: &[u32],
    static_types: &[u8],
    static_values: &[u64],
    codes: &[u32],
    escape_places: &[u64],
    escape_ids: &[u64],
    base: u64,
    policy: rules::ReferencePolicy,
    short: &[u16],
    scale: u32,
    targets: &mut [u32],
    labels: &mut [u32],
    weak_from: &mut [u32],
    weak_to: &mut [u32],
    account: &mut [[u64; 3]; 4],
) -> Pass
    requires rises { Rises escape_places.now }
    requires object_bound { object < 2 ^ 32 }
    requires slots_in { SlotsIn class_kinds.now slot_starts.now slot_ends.now (length slot_labels.now) (length slot_weak.now) kind class start }
    requires count_bound { kind ≡ 1 → (count ≤ 2 ^ 31) × (start + count < 2 ^ 64) }
    requires statics_in { StaticsIn static_starts.now static_ends.now (length static_names.now) (length static_types.now) (length static_values.now) mark }
    requires mark_in_bounds { 0 < mark → mark ≤ length loaders.now }
    requires fact { let held = ids_of codes.now escape_places.now escape_ids.now base in
        let parts = copied_parts held start
        class_kinds.now slot_starts.now slot_ends.now slot_labels.now slot_weak.now
        policy kind class count loaders.now
        static_starts.now static_ends.now static_names.now static_types.now static_values.now mark in
        ObjectReady ids.now parts from (length targets.old) (length labels.old) (length weak_from.old) (length weak_to.old) account.old }
    ensures { let held = ids_of codes.now escape_places.now escape_ids.now base in
        let parts = copied_parts held start
        class_kinds.now slot_starts.now slot_ends.now slot_labels.now slot_weak.now
        policy kind class count loaders.now
        static_starts.now static_ends.now static_names.now static_types.now static_values.now mark in
        Done ids.now parts object from result
        targets.old labels.old weak_from.old weak_to.old account.old
        targets.new labels.new weak_from.new weak_to.new account.new }
{
    let s1 = copied::object_slots(
        from,
        start,
        row,
        kind,
        class,
        ids,
        class_kinds,
        slot_starts,
        slot_ends,
        slot_labels,
        slot_weak,
        codes,
        escape_places,
        escape_ids,
        base,
        policy,
        short,
        scale,
        targets,
        labels,
        weak_to,
    );
    let s2 = copied::object_elements(
        s1,
        start,
        row,
        kind,
        count,
        ids,
        codes,
        escape_places,
        escape_ids,
        base,
        short,
        scale,
        targets,
        labels,
        weak_to,
    );
    let s3 = class::found_statics(
        s2,
        mark,
        ids,
        static_starts,
        static_ends,
        static_names,
        static_types,
        static_values,
        short,
        scale,
        targets,
        labels,
        weak_to,
    );
    let s4 = class::found_loader(
        s3, mark, ids, loaders, short, scale, targets, labels, weak_to,
    );
    account::tally(account, from, s1, s2, s3, s4);
    weak::close_run(
        weak_from,
        weak_to,
        append::narrow(object),
        from.weak,
        s4.weak,
    );
    s4
}

// By the raw route: its body has `body` bytes.
pub fn object_raw(
    from: Pass,
    object: usize,
    kind: u8,
    class: usize,
    count: usize,
    start: usize,
    body: usize,
    mark: usize,
    ids: &[u64],
    loaders: &[u64],
    class_kinds: &[u8],
    slot_starts: &[u32],
    slot_ends: &[u32],
    static_starts: &[u32],
    static_ends: &[u32],
    slot_offsets: &[u32],
    slot_labels: &[u32],
    slot_weak: &[u8],
    static_names: &[u32],
    static_types: &[u8],
    static_values: &[u64],
    bytes: &[u8],
    size: usize,
    policy: rules::ReferencePolicy,
    short: &[u16],
    scale: u32,
    targets: &mut [u32],
    labels: &mut [u32],
    weak_from: &mut [u32],
    weak_to: &mut [u32],
    account: &mut [[u64; 3]; 4],
) -> Pass
    requires object_bound { object < 2 ^ 32 }
    requires slots_in { SlotsIn class_kinds.now slot_starts.now slot_ends.now (length slot_labels.now) (length slot_weak.now) kind class 0 }
    requires slot_offsets_len { length slot_offsets.now ≡ length slot_labels.now }
    requires body_in { kind ≡ 0 → BodyIn (length bytes.now) size start body }
    requires count_bound { kind ≡ 1 → (count ≤ 2 ^ 31) × (size ≤ 8) × (start + count * size ≤ length bytes.now) }
    requires statics_in { StaticsIn static_starts.now static_ends.now (length static_names.now) (length static_types.now) (length static_values.now) mark }
    requires mark_in_bounds { 0 < mark → mark ≤ length loaders.now }
    requires fact { let parts = raw_parts bytes.now size start body
        class_kinds.now slot_starts.now slot_ends.now slot_offsets.now slot_labels.now slot_weak.now
        policy kind class count loaders.now
        static_starts.now static_ends.now static_names.now static_types.now static_values.now mark in
        ObjectReady ids.now parts from (length targets.old) (length labels.old) (length weak_from.old) (length weak_to.old) account.old }
    ensures { let parts = raw_parts bytes.now size start body
        class_kinds.now slot_starts.now slot_ends.now slot_offsets.now slot_labels.now slot_weak.now
        policy kind class count loaders.now
        static_starts.now static_ends.now static_names.now static_types.now static_values.now mark in
        Done ids.now parts object from result
        targets.old labels.old weak_from.old weak_to.old account.old
        targets.new labels.new weak_from.new weak_to.new account.new }
{
    let s1 = raw::object_slots(
        from,
        start,
        body,
        kind,
        class,
        ids,
        class_kinds,
        slot_starts,
        slot_ends,
        slot_offsets,
        slot_labels,
        slot_weak,
        bytes,
        size,
        policy,
        short,
        scale,
        targets,
        labels,
        weak_to,
    );
    let s2 = raw::object_elements(
        s1, start, kind, count, ids, bytes, size, short, scale, targets, labels, weak_to,
    );
    let s3 = class::found_statics(
        s2,
        mark,
        ids,
        static_starts,
        static_ends,
        static_names,
        static_types,
        static_values,
        short,
        scale,
        targets,
        labels,
        weak_to,
    );
    let s4 = class::found_loader(
        s3, mark, ids, loaders, short, scale, targets, labels, weak_to,
    );
    account::tally(account, from, s1, s2, s3, s4);
    weak::close_run(
        weak_from,
        weak_to,
        append::narrow(object),
        from.weak,
        s4.weak,
    );
    s4
}
