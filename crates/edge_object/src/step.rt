// One object of a pass, and its offset.
ghost use Rattle.std.specs.Prelude.{◌≡◌, ◌+◌, ◌*◌, ◌^◌, ◌≤◌, ◌<◌, length, set};
ghost use Rattle.columns.specs.Lists.{◌!◌};
ghost use Rattle.columns.specs.Ranks.{Rises};
ghost use Rattle.index.specs.Copied.{ids_of};
ghost use Rattle.edge_append.specs.Held.{SlotsIn, StaticsIn};
ghost use Rattle.edge_append.specs.Raw.{BodyIn};
ghost use Rattle.edge_append.specs.Object.{copied_parts, raw_parts, ObjectReady, Done};

use super::object;
use edge_append::Pass;

// Working offset o + 1 holds the mark of the class that is found at object o, and then where its edges end.
pub fn step_copied(
    from: Pass,
    o: usize,
    row: usize,
    ids: &[u64],
    kinds: &[u8],
    classes: &[u32],
    lengths: &[u32],
    loaders: &[u64],
    class_kinds: &[u8],
    slot_starts: &[u32],
    slot_ends: &[u32],
    static_starts: &[u32],
    static_ends: &[u32],
    slot_labels: &[u32],
    slot_weak: &[u8],
    static_names: &[u32],
    static_types: &[u8],
    static_values: &[u64],
    codes: &[u32],
    escape_places: &[u64],
    escape_ids: &[u64],
    base: u64,
    starts: &[u32],
    policy: rules::ReferencePolicy,
    short: &[u16],
    scale: u32,
    targets: &mut [u32],
    labels: &mut [u32],
    weak_from: &mut [u32],
    weak_to: &mut [u32],
    working: &mut [u64],
    account: &mut [[u64; 3]; 4],
) -> Pass
    requires rises { Rises escape_places.now }
    requires o_bound { o < 2 ^ 32 }
    requires o_in_bounds { (o < length kinds.now) × (o < length classes.now) × (o < length lengths.now) × (o < length starts.now) × (o + 1 < length working.old) }
    requires slots_in { SlotsIn class_kinds.now slot_starts.now slot_ends.now (length slot_labels.now) (length slot_weak.now) (kinds.now ! o)
        (classes.now ! o) (starts.now ! o) }
    requires o_bound_2 { kinds.now ! o ≡ 1 → (lengths.now ! o ≤ 2 ^ 31) × (starts.now ! o + lengths.now ! o < 2 ^ 64) }
    requires statics_in { StaticsIn static_starts.now static_ends.now (length static_names.now) (length static_types.now)
        (length static_values.now) (working.old ! (o + 1)) }
    requires o_in_bounds_2 { 0 < working.old ! (o + 1) → working.old ! (o + 1) ≤ length loaders.now }
    requires fact { let held = ids_of codes.now escape_places.now escape_ids.now base in
        let parts = copied_parts held (starts.now ! o)
        class_kinds.now slot_starts.now slot_ends.now slot_labels.now slot_weak.now
        policy (kinds.now ! o) (classes.now ! o) (lengths.now ! o) loaders.now
        static_starts.now static_ends.now static_names.now static_types.now static_values.now (working.old ! (o + 1)) in
        ObjectReady ids.now parts from (length targets.old) (length labels.old) (length weak_from.old) (length weak_to.old) account.old }
    ensures fact_2 { let held = ids_of codes.now escape_places.now escape_ids.now base in
        let parts = copied_parts held (starts.now ! o)
        class_kinds.now slot_starts.now slot_ends.now slot_labels.now slot_weak.now
        policy (kinds.now ! o) (classes.now ! o) (lengths.now ! o) loaders.now
        static_starts.now static_ends.now static_names.now static_types.now static_values.now (working.old ! (o + 1)) in
        Done ids.now parts o from result
        targets.old labels.old weak_from.old weak_to.old account.old
        targets.new labels.new weak_from.new weak_to.new account.new }
    ensures working_value { working.new ≡ set working.old (o + 1) result.edges }
{
    let mark = working[o + 1] as usize;
    let kind = kinds[o];
    let class = columns::index(classes[o]);
    let count = columns::index(lengths[o]);
    let start = columns::index(starts[o]);
    let q = object::object_copied(
        from,
        o,
        kind,
        class,
        count,
        start,
        row,
        mark,
        ids,
        loaders,
        class_kinds,
        slot_starts,
        slot_ends,
        static_starts,
        static_ends,
        slot_labels,
        slot_weak,
        static_names,
        static_types,
        static_values,
        codes,
        escape_places,
        escape_ids,
        base,
        policy,
        short,
        scale,
        targets,
        labels,
        weak_from,
        weak_to,
        account,
    );
    working[o + 1] = q.edges as u64;
    q
}

// The same by the raw route, where an object has a body too.
pub fn step_raw(
    from: Pass,
    o: usize,
    ids: &[u64],
    kinds: &[u8],
    classes: &[u32],
    lengths: &[u32],
    loaders: &[u64],
    class_kinds: &[u8],
    slot_starts: &[u32],
    slot_ends: &[u32],
    static_starts: &[u32],
    static_ends: &[u32],
    slot_offsets: &[u32],
    slot_labels: &[u32],
    slot_weak: &[u8],
    static_names: &[u32],
    static_types: &[u8],
    static_values: &[u64],
    bytes: &[u8],
    size: usize,
    starts: &[u64],
    bodies: &[u32],
    policy: rules::ReferencePolicy,
    short: &[u16],
    scale: u32,
    targets: &mut [u32],
    labels: &mut [u32],
    weak_from: &mut [u32],
    weak_to: &mut [u32],
    working: &mut [u64],
    account: &mut [[u64; 3]; 4],
) -> Pass
    requires o_bound { o < 2 ^ 32 }
    requires o_in_bounds { (o < length kinds.now) × (o < length classes.now) × (o < length lengths.now) × (o < length starts.now) × (o < length bodies.now)
        × (o + 1 < length working.old) }
    requires slots_in { SlotsIn class_kinds.now slot_starts.now slot_ends.now (length slot_labels.now) (length slot_weak.now) (kinds.now ! o) (classes.now ! o) 0 }
    requires slot_offsets_len { length slot_offsets.now ≡ length slot_labels.now }
    requires body_in { kinds.now ! o ≡ 0 → BodyIn (length bytes.now) size (starts.now ! o) (bodies.now ! o) }
    requires o_bound_2 { kinds.now ! o ≡ 1 → (lengths.now ! o ≤ 2 ^ 31) × (size ≤ 8) × (starts.now ! o + lengths.now ! o * size ≤ length bytes.now) }
    requires statics_in { StaticsIn static_starts.now static_ends.now (length static_names.now) (length static_types.now)
        (length static_values.now) (working.old ! (o + 1)) }
    requires o_in_bounds_2 { 0 < working.old ! (o + 1) → working.old ! (o + 1) ≤ length loaders.now }
    requires fact { let parts = raw_parts bytes.now size (starts.now ! o) (bodies.now ! o)
        class_kinds.now slot_starts.now slot_ends.now slot_offsets.now slot_labels.now slot_weak.now
        policy (kinds.now ! o) (classes.now ! o) (lengths.now ! o) loaders.now
        static_starts.now static_ends.now static_names.now static_types.now static_values.now (working.old ! (o + 1)) in
        ObjectReady ids.now parts from (length targets.old) (length labels.old) (length weak_from.old) (length weak_to.old) account.old }
    ensures fact_2 { let parts = raw_parts bytes.now size (starts.now ! o) (bodies.now ! o)
        class_kinds.now slot_starts.now slot_ends.now slot_offsets.now slot_labels.now slot_weak.now
        policy (kinds.now ! o) (classes.now ! o) (lengths.now ! o) loaders.now
        static_starts.now static_ends.now static_names.now static_types.now static_values.now (working.old ! (o + 1)) in
        Done ids.now parts o from result
        targets.old labels.old weak_from.old weak_to.old account.old
        targets.new labels.new weak_from.new weak_to.new account.new }
    ensures working_value { working.new ≡ set working.old (o + 1) result.edges }
{
    let mark = working[o + 1] as usize;
    let kind = kinds[o];
    let class = columns::index(classes[o]);
    let count = columns::index(lengths[o]);
    let start = starts[o] as usize;
    let body = columns::index(bodies[o]);
    let q = object::object_raw(
        from,
        o,
        kind,
        class,
        count,
        start,
        body,
        mark,
        ids,
        loaders,
        class_kinds,
        slot_starts,
        slot_ends,
        static_starts,
        static_ends,
        slot_offsets,
        slot_labels,
        slot_weak,
        static_names,
        static_types,
        static_values,
        bytes,
        size,
        policy,
        short,
        scale,
        targets,
        labels,
        weak_from,
        weak_to,
        account,
    );
    working[o + 1] = q.edges as u64;
    q
}
