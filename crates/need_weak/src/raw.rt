// The weak pairs by the raw route.
ghost use Rattle.std.specs.Prelude.{◌≡◌, [], false, ℕ, ◌+◌, ◌≤◌, ◌<◌, ltb, length};
ghost use Rattle.columns.specs.Lists.{tab, ◌!◌};
ghost use Rattle.columns.specs.Ranks.{Rises};
ghost use Rattle.edge_append.specs.Held.{SlotsIn};
ghost use Rattle.edge_append.specs.Raw.{raw_slot, slots_read, BodyIn};
ghost use Rattle.need_weak.specs.Pairs.{pairs_in, Few, raw_pairs, raw_total, ObjectsIn};

use super::pair_to;
use edge_sources::raw::id_at_bytes;

// The slot at this offset ends past the body.
fn ends_past(offset: u32, size: usize, body: usize) -> bool
    requires { size ≤ 8 }
    ensures { result ≡ ltb body (offset + size) }
{
    body < columns::index(offset) + size
}

// The pairs of the slots from `first` on of a body that stands from `start` on, of a class whose kind is not kept. "Reading stops at the first slot that
// ends past the body."
fn slots(
    start: usize,
    body: usize,
    first: usize,
    count: usize,
    guess: usize,
    ids: &[u64],
    slot_offsets: &[u32],
    slot_weak: &[u8],
    bytes: &[u8],
    size: usize,
) -> usize
    requires { Rises ids.now × (first + count ≤ length slot_offsets.now) × (first + count ≤ length slot_weak.now) × BodyIn (length bytes.now) size start body }
    ensures { Few (pairs_in ids.now (tab (raw_slot bytes.now size start slot_offsets.now [] slot_weak.now false first)
        (slots_read slot_offsets.now size body first count))) count result }
{
    let mut n = 0;
    for k in 0..count {
        let offset = slot_offsets[first + k];
        if ends_past(offset, size, body) {
            return n;
        }
        if slot_weak[first + k] == 1 {
            let id = id_at_bytes(bytes, start + columns::index(offset), size);
            n += pair_to(ids, id, guess);
        }
    }
    n
}

// The pairs of one object.
fn object(
    start: usize,
    body: usize,
    kind: u8,
    class: usize,
    guess: usize,
    ids: &[u64],
    class_kinds: &[u8],
    slot_starts: &[u32],
    slot_ends: &[u32],
    slot_offsets: &[u32],
    slot_weak: &[u8],
    bytes: &[u8],
    size: usize,
    policy: rules::ReferencePolicy,
) -> usize
    requires rises { Rises ids.now × SlotsIn class_kinds.now slot_starts.now slot_ends.now (length slot_offsets.now) (length slot_weak.now) kind class 0 }
    requires body_in { kind ≡ 0 → BodyIn (length bytes.now) size start body }
    ensures { Few (raw_pairs ids.now bytes.now size start body class_kinds.now slot_starts.now slot_ends.now
        slot_offsets.now slot_weak.now policy kind class) (length slot_weak.now) result }
{
    if kind != rules::Kind::Instance as u8 {
        return 0;
    }
    if policy.keeps(class_kinds[class]) {
        return 0;
    }
    let first = columns::index(slot_starts[class]);
    let count = columns::index(slot_ends[class]) - first;
    slots(
        start,
        body,
        first,
        count,
        guess,
        ids,
        slot_offsets,
        slot_weak,
        bytes,
        size,
    )
}

// The need of buffer 2.
pub fn count_weak_raw(
    ids: &[u64],
    kinds: &[u8],
    classes: &[u32],
    class_kinds: &[u8],
    slot_starts: &[u32],
    slot_ends: &[u32],
    slot_offsets: &[u32],
    slot_weak: &[u8],
    bytes: &[u8],
    size: usize,
    starts: &[u64],
    bodies: &[u32],
    policy: rules::ReferencePolicy,
) -> usize
    requires objects_in { ObjectsIn ids.now kinds.now classes.now starts.now × (length ids.now ≤ length bodies.now) × (length slot_weak.now ≤ 268435456) }
    requires by_index { (o : ℕ) → o < length ids.now → SlotsIn class_kinds.now slot_starts.now slot_ends.now (length slot_offsets.now)
        (length slot_weak.now) (kinds.now ! o) (classes.now ! o) 0 }
    requires by_index_2 { (o : ℕ) → o < length ids.now → kinds.now ! o ≡ 0 → BodyIn (length bytes.now) size (starts.now ! o) (bodies.now ! o) }
    ensures { result ≡ raw_total ids.now kinds.now classes.now starts.now bodies.now bytes.now size class_kinds.now
        slot_starts.now slot_ends.now slot_offsets.now slot_weak.now policy (length ids.now) }
{
    let mut n: usize = 0;
    for o in 0..ids.len() {
        n += object(
            starts[o] as usize,
            columns::index(bodies[o]),
            kinds[o],
            columns::index(classes[o]),
            o,
            ids,
            class_kinds,
            slot_starts,
            slot_ends,
            slot_offsets,
            slot_weak,
            bytes,
            size,
            policy,
        );
    }
    n
}
