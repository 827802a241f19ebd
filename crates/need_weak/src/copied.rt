// The weak pairs by the copied route.
ghost use Rattle.std.specs.Prelude.{◌≡◌, [], false, ℕ, ◌+◌, ◌^◌, ◌≤◌, ◌<◌, length};
ghost use Rattle.columns.specs.Lists.{tab, ◌!◌};
ghost use Rattle.columns.specs.Ranks.{Rises};
ghost use Rattle.index.specs.Copied.{ids_of};
ghost use Rattle.edge_append.specs.Held.{copied_slot, SlotsIn};
ghost use Rattle.need_weak.specs.Pairs.{pairs_in, Few, copied_pairs, copied_total, ObjectsIn};

use super::pair_to;
use edge_sources::copied::id_held;

// The pairs of the first `count` slots from `first` on, of a class whose kind is not kept; their ids stand from `start` on.
fn slots(
    start: usize,
    first: usize,
    count: usize,
    guess: usize,
    ids: &[u64],
    slot_weak: &[u8],
    codes: &[u32],
    escape_places: &[u64],
    escape_ids: &[u64],
    base: u64,
) -> usize
    requires { Rises ids.now × (first + count ≤ length slot_weak.now) × (start + count < 2 ^ 64) }
    ensures { Few (pairs_in ids.now (tab (copied_slot (ids_of codes.now escape_places.now escape_ids.now base) start []
        slot_weak.now false first) count)) count result }
{
    let mut n = 0;
    for k in 0..count {
        if slot_weak[first + k] == 1 {
            let id = id_held(codes, escape_places, escape_ids, base, start + k);
            n += pair_to(ids, id, guess);
        }
    }
    n
}

// The pairs of one object: none unless it is an instance, and none where its class's kind is kept.
fn object(
    start: usize,
    kind: u8,
    class: usize,
    guess: usize,
    ids: &[u64],
    class_kinds: &[u8],
    slot_starts: &[u32],
    slot_ends: &[u32],
    slot_weak: &[u8],
    codes: &[u32],
    escape_places: &[u64],
    escape_ids: &[u64],
    base: u64,
    policy: rules::ReferencePolicy,
) -> usize
    requires { Rises ids.now × SlotsIn class_kinds.now slot_starts.now slot_ends.now (length slot_weak.now) (length slot_weak.now) kind class start }
    ensures { Few (copied_pairs ids.now (ids_of codes.now escape_places.now escape_ids.now base) start class_kinds.now
        slot_starts.now slot_ends.now slot_weak.now policy kind class) (length slot_weak.now) result }
{
    if kind != rules::Kind::Instance as u8 {
        return 0;
    }
    if policy.keeps(class_kinds[class]) {
        return 0;
    }
    let first = columns::index(slot_starts[class]);
    let count = columns::index(slot_ends[class]) - first;
    slots(
        start,
        first,
        count,
        guess,
        ids,
        slot_weak,
        codes,
        escape_places,
        escape_ids,
        base,
    )
}

// The need of buffer 2.
pub fn count_weak_copied(
    ids: &[u64],
    kinds: &[u8],
    classes: &[u32],
    class_kinds: &[u8],
    slot_starts: &[u32],
    slot_ends: &[u32],
    slot_weak: &[u8],
    codes: &[u32],
    escape_places: &[u64],
    escape_ids: &[u64],
    base: u64,
    starts: &[u32],
    policy: rules::ReferencePolicy,
) -> usize
    requires objects_in { ObjectsIn ids.now kinds.now classes.now starts.now × (length slot_weak.now ≤ 268435456) }
    requires by_index { (o : ℕ) → o < length ids.now → SlotsIn class_kinds.now slot_starts.now slot_ends.now (length slot_weak.now)
        (length slot_weak.now) (kinds.now ! o) (classes.now ! o) (starts.now ! o) }
    ensures { result ≡ copied_total ids.now kinds.now classes.now starts.now
        (ids_of codes.now escape_places.now escape_ids.now base) class_kinds.now slot_starts.now slot_ends.now
        slot_weak.now policy (length ids.now) }
{
    let mut n: usize = 0;
    for o in 0..ids.len() {
        n += object(
            columns::index(starts[o]),
            kinds[o],
            columns::index(classes[o]),
            o,
            ids,
            class_kinds,
            slot_starts,
            slot_ends,
            slot_weak,
            codes,
            escape_places,
            escape_ids,
            base,
            policy,
        );
    }
    n
}
