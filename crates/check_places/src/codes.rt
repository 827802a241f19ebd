// The places of a copied input's own ids: kept slots and elements whose code is not 0, which on codes that were checked is an id that is not 0.
ghost use Rattle.std.specs.Prelude.{◌≡◌, ◌+◌, ◌≤◌, ◌<◌, length};
ghost use Rattle.columns.specs.Lists.{total};
ghost use Rattle.check_places.specs.Placing.{one_slot, one_code, object_places, held_at, PartStands, CodeTables};

use rules::ReferencePolicy;

// The slots of an instance, whose class's slots begin at `first` and whose codes begin at `start`.
fn count_slots(
    kept: bool,
    start: usize,
    first: usize,
    n: usize,
    slot_weak: &[u8],
    codes: &[u32],
) -> u64
    requires n_in_bounds { start + n ≤ length codes.now }
    requires n_in_bounds_2 { first + n ≤ length slot_weak.now }
    ensures value { result ≡ total (one_slot codes.now slot_weak.now kept start first) n }
    ensures upper_bound { result ≤ n }
{
    let mut sum: u64 = 0;
    for k in 0..n {
        sum += check_place_steps::one_slot(kept, slot_weak[first + k], codes[start + k]);
    }
    sum
}

// The elements of an array, whose codes begin at `start`.
fn count_codes(codes: &[u32], start: usize, n: usize) -> u64
    requires { start + n ≤ length codes.now }
    ensures value { result ≡ total (one_code codes.now start) n }
    ensures upper_bound { result ≤ n }
{
    let mut sum: u64 = 0;
    for k in 0..n {
        sum += u64::from(codes[start + k] != 0);
    }
    sum
}

// Those of one object.
#[tactic(auto, unfolding(crate::specs::Placing::object_places, check_ids::specs::Spans::part_length, check_ids::specs::Spans::slots_of))]
fn object_places(
    class_kinds: &[u8],
    slot_starts: &[u32],
    slot_ends: &[u32],
    slot_weak: &[u8],
    codes: &[u32],
    policy: ReferencePolicy,
    kind: u8,
    class: u32,
    len: u32,
    start: u32,
) -> u64
    requires { PartStands class_kinds.now slot_starts.now slot_ends.now slot_weak.now codes.now kind class len start }
    ensures value { result ≡ object_places class_kinds.now slot_starts.now slot_ends.now slot_weak.now codes.now policy kind class len start }
    ensures upper_bound { result ≤ 4294967295 }
{
    let at = columns::index(start);
    match kind {
        0 => {
            let c = columns::index(class);
            let first = columns::index(slot_starts[c]);
            let end = columns::index(slot_ends[c]);
            let kept = policy.keeps(class_kinds[c]);
            count_slots(kept, at, first, end - first, slot_weak, codes)
        }
        1 => count_codes(codes, at, columns::index(len)),
        _ => 0,
    }
}

// Those of all objects. Each has fewer than 2^32, so that the sum stays below 2^64.
pub(crate) fn count_objects(
    kinds: &[u8],
    classes: &[u32],
    lengths: &[u32],
    class_kinds: &[u8],
    slot_starts: &[u32],
    slot_ends: &[u32],
    slot_weak: &[u8],
    codes: &[u32],
    starts: &[u32],
    policy: ReferencePolicy,
) -> u64
    requires { CodeTables kinds.now classes.now lengths.now class_kinds.now slot_starts.now slot_ends.now slot_weak.now codes.now starts.now }
    ensures value { result ≡ total (held_at kinds.now classes.now lengths.now class_kinds.now slot_starts.now slot_ends.now
        slot_weak.now codes.now starts.now policy) (length kinds.now) }
    ensures upper_bound { result ≤ 288230376151711744 }
{
    let mut sum: u64 = 0;
    for o in 0..kinds.len() {
        sum += object_places(
            class_kinds,
            slot_starts,
            slot_ends,
            slot_weak,
            codes,
            policy,
            kinds[o],
            classes[o],
            lengths[o],
            starts[o],
        );
    }
    sum
}
