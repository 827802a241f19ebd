// The most weak pairs that there can be, by either route: the weak slots, whatever ids they hold. No id is read and nothing is looked up.
ghost use Rattle.std.specs.Prelude.{◌≡◌, false, cond, not, ℕ, ◌+◌, ◌≤◌, ◌<◌, eqb, length};
ghost use Rattle.columns.specs.Lists.{◌!◌, total, any};
ghost use Rattle.edge_append.specs.Held.{SlotsIn};
ghost use Rattle.need_weak.specs.Pairs.{Few, weak_at, plain_weak, most_pairs, most_weak};

// The weak slots of the first `count` from `first` on.
fn slots(slot_weak: &[u8], first: usize, count: usize) -> usize
    requires { first + count ≤ length slot_weak.now }
    ensures { Few (total (weak_at slot_weak.now first) count) count result }
{
    slot_weak[first..first + count]
        .iter()
        .filter(|weak| **weak == 1)
        .count()
}

// Whether a class is of kind none and may have a weak slot: one that has no range of slots inside the table may.
fn class_weak(
    class_kinds: &[u8],
    slot_starts: &[u32],
    slot_ends: &[u32],
    slot_weak: &[u8],
    class: usize,
) -> bool
    requires { class < length class_kinds.now }
    ensures { result ≡ plain_weak class_kinds.now slot_starts.now slot_ends.now slot_weak.now class }
{
    if class_kinds[class] != rules::RefKind::None as u8 {
        return false;
    }
    if slot_starts.len() <= class {
        return true;
    }
    if slot_ends.len() <= class {
        return true;
    }
    let first = columns::index(slot_starts[class]);
    let last = columns::index(slot_ends[class]);
    if last < first {
        return true;
    }
    if slot_weak.len() < last {
        return true;
    }
    0 < slots(slot_weak, first, last - first)
}

// Whether any class is: hardly ever, and then most instances need no look at their slots.
fn plain_weak(class_kinds: &[u8], slot_starts: &[u32], slot_ends: &[u32], slot_weak: &[u8]) -> bool
    ensures { result ≡ any (plain_weak class_kinds.now slot_starts.now slot_ends.now slot_weak.now) (length class_kinds.now) }
{
    for class in 0..class_kinds.len() {
        if class_weak(class_kinds, slot_starts, slot_ends, slot_weak, class) {
            return true;
        }
    }
    false
}

// Whether a class's slots need no look: its kind is none, and no class of that kind may have a weak slot.
fn is_plain(mixed: bool, class_kind: u8) -> bool
    ensures { result ≡ cond (eqb class_kind 0) (not mixed) false }
{
    if class_kind == rules::RefKind::None as u8 {
        !mixed
    } else {
        false
    }
}

// Those of one object: none unless it is an instance, none where its class's slots need no look, and none where its class's kind is kept.
fn object(
    class_kinds: &[u8],
    slot_starts: &[u32],
    slot_ends: &[u32],
    slot_weak: &[u8],
    policy: rules::ReferencePolicy,
    mixed: bool,
    kind: u8,
    class: usize,
) -> usize
    requires slots_in { SlotsIn class_kinds.now slot_starts.now slot_ends.now (length slot_weak.now) (length slot_weak.now) kind class 0 }
    requires mixed_value { mixed ≡ any (plain_weak class_kinds.now slot_starts.now slot_ends.now slot_weak.now) (length class_kinds.now) }
    ensures { Few (most_pairs class_kinds.now slot_starts.now slot_ends.now slot_weak.now policy kind class) (length slot_weak.now) result }
{
    if kind != rules::Kind::Instance as u8 {
        return 0;
    }
    if is_plain(mixed, class_kinds[class]) {
        return 0;
    }
    if policy.keeps(class_kinds[class]) {
        return 0;
    }
    let first = columns::index(slot_starts[class]);
    let count = columns::index(slot_ends[class]) - first;
    slots(slot_weak, first, count)
}

// The need of buffer 2 is no more.
pub fn most_weak(
    kinds: &[u8],
    classes: &[u32],
    class_kinds: &[u8],
    slot_starts: &[u32],
    slot_ends: &[u32],
    slot_weak: &[u8],
    policy: rules::ReferencePolicy,
) -> usize
    requires kinds_len_bound { (length kinds.now ≤ 67108864) × (length kinds.now ≤ length classes.now) × (length slot_weak.now ≤ 268435456) }
    requires by_index { (o : ℕ) → o < length kinds.now → SlotsIn class_kinds.now slot_starts.now slot_ends.now (length slot_weak.now)
        (length slot_weak.now) (kinds.now ! o) (classes.now ! o) 0 }
    ensures { result ≡ most_weak kinds.now classes.now class_kinds.now slot_starts.now slot_ends.now slot_weak.now policy (length kinds.now) }
{
    let mixed = plain_weak(class_kinds, slot_starts, slot_ends, slot_weak);
    let mut n: usize = 0;
    for o in 0..kinds.len() {
        n += object(
            class_kinds,
            slot_starts,
            slot_ends,
            slot_weak,
            policy,
            mixed,
            kinds[o],
            columns::index(classes[o]),
        );
    }
    n
}
