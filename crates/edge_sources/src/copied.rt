// The slots of an instance and the elements of an array by the copied route: their ids stand in order in the codes.
ghost use Rattle.std.specs.Prelude.{◌≡◌, ◌+◌, ◌^◌, ◌≤◌, ◌<◌, length};
ghost use Rattle.columns.specs.Lists.{tab};
ghost use Rattle.columns.specs.Ranks.{Rises};
ghost use Rattle.index.specs.Copied.{ids_of};
ghost use Rattle.rules.specs.Input.{copied_id};
ghost use Rattle.edge_append.specs.Append.{EdgeRoom, Appended};
ghost use Rattle.edge_append.specs.Held.{copied_slot, copied_element, SlotsIn, copied_slots, copied_elements};

use super::held;
use super::held::CopiedIds;
use edge_append::Pass;

// The id at a place; 0 where nothing reads back, which no accepted input meets.
pub fn id_held(
    codes: &[u32],
    escape_places: &[u64],
    escape_ids: &[u64],
    base: u64,
    place: usize,
) -> u64
    ensures { result ≡ copied_id (ids_of codes.now escape_places.now escape_ids.now base) place }
{
    index::id_at(codes, escape_places, escape_ids, base, place).unwrap_or(0)
}

// The slots of an object, none unless it is an instance: "class is read for instances only".
pub fn object_slots(
    s: Pass,
    start: usize,
    row: usize,
    kind: u8,
    class: usize,
    ids: &[u64],
    class_kinds: &[u8],
    slot_starts: &[u32],
    slot_ends: &[u32],
    slot_labels: &[u32],
    slot_weak: &[u8],
    codes: &[u32],
    escape_places: &[u64],
    escape_ids: &[u64],
    base: u64,
    policy: rules::ReferencePolicy,
    short: &[u16],
    scale: u32,
    targets: &mut [u32],
    labels: &mut [u32],
    weak_to: &mut [u32],
) -> Pass
    requires rises { Rises escape_places.now }
    requires slots_in { SlotsIn class_kinds.now slot_starts.now slot_ends.now (length slot_labels.now) (length slot_weak.now) kind class start }
    requires edge_room { EdgeRoom ids.now (copied_slots (ids_of codes.now escape_places.now escape_ids.now base) start class_kinds.now slot_starts.now
        slot_ends.now slot_labels.now slot_weak.now policy kind class) s (length targets.old) (length labels.old) (length weak_to.old) }
    ensures { Appended ids.now (copied_slots (ids_of codes.now escape_places.now escape_ids.now base) start class_kinds.now
        slot_starts.now slot_ends.now slot_labels.now slot_weak.now policy kind class) s result targets.old labels.old weak_to.old
        targets.new labels.new weak_to.new }
{
    if kind != rules::Kind::Instance as u8 {
        return s;
    }
    let keeps = policy.keeps(class_kinds[class]);
    let first = columns::index(slot_starts[class]);
    let count = columns::index(slot_ends[class]) - first;
    let read = CopiedIds {
        codes,
        escape_places,
        escape_ids,
        base,
        start,
        row,
    };
    held::slots(
        s,
        read,
        keeps,
        first,
        count,
        ids,
        slot_labels,
        slot_weak,
        short,
        scale,
        targets,
        labels,
        weak_to,
    )
}

// The elements of an object, none unless it is an array of objects.
pub fn object_elements(
    s: Pass,
    start: usize,
    row: usize,
    kind: u8,
    count: usize,
    ids: &[u64],
    codes: &[u32],
    escape_places: &[u64],
    escape_ids: &[u64],
    base: u64,
    short: &[u16],
    scale: u32,
    targets: &mut [u32],
    labels: &mut [u32],
    weak_to: &mut [u32],
) -> Pass
    requires rises { Rises escape_places.now }
    requires count_bound { kind ≡ 1 → (count ≤ 2 ^ 31) × (start + count < 2 ^ 64) }
    requires edge_room { EdgeRoom ids.now (copied_elements (ids_of codes.now escape_places.now escape_ids.now base) start kind count) s (length targets.old)
        (length labels.old) (length weak_to.old) }
    ensures { Appended ids.now (copied_elements (ids_of codes.now escape_places.now escape_ids.now base) start kind count) s result
        targets.old labels.old weak_to.old targets.new labels.new weak_to.new }
{
    if kind != rules::Kind::ObjectArray as u8 {
        return s;
    }
    let read = CopiedIds {
        codes,
        escape_places,
        escape_ids,
        base,
        start,
        row,
    };
    held::elements(s, read, count, ids, short, scale, targets, labels, weak_to)
}
