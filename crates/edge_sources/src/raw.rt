// The slots of an instance and the elements of an array by the raw route: their ids are read from bodies, over the id size.
ghost use Rattle.std.specs.Prelude.{◌≡◌, ◌+◌, ◌*◌, ◌^◌, ◌≤◌, ◌<◌, length};
ghost use Rattle.columns.specs.Lists.{part, tab};
ghost use Rattle.rules.specs.Input.{big_endian};
ghost use Rattle.edge_append.specs.Append.{EdgeRoom, Appended};
ghost use Rattle.edge_append.specs.Held.{SlotsIn};
ghost use Rattle.edge_append.specs.Raw.{BodyIn, raw_slot, slots_read, raw_element, raw_slots, raw_elements};

use super::held;
use super::held::{RawElements, RawSlots};
use edge_append::Pass;

// The number that `size` bytes from `at` on write, highest byte first, one after another.
fn id_by_bytes(bytes: &[u8], at: usize, size: usize) -> u64
    requires { (at + size ≤ length bytes.now) × (size ≤ 8) }
    ensures { result ≡ big_endian 0 (part bytes.now at (at + size)) }
{
    let mut high: u64 = 0;
    for b in &bytes[at..at + size] {
        high = high * 256 + *b as u64;
    }
    high
}

// The number that the bytes from `at` on write, highest byte first. The two sizes that ids have are read without a loop.
pub fn id_at_bytes(bytes: &[u8], at: usize, size: usize) -> u64
    requires { (at + size ≤ length bytes.now) × (size ≤ 8) }
    ensures { result ≡ big_endian 0 (part bytes.now at (at + size)) }
{
    if size == 8 {
        return u64::from_be_bytes([
            bytes[at],
            bytes[at + 1],
            bytes[at + 2],
            bytes[at + 3],
            bytes[at + 4],
            bytes[at + 5],
            bytes[at + 6],
            bytes[at + 7],
        ]);
    }
    if size == 4 {
        return u64::from(u32::from_be_bytes([
            bytes[at],
            bytes[at + 1],
            bytes[at + 2],
            bytes[at + 3],
        ]));
    }
    id_by_bytes(bytes, at, size)
}

// The slots of an object, none unless it is an instance.
pub fn object_slots(
    s: Pass,
    start: usize,
    body: usize,
    kind: u8,
    class: usize,
    ids: &[u64],
    class_kinds: &[u8],
    slot_starts: &[u32],
    slot_ends: &[u32],
    slot_offsets: &[u32],
    slot_labels: &[u32],
    slot_weak: &[u8],
    bytes: &[u8],
    size: usize,
    policy: rules::ReferencePolicy,
    short: &[u16],
    scale: u32,
    targets: &mut [u32],
    labels: &mut [u32],
    weak_to: &mut [u32],
) -> Pass
    requires slots_in { SlotsIn class_kinds.now slot_starts.now slot_ends.now (length slot_labels.now) (length slot_weak.now) kind class 0 }
    requires slot_offsets_len { length slot_offsets.now ≡ length slot_labels.now }
    requires body_in { kind ≡ 0 → BodyIn (length bytes.now) size start body }
    requires edge_room { EdgeRoom ids.now (raw_slots bytes.now size start body class_kinds.now slot_starts.now slot_ends.now slot_offsets.now
        slot_labels.now slot_weak.now policy kind class) s (length targets.old) (length labels.old) (length weak_to.old) }
    ensures { Appended ids.now (raw_slots bytes.now size start body class_kinds.now slot_starts.now slot_ends.now
        slot_offsets.now slot_labels.now slot_weak.now policy kind class) s result targets.old labels.old weak_to.old targets.new
        labels.new weak_to.new }
{
    if kind != rules::Kind::Instance as u8 {
        return s;
    }
    let keeps = policy.keeps(class_kinds[class]);
    let first = columns::index(slot_starts[class]);
    let count = columns::index(slot_ends[class]) - first;
    let read = RawSlots {
        bytes,
        size,
        start,
        body,
        slot_offsets,
        first,
    };
    held::slots(
        s,
        read,
        keeps,
        first,
        count,
        ids,
        slot_labels,
        slot_weak,
        short,
        scale,
        targets,
        labels,
        weak_to,
    )
}

// The elements of an object, none unless it is an array of objects.
pub fn object_elements(
    s: Pass,
    start: usize,
    kind: u8,
    count: usize,
    ids: &[u64],
    bytes: &[u8],
    size: usize,
    short: &[u16],
    scale: u32,
    targets: &mut [u32],
    labels: &mut [u32],
    weak_to: &mut [u32],
) -> Pass
    requires count_bound { kind ≡ 1 → (count ≤ 2 ^ 31) × (size ≤ 8) × (start + count * size ≤ length bytes.now) }
    requires edge_room { EdgeRoom ids.now (raw_elements bytes.now size start kind count) s (length targets.old) (length labels.old) (length weak_to.old) }
    ensures { Appended ids.now (raw_elements bytes.now size start kind count) s result
        targets.old labels.old weak_to.old targets.new labels.new weak_to.new }
{
    if kind != rules::Kind::ObjectArray as u8 {
        return s;
    }
    let read = RawElements { bytes, size, start };
    held::elements(s, read, count, ids, short, scale, targets, labels, weak_to)
}
