// The ids that an object holds, in order, by either route: a reader says which id stands at each place, and slots and elements are appended from it.
ghost use Rattle.std.specs.Prelude.{◌≡◌, ℕ, ◌+◌, ◌*◌, ◌^◌, ◌≤◌, ◌<◌, Bool, true, length};
ghost use Rattle.columns.specs.Lists.{◌!◌};
ghost use Rattle.columns.specs.Ranks.{Rises};
ghost use Rattle.index.specs.Copied.{ids_of};
ghost use Rattle.rules.specs.Input.{copied_id};
ghost use Rattle.edge_append.specs.Append.{EdgeRoom, Appended};
ghost use Rattle.edge_append.specs.Raw.{BodyIn, bytes_id, slot_ends};
ghost use Rattle.edge_sources.specs.Ids.{held_slot, held_element, read_of};

use super::escape::id_from;
use super::raw::id_at_bytes;
use edge_append::{Pass, append};

pub trait Ids {
    // The id at a place; whether it stands inside, since reading stops at the first that does not; and what reading it asks.
    ghost id_at: { Self → ℕ → ℕ };

    ghost inside: { Self → ℕ → Bool };

    ghost can_read: { Self → ℕ → Type 0 };

    fn stands(&self, k: usize) -> bool
        requires { can_read self.now k }
        ensures { result ≡ inside self.now k };

    fn id(&mut self, k: usize) -> u64
        requires can { can_read self.old k }
        requires stands { inside self.old k ≡ true }
        ensures id { result ≡ id_at self.old k }
        ensures ids { id_at self.new ≡ id_at self.old }
        ensures insides { inside self.new ≡ inside self.old }
        ensures on { (j : ℕ) → can_read self.old j → can_read self.new j };
}

// By the copied route the ids of an object stand from `start` on; escapes are sought from row `row` on.
#[derive(Clone, Copy)]
pub struct CopiedIds<'a> {
    pub codes: &'a [u32],
    pub escape_places: &'a [u64],
    pub escape_ids: &'a [u64],
    pub base: u64,
    pub start: usize,
    pub row: usize,
}

impl<'a> Ids for CopiedIds<'a> {
    ghost id_at = { λ s k. copied_id (ids_of s.codes.now s.escape_places.now s.escape_ids.now s.base) (s.start + k) };

    ghost inside = { λ s k. true };

    ghost can_read = { λ s k. Rises s.escape_places.now × (s.start + k < 2 ^ 64) };

    fn stands(&self, k: usize) -> bool {
        true
    }

    fn id(&mut self, k: usize) -> u64 {
        let read = id_from(
            self.codes,
            self.escape_places,
            self.escape_ids,
            self.base,
            self.start + k,
            self.row,
        );
        self.row = read.row;
        read.id
    }
}

// By the raw route the slots from `first` on stand by their offsets in a body that begins at `start`: "reading stops at the first slot that ends past the
// body."
#[derive(Clone, Copy)]
pub struct RawSlots<'a> {
    pub bytes: &'a [u8],
    pub size: usize,
    pub start: usize,
    pub body: usize,
    pub slot_offsets: &'a [u32],
    pub first: usize,
}

impl<'a> Ids for RawSlots<'a> {
    ghost id_at = { λ s k. bytes_id s.bytes.now s.size (s.start + s.slot_offsets.now ! (s.first + k)) };

    ghost inside = { λ s k. slot_ends s.slot_offsets.now s.size s.body s.first k };

    ghost can_read = { λ s k. (s.first + k < length s.slot_offsets.now) × BodyIn (length s.bytes.now) s.size s.start s.body };

    fn stands(&self, k: usize) -> bool {
        columns::index(self.slot_offsets[self.first + k]) + self.size <= self.body
    }

    fn id(&mut self, k: usize) -> u64 {
        let spot = columns::index(self.slot_offsets[self.first + k]);
        id_at_bytes(self.bytes, self.start + spot, self.size)
    }
}

// The elements of an array stand one behind the other from `start` on.
#[derive(Clone, Copy)]
pub struct RawElements<'a> {
    pub bytes: &'a [u8],
    pub size: usize,
    pub start: usize,
}

impl<'a> Ids for RawElements<'a> {
    ghost id_at = { λ s k. bytes_id s.bytes.now s.size (s.start + k * s.size) };

    ghost inside = { λ s k. true };

    ghost can_read = { λ s k. (s.size ≤ 8) × (s.start + k * s.size + s.size ≤ length s.bytes.now) };

    fn stands(&self, k: usize) -> bool {
        true
    }

    fn id(&mut self, k: usize) -> u64 {
        id_at_bytes(self.bytes, self.start + k * self.size, self.size)
    }
}

// The first `count` slots from `first` on.
pub fn slots<I: Ids + Drop>(
    from: Pass,
    mut held: I,
    keeps: bool,
    first: usize,
    count: usize,
    ids: &[u64],
    slot_labels: &[u32],
    slot_weak: &[u8],
    short: &[u16],
    scale: u32,
    targets: &mut [u32],
    labels: &mut [u32],
    weak_to: &mut [u32],
) -> Pass
    requires count_in_bounds { (first + count ≤ length slot_labels.now) × (first + count ≤ length slot_weak.now) }
    requires can_read { (k : ℕ) → k < count → I.can_read held k }
    requires edge_room { EdgeRoom ids.now (read_of (held_slot (I.id_at held) slot_labels.now slot_weak.now keeps first) (I.inside held) count) from
        (length targets.old) (length labels.old) (length weak_to.old) }
    ensures { Appended ids.now (read_of (held_slot (I.id_at held) slot_labels.now slot_weak.now keeps first) (I.inside held) count) from result
        targets.old labels.old weak_to.old targets.new labels.new weak_to.new }
{
    let mut s = from;
    for k in 0..count {
        if !held.stands(k) {
            return s;
        }
        let id = held.id(k);
        s = append::append_slot(
            s,
            keeps,
            first + k,
            id,
            ids,
            slot_labels,
            slot_weak,
            short,
            scale,
            targets,
            labels,
            weak_to,
        );
    }
    s
}

// The first `count` elements of an array.
pub fn elements<I: Ids + Drop>(
    from: Pass,
    mut held: I,
    count: usize,
    ids: &[u64],
    short: &[u16],
    scale: u32,
    targets: &mut [u32],
    labels: &mut [u32],
    weak_to: &mut [u32],
) -> Pass
    requires count_bound { count ≤ 2 ^ 31 }
    requires can_read { (k : ℕ) → k < count → I.can_read held k }
    requires edge_room { EdgeRoom ids.now (read_of (held_element (I.id_at held)) (I.inside held) count) from
        (length targets.old) (length labels.old) (length weak_to.old) }
    ensures { Appended ids.now (read_of (held_element (I.id_at held)) (I.inside held) count) from result
        targets.old labels.old weak_to.old targets.new labels.new weak_to.new }
{
    let mut s = from;
    for k in 0..count {
        if !held.stands(k) {
            return s;
        }
        let id = held.id(k);
        s = append::append_element(s, k, id, ids, short, scale, targets, labels, weak_to);
    }
    s
}
