// The steps of counting places that have little to read: one slot or element, all parts, and whether these stand one behind the other. `check_places` counts by
// them.
#![tactic(auto)]

ghost use Rattle.std.specs.Prelude.{◌≡◌, true, not, ◌≤◌, eqb, length};
ghost use Rattle.columns.specs.Lists.{one, total};
ghost use Rattle.check_ids.specs.Copying.{held_codes};
ghost use Rattle.check_place_steps.specs.Place.{part_at, slot_held, codes_in, PartTables, PartsIn};

use check_ids::spans;

// How many places a slot has: one where its code is not 0 and it is kept or not weak.
#[tactic(auto, unfolding(crate::specs::Place::slot_held, columns::specs::Lists::any_of, columns::specs::Lists::all_of))]
pub fn one_slot(kept: bool, weak: u8, code: u32) -> u64
    ensures { result ≡ one (slot_held kept weak code) }
{
    u64::from((kept || weak != 1) && code != 0)
}

// All slots and elements. Each part has fewer than 2^32, so that the sum stays below 2^64.
pub fn count_parts(
    kinds: &[u8],
    classes: &[u32],
    lengths: &[u32],
    slot_starts: &[u32],
    slot_ends: &[u32],
) -> u64
    requires { PartTables kinds.now classes.now lengths.now slot_starts.now slot_ends.now }
    ensures value { result ≡ total (part_at kinds.now classes.now lengths.now slot_starts.now slot_ends.now) (length kinds.now) }
    ensures upper_bound { result ≤ 288230376151711744 }
{
    let mut sum: u64 = 0;
    for o in 0..kinds.len() {
        let part = spans::part_of(kinds[o], classes[o], lengths[o], slot_starts, slot_ends);
        sum += u64::from(part);
    }
    sum
}

// The objects' parts stand in the codes one behind the other: no code is in two of them, so that all parts hold no more than the codes do.
pub fn in_order(
    kinds: &[u8],
    classes: &[u32],
    lengths: &[u32],
    slot_starts: &[u32],
    slot_ends: &[u32],
    codes: &[u32],
    starts: &[u32],
) -> bool
    requires { PartsIn kinds.now classes.now lengths.now slot_starts.now slot_ends.now starts.now (length codes.now) }
    ensures { result ≡ true → total (codes_in kinds.now classes.now lengths.now slot_starts.now slot_ends.now
        codes.now starts.now) (length kinds.now) ≤ held_codes codes.now }
{
    let mut end = 0;
    for o in 0..kinds.len() {
        let part = spans::part_of(kinds[o], classes[o], lengths[o], slot_starts, slot_ends);
        if part == 0 {
            continue;
        }
        let start = columns::index(starts[o]);
        if start < end {
            return false;
        }
        end = start + columns::index(part);
    }
    true
}
