// The checks behind those of the tables: copied ids, parts and roots.
ghost use Rattle.std.specs.Prelude.{◌≡◌, [], ◌∷◌, length, ◌≤◌};
ghost use Rattle.rules.specs.Types.{checked_says};
ghost use Rattle.rules.specs.Verdict.{first_of};
ghost use Rattle.check_ids.specs.Copying.{held_codes};
ghost use Rattle.check_input.specs.Flat.{late_columns, late_raw, faults_late, passed_says};

use check_ids::{copied, spans};
use check_tables::objects;
use rules::Refusal;

// The checks behind those of the tables: the copied ids, the parts, the roots. Where they accept, they tell how many codes are not 0.
pub(crate) fn judge_ids(
    ids: &[u64],
    kinds: &[u8],
    classes: &[u32],
    lengths: &[u32],
    slot_starts: &[u32],
    slot_ends: &[u32],
    codes: &[u32],
    escape_places: &[u64],
    escape_ids: &[u64],
    base: u64,
    starts: &[u32],
    roots: &[u32],
) -> Result<usize, Refusal>
    requires kinds_len { length kinds.now ≡ length ids.now }
    requires classes_len { length classes.now ≡ length ids.now }
    requires lengths_len { length lengths.now ≡ length ids.now }
    requires starts_len { length starts.now ≡ length ids.now }
    requires slot_ends_len { length slot_ends.now ≡ length slot_starts.now }
    requires escape_ids_len { length escape_ids.now ≡ length escape_places.now }
    ensures { let columns = late_columns ids.now kinds.now classes.now lengths.now slot_starts.now slot_ends.now
        codes.now escape_places.now escape_ids.now base starts.now roots.now in
        checked_says result ≡ first_of (faults_late columns) (0 ∷ held_codes codes.now ∷ []) }
{
    let held = copied::first_copied(codes, escape_places, escape_ids, base).map_err(
        Refusal::Copied,
    )?;
    let o = spans::first_copied_span(
        kinds,
        classes,
        lengths,
        slot_starts,
        slot_ends,
        codes,
        starts,
    );
    if o < ids.len() {
        return Err(Refusal::Span(o));
    }
    let i = objects::first_root(roots, ids.len());
    if i < roots.len() {
        return Err(Refusal::Root(i));
    }
    Ok(held)
}

// The checks behind those of the tables: the bodies, the roots.
pub(crate) fn judge_bodies(
    ids: &[u64],
    kinds: &[u8],
    lengths: &[u32],
    bytes: &[u8],
    size: usize,
    starts: &[u64],
    bodies: &[u32],
    roots: &[u32],
) -> Result<(), Refusal>
    requires kinds_len { length kinds.now ≡ length ids.now }
    requires lengths_len { length lengths.now ≡ length ids.now }
    requires starts_len { length starts.now ≡ length ids.now }
    requires bodies_len { length bodies.now ≡ length ids.now }
    requires size_bound { size ≤ 8 }
    ensures { passed_says result ≡ first_of (faults_late (late_raw ids.now kinds.now lengths.now starts.now bodies.now bytes.now roots.now size)) (0 ∷ 0 ∷ []) }
{
    let o = spans::first_raw_span(kinds, lengths, bytes, size, starts, bodies);
    if o < ids.len() {
        return Err(Refusal::Span(o));
    }
    let i = objects::first_root(roots, ids.len());
    if i < roots.len() {
        return Err(Refusal::Root(i));
    }
    Ok(())
}
