// One reference appended: its id is looked up once, and what becomes of it is written where it finally stands, so that no hole is ever made.
ghost use Rattle.std.specs.Prelude.{◌≡◌, [], ◌∷◌, ◌^◌, ◌<◌, length};
ghost use Rattle.edge_append.specs.Append.{ref_of, EdgeRoom, Appended};
ghost use Rattle.edge_append.specs.Held.{slot_with, element_with};

use super::Pass;
use edge_weak::is_kept;

// The four kinds of references, as the rows of the account.
#[derive(Clone, Copy)]
pub enum Source {
    Slot,
    Element,
    Static,
    Loader,
}

pub fn narrow(x: usize) -> u32
    requires { x < 2 ^ 32 }
    ensures { result ≡ x }
{
    x as u32
}

// "Id 0 gives nothing. Found and kept: an edge with the slot's label. Found, not kept: a weak pair. Not found: dangling, kept or not." But "a missing
// loader is not". The hints say where the search starts, and nothing else.
pub fn append(
    s: Pass,
    kind: usize,
    label: u32,
    kept: bool,
    id: u64,
    ids: &[u64],
    short: &[u16],
    scale: u32,
    targets: &mut [u32],
    labels: &mut [u32],
    weak_to: &mut [u32],
) -> Pass
    requires { EdgeRoom ids.now (ref_of kind label kept id ∷ []) s (length targets.old) (length labels.old) (length weak_to.old) }
    ensures { Appended ids.now (ref_of kind label kept id ∷ []) s result targets.old labels.old weak_to.old targets.new labels.new weak_to.new }
{
    if id == 0 {
        return s;
    }
    match lookup_hints::find_hinted(ids, id, short, scale) {
        Ok(t) => {
            if kept {
                let at = s.edges;
                targets[at] = narrow(t);
                labels[at] = label;
                return s.absorb_found();
            }
            let at = s.weak;
            weak_to[at] = narrow(t);
            s.absorb_weak()
        }
        Err(_) => {
            if kind < Source::Loader as usize {
                return s.absorb_missing();
            }
            s
        }
    }
}

// The slot at a place of the slot columns.
pub fn append_slot(
    s: Pass,
    keeps: bool,
    place: usize,
    id: u64,
    ids: &[u64],
    slot_labels: &[u32],
    slot_weak: &[u8],
    short: &[u16],
    scale: u32,
    targets: &mut [u32],
    labels: &mut [u32],
    weak_to: &mut [u32],
) -> Pass
    requires place_in_bounds { (place < length slot_labels.now) × (place < length slot_weak.now) }
    requires edge_room { EdgeRoom ids.now (slot_with slot_labels.now slot_weak.now keeps place id ∷ []) s (length targets.old) (length labels.old) (length weak_to.old) }
    ensures { Appended ids.now (slot_with slot_labels.now slot_weak.now keeps place id ∷ []) s result targets.old labels.old
        weak_to.old targets.new labels.new weak_to.new }
{
    let kept = is_kept(slot_weak[place], keeps);
    append(
        s,
        Source::Slot as usize,
        slot_labels[place],
        kept,
        id,
        ids,
        short,
        scale,
        targets,
        labels,
        weak_to,
    )
}

// Element k of an array.
pub fn append_element(
    s: Pass,
    k: usize,
    id: u64,
    ids: &[u64],
    short: &[u16],
    scale: u32,
    targets: &mut [u32],
    labels: &mut [u32],
    weak_to: &mut [u32],
) -> Pass
    requires k_bound { k < 2 ^ 31 }
    requires edge_room { EdgeRoom ids.now (element_with k id ∷ []) s (length targets.old) (length labels.old) (length weak_to.old) }
    ensures { Appended ids.now (element_with k id ∷ []) s result targets.old labels.old weak_to.old targets.new labels.new weak_to.new }
{
    let label = rules::Label::element(narrow(k));
    append(
        s,
        Source::Element as usize,
        label.0,
        true,
        id,
        ids,
        short,
        scale,
        targets,
        labels,
        weak_to,
    )
}
