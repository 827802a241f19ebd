// PARTS: column after column.
ghost use Rattle.std.specs.Prelude.{◌≡◌, [], ◌∷◌, length};
ghost use Rattle.labels.specs.Coding.{LaidOut};
ghost use Rattle.rules.specs.Types.{checked_says};
ghost use Rattle.rules.specs.Verdict.{first_of};
ghost use Rattle.rules.specs.Parts.{parts_faults};
ghost use Rattle.check_parts.specs.Checks.{handed, end_faults, edge_faults};

use crate::{edges, ends, offsets};
use check_tables::objects;
use rules::Refusal;

fn refused(column: usize, position: usize) -> Result<usize, Refusal>
    ensures { checked_says result ≡ 10 ∷ column ∷ position ∷ [] }
{
    Err(Refusal::Parts { column, position })
}

// Columns 4 and 5.
fn judge_ends(
    objects: usize,
    edges: usize,
    weak_from: &[u32],
    weak_to: &[u32],
    roots: &[u32],
) -> Result<usize, Refusal>
    requires { length weak_to.now ≡ length weak_from.now }
    ensures { checked_says result ≡ first_of (end_faults objects weak_from.now weak_to.now roots.now) (0 ∷ edges ∷ []) }
{
    let i = ends::first_pair(weak_from, weak_to, objects);
    if i < weak_from.len() {
        return refused(4, i);
    }
    let j = objects::first_root(roots, objects);
    if j < roots.len() {
        return refused(5, j);
    }
    Ok(edges)
}

// Columns 2 and 3, and those behind them.
fn judge_edges(
    names: usize,
    offsets: &[u64],
    targets: &[u32],
    labels: &[u32],
    weak_from: &[u32],
    weak_to: &[u32],
    roots: &[u32],
) -> Result<usize, Refusal>
    requires laid_out { LaidOut offsets.now (length labels.now) }
    requires weak_to_len { length weak_to.now ≡ length weak_from.now }
    ensures { let columns = handed offsets.now targets.now labels.now weak_from.now weak_to.now roots.now in
        checked_says result ≡ first_of (edge_faults names columns) (0 ∷ length labels.now ∷ []) }
{
    let objects = offsets::object_count(offsets.len());
    if let Some(p) = edges::first_label(names, offsets, labels) {
        return refused(2, p);
    }
    if let Some(p) = check_edge::first_target(targets, labels.len(), objects) {
        return refused(3, p);
    }
    judge_ends(objects, labels.len(), weak_from, weak_to, roots)
}

// All columns.
pub(crate) fn judge_parts(
    names: usize,
    offsets: &[u64],
    targets: &[u32],
    labels: &[u32],
    weak_from: &[u32],
    weak_to: &[u32],
    roots: &[u32],
) -> Result<usize, Refusal>
    requires { length weak_to.now ≡ length weak_from.now }
    ensures { let columns = handed offsets.now targets.now labels.now weak_from.now weak_to.now roots.now in
        checked_says result ≡ first_of (parts_faults names columns) (0 ∷ length labels.now ∷ []) }
{
    if let Some(p) = offsets::first_offset(offsets, labels.len()) {
        return refused(1, p);
    }
    judge_edges(names, offsets, targets, labels, weak_from, weak_to, roots)
}
