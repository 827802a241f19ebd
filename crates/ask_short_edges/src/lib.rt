// All edges of an object by the short columns alone, without the long offsets and the escapes, which few objects need. The answer is one number: 0 says only
// that the whole question is to be asked (`ask_edges`). So a host that asks here first lends few columns.
#![tactic(auto)]

ghost use Rattle.std.specs.Prelude.{◌≡◌, ◌≤◌, [], cond, leb, length};
ghost use Rattle.columns.specs.Columns.{cleared};
ghost use Rattle.ask_edges.specs.Read.{read_edge_says, with_label};
ghost use Rattle.ask_edges.specs.Object.{edges_found};
ghost use Rattle.ask_short.specs.Lean.{plain_back, lean_in};
ghost use Rattle.ask_short_edges.specs.Replied.{EdgesReplied, ShortSettled};

use ask_edges::{ReadEdge, read_edges};
use ask_short::Lean;
use ask_short::label::read_code;
use labels::Unread;
use rules::Span;

// An edge by its target and its code: the target is one of so many objects, and an element has the index `next` at least.
fn plain_edge(
    target: u32,
    code: u16,
    next: u32,
    fields: &[u32],
    objects: usize,
) -> Result<ReadEdge, Unread>
    ensures { read_edge_says result ≡ cond (leb objects target) [] (with_label target (plain_back fields.now next code)) }
{
    if objects <= columns::index(target) {
        return Err(Unread);
    }
    let label = read_code(code, next, fields)?;
    Ok(ReadEdge { target, label })
}

// Clears both columns.
fn refuse(own_targets: &mut [u32], own_labels: &mut [u32]) -> u64
    ensures { (result ≡ 0) × (own_targets.new ≡ cleared 0 own_targets.old) × (own_labels.new ≡ cleared 0 own_labels.old) }
{
    columns::zero(own_targets, 0);
    columns::zero(own_labels, 0);
    0
}

// Clears the ends behind so many edges, or all where fewer were read: 2 more than there are, or 0.
fn settle(count: usize, read: usize, own_targets: &mut [u32], own_labels: &mut [u32]) -> u64
    requires { count ≤ length own_targets.old }
    ensures { ShortSettled count read result own_targets.old own_labels.old own_targets.new own_labels.new }
{
    if read < count {
        return refuse(own_targets, own_labels);
    }
    columns::zero(own_targets, count);
    columns::zero(own_labels, count);
    count as u64 + 2
}

// The targets and the exact labels of all edges of an object, as `ask_edges::object_edges` gives them.
pub fn object_edges(
    graph: Lean<'_>,
    object: usize,
    own_targets: &mut [u32],
    own_labels: &mut [u32],
) -> u64
    ensures { EdgesReplied (edges_found (lean_in graph.entry) object (length own_targets.old) (length own_labels.old)) result own_targets.new own_labels.new }
{
    let Ok(Span { start, end }) = graph.span(object) else {
        return refuse(own_targets, own_labels);
    };
    let count = end - start;
    if own_targets.len() < count {
        return refuse(own_targets, own_labels);
    }
    if own_labels.len() < count {
        return refuse(own_targets, own_labels);
    }
    let objects = graph.short.len() - 1;
    let read = read_edges(count, count, own_targets, own_labels, |k, next| {
        let edge = start + k;
        plain_edge(
            graph.targets[edge],
            graph.codes[edge],
            next,
            graph.fields,
            objects,
        )
    });
    settle(count, read, own_targets, own_labels)
}
