// All edges of an object at once. The caller lends two columns and keeps no state between calls, so there is none to get wrong.
ghost use Rattle.std.specs.Prelude.{◌≡◌, ℕ, ◌<◌, ◌≤◌, List, length};
ghost use Rattle.rules.specs.Types.{object_edges_says};
ghost use Rattle.rules.specs.Labels.{Coded};
ghost use Rattle.ask_span.specs.Graph.{strong_in};
ghost use Rattle.ask_edges.specs.Object.{edges_found, left_edges, ReadsEdges, OwnRead};

use ask_reader::own::{judge, room_for, settle};
use ask_reader::{Edges, ReadEdge, edge_at};
use ask_span::Strong;
use labels::Unread;
use labels::code::after;
use rules::{ListError, Span};

// Reads so many edges in order, and writes those that have room: how many were read before one that cannot be. `read` reads the one at a position, where an
// element has the index `next` at least. Compiled into each of its callers.
#[inline(always)]
pub fn read_edges<R: Fn(usize, u32) -> Result<ReadEdge, Unread>>(
    count: usize,
    room: usize,
    own_targets: &mut [u32],
    own_labels: &mut [u32],
    read: R,
) -> usize
    requires room_in_bounds { (room ≤ length own_targets.old) × (room ≤ length own_labels.old) }
    requires may_read { (k next : ℕ) → k < count → R.pre read k next }
    ensures { (objects : ℕ) (ts : List ℕ) (d : Coded) (e : ℕ) → ReadsEdges (R.post read) objects ts d e count
        → OwnRead objects ts d e count room result own_targets.old own_labels.old own_targets.new own_labels.new }
{
    let mut next = 0;
    for k in 0..count {
        let Ok(edge) = read(k, next) else {
            return k;
        };
        if k < room {
            own_targets[k] = edge.target;
            own_labels[k] = edge.label.0;
        }
        next = after(edge.label.0, next);
    }
    count
}

// The targets and the exact labels of all edges of an object, from the front of the columns lent: how many they are. Zeros stand behind them; after a refusal
// both columns are zero.
pub fn object_edges(
    graph: Strong<'_>,
    object: usize,
    own_targets: &mut [u32],
    own_labels: &mut [u32],
) -> Result<usize, ListError>
    ensures { left_edges (object_edges_says result) own_targets.new own_labels.new
        ≡ edges_found (strong_in graph.entry) object (length own_targets.old) (length own_labels.old) }
{
    match graph.span(object) {
        Ok(Span { start, end }) => {
            let count = end - start;
            let objects = graph.offsets.short.len() - 1;
            let room = room_for(count, own_targets.len(), own_labels.len());
            let targets = &graph.targets[start..end];
            let codes = &graph.labels.codes[start..end];
            let read = read_edges(count, room, own_targets, own_labels, |k, next| {
                let reader = Edges {
                    targets,
                    codes,
                    at: k,
                };
                edge_at(reader, graph.labels, start + k, next, objects)
            });
            let answer = judge(count, read, room, object);
            settle(answer, own_targets, own_labels)
        }
        Err(e) => settle(Err(ListError::from(e)), own_targets, own_labels),
    }
}
