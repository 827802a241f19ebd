// Reading one object: its span, its targets, and its labels. Nothing is written.
ghost use Rattle.std.specs.Prelude.{◌≡◌, true, ◌-◌, ◌≤◌, ◌<◌, length};
ghost use Rattle.rules.specs.Incoming.{can_read};
ghost use Rattle.ask_span.specs.Graph.{strong_in};
ghost use Rattle.incoming_read.specs.Unread.{lists_rise};
ghost use Rattle.incoming_read.specs.Steps.{objects_only};

use super::walk;
use ask_span::Strong;

// Whether the targets from `start` up to `end` are among so many objects.
fn targets_are_objects(targets: &[u32], start: usize, end: usize, objects: usize) -> bool
    requires { (start ≤ end) × (end ≤ length targets.now) }
    ensures { result ≡ objects_only objects targets.now start (end - start) }
{
    targets[start..end]
        .iter()
        .all(|target| columns::index(*target) < objects)
}

// Whether an object can be read back, where the long and escape lists rise.
pub(crate) fn reads(graph: Strong<'_>, object: usize) -> bool
    requires escape_label_value { let g = graph in
        lists_rise g.offsets.long_at.now g.offsets.long_value.now g.labels.escape_at.now g.labels.escape_label.now ≡ true }
    requires object_in_bounds { object < length graph.offsets.short.now - 1 }
    ensures { result ≡ can_read (strong_in graph.entry) object }
{
    let Ok(at) = graph.span(object) else {
        return false;
    };
    if 67108864 <= object || 268435456 < at.end {
        return false;
    }
    targets_are_objects(
        graph.targets,
        at.start,
        at.end,
        graph.offsets.short.len() - 1,
    ) && walk::labels_read(graph.labels, at.start, at.end)
}
