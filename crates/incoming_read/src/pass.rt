// One pass over all offsets.
ghost use Rattle.std.specs.Prelude.{◌≡◌, ◌≤◌, false, [], ◌∷◌, length};
ghost use Rattle.store_read.specs.Back.{blocked_in, read_back};
ghost use Rattle.incoming_read.specs.Unread.{SpansRead};

use super::checks;
use ask_span::Strong;

// Of spans that all read: whether each is narrow, where the first begins and where the last ends.
#[derive(Clone, Copy)]
pub struct Spans {
    pub narrow: bool,
    pub start: usize,
    pub end: usize,
}

// Looks at the spans of few enough objects, behind the first offset. A span ends where the next begins.
pub(crate) fn spans_from(graph: Strong<'_>, start: u64) -> Option<Spans>
    requires in_bounds { (2 ≤ length graph.offsets.short.now) × (length graph.offsets.short.now ≤ 67108865) }
    requires long_value_value { read_back (blocked_in graph.offsets) 0 ≡ 0 ∷ start ∷ [] }
    ensures { let g = graph.entry in SpansRead (blocked_in g.offsets) (length g.labels.codes.now) (length g.targets.now) result }
{
    let limit = checks::span_limit(graph.labels.codes.len(), graph.targets.len());
    let mut last = start;
    let mut narrow = true;
    for o in 0..graph.offsets.short.len() - 1 {
        let end = graph.offsets.at(o + 1).ok()?;
        if end < last || limit < end {
            return None;
        }
        narrow = checks::still_narrow(narrow, end - last);
        last = end;
    }
    Some(Spans {
        narrow,
        start: start as usize,
        end: last as usize,
    })
}
