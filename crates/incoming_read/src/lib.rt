// Which objects of finished columns cannot be read back: the lowest, exactly; and quick tests that leave no doubt on most columns.
#![tactic(auto)]

mod checks;
mod object;
pub mod pass;
mod walk;

ghost use Rattle.std.specs.Prelude.{◌≡◌, ◌≤◌, [], length};
ghost use Rattle.store_read.specs.Back.{blocked_in};
ghost use Rattle.labels.specs.Reading.{coded_of};
ghost use Rattle.ask_span.specs.Graph.{strong_in};
ghost use Rattle.incoming_read.specs.Unread.{first_unread, lists_rise, SpansRead, codes_plain};

use ask_span::Strong;
use pass::Spans;

// Whether the long and escape lists rise, and are columns of one table each.
#[tactic(auto, unfolding(crate::specs::Unread::lists_rise, columns::specs::Lists::all_of))]
pub fn lists_rise(graph: Strong<'_>) -> bool
    ensures { let g = graph.entry in
        result ≡ lists_rise g.offsets.long_at.now g.offsets.long_value.now g.labels.escape_at.now g.labels.escape_label.now }
{
    graph.offsets.long_at.len() == graph.offsets.long_value.len()
        && graph.labels.escape_at.len() == graph.labels.escape_label.len()
        && checks::rises(graph.offsets.long_at)
        && checks::rises(graph.labels.escape_at)
}

// The lowest object that cannot be read back, or how many objects there are. Where a list does not rise none can be.
pub fn first_unread(graph: Strong<'_>) -> usize
    ensures { result ≡ first_unread (strong_in graph.entry) }
{
    if !lists_rise(graph) {
        return 0;
    }
    let objects = graph.offsets.short.len().saturating_sub(1);
    for o in 0..objects {
        if !object::reads(graph, o) {
            return o;
        }
    }
    objects
}

// Looks at the spans of all objects, reading each offset once; none where one does not read.
pub fn spans(graph: Strong<'_>) -> Option<Spans>
    requires { 2 ≤ length graph.offsets.short.now }
    ensures { let g = graph.entry in SpansRead (blocked_in g.offsets) (length g.labels.codes.now) (length g.targets.now) result }
{
    if 67108865 < graph.offsets.short.len() {
        return None;
    }
    let start = graph.offsets.at(0).ok()?;
    pass::spans_from(graph, start)
}

// Whether the codes from one place up to another ask for no row, and no field has an element's label.
pub fn codes_plain(edge_codes: &[u16], fields: &[u32], start: usize, end: usize) -> bool
    requires { (start ≤ end) × (end ≤ length edge_codes.now) }
    ensures { result ≡ codes_plain (coded_of edge_codes.now fields.now [] []) start end }
{
    checks::all_plain(&edge_codes[start..end], checks::field_limit(fields.len()))
        && checks::all_fields(fields)
}
