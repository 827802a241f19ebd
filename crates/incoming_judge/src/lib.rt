// The lowest object that cannot be read back, in most cases by quick tests; on the way the targets of all edges are counted.
#![tactic(auto)]

ghost use Rattle.std.specs.Prelude.{◌≡◌, ◌≤◌, length};
ghost use Rattle.columns.specs.Columns.{zeros};
ghost use Rattle.labels.specs.Reading.{coded_in};
ghost use Rattle.ask_span.specs.Graph.{strong_in};
ghost use Rattle.incoming_judge.specs.Judged.{Judged, Counted, no_doubt};

use ask_span::Strong;
use incoming_read::pass::Spans;

// Of the edges of these spans: all targets are objects, since counting stopped at the end, and the quick tests leave no doubt that the labels read.
#[tactic(auto, using(incoming_read::proofs::Quick::plain_alone), unfolding(crate::specs::Judged::no_doubt, columns::specs::Lists::all_of))]
fn no_doubt(graph: Strong<'_>, at: Spans, stop: usize) -> bool
    requires { (at.start ≤ at.end) × (at.end ≤ length graph.labels.codes.now) }
    ensures { let g = graph.entry in
        result ≡ no_doubt at.narrow g.offsets.long_at.now g.offsets.long_value.now (coded_in g.labels) at.start at.end stop }
{
    at.end <= stop
        && at.narrow
        && incoming_read::lists_rise(graph)
        && incoming_read::codes_plain(graph.labels.codes, graph.labels.fields, at.start, at.end)
}

// Of columns whose spans read: the targets of all edges are counted. Where a target is no object, or a label is in doubt, the edges are read one by one.
fn count(graph: Strong<'_>, at: Spans, working: &mut [u64]) -> usize
    requires working_value { working.old ≡ zeros (length working.old) }
    requires counted { Counted (strong_in graph) at.narrow at.start at.end }
    ensures { Judged (strong_in graph.entry) working.old result working.new }
{
    let objects = graph.offsets.short.len() - 1;
    let stop = inverse::tally(graph.targets, at.start, at.end, objects, working);
    if no_doubt(graph, at, stop) {
        return objects;
    }
    incoming_read::first_unread(graph)
}

// The lowest object that cannot be read back, or how many objects there are: then the targets of all edges are counted in `working`, one place up.
pub fn judge(graph: Strong<'_>, working: &mut [u64]) -> usize
    requires { working.old ≡ zeros (length working.old) }
    ensures { Judged (strong_in graph.entry) working.old result working.new }
{
    if graph.offsets.short.len() < 2 {
        return 0;
    }
    match incoming_read::spans(graph) {
        Some(at) => count(graph, at, working),
        None => incoming_read::first_unread(graph),
    }
}
