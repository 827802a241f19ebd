// The labels of an object's edges: coarse and exact by the edge's number, and exact by its target.
#![tactic(auto)]

ghost use Rattle.std.specs.Prelude.{◌≡◌};
ghost use Rattle.rules.specs.Types.{coarse_says, exact_says, label_of_says};
ghost use Rattle.ask_span.specs.Graph.{strong_in};
ghost use Rattle.ask_label.specs.Labelled.{coarse_at, ExactAt, LabelTo};

use ask_edge::{label_answer, with_edge};
pub use ask_edge::{first_to, target_answer};
use ask_span::Strong;
use rules::{Label, ReadError};

// The field label of an edge of an object, or just `ARRAY_ELEMENT` for an element.
pub fn coarse_label(graph: Strong<'_>, object: usize, edge: usize) -> Result<Label, ReadError>
    ensures { coarse_says result ≡ coarse_at (strong_in graph.entry) object edge }
{
    let whole = graph.span(object);
    let at = with_edge(whole, edge)?;
    let label = graph.labels.coarse(at.start + edge);
    label_answer(label, object)
}

// The label of an edge of an object, an element's with its index.
pub fn exact_label(graph: Strong<'_>, object: usize, edge: usize) -> Result<Label, ReadError>
    ensures { ExactAt (strong_in graph.entry) object edge (exact_says result) }
{
    let whole = graph.span(object);
    let at = with_edge(whole, edge)?;
    let label = ask_late::exact(graph.labels, at.start, edge);
    label_answer(label, object)
}

// The exact label of an object's first edge to a target. A target that is no object is not found.
pub fn label_of(graph: Strong<'_>, object: usize, target: u32) -> Result<Option<Label>, ReadError>
    ensures { LabelTo (strong_in graph.entry) object target (label_of_says result) }
{
    let at = graph.span(object)?;
    let count = at.end - at.start;
    let edge = first_to(graph.targets, at.start, count, target);
    if count <= edge {
        return Ok(None);
    }
    let label = ask_late::exact(graph.labels, at.start, edge);
    target_answer(label, object)
}
