// One edge of an object: whether there is such an edge, the first one to a target, and a label that was read as an answer. `ask_label` asks with these.
#![tactic(auto)]

ghost use Rattle.std.specs.Prelude.{◌≡◌, ◌+◌, ◌≤◌, length};
ghost use Rattle.columns.specs.Lists.{first_place};
ghost use Rattle.rules.specs.Types.{span_says, exact_says, label_of_says};
ghost use Rattle.labels.specs.Reading.{read_says};
ghost use Rattle.ask_edge.specs.Edge.{edge_asked, or_columns, goes_to};

use labels::Unread;
use rules::{Label, ReadError, Span};

// The span of an object, where it has the edge asked; else INDEX with the edge.
pub fn with_edge(at: Result<Span, ReadError>, edge: usize) -> Result<Span, ReadError>
    ensures { span_says result ≡ edge_asked (span_says at) edge }
{
    let Span { start, end } = at?;
    if end <= start {
        return Err(ReadError::Index(edge));
    }
    if end - start <= edge {
        return Err(ReadError::Index(edge));
    }
    Ok(Span { start, end })
}

// The label of an edge, or COLUMNS with its object.
pub fn label_answer(label: Result<Label, Unread>, object: usize) -> Result<Label, ReadError>
    ensures { exact_says result ≡ or_columns object (read_says label) }
{
    label.map_err(|_| ReadError::Columns(object))
}

// The same of an edge that was found by its target.
pub fn target_answer(
    label: Result<Label, Unread>,
    object: usize,
) -> Result<Option<Label>, ReadError>
    ensures { label_of_says result ≡ or_columns object (read_says label) }
{
    label_answer(label, object).map(Some)
}

// The first of an object's edges that goes to a target; their number where none does.
pub fn first_to(targets: &[u32], start: usize, count: usize, target: u32) -> usize
    requires { start + count ≤ length targets.now }
    ensures { result ≡ first_place (goes_to targets.now start target) count }
{
    for k in 0..count {
        let edge = start + k;
        if targets[edge] == target {
            return k;
        }
    }
    count
}
