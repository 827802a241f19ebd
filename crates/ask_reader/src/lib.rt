// One object's edges, one at a time: a reader that holds the object's parts of the targets and of the codes and a position. The struct and the functions over it
// are thin, and leave the work to functions on slices and numbers. `ask_edges` passes the reader on, and has all edges at once.
#![tactic(auto)]

pub mod own;

ghost use Rattle.std.specs.Prelude.{◌≡◌};
ghost use Rattle.ask_reader.specs.Read.{step_at, read_edge_says, edge_back};

use labels::{Codes, Unread};
use rules::Label;

// `at` is the edge that is read next, counted from the object's first.
#[derive(Clone, Copy)]
pub struct Edges<'a, 'b> {
    pub targets: &'a [u32],
    pub codes: &'b [u16],
    pub at: usize,
}

// An edge as it stands in the columns.
#[derive(Clone, Copy)]
pub struct Step {
    pub target: u32,
    pub code: u16,
}

// An edge with its exact label.
#[derive(Clone, Copy)]
pub struct ReadEdge {
    pub target: u32,
    pub label: Label,
}

// The work: what stands at a position of the two parts; nothing at their end.
pub fn step_at<'a, 'b>(targets: &'a [u32], codes: &'b [u16], at: usize) -> Option<Step>
    ensures { result ≡ step_at targets.now codes.now at }
{
    if targets.len() <= at {
        return None;
    }
    if codes.len() <= at {
        return None;
    }
    Some(Step {
        target: targets[at],
        code: codes[at],
    })
}

pub fn new<'a, 'b>(targets: &'a [u32], codes: &'b [u16], at: usize) -> Edges<'a, 'b>
    ensures { (result.targets ≡ targets.entry) × (result.codes ≡ codes.entry) × (result.at ≡ at) }
{
    Edges { targets, codes, at }
}

pub fn next<'a, 'b>(e: Edges<'a, 'b>) -> Option<Step>
    ensures { result ≡ step_at e.entry.targets.now e.entry.codes.now e.entry.at }
{
    step_at(e.targets, e.codes, e.at)
}

// A function with plain parameters above them: whoever calls it needs no struct.
pub fn read<'a, 'b>(targets: &'a [u32], codes: &'b [u16], at: usize) -> Option<Step>
    ensures { result ≡ step_at targets.now codes.now at }
{
    next(new(targets, codes, at))
}

// The edge where a reader stands, read: `place` is its place in the columns, and an element has the index `expected` there at least. A target is one of so many
// objects.
pub fn edge_at(
    e: Edges<'_, '_>,
    coded: Codes<'_>,
    place: usize,
    expected: u32,
    objects: usize,
) -> Result<ReadEdge, Unread>
    ensures { read_edge_says result ≡
        edge_back objects coded.entry.fields.now coded.entry.escape_at.now coded.entry.escape_label.now place expected
        (step_at e.entry.targets.now e.entry.codes.now e.entry.at) }
{
    let Some(Step { target, code }) = next(e) else {
        return Err(Unread);
    };
    if objects <= columns::index(target) {
        return Err(Unread);
    }
    let label = labels::read::read_code(
        code,
        place as u64,
        expected,
        coded.fields,
        coded.escape_at,
        coded.escape_label,
    )?;
    Ok(ReadEdge { target, label })
}
