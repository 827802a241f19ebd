// One object's edges: the reader, which is passed on; and all of them at once, into two lent columns.
#![tactic(auto)]

mod object;

pub use ask_reader::{Edges, ReadEdge, Step, new, next, read, step_at};
pub use object::{object_edges, read_edges};
