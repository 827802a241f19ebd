// The questions, by one name each; those about spans are asked of `Strong` itself. Over what an accepted build or `from_parts` left, each is the same question on
// the plain edges, and an object's parts have its edges in order: proofs/Joined.antt.
#![tactic(auto)]

pub use ask_edges::object_edges;
pub use ask_field::{field, referent};
pub use ask_label::{coarse_label, exact_label, label_of};
pub use ask_span::{Graph, Strong, part_of, weak_referents};
