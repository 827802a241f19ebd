// The calls that a host makes, by plain C: numbers and slices, of numbers or of slot rows. Each is thin over the proved call that it is named after, and its answer goes
// out as numbers (`answer_numbers`, `answer_builds`): how many there are, then the number of document 01 and its values, then zeros.
#![tactic(auto)]

pub mod builds;
pub mod holders;
mod lent;
pub mod parts;
pub mod questions;
pub mod slots;
