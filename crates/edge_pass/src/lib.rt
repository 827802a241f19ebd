// Passes over ranges of objects, and the edge stage of a build. "Work is done in passes over object ranges; each pass hands its weak and missing numbers
// to the next pass, and the cuts don't show in the graph."
#![tactic(auto)]

mod answer;
pub mod copied;
pub mod raw;
