// The cases of a build: their lists and numbers as the text has them, and what is written of a graph that was built, or of a refusal.
#![tactic(auto)]

mod answers;
pub mod case;
mod edges;
pub mod lists;
pub mod show;
