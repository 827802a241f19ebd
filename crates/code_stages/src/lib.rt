// The stages that code a plain graph's columns: each takes the answer so far, decides whether its buffers have room, and fills them.
#![tactic(auto)]

pub mod answers;
pub mod codes;
pub mod fields;
pub mod offsets;
pub mod settle;
pub mod space;
