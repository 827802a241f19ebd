// The input checks of document 01 that read ids: the copied ids, and the part of them, or of the bytes, that each object has.
#![tactic(auto)]

pub mod copied;
pub mod spans;
