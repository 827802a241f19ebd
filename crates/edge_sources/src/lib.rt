// The references that an object holds, part by part: slots and elements by both routes, and the statics and the loader of the class found at it.
#![tactic(auto)]

pub mod class;
pub mod copied;
pub mod escape;
pub mod held;
pub mod raw;
