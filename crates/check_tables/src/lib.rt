// The input checks of document 01 that read the tables, one by one; `check_ids` has those of the ids, and `check_input` puts all together.
#![tactic(auto)]

pub mod classes;
pub mod found;
pub mod lengths;
pub mod objects;
