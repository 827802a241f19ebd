// Tests of whole tables, each of several of `check_tables`: LENGTHS and CLASS. The limit of PLACES, and marks kept or cleared, stand in a crate of their own, and
// have their names here. `check_input` puts them in order.
#![tactic(auto)]

pub use check_limit::{clear, least_room, limited, settle};

pub mod tables;
