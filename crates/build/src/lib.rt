// A build, by both routes.
#![tactic(auto)]

pub use build_copied::build_copied;
pub use build_raw::build_raw;
