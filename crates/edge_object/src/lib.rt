// One object of a pass: its references in order, what they add to the account, the run of its weak pairs, and where its edges end.
#![tactic(auto)]

mod object;
pub mod step;
