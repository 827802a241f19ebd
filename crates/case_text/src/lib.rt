// Cases as text: how the programs read them, and how they write columns of numbers. Lists of numbers in brackets go into arenas; `n*x` stands for n times x,
// `n*x+d` for x, x + d, .. ; a title stands in quotes.
#![tactic(auto)]

pub mod arrays;
pub mod column;
pub mod fault;
pub mod form;
pub mod input;
pub mod lists;
pub mod refusal;
pub mod text;
pub mod zero;
