//! Code: a lower bound on the number of instructions in the code of statements, without making it.
#![tactic(auto)]

mod least;
mod walk;

pub use least::fewest;
