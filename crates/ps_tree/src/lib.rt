//! Code: the types of a program, and its checked tree, in which every name is resolved.
#![tactic(auto)]

pub mod characters;
mod count;
pub mod limits;
pub mod line;
pub mod marked;
pub mod names;
pub mod program;
pub mod tree;
pub mod types;
