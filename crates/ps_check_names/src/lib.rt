//! Code: what a name denotes at a place in a program, and the regions that enclose the place.
#![tactic(auto)]

mod code;
pub mod constants;
pub mod marks;
pub mod meaning;
pub mod nests;
pub mod numbers;
pub mod opened;
pub mod reading;
pub mod scope;
pub mod sections;
pub mod sets;
pub mod wides;
