//! Code: the instructions of three-address code, the test of its parts, its meaning and its printed form.
#![tactic(auto)]

pub mod check;
pub mod code;
pub mod print;
pub mod tac;
