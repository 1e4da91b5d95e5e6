//! Code: a pass from three-address code to three-address code, by a plan that is tested; with the definitions and laws
//! of what a pass must keep, and when it does.
#![tactic(auto)]

pub mod laws;
pub mod leaving;
pub mod operands;
pub mod plan;
pub mod renaming;
pub mod table;
pub mod walk;
