//! Laws: runs of three-address code only grow, and small programs are run by its definitions.
//!
//! The functions do nothing when called; each exists for its contract.
#![tactic(auto)]

pub mod laws;
