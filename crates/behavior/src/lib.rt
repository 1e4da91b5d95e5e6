//! Definitions and laws: what a run shows, its transcript and its ending, and when two runs show the same.
//!
//! The definitions are in specs/; the functions here are laws about them.
#![tactic(auto)]

pub mod laws;
