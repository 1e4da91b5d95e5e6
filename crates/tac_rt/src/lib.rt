//! Code: the run-time routines for copies, sets, strings, reads and writes, as three-address code.
#![tactic(auto)]

pub mod laws;
mod library;
mod reading;
mod run_time;
mod sets;
mod step;
mod words;
mod writing;

pub use library::routines;
pub use run_time::RunTime;
