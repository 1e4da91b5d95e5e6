//! Code: checks routines, blocks and whole programs, by the public function `check` (ISO 7185, 6.2.1, 6.6 and 6.10).
#![tactic(auto)]

mod blocks;
mod chain;
mod changes;
mod checking;
mod formals;
mod headings;
pub mod laws;
mod program;
mod routines;
mod state;

pub use checking::check;
