//! Code: the pass that keeps words of the own frame in temporaries: plans are chosen, and what is made by them is what
//! the test of plans makes.
#![tactic(auto)]

mod addresses;
pub mod choice;
mod draft;
mod flow;
mod items;
mod look;
pub mod pass;
mod regions;
pub mod room;
mod sets;
mod spares;
mod stays;
mod words;
