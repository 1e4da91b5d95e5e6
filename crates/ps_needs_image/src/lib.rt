//! Code: how much stack the image of a text needs, and the routines that need it.
#![tactic(auto)]

mod again;
pub mod laws;
mod names;
mod needed;

pub use needed::{Needed, needs_of};
