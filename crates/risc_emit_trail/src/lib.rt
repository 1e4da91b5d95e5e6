//! Code: the lines of the calls that are open where a machine stopped, found by a walk over the frames in its memory.
#![tactic(auto)]

mod lines;
mod walk;

pub use lines::{MOST, Trail};
pub use walk::trail;
