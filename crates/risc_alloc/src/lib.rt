//! Code: homes for the temporaries of three-address code, and the test that what is alive has its home to itself.
#![tactic(auto)]

mod claims;
mod flow;
mod groups;
pub mod homes;
mod lives;
pub mod placement;
pub mod placer;
mod routine;
pub mod scan;
mod seats;
mod table;
mod walk;
mod window;
