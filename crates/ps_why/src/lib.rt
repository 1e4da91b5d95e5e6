//! Code: the report of a run that ended: how and where it ended, the value that was outside a range, the calls that
//! were open with the values of their variables (ps_scene), and the loop in which a run was when its steps were used
//! up.
//!
//! It is advisory: it reads any machine and any map without harm, and no contract depends on it.
#![tactic(auto)]

mod account;
mod choices;
mod loops;
mod object;
mod people;
mod sentences;
mod shown;
mod targets;

pub use account::{Account, Ending, account_of};
pub use loops::Loop;
pub use object::object_of;
pub use people::render;
