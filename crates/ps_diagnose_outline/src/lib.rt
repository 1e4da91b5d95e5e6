//! Code: the names of a text with their declarations, which of them are visible where, types as the text writes them,
//! and its constructions.
//!
//! It is advisory: if something isn't certain, nothing is said of it.
#![tactic(auto)]

mod build;
mod constructions;
mod declare;
mod extent;
mod names;
mod outline;
mod parts;
mod required;
mod types;
mod typing;
mod words;

pub use constructions::{Construct, Construction};
pub use extent::Part;
pub use outline::{Denoted, Outline};
pub use parts::{
    Denoter, Form, Point, PointKind, Region, RegionKind, Shape, Type, small as count_of,
};
pub use required::{Required, RequiredKind, required_names};
