//! Code: where in its text each word of an image belongs: the routine, the statement and the token.
//!
//! It is advisory: no run and no contract depends on it. ps_map_maker makes it.
#![tactic(auto)]

mod accesses;
mod blocks;
mod characters;
mod listing;
mod map;
mod places;
mod variables;
mod writing;

pub use accesses::{Access, access_in};
pub use blocks::{Block, blocks_of};
pub use characters::{line_at, lines_of, readable, shown_name};
pub use listing::{listing_with_source, run_time_description};
pub use map::{Map, Owner, Routine, Row};
pub use places::{Lines, Place, small};
pub use variables::{Denoters, Role, Variable, name_of, variable_before, variables_of};
pub use writing::written;
