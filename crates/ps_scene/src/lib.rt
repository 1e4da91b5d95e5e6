//! Code: what a stopped machine shows of its program: the calls that were open, with the values of their variables in
//! the terms of the text, and the value that an error found.
//!
//! It is advisory: it reads any machine and any map without harm, and no contract depends on it.
#![tactic(auto)]

mod found;
mod frames;
mod memory;
mod names;
mod parts;
mod scene;
mod types;
mod values;
mod words;

pub use found::{Bounds, FaultValue, found_at};
pub use frames::Standing;
pub use memory::word_at;
pub use names::{FieldName, Text, field_names, token_at};
pub use parts::{ordinal_text, value_at};
pub use scene::{Activation, Scene, Surroundings, Value, scene_of};
pub use types::{Components, components_of, type_of};
pub use values::{Length, Object, ordinal_in};
