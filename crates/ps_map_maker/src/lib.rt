//! Code: the map of a text, made from what the lowering and the emission return besides the code, and from one pass
//! over the tokens of the text.
#![tactic(auto)]

mod made;

pub use made::{MappedText, map_of, map_of_text};
