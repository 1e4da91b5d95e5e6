//! Programs built for observed runs.

use ps_map_maker::MappedText;

/// A program that was built, with its map, for one or more runs.
#[derive(Drop)]
pub struct Prepared {
    pub text: MappedText,
}
