//! What statements change.

/// A change of an entire variable, or of a function's result: of the entry `entry` of the routine `up` blocks out, by
/// the token at the offset `at`.
#[derive(Clone, Copy)]
pub struct Change {
    pub up: u32,
    pub entry: u32,
    pub at: u32,
}
