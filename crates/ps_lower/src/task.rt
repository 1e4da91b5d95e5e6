// What is left to do for a first value.

use ps_tree::types::Ty;

/// What is left to do for a first value; offsets and sizes are in bytes.
#[derive(Clone, Copy)]
pub enum Task<'a> {
    /// The first value of a variable of a type.
    FirstValue { ty: &'a Ty, offset: u32 },
    /// Copies of the first `each` bytes, after them up to the whole.
    Copies { offset: u32, each: u32, whole: u32 },
    /// The fields of a record that are left, beginning at the offset.
    FieldsLeft { types: &'a [Ty], offset: u32 },
}
