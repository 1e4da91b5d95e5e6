//! The rows of an image's tables.

/// A row of the frame table. Row r is for routine r.
#[derive(Clone, Copy, Debug)]
pub struct FrameRow {
    /// The address of the routine's first instruction.
    pub entry: u32,
    /// The bytes of its frame.
    pub bytes: u32,
}

/// A row of the object table. Row t is for pointer type t.
#[derive(Clone, Copy, Debug)]
pub struct ObjectRow {
    /// The number of the pointer type.
    pub pointer_type: u32,
    /// The bytes of a variable that `new` makes for it.
    pub bytes: u32,
}

/// A row of the trap table: what a trap with this link means.
#[derive(Clone, Copy, Debug)]
pub struct TrapRow {
    /// The address after the instruction that traps.
    pub link: u32,
    /// The number of the error, 1 to 13.
    pub error: u32,
    /// The line of the text, from 1.
    pub line: u32,
}

/// A row of the call table: the line of the call that returns to this link.
#[derive(Clone, Copy, Debug)]
pub struct CallRow {
    /// The address after the call.
    pub link: u32,
    /// The line of the text, from 1.
    pub line: u32,
}
