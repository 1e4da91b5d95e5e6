// Where variables are.

use tac_code::code::Base;

/// An offset in bytes from a base.
#[derive(Clone, Copy)]
pub struct Site {
    pub base: Base,
    pub offset: u32,
}

/// What the code of an index may use: temporaries from the first on, and the scratch block from an offset on.
#[derive(Clone, Copy)]
pub struct Room {
    pub first: u32,
    pub scratch: u32,
}
