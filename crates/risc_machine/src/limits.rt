//! The numbers of the machine.

/// PC counts words modulo this.
pub const PLACES: u32 = 4_194_304;

/// A load, a store and a branch to a register count bytes modulo this.
pub const ADDRESSES: u32 = 16_777_216;

/// The most bytes of memory: the 64 addresses after them are the device page's.
pub const MAX_MEMORY: u32 = 16_777_152;

/// The sign bit of a word: as a signed number, a word from it on is below 0.
pub const SIGN_BIT: u32 = 2_147_483_648;
