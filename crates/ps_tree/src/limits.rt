//! The limits of programs, which are this project's own.

/// The most blocks that can enclose a routine, including the program block.
pub const MAX_DEPTH: usize = 16;

/// The most formal parameters of a heading, including those of its procedural and functional parameters.
pub const MAX_FORMALS: u64 = 32;

/// The most cells of a type, of a routine, or of the program block.
pub const MAX_CELLS: u64 = 100_000;

/// The most nodes of a routine, or of the program block.
pub const MAX_NODES: u64 = 4_194_304;

/// The most routines of a program, and the most pointer types.
pub const MAX_ROUTINES: usize = 1_048_576;
