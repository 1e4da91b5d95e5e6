//! Code: the emission, from three-address code whose temporaries have homes to the words and tables of an image.
//!
//! Words are appended as pieces, whose places come later: what is appended for an instruction, an entry and the start
//! of a program has the form that the law of steps states. Marks say where pieces are; then pieces become words, and
//! the tables' rows are derived from them.
#![tactic(auto)]

mod arithmetic;
mod body;
mod calls;
mod checks;
mod deferred;
mod draft;
pub mod emit;
mod entry;
mod flagged;
mod frame;
mod layout;
mod location;
pub mod marks;
mod memory;
mod numbers;
mod operands;
mod pieces;
mod resolve;
mod words;
