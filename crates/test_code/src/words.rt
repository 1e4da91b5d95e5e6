//! Words of the processor.

use crate::texts::hexadecimal;
use risc_word::{decode, encode, print};
use std::alloc::Global;
use test_tables::Line;

/// Puts the printed form of the instruction that a word is, the word of that instruction again, and its parts.
pub(crate) fn put_decoded(alloc: Global, line: &mut Line, row: &str) {
    let Some(instr) = decode(hexadecimal(row)) else {
        return line.word("no instruction");
    };
    line.text(print(alloc, instr));
    line.coded(" = ", encode(instr));
    line.seen(", ", &instr);
}
