// Copies, packed bytes, and the comparison of strings. A loop is skipped if there is nothing to do; otherwise each
// iteration ends with the sum that counts down, and repeats while that is not 0.

use crate::step::Step;
use tac_code::code::BitOperator::{And, Plus};
use tac_code::code::Operand::{Number, Temporary};
use tac_code::code::Operator::Subtract;
use tac_code::code::Relation::{Equal, NotEqual};

/// Copies words upward, from the lowest on: 0 the address to copy to, 1 the address to copy from, 2 the number of
/// bytes. If the number of words is odd, one word is copied first, then two in each iteration.
pub const COPY: [Step; 17] = [
    Step::Bits(And, 3, 2, Number(7)),
    Step::Branch(Equal, 3, Number(0), 5),
    Step::Load(3, 1, 0),
    Step::Store(0, 0, 3),
    Step::Offset(0, 0, 4),
    Step::Offset(1, 1, 4),
    Step::Bits(Plus, 2, 2, Number(-4)),
    Step::Branch(Equal, 2, Number(0), 8),
    Step::Load(3, 1, 0),
    Step::Store(0, 0, 3),
    Step::Load(3, 1, 4),
    Step::Store(0, 4, 3),
    Step::Offset(0, 0, 8),
    Step::Offset(1, 1, 8),
    Step::Bits(Plus, 2, 2, Number(-8)),
    Step::BranchBack(NotEqual, 2, Number(0), 7),
    Step::Return(2),
];

/// The difference of the first bytes that differ, left minus right, or 0: 0 and 1 the addresses, 2 the number of bytes.
pub const COMPARE: [Step; 11] = [
    Step::Branch(Equal, 2, Number(0), 7),
    Step::LoadByte(3, 0, 0),
    Step::LoadByte(4, 1, 0),
    Step::Branch(NotEqual, 3, Temporary(4), 5),
    Step::Offset(0, 0, 1),
    Step::Offset(1, 1, 1),
    Step::Bits(Plus, 2, 2, Number(-1)),
    Step::BranchBack(NotEqual, 2, Number(0), 6),
    Step::Return(2),
    Step::Arithmetic(Subtract, 0, 3, Temporary(4)),
    Step::Return(0),
];

/// Words to bytes: 0 the address to write to, 1 the address to read from, 2 how many.
pub const PACK: [Step; 8] = [
    Step::Branch(Equal, 2, Number(0), 6),
    Step::Load(3, 1, 0),
    Step::StoreByte(0, 0, 3),
    Step::Offset(0, 0, 1),
    Step::Offset(1, 1, 4),
    Step::Bits(Plus, 2, 2, Number(-1)),
    Step::BranchBack(NotEqual, 2, Number(0), 5),
    Step::Return(2),
];

/// Bytes to words: 0 the address to write to, 1 the address to read from, 2 how many.
pub const UNPACK: [Step; 8] = [
    Step::Branch(Equal, 2, Number(0), 6),
    Step::LoadByte(3, 1, 0),
    Step::Store(0, 0, 3),
    Step::Offset(0, 0, 4),
    Step::Offset(1, 1, 1),
    Step::Bits(Plus, 2, 2, Number(-1)),
    Step::BranchBack(NotEqual, 2, Number(0), 5),
    Step::Return(2),
];
