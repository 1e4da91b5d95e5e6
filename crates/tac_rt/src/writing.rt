// What `write` adds to the output. A width is at least 1.

use crate::step::Step;
use tac_code::code::BitOperator::{And, Plus};
use tac_code::code::Operand::{Number, Temporary};
use tac_code::code::Operator::{Divide, Multiply, Subtract};
use tac_code::code::Relation::{Equal, Greater, GreaterEqual, LessEqual, NotEqual};

/// An integer, right-aligned: 0 the integer, 1 the width. Temporary 2 holds minus its absolute value, or what is left
/// of it, and 3 the power of ten of the next digit.
pub const WRITE_NUMBER: [Step; 30] = [
    Step::Copy(2, 0),
    Step::Branch(LessEqual, 2, Number(0), 2),
    Step::Literal(3, 0),
    Step::Arithmetic(Subtract, 2, 3, Temporary(2)),
    Step::Literal(3, 1),
    Step::Arithmetic(Subtract, 1, 1, Number(1)),
    Step::Jump(2),
    Step::Arithmetic(Multiply, 3, 3, Number(10)),
    Step::Arithmetic(Subtract, 1, 1, Number(1)),
    Step::Arithmetic(Divide, 4, 2, Temporary(3)),
    Step::BranchBack(LessEqual, 4, Number(-10), 3),
    Step::Branch(GreaterEqual, 0, Number(0), 1),
    Step::Arithmetic(Subtract, 1, 1, Number(1)),
    Step::Literal(5, 32),
    Step::Jump(2),
    Step::Put(5),
    Step::Arithmetic(Subtract, 1, 1, Number(1)),
    Step::BranchBack(Greater, 1, Number(0), 2),
    Step::Branch(GreaterEqual, 0, Number(0), 2),
    Step::Literal(5, 45),
    Step::Put(5),
    Step::Arithmetic(Divide, 4, 2, Temporary(3)),
    Step::Literal(5, 48),
    Step::Arithmetic(Subtract, 5, 5, Temporary(4)),
    Step::Put(5),
    Step::Arithmetic(Multiply, 4, 4, Temporary(3)),
    Step::Arithmetic(Subtract, 2, 2, Temporary(4)),
    Step::Arithmetic(Divide, 3, 3, Number(10)),
    Step::BranchBack(NotEqual, 3, Number(0), 7),
    Step::Return(3),
];

/// A character, right-aligned: 0 its ordinal, whose absolute value modulo 256 counts, 1 the width.
pub const WRITE_CHARACTER: [Step; 13] = [
    Step::Bits(And, 2, 0, Number(255)),
    Step::Branch(GreaterEqual, 0, Number(0), 3),
    Step::Literal(3, 0),
    Step::Arithmetic(Subtract, 2, 3, Temporary(2)),
    Step::Bits(And, 2, 2, Number(255)),
    Step::Branch(LessEqual, 1, Number(1), 4),
    Step::Literal(3, 32),
    Step::Put(3),
    Step::Bits(Plus, 1, 1, Number(-1)),
    Step::BranchBack(NotEqual, 1, Number(1), 2),
    Step::Put(2),
    Step::Literal(3, 0),
    Step::Return(3),
];

/// A string, right-aligned, or its first characters: 0 its address, 1 its length, 2 the width.
pub const WRITE_STRING: [Step; 15] = [
    Step::Arithmetic(Subtract, 3, 2, Temporary(1)),
    Step::Branch(LessEqual, 3, Number(0), 4),
    Step::Literal(4, 32),
    Step::Put(4),
    Step::Bits(Plus, 3, 3, Number(-1)),
    Step::BranchBack(NotEqual, 3, Number(0), 2),
    Step::Branch(LessEqual, 1, Temporary(2), 1),
    Step::Copy(1, 2),
    Step::Branch(Equal, 1, Number(0), 5),
    Step::LoadByte(3, 0, 0),
    Step::Put(3),
    Step::Offset(0, 0, 1),
    Step::Bits(Plus, 1, 1, Number(-1)),
    Step::BranchBack(NotEqual, 1, Number(0), 4),
    Step::Return(1),
];
