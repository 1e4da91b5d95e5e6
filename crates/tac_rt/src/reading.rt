// What eof, eoln, read and readln do with the input. Two words record its state: the byte that was read ahead, -1 for
// the end, or -2 if nothing was read ahead; and 1 if a line was begun and not ended, otherwise 0.

use crate::step::Step;
use tac_code::code::Operand::{Number, Temporary};
use tac_code::code::Operator::{Multiply, Subtract};
use tac_code::code::Relation::{Equal, Greater, GreaterEqual, Less, LessEqual, NotEqual};

/// What comes next: 0 nothing, 1 a line end, 2 another character. 0 the address of the two words.
pub const LOOK: [Step; 12] = [
    Step::Load(1, 0, 0),
    Step::Branch(NotEqual, 1, Number(-2), 2),
    Step::Take(1),
    Step::Store(0, 0, 1),
    Step::Branch(Equal, 1, Number(-1), 5),
    Step::Branch(Equal, 1, Number(10), 2),
    Step::Literal(0, 2),
    Step::Return(0),
    Step::Literal(0, 1),
    Step::Return(0),
    Step::Load(0, 0, 4),
    Step::Return(0),
];

/// The next character, a line end as a space, or -1 if nothing is left: 0 the address of the two words. Temporary 2 is
/// not 0 if a line ends, even at the end of the input.
pub const READ_CHARACTER: [Step; 18] = [
    Step::Load(1, 0, 0),
    Step::Branch(GreaterEqual, 1, Number(0), 3),
    Step::Branch(Equal, 1, Number(-1), 8),
    Step::Take(1),
    Step::Branch(Equal, 1, Number(-1), 6),
    Step::Literal(2, -2),
    Step::Store(0, 0, 2),
    Step::Branch(Equal, 1, Number(10), 5),
    Step::Literal(2, 1),
    Step::Store(0, 4, 2),
    Step::Return(1),
    Step::Load(2, 0, 4),
    Step::Store(0, 0, 1),
    Step::Literal(3, 0),
    Step::Store(0, 4, 3),
    Step::Branch(Equal, 2, Number(0), 1),
    Step::Literal(1, 32),
    Step::Return(1),
];

/// An integer, which goes to an address: 0 the address of the two words, 1 that address. 0 if one was read, 1 if it has
/// more than 32 bits, 2 if there is none, 3 at the end of the input. Temporary 5 holds minus the number.
pub const READ_NUMBER: [Step; 43] = [
    Step::Load(2, 0, 0),
    Step::Branch(NotEqual, 2, Number(-2), 1),
    Step::Take(2),
    Step::Branch(Equal, 2, Number(32), 1),
    Step::Branch(NotEqual, 2, Number(10), 2),
    Step::Take(2),
    Step::JumpBack(3),
    Step::Branch(NotEqual, 2, Number(-1), 2),
    Step::Literal(3, 3),
    Step::Return(3),
    Step::Literal(3, 0),
    Step::Branch(Equal, 2, Number(43), 2),
    Step::Branch(NotEqual, 2, Number(45), 2),
    Step::Literal(3, 1),
    Step::Take(2),
    Step::Arithmetic(Subtract, 4, 2, Number(48)),
    Step::Branch(Less, 4, Number(0), 1),
    Step::Branch(LessEqual, 4, Number(9), 2),
    Step::Literal(3, 2),
    Step::Return(3),
    Step::Literal(5, 0),
    Step::Literal(6, 0),
    Step::Branch(Less, 5, Number(-214748364), 5),
    Step::Branch(Greater, 5, Number(-214748364), 1),
    Step::Branch(Greater, 4, Number(8), 3),
    Step::Arithmetic(Multiply, 5, 5, Number(10)),
    Step::Arithmetic(Subtract, 5, 5, Temporary(4)),
    Step::Jump(1),
    Step::Literal(6, 1),
    Step::Take(2),
    Step::Arithmetic(Subtract, 4, 2, Number(48)),
    Step::Branch(Less, 4, Number(0), 1),
    Step::BranchBack(LessEqual, 4, Number(9), 10),
    Step::Store(0, 0, 2),
    Step::Literal(4, 1),
    Step::Store(0, 4, 4),
    Step::Branch(Equal, 3, Number(1), 3),
    Step::Branch(Equal, 5, Number(i32::MIN), 4),
    Step::Literal(4, 0),
    Step::Arithmetic(Subtract, 5, 4, Temporary(5)),
    Step::Store(1, 0, 5),
    Step::Return(6),
    Step::Return(4),
];

/// Skips the rest of the line and its end: 0, or 1 if nothing is left. 0 the address of the two words. Temporary 2 is
/// not 0 if something was skipped or a line was begun.
pub const READ_LINE: [Step; 18] = [
    Step::Load(1, 0, 0),
    Step::Load(2, 0, 4),
    Step::Branch(NotEqual, 1, Number(-2), 1),
    Step::Take(1),
    Step::Branch(Equal, 1, Number(-1), 8),
    Step::Branch(Equal, 1, Number(10), 2),
    Step::Literal(2, 1),
    Step::JumpBack(4),
    Step::Literal(1, -2),
    Step::Store(0, 0, 1),
    Step::Literal(1, 0),
    Step::Store(0, 4, 1),
    Step::Return(1),
    Step::Store(0, 0, 1),
    Step::Literal(3, 0),
    Step::Store(0, 4, 3),
    Step::Compare(Equal, 2, 2, Number(0)),
    Step::Return(2),
];
