// Sets: eight words; bit m modulo 32 of word m div 32 is set if m is a member. Each turn combines two words.

use crate::step::Step;
use tac_code::code::BitOperator::{And, AndNot, Or, Plus, ShiftLeft};
use tac_code::code::Operand::{Number, Temporary};
use tac_code::code::Operator::Divide;
use tac_code::code::Relation::{Greater, LessEqual, NotEqual};

/// Adds the members from one to another, which are in 0..255: 0 the set's address, 1 the first, 2 the last.
pub const ADD_RANGE: [Step; 12] = [
    Step::Branch(Greater, 1, Temporary(2), 9),
    Step::Arithmetic(Divide, 3, 1, Number(32)),
    Step::SetWord(3, 0, 3),
    Step::Literal(4, 1),
    Step::Bits(ShiftLeft, 4, 4, Temporary(1)),
    Step::Load(5, 3, 0),
    Step::Bits(Or, 5, 5, Temporary(4)),
    Step::Store(3, 0, 5),
    Step::Bits(Plus, 1, 1, Number(1)),
    Step::BranchBack(LessEqual, 1, Temporary(2), 8),
    Step::Literal(0, 0),
    Step::Return(0),
];

/// The members of either set: 0 the address of the first, which becomes the union, 1 that of the second.
pub const UNITE: [Step; 14] = [
    Step::Literal(2, 4),
    Step::Load(3, 0, 0),
    Step::Load(4, 1, 0),
    Step::Bits(Or, 3, 3, Temporary(4)),
    Step::Store(0, 0, 3),
    Step::Load(3, 0, 4),
    Step::Load(4, 1, 4),
    Step::Bits(Or, 4, 3, Temporary(4)),
    Step::Store(0, 4, 4),
    Step::Offset(0, 0, 8),
    Step::Offset(1, 1, 8),
    Step::Bits(Plus, 2, 2, Number(-1)),
    Step::BranchBack(NotEqual, 2, Number(0), 11),
    Step::Return(2),
];

/// The members of the first set that are not in the second: 0 the address of the first, which becomes the difference, 1
/// that of the second.
pub const SUBTRACT: [Step; 14] = [
    Step::Literal(2, 4),
    Step::Load(3, 0, 0),
    Step::Load(4, 1, 0),
    Step::Bits(AndNot, 3, 3, Temporary(4)),
    Step::Store(0, 0, 3),
    Step::Load(3, 0, 4),
    Step::Load(4, 1, 4),
    Step::Bits(AndNot, 4, 3, Temporary(4)),
    Step::Store(0, 4, 4),
    Step::Offset(0, 0, 8),
    Step::Offset(1, 1, 8),
    Step::Bits(Plus, 2, 2, Number(-1)),
    Step::BranchBack(NotEqual, 2, Number(0), 11),
    Step::Return(2),
];

/// The members of both sets: 0 the address of the first, which becomes the intersection, 1 that of the second.
pub const INTERSECT: [Step; 14] = [
    Step::Literal(2, 4),
    Step::Load(3, 0, 0),
    Step::Load(4, 1, 0),
    Step::Bits(And, 3, 3, Temporary(4)),
    Step::Store(0, 0, 3),
    Step::Load(3, 0, 4),
    Step::Load(4, 1, 4),
    Step::Bits(And, 4, 3, Temporary(4)),
    Step::Store(0, 4, 4),
    Step::Offset(0, 0, 8),
    Step::Offset(1, 1, 8),
    Step::Bits(Plus, 2, 2, Number(-1)),
    Step::BranchBack(NotEqual, 2, Number(0), 11),
    Step::Return(2),
];

/// Whether each member of the first set is in the second: 0 the address of the first, 1 that of the second.
pub const IS_INCLUDED: [Step; 13] = [
    Step::Literal(2, 8),
    Step::Load(3, 0, 0),
    Step::Load(4, 1, 0),
    Step::Bits(AndNot, 3, 3, Temporary(4)),
    Step::Branch(NotEqual, 3, Number(0), 6),
    Step::Offset(0, 0, 4),
    Step::Offset(1, 1, 4),
    Step::Bits(Plus, 2, 2, Number(-1)),
    Step::BranchBack(NotEqual, 2, Number(0), 7),
    Step::Literal(2, 1),
    Step::Return(2),
    Step::Literal(2, 0),
    Step::Return(2),
];

/// Whether an integer is a member: 0 the integer, 1 the set's address.
pub const IS_MEMBER: [Step; 12] = [
    Step::Bits(And, 2, 0, Number(255)),
    Step::Branch(NotEqual, 2, Temporary(0), 8),
    Step::Arithmetic(Divide, 2, 0, Number(32)),
    Step::SetWord(2, 1, 2),
    Step::Load(2, 2, 0),
    Step::Literal(3, 1),
    Step::Bits(ShiftLeft, 3, 3, Temporary(0)),
    Step::Bits(And, 0, 2, Temporary(3)),
    Step::Compare(NotEqual, 0, 0, Number(0)),
    Step::Return(0),
    Step::Literal(0, 0),
    Step::Return(0),
];
