//! The fields of instructions, as rows write them.

use crate::texts::word;
use std::alloc::{AllocError, Global};
use std::str::SplitWhitespace;
use tac_code::code::{Base, BitOperator, Constant, Operand, Operands, Operator, Relation};
use test_tables::words::{i32_of, u8_of, u16_of, u32_of, u64_of};

/// A temporary, or a number of bytes.
pub(crate) fn natural(words: &mut SplitWhitespace) -> u32 {
    u32_of(word(words))
}

/// A value.
pub(crate) fn integer(words: &mut SplitWhitespace) -> i32 {
    i32_of(word(words))
}

/// How far a jump goes.
pub(crate) fn distance(words: &mut SplitWhitespace) -> u64 {
    u64_of(word(words))
}

/// The number of an error.
pub(crate) fn error(words: &mut SplitWhitespace) -> u8 {
    u8_of(word(words))
}

/// The number of a line.
pub(crate) fn line(words: &mut SplitWhitespace) -> u16 {
    u16_of(word(words))
}

/// `t5` is a temporary, anything else a number.
pub(crate) fn operand(words: &mut SplitWhitespace) -> Operand {
    let word = word(words);
    match word.strip_prefix("t") {
        Some(digits) => Operand::Temporary(u32_of(digits)),
        None => Operand::Number(i32_of(word)),
    }
}

pub(crate) fn base(words: &mut SplitWhitespace) -> Base {
    match word(words) {
        "frame" => Base::Frame,
        "scratch" => Base::Scratch,
        "program" => Base::Program,
        temporary => Base::Temporary(u32_of(temporary.strip_prefix("t").unwrap_or(""))),
    }
}

pub(crate) fn operator(words: &mut SplitWhitespace) -> Operator {
    match word(words) {
        "+" => Operator::Add,
        "-" => Operator::Subtract,
        "*" => Operator::Multiply,
        "div" => Operator::Divide,
        _ => Operator::Modulo,
    }
}

pub(crate) fn bit_operator(words: &mut SplitWhitespace) -> BitOperator {
    match word(words) {
        "and" => BitOperator::And,
        "or" => BitOperator::Or,
        "andnot" => BitOperator::AndNot,
        "shift" => BitOperator::ShiftLeft,
        _ => BitOperator::Plus,
    }
}

pub(crate) fn relation(words: &mut SplitWhitespace) -> Relation {
    match word(words) {
        "=" => Relation::Equal,
        "<>" => Relation::NotEqual,
        "<" => Relation::Less,
        "<=" => Relation::LessEqual,
        ">" => Relation::Greater,
        _ => Relation::GreaterEqual,
    }
}

/// The operands of a call: all words that are left.
pub(crate) fn operands(alloc: Global, words: &mut SplitWhitespace) -> Result<Operands, AllocError> {
    let mut operands = Operands::new(alloc);
    for temporary in words {
        operands.push(u32_of(temporary))?;
    }
    Ok(operands)
}

/// The bytes of a text: all words that are left.
pub(crate) fn bytes(alloc: Global, words: &mut SplitWhitespace) -> Result<Constant, AllocError> {
    let mut bytes = Vec::new(alloc);
    for byte in words {
        bytes.push(u8_of(byte))?;
    }
    Constant::new(alloc, bytes)
}
