//! Instructions of three-address code: a word that names the form, and then its fields in the order in which the form
//! has them.

use crate::fields::{
    base, bit_operator, bytes, distance, error, integer, line, natural, operand, operands,
    operator, relation,
};
use crate::texts::word;
use std::alloc::{AllocError, Global};
use std::str::SplitWhitespace;
use tac_code::code::Instruction;

/// The instruction that words describe; `end` if they describe none.
pub(crate) fn instruction(
    alloc: Global,
    words: &mut SplitWhitespace,
) -> Result<Instruction, AllocError> {
    match word(words) {
        "text" => Ok(Instruction::Text {
            to: natural(words),
            bytes: bytes(alloc, words)?,
        }),
        "call" => Ok(Instruction::Call {
            to: natural(words),
            routine: natural(words),
            line: line(words),
            operands: operands(alloc, words)?,
        }),
        "callvalue" => Ok(Instruction::CallValue {
            to: natural(words),
            callee: natural(words),
            line: line(words),
            operands: operands(alloc, words)?,
        }),
        name => Ok(computation(name, words)),
    }
}

fn computation(name: &str, words: &mut SplitWhitespace) -> Instruction {
    match name {
        "literal" => Instruction::Literal {
            to: natural(words),
            value: integer(words),
        },
        "copy" => Instruction::Copy {
            to: natural(words),
            from: natural(words),
        },
        "arithmetic" => Instruction::Arithmetic {
            operator: operator(words),
            to: natural(words),
            left: natural(words),
            right: operand(words),
            error: error(words),
            line: line(words),
        },
        "bits" => Instruction::Bits {
            operator: bit_operator(words),
            to: natural(words),
            left: natural(words),
            right: operand(words),
        },
        "compare" => Instruction::Compare {
            relation: relation(words),
            to: natural(words),
            left: natural(words),
            right: operand(words),
        },
        _ => check(name, words),
    }
}

fn check(name: &str, words: &mut SplitWhitespace) -> Instruction {
    match name {
        "checkrange" => Instruction::CheckRange {
            value: natural(words),
            low: integer(words),
            high: integer(words),
            error: error(words),
            line: line(words),
        },
        "checkpointer" => Instruction::CheckPointer {
            pointer: natural(words),
            error: error(words),
            line: line(words),
        },
        "trap" => Instruction::Trap {
            error: error(words),
            line: line(words),
        },
        _ => address(name, words),
    }
}

fn address(name: &str, words: &mut SplitWhitespace) -> Instruction {
    match name {
        "offset" => Instruction::Offset {
            to: natural(words),
            base: base(words),
            bytes: natural(words),
            extent: natural(words),
        },
        "index" => Instruction::Index {
            to: natural(words),
            base: base(words),
            index: natural(words),
            low: integer(words),
            high: integer(words),
            width: natural(words),
            error: error(words),
            line: line(words),
        },
        "routine" => Instruction::RoutineValue {
            to: natural(words),
            routine: natural(words),
        },
        "new" => Instruction::New {
            to: natural(words),
            object_type: natural(words),
            line: line(words),
        },
        _ => access(name, words),
    }
}

fn access(name: &str, words: &mut SplitWhitespace) -> Instruction {
    match name {
        "load" => Instruction::Load {
            to: natural(words),
            base: base(words),
            offset: natural(words),
        },
        "store" => Instruction::Store {
            base: base(words),
            offset: natural(words),
            from: natural(words),
        },
        "loadbyte" => Instruction::LoadByte {
            to: natural(words),
            base: base(words),
            offset: natural(words),
        },
        "storebyte" => Instruction::StoreByte {
            base: base(words),
            offset: natural(words),
            from: natural(words),
        },
        _ => transfer(name, words),
    }
}

fn transfer(name: &str, words: &mut SplitWhitespace) -> Instruction {
    match name {
        "jump" => Instruction::Jump {
            forward: distance(words),
        },
        "jumpback" => Instruction::JumpBack {
            back: distance(words),
        },
        "branch" => Instruction::Branch {
            relation: relation(words),
            left: natural(words),
            right: operand(words),
            forward: distance(words),
        },
        "branchback" => Instruction::BranchBack {
            relation: relation(words),
            left: natural(words),
            right: operand(words),
            back: distance(words),
        },
        "return" => Instruction::Return {
            from: natural(words),
        },
        "take" => Instruction::Take { to: natural(words) },
        "put" => Instruction::Put {
            from: natural(words),
        },
        _ => Instruction::End,
    }
}
