//! The words of an image, as far as they are examined.

use risc_image::ImageView;
use risc_word::{Condition, Instr, Offset, Operand, Operation, Register, Target, Width, decode};

/// The second operand of an operation: a number, or the content of a register.
#[derive(Clone, Copy)]
pub(crate) enum Right {
    Number(i64),
    Content(u8),
}

/// An operation: the register that receives its result, and its operands.
#[derive(Clone, Copy)]
pub(crate) struct Operated {
    pub(crate) operation: Operation,
    pub(crate) to: u8,
    pub(crate) left: u8,
    pub(crate) right: Right,
}

/// What a word does. Registers are given by their numbers.
#[derive(Clone, Copy)]
pub(crate) enum Act {
    Move {
        to: u8,
        from: Right,
    },
    /// Loads the register with the word this many bytes after the address in another one.
    Load {
        to: u8,
        base: u8,
        offset: i64,
    },
    /// Loads the register with this many times 65,536.
    Top {
        to: u8,
        top: i64,
    },
    Operate(Operated),
    /// Puts something else into the register.
    Put {
        to: u8,
    },
    /// The distance is in words from the next one on; `None` if the address is in a register.
    Branch {
        condition: Condition,
        distance: Option<i64>,
    },
    Other,
}

fn right_of(operand: Operand) -> Right {
    match operand {
        Operand::Content(register) => Right::Content(register.number()),
        Operand::Constant(number) => Right::Number(i64::from(number.value())),
    }
}

fn distance_of(target: Target) -> Option<i64> {
    match target {
        Target::Relative(distance) => Some(i64::from(distance.value())),
        Target::Absolute(_) => None,
    }
}

// Of a byte that is loaded only the register is of interest.
fn load_of(width: Width, to: Register, base: Register, offset: Offset) -> Act {
    match width {
        Width::Word => Act::Load {
            to: to.number(),
            base: base.number(),
            offset: i64::from(offset.value()),
        },
        Width::Byte => Act::Put { to: to.number() },
    }
}

fn act_of(instr: Instr) -> Act {
    match instr {
        Instr::Move { to, operand } => Act::Move {
            to: to.number(),
            from: right_of(operand),
        },
        Instr::Load {
            width,
            to,
            base,
            offset,
        } => load_of(width, to, base, offset),
        Instr::MoveHigh { to } => Act::Put { to: to.number() },
        Instr::MoveTop { to, top } => Act::Top {
            to: to.number(),
            top: i64::from(top),
        },
        Instr::Operate {
            operation,
            to,
            left,
            right,
        } => Act::Operate(Operated {
            operation,
            to: to.number(),
            left: left.number(),
            right: right_of(right),
        }),
        Instr::Branch {
            condition,
            link: _,
            target,
        } => Act::Branch {
            condition,
            distance: distance_of(target),
        },
        _ => Act::Other,
    }
}

/// What the word at a place does.
pub(crate) fn act_at(image: &ImageView<'_>, at: Option<usize>) -> Act {
    let Some(at) = at else {
        return Act::Other;
    };
    let Some(word) = image.word(at) else {
        return Act::Other;
    };
    match decode(word) {
        Some(instr) => act_of(instr),
        None => Act::Other,
    }
}
