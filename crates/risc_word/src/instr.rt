// The instructions of the processor.

use crate::field::{Displacement, Immediate, Offset, Register};

/// An operation on two words.
#[derive(Clone, Copy, Debug)]
pub enum Operation {
    /// Shifts to the left, by the second operand modulo 32.
    Lsl,
    /// Shifts to the right and keeps the sign.
    Asr,
    /// Rotates to the right.
    Ror,
    /// The bits that both have.
    And,
    /// The bits that are set in the first and clear in the second.
    Ann,
    /// The bits that either has.
    Ior,
    /// The bits that are set in exactly one.
    Xor,
    /// The sum, with its carry in C.
    Add,
    /// The difference, with its borrow in C.
    Sub,
    /// The signed product, with its high word in H.
    Mul,
    /// The floored quotient, with its remainder in H.
    Div,
    /// The sum with C.
    Adc,
    /// The difference without C.
    Sbc,
}

/// The second operand of an operation.
#[derive(Clone, Copy, Debug)]
pub enum Operand {
    /// The content of a register.
    Content(Register),
    /// A number in the word itself.
    Constant(Immediate),
}

/// How much a load or a store moves.
#[derive(Clone, Copy, Debug)]
pub enum Width {
    /// Four bytes, lowest first, at a multiple of 4.
    Word,
    /// One byte; a loaded one is extended by zeros.
    Byte,
}

/// A condition on the flags.
#[derive(Clone, Copy, Debug)]
pub enum Condition {
    /// N.
    Minus,
    /// Z.
    Equal,
    /// C.
    CarrySet,
    /// V.
    OverflowSet,
    /// N differs from V.
    Less,
    /// N differs from V, or Z.
    LessEqual,
    /// Always.
    Always,
    /// Not N.
    Plus,
    /// Not Z.
    NotEqual,
    /// Not C.
    CarryClear,
    /// Not V.
    OverflowClear,
    /// N is V.
    GreaterEqual,
    /// N is V, and not Z.
    Greater,
    /// Never.
    Never,
}

/// Where a branch goes.
#[derive(Clone, Copy, Debug)]
pub enum Target {
    /// A number of words on from the next instruction.
    Relative(Displacement),
    /// The byte address in a register.
    Absolute(Register),
}

/// An instruction.
#[derive(Clone, Copy, Debug)]
pub enum Instr {
    /// `to := operand`.
    Move {
        to: Register,
        operand: Operand,
    },
    /// `to := top * 65536`.
    MoveTop {
        to: Register,
        top: u16,
    },
    /// `to := H`.
    MoveHigh {
        to: Register,
    },
    /// `to := left operation right`.
    Operate {
        operation: Operation,
        to: Register,
        left: Register,
        right: Operand,
    },
    /// `to := memory[base + offset]`.
    Load {
        width: Width,
        to: Register,
        base: Register,
        offset: Offset,
    },
    /// `memory[base + offset] := from`.
    Store {
        width: Width,
        from: Register,
        base: Register,
        offset: Offset,
    },
    /// Goes to the target if the condition holds, with the link in R15 if it asks for one.
    Branch {
        condition: Condition,
        link: bool,
        target: Target,
    },
}
