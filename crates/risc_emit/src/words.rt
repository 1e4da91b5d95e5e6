// Instructions of the machine.

ghost use Rattle.std.specs.Prelude.{◌≡◌, ◌<◌, false, pos, negsuc, ◌≤ℤ◌};
ghost use Rattle.risc_word.specs.declared.instr.Operand.TheVariants.{Content, Constant};
ghost use Rattle.risc_word.specs.declared.instr.Condition.TheVariants.{Always};
ghost use Rattle.risc_word.specs.declared.instr.Target.TheVariants.{Relative, Absolute};
ghost use Rattle.risc_word.specs.declared.instr.Instr.TheVariants as word;

use risc_word::{
    Condition, Displacement, Immediate, Instr, Offset, Operand, Operation, Register, Target, Width,
};

/// What the machine starts with: the first addresses of the heap and of the stack; and a free register. R0 is also that
/// of a result.
pub(crate) fn r0() -> Register
    ensures { result ≡ 0 }
{
    Register::new(0)
}

pub(crate) fn r1() -> Register
    ensures { result ≡ 1 }
{
    Register::new(1)
}

pub(crate) fn r2() -> Register
    ensures { result ≡ 2 }
{
    Register::new(2)
}

/// A register that no operand comes in.
pub(crate) fn r11() -> Register
    ensures { result ≡ 11 }
{
    Register::new(11)
}

/// The scratch registers, the frame of the program block and the frame of the innermost activation.
pub(crate) fn r12() -> Register
    ensures { result ≡ 12 }
{
    Register::new(12)
}

pub(crate) fn r13() -> Register
    ensures { result ≡ 13 }
{
    Register::new(13)
}

pub(crate) fn r14() -> Register
    ensures { result ≡ 14 }
{
    Register::new(14)
}

pub(crate) fn r15() -> Register
    ensures { result ≡ 15 }
{
    Register::new(15)
}

pub(crate) fn constant(value: i32) -> Operand
    requires low { negsuc 65535 ≤ℤ value }
    requires high { value ≤ℤ pos 65535 }
    ensures { result ≡ Constant value }
{
    Operand::Constant(Immediate::new(value))
}

pub(crate) fn set(to: Register, value: i32) -> Instr
    requires low { negsuc 65535 ≤ℤ value }
    requires high { value ≤ℤ pos 65535 }
    ensures { result ≡ word.Move to (Constant value) }
{
    Instr::Move {
        to,
        operand: constant(value),
    }
}

/// A word that does nothing, for an instruction or a skip that needs one.
pub(crate) fn idle() -> Instr
    ensures { result ≡ word.Move 15 (Constant (pos 0)) }
{
    set(r15(), 0)
}

pub(crate) fn copied(to: Register, from: Register) -> Instr
    ensures { result ≡ word.Move to (Content from) }
{
    Instr::Move {
        to,
        operand: Operand::Content(from),
    }
}

pub(crate) fn computed(operation: Operation, to: Register, left: Register, right: Operand) -> Instr
    ensures { result ≡ word.Operate operation to left right }
{
    Instr::Operate {
        operation,
        to,
        left,
        right,
    }
}

pub(crate) fn loaded(width: Width, to: Register, base: Register, bytes: i32) -> Instr
    requires low { negsuc 524287 ≤ℤ bytes }
    requires high { bytes ≤ℤ pos 524287 }
    ensures { result ≡ word.Load width to base bytes }
{
    Instr::Load {
        width,
        to,
        base,
        offset: Offset::new(bytes),
    }
}

pub(crate) fn stored(width: Width, from: Register, base: Register, bytes: i32) -> Instr
    requires low { pos 0 ≤ℤ bytes }
    requires high { bytes ≤ℤ pos 524287 }
    ensures { result ≡ word.Store width from base bytes }
{
    Instr::Store {
        width,
        from,
        base,
        offset: Offset::new(bytes),
    }
}

/// A branch over the next words.
pub(crate) fn skip(condition: Condition, words: i32) -> Instr
    requires low { pos 0 ≤ℤ words }
    requires high { words ≤ℤ pos 8388607 }
    ensures { result ≡ word.Branch condition false (Relative words) }
{
    Instr::Branch {
        condition,
        link: false,
        target: Target::Relative(Displacement::new(words)),
    }
}

/// A branch to the address in a register.
pub(crate) fn goes_to(register: Register) -> Instr
    ensures { result ≡ word.Branch Always false (Absolute register) }
{
    Instr::Branch {
        condition: Condition::Always,
        link: false,
        target: Target::Absolute(register),
    }
}
