// How many temporaries the instructions of a routine need, and how many bytes of the scratch block they use.

ghost use Rattle.std.specs.Prelude.{◌≡◌, ◌+◌, suc, max};
ghost use Rattle.ps_lower_code.specs.Programs.{in_operand, in_base, in_list, named_in, temporaries_in, scratch_at};
ghost use Rattle.ps_lower_code.specs.Programs.{meant_by, scratch_in};

use tac_code::code::{Base, Instruction, Operand};

fn one(t: u32) -> u64
    ensures { result ≡ suc t }
{
    u64::from(t) + 1
}

fn larger(a: u64, b: u64) -> u64
    ensures { result ≡ max a b }
{
    if a < b { b } else { a }
}

fn in_operand(operand: Operand) -> u64
    ensures { result ≡ in_operand operand }
{
    match operand {
        Operand::Temporary(t) => one(t),
        Operand::Number(_) => 0,
    }
}

fn in_base(base: Base) -> u64
    ensures { result ≡ in_base base }
{
    match base {
        Base::Temporary(t) => one(t),
        Base::Frame | Base::Scratch | Base::Program => 0,
    }
}

fn in_list(list: &[u32]) -> u64
    ensures { result ≡ in_list list.now }
{
    let mut most = 0;
    for t in list {
        most = larger(most, one(*t));
    }
    most
}

/// One more than the highest temporary that an instruction names.
fn named_in(instruction: &Instruction) -> u64
    ensures { result ≡ named_in instruction.now }
{
    match instruction {
        Instruction::Literal { to, .. }
        | Instruction::Text { to, .. }
        | Instruction::RoutineValue { to, .. }
        | Instruction::Take { to }
        | Instruction::New { to, .. } => one(*to),
        Instruction::Copy { to, from } => larger(one(*to), one(*from)),
        Instruction::Arithmetic {
            to,
            left,
            right,
            ..
        }
        | Instruction::Bits {
            to,
            left,
            right,
            ..
        }
        | Instruction::Compare {
            to,
            left,
            right,
            ..
        } => larger(one(*to), larger(one(*left), in_operand(*right))),
        Instruction::CheckRange { value, .. } => one(*value),
        Instruction::CheckPointer { pointer, .. } => one(*pointer),
        Instruction::Offset { to, base, .. }
        | Instruction::Load { to, base, .. }
        | Instruction::LoadByte { to, base, .. } => larger(one(*to), in_base(*base)),
        Instruction::Index {
            to,
            base,
            index,
            ..
        } => larger(one(*to), larger(in_base(*base), one(*index))),
        Instruction::Store { base, from, .. } | Instruction::StoreByte { base, from, .. } => {
            larger(in_base(*base), one(*from))
        }
        Instruction::Branch { left, right, .. } | Instruction::BranchBack { left, right, .. } => {
            larger(one(*left), in_operand(*right))
        }
        Instruction::Call { to, operands, .. } => larger(one(*to), in_list(operands.as_slice())),
        Instruction::CallValue {
            to,
            callee,
            operands,
            ..
        } => larger(one(*to), larger(one(*callee), in_list(operands.as_slice()))),
        Instruction::Return { from } | Instruction::Put { from } => one(*from),
        Instruction::Jump { .. }
        | Instruction::JumpBack { .. }
        | Instruction::Trap { .. }
        | Instruction::End => 0,
    }
}

fn scratch_at(base: Base, offset: u32, extent: u32) -> u64
    ensures { result ≡ scratch_at base offset extent }
{
    match base {
        Base::Scratch => u64::from(offset) + u64::from(extent),
        Base::Frame | Base::Program | Base::Temporary(_) => 0,
    }
}

fn meant_by(instruction: &Instruction) -> u64
    ensures { result ≡ meant_by instruction.now }
{
    match instruction {
        Instruction::Offset {
            base,
            bytes,
            extent,
            ..
        } => scratch_at(*base, *bytes, *extent),
        Instruction::Load { base, offset, .. } | Instruction::Store { base, offset, .. } => {
            scratch_at(*base, *offset, 4)
        }
        Instruction::LoadByte { base, offset, .. } | Instruction::StoreByte { base, offset, .. } =>
            { scratch_at(*base, *offset, 1) }
        _ => 0,
    }
}

/// What instructions need of an activation: so many temporaries, and so many bytes of the scratch block.
#[derive(Clone, Copy)]
pub struct Needs {
    pub temporaries: u64,
    pub scratch: u64,
}

/// What the instructions of a routine need. Both are found in one walk, since going through them takes most of its
/// time.
pub fn needs_of(list: &[Instruction]) -> Needs
    ensures temporaries { result.temporaries ≡ temporaries_in list.now }
    ensures scratch { result.scratch ≡ scratch_in list.now }
{
    let mut temporaries = 0;
    let mut scratch = 0;
    for instruction in list {
        temporaries = larger(temporaries, named_in(instruction));
        scratch = larger(scratch, meant_by(instruction));
    }
    Needs {
        temporaries,
        scratch,
    }
}
