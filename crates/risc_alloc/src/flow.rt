// What an instruction reads and writes, and where it leads, part by part.

ghost use Rattle.std.specs.Prelude.{◌≡◌, suc, ◌+◌, ◌-◌, IfSome};
ghost use Rattle.risc_alloc.specs.Flow.{written_by};
ghost use Rattle.risc_alloc.specs.Parts.{IsExit, is_call, read_first, read_second, read_passed, in_operand_or_none};
ghost use Rattle.risc_alloc.specs.Parts.{in_base_or_none};

use tac_code::code::{Base, Instruction, Operand};

/// Where an instruction leads: whether to the next place, and the place to which it may jump.
#[derive(Clone, Copy)]
pub(crate) struct Exit {
    pub falls: bool,
    pub target: Option<usize>,
}

fn forward(place: usize, places: usize, distance: u64) -> Option<usize>
    ensures { IfSome result (λ next. next ≡ suc place + distance) }
{
    if place < places && distance < (places - place - 1) as u64 {
        Some(place + 1 + distance as usize)
    } else {
        None
    }
}

fn back(place: usize, distance: u64) -> Option<usize>
    ensures { IfSome result (λ next. next ≡ place - distance) }
{
    if distance <= place as u64 {
        Some(place - distance as usize)
    } else {
        None
    }
}

// `None` if a jump leaves the body. What is returned stays in registers only if this is part of the walks.
#[inline(always)]
pub(crate) fn exit_of(instruction: &Instruction, place: usize, places: usize) -> Option<Exit>
    ensures { IfSome result (IsExit instruction.now place) }
{
    match instruction {
        Instruction::Jump { forward: distance } => Some(Exit {
            falls: false,
            target: Some(forward(place, places, *distance)?),
        }),
        Instruction::JumpBack { back: distance } => Some(Exit {
            falls: false,
            target: Some(back(place, *distance)?),
        }),
        Instruction::Branch {
            forward: distance,
            ..
        } => Some(Exit {
            falls: true,
            target: Some(forward(place, places, *distance)?),
        }),
        Instruction::BranchBack { back: distance, .. } => Some(Exit {
            falls: true,
            target: Some(back(place, *distance)?),
        }),
        Instruction::Return { .. } | Instruction::Trap { .. } | Instruction::End => Some(Exit {
            falls: false,
            target: None,
        }),
        _ => Some(Exit {
            falls: true,
            target: None,
        }),
    }
}

pub(crate) fn written(instruction: &Instruction) -> Option<u32>
    ensures { result ≡ written_by instruction.now }
{
    match instruction {
        Instruction::Literal { to, .. }
        | Instruction::Copy { to, .. }
        | Instruction::Arithmetic { to, .. }
        | Instruction::Bits { to, .. }
        | Instruction::Compare { to, .. }
        | Instruction::Text { to, .. }
        | Instruction::Offset { to, .. }
        | Instruction::Index { to, .. }
        | Instruction::RoutineValue { to, .. }
        | Instruction::Load { to, .. }
        | Instruction::LoadByte { to, .. }
        | Instruction::Call { to, .. }
        | Instruction::CallValue { to, .. }
        | Instruction::Take { to }
        | Instruction::New { to, .. } => Some(*to),
        _ => None,
    }
}

pub(crate) fn is_call(instruction: &Instruction) -> bool
    ensures { result ≡ is_call instruction.now }
{
    matches!(
        instruction,
        Instruction::Call { .. } | Instruction::CallValue { .. }
    )
}

fn in_operand(operand: Operand) -> Option<u32>
    ensures { result ≡ in_operand_or_none operand }
{
    match operand {
        Operand::Temporary(t) => Some(t),
        Operand::Number(_) => None,
    }
}

fn in_base(base: Base) -> Option<u32>
    ensures { result ≡ in_base_or_none base }
{
    match base {
        Base::Temporary(t) => Some(t),
        Base::Frame | Base::Scratch | Base::Program => None,
    }
}

// The left operand, or the only one.
pub(crate) fn read_first(instruction: &Instruction) -> Option<u32>
    ensures { result ≡ read_first instruction.now }
{
    match instruction {
        Instruction::Copy { from, .. }
        | Instruction::Store { from, .. }
        | Instruction::StoreByte { from, .. }
        | Instruction::Return { from }
        | Instruction::Put { from } => Some(*from),
        Instruction::Arithmetic { left, .. }
        | Instruction::Bits { left, .. }
        | Instruction::Compare { left, .. }
        | Instruction::Branch { left, .. }
        | Instruction::BranchBack { left, .. } => Some(*left),
        Instruction::CheckRange { value, .. } => Some(*value),
        Instruction::CheckPointer { pointer, .. } => Some(*pointer),
        Instruction::Index { index, .. } => Some(*index),
        Instruction::CallValue { callee, .. } => Some(*callee),
        _ => None,
    }
}

// The right operand, or the base of an address.
pub(crate) fn read_second(instruction: &Instruction) -> Option<u32>
    ensures { result ≡ read_second instruction.now }
{
    match instruction {
        Instruction::Arithmetic { right, .. }
        | Instruction::Bits { right, .. }
        | Instruction::Compare { right, .. }
        | Instruction::Branch { right, .. }
        | Instruction::BranchBack { right, .. } => in_operand(*right),
        Instruction::Offset { base, .. }
        | Instruction::Index { base, .. }
        | Instruction::Load { base, .. }
        | Instruction::Store { base, .. }
        | Instruction::LoadByte { base, .. }
        | Instruction::StoreByte { base, .. } => in_base(*base),
        _ => None,
    }
}

// What a call passes.
pub(crate) fn read_passed(instruction: &Instruction) -> &[u32]
    ensures { result.now ≡ read_passed instruction.now }
{
    match instruction {
        Instruction::Call { operands, .. } | Instruction::CallValue { operands, .. } =>
            operands.as_slice(),
        _ => &[],
    }
}
