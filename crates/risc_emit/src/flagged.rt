// Where the flags are those of a temporary: after an instruction whose last word sets them by its result, if no jump
// leads there.

ghost use Rattle.std.specs.Prelude.{◌≡◌, suc, ◌+◌, ◌-◌, true, if◌then◌else◌, Some, None, slice_set, IfOk};
ghost use Rattle.risc_emit_forms.specs.Peephole.{sets_flags, flagged_by, jump_of, set_in, jumped, flagged};

use std::alloc::Global;
use tac_code::code::{Instruction, Operator, OutOfMemory};

fn sets_flags(operator: Operator) -> bool
    ensures { result ≡ sets_flags operator }
{
    match operator {
        Operator::Add | Operator::Subtract | Operator::Modulo => true,
        Operator::Multiply | Operator::Divide => false,
    }
}

// The result of an operation, if the flags are set by it.
fn flagged_result(operator: Operator, to: u32) -> Option<u32>
    ensures { result ≡ (if sets_flags operator then Some to else None) }
{
    if sets_flags(operator) { Some(to) } else { None }
}

// The temporary whose register determines N and Z after an instruction.
fn flagged_by(instruction: &Instruction) -> Option<u32>
    ensures { result ≡ flagged_by instruction.now }
{
    match instruction {
        Instruction::Arithmetic { operator, to, .. } => flagged_result(*operator, *to),
        Instruction::Bits { to, .. }
        | Instruction::Load { to, .. }
        | Instruction::LoadByte { to, .. } => Some(*to),
        _ => None,
    }
}

fn set(marks: &mut Vec<bool>, place: usize)
    ensures { marks.new.items ≡ slice_set marks.old.items place true }
{
    if place < marks.len() {
        marks[place] = true;
    }
}

// The place `distance` on from the one after a place.
fn set_ahead(marks: &mut Vec<bool>, place: usize, distance: u64)
    ensures { marks.new.items ≡ slice_set marks.old.items (suc place + distance) true }
{
    if place < marks.len() && distance < (marks.len() - place - 1) as u64 {
        set(marks, place + 1 + distance as usize);
    }
}

fn set_back(marks: &mut Vec<bool>, place: usize, distance: u64)
    ensures { marks.new.items ≡ slice_set marks.old.items (place - distance) true }
{
    let to = if distance < place as u64 {
        place - distance as usize
    } else {
        0
    };
    set(marks, to);
}

// The mark of the place that the instruction at a place jumps to.
fn set_target(marks: &mut Vec<bool>, place: usize, instruction: &Instruction)
    ensures { marks.new.items ≡ set_in (jump_of instruction.now place) marks.old.items }
{
    match instruction {
        Instruction::Jump { forward } | Instruction::Branch { forward, .. } => set_ahead(
            marks, place, *forward,
        ),
        Instruction::JumpBack { back } | Instruction::BranchBack { back, .. } => set_back(
            marks, place, *back,
        ),
        _ => {}
    }
}

/// For each place of a body, whether a jump leads to it.
pub(crate) fn jumped_places(alloc: Global, body: &[Instruction]) -> Result<Vec<bool>, OutOfMemory>
    ensures { IfOk result (λ marks. marks.items ≡ jumped body.now) }
{
    let mut marks = vec![in alloc; false; body.len()]?;
    for place in 0..body.len() {
        set_target(&mut marks, place, &body[place]);
    }
    Ok(marks)
}

/// The temporary whose register determines N and Z at a place, if there is one.
pub(crate) fn flagged(body: &[Instruction], marks: &[bool], place: usize) -> Option<u32>
    requires { marks.now ≡ jumped body.now }
    ensures { result ≡ flagged body.now place }
{
    if place == 0 || place >= marks.len() || marks[place] {
        return None;
    }
    match body.get(place - 1) {
        Some(instruction) => flagged_by(instruction),
        None => None,
    }
}
