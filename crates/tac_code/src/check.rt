// The test of the code's invariant.

ghost use Rattle.std.specs.Prelude.{◌≡◌, ℕ, suc, ◌+◌, ◌<◌, ◌≤◌, ◌%◌, ◌↔◌, IsTrue, length};
ghost use Rattle.tac_code.specs.Meaning.{size};
ghost use Rattle.tac_code.specs.Sound.{AreOperands, IsInteger, IsOperand, IsBase, IsSoundAt, IsSoundBody};
ghost use Rattle.tac_code.specs.Sound.{IsSoundRoutine, IsLeaf, Each, CallsNone, IsErrorNumber, IsTestNumber, IsLine};

use crate::code::{BLOCK_LIMIT, Base, Instruction, Operand, Operands, TacRoutine};

/// The limits of what an instruction of a routine may name.
#[derive(Clone, Copy)]
pub struct Limits {
    pub temporaries: u32,
    pub places: usize,
    pub routines: usize,
    pub object_types: usize,
    /// The bytes of its scratch block.
    pub scratch: u32,
}

fn is_error_number(error: u8) -> bool
    ensures { IsTrue result ↔ IsErrorNumber error }
{
    1 <= error && error <= 13
}

fn is_line(line: u16) -> bool
    ensures { IsTrue result ↔ IsLine line }
{
    1 <= line
}

// The number of an error, and the line at which it occurs.
fn is_error(error: u8, line: u16) -> bool
    ensures { IsTrue result ↔ (IsErrorNumber error × IsLine line) }
{
    is_error_number(error) && is_line(line)
}

// The number of a test's error, or 0 for a test that can't fail, and the test's line.
fn is_test(error: u8, line: u16) -> bool
    ensures { IsTrue result ↔ (IsTestNumber error × IsLine line) }
{
    error <= 13 && is_line(line)
}

// Every number of this type is one, a fact that proofs about the code need.
fn is_integer(number: i32) -> bool
    ensures { IsTrue result ↔ IsInteger number }
{
    let _ = number;
    true
}

// A range, and the error for what is outside it.
fn is_range(low: i32, high: i32, error: u8, line: u16) -> bool
    ensures { IsTrue result ↔ (IsInteger low × IsInteger high × IsTestNumber error × IsLine line) }
{
    is_integer(low) && is_integer(high) && is_test(error, line)
}

fn are_operands(temporaries: u32, operands: &Operands) -> bool
    ensures { IsTrue result ↔ AreOperands temporaries operands.now }
{
    let list = operands.as_slice();
    list.len() <= 65 && list.iter().all(|t| *t < temporaries)
}

// The operands of a call, and its line.
fn are_passed(temporaries: u32, operands: &Operands, line: u16) -> bool
    ensures { IsTrue result ↔ (AreOperands temporaries operands.now × IsLine line) }
{
    are_operands(temporaries, operands) && is_line(line)
}

fn is_operand(temporaries: u32, operand: Operand) -> bool
    ensures { IsTrue result ↔ IsOperand temporaries operand }
{
    match operand {
        Operand::Temporary(t) => t < temporaries,
        Operand::Number(_) => true,
    }
}

// Both operands of an operation or a comparison.
fn are_compared(temporaries: u32, left: u32, right: Operand) -> bool
    ensures { IsTrue result ↔ ((left < temporaries) × IsOperand temporaries right) }
{
    left < temporaries && is_operand(temporaries, right)
}

// A base, with `bytes` bytes from an offset on.
fn is_base(limits: Limits, base: Base, offset: u32, bytes: u32) -> bool
    ensures { IsTrue result ↔ IsBase limits base offset bytes }
{
    match base {
        Base::Frame | Base::Program => true,
        Base::Scratch => u64::from(offset) + u64::from(bytes) <= u64::from(limits.scratch),
        Base::Temporary(t) => t < limits.temporaries,
    }
}

// A place `forward` instructions after the next one.
fn is_forward(limits: Limits, place: usize, forward: u64) -> bool
    requires { place < limits.places }
    ensures { IsTrue result ↔ suc place + forward < limits.places }
{
    forward < (limits.places - 1 - place) as u64
}

fn is_back(place: usize, back: u64) -> bool
    ensures { IsTrue result ↔ back ≤ place }
{
    back <= place as u64
}

fn is_sound_at(limits: Limits, place: usize, instruction: &Instruction) -> bool
    requires { place < limits.places }
    ensures { IsTrue result ↔ IsSoundAt limits place instruction.now }
{
    match instruction {
        Instruction::Literal { to, value } => *to < limits.temporaries && is_integer(*value),
        Instruction::Copy { to, from } => *to < limits.temporaries && *from < limits.temporaries,
        Instruction::Arithmetic {
            operator: _,
            to,
            left,
            right,
            error,
            line,
        } => {
            *to < limits.temporaries
                && are_compared(limits.temporaries, *left, *right)
                && is_test(*error, *line)
        }
        Instruction::Bits {
            operator: _,
            to,
            left,
            right,
        } => { *to < limits.temporaries && are_compared(limits.temporaries, *left, *right) }
        Instruction::Compare {
            relation: _,
            to,
            left,
            right,
        } => { *to < limits.temporaries && are_compared(limits.temporaries, *left, *right) }
        Instruction::CheckRange {
            value,
            low,
            high,
            error,
            line,
        } => { *value < limits.temporaries && is_range(*low, *high, *error, *line) }
        Instruction::CheckPointer {
            pointer,
            error,
            line,
        } => { *pointer < limits.temporaries && is_test(*error, *line) }
        Instruction::Text { to, bytes } => {
            *to < limits.temporaries && bytes.as_slice().len() % 4 == 0
        }
        Instruction::Offset {
            to,
            base,
            bytes,
            extent,
        } => { *to < limits.temporaries && is_base(limits, *base, *bytes, *extent) }
        Instruction::Index {
            to,
            base,
            index,
            low,
            high,
            width: _,
            error,
            line,
        } => {
            *to < limits.temporaries
                && is_base(limits, *base, 0, 0)
                && *index < limits.temporaries
                && is_range(*low, *high, *error, *line)
        }
        Instruction::RoutineValue { to, routine } => {
            *to < limits.temporaries && (*routine as usize) < limits.routines
        }
        Instruction::Load { to, base, offset } => {
            *to < limits.temporaries && is_base(limits, *base, *offset, 4)
        }
        Instruction::Store { base, offset, from } => {
            is_base(limits, *base, *offset, 4) && *from < limits.temporaries
        }
        Instruction::LoadByte { to, base, offset } => {
            *to < limits.temporaries && is_base(limits, *base, *offset, 1)
        }
        Instruction::StoreByte { base, offset, from } => {
            is_base(limits, *base, *offset, 1) && *from < limits.temporaries
        }
        Instruction::Jump { forward } => is_forward(limits, place, *forward),
        Instruction::JumpBack { back } => is_back(place, *back),
        Instruction::Branch {
            relation: _,
            left,
            right,
            forward,
        } => {
            are_compared(limits.temporaries, *left, *right) && is_forward(limits, place, *forward)
        }
        Instruction::BranchBack {
            relation: _,
            left,
            right,
            back,
        } => { are_compared(limits.temporaries, *left, *right) && is_back(place, *back) }
        Instruction::Call {
            to,
            routine,
            operands,
            line,
        } => {
            *to < limits.temporaries
                && (*routine as usize) < limits.routines
                && are_passed(limits.temporaries, operands, *line)
        }
        Instruction::CallValue {
            to,
            callee,
            operands,
            line,
        } => {
            *to < limits.temporaries
                && *callee < limits.temporaries
                && are_passed(limits.temporaries, operands, *line)
        }
        Instruction::Return { from } => *from < limits.temporaries,
        Instruction::Trap { error, line } => is_error(*error, *line),
        Instruction::Take { to } => *to < limits.temporaries,
        Instruction::Put { from } => *from < limits.temporaries,
        Instruction::New {
            to,
            object_type,
            line,
        } => {
            *to < limits.temporaries
                && (*object_type as usize) < limits.object_types
                && is_line(*line)
        }
        Instruction::End => true,
    }
}

fn is_sound_body(limits: Limits, body: &[Instruction]) -> bool
    requires { limits.places ≡ length body.now }
    ensures { IsTrue result ↔ IsSoundBody limits body.now }
{
    for (place, instruction) in body.iter().enumerate() {
        if !is_sound_at(limits, place, instruction) {
            return false;
        }
    }
    true
}

fn calls_none(instruction: &Instruction) -> bool
    ensures { IsTrue result ↔ CallsNone instruction.now }
{
    !matches!(
        instruction,
        Instruction::Call { .. } | Instruction::CallValue { .. }
    )
}

fn is_leaf_body(body: &[Instruction]) -> bool
    ensures { IsTrue result ↔ Each (λ _ i. CallsNone i) body.now }
{
    for instruction in body {
        if !calls_none(instruction) {
            return false;
        }
    }
    true
}

/// The bytes of a routine's blocks, and 4 for each temporary.
pub fn routine_size(routine: &TacRoutine) -> u64
    ensures { result ≡ size routine.now }
{
    let (frame, scratch, temporaries) = (routine.frame, routine.scratch, routine.temporaries);
    u64::from(frame) + u64::from(scratch) + 4 * u64::from(temporaries)
}

pub(crate) fn is_sound_routine(limits: Limits, routine: &TacRoutine) -> bool
    requires temporaries { limits.temporaries ≡ routine.now.temporaries }
    requires places { limits.places ≡ length routine.now.body }
    ensures { IsTrue result ↔ IsSoundRoutine limits routine.now }
{
    routine.parameters <= routine.temporaries
        && routine.frame % 4 == 0
        && routine.scratch % 4 == 0
        && routine_size(routine) < u64::from(BLOCK_LIMIT)
        && is_line(routine.line)
        && is_sound_body(limits, routine.body.as_slice())
}

pub(crate) fn is_leaf(routine: &TacRoutine) -> bool
    ensures { IsTrue result ↔ IsLeaf routine.now }
{
    routine.parameters <= 8 && routine_size(routine) <= 160 && is_leaf_body(routine.body.as_slice())
}
