// What an instruction that is kept becomes, with its result in a temporary that was chosen. `None` if the rules don't
// allow it; the rows then mean nothing.

mod memory;

ghost use Rattle.std.specs.Prelude.{◌≡◌, ℕ, List, IfOk, IfSome, Some};
ghost use Rattle.tac_code.specs.declared.code.Instruction.TheVariants as Element;
ghost use Rattle.tac_pass.specs.Acts as act;
ghost use Rattle.tac_pass.specs.Walk.{IsMade};

use crate::operands::{holder, renamed_right};
use crate::renaming::memory::{
    kept_address, kept_load, kept_load_byte, kept_store, kept_store_byte,
};
use crate::table::{Reach, Rows};
use std::alloc::Global;
use tac_code::code::{Constant, Instruction, Operands, OutOfMemory};

const NOWHERE: Reach = Reach::Within(0, 0);

fn kept_text(
    alloc: Global,
    rows: &mut Rows,
    to: u32,
    instruction: &Instruction,
) -> Result<Option<Instruction>, OutOfMemory>
    ensures { IfOk result (λ made. IfSome made
        (λ new_one. (r : ℕ) (minded : List ℕ) → IsMade
        (act.kept r minded rows.old to instruction.now) new_one rows.new)) }
{
    let Instruction::Text { to: given, bytes } = instruction else {
        return Ok(None);
    };
    let bytes = Constant::new(alloc, bytes.as_slice().to_vec(alloc)?)?;
    rows.give(*given, to, NOWHERE);
    Ok(Some(Instruction::Text { to, bytes }))
}

fn kept_given(rows: &mut Rows, to: u32, instruction: &Instruction) -> Option<Instruction>
    ensures { IfSome result (λ new_one. (r : ℕ) (minded : List ℕ) → IsMade
        (act.kept r minded rows.old to instruction.now) new_one rows.new) }
{
    match instruction {
        Instruction::Literal { to: given, value } => {
            rows.give(*given, to, NOWHERE);
            Some(Instruction::Literal { to, value: *value })
        }
        Instruction::RoutineValue { to: given, routine } => {
            rows.give(*given, to, NOWHERE);
            Some(Instruction::RoutineValue {
                to,
                routine: *routine,
            })
        }
        Instruction::Take { to: given } => {
            rows.give(*given, to, NOWHERE);
            Some(Instruction::Take { to })
        }
        Instruction::New {
            to: given,
            object_type,
            line,
        } => {
            rows.give(*given, to, NOWHERE);
            Some(Instruction::New {
                to,
                object_type: *object_type,
                line: *line,
            })
        }
        _ => None,
    }
}

fn kept_copy(rows: &mut Rows, to: u32, given: u32, from: u32) -> Option<Instruction>
    ensures { (r : ℕ) (minded : List ℕ) → IfSome result
        (λ new_one. IsMade (act.kept r minded rows.old to (Element.Copy given from)) new_one rows.new) }
{
    let known = rows.known(from);
    let from = known.holder?;
    rows.give(given, to, known.reach);
    Some(Instruction::Copy { to, from })
}

fn kept_arithmetic(rows: &mut Rows, to: u32, instruction: &Instruction) -> Option<Instruction>
    ensures { IfSome result (λ new_one. (r : ℕ) (minded : List ℕ) → IsMade
        (act.kept r minded rows.old to instruction.now) new_one rows.new) }
{
    let Instruction::Arithmetic {
        operator,
        to: given,
        left,
        right,
        error,
        line,
    } = instruction
    else {
        return None;
    };
    let left = holder(rows, *left)?;
    let right = renamed_right(rows, *right)?;
    rows.give(*given, to, NOWHERE);
    Some(Instruction::Arithmetic {
        operator: *operator,
        to,
        left,
        right,
        error: *error,
        line: *line,
    })
}

fn kept_bits(rows: &mut Rows, to: u32, instruction: &Instruction) -> Option<Instruction>
    ensures { IfSome result (λ new_one. (r : ℕ) (minded : List ℕ) → IsMade
        (act.kept r minded rows.old to instruction.now) new_one rows.new) }
{
    let Instruction::Bits {
        operator,
        to: given,
        left,
        right,
    } = instruction
    else {
        return None;
    };
    let left = holder(rows, *left)?;
    let right = renamed_right(rows, *right)?;
    rows.give(*given, to, NOWHERE);
    Some(Instruction::Bits {
        operator: *operator,
        to,
        left,
        right,
    })
}

fn kept_compare(rows: &mut Rows, to: u32, instruction: &Instruction) -> Option<Instruction>
    ensures { IfSome result (λ new_one. (r : ℕ) (minded : List ℕ) → IsMade
        (act.kept r minded rows.old to instruction.now) new_one rows.new) }
{
    let Instruction::Compare {
        relation,
        to: given,
        left,
        right,
    } = instruction
    else {
        return None;
    };
    let left = holder(rows, *left)?;
    let right = renamed_right(rows, *right)?;
    rows.give(*given, to, NOWHERE);
    Some(Instruction::Compare {
        relation: *relation,
        to,
        left,
        right,
    })
}

fn kept_computed(rows: &mut Rows, to: u32, instruction: &Instruction) -> Option<Instruction>
    ensures { IfSome result (λ new_one. (r : ℕ) (minded : List ℕ) → IsMade
        (act.kept r minded rows.old to instruction.now) new_one rows.new) }
{
    match instruction {
        Instruction::Arithmetic { .. } => kept_arithmetic(rows, to, instruction),
        Instruction::Bits { .. } => kept_bits(rows, to, instruction),
        Instruction::Compare { .. } => kept_compare(rows, to, instruction),
        _ => None,
    }
}

fn kept_tested(rows: &mut Rows, instruction: &Instruction) -> Option<Instruction>
    ensures { IfSome result (λ new_one. (r t : ℕ) (minded : List ℕ) → IsMade
        (act.kept r minded rows.old t instruction.now) new_one rows.new) }
{
    match instruction {
        Instruction::CheckRange {
            value,
            low,
            high,
            error,
            line,
        } => Some(Instruction::CheckRange {
            value: holder(rows, *value)?,
            low: *low,
            high: *high,
            error: *error,
            line: *line,
        }),
        Instruction::CheckPointer {
            pointer,
            error,
            line,
        } => {
            let holder = holder(rows, *pointer)?;
            rows.find(*pointer);
            Some(Instruction::CheckPointer {
                pointer: holder,
                error: *error,
                line: *line,
            })
        }
        Instruction::Put { from } => Some(Instruction::Put {
            from: holder(rows, *from)?,
        }),
        _ => None,
    }
}

fn renamed_list(alloc: Global, rows: &Rows, list: &[u32]) -> Result<Option<Operands>, OutOfMemory>
    ensures { IfOk result (λ found. IfSome found (λ operands. act.renamed_list rows.now list.now ≡ Some operands)) }
{
    let mut operands = Operands::new(alloc);
    for at in 0..list.len() {
        let Some(holder) = holder(rows, list[at]) else {
            return Ok(None);
        };
        operands.push(holder)?;
    }
    Ok(Some(operands))
}

fn kept_call(
    alloc: Global,
    rows: &mut Rows,
    to: u32,
    instruction: &Instruction,
) -> Result<Option<Instruction>, OutOfMemory>
    ensures { IfOk result (λ made. IfSome made
        (λ new_one. (r : ℕ) (minded : List ℕ) → IsMade
        (act.kept r minded rows.old to instruction.now) new_one rows.new)) }
{
    let Instruction::Call {
        to: given,
        routine,
        operands,
        line,
    } = instruction
    else {
        return Ok(None);
    };
    if !rows.are_fresh() {
        return Ok(None);
    }
    let Some(operands) = renamed_list(alloc, rows, operands.as_slice())? else {
        return Ok(None);
    };
    rows.call(*given, to);
    Ok(Some(Instruction::Call {
        to,
        routine: *routine,
        operands,
        line: *line,
    }))
}

fn kept_call_value(
    alloc: Global,
    rows: &mut Rows,
    to: u32,
    instruction: &Instruction,
) -> Result<Option<Instruction>, OutOfMemory>
    ensures { IfOk result (λ made. IfSome made
        (λ new_one. (r : ℕ) (minded : List ℕ) → IsMade
        (act.kept r minded rows.old to instruction.now) new_one rows.new)) }
{
    let Instruction::CallValue {
        to: given,
        callee,
        operands,
        line,
    } = instruction
    else {
        return Ok(None);
    };
    if !rows.are_fresh() {
        return Ok(None);
    }
    let Some(callee) = holder(rows, *callee) else {
        return Ok(None);
    };
    let Some(operands) = renamed_list(alloc, rows, operands.as_slice())? else {
        return Ok(None);
    };
    rows.call(*given, to);
    Ok(Some(Instruction::CallValue {
        to,
        callee,
        operands,
        line: *line,
    }))
}

fn kept_memory(
    routine: usize,
    minded: &[u32],
    rows: &mut Rows,
    to: u32,
    instruction: &Instruction,
) -> Option<Instruction>
    ensures { IfSome result (λ new_one. IsMade
        (act.kept routine minded.now rows.old to instruction.now) new_one rows.new) }
{
    match instruction {
        Instruction::Load {
            to: given,
            base,
            offset,
        } => kept_load(routine, minded, rows, to, *given, *base, *offset),
        Instruction::LoadByte {
            to: given,
            base,
            offset,
        } => kept_load_byte(routine, minded, rows, to, *given, *base, *offset),
        Instruction::Store { base, offset, from } => kept_store(
            routine, minded, rows, *base, *offset, *from,
        ),
        Instruction::StoreByte { base, offset, from } => {
            kept_store_byte(routine, minded, rows, *base, *offset, *from)
        }
        _ => None,
    }
}

/// An instruction that is kept, with its result in this temporary.
pub fn kept(
    alloc: Global,
    routine: usize,
    minded: &[u32],
    rows: &mut Rows,
    to: u32,
    instruction: &Instruction,
) -> Result<Option<Instruction>, OutOfMemory>
    ensures { IfOk result (λ made. IfSome made
        (λ new_one. IsMade (act.kept routine minded.now rows.old to instruction.now) new_one rows.new)) }
{
    match instruction {
        Instruction::Literal { .. }
        | Instruction::RoutineValue { .. }
        | Instruction::Take { .. }
        | Instruction::New { .. } => Ok(kept_given(rows, to, instruction)),
        Instruction::Copy { to: given, from } => Ok(kept_copy(rows, to, *given, *from)),
        Instruction::Arithmetic { .. } | Instruction::Bits { .. } | Instruction::Compare { .. } => {
            Ok(kept_computed(rows, to, instruction))
        }
        Instruction::CheckRange { .. }
        | Instruction::CheckPointer { .. }
        | Instruction::Put { .. } => Ok(kept_tested(rows, instruction)),
        Instruction::Offset { .. } | Instruction::Index { .. } => {
            Ok(kept_address(routine, rows, to, instruction))
        }
        Instruction::Load { .. }
        | Instruction::LoadByte { .. }
        | Instruction::Store { .. }
        | Instruction::StoreByte { .. } => Ok(kept_memory(routine, minded, rows, to, instruction)),
        Instruction::Text { .. } => kept_text(alloc, rows, to, instruction),
        Instruction::Call { .. } => kept_call(alloc, rows, to, instruction),
        Instruction::CallValue { .. } => kept_call_value(alloc, rows, to, instruction),
        _ => Ok(None),
    }
}
