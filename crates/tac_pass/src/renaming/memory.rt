// Whether what is kept of loads, stores and addresses is renamed.

ghost use Rattle.std.specs.Prelude.{◌≡◌, ℕ, List, IfSome};
ghost use Rattle.tac_code.specs.declared.code.Instruction.TheVariants as Element;
ghost use Rattle.tac_code.specs.Numbers.{steps_above};
ghost use Rattle.tac_pass.specs.Acts as act;
ghost use Rattle.tac_pass.specs.Walk.{IsMade};

use crate::operands::{base_reach, holder, own_word, renamed_base, shifted, stretched};
use crate::renaming::NOWHERE;
use crate::table::{Reach, Rows};
use tac_code::code::{Base, Instruction};

// How many steps lie above the lowest index.
fn steps_above(low: i32, high: i32) -> u64
    ensures { result ≡ steps_above low high }
{
    if high < low {
        return 0;
    }
    (i64::from(high) - i64::from(low)) as u64
}

fn kept_offset(
    routine: usize,
    rows: &mut Rows,
    to: u32,
    instruction: &Instruction,
) -> Option<Instruction>
    ensures { IfSome result (λ new_one. (minded : List ℕ) → IsMade
        (act.kept routine minded rows.old to instruction.now) new_one rows.new) }
{
    let Instruction::Offset {
        to: given,
        base,
        bytes,
        extent,
    } = instruction
    else {
        return None;
    };
    let reach = shifted(*bytes, base_reach(routine, *base, rows));
    let base = renamed_base(rows, *base)?;
    rows.give(*given, to, reach);
    Some(Instruction::Offset {
        to,
        base,
        bytes: *bytes,
        extent: *extent,
    })
}

fn kept_index(
    routine: usize,
    rows: &mut Rows,
    to: u32,
    instruction: &Instruction,
) -> Option<Instruction>
    ensures { IfSome result (λ new_one. (minded : List ℕ) → IsMade
        (act.kept routine minded rows.old to instruction.now) new_one rows.new) }
{
    let Instruction::Index {
        to: given,
        base,
        index,
        low,
        high,
        width,
        error,
        line,
    } = instruction
    else {
        return None;
    };
    let most = steps_above(*low, *high) * u64::from(*width);
    let reach = stretched(most, base_reach(routine, *base, rows));
    let base = renamed_base(rows, *base)?;
    let index = holder(rows, *index)?;
    rows.give(*given, to, reach);
    Some(Instruction::Index {
        to,
        base,
        index,
        low: *low,
        high: *high,
        width: *width,
        error: *error,
        line: *line,
    })
}

pub(super) fn kept_address(
    routine: usize,
    rows: &mut Rows,
    to: u32,
    instruction: &Instruction,
) -> Option<Instruction>
    ensures { IfSome result (λ new_one. (minded : List ℕ) → IsMade
        (act.kept routine minded rows.old to instruction.now) new_one rows.new) }
{
    match instruction {
        Instruction::Offset { .. } => kept_offset(routine, rows, to, instruction),
        Instruction::Index { .. } => kept_index(routine, rows, to, instruction),
        _ => None,
    }
}

pub(super) fn kept_load(
    routine: usize,
    minded: &[u32],
    rows: &mut Rows,
    to: u32,
    given: u32,
    base: Base,
    offset: u32,
) -> Option<Instruction>
    ensures { IfSome result (λ new_one. IsMade
        (act.kept routine minded.now rows.old to (Element.Load given base offset)) new_one rows.new) }
{
    if let Some(word) = own_word(base, offset) {
        if rows.word(minded, word).stale {
            return None;
        }
        rows.give_word(minded, given, to, word);
        return Some(Instruction::Load {
            to,
            base: Base::Frame,
            offset,
        });
    }
    let reach = base_reach(routine, base, rows);
    if !rows.is_seen(minded, reach, offset) {
        return None;
    }
    let base = renamed_base(rows, base)?;
    rows.give(given, to, Reach::Anywhere);
    Some(Instruction::Load { to, base, offset })
}

pub(super) fn kept_load_byte(
    routine: usize,
    minded: &[u32],
    rows: &mut Rows,
    to: u32,
    given: u32,
    base: Base,
    offset: u32,
) -> Option<Instruction>
    ensures { IfSome result (λ new_one. IsMade
        (act.kept routine minded.now rows.old to (Element.LoadByte given base offset)) new_one rows.new) }
{
    let reach = base_reach(routine, base, rows);
    if !rows.is_seen(minded, reach, offset) {
        return None;
    }
    let base = renamed_base(rows, base)?;
    rows.give(given, to, NOWHERE);
    Some(Instruction::LoadByte { to, base, offset })
}

pub(super) fn kept_store(
    routine: usize,
    minded: &[u32],
    rows: &mut Rows,
    base: Base,
    offset: u32,
    from: u32,
) -> Option<Instruction>
    ensures { (t : ℕ) → IfSome result (λ new_one. IsMade
        (act.kept routine minded.now rows.old t (Element.Store base offset from)) new_one rows.new) }
{
    let holder = holder(rows, from)?;
    if let Some(word) = own_word(base, offset) {
        rows.store(minded, from, word, false);
        return Some(Instruction::Store {
            base: Base::Frame,
            offset,
            from: holder,
        });
    }
    let reach = base_reach(routine, base, rows);
    let base = renamed_base(rows, base)?;
    rows.write(minded, reach, offset);
    Some(Instruction::Store {
        base,
        offset,
        from: holder,
    })
}

pub(super) fn kept_store_byte(
    routine: usize,
    minded: &[u32],
    rows: &mut Rows,
    base: Base,
    offset: u32,
    from: u32,
) -> Option<Instruction>
    ensures { (t : ℕ) → IfSome result (λ new_one. IsMade
        (act.kept routine minded.now rows.old t (Element.StoreByte base offset from)) new_one rows.new) }
{
    let reach = base_reach(routine, base, rows);
    if !rows.is_seen(minded, reach, offset) {
        return None;
    }
    let base = renamed_base(rows, base)?;
    let holder = holder(rows, from)?;
    rows.write(minded, reach, offset);
    Some(Instruction::StoreByte {
        base,
        offset,
        from: holder,
    })
}
