// Instructions that are left out, become copies, are put in, or end the code. `None` if the rules don't allow it; the
// rows then mean nothing.

ghost use Rattle.std.specs.Prelude.{◌≡◌, ℕ, List, IsTrue, IfSome, Some};
ghost use Rattle.tac_pass.specs.Acts as act;
ghost use Rattle.tac_pass.specs.Walk.{IsMade};

use crate::operands::{holder, own_word};
use crate::table::{Rows, unknown};
use tac_code::code::{Base, Instruction};

/// Leaves out an instruction; false if it can't be left out.
pub fn spare(minded: &[u32], rows: &mut Rows, instruction: &Instruction) -> bool
    ensures { IsTrue result → (r : ℕ) → act.spared r minded.now rows.old instruction.now ≡ Some rows.new }
{
    match instruction {
        Instruction::Literal { to, .. } => {
            rows.set_known(*to, unknown());
            true
        }
        Instruction::Copy { to, from } => {
            let known = rows.known(*from);
            rows.set_known(*to, known);
            true
        }
        Instruction::Load { to, base, offset } => {
            let Some(word) = own_word(*base, *offset) else {
                return false;
            };
            let value = rows.word(minded, word).value;
            rows.set_known(*to, value);
            true
        }
        Instruction::Store { base, offset, from } => {
            let Some(word) = own_word(*base, *offset) else {
                return false;
            };
            if !rows.is_minded(minded, word) {
                return false;
            }
            rows.store(minded, *from, word, true);
            true
        }
        Instruction::CheckRange { error, .. } => *error == 0,
        Instruction::CheckPointer { error, .. } => *error == 0,
        _ => false,
    }
}

/// A load or a store of the own frame becomes a copy to this temporary.
pub fn moved(
    minded: &[u32],
    rows: &mut Rows,
    to: u32,
    instruction: &Instruction,
) -> Option<Instruction>
    ensures { (r : ℕ) → IfSome result (λ new_one. IsMade
        (act.moved_word r minded.now rows.old to instruction.now) new_one rows.new) }
{
    match instruction {
        Instruction::Load {
            to: given,
            base,
            offset,
        } => {
            let word = own_word(*base, *offset)?;
            let from = rows.word(minded, word).value.holder?;
            rows.give_word(minded, *given, to, word);
            Some(Instruction::Copy { to, from })
        }
        Instruction::Store { base, offset, from } => {
            let word = own_word(*base, *offset)?;
            let holder = holder(rows, *from)?;
            if !rows.is_minded(minded, word) {
                return None;
            }
            rows.keep_word(minded, *from, word, to);
            Some(Instruction::Copy { to, from: holder })
        }
        _ => None,
    }
}

/// An instruction that no other follows.
pub fn ending(rows: &Rows, instruction: &Instruction) -> Option<Instruction>
    ensures { (r : ℕ) (minded : List ℕ) → IfSome result
        (λ new_one. act.ending r minded rows.now instruction.now ≡ Some new_one) }
{
    match instruction {
        Instruction::Return { from } => Some(Instruction::Return {
            from: holder(rows, *from)?,
        }),
        Instruction::Trap { error, line } => Some(Instruction::Trap {
            error: *error,
            line: *line,
        }),
        Instruction::End => Some(Instruction::End),
        _ => None,
    }
}

/// The store of a word by what holds it, which is put in.
pub fn cleaned(minded: &[u32], rows: &mut Rows, word: u32) -> Option<Instruction>
    ensures { (r : ℕ) → IfSome result (λ new_one. IsMade (act.cleaned r minded.now rows.old word) new_one rows.new) }
{
    let was = rows.word(minded, word);
    if was.blank {
        return None;
    }
    let from = was.value.holder?;
    let offset = word.checked_mul(4)?;
    rows.clean(minded, word);
    Some(Instruction::Store {
        base: Base::Frame,
        offset,
        from,
    })
}

/// The load of a word, which is put in.
pub fn fetched(minded: &[u32], rows: &mut Rows, word: u32, to: u32) -> Option<Instruction>
    ensures { (r : ℕ) → IfSome result (λ new_one. IsMade (act.fetched r minded.now rows.old word to) new_one rows.new) }
{
    let was = rows.word(minded, word);
    if was.blank || was.stale {
        return None;
    }
    let offset = word.checked_mul(4)?;
    rows.fetch_word(minded, word, to);
    Some(Instruction::Load {
        to,
        base: Base::Frame,
        offset,
    })
}
