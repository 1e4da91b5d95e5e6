// The tests of `case` elements, and the jumps out of them.

ghost use Rattle.std.specs.Prelude.{◌≡◌, ◌++◌, ◌∷◌, ℕ, List, [], length, OnOk, IfOk};
ghost use Rattle.ps_lower_code.specs.Scopes.{Scope};
ghost use Rattle.ps_lower_code.specs.Statements.{elements_code};
ghost use Rattle.ps_lower.specs.Cases.{test_code, first_tests, last_test, open_elements, ends_from};
ghost use Rattle.ps_tree.specs.Tree.{Elements};
ghost use Rattle.tac_code.specs.declared.code.Instruction.{Instruction};
ghost use Rattle.tac_code.specs.declared.code.Instruction.TheVariants as i;
ghost use Rattle.tac_code.specs.declared.code.Operand.TheVariants as operand;
ghost use Rattle.tac_code.specs.declared.code.Relation.TheVariants.{NotEqual};

use crate::out::Code;
use std::alloc::AllocError;
use tac_code::code::{Operand, Relation};

/// The test of a constant that is followed by `others` others. The last has none.
fn test(out: &mut Code, constant: &i32, others: u64, d: u32) -> Result<(), AllocError>
    ensures { OnOk result (out.new ≡ out.old ++ test_code constant.now others d) }
{
    if others == 0 {
        return Ok(());
    }
    out.branch(Relation::Equal, d, Operand::Number(*constant), others)
}

/// The tests of an element's constants except the last, for which room is left. Returns the place of the room.
pub fn tests(out: &mut Code, constants: &[i32], d: u32) -> Result<usize, AllocError>
    ensures code { OnOk result (out.new ≡ (out.old ++ first_tests constants.now d) ++ i.End ∷ []) }
    ensures place { IfOk result (λ place. place ≡ length (out.old ++ first_tests constants.now d)) }
{
    let mut others = constants.len() as u64;
    for constant in constants {
        others = others.saturating_sub(1);
        test(out, constant, others, d)?;
    }
    out.room()
}

fn close_test(out: &mut Code, place: usize, constant: &i32, d: u32)
    ensures { (before : List Instruction) (filler : Instruction) (behind : List Instruction) → out.old ≡ before
        ++ filler ∷ behind → place ≡ length before → out.new ≡ before ++ i.Branch NotEqual d
        (operand.Number constant.now) (length behind) ∷ behind }
{
    let last = Operand::Number(*constant);
    out.set_branch(place, Relation::NotEqual, d, last);
}

/// Puts the last constant's test into its room: it skips all instructions after it.
pub fn close_tests(out: &mut Code, place: usize, constants: &[i32], d: u32)
    ensures { (before : List Instruction) (filler : Instruction) (behind : List Instruction) → out.old ≡ before
        ++ filler ∷ behind → place ≡ length before → out.new ≡ before ++ last_test constants.now d (length behind)
        ∷ behind }
{
    match constants.last() {
        None => out.set_jump(place),
        Some(constant) => close_test(out, place, constant, d),
    }
}

/// Puts the jumps from the elements' ends into their rooms: past everything after them.
pub fn close_elements(out: &mut Code, ends: &[usize])
    ensures { (k : Scope) (before : List Instruction) (elements : Elements) (d line : ℕ) → out.old ≡ before
        ++ (open_elements k elements d ++ i.Trap 7 line ∷ []) → ends.now ≡ ends_from k elements d (length before)
        → out.new ≡ before ++ elements_code k elements d line }
{
    for end in ends {
        out.set_jump(*end);
    }
}
