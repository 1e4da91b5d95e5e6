// Rooms in a list of instructions, to be filled once the code after them is known.

ghost use Rattle.std.specs.Prelude.{◌≡◌, ◌<◌, ◌∷◌, ◌++◌, length, slice_set, List, IfOk};
ghost use Rattle.tac_code.specs.declared.code.Instruction.{Instruction};
ghost use Rattle.tac_code.specs.declared.code.Instruction.TheVariants as i;

use std::alloc::{AllocError, Global};
use tac_code::code::{Instruction, Operand, Operands, Relation};

fn put(list: &mut Vec<Instruction>, place: usize, instruction: Instruction)
    requires { place < length list.old.items }
    ensures { list.new.items ≡ slice_set list.old.items place instruction }
{
    list[place] = instruction;
}

/// Puts a jump into its room: past all instructions after it.
pub fn fill_with_jump(list: &mut Vec<Instruction>, place: usize)
    ensures { (before : List Instruction) (filler : Instruction) (behind : List Instruction) → list.old.items ≡ before
        ++ filler ∷ behind → place ≡ length before → list.new.items ≡ before ++ i.Jump (length behind) ∷ behind }
{
    if place < list.len() {
        let forward = (list.len() - place - 1) as u64;
        put(list, place, Instruction::Jump { forward });
    }
}

/// Puts a branch into its room: past all instructions after it.
pub fn fill_with_branch(
    list: &mut Vec<Instruction>,
    place: usize,
    relation: Relation,
    left: u32,
    right: Operand,
)
    ensures { (before : List Instruction) (filler : Instruction) (behind : List Instruction) → list.old.items ≡ before
        ++ filler ∷ behind → place ≡ length before → list.new.items ≡ before ++ i.Branch relation left right
        (length behind) ∷ behind }
{
    if place < list.len() {
        let forward = (list.len() - place - 1) as u64;
        let branch = Instruction::Branch {
            relation,
            left,
            right,
            forward,
        };
        put(list, place, branch);
    }
}

/// The operands of a call.
pub fn listed(alloc: Global, temporaries: &[u32]) -> Result<Operands, AllocError>
    ensures { IfOk result (λ list. list ≡ temporaries.now) }
{
    let mut list = Operands::new(alloc);
    for temporary in temporaries {
        list.push(*temporary)?;
    }
    Ok(list)
}
