//! Loading an image.

ghost use Rattle.std.specs.Prelude.{◌≡◌, None, OnOk, IfOk, IfErr};
ghost use Rattle.risc_image.specs.Image.{Image};
ghost use Rattle.risc_load.specs.Refusal.{budget_fault, IsRefused};
ghost use Rattle.risc_load.specs.Loaded.{loaded_state};

use crate::budget::{Budget, LoadRefusal};
use risc_image::ImageView;
use risc_machine::Machine;
use risc_machine::limits::MAX_MEMORY;
use std::alloc::Global;

/// The machine in the loaded state: the code at 0, then the globals, the heap and the stack of the budget.
///
/// A budget whose stack or heap is not a multiple of 4 is `BudgetUneven`; otherwise one that does not fit next to the
/// code and the globals is `BudgetTooLarge`. The machine allocates its memory here, once; if that is refused, so is the
/// load.
pub fn load(alloc: Global, image: &ImageView, budget: Budget) -> Result<Machine, LoadRefusal>
    ensures ok { IfOk result (λ machine. machine ≡ loaded_state image.now budget) }
    ensures fits { OnOk result (budget_fault image.now budget ≡ None) }
    ensures err { IfErr result (λ refusal. IsRefused image.now budget refusal) }
{
    if budget.stack % 4 != 0 || budget.heap % 4 != 0 {
        return Err(LoadRefusal::BudgetUneven);
    }
    let code = image.code();
    let bytes = code.len() as u64
        + u64::from(image.global())
        + u64::from(budget.heap)
        + u64::from(budget.stack);
    if bytes > u64::from(MAX_MEMORY) {
        return Err(LoadRefusal::BudgetTooLarge);
    }
    match Machine::start(alloc, code, image.global(), budget.heap, budget.stack) {
        Ok(machine) => Ok(machine),
        Err(_) => Err(LoadRefusal::OutOfMemory),
    }
}
