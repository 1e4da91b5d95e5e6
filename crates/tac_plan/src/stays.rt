// Routines that stay as they are.

ghost use Rattle.std.specs.Prelude.{◌≡◌, IfOk};
ghost use Rattle.tac_code.specs.Meaning.{size};
ghost use Rattle.tac_code.specs.Sound.{IsSoundRoutine, limits_of};
ghost use Rattle.tac_plan.specs.Passes.{PassesRoutine};

use std::alloc::Global;
use tac_code::code::{OutOfMemory, TacRoutine};
use tac_code::tac::Tac;
use tac_pass::plan::Put;

/// The same routine. Its instructions are shared: no more than a few words are made, however long it is.
///
/// # Errors
///
/// Want of memory.
pub fn shared(routine: &TacRoutine) -> Result<TacRoutine, OutOfMemory>
    ensures { IfOk result (λ copy. copy ≡ routine.now) }
{
    Ok(TacRoutine {
        parameters: routine.parameters,
        temporaries: routine.temporaries,
        frame: routine.frame,
        scratch: routine.scratch,
        line: routine.line,
        body: routine.body.share()?,
    })
}

/// The same routine, which was passed by a plan that changes nothing, and in which no address is copied and no test
/// loses its number.
pub fn stayed(
    alloc: Global,
    tac: &Tac,
    number: usize,
    routine: &TacRoutine,
) -> Result<TacRoutine, OutOfMemory>
    requires { IsSoundRoutine (limits_of tac.now routine.now) routine.now }
    ensures passes { IfOk result (PassesRoutine number routine.now) }
    ensures fills { IfOk result (λ made. size made ≡ size routine.now) }
{
    let _program = tac.program();
    let _nothing: Vec<Put> = Vec::new(alloc);
    shared(routine)
}
