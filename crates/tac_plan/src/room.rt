//! How many temporaries a routine may have, and code whose routines have all of them.

ghost use Rattle.std.specs.Prelude.{◌≡◌, ◌<◌, ◌≤◌, map, IfOk};
ghost use Rattle.std.specs.List.{All};
ghost use Rattle.tac_code.specs.declared.code.TheConstants.{BLOCK_LIMIT};
ghost use Rattle.tac_pass_laws.specs.Passed.{most_temporaries, room, IsPassed};
ghost use Rattle.tac_plan.specs.Roomy.{with_room, roomy, HasRoom, FillsRoom};

use crate::flow::named_in;
use crate::stays::shared;
use std::alloc::Global;
use tac_code::code::{Instruction, OutOfMemory, TacRaw, TacRoutine};
use tac_code::tac::Tac;

// How many temporaries, besides those in which parameters arrive, have room in any frame.
const FREE: u32 = 8;

/// How many temporaries there is room for.
pub fn most_temporaries(routine: &TacRoutine) -> u32
    ensures within { result ≤ most_temporaries routine.now }
    ensures exact { room routine.now < BLOCK_LIMIT → result ≡ most_temporaries routine.now }
{
    routine
        .parameters
        .saturating_add(FREE)
        .max(routine.temporaries)
}

/// How many temporaries a body needs that replaces a routine's, within its room: no more than it names, besides those
/// in which parameters arrive.
pub fn temporaries_for(routine: &TacRoutine, body: &[Instruction]) -> u32
    ensures { result ≤ most_temporaries routine.now }
{
    let needed = named_in(body).max(routine.parameters);
    needed.min(most_temporaries(routine))
}

// The same routine with as many temporaries as there is room for. Its instructions are shared.
fn with_room(routine: &TacRoutine) -> Result<TacRoutine, OutOfMemory>
    requires { room routine.now < BLOCK_LIMIT }
    ensures { IfOk result (λ made. made ≡ with_room routine.now) }
{
    Ok(TacRoutine {
        parameters: routine.parameters,
        temporaries: most_temporaries(routine),
        frame: routine.frame,
        scratch: routine.scratch,
        line: routine.line,
        body: routine.body.share()?,
    })
}

fn all_with_room(alloc: Global, routines: &[TacRoutine]) -> Result<Vec<TacRoutine>, OutOfMemory>
    requires { All (λ routine. room routine < BLOCK_LIMIT) routines.now }
    ensures { IfOk result (λ made. made.items ≡ map with_room routines.now) }
{
    let mut made = Vec::with_capacity(alloc, routines.len())?;
    for routine in routines {
        made.push(with_room(routine)?)?;
    }
    Ok(made)
}

fn all_shared(alloc: Global, routines: &[TacRoutine]) -> Result<Vec<TacRoutine>, OutOfMemory>
    ensures { IfOk result (λ made. made.items ≡ routines.now) }
{
    let mut made = Vec::with_capacity(alloc, routines.len())?;
    for routine in routines {
        made.push(shared(routine)?)?;
    }
    Ok(made)
}

// The code with these parts, which are those of roomy code.
fn put_together(
    tac: &Tac,
    program: Vec<TacRoutine>,
    run_time: Vec<TacRoutine>,
    objects: Vec<u32>,
) -> Tac
    requires room { HasRoom tac.now }
    requires program { program.items ≡ map with_room tac.now.program }
    requires run_time { run_time.items ≡ tac.now.run_time }
    requires objects { objects.items ≡ tac.now.objects }
    ensures { result ≡ roomy tac.now }
{
    tac.keeps_invariant();
    Tac::known(TacRaw {
        program,
        run_time,
        objects,
    })
}

/// The same code with all the temporaries that there is room for: it may stand in the place of the old code, and fills
/// its room.
///
/// # Errors
///
/// Want of memory.
pub fn roomy(alloc: Global, tac: &Tac) -> Result<Tac, OutOfMemory>
    requires { HasRoom tac.now }
    ensures code { IfOk result (λ made. made ≡ roomy tac.now) }
    ensures passed { IfOk result (λ made. IsPassed tac.now made) }
    ensures fills { IfOk result (λ made. FillsRoom tac.now made) }
{
    let program = all_with_room(alloc, tac.program())?;
    let run_time = all_shared(alloc, tac.run_time())?;
    let objects = tac.objects().to_vec(alloc)?;
    Ok(put_together(tac, program, run_time, objects))
}
