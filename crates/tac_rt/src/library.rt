// All run-time routines, in the order of their numbers.

ghost use Rattle.std.specs.Prelude.{◌≡◌, ◌++◌, ◌∷◌, [], map, OnOk, OnErr, IfOk};
ghost use Rattle.tac_rt.specs.Bodies.{body_of, routine_of, with_words, with_sets, with_writing, with_reading};
ghost use Rattle.tac_rt.specs.Bodies.{run_time_routines};

use crate::reading::{LOOK, READ_CHARACTER, READ_LINE, READ_NUMBER};
use crate::sets::{ADD_RANGE, INTERSECT, IS_INCLUDED, IS_MEMBER, SUBTRACT, UNITE};
use crate::step::Step;
use crate::words::{COMPARE, COPY, PACK, UNPACK};
use crate::writing::{WRITE_CHARACTER, WRITE_NUMBER, WRITE_STRING};
use std::alloc::Global;
use tac_code::code::{Body, OutOfMemory, TacRoutine};

fn body(alloc: Global, steps: &[Step]) -> Result<Body, OutOfMemory>
    ensures { IfOk result (λ body. body ≡ body_of steps.now) }
{
    let mut list = Vec::new(alloc);
    for step in steps {
        list.push(step.instruction())?;
    }
    Body::new(alloc, list)
}

/// A routine with this many parameters and temporaries. It has no variables, and no line is ever reported for it.
fn routine(
    alloc: Global,
    parameters: u32,
    temporaries: u32,
    steps: &[Step],
) -> Result<TacRoutine, OutOfMemory>
    ensures { IfOk result (λ routine. routine ≡ routine_of parameters temporaries steps.now) }
{
    Ok(TacRoutine {
        parameters,
        temporaries,
        frame: 0,
        scratch: 0,
        line: 1,
        body: body(alloc, steps)?,
    })
}

fn add(
    alloc: Global,
    list: &mut Vec<TacRoutine>,
    parameters: u32,
    temporaries: u32,
    steps: &[Step],
) -> Result<(), OutOfMemory>
    ensures { OnOk result (list.new.items ≡ list.old.items ++ routine_of parameters temporaries steps.now ∷ []) }
{
    list.push(routine(alloc, parameters, temporaries, steps)?)?;
    Ok(())
}

fn add_sets(alloc: Global, list: &mut Vec<TacRoutine>) -> Result<(), OutOfMemory>
    ensures { OnOk result (list.new.items ≡ with_sets list.old.items) }
{
    add(alloc, list, 3, 6, &ADD_RANGE)?;
    add(alloc, list, 2, 5, &UNITE)?;
    add(alloc, list, 2, 5, &SUBTRACT)?;
    add(alloc, list, 2, 5, &INTERSECT)?;
    add(alloc, list, 2, 5, &IS_INCLUDED)?;
    add(alloc, list, 2, 4, &IS_MEMBER)
}

fn add_words(alloc: Global, list: &mut Vec<TacRoutine>) -> Result<(), OutOfMemory>
    ensures { OnOk result (list.new.items ≡ with_words list.old.items) }
{
    add(alloc, list, 3, 5, &COMPARE)?;
    add(alloc, list, 3, 4, &PACK)?;
    add(alloc, list, 3, 4, &UNPACK)
}

fn add_writing(alloc: Global, list: &mut Vec<TacRoutine>) -> Result<(), OutOfMemory>
    ensures { OnOk result (list.new.items ≡ with_writing list.old.items) }
{
    add(alloc, list, 2, 6, &WRITE_NUMBER)?;
    add(alloc, list, 2, 4, &WRITE_CHARACTER)?;
    add(alloc, list, 3, 5, &WRITE_STRING)
}

fn add_reading(alloc: Global, list: &mut Vec<TacRoutine>) -> Result<(), OutOfMemory>
    ensures { OnOk result (list.new.items ≡ with_reading list.old.items) }
{
    add(alloc, list, 1, 2, &LOOK)?;
    add(alloc, list, 1, 4, &READ_CHARACTER)?;
    add(alloc, list, 2, 7, &READ_NUMBER)?;
    add(alloc, list, 1, 4, &READ_LINE)
}

/// The run-time routines, in the order of their numbers.
pub fn routines(alloc: Global) -> Result<Vec<TacRoutine>, OutOfMemory>
    ensures { IfOk result (λ list. list.items ≡ run_time_routines) }
{
    let mut list = Vec::new(alloc);
    add(alloc, &mut list, 3, 4, &COPY)?;
    add_sets(alloc, &mut list)?;
    add_words(alloc, &mut list)?;
    add_writing(alloc, &mut list)?;
    add_reading(alloc, &mut list)?;
    Ok(list)
}
