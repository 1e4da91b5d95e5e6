// Images made by way of three-address code.

ghost use Rattle.std.specs.Prelude.{◌≡◌, IfOk, IfErr, IfSome};
ghost use Rattle.ps_lower_accepted.specs.Formed.{IsFormed};
ghost use Rattle.ps_lower_code.specs.Programs.{code_of};
ghost use Rattle.ps_lower_laws.specs.Fits.{ProgramFits};
ghost use Rattle.ps_tree.specs.Checked.{program_in};
ghost use Rattle.risc_emit.specs.Emitted.{HasBounds};
ghost use Rattle.tac_pass_laws.specs.Passed.{IsPassed};
ghost use Rattle.tac_plan.specs.Roomy.{roomy, HasRoom, FillsRoom};
ghost use Rattle.tac_rt.specs.Bodies.{run_time_routines};
ghost use Rattle.ps_build.specs.Accepts.{HasNoRoom};
ghost use Rattle.ps_build.specs.Made.{IsEmitted, IsEmittedFor, KeepsBounds, AreEmitted, AreMadeOf};
ghost use Rattle.ps_build.specs.Refusals.{OnlyTooLarge};

use crate::laws::passed_code_does;
use crate::refusal::Refusal;
use ps_lower::lower::{Marked, lower_marked};
use ps_lower::marks::{Mark, Marking};
use ps_lower_bounds::{
    code_is_sound, objects_are_bounded, routines_are_bounded, weights_are_small,
};
use ps_tree::program::Checked;
use risc_alloc::placer::Placer;
use risc_emit::emit::{Emitted, emit_marked};
use risc_emit::marks::Marks;
use risc_image::write;
use std::alloc::Global;
use std::mem::forget;
use tac_code::code::OutOfMemory;
use tac_code::tac::Tac;
use tac_plan::pass::{Passed, pass};
use tac_plan::room::roomy;

/// The bytes of an image; and to show places in its text, for each routine of the program the marks of its instructions
/// if they were asked for, and where its variables begin in an activation, and where the words of all routines are.
#[derive(Drop)]
pub(crate) struct Made {
    pub bytes: Vec<u8>,
    pub marks: Vec<Vec<Mark>>,
    pub frames: Vec<u64>,
    pub words: Vec<Marks>,
}

// The parts of an image of three-address code, with homes for its temporaries that a placer chooses.
fn emitted_of<P: Placer>(alloc: Global, tac: &Tac, placer: &P) -> Result<Emitted, Refusal>
    ensures ok { IfOk result (λ emitted. IsEmitted tac.now emitted.parts) }
    ensures bounds { IfOk result (λ emitted. HasBounds tac.now emitted.parts) }
    ensures err { IfErr result (λ e. OnlyTooLarge e (HasNoRoom tac.now)) }
{
    let placement = placer.place(alloc, tac)?;
    let emitted = emit_marked(alloc, tac, &placement)?;
    Ok(emitted)
}

/// Where those variables of a routine are that no other routine can see.
#[derive(Clone, Copy, Debug, PartialEq, Eq)]
pub enum Variables {
    /// In their words of the frame.
    InFrames,
    /// In temporaries, if a pass over the code finds room for them.
    InTemporaries,
}

// What a pass makes of the code, if one is requested; `None` if the code stays as it is.
fn passed(alloc: Global, tac: &Tac, variables: Variables) -> Result<Option<Passed>, OutOfMemory>
    requires { HasRoom tac.now }
    ensures passed { IfOk result (λ made. IfSome made (λ new_one. IsPassed tac.now new_one.tac)) }
    ensures fills { IfOk result (λ made. IfSome made (λ new_one. FillsRoom tac.now new_one.tac)) }
{
    match variables {
        Variables::InFrames => Ok(None),
        Variables::InTemporaries => pass(alloc, tac),
    }
}

// The parts of an image of code that may stand in the place of other code and fills its room, as an image of that.
#[tactic(auto, using(crate::proofs::Passed::emitted_for, crate::proofs::Passed::bounds_for))]
fn emitted_passed<P: Placer>(
    alloc: Global,
    tac: &Tac,
    new_one: &Tac,
    placer: &P,
) -> Result<Emitted, Refusal>
    requires passed { IsPassed tac.now new_one.now }
    requires fills { FillsRoom tac.now new_one.now }
    ensures ok { IfOk result (λ emitted. IsEmittedFor tac.now emitted.parts) }
    ensures bounds { IfOk result (λ emitted. KeepsBounds tac.now emitted.parts) }
    ensures err { IfErr result (λ e. OnlyTooLarge e (HasNoRoom new_one.now)) }
{
    let _old = tac;
    new_one.keeps_invariant();
    let emitted = emitted_of(alloc, new_one, placer)?;
    Ok(emitted)
}

/// The parts of an image; and to show places, if there was a pass, where the new code of each place begins, for each
/// routine of the program.
#[derive(Drop)]
struct Laid {
    emitted: Emitted,
    starts: Vec<Option<Vec<u64>>>,
}

// The parts of an image of the code without a pass. Its activations take as much as with one.
fn laid_unchanged<P: Placer>(alloc: Global, tac: &Tac, placer: &P) -> Result<Laid, Refusal>
    requires { HasRoom tac.now }
    ensures ok { IfOk result (λ laid. IsEmittedFor tac.now laid.emitted.parts) }
    ensures bounds { IfOk result (λ laid. KeepsBounds tac.now laid.emitted.parts) }
    ensures err { IfErr result (λ e. OnlyTooLarge e (HasNoRoom (roomy tac.now))) }
{
    let roomy = roomy(alloc, tac)?;
    let emitted = emitted_passed(alloc, tac, &roomy, placer)?;
    Ok(Laid {
        emitted,
        starts: Vec::new(alloc),
    })
}

// The parts of an image of the code, after a pass if one is requested. If the code made by the pass is too large, the
// code is used as it is.
fn emitted_made<P: Placer>(
    alloc: Global,
    tac: &Tac,
    placer: &P,
    variables: Variables,
) -> Result<Laid, Refusal>
    requires { HasRoom tac.now }
    ensures ok { IfOk result (λ laid. IsEmittedFor tac.now laid.emitted.parts) }
    ensures bounds { IfOk result (λ laid. KeepsBounds tac.now laid.emitted.parts) }
    ensures err { IfErr result (λ e. OnlyTooLarge e (HasNoRoom (roomy tac.now))) }
{
    let Some(
        Passed {
            tac: new_one,
            starts,
        },
    ) = passed(alloc, tac, variables)?
    else {
        return laid_unchanged(alloc, tac, placer);
    };
    match emitted_passed(alloc, tac, &new_one, placer) {
        Ok(emitted) => Ok(Laid { emitted, starts }),
        Err(Refusal::OutOfMemory) => Err(Refusal::OutOfMemory),
        Err(_) => laid_unchanged(alloc, tac, placer),
    }
}

fn start_at(starts: &[u64], place: usize) -> u64 {
    match starts.get(place) {
        Some(start) => *start,
        None => 0,
    }
}

fn mark_often(marks: &mut Vec<Mark>, mark: Mark, times: u64) -> Result<(), OutOfMemory> {
    for _ in 0..times {
        marks.push(mark)?;
    }
    Ok(())
}

// The marks of the instructions by which a pass replaced those with these marks.
fn moved(alloc: Global, marks: &[Mark], starts: &[u64]) -> Result<Vec<Mark>, OutOfMemory> {
    let mut made = Vec::with_capacity(alloc, marks.len())?;
    for (place, mark) in marks.iter().enumerate() {
        let end = start_at(starts, place.saturating_add(1));
        mark_often(
            &mut made,
            *mark,
            end.saturating_sub(start_at(starts, place)),
        )?;
    }
    Ok(made)
}

// The marks of the routines, after the pass if there was one.
fn marks_behind(
    alloc: Global,
    marks: Vec<Vec<Mark>>,
    starts: &[Option<Vec<u64>>],
) -> Result<Vec<Vec<Mark>>, OutOfMemory> {
    let mut marks = marks;
    for (number, of_routine) in starts.iter().enumerate() {
        if let Some(list) = of_routine
            && number < marks.len()
        {
            marks[number] = moved(alloc, marks[number].as_slice(), list.as_slice())?;
        }
    }
    Ok(marks)
}

// The three-address code of a checked program, with its marks if they are asked for. If it is refused, it is too large
// whatever homes its temporaries have.
fn marked_made(alloc: Global, checked: &Checked, marking: Marking) -> Result<Marked, Refusal>
    requires { IsFormed (program_in checked.now) }
    ensures ok { IfOk result (λ code. code.tac ≡ code_of run_time_routines (program_in checked.now)) }
    ensures room { IfOk result (λ code. HasRoom code.tac) }
    ensures err { IfErr result (λ e. OnlyTooLarge e
        (HasNoRoom (roomy (code_of run_time_routines (program_in checked.now))))) }
{
    code_is_sound();
    weights_are_small();
    routines_are_bounded();
    let code = lower_marked(alloc, checked, marking)?;
    Ok(code)
}

/// The three-address code of a checked program. If it is refused, it is too large whatever homes its temporaries have.
pub(crate) fn code_made(alloc: Global, checked: &Checked) -> Result<Tac, Refusal>
    requires { IsFormed (program_in checked.now) }
    ensures ok { IfOk result (λ tac. tac ≡ code_of run_time_routines (program_in checked.now)) }
    ensures room { IfOk result HasRoom }
    ensures err { IfErr result (λ e. OnlyTooLarge e
        (HasNoRoom (roomy (code_of run_time_routines (program_in checked.now))))) }
{
    let code = marked_made(alloc, checked, Marking::Off)?;
    Ok(code.tac)
}

/// What happens to a syntax tree or to code that is no longer needed.
#[derive(Clone, Copy)]
pub(crate) enum Memory {
    Released,
    /// It stays in memory.
    Left,
}

// Frees code that is no longer needed, or leaves it in memory.
fn let_go(tac: Tac, memory: Memory) {
    match memory {
        Memory::Released => drop(tac),
        Memory::Left => forget(tac),
    }
}

// What `emitted_made` makes of code that is needed no more.
fn emitted_last<P: Placer>(
    alloc: Global,
    tac: Tac,
    placer: &P,
    variables: Variables,
    memory: Memory,
) -> Result<Laid, Refusal>
    requires { HasRoom tac }
    ensures ok { IfOk result (λ laid. IsEmittedFor tac laid.emitted.parts) }
    ensures bounds { IfOk result (λ laid. KeepsBounds tac laid.emitted.parts) }
    ensures err { IfErr result (λ e. OnlyTooLarge e (HasNoRoom (roomy tac))) }
{
    let laid = emitted_made(alloc, &tac, placer, variables);
    let_go(tac, memory);
    laid
}

/// The image of a checked program, with the marks of its instructions if they are asked for.
pub(crate) fn image_made<P: Placer>(
    alloc: Global,
    checked: &Checked,
    placer: &P,
    variables: Variables,
    marking: Marking,
    memory: Memory,
) -> Result<Made, Refusal>
    requires fits { ProgramFits (program_in checked.now) }
    requires formed { IsFormed (program_in checked.now) }
    ensures ok { IfOk result (λ made. AreMadeOf (program_in checked.now) made.bytes.items) }
    ensures emitted { IfOk result (λ made. AreEmitted
        (code_of run_time_routines (program_in checked.now)) made.bytes.items) }
    ensures err { IfErr result (λ e. OnlyTooLarge e
        (HasNoRoom (roomy (code_of run_time_routines (program_in checked.now))))) }
{
    let code = marked_made(alloc, checked, marking)?;
    let Marked { tac, marks } = code;
    let laid = emitted_last(alloc, tac, placer, variables, memory)?;
    passed_code_does();
    routines_are_bounded();
    objects_are_bounded();
    let bytes = write(alloc, &laid.emitted.parts)?;
    Ok(Made {
        bytes,
        marks: marks_behind(alloc, marks, laid.starts.as_slice())?,
        frames: laid.emitted.frames,
        words: laid.emitted.marks,
    })
}
