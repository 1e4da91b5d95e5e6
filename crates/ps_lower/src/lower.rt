// The lowering of a program.

ghost use Rattle.std.specs.Prelude.{◌≡◌, ◌≤◌, true, map, IfOk, IfErr, OnOk};
ghost use Rattle.ps_lower_bounds.specs.Weights.{AreLight};
ghost use Rattle.ps_lower_code.specs.Programs.{tac_of, object_bytes, code_of};
ghost use Rattle.tac_rt.specs.Bodies.{run_time_routines};
ghost use Rattle.ps_tree.specs.Checked.{program_in};
ghost use Rattle.ps_tree.specs.Counts.{are_small};
ghost use Rattle.ps_tree.specs.View.{type_of};
ghost use Rattle.tac_code.specs.Sound.{IsSound};
ghost use Rattle.ps_lower.specs.Refused.{instructions_of, instruction_count, IsRefused};

use crate::depth::MAX_NUMBER;
use crate::frame::words;
use crate::frames::Frames;
use crate::marks::{Mark, MarkLists, Marking};
use crate::refusal::{LowerRefusal, MOST_INSTRUCTIONS};
use crate::routines::tac_routine;
use ps_tree::program::Checked;
use ps_tree::types::Ty;
use std::alloc::{AllocError, Global};
use tac_code::code::{TacRaw, TacRoutine};
use tac_code::tac::Tac;
use tac_rt::routines;

// The code of all routines, with their marks; refused if together they have more than `MOST_INSTRUCTIONS` instructions.
fn routines_of(
    alloc: Global,
    checked: &Frames,
    marks: &mut MarkLists,
) -> Result<Vec<TacRoutine>, LowerRefusal>
    requires { AreLight (program_in checked.now) }
    ensures made { IfOk result (λ list. list.items ≡ map (tac_of (program_in checked.now))
        (program_in checked.now).routines) }
    ensures few { OnOk result (instructions_of
        (map (tac_of (program_in checked.now)) (program_in checked.now).routines) ≤ MOST_INSTRUCTIONS) }
    ensures refused { IfErr result (λ refusal. IsRefused refusal
        (instructions_of (map (tac_of (program_in checked.now)) (program_in checked.now).routines))) }
{
    let mut list = Vec::new(alloc);
    let mut left = MOST_INSTRUCTIONS;
    for routine in checked.routines() {
        let made = tac_routine(alloc, checked, routine, marks)?;
        let count = made.body.as_slice().len();
        if count > left {
            return Err(LowerRefusal::CodeTooLarge);
        }
        left -= count;
        list.push(made)?;
    }
    Ok(list)
}

/// The bytes of an object of a type.
fn object_bytes(ty: &Ty) -> u32
    requires { object_bytes (type_of ty.now) ≤ MAX_NUMBER }
    ensures { result ≡ object_bytes (type_of ty.now) }
{
    4 * words(ty)
}

fn object_sizes(alloc: Global, domains: &[Ty]) -> Result<Vec<u32>, AllocError>
    requires { are_small (map type_of domains.now) ≡ true }
    ensures { IfOk result (λ list. list.items ≡ map object_bytes (map type_of domains.now)) }
{
    let mut list = Vec::new(alloc);
    for ty in domains {
        list.push(object_bytes(ty))?;
    }
    Ok(list)
}

/// Three-address code, and for each routine of the program a mark for each of its instructions, or none.
#[derive(Drop)]
pub struct Marked {
    pub tac: Tac,
    pub marks: Vec<Vec<Mark>>,
}

/// The three-address code of a program as `lower` returns it, with the parts of the text that its instructions belong
/// to if `marking` asks for them.
///
/// # Errors
///
/// Those of `lower`.
pub fn lower_marked(
    alloc: Global,
    checked: &Checked,
    marking: Marking,
) -> Result<Marked, LowerRefusal>
    requires sound { IsSound (code_of run_time_routines (program_in checked.now)) }
    requires light { AreLight (program_in checked.now) }
    ensures code { IfOk result (λ marked. marked.tac ≡ code_of run_time_routines (program_in checked.now)) }
    ensures few { OnOk result (instruction_count
        (code_of run_time_routines (program_in checked.now)) ≤ MOST_INSTRUCTIONS) }
    ensures refused { IfErr result (λ refusal. IsRefused refusal
        (instruction_count (code_of run_time_routines (program_in checked.now)))) }
{
    let mut marks = MarkLists {
        marking,
        lists: Vec::new(alloc),
    };
    let frames = Frames::new(alloc, checked)?;
    let program = routines_of(alloc, &frames, &mut marks)?;
    let objects = object_sizes(alloc, checked.domains())?;
    let run_time = routines(alloc)?;
    let raw = TacRaw {
        program,
        run_time,
        objects,
    };
    let tac = Tac::known(raw);
    Ok(Marked {
        tac,
        marks: marks.lists,
    })
}

/// The three-address code of a program, followed by the run-time routines. It must keep the invariant of three-address
/// code, and no number in it may be too large.
///
/// # Errors
///
/// A growth was refused, or the program's own routines have more instructions than an image can hold words; the latter
/// is reported after the statement or the routine that exceeds the limit.
pub fn lower(alloc: Global, checked: &Checked) -> Result<Tac, LowerRefusal>
    requires sound { IsSound (code_of run_time_routines (program_in checked.now)) }
    requires light { AreLight (program_in checked.now) }
    ensures code { IfOk result (λ tac. tac ≡ code_of run_time_routines (program_in checked.now)) }
    ensures few { OnOk result (instruction_count
        (code_of run_time_routines (program_in checked.now)) ≤ MOST_INSTRUCTIONS) }
    ensures refused { IfErr result (λ refusal. IsRefused refusal
        (instruction_count (code_of run_time_routines (program_in checked.now)))) }
{
    let marked = lower_marked(alloc, checked, Marking::Off)?;
    Ok(marked.tac)
}
