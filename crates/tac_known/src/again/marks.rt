// The targets of jumps, which are marked.

ghost use Rattle.std.specs.Prelude.{◌≡◌, suc, ◌+◌, ◌-◌, true, IsTrue, IfSome};
ghost use Rattle.tac_known.specs.Again as specs;

use crate::walk::goes_on;
use std::alloc::Global;
use tac_code::code::{Instruction, OutOfMemory};

/// How jumps lead to a place.
#[derive(Clone, Copy)]
pub enum Mark {
    /// None does.
    Clear,
    /// Only one does, forward from this place, and the place before doesn't go on to it.
    Once(usize),
    /// Any number may.
    Often,
}

// How jumps lead to a place.
pub(super) fn mark_at(marks: &[Mark], place: usize) -> Mark
    ensures { result ≡ specs.mark_at marks.now place }
{
    if place < marks.len() {
        marks[place]
    } else {
        Mark::Clear
    }
}

// Whether a forward jump from a place may lead to a place with this mark.
fn may_lead(mark: Mark, place: usize) -> bool
    ensures { result ≡ specs.may_lead mark place }
{
    match mark {
        Mark::Clear => false,
        Mark::Once(from) => from == place,
        Mark::Often => true,
    }
}

fn is_often(mark: Mark) -> bool
    ensures { result ≡ specs.is_often mark }
{
    match mark {
        Mark::Often => true,
        _ => false,
    }
}

fn is_once(mark: Mark) -> bool
    ensures { result ≡ specs.is_once mark }
{
    match mark {
        Mark::Once(_) => true,
        _ => false,
    }
}

fn ahead(place: usize, distance: u64) -> Option<usize>
    ensures { IfSome result (λ target. target ≡ suc place + distance) }
{
    let target = (place as u64).checked_add(1)?.checked_add(distance)?;
    Some(target as usize)
}

fn back(place: usize, distance: u64) -> Option<usize>
    ensures { IfSome result (λ target. target ≡ place - distance) }
{
    let target = (place as u64).checked_sub(distance)?;
    Some(target as usize)
}

fn leads_ahead(marks: &[Mark], place: usize, distance: u64) -> bool
    ensures { IsTrue result → specs.may_lead (specs.mark_at marks.now (suc place + distance)) place ≡ true }
{
    match ahead(place, distance) {
        Some(target) => may_lead(mark_at(marks, target), place),
        None => false,
    }
}

fn leads_back(marks: &[Mark], place: usize, distance: u64) -> bool
    ensures { IsTrue result → specs.is_often (specs.mark_at marks.now (place - distance)) ≡ true }
{
    match back(place, distance) {
        Some(target) => is_often(mark_at(marks, target)),
        None => false,
    }
}

/// How far forward an instruction jumps, if it does.
pub(super) fn forward_of(instruction: &Instruction) -> Option<u64>
    ensures { result ≡ specs.forward_of instruction.now }
{
    match instruction {
        Instruction::Jump { forward } | Instruction::Branch { forward, .. } => Some(*forward),
        _ => None,
    }
}

/// Whether only one jump leads there. `None` if there is no such place.
pub(super) fn is_once_ahead(marks: &[Mark], place: usize, distance: u64) -> Option<bool>
    ensures { IfSome result (λ is. is ≡ specs.is_once (specs.mark_at marks.now (suc place + distance))) }
{
    let target = ahead(place, distance)?;
    Some(is_once(mark_at(marks, target)))
}

// Whether the mark of the target allows the jump from a place, if it jumps.
pub(super) fn leads_to_marks(marks: &[Mark], place: usize, instruction: &Instruction) -> bool
    ensures { IsTrue result → specs.leads_to_marks marks.now place instruction.now ≡ true }
{
    match instruction {
        Instruction::Jump { forward } | Instruction::Branch { forward, .. } => {
            leads_ahead(marks, place, *forward)
        }
        Instruction::JumpBack { back } | Instruction::BranchBack { back, .. } => {
            leads_back(marks, place, *back)
        }
        _ => true,
    }
}

fn mark_target(marks: &mut [Mark], target: Option<usize>, with: Mark) {
    if let Some(target) = target
        && target < marks.len()
    {
        marks[target] = match marks[target] {
            Mark::Clear => with,
            _ => Mark::Often,
        };
    }
}

// Marks the places to which the place before goes on as reached by any number of jumps.
fn mark_falls(marks: &mut [Mark], body: &[Instruction]) {
    let mut falls = true;
    for (place, instruction) in body.iter().enumerate() {
        if falls
            && place < marks.len()
            && let Mark::Once(_) = marks[place]
        {
            marks[place] = Mark::Often;
        }
        falls = goes_on(instruction);
    }
}

// How jumps lead to the places of a body.
pub(super) fn marks_of(alloc: Global, body: &[Instruction]) -> Result<Vec<Mark>, OutOfMemory> {
    let mut marks = vec![in alloc; Mark::Clear; body.len()]?;
    for (place, instruction) in body.iter().enumerate() {
        match instruction {
            Instruction::Jump { forward } | Instruction::Branch { forward, .. } => {
                let target = ahead(place, *forward);
                mark_target(marks.as_mut_slice(), target, Mark::Once(place));
            }
            Instruction::JumpBack { back: distance }
            | Instruction::BranchBack { back: distance, .. } => {
                mark_target(marks.as_mut_slice(), back(place, *distance), Mark::Often);
            }
            _ => {}
        }
    }
    mark_falls(marks.as_mut_slice(), body);
    Ok(marks)
}
