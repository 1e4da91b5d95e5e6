// New code from old code by a plan, a place after the other.

ghost use Rattle.std.specs.Prelude.{◌≡◌, ◌⊎◌, ℕ, suc, ◌+◌, ◌-◌, ◌<◌, ◌≤◌, true, false, List, [], length, slice_get};
ghost use Rattle.std.specs.Prelude.{IsTrue, IfOk, IfSome, Some};
ghost use Rattle.std.specs.Option.{option_copied};
ghost use Rattle.tac_code.specs.declared.code.Instruction.{Instruction as Element};
ghost use Rattle.tac_pass.specs.Acts as act;
ghost use Rattle.tac_pass.specs.Tables.{is_forgetful};
ghost use Rattle.tac_pass.specs.Walk.{IsMade, join_at, Joins, aimed, ahead, behind, turned, is_branch, put_in};
ghost use Rattle.tac_pass.specs.Walk.{ArePutIn, GoesOn, spot, Becomes, Steps, Walked, Passed};

use crate::leaving::{cleaned, ending, fetched, moved, spare};
use crate::operands::{holder, renamed_right};
use crate::plan::{Plan, Put, Step};
use crate::renaming::kept;
use crate::table::{Action, Rows};
use std::alloc::Global;
use tac_code::code::{Instruction, OutOfMemory};

/// What a walk over a body knows all along.
#[derive(Clone, Copy)]
pub struct Way<'a> {
    /// The number of the routine.
    pub routine: usize,
    /// The words of its frame that are kept in mind.
    pub minded: &'a [u32],
    /// By the places of the old code.
    pub steps: &'a [Step],
    /// Where the new code of each place begins, and at the end where the code ends.
    pub starts: &'a [u64],
}

fn size_of(step: &Step) -> u64 {
    let puts = step.puts.len() as u64;
    match step.action {
        Action::Spare => puts,
        _ => puts.saturating_add(1),
    }
}

/// Where the new code of each place begins, and at the end where the code ends. The walk tests each.
pub fn starts_of(alloc: Global, steps: &[Step]) -> Result<Vec<u64>, OutOfMemory> {
    let mut starts = Vec::with_capacity(alloc, steps.len().saturating_add(1))?;
    let mut start = 0u64;
    for step in steps {
        starts.push(start)?;
        start = start.saturating_add(size_of(step));
    }
    starts.push(start)?;
    Ok(starts)
}

// Whether the new code of a place begins here.
fn is_there(starts: &[u64], place: usize, here: usize) -> bool
    ensures { IsTrue result → slice_get starts.now place ≡ Some here }
{
    place < starts.len() && starts[place] == here as u64
}

// What the plan claims at a place.
fn join(steps: &[Step], place: usize) -> Option<&Rows>
    ensures { option_copied result ≡ join_at steps.now place }
{
    if place < steps.len() {
        match &steps[place].join {
            Some(claimed) => Some(claimed),
            None => None,
        }
    } else {
        None
    }
}

// Takes what is claimed at a place, if the plan says so.
#[tactic(auto, using(crate::proofs::Placing::joins_some, crate::proofs::Placing::joins_none))]
fn join_in(steps: &[Step], rows: &mut Rows, place: usize) -> bool
    ensures { IsTrue result → Joins steps.now place rows.new }
{
    match join(steps, place) {
        Some(claimed) => rows.replace(claimed),
        None => true,
    }
}

// Takes what is claimed at a place, if that is no more than here.
#[tactic(auto, using(crate::proofs::Placing::joins_some, crate::proofs::Placing::joins_none, crate::proofs::Placing::forgetful_itself))]
fn fall_in(steps: &[Step], rows: &mut Rows, place: usize) -> bool
    ensures joins { IsTrue result → Joins steps.now place rows.new }
    ensures forgets { IsTrue result → is_forgetful rows.old rows.new ≡ true }
{
    match join(steps, place) {
        Some(claimed) => rows.is_forgetful(claimed) && rows.replace(claimed),
        None => true,
    }
}

// Goes on to the next place, whose new code begins here.
fn goes_on(way: &Way<'_>, rows: &mut Rows, place: usize, here: usize) -> bool
    ensures { IsTrue result → GoesOn way.now.steps.now way.now.starts.now place rows.old rows.new here }
{
    let Some(next) = place.checked_add(1) else {
        return false;
    };
    is_there(way.starts, next, here) && fall_in(way.steps, rows, next)
}

// After an instruction that doesn't go on to the next place, what the plan claims there is taken.
fn joins_anew(way: &Way<'_>, rows: &mut Rows, place: usize) -> bool
    ensures { IsTrue result → Joins way.now.steps.now (suc place) rows.new }
{
    match place.checked_add(1) {
        Some(next) => join_in(way.steps, rows, next),
        None => false,
    }
}

fn put_in(minded: &[u32], rows: &mut Rows, put: Put) -> Option<Instruction>
    ensures { (r : ℕ) → IfSome result (λ new_one. IsMade (put_in r minded.now put rows.old) new_one rows.new) }
{
    match put {
        Put::Clean(word) => cleaned(minded, rows, word),
        Put::Fetch(word, to) => fetched(minded, rows, word, to),
    }
}

fn put_all(
    minded: &[u32],
    rows: &mut Rows,
    puts: &[Put],
    out: &mut Vec<Instruction>,
) -> Result<bool, OutOfMemory>
    ensures { IfOk result (λ done. IsTrue done → (r : ℕ) → ArePutIn r minded.now rows.old out.old.items
        (length puts.now) rows.new out.new.items) }
{
    for at in 0..puts.len() {
        let Some(instruction) = put_in(minded, rows, puts[at]) else {
            return Ok(false);
        };
        out.push(instruction)?;
    }
    Ok(true)
}

// Where the new code of a place begins, if no more is claimed there than here.
fn aimed(way: &Way<'_>, rows: &Rows, place: usize) -> Option<u64>
    ensures { IfSome result (λ start. aimed way.now.steps.now way.now.starts.now rows.now place ≡ Some start) }
{
    let claimed = join(way.steps, place)?;
    if place < way.starts.len() && rows.is_forgetful(claimed) {
        Some(way.starts[place])
    } else {
        None
    }
}

fn ahead(way: &Way<'_>, rows: &Rows, place: usize, stand: usize, distance: u64) -> Option<u64>
    ensures { IfSome result (λ m. ahead way.now.steps.now way.now.starts.now rows.now place stand distance ≡ Some m) }
{
    let target = (place as u64).checked_add(1)?.checked_add(distance)?;
    let start = aimed(way, rows, target as usize)?;
    start.checked_sub((stand as u64).checked_add(1)?)
}

fn behind(way: &Way<'_>, rows: &Rows, place: usize, stand: usize, distance: u64) -> Option<u64>
    ensures { IfSome result (λ m. behind way.now.steps.now way.now.starts.now rows.now place stand distance ≡ Some m) }
{
    let target = (place as u64).checked_sub(distance)?;
    let start = aimed(way, rows, target as usize)?;
    (stand as u64).checked_sub(start)
}

// A jump or a branch at a place; the new one is at a place in the new code.
fn turned(
    way: &Way<'_>,
    rows: &Rows,
    place: usize,
    stand: usize,
    instruction: &Instruction,
) -> Option<Instruction>
    ensures { IfSome result (λ new_one. turned way.now.steps.now way.now.starts.now rows.now place stand instruction.now
        ≡ Some new_one) }
{
    match instruction {
        Instruction::Jump { forward } => Some(Instruction::Jump {
            forward: ahead(way, rows, place, stand, *forward)?,
        }),
        Instruction::JumpBack { back } => Some(Instruction::JumpBack {
            back: behind(way, rows, place, stand, *back)?,
        }),
        Instruction::Branch {
            relation,
            left,
            right,
            forward,
        } => Some(Instruction::Branch {
            relation: *relation,
            left: holder(rows, *left)?,
            right: renamed_right(rows, *right)?,
            forward: ahead(way, rows, place, stand, *forward)?,
        }),
        Instruction::BranchBack {
            relation,
            left,
            right,
            back,
        } => Some(Instruction::BranchBack {
            relation: *relation,
            left: holder(rows, *left)?,
            right: renamed_right(rows, *right)?,
            back: behind(way, rows, place, stand, *back)?,
        }),
        _ => None,
    }
}

#[tactic(auto, using(crate::proofs::Placing::left_out_becomes))]
fn leave_out(
    way: &Way<'_>,
    rows: &mut Rows,
    place: usize,
    instruction: &Instruction,
    here: usize,
) -> bool
    ensures { IsTrue result → (out : List Element) → length out ≡ here
        → Becomes way.now.routine way.now.minded.now way.now.steps.now way.now.starts.now place instruction.now
        (spot rows.old out) (spot rows.new out) }
{
    spare(way.minded, rows, instruction) && goes_on(way, rows, place, here)
}

// An instruction that is kept, or that becomes a copy.
fn made_new(
    alloc: Global,
    way: &Way<'_>,
    rows: &mut Rows,
    action: Action,
    instruction: &Instruction,
) -> Result<Option<Instruction>, OutOfMemory>
    ensures { IfOk result (λ made. IfSome made
        (λ new_one. (to : ℕ) × (IsMade (act.kept way.now.routine way.now.minded.now rows.old to instruction.now) new_one
        rows.new ⊎ IsMade (act.moved_word way.now.routine way.now.minded.now rows.old to instruction.now) new_one
        rows.new))) }
{
    match action {
        Action::Spare => Ok(None),
        Action::Keep(to) => kept(alloc, way.routine, way.minded, rows, to, instruction),
        Action::Move(to) => Ok(moved(way.minded, rows, to, instruction)),
    }
}

#[tactic(auto, using(crate::proofs::Placing::made_becomes))]
fn make_new(
    alloc: Global,
    way: &Way<'_>,
    rows: &mut Rows,
    place: usize,
    action: Action,
    instruction: &Instruction,
    out: &mut Vec<Instruction>,
) -> Result<bool, OutOfMemory>
    ensures { IfOk result (λ done. IsTrue done
        → Becomes way.now.routine way.now.minded.now way.now.steps.now way.now.starts.now place instruction.now
        (spot rows.old out.old.items) (spot rows.new out.new.items)) }
{
    let Some(new_one) = made_new(alloc, way, rows, action, instruction)? else {
        return Ok(false);
    };
    out.push(new_one)?;
    Ok(goes_on(way, rows, place, out.len()))
}

// A jump, which the next place doesn't follow.
fn jump(
    way: &Way<'_>,
    rows: &mut Rows,
    place: usize,
    instruction: &Instruction,
    out: &mut Vec<Instruction>,
) -> Result<bool, OutOfMemory>
    requires { is_branch instruction.now ≡ false }
    ensures { IfOk result (λ done. IsTrue done
        → Becomes way.now.routine way.now.minded.now way.now.steps.now way.now.starts.now place instruction.now
        (spot rows.old out.old.items) (spot rows.new out.new.items)) }
{
    let Some(new_one) = turned(way, rows, place, out.len(), instruction) else {
        return Ok(false);
    };
    out.push(new_one)?;
    Ok(joins_anew(way, rows, place))
}

#[tactic(auto, using(crate::proofs::Placing::branched_becomes))]
fn branch(
    way: &Way<'_>,
    rows: &mut Rows,
    place: usize,
    instruction: &Instruction,
    out: &mut Vec<Instruction>,
) -> Result<bool, OutOfMemory>
    ensures { IfOk result (λ done. IsTrue done
        → Becomes way.now.routine way.now.minded.now way.now.steps.now way.now.starts.now place instruction.now
        (spot rows.old out.old.items) (spot rows.new out.new.items)) }
{
    let Some(new_one) = turned(way, rows, place, out.len(), instruction) else {
        return Ok(false);
    };
    out.push(new_one)?;
    Ok(goes_on(way, rows, place, out.len()))
}

fn end(
    way: &Way<'_>,
    rows: &mut Rows,
    place: usize,
    instruction: &Instruction,
    out: &mut Vec<Instruction>,
) -> Result<bool, OutOfMemory>
    ensures { IfOk result (λ done. IsTrue done
        → Becomes way.now.routine way.now.minded.now way.now.steps.now way.now.starts.now place instruction.now
        (spot rows.old out.old.items) (spot rows.new out.new.items)) }
{
    let Some(new_one) = ending(rows, instruction) else {
        return Ok(false);
    };
    out.push(new_one)?;
    Ok(joins_anew(way, rows, place))
}

fn act(
    alloc: Global,
    way: &Way<'_>,
    rows: &mut Rows,
    place: usize,
    action: Action,
    instruction: &Instruction,
    out: &mut Vec<Instruction>,
) -> Result<bool, OutOfMemory>
    ensures { IfOk result (λ done. IsTrue done
        → Becomes way.now.routine way.now.minded.now way.now.steps.now way.now.starts.now place instruction.now
        (spot rows.old out.old.items) (spot rows.new out.new.items)) }
{
    match action {
        Action::Spare => Ok(leave_out(way, rows, place, instruction, out.len())),
        _ => make_new(alloc, way, rows, place, action, instruction, out),
    }
}

// What an instruction becomes, after what is put in before it.
fn become_new(
    alloc: Global,
    way: &Way<'_>,
    rows: &mut Rows,
    place: usize,
    action: Action,
    instruction: &Instruction,
    out: &mut Vec<Instruction>,
) -> Result<bool, OutOfMemory>
    ensures { IfOk result (λ done. IsTrue done
        → Becomes way.now.routine way.now.minded.now way.now.steps.now way.now.starts.now place instruction.now
        (spot rows.old out.old.items) (spot rows.new out.new.items)) }
{
    match instruction {
        Instruction::Jump { .. } | Instruction::JumpBack { .. } => {
            jump(way, rows, place, instruction, out)
        }
        Instruction::Branch { .. } | Instruction::BranchBack { .. } => {
            branch(way, rows, place, instruction, out)
        }
        Instruction::Return { .. } | Instruction::Trap { .. } | Instruction::End => {
            end(way, rows, place, instruction, out)
        }
        _ => act(alloc, way, rows, place, action, instruction, out),
    }
}

// One place; false if the rules don't allow what is planned.
#[tactic(auto, using(crate::proofs::Placing::steps_is))]
fn pass_place(
    alloc: Global,
    way: &Way<'_>,
    rows: &mut Rows,
    place: usize,
    instruction: &Instruction,
    out: &mut Vec<Instruction>,
) -> Result<bool, OutOfMemory>
    ensures { IfOk result (λ done. IsTrue done
        → Steps way.now.routine way.now.minded.now way.now.steps.now way.now.starts.now place instruction.now
        (spot rows.old out.old.items) (spot rows.new out.new.items)) }
{
    if place >= way.steps.len() || !is_there(way.starts, place, out.len()) {
        return Ok(false);
    }
    let step = &way.steps[place];
    if !put_all(way.minded, rows, step.puts.as_slice(), out)? {
        return Ok(false);
    }
    become_new(alloc, way, rows, place, step.action, instruction, out)
}

// Whether the rows may be claimed at a routine's start, where the plan's claim is taken.
fn begin(way: &Way<'_>, rows: &mut Rows) -> bool
    ensures { IsTrue result → (body : List Element)
        → Walked way.now.routine way.now.minded.now way.now.steps.now way.now.starts.now body 0 (spot rows.new []) }
{
    if !join_in(way.steps, rows, 0) {
        return false;
    }
    if !rows.begins() {
        return false;
    }
    is_there(way.starts, 0, 0)
}

fn walk_on(
    alloc: Global,
    way: &Way<'_>,
    rows: &mut Rows,
    body: &[Instruction],
) -> Result<Option<Vec<Instruction>>, OutOfMemory>
    ensures { IfOk result (λ made. IfSome made
        (λ new_body. Walked way.now.routine way.now.minded.now way.now.steps.now way.now.starts.now body.now
        (length body.now) (spot rows.new new_body.items))) }
{
    let mut out = Vec::with_capacity(alloc, body.len())?;
    if !begin(way, rows) {
        return Ok(None);
    }
    for place in 0..body.len() {
        if !pass_place(alloc, way, rows, place, &body[place], &mut out)? {
            return Ok(None);
        }
    }
    Ok(Some(out))
}

/// The new body of a routine, no longer than the old one. `None` if the rules don't allow what is planned.
#[tactic(auto, using(crate::proofs::Passing::body_passed))]
pub fn walk(
    alloc: Global,
    routine: usize,
    body: &[Instruction],
    plan: &Plan,
) -> Result<Option<Vec<Instruction>>, OutOfMemory>
    ensures passed { IfOk result (λ made. IfSome made (λ new_body. Passed routine body.now new_body.items)) }
    ensures shorter { IfOk result (λ made. IfSome made (λ new_body. length new_body.items ≤ length body.now)) }
{
    if plan.steps.len() != body.len() {
        return Ok(None);
    }
    let starts = starts_of(alloc, plan.steps.as_slice())?;
    let way = Way {
        routine,
        minded: plan.minded.as_slice(),
        steps: plan.steps.as_slice(),
        starts: starts.as_slice(),
    };
    let mut rows = plan.begin.copied(alloc)?;
    let Some(out) = walk_on(alloc, &way, &mut rows, body)? else {
        return Ok(None);
    };
    if out.len() > body.len() {
        return Ok(None);
    }
    Ok(Some(out))
}
