// Walks over a body, from its end to its beginning, that find what is alive.

ghost use Rattle.std.specs.Prelude.{◌≡◌, ℕ, ◌<◌, true, false, length, slice_get, IsTrue, IfOk, IfSome, Some};
ghost use Rattle.tac_code.specs.declared.code.Instruction.{Instruction as Element};
ghost use Rattle.risc_alloc.specs.Windows.{Keeps, IsFreeFor, IsEmptyBut};
ghost use Rattle.risc_alloc.specs.Parts.{is_call};
ghost use Rattle.risc_alloc.specs.declared.walk.Verdict.TheVariants.{Stable};
ghost use Rattle.risc_alloc.specs.Walk.{IsClaimHeld, Flows, Writes, Reads, Step, IsClaimed, Walked};

use crate::claims::Claims;
use crate::flow::{exit_of, is_call, read_first, read_passed, read_second, written};
use crate::groups::Groups;
use crate::table::Table;
use crate::window::Window;
use std::alloc::Global;
use tac_code::code::{Instruction, OutOfMemory};

/// The most walks over a body until one finds nothing new. Without a limit the time would grow with the depth of loops.
pub(crate) const WALKS: u32 = 16;

/// The result of a walk.
#[derive(Clone, Copy)]
enum Verdict {
    /// Two temporaries want one home, or one wants a register across a call.
    Clash,
    /// More is alive than was claimed; it is claimed now.
    Grew,
    Stable,
}

// Nothing is alive after what does not lead to the next place.
fn fall_back(table: &mut Table, falls: bool)
    ensures { falls ≡ true → table.new.holders.items ≡ table.old.holders.items }
{
    if !falls {
        table.clear();
    }
}

// What is claimed at the target of a jump is alive before the jump; false if nothing is claimed there, or at a clash.
fn jump_back(table: &mut Table, claims: &Claims, window: &Window, target: Option<usize>) -> bool
    ensures kept { IsTrue result → Keeps window.now table.old.holders.items table.new.holders.items }
    ensures claimed { IsTrue result → IfSome target (IsClaimHeld window.now claims.now table.new.holders.items) }
{
    let Some(place) = target else {
        return true;
    };
    match claims.get(place) {
        Some(claim) => table.add_all(window, claim),
        None => false,
    }
}

// From what is alive at the next place to what is alive after an instruction.
fn flow_back(
    table: &mut Table,
    claims: &Claims,
    window: &Window,
    instruction: &Instruction,
    place: usize,
    places: usize,
) -> bool
    ensures { IsTrue result → Flows window.now claims.now instruction.now place table.old.holders.items
        table.new.holders.items }
{
    let Some(exit) = exit_of(instruction, place, places) else {
        return false;
    };
    fall_back(table, exit.falls);
    jump_back(table, claims, window, exit.target)
}

// What is written is dead before it; false if another holds a register after a call.
fn is_free_behind(table: &Table, window: &Window, instruction: &Instruction, to: u32) -> bool
    ensures { IsTrue result → is_call instruction.now ≡ true → window.now.registers ≡ true
        → IsEmptyBut window.now table.now.holders.items to }
{
    !is_call(instruction) || !window.has_registers() || table.is_empty_but(to)
}

#[tactic(auto, using(crate::proofs::Steps::writes_none, crate::proofs::Steps::writes_some))]
fn write_back(table: &mut Table, window: &Window, instruction: &Instruction) -> bool
    ensures { IsTrue result → Writes window.now instruction.now table.old.holders.items table.new.holders.items }
{
    let Some(to) = written(instruction) else {
        return true;
    };
    if !is_free_behind(table, window, instruction, to) {
        return false;
    }
    table.free(window, to)
}

fn read_back(table: &mut Table, window: &Window, instruction: &Instruction) -> bool
    ensures { IsTrue result → Reads window.now instruction.now table.old.holders.items table.new.holders.items }
{
    if !table.add_some(window, read_first(instruction)) {
        return false;
    }
    if !table.add_some(window, read_second(instruction)) {
        return false;
    }
    table.add_all(window, read_passed(instruction))
}

// One instruction back; false at a clash.
fn step_back(
    table: &mut Table,
    claims: &Claims,
    window: &Window,
    body: &[Instruction],
    place: usize,
) -> bool
    requires { place < length body.now }
    ensures { IsTrue result → (i : Element) → slice_get body.now place ≡ Some i
        → Step window.now claims.now i place table.old.holders.items table.new.holders.items }
{
    let instruction = &body[place];
    if !flow_back(table, claims, window, instruction, place, body.len()) {
        return false;
    }
    if !write_back(table, window, instruction) {
        return false;
    }
    read_back(table, window, instruction)
}

// If more is alive than is claimed, it is claimed; returns whether that is so.
fn meet(
    alloc: Global,
    table: &Table,
    claims: &mut Claims,
    place: usize,
) -> Result<bool, OutOfMemory>
    ensures same { IfOk result (λ grew. grew ≡ false → claims.new ≡ claims.old) }
    ensures claimed { IfOk result (λ grew. grew ≡ false → IsClaimed claims.old place table.now.holders.items) }
{
    let is_claimed = match claims.get(place) {
        Some(claim) => table.is_within(claim),
        None => true,
    };
    if is_claimed {
        return Ok(false);
    }
    claims.put(place, table.members(alloc)?);
    Ok(true)
}

fn walk(
    alloc: Global,
    table: &mut Table,
    claims: &mut Claims,
    window: &Window,
    body: &[Instruction],
) -> Result<Verdict, OutOfMemory>
    ensures same { IfOk result (λ verdict. verdict ≡ Stable → claims.new ≡ claims.old) }
    ensures walked { IfOk result (λ verdict. verdict ≡ Stable
        → Walked window.now claims.old body.now 0 table.new.holders.items) }
{
    let mut grew = false;
    let mut place = body.len();
    while place > 0 {
        place -= 1;
        if !step_back(table, claims, window, body, place) {
            return Ok(Verdict::Clash);
        }
        if meet(alloc, table, claims, place)? {
            grew = true;
        }
    }
    Ok(if grew { Verdict::Grew } else { Verdict::Stable })
}

/// Walks until nothing new is found, beginning with what was found before. `None` at a clash, and if the walks keep
/// finding more.
pub(crate) fn settle(
    alloc: Global,
    table: &mut Table,
    window: &Window,
    body: &[Instruction],
    groups: &Groups,
) -> Result<Option<Claims>, OutOfMemory>
    ensures { IfOk result (λ found. IfSome found
        (λ claims. Walked window.now claims body.now 0 table.new.holders.items)) }
{
    let mut claims = Claims::new(alloc, table, window, groups)?;
    for _ in 0..WALKS {
        table.clear();
        match walk(alloc, table, &mut claims, window, body)? {
            Verdict::Stable => return Ok(Some(claims)),
            Verdict::Clash => return Ok(None),
            Verdict::Grew => {}
        }
    }
    Ok(None)
}

/// Whether nobody else holds the seat of a parameter.
pub(crate) fn are_free_for(table: &Table, window: &Window, parameters: u32) -> bool
    ensures { IsTrue result → (t : ℕ) → t < parameters → IsFreeFor window.now table.now.holders.items t }
{
    for parameter in 0..parameters {
        if !table.is_free_for(window, parameter) {
            return false;
        }
    }
    true
}
