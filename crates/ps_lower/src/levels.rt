// The frames of the routines that enclose a routine, the entries in them, and the numbers of run-time routines.

ghost use Rattle.std.specs.Prelude.{◌≡◌, ◌≤◌, ◌+◌, ◌++◌, get_or, length, OnOk, IfOk, IsTrue};
ghost use Rattle.tac_rt.specs.Numbers.{run_time_number};
ghost use Rattle.ps_lower_code.specs.Scopes.{kind_at, routine_up, is_outermost, hops, hops_in_turns, is_far, way_out};
ghost use Rattle.ps_lower_code.specs.Scopes.{frame_code, frame_base, link_code, formal_code};
ghost use Rattle.ps_lower_layout.specs.Frames.{entry_offset};
ghost use Rattle.ps_lower.specs.Levels.{scope_of, is_reference_at};
ghost use Rattle.ps_tree.specs.Checked.{program_in};

use crate::depth::{MAX_NUMBER, beside};
use crate::frame::Spot;
use crate::helpers::amount;
use crate::level::Level;
use crate::out::Code;
use std::alloc::AllocError;
use tac_code::code::{Base, BitOperator, Instruction, Operand, Relation};
use tac_rt::RunTime;

/// Whether the frame `up` levels out is the program block's.
fn is_outermost(level: &Level, up: u32) -> bool
    ensures { result ≡ is_outermost (scope_of level.now) up }
{
    u64::from(up) + 1 == level.chain.len() as u64
}

/// From the frame whose address is in a temporary, `count` levels further out, with a load for each level.
fn hops(out: &mut Code, level: &Level, t: u32, count: u32) -> Result<(), AllocError>
    ensures { OnOk result (out.new ≡ out.old ++ hops (scope_of level.now) t 1 count) }
{
    for _ in 0..count {
        out.load(t, Base::Temporary(t), 0)?;
    }
    Ok(())
}

/// The same with a loop, which counts the levels left in the next temporary of the class.
fn hops_in_turns(out: &mut Code, level: &Level, t: u32, count: u32) -> Result<(), AllocError>
    requires depth { t ≤ 4294960000 }
    requires few { count ≤ MAX_NUMBER }
    ensures { OnOk result (out.new ≡ out.old ++ hops_in_turns (scope_of level.now) t count) }
{
    let left = beside(t);
    amount(out, count, left)?;
    out.load(t, Base::Temporary(t), 0)?;
    out.bits(BitOperator::Plus, left, left, Operand::Number(-1))?;
    out.push(Instruction::BranchBack {
        relation: Relation::NotEqual,
        left,
        right: Operand::Number(0),
        back: 2,
    })
}

/// Whether a loop is shorter than this many loads. There are never 16: routines are not nested that deeply.
fn is_far(count: u32) -> bool
    ensures far { result ≡ is_far count }
    ensures few { IsTrue result → count ≤ MAX_NUMBER }
{
    4 < count && count < 16
}

/// From the frame whose address is in a temporary, `count` levels further out.
fn way_out(out: &mut Code, level: &Level, t: u32, count: u32) -> Result<(), AllocError>
    requires { t ≤ 4294960000 }
    ensures { OnOk result (out.new ≡ out.old ++ way_out (scope_of level.now) t count) }
{
    if is_far(count) {
        hops_in_turns(out, level, t, count)
    } else {
        hops(out, level, t, count)
    }
}

/// Reaches the frame `up` levels out, and returns the base that addresses its entries from then on.
pub fn frame(out: &mut Code, level: &Level, t: u32, up: u32) -> Result<Base, AllocError>
    requires { t ≤ 4294960000 }
    ensures code { OnOk result (out.new ≡ out.old ++ frame_code (scope_of level.now) t up) }
    ensures base { IfOk result (λ base. base ≡ frame_base (scope_of level.now) t up) }
{
    if up == 0 {
        return Ok(Base::Frame);
    }
    if is_outermost(level, up) {
        return Ok(Base::Program);
    }
    out.load(t, Base::Frame, 0)?;
    way_out(out, level, t, up - 1)?;
    Ok(Base::Temporary(t))
}

/// The address of the frame `up` levels out.
pub fn link(out: &mut Code, level: &Level, t: u32, up: u32) -> Result<(), AllocError>
    requires { t ≤ 4294960000 }
    ensures { OnOk result (out.new ≡ out.old ++ link_code (scope_of level.now) t up) }
{
    if up == 0 {
        return out.offset(t, Base::Frame, 0, 0);
    }
    if is_outermost(level, up) {
        return out.offset(t, Base::Program, 0, 0);
    }
    out.load(t, Base::Frame, 0)?;
    way_out(out, level, t, up - 1)
}

/// The number of the routine `up` levels out; 0 if there is none.
fn number_up(level: &Level, up: u32) -> u32
    ensures { result ≡ get_or level.now.chain.now up 0 }
{
    level.chain.get(up as usize).copied().unwrap_or(0)
}

/// An entry of the routine `up` levels out.
pub fn entry(level: &Level, up: u32, index: u32) -> Spot
    ensures offset { result.offset ≡ entry_offset (routine_up (scope_of level.now) up) index }
    ensures reference { result.reference ≡ is_reference_at (kind_at (scope_of level.now) up index) }
{
    level.checked.entry(number_up(level, up), index)
}

/// The routine of a procedural or functional parameter, with its static link in the next temporary of the class.
pub fn formal(out: &mut Code, level: &Level, t: u32, up: u32, index: u32) -> Result<(), AllocError>
    requires depth { t ≤ 4294960000 }
    requires reach { entry_offset (routine_up (scope_of level.now) up) index ≤ MAX_NUMBER }
    ensures { OnOk result (out.new ≡ out.old ++ formal_code (scope_of level.now) t up index) }
{
    let base = frame(out, level, t, up)?;
    let place = entry(level, up, index).offset;
    out.load(beside(t), base, place + 4)?;
    out.load(t, base, place)
}

/// The number of a run-time routine; these come after those of the program.
pub fn run_time_number(level: &Level, routine: RunTime) -> u32
    ensures { result ≡ length (program_in level.now.checked.now).routines + run_time_number routine }
{
    level.checked.count() + routine.number()
}
