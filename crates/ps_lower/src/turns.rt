// The iterations of `for` statements.

ghost use Rattle.std.specs.Prelude.{◌≡◌, ◌++◌, ◌+◌, ◌-◌, ◌≤◌, ◌∷◌, [], length, Bool, OnOk, IfOk};
ghost use Rattle.ps_lower_bounds.specs.Weights.{expr_weight};
ghost use Rattle.ps_lower_code.specs.Scopes.{check_code, operand_check};
ghost use Rattle.ps_lower_code.specs.Statements.{past_relation, step_number};
ghost use Rattle.ps_lower.specs.Levels.{scope_of};
ghost use Rattle.ps_tree.specs.View.{expr_of};
ghost use Rattle.ps_lower.specs.Loops.{turns_of, bounds_code, checks_code, first_turn_code, opening_code};
ghost use Rattle.tac_code.specs.declared.code.Base.TheVariants as base;
ghost use Rattle.tac_code.specs.declared.code.Instruction.TheVariants as i;
ghost use Rattle.tac_code.specs.declared.code.Relation.TheVariants.{NotEqual};

use crate::calling::expr_calls;
use crate::depth::{MAX_NUMBER, even_from, held};
use crate::known::{literal, operand};
use crate::level::Level;
use crate::levels::entry;
use crate::out::Code;
use crate::pieces::{check, operand_check};
use crate::values::{unless_known, value};
use ps_tree::line::Line;
use ps_tree::tree::{Direction, Expr};
use std::alloc::AllocError;
use tac_code::code::{Base, BitOperator, Operand, Relation};

/// The control variable of a `for` statement: its entry, its values, and its direction; and the lines of both bounds.
#[derive(Clone, Copy)]
pub struct Control {
    pub variable: u32,
    pub low: i32,
    pub high: i32,
    pub direction: Direction,
    pub from_line: Line,
    pub to_line: Line,
}

/// Where a loop keeps what it needs: the temporaries of its first value and of its limit, the limit as an operand, the
/// offset of its control variable, a temporary for the steps, and the depth of its body.
#[derive(Clone, Copy)]
pub struct Turns {
    pub first: u32,
    pub last: u32,
    pub limit: Operand,
    pub offset: u32,
    pub step: u32,
    pub depth: u32,
}

/// The places of a loop: the room for the branch past its iterations, and where the step begins.
#[derive(Clone, Copy)]
pub struct Places {
    pub past: usize,
    pub begin: usize,
}

/// The relation of the first value to the limit that means there is no iteration.
pub fn past_relation(direction: Direction) -> Relation
    ensures { result ≡ past_relation direction }
{
    match direction {
        Direction::To => Relation::Greater,
        Direction::Downto => Relation::Less,
    }
}

fn step_number(direction: Direction) -> i32
    ensures { result ≡ step_number direction }
{
    match direction {
        Direction::To => 1,
        Direction::Downto => -1,
    }
}

/// The control variable of a `for` statement of the tree.
pub fn control_of(
    variable: u32,
    low: &i32,
    high: &i32,
    direction: Direction,
    from_line: Line,
    to_line: Line,
) -> Control
    ensures { result ≡ record {
      variable = variable;
      low = low.now;
      high = high.now;
      direction = direction;
      from_line =
          from_line;
      to_line = to_line;
    } }
{
    Control {
        variable,
        low: *low,
        high: *high,
        direction,
        from_line,
        to_line,
    }
}

/// Where a loop keeps what it needs, which depends on whether its body calls.
pub fn turns_of(level: &Level, variable: u32, to: &Expr, calls: bool, d: u32) -> Turns
    requires { d ≤ MAX_NUMBER }
    ensures value { result ≡ turns_of (scope_of level.now) variable (expr_of to.now) calls d }
    ensures first { result.first ≤ d + 1 }
    ensures last { result.last ≤ d + 3 }
    ensures depth { result.depth ≤ d + 4 }
{
    let offset = entry(level, 0, variable).offset;
    let known = literal(to);
    let first = held(expr_calls(to), d);
    let last = held(calls, first + 1);
    let depth = if known.is_some() { d } else { last + 1 };
    Turns {
        first,
        last,
        limit: operand(known, last),
        offset,
        step: even_from(depth),
        depth,
    }
}

/// The values of both bounds.
fn bounds(
    out: &mut Code,
    level: &Level,
    from: &Expr,
    to: &Expr,
    turns: Turns,
) -> Result<(), AllocError>
    requires first { turns.first + expr_weight (scope_of level.now) (expr_of from.now) ≤ MAX_NUMBER }
    requires last { turns.last + expr_weight (scope_of level.now) (expr_of to.now) ≤ MAX_NUMBER }
    ensures { OnOk result (out.new ≡ out.old
        ++ bounds_code (scope_of level.now) (expr_of from.now) (expr_of to.now) turns) }
{
    value(out, level, from, turns.first, 0)?;
    unless_known(out, level, to, turns.last, 0)
}

/// The tests of both bounds, unless they are known to pass.
fn checks(
    out: &mut Code,
    control: Control,
    from: &Expr,
    to: &Expr,
    turns: Turns,
) -> Result<(), AllocError>
    ensures { OnOk result (out.new ≡ out.old ++ checks_code control (expr_of from.now) (expr_of to.now) turns) }
{
    let (low, high) = (control.low, control.high);
    check(
        out,
        literal(from),
        turns.first,
        low,
        high,
        4,
        control.from_line,
    )?;
    operand_check(out, literal(to), turns.last, low, high, 4, control.to_line)
}

/// The variable's first value, the jump past the step into the first iteration, and the step. Returns the place where
/// the step begins.
fn first_turn(out: &mut Code, direction: Direction, turns: Turns) -> Result<usize, AllocError>
    ensures code { OnOk result (out.new ≡ out.old ++ first_turn_code direction turns) }
    ensures place { IfOk result (λ begin. begin ≡ length out.old + 2) }
{
    let t = turns.step;
    out.store(Base::Frame, turns.offset, turns.first)?;
    out.jump(2)?;
    let begin = out.place();
    out.bits(
        BitOperator::Plus,
        t,
        t,
        Operand::Number(step_number(direction)),
    )?;
    out.store(Base::Frame, turns.offset, t)?;
    Ok(begin)
}

/// What comes before the body, with room for the branch past all iterations.
pub fn open_turns(
    out: &mut Code,
    level: &Level,
    control: Control,
    from: &Expr,
    to: &Expr,
    turns: Turns,
) -> Result<Places, AllocError>
    requires first { turns.first + expr_weight (scope_of level.now) (expr_of from.now) ≤ MAX_NUMBER }
    requires last { turns.last + expr_weight (scope_of level.now) (expr_of to.now) ≤ MAX_NUMBER }
    ensures code { OnOk result (out.new ≡ (out.old ++ bounds_code (scope_of level.now) (expr_of from.now)
        (expr_of to.now) turns) ++ i.End ∷ opening_code control (expr_of from.now) (expr_of to.now) turns) }
    ensures past { IfOk result (λ places. places.past ≡ length
        (out.old ++ bounds_code (scope_of level.now) (expr_of from.now) (expr_of to.now) turns)) }
    ensures begin { IfOk result (λ places. places.begin + 2 ≡ length out.new) }
{
    bounds(out, level, from, to, turns)?;
    let past = out.room()?;
    checks(out, control, from, to, turns)?;
    let begin = first_turn(out, control.direction, turns)?;
    Ok(Places { past, begin })
}

/// The end of an iteration: back to the step at a place, unless the variable has its last value.
pub fn end_turn(out: &mut Code, turns: Turns, begin: usize) -> Result<(), AllocError>
    ensures { OnOk result (out.new ≡ out.old ++ (i.Load turns.step base.Frame turns.offset
        ∷ i.BranchBack NotEqual turns.step turns.limit ((length out.old + 1) - begin) ∷ [])) }
{
    out.load(turns.step, Base::Frame, turns.offset)?;
    out.branch_back(Relation::NotEqual, turns.step, turns.limit, begin)
}
