// Loops.

ghost use Rattle.std.specs.Prelude.{◌≡◌, max, IfOk, OnOk, IfErr};
ghost use Rattle.ps_tree.specs.Tree as Tree;
ghost use Rattle.ps_tree.specs.View.{expr_of, statement_of, statements_of};
ghost use Rattle.ps_meaning.specs.Values.{number_of};
ghost use Rattle.ps_meaning.specs.Expressions.{fitting};
ghost use Rattle.ps_meaning.specs.Statements as m;
ghost use Rattle.ps_meaning.specs.Statements.{own_spot};
ghost use Rattle.ps_meaning.specs.Worlds.{Gives, put};
ghost use Rattle.ps_meaning_runner.specs.View.{value_of};
ghost use Rattle.ps_meaning_runner.specs.Worlds as r;
ghost use Rattle.ps_meaning_runner.specs.Worlds.{Answers, Stopped, context_of, world_of, done_of, acting, turning};
ghost use Rattle.ps_meaning_runner.specs.Heights.{expr_height, statement_height, statements_height};
ghost use Rattle.ps_meaning_runner.specs.Runs.{Runs, levels, advancing, truth_of};

use crate::calls::used_up;
use crate::expressions::{evaluate, evaluate_truth};
use crate::operators::{fits, is_equal};
use crate::statements::{act, act_all};
use crate::stop::Halt;
use crate::value::Value;
use crate::world::{Context, Here, World, spot_in};
use ps_tree::tree::{Direction, Expr, Range, Statement};
use std::alloc::AllocError;

/// The control variable of a for statement: the number of its entry in the frame, and the direction in which it goes.
#[derive(Clone, Copy)]
pub struct Control {
    pub variable: u32,
    pub direction: Direction,
}

/// The initial and the final value of a for statement, in the text, with the lines of their first tokens.
#[derive(Clone, Copy)]
pub struct Bounds<'t> {
    pub from: &'t Expr,
    pub from_line: u16,
    pub to: &'t Expr,
    pub to_line: u16,
}

/// The initial or the final value of a for statement once it is evaluated, with its line.
#[derive(Clone, Copy)]
struct Evaluated<'v> {
    value: &'v Value,
    line: u16,
}

/// Whether a for statement has no iteration.
fn is_past(direction: Direction, x: &Value, y: &Value) -> bool
    ensures { result ≡ m.is_past direction (number_of (value_of x.now)) (number_of (value_of y.now)) }
{
    match direction {
        Direction::To => y.number() < x.number(),
        Direction::Downto => x.number() < y.number(),
    }
}

/// The next value of a control variable, modulo 2 ^ 32.
fn succeeding(direction: Direction, x: i32) -> i32
    ensures { result ≡ m.succeeding direction x }
{
    match direction {
        Direction::To => { if x < i32::MAX { x + 1 } else { i32::MIN } }
        Direction::Downto => { if i32::MIN < x { x - 1 } else { i32::MAX } }
    }
}

/// A while statement.
#[cycle(run)]
pub fn repeat_while(
    world: &mut World,
    condition: &Expr,
    body: &Statement,
    here: Here,
) -> Result<(), Halt>
    ensures { Runs done_of (acting here.entry.setup.now here.entry.fuel
        (Tree.While (expr_of condition.now) (statement_of body.now)) (context_of here.entry.context.now)
        (world_of world.old)) here.entry.depth (levels here.entry.setup.now here.entry.fuel
        (max (expr_height (expr_of condition.now)) (statement_height (statement_of body.now)))) result world.new }
{
    let mut left = here.fuel;
    loop {
        let turn = Here { fuel: left, ..here };
        if !evaluate_truth(world, condition, turn)? {
            return Ok(());
        }
        act(world, body, turn)?;
        if left == 0 {
            return Err(used_up(world, here.context));
        }
        left -= 1;
    }
}

/// A repeat statement.
#[cycle(run)]
pub fn repeat_until(
    world: &mut World,
    body: &[Statement],
    condition: &Expr,
    here: Here,
) -> Result<(), Halt>
    ensures { Runs done_of (acting here.entry.setup.now here.entry.fuel
        (Tree.Repeat (statements_of body.now) (expr_of condition.now)) (context_of here.entry.context.now)
        (world_of world.old)) here.entry.depth (levels here.entry.setup.now here.entry.fuel
        (max (statements_height (statements_of body.now)) (expr_height (expr_of condition.now)))) result world.new }
{
    let mut left = here.fuel;
    loop {
        let turn = Here { fuel: left, ..here };
        act_all(world, body, turn)?;
        if evaluate_truth(world, condition, turn)? {
            return Ok(());
        }
        if left == 0 {
            return Err(used_up(world, here.context));
        }
        left -= 1;
    }
}

/// A for statement, of a control variable with values from `low` to `high`.
#[cycle(run)]
pub fn count(
    world: &mut World,
    control: Control,
    low: i32,
    high: i32,
    bounds: Bounds,
    body: &Statement,
    here: Here,
) -> Result<(), Halt>
    ensures { Runs done_of (acting here.entry.setup.now here.entry.fuel
        (Tree.For control.variable low high (expr_of bounds.entry.from.now) bounds.entry.from_line control.direction
        (expr_of bounds.entry.to.now) bounds.entry.to_line (statement_of body.now))
        (context_of here.entry.context.now) (world_of world.old)) here.entry.depth
        (levels here.entry.setup.now here.entry.fuel
        (max (expr_height (expr_of bounds.entry.from.now)) (max (expr_height (expr_of bounds.entry.to.now))
        (statement_height (statement_of body.now))))) result world.new }
{
    let x = evaluate(world, bounds.from, here)?;
    let y = evaluate(world, bounds.to, here)?;
    if is_past(control.direction, &x, &y) {
        return Ok(());
    }
    let range = Range::Within { low, high };
    let first = Evaluated {
        value: &x,
        line: bounds.from_line,
    };
    let last = Evaluated {
        value: &y,
        line: bounds.to_line,
    };
    begin_turns(world, control.variable, range, first, last, here.context)?;
    turns(world, control.variable, control.direction, &y, body, here)
}

/// Checks the bounds of a for statement, and assigns the first to its variable.
#[tactic(auto, using(crate::proofs::Answers::stopped_then))]
fn begin_turns(
    world: &mut World,
    variable: u32,
    range: Range,
    first: Evaluated,
    last: Evaluated,
    context: &Context,
) -> Result<(), Halt>
    ensures { Answers done_of (r.beginning variable range (value_of first.entry.value.now) first.entry.line
        (value_of last.entry.value.now) last.entry.line (context_of context.now) (world_of world.old)) result
        world.new }
{
    check_bound(world, range, first.value, first.line, context)?;
    check_bound(world, range, last.value, last.line, context)?;
    set_own(world, variable, first.value, context)
}

/// A bound of a for statement must fit its control variable; error 4 if it does not.
#[tactic(auto, using(crate::proofs::Answers::stops))]
fn check_bound(
    world: &World,
    range: Range,
    bound: &Value,
    line: u16,
    context: &Context,
) -> Result<(), Halt>
    ensures fits { OnOk result
        (fitting range (value_of bound.now) line (context_of context.now) (world_of world.now) ≡ Gives
        (value_of bound.now) (world_of world.now)) }
    ensures stopped { IfErr result (λ stop. Stopped
        (fitting range (value_of bound.now) line (context_of context.now) (world_of world.now)) stop world.now) }
{
    if fits(range, bound) {
        Ok(())
    } else {
        Err(world.fault(4, line, context))
    }
}

/// Assigns to a variable of the block itself.
fn set_own(world: &mut World, variable: u32, value: &Value, context: &Context) -> Result<(), Halt>
    ensures { Answers done_of
        (put (own_spot variable (context_of context.now)) (value_of value.now) (world_of world.old)) result world.new }
{
    let spot = spot_in(context.alloc, &context.env, variable)?;
    world.put(&spot, value.copy(context.alloc)?)
}

/// The iterations of a for statement, starting with the one that begins.
#[cycle(run)]
fn turns(
    world: &mut World,
    variable: u32,
    direction: Direction,
    last: &Value,
    body: &Statement,
    here: Here,
) -> Result<(), Halt>
    ensures { Runs done_of (turning here.entry.setup.now here.entry.fuel variable direction
        (number_of (value_of last.now)) (statement_of body.now) (context_of here.entry.context.now)
        (world_of world.old)) here.entry.depth (levels here.entry.setup.now here.entry.fuel
        (statement_height (statement_of body.now))) result world.new }
{
    let mut left = here.fuel;
    loop {
        let turn = Here { fuel: left, ..here };
        act(world, body, turn)?;
        if left == 0 {
            return Err(used_up(world, here.context));
        }
        left -= 1;
        if !advance(world, variable, direction, last, here.context)? {
            return Ok(());
        }
    }
}

/// Advances the control variable to its next value; false if it has the last.
#[tactic(auto, unfolding(crate::specs::View::value_of))]
fn advance(
    world: &mut World,
    variable: u32,
    direction: Direction,
    last: &Value,
    context: &Context,
) -> Result<bool, Halt>
    ensures { Answers truth_of (advancing (own_spot variable (context_of context.now)) direction
        (number_of (value_of last.now)) (world_of world.old)) result world.new }
{
    let spot = spot_in(context.alloc, &context.env, variable)?;
    let x = world.contents(context.alloc, &spot)?.number();
    if is_equal(x, last.number()) {
        return Ok(false);
    }
    world.put(&spot, Value::Ordinal(succeeding(direction, x)))?;
    Ok(true)
}
