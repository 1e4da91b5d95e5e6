// Operations: expressions with operators, comparisons and required functions.

ghost use Rattle.std.specs.Prelude.{◌≡◌, max};
ghost use Rattle.ps_tree.specs.Tree as Tree;
ghost use Rattle.ps_tree.specs.View.{expr_of, arithmetic_of, operands_of, set_of, structure_of};
ghost use Rattle.ps_meaning.specs.Expressions as m;
ghost use Rattle.ps_meaning.specs.Operators.{compute, truth};
ghost use Rattle.ps_meaning.specs.Values.{OrdinalValue, number_of};
ghost use Rattle.ps_meaning.specs.Worlds.{settled};
ghost use Rattle.ps_meaning_runner.specs.View.{value_of};
ghost use Rattle.ps_meaning_runner.specs.Worlds.{Answers, caller, context_of, world_of};
ghost use Rattle.ps_meaning_runner.specs.Heights.{expr_height, steps_height, operands_height, set_height};
ghost use Rattle.ps_meaning_runner.specs.Heights.{structure_height};
ghost use Rattle.ps_meaning_runner.specs.Runs.{Runs, comparing, levels};

use crate::expressions::{evaluate, evaluate_set, evaluate_truth, take_operand};
use crate::operators::{Comparison, combine_truths, compute, is_member, sets_hold, truth};
use crate::stop::Halt;
use crate::value::Value;
use crate::world::{Context, Here, World};
use ps_tree::tree::{
    ArithmeticStep, BooleanOperator, Expr, OrderRelation, SetExpr, SetRelation, Structure,
};

impl Value {
    /// The ordinal of a Boolean value.
    #[tactic(auto, unfolding(crate::specs::View::value_of))]
    pub fn truth(b: bool) -> Value
        ensures { value_of result ≡ OrdinalValue (truth b) }
    {
        Value::Ordinal(truth(b))
    }

    /// The ordinal with this value's number.
    #[tactic(auto, unfolding(crate::specs::View::value_of))]
    fn ordinal(&self) -> Value
        ensures { value_of result ≡ OrdinalValue (number_of (value_of self.now)) }
    {
        Value::Ordinal(self.number())
    }
}

/// Operators on integers, from left to right.
#[cycle(run)]
#[tactic(auto)]
pub fn calculate(
    world: &mut World,
    first: &Expr,
    steps: &[ArithmeticStep],
    here: Here,
) -> Result<Value, Halt>
    ensures { Runs value_of (m.value (caller here.entry.setup.now here.entry.fuel)
        (Tree.Arithmetic (expr_of first.now) (arithmetic_of steps.now)) (context_of here.entry.context.now)
        (world_of world.old)) here.entry.depth (levels here.entry.setup.now here.entry.fuel
        (max (expr_height (expr_of first.now)) (steps_height (arithmetic_of steps.now)))) result world.new }
{
    let mut x = evaluate(world, first, here)?;
    for step in steps {
        let y = evaluate(world, &step.operand, here)?;
        x = calculated(world, step, &x, &y, here.context)?;
    }
    Ok(x.ordinal())
}

/// The number so far combined with the operand of the next step; errors 1, 2 and 3.
fn calculated(
    world: &World,
    step: &ArithmeticStep,
    x: &Value,
    y: &Value,
    context: &Context,
) -> Result<Value, Halt>
    ensures { Answers value_of (settled (compute step.now.operator (number_of (value_of x.now))
        (number_of (value_of y.now))) step.now.line.number (context_of context.now) (world_of world.now)) result
        world.now }
{
    let computed = compute(step.operator, x.number(), y.number());
    world.settled(computed, step.line.number, context)
}

/// `and` and `or`; all operands are evaluated.
#[cycle(run)]
#[tactic(auto)]
pub fn combine(
    world: &mut World,
    operator: BooleanOperator,
    first: &Expr,
    rest: &[Expr],
    here: Here,
) -> Result<Value, Halt>
    ensures { Runs value_of (m.value (caller here.entry.setup.now here.entry.fuel)
        (Tree.Logic operator (expr_of first.now) (operands_of rest.now)) (context_of here.entry.context.now)
        (world_of world.old)) here.entry.depth (levels here.entry.setup.now here.entry.fuel
        (max (expr_height (expr_of first.now)) (operands_height (operands_of rest.now)))) result world.new }
{
    let mut x = evaluate_truth(world, first, here)?;
    for operand in rest {
        let y = evaluate_truth(world, operand, here)?;
        x = combine_truths(operator, x, y);
    }
    Ok(Value::truth(x))
}

/// A relation between two ordinals or two pointers.
#[cycle(run)]
#[tactic(auto, using(crate::proofs::Answers::halted_then), unfolding(crate::specs::View::value_of))]
pub fn compare(
    world: &mut World,
    comparison: Comparison,
    left: &Expr,
    right: &Expr,
    here: Here,
) -> Result<Value, Halt>
    ensures { Runs value_of (comparing here.entry.setup.now here.entry.fuel comparison (expr_of left.now)
        (expr_of right.now) (context_of here.entry.context.now) (world_of world.old)) here.entry.depth
        (levels here.entry.setup.now here.entry.fuel
        (max (expr_height (expr_of left.now)) (expr_height (expr_of right.now)))) result world.new }
{
    let x = evaluate(world, left, here)?;
    let y = evaluate(world, right, here)?;
    Ok(Value::truth(comparison.holds(&x, &y)))
}

/// A relation between two sets.
#[cycle(run)]
#[tactic(auto, using(crate::proofs::Answers::halted_then), unfolding(crate::specs::View::value_of))]
pub fn compare_sets(
    world: &mut World,
    relation: SetRelation,
    left: &SetExpr,
    right: &SetExpr,
    here: Here,
) -> Result<Value, Halt>
    ensures { Runs value_of (m.value (caller here.entry.setup.now here.entry.fuel)
        (Tree.CompareSets relation (set_of left.now) (set_of right.now)) (context_of here.entry.context.now)
        (world_of world.old)) here.entry.depth (levels here.entry.setup.now here.entry.fuel
        (max (set_height (set_of left.now)) (set_height (set_of right.now)))) result world.new }
{
    let x = evaluate_set(world, left, here)?;
    let y = evaluate_set(world, right, here)?;
    Ok(Value::truth(sets_hold(relation, x.as_slice(), y.as_slice())))
}

/// A relation between two strings, whose contents are read once both are accessed.
#[cycle(run)]
#[tactic(auto, using(crate::proofs::Answers::halted_then, crate::proofs::Answers::answers_run))]
pub fn compare_strings(
    world: &mut World,
    relation: OrderRelation,
    left: &Structure,
    right: &Structure,
    here: Here,
) -> Result<Value, Halt>
    ensures { Runs value_of (m.value (caller here.entry.setup.now here.entry.fuel)
        (Tree.CompareStrings relation (structure_of left.now) (structure_of right.now))
        (context_of here.entry.context.now) (world_of world.old)) here.entry.depth
        (levels here.entry.setup.now here.entry.fuel
        (max (structure_height (structure_of left.now)) (structure_height (structure_of right.now)))) result world.new }
{
    let x = take_operand(world, left, here)?;
    let y = take_operand(world, right, here)?;
    world.strings_compared(relation, &x, &y, here.context)
}

/// `in`.
#[cycle(run)]
#[tactic(auto, using(crate::proofs::Answers::halted_then), unfolding(crate::specs::View::value_of))]
pub fn test_member(
    world: &mut World,
    left: &Expr,
    right: &SetExpr,
    here: Here,
) -> Result<Value, Halt>
    ensures { Runs value_of (m.value (caller here.entry.setup.now here.entry.fuel)
        (Tree.In (expr_of left.now) (set_of right.now)) (context_of here.entry.context.now) (world_of world.old))
        here.entry.depth (levels here.entry.setup.now here.entry.fuel
        (max (expr_height (expr_of left.now)) (set_height (set_of right.now)))) result world.new }
{
    let x = evaluate(world, left, here)?.number();
    let s = evaluate_set(world, right, here)?;
    Ok(Value::truth(is_member(x, s.as_slice())))
}
