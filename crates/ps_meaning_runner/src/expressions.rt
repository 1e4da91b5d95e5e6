// Variables, expressions and actual parameters.

ghost use Rattle.std.specs.Prelude.{◌≡◌, max, map, IfOk};
ghost use Rattle.ps_tree.specs.Tree as Tree;
ghost use Rattle.ps_tree.specs.View.{place_of, selector_of, selectors_of, expr_of, set_of, set_steps_of, member_of};
ghost use Rattle.ps_tree.specs.View.{members_of, structure_of, argument_of, arguments_of};
ghost use Rattle.ps_meaning.specs.Expressions as m;
ghost use Rattle.ps_meaning.specs.Values as v;
ghost use Rattle.ps_meaning.specs.Worlds.{contents, contents_in, Gives};
ghost use Rattle.ps_meaning_runner.specs.View.{members_of_set, value_of, spot_of};
ghost use Rattle.ps_meaning_runner.specs.Worlds.{Answers, caller, context_of, world_of, actual_of, actuals_in, held_of};
ghost use Rattle.ps_meaning_runner.specs.Heights.{place_height, selector_height, selectors_height, expr_height};
ghost use Rattle.ps_meaning_runner.specs.Heights.{set_height, set_steps_height, member_height, members_height};
ghost use Rattle.ps_meaning_runner.specs.Heights.{structure_height, argument_height, arguments_height};
ghost use Rattle.ps_meaning_runner.specs.Runs.{Runs, levels, truth_in, truth_of};

use crate::calls::call_value;
use crate::operands::{Actual, BaseType, Callee, Held, index_of, keep};
use crate::operations::{calculate, combine, compare, compare_sets, compare_strings, test_member};
use crate::operators::{Comparison, apply, combine_sets, is_true, negated};
use crate::stop::Halt;
use crate::value::{Spot, Value};
use crate::world::{Context, Here, World};
use ps_tree::tree::{
    Argument, Expr, Member, Place, Selector, SetExpr, SetOperator, SetStep, Structure,
};
use std::alloc::AllocError;

/// Accesses a variable: what its name denotes, then its selectors, one after another.
#[cycle(run)]
#[tactic(auto)]
pub fn access(world: &mut World, place: &Place, here: Here) -> Result<Spot, Halt>
    ensures { Runs spot_of (m.access (caller here.entry.setup.now here.entry.fuel) (place_of place.now)
        (context_of here.entry.context.now) (world_of world.old)) here.entry.depth
        (levels here.entry.setup.now here.entry.fuel (place_height (place_of place.now))) result world.new }
{
    if here.depth == 0 {
        return Err(Halt::TooDeep);
    }
    let below = Here {
        depth: here.depth - 1,
        ..here
    };
    let mut spot = world.denoted(&place.base, here.context)?;
    for selector in place.selectors.as_slice() {
        spot = select(world, selector, spot, below)?;
    }
    Ok(spot)
}

/// Applies a selector to a variable.
#[cycle(run)]
#[tactic(auto, using(crate::proofs::Answers::halted_then, crate::proofs::Answers::answers_run), unfolding(ps_tree::specs::View::selector_of))]
fn select(world: &mut World, selector: &Selector, spot: Spot, here: Here) -> Result<Spot, Halt>
    ensures { Runs spot_of (m.at_selector (caller here.entry.setup.now here.entry.fuel) (selector_of selector.now)
        (spot_of spot) (context_of here.entry.context.now) (world_of world.old)) here.entry.depth
        (levels here.entry.setup.now here.entry.fuel (selector_height (selector_of selector.now))) result world.new }
{
    match selector {
        Selector::Element { ty, index, line } => {
            let x = evaluate(world, index, here)?.number();
            world.component_of(spot, index_of(ty), x, line.number, here.context)
        }
        Selector::Field { number, .. } => Ok(spot.step(*number)?),
        Selector::Target { line, .. } => world.target_of(&spot, line.number, here.context),
    }
}

/// Evaluates an expression of an ordinal or pointer type.
#[cycle(run)]
#[tactic(auto, using(crate::proofs::Answers::halted_then, crate::proofs::Answers::answers_run, ps_tree::proofs::TreeLemmas::expr_of_Load), unfolding(ps_tree::specs::View::expr_of, crate::specs::View::value_of, crate::specs::View::integer_of))]
pub fn evaluate(world: &mut World, expression: &Expr, here: Here) -> Result<Value, Halt>
    ensures { Runs value_of (m.value (caller here.entry.setup.now here.entry.fuel) (expr_of expression.now)
        (context_of here.entry.context.now) (world_of world.old)) here.entry.depth
        (levels here.entry.setup.now here.entry.fuel (expr_height (expr_of expression.now))) result world.new }
{
    if here.depth == 0 {
        return Err(Halt::TooDeep);
    }
    let below = Here {
        depth: here.depth - 1,
        ..here
    };
    match expression {
        Expr::Number(number) => Ok(Value::Ordinal(*number)),
        Expr::Nil => Ok(Value::Nil),
        Expr::Load(place) => {
            let spot = access(world, place, below)?;
            world.loaded(&spot, here.context)
        }
        Expr::Plus(operand) => evaluate(world, operand, below),
        Expr::Minus { operand, line } => {
            let x = evaluate(world, operand, below)?.number();
            world.settled(negated(x), line.number, here.context)
        }
        Expr::Not(operand) => {
            let x = evaluate(world, operand, below)?.number();
            Ok(Value::truth(!is_true(x)))
        }
        Expr::Arithmetic { first, steps } => calculate(world, first, steps, below),
        Expr::Logic {
            operator,
            first,
            rest,
        } => combine(world, *operator, first, rest, below),
        Expr::Compare {
            relation,
            left,
            right,
        } => {
            let comparison = Comparison::Ordinals(*relation);
            compare(world, comparison, left, right, below)
        }
        Expr::ComparePointers {
            relation,
            left,
            right,
        } => {
            let comparison = Comparison::Pointers(*relation);
            compare(world, comparison, left, right, below)
        }
        Expr::CompareSets {
            relation,
            left,
            right,
        } => compare_sets(world, *relation, left, right, below),
        Expr::CompareStrings {
            relation,
            left,
            right,
        } => compare_strings(world, *relation, left, right, below),
        Expr::In { left, right } => test_member(world, left, right, below),
        Expr::Apply {
            function,
            operand,
            line,
        } => {
            let x = evaluate(world, operand, below)?.number();
            world.settled(apply(*function, x), line.number, here.context)
        }
        Expr::Eof => world.eof(),
        Expr::Eoln { line } => world.eoln(line.number, here.context),
        Expr::Call {
            routine,
            up,
            arguments,
            line,
        } => {
            let callee = Callee::Declared {
                routine: *routine,
                up: *up,
            };
            call_value(world, callee, arguments, line.number, below)
        }
        Expr::CallFormal {
            up,
            index,
            arguments,
            line,
        } => {
            let callee = Callee::Formal {
                up: *up,
                index: *index,
            };
            call_value(world, callee, arguments, line.number, below)
        }
    }
}

/// The truth of a condition.
#[cycle(run)]
#[tactic(auto, using(crate::proofs::Answers::halted_then))]
pub fn evaluate_truth(world: &mut World, expression: &Expr, here: Here) -> Result<bool, Halt>
    ensures { Runs truth_of (truth_in here.entry.setup.now here.entry.fuel (expr_of expression.now)
        (context_of here.entry.context.now) (world_of world.old)) here.entry.depth
        (levels here.entry.setup.now here.entry.fuel (expr_height (expr_of expression.now))) result world.new }
{
    let x = evaluate(world, expression, here)?;
    Ok(is_true(x.number()))
}

impl<'a> World<'a> {
    /// The set in the variable at a spot.
    fn set_at(&self, spot: &Spot, context: &Context) -> Result<Vec<bool>, Halt>
        ensures { Answers members_of_set (Gives (v.set_of (contents_in (world_of self.now) (spot_of spot.now)))
            (world_of self.now)) result self.now }
    {
        let value = self.contents(context.alloc, spot)?;
        Ok(Vec::from_slice(context.alloc, value.members())?)
    }

    /// The value in the variable at a spot.
    fn loaded(&self, spot: &Spot, context: &Context) -> Result<Value, Halt>
        ensures { Answers value_of (contents (spot_of spot.now) (world_of self.now)) result self.now }
    {
        Ok(self.contents(context.alloc, spot)?)
    }
}

/// Evaluates an expression of a set type.
#[cycle(run)]
#[tactic(auto, using(crate::proofs::Answers::halted_then, crate::proofs::Answers::runs_deeper, crate::proofs::Trees::set_of_Constructor, ps_tree::proofs::TreeLemmas::set_of_Load), unfolding(ps_tree::specs::View::set_of))]
pub fn evaluate_set(world: &mut World, expression: &SetExpr, here: Here) -> Result<Vec<bool>, Halt>
    ensures { Runs members_of_set (m.set_value (caller here.entry.setup.now here.entry.fuel) (set_of expression.now)
        (context_of here.entry.context.now) (world_of world.old)) here.entry.depth
        (levels here.entry.setup.now here.entry.fuel (set_height (set_of expression.now))) result world.new }
{
    if here.depth == 0 {
        return Err(Halt::TooDeep);
    }
    let below = Here {
        depth: here.depth - 1,
        ..here
    };
    match expression {
        SetExpr::Load(place) => {
            let spot = access(world, place, below)?;
            world.set_at(&spot, here.context)
        }
        SetExpr::Constructor(members) => evaluate_members(world, members, below),
        SetExpr::Combine { first, steps } => { combine_all(world, first, steps, below) }
    }
}

/// Operators on sets, from left to right.
#[cycle(run)]
#[tactic(auto)]
fn combine_all(
    world: &mut World,
    first: &SetExpr,
    steps: &[SetStep],
    here: Here,
) -> Result<Vec<bool>, Halt>
    ensures { Runs members_of_set (m.set_value (caller here.entry.setup.now here.entry.fuel)
        (Tree.Combine (set_of first.now) (set_steps_of steps.now)) (context_of here.entry.context.now)
        (world_of world.old)) here.entry.depth (levels here.entry.setup.now here.entry.fuel
        (max (set_height (set_of first.now)) (set_steps_height (set_steps_of steps.now)))) result world.new }
{
    let mut tests = evaluate_set(world, first, here)?;
    for step in steps {
        let more = evaluate_set(world, &step.operand, here)?;
        tests = combine_sets(
            here.context.alloc,
            step.operator,
            tests.as_slice(),
            more.as_slice(),
        )?;
    }
    Ok(tests)
}

/// Evaluates and checks a member of a set constructor.
#[cycle(run)]
#[tactic(auto, using(crate::proofs::Answers::halted_then, crate::proofs::Answers::answers_run), unfolding(ps_tree::specs::View::member_of))]
fn evaluate_member(world: &mut World, member: &Member, here: Here) -> Result<Vec<bool>, Halt>
    ensures { Runs members_of_set (m.member_value (caller here.entry.setup.now here.entry.fuel) (member_of member.now)
        (context_of here.entry.context.now) (world_of world.old)) here.entry.depth
        (levels here.entry.setup.now here.entry.fuel (member_height (member_of member.now))) result world.new }
{
    match member {
        Member::One { value, line } => {
            let x = evaluate(world, value, here)?.number();
            world.set_between(x, x, line.number, here.context)
        }
        Member::Range { from, to, line } => {
            let x = evaluate(world, from, here)?.number();
            let y = evaluate(world, to, here)?.number();
            world.set_between(x, y, line.number, here.context)
        }
    }
}

/// Evaluates the members of a set constructor.
#[cycle(run)]
#[tactic(auto, using(crate::proofs::Answers::members_start, crate::proofs::Answers::members_next, crate::proofs::Answers::members_end))]
fn evaluate_members(world: &mut World, members: &[Member], here: Here) -> Result<Vec<bool>, Halt>
    ensures { Runs members_of_set
        (m.members_value (caller here.entry.setup.now here.entry.fuel) (members_of members.now)
        (context_of here.entry.context.now) (world_of world.old)) here.entry.depth
        (levels here.entry.setup.now here.entry.fuel (members_height (members_of members.now))) result world.new }
{
    let mut tests = Vec::new(here.context.alloc);
    for member in members {
        let more = evaluate_member(world, member, here)?;
        tests = combine_sets(
            here.context.alloc,
            SetOperator::Union,
            tests.as_slice(),
            more.as_slice(),
        )?;
    }
    Ok(tests)
}

/// Accesses an operand of an array or record type.
#[cycle(run)]
#[tactic(auto, unfolding(ps_tree::specs::View::structure_of, crate::specs::Worlds::held_of))]
pub fn take_operand<'t>(
    world: &mut World,
    operand: &'t Structure,
    here: Here,
) -> Result<Held<'t>, Halt>
    ensures { Runs held_of (m.operand (caller here.entry.setup.now here.entry.fuel) (structure_of operand.now)
        (context_of here.entry.context.now) (world_of world.old)) here.entry.depth
        (levels here.entry.setup.now here.entry.fuel (structure_height (structure_of operand.now))) result world.new }
{
    match operand {
        Structure::Literal(characters) => Ok(Held::Text(characters.as_slice())),
        Structure::Contents { place, .. } => { Ok(Held::Place(access(world, place, here)?)) }
    }
}

/// Takes an actual parameter.
#[cycle(run)]
#[tactic(auto, using(crate::proofs::Answers::halted_then, crate::proofs::Answers::stopped_halts_then, crate::proofs::Answers::answers_run, ps_tree::proofs::TreeLemmas::argument_of_Variable), unfolding(ps_tree::specs::View::argument_of, crate::specs::Worlds::actual_of))]
fn take_actual(world: &mut World, argument: &Argument, here: Here) -> Result<Actual, Halt>
    ensures { Runs actual_of (m.actual_of (caller here.entry.setup.now here.entry.fuel) (argument_of argument.now)
        (context_of here.entry.context.now) (world_of world.old)) here.entry.depth
        (levels here.entry.setup.now here.entry.fuel (argument_height (argument_of argument.now))) result world.new }
{
    match argument {
        Argument::Value { value, range, line } => {
            let x = evaluate(world, value, here)?;
            world.value_passed(*range, x, line.number, here.context)
        }
        Argument::Set {
            value,
            low,
            high,
            line,
        } => {
            let s = evaluate_set(world, value, here)?;
            let base = BaseType {
                low: *low,
                high: *high,
            };
            world.set_passed(base, s, line.number, here.context)
        }
        Argument::Copy { value, .. } => {
            let held = take_operand(world, value, here)?;
            world.copy_passed(&held, here.context)
        }
        Argument::Variable(place) => { Ok(Actual::Variable(access(world, place, here)?)) }
        Argument::Routine { routine, up } => {
            let callee = Callee::Declared {
                routine: *routine,
                up: *up,
            };
            world.passed(callee, here.context)
        }
        Argument::Formal { up, index } => {
            let callee = Callee::Formal {
                up: *up,
                index: *index,
            };
            world.passed(callee, here.context)
        }
    }
}

/// Takes the actual parameters, from left to right.
#[cycle(run)]
#[tactic(auto, using(crate::proofs::Answers::actuals_start, crate::proofs::Answers::actuals_next, crate::proofs::Answers::actuals_end))]
pub fn take_actuals(
    world: &mut World,
    arguments: &[Argument],
    here: Here,
) -> Result<Vec<Actual>, Halt>
    ensures { Runs actuals_in (m.actuals_of (caller here.entry.setup.now here.entry.fuel) (arguments_of arguments.now)
        (context_of here.entry.context.now) (world_of world.old)) here.entry.depth
        (levels here.entry.setup.now here.entry.fuel (arguments_height (arguments_of arguments.now))) result world.new }
{
    let mut actuals = Vec::new(here.context.alloc);
    for argument in arguments {
        let actual = take_actual(world, argument, here)?;
        keep(&mut actuals, actual)?;
    }
    Ok(actuals)
}
