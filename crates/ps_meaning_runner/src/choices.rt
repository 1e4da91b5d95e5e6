// Choices: if and case statements.

ghost use Rattle.std.specs.Prelude.{◌≡◌, ◌≤◌, max, MatchOption};
ghost use Rattle.ps_tree.specs.Tree as Tree;
ghost use Rattle.ps_tree.specs.View.{expr_of, statement_of, elements_of};
ghost use Rattle.ps_meaning.specs.Values.{number_of};
ghost use Rattle.ps_meaning.specs.Operators.{is_among};
ghost use Rattle.ps_meaning_runner.specs.View.{value_of};
ghost use Rattle.ps_meaning_runner.specs.Worlds.{context_of, world_of, done_of, acting, Selects, SelectsNone};
ghost use Rattle.ps_meaning_runner.specs.Heights.{expr_height, statement_height, elements_height};
ghost use Rattle.ps_meaning_runner.specs.Runs.{Runs, levels};

use crate::expressions::evaluate;
use crate::operators::{is_among, is_true};
use crate::statements::act;
use crate::stop::Halt;
use crate::value::Value;
use crate::world::{Here, World};
use ps_tree::tree::{CaseElement, Expr, Statement};

/// An if statement.
#[cycle(run)]
#[tactic(auto, using(crate::proofs::Answers::halted_then, crate::proofs::Answers::runs_deeper))]
pub fn act_if(world: &mut World, condition: &Expr, body: &Statement, here: Here) -> Result<(), Halt>
    ensures { Runs done_of (acting here.entry.setup.now here.entry.fuel
        (Tree.If (expr_of condition.now) (statement_of body.now)) (context_of here.entry.context.now)
        (world_of world.old)) here.entry.depth (levels here.entry.setup.now here.entry.fuel
        (max (expr_height (expr_of condition.now)) (statement_height (statement_of body.now)))) result world.new }
{
    let x = evaluate(world, condition, here)?;
    if is_true(x.number()) {
        act(world, body, here)
    } else {
        Ok(())
    }
}

/// An if statement with an else part.
#[cycle(run)]
#[tactic(auto, using(crate::proofs::Answers::halted_then, crate::proofs::Answers::runs_deeper))]
pub fn act_if_else(
    world: &mut World,
    condition: &Expr,
    body: &Statement,
    otherwise: &Statement,
    here: Here,
) -> Result<(), Halt>
    ensures { Runs done_of (acting here.entry.setup.now here.entry.fuel
        (Tree.IfElse (expr_of condition.now) (statement_of body.now) (statement_of otherwise.now))
        (context_of here.entry.context.now) (world_of world.old)) here.entry.depth
        (levels here.entry.setup.now here.entry.fuel
        (max (expr_height (expr_of condition.now))
        (max (statement_height (statement_of body.now)) (statement_height (statement_of otherwise.now))))) result
        world.new }
{
    let x = evaluate(world, condition, here)?;
    if is_true(x.number()) {
        act(world, body, here)
    } else {
        act(world, otherwise, here)
    }
}

/// A case statement; error 7 if no element has the constant.
#[cycle(run)]
#[tactic(auto, using(crate::proofs::Answers::halted_then))]
pub fn choose(
    world: &mut World,
    index: &Expr,
    elements: &[CaseElement],
    line: u16,
    here: Here,
) -> Result<(), Halt>
    ensures { Runs done_of (acting here.entry.setup.now here.entry.fuel
        (Tree.Case (expr_of index.now) (elements_of elements.now) line) (context_of here.entry.context.now)
        (world_of world.old)) here.entry.depth (levels here.entry.setup.now here.entry.fuel
        (max (expr_height (expr_of index.now)) (elements_height (elements_of elements.now)))) result world.new }
{
    let x = evaluate(world, index, here)?;
    match selected(elements, &x) {
        Some(body) => act(world, body, here),
        None => Err(world.fault(7, line, here.context)),
    }
}

/// The statement of the element that has a constant, if one has it.
fn selected<'t>(elements: &'t [CaseElement], value: &Value) -> Option<&'t Statement>
    ensures chosen { MatchOption result (SelectsNone (elements_of elements.now) (number_of (value_of value.now)))
        (λ body. Selects (elements_of elements.now) (number_of (value_of value.now)) (statement_of body.now)) }
    ensures within { MatchOption result (elements.now ≡ elements.now)
        (λ body. statement_height (statement_of body.now) ≤ elements_height (elements_of elements.now)) }
{
    for element in elements {
        if has_constant(element.constants.as_slice(), value) {
            return Some(&element.body);
        }
    }
    None
}

/// Whether a value is one of the constants.
fn has_constant(constants: &[i32], value: &Value) -> bool
    ensures { result ≡ is_among (number_of (value_of value.now)) constants.now }
{
    is_among(value.number(), constants)
}
