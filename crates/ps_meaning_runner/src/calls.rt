// Calls.

ghost use Rattle.std.specs.Prelude.{◌≤◌};
ghost use Rattle.ps_tree.specs.View.{arguments_of, statements_of};
ghost use Rattle.ps_meaning.specs.Values as v;
ghost use Rattle.ps_meaning.specs.Values.{entire};
ghost use Rattle.ps_meaning.specs.Worlds.{contents};
ghost use Rattle.ps_meaning.specs.Statements.{Block};
ghost use Rattle.ps_meaning_runner.specs.View.{value_of};
ghost use Rattle.ps_meaning_runner.specs.Worlds as r;
ghost use Rattle.ps_meaning_runner.specs.Worlds.{Answers, Stopped, called, called_value, next, program_of, context_of};
ghost use Rattle.ps_meaning_runner.specs.Worlds.{world_of, done_of};
ghost use Rattle.ps_meaning_runner.specs.Heights.{arguments_height, statements_height, highest};
ghost use Rattle.ps_meaning_runner.specs.Runs.{Runs, levels};

use crate::ending::Ending;
use crate::expressions::take_actuals;
use crate::operands::Callee;
use crate::statements::act_all;
use crate::stop::Halt;
use crate::value::{Root, Spot, Value};
use crate::world::{Context, Here, World};
use ps_tree::tree::{Argument, Statement};
use std::alloc::Global;

/// The fuel is used up.
pub fn used_up(world: &World, context: &Context) -> Halt
    ensures { Stopped (r.used_up (world_of world.now)) result world.now }
{
    world.ended(Ending::More, &context.calls, context.alloc)
}

/// Executes a block of the program.
#[cycle(run)]
pub fn do_block(world: &mut World, body: &[Statement], here: Here) -> Result<(), Halt>
    requires { statements_height (statements_of body.now) ≤ highest (program_of here.setup.now) }
    ensures { Runs done_of (next here.entry.setup.now here.entry.fuel (Block (statements_of body.now))
        (context_of here.entry.context.now) (world_of world.old)) here.entry.depth
        (levels here.entry.setup.now here.entry.fuel 0) result world.new }
{
    if here.fuel == 0 {
        Err(used_up(world, here.context))
    } else {
        let inside = Here {
            fuel: here.fuel - 1,
            ..here
        };
        act_all(world, body, inside)
    }
}

/// Calls a procedure, or a procedural parameter.
#[cycle(run)]
#[tactic(auto, using(crate::proofs::Heights::body_within, crate::proofs::Answers::halted_then))]
pub fn call_procedure(
    world: &mut World,
    callee: Callee,
    arguments: &[Argument],
    line: u16,
    here: Here,
) -> Result<(), Halt>
    ensures { Runs done_of (called here.entry.setup.now here.entry.fuel callee (arguments_of arguments.now) line
        (context_of here.entry.context.now) (world_of world.old)) here.entry.depth
        (levels here.entry.setup.now here.entry.fuel (arguments_height (arguments_of arguments.now))) result world.new }
{
    let actuals = take_actuals(world, arguments, here)?;
    let (body, inner) = world.enter(callee, actuals, line, here.context, here.setup)?;
    let inside = Here {
        context: &inner,
        ..here
    };
    do_block(world, body, inside)
}

/// The value of a function, or of a functional parameter: its result is the first variable that the call declares.
#[cycle(run)]
#[tactic(auto, using(crate::proofs::Heights::body_within, crate::proofs::Answers::halted_then))]
pub fn call_value(
    world: &mut World,
    callee: Callee,
    arguments: &[Argument],
    line: u16,
    here: Here,
) -> Result<Value, Halt>
    ensures { Runs value_of (called_value here.entry.setup.now here.entry.fuel callee (arguments_of arguments.now) line
        (context_of here.entry.context.now) (world_of world.old)) here.entry.depth
        (levels here.entry.setup.now here.entry.fuel (arguments_height (arguments_of arguments.now))) result world.new }
{
    let actuals = take_actuals(world, arguments, here)?;
    let name = world.next;
    let (body, inner) = world.enter(callee, actuals, line, here.context, here.setup)?;
    let inside = Here {
        context: &inner,
        ..here
    };
    do_block(world, body, inside)?;
    world.result_at(name, here.context.alloc)
}

impl<'a> World<'a> {
    /// The value of a declared variable.
    fn result_at(&self, name: usize, alloc: Global) -> Result<Value, Halt>
        ensures { Answers value_of (contents (entire (v.Declared name)) (world_of self.now)) result self.now }
    {
        let spot = Spot::entire(alloc, Root::Declared(name));
        Ok(self.contents(alloc, &spot)?)
    }
}
