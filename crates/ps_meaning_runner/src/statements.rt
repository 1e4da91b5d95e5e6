// Statements.

ghost use Rattle.std.specs.Prelude.{map, max};
ghost use Rattle.ps_tree.specs.Tree as Tree;
ghost use Rattle.ps_tree.specs.View.{type_of, place_of, expr_of, set_of, structure_of, statement_of, statements_of};
ghost use Rattle.ps_meaning_runner.specs.Worlds.{context_of, world_of, done_of, acting, acting_all};
ghost use Rattle.ps_meaning_runner.specs.Heights.{place_height, places_height, expr_height, set_height};
ghost use Rattle.ps_meaning_runner.specs.Heights.{structure_height, statement_height, statements_height};
ghost use Rattle.ps_meaning_runner.specs.Runs.{Runs, levels};

use crate::calls::call_procedure;
use crate::choices::{act_if, act_if_else, choose};
use crate::expressions::{access, evaluate, evaluate_set, take_operand};
use crate::loops::{Bounds, Control, count, repeat_until, repeat_while};
use crate::operands::{BaseType, Callee, index_of};
use crate::required::ArraySpot;
use crate::stop::Halt;
use crate::transfers::{read_all, write_all};
use crate::world::{Context, Here, World};
use ps_tree::tree::{Expr, Place, Range, SetExpr, Statement, Structure};
use ps_tree::types::Ty;

/// A variable of an array type in the text, with its type.
#[derive(Clone, Copy)]
struct Array<'t> {
    place: &'t Place,
    ty: &'t Ty,
}

/// Executes a statement.
#[cycle(run)]
#[tactic(auto, using(crate::proofs::Answers::runs_deeper, crate::proofs::Answers::halted_then, crate::proofs::Answers::answers_run, crate::proofs::Trees::statement_of_Compound, crate::proofs::Trees::statement_of_Repeat, crate::proofs::Trees::statement_of_Case), unfolding(ps_tree::specs::View::statement_of, crate::specs::View::value_of))]
pub fn act(world: &mut World, statement: &Statement, here: Here) -> Result<(), Halt>
    ensures { Runs done_of (acting here.entry.setup.now here.entry.fuel (statement_of statement.now)
        (context_of here.entry.context.now) (world_of world.old)) here.entry.depth
        (levels here.entry.setup.now here.entry.fuel (statement_height (statement_of statement.now))) result world.new }
{
    if here.depth == 0 {
        return Err(Halt::TooDeep);
    }
    let below = Here {
        depth: here.depth - 1,
        ..here
    };
    match statement {
        Statement::Empty => Ok(()),
        Statement::Assign {
            target,
            range,
            value,
            line,
        } => assign(world, target, *range, value, line.number, below),
        Statement::AssignSet {
            target,
            low,
            high,
            value,
            line,
        } => {
            let base = BaseType {
                low: *low,
                high: *high,
            };
            assign_set(world, target, base, value, line.number, below)
        }
        Statement::AssignStructure { target, value } => {
            assign_structure(world, target, value, below)
        }
        Statement::Call {
            routine,
            up,
            arguments,
            line,
        } => {
            let callee = Callee::Declared {
                routine: *routine,
                up: *up,
            };
            call_procedure(world, callee, arguments, line.number, below)
        }
        Statement::CallFormal {
            up,
            index,
            arguments,
            line,
        } => {
            let callee = Callee::Formal {
                up: *up,
                index: *index,
            };
            call_procedure(world, callee, arguments, line.number, below)
        }
        Statement::Compound(body) => act_all(world, body, below),
        Statement::If { condition, body } => act_if(world, condition, body, below),
        Statement::IfElse {
            condition,
            body,
            otherwise,
        } => act_if_else(world, condition, body, otherwise, below),
        Statement::Case {
            index,
            elements,
            line,
        } => choose(world, index, elements, line.number, below),
        Statement::While { condition, body } => { repeat_while(world, condition, body, below) }
        Statement::Repeat { body, condition } => { repeat_until(world, body, condition, below) }
        Statement::For {
            variable,
            low,
            high,
            from,
            from_line,
            direction,
            to,
            to_line,
            body,
            ..
        } => {
            let control = Control {
                variable: *variable,
                direction: *direction,
            };
            let bounds = Bounds {
                from,
                from_line: from_line.number,
                to,
                to_line: to_line.number,
            };
            count(world, control, *low, *high, bounds, body, below)
        }
        Statement::With { places, body } => { act_with(world, places, body, below) }
        Statement::New {
            place,
            pointer,
            line,
        } => {
            let spot = access(world, place, below)?;
            world.put_object(&spot, *pointer, line.number, here.context, here.setup)
        }
        Statement::Pack {
            from,
            from_ty,
            index,
            line,
            to,
            to_ty,
        } => {
            let from = Array {
                place: from,
                ty: from_ty,
            };
            let to = Array {
                place: to,
                ty: to_ty,
            };
            pack(world, from, index, line.number, to, below)
        }
        Statement::Unpack {
            from,
            from_ty,
            to,
            to_ty,
            index,
            line,
        } => {
            let from = Array {
                place: from,
                ty: from_ty,
            };
            let to = Array {
                place: to,
                ty: to_ty,
            };
            unpack(world, from, to, index, line.number, below)
        }
        Statement::Read { variables } => read_all(world, variables, below),
        Statement::Readln { variables, line } => {
            read_all(world, variables, below)?;
            world.line_taken(line.number, here.context)
        }
        Statement::Write { parameters } => write_all(world, parameters, below),
        Statement::Writeln { parameters } => {
            write_all(world, parameters, below)?;
            world.write(&[10])
        }
    }
}

/// Executes statements, one after another.
#[cycle(run)]
#[tactic(auto, using(crate::proofs::Acts::acts_next, crate::proofs::Acts::acts_end))]
pub fn act_all(world: &mut World, statements: &[Statement], here: Here) -> Result<(), Halt>
    ensures { Runs done_of (acting_all here.entry.setup.now here.entry.fuel (statements_of statements.now)
        (context_of here.entry.context.now) (world_of world.old)) here.entry.depth
        (levels here.entry.setup.now here.entry.fuel (statements_height (statements_of statements.now))) result
        world.new }
{
    for statement in statements {
        act(world, statement, here)?;
    }
    Ok(())
}

/// Assigns to a variable of an ordinal or pointer type, which is accessed first.
#[cycle(run)]
#[tactic(auto, using(crate::proofs::Answers::halted_then, crate::proofs::Answers::answers_run))]
fn assign(
    world: &mut World,
    target: &Place,
    range: Range,
    value: &Expr,
    line: u16,
    here: Here,
) -> Result<(), Halt>
    ensures { Runs done_of (acting here.entry.setup.now here.entry.fuel
        (Tree.Assign (place_of target.now) range (expr_of value.now) line) (context_of here.entry.context.now)
        (world_of world.old)) here.entry.depth (levels here.entry.setup.now here.entry.fuel
        (max (place_height (place_of target.now)) (expr_height (expr_of value.now)))) result world.new }
{
    let spot = access(world, target, here)?;
    let x = evaluate(world, value, here)?;
    world.put_fitting(&spot, range, x, line, here.context)
}

/// Assigns to a variable of a set type.
#[cycle(run)]
#[tactic(auto, using(crate::proofs::Answers::halted_then, crate::proofs::Answers::answers_run))]
fn assign_set(
    world: &mut World,
    target: &Place,
    base: BaseType,
    value: &SetExpr,
    line: u16,
    here: Here,
) -> Result<(), Halt>
    ensures { Runs done_of (acting here.entry.setup.now here.entry.fuel
        (Tree.AssignSet (place_of target.now) base.low base.high (set_of value.now) line)
        (context_of here.entry.context.now) (world_of world.old)) here.entry.depth
        (levels here.entry.setup.now here.entry.fuel
        (max (place_height (place_of target.now)) (set_height (set_of value.now)))) result world.new }
{
    let spot = access(world, target, here)?;
    let x = evaluate_set(world, value, here)?;
    world.put_fitting_set(&spot, base, x, line, here.context)
}

/// Assigns to a variable of an array or record type.
#[cycle(run)]
#[tactic(auto, using(crate::proofs::Answers::halted_then, crate::proofs::Answers::answers_run))]
fn assign_structure(
    world: &mut World,
    target: &Place,
    value: &Structure,
    here: Here,
) -> Result<(), Halt>
    ensures { Runs done_of (acting here.entry.setup.now here.entry.fuel
        (Tree.AssignStructure (place_of target.now) (structure_of value.now)) (context_of here.entry.context.now)
        (world_of world.old)) here.entry.depth (levels here.entry.setup.now here.entry.fuel
        (max (place_height (place_of target.now)) (structure_height (structure_of value.now)))) result world.new }
{
    let spot = access(world, target, here)?;
    let held = take_operand(world, value, here)?;
    world.put_contents(&spot, &held, here.context)
}

/// A with statement: each record is opened in the context of those before it.
#[cycle(run)]
fn act_with(world: &mut World, places: &[Place], body: &Statement, here: Here) -> Result<(), Halt>
    ensures { Runs done_of (acting here.entry.setup.now here.entry.fuel
        (Tree.With (map place_of places.now) (statement_of body.now)) (context_of here.entry.context.now)
        (world_of world.old)) here.entry.depth (levels here.entry.setup.now here.entry.fuel
        (max (places_height (map place_of places.now)) (statement_height (statement_of body.now)))) result world.new }
{
    let mut inner = here.context.copy()?;
    for place in places {
        let inside = Here {
            context: &inner,
            ..here
        };
        let spot = access(world, place, inside)?;
        inner.open(spot)?;
    }
    let inside = Here {
        context: &inner,
        ..here
    };
    act(world, body, inside)
}

/// pack.
#[cycle(run)]
#[tactic(auto, using(crate::proofs::Answers::halted_then, crate::proofs::Answers::stopped_halts_then, crate::proofs::Answers::answers_run))]
fn pack(
    world: &mut World,
    from: Array,
    index: &Expr,
    line: u16,
    to: Array,
    here: Here,
) -> Result<(), Halt>
    ensures { Runs done_of (acting here.entry.setup.now here.entry.fuel
        (Tree.Pack (place_of from.entry.place.now) (type_of from.entry.ty.now) (expr_of index.now) line
        (place_of to.entry.place.now) (type_of to.entry.ty.now)) (context_of here.entry.context.now)
        (world_of world.old)) here.entry.depth (levels here.entry.setup.now here.entry.fuel
        (max (place_height (place_of from.entry.place.now)) (max (expr_height (expr_of index.now))
        (place_height (place_of to.entry.place.now))))) result world.new }
{
    let a = access(world, from.place, here)?;
    let x = evaluate(world, index, here)?.number();
    let k = world.index_place(index_of(from.ty), x, line, here.context)?;
    let z = access(world, to.place, here)?;
    let unpacked = ArraySpot {
        spot: &a,
        index: index_of(from.ty),
    };
    let packed = ArraySpot {
        spot: &z,
        index: index_of(to.ty),
    };
    world.pack(unpacked, k, packed, line, here.context)
}

/// unpack.
#[cycle(run)]
#[tactic(auto, using(crate::proofs::Answers::halted_then, crate::proofs::Answers::stopped_halts_then, crate::proofs::Answers::answers_run))]
fn unpack(
    world: &mut World,
    from: Array,
    to: Array,
    index: &Expr,
    line: u16,
    here: Here,
) -> Result<(), Halt>
    ensures { Runs done_of (acting here.entry.setup.now here.entry.fuel
        (Tree.Unpack (place_of from.entry.place.now) (type_of from.entry.ty.now) (place_of to.entry.place.now)
        (type_of to.entry.ty.now) (expr_of index.now) line) (context_of here.entry.context.now) (world_of world.old))
        here.entry.depth (levels here.entry.setup.now here.entry.fuel
        (max (place_height (place_of from.entry.place.now)) (max (place_height (place_of to.entry.place.now))
        (expr_height (expr_of index.now))))) result world.new }
{
    let z = access(world, from.place, here)?;
    let a = access(world, to.place, here)?;
    let x = evaluate(world, index, here)?.number();
    let k = world.index_place(index_of(to.ty), x, line, here.context)?;
    let packed = ArraySpot {
        spot: &z,
        index: index_of(from.ty),
    };
    let unpacked = ArraySpot {
        spot: &a,
        index: index_of(to.ty),
    };
    world.unpack(packed, unpacked, k, line, here.context)
}
