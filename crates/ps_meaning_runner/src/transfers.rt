// Reads and writes.

ghost use Rattle.std.specs.Prelude.{◌≡◌, max, map, IfOk, OnOk, unwrap_or, length, [], ◌∷◌};
ghost use Rattle.ps_tree.specs.Tree as Tree;
ghost use Rattle.ps_tree.specs.View.{expr_of, place_of, read_of, structure_of, write_of, width_of};
ghost use Rattle.ps_meaning.specs.Statements as m;
ghost use Rattle.ps_meaning.specs.Text as text;
ghost use Rattle.ps_meaning.specs.Expressions.{contents_of};
ghost use Rattle.ps_meaning.specs.Values.{components_of};
ghost use Rattle.ps_meaning.specs.Worlds.{and_then, write_text};
ghost use Rattle.ps_meaning_runner.specs.View.{value_of, values_of, spot_of};
ghost use Rattle.ps_meaning_runner.specs.Worlds as r;
ghost use Rattle.ps_meaning_runner.specs.Worlds.{Answers, acting, context_of, world_of, done_of, held_of, reading_all};
ghost use Rattle.ps_meaning_runner.specs.Worlds.{width_in, width_checked, writing, writing_all};
ghost use Rattle.ps_meaning_runner.specs.Heights.{expr_height, structure_height, reads_height, width_height};
ghost use Rattle.ps_meaning_runner.specs.Heights.{write_height, writes_height};
ghost use Rattle.ps_meaning_runner.specs.Runs.{Runs, levels};

use crate::expressions::{access, evaluate, take_operand};
use crate::operands::Held;
use crate::operators::is_true;
use crate::stop::Halt;
use crate::text::{boolean_text, fitted, integer_text, right_aligned};
use crate::value::{Spot, Value};
use crate::world::{Context, Here, World};
use ps_tree::tree::{Expr, Place, ReadVariable, Structure, Width, WriteParameter};
use std::alloc::{AllocError, Global};

/// Reads variables.
#[cycle(run)]
pub fn read_all(world: &mut World, variables: &[ReadVariable], here: Here) -> Result<(), Halt>
    ensures { Runs done_of (reading_all here.entry.setup.now here.entry.fuel (map read_of variables.now)
        (context_of here.entry.context.now) (world_of world.old)) here.entry.depth
        (levels here.entry.setup.now here.entry.fuel (reads_height (map read_of variables.now))) result world.new }
{
    for variable in variables {
        let spot = access(world, place_read(variable), here)?;
        world.read_into(&spot, variable, here.context)?;
    }
    Ok(())
}

/// The place of a variable that is read.
#[tactic(auto, unfolding(ps_tree::specs::View::read_of))]
fn place_read(variable: &ReadVariable) -> &Place
    ensures { place_of result.now ≡ r.place_read (read_of variable.now) }
{
    match variable {
        ReadVariable::Char { place, .. } | ReadVariable::Integer { place, .. } => place,
    }
}

impl<'a> World<'a> {
    /// Reads into the variable at a spot.
    #[tactic(auto, unfolding(ps_tree::specs::View::read_of))]
    fn read_into(
        &mut self,
        spot: &Spot,
        variable: &ReadVariable,
        context: &Context,
    ) -> Result<(), Halt>
        ensures { Answers done_of (r.reading_into (read_of variable.now) (spot_of spot.now) (context_of context.now)
            (world_of self.old)) result self.new }
    {
        match variable {
            ReadVariable::Char {
                low,
                high,
                line,
                ..
            } => self.read_character(spot, *low, *high, line.number, context),
            ReadVariable::Integer {
                low,
                high,
                line,
                ..
            } => self.read_integer(spot, *low, *high, line.number, context),
        }
    }
}

impl<'a> World<'a> {
    /// The width of a parameter of write; error 11 for one below 1.
    #[tactic(auto, using(crate::proofs::Answers::stops))]
    pub fn checked_width(
        &self,
        width: i32,
        line: u16,
        context: &Context,
    ) -> Result<Option<u32>, Halt>
        ensures { Answers r.width_of (width_checked width line (context_of context.now) (world_of self.now)) result
            self.now }
    {
        if width < 1 {
            Err(self.fault(11, line, context))
        } else {
            Ok(Some(width.unsigned_abs()))
        }
    }
}

/// The width of a parameter of write; error 11 for one below 1.
#[cycle(run)]
#[tactic(auto, using(crate::proofs::Answers::halted_then, crate::proofs::Answers::answers_run), unfolding(ps_tree::specs::View::width_of))]
fn evaluate_width(world: &mut World, width: &Width, here: Here) -> Result<Option<u32>, Halt>
    ensures { Runs r.width_of (width_in here.entry.setup.now here.entry.fuel (width_of width.now)
        (context_of here.entry.context.now) (world_of world.old)) here.entry.depth
        (levels here.entry.setup.now here.entry.fuel (width_height (width_of width.now))) result world.new }
{
    match width {
        Width::Default => Ok(None),
        Width::Given { value, line } => {
            let x = evaluate(world, value, here)?.number();
            world.checked_width(x, line.number, here.context)
        }
    }
}

/// Writes parameters.
#[cycle(run)]
pub fn write_all(world: &mut World, parameters: &[WriteParameter], here: Here) -> Result<(), Halt>
    ensures { Runs done_of (writing_all here.entry.setup.now here.entry.fuel (map write_of parameters.now)
        (context_of here.entry.context.now) (world_of world.old)) here.entry.depth
        (levels here.entry.setup.now here.entry.fuel (writes_height (map write_of parameters.now))) result world.new }
{
    for parameter in parameters {
        write_one(world, parameter, here)?;
    }
    Ok(())
}

/// What a value is written as.
#[derive(Clone, Copy)]
enum Form {
    Integer,
    Char,
    Boolean,
}

/// Writes a parameter.
#[cycle(run)]
#[tactic(auto, using(crate::proofs::Answers::runs_deeper), unfolding(ps_tree::specs::View::write_of))]
fn write_one(world: &mut World, parameter: &WriteParameter, here: Here) -> Result<(), Halt>
    ensures { Runs done_of (writing here.entry.setup.now here.entry.fuel (write_of parameter.now)
        (context_of here.entry.context.now) (world_of world.old)) here.entry.depth
        (levels here.entry.setup.now here.entry.fuel (write_height (write_of parameter.now))) result world.new }
{
    match parameter {
        WriteParameter::Integer { value, width } => {
            write_evaluated(world, Form::Integer, value, width, here)
        }
        WriteParameter::Char { value, width } => {
            write_evaluated(world, Form::Char, value, width, here)
        }
        WriteParameter::Boolean { value, width } => {
            write_evaluated(world, Form::Boolean, value, width, here)
        }
        WriteParameter::Text { value, width } => write_contents(world, value, width, here),
    }
}

/// Writes a value, which is evaluated before the width.
#[cycle(run)]
#[tactic(auto, using(crate::proofs::Answers::halted_then, crate::proofs::Answers::answers_run))]
fn write_evaluated(
    world: &mut World,
    form: Form,
    value: &Expr,
    width: &Width,
    here: Here,
) -> Result<(), Halt>
    ensures { Runs done_of (r.writing_form here.entry.setup.now here.entry.fuel form (expr_of value.now)
        (width_of width.now) (context_of here.entry.context.now) (world_of world.old)) here.entry.depth
        (levels here.entry.setup.now here.entry.fuel
        (max (expr_height (expr_of value.now)) (width_height (width_of width.now)))) result world.new }
{
    let x = evaluate(world, value, here)?;
    let n = evaluate_width(world, width, here)?;
    write_value(world, here.context.alloc, form, &x, n)
}

/// Writes the contents of an operand, which are read after the width is evaluated.
#[cycle(run)]
#[tactic(auto, using(crate::proofs::Answers::halted_then, crate::proofs::Answers::answers_run))]
fn write_contents(
    world: &mut World,
    value: &Structure,
    width: &Width,
    here: Here,
) -> Result<(), Halt>
    ensures { Runs done_of (writing here.entry.setup.now here.entry.fuel
        (Tree.WriteText (structure_of value.now) (width_of width.now)) (context_of here.entry.context.now)
        (world_of world.old)) here.entry.depth (levels here.entry.setup.now here.entry.fuel
        (max (structure_height (structure_of value.now)) (width_height (width_of width.now)))) result world.new }
{
    let held = take_operand(world, value, here)?;
    let n = evaluate_width(world, width, here)?;
    write_string(world, &held, n, here.context)
}

/// The byte of a character.
fn character(value: &Value) -> u8
    ensures { result ≡ m.character (value_of value.now) }
{
    (value.number().unsigned_abs() % 256) as u8
}

/// The characters of a string.
#[tactic(auto, using(crate::proofs::Values::characters_next), unfolding(crate::specs::View::values_of))]
fn characters(alloc: Global, values: &[Value]) -> Result<Vec<u8>, AllocError>
    ensures { IfOk result (λ v. v.items ≡ m.characters (values_of values.now)) }
{
    let mut text = Vec::new(alloc);
    for value in values {
        text.push(character(value))?;
    }
    Ok(text)
}

/// Writes an integer, in a field of 11 characters if no width is given (6.9.3.2).
fn write_integer(
    world: &mut World,
    alloc: Global,
    number: i32,
    width: Option<u32>,
) -> Result<(), Halt>
    ensures { Answers done_of (write_text (text.right_aligned (unwrap_or (r.width_of width) 11)
        (text.integer_text number))
        (world_of world.old)) result world.new }
{
    let text = integer_text(alloc, number)?;
    let field = right_aligned(alloc, width.unwrap_or(11), text.as_slice())?;
    world.write(field.as_slice())
}

/// Writes a character (6.9.3.2).
fn write_character(
    world: &mut World,
    alloc: Global,
    character: u8,
    width: Option<u32>,
) -> Result<(), Halt>
    ensures { Answers done_of (write_text (text.right_aligned (unwrap_or (r.width_of width) 1) (character ∷ []))
        (world_of world.old)) result world.new }
{
    let field = right_aligned(alloc, width.unwrap_or(1), &[character])?;
    world.write(field.as_slice())
}

/// Writes a Boolean, in a field of 5 characters if no width is given (6.9.3.5).
fn write_truth(
    world: &mut World,
    alloc: Global,
    truth: bool,
    width: Option<u32>,
) -> Result<(), Halt>
    ensures { Answers done_of (write_text (text.fitted (unwrap_or (r.width_of width) 5) (text.boolean_text truth))
        (world_of world.old)) result world.new }
{
    let field = fitted(alloc, width.unwrap_or(5), boolean_text(truth))?;
    world.write(field.as_slice())
}

/// Writes a value.
fn write_value(
    world: &mut World,
    alloc: Global,
    form: Form,
    value: &Value,
    width: Option<u32>,
) -> Result<(), Halt>
    ensures { Answers done_of (r.written form (value_of value.now) (r.width_of width) (world_of world.old))
        result world.new }
{
    match form {
        Form::Integer => write_integer(world, alloc, value.number(), width),
        Form::Char => write_character(world, alloc, character(value), width),
        Form::Boolean => write_truth(world, alloc, is_true(value.number()), width),
    }
}

/// Writes the contents of an operand that is a string, in a field of its length if no width is given (6.9.3.6).
fn write_string(
    world: &mut World,
    held: &Held,
    width: Option<u32>,
    context: &Context,
) -> Result<(), Halt>
    ensures { Answers done_of (and_then (contents_of (held_of held.now) (world_of world.old))
        (λ v. write_text (text.fitted (unwrap_or (r.width_of width) (length (m.characters (components_of v))))
        (m.characters (components_of v))))) result world.new }
{
    let value = world.contents_of(held, context)?;
    let text = characters(context.alloc, value.components())?;
    drop(value);
    let Some(count) = width.or(u32::try_from(text.len()).ok()) else {
        return Err(Halt::OutOfMemory);
    };
    let field = fitted(context.alloc, count, text.as_slice())?;
    world.write(field.as_slice())
}
