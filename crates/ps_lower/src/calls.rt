// Calls: where their actual parameters are, and what follows the code of these.

ghost use Rattle.std.specs.Prelude.{ℕ, ◌≡◌, ◌++◌, ◌+◌, ◌≤◌, ◌∷◌, [], OnOk, IfOk, if◌then◌else◌, suc, drop};
ghost use Rattle.ps_lower_code.specs.Calling.{argument_calls, arguments_call};
ghost use Rattle.ps_lower_code.specs.Scopes.{routine_up, even_from, beside, link_code, formal_code, copy_code};
ghost use Rattle.ps_lower_code.specs.Values.{argument_words, argument_end, argument_scratch, arguments_words};
ghost use Rattle.ps_lower_code.specs.Values.{arguments_end};
ghost use Rattle.ps_lower_layout.specs.Frames.{entry_offset};
ghost use Rattle.ps_lower_layout.specs.Shapes.{shape_of, byte_count};
ghost use Rattle.ps_lower.specs.Levels.{scope_of};
ghost use Rattle.ps_tree.specs.View.{type_of, argument_of, arguments_of};
ghost use Rattle.tac_code.specs.declared.code.Base.TheVariants as base;
ghost use Rattle.tac_code.specs.declared.code.Instruction.TheVariants as i;

use crate::calling::{expr_calls, place_calls};
use crate::depth::{MAX_NUMBER, beside, even_from, held};
use crate::helpers::copy;
use crate::level::Level;
use crate::levels::{formal, link};
use crate::out::Code;
use crate::shapes::byte_count;
use ps_tree::line::Line;
use ps_tree::tree::Argument;
use ps_tree::types::Ty;
use std::alloc::{AllocError, Global};
use tac_code::code::{Base, Instruction};

/// A called routine of the program: its number, and how many levels up its block is.
#[derive(Clone, Copy)]
pub struct Callee {
    pub routine: u32,
    pub up: u32,
}

/// A called procedural or functional parameter: how many levels up it is declared, and its number there.
#[derive(Clone, Copy)]
pub struct FormalCallee {
    pub up: u32,
    pub index: u32,
}

/// Whether the code of an actual parameter calls.
#[tactic(auto, using(ps_tree::proofs::TreeLemmas::argument_of_Variable), unfolding(ps_tree::specs::View::argument_of))]
fn argument_calls(argument: &Argument) -> bool
    ensures { result ≡ argument_calls (argument_of argument.now) }
{
    match argument {
        Argument::Value { value, .. } => expr_calls(value),
        Argument::Set { .. } | Argument::Copy { .. } => true,
        Argument::Variable(place) => place_calls(place),
        Argument::Routine { .. } | Argument::Formal { .. } => false,
    }
}

/// Whether the code of actual parameters calls.
pub fn arguments_call(arguments: &[Argument]) -> bool
    ensures { result ≡ arguments_call (arguments_of arguments.now) }
{
    for argument in arguments {
        if argument_calls(argument) {
            return true;
        }
    }
    false
}

/// The actual parameters after the first.
pub fn tail<'a>(arguments: &'a [Argument]) -> &'a [Argument]
    ensures { result.now ≡ drop 1 arguments.now }
{
    if arguments.is_empty() {
        arguments
    } else {
        &arguments[1..]
    }
}

/// Whether an actual parameter has two words.
#[tactic(auto, using(ps_tree::proofs::TreeLemmas::argument_of_Variable), unfolding(ps_tree::specs::View::argument_of))]
fn is_pair(argument: &Argument) -> bool
    ensures words { (t : ℕ) → argument_words (argument_of argument.now) t
        ≡ (if result then t ∷ beside t ∷ [] else (t ∷ [])) }
    ensures end { (t : ℕ) → argument_end (argument_of argument.now) t ≡ (if result then suc (beside t) else suc t) }
{
    match argument {
        Argument::Routine { .. } | Argument::Formal { .. } => true,
        Argument::Value { .. }
        | Argument::Set { .. }
        | Argument::Copy { .. }
        | Argument::Variable(_) => false,
    }
}

/// The first temporary after the words of an actual parameter.
pub fn argument_end(argument: &Argument, t: u32) -> u32
    requires { t ≤ 4294960000 }
    ensures value { result ≡ argument_end (argument_of argument.now) t }
    ensures small { result ≤ t + 3 }
{
    if is_pair(argument) {
        beside(t) + 1
    } else {
        t + 1
    }
}

/// The scratch that an actual parameter holds, after x.
#[tactic(auto, using(ps_tree::proofs::TreeLemmas::argument_of_Variable), unfolding(ps_tree::specs::View::argument_of))]
fn argument_scratch(argument: &Argument) -> u32
    requires { argument_scratch (argument_of argument.now) ≤ MAX_NUMBER }
    ensures { result ≡ argument_scratch (argument_of argument.now) }
{
    match argument {
        Argument::Set { .. } => 32,
        Argument::Copy { ty, .. } => byte_count(ty),
        Argument::Value { .. }
        | Argument::Variable(_)
        | Argument::Routine { .. }
        | Argument::Formal { .. } => 0,
    }
}

/// The end of the scratch that an actual parameter holds from x on.
pub fn scratch_end(argument: &Argument, x: u32) -> u32
    requires { x + argument_scratch (argument_of argument.now) ≤ MAX_NUMBER }
    ensures { result ≡ x + argument_scratch (argument_of argument.now) }
{
    x + argument_scratch(argument)
}

/// The first temporary after the words of actual parameters.
fn arguments_end(arguments: &[Argument], d: u32) -> u32
    requires { arguments_end (arguments_of arguments.now) d ≤ MAX_NUMBER }
    ensures { result ≡ arguments_end (arguments_of arguments.now) d }
{
    let mut depth = d;
    let mut rest = arguments;
    for argument in arguments {
        rest = tail(rest);
        depth = argument_end(argument, held(arguments_call(rest), depth));
    }
    depth
}

/// The temporary of the static link, or of a formal's routine.
pub fn link_temporary(arguments: &[Argument], d: u32) -> u32
    requires { arguments_end (arguments_of arguments.now) d ≤ MAX_NUMBER }
    ensures value { result ≡ even_from (arguments_end (arguments_of arguments.now) d) }
    ensures small { result ≤ MAX_NUMBER + 1 }
{
    even_from(arguments_end(arguments, d))
}

/// Adds the temporaries of an actual parameter.
fn add_words(list: &mut Vec<u32>, argument: &Argument, t: u32) -> Result<(), AllocError>
    requires { t ≤ 4294960000 }
    ensures { OnOk result (list.new.items ≡ list.old.items ++ argument_words (argument_of argument.now) t) }
{
    list.push(t)?;
    if is_pair(argument) {
        list.push(beside(t))?;
    }
    Ok(())
}

/// The temporaries that a call passes, the static link's first.
fn words(alloc: Global, arguments: &[Argument], link: u32, d: u32) -> Result<Vec<u32>, AllocError>
    requires { arguments_end (arguments_of arguments.now) d ≤ MAX_NUMBER }
    ensures { IfOk result (λ list. list.items ≡ link ∷ arguments_words (arguments_of arguments.now) d) }
{
    let mut list = Vec::new(alloc);
    list.push(link)?;
    let mut depth = d;
    let mut rest = arguments;
    for argument in arguments {
        rest = tail(rest);
        let t = held(arguments_call(rest), depth);
        add_words(&mut list, argument, t)?;
        depth = argument_end(argument, t);
    }
    Ok(list)
}

/// The static link and the call of a routine.
pub fn call(
    out: &mut Code,
    level: &Level,
    arguments: &[Argument],
    callee: Callee,
    line: Line,
    d: u32,
    to: u32,
) -> Result<(), AllocError>
    requires { arguments_end (arguments_of arguments.now) d ≤ MAX_NUMBER }
    ensures { OnOk result (out.new ≡ out.old ++ (link_code (scope_of level.now)
        (even_from (arguments_end (arguments_of arguments.now) d)) callee.up ++ i.Call to callee.routine
        (even_from (arguments_end (arguments_of arguments.now) d) ∷ arguments_words (arguments_of arguments.now) d)
        line.number
        ∷ [])) }
{
    let t = link_temporary(arguments, d);
    link(out, level, t, callee.up)?;
    let operands = words(out.alloc(), arguments, t, d)?;
    out.call(to, callee.routine, &operands, line)
}

/// The routine of a formal parameter, and the call of it.
pub fn call_formal(
    out: &mut Code,
    level: &Level,
    arguments: &[Argument],
    callee: FormalCallee,
    line: Line,
    d: u32,
    to: u32,
) -> Result<(), AllocError>
    requires depth { arguments_end (arguments_of arguments.now) d ≤ MAX_NUMBER }
    requires reach { entry_offset (routine_up (scope_of level.now) callee.up) callee.index ≤ MAX_NUMBER }
    ensures { OnOk result (out.new ≡ out.old ++ (formal_code (scope_of level.now)
        (even_from (arguments_end (arguments_of arguments.now) d)) callee.up callee.index ++ i.CallValue to
        (even_from (arguments_end (arguments_of arguments.now) d))
        (beside (even_from (arguments_end (arguments_of arguments.now) d)) ∷ arguments_words
        (arguments_of arguments.now) d) line.number ∷ [])) }
{
    let t = link_temporary(arguments, d);
    formal(out, level, t, callee.up, callee.index)?;
    let operands = words(out.alloc(), arguments, beside(t), d)?;
    out.call_value(to, t, &operands, line)
}

/// A routine passed as a parameter, and its static link.
pub fn routine_value(
    out: &mut Code,
    level: &Level,
    routine: u32,
    up: u32,
    t: u32,
) -> Result<(), AllocError>
    requires { t ≤ 4294950000 }
    ensures { OnOk result (out.new ≡ out.old
        ++ i.RoutineValue t routine ∷ link_code (scope_of level.now) (beside t) up) }
{
    out.push(Instruction::RoutineValue { to: t, routine })?;
    link(out, level, beside(t), up)
}

/// Copies a structure whose address is in t to scratch; the copy's address goes to t.
pub fn copied(out: &mut Code, level: &Level, ty: &Ty, t: u32, x: u32) -> Result<(), AllocError>
    requires depth { t ≤ 4294960000 }
    requires length { byte_count (shape_of (type_of ty.now)) ≤ MAX_NUMBER }
    ensures { OnOk result (out.new ≡ out.old ++ i.Offset (beside t) base.Scratch x
        (byte_count (shape_of (type_of ty.now))) ∷ copy_code (scope_of level.now) (beside t) t (beside (beside t))
        (byte_count (shape_of (type_of ty.now))) ++ i.Offset t base.Scratch x (byte_count (shape_of (type_of ty.now)))
        ∷ []) }
{
    let bytes = byte_count(ty);
    let to = beside(t);
    out.offset(to, Base::Scratch, x, bytes)?;
    copy(out, level, to, t, beside(to), bytes)?;
    out.offset(t, Base::Scratch, x, bytes)
}
