// The code of expressions and of variables, whose indices are expressions. Code at depth d leaves its word in temporary
// d and writes no temporary below it.

ghost use Rattle.std.specs.Prelude.{◌≡◌, ◌++◌, ◌+◌, ◌≤◌, suc, OnOk, IfOk};
ghost use Rattle.ps_lower_bounds.specs.Weights.{steps_reach, selectors_reach, place_weight, selectors_weight};
ghost use Rattle.ps_lower_bounds.specs.Weights.{expr_weight, steps_weight, operands_weight, structure_weight};
ghost use Rattle.ps_lower_bounds.specs.Weights.{argument_weight, arguments_weight};
ghost use Rattle.ps_lower_code.specs.Scopes.{even_from, unless_known};
ghost use Rattle.ps_lower_layout.specs.Shapes.{shape_of, component_bytes};
ghost use Rattle.ps_lower_code.specs.Values.{literal_of, negated, known_steps, minus_code, front_code, steps_code};
ghost use Rattle.ps_lower_code.specs.Values.{operands_code, place_code, place_site, selectors_code, selectors_site};
ghost use Rattle.ps_lower_code.specs.Values.{structure_code, argument_code, arguments_code};
ghost use Rattle.ps_lower_code.specs.Statements.{expr_code};
ghost use Rattle.ps_lower.specs.Levels.{scope_of, site_of};
ghost use Rattle.ps_lower.specs.Sites.{selector_code, selector_site};
ghost use Rattle.ps_tree.specs.Tree as tree;
ghost use Rattle.ps_tree.specs.View.{expr_of, arithmetic_of, operands_of, place_of, selector_of, selectors_of};
ghost use Rattle.ps_tree.specs.View.{structure_of, argument_of, arguments_of, type_of};

use crate::calling::{asked_calls, expr_calls, operands_call, steps_call, structure_calls};
use crate::calls::{
    Callee, FormalCallee, argument_end, arguments_call, call, call_formal, copied, routine_value,
    scratch_end, tail,
};
use crate::depth::{MAX_NUMBER, even_above, even_from, held, kept};
use crate::helpers::compare_strings;
use crate::input::{look_ahead, look_on};
use crate::known::{bit_operator, gives_byte, literal, negated, operand, operator};
use crate::level::Level;
use crate::levels::formal;
use crate::out::Code;
use crate::pieces::{finish, fitting, function, moved, number, truth_finish};
use crate::places::{address, behind, fetch, indexed, is_byte, name, place_temporary, pointed};
use crate::set_values::{asked, set};
use crate::sets::{above, compare_sets, hand_set, is_member};
use crate::shapes::{byte_count, field_offset, known_steps};
use crate::site::{Room, Site};
use crate::texts::text;
use ps_tree::line::Line;
use ps_tree::tree::{Argument, ArithmeticStep, BooleanOperator, Expr, Place, Selector, Structure};
use ps_tree::types::Ty;
use std::alloc::AllocError;
use tac_code::code::{Operand, Operator};

/// The front code of an expression.
#[cycle(values)]
#[tactic(auto, using(ps_tree::proofs::TreeLemmas::expr_of_Load), unfolding(ps_tree::specs::View::expr_of))]
pub fn front(out: &mut Code, level: &Level, e: &Expr, d: u32, x: u32) -> Result<(), AllocError>
    requires { d + x + expr_weight (scope_of level.now) (expr_of e.now) ≤ MAX_NUMBER }
    ensures { OnOk result (out.new ≡ out.old ++ front_code (scope_of level.now) (expr_of e.now) d x) }
{
    match e {
        Expr::Number(n) => number(out, n, d),
        Expr::Nil => out.literal(d, 0),
        Expr::Load(variable) => {
            let site = place(out, level, variable, d, x)?;
            fetch(out, is_byte(variable), d, site)
        }
        Expr::Plus(operand) => value(out, level, operand, d, x),
        Expr::Minus { operand, line } => minus(out, level, operand, *line, d, x),
        Expr::Not(operand) => front(out, level, operand, d, x),
        Expr::Arithmetic { first, steps } => {
            let sum = kept(steps_call(steps), d);
            value(out, level, first, sum, x)?;
            go_on(out, level, steps, sum, x)?;
            moved(out, sum, d)
        }
        Expr::Logic {
            operator,
            first,
            rest,
        } => {
            let truth = kept(operands_call(rest), d);
            front(out, level, first, truth, x)?;
            truth_finish(out, first, truth)?;
            go_on_with(out, level, *operator, rest, truth, x)?;
            moved(out, truth, d)
        }
        Expr::Compare { left, right, .. } | Expr::ComparePointers { left, right, .. } => {
            let held = kept(expr_calls(right), d);
            value(out, level, left, held, x)?;
            unless_known(out, level, right, even_above(held), x)
        }
        Expr::Apply {
            function: required,
            operand,
            line,
        } => {
            value(out, level, operand, d, x)?;
            function(out, *required, d, *line)
        }
        Expr::CompareStrings { left, right, .. } => {
            let first = held(structure_calls(right), d);
            let second = even_above(first);
            structure(out, level, left, first, x)?;
            structure(out, level, right, second, x)?;
            compare_strings(out, level, left, first, second, d)
        }
        Expr::Call {
            routine,
            up,
            arguments: actual,
            line,
        } => {
            arguments(out, level, actual, d, x)?;
            let callee = Callee {
                routine: *routine,
                up: *up,
            };
            call(out, level, actual, callee, *line, d, d)
        }
        Expr::CallFormal {
            up,
            index,
            arguments: actual,
            line,
        } => {
            arguments(out, level, actual, d, x)?;
            let callee = FormalCallee {
                up: *up,
                index: *index,
            };
            call_formal(out, level, actual, callee, *line, d, d)
        }
        Expr::Eof => look_ahead(out, level, d),
        Expr::Eoln { line } => look_on(out, level, *line, d),
        Expr::CompareSets {
            relation,
            left,
            right,
        } => {
            let t = even_from(d);
            let behind = above(x);
            set(out, level, left, t, x)?;
            set(out, level, right, t, behind)?;
            compare_sets(out, level, *relation, t, x, d)
        }
        Expr::In { left, right } => {
            let member = kept(asked_calls(right), d);
            let t = even_above(member);
            value(out, level, left, member, x)?;
            asked(out, level, right, t, x)?;
            is_member(out, member, t, d)
        }
    }
}

/// The word of an expression.
#[cycle(values)]
pub fn value(out: &mut Code, level: &Level, e: &Expr, d: u32, x: u32) -> Result<(), AllocError>
    requires { d + x + expr_weight (scope_of level.now) (expr_of e.now) ≤ MAX_NUMBER }
    ensures { OnOk result (out.new ≡ out.old ++ expr_code (scope_of level.now) (expr_of e.now) d x) }
{
    front(out, level, e, d, x)?;
    finish(out, e, d)
}

/// The word of an expression, unless the expression is a number.
#[cycle(values)]
pub fn unless_known(
    out: &mut Code,
    level: &Level,
    e: &Expr,
    d: u32,
    x: u32,
) -> Result<(), AllocError>
    requires { d + x + expr_weight (scope_of level.now) (expr_of e.now) ≤ MAX_NUMBER }
    ensures { OnOk result (out.new ≡ out.old ++ unless_known (literal_of (expr_of e.now))
        (expr_code (scope_of level.now) (expr_of e.now) d x)) }
{
    match literal(e) {
        Some(_) => Ok(()),
        None => value(out, level, e, d, x),
    }
}

#[cycle(values)]
fn minus(
    out: &mut Code,
    level: &Level,
    operand: &Expr,
    line: Line,
    d: u32,
    x: u32,
) -> Result<(), AllocError>
    requires { d + 8 + x + expr_weight (scope_of level.now) (expr_of operand.now) ≤ MAX_NUMBER }
    ensures { OnOk result (out.new ≡ out.old ++ minus_code (negated (expr_of operand.now)) d
        (even_from (suc d)) line.number
        (expr_code (scope_of level.now) (expr_of operand.now) (even_from (suc d)) x)) }
{
    match negated(operand) {
        Some(number) => out.literal(d, number),
        None => {
            let t = even_above(d);
            value(out, level, operand, t, x)?;
            out.literal(d, 0)?;
            out.arithmetic(Operator::Subtract, d, d, Operand::Temporary(t), 1, line)
        }
    }
}

/// The steps of a chain, with the number so far in a.
#[cycle(values)]
fn go_on(
    out: &mut Code,
    level: &Level,
    steps: &[ArithmeticStep],
    a: u32,
    x: u32,
) -> Result<(), AllocError>
    requires { a + x + steps_weight (scope_of level.now) (arithmetic_of steps.now) ≤ MAX_NUMBER + 1 }
    ensures { OnOk result (out.new ≡ out.old ++ steps_code (scope_of level.now) (arithmetic_of steps.now) a x) }
{
    let t = even_above(a);
    for step in steps {
        unless_known(out, level, &step.operand, t, x)?;
        let right = operand(literal(&step.operand), t);
        out.arithmetic(operator(step.operator), a, a, right, 1, step.line)?;
    }
    Ok(())
}

/// The operands after the first, with the truth value so far in a.
#[cycle(values)]
fn go_on_with(
    out: &mut Code,
    level: &Level,
    operator: BooleanOperator,
    operands: &[Expr],
    a: u32,
    x: u32,
) -> Result<(), AllocError>
    requires { a + x + operands_weight (scope_of level.now) (operands_of operands.now) ≤ MAX_NUMBER + 1 }
    ensures { OnOk result (out.new ≡ out.old
        ++ operands_code (scope_of level.now) operator (operands_of operands.now) a x) }
{
    let t = even_above(a);
    for operand in operands {
        front(out, level, operand, t, x)?;
        truth_finish(out, operand, t)?;
        out.bits(bit_operator(operator), a, a, Operand::Temporary(t))?;
    }
    Ok(())
}

/// A variable: the code that reaches it, and where it is after that.
#[cycle(values)]
pub fn place(
    out: &mut Code,
    level: &Level,
    place: &Place,
    d: u32,
    x: u32,
) -> Result<Site, AllocError>
    requires { d + x + place_weight (scope_of level.now) (place_of place.now) ≤ MAX_NUMBER }
    ensures code { OnOk result (out.new ≡ out.old ++ place_code (scope_of level.now) (place_of place.now) d x) }
    ensures site { IfOk result (λ s. site_of s ≡ place_site (scope_of level.now) (place_of place.now) d) }
{
    let t = place_temporary(place, d);
    let site = name(out, level, &place.base, t)?;
    along(out, level, &place.selectors, site, t, x)
}

/// From one site to the next, selector by selector.
#[cycle(values)]
fn along(
    out: &mut Code,
    level: &Level,
    selectors: &[Selector],
    site: Site,
    t: u32,
    x: u32,
) -> Result<Site, AllocError>
    requires depth { t + x + selectors_weight (scope_of level.now) (selectors_of selectors.now) ≤ MAX_NUMBER }
    requires reach { site.offset + selectors_reach (selectors_of selectors.now) ≤ MAX_NUMBER }
    ensures code { OnOk result (out.new ≡ out.old ++ selectors_code (scope_of level.now) (selectors_of selectors.now)
        (site_of site) t x) }
    ensures site { IfOk result (λ s. site_of s ≡ selectors_site (selectors_of selectors.now) (site_of site) t) }
{
    let mut site = site;
    for selector in selectors {
        site = select(out, level, selector, site, t, x)?;
    }
    Ok(site)
}

#[cycle(values)]
#[tactic(auto, unfolding(ps_tree::specs::View::selector_of))]
fn select(
    out: &mut Code,
    level: &Level,
    selector: &Selector,
    site: Site,
    t: u32,
    x: u32,
) -> Result<Site, AllocError>
    requires depth { t + x + selectors_weight (scope_of level.now)
        (tree.selector_before (selector_of selector.now) tree.no_selector) ≤ MAX_NUMBER }
    requires reach { site.offset + selectors_reach
        (tree.selector_before (selector_of selector.now) tree.no_selector) ≤ MAX_NUMBER }
    ensures code { OnOk result (out.new ≡ out.old ++ selector_code (scope_of level.now) (selector_of selector.now)
        (site_of site) t x) }
    ensures site { IfOk result (λ s. site_of s ≡ selector_site (selector_of selector.now) (site_of site) t) }
{
    match selector {
        Selector::Element { ty, index, line } => {
            let room = Room {
                first: t,
                scratch: x,
            };
            element(out, level, index, ty, site, room, *line)
        }
        Selector::Field { ty, number } => Ok(behind(site, field_offset(ty, *number))),
        Selector::Target { line, .. } => pointed(out, site, t, *line),
    }
}

/// A component of an array. The steps to it may be known.
#[cycle(values)]
fn element(
    out: &mut Code,
    level: &Level,
    index: &Expr,
    ty: &Ty,
    site: Site,
    room: Room,
    line: Line,
) -> Result<Site, AllocError>
    requires depth { room.first + 8 + room.scratch + expr_weight (scope_of level.now) (expr_of index.now) ≤ MAX_NUMBER }
    requires width { component_bytes (shape_of (type_of ty.now)) ≤ MAX_NUMBER }
    requires reach { site.offset + steps_reach
        (known_steps (type_of ty.now) (literal_of (expr_of index.now))) ≤ MAX_NUMBER }
    ensures code { OnOk result (out.new ≡ out.old ++ selector_code (scope_of level.now)
        (tree.Element (type_of ty.now) (expr_of index.now) line.number) (site_of site) room.first room.scratch) }
    ensures site { IfOk result (λ s. site_of s ≡ selector_site
        (tree.Element (type_of ty.now) (expr_of index.now) line.number)
        (site_of site) room.first) }
{
    match known_steps(ty, index) {
        Some(steps) => Ok(behind(site, steps)),
        None => {
            let at = even_above(room.first);
            value(out, level, index, at, room.scratch)?;
            indexed(out, ty, site, room.first, at, line)
        }
    }
}

/// The address of a structure.
#[cycle(values)]
#[tactic(auto, using(ps_tree::proofs::TreeLemmas::structure_of_Contents), unfolding(ps_tree::specs::View::structure_of))]
pub fn structure(
    out: &mut Code,
    level: &Level,
    e: &Structure,
    d: u32,
    x: u32,
) -> Result<(), AllocError>
    requires { d + x + structure_weight (scope_of level.now) (structure_of e.now) ≤ MAX_NUMBER }
    ensures { OnOk result (out.new ≡ out.old ++ structure_code (scope_of level.now) (structure_of e.now) d x) }
{
    match e {
        Structure::Literal(characters) => text(out, characters, d),
        Structure::Contents {
            place: variable,
            ty,
        } => {
            let site = place(out, level, variable, d, x)?;
            address(out, d, site, byte_count(ty))
        }
    }
}

/// An actual parameter, whose words are placed from t on.
#[cycle(values)]
#[tactic(auto, using(ps_tree::proofs::TreeLemmas::argument_of_Variable), unfolding(ps_tree::specs::View::argument_of))]
fn argument(
    out: &mut Code,
    level: &Level,
    argument: &Argument,
    t: u32,
    x: u32,
) -> Result<(), AllocError>
    requires { t + x + argument_weight (scope_of level.now) (argument_of argument.now) ≤ MAX_NUMBER }
    ensures { OnOk result (out.new ≡ out.old ++ argument_code (scope_of level.now) (argument_of argument.now) t x) }
{
    match argument {
        Argument::Value {
            value: e,
            range,
            line,
        } => {
            value(out, level, e, t, x)?;
            fitting(out, gives_byte(e), literal(e), t, *range, *line)
        }
        Argument::Set {
            value: e,
            low,
            high,
            line,
        } => {
            set(out, level, e, t, x)?;
            hand_set(out, t, x, low, high, *line)
        }
        Argument::Copy { value: e, ty } => {
            structure(out, level, e, t, x)?;
            copied(out, level, ty, t, x)
        }
        Argument::Variable(variable) => {
            let site = place(out, level, variable, t, x)?;
            address(out, t, site, 0)
        }
        Argument::Routine { routine, up } => routine_value(out, level, *routine, *up, t),
        Argument::Formal { up, index } => formal(out, level, t, *up, *index),
    }
}

/// Actual parameters, from left to right.
#[cycle(values)]
pub fn arguments(
    out: &mut Code,
    level: &Level,
    arguments: &[Argument],
    d: u32,
    x: u32,
) -> Result<(), AllocError>
    requires { d + x + arguments_weight (scope_of level.now) (arguments_of arguments.now) ≤ MAX_NUMBER }
    ensures { OnOk result (out.new ≡ out.old ++ arguments_code (scope_of level.now) (arguments_of arguments.now) d x) }
{
    let mut depth = d;
    let mut scratch = x;
    let mut rest = arguments;
    for one in arguments {
        rest = tail(rest);
        let t = held(arguments_call(rest), depth);
        argument(out, level, one, t, scratch)?;
        depth = argument_end(one, t);
        scratch = scratch_end(one, scratch);
    }
    Ok(())
}
