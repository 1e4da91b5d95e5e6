// The code of sets, whose members are expressions. A set is in the scratch block from x on.

ghost use Rattle.std.specs.Prelude.{◌≡◌, ◌++◌, ◌+◌, ◌≤◌, OnOk};
ghost use Rattle.ps_lower_bounds.specs.Weights.{set_weight, set_steps_weight, member_weight, members_weight};
ghost use Rattle.ps_lower_code.specs.Values.{asked_code, adding_code};
ghost use Rattle.ps_lower_code.specs.Values.{set_code, set_steps_code, members_code, member_code};
ghost use Rattle.ps_lower.specs.Levels.{scope_of};
ghost use Rattle.ps_lower.specs.Sets.{step_code};
ghost use Rattle.ps_tree.specs.Tree as tree;
ghost use Rattle.ps_tree.specs.View.{expr_of, set_of, set_steps_of, members_of, member_of};

use crate::calling::expr_calls;
use crate::depth::{MAX_NUMBER, beside, even_above, even_from, held};
use crate::known::known_member;
use crate::level::Level;
use crate::out::Code;
use crate::places::address;
use crate::sets::{above, add_bit, add_member, add_members, adds, clear, combined, copied_set};
use crate::values::{place, value};
use ps_tree::line::Line;
use ps_tree::tree::{Expr, Member, SetExpr, SetOperator, SetStep};
use std::alloc::AllocError;
use tac_code::code::Base;

/// The address of a set: a variable's own, and that of the set from x on for any other.
#[cycle(values)]
#[tactic(auto, using(ps_tree::proofs::TreeLemmas::set_of_Load, ps_tree::proofs::TreeLemmas::set_of_Constructor), unfolding(ps_tree::specs::View::set_of))]
pub fn asked(out: &mut Code, level: &Level, e: &SetExpr, t: u32, x: u32) -> Result<(), AllocError>
    requires { t + x + set_weight (scope_of level.now) (set_of e.now) ≤ MAX_NUMBER }
    ensures { OnOk result (out.new ≡ out.old ++ asked_code (scope_of level.now) (set_of e.now) t x) }
{
    match e {
        SetExpr::Load(variable) => {
            let site = place(out, level, variable, t, x)?;
            address(out, t, site, 32)
        }
        SetExpr::Constructor(_) | SetExpr::Combine { .. } => {
            set(out, level, e, t, x)?;
            out.offset(t, Base::Scratch, x, 32)
        }
    }
}

/// A set, in the scratch block from x on.
#[cycle(values)]
#[tactic(auto, using(ps_tree::proofs::TreeLemmas::set_of_Load, ps_tree::proofs::TreeLemmas::set_of_Constructor), unfolding(ps_tree::specs::View::set_of))]
pub fn set(out: &mut Code, level: &Level, e: &SetExpr, d: u32, x: u32) -> Result<(), AllocError>
    requires { d + x + set_weight (scope_of level.now) (set_of e.now) ≤ MAX_NUMBER }
    ensures { OnOk result (out.new ≡ out.old ++ set_code (scope_of level.now) (set_of e.now) d x) }
{
    match e {
        SetExpr::Load(variable) => {
            let site = place(out, level, variable, d, x)?;
            copied_set(out, site, d, x)
        }
        SetExpr::Constructor(list) => {
            clear(out, even_from(d), x)?;
            members(out, level, list, d, x)
        }
        SetExpr::Combine { first, steps } => {
            set(out, level, first, d, x)?;
            combine(out, level, steps, d, x)
        }
    }
}

/// The operators after the first set, and their operands. The set so far is from x on.
#[cycle(values)]
fn combine(
    out: &mut Code,
    level: &Level,
    steps: &[SetStep],
    d: u32,
    x: u32,
) -> Result<(), AllocError>
    requires { d + x + set_steps_weight (scope_of level.now) (set_steps_of steps.now) ≤ MAX_NUMBER }
    ensures { OnOk result (out.new ≡ out.old ++ set_steps_code (scope_of level.now) (set_steps_of steps.now) d x) }
{
    for step in steps {
        join(out, level, step.operator, &step.operand, d, x)?;
    }
    Ok(())
}

/// Joins a set to the one from x on: a constructor member by member, others from where they are.
#[cycle(values)]
fn join(
    out: &mut Code,
    level: &Level,
    operator: SetOperator,
    e: &SetExpr,
    d: u32,
    x: u32,
) -> Result<(), AllocError>
    requires { d + x + 64 + set_weight (scope_of level.now) (set_of e.now) ≤ MAX_NUMBER }
    ensures { OnOk result (out.new ≡ out.old ++ step_code (scope_of level.now) operator (set_of e.now) d x) }
{
    if adds(operator, e) {
        return adding(out, level, e, d, x);
    }
    let t = even_from(d);
    let second = beside(t);
    let behind = above(x);
    asked(out, level, e, second, behind)?;
    combined(out, level, operator, t, x)
}

/// Adds the members of a constructor, if it is one, to the set from x on.
#[cycle(values)]
#[tactic(auto, using(ps_tree::proofs::TreeLemmas::set_of_Load, ps_tree::proofs::TreeLemmas::set_of_Constructor, ps_tree::proofs::TreeLemmas::set_of_Combine), unfolding(ps_tree::specs::View::set_of))]
fn adding(out: &mut Code, level: &Level, e: &SetExpr, d: u32, x: u32) -> Result<(), AllocError>
    requires { d + x + set_weight (scope_of level.now) (set_of e.now) ≤ MAX_NUMBER }
    ensures { OnOk result (out.new ≡ out.old ++ adding_code (scope_of level.now) (set_of e.now) d x) }
{
    match e {
        SetExpr::Constructor(list) => members(out, level, list, d, x),
        SetExpr::Load(_) | SetExpr::Combine { .. } => Ok(()),
    }
}

/// Adds the members of a constructor to the set from x on.
#[cycle(values)]
fn members(out: &mut Code, level: &Level, list: &[Member], d: u32, x: u32) -> Result<(), AllocError>
    requires { d + x + members_weight (scope_of level.now) (members_of list.now) ≤ MAX_NUMBER }
    ensures { OnOk result (out.new ≡ out.old ++ members_code (scope_of level.now) (members_of list.now) d x) }
{
    for one in list {
        member(out, level, one, d, x)?;
    }
    Ok(())
}

/// A member, or the members from one to another, whose values are evaluated after the set.
#[cycle(values)]
#[tactic(auto, unfolding(ps_tree::specs::View::member_of))]
fn member(out: &mut Code, level: &Level, one: &Member, d: u32, x: u32) -> Result<(), AllocError>
    requires { d + x + member_weight (scope_of level.now) (member_of one.now) ≤ MAX_NUMBER }
    ensures { OnOk result (out.new ≡ out.old ++ member_code (scope_of level.now) (member_of one.now) d x) }
{
    let behind = above(x);
    match one {
        Member::One { value: e, line } => one_member(out, level, e, *line, d, x),
        Member::Range { from, to, line } => {
            let first = held(expr_calls(to), d);
            let last = even_above(first);
            value(out, level, from, first, behind)?;
            value(out, level, to, last, behind)?;
            add_members(out, level, first, last, x, *line)
        }
    }
}

/// A member: a known one, or one that is evaluated after the set.
#[cycle(values)]
fn one_member(
    out: &mut Code,
    level: &Level,
    e: &Expr,
    line: Line,
    d: u32,
    x: u32,
) -> Result<(), AllocError>
    requires { d + x + member_weight (scope_of level.now) (tree.One (expr_of e.now) line.number) ≤ MAX_NUMBER }
    ensures { OnOk result (out.new ≡ out.old
        ++ member_code (scope_of level.now) (tree.One (expr_of e.now) line.number) d x) }
{
    let t = even_from(d);
    match known_member(e) {
        Some(number) => add_bit(out, number, t, x),
        None => {
            let behind = above(x);
            value(out, level, e, t, behind)?;
            add_member(out, level, t, x, line)
        }
    }
}
