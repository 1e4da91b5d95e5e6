// The pieces of code that follow the code of operands.

ghost use Rattle.std.specs.Prelude.{◌≡◌, ◌++◌, ◌≤◌, [], ◌∷◌, pos, OnOk};
ghost use Rattle.ps_lower_code.specs.Scopes.{moved, range_code, check_code, fitting_code, operand_check};
ghost use Rattle.ps_lower_code.specs.Values.{relation_code, finish, truth_finish, function_code};
ghost use Rattle.ps_tree.specs.View.{expr_of};
ghost use Rattle.ps_tree.specs.declared.tree.operators.RequiredFunction.TheVariants.{Abs};
ghost use Rattle.tac_code.specs.declared.code.Instruction.TheVariants as i;
ghost use Rattle.tac_code.specs.declared.code.Operand.TheVariants as operand;

use crate::depth::{MAX_NUMBER, even_above};
use crate::known::{
    has_bytes, is_any, is_between, is_relation, is_truth, left_in, relation_in, right_in,
};
use crate::out::Code;
use ps_tree::line::Line;
use ps_tree::tree::{Expr, Range, RequiredFunction};
use std::alloc::AllocError;
use tac_code::code::{BitOperator, Instruction, Operand, Operator, Relation};

/// A number in the tree.
pub fn number(out: &mut Code, n: &i32, d: u32) -> Result<(), AllocError>
    ensures { OnOk result (out.new ≡ out.old ++ i.Literal d n.now ∷ []) }
{
    out.literal(d, *n)
}

/// A value, moved to where it is wanted.
pub fn moved(out: &mut Code, from: u32, to: u32) -> Result<(), AllocError>
    ensures { OnOk result (out.new ≡ out.old ++ moved from to) }
{
    if from == to {
        Ok(())
    } else {
        out.push(Instruction::Copy { to, from })
    }
}

/// The truth value of the relation that an expression left, as a word.
fn relation(out: &mut Code, e: &Expr, d: u32) -> Result<(), AllocError>
    requires { d ≤ MAX_NUMBER }
    ensures { OnOk result (out.new ≡ out.old ++ relation_code (expr_of e.now) d) }
{
    out.compare(relation_in(e), d, left_in(e, d), right_in(e, d))
}

/// The word of an expression, after its front code.
pub fn finish(out: &mut Code, e: &Expr, d: u32) -> Result<(), AllocError>
    requires { d ≤ MAX_NUMBER }
    ensures { OnOk result (out.new ≡ out.old ++ finish (expr_of e.now) d) }
{
    if is_relation(e) {
        relation(out, e, d)
    } else {
        Ok(())
    }
}

/// The truth value of an expression, as 0 or 1, after its front code.
pub fn truth_finish(out: &mut Code, e: &Expr, d: u32) -> Result<(), AllocError>
    requires { d ≤ MAX_NUMBER }
    ensures { OnOk result (out.new ≡ out.old ++ truth_finish (expr_of e.now) d) }
{
    if is_truth(e) && !is_relation(e) {
        Ok(())
    } else {
        relation(out, e, d)
    }
}

/// The test that a number is in a range, unless every integer is.
pub fn range(
    out: &mut Code,
    t: u32,
    low: i32,
    high: i32,
    error: u8,
    line: Line,
) -> Result<(), AllocError>
    ensures { OnOk result (out.new ≡ out.old ++ range_code t low high error line.number) }
{
    if is_any(low, high) {
        Ok(())
    } else {
        out.check_range(t, low, high, error, line)
    }
}

/// The test that a number is in a range, unless it is known to be.
pub fn check(
    out: &mut Code,
    known: Option<i32>,
    t: u32,
    low: i32,
    high: i32,
    error: u8,
    line: Line,
) -> Result<(), AllocError>
    ensures { OnOk result (out.new ≡ out.old ++ check_code known t low high error line.number) }
{
    match known {
        None => range(out, t, low, high, error, line),
        Some(number) => {
            if is_between(low, number, high) {
                Ok(())
            } else {
                out.check_range(t, low, high, error, line)
            }
        }
    }
}

/// The test of the range that the tree requires. A value that is known to be a byte needs none if the range has all
/// bytes.
pub fn fitting(
    out: &mut Code,
    byte: bool,
    known: Option<i32>,
    t: u32,
    range: Range,
    line: Line,
) -> Result<(), AllocError>
    ensures { OnOk result (out.new ≡ out.old ++ fitting_code byte known t range line.number) }
{
    match range {
        Range::Any => Ok(()),
        Range::Within { low, high } => {
            if byte && has_bytes(low, high) {
                Ok(())
            } else {
                check(out, known, t, low, high, 4, line)
            }
        }
    }
}

/// The test of an operand, which need not be in a temporary.
pub fn operand_check(
    out: &mut Code,
    known: Option<i32>,
    t: u32,
    low: i32,
    high: i32,
    error: u8,
    line: Line,
) -> Result<(), AllocError>
    ensures { OnOk result (out.new ≡ out.old ++ operand_check known t low high error line.number) }
{
    match known {
        None => range(out, t, low, high, error, line),
        Some(number) => {
            if is_between(low, number, high) {
                Ok(())
            } else {
                out.trap(error, line)
            }
        }
    }
}

/// The absolute value of the number in d.
fn absolute(out: &mut Code, d: u32, line: Line) -> Result<(), AllocError>
    requires { d ≤ MAX_NUMBER }
    ensures { OnOk result (out.new ≡ out.old ++ function_code Abs d line.number) }
{
    let t = even_above(d);
    out.branch(Relation::GreaterEqual, d, Operand::Number(0), 2)?;
    out.literal(t, 0)?;
    out.arithmetic(Operator::Subtract, d, t, Operand::Temporary(d), 1, line)
}

/// A step up or down from the number in d, and the test of the bounds.
fn stepped(
    out: &mut Code,
    operator: Operator,
    d: u32,
    low: i32,
    high: i32,
    line: Line,
) -> Result<(), AllocError>
    ensures { OnOk result (out.new ≡ out.old ++ (i.Arithmetic operator d d (operand.Number (pos 1)) 4 line.number
        ∷ range_code d low high 4 line.number)) }
{
    out.arithmetic(operator, d, d, Operand::Number(1), 4, line)?;
    range(out, d, low, high, 4, line)
}

/// The value of a required function of the number in d.
pub fn function(
    out: &mut Code,
    function: RequiredFunction,
    d: u32,
    line: Line,
) -> Result<(), AllocError>
    requires { d ≤ MAX_NUMBER }
    ensures { OnOk result (out.new ≡ out.old ++ function_code function d line.number) }
{
    match function {
        RequiredFunction::Abs => absolute(out, d, line),
        RequiredFunction::Sqr => {
            out.arithmetic(Operator::Multiply, d, d, Operand::Temporary(d), 1, line)
        }
        RequiredFunction::Odd => out.bits(BitOperator::And, d, d, Operand::Number(1)),
        RequiredFunction::Ord => Ok(()),
        RequiredFunction::Chr => out.check_range(d, 0, 255, 4, line),
        RequiredFunction::Succ { high } => stepped(out, Operator::Add, d, i32::MIN, high, line),
        RequiredFunction::Pred { low } => stepped(out, Operator::Subtract, d, low, i32::MAX, line),
    }
}
