//! The operators (ISO 7185, 6.7.2).

mod comparison;

ghost use Rattle.std.specs.Prelude.{◌≡◌, if◌then◌else◌, IfOk};
ghost use Rattle.ps_tree.specs.View.{type_of, expr_of, set_of};
ghost use Rattle.ps_tree.specs.Types.{is_compatible};
ghost use Rattle.ps_tree.specs.Chains.{combined};
ghost use Rattle.ps_check_judgement.specs.Judged.{Answers, provided};
ghost use Rattle.ps_check_judgement.specs.declared.refusal.CheckFault.TheVariants.{Broken};
ghost use Rattle.ps_check_judgement.specs.declared.refusal.Rule.TheVariants.{WrongType};
ghost use Rattle.ps_check_expressions.specs.Values.{SetValue, set_type_of_both};
ghost use Rattle.ps_check_expressions.specs.Operators.{operand_of, number, with_sign, negated, arithmetic};
ghost use Rattle.ps_check_expressions.specs.Operators.{arithmetic_or_set, logic, added, multiplied};
ghost use Rattle.ps_check_expressions.specs.Operators.{may_be_first};
ghost use Rattle.ps_check_expressions.specs.Operators.{truth};
ghost use Rattle.ps_check_expressions.specs.View.{value_of};

use crate::operators::comparison::may_be_first;
use crate::value::{TypedValue, has_host, set_type_of_both};
pub(crate) use comparison::compared;
use ps_check_judgement::answer::{boxed_answer, broken, paired};
use ps_check_judgement::refusal::{CheckFault, Rule};
use ps_check_names::constants::{BOOLEAN, INTEGER};
use ps_syntax::{Adding, Multiplying, Relational, Sign};
use ps_tree::line::Line;
use ps_tree::tree::{ArithmeticOperator, BooleanOperator, Expr, SetExpr, SetOperator, Structure};
use ps_tree::types::{Host, Ty, compatible};
use std::alloc::{AllocError, Global};

/// Where the first tokens of two operands are.
#[derive(Clone, Copy)]
pub struct Operands {
    pub first: u32,
    pub second: u32,
}

/// An operand of a wrong type, whose first token is at `at`.
pub fn wrong_type(at: u32) -> CheckFault
    ensures { result ≡ Broken WrongType at }
{
    broken(Rule::WrongType, at)
}

/// Operands that don't go together: the second is reported, unless the first, of this type, is never allowed there.
fn unlike(relation: Relational, first: &Ty, at: Operands) -> CheckFault
    ensures { result ≡ Broken WrongType (if may_be_first relation (type_of first.now) then at.second else at.first) }
{
    wrong_type(if may_be_first(relation, first) {
        at.second
    } else {
        at.first
    })
}

/// Two parts of the tree, on the heap.
fn boxed_pair<A: Drop, B: Drop>(
    alloc: Global,
    left: A,
    right: B,
) -> Result<(Box<A>, Box<B>), AllocError>
    ensures left { IfOk result (λ pair. pair.0.value ≡ left) }
    ensures right { IfOk result (λ pair. pair.1.value ≡ right) }
{
    Ok((Box::new(alloc, left)?, Box::new(alloc, right)?))
}

/// An operand that must be of the host type or of a subrange of it; `at` is where it begins.
#[tactic(auto, unfolding(crate::specs::Operators::operand_of, crate::specs::View::value_of))]
fn operand_of(host: Host, operand: TypedValue, at: u32) -> Result<Expr, CheckFault>
    ensures { Answers result (λ e. expr_of e) (operand_of host at (value_of operand)) }
{
    match operand {
        TypedValue::Simple(value, ty) => {
            if has_host(&ty, host) {
                Ok(value)
            } else {
                drop(value);
                Err(wrong_type(at))
            }
        }
        other @ (TypedValue::Set(..) | TypedValue::Structure(..)) => {
            drop(other);
            Err(wrong_type(at))
        }
    }
}

#[tactic(auto, unfolding(crate::specs::View::value_of, ps_tree::specs::View::type_of))]
fn number(value: Expr) -> TypedValue
    ensures { value_of result ≡ number (expr_of value) }
{
    TypedValue::Simple(value, Ty::Simple(INTEGER))
}

#[tactic(auto, unfolding(crate::specs::View::value_of, ps_tree::specs::View::type_of))]
fn truth(value: Expr) -> TypedValue
    ensures { value_of result ≡ truth (expr_of value) }
{
    TypedValue::Simple(value, Ty::Simple(BOOLEAN))
}

/// An operand with a sign before it; `at` is where the operand begins.
#[inline(never)]
#[tactic(auto, unfolding(crate::specs::Operators::with_sign, ps_tree::specs::View::expr_of))]
pub(crate) fn with_sign(
    alloc: Global,
    sign: Sign,
    line: Line,
    operand: TypedValue,
    at: u32,
) -> Result<TypedValue, CheckFault>
    ensures { Answers result (λ v. value_of v) (with_sign at sign line.number (value_of operand)) }
{
    let operand = boxed_answer(alloc, operand_of(Host::Integer, operand, at))?;
    Ok(number(match sign {
        Sign::Plus => Expr::Plus(operand),
        Sign::Minus => Expr::Minus { operand, line },
    }))
}

/// `not` before an operand, which begins at `at`.
#[inline(never)]
#[tactic(auto, unfolding(crate::specs::Operators::negated, ps_tree::specs::View::expr_of))]
pub(crate) fn negated(alloc: Global, operand: TypedValue, at: u32) -> Result<TypedValue, CheckFault>
    ensures { Answers result (λ v. value_of v) (negated at (value_of operand)) }
{
    let operand = boxed_answer(alloc, operand_of(Host::Boolean, operand, at))?;
    Ok(truth(Expr::Not(operand)))
}

/// An operator on two integers.
#[tactic(auto, unfolding(crate::specs::Operators::arithmetic))]
fn arithmetic(
    alloc: Global,
    operator: ArithmeticOperator,
    line: Line,
    left: TypedValue,
    right: TypedValue,
    at: Operands,
) -> Result<TypedValue, CheckFault>
    ensures { Answers result (λ v. value_of v) (arithmetic at operator line.number (value_of left) (value_of right)) }
{
    let left = operand_of(Host::Integer, left, at.first);
    let right = operand_of(Host::Integer, right, at.second);
    let (left, right) = paired(left, right)?;
    Ok(number(left.calculated(alloc, operator, line, right)?))
}

/// An operator on two sets of compatible types.
#[tactic(auto, unfolding(crate::specs::View::value_of))]
fn set_operation(
    alloc: Global,
    operator: SetOperator,
    left: (SetExpr, Ty),
    right: (SetExpr, Ty),
    at: Operands,
) -> Result<TypedValue, CheckFault>
    ensures { Answers result (λ v. value_of v)
        (provided (is_compatible (type_of left.1) (type_of right.1)) WrongType at.second
        (SetValue (combined operator (set_of left.0) (set_of right.0))
        (set_type_of_both (type_of left.1) (type_of right.1)))) }
{
    if !compatible(&left.1, &right.1) {
        drop((left, right));
        return Err(wrong_type(at.second));
    }
    let ty = set_type_of_both(&left.1, &right.1);
    let value = left.0.combined(alloc, operator, right.0)?;
    Ok(TypedValue::Set(value, ty))
}

/// An operator on two integers or on two sets.
#[tactic(auto, unfolding(crate::specs::Operators::arithmetic_or_set, crate::specs::Operators::arithmetic, crate::specs::Operators::operand_of, crate::specs::View::value_of))]
fn arithmetic_or_set(
    alloc: Global,
    operators: (ArithmeticOperator, SetOperator),
    line: Line,
    left: TypedValue,
    right: TypedValue,
    at: Operands,
) -> Result<TypedValue, CheckFault>
    ensures { Answers result (λ v. value_of v)
        (arithmetic_or_set at operators.0 operators.1 line.number (value_of left) (value_of right)) }
{
    match (left, right) {
        (TypedValue::Set(a, s), TypedValue::Set(b, t)) => {
            set_operation(alloc, operators.1, (a, s), (b, t), at)
        }
        (
            left @ TypedValue::Set(..),
            right @ (TypedValue::Simple(..) | TypedValue::Structure(..)),
        ) => {
            drop((left, right));
            Err(wrong_type(at.second))
        }
        (left, right) => arithmetic(alloc, operators.0, line, left, right, at),
    }
}

/// An operator on two Boolean operands.
#[tactic(auto, unfolding(crate::specs::Operators::logic))]
fn logic(
    alloc: Global,
    operator: BooleanOperator,
    left: TypedValue,
    right: TypedValue,
    at: Operands,
) -> Result<TypedValue, CheckFault>
    ensures { Answers result (λ v. value_of v) (logic at operator (value_of left) (value_of right)) }
{
    let left = operand_of(Host::Boolean, left, at.first);
    let right = operand_of(Host::Boolean, right, at.second);
    let (left, right) = paired(left, right)?;
    Ok(truth(left.connected(alloc, operator, right)?))
}

/// An adding operator.
#[inline(never)]
#[tactic(auto, unfolding(crate::specs::Operators::added))]
pub(crate) fn added(
    alloc: Global,
    operator: Adding,
    line: Line,
    left: TypedValue,
    right: TypedValue,
    at: Operands,
) -> Result<TypedValue, CheckFault>
    ensures { Answers result (λ v. value_of v) (added at operator line.number (value_of left) (value_of right)) }
{
    match operator {
        Adding::Plus => {
            let operators = (ArithmeticOperator::Add, SetOperator::Union);
            arithmetic_or_set(alloc, operators, line, left, right, at)
        }
        Adding::Minus => {
            let operators = (ArithmeticOperator::Subtract, SetOperator::Difference);
            arithmetic_or_set(alloc, operators, line, left, right, at)
        }
        Adding::Or => logic(alloc, BooleanOperator::Or, left, right, at),
    }
}

/// A multiplying operator.
#[inline(never)]
#[tactic(auto, unfolding(crate::specs::Operators::multiplied))]
pub(crate) fn multiplied(
    alloc: Global,
    operator: Multiplying,
    line: Line,
    left: TypedValue,
    right: TypedValue,
    at: Operands,
) -> Result<TypedValue, CheckFault>
    ensures { Answers result (λ v. value_of v) (multiplied at operator line.number (value_of left) (value_of right)) }
{
    match operator {
        Multiplying::Times => {
            let operators = (ArithmeticOperator::Multiply, SetOperator::Intersection);
            arithmetic_or_set(alloc, operators, line, left, right, at)
        }
        Multiplying::Div => arithmetic(alloc, ArithmeticOperator::Div, line, left, right, at),
        Multiplying::Mod => arithmetic(alloc, ArithmeticOperator::Mod, line, left, right, at),
        Multiplying::And => logic(alloc, BooleanOperator::And, left, right, at),
    }
}
