//! Comparisons (6.7.2.5): of simple values, of sets, of strings and of pointers, and membership of sets.

ghost use Rattle.std.specs.Prelude.{◌≡◌, if◌then◌else◌};
ghost use Rattle.ps_tree.specs.View.{type_of, expr_of, set_of, structure_of};
ghost use Rattle.ps_tree.specs.Types.{are_same, string_length};
ghost use Rattle.ps_check_judgement.specs.Judged.{Answers};
ghost use Rattle.ps_check_judgement.specs.declared.refusal.CheckFault.TheVariants.{Broken};
ghost use Rattle.ps_check_judgement.specs.declared.refusal.Rule.TheVariants.{WrongType};
ghost use Rattle.ps_check_expressions.specs.Values.{SimpleValue, SetValue, StructureValue};
ghost use Rattle.ps_check_expressions.specs.Values.{type_of_value};
ghost use Rattle.ps_check_expressions.specs.Operators.{ordered};
ghost use Rattle.ps_check_expressions.specs.Operators.{of_pointers, of_sets, may_be_first};
ghost use Rattle.ps_check_expressions.specs.Operators.{may_be_member, compared};
ghost use Rattle.ps_check_expressions.specs.View.{value_of};

use crate::operators::{Operands, boxed_pair, truth, unlike, wrong_type};
use crate::value::TypedValue;
use ps_check_judgement::refusal::CheckFault;
use ps_syntax::Relational;
use ps_tree::tree::{Expr, OrderRelation, PointerRelation, SetExpr, SetRelation, Structure};
use ps_tree::types::{Ty, compatible, same_host};
use std::alloc::Global;

/// The relation for ordinals or strings.
fn ordered(relation: Relational) -> Option<OrderRelation>
    ensures { result ≡ ordered relation }
{
    match relation {
        Relational::Equal => Some(OrderRelation::Equal),
        Relational::NotEqual => Some(OrderRelation::Different),
        Relational::Less => Some(OrderRelation::Less),
        Relational::Greater => Some(OrderRelation::Greater),
        Relational::LessEqual => Some(OrderRelation::AtMost),
        Relational::GreaterEqual => Some(OrderRelation::AtLeast),
        Relational::In => None,
    }
}

/// The relation for pointers.
fn of_pointers(relation: Relational) -> Option<PointerRelation>
    ensures { result ≡ of_pointers relation }
{
    match relation {
        Relational::Equal => Some(PointerRelation::Same),
        Relational::NotEqual => Some(PointerRelation::Other),
        Relational::Less
        | Relational::Greater
        | Relational::LessEqual
        | Relational::GreaterEqual
        | Relational::In => None,
    }
}

/// The relation for sets.
fn of_sets(relation: Relational) -> Option<SetRelation>
    ensures { result ≡ of_sets relation }
{
    match relation {
        Relational::Equal => Some(SetRelation::Same),
        Relational::NotEqual => Some(SetRelation::Other),
        Relational::LessEqual => Some(SetRelation::Included),
        Relational::GreaterEqual => Some(SetRelation::Includes),
        Relational::Less | Relational::Greater | Relational::In => None,
    }
}

/// Whether a value of this type can be the first operand of the relation, whatever the second is.
#[tactic(auto, unfolding(crate::specs::Operators::may_be_first, ps_tree::specs::View::type_of))]
pub(super) fn may_be_first(relation: Relational, ty: &Ty) -> bool
    ensures { result ≡ may_be_first relation (type_of ty.now) }
{
    match ty {
        Ty::Simple(_) => true,
        Ty::Pointer { .. } | Ty::Nil => of_pointers(relation).is_some(),
        Ty::Set { .. } | Ty::EmptySet => of_sets(relation).is_some(),
        Ty::Text { .. } | Ty::Array { .. } | Ty::Record { .. } => {
            ordered(relation).is_some() && ty.string_length().is_some()
        }
    }
}

/// A comparison of two values of compatible types: ordinals, or pointers, which include nil.
#[tactic(auto, unfolding(crate::specs::Operators::simple_comparison, crate::specs::Operators::compared, crate::specs::View::value_of, ps_tree::specs::View::type_of, ps_tree::specs::View::expr_of))]
fn simple_comparison(
    alloc: Global,
    relation: Relational,
    left: (Expr, &Ty),
    right: (Expr, &Ty),
    at: Operands,
) -> Result<TypedValue, CheckFault>
    ensures { Answers result (λ v. value_of v)
        (compared at relation (SimpleValue (expr_of left.entry.0) (type_of left.entry.1.now))
        (SimpleValue (expr_of right.entry.0) (type_of right.entry.1.now))) }
{
    let ((left, s), (right, t)) = (left, right);
    let (left, right) = boxed_pair(alloc, left, right)?;
    if !compatible(s, t) {
        return Err(unlike(relation, s, at));
    }
    match s {
        Ty::Simple(_) => match ordered(relation) {
            None => Err(wrong_type(at.second)),
            Some(relation) => Ok(truth(Expr::Compare {
                relation,
                left,
                right,
            })),
        },
        Ty::Pointer { .. }
        | Ty::Nil
        | Ty::Set { .. }
        | Ty::EmptySet
        | Ty::Text { .. }
        | Ty::Array { .. }
        | Ty::Record { .. } => match of_pointers(relation) {
            None => Err(wrong_type(at.first)),
            Some(relation) => Ok(truth(Expr::ComparePointers {
                relation,
                left,
                right,
            })),
        },
    }
}

/// Whether a value of the first type may be a member of a set of the second.
#[tactic(auto, unfolding(ps_tree::specs::View::type_of))]
fn may_be_member(ty: &Ty, set: &Ty) -> bool
    ensures { result ≡ may_be_member (type_of ty.now) (type_of set.now) }
{
    match (ty, set) {
        (Ty::Simple(ordinal), Ty::Set { base, .. }) => same_host(ordinal.host, base.host),
        (Ty::Simple(_), Ty::EmptySet) => true,
        (
            Ty::Simple(_)
            | Ty::Pointer { .. }
            | Ty::Nil
            | Ty::Set { .. }
            | Ty::EmptySet
            | Ty::Text { .. }
            | Ty::Array { .. }
            | Ty::Record { .. },
            _,
        ) => false,
    }
}

/// Whether both are string types of the same length.
fn are_equally_long(a: &Ty, b: &Ty) -> bool
    ensures { result ≡ are_same (string_length (type_of a.now)) (string_length (type_of b.now)) }
{
    match (a.string_length(), b.string_length()) {
        (Some(m), Some(n)) => m == n,
        (Some(_) | None, _) => false,
    }
}

/// A comparison of two sets of compatible types.
#[tactic(auto, unfolding(ps_tree::specs::View::expr_of, crate::specs::Operators::compared, crate::specs::View::value_of))]
fn set_comparison(
    alloc: Global,
    relation: Relational,
    left: (SetExpr, &Ty),
    right: (SetExpr, &Ty),
    at: Operands,
) -> Result<TypedValue, CheckFault>
    ensures { Answers result (λ v. value_of v)
        (compared at relation (SetValue (set_of left.entry.0) (type_of left.entry.1.now))
        (SetValue (set_of right.entry.0) (type_of right.entry.1.now))) }
{
    let ((left, s), (right, t)) = (left, right);
    let (left, right) = boxed_pair(alloc, left, right)?;
    match of_sets(relation) {
        Some(relation) if compatible(s, t) => Ok(truth(Expr::CompareSets {
            relation,
            left,
            right,
        })),
        _ => Err(unlike(relation, s, at)),
    }
}

/// A comparison of two strings of the same length.
#[tactic(auto, unfolding(ps_tree::specs::View::expr_of, crate::specs::Operators::compared, crate::specs::View::value_of))]
fn string_comparison(
    alloc: Global,
    relation: Relational,
    left: (Structure, &Ty),
    right: (Structure, &Ty),
    at: Operands,
) -> Result<TypedValue, CheckFault>
    ensures { Answers result (λ v. value_of v)
        (compared at relation (StructureValue (structure_of left.entry.0) (type_of left.entry.1.now))
        (StructureValue (structure_of right.entry.0) (type_of right.entry.1.now))) }
{
    let ((left, s), (right, t)) = (left, right);
    let (left, right) = boxed_pair(alloc, left, right)?;
    match ordered(relation) {
        Some(relation) if are_equally_long(s, t) => Ok(truth(Expr::CompareStrings {
            relation,
            left,
            right,
        })),
        _ => Err(unlike(relation, s, at)),
    }
}

/// A test of whether an ordinal is in a set.
#[tactic(auto, unfolding(ps_tree::specs::View::expr_of, crate::specs::Operators::compared, crate::specs::View::value_of))]
fn membership(
    alloc: Global,
    relation: Relational,
    left: (Expr, &Ty),
    right: (SetExpr, &Ty),
    at: Operands,
) -> Result<TypedValue, CheckFault>
    ensures { Answers result (λ v. value_of v)
        (compared at relation (SimpleValue (expr_of left.entry.0) (type_of left.entry.1.now))
        (SetValue (set_of right.entry.0) (type_of right.entry.1.now))) }
{
    let ((left, s), (right, t)) = (left, right);
    let (left, right) = boxed_pair(alloc, left, right)?;
    match relation {
        Relational::In => {
            if may_be_member(s, t) {
                Ok(truth(Expr::In { left, right }))
            } else {
                Err(wrong_type(at.first))
            }
        }
        Relational::Equal
        | Relational::NotEqual
        | Relational::Less
        | Relational::Greater
        | Relational::LessEqual
        | Relational::GreaterEqual => Err(unlike(relation, s, at)),
    }
}

/// The fault of two operands that no relation compares, the first of which is `left`.
#[tactic(auto, unfolding(crate::specs::View::value_of))]
fn unlike_values(relation: Relational, left: &TypedValue, at: Operands) -> CheckFault
    ensures { result ≡ Broken WrongType (if may_be_first relation (type_of_value (value_of left.now)) then at.second
        else at.first) }
{
    match left {
        TypedValue::Simple(_, ty) | TypedValue::Set(_, ty) | TypedValue::Structure(_, ty) => {
            unlike(relation, ty, at)
        }
    }
}

/// A relational operator.
#[inline(never)]
#[tactic(auto, unfolding(crate::specs::Operators::compared, crate::specs::View::value_of))]
pub(crate) fn compared(
    alloc: Global,
    relation: Relational,
    left: TypedValue,
    right: TypedValue,
    at: Operands,
) -> Result<TypedValue, CheckFault>
    ensures { Answers result (λ v. value_of v) (compared at relation (value_of left) (value_of right)) }
{
    match (left, right) {
        (TypedValue::Simple(a, s), TypedValue::Simple(b, t)) => {
            simple_comparison(alloc, relation, (a, &s), (b, &t), at)
        }
        (TypedValue::Simple(a, s), TypedValue::Set(b, t)) => {
            membership(alloc, relation, (a, &s), (b, &t), at)
        }
        (TypedValue::Set(a, s), TypedValue::Set(b, t)) => {
            set_comparison(alloc, relation, (a, &s), (b, &t), at)
        }
        (TypedValue::Structure(a, s), TypedValue::Structure(b, t)) => {
            string_comparison(alloc, relation, (a, &s), (b, &t), at)
        }
        (left @ TypedValue::Simple(..), right @ TypedValue::Structure(..))
        | (left @ TypedValue::Set(..), right @ (TypedValue::Simple(..) | TypedValue::Structure(..)))
        | (
            left @ TypedValue::Structure(..),
            right @ (TypedValue::Simple(..) | TypedValue::Set(..)),
        ) => {
            let wrong = unlike_values(relation, &left, at);
            drop((left, right));
            Err(wrong)
        }
    }
}
