// What the code of an expression is known to leave: a number, or a relation between two operands.

ghost use Rattle.std.specs.Prelude.{◌≡◌, ◌+◌, ◌≤◌, suc};
ghost use Rattle.ps_lower_code.specs.Scopes.{is_any, has_bytes, operand_of};
ghost use Rattle.ps_lower_code.specs.Values.{known_member, negated, literal_of, operator_of, bit_operator_of};
ghost use Rattle.ps_lower_code.specs.Values.{relation_of, pointer_relation_of, opposite, is_relation, is_truth};
ghost use Rattle.ps_lower_code.specs.Values.{relation_in, left_in, right_in, gives_byte};
ghost use Rattle.ps_meaning.specs.Operators.{is_between};
ghost use Rattle.ps_tree.specs.View.{expr_of};

use crate::calling::expr_calls;
use crate::depth::{MAX_NUMBER, even_above, kept};
use crate::places::is_byte;
use ps_tree::tree::{
    ArithmeticOperator, BooleanOperator, Expr, OrderRelation, PointerRelation, RequiredFunction,
};
use tac_code::code::{BitOperator, Operand, Operator, Relation};

/// The negated number, if the operand is a number whose negation is an integer.
#[tactic(auto, unfolding(ps_tree::specs::View::expr_of))]
pub fn negated(e: &Expr) -> Option<i32>
    ensures { result ≡ negated (expr_of e.now) }
{
    match e {
        Expr::Number(number) => number.checked_neg(),
        _ => None,
    }
}

/// The number that an expression is, if it is one; nil is 0.
#[tactic(auto, unfolding(ps_tree::specs::View::expr_of))]
pub fn literal(e: &Expr) -> Option<i32>
    ensures { result ≡ literal_of (expr_of e.now) }
{
    match e {
        Expr::Number(number) => Some(*number),
        Expr::Nil => Some(0),
        Expr::Minus { operand, .. } => negated(operand),
        _ => None,
    }
}

/// The member that an expression is known to be.
pub fn known_member(e: &Expr) -> Option<u32>
    ensures { result ≡ known_member (literal_of (expr_of e.now)) }
{
    match literal(e) {
        None => None,
        Some(number) => member_of(number),
    }
}

/// A number as a member, if it can be one.
fn member_of(number: i32) -> Option<u32>
    ensures { result ≡ known_member (Some number) }
{
    if 0 <= number && number <= 255 {
        Some(number as u32)
    } else {
        None
    }
}

/// A right operand: a known number, or the content of a temporary.
pub fn operand(known: Option<i32>, t: u32) -> Operand
    ensures { result ≡ operand_of known t }
{
    match known {
        None => Operand::Temporary(t),
        Some(number) => Operand::Number(number),
    }
}

/// The operator of the code.
pub fn operator(operator: ArithmeticOperator) -> Operator
    ensures { result ≡ operator_of operator }
{
    match operator {
        ArithmeticOperator::Add => Operator::Add,
        ArithmeticOperator::Subtract => Operator::Subtract,
        ArithmeticOperator::Multiply => Operator::Multiply,
        ArithmeticOperator::Div => Operator::Divide,
        ArithmeticOperator::Mod => Operator::Modulo,
    }
}

/// The code's operator for truth values.
pub fn bit_operator(operator: BooleanOperator) -> BitOperator
    ensures { result ≡ bit_operator_of operator }
{
    match operator {
        BooleanOperator::And => BitOperator::And,
        BooleanOperator::Or => BitOperator::Or,
    }
}

fn relation(relation: OrderRelation) -> Relation
    ensures { result ≡ relation_of relation }
{
    match relation {
        OrderRelation::Equal => Relation::Equal,
        OrderRelation::Different => Relation::NotEqual,
        OrderRelation::Less => Relation::Less,
        OrderRelation::Greater => Relation::Greater,
        OrderRelation::AtMost => Relation::LessEqual,
        OrderRelation::AtLeast => Relation::GreaterEqual,
    }
}

fn pointer_relation(relation: PointerRelation) -> Relation
    ensures { result ≡ pointer_relation_of relation }
{
    match relation {
        PointerRelation::Same => Relation::Equal,
        PointerRelation::Other => Relation::NotEqual,
    }
}

/// The relation that holds where another doesn't.
pub fn opposite(relation: Relation) -> Relation
    ensures { result ≡ opposite relation }
{
    match relation {
        Relation::Equal => Relation::NotEqual,
        Relation::NotEqual => Relation::Equal,
        Relation::Less => Relation::GreaterEqual,
        Relation::LessEqual => Relation::Greater,
        Relation::Greater => Relation::LessEqual,
        Relation::GreaterEqual => Relation::Less,
    }
}

/// Whether the front code of an expression leaves a relation.
#[tactic(auto, using(ps_tree::proofs::TreeLemmas::expr_of_Load, ps_tree::proofs::TreeLemmas::expr_of_Call, ps_tree::proofs::TreeLemmas::expr_of_CallFormal), unfolding(ps_tree::specs::View::expr_of))]
pub fn is_relation(e: &Expr) -> bool
    ensures { result ≡ is_relation (expr_of e.now) }
{
    match e {
        Expr::Compare { .. }
        | Expr::ComparePointers { .. }
        | Expr::CompareStrings { .. }
        | Expr::Not(_)
        | Expr::Eof
        | Expr::Eoln { .. } => true,
        _ => false,
    }
}

/// Whether an expression's word is 0 or 1.
#[tactic(auto, using(ps_tree::proofs::TreeLemmas::expr_of_Load, ps_tree::proofs::TreeLemmas::expr_of_Call, ps_tree::proofs::TreeLemmas::expr_of_CallFormal), unfolding(ps_tree::specs::View::expr_of))]
pub fn is_truth(e: &Expr) -> bool
    ensures { result ≡ is_truth (expr_of e.now) }
{
    match e {
        Expr::Logic { .. }
        | Expr::CompareSets { .. }
        | Expr::In { .. }
        | Expr::Apply {
            function: RequiredFunction::Odd,
            ..
        } => true,
        _ => is_relation(e),
    }
}

/// The relation that the front code of an expression leaves.
#[cycle(relation_in)]
#[tactic(auto, using(ps_tree::proofs::TreeLemmas::expr_of_Load, ps_tree::proofs::TreeLemmas::expr_of_Call, ps_tree::proofs::TreeLemmas::expr_of_CallFormal), unfolding(ps_tree::specs::View::expr_of))]
pub fn relation_in(e: &Expr) -> Relation
    ensures { result ≡ relation_in (expr_of e.now) }
{
    match e {
        Expr::Compare {
            relation: asked,
            ..
        }
        | Expr::CompareStrings {
            relation: asked,
            ..
        } => { relation(*asked) }
        Expr::ComparePointers {
            relation: asked,
            ..
        } => pointer_relation(*asked),
        Expr::Not(operand) => opposite(relation_in(operand)),
        Expr::Eof | Expr::Eoln { .. } => Relation::Equal,
        _ => Relation::NotEqual,
    }
}

/// The temporary on the left of that relation.
#[cycle(left_in)]
#[tactic(auto, using(ps_tree::proofs::TreeLemmas::expr_of_Load, ps_tree::proofs::TreeLemmas::expr_of_Call, ps_tree::proofs::TreeLemmas::expr_of_CallFormal), unfolding(ps_tree::specs::View::expr_of))]
pub fn left_in(e: &Expr, d: u32) -> u32
    requires { d ≤ MAX_NUMBER }
    ensures { result ≡ left_in (expr_of e.now) d }
{
    match e {
        Expr::Compare { right, .. } | Expr::ComparePointers { right, .. } => {
            kept(expr_calls(right), d)
        }
        Expr::Not(operand) => left_in(operand, d),
        _ => d,
    }
}

/// The operand on its right.
#[cycle(right_in)]
#[tactic(auto, using(ps_tree::proofs::TreeLemmas::expr_of_Load, ps_tree::proofs::TreeLemmas::expr_of_Call, ps_tree::proofs::TreeLemmas::expr_of_CallFormal), unfolding(ps_tree::specs::View::expr_of))]
pub fn right_in(e: &Expr, d: u32) -> Operand
    requires { d ≤ MAX_NUMBER }
    ensures { result ≡ right_in (expr_of e.now) d }
{
    match e {
        Expr::Compare { right, .. } | Expr::ComparePointers { right, .. } => {
            operand(literal(right), even_above(kept(expr_calls(right), d)))
        }
        Expr::Not(operand) => right_in(operand, d),
        Expr::Eoln { .. } => Operand::Number(1),
        _ => Operand::Number(0),
    }
}

/// Whether every integer is in a range.
pub fn is_any(low: i32, high: i32) -> bool
    ensures { result ≡ is_any low high }
{
    low == i32::MIN && high == i32::MAX
}

/// Whether a number is in a range.
pub fn is_between(low: i32, number: i32, high: i32) -> bool
    ensures { result ≡ is_between low number high }
{
    low <= number && number <= high
}

/// Whether every byte is in a range.
pub fn has_bytes(low: i32, high: i32) -> bool
    ensures { result ≡ has_bytes low high }
{
    low <= 0 && 255 <= high
}

/// Whether the value of an expression is known to be a byte.
#[tactic(auto, using(ps_tree::proofs::TreeLemmas::expr_of_Load, ps_tree::proofs::TreeLemmas::expr_of_Call, ps_tree::proofs::TreeLemmas::expr_of_CallFormal), unfolding(ps_tree::specs::View::expr_of))]
pub fn gives_byte(e: &Expr) -> bool
    ensures { result ≡ gives_byte (expr_of e.now) }
{
    match e {
        Expr::Load(variable) => is_byte(variable),
        Expr::Apply {
            function: RequiredFunction::Chr,
            ..
        } => true,
        _ => false,
    }
}
