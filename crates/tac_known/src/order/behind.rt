// What is known of the order of temporaries after an instruction.

ghost use Rattle.std.specs.Prelude.{◌≡◌};
ghost use Rattle.tac_known.specs.Orders as orders;

use crate::kind::{Kind, Kinds, are_plain};
use crate::order::{Order, Orders, no_orders, unless_of, with_order, without};
use tac_code::code::{BitOperator, Instruction, Operand, Relation};

fn is_left_of(left: u32, other: u32, order: Order) -> bool
    ensures { result ≡ orders.is_left_of left other order }
{
    order.left == left && order.right != other
}

// The same of the copy of a temporary, unless it is known of itself.
fn of_copy(to: u32, from: u32, known: Option<Order>) -> Option<Order>
    ensures { result ≡ orders.of_copy to from known }
{
    match known {
        None => None,
        Some(order) => {
            if is_left_of(from, to, order) {
                Some(Order {
                    left: to,
                    relation: order.relation,
                    right: order.right,
                })
            } else {
                None
            }
        }
    }
}

fn or_else(known: Option<Order>, other: Option<Order>) -> Option<Order>
    ensures { result ≡ orders.or_else known other }
{
    match known {
        None => other,
        Some(order) => Some(order),
    }
}

fn first_of_copy(to: u32, from: u32, known: Orders) -> Option<Order>
    ensures { result ≡ orders.first_of_copy to from known }
{
    or_else(
        of_copy(to, from, known.first),
        or_else(
            of_copy(to, from, known.second),
            or_else(
                of_copy(to, from, known.third),
                of_copy(to, from, known.fourth),
            ),
        ),
    )
}

fn copied(to: u32, from: u32, known: Orders) -> Orders
    ensures { result ≡ orders.copied to from known }
{
    with_order(first_of_copy(to, from, known), without(to, known))
}

// If a number is less, one more than it is not greater; if it is greater, one less than it is not less.
fn next_relation(relation: Relation, more: i32) -> Option<Relation>
    ensures { result ≡ orders.next_relation relation more }
{
    match relation {
        Relation::Less => {
            if more == 1 {
                Some(Relation::LessEqual)
            } else {
                None
            }
        }
        Relation::Greater => {
            if more == -1 {
                Some(Relation::GreaterEqual)
            } else {
                None
            }
        }
        _ => None,
    }
}

fn with_relation(left: u32, relation: Option<Relation>, right: u32) -> Option<Order>
    ensures { result ≡ orders.with_relation left relation right }
{
    match relation {
        None => None,
        Some(relation) => Some(Order {
            left,
            relation,
            right,
        }),
    }
}

fn of_sum(to: u32, from: u32, more: i32, known: Option<Order>) -> Option<Order>
    ensures { result ≡ orders.of_sum to from more known }
{
    match known {
        None => None,
        Some(order) => {
            if is_left_of(from, to, order) {
                with_relation(to, next_relation(order.relation, more), order.right)
            } else {
                unless_of(to, Some(order))
            }
        }
    }
}

fn of_sums(to: u32, from: u32, more: i32, known: Orders) -> Orders
    ensures { result ≡ orders.of_sums to from more known }
{
    Orders {
        first: of_sum(to, from, more, known.first),
        second: of_sum(to, from, more, known.second),
        third: of_sum(to, from, more, known.third),
        fourth: of_sum(to, from, more, known.fourth),
    }
}

// Whether a number's sum modulo 2^32 with another one goes around nowhere.
fn is_plain(kind: Kind, more: i32) -> bool
    ensures { result ≡ orders.is_plain kind more }
{
    match kind {
        Kind::Between(low, high) => are_plain(low, high, more, more),
        _ => false,
    }
}

fn plus(kind: Kind, to: u32, from: u32, more: i32, known: Orders) -> Orders
    ensures { result ≡ orders.plus kind to from more known }
{
    if is_plain(kind, more) {
        of_sums(to, from, more, known)
    } else {
        without(to, known)
    }
}

fn combined(
    kind: Kind,
    operator: BitOperator,
    to: u32,
    left: u32,
    right: Operand,
    known: Orders,
) -> Orders
    ensures { result ≡ orders.combined kind operator to left right known }
{
    match operator {
        BitOperator::Plus => match right {
            Operand::Number(number) => plus(kind, to, left, number, known),
            Operand::Temporary(_) => without(to, known),
        },
        _ => without(to, known),
    }
}

/// What is known after an instruction that goes on to the next place.
pub fn orders_behind(kinds: &Kinds, known: Orders, instruction: &Instruction) -> Orders
    ensures { result ≡ orders.orders_behind kinds.now known instruction.now }
{
    match instruction {
        Instruction::Copy { to, from } => copied(*to, *from, known),
        Instruction::Bits {
            operator,
            to,
            left,
            right,
        } => combined(kinds.kind(*left), *operator, *to, *left, *right, known),
        Instruction::Literal { to, .. }
        | Instruction::Arithmetic { to, .. }
        | Instruction::Compare { to, .. }
        | Instruction::Text { to, .. }
        | Instruction::Offset { to, .. }
        | Instruction::Index { to, .. }
        | Instruction::RoutineValue { to, .. }
        | Instruction::Load { to, .. }
        | Instruction::LoadByte { to, .. }
        | Instruction::Take { to }
        | Instruction::New { to, .. } => without(*to, known),
        Instruction::CheckRange { .. }
        | Instruction::CheckPointer { .. }
        | Instruction::Store { .. }
        | Instruction::StoreByte { .. }
        | Instruction::Put { .. } => known,
        _ => no_orders(),
    }
}
