// Whether an order follows from others, and what two places say both.

ghost use Rattle.std.specs.Prelude.{◌≡◌};
ghost use Rattle.tac_known.specs.Orders as orders;

use crate::order::{Order, Orders, is_of};
use tac_code::code::Relation;

fn implies(known: Relation, relation: Relation) -> bool
    ensures { result ≡ orders.implies known relation }
{
    match known {
        Relation::Less => match relation {
            Relation::Less | Relation::LessEqual => true,
            _ => false,
        },
        Relation::LessEqual => match relation {
            Relation::LessEqual => true,
            _ => false,
        },
        Relation::Greater => match relation {
            Relation::Greater | Relation::GreaterEqual => true,
            _ => false,
        },
        Relation::GreaterEqual => match relation {
            Relation::GreaterEqual => true,
            _ => false,
        },
        Relation::Equal => match relation {
            Relation::Equal => true,
            _ => false,
        },
        Relation::NotEqual => match relation {
            Relation::NotEqual => true,
            _ => false,
        },
    }
}

// Whether the second follows from the first.
fn says(known: Option<Order>, order: Order) -> bool
    ensures { result ≡ orders.says known order }
{
    match known {
        None => false,
        Some(other) => is_of(order.left, order.right, other)
            && implies(other.relation, order.relation),
    }
}

fn say(known: Orders, claimed: Option<Order>) -> bool
    ensures { result ≡ orders.say known claimed }
{
    match claimed {
        None => true,
        Some(order) => {
            says(known.first, order)
                || (says(known.second, order)
                    || (says(known.third, order) || says(known.fourth, order)))
        }
    }
}

/// Whether the second ones say no more than the first ones.
pub fn say_all(known: Orders, claimed: Orders) -> bool
    ensures { result ≡ orders.say_all known claimed }
{
    say(known, claimed.first)
        && (say(known, claimed.second) && (say(known, claimed.third) && say(known, claimed.fourth)))
}

// What both say of one, or nothing.
fn joined(known: Option<Order>, others: Orders) -> Option<Order> {
    let order = known?;
    if say(others, known) {
        return known;
    }
    let weak = match order.relation {
        Relation::Less => Relation::LessEqual,
        Relation::Greater => Relation::GreaterEqual,
        relation => relation,
    };
    let weaker = Some(Order {
        left: order.left,
        relation: weak,
        right: order.right,
    });
    if say(others, weaker) { weaker } else { None }
}

/// What both say. Nothing is proved of it.
pub fn join_orders(known: Orders, others: Orders) -> Orders {
    Orders {
        first: joined(known.first, others),
        second: joined(known.second, others),
        third: joined(known.third, others),
        fourth: joined(known.fourth, others),
    }
}
