// What is known of the order of temporaries.

mod behind;
mod joining;

ghost use Rattle.std.specs.Prelude.{◌≡◌};
ghost use Rattle.tac_known.specs.Orders as orders;

pub use behind::orders_behind;
pub use joining::{join_orders, say_all};
use tac_code::code::{Operand, Relation};

/// A relation that holds between the values of two temporaries.
#[derive(Clone, Copy)]
pub struct Order {
    /// The temporary on its left.
    pub left: u32,
    /// The relation.
    pub relation: Relation,
    /// The temporary on its right.
    pub right: u32,
}

/// What is known of the order of temporaries: four relations, at most.
#[derive(Clone, Copy)]
pub struct Orders {
    /// One of them.
    pub first: Option<Order>,
    /// One of them.
    pub second: Option<Order>,
    /// One of them.
    pub third: Option<Order>,
    /// One of them.
    pub fourth: Option<Order>,
}

/// Nothing is known.
pub fn no_orders() -> Orders
    ensures { result ≡ orders.no_orders }
{
    Orders {
        first: None,
        second: None,
        third: None,
        fourth: None,
    }
}

fn names(temporary: u32, order: Order) -> bool
    ensures { result ≡ orders.names temporary order }
{
    order.left == temporary || order.right == temporary
}

fn unless_of(temporary: u32, known: Option<Order>) -> Option<Order>
    ensures { result ≡ orders.unless_of temporary known }
{
    match known {
        None => None,
        Some(order) => {
            if names(temporary, order) {
                None
            } else {
                Some(order)
            }
        }
    }
}

fn without(temporary: u32, known: Orders) -> Orders
    ensures { result ≡ orders.without temporary known }
{
    Orders {
        first: unless_of(temporary, known.first),
        second: unless_of(temporary, known.second),
        third: unless_of(temporary, known.third),
        fourth: unless_of(temporary, known.fourth),
    }
}

fn is_free(known: Option<Order>) -> bool
    ensures { result ≡ orders.is_free known }
{
    match known {
        None => true,
        Some(_) => false,
    }
}

// One more, if there is room.
fn with_order(order: Option<Order>, known: Orders) -> Orders
    ensures { result ≡ orders.with_order order known }
{
    if is_free(known.first) {
        Orders {
            first: order,
            second: known.second,
            third: known.third,
            fourth: known.fourth,
        }
    } else if is_free(known.second) {
        Orders {
            first: known.first,
            second: order,
            third: known.third,
            fourth: known.fourth,
        }
    } else if is_free(known.third) {
        Orders {
            first: known.first,
            second: known.second,
            third: order,
            fourth: known.fourth,
        }
    } else if is_free(known.fourth) {
        Orders {
            first: known.first,
            second: known.second,
            third: known.third,
            fourth: order,
        }
    } else {
        known
    }
}

// What is known if both hold.
fn sharper(known: Relation, relation: Relation) -> Relation
    ensures { result ≡ orders.sharper known relation }
{
    match known {
        Relation::LessEqual => match relation {
            Relation::NotEqual => Relation::Less,
            _ => relation,
        },
        Relation::GreaterEqual => match relation {
            Relation::NotEqual => Relation::Greater,
            _ => relation,
        },
        _ => relation,
    }
}

fn is_of(left: u32, right: u32, order: Order) -> bool
    ensures { result ≡ orders.is_of left right order }
{
    order.left == left && order.right == right
}

fn sharpened(left: u32, right: u32, relation: Relation, known: Option<Order>) -> Relation
    ensures { result ≡ orders.sharpened left right relation known }
{
    match known {
        None => relation,
        Some(order) => {
            if is_of(left, right, order) {
                sharper(order.relation, relation)
            } else {
                relation
            }
        }
    }
}

fn sharp_of(known: Orders, relation: Relation, left: u32, right: u32) -> Relation
    ensures { result ≡ orders.sharp_of known relation left right }
{
    let relation = sharpened(left, right, relation, known.first);
    let relation = sharpened(left, right, relation, known.second);
    let relation = sharpened(left, right, relation, known.third);
    sharpened(left, right, relation, known.fourth)
}

/// What is known of two temporaries if a branch shows that a relation holds.
pub fn sharp(known: Orders, relation: Relation, left: u32, right: Operand) -> Relation
    ensures { result ≡ orders.sharp known relation left right }
{
    match right {
        Operand::Temporary(temporary) => sharp_of(known, relation, left, temporary),
        Operand::Number(_) => relation,
    }
}

fn is_order(relation: Relation) -> bool
    ensures { result ≡ orders.is_order relation }
{
    match relation {
        Relation::Equal | Relation::NotEqual => false,
        _ => true,
    }
}

fn unless_both(left: u32, right: u32, known: Option<Order>) -> Option<Order>
    ensures { result ≡ orders.unless_both left right known }
{
    match known {
        None => None,
        Some(order) => {
            if is_of(left, right, order) {
                None
            } else {
                Some(order)
            }
        }
    }
}

fn without_both(left: u32, right: u32, known: Orders) -> Orders
    ensures { result ≡ orders.without_both left right known }
{
    Orders {
        first: unless_both(left, right, known.first),
        second: unless_both(left, right, known.second),
        third: unless_both(left, right, known.third),
        fourth: unless_both(left, right, known.fourth),
    }
}

fn found(relation: Relation, left: u32, right: u32, known: Orders) -> Orders
    ensures { result ≡ orders.found relation left right known }
{
    if is_order(relation) {
        with_order(
            Some(Order {
                left,
                relation,
                right,
            }),
            without_both(left, right, known),
        )
    } else {
        known
    }
}

/// What is known if a branch shows that a relation holds.
pub fn orders_where(known: Orders, relation: Relation, left: u32, right: Operand) -> Orders
    ensures { result ≡ orders.orders_where known relation left right }
{
    match right {
        Operand::Temporary(temporary) => found(
            sharp_of(known, relation, left, temporary),
            left,
            temporary,
            known,
        ),
        Operand::Number(_) => known,
    }
}
