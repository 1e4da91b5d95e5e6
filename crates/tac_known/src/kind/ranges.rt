// Kinds as ranges of integers: what is known of a sum, a difference, a remainder, and of the operands of a relation
// that holds.

ghost use Rattle.std.specs.Prelude.{◌≡◌, ◌+ℤ◌, ◌-ℤ◌, ◌*ℤ◌};
ghost use Rattle.tac_code.specs.Numbers.{is_integer};
ghost use Rattle.tac_known.specs.Kinds as kinds;

use crate::kind::Kind;
use tac_code::code::{BitOperator, Operator, Relation};

#[tactic(auto, using(crate::proofs::Integers::integer_test))]
fn is_integer(number: i64) -> bool
    ensures { result ≡ is_integer number }
{
    number >= i64::from(i32::MIN) && number <= i64::from(i32::MAX)
}

fn are_integers(low: i64, high: i64) -> bool
    ensures { result ≡ kinds.are_integers low high }
{
    is_integer(low) && is_integer(high)
}

// A bound of an integer; a number that is not an integer gives no bound.
fn low_of(number: i64) -> i32
    ensures { result ≡ kinds.low_of number }
{
    if is_integer(number) {
        number as i32
    } else {
        i32::MIN
    }
}

fn high_of(number: i64) -> i32
    ensures { result ≡ kinds.high_of number }
{
    if is_integer(number) {
        number as i32
    } else {
        i32::MAX
    }
}

// A number within bounds that is within other bounds too.
pub(super) fn met(kind: Kind, low: i32, high: i32) -> Kind
    ensures { result ≡ kinds.met kind low high }
{
    match kind {
        Kind::Between(from, to) => Kind::Between(from.max(low), to.min(high)),
        _ => Kind::Between(low, high),
    }
}

// All numbers that a temporary can hold after a computation.
fn all_integers() -> Kind
    ensures { result ≡ kinds.all_integers }
{
    Kind::Between(i32::MIN, i32::MAX)
}

fn wide(number: i32) -> i64
    ensures { result ≡ number }
{
    number as i64
}

fn sum_of(left: i32, right: i32) -> i64
    ensures { result ≡ left +ℤ right }
{
    wide(left) + wide(right)
}

fn difference_of(left: i32, right: i32) -> i64
    ensures { result ≡ left -ℤ right }
{
    wide(left) - wide(right)
}

fn bounded(low: i64, high: i64) -> Kind
    ensures { result ≡ kinds.bounded low high }
{
    Kind::Between(low_of(low), high_of(high))
}

fn sum(left: Kind, right: Kind) -> Kind
    ensures { result ≡ kinds.sum left right }
{
    match left {
        Kind::Between(low, high) => match right {
            Kind::Between(from, to) => bounded(sum_of(low, from), sum_of(high, to)),
            _ => all_integers(),
        },
        _ => all_integers(),
    }
}

fn difference(left: Kind, right: Kind) -> Kind
    ensures { result ≡ kinds.difference left right }
{
    match left {
        Kind::Between(low, high) => match right {
            Kind::Between(from, to) => bounded(difference_of(low, to), difference_of(high, from)),
            _ => all_integers(),
        },
        _ => all_integers(),
    }
}

// For a divisor above 0.
fn remainder(right: Kind) -> Kind
    ensures { result ≡ kinds.remainder right }
{
    match right {
        Kind::Between(low, high) if 0 < low && 0 < high => Kind::Between(0, high - 1),
        _ => Kind::Unknown,
    }
}

// A product of two integers has 63 bits.
#[tactic(auto, using(crate::proofs::Integers::product_fits))]
fn product_of(left: i32, right: i32) -> i64
    ensures { result ≡ left *ℤ right }
{
    wide(left) * wide(right)
}

// Whether neither of two numbers is negative.
fn are_natural(low: i32, high: i32) -> bool
    ensures { result ≡ kinds.are_natural low high }
{
    low >= 0 && high >= 0
}

fn are_all_natural(low: i32, high: i32, from: i32, to: i32) -> bool
    ensures { result ≡ kinds.are_all_natural low high from to }
{
    are_natural(low, high) && are_natural(from, to)
}

fn bounded_product(low: i32, high: i32, from: i32, to: i32) -> Kind
    ensures { result ≡ kinds.bounded_product low high from to }
{
    bounded(product_of(low, from), product_of(high, to))
}

// For numbers that are not negative.
fn product_between(low: i32, high: i32, from: i32, to: i32) -> Kind
    ensures { result ≡ kinds.product_between low high from to }
{
    if are_all_natural(low, high, from, to) {
        bounded_product(low, high, from, to)
    } else {
        all_integers()
    }
}

fn product(left: Kind, right: Kind) -> Kind
    ensures { result ≡ kinds.product left right }
{
    match left {
        Kind::Between(low, high) => match right {
            Kind::Between(from, to) => product_between(low, high, from, to),
            _ => all_integers(),
        },
        _ => all_integers(),
    }
}

// Whether numbers that are not negative are divided by one number that is above 0.
fn divide(low: i32, high: i32, from: i32, to: i32) -> bool
    ensures { result ≡ kinds.divide low high from to }
{
    are_natural(low, high) && (0 < from && from == to)
}

// For a divisor that isn't above 0 nothing is said.
#[tactic(auto, using(crate::proofs::Integers::quotient_fits))]
fn quotient_of(number: i32, divisor: i32) -> i32
    ensures { result ≡ kinds.quotient_of number divisor }
{
    if 0 < divisor {
        number / divisor
    } else {
        i32::MIN
    }
}

fn quotient_between(low: i32, high: i32, from: i32, to: i32) -> Kind
    ensures { result ≡ kinds.quotient_between low high from to }
{
    if divide(low, high, from, to) {
        Kind::Between(quotient_of(low, from), quotient_of(high, from))
    } else {
        all_integers()
    }
}

fn quotient(left: Kind, right: Kind) -> Kind
    ensures { result ≡ kinds.quotient left right }
{
    match left {
        Kind::Between(low, high) => match right {
            Kind::Between(from, to) => quotient_between(low, high, from, to),
            _ => all_integers(),
        },
        _ => all_integers(),
    }
}

pub(super) fn computed(operator: Operator, left: Kind, right: Kind) -> Kind
    ensures { result ≡ kinds.computed_kind operator left right }
{
    match operator {
        Operator::Add => sum(left, right),
        Operator::Subtract => difference(left, right),
        Operator::Modulo => remainder(right),
        Operator::Multiply => product(left, right),
        Operator::Divide => quotient(left, right),
    }
}

// Whether sums of numbers within bounds never wrap.
pub(crate) fn are_plain(low: i32, high: i32, from: i32, to: i32) -> bool
    ensures { result ≡ kinds.are_plain low high from to }
{
    are_integers(wide(low), wide(high))
        && (are_integers(wide(from), wide(to)) && are_integers(sum_of(low, from), sum_of(high, to)))
}

fn plain_between(low: i32, high: i32, from: i32, to: i32) -> Kind
    ensures { result ≡ kinds.plain_between low high from to }
{
    if are_plain(low, high, from, to) {
        bounded(sum_of(low, from), sum_of(high, to))
    } else {
        Kind::Unknown
    }
}

// A sum modulo 2^32, if none wraps.
fn plain_sum(left: Kind, right: Kind) -> Kind
    ensures { result ≡ kinds.plain_sum left right }
{
    match left {
        Kind::Between(low, high) => match right {
            Kind::Between(from, to) => plain_between(low, high, from, to),
            _ => Kind::Unknown,
        },
        _ => Kind::Unknown,
    }
}

pub(super) fn bits(operator: BitOperator, left: Kind, right: Kind) -> Kind
    ensures { result ≡ kinds.bits_kind operator left right }
{
    match operator {
        BitOperator::Plus => plain_sum(left, right),
        _ => Kind::Unknown,
    }
}

fn fits_sum(left: Kind, right: Kind) -> bool
    ensures { result ≡ kinds.fits_sum left right }
{
    match left {
        Kind::Between(low, high) => match right {
            Kind::Between(from, to) => are_integers(sum_of(low, from), sum_of(high, to)),
            _ => false,
        },
        _ => false,
    }
}

fn fits_difference(left: Kind, right: Kind) -> bool
    ensures { result ≡ kinds.fits_difference left right }
{
    match left {
        Kind::Between(low, high) => match right {
            Kind::Between(from, to) => {
                are_integers(difference_of(low, to), difference_of(high, from))
            }
            _ => false,
        },
        _ => false,
    }
}

fn fits_product_between(low: i32, high: i32, from: i32, to: i32) -> bool
    ensures { result ≡ kinds.fits_product_between low high from to }
{
    are_all_natural(low, high, from, to) && is_integer(product_of(high, to))
}

fn fits_product(left: Kind, right: Kind) -> bool
    ensures { result ≡ kinds.fits_product left right }
{
    match left {
        Kind::Between(low, high) => match right {
            Kind::Between(from, to) => fits_product_between(low, high, from, to),
            _ => false,
        },
        _ => false,
    }
}

// Whether no result can be outside the integers.
pub(super) fn fits(operator: Operator, left: Kind, right: Kind) -> bool
    ensures { result ≡ kinds.fits operator left right }
{
    match operator {
        Operator::Add => fits_sum(left, right),
        Operator::Subtract => fits_difference(left, right),
        Operator::Multiply => fits_product(left, right),
        _ => false,
    }
}

pub(super) fn lies_within(kind: Kind, low: i32, high: i32) -> bool
    ensures { result ≡ kinds.lies_within kind low high }
{
    match kind {
        Kind::Between(from, to) => from >= low && to <= high,
        _ => false,
    }
}

pub(super) fn is_pointer(kind: Kind) -> bool
    ensures { result ≡ kinds.is_pointer kind }
{
    match kind {
        Kind::NotNil => true,
        _ => false,
    }
}

fn says_nil(kind: Kind) -> bool
    ensures { result ≡ kinds.says_nil kind }
{
    match kind {
        Kind::Between(low, high) => low == 0 && high == 0,
        _ => false,
    }
}

// What is known of a value after a comparison if nothing was known before: that it isn't nil.
pub(super) fn not_nil(relation: Relation, right: Kind) -> Kind
    ensures { result ≡ kinds.not_nil relation right }
{
    match relation {
        Relation::NotEqual => {
            if says_nil(right) {
                Kind::NotNil
            } else {
                Kind::Unknown
            }
        }
        _ => Kind::Unknown,
    }
}

/// The relation that holds where another one doesn't.
pub fn opposite(relation: Relation) -> Relation
    ensures { result ≡ kinds.opposite relation }
{
    match relation {
        Relation::Equal => Relation::NotEqual,
        Relation::NotEqual => Relation::Equal,
        Relation::Less => Relation::GreaterEqual,
        Relation::LessEqual => Relation::Greater,
        Relation::Greater => Relation::LessEqual,
        Relation::GreaterEqual => Relation::Less,
    }
}

fn one_less(number: i32) -> i32
    ensures { result ≡ kinds.one_less number }
{
    if number > i32::MIN {
        number - 1
    } else {
        number
    }
}

fn one_more(number: i32) -> i32
    ensures { result ≡ kinds.one_more number }
{
    if number < i32::MAX {
        number + 1
    } else {
        number
    }
}

// All but one of its bounds.
fn without(low: i32, high: i32, number: i32) -> Kind
    ensures { result ≡ kinds.without low high number }
{
    if low == number {
        Kind::Between(one_more(low), high)
    } else if high == number {
        Kind::Between(low, one_less(high))
    } else {
        Kind::Between(low, high)
    }
}

// A number within bounds that differs from a number within others.
fn unequal(low: i32, high: i32, from: i32, to: i32) -> Kind
    ensures { result ≡ kinds.unequal low high from to }
{
    if from == to {
        without(low, high, from)
    } else {
        Kind::Between(low, high)
    }
}

// A number within bounds for which this relation to a number within others holds.
pub(super) fn narrowed(relation: Relation, low: i32, high: i32, from: i32, to: i32) -> Kind
    ensures { result ≡ kinds.narrowed relation low high from to }
{
    match relation {
        Relation::Equal => met(Kind::Between(low, high), from, to),
        Relation::NotEqual => unequal(low, high, from, to),
        Relation::Less => Kind::Between(low, high.min(one_less(to))),
        Relation::LessEqual => Kind::Between(low, high.min(to)),
        Relation::Greater => Kind::Between(low.max(one_more(from)), high),
        Relation::GreaterEqual => Kind::Between(low.max(from), high),
    }
}
