// Operators, required functions, and tests of ranges.

ghost use Rattle.std.specs.Prelude.{◌≡◌, ◌<◌, ◌≤◌, ◌+◌, ◌-◌, ◌<ℤ◌, ◌*ℤ◌, ◌-ℤ◌, ◌≢◌, int_div, unsigned_abs, ℕ, pos};
ghost use Rattle.std.specs.Prelude.{negsuc, not, ◌||◌, IfOk, length, get_or};
ghost use Rattle.ps_meaning.specs.Operators as m;
ghost use Rattle.ps_meaning.specs.Operators.{is_equal, is_between, is_true, truth, combine_truths, combine_sets, holds};
ghost use Rattle.ps_meaning.specs.Operators.{pointers_hold, strings_hold, first_difference, sets_hold, is_included};
ghost use Rattle.ps_meaning.specs.Operators.{is_member, interval, fits, set_fits, all_below, is_among, modulo};
ghost use Rattle.ps_meaning.specs.Operators.{is_same_pointer};
ghost use Rattle.ps_meaning_runner.specs.View.{compared, listed, tested, value_of, values_of, computed_of, integer_of};

use crate::value::Value;
use ps_tree::tree::{
    ArithmeticOperator, BooleanOperator, OrderRelation, PointerRelation, Range, RequiredFunction,
    SetOperator, SetRelation,
};
use std::alloc::{AllocError, Global};

/// A number, or the number of an error.
#[derive(Clone, Copy)]
pub enum Computed {
    Result(i32),
    Fault(u16),
}

/// Error 1 if the result is not an integer.
#[tactic(auto, unfolding(crate::specs::View::integer_of))]
pub fn integer(x: i64) -> Computed
    ensures { computed_of result ≡ integer_of x }
{
    if i64::from(i32::MIN) <= x && x <= i64::from(i32::MAX) {
        Computed::Result(x as i32)
    } else {
        Computed::Fault(1)
    }
}

/// A number with its sign changed; error 1 if that is not an integer.
pub fn negated(x: i32) -> Computed
    ensures { computed_of result ≡ integer_of (pos 0 -ℤ x) }
{
    integer(0 - i64::from(x))
}

/// The k in 0 .. j - 1 for which i - k is a multiple of j.
fn modulo(i: i32, j: i32) -> i32
    requires { pos 0 <ℤ j }
    ensures { result ≡ modulo i (unsigned_abs j) }
{
    let divisor = j.unsigned_abs();
    if i >= 0 {
        (i.unsigned_abs() % divisor) as i32
    } else {
        (divisor - 1 - (i + 1).unsigned_abs() % divisor) as i32
    }
}

fn product(x: i32, y: i32) -> Computed
    ensures { computed_of result ≡ integer_of (x *ℤ y) }
{
    integer(i64::from(x) * i64::from(y))
}

fn quotient(x: i32, y: i32) -> Computed
    requires { y ≢ pos 0 }
    ensures { computed_of result ≡ integer_of (int_div x y) }
{
    integer(i64::from(x) / i64::from(y))
}

/// An operator on two integers; errors 1, 2 and 3.
#[tactic(auto, unfolding(crate::specs::View::integer_of))]
pub fn compute(operator: ArithmeticOperator, x: i32, y: i32) -> Computed
    ensures { computed_of result ≡ m.compute operator x y }
{
    let (left, right) = (i64::from(x), i64::from(y));
    match operator {
        ArithmeticOperator::Add => integer(left + right),
        ArithmeticOperator::Subtract => integer(left - right),
        ArithmeticOperator::Multiply => product(x, y),
        ArithmeticOperator::Div => {
            if y == 0 {
                Computed::Fault(2)
            } else {
                quotient(x, y)
            }
        }
        ArithmeticOperator::Mod => {
            if y <= 0 {
                Computed::Fault(3)
            } else {
                Computed::Result(modulo(x, y))
            }
        }
    }
}

/// A required function of an ordinal; errors 1 and 4.
#[tactic(auto, unfolding(crate::specs::View::integer_of))]
pub fn apply(function: RequiredFunction, x: i32) -> Computed
    ensures { computed_of result ≡ m.apply function x }
{
    let wide = i64::from(x);
    match function {
        RequiredFunction::Abs => integer(i64::from(x.unsigned_abs())),
        RequiredFunction::Sqr => integer(wide * wide),
        RequiredFunction::Odd => Computed::Result(truth(x.unsigned_abs() % 2 == 1)),
        RequiredFunction::Ord => Computed::Result(x),
        RequiredFunction::Chr => {
            if is_between(0, x, 255) {
                Computed::Result(x)
            } else {
                Computed::Fault(4)
            }
        }
        RequiredFunction::Succ { high } => {
            if x < high {
                Computed::Result(x + 1)
            } else {
                Computed::Fault(4)
            }
        }
        RequiredFunction::Pred { low } => {
            if low < x {
                Computed::Result(x - 1)
            } else {
                Computed::Fault(4)
            }
        }
    }
}

/// The ordinal of a Boolean value.
pub fn truth(b: bool) -> i32
    ensures { result ≡ truth b }
{
    if b { 1 } else { 0 }
}

/// The Boolean value with an ordinal.
pub fn is_true(x: i32) -> bool
    ensures { result ≡ is_true x }
{
    x != 0
}

/// `and` and `or`.
pub fn combine_truths(operator: BooleanOperator, a: bool, b: bool) -> bool
    ensures { result ≡ combine_truths operator a b }
{
    match operator {
        BooleanOperator::And => a && b,
        BooleanOperator::Or => a || b,
    }
}

/// A relation between two ordinals.
fn holds(relation: OrderRelation, x: i32, y: i32) -> bool
    ensures { result ≡ holds relation x y }
{
    match relation {
        OrderRelation::Equal => x == y,
        OrderRelation::Different => x != y,
        OrderRelation::Less => x < y,
        OrderRelation::Greater => x > y,
        OrderRelation::AtMost => x <= y,
        OrderRelation::AtLeast => x >= y,
    }
}

/// Whether two pointers are both nil, or point to the same object.
#[tactic(auto, unfolding(crate::specs::View::value_of))]
fn is_same_pointer(a: &Value, b: &Value) -> bool
    ensures { result ≡ is_same_pointer (value_of a.now) (value_of b.now) }
{
    match (a, b) {
        (Value::Nil, Value::Nil) => true,
        (Value::Object(x), Value::Object(y)) => *x == *y,
        (
            Value::Nil | Value::Object(_) | Value::Ordinal(_) | Value::Set(_) | Value::Structure(_),
            _,
        ) => false,
    }
}

/// A relation between two pointers.
fn pointers_hold(relation: PointerRelation, a: &Value, b: &Value) -> bool
    ensures { result ≡ pointers_hold relation (value_of a.now) (value_of b.now) }
{
    match relation {
        PointerRelation::Same => is_same_pointer(a, b),
        PointerRelation::Other => !is_same_pointer(a, b),
    }
}

/// A relation between two values: of ordinals, or of pointers.
#[derive(Clone, Copy)]
pub enum Comparison {
    Ordinals(OrderRelation),
    Pointers(PointerRelation),
}

impl Comparison {
    /// Whether the relation holds between two values.
    pub fn holds(self, x: &Value, y: &Value) -> bool
        ensures { result ≡ compared self (value_of x.now) (value_of y.now) }
    {
        match self {
            Comparison::Ordinals(relation) => holds(relation, x.number(), y.number()),
            Comparison::Pointers(relation) => pointers_hold(relation, x, y),
        }
    }
}

/// Whether a value is within the range of a variable.
#[tactic(auto, unfolding(crate::specs::View::value_of))]
pub fn fits(range: Range, value: &Value) -> bool
    ensures { result ≡ fits range (value_of value.now) }
{
    match range {
        Range::Any => true,
        Range::Within { low, high } => {
            let number = value.number();
            low <= number && number <= high
        }
    }
}

/// Whether a number is one of these.
pub fn is_among(x: i32, constants: &[i32]) -> bool
    ensures { result ≡ is_among x constants.now }
{
    let mut left = constants;
    while let [first, rest @ ..] = left {
        if x == *first {
            return true;
        }
        left = rest;
    }
    false
}

/// Whether the number is a member of the listed set.
fn has(tests: &[bool], number: usize) -> bool
    ensures { result ≡ listed tests.now number }
{
    number < tests.len() && tests[number]
}

/// The tests of the set that results from an operator.
#[tactic(auto, using(crate::proofs::SetsAndStrings::combined_next, crate::proofs::SetsAndStrings::combined_all))]
pub fn combine_sets(
    alloc: Global,
    operator: SetOperator,
    a: &[bool],
    b: &[bool],
) -> Result<Vec<bool>, AllocError>
    ensures { IfOk result (λ v. listed v.items ≡ combine_sets operator (listed a.now) (listed b.now)) }
{
    let mut tests = Vec::new(alloc);
    for number in 0..a.len().max(b.len()) {
        tests.push(combine_tests(operator, has(a, number), has(b, number)))?;
    }
    Ok(tests)
}

fn combine_tests(operator: SetOperator, a: bool, b: bool) -> bool
    ensures { result ≡ tested operator a b }
{
    match operator {
        SetOperator::Union => a || b,
        SetOperator::Difference => a && !b,
        SetOperator::Intersection => a && b,
    }
}

/// Whether each member of a below a number is a member of b.
#[tactic(auto, unfolding(ps_meaning::specs::Operators::all_below))]
fn are_included(below: usize, a: &[bool], b: &[bool]) -> bool
    ensures { result ≡ all_below below (λ k. not (listed a.now k) || listed b.now k) }
{
    let mut left = below;
    while left > 0 {
        left -= 1;
        if has(a, left) && !has(b, left) {
            return false;
        }
    }
    true
}

/// Whether each member of a, up to 255, is a member of b.
fn is_included(a: &[bool], b: &[bool]) -> bool
    ensures { result ≡ is_included (listed a.now) (listed b.now) }
{
    are_included(256, a, b)
}

/// A relation between two sets.
pub fn sets_hold(relation: SetRelation, a: &[bool], b: &[bool]) -> bool
    ensures { result ≡ sets_hold relation (listed a.now) (listed b.now) }
{
    match relation {
        SetRelation::Same => is_included(a, b) && is_included(b, a),
        SetRelation::Other => !(is_included(a, b) && is_included(b, a)),
        SetRelation::Included => is_included(a, b),
        SetRelation::Includes => is_included(b, a),
    }
}

/// Whether a number is between two bounds.
fn is_between(low: i32, x: i32, high: i32) -> bool
    ensures { result ≡ is_between low x high }
{
    low <= x && x <= high
}

/// Whether a number is not a member of a set, or is between two bounds.
fn is_allowed(number: u16, low: i32, high: i32, tests: &[bool]) -> bool
    ensures { result ≡ (not (listed tests.now number) || is_between low (pos number) high) }
{
    !has(tests, usize::from(number)) || is_between(low, i32::from(number), high)
}

/// Whether each member of a set below a number is between two bounds.
#[tactic(auto, unfolding(ps_meaning::specs::Operators::all_below))]
fn are_between(below: u16, low: i32, high: i32, tests: &[bool]) -> bool
    ensures { result ≡ all_below below (λ k. not (listed tests.now k) || is_between low (pos k) high) }
{
    let mut left = below;
    while left > 0 {
        left -= 1;
        if !is_allowed(left, low, high, tests) {
            return false;
        }
    }
    true
}

/// Whether each member of a set, up to 255, is between two bounds.
pub fn set_fits(low: i32, high: i32, tests: &[bool]) -> bool
    ensures { result ≡ set_fits low high (listed tests.now) }
{
    are_between(256, low, high, tests)
}

/// `x in s`
pub fn is_member(x: i32, tests: &[bool]) -> bool
    ensures { result ≡ is_member x (listed tests.now) }
{
    0 <= x && x < 256 && has(tests, x as usize)
}

/// The set of the numbers from low to high.
#[tactic(auto, using(crate::proofs::SetsAndStrings::interval_next, crate::proofs::SetsAndStrings::interval_all))]
pub fn interval(alloc: Global, low: u8, high: u8) -> Result<Vec<bool>, AllocError>
    ensures { IfOk result (λ v. listed v.items ≡ interval (pos low) (pos high)) }
{
    let mut tests = Vec::new(alloc);
    for number in 0..u16::from(high) + 1 {
        tests.push(u16::from(low) <= number)?;
    }
    Ok(tests)
}

/// Whether two ordinals are equal.
pub fn is_equal(x: i32, y: i32) -> bool
    ensures { result ≡ is_equal x y }
{
    x == y
}

/// The first characters that differ; 0 and 0 if none do.
#[tactic(auto, using(crate::proofs::SetsAndStrings::difference_past, crate::proofs::SetsAndStrings::difference_same, crate::proofs::SetsAndStrings::difference_other))]
fn first_difference(a: &[Value], b: &[Value]) -> (i32, i32)
    ensures { result ≡ first_difference (values_of a.now) (values_of b.now) }
{
    let mut place = 0;
    while place < a.len() && place < b.len() {
        let left = a[place].number();
        let right = b[place].number();
        if !is_equal(left, right) {
            return (left, right);
        }
        place += 1;
    }
    (0, 0)
}

/// A relation between two strings.
pub fn strings_hold(relation: OrderRelation, a: &[Value], b: &[Value]) -> bool
    ensures { result ≡ strings_hold relation (values_of a.now) (values_of b.now) }
{
    let (x, y) = first_difference(a, b);
    holds(relation, x, y)
}
