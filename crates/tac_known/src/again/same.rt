// Components, sums and words that are the same, and the temporaries from which they are computed.

ghost use Rattle.std.specs.Prelude.{◌≡◌};
ghost use Rattle.tac_known.specs.Again as specs;

use crate::again::{Component, Fact, Sum, Word};
use tac_code::code::{Base, Operand, Operator};

// Whether a base is a temporary.
fn is_of(temporary: u32, base: Base) -> bool
    ensures { result ≡ specs.is_of temporary base }
{
    match base {
        Base::Temporary(other) => temporary == other,
        _ => false,
    }
}

// Whether an operand is a temporary.
fn is_operand(temporary: u32, operand: Operand) -> bool
    ensures { result ≡ specs.is_operand temporary operand }
{
    match operand {
        Operand::Temporary(other) => temporary == other,
        Operand::Number(_) => false,
    }
}

fn is_same_base(base: Base, other: Base) -> bool
    ensures { result ≡ specs.is_same_base base other }
{
    match (base, other) {
        (Base::Frame, Base::Frame) => true,
        (Base::Scratch, Base::Scratch) => true,
        (Base::Program, Base::Program) => true,
        (Base::Temporary(temporary), Base::Temporary(another)) => temporary == another,
        _ => false,
    }
}

fn is_same_operand(operand: Operand, other: Operand) -> bool
    ensures { result ≡ specs.is_same_operand operand other }
{
    match (operand, other) {
        (Operand::Number(number), Operand::Number(another)) => number == another,
        (Operand::Temporary(temporary), Operand::Temporary(another)) => temporary == another,
        _ => false,
    }
}

fn is_same_operator(operator: Operator, other: Operator) -> bool
    ensures { result ≡ specs.is_same_operator operator other }
{
    match (operator, other) {
        (Operator::Add, Operator::Add) => true,
        (Operator::Subtract, Operator::Subtract) => true,
        _ => false,
    }
}

impl Component {
    // Whether its base or its index is a temporary.
    pub(super) fn uses(self, temporary: u32) -> bool
        ensures { result ≡ specs.component_uses temporary self }
    {
        is_of(temporary, self.base) || temporary == self.index
    }

    pub(super) fn is_same(self, other: Component) -> bool
        ensures { result ≡ specs.is_same_component self other }
    {
        is_same_base(self.base, other.base)
            && self.index == other.index
            && self.low == other.low
            && self.high == other.high
            && self.width == other.width
    }
}

impl Sum {
    pub(super) fn uses(self, temporary: u32) -> bool
        ensures { result ≡ specs.sum_uses temporary self }
    {
        temporary == self.left || is_operand(temporary, self.right)
    }

    pub(super) fn is_same(self, other: Sum) -> bool
        ensures { result ≡ specs.is_same_sum self other }
    {
        is_same_operator(self.operator, other.operator)
            && self.left == other.left
            && is_same_operand(self.right, other.right)
            && self.error == other.error
    }
}

impl Word {
    pub(super) fn uses(self, temporary: u32) -> bool
        ensures { result ≡ specs.word_uses temporary self }
    {
        is_of(temporary, self.base)
    }

    pub(super) fn is_same(self, other: Word) -> bool
        ensures { result ≡ specs.is_same_word self other }
    {
        is_same_base(self.base, other.base) && self.offset == other.offset
    }
}

// Whether a fact depends on a temporary.
pub(super) fn hangs_on(temporary: u32, fact: Fact) -> bool
    ensures { result ≡ specs.hangs_on temporary fact }
{
    match fact {
        Fact::Empty => false,
        Fact::Pointed(component) => component.uses(temporary) || temporary == component.holder,
        Fact::Summed(sum) => sum.uses(temporary) || temporary == sum.holder,
        Fact::Loaded(word) => word.uses(temporary) || temporary == word.holder,
    }
}
