// What is known of temporaries.

mod ranges;

ghost use Rattle.std.specs.Prelude.{◌≡◌, ◌<◌, true, slice_set, slice_get, length, map, IsTrue, IfOk};
ghost use Rattle.tac_known.specs.Kinds as kinds;
ghost use Rattle.tac_known.specs.Walk.{nothing};

use crate::kind::ranges::{bits, computed, fits, is_pointer, lies_within, met, narrowed, not_nil};
pub(crate) use ranges::are_plain;
pub use ranges::opposite;
use std::alloc::Global;
use std::marker::Model;
use tac_code::code::{BitOperator, Operand, Operator, OutOfMemory, Relation};

/// What a temporary is known to hold.
#[derive(Clone, Copy)]
pub enum Kind {
    /// Anything, or nothing.
    Unknown,
    /// Anything but nil, the number 0.
    NotNil,
    /// A number that is neither below the first nor above the second.
    Between(i32, i32),
}

fn related(relation: Relation, left: Kind, right: Kind) -> Kind
    ensures { result ≡ kinds.related_kind relation left right }
{
    match left {
        Kind::Unknown => not_nil(relation, right),
        Kind::NotNil => Kind::NotNil,
        Kind::Between(low, high) => match right {
            Kind::Between(from, to) => narrowed(relation, low, high, from, to),
            _ => Kind::Between(low, high),
        },
    }
}

/// Whether the second says no more than the first.
pub fn says_no_more(from: Kind, to: Kind) -> bool
    ensures { result ≡ kinds.says_no_more from to }
{
    match to {
        Kind::Unknown => true,
        Kind::NotNil => is_pointer(from),
        Kind::Between(lowest, highest) => match from {
            Kind::Between(low, high) => low >= lowest && high <= highest,
            _ => false,
        },
    }
}

// What is known of a value that is one of two.
fn joined(one: Kind, other: Kind) -> Kind {
    match one {
        Kind::Unknown => one,
        Kind::NotNil => {
            if is_pointer(other) {
                one
            } else {
                Kind::Unknown
            }
        }
        Kind::Between(low, high) => match other {
            Kind::Between(from, to) => Kind::Between(low.min(from), high.max(to)),
            _ => Kind::Unknown,
        },
    }
}

fn join_all(list: &mut [Kind], others: &[Kind]) {
    for at in 0..list.len() {
        if at < others.len() {
            list[at] = joined(list[at], others[at]);
        }
    }
}

fn is_no_more_at(from: &[Kind], to: &[Kind], at: usize) -> bool
    requires here { at < length from.now }
    requires there { at < length to.now }
    ensures { result ≡ kinds.says_no_more (kinds.or_unknown (slice_get from.now at))
        (kinds.or_unknown (slice_get to.now at)) }
{
    says_no_more(from[at], to[at])
}

fn say_no_more(from: &[Kind], to: &[Kind]) -> bool
    requires { length from.now ≡ length to.now }
    ensures { IsTrue result → kinds.say_no_more from.now to.now ≡ true }
{
    for at in 0..to.len() {
        if !is_no_more_at(from, to, at) {
            return false;
        }
    }
    true
}

fn forgotten(_kind: Kind) -> Kind
    ensures { result ≡ kinds.forget _kind }
{
    Kind::Unknown
}

fn forget_all(list: &mut [Kind])
    ensures { list.new ≡ map kinds.forget list.old }
{
    for at in 0..list.len() {
        list[at] = forgotten(list[at]);
    }
}

fn copy_all(list: &mut [Kind], with: &[Kind])
    requires { length list.old ≡ length with.now }
    ensures { list.new ≡ with.now }
{
    for at in 0..list.len() {
        list[at] = with[at];
    }
}

/// What is known of each temporary, by its number.
#[derive(Drop)]
pub struct Kinds {
    list: Vec<Kind>,
}

impl Model for Kinds {
    ghost use Rattle.std.specs.Prelude.{List};
    ghost use Rattle.tac_known.specs.declared.kind.Kind.{Kind};

    ghost Value = { List Kind };

    ghost view = { λ k. k.list.items };
}

impl Kinds {
    /// Nothing is known of `count` temporaries.
    pub fn new(alloc: Global, count: usize) -> Result<Kinds, OutOfMemory>
        ensures { IfOk result (λ all. all ≡ nothing count) }
    {
        Ok(Kinds {
            list: vec![in alloc; Kind::Unknown; count]?,
        })
    }

    /// The same.
    pub fn copied(&self, alloc: Global) -> Result<Kinds, OutOfMemory>
        ensures { IfOk result (λ all. all ≡ self.now) }
    {
        Ok(Kinds {
            list: self.list.as_slice().to_vec(alloc)?,
        })
    }

    /// Is replaced by other kinds; false if there aren't as many.
    pub fn replace(&mut self, with: &Kinds) -> bool
        ensures { IsTrue result → self.new ≡ with.now }
    {
        if self.list.len() != with.list.len() {
            return false;
        }
        copy_all(self.list.as_mut_slice(), with.list.as_slice());
        true
    }

    /// What is known of a temporary.
    pub fn kind(&self, temporary: u32) -> Kind
        ensures { result ≡ kinds.kind_in self.now temporary }
    {
        let at = temporary as usize;
        if at < self.list.len() {
            self.list[at]
        } else {
            Kind::Unknown
        }
    }

    /// Records something else about a temporary.
    pub fn learn(&mut self, temporary: u32, kind: Kind)
        ensures { self.new ≡ slice_set self.old temporary kind }
    {
        let at = temporary as usize;
        if at < self.list.len() {
            self.list[at] = kind;
        }
    }

    /// Nothing is known any more.
    pub fn forget(&mut self)
        ensures { self.new ≡ map kinds.forget self.old }
    {
        forget_all(self.list.as_mut_slice());
    }

    /// What is known of a right operand.
    pub fn operand(&self, operand: Operand) -> Kind
        ensures { result ≡ kinds.operand_kind self.now operand }
    {
        match operand {
            Operand::Temporary(temporary) => self.kind(temporary),
            Operand::Number(number) => Kind::Between(number, number),
        }
    }

    /// Whether others say no more.
    pub fn allow(&self, others: &Kinds) -> bool
        ensures { IsTrue result → kinds.say_no_more self.now others.now ≡ true }
    {
        self.list.len() == others.list.len()
            && say_no_more(self.list.as_slice(), others.list.as_slice())
    }

    /// Whether no result of an operator can be outside the integers.
    pub fn fit(&self, operator: Operator, left: u32, right: Operand) -> bool
        ensures { result ≡ kinds.fits operator (kinds.kind_in self.now left) (kinds.operand_kind self.now right) }
    {
        fits(operator, self.kind(left), self.operand(right))
    }

    /// Whether a number can't be outside a range.
    pub fn lies_within(&self, temporary: u32, low: i32, high: i32) -> bool
        ensures { result ≡ kinds.lies_within (kinds.kind_in self.now temporary) low high }
    {
        lies_within(self.kind(temporary), low, high)
    }

    /// Whether a temporary doesn't hold nil.
    pub fn is_pointer(&self, temporary: u32) -> bool
        ensures { result ≡ kinds.is_pointer (kinds.kind_in self.now temporary) }
    {
        is_pointer(self.kind(temporary))
    }

    /// Records the result of an operator.
    pub fn compute(&mut self, operator: Operator, to: u32, left: u32, right: Operand)
        ensures { self.new ≡ slice_set self.old to (kinds.computed_kind operator (kinds.kind_in self.old left)
            (kinds.operand_kind self.old right)) }
    {
        let kind = computed(operator, self.kind(left), self.operand(right));
        self.learn(to, kind);
    }

    /// Records the result of an operator on words.
    pub fn combine(&mut self, operator: BitOperator, to: u32, left: u32, right: Operand)
        ensures { self.new ≡ slice_set self.old to (kinds.bits_kind operator (kinds.kind_in self.old left)
            (kinds.operand_kind self.old right)) }
    {
        let kind = bits(operator, self.kind(left), self.operand(right));
        self.learn(to, kind);
    }

    /// Records that a number was found to be in a range.
    pub fn meet(&mut self, temporary: u32, low: i32, high: i32)
        ensures { self.new ≡ slice_set self.old temporary (kinds.met (kinds.kind_in self.old temporary) low high) }
    {
        let kind = met(self.kind(temporary), low, high);
        self.learn(temporary, kind);
    }

    /// Records that a relation was found to hold.
    pub fn relate(&mut self, relation: Relation, left: u32, right: Operand)
        ensures { self.new ≡ slice_set self.old left (kinds.related_kind relation (kinds.kind_in self.old left)
            (kinds.operand_kind self.old right)) }
    {
        let kind = related(relation, self.kind(left), self.operand(right));
        self.learn(left, kind);
    }

    /// Keeps only what is also known in the other kinds. Nothing is proved about it.
    pub fn join(&mut self, others: &Kinds) {
        join_all(self.list.as_mut_slice(), others.list.as_slice());
    }
}
