// When two types are the same, agree in a host, are compatible, or may be assigned (6.4.1, 6.4.2, 6.4.5, 6.4.6).

ghost use Rattle.std.specs.Prelude.{◌≡◌, ◌↔◌, ◌^◌, ◌≤◌, IsTrue};
ghost use Rattle.ps_tree.specs.Types.{Compatible, Assignable, is_same_host, are_same, is_same_ordinal, is_same_type};
ghost use Rattle.ps_tree.specs.Types.{is_char, is_string_index, string_length, goes_with, has_variables, is_compatible};
ghost use Rattle.ps_tree.specs.Types.{is_assignable};
ghost use Rattle.ps_tree.specs.Sizes.{value_count};
ghost use Rattle.ps_tree.specs.TypeView.{type_of};

use crate::types::{Host, Ordinal, Packing, Ty};

/// Whether two types have values of one kind: apart from all their subranges, they are the same type.
pub fn same_host(a: Host, b: Host) -> bool
    ensures { result ≡ is_same_host a b }
{
    match (a, b) {
        (Host::Integer, Host::Integer)
        | (Host::Char, Host::Char)
        | (Host::Boolean, Host::Boolean) => true,
        (Host::Enumeration { at: x, .. }, Host::Enumeration { at: y, .. }) => x == y,
        (Host::Integer | Host::Char | Host::Boolean | Host::Enumeration { .. }, _) => false,
    }
}

fn same_number(a: Option<u32>, b: Option<u32>) -> bool
    ensures { result ≡ are_same a b }
{
    match (a, b) {
        (Some(x), Some(y)) => x == y,
        (Some(_) | None, _) => false,
    }
}

fn same_ordinal(a: Ordinal, b: Ordinal) -> bool
    ensures { result ≡ is_same_ordinal a b }
{
    same_host(a.host, b.host)
        && (same_number(a.subrange, b.subrange) || (a.subrange.is_none() && b.subrange.is_none()))
}

fn packings_agree(a: Packing, b: Packing) -> bool
    ensures { result ≡ goes_with a b }
{
    match (a, b) {
        (Packing::Packed, Packing::Unpacked) | (Packing::Unpacked, Packing::Packed) => false,
        (Packing::Packed | Packing::Unpacked | Packing::Either, _) => true,
    }
}

impl Ordinal {
    /// The number of values of the type.
    pub fn value_count(self) -> u64
        ensures value { result ≡ value_count self }
        ensures small { result ≤ 2 ^ 32 }
    {
        if self.high < self.low {
            0
        } else {
            u64::from(self.high.abs_diff(self.low)) + 1
        }
    }

    /// Whether it is a subrange of integer from 1 to n > 1.
    fn is_string_index(self) -> bool
        ensures { result ≡ is_string_index self }
    {
        same_host(self.host, Host::Integer)
            && self.subrange.is_some()
            && self.low == 1
            && 1 < self.high
    }
}

impl Ty {
    /// Whether it is the type char itself.
    #[tactic(auto, unfolding(crate::specs::TypeView::type_of))]
    fn is_char(&self) -> bool
        ensures { result ≡ is_char (type_of self.now) }
    {
        match self {
            Ty::Simple(ordinal) => same_host(ordinal.host, Host::Char)
                && ordinal.subrange.is_none(),
            Ty::Pointer { .. }
            | Ty::Nil
            | Ty::Set { .. }
            | Ty::EmptySet
            | Ty::Text { .. }
            | Ty::Array { .. }
            | Ty::Record { .. } => false,
        }
    }

    /// The length of the strings that are the type's values, if it is a string type (6.4.3.2).
    #[tactic(auto, unfolding(crate::specs::TypeView::type_of, crate::specs::Types::string_length))]
    pub fn string_length(&self) -> Option<u32>
        ensures { result ≡ string_length (type_of self.now) }
    {
        match self {
            Ty::Text { length } => Some(*length),
            Ty::Array {
                packed,
                index,
                component,
                ..
            } => {
                if *packed && component.ty.is_char() && index.is_string_index() {
                    Some(index.high.unsigned_abs())
                } else {
                    None
                }
            }
            Ty::Simple(_)
            | Ty::Pointer { .. }
            | Ty::Nil
            | Ty::Set { .. }
            | Ty::EmptySet
            | Ty::Record { .. } => None,
        }
    }
}

/// Whether both are the same type (6.4.1).
#[tactic(auto, unfolding(crate::specs::TypeView::type_of, crate::specs::Types::is_same_type))]
pub fn same_type(a: &Ty, b: &Ty) -> bool
    ensures { result ≡ is_same_type (type_of a.now) (type_of b.now) }
{
    match (a, b) {
        (Ty::Simple(x), Ty::Simple(y)) => same_ordinal(*x, *y),
        (Ty::Pointer { number: x }, Ty::Pointer { number: y }) => *x == *y,
        (Ty::Nil, Ty::Nil) | (Ty::EmptySet, Ty::EmptySet) => true,
        (Ty::Set { at: x, .. }, Ty::Set { at: y, .. }) => same_number(*x, *y),
        (Ty::Array { at: x, .. }, Ty::Array { at: y, .. }) => *x == *y,
        (Ty::Record { at: x, .. }, Ty::Record { at: y, .. }) => *x == *y,
        (
            Ty::Simple(_)
            | Ty::Pointer { .. }
            | Ty::Nil
            | Ty::Set { .. }
            | Ty::EmptySet
            | Ty::Text { .. }
            | Ty::Array { .. }
            | Ty::Record { .. },
            _,
        ) => false,
    }
}

/// Whether both are string types with the same number of components.
#[tactic(auto, unfolding(crate::specs::TypeView::type_of))]
fn same_strings(a: &Ty, b: &Ty) -> bool
    ensures { result ≡ are_same (string_length (type_of a.now)) (string_length (type_of b.now)) }
{
    same_number(a.string_length(), b.string_length())
}

#[tactic(auto, unfolding(crate::specs::TypeView::type_of, crate::specs::Types::is_compatible))]
fn test_compatible(a: &Ty, b: &Ty) -> bool
    ensures { result ≡ is_compatible (type_of a.now) (type_of b.now) }
{
    match (a, b) {
        (Ty::Simple(x), Ty::Simple(y)) => same_host(x.host, y.host),
        (
            Ty::Set {
                at: x,
                packing: k,
                base: o,
            },
            Ty::Set {
                at: y,
                packing: l,
                base: p,
            },
        ) => same_number(*x, *y) || (same_host(o.host, p.host) && packings_agree(*k, *l)),
        (Ty::EmptySet, Ty::Set { .. })
        | (Ty::Set { .. }, Ty::EmptySet)
        | (Ty::Nil, Ty::Pointer { .. })
        | (Ty::Pointer { .. }, Ty::Nil) => true,
        (
            Ty::Simple(_)
            | Ty::Pointer { .. }
            | Ty::Nil
            | Ty::Set { .. }
            | Ty::EmptySet
            | Ty::Text { .. }
            | Ty::Array { .. }
            | Ty::Record { .. },
            _,
        ) => same_type(a, b) || same_strings(a, b),
    }
}

/// Whether two types are compatible (6.4.5).
pub fn compatible(a: &Ty, b: &Ty) -> bool
    ensures rule { IsTrue result ↔ Compatible (type_of a.now) (type_of b.now) }
    ensures value { result ≡ is_compatible (type_of a.now) (type_of b.now) }
{
    test_compatible(a, b)
}

#[tactic(auto, unfolding(crate::specs::TypeView::type_of))]
fn may_be_of_a_variable(ty: &Ty) -> bool
    ensures { result ≡ has_variables (type_of ty.now) }
{
    match ty {
        Ty::Nil | Ty::EmptySet | Ty::Text { .. } => false,
        Ty::Simple(_)
        | Ty::Pointer { .. }
        | Ty::Set { .. }
        | Ty::Array { .. }
        | Ty::Record { .. } => true,
    }
}

/// Whether a value of the first type may be assigned to a variable of the second (6.4.6). The value itself is tested at
/// run time.
pub fn assignable(from: &Ty, to: &Ty) -> bool
    ensures rule { IsTrue result ↔ Assignable (type_of from.now) (type_of to.now) }
    ensures value { result ≡ is_assignable (type_of from.now) (type_of to.now) }
{
    may_be_of_a_variable(to) && compatible(from, to)
}
