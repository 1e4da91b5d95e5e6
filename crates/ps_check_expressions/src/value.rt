//! What variables and expressions denote: the checked tree and the type.

ghost use Rattle.std.specs.Prelude.{◌≡◌};
ghost use Rattle.ps_tree.specs.View.{type_of, place_of};
ghost use Rattle.ps_check_judgement.specs.Judged.{Answers};
ghost use Rattle.ps_check_expressions.specs.Values.{host_type, has_host, is_integer, is_boolean, is_packed, range_of};
ghost use Rattle.ps_check_expressions.specs.Values.{packing_of_both, set_type_of_both, contents, loaded};
ghost use Rattle.ps_check_names.specs.Constants.{integer, char, boolean};
ghost use Rattle.ps_check_expressions.specs.View.{value_of, variable_of};

use ps_check_judgement::answer::broken;
use ps_check_judgement::refusal::{CheckFault, Rule};
use ps_check_names::constants::{BOOLEAN, CHAR, INTEGER};
use ps_tree::tree::{Expr, Place, Range, SetExpr, Structure};
use ps_tree::types::{Host, Ordinal, Packing, Ty, same_host};
use std::alloc::Global;

/// An expression, of one of three kinds according to its values, with its type (ISO 7185, 6.7.1).
#[derive(Drop)]
pub enum TypedValue {
    /// of an ordinal or pointer type
    Simple(Expr, Ty),
    Set(SetExpr, Ty),
    /// of an array or record type, or a string
    Structure(Structure, Ty),
}

/// A variable (6.5), with its type. `in_packed` says that it ends in an index or a field of a packed variable.
#[derive(Drop)]
pub struct TypedPlace {
    pub place: Place,
    pub ty: Ty,
    pub in_packed: bool,
}

/// The ordinal type of a host: an operand of a subrange type counts as one of the host type (6.7.1).
pub(crate) fn host_type(host: Host) -> Ordinal
    ensures { result ≡ host_type host }
{
    match host {
        Host::Integer => INTEGER,
        Host::Char => CHAR,
        Host::Boolean => BOOLEAN,
        Host::Enumeration { greatest, .. } => Ordinal {
            host,
            subrange: None,
            low: 0,
            high: greatest,
        },
    }
}

/// Whether a type has the values of a host type: it is the host type itself or a subrange of it.
#[tactic(auto, unfolding(ps_tree::specs::View::type_of))]
pub(crate) fn has_host(ty: &Ty, host: Host) -> bool
    ensures { result ≡ has_host host (type_of ty.now) }
{
    match ty {
        Ty::Simple(ordinal) => same_host(ordinal.host, host),
        Ty::Pointer { .. }
        | Ty::Nil
        | Ty::Set { .. }
        | Ty::EmptySet
        | Ty::Text { .. }
        | Ty::Array { .. }
        | Ty::Record { .. } => false,
    }
}

/// Whether a type has the values of integer.
pub fn is_integer(ty: &Ty) -> bool
    ensures { result ≡ is_integer (type_of ty.now) }
{
    has_host(ty, Host::Integer)
}

/// Whether a type has the values of Boolean.
pub fn is_boolean(ty: &Ty) -> bool
    ensures { result ≡ is_boolean (type_of ty.now) }
{
    has_host(ty, Host::Boolean)
}

/// Whether a type is a packed array or record type.
#[tactic(auto, unfolding(ps_tree::specs::View::type_of))]
pub(crate) fn is_packed(ty: &Ty) -> bool
    ensures { result ≡ is_packed (type_of ty.now) }
{
    match ty {
        Ty::Array { packed, .. } | Ty::Record { packed, .. } => *packed,
        Ty::Simple(_)
        | Ty::Pointer { .. }
        | Ty::Nil
        | Ty::Set { .. }
        | Ty::EmptySet
        | Ty::Text { .. } => false,
    }
}

/// The values that a variable of a simple type can have.
#[tactic(auto, unfolding(ps_tree::specs::View::type_of))]
pub fn range_of(ty: &Ty) -> Range
    ensures { result ≡ range_of (type_of ty.now) }
{
    match ty {
        Ty::Simple(ordinal) => Range::Within {
            low: ordinal.low,
            high: ordinal.high,
        },
        Ty::Pointer { .. }
        | Ty::Nil
        | Ty::Set { .. }
        | Ty::EmptySet
        | Ty::Text { .. }
        | Ty::Array { .. }
        | Ty::Record { .. } => Range::Any,
    }
}

fn packing_of_both(a: Packing, b: Packing) -> Packing
    ensures { result ≡ packing_of_both a b }
{
    match a {
        Packing::Either => b,
        Packing::Packed | Packing::Unpacked => a,
    }
}

/// The type of an operation on two sets (6.7.2.4).
#[tactic(auto, unfolding(ps_tree::specs::View::type_of))]
pub(crate) fn set_type_of_both(a: &Ty, b: &Ty) -> Ty
    ensures { type_of result ≡ set_type_of_both (type_of a.now) (type_of b.now) }
{
    match (a, b) {
        (
            Ty::Set {
                packing: k,
                base,
                ..
            },
            Ty::Set { packing: l, .. },
        ) => Ty::Set {
            at: None,
            packing: packing_of_both(*k, *l),
            base: *base,
        },
        (Ty::Set { packing, base, .. }, _) | (_, Ty::Set { packing, base, .. }) => Ty::Set {
            at: None,
            packing: *packing,
            base: *base,
        },
        (
            Ty::Simple(_)
            | Ty::Pointer { .. }
            | Ty::Nil
            | Ty::EmptySet
            | Ty::Text { .. }
            | Ty::Array { .. }
            | Ty::Record { .. },
            _,
        ) => Ty::EmptySet,
    }
}

/// The contents of a variable, whose first token is at `at`.
#[inline(never)]
#[tactic(auto, using(ps_tree::proofs::TreeLemmas::expr_of_Load, ps_tree::proofs::TreeLemmas::set_of_Load, ps_tree::proofs::TreeLemmas::structure_of_Contents), unfolding(crate::specs::Values::contents, crate::specs::View::value_of, ps_tree::specs::View::type_of))]
pub(crate) fn loaded(alloc: Global, variable: TypedPlace, at: u32) -> Result<TypedValue, CheckFault>
    ensures { Answers result (λ v. value_of v) (loaded at (variable_of variable)) }
{
    let TypedPlace { place, ty, .. } = variable;
    let place = Box::new(alloc, place)?;
    match ty {
        Ty::Simple(..) | Ty::Pointer { .. } => Ok(TypedValue::Simple(Expr::Load(place), ty)),
        Ty::Set { .. } => Ok(TypedValue::Set(SetExpr::Load(place), ty)),
        Ty::Array { .. } | Ty::Record { .. } => {
            let copy = ty.copy()?;
            let contents = Structure::Contents { place, ty: copy };
            Ok(TypedValue::Structure(contents, ty))
        }
        Ty::Nil { .. } | Ty::EmptySet { .. } | Ty::Text { .. } => {
            Err(broken(Rule::WrongType, at))
        }
    }
}
