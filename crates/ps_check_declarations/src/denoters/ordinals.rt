//! Ordinal types (6.4.2), each with the points that it defines.

ghost use Rattle.std.specs.Prelude.{[], ◌≡◌, ◌<◌, ◌^◌, ◌++◌, ◌∷◌, OnOk, map, length};
ghost use Rattle.ps_tree.specs.View.{type_of};
ghost use Rattle.ps_check_judgement.specs.Judged.{Answers};
ghost use Rattle.ps_check_names.specs.Regions.{ConstantMeaning};
ghost use Rattle.ps_check_names.specs.Views.{meaning_of, constant_of};
ghost use Rattle.ps_check_declarations.specs.Denoters.{ordinal_at};
ghost use Rattle.ps_check_declarations.specs.Denoters.{constants_from, enumeration, subrange, subrange_of, ordinal};
ghost use Rattle.ps_check_declarations.specs.Denoters.{simple_type, denoter};
ghost use Rattle.ps_check_declarations.specs.Hiding.{Covers};
ghost use Rattle.ps_check_declarations.specs.Views.{frame_of, declared_of, hidden_of};

use crate::denoters::CONSTANT_LIMIT;
use crate::denoters::named::{constant_in, type_in};
use crate::frame::{Declared, Frame, Place};
use crate::hiding::HidingNames;
use crate::points::new_points;
use ps_check_judgement::answer::broken;
use ps_check_judgement::refusal::{CheckFault, Rule};
use ps_check_names::constants::ConstantValue;
use ps_check_names::meaning::Meaning;
use ps_syntax::{Constant, Ordinal as OrdinalDenoter};
use ps_text::Span;
use ps_tree::types::{Host, Ordinal, Ty, same_host};
use std::alloc::AllocError;

/// A type, which must be an ordinal type.
#[tactic(auto, unfolding(crate::specs::Denoters::ordinal_at, ps_tree::specs::View::type_of))]
fn ordinal_at(ty: &Ty, at: u32) -> Result<Ordinal, CheckFault>
    ensures { Answers result (λ ordinal. ordinal) (ordinal_at at (type_of ty.now)) }
{
    match ty {
        Ty::Simple(ordinal) => Ok(*ordinal),
        Ty::Pointer { .. }
        | Ty::Nil
        | Ty::Set { .. }
        | Ty::EmptySet
        | Ty::Text { .. }
        | Ty::Array { .. }
        | Ty::Record { .. } => Err(broken(Rule::WrongType, at)),
    }
}

/// The subrange of these constants, which begins at this offset.
#[tactic(auto, unfolding(crate::specs::Denoters::subrange, ps_check_names::specs::Views::constant_of))]
fn subrange(at: u32, low: &ConstantValue, high: &ConstantValue) -> Result<Ordinal, CheckFault>
    ensures { Answers result (λ ordinal. ordinal) (subrange at (constant_of low.now) (constant_of high.now)) }
{
    match (low, high) {
        (ConstantValue::Ordinal(first, low), ConstantValue::Ordinal(second, high)) => {
            if !same_host(first.host, second.host) {
                return Err(broken(Rule::WrongType, at));
            }
            if *low <= *high {
                Ok(Ordinal {
                    host: first.host,
                    subrange: Some(at),
                    low: *low,
                    high: *high,
                })
            } else {
                Err(broken(Rule::BadSubrange, at))
            }
        }
        (ConstantValue::Ordinal(..) | ConstantValue::Text(_), _) => {
            Err(broken(Rule::WrongType, at))
        }
    }
}

/// The constants of an enumerated type, one for each name.
#[tactic(auto, using(crate::proofs::DenoterLemmas::values_start, crate::proofs::DenoterLemmas::values_next, crate::proofs::DenoterLemmas::values_end))]
fn define_values(
    ordinal: Ordinal,
    names: &[Span],
    known: &mut Vec<Meaning>,
) -> Result<(), AllocError>
    requires { length names.now < 2 ^ 31 }
    ensures { OnOk result (map meaning_of known.new.items ≡ map meaning_of known.old.items
        ++ constants_from ordinal 0 names.now) }
{
    for value in 0..names.len() {
        define_value(ordinal, value as i32, known)?;
    }
    Ok(())
}

#[tactic(auto, unfolding(ps_check_names::specs::Views::meaning_of))]
fn define_value(ordinal: Ordinal, value: i32, known: &mut Vec<Meaning>) -> Result<(), AllocError>
    ensures { OnOk result (map meaning_of known.new.items ≡ map meaning_of known.old.items
        ++ ConstantMeaning ordinal value ∷ []) }
{
    known.push(Meaning::Constant { ordinal, value })?;
    Ok(())
}

/// An enumerated type, whose constants are defined for the block.
fn enumeration(
    place: &Place,
    declared: &mut Declared,
    at: u32,
    constants: &[Span],
) -> Result<Ordinal, CheckFault>
    ensures { Answers result (λ ordinal. (ordinal, declared_of declared.new))
        (enumeration (frame_of place.now.frame) at constants.now (declared_of declared.old)) }
{
    let Frame {
        reading,
        names,
        begun,
        ..
    } = place.frame;
    let known = declared.known.len();
    let _defined = new_points(reading, place.alloc, names, begun, known, constants)?;
    if constants.len() >= CONSTANT_LIMIT {
        return Err(broken(Rule::Limit, at));
    }
    let greatest = constants.len().saturating_sub(1) as i32;
    let ordinal = Ordinal {
        host: Host::Enumeration { at, greatest },
        subrange: None,
        low: 0,
        high: greatest,
    };
    define_values(ordinal, constants, &mut declared.known)?;
    Ok(ordinal)
}

/// The subrange of two constants.
fn subrange_of(
    place: &Place,
    hiding: &HidingNames,
    known: &[Meaning],
    at: u32,
    low: Constant,
    high: Constant,
) -> Result<Ordinal, CheckFault>
    requires { Covers hiding.now (hidden_of place.now.hidden) }
    ensures { Answers result (λ o. o) (subrange_of (frame_of place.now.frame) (hidden_of place.now.hidden)
        (map meaning_of known.now) at low high) }
{
    let first = constant_in(place, hiding, known, low)?;
    let second = constant_in(place, hiding, known, high)?;
    subrange(at, &first, &second)
}

/// An ordinal type.
#[tactic(auto, unfolding(crate::specs::Denoters::ordinal))]
pub(super) fn ordinal(
    place: &Place,
    hiding: &HidingNames,
    declared: &mut Declared,
    denoter: &OrdinalDenoter,
) -> Result<Ordinal, CheckFault>
    requires { Covers hiding.now (hidden_of place.now.hidden) }
    ensures { Answers result (λ o. (o, declared_of declared.new))
        (ordinal (frame_of place.now.frame) (hidden_of place.now.hidden) (declared_of declared.old) denoter.now) }
{
    match denoter {
        OrdinalDenoter::Name(at) => {
            let ty = type_in(place, hiding, declared.known.as_slice(), *at)?;
            ordinal_at(&ty, at.from)
        }
        OrdinalDenoter::Enumeration(at, names) => {
            enumeration(place, declared, at.from, names.as_slice())
        }
        OrdinalDenoter::Subrange(low, high) => {
            let known = declared.known.as_slice();
            subrange_of(place, hiding, known, denoter.first_token(), *low, *high)
        }
    }
}

/// The type made by a name or by the denoter of an ordinal type.
#[tactic(auto, unfolding(crate::specs::Denoters::simple_type, ps_tree::specs::View::type_of))]
pub(super) fn simple_type(
    place: &Place,
    hiding: &HidingNames,
    declared: &mut Declared,
    denoter: &OrdinalDenoter,
) -> Result<Ty, CheckFault>
    requires { Covers hiding.now (hidden_of place.now.hidden) }
    ensures { Answers result (λ ty. (type_of ty, declared_of declared.new))
        (simple_type (frame_of place.now.frame) (hidden_of place.now.hidden) (declared_of declared.old) denoter.now) }
{
    match denoter {
        OrdinalDenoter::Name(at) => type_in(place, hiding, declared.known.as_slice(), *at),
        OrdinalDenoter::Enumeration(..) | OrdinalDenoter::Subrange(..) => {
            let ordinal = ordinal(place, hiding, declared, denoter)?;
            Ok(Ty::Simple(ordinal))
        }
    }
}
