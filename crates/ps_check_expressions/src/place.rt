//! Variables (ISO 7185, 6.5), step by step.

ghost use Rattle.std.specs.Prelude.{◌≡◌, ℕ, false, IfOk, IfErr};
ghost use Rattle.ps_tree.specs.Tree as Tree;
ghost use Rattle.ps_tree.specs.View.{type_of, expr_of, place_of, base_of};
ghost use Rattle.ps_check_judgement.specs.Judged.{Answers};
ghost use Rattle.ps_check_judgement.specs.declared.refusal.CheckFault.TheVariants.{OutOfMemory};
ghost use Rattle.ps_check_names.specs.Spelling.{spelled};
ghost use Rattle.ps_check_names.specs.Views.{point_of};
ghost use Rattle.ps_tree.specs.Chains.{selected};
ghost use Rattle.ps_check_expressions.specs.Values.{is_packed};
ghost use Rattle.ps_check_expressions.specs.Places.{variable_at, index_operand, element, component, target};
ghost use Rattle.ps_check_expressions.specs.View.{context_at, value_of, variable_of};

use crate::operators::{Operands, wrong_type};
use crate::site::Site;
use crate::value::{TypedPlace, TypedValue, is_packed};
use ps_check_judgement::answer::{broken, paired};
use ps_check_judgement::refusal::{CheckFault, Rule};
use ps_check_names::constants::misplacement;
use ps_check_names::meaning::Meaning;
use ps_check_names::scope::Found;
use ps_text::Span;
use ps_tree::line::Line;
use ps_tree::tree::{Expr, OpenedField, Place, PlaceBase, Selector};
use ps_tree::types::{Ordinal, Ty, compatible};
use std::alloc::{AllocError, Global};

/// A variable without selectors.
#[tactic(auto, unfolding(ps_tree::specs::View::selectors_of))]
fn entire(alloc: Global, base: PlaceBase) -> Place
    ensures { place_of result ≡ Tree.Variable (base_of base) Tree.no_selector }
{
    Place {
        base,
        selectors: Vec::new(alloc),
    }
}

/// A field's name used alone: a field of a record that an enclosing `with` opened.
fn opened_field(alloc: Global, which: u32, whole: &Ty, number: u32) -> Result<PlaceBase, AllocError>
    ensures { IfOk result (λ base. base_of base ≡ Tree.Opened which (type_of whole.now) number) }
{
    let ty = whole.copy()?;
    let field = Box::new(alloc, OpenedField { which, number, ty })?;
    Ok(PlaceBase::Opened(field))
}

/// The variable that a name denotes; the name is at `at`.
#[inline(never)]
#[tactic(auto, unfolding(crate::specs::Places::variable_at, ps_check_names::specs::Views::meaning_of))]
pub fn variable_found(alloc: Global, found: Found<'_>, at: u32) -> Result<TypedPlace, CheckFault>
    ensures { Answers result (λ v. variable_of v) (variable_at at (point_of found.entry)) }
{
    match found {
        Found::Field {
            which,
            record,
            number,
            ty,
        } => {
            let base = opened_field(alloc, which, record, number)?;
            let ty = ty.copy()?;
            Ok(TypedPlace {
                place: entire(alloc, base),
                ty,
                in_packed: is_packed(record),
            })
        }
        Found::Name { up, meaning } => match meaning {
            Meaning::Variable { entry, ty } | Meaning::Parameter { entry, ty } => {
                let ty = ty.copy()?;
                let base = PlaceBase::Entry { up, index: *entry };
                Ok(TypedPlace {
                    place: entire(alloc, base),
                    ty,
                    in_packed: false,
                })
            }
            Meaning::Constant { .. }
            | Meaning::Text(_)
            | Meaning::Type(_)
            | Meaning::RoutineParameter { .. }
            | Meaning::Routine(_)
            | Meaning::Required(_)
            | Meaning::File(_)
            | Meaning::LeftOut => Err(broken(misplacement(&found), at)),
        },
    }
}

/// An index, which must be compatible with the array's index type; it begins at `at`.
#[tactic(auto, unfolding(crate::specs::Places::index_operand, crate::specs::View::value_of, ps_tree::specs::View::type_of))]
fn index_operand(index: TypedValue, array: Ordinal, at: u32) -> Result<Expr, CheckFault>
    ensures { Answers result (λ e. expr_of e) (index_operand at array (value_of index)) }
{
    match index {
        TypedValue::Simple(index, ty) => {
            if compatible(&ty, &Ty::Simple(array)) {
                Ok(index)
            } else {
                drop(index);
                Err(wrong_type(at))
            }
        }
        other @ (TypedValue::Set(..) | TypedValue::Structure(..)) => {
            drop(other);
            Err(wrong_type(at))
        }
    }
}

fn copy_of(ty: &Ty) -> Result<Ty, CheckFault>
    ensures ok { IfOk result (λ copy. type_of copy ≡ type_of ty.now) }
    ensures err { IfErr result (λ fault. fault ≡ OutOfMemory) }
{
    Ok(ty.copy()?)
}

/// The index of an element of an array of type `ty`, and the element's type. The array begins at `at.first`, the index
/// at `at.second`.
#[tactic(auto, unfolding(crate::specs::Places::element, ps_tree::specs::View::type_of))]
fn index_of(ty: &Ty, index: TypedValue, at: Operands) -> Result<(Expr, Ty), CheckFault>
    ensures { (place : Tree.Place) (line : ℕ) → Answers result
        (λ e. record {
          place = selected place (Tree.Element (type_of ty.now) (expr_of e.0) line);
          type = type_of e.1;
          in_packed = is_packed (type_of ty.now);
        }) (element at place (type_of ty.now) (value_of index) line) }
{
    match ty {
        Ty::Array {
            index: bounds,
            component,
            ..
        } => paired(
            index_operand(index, *bounds, at.second),
            copy_of(component.ty()),
        ),
        Ty::Simple(_)
        | Ty::Pointer { .. }
        | Ty::Nil
        | Ty::Set { .. }
        | Ty::EmptySet
        | Ty::Text { .. }
        | Ty::Record { .. } => {
            drop(index);
            Err(wrong_type(at.first))
        }
    }
}

/// The element of an array at an index. The array begins at `at.first`, the index at `at.second`.
#[inline(never)]
#[tactic(auto, unfolding(ps_tree::specs::View::selector_of))]
pub(crate) fn element(
    array: TypedPlace,
    index: TypedValue,
    line: Line,
    at: Operands,
) -> Result<TypedPlace, CheckFault>
    ensures { Answers result (λ v. variable_of v)
        (element at (place_of array.place) (type_of array.ty) (value_of index) line.number) }
{
    let TypedPlace { place, ty, .. } = array;
    let in_packed = is_packed(&ty);
    let (index, component) = index_of(&ty, index, at)?;
    let place = place.selected(Selector::Element { ty, index, line })?;
    Ok(TypedPlace {
        place,
        ty: component,
        in_packed,
    })
}

/// The place and the type of a field of a record of type `ty`, which begins at `first`; the field's name is at `at`.
#[tactic(auto, unfolding(crate::specs::Places::component, ps_tree::specs::View::type_of))]
fn field_of(ty: &Ty, name: &[u8], first: u32, at: u32) -> Result<(u32, Ty), CheckFault>
    ensures { (place : Tree.Place) → Answers result
        (λ f. record {
          place = selected place (Tree.Field (type_of ty.now) f.0);
          type = type_of f.1;
          in_packed =
              is_packed (type_of ty.now);
        }) (component first at place (type_of ty.now) name.now) }
{
    match ty {
        Ty::Record { fields, .. } => match fields.find(name) {
            None => Err(broken(Rule::Unknown, at)),
            Some((number, field)) => Ok((number, field.copy()?)),
        },
        Ty::Simple(_)
        | Ty::Pointer { .. }
        | Ty::Nil
        | Ty::Set { .. }
        | Ty::EmptySet
        | Ty::Text { .. }
        | Ty::Array { .. } => Err(wrong_type(first)),
    }
}

/// The field of a record, which begins at `first`; the field's name is at `at`.
#[inline(never)]
#[tactic(auto, unfolding(ps_tree::specs::View::selector_of))]
fn component(base: TypedPlace, name: &[u8], first: u32, at: u32) -> Result<TypedPlace, CheckFault>
    ensures { Answers result (λ v. variable_of v)
        (component first at (place_of base.place) (type_of base.ty) name.now) }
{
    let TypedPlace { place, ty, .. } = base;
    let (number, field) = field_of(&ty, name, first, at)?;
    let packed = is_packed(&ty);
    let place = place.selected(Selector::Field { ty, number })?;
    Ok(TypedPlace {
        place,
        ty: field,
        in_packed: packed,
    })
}

/// The same, by the field's name as it stands in the text.
#[inline(never)]
pub(crate) fn field(
    site: &Site<'_>,
    base: TypedPlace,
    name: Span,
    first: u32,
) -> Result<TypedPlace, CheckFault>
    ensures { Answers result (λ v. variable_of v) (component first name.from (place_of base.place) (type_of base.ty)
        (spelled (context_at site.now).text name)) }
{
    match site.reading.spelling(site.alloc, name) {
        Ok(spelling) => component(base, spelling.as_slice(), first, name.from),
        Err(AllocError) => {
            drop(base);
            Err(CheckFault::OutOfMemory)
        }
    }
}

/// The number of a pointer's type, and the type of the variable identified by a pointer of type `ty`, which begins at
/// `first`.
#[tactic(auto, unfolding(crate::specs::Places::target, ps_tree::specs::View::type_of))]
fn domain_of(site: &Site<'_>, ty: &Ty, first: u32) -> Result<(u32, Ty), CheckFault>
    ensures { (place : Tree.Place) (line : ℕ) → Answers result
        (λ d. record { place = selected place (Tree.Target d.0 line); type = type_of d.1; in_packed = false })
        (target first (context_at site.now).domains place (type_of ty.now) line) }
{
    match ty {
        Ty::Pointer { number } => match site.reading.domains.get(*number as usize) {
            None => Err(wrong_type(first)),
            Some(domain) => Ok((*number, domain.copy()?)),
        },
        Ty::Simple(_)
        | Ty::Nil
        | Ty::Set { .. }
        | Ty::EmptySet
        | Ty::Text { .. }
        | Ty::Array { .. }
        | Ty::Record { .. } => Err(wrong_type(first)),
    }
}

/// The variable identified by a pointer, which begins at `first`; `line` is the line of the `^`.
#[inline(never)]
#[tactic(auto, unfolding(ps_tree::specs::View::selector_of))]
pub(crate) fn target(
    site: &Site<'_>,
    variable: TypedPlace,
    line: Line,
    first: u32,
) -> Result<TypedPlace, CheckFault>
    ensures { Answers result (λ v. variable_of v)
        (target first (context_at site.now).domains (place_of variable.place) (type_of variable.ty) line.number) }
{
    let TypedPlace { place, ty, .. } = variable;
    let (pointer, domain) = domain_of(site, &ty, first)?;
    let place = place.selected(Selector::Target { pointer, line })?;
    Ok(TypedPlace {
        place,
        ty: domain,
        in_packed: false,
    })
}
