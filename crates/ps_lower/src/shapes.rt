// How the variables of a type are laid out in memory.

ghost use Rattle.std.specs.Prelude.{◌≡◌, ◌≤◌};
ghost use Rattle.ps_lower_code.specs.Values.{literal_of, steps_before, known_steps, is_byte_array};
ghost use Rattle.ps_lower_layout.specs.Shapes.{shape_of, byte_count, component_bytes, field_offset};
ghost use Rattle.ps_meaning.specs.Expressions.{index_of};
ghost use Rattle.ps_lower_bounds.specs.Weights.{steps_reach};
ghost use Rattle.ps_tree.specs.Sizes.{fits_byte};
ghost use Rattle.ps_tree.specs.View.{type_of, expr_of};

use crate::depth::MAX_NUMBER;
use crate::known::{is_between, literal};
use ps_tree::tree::Expr;
use ps_tree::types::{Host, Ordinal, Ty};

/// The bytes of a variable.
pub fn byte_count(ty: &Ty) -> u32
    requires { byte_count (shape_of (type_of ty.now)) ≤ MAX_NUMBER }
    ensures { result ≡ byte_count (shape_of (type_of ty.now)) }
{
    ty.bytes()
}

/// Whether all values of a type are in 0..255.
#[tactic(auto, unfolding(ps_tree::specs::TypeView::type_of))]
pub fn fits_byte(ty: &Ty) -> bool
    ensures { result ≡ fits_byte (type_of ty.now) }
{
    match ty {
        Ty::Simple(ordinal) => 0 <= ordinal.low && ordinal.high <= 255,
        _ => false,
    }
}

/// An array whose components are bytes.
#[tactic(auto, unfolding(ps_tree::specs::TypeView::type_of))]
pub fn is_byte_array(ty: &Ty) -> bool
    ensures { result ≡ is_byte_array (shape_of (type_of ty.now)) }
{
    match ty {
        Ty::Text { .. } => true,
        Ty::Array {
            packed,
            component,
            ..
        } => *packed && fits_byte(component.ty()),
        _ => false,
    }
}

/// The bytes that each component of an array takes.
#[tactic(auto, unfolding(ps_tree::specs::TypeView::type_of))]
pub fn component_bytes(ty: &Ty) -> u32
    requires { component_bytes (shape_of (type_of ty.now)) ≤ MAX_NUMBER }
    ensures { result ≡ component_bytes (shape_of (type_of ty.now)) }
{
    match ty {
        Ty::Text { .. } => 1,
        Ty::Array {
            packed,
            component,
            ..
        } => {
            if *packed && fits_byte(component.ty()) {
                1
            } else {
                byte_count(component.ty())
            }
        }
        _ => 0,
    }
}

/// The type of an array's index.
#[tactic(auto, unfolding(ps_tree::specs::TypeView::type_of))]
pub fn index_of(ty: &Ty) -> Ordinal
    ensures { result ≡ index_of (type_of ty.now) }
{
    match ty {
        Ty::Array { index, .. } => *index,
        _ => Ordinal {
            host: Host::Integer,
            subrange: None,
            low: 0,
            high: 0,
        },
    }
}

/// The bytes before a component whose index is known and in its range.
fn steps_before(ty: &Ty, index: i32) -> Option<u32>
    requires width { component_bytes (shape_of (type_of ty.now)) ≤ MAX_NUMBER }
    requires reach { steps_reach (steps_before (type_of ty.now) index) ≤ MAX_NUMBER }
    ensures { result ≡ steps_before (type_of ty.now) index }
{
    let range = index_of(ty);
    if !is_between(range.low, index, range.high) {
        return None;
    }
    Some(index.abs_diff(range.low) * component_bytes(ty))
}

/// The same for an index that may not be known.
pub fn known_steps(ty: &Ty, index: &Expr) -> Option<u32>
    requires width { component_bytes (shape_of (type_of ty.now)) ≤ MAX_NUMBER }
    requires reach { steps_reach (known_steps (type_of ty.now) (literal_of (expr_of index.now))) ≤ MAX_NUMBER }
    ensures { result ≡ known_steps (type_of ty.now) (literal_of (expr_of index.now)) }
{
    match literal(index) {
        None => None,
        Some(number) => steps_before(ty, number),
    }
}

/// Where a field of a record begins, in bytes.
#[tactic(auto, using(crate::proofs::Shaped::offset_told), unfolding(ps_tree::specs::TypeView::type_of))]
pub fn field_offset(ty: &Ty, number: u32) -> u32
    requires { field_offset (shape_of (type_of ty.now)) number ≤ MAX_NUMBER }
    ensures { result ≡ field_offset (shape_of (type_of ty.now)) number }
{
    match ty {
        Ty::Record { fields, .. } => fields.offset(number),
        _ => 0,
    }
}
