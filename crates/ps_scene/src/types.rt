//! How variables are laid out in memory, by their types.

use ps_tree::tree::{Formal, Routine};
use ps_tree::types::{Ordinal, Ty};

/// The components of an array.
#[derive(Clone, Copy)]
pub struct Components<'a> {
    /// The type of its indices.
    pub index: Ordinal,
    /// The type of each component.
    pub ty: &'a Ty,
    /// The bytes of each.
    pub bytes: u32,
}

/// Whether all values of an ordinal type are bytes.
pub(crate) fn is_byte(ordinal: Ordinal) -> bool {
    0 <= ordinal.low && ordinal.high <= 255
}

// The bytes of a component of an array; 1 if its components are bytes.
fn stride(packed: bool, component: &Ty) -> u32 {
    match component {
        Ty::Simple(ordinal) if packed && is_byte(*ordinal) => 1,
        _ => component.bytes(),
    }
}

/// The components of the variables of a type, if it is an array type.
pub fn components_of(ty: &Ty) -> Option<Components<'_>> {
    match ty {
        Ty::Array {
            packed,
            index,
            component,
            ..
        } => Some(Components {
            index: *index,
            ty: component.ty(),
            bytes: stride(*packed, component.ty()),
        }),
        _ => None,
    }
}

/// The type of a routine's variable, by its number in the map; `None` for a procedural or functional parameter.
pub fn type_of(routine: &Routine, number: usize) -> Option<&Ty> {
    let mut left = number;
    if let Some(ty) = &routine.result {
        if left == 0 {
            return Some(ty);
        }
        left = left.saturating_sub(1);
    }
    match routine.formals.get(left) {
        Some(Formal::Value(ty) | Formal::Variable(ty)) => Some(ty),
        Some(Formal::Routine { .. }) => None,
        None => routine
            .variables
            .get(left.saturating_sub(routine.formals.len())),
    }
}
