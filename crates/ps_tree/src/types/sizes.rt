// How many cells a value of a type takes, and how many bytes.

ghost use Rattle.std.specs.Prelude.{◌≡◌, ◌-◌, ◌^◌, ◌≤◌, min, IfOk, IfSome, option_map, ℕ};
ghost use Rattle.std.specs.Prelude.{List};
ghost use Rattle.ps_tree.specs.Types.{field_list, field_at};
ghost use Rattle.ps_tree.specs.Sizes.{fits_byte, whole_words, cells, record_cells};
ghost use Rattle.ps_tree.specs.Sizes.{bytes, field_bytes, beginnings};
ghost use Rattle.ps_tree.specs.TypeDepth.{deepest};
ghost use Rattle.ps_tree.specs.TypeView.{type_of, types_of};
ghost use Rattle.ps_tree.specs.declared.types.Component.TheDeep.{size-Ty};

use crate::types::Ty;
use std::alloc::{AllocError, Global};

/// The next multiple of four.
fn whole_words(n: u64) -> u64
    requires { n ≤ 2 ^ 32 }
    ensures { result ≡ whole_words n }
{
    4 * ((n + 3) / 4)
}

/// The number, or the largest number of four bytes if it is above that.
fn capped(n: u64) -> u32
    ensures { result ≡ min n (2 ^ 32 - 1) }
{
    if n <= 0xFFFF_FFFF { n as u32 } else { u32::MAX }
}

impl Ty {
    /// Whether all values of the type lie in 0..255.
    #[tactic(auto, unfolding(crate::specs::TypeView::type_of))]
    pub(super) fn fits_byte(&self) -> bool
        ensures { result ≡ fits_byte (type_of self.now) }
    {
        match self {
            Ty::Simple(ordinal) => 0 <= ordinal.low && ordinal.high <= 255,
            Ty::Pointer { .. }
            | Ty::Nil
            | Ty::Set { .. }
            | Ty::EmptySet
            | Ty::Text { .. }
            | Ty::Array { .. }
            | Ty::Record { .. } => false,
        }
    }

    /// The cells of a variable of the type: 1 for an ordinal or a pointer, 8 for a set, for an array its length times
    /// its component's, for a record the sum, or 1 if it has no field. A count of 2^64 or more is returned as 2^64 - 1.
    #[tactic(auto, using(crate::proofs::SizeLemmas::times_capped), unfolding(crate::specs::TypeView::type_of, crate::specs::Sizes::cells))]
    pub fn cells(&self) -> u64
        ensures { result ≡ min (cells (type_of self.now)) (2 ^ 64 - 1) }
    {
        match self {
            Ty::Simple(_) | Ty::Pointer { .. } | Ty::Nil => 1,
            Ty::Set { .. } | Ty::EmptySet => 8,
            Ty::Text { length } => u64::from(*length),
            Ty::Array {
                index,
                component,
                ..
            } => index.value_count().saturating_mul(component.cells()),
            Ty::Record { fields, .. } => fields.cells(),
        }
    }

    /// The bytes of a variable of the type: 4 for an ordinal or a pointer, 32 for a set, for an array its length times
    /// its component's, for a record the sum. A packed array whose components are in 0..255 takes one for each, padded
    /// to a multiple of 4. A count of 2^32 or more is returned as 2^32 - 1.
    #[tactic(auto, using(crate::proofs::SizeLemmas::times_capped), unfolding(crate::specs::TypeView::type_of, crate::specs::Sizes::bytes))]
    pub fn bytes(&self) -> u32
        ensures { result ≡ min (bytes (type_of self.now)) (2 ^ 32 - 1) }
    {
        match self {
            Ty::Simple(_) | Ty::Pointer { .. } | Ty::Nil => 4,
            Ty::Set { .. } | Ty::EmptySet => 32,
            Ty::Text { length } => capped(whole_words(u64::from(*length))),
            Ty::Array {
                packed,
                index,
                component,
                ..
            } => {
                if *packed && component.ty.fits_byte() {
                    capped(whole_words(index.value_count()))
                } else {
                    capped(index.value_count() * u64::from(component.bytes()))
                }
            }
            Ty::Record { fields, .. } => fields.bytes(),
        }
    }
}

/// The cells of a record with fields of these types.
pub(super) fn cells_of_all(types: &[Ty]) -> u64
    ensures { (names : List (List ℕ)) → result ≡ min (record_cells (field_list names (types_of types.now)))
        (2 ^ 64 - 1) }
{
    if types.is_empty() {
        return 1;
    }
    let mut total: u64 = 0;
    for ty in types {
        total = total.saturating_add(ty.cells());
    }
    total
}

/// The bytes of a record with fields of these types.
pub(super) fn bytes_of_all(types: &[Ty]) -> u32
    ensures { result ≡ min (field_bytes (types_of types.now)) (2 ^ 32 - 1) }
{
    let mut total: u32 = 0;
    for ty in types {
        total = total.saturating_add(ty.bytes());
    }
    total
}

/// Where each of the fields of these types begins in a record.
pub(super) fn offsets_of_all(alloc: Global, types: &[Ty]) -> Result<Vec<u32>, AllocError>
    ensures { IfOk result (λ offsets. offsets.items ≡ beginnings (2 ^ 32 - 1) 0 (types_of types.now)) }
{
    let mut offsets = Vec::new(alloc);
    let mut total: u32 = 0;
    for ty in types {
        offsets.push(total)?;
        total = total.saturating_add(ty.bytes());
    }
    Ok(offsets)
}

/// Removes the type with the most cells.
#[tactic(auto, using(crate::proofs::DropLemmas::deepest_left, crate::proofs::DropLemmas::deepest_taken))]
pub(super) fn take_largest(types: &mut Vec<Ty>) -> Option<Ty>
    ensures rest { deepest types.new.items ≤ deepest types.old.items }
    ensures largest { IfSome result (λ ty. size-Ty ty ≤ deepest types.old.items) }
{
    let mut place = 0;
    let mut most = 0;
    for i in 0..types.len() {
        let cells = types[i].cells();
        if most < cells {
            most = cells;
            place = i;
        }
    }
    if place < types.len() {
        Some(types.swap_remove(place))
    } else {
        None
    }
}

#[tactic(auto, using(crate::proofs::FieldLemmas::field_at_place, crate::proofs::FieldLemmas::no_field_above, crate::proofs::FieldLemmas::no_field_past))]
pub(super) fn field_at(types: &[Ty], place: usize) -> Option<(u32, &Ty)>
    ensures { option_map (λ f. (f.0, type_of f.1.now)) result ≡ field_at (types_of types.now) place }
{
    if types.len() <= place || 0xFFFF_FFFF < place {
        return None;
    }
    Some((place as u32, &types[place]))
}
