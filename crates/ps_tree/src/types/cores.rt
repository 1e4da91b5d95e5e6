// The part of a type that holds its variables' bytes.

ghost use Rattle.std.specs.Prelude.{◌≡◌, IfOk};
ghost use Rattle.ps_tree.specs.Cores.{is_single, sole, core_of, cores_of};
ghost use Rattle.ps_tree.specs.TypeView.{type_of, types_of};

use crate::types::{Component, Ordinal, Ty};
use std::alloc::{AllocError, Global};

/// Whether it is an array of one component, which takes whole words.
#[tactic(auto, using(crate::proofs::CoreLemmas::some_bytes, crate::proofs::CoreLemmas::no_bytes))]
fn is_single(packed: bool, index: Ordinal, component: &Component) -> bool
    ensures { result ≡ is_single packed index component.now }
{
    index.value_count() == 1 && !(packed && component.ty.fits_byte()) && component.byte_count != 0
}

/// The only one of these types, if there is just one, otherwise the other type.
#[tactic(auto, using(crate::proofs::CoreLemmas::sole_one, crate::proofs::CoreLemmas::sole_other))]
fn sole<'a>(types: &'a [Ty], other: &'a Ty) -> &'a Ty
    ensures { type_of result.now ≡ sole (types_of types.now) (type_of other.now) }
{
    if types.len() == 1 { &types[0] } else { other }
}

impl Ty {
    /// The part of the type that holds its variables' bytes: if only one component of an array or one field of a record
    /// takes any, it is that one, and so on. The first value of a variable has the core's bytes.
    #[tactic(auto, unfolding(crate::specs::TypeView::type_of, crate::specs::Cores::core_of))]
    pub fn core(&self) -> &Ty
        ensures { type_of result.now ≡ core_of (type_of self.now) }
    {
        match self {
            Ty::Array {
                packed,
                index,
                component,
                ..
            } => {
                if is_single(*packed, *index, component) {
                    component.core()
                } else {
                    self
                }
            }
            Ty::Record { fields, .. } => sole(fields.solid(), self),
            Ty::Simple(_)
            | Ty::Pointer { .. }
            | Ty::Nil
            | Ty::Set { .. }
            | Ty::EmptySet
            | Ty::Text { .. } => self,
        }
    }
}

/// The cores of those of the types that take bytes, in their order.
pub(super) fn cores_of_all(alloc: Global, types: &[Ty]) -> Result<Vec<Ty>, AllocError>
    ensures { IfOk result (λ solid. types_of solid.items ≡ cores_of (types_of types.now)) }
{
    let mut solid = Vec::new(alloc);
    for ty in types {
        if ty.bytes() != 0 {
            solid.push(ty.core().copy()?)?;
        }
    }
    Ok(solid)
}
