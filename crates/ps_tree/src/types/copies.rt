// Copies of types, which share their components and their fields.

ghost use Rattle.std.specs.Prelude.{◌≡◌, IfOk};
ghost use Rattle.ps_tree.specs.TypeView.{type_of};

use crate::types::Ty;
use std::alloc::AllocError;

impl Ty {
    /// The same type.
    #[tactic(auto, unfolding(crate::specs::TypeView::type_of))]
    pub fn copy(&self) -> Result<Ty, AllocError>
        ensures { IfOk result (λ ty. type_of ty ≡ type_of self.now) }
    {
        match self {
            Ty::Simple(ordinal) => Ok(Ty::Simple(*ordinal)),
            Ty::Pointer { number } => Ok(Ty::Pointer { number: *number }),
            Ty::Nil => Ok(Ty::Nil),
            Ty::Set { at, packing, base } => Ok(Ty::Set {
                at: *at,
                packing: *packing,
                base: *base,
            }),
            Ty::EmptySet => Ok(Ty::EmptySet),
            Ty::Text { length } => Ok(Ty::Text { length: *length }),
            Ty::Array {
                at,
                packed,
                index,
                component,
            } => Ok(Ty::Array {
                at: *at,
                packed: *packed,
                index: *index,
                component: component.clone()?,
            }),
            Ty::Record { at, packed, fields } => Ok(Ty::Record {
                at: *at,
                packed: *packed,
                fields: fields.clone()?,
            }),
        }
    }
}
