//! Laws: how much memory and how many numbers the code of a program takes, and that it keeps the invariant of
//! three-address code.
//!
//! The functions do nothing when called; each exists for its contract.
#![tactic(auto)]

ghost use Rattle.ps_lower_bounds.specs.Fields.{OffsetsAreSmall};
ghost use Rattle.ps_lower_bounds.specs.Laws.{CodeIsSound, WeightsAreSmall};
ghost use Rattle.ps_lower_bounds.specs.Sizes.{RoutinesAreBounded, ObjectsAreBounded};

/// A routine's code takes at most 32 bytes, plus 4 for each of its cells and 64 for each of its nodes.
#[tactic(auto, using(crate::proofs::Routines::sizes_bounded))]
pub fn routines_are_bounded()
    ensures { RoutinesAreBounded }
{}

/// An object takes at most 4 bytes for each cell of its type.
#[tactic(auto, using(crate::proofs::Cells::objects_bounded))]
pub fn objects_are_bounded()
    ensures { ObjectsAreBounded }
{}

/// The code of a program within the limits keeps the invariant of three-address code, if the tree is formed.
pub fn code_is_sound()
    ensures { CodeIsSound }
{}

/// In a program within the limits whose statements fit, every offset and byte count in the code is below 2,147,483,648.
pub fn offsets_are_small()
    ensures { OffsetsAreSmall }
{}

/// If the tree of a program within the limits is formed, no number exceeds 1,000,000,000 while its code is made: no
/// temporary, no byte of the scratch block, no offset and no byte count.
pub fn weights_are_small()
    ensures { WeightsAreSmall }
{}
