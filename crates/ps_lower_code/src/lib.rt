//! Definitions: the three-address code of each construct of the checked tree.
#![tactic(auto)]

ghost use Rattle.ps_lower_code.specs.Laws.{HeldAbove, KeptAbove};

/// A temporary chosen to hold a value is at the depth or above it.
#[tactic(auto, using(crate::proofs::Depths::held_above))]
pub fn held_above()
    ensures { HeldAbove }
{}

/// The same, if a temporary of either class will do.
#[tactic(auto, using(crate::proofs::Depths::kept_above))]
pub fn kept_above()
    ensures { KeptAbove }
{}
