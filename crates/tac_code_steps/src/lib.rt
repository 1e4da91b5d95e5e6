//! Laws: an equation for each instruction of three-address code, the composition of runs, and stretches of words.
//!
//! For code that lowers to three-address code. The functions do nothing when called; each exists for its contract.
#![tactic(auto)]

ghost use Rattle.tac_code_steps.specs.Laws.{InTurnsIsSame, SplicesApart, SplicesWithin};

/// Code that shows a family in turns runs as the family does.
#[tactic(auto, using(crate::proofs::Counting::in_turns_is_same))]
pub fn in_turns_is_same()
    ensures { InTurnsIsSame }
{}

/// Two disjoint stretches of words may be replaced in either order.
#[tactic(auto, using(crate::proofs::Splices::spliced_past))]
pub fn splices_apart()
    ensures { SplicesApart }
{}

/// Replacing a stretch within one that was just replaced is the same as replacing it first.
#[tactic(auto, using(crate::proofs::Splices::spliced_within))]
pub fn splices_within()
    ensures { SplicesWithin }
{}
