//! Laws: three-address code made by a pass may replace the original code.
//!
//! They are for a pass between a lowering and an emission. The functions do nothing when called; each exists for its
//! contract.
#![tactic(auto)]

ghost use Rattle.tac_pass_laws.specs.Laws.{PlannedArePassed, UnchangedArePassed, PassesCompose, PassedDoes};

/// Code made by plans may replace the original code.
pub fn planned_are_passed()
    ensures { PlannedArePassed }
{}

/// So may code in its own place.
pub fn unchanged_are_passed()
    ensures { UnchangedArePassed }
{}

/// So may code that may replace such code.
pub fn passes_compose()
    ensures { PassesCompose }
{}

/// If the old code shows a family in turns, the new code's run is the same as the family, and is never stuck.
pub fn passed_does()
    ensures { PassedDoes }
{}
