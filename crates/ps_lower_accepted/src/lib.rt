//! Laws: every checked program that the rules accept has what the lowering needs.
//!
//! The functions do nothing when called; each exists for its contract.
#![tactic(auto)]

ghost use Rattle.ps_lower_accepted.specs.Laws.{AcceptedFit, AcceptedFormed};

/// Each part of a checked program has the form that its place requires, and the program keeps the limits of the
/// lowering.
pub fn accepted_fit()
    ensures { AcceptedFit }
{}

/// A checked program is within the limits, its statements fit, its routines have lines and its variables have first
/// values, so that no number in its code is too large.
pub fn accepted_are_formed()
    ensures { AcceptedFormed }
{}
