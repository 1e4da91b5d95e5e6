//! Definitions and laws: how much stack a checked program needs, whatever its input is.
//!
//! The functions do nothing when called; each exists for its contract.
#![tactic(auto)]

ghost use Rattle.ps_needs.specs.Laws.{NeedsEnough};

/// If the stack can hold the frames of each path of calls of an accepted program, no run is stopped for stack.
pub fn needs_enough()
    ensures { NeedsEnough }
{}
