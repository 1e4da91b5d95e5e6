//! Laws: the frame that a call binds, and how the code of the routine's entry places it.
//!
//! The functions do nothing when called; each exists for its contract.
#![tactic(auto)]

ghost use Rattle.ps_lower_calls.specs.Laws.{FirstsArePlaced};

/// The code of a variable's first value places the words of that value.
#[tactic(auto, using(crate::proofs::First::firsts_placed))]
pub fn firsts_are_placed()
    ensures { FirstsArePlaced }
{}
