//! Laws: how the meaning's world and the memory of three-address code belong together.
//!
//! The functions do nothing when called; each exists for its contract.
#![tactic(auto)]

ghost use Rattle.ps_lower_relation.specs.Laws.{PartsAreSpans};

/// Each part of a variable is a stretch of its words, both when read and when written.
#[tactic(auto, using(crate::proofs::Spans::span_in))]
pub fn parts_are_spans()
    ensures { PartsAreSpans }
{}
