//! Laws: the image that was made of three-address code does what the code means, in whole runs.
//!
//! The functions do nothing when called; each exists for its contract. specs/Emits says what is required of the image,
//! and specs/Outcome what a loaded image shows.
#![tactic(auto)]

ghost use Rattle.risc_emit_laws.specs.Laws.{EmissionKeeps, DrawnEmits, TabledIsFormed, WithoutCalls};

/// The loaded image does what the code means.
pub fn emission_keeps()
    ensures { EmissionKeeps }
{}

/// An image that is built from pieces is the code's.
pub fn drawn_emits()
    ensures { DrawnEmits }
{}

/// An image with such tables is well formed.
pub fn tabled_is_formed()
    ensures { TabledIsFormed }
{}

/// An image without a table of calls reports no open calls.
#[tactic(auto, using(crate::proofs::Same::without_calls))]
pub fn without_calls()
    ensures { WithoutCalls }
{}
