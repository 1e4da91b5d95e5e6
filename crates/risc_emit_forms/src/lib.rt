//! Definitions and laws: the words of each instruction of three-address code, and that they do what it means.
//!
//! The functions do nothing when called; each exists for its contract. specs/Forms says which words an instruction has,
//! and specs/Follows what is required of code that contains them.
#![tactic(auto)]

ghost use Rattle.risc_emit_forms.specs.Laws.{StepsFollow, ProgramsAreBuilt};

/// The words of an instruction do what it means, up to the next state or the same ending with the same open calls.
pub fn steps_follow()
    ensures { StepsFollow }
{}

/// What is required of a code and its words can be met.
#[tactic(auto, using(crate::proofs::Example::programs_are_built))]
pub fn programs_are_built()
    ensures { ProgramsAreBuilt }
{}
