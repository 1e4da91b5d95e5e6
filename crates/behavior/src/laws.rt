// Laws of the definitions. Each is the contract of a function that does nothing when called.

ghost use Rattle.behavior.specs.Laws.{OutputAppends, SameReflexive, SameComposes, SameIsWritten, SameHasConverse};
ghost use Rattle.behavior.specs.Laws.{SameEndsAlike, StopsCarryOver};

/// The output of two transcripts, one after the other, is the output of each in turn.
pub fn output_appends()
    ensures { OutputAppends }
{}

/// A family is the same as itself.
#[tactic(auto, using(crate::proofs::Sameness::same_reflexive))]
pub fn same_is_reflexive()
    ensures { SameReflexive }
{}

/// Sameness is transitive: this is how one layer of the compiler is put on another.
pub fn same_composes()
    ensures { SameComposes }
{}

/// Runs that show the same write the same and end alike.
#[tactic(auto, using(crate::proofs::Sameness::same_is_written))]
pub fn same_is_written()
    ensures { SameIsWritten }
{}

/// If b grows and is the same as a, then a shows whatever b shows.
#[tactic(auto, using(crate::proofs::Sameness::same_has_converse))]
pub fn same_has_converse()
    ensures { SameHasConverse }
{}

/// If b grows and is the same as a, each ending of b is one of a.
#[tactic(auto, using(crate::proofs::Sameness::same_ends_alike))]
pub fn same_ends_alike()
    ensures { SameEndsAlike }
{}

/// If two runs are the same, and the first is a third run that may be stopped, then so is the second.
pub fn stops_carry_over()
    ensures { StopsCarryOver }
{}
