// Laws of the definitions. Each is the contract of a function that does nothing when called.

ghost use Rattle.tac_known.specs.Laws.{LeanKeeps, LeanArePassed, UnchangedIsLean, AgainArePassed};

/// Code in which tests that can't fail have the number 0 shows what the original code shows.
pub fn lean_keeps()
    ensures { LeanKeeps }
{}

/// And it may replace that code.
pub fn lean_are_passed()
    ensures { LeanArePassed }
{}

/// Code is a lean version of itself.
pub fn unchanged_is_lean()
    ensures { UnchangedIsLean }
{}

/// Code in which an address or a sum that a temporary holds is copied may replace the original code.
pub fn again_are_passed()
    ensures { AgainArePassed }
{}
