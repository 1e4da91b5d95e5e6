//! Laws: the code of a whole program does what the program means.
//!
//! The functions do nothing when called; each exists for its contract.
#![tactic(auto)]

ghost use Rattle.ps_lower_laws.specs.Lowers.{ProgramsLower, ProgramsLowerInTurns, ProgramsGoOn};

/// The code of a program shows what the program shows, under any costs and budgets and on any input of bytes.
pub fn programs_lower()
    ensures { ProgramsLower }
{}

/// It shows that in turns, so code that a pass makes of it shows it too.
pub fn programs_lower_in_turns()
    ensures { ProgramsLowerInTurns }
{}

/// The code of a program has a next step wherever it has not reached its end.
pub fn programs_go_on()
    ensures { ProgramsGoOn }
{}
