//! Laws: what straight lines of code, branches, the device page and stops do to the machine, over views of its state.
//!
//! For proofs about code that is emitted. The functions do nothing when called; each exists for its contract.
//! proofs/Example.antt shows how the laws are used: the lemmas behind them, such as `line_to`, `way_line`, `put_to` and
//! `shows_start`, are public in proofs/.
#![tactic(auto)]

ghost use Rattle.risc_machine_laws.specs.Laws.{StraightLinesRun, AnyLinesRun, BranchesRun, PutsRun, TakesRun, StopsRun};
ghost use Rattle.risc_machine_laws.specs.Laws.{LoadedStateShows};
ghost use Rattle.risc_machine_laws.specs.Numbers.{NumberLaws};

/// A straight line of plain instructions reaches the view that evaluates it.
pub fn straight_lines_run()
    ensures { StraightLinesRun }
{}

/// A straight line of any number of plain instructions, possibly none, reaches the view that evaluates it.
pub fn any_lines_run()
    ensures { AnyLinesRun }
{}

/// A branch goes to its target if its condition holds, otherwise to the next instruction.
pub fn branches_run()
    ensures { BranchesRun }
{}

/// A word stored at the device page's third word puts its lowest byte.
pub fn puts_run()
    ensures { PutsRun }
{}

/// A load of the device page's third word takes the next byte, or the end of the input.
pub fn takes_run()
    ensures { TakesRun }
{}

/// A word stored at the device page's second word stops the machine with that word, one place further on.
pub fn stops_run()
    ensures { StopsRun }
{}

/// The loaded machine shows the view of its start.
pub fn loaded_state_shows()
    ensures { LoadedStateShows }
{}

/// What results and flags say about the signed numbers that the words represent.
pub fn numbers_as_words()
    ensures { NumberLaws }
{}
