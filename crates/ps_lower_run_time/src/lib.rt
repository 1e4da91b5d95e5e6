//! Laws: the run-time routines do what the lowering requires of them.
//!
//! The functions do nothing when called; each exists for its contract.
#![tactic(auto)]

ghost use Rattle.ps_lower_run_time.specs.Laws.{WritesAreDone};

/// The routines that write and read, and the one that copies words, do what the lowering requires, after any program
/// (6.9).
pub fn writes_are_done()
    ensures { WritesAreDone }
{}
