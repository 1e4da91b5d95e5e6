// Laws of runs. Each function does nothing when called.

ghost use Rattle.risc_machine.specs.Laws.{ExecGrows, RunsFollowExec};

/// With more steps a run over plain lists only grows: its transcript goes on, and an ending that has come stays.
#[tactic(auto, using(crate::proofs::Growth::exec_grows))]
pub fn exec_grows()
    ensures { ExecGrows }
{}

/// Every run over a console that reports its bytes follows the run over plain lists, from any tape with the console's
/// input.
#[tactic(auto, using(crate::proofs::Following::runs_follow_exec))]
pub fn runs_follow_exec()
    ensures { RunsFollowExec }
{}
