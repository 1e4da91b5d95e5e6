//! Laws of images and refusals, as the contracts of functions that do nothing when called.

ghost use Rattle.ps_build.specs.Laws.{ComesToTheMeaning, NeverFaults, GoesWithoutFault, CodeDoes};
ghost use Rattle.ps_build.specs.Laws.{PassedCodeDoes, MadeCompiles, FramesAreOfTheText};
ghost use Rattle.ps_build.specs.OneRefusal.{RefusalsAreOne};

use ps_lower_accepted::accepted_fit;
use ps_lower_laws::{programs_go_on, programs_lower_in_turns};
use ps_lower_run_time::writes_are_done;

/// An image that was built shows everything that its program means without budgets, or is stopped for stack or heap on
/// the way; and what it shows is what the program shows, or a prefix of it.
pub fn comes_to_the_meaning()
    ensures { ComesToTheMeaning }
{}

/// An image that was built never reaches a machine fault, under any budget and on any input: the processor can always
/// go on, and the link of every stop is in the image's trap table.
pub fn never_faults()
    ensures { NeverFaults }
{
    accepted_fit();
    code_does();
}

/// So `go` never returns `Outcome::Fault`, on a console that reports its bytes.
pub fn goes_without_fault()
    ensures { GoesWithoutFault }
{
    never_faults();
}

/// The three-address code of a program that has everything that the lowering needs does what the program means, and
/// there is a next step wherever it has not reached its end.
pub fn code_does()
    ensures { CodeDoes }
{
    writes_are_done();
    programs_lower_in_turns();
    programs_go_on();
}

/// So does code made from it by a pass that may replace it.
pub fn passed_code_does()
    ensures { PassedCodeDoes }
{
    writes_are_done();
    programs_lower_in_turns();
    programs_go_on();
}

/// An image made from code that does what a program means, with homes for its temporaries, does what the program means.
pub fn made_compiles()
    ensures { MadeCompiles }
{}

/// An activation takes the same bytes in every image of a text: whether variables are in temporaries or in frames
/// changes no stop for want of stack.
pub fn frames_are_of_the_text()
    ensures { FramesAreOfTheText }
{}

/// For a text that isn't accepted only one refusal can be reported, except out of memory: the text determines its
/// number and place.
#[tactic(auto, using(crate::proofs::OneRefusal::refusals_are_one))]
pub fn refusals_are_one()
    ensures { RefusalsAreOne }
{}
