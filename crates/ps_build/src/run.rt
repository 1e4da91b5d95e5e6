//! Runs of images over a console.

ghost use Rattle.std.specs.Prelude.{◌≡◌, option_map, IfOk, IfErr, OnErr};
ghost use Rattle.risc_load.specs.Shows.{trap_row};
ghost use Rattle.ps_build.specs.Runs.{trap_told, IsToldBy, Runs, RunsImage, IsLoadRefused, IsRunRefused};
ghost use Rattle.ps_build.specs.Goes.{Goes, IsGoRefused};

use crate::built::build;
use crate::outcome::{FaultKind, Outcome};
use crate::refusal::Refusal;
use risc_emit_trail::{Trail, trail};
use risc_image::{ImageView, TrapRow};
use risc_load::{Budget, load};
use risc_machine::{Console, Machine, Stop, run};
use std::alloc::Global;

// The outcome of a stop with this row and these open calls.
fn trap_outcome(row: Option<TrapRow>, trail: Option<Trail>) -> Outcome
    ensures { result ≡ trap_told (option_map trap_row row) trail }
{
    let Some(TrapRow { error, line, .. }) = row else {
        return Outcome::Fault(FaultKind::UnknownTrap);
    };
    match error {
        12 => Outcome::Stack {
            number: error,
            line,
        },
        13 => Outcome::Heap {
            number: error,
            line,
        },
        _ => Outcome::Error {
            number: error,
            line,
            trail,
        },
    }
}

/// The outcome of a stop in which an image's machine was left: how the run ended, and for an error its number, its line
/// and the open calls, according to the image's tables.
#[tactic(auto, using(crate::proofs::Rows::row_of_link))]
pub fn outcome_of(image: &ImageView<'_>, machine: &Machine, stop: Stop) -> Outcome
    ensures { IsToldBy image.now machine.now stop result }
{
    match stop {
        Stop::Normal => Outcome::Normal,
        Stop::Trap(link) => trap_outcome(image.trap_of(link), trail(machine, image)),
        Stop::Steps => Outcome::Steps,
        Stop::InputFault => Outcome::InputFault,
        Stop::OutputFault => Outcome::OutputFault,
        Stop::Fault(fault) => Outcome::Fault(FaultKind::from(fault)),
    }
}

// Runs an image that has been read.
fn run_view<C: Console>(
    alloc: Global,
    image: &ImageView<'_>,
    budget: Budget,
    console: &mut C,
    max_steps: u64,
) -> Result<Outcome, Refusal>
    ensures runs { IfOk result (Runs image.now budget max_steps (C.world console.old) (C.world console.new)) }
    ensures refused { IfErr result (IsLoadRefused image.now budget) }
    ensures unchanged { OnErr result (C.world console.new ≡ C.world console.old) }
{
    let mut machine = load(alloc, image, budget)?;
    let stop = run(&mut machine, console, max_steps);
    Ok(outcome_of(image, &machine, stop))
}

/// Runs an image on a console for at most `max_steps` steps.
///
/// An image that fails the checks of the format is refused with the fault they find, a budget with BudgetUneven or
/// BudgetTooLarge; the console is then unchanged.
pub fn run_image<C: Console>(
    alloc: Global,
    image: &[u8],
    budget: Budget,
    console: &mut C,
    max_steps: u64,
) -> Result<Outcome, Refusal>
    ensures runs { IfOk result (RunsImage image.now budget max_steps (C.world console.old) (C.world console.new)) }
    ensures refused { IfErr result (IsRunRefused image.now budget) }
    ensures unchanged { OnErr result (C.world console.new ≡ C.world console.old) }
{
    let view = match ImageView::read(image) {
        Ok(view) => view,
        Err(refusal) => return Err(Refusal::from(refusal)),
    };
    run_view(alloc, &view, budget, console, max_steps)
}

/// Builds the program of a text and runs it on a console for at most `max_steps` steps: the output and the outcome are
/// what the program means under the budget, as far as the steps reach.
///
/// What `build` refuses is refused, and so is a wrong budget; the console is then unchanged.
pub fn go<C: Console>(
    alloc: Global,
    text: &[u8],
    budget: Budget,
    console: &mut C,
    max_steps: u64,
) -> Result<Outcome, Refusal>
    ensures runs { IfOk result (Goes text.now budget max_steps (C.world console.old) (C.world console.new)) }
    ensures refused { IfErr result (IsGoRefused text.now budget) }
    ensures unchanged { OnErr result (C.world console.new ≡ C.world console.old) }
{
    let built = match build(alloc, text) {
        Ok(built) => built,
        Err(refusal) => return Err(refusal),
    };
    let view = match ImageView::read(built.bytes()) {
        Ok(view) => view,
        Err(refusal) => return Err(Refusal::from(refusal)),
    };
    run_view(alloc, &view, budget, console, max_steps)
}
