//! Runs in slices, between which a console does the work that it has put off.

ghost use Rattle.std.specs.Prelude.{◌≡◌, ◌<◌, Bool, true, IfOk, IfErr, IfSome, IfNone, OnErr};
ghost use Rattle.std.specs.Io.KnownBytes.{Keeps};
ghost use Rattle.ps_build.specs.Runs.{Runs, RunsImage, IsLoadRefused, IsRunRefused};
ghost use Rattle.ps_build.specs.Goes.{Goes, IsGoRefused};
ghost use Rattle.ps_build.specs.Slices.{ComesTo, IsLeft, IsRunLeft, IsImageLeft, IsGoLeft};

use crate::built::build;
use crate::outcome::Outcome;
use crate::refusal::Refusal;
use crate::run::outcome_of;
use risc_image::ImageView;
use risc_load::{Budget, load};
use risc_machine::{Console, DeviceFault, Machine, Stop, run};
use std::alloc::Global;

/// A console that puts off some of its work, such as passing on its output, and is asked to do it between the slices of
/// a run.
pub trait Paced: Console {
    // It has failed to do some work that it had put off.
    ghost has_failed: { Self → Bool };

    /// Does the work that was put off. What was read and written stays as it is; a fault asks the run to stop.
    fn pause(&mut self) -> Result<(), DeviceFault>
        ensures failed { OnErr result (has_failed self.new ≡ true) }
        ensures input { Keeps (Self.world self.old).input (Self.world self.new).input }
        ensures output { Keeps (Self.world self.old).output (Self.world self.new).output }
        ensures faults { (Self.world self.new).faults ≡ (Self.world self.old).faults };
}

// The steps of a slice, which take about 10 ms.
const SLICE: u64 = 1_000_000;

// At most `max_steps` steps, in slices of `slice`. `None` if the console asked the run to stop.
fn run_in_slices<C: Paced>(
    machine: &mut Machine,
    console: &mut C,
    max_steps: u64,
    slice: u64,
) -> Option<Stop>
    requires { 0 < slice }
    ensures stopped { IfSome result (λ stop. ComesTo max_steps machine.old (C.world console.old) machine.new
        (C.world console.new) stop) }
    ensures left { IfNone result (IsLeft max_steps machine.old (C.world console.old) machine.new
        (C.world console.new)) }
    ensures failed { IfNone result (C.has_failed console.new ≡ true) }
{
    let mut done = 0;
    while max_steps - done > slice {
        let stop = run(machine, console, slice);
        let Stop::Steps = stop else {
            return Some(stop);
        };
        done += slice;
        if console.pause().is_err() {
            return None;
        }
    }
    Some(run(machine, console, max_steps - done))
}

/// How a run ended, with the machine as the run left it.
#[derive(Drop)]
pub struct Ended {
    pub machine: Machine,
    /// `None` if a fault at a pause ended the run; the outcome is then `None` too.
    pub stop: Option<Stop>,
    pub outcome: Option<Outcome>,
}

// Runs an image that has been read.
fn run_view_to_end<C: Paced>(
    alloc: Global,
    image: &ImageView<'_>,
    budget: Budget,
    console: &mut C,
    max_steps: u64,
) -> Result<Ended, Refusal>
    ensures runs { IfOk result (λ ended. IfSome ended.outcome
        (Runs image.now budget max_steps (C.world console.old) (C.world console.new))) }
    ensures left { IfOk result (λ ended. IfNone ended.outcome
        (IsRunLeft image.now budget max_steps (C.world console.old) (C.world console.new))) }
    ensures failed { IfOk result (λ ended. IfNone ended.outcome (C.has_failed console.new ≡ true)) }
    ensures refused { IfErr result (IsLoadRefused image.now budget) }
    ensures unchanged { OnErr result (C.world console.new ≡ C.world console.old) }
{
    let mut machine = load(alloc, image, budget)?;
    let Some(stop) = run_in_slices(&mut machine, console, max_steps, SLICE) else {
        return Ok(Ended {
            machine,
            stop: None,
            outcome: None,
        });
    };
    let outcome = outcome_of(image, &machine, stop);
    Ok(Ended {
        machine,
        stop: Some(stop),
        outcome: Some(outcome),
    })
}

// How a run of an image that has been read ends.
fn run_view_in_slices<C: Paced>(
    alloc: Global,
    image: &ImageView<'_>,
    budget: Budget,
    console: &mut C,
    max_steps: u64,
) -> Result<Option<Outcome>, Refusal>
    ensures runs { IfOk result (λ end. IfSome end
        (Runs image.now budget max_steps (C.world console.old) (C.world console.new))) }
    ensures left { IfOk result (λ end. IfNone end
        (IsRunLeft image.now budget max_steps (C.world console.old) (C.world console.new))) }
    ensures failed { IfOk result (λ end. IfNone end (C.has_failed console.new ≡ true)) }
    ensures refused { IfErr result (IsLoadRefused image.now budget) }
    ensures unchanged { OnErr result (C.world console.new ≡ C.world console.old) }
{
    let ended = run_view_to_end(alloc, image, budget, console, max_steps)?;
    Ok(ended.outcome)
}

/// Runs an image as `run_image_in_slices` does, and returns the machine as the run left it.
pub fn run_image_to_end<C: Paced>(
    alloc: Global,
    image: &[u8],
    budget: Budget,
    console: &mut C,
    max_steps: u64,
) -> Result<Ended, Refusal>
    ensures runs { IfOk result (λ ended. IfSome ended.outcome
        (RunsImage image.now budget max_steps (C.world console.old) (C.world console.new))) }
    ensures left { IfOk result (λ ended. IfNone ended.outcome
        (IsImageLeft image.now budget max_steps (C.world console.old) (C.world console.new))) }
    ensures failed { IfOk result (λ ended. IfNone ended.outcome (C.has_failed console.new ≡ true)) }
    ensures refused { IfErr result (IsRunRefused image.now budget) }
    ensures unchanged { OnErr result (C.world console.new ≡ C.world console.old) }
{
    let view = match ImageView::read(image) {
        Ok(view) => view,
        Err(refusal) => return Err(Refusal::from(refusal)),
    };
    run_view_to_end(alloc, &view, budget, console, max_steps)
}

/// Runs an image as `run_image` does, with a pause of the console after each million steps.
///
/// `None` if a fault at a pause ended the run: the console is then as the image leaves it after fewer steps.
pub fn run_image_in_slices<C: Paced>(
    alloc: Global,
    image: &[u8],
    budget: Budget,
    console: &mut C,
    max_steps: u64,
) -> Result<Option<Outcome>, Refusal>
    ensures runs { IfOk result (λ end. IfSome end
        (RunsImage image.now budget max_steps (C.world console.old) (C.world console.new))) }
    ensures left { IfOk result (λ end. IfNone end
        (IsImageLeft image.now budget max_steps (C.world console.old) (C.world console.new))) }
    ensures failed { IfOk result (λ end. IfNone end (C.has_failed console.new ≡ true)) }
    ensures refused { IfErr result (IsRunRefused image.now budget) }
    ensures unchanged { OnErr result (C.world console.new ≡ C.world console.old) }
{
    let ended = run_image_to_end(alloc, image, budget, console, max_steps)?;
    Ok(ended.outcome)
}

/// Builds the program of a text and runs it as `go` does, with a pause of the console after each million steps.
///
/// `None` if a fault at a pause ended the run: the console is then as the program's image leaves it after fewer steps.
pub fn go_in_slices<C: Paced>(
    alloc: Global,
    text: &[u8],
    budget: Budget,
    console: &mut C,
    max_steps: u64,
) -> Result<Option<Outcome>, Refusal>
    ensures runs { IfOk result (λ end. IfSome end
        (Goes text.now budget max_steps (C.world console.old) (C.world console.new))) }
    ensures left { IfOk result (λ end. IfNone end
        (IsGoLeft text.now budget max_steps (C.world console.old) (C.world console.new))) }
    ensures failed { IfOk result (λ end. IfNone end (C.has_failed console.new ≡ true)) }
    ensures refused { IfErr result (IsGoRefused text.now budget) }
    ensures unchanged { OnErr result (C.world console.new ≡ C.world console.old) }
{
    let built = match build(alloc, text) {
        Ok(built) => built,
        Err(refusal) => return Err(refusal),
    };
    let view = match ImageView::read(built.bytes()) {
        Ok(view) => view,
        Err(refusal) => return Err(Refusal::from(refusal)),
    };
    run_view_in_slices(alloc, &view, budget, console, max_steps)
}
