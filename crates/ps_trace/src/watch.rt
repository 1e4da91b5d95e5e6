//! Observed runs: the machine is shown before each step. An observed run is the same run as an unobserved one.

ghost use Rattle.std.specs.Prelude.{◌≡◌, IfOk, IfErr, IfSome, IfNone, OnErr, true};
ghost use Rattle.std.specs.Io.KnownBytes.{Keeps};
ghost use Rattle.ps_build.specs.Runs.{Runs, RunsImage, IsLoadRefused, IsRunRefused};
ghost use Rattle.ps_build.specs.Slices.{ComesTo, IsLeft, IsRunLeft, IsImageLeft};

use ps_build::{Budget, Ended, Paced, Refusal, outcome_of};
use risc_image::ImageView;
use risc_load::load;
use risc_machine::{DeviceFault, Machine, Stop, run};
use std::alloc::Global;

/// An observer of a run. It sees the machine, and doesn't change it.
pub trait Watch {
    /// The machine as it was loaded, before its first step.
    fn begin(&mut self, machine: &Machine);

    /// The machine before a step.
    fn see(&mut self, machine: &Machine);

    /// The machine as the run left it.
    fn end(&mut self, machine: &Machine, stop: Option<Stop>);
}

// The console pauses after this many steps.
const SLICE: u64 = 1_048_576;

// Makes a pause, if one is due after this many steps.
#[tactic(auto, using(crate::proofs::Watched::kept))]
fn pause_where_due<C: Paced>(console: &mut C, done: u64) -> Result<(), DeviceFault>
    ensures failed { OnErr result (C.has_failed console.new ≡ true) }
    ensures input { Keeps (C.world console.old).input (C.world console.new).input }
    ensures output { Keeps (C.world console.old).output (C.world console.new).output }
    ensures faults { (C.world console.new).faults ≡ (C.world console.old).faults }
{
    if done > 0 && done % SLICE == 0 {
        console.pause()
    } else {
        Ok(())
    }
}

// At most `max_steps` steps, each of them observed. `None` if the console asked the run to stop.
fn run_watched<C: Paced, W: Watch>(
    machine: &mut Machine,
    console: &mut C,
    watch: &mut W,
    max_steps: u64,
) -> Option<Stop>
    ensures stopped { IfSome result (λ stop. ComesTo max_steps machine.old (C.world console.old) machine.new
        (C.world console.new) stop) }
    ensures left { IfNone result (IsLeft max_steps machine.old (C.world console.old) machine.new
        (C.world console.new)) }
    ensures failed { IfNone result (C.has_failed console.new ≡ true) }
{
    let mut done = 0;
    while done < max_steps {
        if pause_where_due(console, done).is_err() {
            return None;
        }
        watch.see(machine);
        let stop = run(machine, console, 1);
        let Stop::Steps = stop else {
            return Some(stop);
        };
        done += 1;
    }
    Some(Stop::Steps)
}

// Runs an image that has been read, and shows it to an observer.
fn run_view_watched<C: Paced, W: Watch>(
    alloc: Global,
    image: &ImageView<'_>,
    budget: Budget,
    console: &mut C,
    watch: &mut W,
    max_steps: u64,
) -> Result<Ended, Refusal>
    ensures runs { IfOk result (λ ended. IfSome ended.outcome
        (Runs image.now budget max_steps (C.world console.old) (C.world console.new))) }
    ensures left { IfOk result (λ ended. IfNone ended.outcome
        (IsRunLeft image.now budget max_steps (C.world console.old) (C.world console.new))) }
    ensures failed { IfOk result (λ ended. IfNone ended.outcome (C.has_failed console.new ≡ true)) }
    ensures refused { IfErr result (IsLoadRefused image.now budget) }
    ensures unchanged { OnErr result (C.world console.new ≡ C.world console.old) }
{
    let mut machine = load(alloc, image, budget)?;
    watch.begin(&machine);
    let Some(stop) = run_watched(&mut machine, console, watch, max_steps) else {
        watch.end(&machine, None);
        return Ok(Ended {
            machine,
            stop: None,
            outcome: None,
        });
    };
    watch.end(&machine, Some(stop));
    let outcome = outcome_of(image, &machine, stop);
    Ok(Ended {
        machine,
        stop: Some(stop),
        outcome: Some(outcome),
    })
}

/// Runs an image as `run_image_to_end` does, and shows the machine to an observer before each step.
///
/// # Errors
///
/// Those of `run_image_to_end`.
pub fn run_image_watched<C: Paced, W: Watch>(
    alloc: Global,
    image: &[u8],
    budget: Budget,
    console: &mut C,
    watch: &mut W,
    max_steps: u64,
) -> Result<Ended, Refusal>
    ensures runs { IfOk result (λ ended. IfSome ended.outcome
        (RunsImage image.now budget max_steps (C.world console.old) (C.world console.new))) }
    ensures left { IfOk result (λ ended. IfNone ended.outcome
        (IsImageLeft image.now budget max_steps (C.world console.old) (C.world console.new))) }
    ensures failed { IfOk result (λ ended. IfNone ended.outcome (C.has_failed console.new ≡ true)) }
    ensures refused { IfErr result (IsRunRefused image.now budget) }
    ensures unchanged { OnErr result (C.world console.new ≡ C.world console.old) }
{
    let view = match ImageView::read(image) {
        Ok(view) => view,
        Err(refusal) => return Err(Refusal::from(refusal)),
    };
    run_view_watched(alloc, &view, budget, console, watch, max_steps)
}
