//! Runs with a reader and a writer, and the end that is reported for them.

ghost use Rattle.std.specs.Prelude.{◌≡◌, ◌⊎◌, IfOk, IfErr, IfNone, OnErr, true};
ghost use Rattle.std.specs.Io.KnownBytes.{Keeps};
ghost use Rattle.ps_build.specs.Accepts.{IsRefused};
ghost use Rattle.ps_build.specs.Runs.{IsRunRefused};
ghost use Rattle.ps_build.specs.declared.refusal.Refusal.TheVariants.{OutOfMemory};
ghost use Rattle.ps_build.specs.Goes.{IsGoRefused};
ghost use Rattle.pascal_session.specs.Console.{input_of, held_of, has_failed, faults_of, output_of, console_world};
ghost use Rattle.pascal_cli.specs.Runs.{IsSettled, GoesThrough, RunsThrough};

use pascal_session::BlockConsole;
use ps_build::{
    Budget, Ended, Outcome, Refusal, go_in_slices, run_image_in_slices, run_image_to_end,
};
use ps_trace::{
    Counts, Measured, Prepared, Teller, Tracing, Usage, run_counted, run_measured, run_traced,
};
use std::alloc::Global;
use std::io::{BufRead, Write};

// Writes what is still held, and returns the end to report: the run's, or a fault of the output if some of it was not
// written. There is no end if the output failed at a pause.
fn settled<R, W: Write>(console: &mut BlockConsole<R, W>, end: Option<Outcome>) -> Outcome
    requires { IfNone end (has_failed console.old ≡ true) }
    ensures input { input_of console.new ≡ input_of console.old }
    ensures output { Keeps (output_of W.contents console.old) (output_of W.contents console.new) }
    ensures faults { faults_of console.new ≡ faults_of console.old }
    ensures end { IsSettled end result (held_of console.new) (has_failed console.new) }
{
    if console.write_out().is_err() {
        return Outcome::OutputFault;
    }
    end.unwrap_or(Outcome::OutputFault)
}

/// Builds the program of a text and runs it on a console for at most `steps` steps, and then writes what the console
/// still holds.
///
/// If everything was written, the outcome is the run's. If a write failed, it is an output fault, however else the run
/// ended.
pub fn go_through<R: BufRead, W: Write>(
    alloc: Global,
    text: &[u8],
    budget: Budget,
    console: &mut BlockConsole<R, W>,
    steps: u64,
) -> Result<Outcome, Refusal>
    ensures goes { IfOk result (λ outcome. GoesThrough text.now budget steps
        (console_world R.remaining W.contents console.old) (console_world R.remaining W.contents console.new)
        (held_of console.new) (has_failed console.new) outcome) }
    ensures refused { IfErr result (IsGoRefused text.now budget) }
    ensures unchanged { OnErr result (console_world R.remaining W.contents console.new
        ≡ console_world R.remaining W.contents console.old) }
{
    match go_in_slices(alloc, text, budget, console, steps) {
        Ok(end) => Ok(settled(console, end)),
        Err(refusal) => Err(refusal),
    }
}

/// Runs an image as `go_through` runs a text.
pub fn run_through<R: BufRead, W: Write>(
    alloc: Global,
    image: &[u8],
    budget: Budget,
    console: &mut BlockConsole<R, W>,
    steps: u64,
) -> Result<Outcome, Refusal>
    ensures runs { IfOk result (λ outcome. RunsThrough image.now budget steps
        (console_world R.remaining W.contents console.old) (console_world R.remaining W.contents console.new)
        (held_of console.new) (has_failed console.new) outcome) }
    ensures refused { IfErr result (IsRunRefused image.now budget) }
    ensures unchanged { OnErr result (console_world R.remaining W.contents console.new
        ≡ console_world R.remaining W.contents console.old) }
{
    match run_image_in_slices(alloc, image, budget, console, steps) {
        Ok(end) => Ok(settled(console, end)),
        Err(refusal) => Err(refusal),
    }
}

/// The run of an image on a console, with the machine as the run left it.
#[derive(Drop)]
pub struct Left {
    pub ended: Ended,
    /// The end to report.
    pub outcome: Outcome,
}

/// The end of a run to report, and how much the run took.
#[derive(Clone, Copy)]
pub struct Used {
    pub outcome: Outcome,
    pub usage: Usage,
}

/// Runs an image as `run_through` does, and returns the machine as the run left it.
pub fn end_through<R: BufRead, W: Write>(
    alloc: Global,
    image: &[u8],
    budget: Budget,
    console: &mut BlockConsole<R, W>,
    steps: u64,
) -> Result<Left, Refusal>
    ensures runs { IfOk result (λ left. RunsThrough image.now budget steps
        (console_world R.remaining W.contents console.old) (console_world R.remaining W.contents console.new)
        (held_of console.new) (has_failed console.new) left.outcome) }
    ensures refused { IfErr result (IsRunRefused image.now budget) }
    ensures unchanged { OnErr result (console_world R.remaining W.contents console.new
        ≡ console_world R.remaining W.contents console.old) }
{
    match run_image_to_end(alloc, image, budget, console, steps) {
        Ok(ended) => {
            let outcome = settled(console, ended.outcome);
            Ok(Left { ended, outcome })
        }
        Err(refusal) => Err(refusal),
    }
}

/// Runs an image as `run_through` does, and returns how much the run took.
pub fn usage_through<R: BufRead, W: Write>(
    alloc: Global,
    image: &[u8],
    budget: Budget,
    console: &mut BlockConsole<R, W>,
    steps: u64,
) -> Result<Used, Refusal>
    ensures runs { IfOk result (λ used. RunsThrough image.now budget steps
        (console_world R.remaining W.contents console.old) (console_world R.remaining W.contents console.new)
        (held_of console.new) (has_failed console.new) used.outcome) }
    ensures refused { IfErr result (IsRunRefused image.now budget) }
    ensures unchanged { OnErr result (console_world R.remaining W.contents console.new
        ≡ console_world R.remaining W.contents console.old) }
{
    match run_measured(alloc, image, budget, console, steps) {
        Ok(Measured { ended, usage }) => {
            let outcome = settled(console, ended.outcome);
            Ok(Used { outcome, usage })
        }
        Err(refusal) => Err(refusal),
    }
}

/// Runs a program as `run_through` runs its image, and adds how often each of its words was executed.
pub fn counts_through<R: BufRead, W: Write>(
    alloc: Global,
    prepared: &Prepared,
    budget: Budget,
    console: &mut BlockConsole<R, W>,
    steps: u64,
    counts: &mut Counts,
) -> Result<Outcome, Refusal>
    ensures runs { IfOk result (λ outcome. RunsThrough prepared.now.text.mapped.built budget steps
        (console_world R.remaining W.contents console.old) (console_world R.remaining W.contents console.new)
        (held_of console.new) (has_failed console.new) outcome) }
    ensures refused { IfErr result (IsRunRefused prepared.now.text.mapped.built budget) }
    ensures unchanged { OnErr result (console_world R.remaining W.contents console.new
        ≡ console_world R.remaining W.contents console.old) }
{
    match run_counted(alloc, prepared, counts, budget, console, steps) {
        Ok(end) => Ok(settled(console, end)),
        Err(refusal) => Err(refusal),
    }
}

/// How a traced run ended, and what became of the trace.
#[derive(Clone, Copy)]
pub struct Followed {
    pub outcome: Outcome,
    /// Whether every part of the trace was passed on.
    pub is_whole: bool,
    /// Whether the trace ended before the run, out of memory.
    pub is_cut: bool,
}

/// Runs a program as `run_through` runs its image, and reports each statement as it is executed.
pub fn trace_through<R: BufRead, W: Write, T: Teller + Drop>(
    alloc: Global,
    tracing: Tracing<'_>,
    budget: Budget,
    console: &mut BlockConsole<R, W>,
    steps: u64,
    teller: T,
) -> Result<Followed, Refusal>
    ensures runs { IfOk result (λ followed. RunsThrough tracing.entry.prepared.now.text.mapped.built budget steps
        (console_world R.remaining W.contents console.old) (console_world R.remaining W.contents console.new)
        (held_of console.new) (has_failed console.new) followed.outcome) }
    ensures refused { IfErr result (λ refusal. IsRefused tracing.entry.text.now refusal
        ⊎ IsRunRefused tracing.entry.prepared.now.text.mapped.built budget refusal
        ⊎ (refusal ≡ OutOfMemory)) }
    ensures unchanged { OnErr result (console_world R.remaining W.contents console.new
        ≡ console_world R.remaining W.contents console.old) }
{
    match run_traced(alloc, tracing, teller, budget, console, steps) {
        Ok(traced) => {
            let outcome = settled(console, traced.outcome);
            Ok(Followed {
                outcome,
                is_whole: traced.is_whole,
                is_cut: traced.is_cut,
            })
        }
        Err(refused) => Err(refused),
    }
}
