//! The coverage of a text's runs: its inputs, one run for each, and the report on all of them.

ghost use Rattle.std.specs.Prelude.{◌≡◌, ◌<◌, IfErr, length};
ghost use Rattle.ps_build.specs.Headline.{Compiles};
ghost use Rattle.pascal_session.specs.Console as block;
ghost use Rattle.pascal_session.specs.Console.{console_world, held_of};
ghost use Rattle.pascal_cli.specs.Failures.{Keeps, has_failed};
ghost use Rattle.pascal_cli.specs.Jobs.{RanImage, limits_in};
ghost use Rattle.pascal_session.specs.Report.{status_of};
ghost use Rattle.pascal_cli.specs.Watched.{Covers, IsRun};
ghost use Rattle.pascal_cli.specs.Watched.{first_failed};

use crate::failures::{Failures, is_reported};
use crate::jobs::{budget_of, console};
use crate::runs::counts_through;
use crate::watched::Program;
use pascal_command::{Job, Options};
use pascal_session::{BlockConsole, FAILED, message, report_end, status, tell};
use ps_build::{Outcome, Refusal};
use ps_diagnostic::printable;
use ps_trace::{Counts, coverage_report, lcov_report, no_counts};
use std::alloc::{AllocError, Global};
use std::fs;
use std::io::{self, BufRead, BufReader, Write};
use std::rt::Files;

// The mark of lines that readers of the `lcov` form skip.
const COMMENT: &str = "# ";

/// A file whose bytes are the input of a run, and the prefix of the lines that report it.
#[derive(Clone, Copy)]
struct InputFile<'a> {
    path: &'a str,
    mark: &'static str,
}

/// The prefix of the lines that report how a run ended.
#[derive(Clone, Copy)]
pub(super) struct Voice<'a> {
    pub(super) mark: &'static str,
    /// The file whose bytes were the input of the run.
    pub(super) input: Option<&'a str>,
}

// What is before each of the lines that report how a run ended.
fn front_of(alloc: Global, voice: Voice<'_>) -> Result<String, AllocError> {
    let mark = voice.mark;
    let Some(input) = voice.input else {
        return String::from_str(alloc, mark);
    };
    let input = printable(alloc, input)?;
    let input = input.as_str();
    format!(in alloc; "{mark}{input}: ")
}

// The lines that report how a run ended, or why there was none.
fn end_told(
    alloc: Global,
    voice: Voice<'_>,
    end: &Result<Outcome, Refusal>,
) -> Result<String, AllocError> {
    let lines = message(alloc, end)?;
    let front = front_of(alloc, voice)?;
    let mut told = String::new(alloc);
    for line in lines.as_str().lines() {
        told.push_str(front.as_str())?;
        told.push_str(line)?;
        told.push('\n')?;
    }
    Ok(told)
}

// Reports how a run ended, or why there was none, and returns the status.
fn tell_end<R: Eprint + AllocGlobal>(rt: &R, voice: Voice<'_>, end: &Result<Outcome, Refusal>) -> u8
    ensures { result ≡ status_of end.now }
{
    match end_told(rt.alloc(), voice, end) {
        Ok(told) => {
            let _ = rt.eprint(told.as_str());
            status(end)
        }
        Err(_) => report_end(rt, end),
    }
}

// The prefix of the lines that report how the runs ended.
fn mark_of(options: &Options<'_>) -> &'static str {
    if options.lcov { COMMENT } else { "" }
}

pub(super) fn cover<R: Files + Print + Eprint + Input + AllocGlobal>(
    rt: &R,
    failures: &mut Failures,
    job: &Job<'_>,
    program: Program<'_>,
    options: &Options<'_>,
) -> u8
    requires { Compiles program.text.now program.prepared.now.text.mapped.built }
    ensures { IsRun program.entry.text.now (limits_in job.now) (has_failed failures.new) result }
{
    let counts = no_counts(rt.alloc(), program.prepared);
    let Some(mut counts) = failures.made(rt, counts) else {
        return FAILED;
    };
    let status = cover_runs(rt, failures, job, program, options, &mut counts);
    let report = coverage_told(rt.alloc(), program, options, &counts);
    failures.after_report(is_reported(rt, report), status)
}

// Runs a program on standard input, or on each of the files that the options name.
fn cover_runs<R: Files + Print + Eprint + Input + AllocGlobal>(
    rt: &R,
    failures: &mut Failures,
    job: &Job<'_>,
    program: Program<'_>,
    options: &Options<'_>,
    counts: &mut Counts,
) -> u8
    requires { Compiles program.text.now program.prepared.now.text.mapped.built }
    ensures { IsRun program.entry.text.now (limits_in job.now) (has_failed failures.new) result }
{
    if !options.inputs.is_empty() {
        return cover_files(rt, failures, job, program, options, counts);
    }
    let voice = Voice {
        mark: mark_of(options),
        input: None,
    };
    count(rt, job, program, &mut console(rt), counts, voice)
}

// Runs a program on each of these files, of which there is at least one, and returns the status of the first run that
// failed.
fn cover_files<R: Files + Print + Eprint + AllocGlobal>(
    rt: &R,
    failures: &mut Failures,
    job: &Job<'_>,
    program: Program<'_>,
    options: &Options<'_>,
    counts: &mut Counts,
) -> u8
    requires compiles { Compiles program.text.now program.prepared.now.text.mapped.built }
    requires some { 0 < length options.now.inputs.items }
    ensures { Covers (IsRun program.entry.text.now (limits_in job.now) (has_failed failures.new))
        (length options.now.inputs.items) result }
{
    let mark = mark_of(options);
    let inputs = options.inputs.as_slice();
    let first = InputFile {
        path: inputs[0],
        mark,
    };
    let mut status = cover_file(rt, failures, job, program, first, counts);
    for input in &inputs[1..] {
        let file = InputFile { path: input, mark };
        let next = cover_file(rt, failures, job, program, file, counts);
        status = first_failed(status, next);
    }
    status
}

// The status of the first of two runs that failed.
fn first_failed(status: u8, next: u8) -> u8
    ensures { result ≡ first_failed status next }
{
    if status == 0 { next } else { status }
}

// The bytes of an input, which are read as the run asks for them. If it can't be opened, that is reported, and the
// status is returned.
fn open_input<R: Files + Eprint + AllocGlobal>(
    rt: &R,
    file: InputFile<'_>,
) -> Result<BufReader<R::File>, u8>
    ensures { IfErr result (λ status. status ≡ FAILED) }
{
    let InputFile { path, mark } = file;
    let Ok(opened) = fs::open(rt, path) else {
        return Err(tell(rt, format!(in rt.alloc(); "{mark}cannot read {path}")));
    };
    match BufReader::new(rt.alloc(), opened) {
        Ok(reader) => Ok(reader),
        Err(_) => Err(tell_end(rt, voice_of(file), &Err(Refusal::OutOfMemory))),
    }
}

// The prefix of the lines that report the run on a file.
fn voice_of<'a>(file: InputFile<'a>) -> Voice<'a> {
    Voice {
        mark: file.mark,
        input: Some(file.path),
    }
}

// Runs a program on the bytes of a file.
fn cover_file<R: Files + Print + Eprint + AllocGlobal>(
    rt: &R,
    failures: &mut Failures,
    job: &Job<'_>,
    program: Program<'_>,
    file: InputFile<'_>,
    counts: &mut Counts,
) -> u8
    requires { Compiles program.text.now program.prepared.now.text.mapped.built }
    ensures kept { Keeps (has_failed failures.old) (has_failed failures.new) }
    ensures run { IsRun program.entry.text.now (limits_in job.now) (has_failed failures.new) result }
{
    let opened = open_input(rt, file);
    match failures.got(opened) {
        Some(reader) => {
            let mut console = BlockConsole::new(rt.alloc(), reader, io::writer(rt));
            count(rt, job, program, &mut console, counts, voice_of(file))
        }
        None => FAILED,
    }
}

// Runs a program, and counts how often each of its words is executed.
pub(super) fn count<R: Eprint + AllocGlobal, I: BufRead, O: Write>(
    rt: &R,
    job: &Job<'_>,
    program: Program<'_>,
    console: &mut BlockConsole<I, O>,
    counts: &mut Counts,
    voice: Voice<'_>,
) -> u8
    ensures { RanImage program.entry.prepared.now.text.mapped.built (limits_in job.now)
        (console_world I.remaining O.contents console.old) (console_world I.remaining O.contents console.new)
        (held_of console.new) (block.has_failed console.new) result }
{
    let budget = budget_of(job);
    let end = counts_through(
        rt.alloc(),
        program.prepared,
        budget,
        console,
        job.steps,
        counts,
    );
    tell_end(rt, voice, &end)
}

// The report on how often the statements of a program were executed.
fn coverage_told(
    alloc: Global,
    program: Program<'_>,
    options: &Options<'_>,
    counts: &Counts,
) -> Result<String, AllocError> {
    if options.lcov {
        lcov_report(alloc, program.path, program.prepared, counts)
    } else {
        coverage_report(alloc, program.text, counts)
    }
}
