//! Runs of texts of which more is reported than how they ended.
//!
//! What is reported of a run is advisory. Contracts state its status, and that the run is the one of the image that was
//! built from the text.

mod covered;

ghost use Rattle.std.specs.Prelude.{◌≡◌, ◌&&◌, IfSome, Ok, false, is_some, not};
ghost use Rattle.ps_build.specs.Headline.{Compiles};
ghost use Rattle.pascal_command.specs.Command as work;
ghost use Rattle.pascal_command.specs.Command.{request_in, work_of};
ghost use Rattle.pascal_session.specs.Console as block;
ghost use Rattle.pascal_session.specs.Console.{console_world, held_of};
ghost use Rattle.pascal_session.specs.Report.{status_of};
ghost use Rattle.pascal_cli.specs.Failures.{Notes, NotesFault, has_failed, status_told};
ghost use Rattle.pascal_cli.specs.Jobs.{IsStatus, RanImage, limits_in};
ghost use Rattle.pascal_cli.specs.Watched.{IsReported, IsRun, IsTraced, IsWatched, IsWatchedFile, IsWatchedText};
ghost use Rattle.pascal_cli.specs.Watched.{has_routine, lacks_routine, names_routine, routine_of};

use crate::failures::{Failures, is_reported, tell_unwritten};
use crate::jobs::{budget_of, console};
use crate::runs::{Followed, Left, end_through, trace_through};
use crate::watched::covered::{Voice, count, cover};
use pascal_command::{Job, Options, Watch};
use pascal_session::{
    BlockConsole, FAILED, TEXT_LIMIT, out_of_memory, read_file, report_end, status, tell,
};
use ps_build::{Ended, Mapped, Outcome, Variables, build_mapped};
use ps_diagnose::nearest;
use ps_diagnostic::printable;
use ps_map::Map;
use ps_map_maker::{MappedText, map_of_text};
use ps_scene::Length;
use ps_trace::{Choice, Prepared, Teller, Tracing, no_counts, profile_report};
use ps_why::{account_of, object_of, render};
use std::alloc::{AllocError, Global};
use std::io::{BufRead, Write};
use std::rt::Files;

// The longest name whose spelling is compared with others.
const LONGEST_COMPARED: usize = 64;

/// A text, and its path as messages name it.
#[derive(Clone, Copy)]
struct TextFile<'a> {
    path: &'a str,
    text: &'a [u8],
}

/// A text that is run, its path as messages name it, and the program that was built from it.
#[derive(Clone, Copy)]
struct Program<'a> {
    path: &'a str,
    text: &'a [u8],
    prepared: &'a Prepared,
}

/// Runs the text at a path, and reports what was requested.
pub(crate) fn watch<R: Files + Print + Eprint + Input + AllocGlobal>(
    rt: &R,
    failures: &mut Failures,
    job: &Job<'_>,
    how: Watch,
    path: &str,
    options: &Options<'_>,
) -> u8
    requires { work_of job.now.task ≡ work.watch how path.now }
    ensures answer { IsWatchedFile (limits_in job.now) (names_routine how options.now)
        (has_failed failures.new) result }
    ensures status { IsStatus (request_in job.now) result }
{
    let read = read_file(rt, path, TEXT_LIMIT);
    match failures.got(read) {
        Some(text) => {
            let file = TextFile { path, text: &text };
            watch_text(rt, failures, job, how, file, options)
        }
        None => FAILED,
    }
}

// Builds a text, runs it, and reports what was requested.
fn watch_text<R: Files + Print + Eprint + Input + AllocGlobal>(
    rt: &R,
    failures: &mut Failures,
    job: &Job<'_>,
    how: Watch,
    file: TextFile<'_>,
    options: &Options<'_>,
) -> u8
    ensures { IsWatchedText file.entry.text.now (limits_in job.now) (names_routine how options.now)
        (has_failed failures.new) result }
{
    let mapped = match build_mapped(rt.alloc(), file.text, Variables::InFrames) {
        Ok(mapped) => mapped,
        Err(refusal) => {
            let _ = failures.report_refusal(rt, refusal);
            return FAILED;
        }
    };
    let Some(prepared) = prepared_of(rt, failures, file.text, mapped) else {
        return FAILED;
    };
    let program = Program {
        path: file.path,
        text: file.text,
        prepared: &prepared,
    };
    watch_program(rt, failures, job, how, program, options)
}

// The program that was built from a text, with its map.
fn prepared_of<R: Eprint + AllocGlobal>(
    rt: &R,
    failures: &mut Failures,
    text: &[u8],
    mapped: Mapped,
) -> Option<Prepared>
    requires { Compiles text.now mapped.built }
    ensures compiles { IfSome result (λ prepared. Compiles text.now prepared.text.mapped.built) }
    ensures noted { Notes result (has_failed failures.old) (has_failed failures.new) }
{
    let map = map_of_text(rt.alloc(), text, &mapped);
    let map = failures.made(rt, map)?;
    Some(Prepared {
        text: MappedText { mapped, map },
    })
}

fn watch_program<R: Files + Print + Eprint + Input + AllocGlobal>(
    rt: &R,
    failures: &mut Failures,
    job: &Job<'_>,
    how: Watch,
    program: Program<'_>,
    options: &Options<'_>,
) -> u8
    requires { Compiles program.text.now program.prepared.now.text.mapped.built }
    ensures { IsWatched program.entry.text.now (limits_in job.now) (names_routine how options.now)
        (has_failed failures.new) result }
{
    match how {
        Watch::Why => why(rt, failures, job, program, &mut console(rt), options),
        Watch::Trace => trace(rt, failures, job, program, &mut console(rt), options),
        Watch::Cover => cover(rt, failures, job, program, options),
        Watch::Profile => profile(rt, failures, job, program),
    }
}

// ---- why

fn why<R: Eprint + AllocGlobal, I: BufRead, O: Write>(
    rt: &R,
    failures: &mut Failures,
    job: &Job<'_>,
    program: Program<'_>,
    console: &mut BlockConsole<I, O>,
    options: &Options<'_>,
) -> u8
    ensures { IsReported (RanImage program.entry.prepared.now.text.mapped.built (limits_in job.now)
        (console_world I.remaining O.contents console.old) (console_world I.remaining O.contents console.new)
        (held_of console.new) (block.has_failed console.new)) (has_failed failures.new) result }
{
    let image = program.prepared.text.mapped.built.bytes();
    match end_through(rt.alloc(), image, budget_of(job), console, job.steps) {
        Ok(left) => {
            let is_told = tell_why(rt, job, program, options, &left);
            failures.after_report(is_told, status(&Ok(left.outcome)))
        }
        Err(refusal) => report_end(rt, &Err(refusal)),
    }
}

// Reports how a run ended, and the values of the variables. Returns whether the report is whole.
fn tell_why<R: Eprint + AllocGlobal>(
    rt: &R,
    job: &Job<'_>,
    program: Program<'_>,
    options: &Options<'_>,
    left: &Left,
) -> bool {
    match left.outcome {
        Outcome::OutputFault => {
            let _ = report_end(rt, &Ok(left.outcome));
            true
        }
        _ => is_reported(
            rt,
            account_told(rt.alloc(), job, program, options, &left.ended),
        ),
    }
}

// The report of a run that ended.
fn account_told(
    alloc: Global,
    job: &Job<'_>,
    program: Program<'_>,
    options: &Options<'_>,
    ended: &Ended,
) -> Result<String, AllocError> {
    let length = if options.all {
        Length::All
    } else {
        Length::Short
    };
    let mapped = &program.prepared.text.mapped;
    let account = account_of(alloc, program.text, mapped, ended, job.steps, length)?;
    if !options.telling.json {
        let path = printable(alloc, program.path)?;
        return render(alloc, path.as_str(), program.text, &account);
    }
    let Ok(mut object) = object_of(alloc, program.path, &account) else {
        return Err(AllocError);
    };
    object.push('\n')?;
    Ok(object)
}

// ---- trace

// Whether a program has a routine with this name.
fn has_routine(map: &Map, name: &str) -> bool
    ensures { result ≡ has_routine map.now name.now }
{
    map.routines
        .iter()
        .any(|routine| routine.name.as_str().eq_ignore_ascii_case(name))
}

// The requested routine, if the program has none with that name.
fn unknown_routine<'a>(map: &Map, options: &Options<'a>) -> Option<&'a str>
    ensures { is_some result ≡ lacks_routine map.now (routine_of options.now) }
{
    match options.traces.routine {
        Some(name) if !has_routine(map, name) => Some(name),
        _ => None,
    }
}

// The names of a program's routines that are compared with another one.
fn compared_names<'a>(alloc: Global, map: &'a Map) -> Result<Vec<&'a str>, AllocError> {
    let mut names = Vec::new(alloc);
    for routine in map.routines.iter() {
        let name = routine.name.as_str();
        if name.len() <= LONGEST_COMPARED {
            names.push(name)?;
        }
    }
    Ok(names)
}

// Names in lower case.
fn in_small_letters(alloc: Global, names: &[&str]) -> Result<Vec<String>, AllocError> {
    let mut small = Vec::new(alloc);
    for name in names.iter() {
        small.push(name.to_ascii_lowercase(alloc)?)?;
    }
    Ok(small)
}

// The one of these names whose spelling is nearest to another.
fn nearest_name<'a>(
    alloc: Global,
    known: &[&'a str],
    name: &str,
) -> Result<Option<&'a str>, AllocError> {
    let small = in_small_letters(alloc, known)?;
    let names: Vec<&str> = small.iter().map(|name| name.as_str()).collect(alloc)?;
    let name = name.to_ascii_lowercase(alloc)?;
    match nearest(alloc, name.as_str(), names.as_slice())? {
        Some(at) => Ok(known.get(at).copied()),
        None => Ok(None),
    }
}

// The routine of a program whose name is the nearest in spelling.
fn nearest_routine<'a>(
    alloc: Global,
    map: &'a Map,
    name: &str,
) -> Result<Option<&'a str>, AllocError> {
    if name.len() > LONGEST_COMPARED {
        return Ok(None);
    }
    let known = compared_names(alloc, map)?;
    nearest_name(alloc, known.as_slice(), name)
}

// What is said of a routine that a program does not have, and which of its routines may be meant.
fn no_routine(alloc: Global, program: Program<'_>, name: &str) -> Result<String, AllocError> {
    let path = program.path;
    match nearest_routine(alloc, &program.prepared.text.map, name)? {
        Some(near) => {
            format!(in alloc;
                "cannot trace {name}: {path} has no such routine; the nearest is {near}"
            )
        }
        None => format!(in alloc; "cannot trace {name}: {path} has no such routine"),
    }
}

// Standard error, as the receiver of the lines of a trace.
#[derive(Drop)]
struct Lines<'a, R> {
    rt: &'a R,
}

impl<'a, R: Eprint> Teller for Lines<'a, R> {
    fn tell(&mut self, line: &str) -> bool {
        self.rt.eprint(line).is_ok()
    }
}

// Reports the statements of a run, if the program has the requested routine.
fn trace<R: Eprint + AllocGlobal, I: BufRead, O: Write>(
    rt: &R,
    failures: &mut Failures,
    job: &Job<'_>,
    program: Program<'_>,
    console: &mut BlockConsole<I, O>,
    options: &Options<'_>,
) -> u8
    ensures { IsTraced (lacks_routine program.entry.prepared.now.text.map (routine_of options.now))
        (console_world I.remaining O.contents console.old) (console_world I.remaining O.contents console.new)
        (has_failed failures.new) result
        (RanImage program.entry.prepared.now.text.mapped.built (limits_in job.now)
        (console_world I.remaining O.contents console.old) (console_world I.remaining O.contents console.new)
        (held_of console.new) (block.has_failed console.new)) }
{
    match unknown_routine(&program.prepared.text.map, options) {
        Some(name) => tell(rt, no_routine(rt.alloc(), program, name)),
        None => trace_run(rt, failures, job, program, console, options),
    }
}

fn trace_run<R: Eprint + AllocGlobal, I: BufRead, O: Write>(
    rt: &R,
    failures: &mut Failures,
    job: &Job<'_>,
    program: Program<'_>,
    console: &mut BlockConsole<I, O>,
    options: &Options<'_>,
) -> u8
    ensures { IsTraced false
        (console_world I.remaining O.contents console.old) (console_world I.remaining O.contents console.new)
        (has_failed failures.new) result
        (RanImage program.entry.prepared.now.text.mapped.built (limits_in job.now)
        (console_world I.remaining O.contents console.old) (console_world I.remaining O.contents console.new)
        (held_of console.new) (block.has_failed console.new)) }
{
    let choice = Choice {
        from: options.traces.from.unwrap_or(1),
        to: options.traces.to.unwrap_or(u32::MAX),
        routine: options.traces.routine,
        first: options.traces.first.unwrap_or(u64::MAX),
        json: options.telling.json,
    };
    let tracing = Tracing {
        text: program.text,
        prepared: program.prepared,
        choice,
    };
    match trace_through(
        rt.alloc(),
        tracing,
        budget_of(job),
        console,
        job.steps,
        Lines { rt },
    ) {
        Ok(followed) => tell_followed(rt, failures, followed),
        Err(refusal) => failures.no_run(rt, refusal),
    }
}

// Reports how a traced run ended, and what the trace lacks. Returns the status.
fn tell_followed<R: Eprint + AllocGlobal>(rt: &R, failures: &mut Failures, followed: Followed) -> u8
    ensures status { result ≡ status_told (followed.is_whole && not followed.is_cut)
        (status_of (Ok followed.outcome)) }
    ensures noted { NotesFault (followed.is_whole && not followed.is_cut) (has_failed failures.old)
        (has_failed failures.new) }
{
    let status = report_end(rt, &Ok(followed.outcome));
    if followed.is_cut {
        let _ = out_of_memory(rt);
    } else if !followed.is_whole {
        tell_unwritten(rt);
    }
    failures.after_report(followed.is_whole && !followed.is_cut, status)
}

// ---- profile

fn profile<R: Print + Eprint + Input + AllocGlobal>(
    rt: &R,
    failures: &mut Failures,
    job: &Job<'_>,
    program: Program<'_>,
) -> u8
    requires { Compiles program.text.now program.prepared.now.text.mapped.built }
    ensures { IsRun program.entry.text.now (limits_in job.now) (has_failed failures.new) result }
{
    let counts = no_counts(rt.alloc(), program.prepared);
    let Some(mut counts) = failures.made(rt, counts) else {
        return FAILED;
    };
    let voice = Voice {
        mark: "",
        input: None,
    };
    let status = count(rt, job, program, &mut console(rt), &mut counts, voice);
    let report = profile_report(rt.alloc(), program.text, program.prepared, &counts);
    failures.after_report(is_reported(rt, report), status)
}
