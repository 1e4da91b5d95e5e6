//! Checks of texts: the reports on each, and the status.

ghost use Rattle.std.specs.Prelude.{◌≡◌, ◌&&◌, length, map};
ghost use Rattle.pascal_command.specs.Command as work;
ghost use Rattle.pascal_command.specs.Command.{request_in, work_of};
ghost use Rattle.pascal_cli.specs.Failures.{Answers, HasRefusal, Keeps, Tells, has_failed};
ghost use Rattle.pascal_cli.specs.Jobs.{AreAccepted, IsAccepted, IsStatus, SomeAccepted, SomeRefused};

use crate::failures::Failures;
use pascal_command::{Job, Telling};
use pascal_session::TEXT_LIMIT;
use ps_advise::{Advice, Wants, advised};
use ps_diagnostic::{Diagnostic, View, object_of, render};
use ps_text::Source;
use std::alloc::{AllocError, Global};
use std::rt::Files;

// A text as it is shown: one that is not a source has no lines to show.
fn view_of<'a>(alloc: Global, text: &'a [u8]) -> Result<View<'a>, AllocError> {
    let shown: &'a [u8] = if Source::new(text).is_ok() { text } else { &[] };
    match Source::new(shown) {
        Ok(source) => View::new(alloc, &source),
        Err(_) => Err(AllocError),
    }
}

// A report, as an object on a line of its own.
fn object_line(
    alloc: Global,
    path: &str,
    view: &View<'_>,
    diagnostic: &Diagnostic,
) -> Result<String, AllocError> {
    match object_of(alloc, path, view, diagnostic) {
        Ok(mut text) => {
            text.push('\n')?;
            Ok(text)
        }
        Err(_) => Err(AllocError),
    }
}

// All reports on a text, as JSON objects.
fn objects(
    alloc: Global,
    path: &str,
    view: &View<'_>,
    all: &[Diagnostic],
) -> Result<String, AllocError> {
    let mut out = String::new(alloc);
    for diagnostic in all.iter() {
        let line = object_line(alloc, path, view, diagnostic)?;
        out.push_str(line.as_str())?;
    }
    Ok(out)
}

// All reports on a text, in lines for people, with an empty line before each message but the first.
fn lines(
    alloc: Global,
    path: &str,
    view: &View<'_>,
    all: &[Diagnostic],
    is_behind: bool,
) -> Result<String, AllocError> {
    let mut out = String::new(alloc);
    for diagnostic in all.iter() {
        if is_behind || !out.is_empty() {
            out.push('\n')?;
        }
        let text = render(alloc, path, view, diagnostic)?;
        out.push_str(text.as_str())?;
    }
    Ok(out)
}

// How texts are checked, and whether there was a report on an earlier one.
#[derive(Clone, Copy)]
struct Manner {
    telling: Telling,
    is_behind: bool,
}

// The reports on a text, as they are written.
fn written(
    alloc: Global,
    path: &str,
    text: &[u8],
    all: &[Diagnostic],
    manner: Manner,
) -> Result<String, AllocError> {
    let view = view_of(alloc, text)?;
    if manner.telling.json {
        objects(alloc, path, &view, all)
    } else {
        lines(alloc, path, &view, all, manner.is_behind)
    }
}

// Writes the reports on a text: objects to standard output, lines to standard error.
fn write_told<R: Print + Eprint>(rt: &R, failures: &mut Failures, told: &str, manner: Manner)
    ensures { Keeps (has_failed failures.old) (has_failed failures.new) }
{
    if manner.telling.json {
        failures.print(rt, told.as_bytes());
    } else {
        let _ = rt.eprint(told);
    }
}

// Reports what there is on a text.
fn tell_advice<R: Print + Eprint + AllocGlobal>(
    rt: &R,
    failures: &mut Failures,
    path: &str,
    text: &[u8],
    all: &[Diagnostic],
    manner: Manner,
)
    ensures { Keeps (has_failed failures.old) (has_failed failures.new) }
{
    if let Some(told) = failures.made(rt, written(rt.alloc(), path, text, all, manner)) {
        write_told(rt, failures, told.as_str(), manner);
    }
}

// A text that was checked: whether it is accepted, and whether there was a report on it.
#[derive(Clone, Copy)]
struct Checked {
    is_accepted: bool,
    has_told: bool,
}

// A text that was not checked.
const UNCHECKED: Checked = Checked {
    is_accepted: false,
    has_told: false,
};

// Checks a text, and reports what there is on it.
fn check_text<R: Print + Eprint + AllocGlobal>(
    rt: &R,
    failures: &mut Failures,
    path: &str,
    text: &[u8],
    manner: Manner,
) -> Checked
    ensures kept { Keeps (has_failed failures.old) (has_failed failures.new) }
    ensures told { Tells result.is_accepted (has_failed failures.new) (IsAccepted text.now) (HasRefusal text.now) }
{
    let wants = Wants {
        first: manner.telling.first,
        warnings: manner.telling.warnings,
    };
    let Some(advice) = failures.made(rt, advised(rt.alloc(), text, wants)) else {
        return UNCHECKED;
    };
    let Advice { is_accepted, told } = advice;
    tell_advice(rt, failures, path, text, told.as_slice(), manner);
    Checked {
        is_accepted,
        has_told: !told.is_empty(),
    }
}

// Checks the text at a path, and reports what there is on it.
fn check_file<R: Files + Print + Eprint + Input + AllocGlobal>(
    rt: &R,
    failures: &mut Failures,
    path: &str,
    manner: Manner,
) -> Checked
    ensures kept { Keeps (has_failed failures.old) (has_failed failures.new) }
    ensures told { Tells result.is_accepted (has_failed failures.new) SomeAccepted SomeRefused }
{
    match failures.read(rt, path, TEXT_LIMIT) {
        Some(text) => check_text(rt, failures, path, &text, manner),
        None => UNCHECKED,
    }
}

// Whether both are true.
fn are_both(one: bool, other: bool) -> bool
    ensures { result ≡ (one && other) }
{
    one && other
}

// Checks the texts at paths, one after another, and returns whether each is accepted.
fn check_files<R: Files + Print + Eprint + Input + AllocGlobal>(
    rt: &R,
    failures: &mut Failures,
    files: &[&str],
    telling: Telling,
) -> bool
    ensures { Tells result (has_failed failures.new) (AreAccepted (length files.now)) SomeRefused }
{
    let mut are_accepted = true;
    let mut is_behind = false;
    for path in files.iter() {
        let checked = check_file(rt, failures, path, Manner { telling, is_behind });
        are_accepted = are_both(are_accepted, checked.is_accepted);
        is_behind = is_behind || checked.has_told;
    }
    are_accepted
}

/// Checks the texts at the paths of a job.
pub(crate) fn check<R: Files + Print + Eprint + Input + AllocGlobal>(
    rt: &R,
    failures: &mut Failures,
    job: &Job<'_>,
    files: &[&str],
    telling: Telling,
) -> u8
    requires { work_of job.now.task ≡ work.check (map (λ file. file.now) files.now) }
    ensures answer { Answers result (has_failed failures.new) (AreAccepted (length files.now)) SomeRefused }
    ensures status { IsStatus (request_in job.now) result }
{
    let _ = job;
    let are_accepted = check_files(rt, failures, files, telling);
    failures.status(are_accepted)
}
