//! How much stack and heap the image of a text needs, as `pascal needs` reports it.

ghost use Rattle.std.specs.Prelude.{◌≡◌};
ghost use Rattle.pascal_command.specs.Command as work;
ghost use Rattle.pascal_command.specs.Command.{request_in, work_of};
ghost use Rattle.pascal_cli.specs.Failures.{Answers, HasRefusal, Keeps, Tells, has_failed};
ghost use Rattle.pascal_cli.specs.Jobs.{HasNeeds, IsStatus, SomeNeeds, SomeRefused};
ghost use Rattle.pascal_cli.specs.NeedLines.{needed_lines};

use crate::failures::Failures;
use crate::need_lines::needed_lines;
use pascal_command::Job;
use pascal_session::TEXT_LIMIT;
use ps_needs_image::{Needed, needs_of};
use std::rt::Files;

// Writes the lines that say how much the image of a text needs.
fn print_lines<R: Print + Eprint>(
    rt: &R,
    failures: &mut Failures,
    text: &[u8],
    needed: &Needed,
    lines: &[u8],
)
    requires { lines.now ≡ needed_lines text.now needed.now }
    ensures { Keeps (has_failed failures.old) (has_failed failures.new) }
{
    let _ = text;
    let _ = needed;
    failures.print(rt, lines);
}

// Writes how much the image of a text needs.
fn print_needed<R: Print + Eprint + AllocGlobal>(
    rt: &R,
    failures: &mut Failures,
    text: &[u8],
    needed: &Needed,
)
    ensures { Keeps (has_failed failures.old) (has_failed failures.new) }
{
    if let Some(lines) = failures.made(rt, needed_lines(rt.alloc(), text, needed)) {
        print_lines(rt, failures, text, needed, &lines);
    }
}

// Reports how much the image of a text needs, and returns whether there is an image.
fn tell_needed<R: Print + Eprint + AllocGlobal>(
    rt: &R,
    failures: &mut Failures,
    text: &[u8],
) -> bool
    ensures { Tells result (has_failed failures.new) (HasNeeds text.now) (HasRefusal text.now) }
{
    match needs_of(rt.alloc(), text) {
        Ok(needed) => {
            print_needed(rt, failures, text, &needed);
            true
        }
        Err(refusal) => {
            let _ = failures.report_refusal(rt, refusal);
            false
        }
    }
}

// Reads a text, reports how much its image needs, and returns whether there is one.
fn tell_needed_at<R: Files + Print + Eprint + Input + AllocGlobal>(
    rt: &R,
    failures: &mut Failures,
    source: &str,
) -> bool
    ensures { Tells result (has_failed failures.new) SomeNeeds SomeRefused }
{
    match failures.read(rt, source, TEXT_LIMIT) {
        Some(text) => tell_needed(rt, failures, &text),
        None => false,
    }
}

/// Reports how much the image of the text at a path needs.
pub(crate) fn needs<R: Files + Print + Eprint + Input + AllocGlobal>(
    rt: &R,
    failures: &mut Failures,
    job: &Job<'_>,
    source: &str,
) -> u8
    requires { work_of job.now.task ≡ work.needs source.now }
    ensures answer { Answers result (has_failed failures.new) SomeNeeds SomeRefused }
    ensures status { IsStatus (request_in job.now) result }
{
    let _ = job;
    let is_told = tell_needed_at(rt, failures, source);
    failures.status(is_told)
}
