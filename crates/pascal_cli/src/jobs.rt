//! Jobs: what is done for each, and its status.
//!
//! A function that does something for a request receives nothing but what the request names, and each run has its
//! limits. What is at a path, no contract can say.

mod images;
mod listing;

ghost use Rattle.std.specs.Prelude.{◌≡◌, ◌≤◌, ◌<◌, ◌⊎◌, IfErr, IfOk, length, true};
ghost use Rattle.pascal_command.specs.Command as work;
ghost use Rattle.pascal_command.specs.Command.{request_in, work_of};
ghost use Rattle.pascal_session.specs.Console.{console_world, has_failed, held_of};
ghost use Rattle.pascal_cli.specs.Explain.{has_page};
ghost use Rattle.pascal_cli.specs.Jobs.{IsBuilt, IsRefusedText, IsStatus, RanImage, RanOf, RanText};
ghost use Rattle.pascal_cli.specs.Jobs.{budget_of, limits_in};

use crate::certificates::{certify, verify};
use crate::checks::check;
use crate::explain::{pages_on, titles};
use crate::failures::Failures;
use crate::jobs::images::compile;
use crate::jobs::listing::list_text;
use crate::needs::needs;
use crate::runs::{go_through, run_through, usage_through};
use crate::watched::watch;
pub(crate) use listing::print_all;
use pascal_command::{Job, Options, Task};
use pascal_session::{
    BlockConsole, FAILED, TEXT_LIMIT, out_of_memory, read_file, read_standard_input, read_text,
    report_end, tell,
};
use ps_build::{Budget, Built, build, build_and_leave};
use ps_trace::{Usage, usage_line};
use risc_image::MAX_COUNT;
use std::fs::File;
use std::io::{self, BufRead, Write};
use std::random::RandomSource;
use std::rt::{Env, Files};

// The bytes of the longest image: those of its header, of its words, and of the rows of frames, objects, traps and
// calls.
const LONGEST_IMAGE: usize = 28 + (4 + 8 + 8 + 12 + 8) * MAX_COUNT as usize;

// One byte more than the longest image.
pub(crate) const IMAGE_LIMIT: usize = LONGEST_IMAGE + 1;

/// Does a job, and returns the program's status.
pub(crate) fn do_job<R>(rt: &R, job: &Job<'_>, options: &Options<'_>) -> u8
where
    R: Files<File = File> + RandomSource + Print + Eprint + Input + Env + AllocGlobal,
    ensures { IsStatus (request_in job.now) result }
{
    match &job.task {
        Task::Compile { source, image } => compile(rt, job, source, image, options.map),
        Task::List { source } => list_text(rt, job, source, options.source),
        Task::Run { image } => run_file(rt, job, image, options.usage),
        Task::Go { source } => go_file(rt, job, source, options.usage),
        Task::GoStandardInput => go_standard_input(rt, job),
        Task::Explain { topic } => explain(rt, job, topic.as_str()),
        Task::Check { files } => {
            check(
                rt,
                &mut Failures::new(),
                job,
                files.as_slice(),
                options.telling,
            )
        },
        Task::Certify { source, image } => certify(rt, &mut Failures::new(), job, source, image),
        Task::Verify {
            certificate,
            source,
            image,
        } => verify(rt, &mut Failures::new(), job, certificate, source, image),
        Task::Needs { source } => needs(rt, &mut Failures::new(), job, source),
        Task::Watch { how, source } => {
            watch(rt, &mut Failures::new(), job, *how, source, options)
        },
    }
}

/// The bytes of stack and heap that a job gives a run.
pub(crate) fn budget_of(job: &Job<'_>) -> Budget
    ensures { result ≡ budget_of (limits_in job.now) }
{
    Budget {
        stack: job.stack,
        heap: job.heap,
    }
}

// ---- images and listings

// Builds the text at a path, for a command that exits after it. If there is no text, or it is refused, that is
// reported, and the status is returned.
fn build_text<R: Files + Eprint + Input + AllocGlobal>(rt: &R, path: &str) -> Result<Built, u8>
    ensures ok { IfOk result (λ built. IsBuilt built) }
    ensures err { IfErr result (λ status. status ≡ FAILED) }
{
    let text = read_text(rt, path)?;
    match build_and_leave(rt.alloc(), &text) {
        Ok(built) => Ok(built),
        Err(refusal) => Err(report_end(rt, &Err(refusal))),
    }
}

// ---- runs

/// The console of a run: standard input, which is read ahead, and standard output.
pub(crate) fn console<R: Print + Input + AllocGlobal>(
    rt: &R,
) -> BlockConsole<R::Reader, io::Printer<'_, R>> {
    BlockConsole::new(rt.alloc(), rt.reader(), io::writer(rt))
}

// Runs an image as a job says, reports how it ended, and returns the status.
fn run_image<R: Eprint + AllocGlobal, I: BufRead, O: Write>(
    rt: &R,
    job: &Job<'_>,
    image: &[u8],
    console: &mut BlockConsole<I, O>,
) -> u8
    ensures { RanImage image.now (limits_in job.now) (console_world I.remaining O.contents console.old)
        (console_world I.remaining O.contents console.new) (held_of console.new) (has_failed console.new) result }
{
    let end = run_through(rt.alloc(), image, budget_of(job), console, job.steps);
    report_end(rt, &end)
}

// The same for a text.
fn go_text<R: Eprint + AllocGlobal, I: BufRead, O: Write>(
    rt: &R,
    job: &Job<'_>,
    text: &[u8],
    console: &mut BlockConsole<I, O>,
) -> u8
    ensures { RanText text.now (limits_in job.now) (console_world I.remaining O.contents console.old)
        (console_world I.remaining O.contents console.new) (held_of console.new) (has_failed console.new) result }
{
    let end = go_through(rt.alloc(), text, budget_of(job), console, job.steps);
    report_end(rt, &end)
}

fn run_file<R: Files + Print + Eprint + Input + AllocGlobal>(
    rt: &R,
    job: &Job<'_>,
    path: &str,
    with_usage: bool,
) -> u8
    requires { work_of job.now.task ≡ work.run path.now }
    ensures { IsStatus (request_in job.now) result }
{
    match read_file(rt, path, IMAGE_LIMIT) {
        Ok(image) if with_usage => measure_image(rt, job, &image, &mut console(rt)),
        Ok(image) => run_image(rt, job, &image, &mut console(rt)),
        Err(status) => status,
    }
}

fn go_file<R: Files + Print + Eprint + Input + AllocGlobal>(
    rt: &R,
    job: &Job<'_>,
    path: &str,
    with_usage: bool,
) -> u8
    requires { work_of job.now.task ≡ work.go path.now }
    ensures { IsStatus (request_in job.now) result }
{
    match read_file(rt, path, TEXT_LIMIT) {
        Ok(text) if with_usage => measure_text(rt, job, &text),
        Ok(text) => go_text(rt, job, &text, &mut console(rt)),
        Err(status) => status,
    }
}

// Runs an image as `run_image` does, and reports how much the run took.
fn measure_image<R: Eprint + AllocGlobal, I: BufRead, O: Write>(
    rt: &R,
    job: &Job<'_>,
    image: &[u8],
    console: &mut BlockConsole<I, O>,
) -> u8
    ensures { RanImage image.now (limits_in job.now) (console_world I.remaining O.contents console.old)
        (console_world I.remaining O.contents console.new) (held_of console.new) (has_failed console.new) result }
{
    match usage_through(rt.alloc(), image, budget_of(job), console, job.steps) {
        Ok(used) => {
            let status = report_end(rt, &Ok(used.outcome));
            tell_usage(rt, used.usage);
            status
        }
        Err(refusal) => report_end(rt, &Err(refusal)),
    }
}

// Reports how much a run took.
fn tell_usage<R: Eprint + AllocGlobal>(rt: &R, usage: Usage) {
    if let Ok(told) = usage_line(rt.alloc(), usage) {
        let _ = rt.eprint(told.as_str());
    }
}

// Builds a text, runs its image and reports how much the run took.
fn measure_text<R: Print + Eprint + Input + AllocGlobal>(rt: &R, job: &Job<'_>, text: &[u8]) -> u8
    ensures { RanOf text.now (limits_in job.now) result ⊎ ((result ≡ FAILED) × IsRefusedText text.now) }
{
    match build(rt.alloc(), text) {
        Ok(built) => measure_image(rt, job, built.bytes(), &mut console(rt)),
        Err(refusal) => report_end(rt, &Err(refusal)),
    }
}

// Since the text comes from standard input, the run's own input is empty.
fn go_standard_input<R: Print + Eprint + Input + AllocGlobal>(rt: &R, job: &Job<'_>) -> u8
    requires { work_of job.now.task ≡ work.go_standard_input }
    ensures { IsStatus (request_in job.now) result }
{
    let text = match read_standard_input(rt, TEXT_LIMIT) {
        Ok(text) => text,
        Err(status) => return status,
    };
    let mut console = BlockConsole::new(rt.alloc(), io::empty(), io::writer(rt));
    go_text(rt, job, &text, &mut console)
}

// ---- pages

// Shows the pages that a topic selects, or the titles of all pages if it is empty.
fn explain<R: Print + Eprint + AllocGlobal>(rt: &R, job: &Job<'_>, topic: &str) -> u8
    requires { work_of job.now.task ≡ work.explain topic.now }
    ensures { IsStatus (request_in job.now) result }
{
    let _ = job;
    if topic.is_empty() {
        print_titles(rt)
    } else {
        print_pages(rt, topic)
    }
}

// Shows the titles of all pages.
fn print_titles<R: Print + Eprint + AllocGlobal>(rt: &R) -> u8
    ensures { result ≤ FAILED }
{
    match titles(rt.alloc()) {
        Ok(text) => print_all(rt, text.as_bytes()),
        Err(_) => out_of_memory(rt),
    }
}

// Shows the pages that a topic selects.
fn print_pages<R: Print + Eprint + AllocGlobal>(rt: &R, topic: &str) -> u8
    ensures status { result ≤ FAILED }
    ensures found { result ≡ 0 → has_page topic.now ≡ true }
{
    match pages_on(rt.alloc(), topic) {
        Ok(text) => print_found(rt, topic, text.as_str()),
        Err(_) => out_of_memory(rt),
    }
}

// Shows what there is on a topic, which may be nothing.
fn print_found<R: Print + Eprint + AllocGlobal>(rt: &R, topic: &str, text: &str) -> u8
    ensures status { result ≤ FAILED }
    ensures found { result ≡ 0 → 0 < length text.now }
{
    if text.is_empty() {
        tell_no_page(rt, topic)
    } else {
        print_all(rt, text.as_bytes())
    }
}

// Reports that there is no page on a topic, and which pages there are.
fn tell_no_page<R: Eprint + AllocGlobal>(rt: &R, topic: &str) -> u8
    ensures { result ≡ FAILED }
{
    let Ok(text) = titles(rt.alloc()) else {
        return out_of_memory(rt);
    };
    let titles = text.as_str();
    let status = tell(rt, format!(in rt.alloc(); "cannot explain {topic}"));
    let _ = eprint!(rt; "the pages are:\n{titles}");
    status
}
