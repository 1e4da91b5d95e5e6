// One call of the program: its words, its files, and what it reports.

use crate::phases::take_standard_input;
use crate::places::tell_of_standard_input;
use crate::rows::answer_all;
use crate::runs::{Failure, Limits, Runner, Shown, run_text};
use pascal_command::Task;
use pascal_session::{
    Counted, TEXT_LIMIT, asked, put_all, read_file, read_standard_input, report_end, texts, words,
};
use ps_build::Outcome;
use std::io;
use std::rt::{Env, Files};

// The most bytes that are read of an input.
const INPUT_LIMIT: usize = 16_777_216;

// The status of words that request an image, and of rows that end with a fault.
const FAILED: u8 = 1;

// The status of a run that the host could not hold.
const GIVEN_UP: u8 = 6;

/// Does what the program's words request, and returns its status.
pub fn run<R: Files + Print + Eprint + Input + Env + AllocGlobal>(rt: &R) -> u8 {
    let words = match words(rt) {
        Ok(words) => words,
        Err(status) => return status,
    };
    match texts(rt, &words) {
        Ok(texts) => run_texts(rt, &texts),
        Err(status) => status,
    }
}

fn run_texts<R: Files + Print + Eprint + Input + AllocGlobal>(rt: &R, texts: &[&str]) -> u8 {
    match texts {
        ["slots", others @ ..] => run_job(rt, Runner::Slots, others),
        ["phases", last] => take_standard_input(rt, last),
        ["places"] => tell_of_standard_input(rt),
        ["tables"] => match answer_all(rt) {
            Ok(()) => 0,
            Err(_) => FAILED,
        },
        _ => run_job(rt, Runner::Meaning, texts),
    }
}

fn run_job<R: Files + Print + Eprint + Input + AllocGlobal>(
    rt: &R,
    runner: Runner,
    words: &[&str],
) -> u8 {
    let job = match asked(rt, words) {
        Ok(job) => job,
        Err(status) => return status,
    };
    let limits = Limits {
        stack: job.stack,
        heap: job.heap,
        steps: job.steps,
    };
    match read_task(rt, &job.task) {
        Ok(given) => go(rt, runner, &given, limits),
        Err(status) => status,
    }
}

// A text and the input that its program runs on.
#[derive(Drop)]
struct Given {
    text: Vec<u8>,
    input: Vec<u8>,
}

// The text and the input of a job's run. If there are none, that is reported, and the status is returned.
fn read_task<R: Files + Eprint + Input + AllocGlobal>(
    rt: &R,
    task: &Task<'_>,
) -> Result<Given, u8> {
    match task {
        Task::Go { source } => Ok(Given {
            text: read_file(rt, source, TEXT_LIMIT)?,
            input: read_standard_input(rt, INPUT_LIMIT)?,
        }),
        Task::GoStandardInput => Ok(Given {
            text: read_standard_input(rt, TEXT_LIMIT)?,
            input: Vec::new(rt.alloc()),
        }),
        Task::Compile { .. }
        | Task::List { .. }
        | Task::Run { .. }
        | Task::Explain { .. }
        | Task::Check { .. }
        | Task::Certify { .. }
        | Task::Verify { .. }
        | Task::Needs { .. }
        | Task::Watch { .. } => {
            let _ = eprintln!(rt; "pascal_reference has no images: it runs a text by `go`");
            Err(FAILED)
        }
    }
}

// Runs a text on its input, writes what the run writes, and reports how it ended.
fn go<R: Print + Eprint + AllocGlobal>(
    rt: &R,
    runner: Runner,
    given: &Given,
    limits: Limits,
) -> u8 {
    match run_text(rt.alloc(), runner, &given.text, &given.input, limits) {
        Ok(shown) => report_end(rt, &Ok(written(rt, &shown))),
        Err(Failure::Refused(refusal)) => report_end(rt, &Err(refusal)),
        Err(Failure::TooDeep) => give_up(rt, "too deep for the host's stack"),
        Err(Failure::NoTranscript) => give_up(rt, "no transcript of a run"),
    }
}

// Writes what a run wrote, and returns how it ended.
fn written<R: Print>(rt: &R, shown: &Shown) -> Outcome {
    match put_all(&mut Counted::new(io::writer(rt)), &shown.bytes) {
        Ok(()) => shown.outcome,
        Err(_) => Outcome::OutputFault,
    }
}

fn give_up<R: Eprint>(rt: &R, reason: &str) -> u8 {
    let _ = eprintln!(rt; "given up: {reason}");
    GIVEN_UP
}
