// Runs of a text: by the reference interpreter of its meaning, and by an image with a slot of the frame for each
// temporary.

use ps_build::{
    Budget as ImageBudget, Outcome, Refusal, Trail, Variables, build_placed, run_image,
};
use ps_meaning_runner::ending::Ending;
use ps_meaning_runner::run::{Ran, Refusal as MeaningRefusal, TranscriptFault, output};
use risc_alloc::placer::EverySlot;
use risc_machine::Fused;
use std::alloc::{AllocError, Global};
use test_language::run_of_text;

/// How a text is run.
#[derive(Clone, Copy)]
pub enum Runner {
    Meaning,
    Slots,
}

/// The limits of a run: bytes of stack and heap, which only an image observes, and steps.
#[derive(Clone, Copy)]
pub struct Limits {
    pub stack: u32,
    pub heap: u32,
    pub steps: u64,
}

/// What a run showed: the bytes that it wrote, and how it ended.
#[derive(Drop)]
pub struct Shown {
    pub bytes: Vec<u8>,
    pub outcome: Outcome,
}

/// Why a run shows nothing.
#[derive(Clone, Copy)]
pub enum Failure {
    Refused(Refusal),
    /// Calls, statements and expressions are nested too deeply for the host.
    TooDeep,
    /// The transcript is not that of a run.
    NoTranscript,
}

impl From<AllocError> for Failure {
    fn from(_error: AllocError) -> Failure {
        Failure::Refused(Refusal::OutOfMemory)
    }
}

impl From<Refusal> for Failure {
    fn from(refusal: Refusal) -> Failure {
        Failure::Refused(refusal)
    }
}

impl From<MeaningRefusal> for Failure {
    fn from(refusal: MeaningRefusal) -> Failure {
        match refusal {
            MeaningRefusal::OutOfMemory => Failure::Refused(Refusal::OutOfMemory),
            MeaningRefusal::TooDeep => Failure::TooDeep,
        }
    }
}

impl From<TranscriptFault> for Failure {
    fn from(fault: TranscriptFault) -> Failure {
        match fault {
            TranscriptFault::OutOfMemory => Failure::Refused(Refusal::OutOfMemory),
            TranscriptFault::NoByteAndNoMark => Failure::NoTranscript,
        }
    }
}

// How deeply calls, statements and expressions may be nested: this takes some 80 MB of the host's stack; the launcher
// requests all of it.
const DEPTH: u32 = 20_000;

// The most lines of open calls in an outcome.
const MOST_CALLS: usize = 16;

// The most bytes that an image writes here.
const OUTPUT_LIMIT: usize = 16_777_216;

/// The run of a text on an input. The steps are the fuel of its meaning, or those of the processor.
pub fn run_text(
    alloc: Global,
    runner: Runner,
    text: &[u8],
    input: &[u8],
    limits: Limits,
) -> Result<Shown, Failure> {
    match runner {
        Runner::Meaning => by_meaning(alloc, text, input, limits.steps),
        Runner::Slots => by_slots(alloc, text, input, limits),
    }
}

fn by_meaning(alloc: Global, text: &[u8], input: &[u8], steps: u64) -> Result<Shown, Failure> {
    let ran: Ran = run_of_text(alloc, text, input, steps, DEPTH)??;
    let outcome = outcome_of(ran.ending, &ran.calls);
    let bytes = output(alloc, &ran.transcript);
    drop(ran);
    Ok(Shown {
        bytes: bytes?,
        outcome,
    })
}

fn by_slots(alloc: Global, text: &[u8], input: &[u8], limits: Limits) -> Result<Shown, Failure> {
    let built = build_placed(alloc, text, &EverySlot, Variables::InFrames)?;
    let shown = shown_by_image(alloc, built.bytes(), input, limits);
    drop(built);
    shown
}

// The result of the run of an image.
fn shown_by_image(
    alloc: Global,
    image: &[u8],
    input: &[u8],
    limits: Limits,
) -> Result<Shown, Failure> {
    let mut console = Fused::new(alloc, input, OUTPUT_LIMIT, 0, 0)?;
    let budget = ImageBudget {
        stack: limits.stack,
        heap: limits.heap,
    };
    let end = run_image(alloc, image, budget, &mut console, limits.steps);
    let bytes = console.output().to_vec(alloc);
    drop(console);
    shown_at(end, bytes)
}

// The result of a run that ended and wrote these bytes.
fn shown_at(
    end: Result<Outcome, Refusal>,
    bytes: Result<Vec<u8>, AllocError>,
) -> Result<Shown, Failure> {
    let outcome = end?;
    Ok(Shown {
        bytes: bytes?,
        outcome,
    })
}

// The end of a run, as `pascal go` reports it, with the lines of the calls that were open at it.
fn outcome_of(ending: Ending, calls: &[u32]) -> Outcome {
    match ending {
        Ending::Normal => Outcome::Normal,
        Ending::Error { number, line } => Outcome::Error {
            number: u32::from(number),
            line: u32::from(line),
            trail: Some(trail_of(calls)),
        },
        Ending::Stack { line } => Outcome::Stack {
            number: 12,
            line: u32::from(line),
        },
        Ending::Heap { line } => Outcome::Heap {
            number: 13,
            line: u32::from(line),
        },
        Ending::More => Outcome::Steps,
    }
}

// The first of the lines, as many as are reported.
fn trail_of(calls: &[u32]) -> Trail {
    let mut trail = Trail::new();
    for line in calls {
        if trail.len() < MOST_CALLS {
            trail.push(*line);
        }
    }
    trail
}
