//! Programs that are built and run, and images that are run.

use pascal_session::message;
use ps_build::{Budget, Built, Outcome, Refusal, build, go, list, run_image};
use risc_machine::{Fused, Streams};
use std::alloc::{AllocError, Global};
use test_tables::Line;
use test_tables::words::{u32_of, u64_of};

/// The settings of a run: its budget, its steps, and the put that fails.
#[derive(Clone, Copy)]
pub(crate) struct CallSettings {
    budget: Budget,
    steps: u64,
    failing_put: u64,
}

/// The settings of a run without any: the default budget, and no put fails.
pub(crate) fn defaults() -> CallSettings {
    CallSettings {
        budget: Budget {
            stack: 4_194_304,
            heap: 1_048_576,
        },
        steps: 1000,
        failing_put: 0,
    }
}

impl CallSettings {
    /// Takes a setting of the run from a line.
    pub(crate) fn set(&mut self, word: &str, rest: &str) {
        match word {
            "stack" => self.budget.stack = u32_of(rest),
            "heap" => self.budget.heap = u32_of(rest),
            "steps" => self.steps = u64_of(rest),
            "put" => self.failing_put = u64_of(rest),
            _ => {}
        }
    }
}

/// Puts how a run ended.
pub(crate) fn put_end(line: &mut Line, end: Result<Outcome, Refusal>) {
    match end {
        Ok(outcome) => line.seen("", &outcome),
        Err(refusal) => line.seen("refused: ", &refusal),
    }
}

/// Puts how the run of a text ends, and what it writes, in brackets.
pub(crate) fn put_gone(
    alloc: Global,
    line: &mut Line,
    text: &[u8],
    settings: CallSettings,
) -> Result<(), AllocError> {
    let mut console = Fused::new(alloc, b"", 100, 0, settings.failing_put)?;
    put_end(
        line,
        go(alloc, text, settings.budget, &mut console, settings.steps),
    );
    line.word(" ");
    line.bracketed(console.output());
    Ok(())
}

/// Puts how the run of an image ends, and what it writes, in brackets.
pub(crate) fn put_run(
    alloc: Global,
    line: &mut Line,
    image: &[u8],
    settings: CallSettings,
) -> Result<(), AllocError> {
    let mut console = Fused::new(alloc, b"", 100, 0, settings.failing_put)?;
    put_end(
        line,
        run_image(alloc, image, settings.budget, &mut console, settings.steps),
    );
    line.word(" ");
    line.bracketed(console.output());
    Ok(())
}

/// Puts what is reported of the run of an image.
pub(crate) fn put_reported(
    alloc: Global,
    line: &mut Line,
    image: &[u8],
    settings: CallSettings,
) -> Result<(), AllocError> {
    let mut console = Fused::new(alloc, b"", 100, 0, settings.failing_put)?;
    let end = run_image(alloc, image, settings.budget, &mut console, settings.steps);
    line.text(message(alloc, &end));
    Ok(())
}

/// The question about the image that is built from a text.
#[derive(Clone, Copy)]
pub(crate) enum BuiltQuery {
    /// Whether there is one.
    Built,
    /// Its listing.
    Listed,
    /// How it runs.
    Ran,
}

/// Puts the answer about the image that is built from a text, or the text's refusal.
pub(crate) fn answer(
    alloc: Global,
    line: &mut Line,
    text: &[u8],
    asked: BuiltQuery,
    settings: CallSettings,
) -> Result<(), AllocError> {
    match build(alloc, text) {
        Ok(built) => {
            let end = put_asked(alloc, line, &built, asked, settings);
            drop(built);
            end
        }
        Err(refusal) => {
            line.seen("", &refusal);
            Ok(())
        }
    }
}

fn put_asked(
    alloc: Global,
    line: &mut Line,
    built: &Built,
    asked: BuiltQuery,
    settings: CallSettings,
) -> Result<(), AllocError> {
    match asked {
        BuiltQuery::Built => line.word("built"),
        BuiltQuery::Listed => line.text(list(alloc, built)),
        BuiltQuery::Ran => return put_run(alloc, line, built.bytes(), settings),
    }
    Ok(())
}

/// Puts how the run of a text ends whose output goes to a writer, and what is written, in brackets.
pub(crate) fn put_written(alloc: Global, line: &mut Line, text: &[u8], settings: CallSettings) {
    let input: &[u8] = b"";
    let mut console = Streams::new(input, Vec::new(alloc));
    put_end(
        line,
        go(alloc, text, settings.budget, &mut console, settings.steps),
    );
    let (_, output) = console.into_parts();
    line.word(" ");
    line.bracketed(&output);
}
