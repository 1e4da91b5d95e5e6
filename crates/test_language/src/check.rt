//! What the checker says of program texts, and answers about the programs that it accepts.

use crate::front::put_refusal;
use crate::program::checked;
use crate::runs::{RunSettings, put_output, put_run, put_trail};
use ps_tree::program::Checked;
use std::alloc::Global;
use test_tables::Line;

/// The question about a checked program.
#[derive(Clone, Copy)]
pub enum ProgramQuery {
    /// Whether there is one.
    Verdict,
    /// The nodes and the cells of each of its routines, and how many domain types it has.
    Counts,
    /// How its run ends, and what the run shows.
    Run,
    /// The lines that `trail` returns for its run.
    Trail,
    /// The bytes that `output` makes of its run's transcript.
    Output,
}

fn put_counts(line: &mut Line, program: &Checked) {
    let count = u32::try_from(program.routines().len()).unwrap_or(0);
    for routine in 0..count {
        line.space();
        line.valued("", &program.nodes(routine));
        line.valued("/", &program.cells(routine));
    }
    line.valued(", domains ", &program.domains().len());
}

fn put_asked(
    alloc: Global,
    line: &mut Line,
    program: &Checked,
    asked: ProgramQuery,
    settings: &RunSettings,
) {
    match asked {
        ProgramQuery::Verdict => line.word("accepted"),
        ProgramQuery::Counts => put_counts(line, program),
        ProgramQuery::Run => put_run(alloc, line, program, settings),
        ProgramQuery::Output => put_output(alloc, line, program, settings),
        ProgramQuery::Trail => put_trail(alloc, line, program, settings),
    }
}

/// Puts the answer about the program of a text, or the text's refusal.
pub(crate) fn answer(
    alloc: Global,
    line: &mut Line,
    text: &[u8],
    asked: ProgramQuery,
    settings: &RunSettings,
) {
    match checked(alloc, text) {
        Ok(program) => {
            put_asked(alloc, line, &program, asked, settings);
            drop(program);
        }
        Err(refusal) => put_refusal(line, refusal),
    }
}
