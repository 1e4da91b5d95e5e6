//! Tests: answers rows about three-address code, its homes, and the processor's words, machine and images.
#![tactic(auto)]

mod devices;
mod fields;
mod homes;
mod images;
mod instructions;
mod machines;
pub mod programs;
mod runs;
mod settings;
mod steps;
mod texts;
mod words;

pub use settings::{RowSettings, defaults};
use std::alloc::{AllocError, Global};
use test_tables::Line;
use test_tables::words::letters;

/// The question that a row asks.
#[derive(Clone, Copy)]
pub enum Table {
    Programs(programs::CodeQuery),
    Words,
    Steps,
    Runs,
    Streamed,
    Devices,
    Started,
    Images,
    Written,
    Loaded,
}

/// Puts what is to be shown of a row. The error is that memory was short.
pub fn answer(
    alloc: Global,
    line: &mut Line,
    table: Table,
    text: &[u8],
    settings: &RowSettings,
) -> Result<(), AllocError> {
    let row = letters(text);
    match table {
        Table::Programs(asked) => return programs::answer(alloc, line, row, asked, settings),
        Table::Runs => return runs::put_runs(alloc, line, row, settings),
        Table::Streamed => return runs::put_streamed(alloc, line, row, settings),
        Table::Started => return runs::put_started(alloc, line, text, settings),
        Table::Steps => return steps::put_step(alloc, line, row),
        Table::Written => return images::put_written(alloc, line),
        Table::Loaded => images::put_loaded(alloc, line, text, settings),
        Table::Images => images::put_read(line, text, settings),
        Table::Words => words::put_decoded(alloc, line, row),
        Table::Devices => devices::put_called(line, row),
    }
    Ok(())
}
