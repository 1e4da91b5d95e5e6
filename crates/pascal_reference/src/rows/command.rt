// What the public functions of ps_build and of the command say of the rows of their tables.

mod command_line;
mod devices;
pub(crate) mod programs;
mod reports;
mod transfers;

pub(crate) use programs::{CallSettings, defaults};
use std::alloc::{AllocError, Global};
use test_tables::Line;
use test_tables::words::letters;

/// The question that a row asks.
#[derive(Clone, Copy)]
pub(crate) enum Table {
    Built(programs::BuiltQuery),
    Go,
    Writers,
    Images,
    Calls,
    Reports,
    Words,
    Puts,
    Reads,
    Texts,
}

/// Puts what is to be shown for a row. The error means out of memory.
pub(crate) fn answer(
    alloc: Global,
    line: &mut Line,
    table: Table,
    text: &[u8],
    settings: CallSettings,
) -> Result<(), AllocError> {
    let words = letters(text);
    match table {
        Table::Built(asked) => return programs::answer(alloc, line, text, asked, settings),
        Table::Go => return programs::put_gone(alloc, line, text, settings),
        Table::Images => return programs::put_run(alloc, line, text, settings),
        Table::Calls => return programs::put_reported(alloc, line, text, settings),
        Table::Words => return command_line::put_asked(alloc, line, words),
        Table::Reads => transfers::put_read(alloc, line, words),
        Table::Writers => programs::put_written(alloc, line, text, settings),
        Table::Reports => reports::put_report(alloc, line, words),
        Table::Puts => transfers::put_taken(alloc, line, words),
        Table::Texts => transfers::put_gone(alloc, line, words),
    }
    Ok(())
}
