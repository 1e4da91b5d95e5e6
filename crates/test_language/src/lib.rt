//! Tests: answers rows about texts, by the front of the compiler, the checker and the reference interpreter.
#![tactic(auto)]

pub mod blocks;
pub mod check;
pub mod front;
mod program;
mod regions;
mod runs;
mod shown;
mod texts;
pub mod tokens;
mod types;

pub use program::parsed;
pub use runs::{RunSettings, defaults, run_of_text};
use std::alloc::Global;
use test_tables::Line;

/// The question about a row's text.
#[derive(Clone, Copy)]
pub enum Table {
    Lengths,
    Lines,
    Slices,
    Tokens(tokens::TokenQuery),
    Values,
    Tree(front::TreeQuery),
    Regions,
    Program(check::ProgramQuery),
}

/// Puts what is to be shown for a row.
pub fn answer(alloc: Global, line: &mut Line, table: Table, text: &[u8], settings: &RunSettings) {
    match table {
        Table::Lengths => texts::put_length(alloc, line, text),
        Table::Lines => texts::put_lines(alloc, line, text),
        Table::Slices => texts::put_slice(line, text),
        Table::Tokens(asked) => tokens::put_tokens(alloc, line, text, asked),
        Table::Values => tokens::put_value(alloc, line, text),
        Table::Tree(asked) => front::answer(alloc, line, text, asked),
        Table::Regions => regions::put_found(alloc, line, text),
        Table::Program(asked) => check::answer(alloc, line, text, asked, settings),
    }
}
