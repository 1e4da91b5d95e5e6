//! Tests: tables of cases, whose rows a program reads as questions and repeats with its answers.
//!
//! The questions come on standard input, and the answers go to standard output.
//!
//! A line `== NAME` begins a table. A line `? | TEXT` is a row, and comes out as `ANSWER | TEXT`; a line that begins
//! with a space continues the text before it. A line `- WORD REST` is a setting of the next row. Lines that begin with
//! `#` are remarks. All lines but the rows' come out as they are, so that the wanted output shows each case completely,
//! and the input is the wanted output with a question mark instead of each answer.
//!
//! In a text `~` represents the end of a line, and `\` with two hexadecimal digits a byte; so they do in an answer.
#![tactic(auto)]

mod line;
mod text;
pub mod words;

pub use line::Line;
use std::alloc::{AllocError, Global};
use std::io::{self, BufRead, BufReader};
use text::{escaped, text_of};

/// What answers the rows of tables.
pub trait Answers {
    /// A table begins.
    fn begin(&mut self, table: &str);

    /// A line is a setting of the next row: a word and what comes after it, as it is written and as a text.
    fn set(&mut self, word: &str, rest: &str, text: Vec<u8>) -> Result<(), AllocError>;

    /// What is to be shown for a row. Its settings apply to no other row.
    fn answer(&mut self, alloc: Global, text: &[u8]) -> Result<String, AllocError>;
}

/// A row: whether there is one, and what is written after its bar.
#[derive(Drop)]
struct Row {
    is_begun: bool,
    written: String,
}

impl Row {
    /// Begins the row with what is written after its bar.
    fn begin(&mut self, written: &str) -> Result<(), AllocError> {
        self.is_begun = true;
        self.written.push_str(written)
    }

    /// Goes on with a line.
    fn go_on(&mut self, line: &str) -> Result<(), AllocError> {
        self.written.push('\n')?;
        self.written.push_str(line)
    }
}

/// The answer to a row, as tables write it.
fn shown_answer<T: Answers>(
    alloc: Global,
    answers: &mut T,
    written: &str,
) -> Result<String, AllocError> {
    // the space belongs to the bar
    let text = text_of(alloc, written.strip_prefix(" ").unwrap_or(written))?;
    let answer = answers.answer(alloc, &text);
    drop(text);
    escaped(alloc, answer?.as_str())
}

/// Shows the row, if there is one; then there is none.
fn show<R: Print + AllocGlobal, T: Answers>(
    rt: &R,
    answers: &mut T,
    row: &mut Row,
) -> io::Result<()> {
    if !row.is_begun {
        return Ok(());
    }
    let shown = shown_answer(rt.alloc(), answers, row.written.as_str())?;
    let end = println!(rt; "{shown} |{}", row.written);
    row.is_begun = false;
    row.written = String::new(rt.alloc());
    end
}

/// Takes a setting of the next row from a line.
fn tell<T: Answers>(alloc: Global, answers: &mut T, told: &str) -> Result<(), AllocError> {
    let (word, rest) = told.split_once(' ').unwrap_or((told, ""));
    let text = text_of(alloc, rest)?;
    answers.set(word, rest, text)
}

/// Takes a line that is part of no row.
fn take_other<R: Print + AllocGlobal, T: Answers>(
    rt: &R,
    answers: &mut T,
    line: &str,
) -> io::Result<()> {
    if let Some(table) = line.strip_prefix("== ") {
        answers.begin(table);
    } else if let Some(told) = line.strip_prefix("- ") {
        tell(rt.alloc(), answers, told)?;
    }
    rt.println(line)
}

fn take<R: Print + AllocGlobal, T: Answers>(
    rt: &R,
    answers: &mut T,
    row: &mut Row,
    line: &str,
) -> io::Result<()> {
    if row.is_begun && line.starts_with(" ") {
        row.go_on(line)?;
        return Ok(());
    }
    show(rt, answers, row)?;
    match line.strip_prefix("? |") {
        Some(written) => row.begin(written)?,
        None => take_other(rt, answers, line)?,
    }
    Ok(())
}

/// Takes a line if it could be read.
fn take_read<R: Print + AllocGlobal, T: Answers>(
    rt: &R,
    answers: &mut T,
    row: &mut Row,
    line: io::Result<String>,
) -> io::Result<()> {
    let line = line?;
    take(rt, answers, row, line.as_str())
}

/// Takes the lines of standard input.
fn take_all<R: Input + Print + AllocGlobal, T: Answers>(
    rt: &R,
    answers: &mut T,
    row: &mut Row,
) -> io::Result<()> {
    let alloc = rt.alloc();
    for line in BufReader::new(alloc, rt.reader())?.lines(alloc) {
        take_read(rt, answers, row, line)?;
    }
    Ok(())
}

/// Answers the rows of the tables on standard input.
pub fn answer_rows<R: Input + Print + AllocGlobal, T: Answers>(
    rt: &R,
    answers: &mut T,
) -> io::Result<()> {
    let mut row = Row {
        is_begun: false,
        written: String::new(rt.alloc()),
    };
    take_all(rt, answers, &mut row)?;
    show(rt, answers, &mut row)
}
