//! The table of what other Pascals and other languages have, and what is reported for a row.

use crate::table::{numbers_of, text_at};

/// Where a text is refused, in the parts of docs/OTHER_PASCALS.md.
#[derive(Clone, Copy)]
pub enum Part {
    /// Before the first `;`.
    Program,
    Declarations,
    /// A list of formal parameters.
    Parameters,
    /// The heading of a function after its parameters.
    Result,
    Statements,
    /// Statements of a function.
    Function,
    /// What this compiler leaves out among statements.
    StatementsLeftOut,
    /// What this compiler leaves out among declarations.
    DeclarationsLeftOut,
    Comments,
}

/// A row: what a text has, where it comes from, and what to write instead.
#[derive(Clone, Copy)]
pub struct Row {
    /// Its tokens, with a space between two; `NAME` represents any name.
    pub word: &'static str,
    /// What the innermost open construction begins with, where that counts; otherwise empty.
    pub within: &'static str,
    /// Whether it is reported at the token after it too.
    pub is_behind: bool,
    /// Where it comes from, in one word.
    pub of: &'static str,
    /// The number of the refusal, if it is one.
    pub number: Option<u8>,
    /// What replaces it, if that is all; empty if it is removed.
    pub mend: Option<&'static str>,
    /// What to do.
    pub advice: &'static str,
}

impl Row {
    /// Where it comes from, as it is shown.
    pub fn origin(&self) -> &'static str {
        match self.of {
            "Turbo" => "Turbo Pascal",
            "Extended" => "Extended Pascal",
            "other" => "other languages",
            of => of,
        }
    }
}

// The first cell of a line, and what is after it.
fn cell_of(line: &'static str) -> (&'static str, &'static str) {
    match line.split_once('\t') {
        Some(both) => both,
        None => (line, ""),
    }
}

/// The row of a line.
pub(crate) fn row_of(line: &'static str) -> Row {
    let (word, rest) = cell_of(line);
    let (within, rest) = cell_of(rest);
    let (behind, rest) = cell_of(rest);
    let (of, rest) = cell_of(rest);
    let (number, rest) = cell_of(rest);
    let (mend, advice) = cell_of(rest);
    Row {
        word,
        within,
        is_behind: !behind.is_empty(),
        of,
        number: number.parse::<u8>().ok(),
        mend: mend.strip_prefix('='),
        advice,
    }
}

// The row of a word in a text, if it has one.
fn row_in_text(text: &'static str, word: &str) -> Option<Row> {
    for line in text.split('\n') {
        let row = row_of(line);
        if row.word.eq_ignore_ascii_case(word) {
            return Some(row);
        }
    }
    None
}

// The row of a word, or of a sign, in a part of the table alone.
fn row_in_part(part: Part, word: &str) -> Option<Row> {
    let (first, end) = numbers_of(part);
    for number in first..end {
        if let Some(row) = row_in_text(text_at(number), word) {
            return Some(row);
        }
    }
    None
}

/// The row of a word, or of a sign, in a part of the table, if it has one: for the result of a function in the part of
/// declarations, if its own has none. Upper and lower case are the same.
pub fn other_pascal(part: Part, word: &str) -> Option<Row> {
    match row_in_part(part, word) {
        None if matches!(part, Part::Result) => row_in_part(Part::Declarations, word),
        row => row,
    }
}
