//! The map of an image.

use crate::places::Place;
use crate::variables::Variable;

/// The owner of a word of the code.
#[derive(Clone, Copy, PartialEq, Eq)]
pub enum Owner {
    /// The start of the program, and the stub for its stops.
    Start,
    /// A routine of the program, by its number; 0 is the program block.
    Routine(u32),
    /// A routine of the run-time library, by its number there.
    RunTime(u32),
    /// The strings of the text, after all code.
    Strings,
}

/// What the words from one on belong to, up to the word of the next row.
#[derive(Clone, Copy)]
pub struct Row {
    /// The first of the words, by its number in the code.
    pub word: u32,
    pub owner: Owner,
    /// Where the statement begins to which they belong; `None` for what a routine does before and after its statements.
    pub statement: Option<Place>,
    /// The token at which an error or a call there is reported, if there is one.
    pub token: Option<Place>,
}

/// A routine of the program.
#[derive(Drop)]
pub struct Routine {
    /// As it is written; for the program block, the name of the program.
    pub name: String,
    /// Where the `begin` of its block is.
    pub begin: Place,
    /// Its first word, by its number in the code.
    pub entry: u32,
    /// Where the words of its variables begin in one of its activations, in bytes.
    pub frame: u32,
    /// Its result, its parameters and its variables, in the order of their homes.
    pub variables: Vec<Variable>,
}

/// Where in its text each word of an image belongs.
#[derive(Drop)]
pub struct Map {
    /// By their numbers.
    pub routines: Vec<Routine>,
    /// In increasing order of their words.
    pub rows: Vec<Row>,
}

impl Map {
    /// The rows that begin at or before a word of the code.
    pub fn rows_up_to(&self, word: u32) -> &[Row] {
        let behind = self.rows.partition_point(|row| row.word <= word);
        self.rows.get(..behind).unwrap_or(&[])
    }

    /// What a word of the code belongs to: the last row that begins at or before it.
    pub fn row_of(&self, word: u32) -> Option<Row> {
        self.rows_up_to(word).last().copied()
    }

    /// What the word before an address belongs to. A link, of a call or of a stop, is the address after its word.
    pub fn row_of_link(&self, link: u32) -> Option<Row> {
        match (link / 4).checked_sub(1) {
            Some(word) => self.row_of(word),
            None => None,
        }
    }

    /// The name of a routine of the program.
    pub fn name_of(&self, routine: u32) -> Option<&str> {
        match self.routines.get(routine as usize) {
            Some(routine) => Some(routine.name.as_str()),
            None => None,
        }
    }
}
