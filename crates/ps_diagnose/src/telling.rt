//! A message while it is put together: its sentence, second places, helps and changes that are worth a trial. If out of
//! memory, that is remembered to the end, and what would have been added is left out: so a single test is enough.

use crate::draft::{Draft, Trial};
use ps_diagnostic::{Edit, Label};
use ps_text::Span;
use std::alloc::{AllocError, Global};

// Once a text has this many bytes, nothing more is added: what is said or proposed is short, and its pieces are parts
// of the program, as long and as many as the program has them.
const MOST: usize = 16_384;

// How many bytes are shown of a piece that is too long: many lines of a report may have it.
const SHOWN: usize = 100;

/// A text being put together. It is cut if it gets too long.
#[derive(Drop)]
pub struct Text {
    pub string: String,
    /// Whether memory was refused for it.
    pub has_failed: bool,
    /// Whether something was left out.
    pub is_cut: bool,
}

// How a piece begins: at most the bytes that are shown of one that is too long, and no part of a character.
fn beginning(piece: &str) -> &str {
    let bytes = piece.as_bytes().get(..SHOWN).unwrap_or(piece.as_bytes());
    match bytes.utf8_chunks().next() {
        Some(chunk) => chunk.valid(),
        None => "",
    }
}

/// Adds a name or another piece of a program as it is shown: one of more than 100 bytes as it begins, followed by `..`.
pub fn put_shown(out: &mut String, piece: &str) -> Result<(), AllocError> {
    if piece.len() <= SHOWN {
        return out.push_str(piece);
    }
    out.push_str(beginning(piece))?;
    out.push_str("..")
}

impl Text {
    /// A text without anything.
    pub fn new(alloc: Global) -> Text {
        Text {
            string: String::new(alloc),
            has_failed: false,
            is_cut: false,
        }
    }

    // Adds a piece that has room.
    fn push(&mut self, piece: &str) {
        if self.string.push_str(piece).is_err() {
            self.has_failed = true;
        }
    }

    /// Adds a piece at the end; if the text would get too long, only how the piece begins, followed by `..`.
    pub fn put(&mut self, piece: &str) {
        let room = MOST.saturating_sub(self.string.len());
        if piece.len() <= room {
            return self.push(piece);
        }
        self.is_cut = true;
        if room > 0 {
            self.push(beginning(piece));
            self.push("..");
        }
    }

    /// Adds pieces one after another.
    pub fn put_all(&mut self, pieces: &[&str]) {
        for piece in pieces.iter() {
            self.put(piece);
        }
    }

    /// Adds a piece that was made for it, if there was memory for that.
    pub fn put_made(&mut self, piece: Result<String, AllocError>) {
        match piece {
            Ok(piece) => self.put(piece.as_str()),
            Err(_) => self.has_failed = true,
        }
    }

    /// Puts a sign.
    pub fn put_sign(&mut self, sign: char) {
        if self.string.push(sign).is_err() {
            self.has_failed = true;
        }
    }

    /// Puts a number.
    pub fn put_number(&mut self, number: i64) {
        if write!(self.string, "{number}").is_err() {
            self.has_failed = true;
        }
    }

    /// Puts the line and the column of an offset, from 1 on.
    pub fn put_place(&mut self, bytes: &[u8], offset: u32) {
        let (line, column) = place_of(bytes, offset);
        self.put_number(i64::from(line));
        self.put_sign(':');
        self.put_number(i64::from(column));
    }
}

/// The line and the column of an offset, from 1 on; past the end of the text, those of its end.
pub fn place_of(bytes: &[u8], offset: u32) -> (u32, u32) {
    let mut line: u32 = 1;
    let mut column: u32 = 1;
    for byte in bytes.get(..offset as usize).unwrap_or(bytes).iter() {
        if *byte == b'\n' {
            line = line.saturating_add(1);
            column = 1;
        } else {
            column = column.saturating_add(1);
        }
    }
    (line, column)
}

/// A draft being put together.
#[derive(Drop)]
pub struct Telling {
    pub draft: Draft,
    /// Whether memory was refused for it.
    pub has_failed: bool,
    // whether the changes that were proposed last are left out
    is_left_out: bool,
}

impl Telling {
    /// An empty draft.
    pub fn new(alloc: Global) -> Telling {
        Telling {
            draft: Draft::new(alloc),
            has_failed: false,
            is_left_out: false,
        }
    }

    // Remembers whether out of memory for a text, and returns the text.
    fn taken(&mut self, text: Text) -> String {
        self.has_failed = self.has_failed || text.has_failed;
        text.string
    }

    /// Sets the sentence.
    pub fn say(&mut self, text: Text) {
        self.draft.text = self.taken(text);
    }

    /// Adds a second place.
    pub fn label(&mut self, span: Span, text: Text) {
        let text = self.taken(text);
        if self.draft.labels.push(Label { span, text }).is_err() {
            self.has_failed = true;
        }
    }

    /// Adds a note.
    pub fn note(&mut self, text: Text) {
        let text = self.taken(text);
        if self.draft.notes.push(text).is_err() {
            self.has_failed = true;
        }
    }

    /// Adds a help.
    pub fn help(&mut self, text: Text) {
        let text = self.taken(text);
        if self.draft.helps.push(text).is_err() {
            self.has_failed = true;
        }
    }

    /// Proposes changes, with the words for them; the changes are added next.
    pub fn propose(&mut self, alloc: Global, cost: u32, words: Text) {
        let text = self.taken(words);
        let edits = Vec::new(alloc);
        self.is_left_out = false;
        if self.draft.trials.push(Trial { text, edits, cost }).is_err() {
            self.has_failed = true;
        }
    }

    /// Adds to the last changes that a span is replaced. If what replaces it is too long, these changes are left out.
    pub fn change(&mut self, span: Span, put: Text) {
        let is_cut = put.is_cut;
        let put = self.taken(put);
        if is_cut && !self.is_left_out {
            self.draft.trials.pop();
            self.is_left_out = true;
        }
        if self.is_left_out {
            return;
        }
        if let Some(trial) = self.draft.trials.last_mut()
            && trial.edits.push(Edit { span, put }).is_err()
        {
            self.has_failed = true;
        }
    }

    /// The finished draft, unless out of memory.
    pub fn finished(self) -> Result<Draft, AllocError> {
        if self.has_failed {
            return Err(AllocError);
        }
        Ok(self.draft)
    }
}
