//! The line of an answer.

use std::alloc::{AllocError, Global};
use std::fmt::{self, Debug, Display, Write};

/// A line, put together piece by piece. If out of memory, a piece is left out; that is reported when the line is.
#[derive(Drop)]
pub struct Line {
    text: String,
    is_short: bool,
}

// No error is answered: a piece that memory is short for is noted.
impl fmt::Write for Line {
    fn write_str(&mut self, piece: &str) -> fmt::Result {
        self.word(piece);
        Ok(())
    }
}

impl Line {
    /// An empty line.
    pub fn new(alloc: Global) -> Line {
        Line {
            text: String::new(alloc),
            is_short: false,
        }
    }

    /// The text of the line, if memory was never short for it.
    pub fn into_text(self) -> Result<String, AllocError> {
        let Line { text, is_short } = self;
        if is_short { Err(AllocError) } else { Ok(text) }
    }

    /// Notes that memory was short for what should be here.
    pub fn fall_short(&mut self) {
        self.is_short = true;
    }

    /// Puts a word.
    pub fn word(&mut self, word: &str) {
        if self.text.push_str(word).is_err() {
            self.is_short = true;
        }
    }

    /// Puts words.
    pub fn words(&mut self, words: &[&str]) {
        for word in words {
            self.word(word);
        }
    }

    /// Puts a word in its place.
    pub fn word_if(&mut self, word: &str, is_put: bool) {
        if is_put {
            self.word(word);
        }
    }

    /// Puts a letter.
    pub fn letter(&mut self, letter: char) {
        if self.text.push(letter).is_err() {
            self.is_short = true;
        }
    }

    /// Puts bytes, each as the letter with its code.
    pub fn bytes(&mut self, bytes: &[u8]) {
        for byte in bytes {
            self.letter(char::from(*byte));
        }
    }

    /// Puts bytes so, in brackets.
    pub fn bracketed(&mut self, bytes: &[u8]) {
        self.word("[");
        self.bytes(bytes);
        self.word("]");
    }

    /// Puts bytes if there was memory for them.
    pub fn made(&mut self, bytes: Result<Vec<u8>, AllocError>) {
        match bytes {
            Ok(bytes) => self.bytes(&bytes),
            Err(AllocError) => self.is_short = true,
        }
    }

    /// Puts a text if there was memory for it.
    pub fn text(&mut self, text: Result<String, AllocError>) {
        match text {
            Ok(text) => self.word(text.as_str()),
            Err(AllocError) => self.is_short = true,
        }
    }

    /// Puts a space, unless the line is empty here.
    pub fn space(&mut self) {
        if !self.text.is_empty() {
            self.word(" ");
        }
    }

    /// Puts `none` if the line is empty here.
    pub fn none_if_empty(&mut self) {
        if self.text.is_empty() {
            self.word("none");
        }
    }

    /// Puts a word, followed by a value as it is displayed.
    pub fn valued<T: Display>(&mut self, word: &str, value: &T) {
        self.word(word);
        let _ = write!(self, "{value}");
    }

    /// Puts a word, followed by a number.
    pub fn numbered(&mut self, word: &str, number: u64) {
        self.valued(word, &number);
    }

    /// Puts a number of a list: after a space, unless the line is empty here.
    pub fn listed(&mut self, number: u64) {
        self.space();
        self.numbered("", number);
    }

    /// Puts a word, followed by a value as a programmer sees it.
    pub fn seen<T: Debug>(&mut self, word: &str, value: &T) {
        self.word(word);
        let _ = write!(self, "{value:?}");
    }

    /// Puts a word, followed by the eight hexadecimal digits of a number.
    pub fn coded(&mut self, word: &str, number: u32) {
        self.word(word);
        let _ = write!(self, "{number:08X}");
    }
}
