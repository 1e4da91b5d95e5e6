//! Words of rows.

use std::alloc::{AllocError, Global};
use std::str::SplitWhitespace;

/// The next word, empty after the last.
pub(crate) fn word<'a>(words: &mut SplitWhitespace<'a>) -> &'a str {
    words.next().unwrap_or("")
}

/// The number that a word has in hexadecimal digits, 0 if it has none.
pub(crate) fn hexadecimal(word: &str) -> u32 {
    u32::from_str_radix(word, 16).unwrap_or(0)
}

/// The numbers that the words of a text have in hexadecimal digits.
pub(crate) fn hexadecimals(alloc: Global, text: &str) -> Result<Vec<u32>, AllocError> {
    let mut numbers = Vec::new(alloc);
    for word in text.split_whitespace() {
        numbers.push(hexadecimal(word))?;
    }
    Ok(numbers)
}
