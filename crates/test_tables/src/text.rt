//! Texts as tables write them.

use std::alloc::{AllocError, Global};

/// Adds a piece without `\` to a text.
fn append_plain(text: &mut Vec<u8>, piece: &str) -> Result<(), AllocError> {
    for byte in piece.as_bytes() {
        text.push(if *byte == b'~' { b'\n' } else { *byte })?;
    }
    Ok(())
}

/// Adds a piece that follows `\`, and begins with two hexadecimal digits, to a text.
fn append_coded(text: &mut Vec<u8>, piece: &str) -> Result<(), AllocError> {
    match piece.split_at_checked(2) {
        None => append_plain(text, piece),
        Some((digits, rest)) => {
            text.push(u8::from_str_radix(digits, 16).unwrap_or(b'?'))?;
            append_plain(text, rest)
        }
    }
}

fn append(text: &mut Vec<u8>, line: &str) -> Result<(), AllocError> {
    let mut pieces = line.split('\\');
    if let Some(first) = pieces.next() {
        append_plain(text, first)?;
    }
    for piece in pieces {
        append_coded(text, piece)?;
    }
    Ok(())
}

/// The text that is written on some lines.
pub(crate) fn text_of(alloc: Global, written: &str) -> Result<Vec<u8>, AllocError> {
    let mut text = Vec::new(alloc);
    for line in written.split('\n') {
        append(&mut text, line)?;
    }
    Ok(text)
}

/// Puts a letter, which is a byte, as tables write it.
fn put_letter(alloc: Global, shown: &mut String, letter: char) -> Result<(), AllocError> {
    match letter {
        '\n' => shown.push('~'),
        ' '..='}' => shown.push(letter),
        _ => {
            let code = u32::from(letter);
            let word = format!(in alloc; "\\{code:02X}")?;
            shown.push_str(word.as_str())
        }
    }
}

/// An answer, whose letters are bytes, as tables write it.
pub(crate) fn escaped(alloc: Global, answer: &str) -> Result<String, AllocError> {
    let mut shown = String::new(alloc);
    for letter in answer.chars() {
        put_letter(alloc, &mut shown, letter)?;
    }
    Ok(shown)
}
