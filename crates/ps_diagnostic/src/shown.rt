//! Pieces of a text as they are shown on a terminal.

ghost use Rattle.std.specs.Prelude.{◌≡◌, ◌++◌, string_bytes, IfOk, OnOk};
ghost use Rattle.ps_diagnostic.specs.Printable.{visible, printable, printable_bytes as printable_of};

use bstr::ByteSlice;
use std::alloc::{AllocError, Global};
use unicode_width::UnicodeWidthChar;

/// What is shown for a character that isn't printable, and for bytes that are not characters.
const MARK: char = '?';

// The character as it is shown. Controls could change what a terminal shows of the rest, and so could what ends a line
// or turns the direction.
fn visible(letter: char) -> char
    ensures { result ≡ visible letter }
{
    match letter {
        '\t' => letter,
        '\0'..='\u{1F}' | '\u{7F}'..='\u{9F}' | '\u{2028}'..='\u{2029}' | '\u{FFFD}' => MARK,
        '\u{61C}' | '\u{200E}'..='\u{200F}' => MARK,
        '\u{202A}'..='\u{202E}' | '\u{2066}'..='\u{2069}' => MARK,
        _ => letter,
    }
}

// The columns that a character takes. A tab counts one.
fn width_of(letter: char) -> usize {
    if letter == '\t' {
        return 1;
    }
    visible(letter).width().unwrap_or(1)
}

/// The columns that bytes take.
pub(crate) fn width(bytes: &[u8]) -> usize {
    let mut columns: usize = 0;
    for letter in bytes.chars() {
        columns = columns.saturating_add(width_of(letter));
    }
    columns
}

/// Puts a sign so often.
pub(crate) fn put_times(out: &mut String, sign: char, count: usize) -> Result<(), AllocError> {
    for _ in 0..count {
        out.push(sign)?;
    }
    Ok(())
}

/// Puts pieces one after another.
pub(crate) fn put_all(out: &mut String, pieces: &[&str]) -> Result<(), AllocError> {
    for piece in pieces.iter() {
        out.push_str(piece)?;
    }
    Ok(())
}

/// Puts bytes as they are shown.
pub(crate) fn put(out: &mut String, bytes: &[u8]) -> Result<(), AllocError>
    ensures { OnOk result (string_bytes out.new ≡ string_bytes out.old ++ printable_of bytes.now) }
{
    for letter in bytes.chars() {
        out.push(visible(letter))?;
    }
    Ok(())
}

/// Puts a text as it is shown.
pub(crate) fn put_text(out: &mut String, text: &str) -> Result<(), AllocError>
    ensures { OnOk result (string_bytes out.new ≡ string_bytes out.old ++ printable text.now) }
{
    put(out, text.as_bytes())
}

/// Bytes as they are shown on a terminal: a `?` for each control, each character that ends a line or turns the
/// direction, and each piece that is no character of UTF-8. A tab stays.
pub fn printable_bytes(alloc: Global, bytes: &[u8]) -> Result<String, AllocError>
    ensures { IfOk result (λ shown. string_bytes shown ≡ printable_of bytes.now) }
{
    let mut out = String::new(alloc);
    put(&mut out, bytes)?;
    Ok(out)
}

/// A text as it is shown on a terminal: a `?` for each control, and each character that ends a line or turns the
/// direction. A tab stays.
pub fn printable(alloc: Global, text: &str) -> Result<String, AllocError>
    ensures { IfOk result (λ shown. string_bytes shown ≡ printable text.now) }
{
    let mut out = String::new(alloc);
    put_text(&mut out, text)?;
    Ok(out)
}

/// Puts spaces as wide as the bytes are shown, and their tabs.
pub(crate) fn put_space(out: &mut String, bytes: &[u8]) -> Result<(), AllocError> {
    for letter in bytes.chars() {
        match letter {
            '\t' => out.push('\t')?,
            _ => put_times(out, ' ', width_of(letter))?,
        }
    }
    Ok(())
}
