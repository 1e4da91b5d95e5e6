//! The bytes of a text where no tokens are known: letters, words and lines.

use ps_text::Span;

/// Classes of adjacent bytes.
#[derive(Clone, Copy)]
pub(crate) enum Class {
    /// Letters and digits.
    Name,
    /// Those of a name as other languages have them.
    Word,
    Digit,
    Hexadecimal,
    /// Spaces and tabs.
    Blank,
    /// Spaces of any kind.
    Space,
    /// All but the end of a line.
    Line,
    /// All but the end of a comment in braces.
    Comment,
    /// All but the end of a string or a line.
    Text,
    /// All but parentheses, commas, apostrophes and the end of a line.
    Item,
    /// Signs and spaces that end a line.
    Closing,
}

/// Whether a byte is of a class.
pub(crate) fn is_in(class: Class, byte: u8) -> bool {
    match class {
        Class::Name => byte.is_ascii_alphanumeric(),
        Class::Word => byte == b'_' || byte.is_ascii_alphanumeric(),
        Class::Digit => byte.is_ascii_digit(),
        Class::Hexadecimal => byte.is_ascii_hexdigit(),
        Class::Space => byte.is_ascii_whitespace(),
        Class::Blank => matches!(byte, b' ' | b'\t'),
        Class::Line => byte != b'\n',
        Class::Comment => byte != b'}',
        Class::Text => !matches!(byte, b'\'' | b'\n'),
        Class::Item => !matches!(byte, b'(' | b',' | b'\'' | b'\n'),
        Class::Closing => matches!(byte, b')' | b',' | b';' | b' '),
    }
}

/// The byte at an offset; a space if there is none.
pub(crate) fn byte_at(bytes: &[u8], at: usize) -> u8 {
    match bytes.get(at) {
        Some(byte) => *byte,
        None => b' ',
    }
}

/// The byte before an offset; a space if there is none.
pub(crate) fn byte_before(bytes: &[u8], at: usize) -> u8 {
    match at.checked_sub(1) {
        Some(at) => byte_at(bytes, at),
        None => b' ',
    }
}

/// The offset after the bytes of a class that begin at an offset.
pub(crate) fn end_of(bytes: &[u8], at: usize, class: Class) -> usize {
    let mut end = at;
    for byte in bytes.get(at..).unwrap_or(&[]).iter() {
        if !is_in(class, *byte) {
            break;
        }
        end = end.saturating_add(1);
    }
    end
}

/// The offset of the first of the bytes before an offset that are of a class.
pub(crate) fn start_of(bytes: &[u8], at: usize, class: Class) -> usize {
    let mut start = at;
    for byte in bytes.get(..at).unwrap_or(bytes).iter().rev() {
        if !is_in(class, *byte) {
            break;
        }
        start = start.saturating_sub(1);
    }
    start
}

/// The offset after the last byte of a line that is not a space.
pub(crate) fn trimmed_end(bytes: &[u8], at: usize) -> usize {
    let end = end_of(bytes, at, Class::Line);
    start_of(bytes, end, Class::Space).max(at)
}

/// The character at an offset, as it is written; none if the bytes there are not a character.
pub(crate) fn letter_at(bytes: &[u8], at: usize) -> Option<&str> {
    for length in 1..5_usize {
        let piece = bytes.get(at..at.saturating_add(length))?;
        if let Ok(text) = str::from_utf8(piece) {
            return Some(text);
        }
    }
    None
}

/// The span of a piece of the text.
pub(crate) fn span_at(from: usize, to: usize) -> Span {
    Span {
        from: u32::try_from(from).unwrap_or(u32::MAX),
        to: u32::try_from(to).unwrap_or(u32::MAX),
    }
}
