//! The comments between tokens.

use crate::text::Text;
use ps_text::Span;

// Where the first character is that is not a blank.
fn begin_of(bytes: &[u8]) -> Option<usize> {
    for (at, byte) in bytes.iter().enumerate() {
        if *byte == b'{' || *byte == b'(' {
            return Some(at);
        }
    }
    None
}

// Where the comment ends that begins at a sign.
fn end_of(bytes: &[u8], begin: usize) -> Option<usize> {
    let is_long = bytes.get(begin) == Some(&b'(');
    let mut before = b' ';
    for at in begin.saturating_add(if is_long { 2 } else { 1 })..bytes.len() {
        let byte = bytes.get(at).copied().unwrap_or(b' ');
        if byte == b'}' || before == b'*' && byte == b')' {
            return Some(at.saturating_add(1));
        }
        before = byte;
    }
    None
}

/// The first comment in a span of the text that has no tokens.
pub(crate) fn comment_in(text: &Text<'_>, span: Span) -> Option<Span> {
    let bytes = text.outline.bytes(span);
    let Some(begin) = begin_of(bytes) else {
        return None;
    };
    match end_of(bytes, begin) {
        Some(end) => Some(Span {
            from: moved(span.from, begin),
            to: moved(span.from, end),
        }),
        None => None,
    }
}

/// Whether a byte is that of a statement, `;`, or the last one of `:=`.
pub(crate) fn is_of_statement(before: u8, byte: u8) -> bool {
    byte == b';' || before == b':' && byte == b'='
}

/// Whether a comment holds statements.
pub(crate) fn has_statements(comment: &[u8]) -> bool {
    let mut before = b' ';
    for byte in comment.iter() {
        if is_of_statement(before, *byte) {
            return true;
        }
        before = *byte;
    }
    false
}

/// The offset this many bytes after another one.
pub(crate) fn moved(offset: u32, count: usize) -> u32 {
    offset.saturating_add(u32::try_from(count).unwrap_or(u32::MAX))
}
