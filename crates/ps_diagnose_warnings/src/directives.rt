//! Comments that look like directives to the compiler.

use crate::finding::Finding;
use crate::rows::{DIRECTIVE, OPERANDS};
use crate::text::Text;
use ps_text::Span;

// The most bytes of a comment that are reported.
const MOST: u32 = 40;

// The row of a comment that begins with `$`.
fn row_of(comment: &[u8]) -> Option<usize> {
    let mark = if comment.starts_with(b"{") { 1 } else { 2 };
    if comment.get(mark) != Some(&b'$') {
        return None;
    }
    match comment.get(mark + 1..mark + 3) {
        Some([b'b' | b'B', b'+' | b'-']) => Some(OPERANDS),
        _ => Some(DIRECTIVE),
    }
}

// How much of a comment is reported: its first line, and not too much of that.
fn told_part(text: &Text<'_>, comment: Span) -> Span {
    let mut to = comment.from;
    for byte in text.outline.bytes(comment).iter() {
        if to >= comment.from.saturating_add(MOST) || *byte == b'\n' || *byte == b'\r' {
            break;
        }
        to = to.saturating_add(1);
    }
    Span {
        from: comment.from,
        to,
    }
}

/// A comment, if it looks like a directive.
pub(crate) fn directive(text: &Text<'_>, comment: Span) -> Option<Finding> {
    match row_of(text.outline.bytes(comment)) {
        Some(row) => Some(Finding::new(row, comment, told_part(text, comment))),
        None => None,
    }
}
