//! Comments that hardly were to go on as far as they do.

use crate::comments::{has_statements, is_of_statement, moved};
use crate::finding::Finding;
use crate::rows::{NESTED, NESTED_LONG};
use crate::text::Text;
use ps_text::Span;

// Whether a comment seems to begin here. What begins one in a string has an apostrophe before it.
fn seems_to_begin(before: u8, rest: &[u8]) -> bool {
    matches!(before, b' ' | b'\t' | b'\r' | b'\n' | b';' | b')')
        && (rest.starts_with(b"{") || rest.starts_with(b"(*"))
}

// Where another comment seems to begin after a statement, from the second line of a comment on. The rest of a line
// after what begins a comment has no statements.
fn inner_comment(comment: &[u8]) -> Option<usize> {
    let mut is_words = true;
    let mut has_statement = false;
    let mut before = b' ';
    for (at, byte) in comment.iter().enumerate() {
        if *byte == b'\n' {
            is_words = false;
        } else if !is_words && seems_to_begin(before, comment.get(at..).unwrap_or(&[])) {
            if has_statement {
                return Some(at);
            }
            is_words = true;
        }
        has_statement |= !is_words && is_of_statement(before, *byte);
        before = *byte;
    }
    None
}

// The first line of a comment, without the blanks at its end.
fn first_line(comment: &[u8]) -> &[u8] {
    for (at, byte) in comment.iter().enumerate() {
        if *byte == b'\n' {
            return comment.get(..at).unwrap_or(&[]).trim_ascii_end();
        }
    }
    comment
}

// Where the last word begins on the first line of a comment, after its mark of this length.
fn last_word(line: &[u8], mark: usize) -> usize {
    let mut begin = mark;
    for (at, byte) in line.iter().enumerate() {
        if at >= mark && byte.is_ascii_whitespace() {
            begin = at.saturating_add(1);
        }
    }
    begin
}

// The part of a comment between two of its bytes.
fn part_of(comment: Span, from: usize, to: usize) -> Span {
    Span {
        from: moved(comment.from, from),
        to: moved(comment.from, to),
    }
}

/// A comment, if it was hardly to go on after its first line: that has words and no statements, but after it there are
/// some, and then another comment seems to begin. A piece of a program that was made a comment begins with statements.
pub(crate) fn nested(text: &Text<'_>, comment: Span) -> Option<Finding> {
    let bytes = text.outline.bytes(comment);
    let (row, mark) = if bytes.starts_with(b"{") {
        (NESTED, 1)
    } else {
        (NESTED_LONG, 2)
    };
    let line = first_line(bytes);
    let words = line.get(mark..)?;
    if words.trim_ascii().is_empty() || has_statements(words) {
        return None;
    }
    let inner = inner_comment(bytes)?;
    let length = if bytes.get(inner) == Some(&b'{') {
        1
    } else {
        2
    };
    let word = part_of(comment, last_word(line, mark), line.len());
    let mut found = Finding::new(row, part_of(comment, 0, line.len()), word);
    found.label = part_of(comment, inner, inner.saturating_add(length));
    found.at = word.to;
    Some(found)
}
