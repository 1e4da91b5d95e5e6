//! Comments of other languages, after two slashes.

use crate::context::Context;
use crate::letters::{byte_at, span_at, trimmed_end};
use crate::reals::behind;
use crate::tell::{exchange_text, joined, shown};
use ps_diagnose::{Telling, Text};

// The text of a comment, if it can be put between braces.
fn text_of(inner: &[u8]) -> Option<&str> {
    let mut last = b' ';
    for byte in inner.iter() {
        if *byte == b'}' || *byte == b')' && last == b'*' {
            return None;
        }
        last = *byte;
    }
    str::from_utf8(inner).ok()
}

// A comment that begins at an offset after two slashes: where it ends, and its text, if that can be put between braces.
fn comment_at<'a>(cx: &Context<'a>, from: usize) -> Option<(usize, &'a str)> {
    let end = trimmed_end(cx.bytes, from);
    let inner = cx.bytes.get(from.saturating_add(2)..end)?;
    let text = text_of(inner)?;
    Some((end, text))
}

// The offset of the next comment after two slashes, from an offset on, that is not part of something else.
fn next_from(cx: &Context<'_>, from: usize) -> Option<usize> {
    let mut end = from;
    for at in from..cx.bytes.len() {
        if at >= end {
            end = behind(cx.bytes, at);
            let is_slash = byte_at(cx.bytes, at) == b'/' && end > at.saturating_add(1);
            if is_slash && comment_at(cx, at).is_some() {
                return Some(at);
            }
        }
    }
    None
}

// Reports the first comment that is changed.
fn words_of(cx: &Context<'_>, from: usize, are_more: bool) -> Text {
    let Some((end, text)) = comment_at(cx, from) else {
        return Text::new(cx.alloc);
    };
    let span = span_at(from, end);
    let put = joined(cx, &["{", text, " }"]);
    let mut words = joined(cx, &["write `", shown(put.string.as_bytes())]);
    words.put_all(&["` instead of `", shown(cx.piece(span)), "` at "]);
    words.put_place(cx.bytes, span.from);
    if are_more {
        words.put(", and do the same for everything after `//`");
    }
    words.has_failed = words.has_failed || put.has_failed;
    words
}

// Adds the change of a comment.
fn change_comment(cx: &Context<'_>, to: &mut Telling, from: usize) {
    if let Some((end, text)) = comment_at(cx, from) {
        to.change(span_at(from, end), joined(cx, &["{", text, " }"]));
    }
}

// Adds the changes of all comments from one on.
fn change_comments(cx: &Context<'_>, to: &mut Telling, first: usize) {
    let mut at = first;
    for _ in first..cx.bytes.len() {
        change_comment(cx, to, at);
        match next_from(cx, behind(cx.bytes, at)) {
            Some(next) => at = next,
            None => return,
        }
    }
}

/// Proposes braces for what is after two slashes, wherever it is.
pub(crate) fn exchange_slashes(cx: &Context<'_>, to: &mut Telling) {
    let Some(first) = next_from(cx, 0) else {
        return;
    };
    let are_more = next_from(cx, behind(cx.bytes, first)).is_some();
    to.propose(cx.alloc, 0, words_of(cx, first, are_more));
    change_comments(cx, to, first);
}

/// Proposes braces for the comment after `#` at the place.
pub(crate) fn exchange_hash(cx: &Context<'_>, to: &mut Telling) {
    let from = cx.place.from as usize;
    let end = trimmed_end(cx.bytes, from);
    let inner = cx.bytes.get(from.saturating_add(1)..end).unwrap_or(&[]);
    if let Some(text) = text_of(inner) {
        exchange_text(cx, to, span_at(from, end), joined(cx, &["{", text, " }"]));
    }
}

// The offset of the text `*/` from one on.
fn end_of_stars(bytes: &[u8], from: usize) -> Option<usize> {
    for at in from..bytes.len() {
        if byte_at(bytes, at) == b'*' && byte_at(bytes, at.saturating_add(1)) == b'/' {
            return Some(at);
        }
    }
    None
}

/// Proposes `(*` and `*)` for the ends of the comment of C at the place.
pub(crate) fn exchange_stars(cx: &Context<'_>, to: &mut Telling) {
    let from = cx.place.from as usize;
    let behind = from.saturating_add(2);
    let Some(end) = end_of_stars(cx.bytes, behind) else {
        return;
    };
    let last = span_at(end, end.saturating_add(2));
    let mut words = joined(cx, &["write `(*` instead of `/*` at "]);
    words.put_place(cx.bytes, cx.place.from);
    words.put(", and `*)` instead of `*/` at ");
    words.put_place(cx.bytes, last.from);
    to.propose(cx.alloc, 0, words);
    to.change(span_at(from, behind), joined(cx, &["(*"]));
    to.change(last, joined(cx, &["*)"]));
}
