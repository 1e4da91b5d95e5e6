//! Pieces of the text as they are shown, and the changes that are proposed.

use crate::context::Context;
use ps_diagnose::{Telling, Text};
use ps_text::Span;

// The most characters of a piece of the text that are shown.
const MOST: usize = 40;

/// Pieces as one text.
pub(crate) fn joined(cx: &Context<'_>, pieces: &[&str]) -> Text {
    let mut text = Text::new(cx.alloc);
    text.put_all(pieces);
    text
}

// Whether all characters of a text are shown as they are: controls and characters that change the direction of the text
// are not.
fn is_told(text: &str) -> bool {
    for letter in text.chars() {
        if matches!(
            letter,
            '\0'..='\u{1F}' | '\u{7F}'..='\u{9F}' | '\u{202A}'..='\u{202E}' | '\u{2066}'..='\u{2069}'
        ) {
            return false;
        }
    }
    true
}

/// A piece of the text as it is shown: dots if it is too long, has more than one line, or is not text.
pub(crate) fn shown(bytes: &[u8]) -> &str {
    match str::from_utf8(bytes) {
        Ok(text) if text.len() <= MOST && is_told(text) => text,
        _ => "..",
    }
}

/// Begins the sentence that the token cannot be at the place; the reason is put after it.
pub(crate) fn refusal(cx: &Context<'_>) -> Text {
    joined(cx, &["`", cx.told(cx.at), "` cannot stand here: "])
}

/// Proposes a change in words, which are followed by its place.
pub(crate) fn add_change(
    cx: &Context<'_>,
    to: &mut Telling,
    cost: u32,
    span: Span,
    put: &str,
    words: &[&str],
) {
    let mut text = joined(cx, words);
    text.put_place(cx.bytes, span.from);
    to.propose(cx.alloc, cost, text);
    to.change(span, joined(cx, &[put]));
}

/// Proposes to put something after a token.
pub(crate) fn put_behind(
    cx: &Context<'_>,
    to: &mut Telling,
    cost: u32,
    at: usize,
    told: &str,
    put: &str,
) {
    let words = ["put `", told, "` after `", cx.told(at), "` at "];
    let from = cx.span(at).to;
    add_change(cx, to, cost, Span { from, to: from }, put, &words);
}

/// Proposes to put something before a token.
pub(crate) fn put_before(cx: &Context<'_>, to: &mut Telling, at: usize, told: &str, put: &str) {
    let words = ["put `", told, "` before `", cx.told(at), "` at "];
    let from = cx.span(at).from;
    add_change(cx, to, 0, Span { from, to: from }, put, &words);
}

/// Proposes to exchange what a span has.
pub(crate) fn exchange(cx: &Context<'_>, to: &mut Telling, cost: u32, span: Span, put: &str) {
    let words = [
        "write `",
        put,
        "` instead of `",
        shown(cx.piece(span)),
        "` at ",
    ];
    add_change(cx, to, cost, span, put, &words);
}

/// Proposes to exchange what a span has for a text.
pub(crate) fn exchange_text(cx: &Context<'_>, to: &mut Telling, span: Span, put: Text) {
    if !put.is_cut {
        exchange(cx, to, 0, span, put.string.as_str());
    }
    to.has_failed = to.has_failed || put.has_failed;
}

/// Proposes to remove the text of a span.
pub(crate) fn take_away(cx: &Context<'_>, to: &mut Telling, cost: u32, span: Span) {
    let words = ["remove `", shown(cx.piece(span)), "` at "];
    add_change(cx, to, cost, span, "", &words);
}

/// Proposes to move the text of a span before a token above; what is put there, as a line, is a piece of it, after a
/// word that may be empty.
pub(crate) fn move_up(
    cx: &Context<'_>,
    to: &mut Telling,
    span: Span,
    before: usize,
    word: &str,
    piece: Span,
) {
    let from = cx.span(before).from;
    let moved = shown(cx.piece(span));
    let mut words = joined(cx, &["move `", moved, "`"]);
    if !word.is_empty() {
        words.put_all(&[" as `", word, moved, "`"]);
    }
    words.put_all(&[" before `", cx.told(before), "` at "]);
    words.put_place(cx.bytes, from);
    to.propose(cx.alloc, 0, words);
    let line = str::from_utf8(cx.piece(piece)).unwrap_or("");
    to.change(Span { from, to: from }, joined(cx, &[word, line, "\n"]));
    to.change(span, Text::new(cx.alloc));
}
