//! The uses of real numbers in a text, whether it has tokens or not.

use crate::context::Context;
use crate::letters::{Class, byte_at, end_of, is_in, span_at};
use crate::tell::shown;
use crate::tests::is_named;
use ps_diagnose::{RequiredName, Telling, Text};
use ps_text::Span;

// The most uses that are reported.
const MOST: u32 = 8;

/// The required names of real numbers.
pub(crate) const NAMES: &[RequiredName] = &[
    RequiredName::Real,
    RequiredName::Sqrt,
    RequiredName::Sin,
    RequiredName::Cos,
    RequiredName::Arctan,
    RequiredName::Exp,
    RequiredName::Ln,
    RequiredName::Trunc,
    RequiredName::Round,
];

// A piece of a text: a word, a number or a sign.
#[derive(Clone, Copy)]
struct Piece<'a> {
    from: usize,
    text: &'a [u8],
}

// The offset after a comment that begins with a parenthesis.
fn behind_long_comment(bytes: &[u8], at: usize) -> usize {
    let mut last = b' ';
    for (end, byte) in bytes.iter().enumerate().skip(at.saturating_add(2)) {
        if *byte == b'}' || *byte == b')' && last == b'*' {
            return end.saturating_add(1);
        }
        last = *byte;
    }
    bytes.len()
}

// The offset after a number, with the digits after its point.
fn behind_number(bytes: &[u8], at: usize) -> usize {
    let end = end_of(bytes, at, Class::Name);
    let fraction = end.saturating_add(1);
    if byte_at(bytes, end) == b'.' && byte_at(bytes, fraction).is_ascii_digit() {
        end_of(bytes, fraction, Class::Name)
    } else {
        end
    }
}

/// The offset after the comment, string, word, number or sign that begins at an offset.
pub(crate) fn behind(bytes: &[u8], at: usize) -> usize {
    let next = at.saturating_add(1);
    match (byte_at(bytes, at), byte_at(bytes, next)) {
        (b'{', _) => end_of(bytes, at, Class::Comment).saturating_add(1),
        (b'\'', _) => end_of(bytes, next, Class::Text).saturating_add(1),
        (b'(', b'*') => behind_long_comment(bytes, at),
        (b'/', b'/') => end_of(bytes, at, Class::Line),
        (byte, _) if byte.is_ascii_digit() => behind_number(bytes, at),
        (byte, _) if byte.is_ascii_alphabetic() => end_of(bytes, at, Class::Name),
        _ => next,
    }
}

// Whether a piece is a word or a number of real numbers.
fn is_real(text: &[u8]) -> bool {
    if byte_at(text, 0).is_ascii_digit() {
        text.contains(&b'.')
    } else {
        is_named(text, NAMES)
    }
}

// Whether a piece is a second width, which is after a first one: `: 8 : 2`.
fn is_second_width(before: &[Piece<'_>; 3], piece: Piece<'_>) -> bool {
    let [colon, width, other] = before;
    byte_at(piece.text, 0).is_ascii_digit()
        && matches!(colon.text, [b':'])
        && matches!(other.text, [b':'])
        && is_in(Class::Name, byte_at(width.text, 0))
}

// The offset at which a use of real numbers begins, if a piece is one and not at the place; the last three pieces
// before it are known, the last first.
fn use_at(cx: &Context<'_>, before: &[Piece<'_>; 3], piece: Piece<'_>) -> Option<usize> {
    let [colon, _, _] = before;
    let from = if is_real(piece.text) {
        piece.from
    } else if is_second_width(before, piece) {
        colon.from
    } else {
        return None;
    };
    if from == cx.place.from as usize {
        None
    } else {
        Some(from)
    }
}

// What comes before a use.
fn before_use(count: u32) -> &'static str {
    match count {
        0 => "other uses of real numbers: ",
        _ => ", ",
    }
}

// Puts one use: a second width with a space after its colon.
fn put_use(cx: &Context<'_>, out: &mut Text, found: Span) {
    let (sign, text) = match cx.piece(found) {
        [b':', width @ ..] => ("`: ", width.trim_ascii()),
        text => ("`", text),
    };
    out.put(sign);
    out.put(shown(text));
    out.put("` at ");
    out.put_place(cx.bytes, found.from);
}

// Puts the uses of real numbers that are not at the place.
fn put_uses(cx: &Context<'_>, out: &mut Text) {
    let mut before = [Piece { from: 0, text: &[] }; 3];
    let mut end: usize = 0;
    let mut count: u32 = 0;
    for (at, byte) in cx.bytes.iter().enumerate() {
        if at >= end && !byte.is_ascii_whitespace() {
            end = behind(cx.bytes, at);
            let text = cx.bytes.get(at..end).unwrap_or(&[]);
            let piece = Piece { from: at, text };
            if let Some(from) = use_at(cx, &before, piece)
                && count < MOST
            {
                out.put(before_use(count));
                put_use(cx, out, span_at(from, end));
                count = count.saturating_add(1);
            }
            let [last, middle, _] = before;
            before = [piece, last, middle];
        }
    }
}

/// Reports the other uses of real numbers, if there are any.
pub(crate) fn note_others(cx: &Context<'_>, to: &mut Telling) {
    let mut text = Text::new(cx.alloc);
    put_uses(cx, &mut text);
    if !text.string.is_empty() || text.has_failed {
        to.note(text);
    }
}
