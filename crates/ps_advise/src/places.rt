//! Places in a text, in words.

ghost use Rattle.ps_advise.specs.Trials.{Shows};

use ps_build::Place;
use ps_scan::{Kind, Token};
use ps_text::Span;
use std::alloc::{AllocError, Global};

/// The number of the first token that begins at or after an offset.
pub(crate) fn token_at(tokens: &[Token], offset: u32) -> usize {
    tokens.partition_point(|token| token.span.from < offset)
}

/// The kind of the token with this number, if there is one.
pub(crate) fn kind_at(tokens: &[Token], at: usize) -> Option<Kind> {
    match tokens.get(at) {
        Some(token) => Some(token.kind),
        None => None,
    }
}

/// The token before the one with this number, if there is one.
pub(crate) fn token_before(tokens: &[Token], at: usize) -> Option<&Token> {
    tokens.get(at.checked_sub(1)?)
}

/// The bytes of a span; none if it is not within the text.
pub(crate) fn slice(text: &[u8], span: Span) -> &[u8] {
    text.get(span.from as usize..span.to as usize)
        .unwrap_or(&[])
}

/// The bytes of a span as text; empty if they are not text.
pub(crate) fn piece(text: &[u8], span: Span) -> &str {
    str::from_utf8(slice(text, span)).unwrap_or("")
}

/// An offset in a text as a line and a column, each from 1 on.
pub(crate) fn position(alloc: Global, text: &[u8], offset: u32) -> Result<String, AllocError> {
    let before = text.get(..offset as usize).unwrap_or(text);
    let mut line: usize = 1;
    let mut column: usize = 1;
    for byte in before.iter() {
        if *byte == b'\n' {
            line = line.saturating_add(1);
            column = 1;
        } else {
            column = column.saturating_add(1);
        }
    }
    format!(in alloc; "{line}:{column}")
}

// How many bytes a character has, given its first byte.
fn length_of(first: u8) -> u32 {
    match first {
        0xC2..=0xDF => 2,
        0xE0..=0xEF => 3,
        0xF0..=0xF4 => 4,
        _ => 1,
    }
}

// The end of the character at an offset in a text, or of the byte there if it is not a character.
fn character_end(text: &[u8], from: u32) -> u32 {
    let first = text.get(from as usize).copied().unwrap_or(0);
    let to = from.saturating_add(length_of(first));
    if piece(text, Span { from, to }).is_empty() {
        return from.saturating_add(1);
    }
    to
}

// The end of the line that an offset is on.
fn line_end(text: &[u8], offset: u32) -> u32 {
    let rest = text.get(offset as usize..).unwrap_or(&[]);
    let mut end = offset;
    for byte in rest.iter() {
        if matches!(*byte, b'\n' | b'\r') {
            break;
        }
        end = end.saturating_add(1);
    }
    end
}

/// The span of a refusal's place: for an open comment or string its whole line, for a character the whole character.
pub(crate) fn whole(text: &[u8], number: u8, place: Place) -> Span
    ensures { Shows number place result }
{
    let from = place.from;
    let to = match number {
        10 => character_end(text, from),
        11 | 12 => line_end(text, from),
        _ => place.to,
    };
    Span {
        from,
        to: to.max(place.to),
    }
}
