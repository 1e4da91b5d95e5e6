//! Heads of statements: the part that is a statement's own if it contains others, otherwise the whole statement.

use crate::sites::Statement;
use ps_map::{Lines, Place, readable};
use ps_scan::{Kind, Token};
use ps_scene::{Surroundings, token_at};
use ps_text::{Source, Span};
use std::alloc::{AllocError, Global};

/// The part of a statement that is shown as its own, and where it begins: for a `repeat` its `until` with the
/// condition.
#[derive(Clone, Copy)]
pub(crate) struct Head {
    pub(crate) span: Span,
    pub(crate) place: Place,
}

// The `until` of the `repeat` at a token, whose own part begins there; for any other token the token itself.
fn own_part(tokens: &[Token], at: usize) -> usize {
    let mut depth: u32 = 0;
    for (distance, token) in tokens.get(at..).unwrap_or(&[]).iter().enumerate() {
        match token.kind {
            Kind::Repeat => depth = depth.saturating_add(1),
            Kind::Until => depth = depth.saturating_sub(1),
            _ => {}
        }
        if depth == 0 {
            return at.saturating_add(distance);
        }
    }
    at
}

// The number of tokens of the head that begins with the first of these.
fn length(tokens: &[Token]) -> usize {
    for (distance, token) in tokens.iter().enumerate() {
        match token.kind {
            Kind::Then | Kind::Do | Kind::Of => return distance.saturating_add(1),
            Kind::Semicolon | Kind::End | Kind::Else | Kind::Until if distance > 0 => {
                return distance;
            }
            _ => {}
        }
    }
    tokens.len()
}

// Where the head of the statement is that begins at an offset.
fn head_at(tokens: &[Token], offset: u32) -> Span {
    let first = own_part(tokens, token_at(tokens, offset));
    let rest = tokens.get(first..).unwrap_or(&[]);
    let last = length(rest).saturating_sub(1);
    match (rest.first(), rest.get(last)) {
        (Some(first), Some(last)) => Span {
            from: first.span.from,
            to: last.span.to,
        },
        _ => Span {
            from: offset,
            to: offset,
        },
    }
}

/// Where the heads of statements are.
pub(crate) fn heads_of(
    alloc: Global,
    source: &Source<'_>,
    tokens: &[Token],
    statements: &[Statement],
) -> Result<Vec<Head>, AllocError> {
    let lines = Lines::new(alloc, source.bytes())?;
    let mut heads = Vec::new(alloc);
    for statement in statements {
        let span = head_at(tokens, lines.offset_of(statement.place));
        let place = lines.place_of(span.from);
        heads.push(Head { span, place })?;
    }
    Ok(heads)
}

fn written<'a>(source: &Source<'a>, span: Span) -> &'a [u8] {
    if span.from <= span.to && span.to <= source.len() {
        source.slice(span)
    } else {
        &[]
    }
}

// How many bytes of a head are shown: its statement may be executed often.
const MOST: u32 = 1_000;

// Adds a part of a text as it is.
fn put_whole(
    alloc: Global,
    out: &mut String,
    source: &Source<'_>,
    part: Span,
) -> Result<(), AllocError> {
    let text = readable(alloc, written(source, part))?;
    out.push_str(text.as_str())
}

// Adds a part of a text on one line: each run of spaces and ends of lines in it becomes one space.
fn put_spaced(
    alloc: Global,
    out: &mut String,
    source: &Source<'_>,
    part: Span,
) -> Result<(), AllocError> {
    let text = readable(alloc, written(source, part))?;
    let mut was_space = false;
    for character in text.as_str().chars() {
        let is_space = character.is_whitespace();
        if !is_space {
            out.push(character)?;
        } else if !was_space {
            out.push_str(" ")?;
        }
        was_space = is_space;
    }
    Ok(())
}

/// A head on one line: each run of spaces and ends of lines in it becomes one space, except in its strings. One of more
/// than 1000 bytes is shown as it begins, followed by `..`.
pub(crate) fn head_told(
    alloc: Global,
    around: &Surroundings<'_>,
    head: Span,
) -> Result<String, AllocError> {
    let (source, tokens) = (around.source, around.tokens);
    let end = head.to.min(head.from.saturating_add(MOST));
    let mut out = String::new(alloc);
    let mut from = head.from;
    for token in tokens.get(token_at(tokens, from)..).unwrap_or(&[]) {
        let Span { from: begin, to } = token.span;
        if begin >= end {
            break;
        }
        if matches!(token.kind, Kind::Text) {
            put_spaced(alloc, &mut out, source, Span { from, to: begin })?;
            from = begin;
            let to = to.min(end);
            put_whole(alloc, &mut out, source, Span { from, to })?;
            from = to;
        }
    }
    put_spaced(alloc, &mut out, source, Span { from, to: end })?;
    if end < head.to {
        out.push_str("..")?;
    }
    Ok(out)
}
