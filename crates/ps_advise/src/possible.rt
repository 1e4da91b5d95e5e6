//! What comes before and after a place, and what could come there.

use crate::budget::Budget;
use crate::places::slice;
use crate::reduced::{is_made, reduced};
use ps_diagnose::{KIND_COUNT, expected_at, grouped};
use ps_diagnostic::Expected;
use ps_parse::{ParseRefusal, parse, release};
use ps_scan::Token;
use ps_text::{Source, Span};
use std::alloc::{AllocError, Global};

// How many tokens before a place are always kept.
const NEAR: usize = 64;

// From this many tokens on, those further away are kept only in part.
const MANY: usize = 400;

// At most this many tokens before a place are examined.
const MOST: usize = 6_000;

// How many tokens after a place are examined.
const BEHIND: usize = 120;

/// Those tokens before a place that determine what can come there, and some of those after it; and a text of just these
/// tokens, which is parsed very quickly.
#[derive(Drop)]
pub(crate) struct Around {
    pub(crate) text: Vec<u8>,
    pub(crate) before: Vec<Token>,
    pub(crate) behind: Vec<Token>,
}

// Those tokens before a place that determine what can come there.
fn before_of(alloc: Global, before: &[Token]) -> Result<Vec<Token>, AllocError> {
    if before.len() <= MANY {
        return Vec::from_slice(alloc, before);
    }
    let (far, near) = before.split_at(before.len().saturating_sub(NEAR));
    let mut tokens = reduced(alloc, far)?;
    tokens.extend_from_slice(near)?;
    Ok(tokens)
}

// Copies a token of a text to another one, with a space after it, and returns the token as it is there.
fn put_token(out: &mut Vec<u8>, text: &[u8], token: Token) -> Result<Token, AllocError> {
    if is_made(Some(&token)) {
        return Ok(token);
    }
    let from = out.len().min(u32::MAX as usize) as u32;
    out.extend_from_slice(slice(text, token.span))?;
    let to = out.len().min(u32::MAX as usize) as u32;
    out.push(b' ')?;
    Ok(Token {
        kind: token.kind,
        span: Span { from, to },
    })
}

// The same for several tokens.
fn put_tokens(
    alloc: Global,
    out: &mut Vec<u8>,
    text: &[u8],
    tokens: &[Token],
) -> Result<Vec<Token>, AllocError> {
    let mut put = Vec::new(alloc);
    for token in tokens.iter() {
        put.push(put_token(out, text, *token)?)?;
    }
    Ok(put)
}

/// What is around the token with this number; `None` if there is too much before it.
pub(crate) fn around_place(
    alloc: Global,
    text: &[u8],
    tokens: &[Token],
    at: usize,
) -> Result<Option<Around>, AllocError> {
    let (before, behind) = tokens.split_at(at.min(tokens.len()));
    let behind = behind.get(..BEHIND).unwrap_or(behind);
    let before = before_of(alloc, before)?;
    if before.len() > MOST {
        return Ok(None);
    }
    let mut out = Vec::new(alloc);
    let before = put_tokens(alloc, &mut out, text, before.as_slice())?;
    let behind = put_tokens(alloc, &mut out, text, behind)?;
    Ok(Some(Around {
        text: out,
        before,
        behind,
    }))
}

/// How many of these tokens are accepted before the first one that no program can have there: all of them, if a program
/// can begin with them.
pub(crate) fn taken(
    alloc: Global,
    source: &Source<'_>,
    tokens: &[Token],
) -> Result<usize, AllocError> {
    match parse(alloc, source, tokens) {
        Ok(program) => {
            release(program);
            Ok(tokens.len().saturating_add(1))
        }
        Err(ParseRefusal::OutOfMemory) => Err(AllocError),
        Err(ParseRefusal::Faulty { token, .. }) => Ok(token as usize),
    }
}

// Whether what is kept before a place is refused where the text is: at the token there.
fn is_sound(alloc: Global, source: &Source<'_>, around: &Around) -> Result<bool, AllocError> {
    let mut tokens = Vec::from_slice(alloc, around.before.as_slice())?;
    if let Some(token) = around.behind.first() {
        tokens.push(*token)?;
    }
    let count = taken(alloc, source, tokens.as_slice())?;
    Ok(count == around.before.len())
}

/// What could come at a place, as it is shown.
pub(crate) fn expected(
    alloc: Global,
    around: &Around,
    budget: &mut Budget,
) -> Result<Vec<Expected>, AllocError> {
    let Ok(source) = Source::new(around.text.as_slice()) else {
        return Ok(Vec::new(alloc));
    };
    // (each kind of token is tried after them)
    let parsed = around.before.len().saturating_mul(KIND_COUNT);
    if around.before.len() > MOST || !budget.parses(parsed) || !is_sound(alloc, &source, around)? {
        return Ok(Vec::new(alloc));
    }
    let kinds = expected_at(alloc, &source, around.before.as_slice())?;
    grouped(alloc, kinds)
}
