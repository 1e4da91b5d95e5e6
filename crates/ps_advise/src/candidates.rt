//! Changes of one token near a place, and how far each of them gets.

use crate::places::token_before;
use crate::possible::{Around, taken};
use crate::reduced::made;
use ps_diagnose::written;
use ps_diagnostic::Edit;
use ps_scan::{Kind, Token};
use ps_text::{Source, Span};
use std::alloc::{AllocError, Global};

// Tokens that are inserted or replace others.
const PUT: [Kind; 19] = [
    Kind::Semicolon,
    Kind::Then,
    Kind::Do,
    Kind::RightParen,
    Kind::Comma,
    Kind::End,
    Kind::Begin,
    Kind::LeftParen,
    Kind::Assign,
    Kind::Equal,
    Kind::Colon,
    Kind::Dot,
    Kind::Of,
    Kind::To,
    Kind::Until,
    Kind::LeftBracket,
    Kind::RightBracket,
    Kind::Var,
    Kind::Caret,
];

/// The cost of the nearest change of one token; those suggested by a reason cost less.
pub(crate) const NEAREST: u32 = 5;

// The cost of removing a token that is doubled: that is surely meant.
const DOUBLED: u32 = 4;

/// The cost of inserting a token right before the place.
pub(crate) const PUT_HERE: u32 = 10;

// How many tokens before a place, and after it, may be changed.
const BACK: usize = 3;

const ON: usize = 3;

/// A change of one token.
#[derive(Clone, Copy)]
pub(crate) enum Change {
    LeaveOut,
    /// Before the token.
    PutIn(Kind),
    Exchange(Kind),
}

/// A change at the token with this number, and how far it is from what was meant.
#[derive(Clone, Copy)]
pub(crate) struct Candidate {
    pub(crate) at: usize,
    pub(crate) change: Change,
    pub(crate) cost: u32,
}

// Whether all tokens of this kind are written alike.
fn is_fixed(kind: Kind) -> bool {
    !matches!(kind, Kind::Name | Kind::Number | Kind::Text)
}

// Whether one kind of token may have been written by mistake for another: a word for a word, a sign for a sign.
fn is_alike(kind: Kind, other: Kind) -> bool {
    is_word(written(kind).unwrap_or("")) == is_word(written(other).unwrap_or(""))
}

// How far a token is from the place.
fn distance(at: usize, place: usize) -> u32 {
    at.abs_diff(place).min(100) as u32
}

// Whether a token of this kind may be written twice by mistake, but never on purpose: a word or a separator. (Where one
// block ends, another may end.)
fn is_single(kind: Kind) -> bool {
    match kind {
        Kind::End => false,
        Kind::Semicolon | Kind::Comma | Kind::Colon => true,
        _ => is_word(written(kind).unwrap_or("")),
    }
}

/// Whether the token with this number repeats the one before it by mistake.
pub(crate) fn is_doubled(tokens: &[Token], at: usize) -> bool {
    match (token_before(tokens, at), tokens.get(at)) {
        (Some(before), Some(token)) => before.kind == token.kind && is_single(token.kind),
        _ => false,
    }
}

// Adds what can be done at a token. A name, a number or a string is never removed: it was meant, even if the text is
// accepted without it.
fn add_at(
    candidates: &mut Vec<Candidate>,
    tokens: &[Token],
    at: usize,
    far: u32,
) -> Result<(), AllocError> {
    let Some(token) = tokens.get(at) else {
        return Ok(());
    };
    if !is_fixed(token.kind) {
        return Ok(());
    }
    let cost = if is_doubled(tokens, at) {
        DOUBLED
    } else {
        NEAREST
    };
    candidates.push(Candidate {
        at,
        change: Change::LeaveOut,
        cost: far.saturating_add(cost),
    })?;
    for kind in PUT {
        if is_alike(token.kind, kind) {
            candidates.push(Candidate {
                at,
                change: Change::Exchange(kind),
                cost: far.saturating_add(12),
            })?;
        }
    }
    Ok(())
}

// Adds what can be inserted before a token.
fn add_before(candidates: &mut Vec<Candidate>, at: usize, far: u32) -> Result<(), AllocError> {
    for kind in PUT {
        candidates.push(Candidate {
            at,
            change: Change::PutIn(kind),
            cost: far.saturating_add(PUT_HERE),
        })?;
    }
    Ok(())
}

/// Changes of one token near the token with this number, the nearest first.
pub(crate) fn candidates_near(
    alloc: Global,
    tokens: &[Token],
    place: usize,
) -> Result<Vec<Candidate>, AllocError> {
    let mut candidates = Vec::new(alloc);
    for at in place.saturating_sub(BACK)..place.saturating_add(ON) {
        let far = distance(at, place).saturating_mul(10);
        if at <= tokens.len() {
            add_before(&mut candidates, at, far)?;
        }
        add_at(&mut candidates, tokens, at, far)?;
    }
    candidates.sort_by_key(|candidate| candidate.cost)?;
    Ok(candidates)
}

// Where the token with this number is among those around a place.
fn index_in(around: &Around, at: usize, place: usize) -> Option<usize> {
    match at.checked_sub(place) {
        Some(behind) => around.before.len().checked_add(behind),
        None => around.before.len().checked_sub(place.saturating_sub(at)),
    }
}

// The tokens around a place with a change.
fn changed_tokens(
    alloc: Global,
    around: &Around,
    index: usize,
    change: Change,
) -> Result<Vec<Token>, AllocError> {
    let mut all = Vec::from_slice(alloc, around.before.as_slice())?;
    all.extend_from_slice(around.behind.as_slice())?;
    let (front, rest) = all.as_slice().split_at(index.min(all.len()));
    let (kind, rest) = match (change, rest) {
        (Change::LeaveOut, [_, rest @ ..]) => (None, rest),
        (Change::PutIn(kind), _) => (Some(kind), rest),
        (Change::Exchange(kind), [_, rest @ ..]) => (Some(kind), rest),
        _ => (None, rest),
    };
    let mut tokens = Vec::from_slice(alloc, front)?;
    if let Some(kind) = kind {
        tokens.push(made(kind))?;
    }
    tokens.extend_from_slice(rest)?;
    Ok(tokens)
}

/// How many of the tokens around a place are accepted with a change, by their numbers in the text; more than there are,
/// if all are.
pub(crate) fn reach_of(
    alloc: Global,
    source: &Source<'_>,
    around: &Around,
    place: usize,
    candidate: Candidate,
) -> Result<usize, AllocError> {
    let Some(index) = index_in(around, candidate.at, place) else {
        return Ok(0);
    };
    let tokens = changed_tokens(alloc, around, index, candidate.change)?;
    let count = taken(alloc, source, tokens.as_slice())?;
    Ok(match candidate.change {
        Change::LeaveOut => count.saturating_add(1),
        Change::PutIn(_) => count.saturating_sub(1),
        Change::Exchange(_) => count,
    })
}

// Whether letters or digits form one word with what is next to them.
fn is_word(text: &str) -> bool {
    match text.as_bytes().first() {
        Some(byte) => byte.is_ascii_alphabetic(),
        None => false,
    }
}

// What is inserted into the text for a token of this kind, after another one.
fn put_text(alloc: Global, kind: Kind, touches: bool) -> Result<String, AllocError> {
    let text = written(kind).unwrap_or("");
    let (before, behind) = match kind {
        Kind::Assign | Kind::Equal => (" ", ""),
        _ if !is_word(text) => ("", ""),
        _ if touches => (" ", " "),
        _ => (" ", ""),
    };
    format!(in alloc; "{before}{text}{behind}")
}

fn edit_behind(alloc: Global, tokens: &[Token], at: usize, kind: Kind) -> Result<Edit, AllocError> {
    let from = match token_before(tokens, at) {
        Some(token) => token.span.to,
        None => 0,
    };
    let touches = match tokens.get(at) {
        Some(token) => token.span.from == from,
        None => false,
    };
    Ok(Edit {
        span: Span { from, to: from },
        put: put_text(alloc, kind, touches)?,
    })
}

/// The change as an edit of the text.
pub(crate) fn edit_of(
    alloc: Global,
    tokens: &[Token],
    candidate: Candidate,
) -> Result<Edit, AllocError> {
    let span = match tokens.get(candidate.at) {
        Some(token) => token.span,
        None => Span { from: 0, to: 0 },
    };
    match candidate.change {
        Change::LeaveOut => Ok(Edit {
            span,
            put: String::new(alloc),
        }),
        Change::PutIn(kind) => edit_behind(alloc, tokens, candidate.at, kind),
        Change::Exchange(kind) => Ok(Edit {
            span,
            put: String::from_str(alloc, written(kind).unwrap_or(""))?,
        }),
    }
}
