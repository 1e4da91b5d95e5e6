//! Statements after a loop that never ends, and loops that are never executed.

use crate::finding::Finding;
use crate::rows::{BEHIND_FALSE, BEHIND_TRUE, NEVER_DOWN, NEVER_UP};
use crate::text::Text;
use crate::unchanged::condition_of;
use ps_diagnose_outline::{Construct, Construction, RequiredKind, Type};
use ps_scan::Kind;

// The row of a loop that has no end: its condition is the word `true` of a `while`, or `false` of a `repeat`.
fn row_of(text: &Text<'_>, part: &Construction) -> Option<usize> {
    let (from, to) = condition_of(part);
    if from.saturating_add(1) != to {
        return None;
    }
    let required = text.outline.required(text.span(from))?;
    match (required.kind, part.construct) {
        (RequiredKind::Constant(Type::Boolean, 1), Construct::While) => Some(BEHIND_TRUE),
        (RequiredKind::Constant(Type::Boolean, 0), Construct::Repeat) => Some(BEHIND_FALSE),
        _ => None,
    }
}

/// A loop that never ends and is followed by statements.
pub(crate) fn unreached(text: &Text<'_>, part: &Construction) -> Option<Finding> {
    let is_direct = part.within == part.list && text.is_listed(part);
    let has_next = text.is(part.end, Kind::Semicolon)
        && !matches!(
            text.outline.kind(part.end.saturating_add(1)),
            Kind::Semicolon | Kind::End | Kind::Until
        );
    if !is_direct || !has_next {
        return None;
    }
    let row = row_of(text, part)?;
    let word = text.span(part.first);
    let mut found = Finding::new(row, word, word);
    found.label = text.span(part.end.saturating_add(1));
    Some(found)
}

// The number that a token is.
fn number_at(text: &Text<'_>, at: usize) -> Option<u32> {
    if text.is(at, Kind::Number) {
        text.written(text.span(at)).parse::<u32>().ok()
    } else {
        None
    }
}

/// A `for` between two numbers, the first of which comes after the last.
pub(crate) fn undone(text: &Text<'_>, part: &Construction) -> Option<Finding> {
    let at = part.first;
    if !matches!(part.construct, Construct::For) || !text.is(at.saturating_add(6), Kind::Do) {
        return None;
    }
    let from = number_at(text, at.saturating_add(3))?;
    let to = number_at(text, at.saturating_add(5))?;
    let goes_up = text.is(at.saturating_add(4), Kind::To);
    let row = if goes_up && from > to {
        NEVER_UP
    } else if !goes_up && from < to {
        NEVER_DOWN
    } else {
        return None;
    };
    let word = text.span(at);
    let mut found = Finding::new(row, word, word);
    found.label = text.span(at.saturating_add(4));
    Some(found)
}
