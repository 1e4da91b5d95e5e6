//! Lines that are indented as if they belonged to the statement before them.

use crate::finding::Finding;
use crate::rows::{ELSE_INDENTED, INDENTED};
use crate::text::{Text, is_deeper};
use ps_diagnose_outline::{Construct, Construction};
use ps_scan::Kind;

// Whether a construction ends with a `;` after a statement, and another one begins a line after that.
fn is_passed(text: &Text<'_>, part: &Construction, next: usize) -> bool {
    let is_done = part.is_prefix() && part.body < part.end && text.is(part.end, Kind::Semicolon);
    is_done
        && text.is_listed(part)
        && !matches!(
            text.outline.kind(next),
            Kind::Semicolon | Kind::End | Kind::Until
        )
        && text.is_first(next)
}

// Whether a construction begins a line, or is after an `else` there.
fn is_ahead(text: &Text<'_>, part: &Construction) -> bool {
    let before = part.first.saturating_sub(1);
    text.is_first(part.first)
        || text.is(before, Kind::Else) && text.line_at(before) == text.line_at(part.first)
}

// Whether the next statement is right below the one in a construction, and further indented.
fn is_below(text: &Text<'_>, part: &Construction, next: usize) -> bool {
    let lead = text.lead(part.body);
    text.is_first(part.body)
        && !text.is(part.body, Kind::Begin)
        && is_deeper(lead, text.lead(part.first))
        && lead == text.lead(next)
}

// Whether the next statement is further indented than a construction that is the whole line above.
fn is_further(text: &Text<'_>, part: &Construction, next: usize) -> bool {
    let line = text.line_at(part.first);
    text.line_at(part.end) == line
        && text.line_at(next) == line.saturating_add(1)
        && part.within == part.list
        && text.is_first(part.first)
        && is_deeper(text.lead(next), text.lead(part.first))
}

/// The line after a construction, if it looks as if it belonged to it.
pub(crate) fn indented(text: &Text<'_>, part: &Construction) -> Option<Finding> {
    let next = part.end.saturating_add(1);
    let misleads = is_passed(text, part, next)
        && is_ahead(text, part)
        && (is_below(text, part, next) || is_further(text, part, next));
    if !misleads {
        return None;
    }
    let word = text.span(part.first);
    let mut found = Finding::new(INDENTED, text.span(next), word);
    found.label = word;
    found.at = text.span(part.end).from;
    Some(found)
}

// The `if` around a construction to which an `else` with this indentation seems to belong: it has none, and begins its
// line.
fn seeming_if(text: &Text<'_>, part: &Construction, lead: &[u8]) -> Option<Construction> {
    let mut around = text.outline.constructions().get(part.within)?;
    for _ in text.outline.constructions() {
        if !around.is_prefix() {
            return None;
        }
        if matches!(around.construct, Construct::If)
            && !around.has_turned
            && text.is_first(around.first)
            && text.lead(around.first) == lead
        {
            return Some(*around);
        }
        around = text.outline.constructions().get(around.within)?;
    }
    None
}

/// The `else` of an `if`, if it looks as if it belonged to one further out.
pub(crate) fn misplaced(text: &Text<'_>, part: &Construction) -> Option<Finding> {
    let other = part.body.checked_sub(1)?;
    let lead = text.lead(other);
    let is_apart = part.has_turned
        && text.is(other, Kind::Else)
        && text.is_first(other)
        && text.is_first(part.first)
        && is_deeper(text.lead(part.first), lead);
    if !is_apart {
        return None;
    }
    let outer = seeming_if(text, part, lead)?;
    let word = text.span(other);
    let mut found = Finding::new(ELSE_INDENTED, word, word);
    found.label = text.span(part.first);
    found.at = text.span(outer.first).from;
    Some(found)
}
