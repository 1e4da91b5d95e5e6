//! Empty statements where a statement was meant.

use crate::comments::{comment_in, has_statements};
use crate::finding::Finding;
use crate::rows::{BODY_EMPTY, COMMENTED, ELSE_EMPTY, THEN_EMPTY};
use crate::text::{Text, is_deeper};
use crate::uses::{CALLS, Uses};
use ps_diagnose_outline::{Construct, Construction};
use ps_scan::Kind;

// Whether a construction is ended by its `;`, and not deliberately because of what its condition does, such as a call
// of a routine that changes something, unless what comes after the `;` looks as if it belonged to it.
fn is_ended(text: &Text<'_>, uses: &Uses, part: &Construction) -> bool {
    let next = part.body.saturating_add(1);
    text.is(part.body, Kind::Semicolon)
        && (!uses.has(CALLS, part.first, part.body)
            || text.is(next, Kind::Begin)
            || text.is_first(next) && is_deeper(text.lead(next), text.lead(part.first)))
}

// The row of a construction that does nothing.
fn row_of(part: &Construction) -> usize {
    match (part.construct, part.has_turned) {
        (Construct::If, false) => THEN_EMPTY,
        (Construct::If, true) => ELSE_EMPTY,
        _ => BODY_EMPTY,
    }
}

// What is reported for a construction without a statement: a comment instead of one says that this is deliberate.
fn row_of_empty(text: &Text<'_>, uses: &Uses, part: &Construction) -> Option<usize> {
    match comment_in(text, text.gap(part.body)) {
        Some(comment) if has_statements(text.outline.bytes(comment)) => Some(COMMENTED),
        None if is_ended(text, uses, part) => Some(row_of(part)),
        _ => None,
    }
}

/// A construction that ends right after its `then`, `else` or `do`. It is ordered by its word.
pub(crate) fn empty(text: &Text<'_>, uses: &Uses, part: &Construction) -> Option<Finding> {
    if !part.is_prefix() || part.body != part.end {
        return None;
    }
    let Some(row) = row_of_empty(text, uses, part) else {
        return None;
    };
    let word = text.span(part.first);
    let mut found = Finding::new(row, text.span(part.body), word);
    found.order = word.from;
    found.label = word;
    Some(found)
}
