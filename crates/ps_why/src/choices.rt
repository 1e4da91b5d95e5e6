//! The constants of a `case`.

use ps_diagnose_outline::Outline;
use ps_scan::Kind;
use std::alloc::{AllocError, Global};

// How many of its constants are told.
const MOST: u32 = 8;

// How many constructions with an end of their own are open after a token of a statement.
fn open_behind(kind: Kind, open: u32) -> u32 {
    match kind {
        Kind::Begin | Kind::Case | Kind::Repeat => open.saturating_add(1),
        Kind::End | Kind::Until => open.saturating_sub(1),
        _ => open,
    }
}

// Whether constants follow a token of a `case` that is in none of its statements' own parts.
fn constants_follow(kind: Kind, before: bool) -> bool {
    match kind {
        Kind::Of | Kind::Semicolon => true,
        Kind::Colon => false,
        _ => before,
    }
}

// Adds the constant whose last token is this one, of which there are so many before it.
fn put_constant(
    alloc: Global,
    outline: &Outline<'_>,
    at: usize,
    told: u32,
    out: &mut String,
) -> Result<(), AllocError> {
    if told > 0 {
        out.push_str(", ")?;
    }
    if told == MOST {
        return out.push_str("..");
    }
    if outline.is(at.saturating_sub(1), Kind::Minus) {
        out.push_str("-")?;
    }
    let written = outline.text(alloc, outline.span(at))?;
    out.push_str(written.as_str())
}

/// The constants that the `case` at a token has, as they are written; of many the first ones.
pub(crate) fn constants_of(
    alloc: Global,
    outline: &Outline<'_>,
    first: usize,
) -> Result<String, AllocError> {
    let mut out = String::new(alloc);
    let mut open: u32 = 1;
    let mut told: u32 = 0;
    let mut follows = false;
    for at in first.saturating_add(1)..outline.token_count() {
        let kind = outline.kind(at);
        open = open_behind(kind, open);
        if open == 0 || told > MOST {
            break;
        }
        if open == 1 {
            if follows && matches!(kind, Kind::Name | Kind::Number | Kind::Text) {
                put_constant(alloc, outline, at, told, &mut out)?;
                told = told.saturating_add(1);
            }
            follows = constants_follow(kind, follows);
        }
    }
    Ok(out)
}
