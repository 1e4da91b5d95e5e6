//! How far expressions and statements go, by the tokens at one depth of parentheses and brackets.

use crate::context::Context;
use crate::kinds::{BOUNDS_EXPRESSION, ENDS_STATEMENT};
use ps_scan::Kind;

// Whether a token opens parentheses or brackets.
fn opens(kind: Kind) -> bool {
    matches!(kind, Kind::LeftParen | Kind::LeftBracket)
}

// Whether it closes them.
fn closes(kind: Kind) -> bool {
    matches!(kind, Kind::RightParen | Kind::RightBracket)
}

// The depth after a token that goes deeper, or back up.
fn depth_behind(depth: usize, goes_deeper: bool, goes_up: bool) -> usize {
    if goes_deeper {
        depth.saturating_add(1)
    } else if goes_up {
        depth.saturating_sub(1)
    } else {
        depth
    }
}

/// The first token from one on, at its depth, that is of one of these kinds, or that closes what is around it; the
/// number of all tokens if there is none.
pub(crate) fn next_of(cx: &Context<'_>, from: usize, kinds: &[Kind]) -> usize {
    let mut depth: usize = 0;
    let tokens = cx.tokens.get(from..).unwrap_or(&[]);
    for (count, token) in tokens.iter().enumerate() {
        let closes = closes(token.kind);
        if depth == 0 && (closes || kinds.contains(&token.kind)) {
            return from.saturating_add(count);
        }
        depth = depth_behind(depth, opens(token.kind), closes);
    }
    cx.tokens.len()
}

/// The token after an expression that continues from a token on.
pub(crate) fn expression_end(cx: &Context<'_>, from: usize) -> usize {
    next_of(cx, from, BOUNDS_EXPRESSION)
}

/// The token after a statement that continues from a token on.
pub(crate) fn statement_end(cx: &Context<'_>, from: usize) -> usize {
    next_of(cx, from, ENDS_STATEMENT)
}

/// The first token of a range, at its depth, that is of one of some kinds.
pub(crate) fn first_between(
    cx: &Context<'_>,
    from: usize,
    to: usize,
    kinds: &[Kind],
) -> Option<usize> {
    let at = next_of(cx, from, kinds);
    if at < to { Some(at) } else { None }
}

// The last token before one, at its depth, that is of one of some kinds, or that opens what is around.
fn last_of(cx: &Context<'_>, before: usize, kinds: &[Kind]) -> Option<usize> {
    let mut depth: usize = 0;
    let tokens = cx.tokens.get(..before).unwrap_or(&[]);
    for (at, token) in tokens.iter().enumerate().rev() {
        let opens = opens(token.kind);
        if depth == 0 && (opens || kinds.contains(&token.kind)) {
            return Some(at);
        }
        depth = depth_behind(depth, closes(token.kind), opens);
    }
    None
}

/// The first token of the expression that goes on before a token.
pub(crate) fn expression_start(cx: &Context<'_>, before: usize) -> usize {
    match last_of(cx, before, BOUNDS_EXPRESSION) {
        Some(at) => at.saturating_add(1),
        None => 0,
    }
}

/// The last token of a range, at the depth of its end, that is of one of some kinds.
pub(crate) fn last_between(
    cx: &Context<'_>,
    from: usize,
    to: usize,
    kinds: &[Kind],
) -> Option<usize> {
    let at = last_of(cx, to, kinds)?;
    if at < from { None } else { Some(at) }
}
