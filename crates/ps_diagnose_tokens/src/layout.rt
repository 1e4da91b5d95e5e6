//! How lines are indented, which shows where a `begin` or an `end` may be missing.

use crate::context::Context;
use crate::letters::{Class, byte_before, end_of, start_of};
use crate::places::next_end;
use crate::walk::{Open, Past};
use ps_scan::Kind;

// How many bytes of a line before a token are looked at: a longer line isn't laid out.
const MOST_LINE: usize = 200;

// How many of the last constructions before the place are looked at.
const MOST_PAST: usize = 64;

// Where the line of a token begins, or what is looked at of a longer one.
fn line_start(cx: &Context<'_>, at: usize) -> usize {
    let from = cx.span(at).from as usize;
    let first = from.saturating_sub(MOST_LINE);
    let near = cx.bytes.get(first..from).unwrap_or(&[]);
    first.saturating_add(start_of(near, near.len(), Class::Line))
}

// How far the line of a token is indented.
fn indent_of(cx: &Context<'_>, at: usize) -> usize {
    let start = line_start(cx, at);
    end_of(cx.bytes, start, Class::Blank).saturating_sub(start)
}

// The column of a token, from 0.
fn column_of(cx: &Context<'_>, at: usize) -> usize {
    (cx.span(at).from as usize).saturating_sub(line_start(cx, at))
}

// The last constructions that ended before the place.
fn recent<'c>(cx: &'c Context<'_>) -> &'c [Past] {
    let past = cx.opened.past.as_slice();
    past.get(past.len().saturating_sub(MOST_PAST)..)
        .unwrap_or(&[])
}

// Whether a construction without a `begin` seems to want one: an `end` that is indented as far comes after further
// statements, the first of which is indented as its own statement is.
fn wants_begin(cx: &Context<'_>, past: Past) -> bool {
    if !past.is_bare {
        return false;
    }
    let indent = indent_of(cx, past.open.at);
    let next = past.end.saturating_add(1);
    let column = column_of(cx, next);
    if column <= indent && column != column_of(cx, past.open.body) {
        return false;
    }
    let end = next_end(cx, past.end);
    next < end && column_of(cx, end) >= indent
}

/// The innermost construction in what the `end` before the place ended that seems to want a `begin`.
pub(crate) fn unbegun(cx: &Context<'_>) -> Option<Open> {
    let mut first = cx.opened.closed?.at;
    let mut found = None;
    for past in recent(cx).iter() {
        if past.open.at > first && wants_begin(cx, *past) {
            first = past.open.at;
            found = Some(past.open);
        }
    }
    found
}

/// The `if` without an `else` among the statements before the place: the last one that is indented as the place,
/// otherwise the innermost one of the last statement with one.
pub(crate) fn past_if(cx: &Context<'_>) -> Option<usize> {
    let indent = indent_of(cx, cx.at);
    let list = cx.opened.list();
    let mut end = 0;
    let mut last = None;
    let mut found = None;
    for past in recent(cx).iter() {
        if past.open.waits_for_else() && past.list == list {
            if past.end > end {
                end = past.end;
                last = Some(past.open.at);
            }
            if indent_of(cx, past.open.at) == indent {
                found = Some(past.open.at);
            }
        }
    }
    found.or(last)
}

// Whether a token begins a line that is indented by no more than so far.
fn stands_outside(cx: &Context<'_>, at: usize, indent: usize) -> bool {
    let from = cx.span(at).from as usize;
    let start = start_of(cx.bytes, from, Class::Blank);
    let begins_line = start == 0 || byte_before(cx.bytes, start) == b'\n';
    begins_line && from.saturating_sub(start) <= indent
}

// The first token after the beginning of a construction, up to another token, whose line is indented as if that had
// ended.
fn first_outside(cx: &Context<'_>, open: usize, end: usize) -> Option<usize> {
    let indent = indent_of(cx, open);
    for at in open.saturating_add(1)..end {
        if !cx.is_of(at, &[Kind::Begin]) && stands_outside(cx, at, indent) {
            return Some(at);
        }
    }
    None
}

// The same for what the `end` before the place ended.
fn outside_closed(cx: &Context<'_>) -> Option<usize> {
    first_outside(cx, cx.opened.closed?.at, cx.at.saturating_sub(1))
}

// The construction that an `end` ends, by the number of its first token.
fn ended_by(cx: &Context<'_>, end: usize) -> Option<usize> {
    let mut depth: usize = 0;
    for at in (0..end).rev() {
        match cx.kind(at) {
            Some(Kind::End) => depth = depth.saturating_add(1),
            Some(Kind::Begin | Kind::Case | Kind::Record) if depth == 0 => return Some(at),
            Some(Kind::Begin | Kind::Case | Kind::Record) => depth = depth.saturating_sub(1),
            _ => {}
        }
    }
    None
}

/// The construction within what the `end` before the place ended that an `end` ends which is indented as that.
pub(crate) fn unended(cx: &Context<'_>) -> Option<usize> {
    let end = outside_closed(cx)?;
    if cx.is_of(end, &[Kind::End]) {
        ended_by(cx, end)
    } else {
        None
    }
}

/// The first token whose line is indented as if what the `end` before the place ended had ended, or such a construction
/// within that.
pub(crate) fn outside(cx: &Context<'_>) -> Option<usize> {
    let end = outside_closed(cx)?;
    let Some(open) = unended(cx) else {
        return Some(end);
    };
    match first_outside(cx, open, end) {
        // (the constants of a `case` may be indented as that, and the first statement as its `begin`)
        Some(first) if cx.is_of(open, &[Kind::Begin]) && first > open.saturating_add(1) => {
            Some(first)
        }
        _ => Some(end),
    }
}
