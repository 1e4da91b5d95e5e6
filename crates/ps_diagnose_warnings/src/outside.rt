//! Constants that are outside the range of their places.

use crate::finding::Finding;
use crate::rows::{BY_ZERO, NO_INDEX, NO_VALUE, NO_WIDTH};
use crate::text::Text;
use ps_diagnose_outline::{Form, Point, Type};
use ps_scan::Kind;
use ps_syntax::Constant;
use ps_text::Span;

// An integer constant, and the token after it.
#[derive(Clone, Copy)]
struct Written {
    value: i64,
    span: Span,
    next: usize,
}

// The integer that a number or the name of a constant is.
fn integer_at(text: &Text<'_>, at: usize) -> Option<i64> {
    let span = text.span(at);
    let (ty, value) = match text.outline.kind(at) {
        Kind::Number => text.outline.constant(Constant::Number(None, span)),
        Kind::Name => text.outline.constant(Constant::Name(None, span)),
        _ => return None,
    };
    match text.outline.form_of(ty) {
        Some(Form::Integer) => value,
        _ => None,
    }
}

// The integer constant that begins at a token, perhaps by its sign.
fn written_at(text: &Text<'_>, at: usize) -> Option<Written> {
    let is_negative = text.is(at, Kind::Minus);
    let last = at.saturating_add(usize::from(is_negative));
    let value = integer_at(text, last)?;
    let span = Span {
        from: text.span(at).from,
        to: text.span(last).to,
    };
    Some(Written {
        value: if is_negative {
            value.saturating_neg()
        } else {
            value
        },
        span,
        next: last.saturating_add(1),
    })
}

// What the name before a token denotes; nothing if it is that of a field after a point.
fn named_before(text: &Text<'_>, at: usize) -> Option<Point> {
    if text.is(at.saturating_sub(2), Kind::Dot) {
        return None;
    }
    text.outline.declared(text.span(at.saturating_sub(1)))
}

// A constant outside a range of integers that has a name.
fn beyond(
    text: &Text<'_>,
    row: usize,
    point: Point,
    ty: Type,
    written: Written,
) -> Option<Finding> {
    if !matches!(text.outline.form(ty), Some(Form::Integer)) {
        return None;
    }
    let (low, high) = text.outline.bounds(ty)?;
    if low <= written.value && written.value <= high {
        return None;
    }
    let mut found = Finding::new(row, written.span, point.name);
    found.label = point.name;
    found.range = (low, high);
    Some(found)
}

// An index after a bracket.
fn index(text: &Text<'_>, at: usize, written: Written) -> Option<Finding> {
    if !matches!(
        text.outline.kind(written.next),
        Kind::RightBracket | Kind::Comma
    ) {
        return None;
    }
    let point = named_before(text, at)?;
    match text.outline.form_of(point.ty) {
        Some(
            Form::Array {
                index: Some(ty),
                ..
            },
        ) => beyond(text, NO_INDEX, point, ty, written),
        _ => None,
    }
}

// A value after `:=`, if it ends there.
fn value(text: &Text<'_>, at: usize, written: Written) -> Option<Finding> {
    if !matches!(
        text.outline.kind(written.next),
        Kind::Semicolon | Kind::End | Kind::Until | Kind::Else | Kind::To | Kind::Downto
    ) {
        return None;
    }
    let point = named_before(text, at)?;
    beyond(text, NO_VALUE, point, point.ty?, written)
}

// A field width after its `:`. Nothing else that begins like a constant comes after one in a statement.
fn width(text: &Text<'_>, written: Written) -> Option<Finding> {
    let is_whole = matches!(
        text.outline.kind(written.next),
        Kind::RightParen | Kind::Comma
    );
    (is_whole && written.value < 1).then_some(Finding::new(NO_WIDTH, written.span, written.span))
}

/// A constant after a token of a statement, if it is an index that the array doesn't have, a value that the variable
/// doesn't take, a field width below one, or a divisor of 0.
pub(crate) fn outside(text: &Text<'_>, at: usize) -> Option<Finding> {
    let kind = text.outline.kind(at);
    if !matches!(
        kind,
        Kind::LeftBracket | Kind::Assign | Kind::Colon | Kind::Div | Kind::Mod
    ) {
        return None;
    }
    let written = written_at(text, at.saturating_add(1))?;
    match kind {
        Kind::LeftBracket => index(text, at, written),
        Kind::Assign => value(text, at, written),
        Kind::Div | Kind::Mod if written.value == 0 => {
            Some(Finding::new(BY_ZERO, written.span, text.span(at)))
        }
        Kind::Div | Kind::Mod => None,
        _ => width(text, written),
    }
}
