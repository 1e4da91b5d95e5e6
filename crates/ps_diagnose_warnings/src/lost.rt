//! Value parameters that get values which are then lost.

use crate::finding::{Finding, Names};
use crate::rows::{ALL_LOST, ONE_LOST};
use crate::text::Text;
use crate::uses::{ASSIGNED, Body, CHANGED, GIVEN, LOOP_ENDS, LOOPS, OPENED, READ, Uses};
use ps_diagnose_outline::{Point, PointKind};
use ps_scan::Kind;

// The most tokens of a statement that are searched.
const FURTHEST: usize = 200;

// The first token after the statement to which a token belongs, if that contains no other statement; for a long one, a
// token in it.
fn end_of_statement(text: &Text<'_>, at: usize) -> usize {
    let furthest = at.saturating_add(FURTHEST);
    for next in at..furthest {
        match text.outline.kind(next) {
            Kind::Semicolon | Kind::End | Kind::Until | Kind::Else => return next,
            _ => {}
        }
    }
    furthest
}

// Whether the value of a variable is used in the outermost loop around a token, if there is one.
fn is_used_again(uses: &Uses, number: u32, at: usize) -> bool {
    let behind = at.saturating_add(1);
    let Some(first) = uses.last(LOOPS, behind) else {
        return false;
    };
    match uses.next(LOOP_ENDS, first) {
        Some(end) => at < end && uses.has_of(READ, number, first, end),
        None => false,
    }
}

// Whether a value parameter of a block, which its statements alone use, gets a value last that is surely used by
// nothing.
fn is_lost(text: &Text<'_>, uses: &Uses, body: Body, point: &Point) -> bool {
    let number = point.number;
    let is_own = matches!(point.kind, PointKind::ValueParameter)
        && !uses.has_any(OPENED, number)
        && !uses.has_of(READ, number, 0, body.first)
        && !uses.has_of(CHANGED, number, 0, body.first);
    if !is_own {
        return false;
    }
    let assigned = uses.last(ASSIGNED.saturating_add(number), body.end);
    let given = uses.last(GIVEN.saturating_add(number), body.end);
    match assigned.max(given) {
        Some(at) => {
            !is_used_again(uses, number, at)
                && !uses.has_of(READ, number, end_of_statement(text, at), body.end)
        }
        None => false,
    }
}

// The parameters of a block whose last values are lost.
fn names_of(text: &Text<'_>, uses: &Uses, body: Body) -> Names {
    let mut names = Names::none();
    for number in text.outline.points_of(body.region) {
        if let Some(point) = text.outline.point(*number) {
            if is_lost(text, uses, body, &point) {
                names.add(text.outline.token_at(point.name.from));
            }
        }
    }
    names
}

/// The value parameters of a block that get values which are then lost.
pub(crate) fn lost(text: &Text<'_>, uses: &Uses, body: Body) -> Option<Finding> {
    let routine = text.outline.point(text.outline.routine_of(body.region)?)?;
    let names = names_of(text, uses, body);
    let first = names.tokens().first()?;
    let row = if names.count == 1 { ONE_LOST } else { ALL_LOST };
    let mut found = Finding::new(row, text.span(*first), routine.name);
    found.names = names;
    Some(found)
}
