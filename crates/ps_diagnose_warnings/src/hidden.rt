//! Variables that never get a value, or that hide those of an enclosing block where that is surely not meant.

use crate::finding::Finding;
use crate::rows::{HIDES_REFERENCE, HIDES_VALUE, HIDES_VARIABLE, UNASSIGNED};
use crate::text::Text;
use crate::uses::{ASSIGNED, CHANGED, READ, Uses};
use ps_diagnose_outline::{Point, PointKind, RegionKind};

// A variable of a routine that gets values which nothing uses, if it hides one of a block around.
fn hides(text: &Text<'_>, point: &Point) -> Option<Finding> {
    let region = text.outline.region(point.region)?;
    if !matches!(region.kind, RegionKind::Routine) {
        return None;
    }
    let other = text.outline.find(region.around, point.spelling)?;
    let row = match other.kind {
        PointKind::Variable => HIDES_VARIABLE,
        PointKind::ValueParameter => HIDES_VALUE,
        PointKind::VariableParameter => HIDES_REFERENCE,
        _ => return None,
    };
    let mut found = Finding::new(row, point.name, point.name);
    found.label = other.name;
    Some(found)
}

/// What is reported for a variable by everything that is done with it: that it is used but never gets another value
/// than its first, or that it hides another variable.
pub(crate) fn told_of(text: &Text<'_>, uses: &Uses, point: &Point) -> Option<Finding> {
    if !matches!(point.kind, PointKind::Variable) {
        return None;
    }
    match uses.next(READ.saturating_add(point.number), 0) {
        Some(at) if !uses.has_any(CHANGED, point.number) => {
            let word = text.span(at);
            let mut found = Finding::new(UNASSIGNED, word, word);
            found.label = point.name;
            found.point = point.number;
            Some(found)
        }
        None if uses.has_any(ASSIGNED, point.number) => hides(text, point),
        _ => None,
    }
}
