//! Where else an undeclared name occurs.

use ps_diagnose_outline::Outline;
use ps_scan::Kind;
use ps_text::Span;
use std::alloc::{AllocError, Global};
use std::collections::HashSet;

// Where names of a spelling are declared, and where the program has its name.
fn places_declared(
    alloc: Global,
    outline: &Outline<'_>,
    spelling: Option<u32>,
) -> Result<HashSet<u32>, AllocError> {
    let mut places = HashSet::new(alloc);
    places.insert(outline.program_name().from)?;
    for point in outline.points() {
        if Some(point.spelling) == spelling {
            places.insert(point.name.from)?;
        }
    }
    Ok(places)
}

// Adds the places where an unknown name occurs, other than that of the fault and those where it is declared.
fn add_uses(
    uses: &mut Vec<Span>,
    outline: &Outline<'_>,
    place: Span,
    declared: &HashSet<u32>,
) -> Result<(), AllocError> {
    let spelling = outline.spelling_at(place.from);
    let mut is_field = false;
    for token in outline.tokens() {
        if !is_field
            && token.span.from != place.from
            && token.kind == Kind::Name
            && outline.spelling_at(token.span.from) == spelling
            && outline.denoted(token.span).is_none()
            && !declared.contains(&token.span.from)
        {
            uses.push(token.span)?;
        }
        is_field = token.kind == Kind::Dot;
    }
    Ok(())
}

/// The other places where the name at a place occurs and is not declared.
pub(crate) fn other_uses(
    alloc: Global,
    outline: &Outline<'_>,
    place: Span,
) -> Result<Vec<Span>, AllocError> {
    let mut uses = Vec::new(alloc);
    let declared = places_declared(alloc, outline, outline.spelling_at(place.from))?;
    add_uses(&mut uses, outline, place, &declared)?;
    Ok(uses)
}
