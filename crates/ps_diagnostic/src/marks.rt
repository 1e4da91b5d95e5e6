//! The lines of a text that are shown with a diagnostic, and the marks below them.
//!
//! A line of at most 120 bytes is shown whole. Of a longer one pieces of at most 100 bytes are shown, each around
//! something that is marked or changed, with `...` where the line goes on; what is in the piece shown last needs no
//! further one. So what is shown doesn't grow with the length of a line.

use crate::shown::{put, put_all, put_space, put_text, put_times, width};
use crate::view::{Reach, View};
use crate::{Diagnostic, Edit, Label, Mend};
use ps_text::Span;
use std::alloc::{AllocError, Global};

// The least columns of a line's number.
const LEAST: usize = 3;

// The most bytes of a line that is shown whole.
const WHOLE: usize = 120;

// The most bytes of a piece of a longer line.
const MOST: usize = 100;

// How many of them come before what is marked, if the line has that many.
const BEFORE: usize = 40;

// The most bytes of a character.
const LONGEST: usize = 4;

// The most changes of the first mend whose lines are shown.
const MOST_EDITS: usize = 8;

// What is shown for the rest of a line.
const CUT: &str = "...";

/// A piece of a line that is shown: bytes of it, counted from the line's first.
#[derive(Clone, Copy)]
struct Piece {
    line: usize,
    from: usize,
    to: usize,
    /// How many bytes the line has.
    end: usize,
}

/// What all lines are shown by: the text, and how many columns the numbers of lines take.
#[derive(Clone, Copy)]
struct Layout<'a> {
    alloc: Global,
    view: &'a View<'a>,
    room: usize,
}

// What is shown before anything is.
const NOTHING: Piece = Piece {
    line: 0,
    from: 0,
    to: 0,
    end: 0,
};

// Whether a byte of a line goes on with a character that began before it.
fn goes_on(text: &[u8], at: usize) -> bool {
    match text.get(at) {
        Some(byte) => *byte & 0xC0 == 0x80,
        None => false,
    }
}

// The first byte from one on that begins a character; the byte itself, if it is not part of one.
fn character_from(text: &[u8], at: usize) -> usize {
    for count in 0..LONGEST {
        let next = at.saturating_add(count);
        if !goes_on(text, next) {
            return next;
        }
    }
    at
}

// The piece of a line that is shown around a byte of it.
fn piece_round(text: &[u8], line: usize, at: usize) -> Piece {
    let end = text.len();
    if end <= WHOLE {
        return Piece {
            line,
            from: 0,
            to: end,
            end,
        };
    }
    let first = at.saturating_sub(BEFORE).min(end.saturating_sub(MOST));
    let from = character_from(text, first);
    let to = character_from(text, from.saturating_add(MOST)).min(end);
    Piece {
        line,
        from,
        to,
        end,
    }
}

// Whether a piece has a byte of a line, or ends with the line before it.
fn has(piece: Piece, reach: Reach) -> bool {
    let is_before_end = reach.from < piece.to || piece.to == piece.end;
    piece.line == reach.line && piece.from <= reach.from && is_before_end
}

// The changes of the first mend.
fn edits_of(mends: &[Mend]) -> &[Edit] {
    match mends.first() {
        Some(mend) => mend.edits.as_slice(),
        None => &[],
    }
}

// The lines that are shown, in their order; some may be there twice.
fn lines_of(
    alloc: Global,
    view: &View<'_>,
    diagnostic: &Diagnostic,
    place: Span,
) -> Result<Vec<usize>, AllocError> {
    let mut lines = Vec::new(alloc);
    lines.push(view.line_of(place.from))?;
    for label in diagnostic.labels.iter() {
        lines.push(view.line_of(label.span.from))?;
    }
    let edits = edits_of(diagnostic.mends.as_slice());
    for edit in edits.iter().take(MOST_EDITS) {
        lines.push(view.line_of(edit.span.from))?;
    }
    lines.sort()?;
    Ok(lines)
}

// How many columns the numbers of lines take.
fn room_of(alloc: Global, lines: &[usize]) -> Result<usize, AllocError> {
    let last = lines.last().copied().unwrap_or(0);
    let number = format!(in alloc; "{last}")?;
    Ok(number.len().max(LEAST))
}

// Puts a line's number, and what comes between it and the line.
fn put_number(layout: Layout<'_>, out: &mut String, line: usize) -> Result<(), AllocError> {
    let number = format!(in layout.alloc; "{line}")?;
    put_times(out, ' ', layout.room.saturating_sub(number.len()))?;
    put_all(out, &[number.as_str(), " |"])
}

// Puts a piece of a line, with what is shown for the rest of the line.
fn put_piece(out: &mut String, text: &[u8], piece: Piece) -> Result<(), AllocError> {
    if !text.is_empty() {
        out.push(' ')?;
        out.push_str(if piece.from > 0 { CUT } else { "" })?;
        put(out, text.get(piece.from..piece.to).unwrap_or(&[]))?;
        out.push_str(if piece.to < piece.end { CUT } else { "" })?;
    }
    out.push('\n')
}

// Puts the piece of a line around what is marked or changed there, if the piece that was put last doesn't have it.
fn put_round(
    layout: Layout<'_>,
    out: &mut String,
    last: Piece,
    reach: Reach,
) -> Result<Piece, AllocError> {
    if has(last, reach) {
        return Ok(last);
    }
    let text = layout.view.line(reach.line);
    let piece = piece_round(text, reach.line, reach.from);
    put_number(layout, out, reach.line)?;
    put_piece(out, text, piece)?;
    Ok(piece)
}

// Puts spaces as wide as what is shown before a mark.
fn put_lead(out: &mut String, lead: &[u8], is_cut: bool) -> Result<(), AllocError> {
    if is_cut {
        put_times(out, ' ', CUT.len())?;
    }
    put_space(out, lead)
}

// Puts a line with a mark below the part of a span that is in a piece, and a text after it.
fn put_mark(
    layout: Layout<'_>,
    out: &mut String,
    piece: Piece,
    reach: Reach,
    sign: char,
    text: &str,
) -> Result<(), AllocError> {
    let line = layout.view.line(reach.line);
    let lead = line.get(piece.from..reach.from).unwrap_or(&[]);
    let marked = line.get(reach.from..reach.to.min(piece.to)).unwrap_or(&[]);
    put_times(out, ' ', layout.room)?;
    out.push_str(" | ")?;
    put_lead(out, lead, piece.from > 0)?;
    put_times(out, sign, width(marked).max(1))?;
    let space = if text.is_empty() { "" } else { " " };
    out.push_str(space)?;
    put_text(out, text)?;
    out.push('\n')
}

// Puts the marks of the labels that belong to a line, with what is shown of it for them.
fn put_labels(
    layout: Layout<'_>,
    out: &mut String,
    first: Piece,
    line: usize,
    labels: &[Label],
) -> Result<Piece, AllocError> {
    let mut piece = first;
    for label in labels.iter() {
        if layout.view.line_of(label.span.from) == line {
            let reach = layout.view.reach_of(label.span);
            piece = put_round(layout, out, piece, reach)?;
            put_mark(layout, out, piece, reach, '-', label.text.as_str())?;
        }
    }
    Ok(piece)
}

// Puts what is shown of a line for the first changes of a mend, besides the piece of the place and the one that was put
// last.
fn put_edits(
    layout: Layout<'_>,
    out: &mut String,
    main: Piece,
    last: Piece,
    line: usize,
    edits: &[Edit],
) -> Result<(), AllocError> {
    let mut piece = last;
    for edit in edits.iter().take(MOST_EDITS) {
        let reach = layout.view.reach_of(edit.span);
        if reach.line == line && !has(main, reach) {
            piece = put_round(layout, out, piece, reach)?;
        }
    }
    Ok(())
}

// Puts what is shown of a line, with all its marks.
fn put_line(
    layout: Layout<'_>,
    out: &mut String,
    diagnostic: &Diagnostic,
    line: usize,
    place: Span,
) -> Result<(), AllocError> {
    let mut main = NOTHING;
    if line == layout.view.line_of(place.from) {
        let reach = layout.view.reach_of(place);
        main = put_round(layout, out, main, reach)?;
        put_mark(layout, out, main, reach, '^', "")?;
    }
    let last = put_labels(layout, out, main, line, diagnostic.labels.as_slice())?;
    let edits = edits_of(diagnostic.mends.as_slice());
    put_edits(layout, out, main, last, line, edits)
}

/// Puts the lines of the source that are shown with a diagnostic, with the marks below them: those of its place, of its
/// second places, and of the first eight changes of its first mend, in their order. A line of more than 120 bytes is
/// shown in pieces of at most 100, each around what is marked or changed in it, with `...` at a side where it is cut.
pub(crate) fn put_source(
    alloc: Global,
    out: &mut String,
    view: &View<'_>,
    diagnostic: &Diagnostic,
) -> Result<(), AllocError> {
    let Some(place) = diagnostic.place else {
        return Ok(());
    };
    let lines = lines_of(alloc, view, diagnostic, place)?;
    let layout = Layout {
        alloc,
        view,
        room: room_of(alloc, lines.as_slice())?,
    };
    let mut last = 0;
    for line in lines.iter().copied() {
        if line != last {
            put_line(layout, out, diagnostic, line, place)?;
            last = line;
        }
    }
    Ok(())
}
