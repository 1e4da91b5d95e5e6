//! Undeclared names that other Pascals and other languages have.

use crate::places::{kind_at, piece, position, slice, token_at};
use crate::routines::{name_of, routine_around};
use ps_diagnose::{Draft, ReportedFault, Trial};
use ps_diagnose_tokens::{Part, Row, other_pascal, part_at};
use ps_diagnostic::Edit;
use ps_scan::{Kind, Token, is_same_name};
use ps_text::Span;
use std::alloc::{AllocError, Global};

// How many uses of a name are reported.
const MOST_USES: usize = 8;

// The number of the refusal of a name that is not declared.
const UNKNOWN: u8 = 30;

// The row of these words in a part, and among statements the one for functions, if it covers undeclared names.
fn row_of(part: Part, words: &str) -> Option<Row> {
    let row = match other_pascal(part, words) {
        None if matches!(part, Part::Function) => other_pascal(Part::Statements, words)?,
        row => row?,
    };
    if matches!(row.number, Some(UNKNOWN)) {
        Some(row)
    } else {
        None
    }
}

// The row of the name at the token with this number.
fn row_at(
    alloc: Global,
    fault: &ReportedFault<'_>,
    at: usize,
    name: &str,
) -> Result<Option<Row>, AllocError> {
    let part = part_at(alloc, fault)?;
    if matches!(
        kind_at(fault.tokens, at.saturating_add(1)),
        Some(Kind::LeftParen)
    ) {
        let call = format!(in alloc; "{name} (")?;
        if let Some(row) = row_of(part, call.as_str()) {
            return Ok(Some(row));
        }
    }
    Ok(row_of(part, name))
}

// The uses of a name from the token with this number on, as many as are reported and one more.
fn uses_of(
    alloc: Global,
    text: &[u8],
    tokens: &[Token],
    at: usize,
    name: &str,
) -> Result<Vec<Span>, AllocError> {
    let mut uses = Vec::new(alloc);
    for token in tokens.iter().skip(at) {
        let is_use = matches!(token.kind, Kind::Name)
            && is_same_name(slice(text, token.span), name.as_bytes());
        if is_use && uses.len() <= MOST_USES {
            uses.push(token.span)?;
        }
    }
    Ok(uses)
}

// Adds places, with what comes before each.
fn put_places(
    alloc: Global,
    out: &mut String,
    text: &[u8],
    uses: &[Span],
) -> Result<(), AllocError> {
    let count = uses.len();
    for (at, span) in uses.iter().enumerate() {
        let sign = match at {
            0 => "",
            _ if at.saturating_add(1) == count => " and ",
            _ => ", ",
        };
        out.push_str(sign)?;
        let place = position(alloc, text, span.from)?;
        out.push_str(place.as_str())?;
    }
    Ok(())
}

// Edits that replace each use.
fn edits_of(alloc: Global, uses: &[Span], put: &str) -> Result<Vec<Edit>, AllocError> {
    let mut edits = Vec::new(alloc);
    for span in uses.iter() {
        edits.push(Edit {
            span: *span,
            put: String::from_str(alloc, put)?,
        })?;
    }
    Ok(edits)
}

// The change that replaces all uses, or only the first if there are too many.
fn exchange(
    alloc: Global,
    text: &[u8],
    uses: &[Span],
    name: &str,
    put: &str,
) -> Result<Trial, AllocError> {
    let chosen = if uses.len() > MOST_USES {
        uses.get(..1).unwrap_or(&[])
    } else {
        uses
    };
    let (first, rest) = chosen.split_at(1.min(chosen.len()));
    let mut words = format!(in alloc; "write `{put}` instead of `{name}` at ")?;
    put_places(alloc, &mut words, text, first)?;
    if !rest.is_empty() {
        words.push_str(", and at ")?;
        put_places(alloc, &mut words, text, rest)?;
    }
    Ok(Trial {
        text: words,
        edits: edits_of(alloc, chosen, put)?,
        cost: 0,
    })
}

// The tokens between the parentheses of the call whose name is the token with this number, and the end of the call.
fn actuals_of(tokens: &[Token], at: usize) -> Option<(&[Token], u32)> {
    let behind = tokens.get(at.saturating_add(2)..)?;
    let mut depth: u32 = 0;
    for (count, token) in behind.iter().enumerate() {
        match token.kind {
            Kind::LeftParen | Kind::LeftBracket => depth = depth.saturating_add(1),
            Kind::RightParen if depth == 0 => return Some((behind.get(..count)?, token.span.to)),
            Kind::RightParen | Kind::RightBracket => depth = depth.saturating_sub(1),
            Kind::Semicolon => return None,
            _ => (),
        }
    }
    None
}

// The part of a text from the first to the last of these tokens.
fn piece_of<'a>(text: &'a [u8], tokens: &[Token]) -> Option<&'a str> {
    let (first, last) = (tokens.first()?, tokens.last()?);
    let piece = piece(
        text,
        Span {
            from: first.span.from,
            to: last.span.to,
        },
    );
    if piece.is_empty() || piece.len() > 40 || piece.contains('\n') {
        return None;
    }
    Some(piece)
}

// The variable and the step of a call that increments or decrements.
fn counted<'a>(text: &'a [u8], actuals: &[Token]) -> Option<(&'a str, &'a str)> {
    for (at, token) in actuals.iter().enumerate() {
        if matches!(token.kind, Kind::Comma) {
            let (before, behind) = actuals.split_at(at);
            return Some((piece_of(text, before)?, piece_of(text, behind.get(1..)?)?));
        }
    }
    Some((piece_of(text, actuals)?, "1"))
}

// The sign of a routine that increments or decrements.
fn sign_of(word: &str) -> Option<&'static str> {
    match word {
        "inc" => Some("+"),
        "dec" => Some("-"),
        _ => None,
    }
}

// The change of an incrementing or decrementing call into an assignment, if it is such a call.
fn assignment(
    alloc: Global,
    fault: &ReportedFault<'_>,
    at: usize,
    row: &Row,
) -> Result<Option<Trial>, AllocError> {
    let text = fault.source.bytes();
    let (Some(sign), Some((actuals, to))) = (sign_of(row.word), actuals_of(fault.tokens, at)) else {
        return Ok(None);
    };
    let Some((variable, step)) = counted(text, actuals) else {
        return Ok(None);
    };
    let from = fault.place.from;
    let span = Span { from, to };
    let put = format!(in alloc; "{variable} := {variable} {sign} {step}")?;
    let trial = exchange(alloc, text, &[span], piece(text, span), put.as_str())?;
    Ok(Some(trial))
}

// The name of the routine around the token with this number, if it is a function.
fn function_around<'a>(
    alloc: Global,
    fault: &ReportedFault<'a>,
    at: usize,
) -> Result<&'a str, AllocError> {
    match routine_around(alloc, fault.tokens, at)? {
        Some(word) => Ok(name_of(fault.source.bytes(), fault.tokens, word)),
        None => Ok(""),
    }
}

// What replaces the name, if nothing else has to be done.
fn put_for<'a>(
    alloc: Global,
    fault: &ReportedFault<'a>,
    at: usize,
    row: &Row,
) -> Result<&'a str, AllocError> {
    if row.word == "result" {
        return function_around(alloc, fault, at);
    }
    Ok(row.mend.unwrap_or(""))
}

// Whether a call of the name at the token with this number begins with a string that says how values are written.
fn has_format(fault: &ReportedFault<'_>, at: usize) -> bool {
    match fault.tokens.get(at.saturating_add(2)) {
        Some(token) => {
            let text = slice(fault.source.bytes(), token.span);
            matches!(token.kind, Kind::Text) && (text.contains(&b'%') || text.contains(&b'\\'))
        }
        None => false,
    }
}

// Adds what is worth a trial.
fn add_trials(
    alloc: Global,
    fault: &ReportedFault<'_>,
    at: usize,
    row: &Row,
    uses: &[Span],
    draft: &mut Draft,
) -> Result<(), AllocError> {
    if row.word == "printf" && has_format(fault, at) {
        return Ok(());
    }
    let text = fault.source.bytes();
    let put = put_for(alloc, fault, at, row)?;
    if !put.is_empty() {
        let trial = exchange(alloc, text, uses, piece(text, fault.place), put)?;
        draft.trials.push(trial)?;
    } else if let Some(trial) = assignment(alloc, fault, at, row)? {
        draft.trials.push(trial)?;
    }
    Ok(())
}

// The other uses, if there are not too many.
fn add_note(
    alloc: Global,
    text: &[u8],
    uses: &[Span],
    draft: &mut Draft,
) -> Result<(), AllocError> {
    let others = uses.get(1..).unwrap_or(&[]);
    if others.is_empty() || uses.len() > MOST_USES || !draft.trials.is_empty() {
        return Ok(());
    }
    let mut note = String::from_str(alloc, "it is used at ")?;
    put_places(alloc, &mut note, text, others)?;
    note.push_str(" too")?;
    draft.notes.push(note)?;
    Ok(())
}

// The report of a name according to its row.
fn told_by(
    alloc: Global,
    fault: &ReportedFault<'_>,
    at: usize,
    row: &Row,
) -> Result<Draft, AllocError> {
    let text = fault.source.bytes();
    let name = piece(text, fault.place);
    let origin = row.origin();
    let mut draft = Draft {
        text: format!(in alloc; "`{name}` is not declared: it comes from {origin}")?,
        labels: Vec::new(alloc),
        expects: false,
        trials: Vec::new(alloc),
        notes: Vec::new(alloc),
        helps: Vec::new(alloc),
    };
    let uses = uses_of(alloc, text, fault.tokens, at, name)?;
    add_trials(alloc, fault, at, row, uses.as_slice(), &mut draft)?;
    add_note(alloc, text, uses.as_slice(), &mut draft)?;
    draft.helps.push(String::from_str(alloc, row.advice)?)?;
    Ok(draft)
}

/// The report of an undeclared name that is in the table of other Pascals; `None` for another fault.
pub(crate) fn draft_by_table(
    alloc: Global,
    fault: &ReportedFault<'_>,
) -> Result<Option<Draft>, AllocError> {
    if fault.number != UNKNOWN {
        return Ok(None);
    }
    let at = token_at(fault.tokens, fault.place.from);
    let name = piece(fault.source.bytes(), fault.place);
    match row_at(alloc, fault, at, name)? {
        Some(row) => Ok(Some(told_by(alloc, fault, at, &row)?)),
        None => Ok(None),
    }
}
