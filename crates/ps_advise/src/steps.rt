//! How a text is changed after a fault, so that the next one comes first: the faulty part is removed, so that it causes
//! no false fault, or the best mend is made.

use crate::blank::{blanked, case_around, is_in_statements, put_ends_of_lines, statement_around};
use crate::mends::Faulty;
use crate::places::slice;
use crate::routines::{Routine, function_of, name_of, routine_around, routine_at, stand_in};
use ps_build::{Refusal, Rule};
use ps_diagnostic::{Edit, Mend};
use ps_scan::{Kind, Token, is_same_name};
use ps_text::Span;
use std::alloc::{AllocError, Global};

// How many statements are passed over because one within them is removed already.
const MOST_PASSED: usize = 32;

// A copy of edits.
fn copied(alloc: Global, edits: &[Edit]) -> Result<Vec<Edit>, AllocError> {
    let mut copies = Vec::new(alloc);
    for edit in edits.iter() {
        copies.push(Edit {
            span: edit.span,
            put: String::from_str(alloc, edit.put.as_str())?,
        })?;
    }
    Ok(copies)
}

// The edits of the best mend.
fn mended(alloc: Global, mends: &[Mend]) -> Result<Vec<Edit>, AllocError> {
    match mends.first() {
        Some(mend) => copied(alloc, mend.edits.as_slice()),
        None => Ok(Vec::new(alloc)),
    }
}

// Where the last of some edits ends.
fn end_of(edits: &[Edit]) -> u32 {
    match edits.last() {
        Some(edit) => edit.span.to,
        None => 0,
    }
}

// Adds the edit that removes the statement around a token, unless one within it is removed already; returns where the
// statement ends.
fn add_blank(
    alloc: Global,
    text: &[u8],
    tokens: &[Token],
    at: usize,
    edits: &mut Vec<Edit>,
) -> Result<u32, AllocError> {
    let Some(span) = statement_around(tokens, at) else {
        return Ok(0);
    };
    if span.from >= end_of(edits.as_slice()) {
        edits.push(blanked(alloc, text, span)?)?;
    }
    Ok(span.to)
}

// Edits that remove the statement around the token with this number.
fn without_statement(
    alloc: Global,
    faulty: Faulty<'_>,
    at: usize,
) -> Result<Vec<Edit>, AllocError> {
    let mut edits = Vec::new(alloc);
    let _ = add_blank(alloc, faulty.source.bytes(), faulty.tokens, at, &mut edits)?;
    Ok(edits)
}

// Edits that remove the statements that use the name at the place. (The condition of a `repeat` may use it often, and is
// walked over once.)
fn without_uses(alloc: Global, faulty: Faulty<'_>) -> Result<Vec<Edit>, AllocError> {
    let text = faulty.source.bytes();
    let mut edits = Vec::new(alloc);
    let name = match faulty.tokens.get(faulty.at) {
        Some(token) => slice(text, token.span),
        None => &[],
    };
    let mut end: u32 = 0;
    let mut found: usize = 0;
    for (at, token) in faulty.tokens.iter().enumerate().skip(faulty.at) {
        let is_use = matches!(token.kind, Kind::Name)
            && is_same_name(slice(text, token.span), name);
        if is_use && token.span.from >= end && found <= edits.len().saturating_add(MOST_PASSED) {
            end = add_blank(alloc, text, faulty.tokens, at, &mut edits)?;
            found = found.saturating_add(1);
        }
    }
    Ok(edits)
}

// The edit that replaces a block by a statement, or none if its tokens are missing.
fn block_edit(
    alloc: Global,
    faulty: Faulty<'_>,
    routine: Routine,
) -> Result<Vec<Edit>, AllocError> {
    let text = faulty.source.bytes();
    let mut edits = Vec::new(alloc);
    let (first, last) = (
        faulty.tokens.get(routine.behind),
        faulty.tokens.get(routine.end),
    );
    let (Some(first), Some(last)) = (first, last) else {
        return Ok(edits);
    };
    let span = Span {
        from: first.span.from,
        to: last.span.to,
    };
    let statement = stand_in(alloc, text, faulty.tokens, routine.word)?;
    let mut put = format!(in alloc; "begin {statement} end")?;
    put_ends_of_lines(&mut put, slice(text, span))?;
    edits.push(Edit { span, put })?;
    Ok(edits)
}

// The edit that removes the block around the place, if it is the block of a routine.
fn without_block(alloc: Global, faulty: Faulty<'_>) -> Result<Vec<Edit>, AllocError> {
    let Some(word) = routine_around(alloc, faulty.tokens, faulty.at)? else {
        return Ok(Vec::new(alloc));
    };
    match routine_at(alloc, faulty.tokens, word)? {
        Some(routine) => block_edit(alloc, faulty, routine),
        None => Ok(Vec::new(alloc)),
    }
}

// Whether the name of a function is used in the declarations of its block, and so perhaps declared again there.
fn is_named_within(faulty: Faulty<'_>, routine: Routine) -> bool {
    let text = faulty.source.bytes();
    let name = name_of(text, faulty.tokens, routine.word);
    for token in faulty
        .tokens
        .get(routine.behind..routine.begin)
        .unwrap_or(&[])
        .iter()
    {
        if matches!(token.kind, Kind::Name)
            && is_same_name(slice(text, token.span), name.as_bytes())
        {
            return true;
        }
    }
    false
}

// The edit by which the function at the place is assigned a result. (If a declaration in its block may hide it, that is
// replaced with the block.)
fn with_result(alloc: Global, faulty: Faulty<'_>) -> Result<Vec<Edit>, AllocError> {
    let mut edits = Vec::new(alloc);
    let Some(word) = function_of(faulty.tokens, faulty.at) else {
        return Ok(edits);
    };
    let Some(routine) = routine_at(alloc, faulty.tokens, word)? else {
        return Ok(edits);
    };
    if is_named_within(faulty, routine) {
        return block_edit(alloc, faulty, routine);
    }
    if let Some(begin) = faulty.tokens.get(routine.begin) {
        let statement = stand_in(alloc, faulty.source.bytes(), faulty.tokens, word)?;
        edits.push(Edit {
            span: Span {
                from: begin.span.to,
                to: begin.span.to,
            },
            put: format!(in alloc; " {statement};")?,
        })?;
    }
    Ok(edits)
}

// How a text is changed after a rule that is broken.
fn step_of_rule(
    alloc: Global,
    faulty: Faulty<'_>,
    rule: Rule,
    mends: &[Mend],
) -> Result<Vec<Edit>, AllocError> {
    match rule {
        Rule::NoInputOutput => mended(alloc, mends),
        Rule::NoResultAssigned => with_result(alloc, faulty),
        _ if !is_in_statements(faulty.tokens, faulty.at) => {
            let edits = without_block(alloc, faulty)?;
            if edits.is_empty() {
                mended(alloc, mends)
            } else {
                Ok(edits)
            }
        }
        Rule::Unknown => without_uses(alloc, faulty),
        Rule::CaseTwice => {
            let at = case_around(faulty.tokens, faulty.at).unwrap_or(faulty.at);
            without_statement(alloc, faulty, at)
        }
        _ => without_statement(alloc, faulty, faulty.at),
    }
}

/// The edits after which the next fault is searched for; none if that could be a false one.
pub(crate) fn step_of(
    alloc: Global,
    faulty: Faulty<'_>,
    mends: &[Mend],
) -> Result<Vec<Edit>, AllocError> {
    match faulty.refusal {
        Refusal::Check { rule, .. } => step_of_rule(alloc, faulty, rule, mends),
        _ => mended(alloc, mends),
    }
}
