//! A text with some of its statements replaced by blanks: what comes after them keeps its place.

use crate::places::token_at;
use ps_diagnostic::Edit;
use ps_scan::{Kind, Token};
use ps_text::Span;
use std::alloc::{AllocError, Global};

// Whether a statement can begin after a token of this kind.
fn is_starter(kind: Kind) -> bool {
    matches!(
        kind,
        Kind::Semicolon | Kind::Begin | Kind::Then | Kind::Else | Kind::Do | Kind::Repeat | Kind::Of
    )
}

// The number of the token at which a statement begins, found from the tokens before a place within it.
fn start_of(before: &[Token]) -> usize {
    let mut depth: u32 = 0;
    let mut repeats: u32 = 0;
    let mut colon = None;
    for (at, token) in before.iter().enumerate().rev() {
        match token.kind {
            Kind::Until => repeats = repeats.saturating_add(1),
            Kind::Repeat if repeats > 0 => repeats = repeats.saturating_sub(1),
            _ if repeats > 0 => (),
            Kind::RightParen | Kind::RightBracket => depth = depth.saturating_add(1),
            Kind::LeftParen | Kind::LeftBracket if depth > 0 => depth = depth.saturating_sub(1),
            Kind::LeftParen | Kind::LeftBracket => colon = None,
            Kind::Colon if depth == 0 && colon.is_none() => colon = Some(at),
            kind if is_starter(kind) => return colon.unwrap_or(at).saturating_add(1),
            _ => (),
        }
    }
    0
}

// The number of tokens of the statement that begins with the first of these.
fn length_of(tokens: &[Token]) -> usize {
    // the constructions in it that need an end, and those of its `if`s that have no `else` yet
    let mut depth: u32 = 0;
    let mut ifs: u32 = 0;
    for (count, token) in tokens.iter().enumerate() {
        match token.kind {
            Kind::Begin | Kind::Case | Kind::Repeat => depth = depth.saturating_add(1),
            Kind::End | Kind::Until if depth == 0 => return count,
            Kind::End | Kind::Until => depth = depth.saturating_sub(1),
            _ if depth > 0 => (),
            Kind::Semicolon => return count,
            Kind::Else if ifs == 0 => return count,
            Kind::Else => ifs = ifs.saturating_sub(1),
            Kind::If => ifs = ifs.saturating_add(1),
            _ => (),
        }
    }
    tokens.len()
}

/// The number of the `case` in which the token with this number is a constant.
pub(crate) fn case_around(tokens: &[Token], at: usize) -> Option<usize> {
    let (before, _) = tokens.split_at(at.min(tokens.len()));
    let mut ends: u32 = 0;
    for (number, token) in before.iter().enumerate().rev() {
        match token.kind {
            Kind::End => ends = ends.saturating_add(1),
            Kind::Begin | Kind::Case if ends > 0 => ends = ends.saturating_sub(1),
            Kind::Case => return Some(number),
            _ => (),
        }
    }
    None
}

/// Whether the token with this number is among statements.
pub(crate) fn is_in_statements(tokens: &[Token], at: usize) -> bool {
    let mut depth: u32 = 0;
    let mut records: u32 = 0;
    for token in tokens.iter().take(at) {
        match token.kind {
            Kind::Record => records = records.saturating_add(1),
            Kind::End if records > 0 => records = records.saturating_sub(1),
            _ if records > 0 => (),
            Kind::Begin | Kind::Case => depth = depth.saturating_add(1),
            Kind::End => depth = depth.saturating_sub(1),
            _ => (),
        }
    }
    depth > 0
}

/// The span of the smallest statement around the token with this number, which is among statements.
pub(crate) fn statement_around(tokens: &[Token], at: usize) -> Option<Span> {
    let (before, _) = tokens.split_at(at.min(tokens.len()));
    let start = start_of(before);
    let (_, rest) = tokens.split_at(start.min(tokens.len()));
    let length = length_of(rest);
    let (first, last) = (rest.first()?, rest.get(length.checked_sub(1)?)?);
    Some(Span {
        from: first.span.from,
        to: last.span.to,
    })
}

/// Whether the smallest statement around the token with this number has more brackets of a closing kind than of an
/// opening one.
pub(crate) fn is_overclosed(tokens: &[Token], at: usize, opening: Kind, closing: Kind) -> bool {
    let Some(span) = statement_around(tokens, at) else {
        return false;
    };
    let mut opened: u32 = 0;
    let mut closed: u32 = 0;
    for token in tokens.iter().skip(token_at(tokens, span.from)) {
        if token.span.from >= span.to {
            break;
        }
        if token.kind == opening {
            opened = opened.saturating_add(1);
        } else if token.kind == closing {
            closed = closed.saturating_add(1);
        }
    }
    closed > opened
}

/// Adds the ends of lines that occur among bytes.
pub(crate) fn put_ends_of_lines(out: &mut String, bytes: &[u8]) -> Result<(), AllocError> {
    for byte in bytes.iter() {
        if *byte == b'\n' {
            out.push('\n')?;
        }
    }
    Ok(())
}

/// An edit that replaces a span by blanks, and keeps the ends of lines.
pub(crate) fn blanked(alloc: Global, text: &[u8], span: Span) -> Result<Edit, AllocError> {
    let mut put = String::new(alloc);
    let bytes = text
        .get(span.from as usize..span.to as usize)
        .unwrap_or(&[]);
    for byte in bytes.iter() {
        put.push(if *byte == b'\n' { '\n' } else { ' ' })?;
    }
    Ok(Edit { span, put })
}
