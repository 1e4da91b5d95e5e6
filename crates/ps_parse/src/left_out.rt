//! What the profile leaves out of the standard's grammar.

ghost use Rattle.std.specs.Prelude.{◌≡◌, ◌++◌, Some, None, MatchOption, IfOk};
ghost use Rattle.ps_parse.specs.LeftOut.{in_place_of};

use ps_scan::{Kind, Token};
use ps_text::Span;
use std::alloc::{AllocError, Global};

/// The place of a token that is not in the text.
const NOWHERE: Span = Span { from: 0, to: 0 };

/// What begins a statement and nothing else.
const STATEMENT: [Token; 1] = [Token {
    kind: Kind::While,
    span: NOWHERE,
}];

/// The last section of a record.
const SECTION: [Token; 5] = [
    Token {
        kind: Kind::Name,
        span: NOWHERE,
    },
    Token {
        kind: Kind::Colon,
        span: NOWHERE,
    },
    Token {
        kind: Kind::Caret,
        span: NOWHERE,
    },
    Token {
        kind: Kind::Name,
        span: NOWHERE,
    },
    Token {
        kind: Kind::End,
        span: NOWHERE,
    },
];

/// What continues with another parameter that has a width.
const PARAMETER: [Token; 3] = [
    Token {
        kind: Kind::Comma,
        span: NOWHERE,
    },
    Token {
        kind: Kind::Nil,
        span: NOWHERE,
    },
    Token {
        kind: Kind::Colon,
        span: NOWHERE,
    },
];

/// What the profile has instead of a token of a construction that it leaves out. `is_colon_next` says whether `:` comes
/// after the token.
pub fn in_place_of(kind: Kind, is_colon_next: bool) -> Option<&'static [Token]>
    ensures { MatchOption result (in_place_of kind is_colon_next ≡ None)
        (λ tokens. in_place_of kind is_colon_next ≡ Some tokens.now) }
{
    match kind {
        Kind::Label | Kind::Goto | Kind::File | Kind::Slash => Some(&[]),
        Kind::Case => Some(&SECTION),
        Kind::Number if is_colon_next => Some(&STATEMENT),
        Kind::Colon => Some(&PARAMETER),
        _ => None,
    }
}

/// Some tokens, and others after them.
pub fn followed_by(
    alloc: Global,
    before: &[Token],
    behind: &[Token],
) -> Result<Vec<Token>, AllocError>
    ensures { IfOk result (λ list. list.items ≡ before.now ++ behind.now) }
{
    let mut list = Vec::with_capacity(alloc, before.len())?;
    list.extend_from_slice(before)?;
    list.extend_from_slice(behind)?;
    Ok(list)
}
