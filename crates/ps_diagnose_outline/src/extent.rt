//! How far a part reaches, by its tokens.

use crate::outline::Outline;
use ps_scan::{Kind, Token};
use ps_text::Span;

/// A part of a text for which the tree shows only where it begins.
#[derive(Clone, Copy)]
pub enum Part {
    Factor,
    Term,
    /// A simple expression, with its sign.
    Simple,
    Expression,
    Denoter,
}

// The smallest part that a token continues, if nothing in it is open, by its rank: a factor, a term, a simple
// expression, an expression, a denoter, or none.
fn rank_of(kind: Kind) -> u8 {
    match kind {
        Kind::Name
        | Kind::Number
        | Kind::Text
        | Kind::Nil
        | Kind::Not
        | Kind::Dot
        | Kind::Caret
        | Kind::LeftParen
        | Kind::LeftBracket => 1,
        Kind::Star | Kind::Div | Kind::Mod | Kind::And => 2,
        Kind::Plus | Kind::Minus | Kind::Or => 3,
        Kind::Equal
        | Kind::NotEqual
        | Kind::Less
        | Kind::Greater
        | Kind::LessEqual
        | Kind::GreaterEqual
        | Kind::In => 4,
        Kind::Semicolon | Kind::Comma | Kind::RightParen | Kind::RightBracket | Kind::End => 6,
        _ => 5,
    }
}

/// How many constructions are open after a token.
pub(crate) fn open_behind(open: u32, kind: Kind) -> u32 {
    match kind {
        Kind::LeftParen | Kind::LeftBracket | Kind::Record => open.saturating_add(1),
        Kind::RightParen | Kind::RightBracket | Kind::End => open.saturating_sub(1),
        _ => open,
    }
}

/// Whether a token continues a part in which this many constructions are open.
pub(crate) fn reaches(part: Part, open: u32, kind: Kind) -> bool {
    let most = match part {
        Part::Factor => 1,
        Part::Term => 2,
        Part::Simple => 3,
        Part::Expression => 4,
        Part::Denoter => 5,
    };
    open > 0 || rank_of(kind) <= most
}

impl<'a> Outline<'a> {
    /// The number of the first token that begins at or after an offset.
    pub fn token_at(&self, offset: u32) -> usize {
        match self.starts.as_slice().binary_search(&offset) {
            Ok(at) | Err(at) => at,
        }
    }

    /// The tokens that begin at or after an offset.
    pub fn tokens_from(&self, offset: u32) -> &'a [Token] {
        self.tokens.get(self.token_at(offset)..).unwrap_or(&[])
    }

    /// The token before an offset.
    pub fn token_before(&self, offset: u32) -> Option<Token> {
        match self.token_at(offset).checked_sub(1) {
            Some(at) => self.tokens.get(at).copied(),
            None => None,
        }
    }

    /// The whole part that begins with the token at an offset.
    pub fn extent(&self, from: u32, part: Part) -> Span {
        let mut open = 0;
        let mut to = from;
        for token in self.tokens_from(from) {
            if !reaches(part, open, token.kind) {
                break;
            }
            open = open_behind(open, token.kind);
            to = token.span.to;
        }
        Span { from, to }
    }
    /// The token after the part that begins with a token.
    pub(crate) fn end_of(&self, at: usize, part: Part) -> usize {
        let whole = self.extent(self.span(at).from, part);
        self.token_at(whole.to)
    }
}
