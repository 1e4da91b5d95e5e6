//! The place of a refusal, and the tokens around it.

use crate::kinds::ROUTINES;
use crate::tell::shown;
use crate::walk::{Opened, opened_before};
use ps_diagnose::ReportedFault;
use ps_scan::{Kind, Token};
use ps_text::Span;
use std::alloc::{AllocError, Global};

/// What is known of the place where a text is refused.
#[derive(Drop)]
pub(crate) struct Context<'a> {
    pub(crate) alloc: Global,
    pub(crate) bytes: &'a [u8],
    pub(crate) tokens: &'a [Token],
    pub(crate) place: Span,
    /// The number of the token there, or of all tokens at the end of the text.
    pub(crate) at: usize,
    pub(crate) opened: Opened,
}

/// The context of a refusal.
pub(crate) fn context_of<'a>(
    alloc: Global,
    fault: &ReportedFault<'a>,
) -> Result<Context<'a>, AllocError> {
    let bytes = fault.source.bytes();
    let at = number_at(fault.tokens, fault.place.from);
    let opened = opened_before(alloc, bytes, fault.tokens, at)?;
    Ok(Context {
        alloc,
        bytes,
        tokens: fault.tokens,
        place: fault.place,
        at,
        opened,
    })
}

// The number of the first token from an offset on.
fn number_at(tokens: &[Token], from: u32) -> usize {
    for (at, token) in tokens.iter().enumerate() {
        if token.span.from >= from {
            return at;
        }
    }
    tokens.len()
}

/// The bytes of a span; none if it is not within the text.
pub(crate) fn slice(bytes: &[u8], from: u32, to: u32) -> &[u8] {
    bytes.get(from as usize..to as usize).unwrap_or(&[])
}

impl<'a> Context<'a> {
    /// The kind of a token.
    pub(crate) fn kind(&self, at: usize) -> Option<Kind> {
        match self.tokens.get(at) {
            Some(token) => Some(token.kind),
            None => None,
        }
    }

    /// Whether a token is of one of some kinds.
    pub(crate) fn is_of(&self, at: usize, kinds: &[Kind]) -> bool {
        match self.tokens.get(at) {
            Some(token) => kinds.contains(&token.kind),
            None => false,
        }
    }

    /// The bytes of a token.
    pub(crate) fn text(&self, at: usize) -> &'a [u8] {
        match self.tokens.get(at) {
            Some(token) => slice(self.bytes, token.span.from, token.span.to),
            None => &[],
        }
    }

    /// A token as it is shown.
    pub(crate) fn told(&self, at: usize) -> &'a str {
        shown(self.text(at))
    }

    /// The piece of the text that a span has.
    pub(crate) fn piece(&self, span: Span) -> &'a [u8] {
        slice(self.bytes, span.from, span.to)
    }

    /// The span of a token; the place, if there is none.
    pub(crate) fn span(&self, at: usize) -> Span {
        match self.tokens.get(at) {
            Some(token) => token.span,
            None => self.place,
        }
    }

    /// The span from one token to another one.
    pub(crate) fn span_of(&self, first: usize, last: usize) -> Span {
        Span {
            from: self.span(first).from,
            to: self.span(last).to,
        }
    }

    /// Whether a token is spelled so; capital and small letters count alike.
    pub(crate) fn is_spelled(&self, at: usize, word: &str) -> bool {
        self.text(at).eq_ignore_ascii_case(word.as_bytes())
    }

    /// Whether two tokens are spelled alike.
    pub(crate) fn are_alike(&self, a: usize, b: usize) -> bool {
        self.text(a).eq_ignore_ascii_case(self.text(b))
    }

    /// Whether there is nothing between a token and the one after it.
    pub(crate) fn touches_next(&self, at: usize) -> bool {
        self.span(at).to == self.span(at.saturating_add(1)).from
    }

    // Whether the innermost construction that is open begins with a parenthesis.
    fn is_in_parentheses(&self) -> bool {
        match self.opened.top() {
            Some(open) => matches!(open.kind, Kind::LeftParen),
            None => false,
        }
    }

    /// Whether the place is among statements.
    pub(crate) fn is_in_statements(&self) -> bool {
        self.opened.block().begun.is_some() && self.opened.ended.is_none()
    }

    /// Whether the place is among declarations, and in no list of parameters.
    pub(crate) fn is_in_declarations(&self) -> bool {
        let block = self.opened.block();
        block.is_told && block.begun.is_none() && !self.is_in_parentheses()
    }

    /// Whether the place is in the heading of a routine, and there in the list of its parameters.
    pub(crate) fn is_in_parameters(&self) -> bool {
        let block = self.opened.block();
        !block.is_told && block.is_routine && self.is_in_parentheses()
    }

    // Whether a token is a name being declared there, by the tokens next to it.
    fn is_declared_at(&self, at: usize) -> bool {
        let is_behind = at > 0 && self.is_of(at.saturating_sub(1), ROUTINES);
        let behind = &[Kind::Colon, Kind::Comma, Kind::Equal];
        self.is_of(at, &[Kind::Name]) && (is_behind || self.is_of(at.saturating_add(1), behind))
    }

    /// Whether a name seems to be declared in the text before a token of it.
    pub(crate) fn seems_declared(&self, name: usize) -> bool {
        for at in 0..name {
            if self.are_alike(at, name) && self.is_declared_at(at) {
                return true;
            }
        }
        false
    }
}
