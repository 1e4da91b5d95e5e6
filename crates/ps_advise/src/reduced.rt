//! The tokens before a place, without the statements, definitions and routines that ended before it: what can come
//! after them is the same, and there are fewer of them.

use ps_scan::{Kind, Token};
use ps_text::Span;
use std::alloc::{AllocError, Global};

// An open construction, by the token that opened it; and where its contents begin among the tokens kept, and where the
// last of its parts begins, which are separated by semicolons.
#[derive(Clone, Copy)]
struct Open {
    kind: Kind,
    start: usize,
    last: usize,
}

// The tokens that are kept, and what is open after them.
#[derive(Drop)]
struct Kept {
    tokens: Vec<Token>,
    open: Vec<Open>,
}

// What replaces routines that ended.
const ROUTINE: [Kind; 6] = [
    Kind::Procedure,
    Kind::Name,
    Kind::Semicolon,
    Kind::Begin,
    Kind::End,
    Kind::Semicolon,
];

/// A token of this kind that is not in any text.
pub(crate) fn made(kind: Kind) -> Token {
    Token {
        kind,
        span: Span {
            from: u32::MAX,
            to: u32::MAX,
        },
    }
}

/// Whether a token is not in any text.
pub(crate) fn is_made(token: Option<&Token>) -> bool {
    match token {
        Some(token) => token.span.from == u32::MAX,
        None => false,
    }
}

// Whether a token of this kind ends a construction that another one opened.
fn closes(kind: Kind, opener: Kind) -> bool {
    match kind {
        Kind::End => matches!(opener, Kind::Begin | Kind::Case | Kind::Record),
        Kind::Until => matches!(opener, Kind::Repeat),
        Kind::RightParen => matches!(opener, Kind::LeftParen),
        Kind::RightBracket => matches!(opener, Kind::LeftBracket),
        _ => false,
    }
}

// Whether a word begins a part of a block that holds definitions or declarations.
fn is_part(kind: Kind) -> bool {
    matches!(kind, Kind::Const | Kind::Type | Kind::Var)
}

fn is_routine(kind: Kind) -> bool {
    matches!(kind, Kind::Procedure | Kind::Function)
}

impl Kept {
    fn top(&self) -> Option<Open> {
        self.open.last().copied()
    }

    // Whether what comes next is not within a construction of a block.
    fn is_in_block(&self) -> bool {
        match self.top() {
            Some(open) => is_part(open.kind) || is_routine(open.kind),
            None => true,
        }
    }

    fn enter(&mut self, kind: Kind, start: usize) -> Result<(), AllocError> {
        self.open.push(Open {
            kind,
            start,
            last: start,
        })?;
        Ok(())
    }

    // Leaves the open part of a block.
    fn leave_part(&mut self) {
        if let Some(open) = self.top()
            && is_part(open.kind)
        {
            let _ = self.open.pop();
        }
    }

    fn kind_before_last(&self, back: usize) -> Option<Kind> {
        let at = self.tokens.len().checked_sub(back)?;
        match self.tokens.get(at) {
            Some(token) => Some(token.kind),
            None => None,
        }
    }

    // Whether a semicolon just kept ends a routine.
    fn has_routine_ended(&self) -> bool {
        match self.kind_before_last(2) {
            Some(Kind::End) => true,
            Some(Kind::Name) => matches!(self.kind_before_last(3), Some(Kind::Semicolon)),
            _ => false,
        }
    }

    // Replaces the routines that ended by one that is not in any text.
    fn shorten_routine(&mut self, start: usize) -> Result<(), AllocError> {
        let _ = self.open.pop();
        self.tokens.truncate(start);
        if is_made(self.tokens.last()) {
            return Ok(());
        }
        for kind in ROUTINE {
            self.tokens.push(made(kind))?;
        }
        Ok(())
    }

    // Keeps only the last definition of a part.
    fn shorten_part(&mut self, part: Open) {
        let count = self.tokens.len().saturating_sub(part.last);
        for k in 0..count {
            let from = part.last.saturating_add(k);
            let to = part.start.saturating_add(k);
            if let Some(token) = self.tokens.get(from).copied()
                && let Some(place) = self.tokens.get_mut(to)
            {
                *place = token;
            }
        }
        let end = part.start.saturating_add(count);
        self.tokens.truncate(end);
        if let Some(open) = self.open.last_mut() {
            open.last = end;
        }
    }

    // Shortens what is kept, after a semicolon.
    fn shorten(&mut self) -> Result<(), AllocError> {
        let Some(open) = self.top() else {
            return Ok(());
        };
        match open.kind {
            Kind::Begin | Kind::Repeat => self.tokens.truncate(open.start),
            kind if is_part(kind) => self.shorten_part(open),
            kind if is_routine(kind) && self.has_routine_ended() => {
                self.shorten_routine(open.start)?;
            }
            _ => (),
        }
        Ok(())
    }

    // Keeps a word that begins a routine or a part of a block.
    fn keep_in_block(&mut self, token: Token) -> Result<(), AllocError> {
        self.leave_part();
        let start = self.tokens.len();
        self.tokens.push(token)?;
        if is_routine(token.kind) {
            self.enter(token.kind, start)
        } else {
            self.enter(token.kind, start.saturating_add(1))
        }
    }

    // Leaves the construction that a token ends.
    fn leave(&mut self, kind: Kind) {
        if let Some(open) = self.top()
            && closes(kind, open.kind)
        {
            let _ = self.open.pop();
        }
    }

    // Keeps a token within a construction, or one that begins neither a routine nor a part of a block.
    fn keep_within(&mut self, token: Token) -> Result<(), AllocError> {
        self.tokens.push(token)?;
        let end = self.tokens.len();
        match token.kind {
            Kind::Begin
            | Kind::Repeat
            | Kind::Case
            | Kind::Record
            | Kind::LeftParen
            | Kind::LeftBracket => self.enter(token.kind, end),
            Kind::Semicolon => self.shorten(),
            kind => {
                self.leave(kind);
                Ok(())
            }
        }
    }

    fn keep(&mut self, token: Token) -> Result<(), AllocError> {
        if self.is_in_block() && (is_part(token.kind) || is_routine(token.kind)) {
            return self.keep_in_block(token);
        }
        if self.is_in_block() && matches!(token.kind, Kind::Begin) {
            self.leave_part();
        }
        self.keep_within(token)
    }
}

/// Fewer tokens, after which the same can come as after those of a text.
pub(crate) fn reduced(alloc: Global, tokens: &[Token]) -> Result<Vec<Token>, AllocError> {
    let mut kept = Kept {
        tokens: Vec::new(alloc),
        open: Vec::new(alloc),
    };
    for token in tokens.iter() {
        kept.keep(*token)?;
    }
    let Kept { tokens, open } = kept;
    drop(open);
    Ok(tokens)
}
