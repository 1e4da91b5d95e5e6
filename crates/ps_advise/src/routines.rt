//! Routines of a text, found by its tokens: which one is around a place, and what can replace the body of its block.

use crate::places::{kind_at, piece, slice};
use ps_scan::{Kind, Token, is_same_name};
use std::alloc::{AllocError, Global};

// An open routine: the numbers of its first token, of the one after its heading, and of the `begin` of its body; and
// how many constructions of the body are open.
#[derive(Clone, Copy)]
struct Open {
    word: usize,
    behind: Option<usize>,
    begin: Option<usize>,
    depth: u32,
}

/// A routine with a block: the numbers of its first token, of the first one after its heading, of its `begin`, and of
/// its `end`.
#[derive(Clone, Copy)]
pub(crate) struct Routine {
    pub(crate) word: usize,
    pub(crate) behind: usize,
    pub(crate) begin: usize,
    pub(crate) end: usize,
}

// What is open after some tokens.
#[derive(Drop)]
struct Walk {
    open: Vec<Open>,
    brackets: u32,
    records: u32,
}

impl Walk {
    fn new(alloc: Global) -> Walk {
        Walk {
            open: Vec::new(alloc),
            brackets: 0,
            records: 0,
        }
    }

    fn enter(&mut self, word: usize) -> Result<(), AllocError> {
        self.open.push(Open {
            word,
            behind: None,
            begin: None,
            depth: 0,
        })?;
        Ok(())
    }

    fn end_heading(&mut self, at: usize) {
        if let Some(open) = self.open.last_mut()
            && open.behind.is_none()
        {
            open.behind = Some(at.saturating_add(1));
        }
    }

    // Leaves a routine whose heading is followed by a directive.
    fn pass_directive(&mut self, at: usize) {
        if let Some(open) = self.open.last().copied()
            && open.behind == Some(at)
        {
            let _ = self.open.pop();
        }
    }

    fn begin(&mut self, at: usize) {
        if let Some(open) = self.open.last_mut() {
            open.depth = open.depth.saturating_add(1);
            if open.begin.is_none() {
                open.begin = Some(at);
            }
        }
    }

    // Leaves a construction, and the routine with the last one.
    fn end(&mut self, at: usize) -> Option<Routine> {
        let open = self.open.last_mut()?;
        open.depth = open.depth.saturating_sub(1);
        if open.depth > 0 {
            return None;
        }
        let open = self.open.pop()?;
        Some(Routine {
            word: open.word,
            behind: open.behind?,
            begin: open.begin?,
            end: at,
        })
    }

    // Goes on after a token: returns the routine that ends with it, if one does.
    fn pass(&mut self, at: usize, kind: Kind) -> Result<Option<Routine>, AllocError> {
        match kind {
            Kind::LeftParen | Kind::LeftBracket => self.brackets = self.brackets.saturating_add(1),
            Kind::RightParen | Kind::RightBracket => {
                self.brackets = self.brackets.saturating_sub(1);
            }
            Kind::Record => self.records = self.records.saturating_add(1),
            Kind::End if self.records > 0 => self.records = self.records.saturating_sub(1),
            _ if self.records > 0 || self.brackets > 0 => (),
            Kind::Procedure | Kind::Function => self.enter(at)?,
            Kind::Semicolon => self.end_heading(at),
            Kind::Name => self.pass_directive(at),
            Kind::Begin | Kind::Case => self.begin(at),
            Kind::End => return Ok(self.end(at)),
            _ => (),
        }
        Ok(None)
    }
}

/// The number of the first token of the innermost routine whose block contains the token with this number.
pub(crate) fn routine_around(
    alloc: Global,
    tokens: &[Token],
    at: usize,
) -> Result<Option<usize>, AllocError> {
    let mut walk = Walk::new(alloc);
    for (number, token) in tokens.iter().enumerate().take(at) {
        walk.pass(number, token.kind)?;
    }
    for open in walk.open.iter().rev() {
        if open.behind.is_some() {
            return Ok(Some(open.word));
        }
    }
    Ok(None)
}

/// The routine that begins at the token with this number, if its block follows its heading.
pub(crate) fn routine_at(
    alloc: Global,
    tokens: &[Token],
    word: usize,
) -> Result<Option<Routine>, AllocError> {
    let mut walk = Walk::new(alloc);
    for (number, token) in tokens.iter().enumerate().skip(word) {
        match walk.pass(number, token.kind)? {
            Some(routine) if routine.word == word => return Ok(Some(routine)),
            _ if walk.open.is_empty() => return Ok(None),
            _ => (),
        }
    }
    Ok(None)
}

// Where the names of parameters are.
#[derive(Clone, Copy)]
struct Formals {
    depth: u32,
    is_in_names: bool,
}

impl Formals {
    // Whether a token after the name of a routine names one of its parameters.
    fn is_name(&mut self, kind: Kind) -> bool {
        match kind {
            Kind::LeftParen => self.depth = self.depth.saturating_add(1),
            Kind::RightParen => self.depth = self.depth.saturating_sub(1),
            _ if self.depth != 1 => (),
            Kind::Colon => self.is_in_names = false,
            Kind::Semicolon => self.is_in_names = true,
            Kind::Name => return self.is_in_names,
            _ => (),
        }
        false
    }
}

// Adds the names of the parameters of a heading, which begins after the name of its routine, between parentheses.
fn put_actuals(out: &mut String, text: &[u8], heading: &[Token]) -> Result<(), AllocError> {
    let mut formals = Formals {
        depth: 0,
        is_in_names: true,
    };
    let mut sign = "(";
    for token in heading.iter() {
        if formals.is_name(token.kind) {
            out.push_str(sign)?;
            out.push_str(piece(text, token.span))?;
            sign = ",";
        }
        if formals.depth == 0 {
            break;
        }
    }
    if sign == "," {
        out.push_str(")")?;
    }
    Ok(())
}

// The heading of a function that has its parameters: the one with this number, or the earlier one whose block it
// begins.
fn full_heading(text: &[u8], tokens: &[Token], word: usize) -> usize {
    let own = match tokens.get(word.saturating_add(1)) {
        Some(token) => token.span,
        None => return word,
    };
    if matches!(
        kind_at(tokens, word.saturating_add(2)),
        Some(Kind::LeftParen)
    ) {
        return word;
    }
    for (at, pair) in tokens.windows(2).enumerate().take(word) {
        if let [first, second] = pair
            && matches!(first.kind, Kind::Function)
            && is_same_name(slice(text, second.span), slice(text, own))
        {
            return at;
        }
    }
    word
}

/// A statement that may replace the body of the routine that begins at the token with this number: nothing for a
/// procedure; a function is assigned the result of calling it with its own parameters.
pub(crate) fn stand_in(
    alloc: Global,
    text: &[u8],
    tokens: &[Token],
    word: usize,
) -> Result<String, AllocError> {
    let mut out = String::new(alloc);
    let Some(name) = tokens.get(word.saturating_add(1)) else {
        return Ok(out);
    };
    if !matches!(kind_at(tokens, word), Some(Kind::Function)) {
        return Ok(out);
    }
    let heading = full_heading(text, tokens, word).saturating_add(2);
    out.push_str(piece(text, name.span))?;
    out.push_str(":=")?;
    out.push_str(piece(text, name.span))?;
    put_actuals(&mut out, text, tokens.get(heading..).unwrap_or(&[]))?;
    Ok(out)
}

/// The name of the function that begins at the token with this number; empty for a procedure.
pub(crate) fn name_of<'a>(text: &'a [u8], tokens: &[Token], word: usize) -> &'a str {
    match (kind_at(tokens, word), tokens.get(word.saturating_add(1))) {
        (Some(Kind::Function), Some(token)) => piece(text, token.span),
        _ => "",
    }
}

/// The number of the first token of the function whose name is the token with this number.
pub(crate) fn function_of(tokens: &[Token], at: usize) -> Option<usize> {
    let word = at.checked_sub(1)?;
    match kind_at(tokens, word) {
        Some(Kind::Function) => Some(word),
        _ => None,
    }
}
