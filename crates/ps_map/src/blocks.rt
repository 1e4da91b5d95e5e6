//! The blocks of a text, and where their statements begin, found in one pass over its tokens.

use ps_scan::{Kind, Token};
use ps_text::Span;
use std::alloc::{AllocError, Global};

/// The block of the program or of a routine.
#[derive(Drop)]
pub struct Block {
    /// The name of its program, procedure or function.
    pub name: Span,
    /// Where its `begin` is.
    pub begin: u32,
    /// Where its statements begin, in the order of the text: nested ones after the one that contains them, an empty one
    /// at the token after it.
    pub statements: Vec<u32>,
}

// What is open, up to its `end` or its `until`.
#[derive(Clone, Copy)]
enum Open {
    Record,
    Case,
    /// `begin` or `repeat`.
    List,
}

// Which part of a heading comes next.
#[derive(Clone, Copy)]
enum Heading {
    /// No heading is open.
    Closed,
    /// The name.
    Name,
    /// The parameters and the result, up to the semicolon.
    Rest,
    /// After the semicolon, where `forward` may replace a block.
    Directive,
}

// A pass over tokens.
#[derive(Drop)]
struct Pass {
    alloc: Global,
    /// The blocks that have begun, in the order of their `begin`.
    blocks: Vec<Block>,
    /// The names of the program and the routines whose blocks are still to come, innermost last.
    names: Vec<Span>,
    heading: Heading,
    open: Vec<Open>,
    parentheses: u32,
    /// Whether it is within the statements of a block.
    acts: bool,
    /// Whether the next token begins a statement.
    begins: bool,
}

/// The blocks of a text in the order of their `begin`, if its tokens are those of a program.
pub fn blocks_of(alloc: Global, tokens: &[Token]) -> Result<Vec<Block>, AllocError> {
    let mut pass = Pass {
        alloc,
        blocks: Vec::new(alloc),
        names: Vec::new(alloc),
        heading: Heading::Closed,
        open: Vec::new(alloc),
        parentheses: 0,
        acts: false,
        begins: false,
    };
    for token in tokens {
        pass.step(*token)?;
    }
    Ok(pass.into_blocks())
}

impl Pass {
    fn into_blocks(self) -> Vec<Block> {
        let Pass {
            alloc: _,
            blocks,
            names: _,
            heading: _,
            open: _,
            parentheses: _,
            acts: _,
            begins: _,
        } = self;
        blocks
    }

    fn step(&mut self, token: Token) -> Result<(), AllocError> {
        match token.kind {
            Kind::LeftParen | Kind::LeftBracket => {
                self.parentheses = self.parentheses.saturating_add(1);
            }
            Kind::RightParen | Kind::RightBracket => {
                self.parentheses = self.parentheses.saturating_sub(1);
            }
            _ => {}
        }
        if self.acts {
            self.act(token)
        } else {
            self.declare(token)
        }
    }

    // A token among declarations.
    fn declare(&mut self, token: Token) -> Result<(), AllocError> {
        self.head(token)?;
        match token.kind {
            Kind::Record => self.open.push(Open::Record)?,
            Kind::End => {
                self.open.pop();
            }
            Kind::Begin => self.begin_block(token.span.from)?,
            _ => {}
        }
        Ok(())
    }

    // What a token means for the headings.
    fn head(&mut self, token: Token) -> Result<(), AllocError> {
        self.heading = match (self.heading, token.kind) {
            (Heading::Name, _) => {
                self.names.push(token.span)?;
                Heading::Rest
            }
            (Heading::Directive, Kind::Name) => {
                self.names.pop();
                Heading::Closed
            }
            (_, Kind::Program | Kind::Procedure | Kind::Function) if self.parentheses == 0 => {
                Heading::Name
            }
            (Heading::Rest, Kind::Semicolon) if self.parentheses == 0 => Heading::Directive,
            (Heading::Rest, _) => Heading::Rest,
            _ => Heading::Closed,
        };
        Ok(())
    }

    fn begin_block(&mut self, begin: u32) -> Result<(), AllocError> {
        let name = self.names.pop().unwrap_or(Span { from: 0, to: 0 });
        let statements = Vec::new(self.alloc);
        self.blocks.push(Block {
            name,
            begin,
            statements,
        })?;
        self.acts = true;
        self.begins = true;
        self.open.push(Open::List)?;
        Ok(())
    }

    // A token among statements.
    fn act(&mut self, token: Token) -> Result<(), AllocError> {
        if self.begins {
            self.begin_statement(token.span.from)?;
        }
        self.begins = self.leads(token.kind);
        match token.kind {
            Kind::Begin | Kind::Repeat => self.open.push(Open::List)?,
            Kind::Case => self.open.push(Open::Case)?,
            Kind::End | Kind::Until => self.close(),
            _ => {}
        }
        Ok(())
    }

    fn begin_statement(&mut self, at: u32) -> Result<(), AllocError> {
        if let Some(block) = self.blocks.last_mut() {
            block.statements.push(at)?;
        }
        Ok(())
    }

    // Whether a statement begins after a token.
    fn leads(&self, kind: Kind) -> bool {
        let in_case = matches!(self.open.last(), Some(Open::Case));
        match kind {
            Kind::Begin | Kind::Repeat | Kind::Then | Kind::Else | Kind::Do => true,
            Kind::Colon => in_case && self.parentheses == 0,
            Kind::Semicolon => !in_case,
            _ => false,
        }
    }

    // An `end` or an `until`.
    fn close(&mut self) {
        self.open.pop();
        if self.open.is_empty() {
            self.acts = false;
        }
    }
}
