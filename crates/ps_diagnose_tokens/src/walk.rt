//! What is open at a place of a text: constructions and blocks, found in one walk over the tokens before it.

use crate::context::slice;
use ps_scan::{Kind, Token};
use ps_text::Span;
use std::alloc::{AllocError, Global};

/// How far a construction has come.
#[derive(Clone, Copy)]
pub(crate) enum Stage {
    /// Before its `then`, `do` or `of`.
    Head,
    /// After it.
    Body,
    /// After `else`.
    Else,
}

/// A construction that is open.
#[derive(Clone, Copy)]
pub(crate) struct Open {
    /// The kind of the token that it begins with.
    pub(crate) kind: Kind,
    /// The number of that token.
    pub(crate) at: usize,
    pub(crate) stage: Stage,
    /// The number of the first token after its last `then`, `do`, `else` or `of`.
    pub(crate) body: usize,
}

impl Open {
    /// Whether it is an `if` without an `else`, after its `then`.
    pub(crate) fn waits_for_else(&self) -> bool {
        matches!(self.kind, Kind::If) && matches!(self.stage, Stage::Body)
    }

    /// Whether it has an end of its own.
    pub(crate) fn has_end(&self) -> bool {
        matches!(
            self.kind,
            Kind::Begin
                | Kind::Case
                | Kind::Record
                | Kind::Repeat
                | Kind::LeftParen
                | Kind::LeftBracket
        )
    }
}

/// A construction that took one statement, and has ended with it.
#[derive(Clone, Copy)]
pub(crate) struct Past {
    pub(crate) open: Open,
    /// The number of the token that ended it.
    pub(crate) end: usize,
    /// What it was in, by the number of its first token: the innermost construction with an end of its own. None if an
    /// `else` ended it.
    pub(crate) list: Option<usize>,
    /// Whether its statement is not a compound one.
    pub(crate) is_bare: bool,
}

/// A block that is open: the numbers of the tokens that its parts begin with.
#[derive(Clone, Copy)]
pub(crate) struct Block {
    /// The number of `program`, `procedure` or `function`.
    pub(crate) head: usize,
    pub(crate) is_routine: bool,
    pub(crate) is_function: bool,
    /// Whether its heading has ended.
    pub(crate) is_told: bool,
    pub(crate) constants: Option<usize>,
    pub(crate) types: Option<usize>,
    pub(crate) variables: Option<usize>,
    pub(crate) routines: Option<usize>,
    /// The part that is open.
    pub(crate) part: Option<Kind>,
    pub(crate) begun: Option<usize>,
}

/// What is open at a place.
#[derive(Drop)]
pub(crate) struct Opened {
    pub(crate) opens: Vec<Open>,
    pub(crate) blocks: Vec<Block>,
    /// The first token of the statement.
    pub(crate) start: usize,
    /// Whether there is a `:=` in the statement.
    pub(crate) assigned: Option<usize>,
    /// The construction that the last `end` ended.
    pub(crate) closed: Option<Open>,
    /// The block that the last `end` ended.
    pub(crate) closed_block: Option<Block>,
    /// The `end` that ended the program.
    pub(crate) ended: Option<usize>,
    /// The innermost `if` without an `else` that the last `;` ended.
    pub(crate) last_if: Option<usize>,
    /// The constructions that ended with a statement.
    pub(crate) past: Vec<Past>,
    /// Whether memory was refused for it.
    pub(crate) has_failed: bool,
}

// The block of a heading.
fn block_at(head: usize, kind: Kind) -> Block {
    Block {
        head,
        is_routine: !matches!(kind, Kind::Program),
        is_function: matches!(kind, Kind::Function),
        is_told: false,
        constants: None,
        types: None,
        variables: None,
        routines: None,
        part: None,
        begun: None,
    }
}

impl Block {
    // Notes a part that begins at a token.
    fn note_part(&mut self, kind: Kind, at: usize) {
        self.part = Some(kind);
        match kind {
            Kind::Const => self.constants = self.constants.or(Some(at)),
            Kind::Type => self.types = self.types.or(Some(at)),
            Kind::Var => self.variables = self.variables.or(Some(at)),
            _ => self.routines = self.routines.or(Some(at)),
        }
    }
}

impl Opened {
    /// The innermost block.
    pub(crate) fn block(&self) -> Block {
        match self.blocks.last() {
            Some(block) => *block,
            None => block_at(0, Kind::Program),
        }
    }

    /// The innermost construction.
    pub(crate) fn top(&self) -> Option<Open> {
        match self.opens.last() {
            Some(open) => Some(*open),
            None => None,
        }
    }

    /// The innermost construction with an end of its own, by the number of its first token.
    pub(crate) fn list(&self) -> Option<usize> {
        for open in self.opens.iter().rev() {
            if open.has_end() {
                return Some(open.at);
            }
        }
        None
    }

    // Whether the innermost construction is a `case`.
    fn is_in_case(&self) -> bool {
        match self.opens.last() {
            Some(open) => matches!(open.kind, Kind::Case),
            None => false,
        }
    }

    // Opens a construction.
    fn open(&mut self, kind: Kind, at: usize) {
        let open = Open {
            kind,
            at,
            stage: Stage::Head,
            body: at.saturating_add(1),
        };
        if self.opens.push(open).is_err() {
            self.has_failed = true;
        }
    }

    // Opens a block.
    fn open_block(&mut self, kind: Kind, at: usize) {
        if self.blocks.push(block_at(at, kind)).is_err() {
            self.has_failed = true;
        }
    }

    // Opens a construction of statements, if the block has them.
    fn open_statement(&mut self, kind: Kind, at: usize) {
        if self.block().begun.is_some() {
            self.open(kind, at);
        }
    }

    // A statement begins at a token.
    fn begin_statement(&mut self, at: usize) {
        self.start = at;
        self.assigned = None;
    }

    // Takes the constructions away that end with a statement.
    fn end_statements(&mut self, tokens: &[Token], at: usize) {
        let list = self.list();
        for _ in 0..self.opens.len() {
            let Some(open) = self.top() else {
                return;
            };
            if open.has_end() {
                return;
            }
            self.note_past(tokens, open, at, list);
            let _ = self.opens.pop();
        }
    }

    // Remembers what ends at a token with a statement, and the list that it was in.
    fn note_past(&mut self, tokens: &[Token], open: Open, end: usize, list: Option<usize>) {
        if matches!(open.stage, Stage::Head) {
            return;
        }
        if open.waits_for_else() {
            self.last_if = self.last_if.or(Some(open.at));
        }
        let has_begin =
            matches!(tokens.get(open.body), Some(token) if matches!(token.kind, Kind::Begin));
        let past = Past {
            open,
            end,
            list,
            is_bare: !has_begin,
        };
        if self.past.push(past).is_err() {
            self.has_failed = true;
        }
    }

    // Takes a construction away that begins with one of some kinds and ends at a token, with all that is open in it.
    fn close(&mut self, tokens: &[Token], kinds: &[Kind], at: usize) -> Option<Open> {
        let mut list = self.list();
        for _ in 0..self.opens.len() {
            let open = self.opens.pop()?;
            if kinds.contains(&open.kind) {
                return Some(open);
            }
            if open.has_end() {
                list = self.list();
            }
            self.note_past(tokens, open, at, list);
        }
        None
    }

    // An `end`.
    fn end(&mut self, tokens: &[Token], at: usize) {
        self.closed = self.close(tokens, &[Kind::Begin, Kind::Case, Kind::Record], at);
        self.closed_block = None;
        let block = self.block();
        if let (Some(open), Some(begun)) = (self.closed, block.begun)
            && begun == open.at
        {
            self.end_block(block, at);
        }
    }

    // The `end` of a block.
    fn end_block(&mut self, block: Block, at: usize) {
        self.closed_block = Some(block);
        if block.is_routine {
            let _ = self.blocks.pop();
        } else {
            self.ended = Some(at);
        }
    }

    // A `begin`.
    fn begin(&mut self, at: usize) {
        if let Some(block) = self.blocks.last_mut() {
            block.begun = block.begun.or(Some(at));
        }
        self.open(Kind::Begin, at);
        self.begin_statement(at.saturating_add(1));
    }

    // The innermost construction goes on after a token.
    fn go_on(&mut self, stage: Stage, at: usize) {
        let body = at.saturating_add(1);
        if let Some(open) = self.opens.last_mut() {
            open.stage = stage;
            open.body = body;
        }
        self.begin_statement(body);
    }

    // An `else`: it belongs to the innermost `if` without one.
    fn go_on_else(&mut self, tokens: &[Token], at: usize) {
        for _ in 0..self.opens.len() {
            let Some(open) = self.top() else {
                return;
            };
            if open.waits_for_else() {
                return self.go_on(Stage::Else, at);
            }
            if open.has_end() {
                return;
            }
            self.note_past(tokens, open, at, None);
            let _ = self.opens.pop();
        }
    }

    // A `procedure` or `function`, which begins a block unless it is in a list of parameters.
    fn routine(&mut self, kind: Kind, at: usize) {
        if !self.opens.is_empty() {
            return;
        }
        if let Some(block) = self.blocks.last_mut() {
            block.note_part(kind, at);
        }
        self.open_block(kind, at);
    }

    // A part of declarations.
    fn part(&mut self, kind: Kind, at: usize) {
        if let Some(block) = self.blocks.last_mut()
            && block.is_told
            && block.begun.is_none()
        {
            block.note_part(kind, at);
        }
    }

    // A `;`, which ends a heading, a statement or a declaration.
    fn semicolon(&mut self, tokens: &[Token], at: usize) {
        self.last_if = None;
        if let Some(block) = self.blocks.last_mut()
            && self.opens.is_empty()
        {
            block.is_told = true;
        }
        self.end_statements(tokens, at);
        self.begin_statement(at.saturating_add(1));
    }

    // A name: the directive `forward` replaces a block.
    fn name(&mut self, bytes: &[u8], span: Span) {
        let block = self.block();
        let is_alone = block.is_routine && block.is_told && block.begun.is_none();
        let word = slice(bytes, span.from, span.to);
        if is_alone && block.part.is_none() && word.eq_ignore_ascii_case(b"forward") {
            let _ = self.blocks.pop();
        }
    }

    // A sign.
    fn sign(&mut self, tokens: &[Token], kind: Kind, at: usize) {
        match kind {
            Kind::RightParen => {
                let _ = self.close(tokens, &[Kind::LeftParen], at);
            }
            Kind::RightBracket => {
                let _ = self.close(tokens, &[Kind::LeftBracket], at);
            }
            Kind::Semicolon => self.semicolon(tokens, at),
            Kind::Colon if self.is_in_case() => self.begin_statement(at.saturating_add(1)),
            Kind::Assign => self.assigned = self.assigned.or(Some(at)),
            _ => {}
        }
    }

    // A word within statements.
    fn word(&mut self, tokens: &[Token], kind: Kind, at: usize) {
        match kind {
            Kind::Until => {
                let _ = self.close(tokens, &[Kind::Repeat], at);
                self.begin_statement(at);
            }
            Kind::Then | Kind::Do => self.go_on(Stage::Body, at),
            Kind::Of if self.is_in_case() => self.go_on(Stage::Body, at),
            Kind::Else => self.go_on_else(tokens, at),
            Kind::End => self.end(tokens, at),
            Kind::Const | Kind::Type | Kind::Var => self.part(kind, at),
            _ => self.sign(tokens, kind, at),
        }
    }

    // A token that may open something.
    fn step(&mut self, tokens: &[Token], kind: Kind, at: usize) {
        match kind {
            Kind::LeftParen | Kind::LeftBracket | Kind::Record => self.open(kind, at),
            Kind::If | Kind::While | Kind::For | Kind::With | Kind::Case => {
                self.open_statement(kind, at);
            }
            Kind::Begin => self.begin(at),
            Kind::Repeat => {
                self.open(kind, at);
                self.begin_statement(at.saturating_add(1));
            }
            Kind::Program => self.open_block(kind, at),
            Kind::Procedure | Kind::Function => self.routine(kind, at),
            _ => self.word(tokens, kind, at),
        }
    }
}

/// What is open before a token of a text, whose tokens before it begin a program.
pub(crate) fn opened_before(
    alloc: Global,
    bytes: &[u8],
    tokens: &[Token],
    end: usize,
) -> Result<Opened, AllocError> {
    let mut opened = Opened {
        opens: Vec::new(alloc),
        blocks: Vec::new(alloc),
        start: 0,
        assigned: None,
        closed: None,
        closed_block: None,
        ended: None,
        last_if: None,
        past: Vec::new(alloc),
        has_failed: false,
    };
    for (at, token) in tokens.iter().enumerate().take(end) {
        match token.kind {
            Kind::Name => opened.name(bytes, token.span),
            kind => opened.step(tokens, kind, at),
        }
    }
    if opened.has_failed {
        return Err(AllocError);
    }
    Ok(opened)
}
