//! How what a program does with its variables is read off its tokens.

use crate::text::Text;
use crate::uses::{
    ASSIGNED, Body, CALLS, CHANGED, CONTENTS, DISTANT, FIELDS, GIVEN, INPUTS, LOOP_ENDS, LOOPS,
    OPENED, READ, Uses,
};
use ps_diagnose::RequiredName;
use ps_diagnose_outline::{Construct, Construction, Denoted, Outline, Point, PointKind};
use ps_scan::Kind;
use std::alloc::{AllocError, Global};

// What is done with a variable at its name.
#[derive(Clone, Copy)]
enum Role {
    /// Its value is used.
    Read,
    /// Its value is used for its own next one alone.
    Update,
    /// It gets a value by an assignment, or a part of it does.
    Assign,
    /// It gets one from `read`, `readln` or `new`.
    Give,
    /// Its value is used, and it may get another one.
    Pass,
    /// A `with` has its fields as names.
    Open,
}

// What comes before an open bracket.
#[derive(Clone, Copy)]
enum Callee {
    /// No routine, or a required one that changes no variable.
    Plain,
    /// One that gives each variable a value, such as `read` and `new`.
    Giver,
    /// One that may do either.
    Other,
    /// A declared one, by the region of its parameters.
    Declared(u32),
}

// An open bracket, and how many commas come after it.
#[derive(Clone, Copy)]
struct Open {
    callee: Callee,
    index: u32,
}

// What is being read.
#[derive(Drop)]
struct Reader<'a> {
    outline: &'a Outline<'a>,
    uses: Uses,
    // the region of the block
    region: u32,
    open: Vec<Open>,
    // of those that are open, how many are of declared routines
    declared: u32,
    // what the name before the next bracket denotes
    callee: Callee,
    // the variable that the statement gives a value
    target: u32,
    has_failed: bool,
}

// The most tokens of a variable's selectors that are searched.
const FURTHEST: usize = 200;

// Whether what is selected of a variable is reached through a pointer; none if the selectors are too long.
fn lies_behind_pointer(outline: &Outline<'_>, at: usize) -> Option<bool> {
    let mut depth: u32 = 0;
    for next in at.saturating_add(1)..at.saturating_add(FURTHEST) {
        match (outline.kind(next), depth) {
            (Kind::Caret, 0) => return Some(true),
            (Kind::LeftBracket, _) => depth = depth.saturating_add(1),
            (Kind::RightBracket, 1..) => depth = depth.saturating_sub(1),
            (Kind::Dot | Kind::Name, 0) | (_, 1..) => {}
            _ => return Some(false),
        }
    }
    None
}

// Whether a statement may begin after a token.
fn begins_statement(kind: Kind) -> bool {
    matches!(
        kind,
        Kind::Begin
            | Kind::Semicolon
            | Kind::Then
            | Kind::Else
            | Kind::Do
            | Kind::Repeat
            | Kind::Colon
    )
}

impl<'a> Reader<'a> {
    // The kind of the token before one.
    fn before(&self, at: usize) -> Kind {
        self.outline.kind(at.saturating_sub(1))
    }

    // What is done with a variable whose value is used.
    fn used(&self, point: u32) -> Role {
        if self.target == point && self.declared == 0 {
            Role::Update
        } else {
            Role::Read
        }
    }

    // What is done with a variable that is passed.
    fn passed(&self, open: Open, point: u32) -> Role {
        match open.callee {
            Callee::Plain => self.used(point),
            Callee::Giver => Role::Give,
            Callee::Other => Role::Pass,
            Callee::Declared(formals) => match self.outline.point_at(formals, open.index) {
                Some(formal) if matches!(formal.kind, PointKind::ValueParameter) => {
                    self.used(point)
                }
                _ => Role::Pass,
            },
        }
    }

    // What is done with a variable at its name.
    fn role(&self, at: usize, point: u32) -> Role {
        match (self.before(at), self.open.last()) {
            (Kind::With, _) | (Kind::Comma, None) => Role::Open,
            (Kind::For, _) => Role::Pass,
            (Kind::LeftParen | Kind::Comma, Some(open)) => self.passed(*open, point),
            (before, None) if begins_statement(before) => Role::Assign,
            _ => self.used(point),
        }
    }

    // The name of a variable.
    fn variable(&mut self, at: usize, point: &Point) {
        match self.role(at, point.number) {
            Role::Read => self.uses.add_of(READ, point.number, at),
            Role::Update => {}
            role => self.reach(at, point, role),
        }
    }

    // A variable, or what is reached through it, that may have another value.
    fn reach(&mut self, at: usize, point: &Point, role: Role) {
        match lies_behind_pointer(self.outline, at) {
            Some(true) => {
                self.uses.add(CONTENTS, at);
                self.uses.add_of(READ, point.number, at);
            }
            Some(false) => self.change(at, point, role),
            None => {
                self.uses.add(CONTENTS, at);
                self.change(at, point, role);
            }
        }
    }

    // A variable that may have another value.
    fn change(&mut self, at: usize, point: &Point, role: Role) {
        let number = point.number;
        if matches!(point.kind, PointKind::VariableParameter) || point.region != self.region {
            self.uses.add(DISTANT, at);
        }
        self.uses.add_of(CHANGED, number, at);
        match role {
            Role::Assign => {
                self.target = number;
                self.uses.add_of(ASSIGNED, number, at);
            }
            Role::Give => self.uses.add_of(GIVEN, number, at),
            Role::Open => {
                self.uses.add_of(OPENED, number, at);
                self.uses.add_of(READ, number, at);
            }
            _ => self.uses.add_of(READ, number, at),
        }
    }

    // The name of a routine.
    fn routine(&mut self, at: usize, formals: Option<u32>) {
        let is_start = self.open.is_empty() && begins_statement(self.before(at));
        if !is_start || !self.outline.is(at.saturating_add(1), Kind::Assign) {
            self.uses.add(CALLS, at);
            self.callee = Callee::Declared(formals.unwrap_or(u32::MAX));
        }
    }

    // The name of a required routine.
    fn required(&mut self, at: usize, name: RequiredName) {
        match name {
            RequiredName::Read | RequiredName::Readln => {
                self.callee = Callee::Giver;
                self.uses.add(INPUTS, at);
            }
            RequiredName::New => self.callee = Callee::Giver,
            RequiredName::Pack | RequiredName::Unpack => self.callee = Callee::Other,
            _ => {}
        }
    }

    // A name that is declared; a field's name is used here if a `with` opens it.
    fn declared(&mut self, at: usize, point: &Point) {
        match point.kind {
            PointKind::Variable | PointKind::ValueParameter | PointKind::VariableParameter => {
                self.variable(at, point);
            }
            PointKind::Field => match self.role(at, point.number) {
                Role::Read | Role::Update => {}
                _ => self.uses.add(FIELDS, at),
            },
            PointKind::Constant | PointKind::Member | PointKind::Type => {}
            _ => self.routine(at, point.formals),
        }
    }

    // A name.
    fn name(&mut self, at: usize) {
        if matches!(self.before(at), Kind::Dot) {
            return;
        }
        self.callee = Callee::Plain;
        match self.outline.denoted(self.outline.span(at)) {
            Some(Denoted::Declared(point)) => self.declared(at, &point),
            Some(Denoted::Required(required)) => self.required(at, required.name),
            None => {}
        }
    }

    // A bracket opens.
    fn begin(&mut self, callee: Callee) {
        if matches!(callee, Callee::Declared(_)) {
            self.declared = self.declared.saturating_add(1);
        }
        let is_kept = self.open.push(Open { callee, index: 0 }).is_ok();
        self.has_failed = self.has_failed || !is_kept;
    }

    // A bracket closes.
    fn close(&mut self) {
        if let Some(open) = self.open.pop() {
            if matches!(open.callee, Callee::Declared(_)) {
                self.declared = self.declared.saturating_sub(1);
            }
        }
    }

    // Reads a token.
    fn take(&mut self, kind: Kind, at: usize) {
        match kind {
            Kind::Name => self.name(at),
            Kind::LeftParen if matches!(self.before(at), Kind::Name) => self.begin(self.callee),
            Kind::LeftParen | Kind::LeftBracket => self.begin(Callee::Plain),
            Kind::RightParen | Kind::RightBracket => self.close(),
            Kind::Comma => {
                if let Some(open) = self.open.last_mut() {
                    open.index = open.index.saturating_add(1);
                }
            }
            Kind::Semicolon | Kind::End | Kind::Until | Kind::Else => self.target = u32::MAX,
            _ => {}
        }
    }

    // Reads the statements of a block.
    fn read(&mut self, body: Body) {
        self.region = body.region;
        for at in body.first..body.end {
            let kind = self.outline.kind(at);
            self.take(kind, at);
        }
    }

    // Reads the statements of all blocks, and notes the outermost loops.
    fn read_all(&mut self, text: &Text<'_>) {
        let mut end = 0;
        for part in text.outline.constructions() {
            if let Some(body) = body_of(text, part) {
                self.read(body);
            } else if part.first >= end
                && matches!(
                    part.construct,
                    Construct::While | Construct::Repeat | Construct::For
                )
            {
                end = part.end;
                self.uses.add(LOOPS, part.first);
                self.uses.add(LOOP_ENDS, end);
            }
        }
    }

    // What was found.
    fn uses(self) -> Result<Uses, AllocError> {
        let Reader {
            outline: _,
            uses,
            region: _,
            open: _,
            declared: _,
            callee: _,
            target: _,
            has_failed,
        } = self;
        if has_failed {
            Err(AllocError)
        } else {
            Ok(uses)
        }
    }
}

/// The statements of a block, if a construction is those.
pub(crate) fn body_of(text: &Text<'_>, part: &Construction) -> Option<Body> {
    let is_body = matches!(part.construct, Construct::Compound)
        && match text.outline.constructions().get(part.within) {
            Some(around) => matches!(around.construct, Construct::Routine | Construct::Program),
            None => false,
        };
    if is_body {
        Some(Body {
            first: part.first,
            end: part.end,
            region: text.outline.block_at(text.span(part.first).from),
        })
    } else {
        None
    }
}

/// What a program does with its variables.
pub(crate) fn uses_of<'a>(alloc: Global, text: &Text<'a>) -> Result<Uses, AllocError> {
    let mut reader = Reader {
        outline: text.outline,
        uses: Uses::new(alloc),
        region: 0,
        open: Vec::new(alloc),
        declared: 0,
        callee: Callee::Plain,
        target: u32::MAX,
        has_failed: false,
    };
    reader.read_all(text);
    let mut uses = reader.uses()?;
    uses.sort()?;
    Ok(uses)
}
