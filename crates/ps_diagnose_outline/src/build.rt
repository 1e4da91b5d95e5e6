//! How an outline is made, by one pass over the tokens.
//!
//! If out of memory, this is noted, and what was made until then is dropped at the end.

use crate::constructions::{Construct, Construction, begun_by};
use crate::outline::Outline;
use crate::parts::{Held, Region, RegionKind, pair, small};
use crate::required::required_names;
use ps_scan::{Kind, Token};
use ps_syntax::Program;
use ps_text::Source;
use std::alloc::{AllocError, Global};

/// An outline that is being made.
#[derive(Drop)]
pub(crate) struct Builder<'a> {
    pub(crate) alloc: Global,
    pub(crate) outline: Outline<'a>,
    /// The innermost region that is open.
    pub(crate) region: u32,
    /// The innermost program or routine that is open.
    pub(crate) block: u32,
    /// The innermost construction that is open.
    pub(crate) current: usize,
    /// The first token that isn't read yet.
    pub(crate) until: usize,
    /// How many parentheses of headings are open.
    pub(crate) parentheses: u32,
    /// How many headings of parameters are open.
    pub(crate) headings: u32,
    /// Whether it is types that are defined.
    pub(crate) defines_types: bool,
    /// Whether the parameters that are read are variable parameters.
    pub(crate) is_var: bool,
    /// Whether out of memory.
    pub(crate) has_failed: bool,
}

impl<'a> Outline<'a> {
    /// The outline of a text, of its tokens and of its tree.
    pub fn new(
        alloc: Global,
        source: &'a Source<'a>,
        tokens: &'a [Token],
        program: &'a Program,
    ) -> Result<Outline<'a>, AllocError> {
        let mut builder = Builder {
            alloc,
            outline: Outline::empty(alloc, source, tokens, program),
            region: 0,
            block: 0,
            current: 0,
            until: 0,
            parentheses: 0,
            headings: 0,
            defines_types: false,
            is_var: false,
            has_failed: false,
        };
        builder.read_names();
        builder.read();
        builder.finished()
    }
}

impl<'a> Builder<'a> {
    // What was made, if all of it was kept.
    fn finished(self) -> Result<Outline<'a>, AllocError> {
        let Builder {
            alloc: _,
            outline,
            region: _,
            block: _,
            current: _,
            until: _,
            parentheses: _,
            headings: _,
            defines_types: _,
            is_var: _,
            has_failed,
        } = self;
        if has_failed {
            Err(AllocError)
        } else {
            Ok(outline)
        }
    }

    // The number of a name's spelling, which is added if it is new.
    fn spell(&mut self, name: &[u8]) -> u32 {
        let Ok(spelling) = ps_scan::name_spelling(self.alloc, name) else {
            self.has_failed = true;
            return 0;
        };
        match self.outline.spellings.insert_full(spelling) {
            Ok((number, _)) => small(number),
            Err(_) => {
                self.has_failed = true;
                0
            }
        }
    }

    // Reads the names, the required ones first.
    fn read_names(&mut self) {
        for required in required_names() {
            self.spell(required.name.spelling().as_bytes());
        }
        for token in self.outline.tokens {
            let mut spelling = u32::MAX;
            if matches!(token.kind, Kind::Name) {
                let name = self.outline.bytes(token.span);
                spelling = self.spell(name);
            }
            self.has_failed |= self.outline.starts.push(token.span.from).is_err();
            self.has_failed |= self.outline.spelled.push(spelling).is_err();
        }
    }

    // Reads the tokens.
    fn read(&mut self) {
        self.open(RegionKind::Program, 0, None);
        self.begin(Construct::Program, 0);
        for (at, token) in self.outline.tokens.iter().enumerate() {
            if at >= self.until {
                self.take(token.kind, at);
            }
        }
    }

    // Reads a token.
    fn take(&mut self, kind: Kind, at: usize) {
        match begun_by(kind) {
            Some(Construct::Routine) => self.routine(at),
            Some(construct) => self.begin(construct, at),
            None => self.go_on(kind, at),
        }
    }

    // Reads a token that begins no construction.
    fn go_on(&mut self, kind: Kind, at: usize) {
        match kind {
            Kind::Then | Kind::Do => self.turn(at, false),
            Kind::Else | Kind::Until => {
                self.close_statements(kind, at);
                self.turn(at, true);
            }
            Kind::End => self.close_list(at),
            Kind::Semicolon => {
                self.close_statements(kind, at);
                self.close_heading(at);
            }
            _ => self.declare(kind, at),
        }
    }

    // The innermost construction that is open.
    pub(crate) fn innermost(&self) -> Construction {
        match self.outline.constructions.get(self.current) {
            Some(construction) => *construction,
            None => Construction {
                construct: Construct::Program,
                first: 0,
                body: 0,
                end: 0,
                has_turned: false,
                within: 0,
                list: 0,
                around: 0,
                opened: 0,
            },
        }
    }

    // A construction begins.
    pub(crate) fn begin(&mut self, construct: Construct, at: usize) {
        let within = self.innermost();
        let body = at.saturating_add(1);
        let construction = Construction {
            construct,
            first: at,
            body,
            end: body,
            has_turned: false,
            within: self.current,
            list: if within.has_statements() {
                self.current
            } else {
                within.list
            },
            around: self.region,
            opened: within.opened,
        };
        self.current = self.outline.constructions.len();
        self.has_failed |= self.outline.constructions.push(construction).is_err();
        if matches!(construct, Construct::Record) {
            let from = self.outline.span(at).from;
            self.open(RegionKind::Record, from, None);
        }
    }

    // The innermost that is open ends before a token, and the regions that it opened.
    pub(crate) fn close(&mut self, end: usize) {
        let closed = self.innermost();
        if let Some(construction) = self.outline.constructions.get_mut(self.current) {
            construction.end = end;
        }
        self.current = closed.within;
        if matches!(closed.construct, Construct::Routine) {
            self.block = closed.around;
        }
        if self.region != closed.around {
            let from = self.outline.span(end).from;
            self.turn_to(from, closed.around);
        }
    }

    // What ends together with a statement ends before a token.
    fn close_statements(&mut self, kind: Kind, at: usize) {
        for _ in 0..self.outline.constructions.len() {
            if !self.innermost().is_ended_by(kind) {
                break;
            }
            self.close(at);
        }
    }

    // An `end` at a token; a routine ends with its block.
    fn close_list(&mut self, at: usize) {
        self.close_statements(Kind::End, at);
        let closed = self.innermost();
        let end = at.saturating_add(1);
        self.close(end);
        if closed.is_list() && matches!(self.innermost().construct, Construct::Routine) {
            self.close(end);
        }
    }

    // The last part of the innermost open construction begins after a token.
    fn turn(&mut self, at: usize, has_turned: bool) {
        let turned = self.innermost();
        let mut opened = turned.opened;
        if matches!(turned.construct, Construct::With) {
            opened = self.open_records(turned.first.saturating_add(1), opened);
        }
        if let Some(construction) = self.outline.constructions.get_mut(self.current) {
            construction.body = at.saturating_add(1);
            construction.has_turned = has_turned;
            construction.opened = opened;
        }
    }

    /// Opens a region. Its subject is a routine, or where the variable of a `with` begins.
    pub(crate) fn open(&mut self, kind: RegionKind, from: u32, about: Option<u32>) {
        let number = small(self.outline.regions.len());
        let (scope, routine, variable) = match kind {
            RegionKind::Opened(record) => (record, None, about),
            RegionKind::Program | RegionKind::Routine => (number, about, None),
            RegionKind::Record | RegionKind::Heading => (u32::MAX, about, None),
        };
        let held = Held {
            region: Region {
                from,
                around: self.region,
                kind,
                routine,
                variable,
            },
            scope,
            beyond: self.outline.scoped(self.region),
            points: Vec::new(self.alloc),
        };
        self.has_failed |= self.outline.regions.push(held).is_err();
        self.turn_to(from, number);
    }

    /// Another region is the innermost one from an offset on.
    pub(crate) fn turn_to(&mut self, offset: u32, region: u32) {
        self.region = region;
        self.has_failed |= self.outline.turns.push(pair(offset, region)).is_err();
    }
}
