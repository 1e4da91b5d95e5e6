//! Declarations, as they are read off the tokens.

use crate::build::Builder;
use crate::constructions::Construct;
use crate::extent::Part;
use crate::outline::Outline;
use crate::parts::{Form, Point, PointKind, RegionKind, Type, pair, small};
use ps_scan::Kind;

// The most variables that are open by `with`: each costs a step when a name is looked up, and a list of them may be as
// long as the text.
const MOST_OPENED: u32 = 64;

// The most parameters of a heading that are those of its block: a routine has no more, and its block may come often.
const MOST_PARAMETERS: u32 = 32;

// The contents of a heading.
#[derive(Clone, Copy)]
struct Heading {
    /// How many parameters it has.
    count: u32,
    /// The token that names the type of a function's result.
    result: Option<usize>,
    /// The token after it.
    end: usize,
}

impl<'a> Outline<'a> {
    // The heading whose word is at a token.
    fn heading_at(&self, at: usize) -> Heading {
        let mut heading = Heading {
            count: 0,
            result: None,
            end: at.saturating_add(2),
        };
        let mut depth: u32 = 0;
        let mut before = Kind::Name;
        for next in heading.end..self.tokens.len() {
            let kind = self.kind(next);
            heading.end = next;
            match (kind, depth) {
                (Kind::Semicolon | Kind::RightParen, 0) => break,
                (Kind::LeftParen, _) => depth = depth.saturating_add(1),
                (Kind::RightParen, _) => depth = depth.saturating_sub(1),
                (Kind::Name, 0) => heading.result = Some(next),
                (Kind::Name, 1) if !matches!(before, Kind::Colon) => {
                    heading.count = heading.count.saturating_add(1);
                }
                _ => {}
            }
            before = kind;
        }
        heading
    }
}

impl<'a> Builder<'a> {
    /// Reads a token that is among declarations.
    pub(crate) fn declare(&mut self, kind: Kind, at: usize) {
        if !self.innermost().has_declarations() {
            return;
        }
        match kind {
            Kind::Const => self.defines_types = false,
            Kind::Type => self.defines_types = true,
            Kind::Var => self.is_var = true,
            Kind::Equal => self.define(at),
            Kind::Colon | Kind::Of => self.denoter(at.saturating_add(1)),
            Kind::Name => self.name(at),
            Kind::LeftParen => self.parentheses = self.parentheses.saturating_add(1),
            Kind::RightParen => {
                self.close_heading(at);
                self.parentheses = self.parentheses.saturating_sub(1);
            }
            _ => {}
        }
    }

    /// Declares the name at a token in a region.
    pub(crate) fn add_point(
        &mut self,
        region: u32,
        at: usize,
        kind: PointKind,
        ty: Option<Type>,
        value: Option<i64>,
    ) {
        let point = self.point_at(region, at, kind, ty, value);
        self.keep(point);
    }

    // The defining point at a token.
    fn point_at(
        &self,
        region: u32,
        at: usize,
        kind: PointKind,
        ty: Option<Type>,
        value: Option<i64>,
    ) -> Point {
        Point {
            number: small(self.outline.points.len()),
            name: self.outline.span(at),
            spelling: self.outline.spelling_of(at).unwrap_or(u32::MAX),
            region,
            kind,
            ty,
            value,
            formals: None,
            count: 0,
            is_forward: false,
        }
    }

    // Keeps a defining point.
    fn keep(&mut self, point: Point) {
        self.has_failed |= self.outline.points.push(point).is_err();
        self.place(point.region, point.number, point.spelling);
    }

    // Puts a defining point into a region.
    fn place(&mut self, region: u32, number: u32, spelling: u32) {
        if let Some(held) = self.outline.regions.get_mut(region as usize) {
            self.has_failed |= held.points.push(number).is_err();
        }
        let place = pair(region, spelling);
        if self.outline.places.get(&place).is_none() {
            self.has_failed |= self.outline.places.insert(place, number).is_err();
        }
    }

    // The `=` of a definition.
    fn define(&mut self, at: usize) {
        let name = at.saturating_sub(1);
        let next = at.saturating_add(1);
        if self.defines_types {
            let ty = self.next_type();
            self.add_point(self.block, name, PointKind::Type, Some(ty), None);
            self.denoter(next);
        } else {
            let (ty, value) = self.outline.constant_at(next);
            self.add_point(self.block, name, PointKind::Constant, ty, value);
        }
    }

    // What is declared by a name in a list before a type; nothing by a program's parameters.
    fn listed(&self) -> Option<PointKind> {
        if self.parentheses == 0 {
            match self.innermost().construct {
                Construct::Record => Some(PointKind::Field),
                _ => Some(PointKind::Variable),
            }
        } else if self.region == 0 {
            None
        } else if self.is_var {
            Some(PointKind::VariableParameter)
        } else {
            Some(PointKind::ValueParameter)
        }
    }

    // A name: one of a list before a type, which is the next denoter, or the directive after a heading.
    fn name(&mut self, at: usize) {
        match self.outline.kind(at.saturating_add(1)) {
            Kind::Comma | Kind::Colon => {
                if let Some(kind) = self.listed() {
                    let ty = self.next_type();
                    self.add_point(self.region, at, kind, Some(ty), None);
                }
            }
            Kind::Semicolon if self.outline.is(at.saturating_sub(1), Kind::Semicolon) => {
                self.close(at.saturating_add(1));
            }
            _ => {}
        }
    }

    /// The word that begins a heading.
    pub(crate) fn routine(&mut self, at: usize) {
        let heading = self.outline.heading_at(at);
        if self.parentheses > 0 {
            self.headings = self.headings.saturating_add(1);
            self.is_var = false;
            self.open_heading(at, heading, false);
        } else {
            self.begin(Construct::Routine, at);
            self.begin_routine(at, heading);
            self.block = self.region;
        }
        self.until = at.saturating_add(2);
    }

    // A routine that is not a parameter: by its heading alone, or with its block, or by its block alone, if a heading
    // came before or should have.
    fn begin_routine(&mut self, at: usize, heading: Heading) {
        let is_directed = self.outline.is(heading.end.saturating_add(1), Kind::Name);
        let is_bare = heading.end == at.saturating_add(2) && !is_directed;
        let is_function = self.outline.is(at, Kind::Function);
        let name = self.outline.span(at.saturating_add(1));
        let known = match self.outline.spelling_of(at.saturating_add(1)) {
            Some(spelling) => self.outline.point_in(self.block, spelling),
            None => None,
        };
        match known {
            Some(point) if is_bare && (is_function || point.is_forward) => {
                self.complete(at, &point);
            }
            None if is_bare && is_function => self.open(RegionKind::Routine, name.to, None),
            _ => self.open_heading(at, heading, is_directed),
        }
    }

    // What a heading declares.
    fn declared(&self, at: usize) -> PointKind {
        match (self.outline.kind(at), self.parentheses) {
            (Kind::Procedure, 0) => PointKind::Procedure,
            (Kind::Procedure, _) => PointKind::ProcedureParameter,
            (_, 0) => PointKind::Function,
            _ => PointKind::FunctionParameter,
        }
    }

    // Declares the routine of a heading, and opens the region of its parameters.
    fn open_heading(&mut self, at: usize, heading: Heading, is_forward: bool) {
        let name = at.saturating_add(1);
        let mut ty = None;
        if let Some(result) = heading.result {
            ty = Some(self.next_type());
            self.denoter(result);
        }
        let mut point = self.point_at(self.region, name, self.declared(at), ty, None);
        point.formals = Some(small(self.outline.regions.len()));
        point.count = heading.count;
        point.is_forward = is_forward;
        self.keep(point);
        let is_block = self.parentheses == 0 && !is_forward;
        let kind = if is_block {
            RegionKind::Routine
        } else {
            RegionKind::Heading
        };
        self.open(kind, point.name.to, Some(point.number));
    }

    // Opens the region of a routine whose heading came before, with the parameters of that.
    fn complete(&mut self, at: usize, routine: &Point) {
        let name = self.outline.span(at.saturating_add(1));
        self.open(RegionKind::Routine, name.to, Some(routine.number));
        let formals = routine.formals.unwrap_or(u32::MAX);
        for number in 0..routine.count.min(MOST_PARAMETERS) {
            if let Some(point) = self.outline.point_at(formals, number) {
                self.place(self.region, point.number, point.spelling);
            }
        }
    }

    // A section of parameters ends before a token, or the heading of a parameter, if none of its own parentheses is
    // open.
    pub(crate) fn close_heading(&mut self, at: usize) {
        self.is_var = false;
        if self.headings > 0 && self.headings == self.parentheses {
            self.headings = self.headings.saturating_sub(1);
            let around = self.outline.around(self.region);
            let from = self.outline.span(at).from;
            self.turn_to(from, around);
        }
    }

    /// Opens the records of a `with`, one after the other, the first of which begins at a token, and returns how many
    /// are open then.
    pub(crate) fn open_records(&mut self, first: usize, around: u32) -> u32 {
        let mut opened = around;
        let mut at = first;
        for _ in first..self.outline.tokens.len() {
            let next = self.open_record(at, opened);
            opened = opened.saturating_add(1);
            if !self.outline.is(next, Kind::Comma) {
                break;
            }
            at = next.saturating_add(1);
        }
        self.outline.most_opened = self.outline.most_opened.max(opened);
        opened
    }

    // Opens the region of a record variable after it, if its type is known and not too many are open, and returns the
    // token after it.
    fn open_record(&mut self, at: usize, opened: u32) -> usize {
        if opened >= MOST_OPENED {
            return self.outline.end_of(at, Part::Factor);
        }
        let (ty, next) = self.outline.type_written(at);
        if let Some(Form::Record(record)) = self.outline.form_of(ty) {
            let end = self.outline.span(next.saturating_sub(1)).to;
            let from = self.outline.span(at).from;
            self.open(RegionKind::Opened(record), end, Some(from));
        }
        next
    }
}
