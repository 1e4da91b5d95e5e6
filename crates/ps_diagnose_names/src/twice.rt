//! Names that are declared twice (31), or used before they are declared (32).

use crate::context::Context;
use crate::facts::{CONSTANTS, FIELDS, TYPES, VARIABLES, is_among};
use crate::why::{Change, Help, Mark, Why};
use ps_diagnose_outline::{Point, PointKind};
use ps_scan::{Kind, Token};
use ps_text::Span;

impl<'a> Context<'a> {
    /// A name that is declared twice.
    pub(crate) fn twice(&self, why: &mut Why) -> bool {
        if self.twice_in_heading(why) {
            return true;
        }
        let Some(point) = self.declared_here() else {
            return false;
        };
        let Some(first) = self.outline.point_in(point.region, point.spelling) else {
            return false;
        };
        let is_completed = match self.token_at(self.fault.place.to) {
            Some(token) => token.kind == Kind::Semicolon,
            None => false,
        };
        why.mark = Mark::At("the first one is here", self.first_place(first));
        if first.is_forward && !is_completed {
            why.form = "`@p` was declared with `forward`: its parameters are not repeated";
            if let Some(to) = end_of_heading(self.outline.tokens_from(self.fault.place.to)) {
                why.change = Change::Without(Span {
                    from: self.fault.place.to,
                    to,
                });
            }
        } else {
            let (form, help) = told_of_twice(point.kind, first.kind);
            why.form = form;
            why.help = help;
            // (of a constant of an enumeration and something else both are meant)
            if matches!(point.kind, PointKind::Member) || !matches!(first.kind, PointKind::Member) {
                why.change = self.without_declaration(point);
            }
        }
        true
    }

    /// The defining point at the place.
    pub(crate) fn declared_here(&self) -> Option<Point> {
        for point in self.outline.points() {
            if point.name.from == self.fault.place.from {
                return Some(*point);
            }
        }
        None
    }

    // A program parameter.
    fn twice_in_heading(&self, why: &mut Why) -> bool {
        let (Some(first), Some(last)) = (
            self.first_like(),
            self.outline.program_parameters().last(),
        ) else {
            return false;
        };
        if last.from < self.fault.place.from || self.fault.place.from <= first.from {
            return false;
        }
        why.form = "`@p` appears twice in the heading";
        why.mark = Mark::At("the first one is here", first);
        why.change = self.without_comma();
        true
    }

    // Where a name is declared first: in the heading of the program, if the block declares nothing of that name before
    // the place.
    fn first_place(&self, first: Point) -> Span {
        match self.first_like() {
            Some(parameter) if first.name.from == self.fault.place.from => parameter,
            _ => first.name,
        }
    }

    // The first program parameter of the spelling at the place.
    fn first_like(&self) -> Option<Span> {
        let spelling = self.outline.spelling_at(self.fault.place.from);
        for parameter in self.outline.program_parameters() {
            if self.outline.spelling_at(parameter.from) == spelling {
                return Some(*parameter);
            }
        }
        None
    }

    // Tries the text without the name at the place and a comma next to it.
    fn without_comma(&self) -> Change {
        let before = self.outline.token_before(self.fault.place.from);
        match (before, self.token_at(self.fault.place.to)) {
            (Some(comma), _) if comma.kind == Kind::Comma => Change::Without(Span {
                from: comma.span.from,
                to: self.fault.place.to,
            }),
            (_, Some(comma)) if comma.kind == Kind::Comma => Change::Without(Span {
                from: self.fault.place.from,
                to: comma.span.to,
            }),
            _ => Change::None,
        }
    }

    // Tries the text without a declaration, if it declares one name alone, otherwise without its name.
    fn without_declaration(&self, point: Point) -> Change {
        if matches!(point.kind, PointKind::Member) {
            return self.without_comma();
        }
        if !is_among(point.kind, CONSTANTS | TYPES | VARIABLES | FIELDS) {
            return Change::None;
        }
        let before = self.outline.token_before(self.fault.place.from);
        match (before, self.token_at(self.fault.place.to)) {
            (Some(before), Some(behind)) => {
                if before.kind == Kind::Comma || behind.kind == Kind::Comma {
                    self.without_comma()
                } else {
                    self.without_whole(before)
                }
            }
            _ => Change::None,
        }
    }

    // Tries the text without what begins at the place, up to its `;`: with its `var`, `const` or `type` if it is the
    // only one after that.
    fn without_whole(&self, before: Token) -> Change {
        let Some(to) = end_of_declaration(self.outline.tokens_from(self.fault.place.from)) else {
            return Change::None;
        };
        let is_last = match self.token_at(to) {
            Some(next) => next.kind != Kind::Name,
            None => true,
        };
        let is_first = matches!(before.kind, Kind::Var | Kind::Const | Kind::Type);
        let from = if is_first && is_last {
            before.span.from
        } else {
            self.fault.place.from
        };
        Change::Without(Span { from, to })
    }

    /// A name that is used before it is declared.
    pub(crate) fn used_before(&self, why: &mut Why) -> bool {
        let Some(point) = self.outline.declared(self.fault.place) else {
            return false;
        };
        why.mark = Mark::Here(point.name);
        if point.name.from < self.fault.place.from {
            why.form = "`@p` is used in its own declaration";
            if matches!(point.kind, PointKind::Type) {
                why.help = Help::Of(
                    "a type reaches itself only through a pointer: `^@a`",
                    point.name,
                );
            }
        } else if let Some(other) = self.around(point) {
            why.form = "`@p` is used before it is declared in this block";
            why.other = other.name;
            why.note = "the `@y` of the surrounding block, at @l, is hidden in this one";
        } else {
            why.form = "`@p` is used before it is declared";
            why.help = self.earlier(point);
        }
        true
    }

    // How what is used is declared before.
    fn earlier(&self, point: Point) -> Help {
        if !matches!(point.kind, PointKind::Procedure | PointKind::Function) {
            return Help::Of("declare `@a` before what uses it", point.name);
        }
        match self.heading_of(point) {
            Some(heading) => Help::Of(
                "declare it first, or put its heading before this one, with `forward`: @a; forward;",
                heading,
            ),
            None => Help::None,
        }
    }

    // What the name would denote without a defining point.
    fn around(&self, point: Point) -> Option<Point> {
        match self.outline.region(point.region) {
            Some(region) if point.region != 0 => self.outline.find(region.around, point.spelling),
            _ => None,
        }
    }

    /// The heading of a routine, without its `;`.
    pub(crate) fn heading_of(&self, point: Point) -> Option<Span> {
        let Some(word) = self.outline.token_before(point.name.from) else {
            return None;
        };
        let from = word.span.from;
        match end_of_heading(self.outline.tokens_from(from)) {
            Some(to) => Some(Span { from, to }),
            None => None,
        }
    }
}

// What is reported for a declaration and the first one of its name.
fn told_of_twice(kind: PointKind, first: PointKind) -> (&'static str, Help) {
    match (kind, first) {
        (PointKind::Field, _) => ("`@p` is a field of this record already", Help::None),
        (PointKind::Member, _) => (
            "`@p` is declared twice in this block, here as a constant of an enumeration",
            Help::None,
        ),
        (_, PointKind::Member) => (
            "`@p` is declared twice in this block",
            Help::Is("give one of the two another name"),
        ),
        (_, PointKind::ValueParameter | PointKind::VariableParameter) => {
            ("`@p` is a parameter already", Help::None)
        }
        (PointKind::Function, PointKind::Variable) | (PointKind::Variable, PointKind::Function) => (
            "`@p` is declared twice in this block",
            Help::Is("a function gives its result through its name, and needs no variable"),
        ),
        _ => ("`@p` is declared twice in this block", Help::None),
    }
}

// Where the `;` begins that ends a heading.
fn end_of_heading(tokens: &[Token]) -> Option<u32> {
    let mut open: u32 = 0;
    for token in tokens {
        match token.kind {
            Kind::LeftParen => open = open.saturating_add(1),
            Kind::RightParen => open = open.saturating_sub(1),
            Kind::Semicolon if open == 0 => return Some(token.span.from),
            _ => {}
        }
    }
    None
}

// Where the `;` ends that ends a declaration, if one does.
fn end_of_declaration(tokens: &[Token]) -> Option<u32> {
    let mut open: u32 = 0;
    for token in tokens {
        match token.kind {
            Kind::LeftParen | Kind::Record => open = open.saturating_add(1),
            Kind::RightParen | Kind::End if open == 0 => return None,
            Kind::RightParen | Kind::End => open = open.saturating_sub(1),
            Kind::Semicolon if open == 0 => return Some(token.span.to),
            _ => {}
        }
    }
    None
}
