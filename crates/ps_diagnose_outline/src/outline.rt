//! The outline of a text, and what is looked up in it.

use crate::constructions::Construction;
use crate::parts::{Denoter, Held, Point, PointKind, Region, Shape, Type, pair, small};
use crate::required::{Required, RequiredKind, required_names};
use indexmap::IndexSet;
use ps_scan::{Kind, Token};
use ps_syntax::{Constant, Program, Sign};
use ps_text::{Source, Span};
use ps_tree::names::Seed;
use std::alloc::Global;
use std::collections::HashMap;

/// How many regions are searched, from the inside out.
const DEEPEST: usize = 4000;

/// The names of a text with their declarations.
#[derive(Drop)]
pub struct Outline<'a> {
    pub(crate) source: &'a Source<'a>,
    pub(crate) tokens: &'a [Token],
    pub(crate) program_name: Span,
    pub(crate) program_parameters: &'a [Span],
    pub(crate) spellings: IndexSet<Vec<u8>, Seed>,
    /// Where the tokens begin.
    pub(crate) starts: Vec<u32>,
    /// Of those that are names, the numbers of their spellings.
    pub(crate) spelled: Vec<u32>,
    pub(crate) points: Vec<Point>,
    /// In the order in which they begin.
    pub(crate) regions: Vec<Held>,
    /// Each offset from which on another region is the innermost one, and that, as one number; of several at an offset
    /// the last one counts.
    pub(crate) turns: Vec<u64>,
    pub(crate) denoters: Vec<Denoter>,
    pub(crate) constructions: Vec<Construction>,
    /// The first defining point of a spelling in a region.
    pub(crate) places: HashMap<u64, u32, Seed>,
    /// At most how many variables are open by `with` at a place.
    pub(crate) most_opened: u32,
}

/// What a name denotes.
#[derive(Clone, Copy)]
pub enum Denoted {
    Declared(Point),
    Required(Required),
}

impl<'a> Outline<'a> {
    /// The outline of which nothing is known yet.
    pub(crate) fn empty(
        alloc: Global,
        source: &'a Source<'a>,
        tokens: &'a [Token],
        program: &'a Program,
    ) -> Outline<'a> {
        let seed = Seed::of(source.bytes());
        Outline {
            source,
            tokens,
            program_name: program.name,
            program_parameters: program.parameters.as_slice(),
            spellings: IndexSet::with_hasher(alloc, seed),
            starts: Vec::new(alloc),
            spelled: Vec::new(alloc),
            points: Vec::new(alloc),
            regions: Vec::new(alloc),
            turns: Vec::new(alloc),
            denoters: Vec::new(alloc),
            constructions: Vec::new(alloc),
            places: HashMap::with_hasher(alloc, seed),
            most_opened: 0,
        }
    }

    /// The text's tokens.
    pub fn tokens(&self) -> &'a [Token] {
        self.tokens
    }

    /// The name of the program.
    pub fn program_name(&self) -> Span {
        self.program_name
    }

    /// The names of the program's parameters. The tree itself is not kept: otherwise the type of an outline, which
    /// each function here takes, would lead to those of the whole tree, and each proof would be longer.
    pub fn program_parameters(&self) -> &'a [Span] {
        self.program_parameters
    }

    /// The bytes of a span, none if it isn't within the text.
    pub fn bytes(&self, at: Span) -> &'a [u8] {
        if at.from <= at.to && at.to <= self.source.len() {
            self.source.slice(at)
        } else {
            &[]
        }
    }

    /// How many tokens there are.
    pub fn token_count(&self) -> usize {
        self.tokens.len()
    }

    /// How many variables are open by `with` at a place, at most: each of them costs a step when a name is looked up.
    pub fn most_opened(&self) -> u32 {
        self.most_opened
    }

    /// The kind of a token; past the last token, that of the last one.
    pub fn kind(&self, at: usize) -> Kind {
        match self.tokens.get(at) {
            Some(token) => token.kind,
            None => Kind::Dot,
        }
    }

    /// Whether a token is of this kind.
    pub fn is(&self, at: usize, kind: Kind) -> bool {
        self.kind(at) == kind
    }

    /// The span of a token.
    pub fn span(&self, at: usize) -> Span {
        match self.tokens.get(at) {
            Some(token) => token.span,
            None => Span {
                from: self.source.len(),
                to: self.source.len(),
            },
        }
    }

    /// The constructions of the text, in its order.
    pub fn constructions(&self) -> &[Construction] {
        self.constructions.as_slice()
    }

    /// The defining point of a number.
    pub fn point(&self, number: u32) -> Option<Point> {
        self.points.get(number as usize).copied()
    }

    /// All defining points, in the order of the text.
    pub fn points(&self) -> &[Point] {
        self.points.as_slice()
    }

    /// The region of a number. That of the program is 0.
    pub fn region(&self, number: u32) -> Option<Region> {
        match self.regions.get(number as usize) {
            Some(held) => Some(held.region),
            None => None,
        }
    }

    /// The region around one.
    pub(crate) fn around(&self, region: u32) -> u32 {
        match self.regions.get(region as usize) {
            Some(held) => held.region.around,
            None => 0,
        }
    }

    /// The number of the defining point of the routine that a region is of.
    pub fn routine_of(&self, region: u32) -> Option<u32> {
        match self.regions.get(region as usize) {
            Some(held) => held.region.routine,
            None => None,
        }
    }

    /// The numbers of a region's defining points, in their order; a routine's parameters are the first.
    pub fn points_of(&self, region: u32) -> &[u32] {
        match self.regions.get(region as usize) {
            Some(held) => held.points.as_slice(),
            None => &[],
        }
    }

    /// A defining point of a region by its number there, from 0 on.
    pub fn point_at(&self, region: u32, number: u32) -> Option<Point> {
        match self.points_of(region).get(number as usize) {
            Some(number) => self.point(*number),
            None => None,
        }
    }

    /// The denoter of a number.
    pub fn denoter(&self, number: u32) -> Option<Denoter> {
        self.denoters.get(number as usize).copied()
    }

    /// The number of the spelling of the name that begins at an offset.
    pub fn spelling_at(&self, offset: u32) -> Option<u32> {
        match self.starts.as_slice().binary_search(&offset) {
            Ok(at) => self.spelling_of(at),
            Err(_) => None,
        }
    }

    /// The number of the spelling of a token, if it is a name.
    pub fn spelling_of(&self, at: usize) -> Option<u32> {
        match self.spelled.get(at) {
            Some(spelling) if *spelling != u32::MAX => Some(*spelling),
            _ => None,
        }
    }

    /// A spelling, in small letters.
    pub fn spelling(&self, number: u32) -> &str {
        match self.spellings.get_index(number as usize) {
            Some(bytes) => str::from_utf8(bytes.as_slice()).unwrap_or(""),
            None => "",
        }
    }

    /// The innermost region around an offset.
    pub fn region_at(&self, offset: u32) -> u32 {
        let next = match self.turns.as_slice().binary_search(&pair(offset, u32::MAX)) {
            Ok(at) | Err(at) => at,
        };
        match self.turns.get(next.saturating_sub(1)) {
            Some(turn) => (*turn % 4_294_967_296) as u32,
            None => 0,
        }
    }

    /// The innermost program or routine around an offset.
    pub fn block_at(&self, offset: u32) -> u32 {
        let mut at = self.region_at(offset);
        for _ in 0..DEEPEST {
            match self.regions.get(at as usize) {
                Some(held) if held.scope != at => at = held.region.around,
                _ => break,
            }
        }
        at
    }

    /// The defining point of a spelling in one region.
    pub fn point_in(&self, region: u32, spelling: u32) -> Option<Point> {
        match self.places.get(&pair(region, spelling)) {
            Some(number) => self.point(*number),
            None => None,
        }
    }

    // The region itself, if it has a scope, or else the nearest one around it that has one.
    pub(crate) fn scoped(&self, region: u32) -> u32 {
        match self.regions.get(region as usize) {
            Some(held) if held.scope == u32::MAX => held.beyond,
            _ => region,
        }
    }

    // The defining point of a spelling in a scope; the regions of records and headings have none.
    fn point_in_scope(&self, scope: u32, spelling: u32) -> Option<Point> {
        if scope == u32::MAX {
            None
        } else {
            self.point_in(scope, spelling)
        }
    }

    /// The defining point of a spelling that is visible in a region or around it. Regions without a scope are passed
    /// over: there may be as many of them around a name as can be nested.
    pub fn find(&self, region: u32, spelling: u32) -> Option<Point> {
        let mut at = region;
        for _ in 0..DEEPEST {
            let Some(held) = self.regions.get(at as usize) else {
                break;
            };
            let found = self.point_in_scope(held.scope, spelling);
            if found.is_some() || at == 0 {
                return found;
            }
            at = held.beyond;
        }
        None
    }

    /// What a name of the text denotes, by its place; a field after a point has no place of its own.
    pub fn denoted(&self, name: Span) -> Option<Denoted> {
        let Some(spelling) = self.spelling_at(name.from) else {
            return None;
        };
        match self.find(self.region_at(name.from), spelling) {
            Some(point) => Some(Denoted::Declared(point)),
            None => match required_names().get(spelling as usize) {
                Some(required) => Some(Denoted::Required(*required)),
                None => None,
            },
        }
    }

    /// The defining point that a name of the text denotes, if it is not one of the required ones.
    pub fn declared(&self, name: Span) -> Option<Point> {
        match self.denoted(name) {
            Some(Denoted::Declared(point)) => Some(point),
            _ => None,
        }
    }

    /// The required name that a name of the text denotes.
    pub fn required(&self, name: Span) -> Option<Required> {
        match self.denoted(name) {
            Some(Denoted::Required(required)) => Some(required),
            _ => None,
        }
    }

    /// The type that a name denotes, if it is that of a type.
    pub fn type_named(&self, name: Span) -> Option<Type> {
        match self.denoted(name) {
            Some(Denoted::Declared(point)) => match point.kind {
                PointKind::Type => point.ty,
                _ => None,
            },
            Some(Denoted::Required(required)) => match required.kind {
                RequiredKind::Type(ty) => Some(ty),
                _ => None,
            },
            None => None,
        }
    }

    // The type and the value of a constant's name.
    fn constant_named(&self, name: Span) -> (Option<Type>, Option<i64>) {
        match self.denoted(name) {
            Some(Denoted::Declared(point)) => match point.kind {
                PointKind::Constant | PointKind::Member => (point.ty, point.value),
                _ => (None, None),
            },
            Some(Denoted::Required(required)) => match required.kind {
                RequiredKind::Constant(ty, value) => (Some(ty), Some(value)),
                _ => (None, None),
            },
            None => (None, None),
        }
    }

    // The type and the value of a string.
    fn text_at(&self, at: Span) -> (Option<Type>, Option<i64>) {
        let literal = self.bytes(at);
        match ps_scan::string_length(literal) {
            1 => match literal.get(1) {
                Some(byte) => (Some(Type::Char), Some(i64::from(*byte))),
                None => (Some(Type::Char), None),
            },
            length => (Some(Type::Text(small(length))), None),
        }
    }

    /// The type of a string or a character of the text.
    pub fn type_of_text(&self, at: Span) -> Option<Type> {
        self.text_at(at).0
    }

    /// The type and the value of a constant.
    pub fn constant(&self, constant: Constant) -> (Option<Type>, Option<i64>) {
        match constant {
            Constant::Number(sign, at) => {
                let value = ps_scan::number_value(self.bytes(at));
                (Some(Type::Integer), signed(sign, Some(i64::from(value))))
            }
            Constant::Name(sign, name) => {
                let (ty, value) = self.constant_named(name);
                (ty, signed(sign, value))
            }
            Constant::Text(at) => self.text_at(at),
        }
    }

    /// The type and the value of the constant that begins at a token.
    pub(crate) fn constant_at(&self, at: usize) -> (Option<Type>, Option<i64>) {
        let span = self.span(at);
        let (sign, at) = match self.kind(at) {
            Kind::Plus => (Some((Sign::Plus, span)), at.saturating_add(1)),
            Kind::Minus => (Some((Sign::Minus, span)), at.saturating_add(1)),
            _ => (None, at),
        };
        let span = self.span(at);
        match self.kind(at) {
            Kind::Number => self.constant(Constant::Number(sign, span)),
            Kind::Text => self.constant(Constant::Text(span)),
            _ => self.constant(Constant::Name(sign, span)),
        }
    }

    /// Where the denoter of a type begins, if it is in the text.
    pub fn denoter_at(&self, ty: Type) -> Option<u32> {
        match ty {
            Type::Told(number) => match self.denoter(number) {
                Some(denoter) => denoter.from,
                None => None,
            },
            _ => None,
        }
    }

    // The shape of a denoter, if it has one of its own.
    pub(crate) fn shape(&self, ty: Type) -> Option<Shape> {
        match ty {
            Type::Told(number) => match self.denoter(number) {
                Some(denoter) => Some(denoter.shape),
                None => None,
            },
            _ => None,
        }
    }
}

// A value with its sign.
fn signed(sign: Option<(Sign, Span)>, value: Option<i64>) -> Option<i64> {
    match (sign, value) {
        (Some((Sign::Minus, _)), Some(value)) => value.checked_neg(),
        _ => value,
    }
}
