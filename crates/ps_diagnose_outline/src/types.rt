//! Type denoters, read from the tokens. A denoter is added where it begins: what follows it in the text has the numbers
//! after its own.

use crate::build::Builder;
use crate::extent::Part;
use crate::outline::Outline;
use crate::parts::{Denoter, PointKind, Shape, Type, small};
use ps_scan::Kind;

impl<'a> Builder<'a> {
    /// The type of the denoter that is added next.
    pub(crate) fn next_type(&self) -> Type {
        Type::Told(small(self.outline.denoters.len()))
    }

    // Adds a denoter, which may be at a token.
    fn add_denoter(&mut self, at: Option<usize>, is_packed: bool, shape: Shape) {
        let from = match at {
            Some(at) => Some(self.outline.span(at).from),
            None => None,
        };
        let denoter = Denoter {
            from,
            is_packed,
            shape,
        };
        self.has_failed |= self.outline.denoters.push(denoter).is_err();
    }

    /// The denoter that begins at a token.
    pub(crate) fn denoter(&mut self, at: usize) {
        let is_packed = self.outline.is(at, Kind::Packed);
        let word = if is_packed { at.saturating_add(1) } else { at };
        match self.outline.kind(word) {
            Kind::Array => self.arrays(at, word.saturating_add(2), is_packed),
            Kind::Record => {
                let region = small(self.outline.regions.len());
                self.add_denoter(Some(at), is_packed, Shape::Record(region));
            }
            Kind::Set => {
                let base = small(self.outline.denoters.len()).saturating_add(1);
                self.add_denoter(Some(at), is_packed, Shape::Set(Some(Type::Told(base))));
            }
            Kind::Caret => {
                let name = self.outline.span(at.saturating_add(1));
                self.add_denoter(Some(at), false, Shape::Pointer(name));
            }
            _ => self.ordinal(at),
        }
    }

    // Nested arrays, for several indices, the first of which begins at a token; the type of the components comes after
    // them.
    fn arrays(&mut self, at: usize, first: usize, is_packed: bool) {
        let mut place = Some(at);
        let mut index = first;
        for _ in first..self.outline.tokens.len() {
            let number = small(self.outline.denoters.len());
            let shape = Shape::Array {
                index: Some(Type::Told(number.saturating_add(1))),
                component: Some(Type::Told(number.saturating_add(2))),
            };
            self.add_denoter(place, is_packed, shape);
            self.ordinal(index);
            place = None;
            let end = self.outline.end_of(index, Part::Denoter);
            self.until = end;
            if !self.outline.is(end, Kind::Comma) {
                break;
            }
            index = end.saturating_add(1);
        }
    }

    // The denoter of an ordinal type.
    fn ordinal(&mut self, at: usize) {
        let shape = self.outline.ordinal_shape(at);
        let ty = self.next_type();
        self.add_denoter(Some(at), false, shape);
        if matches!(shape, Shape::Enumeration) {
            self.add_members(at, ty);
        }
    }

    // The constants of an enumeration, the first of which comes after a token.
    fn add_members(&mut self, parenthesis: usize, ty: Type) {
        let mut value: i64 = 0;
        self.until = self.outline.end_of(parenthesis, Part::Denoter);
        for at in parenthesis..self.until {
            if self.outline.is(at, Kind::Name) {
                self.add_point(self.block, at, PointKind::Member, Some(ty), Some(value));
                value = value.saturating_add(1);
            }
        }
    }
}

impl<'a> Outline<'a> {
    // The shape of the denoter of an ordinal type.
    fn ordinal_shape(&self, at: usize) -> Shape {
        match (self.kind(at), self.kind(at.saturating_add(1))) {
            (Kind::LeftParen, _) => Shape::Enumeration,
            (Kind::Name, Kind::DotDot) => self.range_at(at),
            (Kind::Name, _) => match self.type_named(self.span(at)) {
                Some(ty) => Shape::Same(self.named(ty)),
                None => Shape::Same(None),
            },
            _ => self.range_at(at),
        }
    }

    // The shape of a range.
    fn range_at(&self, at: usize) -> Shape {
        let has_sign = matches!(self.kind(at), Kind::Plus | Kind::Minus);
        let second = at.saturating_add(if has_sign { 3 } else { 2 });
        let (low_type, low) = self.constant_at(at);
        let (high_type, high) = self.constant_at(second);
        Shape::Range {
            host: low_type.or(high_type),
            low,
            high,
        }
    }
}
