//! Ranges, sets and `case` constants (36, 37, 38).

use crate::context::{Context, Place};
use crate::declared::behind_sign;
use crate::why::{Change, Help, Mark, Why};
use crate::wrong_type::constant_span;
use ps_diagnose_outline::Type;
use ps_syntax::{Constant, Element, Ordinal};
use ps_text::Span;

impl<'a> Place<'a> {
    /// A range that goes down.
    pub(crate) fn bad_subrange(&self, why: &mut Why) -> bool {
        let Some((low, high)) = self.seen().range else {
            return false;
        };
        let first = constant_span(low);
        let last = constant_span(high);
        let whole = Span {
            from: first.from,
            to: last.to,
        };
        why.text = whole;
        why.other = first;
        why.third = last;
        why.mark = Mark::Declared(first);
        why.next_mark = Mark::Declared(last);
        why.change = Change::For(whole, "@z..@y");
        let (number, further) = (self.context.integer_of(low), self.context.integer_of(high));
        why.number = number.unwrap_or(0);
        why.further = further.unwrap_or(0);
        why.form = match (number.is_some(), further.is_some()) {
            (true, true) => "the range `@x` goes down: @n is above @m",
            (true, false) => "the range `@x` goes down: @n is above `@z`",
            (false, true) => "the range `@x` goes down: `@y` is above @m",
            (false, false) => "the range `@x` goes down: `@y` is above `@z`",
        };
        true
    }

    /// A set of values that no set holds.
    pub(crate) fn set_base(&self, why: &mut Why) -> bool {
        let Some(base) = self.seen().set_base else {
            return false;
        };
        let text = match base {
            Ordinal::Name(name) => {
                why.change = Change::For(*name, "0..255");
                *name
            }
            Ordinal::Enumeration(at, _) => *at,
            Ordinal::Subrange(low, high) => {
                let bounds = (
                    self.context.outline.constant(*low).1,
                    self.context.outline.constant(*high).1,
                );
                if let (Some(least), Some(greatest)) = bounds {
                    why.number = least;
                    why.further = greatest.saturating_sub(least);
                    why.help = Help::Is(if why.further > 255 {
                        "an array of Boolean holds more members than a set"
                    } else {
                        "keep the distances from @n: a set of 0..@m"
                    });
                }
                Span {
                    from: low.first_token(),
                    to: constant_span(*high).to,
                }
            }
        };
        why.form = "a set's members have ordinals from 0 to 255, but those of @x have others";
        why.text = text;
        why.mark = Mark::Declared(text);
        true
    }

    /// A constant that occurs twice in a `case`.
    pub(crate) fn case_twice(&self, why: &mut Why) -> bool {
        let Some((constant, elements)) = self.seen().case_constant else {
            return false;
        };
        let Some(first) = self.context.same_constant(constant, elements) else {
            return false;
        };
        let text = constant_span(constant);
        let before = constant_span(first);
        let bytes = self.context.outline.bytes(before);
        why.form = if bytes.eq_ignore_ascii_case(self.context.outline.bytes(text)) {
            "`@x` appears twice in this `case`"
        } else {
            "`@x` is the same constant as `@y` in this `case`"
        };
        why.text = text;
        why.other = before;
        why.mark = Mark::At("the first one is here", before);
        true
    }
}

impl<'a> Context<'a> {
    // The value of a bound that is an integer.
    fn integer_of(&self, bound: Constant) -> Option<i64> {
        match self.outline.constant(bound) {
            (Some(Type::Integer), value) => value,
            _ => None,
        }
    }

    // The first constant of a `case` before one that has its value.
    fn same_constant(&self, constant: Constant, elements: &[Element]) -> Option<Constant> {
        let (_, Some(value)) = self.outline.constant(constant) else {
            return None;
        };
        for element in elements {
            for other in element.constants.as_slice() {
                if behind_sign(*other) < behind_sign(constant)
                    && self.outline.constant(*other).1 == Some(value)
                {
                    return Some(*other);
                }
            }
        }
        None
    }
}
