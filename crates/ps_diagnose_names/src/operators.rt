//! Operands of a type that their operator cannot take (34).

use crate::context::{Context, Place};
use crate::facts::{BOOLEAN, CHAR, INTEGER, SET, SIMPLE};
use crate::why::{Change, Help, Mark, Why};
use ps_diagnose::RequiredName;
use ps_diagnose_outline::{Form, Part, Type};
use ps_scan::Kind;
use ps_syntax::{AddedTerm, Adding, Factor, Multiplying, Sign, Simple, Term};
use ps_text::Span;

/// The adding operator next to an operand: the one before it unless it is the first; a sign applies to the first.
pub(crate) fn adding_of(simple: &Simple, added: Option<&AddedTerm>) -> Adding {
    match (added, &simple.sign, simple.more.get(0)) {
        (Some(added), _, _) => added.operator,
        (None, Some((Sign::Minus, _)), _) => Adding::Minus,
        (None, None, Some(next)) => next.operator,
        (None, _, _) => Adding::Plus,
    }
}

// An operand that an operator cannot take.
fn takes(operator: &'static str, form: &'static str, text: Span, ty: Type, why: &mut Why) {
    why.form = form;
    why.word = operator;
    why.text = text;
    why.ty = ty;
}

const A_BOOLEAN: &str = "`@w` takes a Boolean, but `@x` is @t";

const AN_INTEGER: &str = "`@w` takes an integer, but `@x` is @t";

const INTEGERS: &str = "`@w` takes integers, but `@x` is @t";

const SETS: &str = "`@w` takes sets here, but `@x` is @t";

impl<'a> Place<'a> {
    /// An operand of `*`, `div`, `mod` or `and`.
    pub(crate) fn wrong_multiplied(
        &self,
        term: &Term,
        factor: &Factor,
        operator: Multiplying,
        why: &mut Why,
    ) -> bool {
        let Some(ty) = self
            .context
            .told(self.context.outline.type_of_factor(factor))
        else {
            return false;
        };
        let text = self.context.factor_span(factor);
        let first = self.context.type_before(term, text);
        if matches!(operator, Multiplying::Times)
            && self.context.no_set(first, "*", text, ty, why)
        {
            return true;
        }
        let (word, form, is_taken) = match operator {
            Multiplying::And => ("and", A_BOOLEAN, self.context.is(ty, BOOLEAN)),
            Multiplying::Div => ("div", AN_INTEGER, self.context.is(ty, INTEGER)),
            Multiplying::Mod => ("mod", AN_INTEGER, self.context.is(ty, INTEGER)),
            Multiplying::Times => ("*", INTEGERS, self.context.is_summed(first, ty)),
        };
        if is_taken {
            return false;
        }
        takes(word, form, text, ty, why);
        why.mark = Mark::Variable(text);
        match operator {
            Multiplying::And => self.with_comparison(term.first.first_token(), text, why),
            _ => why.help = self.context.conversion(Type::Integer, ty, text),
        }
        true
    }

    // How tightly `and` or `or` binds, if there is a comparison before its operands, or after one of them.
    fn with_comparison(&self, first: u32, operand: Span, why: &mut Why) {
        let before = match self.context.outline.token_before(first) {
            Some(before) if is_comparing(before.kind) => before.span,
            _ => return self.context.with_right(first, operand, why),
        };
        why.help = Help::Of(
            "`@w` binds tighter than `@a`: put each comparison in parentheses",
            before,
        );
        if let Some((left, ..)) = self.seen().compared {
            let inner = Span {
                from: self.context.simple_span(left).from,
                to: operand.to,
            };
            why.add_change(Change::With(inner, inner, "(@b)"));
        }
    }

    /// An operand of `+`, `-` or `or`, or of a sign.
    pub(crate) fn wrong_added(
        &self,
        simple: &Simple,
        added: Option<&AddedTerm>,
        why: &mut Why,
    ) -> bool {
        let term = match added {
            Some(added) => &added.term,
            None => &simple.first,
        };
        let Some(ty) = self.context.told(self.context.outline.type_of_term(term)) else {
            return false;
        };
        let text = self.context.term_span(term);
        match adding_of(simple, added) {
            Adding::Or => self.wrong_or(simple, text, ty, why),
            Adding::Plus => self.wrong_plus(simple, added, text, ty, why),
            Adding::Minus => self.context.wrong_sum(simple, "-", text, ty, why),
        }
    }

    fn wrong_or(&self, simple: &Simple, text: Span, ty: Type, why: &mut Why) -> bool {
        if self.context.is(ty, BOOLEAN) {
            return false;
        }
        let first = simple.first_token();
        takes("or", A_BOOLEAN, text, ty, why);
        why.mark = Mark::Declared(text);
        if first == self.context.fault.place.from {
            why.change = Change::EachCompared;
        }

        self.with_comparison(first, text, why);
        true
    }

    fn wrong_plus(
        &self,
        simple: &Simple,
        added: Option<&AddedTerm>,
        text: Span,
        ty: Type,
        why: &mut Why,
    ) -> bool {
        let is_text = self.context.is_string(ty) || self.context.is_beside_text(simple);
        if !is_text || self.context.is(ty, INTEGER | SET) {
            return self.context.wrong_sum(simple, "+", text, ty, why);
        }
        why.form = "`+` cannot take a string";
        if let Some(added) = added.or(simple.more.get(0)) {
            why.mark = Mark::At("this `+`", added.at);
            why.help = Help::Is("strings are not joined: `write(a, b)` writes one after the other");
            if self.is_written() {
                why.change = Change::Commas;
            }
        }
        true
    }

    // Whether the place is in a parameter of `write`, or after a sign in one.
    fn is_written(&self) -> bool {
        if let Some(passed) = self.passed() {
            return self.context.is_writing(passed.routine);
        }
        match self
            .context
            .outline
            .token_before(self.context.fault.place.from)
        {
            Some(first) => matches!(first.kind, Kind::Plus | Kind::Comma | Kind::LeftParen),
            None => false,
        }
    }
}

impl<'a> Context<'a> {
    /// The operand of `not`.
    pub(crate) fn wrong_not(&self, at: Span, factor: &Factor, why: &mut Why) -> bool {
        let text = self.factor_span(factor);
        let ty = match self.told(self.outline.type_of_factor(factor)) {
            Some(ty) if !self.is(ty, BOOLEAN) => ty,
            _ => return false,
        };
        takes("not", A_BOOLEAN, text, ty, why);
        why.mark = Mark::Variable(text);
        match self.token_at(text.to) {
            Some(relation) if is_comparing(relation.kind) => {
                why.change = self.parenthesized(at.from, text, relation.span.to, "not (@b)");
            }
            _ if self.is(ty, INTEGER) => {
                let whole = Span {
                    from: at.from,
                    to: text.to,
                };
                why.help = Help::Of("`@a = 0` is true if it is 0", text);
                why.change = Change::With(whole, text, "(@b = 0)");
            }
            _ => {}
        }
        true
    }

    // Tries parentheses around the comparison that begins with an operand, in a form that replaces everything from an
    // offset on.
    fn parenthesized(&self, from: u32, operand: Span, behind: u32, form: &'static str) -> Change {
        match self.token_at(behind) {
            Some(next) => {
                let to = self.outline.extent(next.span.from, Part::Simple).to;
                let inner = Span {
                    from: operand.from,
                    to,
                };
                Change::With(Span { from, to }, inner, form)
            }
            None => Change::None,
        }
    }

    // Tries parentheses around the comparison that begins with an operand.
    fn with_right(&self, first: u32, operand: Span, why: &mut Why) {
        match (
            self.outline.token_before(operand.from),
            self.token_at(operand.to),
        ) {
            (Some(joint), Some(relation)) if is_comparing(relation.kind) && first < operand.from =>
                {
                    why.third = Span {
                        from: first,
                        to: joint.span.to,
                    };
                    why.add_change(self.parenthesized(first, operand, relation.span.to, "@z (@b)"));
                    why.help = Help::Of("`@w` binds tighter than `@a`", relation.span);
                }
            _ => {
                why.help = Help::Is("a comparison is Boolean, as `(.. = ..)`");
            }
        }
    }

    // A member of a set, or a set of another type, that is combined with a set.
    fn no_set(
        &self,
        first: Option<Type>,
        operator: &'static str,
        text: Span,
        ty: Type,
        why: &mut Why,
    ) -> bool {
        if !matches!(self.outline.form_of(first), Some(Form::Set(_)))
            || !self.is(ty, SIMPLE | SET)
        {
            return false;
        }
        takes(operator, SETS, text, ty, why);
        why.mark = Mark::Variable(text);
        if self.is(ty, SIMPLE) {
            why.change = Change::For(text, "[@a]");
        } else {
            why.form = match (self.is_packed_set(first), self.is_packed_set(Some(ty))) {
                (Some(false), Some(true)) => {
                    "`@w` takes sets that are not packed here, but `@x` is packed"
                }
                (Some(true), Some(false)) => "`@w` takes packed sets here, but `@x` is not packed",
                (None, Some(_)) => "`@w` takes sets of one type, but `@x` is of another",
                _ => "`@w` takes sets with members of one type, but those of `@x` are of another",
            };
        }
        true
    }

    // The type of the first operand of a term, for one of the others.
    fn type_before(&self, term: &Term, operand: Span) -> Option<Type> {
        if operand.from == term.first.first_token() {
            None
        } else {
            self.outline.type_of_factor(&term.first)
        }
    }

    // Whether a set type is packed, unless it is that of a set constructor.
    fn is_packed_set(&self, ty: Option<Type>) -> Option<bool> {
        match self.outline.named(ty?)? {
            Type::Told(number) => {
                let denoter = self.outline.denoter(number)?;
                Some(denoter.is_packed)
            }
            _ => None,
        }
    }

    // Whether an operand can be one of `+`, `-` or `*`, by the type of the first operand if it isn't the first.
    fn is_summed(&self, first: Option<Type>, ty: Type) -> bool {
        let is_after_number = matches!(self.outline.form_of(first), Some(Form::Integer));
        self.is(ty, INTEGER) || self.is(ty, SET) && !is_after_number
    }

    fn wrong_sum(
        &self,
        simple: &Simple,
        operator: &'static str,
        text: Span,
        ty: Type,
        why: &mut Why,
    ) -> bool {
        let is_first = text.from == simple.first.first_token();
        let first = if is_first {
            None
        } else {
            self.outline.type_of_term(&simple.first)
        };
        if self.no_set(first, operator, text, ty, why) {
            return true;
        }
        let is_signed = is_first && simple.sign.is_some();
        if self.is_summed(first, ty) && !(is_signed && self.is(ty, SET)) {
            return false;
        }
        takes(operator, INTEGERS, text, ty, why);
        why.mark = Mark::Declared(text);
        why.help = self.conversion(Type::Integer, ty, text);
        self.with_neighbour(simple, operator, text, ty, why);
        true
    }

    // Tries the next or the previous character if 1 is added to one or subtracted from it.
    fn with_neighbour(
        &self,
        simple: &Simple,
        operator: &'static str,
        text: Span,
        ty: Type,
        why: &mut Why,
    ) {
        let whole = self.simple_span(simple);
        let Some(added) = simple.more.get(0) else {
            return;
        };
        let is_one = matches!(self.outline.bytes(self.term_span(&added.term)), b"1");
        if self.is(ty, CHAR) && is_one && text.from == whole.from && simple.more.len() == 1 {
            let form = if operator == "+" {
                "succ(@b)"
            } else {
                "pred(@b)"
            };
            why.change = Change::With(whole, text, form);
        }
    }

    // Whether a string is among the operands.
    fn is_beside_text(&self, simple: &Simple) -> bool {
        for added in simple.more.as_slice() {
            if matches!(
                self.outline.form_of(self.outline.type_of_term(&added.term)),
                Some(Form::Text(_))
            ) {
                return true;
            }
        }
        false
    }

    /// Whether a name denotes `write` or `writeln`.
    pub(crate) fn is_writing(&self, name: Span) -> bool {
        matches!(
            self.required(name),
            Some(RequiredName::Write | RequiredName::Writeln)
        )
    }
}

// Whether a token compares.
fn is_comparing(kind: Kind) -> bool {
    matches!(
        kind,
        Kind::Equal
            | Kind::NotEqual
            | Kind::Less
            | Kind::Greater
            | Kind::LessEqual
            | Kind::GreaterEqual
            | Kind::In
    )
}
