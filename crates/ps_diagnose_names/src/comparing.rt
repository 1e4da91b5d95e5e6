//! Operands that cannot be compared (34).

use crate::context::Context;
use crate::facts::{BOOLEAN, SET, SIMPLE, factor_in_simple, relation_word};
use crate::why::{Change, Help, Mark, Why};
use ps_diagnose::RequiredName;
use ps_diagnose_outline::{Form, Type};
use ps_syntax::{Factor, Relational, Simple};
use ps_text::Span;

impl<'a> Context<'a> {
    /// Two operands that cannot be compared.
    pub(crate) fn wrong_compare(
        &self,
        left: &Simple,
        relation: Relational,
        right: &Simple,
        why: &mut Why,
    ) -> bool {
        let (Some(first), Some(second)) = (
            self.told(self.outline.type_of_simple(left)),
            self.told(self.outline.type_of_simple(right)),
        ) else {
            return false;
        };
        let pair = Pair {
            relation,
            first,
            second,
            left: self.simple_span(left),
            right: self.simple_span(right),
        };
        if matches!(relation, Relational::In) {
            return self.wrong_in(pair, right, why);
        }
        self.strings_compared(pair, why)
            || self.pointed_compared(pair, why)
            || self.structure_compared(relation, pair.left, first, why)
            || self.structure_compared(relation, pair.right, second, why)
            || self.order_compared(pair, why)
            || self.two_types_compared(pair, why)
    }

    // `in` without a set after it, or without a member before it.
    fn wrong_in(&self, pair: Pair, right: &Simple, why: &mut Why) -> bool {
        if !self.is(pair.second, SET) {
            why.form = "`in` needs a set after it, but `@x` is @t";
            why.text = pair.right;
            why.ty = pair.second;
            why.mark = Mark::Declared(pair.right);
            if self.is(pair.second, SIMPLE) {
                why.change = Change::For(pair.right, "[@a]");
            } else if self.is_string(pair.second) {
                why.help = Help::Is("a set of characters is written as ['a', 'b']");
            }
            return true;
        }
        let member = self.told(self.member_of(right, pair.second));
        let Some((member, given)) = self.unlike(member, Some(pair.first)) else {
            return false;
        };
        self.no_member(member, pair.left, given, why);
        why.mark = Mark::Declared(pair.left);
        true
    }

    // The type of a member of a set.
    fn member_of(&self, set: &Simple, ty: Type) -> Option<Type> {
        match factor_in_simple(set) {
            Some(Factor::Set(_, members)) => self.type_of_first(members.as_slice()),
            _ => match self.outline.form(ty) {
                Some(Form::Set(base)) => base,
                _ => None,
            },
        }
    }

    // Strings of two lengths.
    fn strings_compared(&self, pair: Pair, why: &mut Why) -> bool {
        let (Some(one), Some(other)) = (
            self.outline.string_length(pair.first),
            self.outline.string_length(pair.second),
        ) else {
            return false;
        };
        if one == other {
            return false;
        }
        why.form = "`@w` compares strings of the same length, but these have @N and @M characters";
        why.word = relation_word(pair.relation);
        why.number = i64::from(one);
        why.further = i64::from(other);
        why.mark = Mark::Declared(pair.left);
        why.next_mark = Mark::Declared(pair.right);
        why.change = self.filled(pair.right, other, one);
        why.next_change = self.filled(pair.left, one, other);
        true
    }

    // What a pointer points to, beside `nil`.
    fn pointed_compared(&self, pair: Pair, why: &mut Why) -> bool {
        let change = self.without_caret(pair.left);
        let is_nil = matches!(self.outline.form(pair.second), Some(Form::Nil));
        if !is_nil || matches!(change, Change::None) {
            return false;
        }
        why.form = "`@x` is what a pointer points to, and `nil` is a pointer";
        why.text = pair.left;
        why.mark = Mark::Declared(pair.left);
        why.change = change;
        true
    }

    /// Tries a pointer instead of what it points to.
    pub(crate) fn without_caret(&self, text: Span) -> Change {
        if !self.outline.bytes(text).ends_with(b"^") {
            return Change::None;
        }
        Change::Without(Span {
            from: text.to.saturating_sub(1),
            to: text.to,
        })
    }

    // An array or a record.
    fn structure_compared(
        &self,
        relation: Relational,
        text: Span,
        ty: Type,
        why: &mut Why,
    ) -> bool {
        let help = match self.outline.form(ty) {
            Some(Form::Array { .. }) if !self.is_string(ty) => {
                "compare its components one by one, in a loop"
            }
            Some(Form::Record(_)) => "compare its fields one by one",
            _ => return false,
        };
        why.form = "`@w` cannot compare `@x`, @t";
        why.word = relation_word(relation);
        why.text = text;
        why.ty = ty;
        why.mark = Mark::Declared(text);
        why.help = Help::Is(help);
        true
    }

    // Pointers and sets by an order that they don't have.
    fn order_compared(&self, pair: Pair, why: &mut Why) -> bool {
        let form = match (self.outline.form(pair.first), pair.relation) {
            (Some(Form::Pointer(_) | Form::Nil), relation) if !is_equality(relation) => {
                "`@w` cannot compare pointers: `=` and `<>` can"
            }
            (Some(Form::Set(_)), Relational::Less | Relational::Greater)
                if self.is(pair.second, SET) => {
                "`@w` cannot compare sets: `=`, `<>`, `<=` and `>=` can"
            }
            _ => return false,
        };
        why.form = form;
        why.word = relation_word(pair.relation);
        why.mark = Mark::Declared(pair.left);
        true
    }

    // Values of two types.
    fn two_types_compared(&self, pair: Pair, why: &mut Why) -> bool {
        if self.is_one_simple(pair.first, pair.second) {
            return false;
        }
        let change = self.pair_change(pair);
        let is_helped = matches!(change, Change::None) && !self.is_truth(pair);
        why.form = "`@w` compares values of the same type, but `@x` is @t, `@y` @u";
        why.word = relation_word(pair.relation);
        why.text = pair.left;
        why.other = pair.right;
        why.ty = pair.first;
        why.second = pair.second;
        why.mark = Mark::Declared(pair.left);
        why.next_mark = Mark::Declared(pair.right);
        why.change = change;
        if is_helped {
            why.help = self.conversion(pair.first, pair.second, pair.right);
            why.next_help = self.conversion(pair.second, pair.first, pair.left);
        }
        let is_member = self.is(pair.second, SET) && !self.is(pair.first, SET);
        if is_member && matches!(pair.relation, Relational::Equal) {
            why.help = Help::Is("to ask whether a value is in a set, use `in`");
            if let Some(sign) = self.outline.token_before(pair.right.from) {
                why.change = Change::For(sign.span, "in");
            }
        }
        if let Some(RequiredName::Eof | RequiredName::Eoln) = self.required(pair.right) {
            why.help = Help::Of("`@a` is a condition by itself, as in `not @a`", pair.right);
        }
        true
    }

    // Whether a Boolean is compared by `=` or `<>`.
    fn is_truth(&self, pair: Pair) -> bool {
        self.is(pair.first, BOOLEAN) && is_equality(pair.relation)
    }

    // What makes both sides of one type.
    fn pair_change(&self, pair: Pair) -> Change {
        match self.literal_change(pair.first, pair.second, pair.right) {
            Change::None => match self.literal_change(pair.second, pair.first, pair.left) {
                Change::None => self.truth_change(pair),
                change => change,
            },
            change => change,
        }
    }

    // Tries a Boolean alone where it is compared with 1 or 0.
    fn truth_change(&self, pair: Pair) -> Change {
        if !self.is_truth(pair) {
            return Change::None;
        }
        let is_one = match self.outline.bytes(pair.right) {
            b"1" => true,
            b"0" => false,
            _ => return Change::None,
        };
        let whole = Span {
            from: pair.left.from,
            to: pair.right.to,
        };
        if is_one == matches!(pair.relation, Relational::Equal) {
            Change::For(whole, "@x")
        } else {
            Change::For(whole, "not @x")
        }
    }
}

/// Two operands of a relation, with what is known of them.
#[derive(Clone, Copy)]
pub(crate) struct Pair {
    relation: Relational,
    first: Type,
    second: Type,
    left: Span,
    right: Span,
}

// Whether a relation asks for equality alone.
fn is_equality(relation: Relational) -> bool {
    matches!(relation, Relational::Equal | Relational::NotEqual)
}
