//! Values that cannot be assigned (35).

use crate::context::{Context, Place};
use crate::facts::{ARRAY, BOOLEAN, CHAR, INTEGER, SET, is_text, variable_in};
use crate::spot::Passed;
use crate::why::{Change, Help, Mark, Why};
use ps_diagnose_outline::{Form, Point, Type};
use ps_scan::Token;
use ps_syntax::{Expr, Variable};
use ps_text::Span;

// What is reported if there is a comment instead of an index.
const COMMENTED: &str =
    "anything between `{` and `}` is a comment; an index is written between `[` and `]`";

// The longest string that is filled with spaces.
const LONGEST: u32 = 100;

impl<'a> Place<'a> {
    /// A value that cannot be assigned.
    pub(crate) fn not_assignable(&self, why: &mut Why) -> bool {
        match (self.seen().assignment, self.passed()) {
            (Some((variable, value)), _) => self.context.wrong_assignment(variable, value, why),
            (None, Some(passed)) => self.context.wrong_passing(passed, why),
            (None, None) => false,
        }
    }
}

impl<'a> Context<'a> {
    fn wrong_assignment(&self, variable: &Variable, value: &Expr, why: &mut Why) -> bool {
        let wanted = self.told(self.outline.type_of_variable(variable));
        match (wanted, self.told_expr(value)) {
            (Some(wanted), Some(given)) => {
                let target = Target {
                    name: variable.name,
                    text: self.variable_span(variable),
                    wanted,
                    given,
                };
                self.unassignable(target, value, why);
                true
            }
            (None, Some(given)) => self.wrong_row(variable, given, why),
            _ => self.row_given(value, why),
        }
    }

    // A value for a part of an array that has a further index.
    fn wrong_row(&self, variable: &Variable, given: Type, why: &mut Why) -> bool {
        if !self.is_row(variable, why) {
            return false;
        }
        why.form = "@t is not assignable to `@x`, which is an array itself";
        why.ty = given;
        true
    }

    // Such a part as a value.
    fn row_given(&self, value: &Expr, why: &mut Why) -> bool {
        match variable_in(value) {
            Some(variable) => self.is_row(variable, why),
            None => false,
        }
    }

    /// A part of an array that has a further index.
    pub(crate) fn is_row(&self, variable: &Variable, why: &mut Why) -> bool {
        let ty = self.outline.type_of_variable(variable);
        let is_array = matches!(self.outline.form_of(ty), Some(Form::Array { .. }));
        if !is_array || self.told(ty).is_some() {
            return false;
        }
        why.form = "`@x` is an array itself";
        why.text = self.variable_span(variable);
        why.mark = Mark::Declared(variable.name);
        why.help = Help::Of("a component has a further index: `@a[..]`", why.text);
        true
    }

    fn unassignable(&self, target: Target, value: &Expr, why: &mut Why) {
        if self.wrong_string(target, value, why) || self.own_types(target, value, why) {
            return;
        }
        let text = self.expr_span(value);
        why.form = "@t is not assignable to `@y`, @u";
        why.ty = target.given;
        why.other = target.text;
        why.second = target.wanted;
        why.mark = Mark::Declared(target.name);
        why.change = self.value_change(target.wanted, target.given, text);
        why.help = self.value_help(target.wanted, target.given, text);
        self.with_structure(target, value, why);
    }

    // Strings of two lengths, or one for a character.
    fn wrong_string(&self, target: Target, value: &Expr, why: &mut Why) -> bool {
        let wanted = self.outline.string_length(target.wanted);
        let Some(length) = self.outline.string_length(target.given) else {
            return false;
        };
        match wanted {
            Some(other) if length != other => {
                why.form = "a string of @N characters is not assignable to `@y`, which has @M";
                why.further = i64::from(other);
                why.change = self.filled(self.expr_span(value), length, other);
                if length > other {
                    why.help = Help::Is("`@y` takes it as a packed array [1..@N] of char");
                }
            }
            _ if self.is(target.wanted, CHAR) => {
                why.form = "a string of @N characters is not assignable to `@y`, a char";
                why.help = Help::Is(
                    "a char is one character; a string is a packed array [1..@N] of char",
                );
            }
            _ => return false,
        }
        why.other = target.text;
        why.number = i64::from(length);
        why.mark = Mark::Declared(target.name);
        true
    }

    /// A string that is filled with spaces up to a length.
    pub(crate) fn filled(&self, text: Span, length: u32, wanted: u32) -> Change {
        match self.outline.bytes(text) {
            [b'\'', .., b'\''] if length < wanted && wanted <= LONGEST => {
                Change::Filled(text, wanted.saturating_sub(length))
            }
            _ => Change::None,
        }
    }

    // Two variables whose types are of one form, each by itself.
    fn own_types(&self, target: Target, value: &Expr, why: &mut Why) -> bool {
        let Some(variable) = variable_in(value) else {
            return false;
        };
        if !self.is_one_form(target.wanted, target.given) {
            return false;
        }
        let (Some(place), Some(own)) = (
            self.denoter_token(target.given),
            self.denoter_token(target.wanted),
        ) else {
            return false;
        };
        let text = self.variable_span(variable);
        why.form =
            "`@x` is not assignable to `@y`: each has its own type, though the two look alike";
        why.text = text;
        why.other = target.text;
        why.mark = Mark::TypeOf(place.span, text);
        why.next_mark = Mark::TypeOf(own.span, target.text);
        why.help = Help::Is("declare both in one list, `a, b: ..`, or with the name of one type");
        true
    }

    // Whether two types are arrays or records of one form.
    fn is_one_form(&self, a: Type, b: Type) -> bool {
        match (self.outline.form(a), self.outline.form(b)) {
            (
                Some(
                    Form::Array {
                        index: Some(first_index),
                        component: Some(first),
                        ..
                    },
                ),
                Some(
                    Form::Array {
                        index: Some(second_index),
                        component: Some(second),
                        ..
                    },
                ),
            ) => {
                self.is_one_simple(first_index, second_index)
                    && self.outline.bounds(first_index) == self.outline.bounds(second_index)
                    && self.is_one_simple(first, second)
            }
            (Some(Form::Record(first)), Some(Form::Record(second))) => {
                self.are_like_fields(first, second)
            }
            (Some(Form::Pointer(Some(first))), Some(Form::Pointer(Some(second)))) => {
                self.is_one_type(first, second)
            }
            _ => false,
        }
    }

    // Whether two records have as many fields, of the same names and simple types.
    fn are_like_fields(&self, first: u32, second: u32) -> bool {
        let own = self.outline.points_of(first);
        let others = self.outline.points_of(second);
        if own.len() != others.len() {
            return false;
        }
        for (one, other) in own.iter().zip(others.iter()) {
            if !self.are_like(*one, *other) {
                return false;
            }
        }
        true
    }

    fn are_like(&self, one: u32, other: u32) -> bool {
        match (self.outline.point(one), self.outline.point(other)) {
            (Some(one), Some(other)) => match (one.ty, other.ty) {
                (Some(ty), Some(like)) => {
                    one.spelling == other.spelling && self.is_one_simple(ty, like)
                }
                _ => false,
            },
            _ => false,
        }
    }

    /// The first token of a type's denoter.
    pub(crate) fn denoter_token(&self, ty: Type) -> Option<Token> {
        match self.outline.denoter_at(ty) {
            Some(from) => self.token_at(from),
            None => None,
        }
    }

    // What makes a value one of another type.
    fn value_change(&self, wanted: Type, given: Type, text: Span) -> Change {
        let change = self.literal_change(wanted, given, text);
        if !matches!(change, Change::None) {
            return change;
        }
        match (self.outline.form(wanted), self.outline.form(given)) {
            (Some(Form::Boolean), Some(Form::Integer)) => match self.outline.bytes(text) {
                b"1" => Change::For(text, "true"),
                b"0" => Change::For(text, "false"),
                _ => Change::Behind(text, " ", "<> 0"),
            },
            (
                Some(Form::Integer),
                Some(Form::Integer | Form::Boolean | Form::Char | Form::Enumeration(_)),
            ) => Change::For(text, "ord(@a)"),
            (Some(Form::Char), Some(Form::Integer)) => Change::For(text, "chr(@a)"),
            (Some(Form::Boolean), Some(Form::Text(_) | Form::Array { .. })) => {
                match self.outline.bytes(text) {
                    bytes if bytes.eq_ignore_ascii_case(b"'true'") => Change::For(text, "true"),
                    bytes if bytes.eq_ignore_ascii_case(b"'false'") => Change::For(text, "false"),
                    _ => Change::None,
                }
            }
            (Some(Form::Pointer(_)), _) if matches!(self.outline.bytes(text), b"0") => {
                Change::For(text, "nil")
            }
            (Some(Form::Pointer(_)), _) => Change::None,
            (_, Some(Form::Pointer(_))) => Change::Behind(text, "", "^"),
            (
                Some(Form::Set(_)),
                Some(Form::Integer | Form::Boolean | Form::Char | Form::Enumeration(_)),
            ) => Change::For(text, "[@a]"),
            _ => Change::None,
        }
    }

    // How a value can be converted to another type, if that isn't shown by a change alone.
    fn value_help(&self, wanted: Type, given: Type, text: Span) -> Help {
        let is_told = self.is(wanted, BOOLEAN)
            && (self.is(given, INTEGER) || self.is_string(given));
        if is_told && matches!(self.literal_change(wanted, given, text), Change::None) {
            return Help::None;
        }
        self.conversion(wanted, given, text)
    }

    // What is done with arrays, records and pointers instead of an assignment.
    fn with_structure(&self, target: Target, value: &Expr, why: &mut Why) {
        match self.outline.form(target.wanted) {
            Some(Form::Array { index, .. }) => {
                let gap = Span {
                    from: target.text.to,
                    to: self.fault.place.from,
                };
                if self.outline.bytes(gap).contains(&b'{') {
                    why.add_help(Help::Is(COMMENTED));
                } else if is_text(value) {
                    self.with_packed(target.wanted, why);
                } else if self.is(target.given, SET) {
                    why.add_help(Help::Is("assign its components one by one"));
                } else {
                    self.with_components(index, self.expr_span(value), why);
                }
            }
            Some(Form::Record(region)) => {
                why.add_help(self.field_help(
                    "assign a value to a field, as `@a.@b := ..`",
                    target.text,
                    region,
                ));
            }
            Some(Form::Pointer(_)) => {
                why.add_help(Help::Is("what it points to is `@y^`, made by `new(@y)`"));
                why.add_change(match self.without_caret(self.expr_span(value)) {
                    Change::None => Change::Behind(target.text, "", "^"),
                    change => change,
                });
            }
            Some(Form::Enumeration(denoter)) => why.add_help(self.values_of(denoter)),
            _ => {}
        }
    }

    // A string for an array that is not a string type.
    fn with_packed(&self, wanted: Type, why: &mut Why) {
        why.add_help(Help::Is("a string type is a packed array [1..n] of char"));
        let Some(place) = self.denoter_token(wanted) else {
            return;
        };
        if self
            .outline
            .bytes(place.span)
            .eq_ignore_ascii_case(b"array")
        {
            why.add_change(Change::Before(place.span, " ", "packed"));
        }
    }

    // A loop that assigns to each component.
    fn with_components(&self, index: Option<Type>, value: Span, why: &mut Why) {
        let bounds = match index {
            Some(index) => self.outline.bounds(index),
            None => None,
        };
        match bounds {
            Some((low, high)) => {
                why.add_help(Help::Of(
                    "assign its components one by one: for i := @n to @m do @y[i] := @a",
                    value,
                ));
                why.number = low;
                why.further = high;
            }
            None => {
                why.add_help(Help::Is("assign its components one by one, in a loop"));
            }
        }
    }

    // A value that cannot be passed.
    fn wrong_passing(&self, passed: Passed<'_>, why: &mut Why) -> bool {
        let Some(formal) = self.formal_of(passed) else {
            return false;
        };
        let (Some(wanted), Some(given)) = (self.told(formal.ty), self.told_expr(passed.value))
        else {
            return self.row_given(passed.value, why);
        };
        if self.own_types_passed(passed, formal, why) {
            return true;
        }
        let text = self.expr_span(passed.value);
        why.form = "@t cannot be passed as `@y` of `@z`, @u";
        why.ty = given;
        why.other = formal.name;
        why.third = passed.routine;
        why.second = wanted;
        why.mark = Mark::Here(formal.name);
        why.change = self.value_change(wanted, given, text);
        why.help = self.value_help(wanted, given, text);
        if self.is(given, SET) && self.is(wanted, ARRAY) {
            why.help = Help::Is("assign its components one by one, before it is passed");
        }
        true
    }

    // A variable whose type is of the parameter's form, each by itself.
    fn own_types_passed(&self, passed: Passed<'_>, formal: Point, why: &mut Why) -> bool {
        let (Some(wanted), Some(given), Some(variable)) = (
            formal.ty,
            self.outline.type_of(passed.value),
            variable_in(passed.value),
        ) else {
            return false;
        };
        if !self.is_one_form(wanted, given) || !self.is_told(given) {
            return false;
        }
        let text = self.variable_span(variable);
        why.form =
            "`@x` cannot be passed as `@y` of `@z`: each has its own type, though the two look alike";
        why.text = text;
        why.other = formal.name;
        why.third = passed.routine;
        why.mark = match self.denoter_token(given) {
            Some(place) => Mark::TypeOf(place.span, text),
            None => Mark::None,
        };
        why.next_mark = Mark::Here(formal.name);
        why.help = Help::Is("declare both with the name of one type");
        true
    }
}

// What is assigned to: its name, the whole variable, its type, and that of the value.
#[derive(Clone, Copy)]
struct Target {
    name: Span,
    text: Span,
    wanted: Type,
    given: Type,
}
