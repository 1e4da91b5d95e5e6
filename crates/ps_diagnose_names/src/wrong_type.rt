//! Values of a type that their place doesn't allow (34), except at operators.

use crate::context::{Context, Place};
use crate::facts::{BOOLEAN, CHAR, INTEGER, SIMPLE};
use crate::selected::no_content;
use crate::spot::{Passed, Role, Spot};
use crate::why::{Change, Help, Mark, Why};
use ps_diagnose::RequiredName;
use ps_diagnose_outline::{Form, Type};
use ps_syntax::{Constant, Expr, Member, Ordinal, Variable};
use ps_text::Span;

impl<'a> Place<'a> {
    /// A value of a type that its place doesn't allow.
    pub(crate) fn wrong_type(&self, why: &mut Why) -> bool {
        for spot in self.spots.iter().rev() {
            if self.wrong_type_at(*spot, why) {
                return true;
            }
        }
        false
    }

    // One construct.
    fn wrong_type_at(&self, spot: Spot<'_>, why: &mut Why) -> bool {
        match spot {
            Spot::Named(variable) => {
                self.context.wrong_selector(variable, why) || self.context.is_row(variable, why)
            }
            Spot::Expression(role, value) => self.context.wrong_in_role(role, value, why),
            Spot::Not(at, factor) => self.context.wrong_not(at, factor, why),
            Spot::Added(simple, added) => self.wrong_added(simple, added, why),
            Spot::Multiplied(term, factor, operator) => {
                self.wrong_multiplied(term, factor, operator, why)
            }
            Spot::Compare(left, relation, right) => self
                .context
                .wrong_compare(left, relation, right, why),
            _ => self.context.wrong_type_elsewhere(spot, why),
        }
    }
}

impl<'a> Context<'a> {
    // One further construct.
    fn wrong_type_elsewhere(&self, spot: Spot<'_>, why: &mut Why) -> bool {
        match spot {
            Spot::CaseConstant(constant, index, _) => self.wrong_case_constant(
                constant, index, why,
            ),
            Spot::Control(name) => self.wrong_control(name, why),
            Spot::Opened(variable) => self.wrong_opened(variable, why),
            Spot::Result(function, name) => self.wrong_result(function, name, why),
            Spot::IndexType(Ordinal::Name(_)) => {
                why.form = "the index of an array has a type like 1..10, and `@p` is not one";
                why.mark = Mark::Declared(self.fault.place);
                true
            }
            Spot::SetType(Ordinal::Name(_)) => {
                why.form = "the members of a set are of a simple type, and `@p` is not one";
                why.mark = Mark::Declared(self.fault.place);
                true
            }
            Spot::Range(low, high) => {
                self.wrong_range(low, high, why)
                    || self.wrong_sign(low, why)
                    || self.wrong_sign(high, why)
            }
            Spot::Definition(_, value) => self.wrong_sign(value, why),
            _ => false,
        }
    }

    // An expression.
    fn wrong_in_role(&self, role: Role<'_>, value: &Expr, why: &mut Why) -> bool {
        match role {
            Role::Condition => self.wrong_condition(value, why),
            Role::CaseIndex => self.not_wanted(
                value,
                SIMPLE,
                "a `case` takes a value of a simple type, but `@x` is @t",
                Help::Is("compare by `if .. then .. else if .. then ..`"),
                why,
            ),
            Role::Bound(control) => self.wrong_bound(control, value, why),
            Role::Parameter(routine, number) => {
                let passed = Passed {
                    routine,
                    number,
                    value,
                };
                self.wrong_passed(passed, why)
            }
            Role::Width(procedure) => self.wrong_width(procedure, value, why),
            Role::Index(variable, before, number) => {
                self.wrong_index(variable, before, number, value, why)
            }
            Role::Member(all) => self.wrong_member(all, value, why),
        }
    }

    // A condition.
    fn wrong_condition(&self, value: &Expr, why: &mut Why) -> bool {
        let is_wrong = self.not_wanted(
            value,
            BOOLEAN,
            "a condition is Boolean, but `@x` is @t",
            Help::Is("a comparison is Boolean, as `.. = ..`"),
            why,
        );
        if is_wrong && self.is(why.ty, INTEGER) {
            why.change = Change::Behind(why.text, " ", "<> 0");
            why.help = Help::None;
        }
        is_wrong
    }

    /// Two types that can be put into words and don't have the same simple form.
    pub(crate) fn unlike(&self, first: Option<Type>, second: Option<Type>) -> Option<(Type, Type)> {
        match (first, second) {
            (Some(first), Some(second)) if !self.is_one_simple(first, second) => {
                Some((first, second))
            }
            _ => None,
        }
    }

    /// How a value is made one of another type, if that is usual.
    pub(crate) fn conversion(&self, wanted: Type, given: Type, text: Span) -> Help {
        match (self.outline.form(wanted), self.outline.form(given)) {
            (Some(Form::Integer), Some(Form::Char)) => {
                Help::Of("`ord(@a)` is the number of a character", text)
            }
            (Some(Form::Char), Some(Form::Integer)) => {
                Help::Of("`chr(@a)` is the character of a number", text)
            }
            (Some(Form::Integer), Some(Form::Boolean | Form::Enumeration(_))) => {
                Help::Of("`ord(@a)` is the number of a value", text)
            }
            (_, Some(Form::Array { .. })) => { Help::Of("`@a[..]` is one of its components", text) }
            (_, Some(Form::Pointer(_))) => Help::Of("`@a^` is what it points to", text),
            (_, Some(Form::Record(region))) => {
                self.field_help("`@a.@b` is one of its fields", text, region)
            }
            _ => Help::None,
        }
    }

    /// A help that names a field of a record, the first one.
    pub(crate) fn field_help(&self, form: &'static str, text: Span, region: u32) -> Help {
        match self.outline.point_at(region, 0) {
            Some(field) => Help::Both(form, text, field.name),
            None => Help::None,
        }
    }

    // A member of a set of another type than the first.
    fn wrong_member(&self, all: &[Member], value: &Expr, why: &mut Why) -> bool {
        let text = self.expr_span(value);
        match (self.type_of_first(all), self.told_expr(value)) {
            (Some(_), Some(ty)) if !self.is(ty, SIMPLE) => {
                why.form = "a member of a set is of a simple type, but `@x` is @t";
                why.text = text;
                why.ty = ty;
                why.mark = Mark::Variable(text);
                if self.is_string(ty) {
                    why.help = Help::Is("compare strings with `=`, one by one, joined by `or`");
                }
                true
            }
            (Some(first), Some(ty)) if !self.is_one_simple(first, ty) => {
                self.no_member(first, text, ty, why);
                true
            }
            _ => false,
        }
    }

    /// The type of the first member of a set, if it can be put into words.
    pub(crate) fn type_of_first(&self, members: &[Member]) -> Option<Type> {
        match members.first() {
            Some(Member::One(first) | Member::Range(first, _)) => self.told_expr(first.get()),
            None => None,
        }
    }

    /// A value that is not a possible member of a set.
    pub(crate) fn no_member(&self, member: Type, text: Span, ty: Type, why: &mut Why) {
        why.form = "a member of this set is @u, but `@x` is @t";
        why.text = text;
        why.ty = ty;
        why.second = member;
        why.help = self.conversion(member, ty, text);
    }

    // A width.
    fn wrong_width(&self, name: Span, value: &Expr, why: &mut Why) -> bool {
        match self.required(name) {
            Some(RequiredName::Write | RequiredName::Writeln) => self.not_wanted(
                value,
                INTEGER,
                "a width is an integer, but `@x` is @t",
                Help::None,
                why,
            ),
            _ => {
                why.form = "only `write` and `writeln` take a width";
                why.help = Help::Is("parameters are given by their order, without names");
                true
            }
        }
    }

    // A value that is not of one of the types that are wanted.
    fn not_wanted(
        &self,
        value: &Expr,
        wanted: u32,
        form: &'static str,
        help: Help,
        why: &mut Why,
    ) -> bool {
        let Some(ty) = self.told_expr(value) else {
            return false;
        };
        if self.is(ty, wanted) {
            return false;
        }
        let text = self.expr_span(value);
        why.form = form;
        why.text = text;
        why.ty = ty;
        why.mark = Mark::Variable(text);
        why.help = help;
        true
    }

    // A constant of a `case`.
    fn wrong_case_constant(&self, constant: Constant, index: &Expr, why: &mut Why) -> bool {
        let given = self.told(self.outline.constant(constant).0);
        match self.unlike(self.told_expr(index), given) {
            Some((index, ty)) => {
                let text = constant_span(constant);
                why.form = "a constant of this `case` is @u, but `@x` is @t";
                why.text = text;
                why.ty = ty;
                why.second = index;
                why.change = self.literal_change(index, ty, text);
                true
            }
            None => self.wrong_sign(constant, why),
        }
    }

    /// Tries a digit between apostrophes as a number, and a number of one digit between them.
    pub(crate) fn literal_change(&self, wanted: Type, given: Type, text: Span) -> Change {
        match self.outline.bytes(text) {
            [digit] if digit.is_ascii_digit() && self.is(wanted, CHAR) && self.is(given, INTEGER) =>
                { Change::For(text, "'@a'") }
            [b'\'', digits @ .., b'\''] if self.is(wanted, INTEGER) && are_digits(digits) => {
                Change::For(text, "@i")
            }
            _ => Change::None,
        }
    }

    // A bound of a `for`.
    fn wrong_bound(&self, control: Span, value: &Expr, why: &mut Why) -> bool {
        let wanted = self.told(self.outline.type_of_name(control));
        match self.unlike(wanted, self.told_expr(value)) {
            Some((wanted, ty)) => {
                let text = self.expr_span(value);
                why.form = "`@y` is @u, but `@x` is @t";
                why.text = text;
                why.ty = ty;
                why.other = control;
                why.second = wanted;
                why.mark = Mark::Declared(control);
                why.change = self.literal_change(wanted, ty, text);
                if matches!(why.change, Change::None) {
                    self.with_bound(wanted, ty, text, why);
                }
                true
            }
            None => false,
        }
    }

    // What to do about a bound of another type: only a simple type has values to count by.
    fn with_bound(&self, wanted: Type, given: Type, text: Span, why: &mut Why) {
        if self.is(given, SIMPLE) {
            why.help = Help::Is("to count by that, declare `@y` as @t");
        } else if self.is(wanted, CHAR) && self.outline.bytes(text).len() == 1 {
            why.help = Help::Of("a character is written between apostrophes: '@a'", text);
            why.change = Change::For(text, "'@a'");
        } else {
            why.help = self.conversion(wanted, given, text);
        }
    }

    // A control variable.
    fn wrong_control(&self, name: Span, why: &mut Why) -> bool {
        match self.told(self.outline.type_of_name(name)) {
            Some(ty) if !self.is(ty, SIMPLE) => {
                why.form = "a `for` counts with a variable of a simple type, but `@x` is @t";
                why.text = name;
                why.ty = ty;
                why.mark = Mark::Declared(name);
                true
            }
            _ => false,
        }
    }

    // What `with` opens.
    fn wrong_opened(&self, variable: &Variable, why: &mut Why) -> bool {
        let text = self.variable_span(variable);
        match self.outline.type_of_variable(variable) {
            Some(ty) => match self.outline.form(ty) {
                Some(Form::Record(_)) | None => false,
                Some(Form::Pointer(_)) => {
                    no_content(text, why);
                    true
                }
                Some(_) => self.no_structure(text, ty, "a record", why),
            },
            None => false,
        }
    }

    // The type of a function's result.
    fn wrong_result(&self, function: Span, name: Span, why: &mut Why) -> bool {
        let word = match self.outline.form_of(self.outline.type_named(name)) {
            Some(Form::Array { .. }) => "an array",
            Some(Form::Record(_)) => "a record",
            Some(Form::Set(_)) => "a set",
            _ => return false,
        };
        why.form = "the result of a function has a simple or a pointer type, but `@x` is @w";
        why.text = name;
        why.word = word;
        why.mark = Mark::Declared(name);
        why.help = Help::Of(
            "make `@a` a procedure, and give the result through a `var` parameter",
            function,
        );
        true
    }

    // Two bounds of two types.
    fn wrong_range(&self, low: Constant, high: Constant, why: &mut Why) -> bool {
        let first = self.told(self.outline.constant(low).0);
        let second = self.told(self.outline.constant(high).0);
        match self.unlike(first, second) {
            Some((ty, second)) => {
                why.form = "both bounds of a range have the same type, but these are @t and @u";
                why.ty = ty;
                why.second = second;
                true
            }
            None => false,
        }
    }

    // A sign before a constant.
    fn wrong_sign(&self, value: Constant, why: &mut Why) -> bool {
        let Constant::Name(Some(_), name) = value else {
            return false;
        };
        match self.told(self.outline.constant(value).0) {
            Some(ty) if !self.is(ty, INTEGER) => {
                why.form = "a sign takes an integer, but `@x` is @t";
                why.text = name;
                why.ty = ty;
                why.mark = Mark::Declared(name);
                true
            }
            _ => false,
        }
    }
}

/// The span of a constant with its sign.
pub(crate) fn constant_span(constant: Constant) -> Span {
    Span {
        from: constant.first_token(),
        to: match constant {
            Constant::Number(_, at) | Constant::Name(_, at) | Constant::Text(at) => at.to,
        },
    }
}

// Whether these are decimal digits, one at least.
fn are_digits(bytes: &[u8]) -> bool {
    for byte in bytes {
        if !byte.is_ascii_digit() {
            return false;
        }
    }
    !bytes.is_empty() && bytes.len() < 10
}
