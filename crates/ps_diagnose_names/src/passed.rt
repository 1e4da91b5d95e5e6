//! Parameters of another type, and what cannot be read or written (34).

use crate::context::Context;
use crate::facts::{BOOLEAN, CHAR, INTEGER, POINTER, SIMPLE, variable_in};
use crate::spot::Passed;
use crate::why::{Change, Help, Mark, Why};
use ps_diagnose::RequiredName;
use ps_diagnose_outline::{Form, PointKind, Type};
use ps_syntax::{Expr, Selector};
use ps_text::Span;

impl<'a> Context<'a> {
    /// A parameter of another type.
    pub(crate) fn wrong_passed(&self, passed: Passed<'_>, why: &mut Why) -> bool {
        let Some(routine) = self.outline.declared(passed.routine) else {
            return self.wrong_for_required(passed, why);
        };
        let Some(formal) = self.formal(routine, passed.number) else {
            return false;
        };
        let (PointKind::VariableParameter, Some(wanted), Some(ty)) = (
            formal.kind,
            formal.ty,
            self.outline.type_of(passed.value),
        ) else {
            return false;
        };
        if !self.is_told(wanted) || !self.is_told(ty) || self.is_one_type(wanted, ty) {
            return false;
        }
        let text = self.expr_span(passed.value);
        why.form = "`@y` of `@z` takes a variable of its own type, @u, but `@x` is @t";
        why.text = text;
        why.ty = ty;
        why.other = formal.name;
        why.third = passed.routine;
        why.second = wanted;
        why.mark = Mark::Here(formal.name);
        why.next_mark = Mark::Variable(text);
        true
    }

    /// Whether two types are the same one.
    pub(crate) fn is_one_type(&self, a: Type, b: Type) -> bool {
        match (self.outline.named(a), self.outline.named(b)) {
            (Some(Type::Integer), Some(Type::Integer))
            | (Some(Type::Boolean), Some(Type::Boolean))
            | (Some(Type::Char), Some(Type::Char)) => true,
            (Some(Type::Told(first)), Some(Type::Told(second))) => first == second,
            _ => false,
        }
    }

    // A parameter of a required routine.
    fn wrong_for_required(&self, passed: Passed<'_>, why: &mut Why) -> bool {
        let value = passed.value;
        let (Some(ty), Some(required)) = (
            self.outline.type_of(value),
            self.required(passed.routine),
        ) else {
            return false;
        };
        match required {
            RequiredName::Read | RequiredName::Readln => {
                return !self.is(ty, INTEGER | CHAR) && self.cannot_be(value, ty, "read", why);
            }
            RequiredName::Write | RequiredName::Writeln => {
                return !self.is(ty, INTEGER | CHAR | BOOLEAN)
                    && !self.is_string(ty)
                    && self.cannot_be(value, ty, "written", why);
            }
            RequiredName::Pack | RequiredName::Unpack => {
                return self.wrong_packing(required, passed, why);
            }
            _ => {}
        }
        let (taken, form) = taken_by(required);
        if form.is_empty() || self.is(ty, taken) {
            return false;
        }
        let Some(ty) = self.told(Some(ty)) else {
            return false;
        };
        let text = self.expr_span(value);
        why.form = form;
        why.word = required.spelling();
        why.text = text;
        why.ty = ty;
        why.mark = Mark::Variable(text);
        match required {
            RequiredName::New => with_pointer(value, why),
            RequiredName::Chr if self.is(ty, CHAR) => self.without_chr(passed.routine, why),
            _ => {}
        }
        true
    }

    // Tries a character without its `chr`.
    fn without_chr(&self, routine: Span, why: &mut Why) {
        why.help = Help::Is("it is a character already");
        why.change = Change::With(self.factor_extent(routine.from), why.text, "@b");
    }

    // What cannot be read or written.
    fn cannot_be(&self, value: &Expr, ty: Type, word: &'static str, why: &mut Why) -> bool {
        let text = self.expr_span(value);
        match self.told(Some(ty)) {
            Some(Type::Nil) => {
                why.form = "`nil` cannot be @w";
                why.word = word;
                true
            }
            Some(known) => {
                why.form = "`@x`, @t, cannot be @w";
                why.text = text;
                why.ty = known;
                why.word = word;
                why.mark = Mark::Variable(text);
                self.with_parts(text, ty, why);
                true
            }
            None => false,
        }
    }

    // How a value is read or written that cannot be as it is, of an array in a loop.
    fn with_parts(&self, text: Span, ty: Type, why: &mut Why) {
        why.help = self.transput_help(text, ty);
        match self.outline.form(ty) {
            Some(Form::Enumeration(denoter)) if why.word == "read" => {
                why.help = self.read_by_case(text, self.first_value(ty, denoter));
            }
            Some(
                Form::Array {
                    index: Some(index),
                    component,
                    ..
                },
            ) if self.is(index, INTEGER) => {
                self.with_loop(self.outline.bounds(index), component, why);
            }
            Some(Form::Array { component, .. }) => {
                self.with_loop(None, component, why);
            }
            _ => {}
        }
    }

    // How a value is read or written that cannot be as it is.
    fn transput_help(&self, text: Span, ty: Type) -> Help {
        match self.outline.form(ty) {
            Some(Form::Record(region)) => {
                self.field_help("its fields are @w one by one, as `@a.@b`", text, region)
            }
            Some(Form::Enumeration(_)) => Help::Is(
                "a value of an enumeration is written by its number, `ord(..)`, or by names of your own, by `case`",
            ),
            Some(Form::Boolean) => {
                Help::Is("read a character, and compare it: read(c); b := c = 'y'")
            }
            Some(Form::Pointer(_)) => Help::Of("what it points to is `@a^`", text),
            Some(Form::Set(_)) => Help::Is("its members are found by `in`, in a loop"),
            _ => Help::None,
        }
    }

    // How a variable of an enumeration gets a value that depends on the input.
    fn read_by_case(&self, text: Span, first: Option<Span>) -> Help {
        match first {
            Some(value) => Help::Both(
                "read an integer, and assign by a `case`: case n of 0: @a := @b; .. end",
                text,
                value,
            ),
            None => Help::Is("read an integer, and assign by a `case`"),
        }
    }

    // The first value of an enumeration, or of a range of its values. (A comma is before each but the first.)
    fn first_value(&self, ty: Type, denoter: u32) -> Option<Span> {
        let from = self.outline.denoter_at(Type::Told(denoter))?;
        let number = match self.outline.bounds(ty) {
            Some((low, _)) => usize::try_from(low).ok()?,
            None => 0,
        };
        let at = number.saturating_mul(2).saturating_add(1);
        Some(self.outline.tokens_from(from).get(at)?.span)
    }

    // A loop over the components of an array.
    fn with_loop(&self, bounds: Option<(i64, i64)>, component: Option<Type>, why: &mut Why) {
        let Some((low, high)) = bounds else {
            why.add_help(Help::Is("its components are @w one by one, in a loop"));
            return;
        };
        let is_text = matches!(self.outline.form_of(component), Some(Form::Char));
        let is_read = why.word == "read";
        why.number = low;
        why.further = high;
        why.add_help(Help::Is(match (is_read, is_text) {
            (true, true) => {
                "read its characters one by one: for i := @n to @m do if not eoln then read(@x[i])"
            }
            (true, false) => "read its components one by one: for i := @n to @m do read(@x[i])",
            (false, true) => "write its characters one by one: for i := @n to @m do write(@x[i])",
            (false, false) => "write its components one by one: for i := @n to @m do write(@x[i])",
        }));
        if is_read && is_text {
            why.add_help(Help::Is("`readln` after the loop skips the rest of the line"));
        }
    }
}

// Which types a required routine takes, and what is told of a value of another; of a further routine nothing.
fn taken_by(required: RequiredName) -> (u32, &'static str) {
    match required {
        RequiredName::New => (POINTER, "`@w` takes a pointer, but `@x` is @t"),
        RequiredName::Abs | RequiredName::Sqr | RequiredName::Odd | RequiredName::Chr => {
            (INTEGER, "`@w` takes an integer, but `@x` is @t")
        }
        RequiredName::Ord | RequiredName::Succ | RequiredName::Pred => (
            SIMPLE,
            "`@w` takes a value of a simple type, but `@x` is @t",
        ),
        RequiredName::Eof | RequiredName::Eoln => (0, "`@w` takes a file, but `@x` is @t"),
        _ => (0, ""),
    }
}

// What to do instead of `new` of something that is not a pointer: if it is reached through one, that is used.
fn with_pointer(value: &Expr, why: &mut Why) {
    why.help = Help::Is("a variable that is declared needs no `new`");
    let Some(variable) = variable_in(value) else {
        return;
    };
    if let Some(Selector::Content(caret)) = variable.selectors.as_slice().last() {
        why.help = Help::Is("`new` takes the pointer itself, without `^`");
        why.change = Change::Without(*caret);
    }
}
