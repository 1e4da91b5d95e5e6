//! What `pack` and `unpack` cannot take (34).

use crate::context::Context;
use crate::spot::Passed;
use crate::why::{Help, Mark, Why};
use ps_diagnose::RequiredName;
use ps_diagnose_outline::{Form, Type};

impl<'a> Context<'a> {
    /// A parameter of `pack` or `unpack`.
    pub(crate) fn wrong_packing(
        &self,
        required: RequiredName,
        passed: Passed<'_>,
        why: &mut Why,
    ) -> bool {
        let Some(ty) = self.told_expr(passed.value) else {
            return false;
        };
        let is_packed = match self.outline.form(ty) {
            Some(Form::Array { is_packed, .. }) => Some(is_packed),
            _ => None,
        };
        let (form, is_array) = match (required, passed.number) {
            (RequiredName::Pack, 0) | (RequiredName::Unpack, 1) => not_unpacked(is_packed),
            (RequiredName::Pack, 2) | (RequiredName::Unpack, 0) => not_packed(is_packed),
            _ => (
                "`@w` begins at an index of the array that is not packed, but `@x` is @t",
                false,
            ),
        };
        let text = self.expr_span(passed.value);
        why.form = form;
        why.word = required.spelling();
        why.text = text;
        why.ty = ty;
        why.mark = Mark::Variable(text);
        if is_array && self.has_own_component(ty) {
            why.help = Help::Is(
                "a component type that is written twice is two types: define it once, and use its name",
            );
        }
        true
    }

    // Whether an array has components of a type that has no name.
    fn has_own_component(&self, array: Type) -> bool {
        let component = match self.outline.form(array) {
            Some(
                Form::Array {
                    component: Some(component),
                    ..
                },
            ) => component,
            _ => return false,
        };
        match (component, self.outline.named(component)) {
            (Type::Told(written), Some(Type::Told(meant))) => written == meant,
            _ => false,
        }
    }
}

const TWO_TYPES: &str =
    "`@w` takes two arrays with components of the same type, but those of `@x` are of another";

// What is told where an array is needed that is not packed, and whether it is one.
fn not_unpacked(is_packed: Option<bool>) -> (&'static str, bool) {
    match is_packed {
        Some(true) => (
            "`@w` takes an array here that is not packed, but `@x` is packed",
            false,
        ),
        Some(false) => (TWO_TYPES, true),
        None => (
            "`@w` takes an array here that is not packed, but `@x` is @t",
            false,
        ),
    }
}

// What is told where a packed array is needed, and whether it is one.
fn not_packed(is_packed: Option<bool>) -> (&'static str, bool) {
    match is_packed {
        Some(true) => (TWO_TYPES, true),
        Some(false) => (
            "`@w` takes a packed array here, but `@x` is not packed",
            false,
        ),
        None => ("`@w` takes a packed array here, but `@x` is @t", false),
    }
}
