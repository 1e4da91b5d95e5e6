//! Selectors that do not fit what they select of, and indices of another type (34).

use crate::context::{Context, long};
use crate::why::{Change, Help, Mark, Why};
use ps_diagnose_outline::{Form, Type};
use ps_scan::Kind;
use ps_syntax::{Expr, Selector, Variable};
use ps_text::Span;

impl<'a> Context<'a> {
    /// Selectors that don't fit what they select of.
    pub(crate) fn wrong_selector(&self, variable: &Variable, why: &mut Why) -> bool {
        let Some(mut ty) = self.outline.type_of_name(variable.name) else {
            return false;
        };
        let mut end = variable.name.to;
        for selector in variable.selectors.as_slice() {
            let text = Span {
                from: variable.name.from,
                to: end,
            };
            if self.cannot_select(text, ty, selector, why) {
                return true;
            }
            match self.outline.selected(ty, selector) {
                Some(next) => ty = next,
                None => return false,
            }
            end = match selector {
                Selector::Index(_) => self.end_of_index(end),
                Selector::Field(at) | Selector::Content(at) => at.to,
            };
        }
        false
    }

    // Where the brackets after an offset end; one pair may close several indices.
    fn end_of_index(&self, end: u32) -> u32 {
        let mut open: u32 = 0;
        for token in self.outline.tokens_from(end) {
            open = match token.kind {
                Kind::LeftBracket | Kind::LeftParen => open.saturating_add(1),
                Kind::RightBracket | Kind::RightParen => open.saturating_sub(1),
                _ => open,
            };
            if open == 0 {
                return token.span.to;
            }
        }
        end
    }

    // A selector that doesn't fit.
    fn cannot_select(&self, text: Span, ty: Type, selector: &Selector, why: &mut Why) -> bool {
        match (selector, self.outline.form(ty)) {
            (Selector::Field(_), Some(Form::Record(_)))
            | (Selector::Content(_), Some(Form::Pointer(_)))
            | (_, None) => false,
            (Selector::Index(indices), Some(Form::Array { .. })) => {
                self.too_many_indices(text, ty, indices.len(), why)
            }
            (Selector::Index(_), Some(_)) => self.no_structure(text, ty, "an array", why),
            (Selector::Field(_), Some(Form::Pointer(_))) => {
                no_content(text, why);
                true
            }
            (Selector::Field(field), Some(Form::Array { .. })) => {
                let is_told = self.no_structure(text, ty, "a record", why);
                if is_told {
                    why.help = Help::Both(
                        "a field is one of a component: `@a[..].@b`",
                        text,
                        *field,
                    );
                }
                is_told
            }
            (Selector::Field(_), Some(_)) => self.no_structure(text, ty, "a record", why),
            (Selector::Content(_), Some(_)) => self.no_structure(text, ty, "a pointer", why),
        }
    }

    // More indices than an array has.
    fn too_many_indices(&self, text: Span, array: Type, given: usize, why: &mut Why) -> bool {
        let mut ty = array;
        let mut count: i64 = 0;
        for _ in 0..given {
            match self.outline.form(ty) {
                Some(
                    Form::Array {
                        component: Some(component),
                        ..
                    },
                ) => ty = component,
                Some(_) => {
                    why.form = if count == 1 {
                        "`@x` has @N index, but is given @m"
                    } else {
                        "`@x` has @N indices, but is given @m"
                    };
                    why.text = text;
                    why.number = count;
                    why.further = long(given);
                    why.mark = Mark::Declared(text);
                    return true;
                }
                None => return false,
            }
            count = count.saturating_add(1);
        }
        false
    }

    /// What is selected of as if it were an array, a record or a pointer.
    pub(crate) fn no_structure(
        &self,
        text: Span,
        ty: Type,
        word: &'static str,
        why: &mut Why,
    ) -> bool {
        match self.told(Some(ty)) {
            Some(ty) => {
                why.form = "`@x` is @t, not @w";
                why.text = text;
                why.ty = ty;
                why.word = word;
                why.mark = Mark::Declared(text);
                true
            }
            None => false,
        }
    }

    // The type of an index: after this many selectors of a variable, and this many indices.
    fn index_type(&self, variable: &Variable, before: u32, number: u32) -> Option<Type> {
        let Some(selectors) = variable.selectors.as_slice().get(..before as usize) else {
            return None;
        };
        let mut at = self.outline.type_behind(variable.name, selectors);
        for _ in 0..number {
            at = match self.outline.form_of(at) {
                Some(Form::Array { component, .. }) => component,
                _ => None,
            };
        }
        match self.outline.form_of(at) {
            Some(Form::Array { index, .. }) => index,
            _ => None,
        }
    }

    /// An index of another type.
    pub(crate) fn wrong_index(
        &self,
        variable: &Variable,
        before: u32,
        number: u32,
        value: &Expr,
        why: &mut Why,
    ) -> bool {
        let index = self.told(self.index_type(variable, before, number));
        let Some((index, ty)) = self.unlike(index, self.told_expr(value)) else {
            return false;
        };
        let text = self.expr_span(value);
        why.form = "an index of `@y` is @u, but `@x` is @t";
        why.text = text;
        why.ty = ty;
        why.second = index;
        why.other = match self.outline.token_before(value.first_token()) {
            Some(bracket) if number == 0 => Span {
                from: variable.name.from,
                to: bracket.span.from,
            },
            _ => variable.name,
        };
        why.mark = Mark::Declared(variable.name);
        why.help = self.conversion(index, ty, text);
        true
    }
}

/// A pointer without `^`.
pub(crate) fn no_content(text: Span, why: &mut Why) {
    why.form = "`@x` is a pointer, not a record: what it points to is `@x^`";
    why.text = text;
    why.mark = Mark::Declared(text);
    why.change = Change::Behind(text, "", "^");
}
