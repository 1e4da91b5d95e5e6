//! Types: what they are with their names resolved, and the types of expressions.

use crate::extent::{Part, open_behind, reaches};
use crate::outline::{Denoted, Outline};
use crate::parts::{Form, Point, PointKind, Shape, Type};
use crate::required::RequiredKind;
use ps_diagnose::RequiredName;
use ps_scan::Kind;
use ps_syntax::{Adding, Expr, Factor, Multiplying, Selector, Simple, Term, Variable};
use ps_text::Span;

// What a type without a denoter of its own is: if an ordinal type of a range has one, it is an enumeration.
fn form_alone(ty: Type) -> Form {
    match ty {
        Type::Integer => Form::Integer,
        Type::Boolean => Form::Boolean,
        Type::Char => Form::Char,
        Type::Nil => Form::Nil,
        Type::Text(length) => Form::Text(length),
        Type::Members => Form::Set(None),
        Type::Told(number) => Form::Enumeration(number),
    }
}

impl<'a> Outline<'a> {
    /// The type with its names resolved, which may be a range.
    pub fn named(&self, ty: Type) -> Option<Type> {
        match self.shape(ty) {
            Some(Shape::Same(further)) => further,
            _ => Some(ty),
        }
    }

    /// What a type is.
    pub fn form(&self, ty: Type) -> Option<Form> {
        match self.named(ty) {
            Some(Type::Told(number)) => self.form_told(number),
            Some(ty) => Some(form_alone(ty)),
            None => None,
        }
    }

    // What the type of a denoter is that is not a name.
    fn form_told(&self, number: u32) -> Option<Form> {
        let Some(denoter) = self.denoter(number) else {
            return None;
        };
        match denoter.shape {
            Shape::Enumeration => Some(Form::Enumeration(number)),
            Shape::Pointer(name) => Some(Form::Pointer(self.type_named(name))),
            Shape::Array { index, component } => Some(Form::Array {
                is_packed: denoter.is_packed,
                index,
                component,
            }),
            Shape::Record(region) => Some(Form::Record(region)),
            Shape::Set(base) => Some(Form::Set(base)),
            Shape::Range { host, .. } => match host {
                Some(ty) => Some(form_alone(ty)),
                None => None,
            },
            Shape::Same(_) => None,
        }
    }

    /// What a type is, if it is known.
    pub fn form_of(&self, ty: Option<Type>) -> Option<Form> {
        match ty {
            Some(ty) => self.form(ty),
            None => None,
        }
    }

    /// The least and the greatest value of a range, as numbers.
    pub fn bounds(&self, ty: Type) -> Option<(i64, i64)> {
        let Some(ty) = self.named(ty) else {
            return None;
        };
        match self.shape(ty) {
            Some(
                Shape::Range {
                    low: Some(low),
                    high: Some(high),
                    ..
                },
            ) => Some((low, high)),
            _ => None,
        }
    }

    /// How many characters a string type has, which are two at least (6.4.3.2).
    pub fn string_length(&self, ty: Type) -> Option<u32> {
        match self.form(ty) {
            Some(Form::Text(length)) => Some(length),
            Some(
                Form::Array {
                    is_packed: true,
                    index: Some(index),
                    component,
                },
            ) => match (self.form_of(component), self.bounds(index)) {
                (Some(Form::Char), Some((1, high))) if high > 1 => u32::try_from(high).ok(),
                _ => None,
            },
            _ => None,
        }
    }

    // The field of a record that a name denotes after a point.
    fn field(&self, record: Option<Type>, name: Span) -> Option<Type> {
        match (self.form_of(record), self.spelling_at(name.from)) {
            (Some(Form::Record(region)), Some(spelling)) => {
                match self.point_in(region, spelling) {
                    Some(point) => point.ty,
                    None => None,
                }
            }
            _ => None,
        }
    }

    // The type after an index.
    fn indexed(&self, ty: Option<Type>) -> Option<Type> {
        match self.form_of(ty) {
            Some(Form::Array { component, .. }) => component,
            _ => None,
        }
    }

    // The type after `^`.
    fn identified(&self, ty: Option<Type>) -> Option<Type> {
        match self.form_of(ty) {
            Some(Form::Pointer(domain)) => domain,
            _ => None,
        }
    }

    /// The type after a selector.
    pub fn selected(&self, ty: Type, selector: &Selector) -> Option<Type> {
        match selector {
            Selector::Index(indices) => {
                let mut ty = Some(ty);
                for _ in 0..indices.len() {
                    ty = self.indexed(ty);
                }
                ty
            }
            Selector::Field(name) => self.field(Some(ty), *name),
            Selector::Content(_) => self.identified(Some(ty)),
        }
    }

    // The type of a variable after one of its tokens, with this many open brackets.
    fn type_behind_token(&self, ty: Option<Type>, at: usize, open: u32) -> Option<Type> {
        match (self.kind(at), open) {
            (Kind::LeftBracket, 0) | (Kind::Comma, 1) => self.indexed(ty),
            (Kind::Name, 0) => self.field(ty, self.span(at)),
            (Kind::Caret, 0) => self.identified(ty),
            _ => ty,
        }
    }

    /// The type of the variable that begins at a token, and the token after it.
    pub(crate) fn type_written(&self, first: usize) -> (Option<Type>, usize) {
        let mut ty = self.type_of_name(self.span(first));
        let mut open = 0;
        let mut at = first.saturating_add(1);
        for _ in at..self.tokens.len() {
            if !reaches(Part::Factor, open, self.kind(at)) {
                break;
            }
            ty = self.type_behind_token(ty, at, open);
            open = open_behind(open, self.kind(at));
            at = at.saturating_add(1);
        }
        (ty, at)
    }

    // The type of the value of a declared name.
    fn value_type(&self, point: Point) -> Option<Type> {
        match point.kind {
            PointKind::Type => None,
            _ => point.ty,
        }
    }

    /// The type of what a name denotes in an expression, or before selectors.
    pub fn type_of_name(&self, name: Span) -> Option<Type> {
        match self.denoted(name) {
            Some(Denoted::Declared(point)) => self.value_type(point),
            Some(Denoted::Required(required)) => match (required.kind, required.name) {
                (RequiredKind::Constant(ty, _), _) => Some(ty),
                (_, RequiredName::Eof | RequiredName::Eoln) => required.result,
                _ => None,
            },
            None => None,
        }
    }

    /// The type of a variable with its selectors, or of anything else written in that form.
    pub fn type_of_variable(&self, variable: &Variable) -> Option<Type> {
        self.type_behind(variable.name, variable.selectors.as_slice())
    }

    /// The type of a name with some selectors after it.
    pub fn type_behind(&self, name: Span, selectors: &[Selector]) -> Option<Type> {
        let mut ty = self.type_of_name(name);
        for selector in selectors {
            if let Some(before) = ty {
                ty = self.selected(before, selector);
            }
        }
        ty
    }

    /// The type of an expression.
    #[cycle(typing)]
    pub fn type_of(&self, expr: &Expr) -> Option<Type> {
        match expr {
            Expr::Simple(simple) => self.type_of_simple(simple),
            Expr::Compare(..) => Some(Type::Boolean),
        }
    }

    /// The type of a simple expression.
    #[cycle(typing)]
    pub fn type_of_simple(&self, simple: &Simple) -> Option<Type> {
        if simple.sign.is_some() {
            return Some(Type::Integer);
        }
        match simple.more.get(0) {
            None => self.type_of_term(&simple.first),
            Some(added) => match added.operator {
                Adding::Or => Some(Type::Boolean),
                Adding::Plus | Adding::Minus => self.computed(self.type_of_term(&simple.first)),
            },
        }
    }

    /// The type of a term.
    #[cycle(typing)]
    pub fn type_of_term(&self, term: &Term) -> Option<Type> {
        match term.more.get(0) {
            None => self.type_of_factor(&term.first),
            Some(multiplied) => match multiplied.operator {
                Multiplying::Div | Multiplying::Mod => Some(Type::Integer),
                Multiplying::And => Some(Type::Boolean),
                Multiplying::Times => self.computed(self.type_of_factor(&term.first)),
            },
        }
    }

    // The type of the result of `+`, `-` or `*`, by the type of its first operand.
    fn computed(&self, operand: Option<Type>) -> Option<Type> {
        match self.form_of(operand) {
            Some(Form::Set(_)) => operand,
            Some(Form::Integer) => Some(Type::Integer),
            _ => None,
        }
    }

    /// The type of a factor.
    #[cycle(typing)]
    pub fn type_of_factor(&self, factor: &Factor) -> Option<Type> {
        match factor {
            Factor::Variable(variable) => self.type_of_variable(variable),
            Factor::Call(name, parameters) => self.type_of_call(parameters.as_slice(), *name),
            Factor::Number(_) => Some(Type::Integer),
            Factor::Text(at) => self.type_of_text(*at),
            Factor::Nil(_) => Some(Type::Nil),
            Factor::Set(..) => Some(Type::Members),
            Factor::Group(_, _, inner) => self.type_of(inner.get()),
            Factor::Not(..) => Some(Type::Boolean),
        }
    }

    // The type of a call's result.
    #[cycle(typing)]
    fn type_of_call(&self, parameters: &[Expr], name: Span) -> Option<Type> {
        match (self.denoted(name), parameters.first()) {
            (Some(Denoted::Declared(point)), _) => self.value_type(point),
            (Some(Denoted::Required(required)), Some(first)) => match required.name {
                RequiredName::Succ | RequiredName::Pred => self.ordinal(self.type_of(first)),
                _ => required.result,
            },
            (Some(Denoted::Required(required)), None) => required.result,
            (None, _) => None,
        }
    }

    // The type with its names resolved; for a range, the type of which it is a range.
    fn ordinal(&self, ty: Option<Type>) -> Option<Type> {
        let Some(ty) = ty else {
            return None;
        };
        match self.named(ty) {
            Some(ty) => match self.shape(ty) {
                Some(Shape::Range { host, .. }) => host,
                _ => Some(ty),
            },
            None => None,
        }
    }
}
