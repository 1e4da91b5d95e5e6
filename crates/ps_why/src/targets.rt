//! The types of the values that errors find, from the tokens of the expressions and variables at which they are
//! reported.

use ps_diagnose::RequiredName;
use ps_diagnose_outline::{Form, Outline, Part, Type};
use ps_scan::Kind;
use ps_scene::{Bounds, FaultValue};
use ps_tree::types::Host;

/// What the value is that an error found.
#[derive(Clone, Copy)]
pub(crate) struct Meant {
    /// Its host type.
    pub(crate) host: Host,
    /// How far it is from the argument of the `succ` or `pred` that failed; 0 for any other error.
    pub(crate) step: i64,
}

// The type of the components of an array.
fn component_of(outline: &Outline<'_>, ty: Option<Type>) -> Option<Type> {
    match outline.form_of(ty) {
        Some(Form::Array { component, .. }) => component,
        _ => None,
    }
}

// The type of a record's field, whose name is at a token.
fn field_of(outline: &Outline<'_>, ty: Option<Type>, at: usize) -> Option<Type> {
    match (outline.form_of(ty), outline.spelling_of(at)) {
        (Some(Form::Record(region)), Some(spelling)) => match outline.point_in(region, spelling) {
            Some(point) => point.ty,
            None => None,
        },
        _ => None,
    }
}

// The type of a variable after one of its tokens, with this many open brackets.
fn type_behind(outline: &Outline<'_>, ty: Option<Type>, at: usize, open: u32) -> Option<Type> {
    match (outline.kind(at), open) {
        (Kind::LeftBracket, 0) | (Kind::Comma, 1) => component_of(outline, ty),
        (Kind::Name, 0) => field_of(outline, ty, at),
        (Kind::Caret, 0) => match outline.form_of(ty) {
            Some(Form::Pointer(domain)) => domain,
            _ => None,
        },
        _ => ty,
    }
}

// How many brackets are open after a token.
fn open_behind(kind: Kind, open: u32) -> u32 {
    match kind {
        Kind::LeftBracket | Kind::LeftParen => open.saturating_add(1),
        Kind::RightBracket | Kind::RightParen => open.saturating_sub(1),
        _ => open,
    }
}

// The token after the part of the text that begins at a token.
fn end_of(outline: &Outline<'_>, at: usize, part: Part) -> usize {
    outline.token_at(outline.extent(outline.span(at).from, part).to)
}

// The type of the variable that begins at a token, or of a name alone.
fn type_of_variable(outline: &Outline<'_>, first: usize) -> Option<Type> {
    let mut ty = outline.type_of_name(outline.span(first));
    let mut open = 0;
    for at in first.saturating_add(1)..end_of(outline, first, Part::Factor) {
        ty = type_behind(outline, ty, at, open);
        open = open_behind(outline.kind(at), open);
    }
    ty
}

// The type of the result of the function with parameters whose name is at a token.
fn type_of_call(outline: &Outline<'_>, at: usize) -> Option<Type> {
    let Some(required) = outline.required(outline.span(at)) else {
        return outline.type_of_name(outline.span(at));
    };
    match required.name {
        RequiredName::Abs | RequiredName::Sqr | RequiredName::Ord => Some(Type::Integer),
        RequiredName::Chr => Some(Type::Char),
        RequiredName::Odd | RequiredName::Eof | RequiredName::Eoln => Some(Type::Boolean),
        _ => None,
    }
}

// The type of the factor that begins at a token and is no expression in parentheses.
fn type_of_factor(outline: &Outline<'_>, at: usize) -> Option<Type> {
    match outline.kind(at) {
        Kind::Name if outline.is(at.saturating_add(1), Kind::LeftParen) => {
            type_of_call(outline, at)
        }
        Kind::Name => type_of_variable(outline, at),
        Kind::Number => Some(Type::Integer),
        Kind::Text => Some(Type::Char),
        _ => None,
    }
}

// The type of an ordinal value after one of its operators, given that of the operators before it.
fn type_with(kind: Kind, before: Option<Type>) -> Option<Type> {
    match kind {
        Kind::Equal | Kind::NotEqual | Kind::Less | Kind::LessEqual => Some(Type::Boolean),
        Kind::Greater | Kind::GreaterEqual | Kind::In => Some(Type::Boolean),
        Kind::And | Kind::Or | Kind::Not => Some(Type::Boolean),
        Kind::Plus | Kind::Minus | Kind::Star | Kind::Div | Kind::Mod if before.is_none() => {
            Some(Type::Integer)
        }
        _ => before,
    }
}

// The type that its operators outside brackets give to the expression that begins at a token; `None` without one.
fn type_of_operators(outline: &Outline<'_>, first: usize) -> Option<Type> {
    let mut ty = None;
    let mut open = 0;
    for at in first..end_of(outline, first, Part::Expression) {
        if open == 0 {
            ty = type_with(outline.kind(at), ty);
        }
        open = open_behind(outline.kind(at), open);
    }
    ty
}

// The token at which an expression of the same type begins: within parentheses, or the argument of `succ` or `pred`.
fn inner_of(outline: &Outline<'_>, at: usize) -> Option<usize> {
    if outline.is(at, Kind::LeftParen) {
        Some(at.saturating_add(1))
    } else if step_at(outline, at) != 0 {
        Some(at.saturating_add(2))
    } else {
        None
    }
}

// The type of the ordinal expression or variable that begins at a token.
fn type_at(outline: &Outline<'_>, first: usize) -> Option<Type> {
    let mut at = first;
    for _ in first..outline.token_count() {
        if let Some(ty) = type_of_operators(outline, at) {
            return Some(ty);
        }
        match inner_of(outline, at) {
            Some(inner) => at = inner,
            None => return type_of_factor(outline, at),
        }
    }
    None
}

// The host type of the ordinal expression or variable that begins at a token.
fn host_at(outline: &Outline<'_>, at: usize) -> Option<Host> {
    match outline.form_of(type_at(outline, at)) {
        Some(Form::Integer) => Some(Host::Integer),
        Some(Form::Char) => Some(Host::Char),
        Some(Form::Boolean) => Some(Host::Boolean),
        Some(Form::Enumeration(number)) => match outline.denoter(number) {
            Some(denoter) => match denoter.from {
                Some(at) => Some(Host::Enumeration { at, greatest: 0 }),
                None => None,
            },
            None => None,
        },
        _ => None,
    }
}

// How far the required function at a token steps from its argument: `succ` to the next value, `pred` to the previous
// one; 0 for anything else.
fn step_at(outline: &Outline<'_>, at: usize) -> i64 {
    match outline.required(outline.span(at)) {
        Some(required) => match required.name {
            RequiredName::Succ => 1,
            RequiredName::Pred => -1,
            _ => 0,
        },
        None => 0,
    }
}

// Whether a step from an argument of this type failed, rather than what begins with it, such as a parameter. That of an
// integer has no bounds; otherwise for `succ` a number can only be too large, and for `pred` too small.
fn is_of_step(host: Host, step: i64, found: FaultValue) -> bool {
    match (host, found.bounds) {
        _ if step == 0 => false,
        (_, None) => true,
        (Host::Integer, Some(_)) => false,
        (_, Some(Bounds { low, .. })) if step > 0 => low == i64::from(i32::MIN),
        (_, Some(Bounds { high, .. })) => high == i64::from(i32::MAX),
    }
}

// Whether `chr` at a token failed, rather than what begins with it: no character is outside all characters.
fn is_of_chr(outline: &Outline<'_>, at: usize, found: FaultValue) -> bool {
    match (outline.required(outline.span(at)), found.bounds) {
        (Some(required), Some(Bounds { low, high })) => {
            matches!(required.name, RequiredName::Chr) && low == 0 && high == 255
        }
        _ => false,
    }
}

// What was found where a value is out of range at a token.
fn meant_ranged(outline: &Outline<'_>, at: usize, found: FaultValue) -> (Option<Host>, i64) {
    let step = step_at(outline, at);
    match host_at(outline, at.saturating_add(2)) {
        Some(host) if is_of_step(host, step, found) => (Some(host), step),
        _ if is_of_chr(outline, at, found) => (Some(Host::Integer), 0),
        _ if outline.is(at, Kind::Assign) => (host_at(outline, at.saturating_add(1)), 0),
        _ => (host_at(outline, at), 0),
    }
}

/// What the value is that an error with this number found, which is reported at a token; `None` if its type isn't
/// known.
pub(crate) fn meant_at(
    outline: &Outline<'_>,
    number: u32,
    at: usize,
    found: FaultValue,
) -> Option<Meant> {
    let (host, step) = match number {
        4 => meant_ranged(outline, at, found),
        5 | 8 => (host_at(outline, at), 0),
        7 => (host_at(outline, at.saturating_add(1)), 0),
        _ => (Some(Host::Integer), 0),
    };
    match host {
        Some(host) => Some(Meant { host, step }),
        None => None,
    }
}
