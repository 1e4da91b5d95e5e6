//! The first values of variables.

use crate::text::Text;
use ps_diagnose_outline::{Form, Type};
use ps_scan::Kind;
use ps_text::Span;

// The most bytes of a constant's name that are shown: of as many variables as there are, each has it.
const MOST: usize = 64;

/// A first value.
#[derive(Clone, Copy)]
pub(crate) enum Value {
    /// In words.
    Is(&'static str),
    Number(i64),
    /// A letter or a digit.
    Sign(u8),
    /// A character by its number.
    Character(i64),
    /// A constant as it is written.
    Name(Span),
}

// A character by its number.
fn character(number: i64) -> Value {
    match u8::try_from(number) {
        Ok(byte) if byte.is_ascii_alphanumeric() => Value::Sign(byte),
        _ => Value::Character(number),
    }
}

// The constant of an enumeration with this number: they are between commas after a parenthesis.
fn member(text: &Text<'_>, enumeration: u32, number: i64) -> Value {
    let from = match text.outline.denoter_at(Type::Told(enumeration)) {
        Some(from) => text.outline.token_at(from),
        None => usize::MAX,
    };
    let behind = match usize::try_from(number) {
        Ok(number) => number.saturating_mul(2).saturating_add(1),
        Err(_) => usize::MAX,
    };
    let at = from.saturating_add(behind);
    if text.is(at, Kind::Name) && text.written(text.span(at)).len() <= MOST {
        Value::Name(text.span(at))
    } else {
        Value::Is("as it began")
    }
}

// The least value of a type.
fn least(text: &Text<'_>, ty: Option<Type>) -> i64 {
    match ty {
        Some(ty) => match text.outline.bounds(ty) {
            Some((low, _)) => low,
            None => 0,
        },
        None => 0,
    }
}

/// The first value of a variable of a type.
pub(crate) fn first_value(text: &Text<'_>, ty: Option<Type>) -> Value {
    let number = least(text, ty);
    match text.outline.form_of(ty) {
        Some(Form::Integer) => Value::Number(number),
        Some(Form::Boolean) if number == 0 => Value::Is("`false`"),
        Some(Form::Boolean) => Value::Is("`true`"),
        Some(Form::Char) => character(number),
        Some(Form::Enumeration(enumeration)) => member(text, enumeration, number),
        Some(Form::Pointer(_)) => Value::Is("`nil`"),
        Some(Form::Set(_)) => Value::Is("`[]`"),
        _ => Value::Is("as it began"),
    }
}
