//! Constants.

ghost use Rattle.std.specs.Prelude.{◌≡◌, ℕ, IfOk};
ghost use Rattle.ps_check_judgement.specs.Judged.{Answers};
ghost use Rattle.ps_check_names.specs.Constants.{integer, char, boolean, misplacement, constant_at, constant_named};
ghost use Rattle.ps_check_names.specs.Constants.{text_constant, integer_with_sign, signed_constant, number_at};
ghost use Rattle.ps_check_names.specs.Constants.{constant};
ghost use Rattle.ps_check_names.specs.Views.{scope_of, point_of, constant_of};

use crate::meaning::Meaning;
use crate::reading::Reading;
use crate::scope::{Found, Scope};
use ps_check_judgement::answer::broken;
use ps_check_judgement::refusal::{CheckFault, Rule};
use ps_scan::{number_value, string_value};
use ps_syntax::{Constant, Sign};
use ps_text::Span;
use ps_tree::characters::Characters;
use ps_tree::types::{Host, Ordinal, same_host};
use std::alloc::{AllocError, Global};

/// The type integer.
pub const INTEGER: Ordinal = Ordinal {
    host: Host::Integer,
    subrange: None,
    low: i32::MIN,
    high: i32::MAX,
};

/// The type char.
pub const CHAR: Ordinal = Ordinal {
    host: Host::Char,
    subrange: None,
    low: 0,
    high: 255,
};

/// The type Boolean.
pub const BOOLEAN: Ordinal = Ordinal {
    host: Host::Boolean,
    subrange: None,
    low: 0,
    high: 1,
};

/// The value of a constant (6.3).
#[derive(Drop)]
pub enum ConstantValue {
    Ordinal(Ordinal, i32),
    /// A string of several characters.
    Text(Characters),
}

/// The value of a string; a string of one character is of type char (6.1.7).
#[tactic(auto, unfolding(crate::specs::Views::constant_of))]
pub fn text_constant(alloc: Global, characters: Vec<u8>) -> Result<ConstantValue, AllocError>
    ensures { IfOk result (λ value. constant_of value ≡ text_constant characters.items) }
{
    match characters.as_slice() {
        [only] => Ok(ConstantValue::Ordinal(CHAR, i32::from(*only))),
        _ => Ok(ConstantValue::Text(Characters::new(alloc, characters)?)),
    }
}

/// The number that is written at this span.
pub fn number_at(reading: &Reading, at: Span) -> i32
    ensures { result ≡ number_at reading.now.source.now at }
{
    number_value(reading.bytes(at)) as i32
}

/// The rule broken by the use of a defining point that is not allowed there.
#[tactic(auto, unfolding(crate::specs::Views::meaning_of, crate::specs::Constants::misplacement))]
pub fn misplacement(found: &Found) -> Rule
    ensures { result ≡ misplacement (point_of found.now) }
{
    match found {
        Found::Name { meaning, .. } => match meaning {
            Meaning::File(_) | Meaning::LeftOut => Rule::NotInProfile,
            Meaning::Constant { .. }
            | Meaning::Text(_)
            | Meaning::Type(_)
            | Meaning::Variable { .. }
            | Meaning::Parameter { .. }
            | Meaning::RoutineParameter { .. }
            | Meaning::Routine(_)
            | Meaning::Required(_) => Rule::WrongKind,
        },
        Found::Field { .. } => Rule::WrongKind,
    }
}

/// The value of a name that denotes a constant.
#[tactic(auto, unfolding(crate::specs::Views::constant_of, crate::specs::Views::meaning_of, crate::specs::Constants::constant_at))]
fn constant_at(found: &Found, at: u32) -> Result<ConstantValue, CheckFault>
    ensures { Answers result (λ value. constant_of value) (constant_at at (point_of found.now)) }
{
    match found {
        Found::Name { meaning, .. } => match meaning {
            Meaning::Constant { ordinal, value } => Ok(ConstantValue::Ordinal(*ordinal, *value)),
            Meaning::Text(characters) => Ok(ConstantValue::Text(characters.clone()?)),
            Meaning::Type(_)
            | Meaning::Variable { .. }
            | Meaning::Parameter { .. }
            | Meaning::RoutineParameter { .. }
            | Meaning::Routine(_)
            | Meaning::Required(_)
            | Meaning::File(_)
            | Meaning::LeftOut => Err(broken(misplacement(found), at)),
        },
        Found::Field { .. } => Err(broken(misplacement(found), at)),
    }
}

/// A number with its sign.
fn integer_with_sign(sign: Sign, value: i32, at: u32) -> Result<i32, CheckFault>
    ensures { Answers result (λ n. n) (integer_with_sign at sign value) }
{
    match sign {
        Sign::Plus => Ok(value),
        Sign::Minus => {
            if -i32::MAX <= value {
                Ok(-value)
            } else {
                Err(broken(Rule::WrongType, at))
            }
        }
    }
}

/// A constant with its sign, if it has one. `at` is where the constant itself begins.
#[tactic(auto, unfolding(crate::specs::Views::constant_of, crate::specs::Constants::signed_constant))]
fn signed_constant(
    sign: Option<(Sign, Span)>,
    value: ConstantValue,
    at: u32,
) -> Result<ConstantValue, CheckFault>
    ensures { Answers result (λ signed. constant_of signed) (signed_constant at sign (constant_of value)) }
{
    match (sign, value) {
        (None, value) => Ok(value),
        (Some((sign, _)), ConstantValue::Ordinal(ordinal, number)) => {
            if !same_host(ordinal.host, Host::Integer) {
                return Err(broken(Rule::WrongType, at));
            }
            let number = integer_with_sign(sign, number, at)?;
            Ok(ConstantValue::Ordinal(INTEGER, number))
        }
        (Some(_), ConstantValue::Text(_)) => Err(broken(Rule::WrongType, at)),
    }
}

/// The value of the constant that a name denotes.
fn constant_named(
    reading: &Reading,
    alloc: Global,
    scope: &Scope,
    name: Span,
) -> Result<ConstantValue, CheckFault>
    ensures { Answers result (λ value. constant_of value)
        (constant_named reading.now.source.now (scope_of scope.now) name) }
{
    let found = reading.denoted(alloc, scope, name)?;
    constant_at(&found, name.from)
}

/// The value of a constant.
#[tactic(auto, unfolding(crate::specs::Views::constant_of, crate::specs::Constants::constant))]
pub fn constant(
    reading: &Reading,
    alloc: Global,
    scope: &Scope,
    written: Constant,
) -> Result<ConstantValue, CheckFault>
    ensures { Answers result (λ value. constant_of value)
        (constant reading.now.source.now (scope_of scope.now) written) }
{
    match written {
        Constant::Number(sign, at) => {
            let value = ConstantValue::Ordinal(INTEGER, number_at(reading, at));
            signed_constant(sign, value, at.from)
        }
        Constant::Name(sign, at) => {
            let value = constant_named(reading, alloc, scope, at)?;
            signed_constant(sign, value, at.from)
        }
        Constant::Text(at) => {
            let characters = string_value(alloc, reading.bytes(at))?;
            Ok(text_constant(alloc, characters)?)
        }
    }
}
