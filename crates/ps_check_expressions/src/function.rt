//! Constants as operands, and the required functions (ISO 7185, 6.6.6).

ghost use Rattle.std.specs.Prelude.{◌≡◌, ◌&&◌, not, IfOk, option_map};
ghost use Rattle.ps_tree.specs.Types.{is_same_host};
ghost use Rattle.ps_tree.specs.View.{expr_of};
ghost use Rattle.ps_tree.specs.declared.types.Host.TheVariants.{Integer};
ghost use Rattle.ps_check_judgement.specs.Judged.{Answers};
ghost use Rattle.ps_check_names.specs.Views.{point_of};
ghost use Rattle.ps_check_expressions.specs.Values.{ordinal_of};
ghost use Rattle.ps_check_expressions.specs.Calls.{needs_integer, function_of, is_procedure, required_value, look};
ghost use Rattle.ps_check_expressions.specs.Calls.{is_input};
ghost use Rattle.ps_check_expressions.specs.Expressions.{constant_value};
ghost use Rattle.ps_check_expressions.specs.View.{context_at, value_of};
ghost use Rattle.ps_scan.specs.Values.{characters};
ghost use Rattle.ps_check_names.specs.Spelling.{bytes_at};
ghost use Rattle.ps_check_names.specs.Constants.{text_constant};
ghost use Rattle.ps_check_names.specs.Views.{constant_of};

use crate::operators::wrong_type;
use crate::site::Site;
use crate::value::{TypedValue, host_type};
use ps_check_judgement::refusal::CheckFault;
use ps_check_names::constants::{BOOLEAN, CHAR, ConstantValue, INTEGER, text_constant};
use ps_check_names::meaning::{File, Meaning, Required};
use ps_check_names::scope::Found;
use ps_scan::string_value;
use ps_text::Span;
use ps_tree::line::Line;
use ps_tree::tree::{Expr, RequiredFunction, Structure};
use ps_tree::types::{Host, Ordinal, Ty, same_host};
use std::alloc::{AllocError, Global};

/// The constant that the token of a string denotes.
#[inline(never)]
pub(crate) fn text_at(site: &Site<'_>, at: Span) -> Result<ConstantValue, AllocError>
    ensures { IfOk result (λ v. constant_of v ≡ text_constant (characters (bytes_at (context_at site.now).text at))) }
{
    let characters = string_value(site.alloc, site.reading.bytes(at))?;
    text_constant(site.alloc, characters)
}

/// The value of a constant, whose first token is at `at`.
#[inline(never)]
#[tactic(auto, unfolding(crate::specs::Expressions::constant_value, ps_check_names::specs::Views::constant_of, crate::specs::View::value_of, ps_tree::specs::View::type_of, ps_tree::specs::View::expr_of, ps_tree::specs::View::structure_of))]
pub(crate) fn of_constant(constant: ConstantValue, at: u32) -> Result<TypedValue, CheckFault>
    ensures { Answers result (λ v. value_of v) (constant_value at (constant_of constant)) }
{
    match constant {
        ConstantValue::Ordinal(ordinal, value) => Ok(TypedValue::Simple(
            Expr::Number(value),
            Ty::Simple(ordinal),
        )),
        ConstantValue::Text(characters) => {
            let length = characters.len();
            if length > 4_294_967_295 {
                return Err(wrong_type(at));
            }
            let ty = Ty::Text {
                length: length as u32,
            };
            Ok(TypedValue::Structure(Structure::Literal(characters), ty))
        }
    }
}

/// An expression of an ordinal type, which begins at `at`.
#[inline(never)]
#[tactic(auto, unfolding(crate::specs::Values::ordinal_of, crate::specs::View::value_of, ps_tree::specs::View::type_of))]
pub fn ordinal_of(value: TypedValue, at: u32) -> Result<(Expr, Ordinal), CheckFault>
    ensures { Answers result (λ v. (expr_of v.0, v.1)) (ordinal_of at (value_of value)) }
{
    match value {
        TypedValue::Simple(value, ty) => match &ty {
            Ty::Simple(ordinal) => Ok((value, *ordinal)),
            Ty::Pointer { .. }
            | Ty::Nil
            | Ty::Set { .. }
            | Ty::EmptySet
            | Ty::Text { .. }
            | Ty::Array { .. }
            | Ty::Record { .. } => {
                drop(value);
                Err(wrong_type(at))
            }
        },
        other @ (TypedValue::Set(..) | TypedValue::Structure(..)) => {
            drop(other);
            Err(wrong_type(at))
        }
    }
}

/// Whether a required routine is a procedure (6.6.5).
pub(crate) fn is_procedure(required: Required) -> bool
    ensures { result ≡ is_procedure required }
{
    match required {
        Required::Read
        | Required::Readln
        | Required::Write
        | Required::Writeln
        | Required::New
        | Required::Pack
        | Required::Unpack => true,
        Required::Abs
        | Required::Sqr
        | Required::Odd
        | Required::Chr
        | Required::Ord
        | Required::Succ
        | Required::Pred
        | Required::Eof
        | Required::Eoln => false,
    }
}

/// Whether a required function needs an integer but its operand has another host type.
fn lacks_integer(required: Required, host: Host) -> bool
    ensures { result ≡ (needs_integer required && not (is_same_host host Integer)) }
{
    match required {
        Required::Abs | Required::Sqr | Required::Odd | Required::Chr => {
            !same_host(host, Host::Integer)
        }
        Required::Ord
        | Required::Succ
        | Required::Pred
        | Required::Eof
        | Required::Eoln
        | Required::Read
        | Required::Readln
        | Required::Write
        | Required::Writeln
        | Required::New
        | Required::Pack
        | Required::Unpack => false,
    }
}

/// The required function of an operand of an ordinal type (6.6.6.2 to 6.6.6.4), and the type of its value.
pub(crate) fn function_of(
    required: Required,
    ordinal: Ordinal,
) -> Option<(RequiredFunction, Ordinal)>
    ensures { result ≡ function_of required ordinal }
{
    match required {
        Required::Abs => Some((RequiredFunction::Abs, INTEGER)),
        Required::Sqr => Some((RequiredFunction::Sqr, INTEGER)),
        Required::Odd => Some((RequiredFunction::Odd, BOOLEAN)),
        Required::Chr => Some((RequiredFunction::Chr, CHAR)),
        Required::Ord => Some((RequiredFunction::Ord, INTEGER)),
        Required::Succ => {
            let ty = host_type(ordinal.host);
            Some((RequiredFunction::Succ { high: ty.high }, ty))
        }
        Required::Pred => {
            let ty = host_type(ordinal.host);
            Some((RequiredFunction::Pred { low: ty.low }, ty))
        }
        Required::Eof
        | Required::Eoln
        | Required::Read
        | Required::Readln
        | Required::Write
        | Required::Writeln
        | Required::New
        | Required::Pack
        | Required::Unpack => None,
    }
}

/// The value of a required function of one operand, which begins at `at`.
#[inline(never)]
#[tactic(auto, unfolding(crate::specs::Calls::required_value, crate::specs::View::value_of, ps_tree::specs::View::type_of, ps_tree::specs::View::expr_of))]
pub(crate) fn required_value(
    alloc: Global,
    required: Required,
    line: Line,
    operand: TypedValue,
    at: u32,
) -> Result<TypedValue, CheckFault>
    ensures { Answers result (λ v. value_of v) (required_value at required line.number (value_of operand)) }
{
    let (operand, ordinal) = ordinal_of(operand, at)?;
    let operand = Box::new(alloc, operand)?;
    let Some((function, ty)) = function_of(required, ordinal) else {
        return Err(wrong_type(at));
    };
    if lacks_integer(required, ordinal.host) {
        return Err(wrong_type(at));
    }
    let value = Expr::Apply {
        function,
        operand,
        line,
    };
    Ok(TypedValue::Simple(value, Ty::Simple(ty)))
}

/// The value of eof or eoln of the input; none for another routine.
#[tactic(auto, unfolding(crate::specs::Calls::look, crate::specs::View::value_of, ps_tree::specs::View::type_of, ps_tree::specs::View::expr_of))]
pub(crate) fn look(required: Required, line: Line) -> Option<TypedValue>
    ensures { option_map value_of result ≡ look required line.number }
{
    let value = match required {
        Required::Eof => Expr::Eof,
        Required::Eoln => Expr::Eoln { line },
        Required::Abs
        | Required::Sqr
        | Required::Odd
        | Required::Chr
        | Required::Ord
        | Required::Succ
        | Required::Pred
        | Required::Read
        | Required::Readln
        | Required::Write
        | Required::Writeln
        | Required::New
        | Required::Pack
        | Required::Unpack => return None,
    };
    Some(TypedValue::Simple(value, Ty::Simple(BOOLEAN)))
}

/// The name of the input.
#[tactic(auto, unfolding(crate::specs::Calls::is_input, ps_check_names::specs::Views::meaning_of))]
pub(crate) fn is_input(found: Found<'_>) -> bool
    ensures { result ≡ is_input (point_of found.entry) }
{
    match found {
        Found::Field { .. } => false,
        Found::Name { meaning, .. } => match meaning {
            Meaning::File(file) => match file {
                File::Input => true,
                File::Output => false,
            },
            Meaning::Constant { .. }
            | Meaning::Text(_)
            | Meaning::Type(_)
            | Meaning::Variable { .. }
            | Meaning::Parameter { .. }
            | Meaning::RoutineParameter { .. }
            | Meaning::Routine(_)
            | Meaning::Required(_)
            | Meaning::LeftOut => false,
        },
    }
}
