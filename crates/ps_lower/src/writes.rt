// The code of write and writeln.

ghost use Rattle.std.specs.Prelude.{◌≡◌, ◌++◌, ◌+◌, ◌≤◌, ◌∷◌, [], pos, map, OnOk};
ghost use Rattle.ps_lower_bounds.specs.Weights.{width_weight, write_weight, writes_weight};
ghost use Rattle.ps_lower_code.specs.Scopes.{even_from};
ghost use Rattle.ps_lower_code.specs.Statements.{width_code, write_code, writes_code};
ghost use Rattle.ps_lower.specs.Levels.{scope_of};
ghost use Rattle.ps_tree.specs.Tree as tree;
ghost use Rattle.ps_tree.specs.View.{expr_of, structure_of, width_of, write_of};
ghost use Rattle.tac_code.specs.declared.code.Instruction.TheVariants as i;

use crate::calling::width_calls;
use crate::depth::{MAX_NUMBER, beside, even_above, even_from, held};
use crate::helpers::{amount, help};
use crate::known::literal;
use crate::level::Level;
use crate::out::Code;
use crate::pieces::check;
use crate::texts::{text_length, truth_text};
use crate::values::{structure, value};
use ps_tree::tree::{Expr, Structure, Width, WriteParameter};
use std::alloc::AllocError;
use tac_code::code::Instruction;
use tac_rt::RunTime;

/// The width of a parameter, or its default.
#[tactic(auto, unfolding(ps_tree::specs::View::width_of))]
fn width(
    out: &mut Code,
    level: &Level,
    width: &Width,
    default: u32,
    t: u32,
) -> Result<(), AllocError>
    requires default { default ≤ MAX_NUMBER }
    requires depth { t + width_weight (scope_of level.now) (width_of width.now) ≤ MAX_NUMBER }
    ensures { OnOk result (out.new ≡ out.old ++ width_code (scope_of level.now) (width_of width.now) default t) }
{
    match width {
        Width::Default => amount(out, default, t),
        Width::Given { value: e, line } => {
            value(out, level, e, t, 0)?;
            check(out, literal(e), t, 1, i32::MAX, 11, *line)
        }
    }
}

/// A number and its width, and the call that writes them.
fn write_number(
    out: &mut Code,
    level: &Level,
    e: &Expr,
    given: &Width,
    d: u32,
) -> Result<(), AllocError>
    requires { d + write_weight (scope_of level.now) (tree.WriteInteger (expr_of e.now) (width_of given.now))
        ≤ MAX_NUMBER }
    ensures { OnOk result (out.new ≡ out.old ++ write_code (scope_of level.now)
        (tree.WriteInteger (expr_of e.now) (width_of given.now)) d) }
{
    let t = held(width_calls(given), d);
    let w = even_above(t);
    value(out, level, e, t, 0)?;
    width(out, level, given, 11, w)?;
    help(out, level, RunTime::WriteNumber, &[t, w], even_from(d))
}

/// The same for a character.
fn write_character(
    out: &mut Code,
    level: &Level,
    e: &Expr,
    given: &Width,
    d: u32,
) -> Result<(), AllocError>
    requires { d + write_weight (scope_of level.now) (tree.WriteChar (expr_of e.now) (width_of given.now))
        ≤ MAX_NUMBER }
    ensures { OnOk result (out.new ≡ out.old ++ write_code (scope_of level.now)
        (tree.WriteChar (expr_of e.now) (width_of given.now)) d) }
{
    let t = held(width_calls(given), d);
    let w = even_above(t);
    value(out, level, e, t, 0)?;
    width(out, level, given, 1, w)?;
    help(out, level, RunTime::WriteCharacter, &[t, w], even_from(d))
}

/// A truth value and its width, the string for that value, and the call that writes it.
fn write_truth(
    out: &mut Code,
    level: &Level,
    e: &Expr,
    given: &Width,
    d: u32,
) -> Result<(), AllocError>
    requires { d + write_weight (scope_of level.now) (tree.WriteBoolean (expr_of e.now) (width_of given.now))
        ≤ MAX_NUMBER }
    ensures { OnOk result (out.new ≡ out.old ++ write_code (scope_of level.now)
        (tree.WriteBoolean (expr_of e.now) (width_of given.now)) d) }
{
    let t = held(width_calls(given), d);
    let w = even_above(t);
    let string = beside(w);
    let size = beside(string);
    value(out, level, e, t, 0)?;
    width(out, level, given, 5, w)?;
    truth_text(out, t, string, size)?;
    help(
        out,
        level,
        RunTime::WriteString,
        &[string, size, w],
        even_from(d),
    )
}

/// A string's address, its width and its length, and the call that writes it.
fn write_string(
    out: &mut Code,
    level: &Level,
    e: &Structure,
    given: &Width,
    d: u32,
) -> Result<(), AllocError>
    requires { d + write_weight (scope_of level.now)
        (tree.WriteText (structure_of e.now) (width_of given.now)) ≤ MAX_NUMBER }
    ensures { OnOk result (out.new ≡ out.old ++ write_code (scope_of level.now)
        (tree.WriteText (structure_of e.now) (width_of given.now)) d) }
{
    let t = held(width_calls(given), d);
    let w = even_above(t);
    let size = beside(w);
    let length = text_length(e);
    structure(out, level, e, t, 0)?;
    width(out, level, given, length, w)?;
    amount(out, length, size)?;
    help(
        out,
        level,
        RunTime::WriteString,
        &[t, size, w],
        even_from(d),
    )
}

#[tactic(auto, unfolding(ps_tree::specs::View::write_of))]
fn write(
    out: &mut Code,
    level: &Level,
    parameter: &WriteParameter,
    d: u32,
) -> Result<(), AllocError>
    requires { d + write_weight (scope_of level.now) (write_of parameter.now) ≤ MAX_NUMBER }
    ensures { OnOk result (out.new ≡ out.old ++ write_code (scope_of level.now) (write_of parameter.now) d) }
{
    match parameter {
        WriteParameter::Integer { value, width } => write_number(out, level, value, width, d),
        WriteParameter::Char { value, width } => write_character(out, level, value, width, d),
        WriteParameter::Boolean { value, width } => write_truth(out, level, value, width, d),
        WriteParameter::Text { value, width } => write_string(out, level, value, width, d),
    }
}

/// The parameters of write or writeln, one after another.
pub fn writes(
    out: &mut Code,
    level: &Level,
    parameters: &[WriteParameter],
    d: u32,
) -> Result<(), AllocError>
    requires { d + writes_weight (scope_of level.now) (map write_of parameters.now) ≤ MAX_NUMBER }
    ensures { OnOk result (out.new ≡ out.old ++ writes_code (scope_of level.now) (map write_of parameters.now) d) }
{
    for parameter in parameters {
        write(out, level, parameter, d)?;
    }
    Ok(())
}

/// The same, and the end of the line.
pub fn writeln(
    out: &mut Code,
    level: &Level,
    parameters: &[WriteParameter],
    d: u32,
) -> Result<(), AllocError>
    requires { d + writes_weight (scope_of level.now) (map write_of parameters.now) ≤ MAX_NUMBER }
    ensures { OnOk result (out.new ≡ out.old ++ (writes_code (scope_of level.now) (map write_of parameters.now) d
        ++ i.Literal (even_from d) (pos 10) ∷ i.Put (even_from d) ∷ [])) }
{
    writes(out, level, parameters, d)?;
    out.literal(even_from(d), 10)?;
    out.push(Instruction::Put { from: even_from(d) })
}
