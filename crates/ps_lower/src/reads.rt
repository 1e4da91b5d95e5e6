// The code of read and readln.

ghost use Rattle.std.specs.Prelude.{◌≡◌, ◌++◌, ◌+◌, ◌≤◌, ◌∷◌, [], pos, true, None, map, OnOk};
ghost use Rattle.ps_lower_bounds.specs.Weights.{read_weight, reads_weight, statement_weight};
ghost use Rattle.tac_rt.specs.declared.run_time.RunTime.TheVariants.{ReadCharacter, ReadNumber, ReadLine};
ghost use Rattle.ps_lower_code.specs.Scopes.{even_from, beside, greatest, range_code, fitting_code, site_code};
ghost use Rattle.ps_lower_code.specs.Scopes.{input_site, helper};
ghost use Rattle.ps_lower_code.specs.Statements.{read_code, reads_code, statement_code};
ghost use Rattle.ps_lower.specs.Levels.{scope_of};
ghost use Rattle.ps_lower.specs.Reads.{character_taken, number_taken, line_taken};
ghost use Rattle.ps_tree.specs.Tree as tree;
ghost use Rattle.ps_tree.specs.declared.tree.operators.Range.TheVariants.{Within};
ghost use Rattle.ps_tree.specs.View.{place_of, read_of};
ghost use Rattle.tac_code.specs.declared.code.Base.TheVariants as base;
ghost use Rattle.tac_code.specs.declared.code.Instruction.TheVariants as i;

use crate::depth::{MAX_NUMBER, beside, even_above, even_from, held};
use crate::helpers::help;
use crate::input::input;
use crate::known::has_bytes;
use crate::level::Level;
use crate::out::Code;
use crate::pieces::range;
use crate::places::{address, is_byte, keep};
use crate::values::place;
use ps_tree::line::Line;
use ps_tree::tree::{Place, ReadVariable};
use std::alloc::AllocError;
use tac_code::code::Base;
use tac_rt::RunTime;

/// The address of the words that record how much of the input was read ahead.
fn ahead(out: &mut Code, level: &Level, t: u32) -> Result<(), AllocError>
    ensures { OnOk result (out.new ≡ out.old ++ site_code t (input_site (scope_of level.now)) 8) }
{
    let site = input(level);
    address(out, t, site, 8)
}

/// The test that a number is in a variable's range.
fn fits(out: &mut Code, t: u32, low: &i32, high: &i32, line: Line) -> Result<(), AllocError>
    ensures { OnOk result (out.new ≡ out.old ++ range_code t low.now high.now 4 line.number) }
{
    range(out, t, *low, *high, 4, line)
}

/// The same for a byte, which needs none if the range has all bytes.
fn byte_fits(out: &mut Code, t: u32, low: &i32, high: &i32, line: Line) -> Result<(), AllocError>
    ensures { OnOk result (out.new ≡ out.old ++ fitting_code true None t (Within low.now high.now) line.number) }
{
    if has_bytes(*low, *high) {
        Ok(())
    } else {
        fits(out, t, low, high, line)
    }
}

/// A character from the input whose address is in a, or error 9.
fn take_character(
    out: &mut Code,
    level: &Level,
    a: u32,
    low: &i32,
    high: &i32,
    line: Line,
) -> Result<(), AllocError>
    ensures { OnOk result (out.new ≡ out.old ++ character_taken (scope_of level.now) low.now high.now line.number a) }
{
    help(out, level, RunTime::ReadCharacter, &[a], a)?;
    out.check_range(a, 0, i32::MAX, 9, line)?;
    byte_fits(out, a, low, high, line)
}

/// The test of how reading a number ended: error 9 at the end of the input, 10 if there is no number, 4 if it is too
/// large.
fn check_number(out: &mut Code, a: u32, line: Line) -> Result<(), AllocError>
    ensures { OnOk result (out.new ≡ out.old ++ (i.CheckRange a (pos 0) (pos 2) 9 line.number ∷ i.CheckRange a (pos 0)
        (pos 1) 10 line.number ∷ i.CheckRange a (pos 0) (pos 0) 4 line.number ∷ [])) }
{
    out.check_range(a, 0, 2, 9, line)?;
    out.check_range(a, 0, 1, 10, line)?;
    out.check_range(a, 0, 0, 4, line)
}

/// A number from the input whose address is in a.
fn take_number(
    out: &mut Code,
    level: &Level,
    a: u32,
    low: &i32,
    high: &i32,
    line: Line,
) -> Result<(), AllocError>
    requires { a ≤ 4294960000 }
    ensures { OnOk result (out.new ≡ out.old ++ number_taken (scope_of level.now) low.now high.now line.number a) }
{
    let into = beside(a);
    out.offset(into, Base::Scratch, 0, 4)?;
    help(out, level, RunTime::ReadNumber, &[a, into], a)?;
    check_number(out, a, line)?;
    out.load(a, Base::Scratch, 0)?;
    fits(out, a, low, high, line)
}

fn read_character(
    out: &mut Code,
    level: &Level,
    target: &Place,
    low: &i32,
    high: &i32,
    line: Line,
    d: u32,
) -> Result<(), AllocError>
    requires { d + read_weight (scope_of level.now)
        (tree.ReadChar (place_of target.now) low.now high.now line.number) ≤ MAX_NUMBER }
    ensures { OnOk result (out.new ≡ out.old ++ read_code (scope_of level.now)
        (tree.ReadChar (place_of target.now) low.now high.now line.number) d) }
{
    let t = held(true, d);
    let a = even_above(t);
    let site = place(out, level, target, t, 0)?;
    ahead(out, level, a)?;
    take_character(out, level, a, low, high, line)?;
    keep(out, is_byte(target), site, a)
}

fn read_number(
    out: &mut Code,
    level: &Level,
    target: &Place,
    low: &i32,
    high: &i32,
    line: Line,
    d: u32,
) -> Result<(), AllocError>
    requires { d + read_weight (scope_of level.now)
        (tree.ReadInteger (place_of target.now) low.now high.now line.number) ≤ MAX_NUMBER }
    ensures { OnOk result (out.new ≡ out.old ++ read_code (scope_of level.now)
        (tree.ReadInteger (place_of target.now) low.now high.now line.number) d) }
{
    let t = held(true, d);
    let a = even_above(t);
    let site = place(out, level, target, t, 0)?;
    ahead(out, level, a)?;
    take_number(out, level, a, low, high, line)?;
    keep(out, is_byte(target), site, a)
}

#[tactic(auto, unfolding(ps_tree::specs::View::read_of))]
fn read(out: &mut Code, level: &Level, variable: &ReadVariable, d: u32) -> Result<(), AllocError>
    requires { d + read_weight (scope_of level.now) (read_of variable.now) ≤ MAX_NUMBER }
    ensures { OnOk result (out.new ≡ out.old ++ read_code (scope_of level.now) (read_of variable.now) d) }
{
    match variable {
        ReadVariable::Char {
            place,
            low,
            high,
            line,
        } => read_character(out, level, place, low, high, *line, d),
        ReadVariable::Integer {
            place,
            low,
            high,
            line,
        } => read_number(out, level, place, low, high, *line, d),
    }
}

/// The variables of read or readln, one after another.
pub fn reads(
    out: &mut Code,
    level: &Level,
    variables: &[ReadVariable],
    d: u32,
) -> Result<(), AllocError>
    requires { d + reads_weight (scope_of level.now) (map read_of variables.now) ≤ MAX_NUMBER }
    ensures { OnOk result (out.new ≡ out.old ++ reads_code (scope_of level.now) (map read_of variables.now) d) }
{
    for variable in variables {
        read(out, level, variable, d)?;
    }
    Ok(())
}

/// The rest of the line, or error 9 at the end of the input.
fn take_line(out: &mut Code, level: &Level, a: u32, line: Line) -> Result<(), AllocError>
    ensures { OnOk result (out.new ≡ out.old ++ line_taken (scope_of level.now) line.number a) }
{
    help(out, level, RunTime::ReadLine, &[a], a)?;
    out.check_range(a, 0, 0, 9, line)
}

/// The variables of readln, and the rest of the line.
pub fn readln(
    out: &mut Code,
    level: &Level,
    variables: &[ReadVariable],
    line: Line,
    d: u32,
) -> Result<(), AllocError>
    requires { d + reads_weight (scope_of level.now) (map read_of variables.now) ≤ MAX_NUMBER }
    ensures { OnOk result (out.new ≡ out.old ++ statement_code (scope_of level.now)
        (tree.Readln (map read_of variables.now) line.number) d) }
{
    let a = even_from(d);
    reads(out, level, variables, d)?;
    ahead(out, level, a)?;
    take_line(out, level, a, line)
}
