// The parameters of read, readln, write and writeln (6.9).

ghost use Rattle.std.specs.Prelude.{◌≡◌, map, IfOk, IfErr, Some, None};
ghost use Rattle.ps_tree.specs.View.{expr_of, type_of, place_of, read_of, write_of, width_of, statement_of};
ghost use Rattle.ps_check_judgement.specs.Judged.{Answers};
ghost use Rattle.ps_check_expressions.specs.View.{context_at, regions_at, value_of};
ghost use Rattle.ps_check_statements.specs.Procedures as spec;

use crate::argument::{first_token, parameter_variable};
use crate::file::behind_file;
use ps_check_expressions::changed::changed;
use ps_check_expressions::expression::expr_value;
use ps_check_expressions::site::Site;
use ps_check_expressions::value::{TypedPlace, TypedValue, is_integer};
use ps_check_judgement::answer::{broken, paired, push_answer};
use ps_check_judgement::change::Change;
use ps_check_judgement::refusal::{CheckFault, Rule};
use ps_check_names::meaning::File;
use ps_syntax::{Expr as Syntax, Parameter};
use ps_tree::line::Line;
use ps_tree::tree::{Expr, ReadVariable, Statement, Width, WriteParameter};
use ps_tree::types::{Host, Ordinal, Ty};

/// A variable that is read, which begins at `at`.
#[tactic(auto, unfolding(crate::specs::Procedures::read_variable, ps_tree::specs::View::type_of, ps_tree::specs::View::read_of))]
fn read_variable(variable: TypedPlace, line: Line, at: u32) -> Result<ReadVariable, CheckFault>
    ensures { Answers result (λ v. read_of v)
        (spec.read_variable at (place_of variable.place) (type_of variable.ty) line.number) }
{
    let TypedPlace { place, ty, .. } = variable;
    let Ty::Simple(ordinal) = &ty else {
        return Err(broken(Rule::WrongType, at));
    };
    let Ordinal {
        host,
        low,
        high,
        ..
    } = *ordinal;
    match host {
        Host::Char => Ok(ReadVariable::Char {
            place,
            low,
            high,
            line,
        }),
        Host::Integer => Ok(ReadVariable::Integer {
            place,
            low,
            high,
            line,
        }),
        Host::Boolean | Host::Enumeration { .. } => Err(broken(Rule::WrongType, at)),
    }
}

/// A parameter of read or readln.
#[tactic(auto, unfolding(crate::specs::Procedures::read_parameter))]
fn read_parameter(
    parameter: &Parameter,
    site: &Site<'_>,
    changes: &mut Vec<Change>,
) -> Result<ReadVariable, CheckFault>
    ensures { Answers result (λ v. (read_of v, changes.new.items))
        (spec.read_parameter (context_at site.now) (regions_at site.now) parameter.now changes.old.items) }
{
    let at = first_token(parameter);
    let variable = parameter_variable(parameter, site, changes)?;
    changed(site, changes, &variable.place, at)?;
    read_variable(variable, site.reading.line(at), at)
}

/// The parameters of read or readln after the file. The routine's name is at `at`.
pub(crate) fn read_parameters(
    parameters: &[Parameter],
    site: &Site<'_>,
    changes: &mut Vec<Change>,
    at: u32,
) -> Result<Vec<ReadVariable>, CheckFault>
    ensures { Answers result (λ list. (map read_of list.items, changes.new.items))
        (spec.read_parameters (context_at site.now) (regions_at site.now) at parameters.now changes.old.items) }
{
    let rest = behind_file(site, File::Input, site.reading.has_input, parameters, at)?;
    let mut list = Vec::new(site.alloc);
    for parameter in rest {
        push_answer(&mut list, read_parameter(parameter, site, changes))?;
    }
    Ok(list)
}

/// read, which must have at least one variable. Its name is at `at`.
#[tactic(auto, unfolding(crate::specs::Procedures::read_of, ps_tree::specs::View::statement_of))]
pub(crate) fn read(variables: Vec<ReadVariable>, at: u32) -> Result<Statement, CheckFault>
    ensures { Answers result (λ s. statement_of s) (spec.read_of at (map read_of variables.items)) }
{
    if variables.is_empty() {
        return Err(broken(Rule::NotCongruous, at));
    }
    Ok(Statement::Read { variables })
}

/// A value that is written, which begins at `at`.
#[tactic(auto, unfolding(crate::specs::Procedures::ordinal_written, ps_tree::specs::View::write_of))]
fn ordinal_written(
    value: Expr,
    ordinal: Ordinal,
    width: Width,
    at: u32,
) -> Result<WriteParameter, CheckFault>
    ensures { Answers result (λ p. write_of p) (spec.ordinal_written at (expr_of value) ordinal (width_of width)) }
{
    match ordinal.host {
        Host::Integer => Ok(WriteParameter::Integer { value, width }),
        Host::Char => Ok(WriteParameter::Char { value, width }),
        Host::Boolean => Ok(WriteParameter::Boolean { value, width }),
        Host::Enumeration { .. } => Err(broken(Rule::WrongType, at)),
    }
}

/// A value that is written, which begins at `at`.
#[tactic(auto, unfolding(crate::specs::Procedures::written, ps_check_expressions::specs::View::value_of, ps_tree::specs::View::type_of, ps_tree::specs::View::write_of))]
fn written(value: TypedValue, width: Width, at: u32) -> Result<WriteParameter, CheckFault>
    ensures { Answers result (λ p. write_of p) (spec.written at (value_of value) (width_of width)) }
{
    match value {
        TypedValue::Simple(value, ty) => match &ty {
            Ty::Simple(ordinal) => ordinal_written(value, *ordinal, width, at),
            _ => Err(broken(Rule::WrongType, at)),
        },
        TypedValue::Structure(value, ty) => {
            let is_string = ty.string_length().is_some();
            drop(ty);
            if is_string {
                Ok(WriteParameter::Text { value, width })
            } else {
                Err(broken(Rule::WrongType, at))
            }
        }
        value @ TypedValue::Set(..) => {
            drop(value);
            Err(broken(Rule::WrongType, at))
        }
    }
}

/// A width, which must be an integer.
#[tactic(auto, unfolding(crate::specs::Procedures::width_of, ps_check_expressions::specs::View::value_of, ps_tree::specs::View::width_of))]
fn width_at(
    expression: &Syntax,
    site: &Site<'_>,
    changes: &mut Vec<Change>,
) -> Result<Width, CheckFault>
    ensures { Answers result (λ w. (width_of w, changes.new.items))
        (spec.width_at (context_at site.now) (regions_at site.now) expression.now changes.old.items) }
{
    let at = expression.first_token();
    match expr_value(expression, site, changes)? {
        TypedValue::Simple(value, ty) => {
            let is_right = is_integer(&ty);
            drop(ty);
            if is_right {
                let line = site.reading.line(at);
                Ok(Width::Given { value, line })
            } else {
                Err(broken(Rule::WrongType, at))
            }
        }
        value @ (TypedValue::Set(..) | TypedValue::Structure(..)) => {
            drop(value);
            Err(broken(Rule::WrongType, at))
        }
    }
}

/// A parameter of write or writeln.
#[tactic(auto, unfolding(crate::specs::Procedures::write_parameter, ps_tree::specs::View::width_of))]
fn write_parameter(
    parameter: &Parameter,
    site: &Site<'_>,
    changes: &mut Vec<Change>,
) -> Result<WriteParameter, CheckFault>
    ensures { Answers result (λ p. (write_of p, changes.new.items))
        (spec.write_parameter (context_at site.now) (regions_at site.now) parameter.now changes.old.items) }
{
    match parameter {
        Parameter::Plain(expression) => {
            let value = expr_value(expression, site, changes)?;
            written(value, Width::Default, expression.first_token())
        }
        Parameter::Width(expression, width) => {
            let value = expr_value(expression, site, changes);
            let (value, width) = paired(value, width_at(width.get(), site, changes))?;
            written(value, width, expression.first_token())
        }
    }
}

/// The parameters of write or writeln after the file. The routine's name is at `at`.
pub(crate) fn write_parameters(
    parameters: &[Parameter],
    site: &Site<'_>,
    changes: &mut Vec<Change>,
    at: u32,
) -> Result<Vec<WriteParameter>, CheckFault>
    ensures { Answers result (λ list. (map write_of list.items, changes.new.items))
        (spec.write_parameters (context_at site.now) (regions_at site.now) at parameters.now changes.old.items) }
{
    let rest = behind_file(site, File::Output, site.reading.has_output, parameters, at)?;
    let mut list = Vec::new(site.alloc);
    for parameter in rest {
        push_answer(&mut list, write_parameter(parameter, site, changes))?;
    }
    Ok(list)
}

/// write, which must have at least one parameter. Its name is at `at`.
#[tactic(auto, unfolding(crate::specs::Procedures::write_of, ps_tree::specs::View::statement_of))]
pub(crate) fn write(parameters: Vec<WriteParameter>, at: u32) -> Result<Statement, CheckFault>
    ensures { Answers result (λ s. statement_of s) (spec.write_of at (map write_of parameters.items)) }
{
    if parameters.is_empty() {
        return Err(broken(Rule::NotCongruous, at));
    }
    Ok(Statement::Write { parameters })
}
