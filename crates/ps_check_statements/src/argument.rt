// Actual parameters of procedures (6.6.3). Only write and writeln have widths.

ghost use Rattle.std.specs.Prelude.{◌≡◌, map, option_map};
ghost use Rattle.ps_tree.specs.View.{argument_of, type_of};
ghost use Rattle.ps_check_judgement.specs.Judged.{Answers};
ghost use Rattle.ps_check_names.specs.SectionViews.{section_of};
ghost use Rattle.ps_check_expressions.specs.View.{context_at, regions_at, variable_of};
ghost use Rattle.ps_check_statements.specs.Procedures.{first_of_parameter, actual_parameter, procedure_parameters};
ghost use Rattle.ps_check_statements.specs.Procedures.{parameter_variable};

use ps_check_expressions::calls::{argument, referent};
use ps_check_expressions::parameter::parameters;
use ps_check_expressions::site::Site;
use ps_check_expressions::value::TypedPlace;
use ps_check_judgement::answer::{broken, push_answer};
use ps_check_judgement::change::Change;
use ps_check_judgement::refusal::{CheckFault, Rule};
use ps_check_names::sections::{Section, SectionList};
use ps_syntax::Parameter;
use ps_tree::tree::Argument;
use ps_tree::types::Ty;

/// Where a parameter begins.
#[tactic(auto, unfolding(crate::specs::Procedures::first_of_parameter))]
pub(crate) fn first_token(parameter: &Parameter) -> u32
    ensures { result ≡ first_of_parameter parameter.now }
{
    match parameter {
        Parameter::Plain(expression) | Parameter::Width(expression, _) => expression.first_token(),
    }
}

/// A parameter, which must be a variable.
#[tactic(auto, unfolding(crate::specs::Procedures::parameter_variable))]
pub(crate) fn parameter_variable(
    parameter: &Parameter,
    site: &Site<'_>,
    changes: &mut Vec<Change>,
) -> Result<TypedPlace, CheckFault>
    ensures { Answers result (λ v. (variable_of v, changes.new.items))
        (parameter_variable (context_at site.now) (regions_at site.now) parameter.now changes.old.items) }
{
    match parameter {
        Parameter::Plain(expression) => referent(expression, site, changes),
        Parameter::Width(_, width) => Err(broken(Rule::WrongType, width.get().first_token())),
    }
}

/// The actual parameter for a formal one.
#[tactic(auto, unfolding(crate::specs::Procedures::actual_parameter))]
fn actual_parameter(
    parameter: &Parameter,
    site: &Site<'_>,
    changes: &mut Vec<Change>,
    section: &Section,
) -> Result<Argument, CheckFault>
    ensures { Answers result (λ a. (argument_of a, changes.new.items))
        (actual_parameter (context_at site.now) (regions_at site.now)
        (section_of section.now) parameter.now changes.old.items) }
{
    match parameter {
        Parameter::Plain(expression) => argument(expression, site, changes, section),
        Parameter::Width(_, width) => Err(broken(Rule::WrongType, width.get().first_token())),
    }
}

/// The actual parameters of a procedure, which has no result. Its name is at `at`.
pub(crate) fn actual_parameters(
    list: &[Parameter],
    site: &Site<'_>,
    changes: &mut Vec<Change>,
    sections: &SectionList,
    outcome: &Option<Ty>,
    at: u32,
) -> Result<Vec<Argument>, CheckFault>
    ensures { Answers result (λ arguments. (map argument_of arguments.items, changes.new.items))
        (procedure_parameters (context_at site.now) (regions_at site.now) at (option_map type_of outcome.now)
        sections.now list.now changes.old.items) }
{
    if outcome.is_some() {
        return Err(broken(Rule::WrongKind, at));
    }
    let formals = parameters(site.alloc, sections)?;
    if formals.len() != list.len() {
        return Err(broken(Rule::NotCongruous, at));
    }
    let mut arguments = Vec::new(site.alloc);
    for i in 0..list.len() {
        push_answer(
            &mut arguments,
            actual_parameter(&list[i], site, changes, formals[i]),
        )?;
    }
    Ok(arguments)
}
