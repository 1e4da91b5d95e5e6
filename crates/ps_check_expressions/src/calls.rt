//! Calls of functions, and actual parameters (ISO 7185, 6.7.3 and 6.6.3).

ghost use Rattle.std.specs.Prelude.{map, option_map};
ghost use Rattle.ps_syntax.specs.First.{first_of_expr};
ghost use Rattle.ps_tree.specs.View.{type_of, argument_of};
ghost use Rattle.ps_check_judgement.specs.Judged.{Answers};
ghost use Rattle.ps_check_names.specs.SectionViews.{section_of};
ghost use Rattle.ps_check_expressions.specs.Calls.{passed_variable, named_routine, actual, actuals, required_call};
ghost use Rattle.ps_check_expressions.specs.Expressions.{call_value, operand, term_operand};
ghost use Rattle.ps_check_expressions.specs.View.{context_at, regions_at, value_of, variable_of};

use crate::alone::{
    called_parameter, called_routine, is_the_input, look_at_input, look_at_name, name_alone,
};
use crate::changed::changed;
use crate::expression::expr_value;
use crate::function::{is_procedure, required_value};
use crate::parameter::{by_routine, by_value, by_variable, parameters};
use crate::site::Site;
use crate::value::{TypedPlace, TypedValue};
use crate::variables::variable_place;
use ps_check_judgement::answer::{broken, push_answer};
use ps_check_judgement::change::Change;
use ps_check_judgement::refusal::{CheckFault, Rule};
use ps_check_names::constants::misplacement;
use ps_check_names::meaning::{Meaning, Required};
use ps_check_names::scope::Found;
use ps_check_names::sections::{Section, SectionList};
use ps_syntax::{Expr as Syntax, Factor, Term};
use ps_text::Span;
use ps_tree::tree::Argument;
use ps_tree::types::Ty;

/// The value of a function that a name denotes, with its actual parameters.
#[cycle(expression)]
#[inline(never)]
#[tactic(auto, unfolding(crate::specs::Calls::called, ps_check_names::specs::Views::meaning_of))]
pub(crate) fn call_value(
    operands: &[Syntax],
    site: &Site<'_>,
    changes: &mut Vec<Change>,
    name: Span,
) -> Result<TypedValue, CheckFault>
    ensures { Answers result (λ v. (value_of v, changes.new.items))
        (call_value (context_at site.now) (regions_at site.now) name
        (map (operand (context_at site.now) (regions_at site.now)) operands.now) changes.old.items) }
{
    let found = site.denoted(name)?;
    let at = name.from;
    match found {
        Found::Field { .. } => Err(broken(misplacement(&found), at)),
        Found::Name { up, meaning } => match meaning {
            Meaning::Routine(heading) => {
                let sections = &heading.sections;
                let arguments = argument_all(operands, site, changes, sections, at);
                called_routine(site, heading.number, up, &heading.result, arguments, at)
            }
            Meaning::RoutineParameter {
                entry,
                sections,
                result: outcome,
            } => {
                let arguments = argument_all(operands, site, changes, sections, at);
                called_parameter(site, *entry, up, outcome, arguments, at)
            }
            Meaning::Required(required) => required_call(operands, site, changes, *required, name),
            Meaning::Constant { .. }
            | Meaning::Text(_)
            | Meaning::Type(_)
            | Meaning::Variable { .. }
            | Meaning::Parameter { .. }
            | Meaning::File(_)
            | Meaning::LeftOut => Err(broken(misplacement(&found), at)),
        },
    }
}

/// The value of a required function (6.6.6).
#[cycle(expression)]
#[inline(never)]
#[tactic(auto, unfolding(crate::specs::Calls::required_call, crate::specs::Calls::function_call))]
fn required_call(
    operands: &[Syntax],
    site: &Site<'_>,
    changes: &mut Vec<Change>,
    required: Required,
    name: Span,
) -> Result<TypedValue, CheckFault>
    ensures { Answers result (λ v. (value_of v, changes.new.items))
        (required_call (context_at site.now) (regions_at site.now) name.from required
        (map (operand (context_at site.now) (regions_at site.now)) operands.now) changes.old.items) }
{
    let at = name.from;
    if is_procedure(required) {
        return Err(broken(Rule::WrongKind, at));
    }
    match operands {
        [] => look_at_input(site, required, at),
        [only] => {
            let line = site.reading.line(at);
            let first = only.first_token();
            if is_the_input(site, only)? {
                return look_at_name(required, line, first);
            }
            match expr_value(only, site, changes) {
                Ok(operand) => required_value(site.alloc, required, line, operand, first),
                Err(fault) => Err(fault),
            }
        }
        [_, _, ..] => Err(broken(Rule::NotCongruous, at)),
    }
}

/// The actual parameters of a call whose name is at `at`.
#[cycle(expression)]
#[inline(always)]
pub(crate) fn argument_all(
    operands: &[Syntax],
    site: &Site<'_>,
    changes: &mut Vec<Change>,
    sections: &SectionList,
    at: u32,
) -> Result<Vec<Argument>, CheckFault>
    ensures { Answers result (λ list. (map argument_of list.items, changes.new.items))
        (actuals (context_at site.now) (regions_at site.now) at sections.now
        (map (operand (context_at site.now) (regions_at site.now)) operands.now) changes.old.items) }
{
    let formals = parameters(site.alloc, sections)?;
    if formals.len() != operands.len() {
        return Err(broken(Rule::NotCongruous, at));
    }
    let mut list = Vec::new(site.alloc);
    for i in 0..operands.len() {
        push_answer(&mut list, argument(&operands[i], site, changes, formals[i]))?;
    }
    Ok(list)
}

/// A variable that begins at `at` as a variable parameter, for a formal one of type `ty`: it is changed there.
#[inline(never)]
fn passed(
    site: &Site<'_>,
    changes: &mut Vec<Change>,
    ty: &Ty,
    variable: TypedPlace,
    at: u32,
) -> Result<Argument, CheckFault>
    ensures { Answers result (λ a. (argument_of a, changes.new.items))
        (passed_variable (context_at site.now) (regions_at site.now) at (type_of ty.now)
        (variable_of variable) changes.old.items) }
{
    changed(site, changes, &variable.place, at)?;
    by_variable(ty, variable, at)
}

/// A routine as an actual parameter, for a formal one with these sections and this result.
#[inline(never)]
fn routine(
    site: &Site<'_>,
    expression: &Syntax,
    sections: &SectionList,
    outcome: &Option<Ty>,
) -> Result<Argument, CheckFault>
    ensures { Answers result (λ a. argument_of a)
        (named_routine (context_at site.now) (regions_at site.now) sections.now (option_map type_of outcome.now)
        (first_of_expr expression.now) (operand (context_at site.now) (regions_at site.now) expression.now).name) }
{
    match name_alone(expression) {
        None => Err(broken(Rule::WrongKind, expression.first_token())),
        Some(name) => by_routine(sections, outcome, site.denoted(name)?, name.from),
    }
}

/// The actual parameter for a formal one (6.6.3).
#[cycle(expression)]
#[inline(never)]
pub fn argument(
    expression: &Syntax,
    site: &Site<'_>,
    changes: &mut Vec<Change>,
    section: &Section,
) -> Result<Argument, CheckFault>
    ensures { Answers result (λ a. (argument_of a, changes.new.items))
        (actual (context_at site.now) (regions_at site.now) (section_of section.now)
        (operand (context_at site.now) (regions_at site.now) expression.now) changes.old.items) }
{
    let at = expression.first_token();
    match section {
        Section::Value { ty, .. } => match expr_value(expression, site, changes) {
            Ok(value) => by_value(ty, value, site.reading.line(at), at),
            Err(fault) => Err(fault),
        },
        Section::Variable { ty, .. } => match referent(expression, site, changes) {
            Ok(variable) => passed(site, changes, ty, variable, at),
            Err(fault) => Err(fault),
        },
        Section::Routine {
            sections,
            result: outcome,
        } => routine(site, expression, sections, outcome),
    }
}

/// An expression that is a variable alone.
#[cycle(expression)]
#[inline(never)]
pub fn referent(
    expression: &Syntax,
    site: &Site<'_>,
    changes: &mut Vec<Change>,
) -> Result<TypedPlace, CheckFault>
    ensures { Answers result (λ v. (variable_of v, changes.new.items))
        ((operand (context_at site.now) (regions_at site.now) expression.now).variable changes.old.items) }
{
    match expression {
        Syntax::Compare(..) => Err(broken(Rule::WrongKind, expression.first_token())),
        Syntax::Simple(simple) => match &simple.sign {
            Some(_) => Err(broken(Rule::WrongKind, expression.first_token())),
            None => {
                if simple.more.is_empty() {
                    term_referent(&simple.first, site, changes)
                } else {
                    Err(broken(Rule::WrongKind, expression.first_token()))
                }
            }
        },
    }
}

/// A term that is a variable alone.
#[cycle(expression)]
#[inline(never)]
#[tactic(auto, using(crate::proofs::Judgement::term_variable, crate::proofs::Equations::factor_call, crate::proofs::Equations::factor_number, crate::proofs::Equations::factor_text, crate::proofs::Equations::factor_nil, crate::proofs::Equations::factor_set, crate::proofs::Equations::factor_group, crate::proofs::Equations::factor_not))]
fn term_referent(
    term: &Term,
    site: &Site<'_>,
    changes: &mut Vec<Change>,
) -> Result<TypedPlace, CheckFault>
    ensures { Answers result (λ v. (variable_of v, changes.new.items))
        ((term_operand (context_at site.now) (regions_at site.now) term.now).variable changes.old.items) }
{
    if !term.more.is_empty() {
        return Err(broken(Rule::WrongKind, term.first_token()));
    }
    match &term.first {
        Factor::Variable(variable) => variable_place(variable, site, changes),
        Factor::Call(..)
        | Factor::Number(_)
        | Factor::Text(_)
        | Factor::Nil(_)
        | Factor::Set(..)
        | Factor::Group(..)
        | Factor::Not(..) => Err(broken(Rule::WrongKind, term.first_token())),
    }
}
