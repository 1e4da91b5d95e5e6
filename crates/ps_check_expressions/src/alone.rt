//! Names used alone: which expressions are such, and what they denote (ISO 7185, 6.5 and 6.7).

ghost use Rattle.std.specs.Prelude.{◌≡◌, List, [], map, option_map, Ok, Err, IfOk, Some};
ghost use Rattle.std.specs.Prelude.{None};
ghost use Rattle.ps_tree.specs.View.{type_of, argument_of};
ghost use Rattle.ps_check_judgement.specs.declared.change.Change.{Change};
ghost use Rattle.ps_check_judgement.specs.declared.refusal.Rule.TheVariants.{WrongKind, NotInProfile};
ghost use Rattle.ps_check_judgement.specs.Judged.{Answers, some_or};
ghost use Rattle.ps_check_judgement.specs.Changing.{Changing};
ghost use Rattle.ps_check_expressions.specs.Carrying.{call_of};
ghost use Rattle.ps_check_names.specs.Regions.{Context, Region};
ghost use Rattle.ps_check_names.specs.Spelling.{line_in};
ghost use Rattle.ps_check_names.specs.Views.{point_of};
ghost use Rattle.ps_tree.specs.Tree as Tree;
ghost use Rattle.ps_check_expressions.specs.Values.{SimpleValue, argument_list};
ghost use Rattle.ps_check_expressions.specs.Calls.{actuals, parameters, called, required_call};
ghost use Rattle.ps_check_expressions.specs.Calls.{standing_alone, look, names_input};
ghost use Rattle.ps_check_expressions.specs.Expressions.{standing};
ghost use Rattle.ps_check_expressions.specs.Expressions.{operand};
ghost use Rattle.ps_check_expressions.specs.Expressions.{term_operand};
ghost use Rattle.ps_check_expressions.specs.View.{context_at, regions_at, value_of};

use crate::function::{is_input, is_procedure, look, of_constant};
use crate::parameter::parameters;
use crate::place::variable_found;
use crate::site::Site;
use crate::value::{TypedValue, loaded};
use ps_check_judgement::answer::{broken, paired};
use ps_check_judgement::change::Change;
use ps_check_judgement::refusal::{CheckFault, Rule};
use ps_check_names::constants::{ConstantValue, misplacement};
use ps_check_names::meaning::{Meaning, Required};
use ps_check_names::scope::Found;
use ps_check_names::sections::SectionList;
use ps_syntax::{Expr as Syntax, Factor, Simple, Term, Variable};
use ps_text::Span;
use ps_tree::line::Line;
use ps_tree::tree::{Argument, Expr};
use ps_tree::types::{Ordinal, Ty};
use std::alloc::AllocError;

/// The type of a function's result; its name is at `at`.
#[inline(never)]
fn result_type(ty: &Option<Ty>, at: u32) -> Result<Ty, CheckFault>
    ensures { Answers result (λ t. type_of t) (some_or WrongKind at (option_map type_of ty.now)) }
{
    match ty {
        None => Err(broken(Rule::WrongKind, at)),
        Some(ty) => Ok(ty.copy()?),
    }
}

/// The name that a term is, if it is nothing else.
#[tactic(auto, using(crate::proofs::Judgement::term_name, crate::proofs::Equations::factor_call, crate::proofs::Equations::factor_number, crate::proofs::Equations::factor_text, crate::proofs::Equations::factor_nil, crate::proofs::Equations::factor_set, crate::proofs::Equations::factor_group, crate::proofs::Equations::factor_not))]
fn term_name(term: &Term) -> Option<Span>
    ensures { (c : Context) (Γ : List Region) → (term_operand c Γ term.now).name ≡ result }
{
    if !term.more.is_empty() {
        return None;
    }
    match &term.first {
        Factor::Variable(variable) => {
            if variable.selectors.is_empty() {
                Some(variable.name)
            } else {
                None
            }
        }
        Factor::Call(..)
        | Factor::Number(_)
        | Factor::Text(_)
        | Factor::Nil(_)
        | Factor::Set(..)
        | Factor::Group(..)
        | Factor::Not(..) => None,
    }
}

/// The name that an expression is, if it is nothing else.
#[tactic(auto, using(crate::proofs::Equations::operand_simple, crate::proofs::Equations::operand_compare, crate::proofs::Judgement::simple_name, crate::proofs::Judgement::simple_no_name, crate::proofs::Judgement::signed_no_name))]
pub fn name_alone(expression: &Syntax) -> Option<Span>
    ensures { (c : Context) (Γ : List Region) → (operand c Γ expression.now).name ≡ result }
{
    match expression {
        Syntax::Compare(..) => None,
        Syntax::Simple(simple) => match &simple.sign {
            Some(_) => None,
            None => {
                if simple.more.is_empty() {
                    term_name(&simple.first)
                } else {
                    None
                }
            }
        },
    }
}

/// Whether an expression is the name of the input.
#[inline(never)]
#[tactic(auto)]
pub(crate) fn is_the_input(site: &Site<'_>, expression: &Syntax) -> Result<bool, AllocError>
    ensures { IfOk result (λ b. b ≡ names_input (context_at site.now) (regions_at site.now)
        (operand (context_at site.now) (regions_at site.now) expression.now)) }
{
    match name_alone(expression) {
        None => Ok(false),
        Some(name) => match site.denoted(name) {
            Ok(found) => Ok(is_input(found)),
            Err(fault) => match fault {
                CheckFault::OutOfMemory => Err(AllocError),
                CheckFault::Broken { .. } => Ok(false),
            },
        },
    }
}

/// The call of a declared function with a result of this type.
#[inline(never)]
#[tactic(auto, using(crate::proofs::Judgement::arguments_listed, ps_tree::proofs::TreeLemmas::expr_of_Call), unfolding(crate::specs::View::value_of))]
fn declared_call(routine: u32, up: u32, line: Line, ty: Ty, arguments: Vec<Argument>) -> TypedValue
    ensures { value_of result ≡ SimpleValue (Tree.Call routine up
        (argument_list (map argument_of arguments.items)) line.number) (type_of ty) }
{
    let call = Expr::Call {
        routine,
        up,
        arguments,
        line,
    };
    TypedValue::Simple(call, ty)
}

/// The call of a functional parameter with a result of this type.
#[inline(never)]
#[tactic(auto, using(crate::proofs::Judgement::arguments_listed, ps_tree::proofs::TreeLemmas::expr_of_CallFormal), unfolding(crate::specs::View::value_of))]
fn formal_call(up: u32, index: u32, line: Line, ty: Ty, arguments: Vec<Argument>) -> TypedValue
    ensures { value_of result ≡ SimpleValue (Tree.CallFormal up index
        (argument_list (map argument_of arguments.items)) line.number) (type_of ty) }
{
    let call = Expr::CallFormal {
        up,
        index,
        arguments,
        line,
    };
    TypedValue::Simple(call, ty)
}

/// The call of a declared function with this result, by the answer for its actual parameters. The called name is at
/// `at`.
#[inline(never)]
pub(crate) fn called_routine(
    site: &Site<'_>,
    routine: u32,
    up: u32,
    outcome: &Option<Ty>,
    arguments: Result<Vec<Argument>, CheckFault>,
    at: u32,
) -> Result<TypedValue, CheckFault>
    ensures { (m : Changing (List Tree.Argument)) (before after : List Change)
        → Answers arguments (λ list. (map argument_of list.items, after)) (m before)
        → Answers result (λ v. (value_of v, after)) (call_of
        (λ t xs. SimpleValue (Tree.Call routine up (argument_list xs) (line_in (context_at site.now).text at)) t)
        (some_or WrongKind at (option_map type_of outcome.now)) m before) }
{
    let line = site.reading.line(at);
    let (ty, arguments) = paired(result_type(outcome, at), arguments)?;
    Ok(declared_call(routine, up, line, ty, arguments))
}

/// The call of a functional parameter with this result, by the answer for its actual parameters. The called name is at
/// `at`.
#[inline(never)]
pub(crate) fn called_parameter(
    site: &Site<'_>,
    index: u32,
    up: u32,
    outcome: &Option<Ty>,
    arguments: Result<Vec<Argument>, CheckFault>,
    at: u32,
) -> Result<TypedValue, CheckFault>
    ensures { (m : Changing (List Tree.Argument)) (before after : List Change)
        → Answers arguments (λ list. (map argument_of list.items, after)) (m before)
        → Answers result (λ v. (value_of v, after)) (call_of
        (λ t xs. SimpleValue (Tree.CallFormal up index (argument_list xs) (line_in (context_at site.now).text at)) t)
        (some_or WrongKind at (option_map type_of outcome.now)) m before) }
{
    let line = site.reading.line(at);
    let (ty, arguments) = paired(result_type(outcome, at), arguments)?;
    Ok(formal_call(up, index, line, ty, arguments))
}

/// No actual parameters, provided that there are no formal ones. The called name is at `at`.
#[inline(never)]
fn no_arguments(
    site: &Site<'_>,
    sections: &SectionList,
    at: u32,
) -> Result<Vec<Argument>, CheckFault>
    ensures { (changes : List Change) → Answers result (λ list. (map argument_of list.items, changes))
        (actuals (context_at site.now) (regions_at site.now) at sections.now [] changes) }
{
    let formals = parameters(site.alloc, sections)?;
    if formals.len() != 0 {
        return Err(broken(Rule::NotCongruous, at));
    }
    Ok(Vec::new(site.alloc))
}

/// A required function of the input, whose name is at `at`: only eof and eoln examine it.
#[inline(never)]
pub(crate) fn look_at_name(
    required: Required,
    line: Line,
    at: u32,
) -> Result<TypedValue, CheckFault>
    ensures { Answers result (λ v. value_of v) (some_or NotInProfile at (look required line.number)) }
{
    match look(required, line) {
        None => Err(broken(Rule::NotInProfile, at)),
        Some(value) => Ok(value),
    }
}

/// A required function without actual parameters: eof or eoln of the input, which the program heading must list.
#[inline(never)]
pub(crate) fn look_at_input(
    site: &Site<'_>,
    required: Required,
    at: u32,
) -> Result<TypedValue, CheckFault>
    ensures { Answers result (λ v. value_of v)
        (standing_alone at (context_at site.now).has_input
        (look required (line_in (context_at site.now).text at))) }
{
    match look(required, site.reading.line(at)) {
        None => Err(broken(Rule::NotCongruous, at)),
        Some(value) => {
            if !site.reading.has_input {
                drop(value);
                return Err(broken(Rule::NoInputOutput, at));
            }
            Ok(value)
        }
    }
}

/// A required routine whose name is used alone; a procedure has no value.
#[inline(never)]
#[tactic(auto, unfolding(crate::specs::Calls::required_call, crate::specs::Calls::function_call))]
fn required_alone(site: &Site<'_>, required: Required, at: u32) -> Result<TypedValue, CheckFault>
    ensures { (changes : List Change) → Answers result (λ v. (value_of v, changes))
        (required_call (context_at site.now) (regions_at site.now) at required [] changes) }
{
    if is_procedure(required) {
        return Err(broken(Rule::WrongKind, at));
    }
    look_at_input(site, required, at)
}

/// The value of a function that a name denotes, without actual parameters.
#[inline(never)]
#[tactic(auto, unfolding(crate::specs::Calls::called, ps_check_names::specs::Views::meaning_of))]
fn call_alone(site: &Site<'_>, found: Found<'_>, name: Span) -> Result<TypedValue, CheckFault>
    ensures { (changes : List Change) → Answers result (λ v. (value_of v, changes))
        (called (context_at site.now) (regions_at site.now) name.from (point_of found.entry) [] changes) }
{
    let at = name.from;
    match found {
        Found::Field { .. } => Err(broken(misplacement(&found), at)),
        Found::Name { up, meaning } => match meaning {
            Meaning::Routine(heading) => {
                let arguments = no_arguments(site, &heading.sections, at);
                called_routine(site, heading.number, up, &heading.result, arguments, at)
            }
            Meaning::RoutineParameter {
                entry,
                sections,
                result: outcome,
            } => {
                let arguments = no_arguments(site, sections, at);
                called_parameter(site, *entry, up, outcome, arguments, at)
            }
            Meaning::Required(required) => required_alone(site, *required, at),
            Meaning::Constant { .. }
            | Meaning::Text(_)
            | Meaning::Type(_)
            | Meaning::Variable { .. }
            | Meaning::Parameter { .. }
            | Meaning::File(_)
            | Meaning::LeftOut => Err(broken(misplacement(&found), at)),
        },
    }
}

/// What a name alone denotes: a constant, the contents of a variable, or a function's value.
#[inline(never)]
#[tactic(auto, unfolding(crate::specs::Expressions::standing, ps_check_names::specs::Views::constant_of, ps_check_names::specs::Views::meaning_of))]
pub(crate) fn standing(
    site: &Site<'_>,
    found: Found<'_>,
    name: Span,
) -> Result<TypedValue, CheckFault>
    ensures { (changes : List Change) → Answers result (λ v. (value_of v, changes))
        (standing (context_at site.now) (regions_at site.now) name.from (point_of found.entry) changes) }
{
    match found {
        Found::Field { .. } => loaded(
            site.alloc,
            variable_found(site.alloc, found, name.from)?,
            name.from,
        ),
        Found::Name { meaning, .. } => match meaning {
            Meaning::Constant { ordinal, value } => {
                let constant = ConstantValue::Ordinal(*ordinal, *value);
                of_constant(constant, name.from)
            }
            Meaning::Text(text) => {
                let text = text.clone()?;
                of_constant(ConstantValue::Text(text), name.from)
            }
            Meaning::Variable { .. } | Meaning::Parameter { .. } => {
                loaded(
                    site.alloc,
                    variable_found(site.alloc, found, name.from)?,
                    name.from,
                )
            }
            Meaning::Type(_)
            | Meaning::RoutineParameter { .. }
            | Meaning::Routine(_)
            | Meaning::File(_)
            | Meaning::Required(_)
            | Meaning::LeftOut => call_alone(site, found, name),
        },
    }
}
