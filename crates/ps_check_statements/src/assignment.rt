// Assignment statements (6.8.2.2).

ghost use Rattle.std.specs.Prelude.{◌≡◌, ◌==◌, ℕ, if◌then◌else◌, IfOk, IfSome, Some, None};
ghost use Rattle.ps_tree.specs.View.{place_of, type_of, set_of, statement_of};
ghost use Rattle.ps_check_judgement.specs.Judged.{Answers, provided, some_or};
ghost use Rattle.ps_check_judgement.specs.declared.refusal.Rule.TheVariants.{WrongKind, NotAssignable};
ghost use Rattle.ps_check_names.specs.Regions as Regions;
ghost use Rattle.ps_check_names.specs.Views.{scope_of, heading_of, point_of};
ghost use Rattle.ps_check_expressions.specs.View.{context_at, regions_at, value_of, variable_of};
ghost use Rattle.ps_check_statements.specs.Assignments.{result_of, result_in, target_at, target, set_assigned};
ghost use Rattle.ps_check_statements.specs.Assignments.{assigned, assignment};

use ps_check_expressions::changed::changed;
use ps_check_expressions::expression::expr_value;
use ps_check_expressions::place::variable_found;
use ps_check_expressions::site::Site;
use ps_check_expressions::value::{TypedPlace, TypedValue, range_of};
use ps_check_expressions::variables::variable_place;
use ps_check_judgement::answer::broken;
use ps_check_judgement::change::Change;
use ps_check_judgement::refusal::{CheckFault, Rule};
use ps_check_names::meaning::{Heading, Meaning};
use ps_check_names::scope::{Found, Scope};
use ps_syntax::{Expr, Variable};
use ps_text::Span;
use ps_tree::line::Line;
use ps_tree::tree::{Place, PlaceBase, SetExpr, Statement};
use ps_tree::types::{Ty, assignable};
use std::alloc::Global;

/// The result of a function as a variable of the block that is `levels` blocks out. Its name is at `at`.
#[tactic(auto, unfolding(ps_tree::specs::View::selectors_of))]
fn result_of(
    alloc: Global,
    heading: &Heading,
    levels: u32,
    at: u32,
) -> Result<TypedPlace, CheckFault>
    ensures { Answers result (λ v. variable_of v) (some_or WrongKind at (result_of (heading_of heading.now) levels)) }
{
    match &heading.result {
        None => Err(broken(Rule::WrongKind, at)),
        Some(ty) => {
            let ty = ty.copy()?;
            let place = Place {
                base: PlaceBase::Entry {
                    up: levels,
                    index: 0,
                },
                selectors: Vec::new(alloc),
            };
            Ok(TypedPlace {
                place,
                ty,
                in_packed: false,
            })
        }
    }
}

/// The number of the routine whose block is `further` blocks out of these regions.
#[tactic(auto, using(crate::proofs::Opening::result_past), unfolding(crate::specs::Assignments::result_in, ps_check_names::specs::Views::scope_of))]
fn routine_out(scope: &Scope<'_>, further: u32) -> Option<u32>
    ensures some { IfSome result (λ number. (h : Regions.Heading) (levels : ℕ) → result_in
        (scope_of scope.now) further h levels ≡ (if number == h.number then result_of h levels else None)) }
    ensures none { result ≡ None → (h : Regions.Heading) (levels : ℕ) → result_in (scope_of scope.now) further h levels
        ≡ None }
{
    let mut here = scope;
    let mut left = further;
    loop {
        match here {
            Scope::Outside => return None,
            Scope::Block { routine, outer, .. } => {
                if left == 0 {
                    return Some(*routine);
                }
                left -= 1;
                here = outer;
            }
            Scope::Opened { outer, .. } | Scope::Nested { outer, .. } | Scope::Own { outer, .. } =>
                here = outer,
        }
    }
}

/// The result of a function whose own block is `further` blocks out of these regions (6.6.2).
fn result_in(
    alloc: Global,
    scope: &Scope<'_>,
    further: u32,
    heading: &Heading,
    levels: u32,
    at: u32,
) -> Result<TypedPlace, CheckFault>
    ensures { Answers result (λ v. variable_of v)
        (some_or WrongKind at (result_in (scope_of scope.now) further (heading_of heading.now) levels)) }
{
    match routine_out(scope, further) {
        None => Err(broken(Rule::WrongKind, at)),
        Some(routine) => {
            if routine != heading.number {
                return Err(broken(Rule::WrongKind, at));
            }
            result_of(alloc, heading, levels, at)
        }
    }
}

/// What a name alone denotes on the left of `:=`. A function is declared in the block that surrounds its own.
#[tactic(auto, unfolding(crate::specs::Assignments::target_at, ps_check_expressions::specs::Places::variable_at, ps_check_names::specs::Views::meaning_of))]
fn target_found(site: &Site<'_>, found: Found<'_>, at: u32) -> Result<TypedPlace, CheckFault>
    ensures { Answers result (λ v. variable_of v) (target_at (regions_at site.now) at (point_of found.entry)) }
{
    match found {
        Found::Field { .. } => variable_found(site.alloc, found, at),
        Found::Name { up, meaning } => match meaning {
            Meaning::Routine(heading) => {
                if up == 0 {
                    return Err(broken(Rule::WrongKind, at));
                }
                result_in(site.alloc, site.scope, up - 1, heading, up - 1, at)
            }
            _ => variable_found(site.alloc, found, at),
        },
    }
}

/// The variable or the function's result that is assigned to.
#[tactic(auto, using(ps_check_expressions::proofs::Judgement::name_alone, ps_check_expressions::proofs::Judgement::name_selected))]
fn target(
    variable: &Variable,
    site: &Site<'_>,
    changes: &mut Vec<Change>,
) -> Result<TypedPlace, CheckFault>
    ensures { Answers result (λ v. (variable_of v, changes.new.items))
        (target (context_at site.now) (regions_at site.now) variable.now changes.old.items) }
{
    if variable.selectors.is_empty() {
        let found = site.denoted(variable.name)?;
        target_found(site, found, variable.name.from)
    } else {
        variable_place(variable, site, changes)
    }
}

/// An assignment whose `:=` is at `at`, provided that the value fits the variable's type.
fn fitting(fits: bool, statement: Statement, at: u32) -> Result<Statement, CheckFault>
    ensures { Answers result (λ s. statement_of s) (provided fits NotAssignable at (statement_of statement)) }
{
    if fits {
        Ok(statement)
    } else {
        Err(broken(Rule::NotAssignable, at))
    }
}

/// An assignment of a set; the `:=` is at `at`.
#[tactic(auto, unfolding(crate::specs::Assignments::set_assigned, ps_tree::specs::View::type_of, ps_tree::specs::View::statement_of))]
fn set_assigned(
    target: (Place, &Ty),
    value: (SetExpr, &Ty),
    line: Line,
    at: u32,
) -> Result<Statement, CheckFault>
    ensures { Answers result (λ s. statement_of s)
        (set_assigned at (place_of target.entry.0) (type_of target.entry.1.now) (set_of value.entry.0)
        (type_of value.entry.1.now) line.number) }
{
    let ((target, ty), (value, from)) = (target, value);
    match ty {
        Ty::Set { base, .. } if assignable(from, ty) => Ok(Statement::AssignSet {
            target,
            low: base.low,
            high: base.high,
            value,
            line,
        }),
        _ => Err(broken(Rule::NotAssignable, at)),
    }
}

/// An assignment; the `:=` is at `at`.
#[tactic(auto, unfolding(crate::specs::Assignments::assigned, ps_check_expressions::specs::View::value_of, ps_tree::specs::View::statement_of))]
fn assigned(
    variable: TypedPlace,
    value: TypedValue,
    line: Line,
    at: u32,
) -> Result<Statement, CheckFault>
    ensures { Answers result (λ s. statement_of s) (assigned at (variable_of variable) (value_of value) line.number) }
{
    let TypedPlace {
        place: target,
        ty,
        ..
    } = variable;
    match value {
        TypedValue::Simple(value, from) => {
            let fits = assignable(&from, &ty);
            let range = range_of(&ty);
            let statement = Statement::Assign {
                range,
                target,
                value,
                line,
            };
            fitting(fits, statement, at)
        }
        TypedValue::Set(value, from) => set_assigned((target, &ty), (value, &from), line, at),
        TypedValue::Structure(value, from) => {
            let fits = assignable(&from, &ty);
            fitting(fits, Statement::AssignStructure { target, value }, at)
        }
    }
}

/// An assignment statement, with its `:=`.
pub(crate) fn assignment(
    variable: &Variable,
    site: &Site<'_>,
    changes: &mut Vec<Change>,
    at: Span,
    expression: &Expr,
) -> Result<Statement, CheckFault>
    ensures { Answers result (λ s. (statement_of s, changes.new.items))
        (assignment (context_at site.now) (regions_at site.now) variable.now at expression.now changes.old.items) }
{
    let place = target(variable, site, changes)?;
    changed(site, changes, &place.place, variable.name.from)?;
    let value = expr_value(expression, site, changes)?;
    assigned(place, value, site.reading.line(at.from), at.from)
}
