//! Variables, and the values of variables (ISO 7185, 6.5).

ghost use Rattle.std.specs.Prelude.{List, map};
ghost use Rattle.ps_syntax.specs.First.{first_of_expr};
ghost use Rattle.ps_tree.specs.View.{place_of, type_of};
ghost use Rattle.ps_check_judgement.specs.declared.change.Change.{Change};
ghost use Rattle.ps_check_judgement.specs.Judged.{Answers};
ghost use Rattle.ps_check_judgement.specs.Changing.{through};
ghost use Rattle.ps_check_names.specs.Spelling.{line_in};
ghost use Rattle.ps_check_expressions.specs.Carrying.{Carries};
ghost use Rattle.ps_check_expressions.specs.Places.{element};
ghost use Rattle.ps_check_expressions.specs.Expressions.{indexed, named_value, named_variable, operand, operands};
ghost use Rattle.ps_check_expressions.specs.Expressions.{select, variable_operand};
ghost use Rattle.ps_check_expressions.specs.View.{context_at, regions_at, value_of, variable_of};

use crate::alone::standing;
use crate::expression::expr_value;
use crate::operators::Operands;
use crate::place::{element, field, target, variable_found};
use crate::site::Site;
use crate::value::{TypedPlace, TypedValue, loaded};
use ps_check_judgement::change::Change;
use ps_check_judgement::refusal::CheckFault;
use ps_syntax::{Expr as Syntax, Selector, Variable};
use ps_text::Span;

/// What a name alone denotes.
#[inline(never)]
fn named_value(site: &Site<'_>, name: Span) -> Result<TypedValue, CheckFault>
    ensures { (changes : List Change) → Answers result (λ v. (value_of v, changes))
        (named_value (context_at site.now) (regions_at site.now) name changes) }
{
    standing(site, site.denoted(name)?, name)
}

/// The variable that a name denotes.
#[inline(never)]
fn named_variable(site: &Site<'_>, name: Span) -> Result<TypedPlace, CheckFault>
    ensures { (changes : List Change) → Answers result (λ v. (variable_of v, changes))
        (named_variable (context_at site.now) (regions_at site.now) name changes) }
{
    variable_found(site.alloc, site.denoted(name)?, name.from)
}

/// The element of an array, which begins at `at`; `value` is the answer for the index.
#[inline(never)]
fn indexed(
    site: &Site<'_>,
    array: TypedPlace,
    index: &Syntax,
    value: Result<TypedValue, CheckFault>,
    at: u32,
) -> Result<TypedPlace, CheckFault>
    ensures { Carries value (λ v. value_of v) result (λ v. variable_of v)
        (λ v. element (operands at (first_of_expr index.now)) (place_of array.place) (type_of array.ty) v
        (line_in (context_at site.now).text (first_of_expr index.now))) }
{
    match value {
        Err(fault) => {
            drop(array);
            Err(fault)
        }
        Ok(value) => {
            let second = index.first_token();
            let line = site.reading.line(second);
            element(array, value, line, Operands { first: at, second })
        }
    }
}

#[cycle(expression)]
#[inline(never)]
#[tactic(auto, using(crate::proofs::Judgement::value_alone, crate::proofs::Judgement::value_selected))]
pub(crate) fn variable_value(
    variable: &Variable,
    site: &Site<'_>,
    changes: &mut Vec<Change>,
) -> Result<TypedValue, CheckFault>
    ensures { Answers result (λ v. (value_of v, changes.new.items))
        ((variable_operand (context_at site.now) (regions_at site.now) variable.now).value changes.old.items) }
{
    if variable.selectors.is_empty() {
        named_value(site, variable.name)
    } else {
        match variable_place(variable, site, changes) {
            Ok(place) => loaded(site.alloc, place, variable.name.from),
            Err(fault) => Err(fault),
        }
    }
}

/// A variable (6.5).
#[cycle(expression)]
#[inline(never)]
#[tactic(auto, using(crate::proofs::Judgement::variable_variable))]
pub fn variable_place(
    variable: &Variable,
    site: &Site<'_>,
    changes: &mut Vec<Change>,
) -> Result<TypedPlace, CheckFault>
    ensures { Answers result (λ v. (variable_of v, changes.new.items))
        ((variable_operand (context_at site.now) (regions_at site.now) variable.now).variable changes.old.items) }
{
    let entire = named_variable(site, variable.name)?;
    select_all(
        variable.selectors.as_slice(),
        site,
        changes,
        entire,
        variable.name.from,
    )
}

/// What selectors select of a variable that begins at `at`.
#[cycle(expression)]
#[inline(always)]
#[tactic(auto, using(ps_check_judgement::proofs::Lists::stepped_start, ps_check_judgement::proofs::Lists::stepped_next, ps_check_judgement::proofs::Lists::stepped_fault, ps_check_judgement::proofs::Lists::stepped_end))]
fn select_all(
    selectors: &[Selector],
    site: &Site<'_>,
    changes: &mut Vec<Change>,
    variable: TypedPlace,
    at: u32,
) -> Result<TypedPlace, CheckFault>
    ensures { Answers result (λ v. (variable_of v, changes.new.items))
        (through (λ v s. select (context_at site.now) (regions_at site.now) s at v)
        (variable_of variable) selectors.now changes.old.items) }
{
    let mut place = variable;
    for selector in selectors {
        place = select(selector, site, changes, place, at)?;
    }
    Ok(place)
}

#[cycle(expression)]
#[inline(always)]
#[tactic(auto, using(crate::proofs::Equations::select_index, crate::proofs::Equations::select_field, crate::proofs::Equations::select_content))]
fn select(
    selector: &Selector,
    site: &Site<'_>,
    changes: &mut Vec<Change>,
    variable: TypedPlace,
    at: u32,
) -> Result<TypedPlace, CheckFault>
    ensures { Answers result (λ v. (variable_of v, changes.new.items))
        (select (context_at site.now) (regions_at site.now) selector.now at
        (variable_of variable) changes.old.items) }
{
    match selector {
        Selector::Index(indices) => index_all(indices.as_slice(), site, changes, variable, at),
        Selector::Field(name) => field(site, variable, *name, at),
        Selector::Content(span) => target(site, variable, site.reading.line(span.from), at),
    }
}

/// The element of an array, which begins at `at`, at several indices.
#[cycle(expression)]
#[inline(always)]
#[tactic(auto, using(ps_check_judgement::proofs::Lists::stepped_start, crate::proofs::CallLemmas::next_map, crate::proofs::CallLemmas::fault_map, crate::proofs::CallLemmas::end_map))]
fn index_all(
    indices: &[Syntax],
    site: &Site<'_>,
    changes: &mut Vec<Change>,
    variable: TypedPlace,
    at: u32,
) -> Result<TypedPlace, CheckFault>
    ensures { Answers result (λ v. (variable_of v, changes.new.items))
        (through (indexed (context_at site.now) (regions_at site.now) at) (variable_of variable)
        (map (operand (context_at site.now) (regions_at site.now)) indices.now) changes.old.items) }
{
    let mut place = variable;
    for index in indices {
        let value = expr_value(index, site, changes);
        place = indexed(site, place, index, value, at)?;
    }
    Ok(place)
}
