//! The typing of variables and expressions (ISO 7185, 6.5 and 6.7).
//!
//! Expressions are nested hundreds of levels deep, and each level has a frame of each function of the cycle. The frames
//! are kept small by hints: functions called outside the recursion are not inlined into it, and the steps that lead to
//! the next level share a frame.

ghost use Rattle.std.specs.Prelude.{◌≡◌, List, IsTrue};
ghost use Rattle.ps_syntax.specs.declared.expression.Simple.{out-Simple};
ghost use Rattle.ps_syntax.specs.declared.expression.Term.{out-Term};
ghost use Rattle.ps_check_judgement.specs.Judged.{Answers};
ghost use Rattle.ps_tree.specs.Types.{OrdinalType};
ghost use Rattle.ps_check_names.specs.Constants.{integer, number_at, text_constant};
ghost use Rattle.ps_check_judgement.specs.Changing.{through};
ghost use Rattle.ps_syntax.specs.First.{first_of_factor, first_of_term};
ghost use Rattle.ps_syntax.specs.declared.expression.AddedTerm.{out-AddedTerm};
ghost use Rattle.ps_scan.specs.Values.{characters};
ghost use Rattle.ps_check_names.specs.Spelling.{bytes_at, line_in};
ghost use Rattle.ps_check_expressions.specs.Carrying.{Carries, CarriesBoth};
ghost use Rattle.ps_check_expressions.specs.Operators.{added, compared, multiplied};
ghost use Rattle.ps_check_expressions.specs.Expressions.{constant_value, operands};
ghost use Rattle.ps_check_names.specs.Regions.{Context, Region};
ghost use Rattle.ps_tree.specs.Tree as Tree;
ghost use Rattle.ps_check_expressions.specs.Values.{SimpleValue};
ghost use Rattle.ps_check_expressions.specs.Expressions.{negation, first_term, operand, factor_operand};
ghost use Rattle.ps_check_expressions.specs.Expressions.{add_term, multiply_factor, simple_operand, term_operand};
ghost use Rattle.ps_check_expressions.specs.View.{context_at, regions_at, value_of};

use crate::calls::call_value;
use crate::function::{of_constant, text_at};
use crate::members::set_value;
use crate::operators::{Operands, added, compared, multiplied, negated, with_sign};
use crate::site::Site;
use crate::value::TypedValue;
use crate::variables::variable_value;
use ps_check_judgement::answer::paired;
use ps_check_judgement::change::Change;
use ps_check_judgement::refusal::CheckFault;
use ps_check_names::constants::{INTEGER, number_at};
use ps_syntax::{
    AddedTerm, Expr as Syntax, Factor, MultipliedFactor, Relational, Sign, Simple, Term,
};
use ps_text::Span;
use ps_tree::tree::Expr;
use ps_tree::types::Ty;
use std::alloc::Global;

/// The first term of a simple expression with its sign, if it has one (6.7.1), by the answer for the term.
#[inline(never)]
#[tactic(auto, unfolding(crate::specs::Expressions::first_term))]
fn first_term(
    site: &Site<'_>,
    sign: &Option<(Sign, Span)>,
    term: Result<TypedValue, CheckFault>,
    at: u32,
) -> Result<TypedValue, CheckFault>
    ensures { Carries term (λ v. value_of v) result (λ v. value_of v)
        (first_term (context_at site.now) (regions_at site.now) at sign.now) }
{
    match term {
        Err(fault) => Err(fault),
        Ok(term) => match sign {
            None => Ok(term),
            Some((sign, span)) => {
                let line = site.reading.line(span.from);
                with_sign(site.alloc, *sign, line, term, at)
            }
        },
    }
}

/// The value of an unsigned integer.
#[inline(never)]
#[tactic(auto, unfolding(crate::specs::View::value_of, ps_tree::specs::View::type_of, ps_tree::specs::View::expr_of))]
fn number_value(site: &Site<'_>, at: Span) -> TypedValue
    ensures { value_of result ≡ SimpleValue (Tree.Number (number_at (context_at site.now).text at))
        (OrdinalType integer) }
{
    let value = number_at(site.reading, at);
    TypedValue::Simple(Expr::Number(value), Ty::Simple(INTEGER))
}

/// A term added to the value that comes before it, which begins at `at`; `right` is the answer for the term.
#[inline(never)]
fn sum(
    site: &Site<'_>,
    left: TypedValue,
    term: &AddedTerm,
    right: Result<TypedValue, CheckFault>,
    at: u32,
) -> Result<TypedValue, CheckFault>
    ensures { Carries right (λ v. value_of v) result (λ v. value_of v)
        (added (operands at (first_of_term (out-AddedTerm term.now).term)) (out-AddedTerm term.now).operator
        (line_in (context_at site.now).text (out-AddedTerm term.now).at.from) (value_of left)) }
{
    match right {
        Err(fault) => {
            drop(left);
            Err(fault)
        }
        Ok(right) => {
            let at = Operands {
                first: at,
                second: term.term.first_token(),
            };
            let line = site.reading.line(term.at.from);
            added(site.alloc, term.operator, line, left, right, at)
        }
    }
}

/// The value that comes before a factor, which begins at `at`, multiplied by it; `right` is the answer for the factor.
#[inline(never)]
fn product(
    site: &Site<'_>,
    left: TypedValue,
    by: &MultipliedFactor,
    right: Result<TypedValue, CheckFault>,
    at: u32,
) -> Result<TypedValue, CheckFault>
    ensures { Carries right (λ v. value_of v) result (λ v. value_of v)
        (multiplied (operands at (first_of_factor by.now.factor)) by.now.operator
        (line_in (context_at site.now).text by.now.at.from) (value_of left)) }
{
    match right {
        Err(fault) => {
            drop(left);
            Err(fault)
        }
        Ok(right) => {
            let at = Operands {
                first: at,
                second: by.factor.first_token(),
            };
            let line = site.reading.line(by.at.from);
            multiplied(site.alloc, by.operator, line, left, right, at)
        }
    }
}

/// A relation of two operands, by the answers for them.
#[inline(never)]
fn comparison(
    alloc: Global,
    relation: Relational,
    left: Result<TypedValue, CheckFault>,
    right: Result<TypedValue, CheckFault>,
    at: Operands,
) -> Result<TypedValue, CheckFault>
    ensures { CarriesBoth left right (λ v. value_of v) result (λ v. value_of v) (compared at relation) }
{
    let (left, right) = paired(left, right)?;
    compared(alloc, relation, left, right, at)
}

/// The value of the token of a string.
#[inline(never)]
fn text_value(site: &Site<'_>, at: Span) -> Result<TypedValue, CheckFault>
    ensures { Answers result (λ v. value_of v)
        (constant_value at.from (text_constant (characters (bytes_at (context_at site.now).text at)))) }
{
    of_constant(text_at(site, at)?, at.from)
}

/// Whether a simple expression is a single factor, without sign and operators, as most are.
#[tactic(auto, using(crate::proofs::Judgement::value_of_one_factor))]
fn is_one_factor(simple: &Simple) -> bool
    ensures { IsTrue result → (c : Context) (Γ : List Region) → (simple_operand c Γ simple.now).value
        ≡ (factor_operand c Γ (out-Term (out-Simple simple.now).first).first).value }
{
    simple.sign.is_none() && simple.more.is_empty() && simple.first.more.is_empty()
}

/// The value of an expression. One that is only a factor goes straight to it: parentheses are nested hundreds of levels
/// deep.
#[cycle(expression)]
#[tactic(auto, using(crate::proofs::Equations::operand_simple))]
pub fn expr_value(
    expression: &Syntax,
    site: &Site<'_>,
    changes: &mut Vec<Change>,
) -> Result<TypedValue, CheckFault>
    ensures { Answers result (λ v. (value_of v, changes.new.items))
        ((operand (context_at site.now) (regions_at site.now) expression.now).value changes.old.items) }
{
    match expression {
        Syntax::Simple(only) => {
            if is_one_factor(only) {
                factor_value(&only.first.first, site, changes)
            } else {
                simple_value(only, site, changes)
            }
        }
        Syntax::Compare(..) => compared_value(expression, site, changes),
    }
}

/// The same, through all levels of operators: a relation of two simple expressions (6.7.2.5), or one alone.
#[cycle(expression)]
#[inline(never)]
#[tactic(auto, using(crate::proofs::Equations::operand_simple, crate::proofs::Judgement::compare_value))]
fn compared_value(
    expression: &Syntax,
    site: &Site<'_>,
    changes: &mut Vec<Change>,
) -> Result<TypedValue, CheckFault>
    ensures { Answers result (λ v. (value_of v, changes.new.items))
        ((operand (context_at site.now) (regions_at site.now) expression.now).value changes.old.items) }
{
    match expression {
        Syntax::Simple(only) => simple_value(only, site, changes),
        Syntax::Compare(left, relation, _, right) => {
            let right = right.get();
            let at = Operands {
                first: left.first_token(),
                second: right.first_token(),
            };
            let left = simple_value(left, site, changes);
            let right = simple_value(right, site, changes);
            comparison(site.alloc, *relation, left, right, at)
        }
    }
}

#[cycle(expression)]
#[inline(never)]
#[tactic(auto, using(crate::proofs::Judgement::simple_value))]
fn simple_value(
    simple: &Simple,
    site: &Site<'_>,
    changes: &mut Vec<Change>,
) -> Result<TypedValue, CheckFault>
    ensures { Answers result (λ v. (value_of v, changes.new.items))
        ((simple_operand (context_at site.now) (regions_at site.now) simple.now).value changes.old.items) }
{
    let term = term_value(&simple.first, site, changes);
    let at = simple.first_token();
    match first_term(site, &simple.sign, term, simple.first.first_token()) {
        Ok(first) => add_terms(simple.more.as_slice(), site, changes, first, at),
        Err(fault) => Err(fault),
    }
}

/// Terms that are added to a value, which begins at `at`.
#[cycle(expression)]
#[inline(never)]
#[tactic(auto, using(ps_check_judgement::proofs::Lists::stepped_start, ps_check_judgement::proofs::Lists::stepped_next, ps_check_judgement::proofs::Lists::stepped_fault, ps_check_judgement::proofs::Lists::stepped_end))]
fn add_terms(
    terms: &[AddedTerm],
    site: &Site<'_>,
    changes: &mut Vec<Change>,
    first: TypedValue,
    at: u32,
) -> Result<TypedValue, CheckFault>
    ensures { Answers result (λ v. (value_of v, changes.new.items))
        (through (λ v t. add_term (context_at site.now) (regions_at site.now) t at v)
        (value_of first) terms.now changes.old.items) }
{
    let mut value = first;
    for term in terms {
        let right = term_value(&term.term, site, changes);
        value = sum(site, value, term, right, at)?;
    }
    Ok(value)
}

#[cycle(expression)]
#[inline(never)]
#[tactic(auto, using(crate::proofs::Judgement::term_value))]
fn term_value(
    term: &Term,
    site: &Site<'_>,
    changes: &mut Vec<Change>,
) -> Result<TypedValue, CheckFault>
    ensures { Answers result (λ v. (value_of v, changes.new.items))
        ((term_operand (context_at site.now) (regions_at site.now) term.now).value changes.old.items) }
{
    let at = term.first_token();
    match factor_value(&term.first, site, changes) {
        Ok(first) => multiply_factors(term.more.as_slice(), site, changes, first, at),
        Err(fault) => Err(fault),
    }
}

/// Factors that a value, which begins at `at`, is multiplied by.
#[cycle(expression)]
#[inline(never)]
#[tactic(auto, using(ps_check_judgement::proofs::Lists::stepped_start, ps_check_judgement::proofs::Lists::stepped_next, ps_check_judgement::proofs::Lists::stepped_fault, ps_check_judgement::proofs::Lists::stepped_end))]
fn multiply_factors(
    factors: &[MultipliedFactor],
    site: &Site<'_>,
    changes: &mut Vec<Change>,
    first: TypedValue,
    at: u32,
) -> Result<TypedValue, CheckFault>
    ensures { Answers result (λ v. (value_of v, changes.new.items))
        (through (λ v f. multiply_factor (context_at site.now) (regions_at site.now) f at v)
        (value_of first) factors.now changes.old.items) }
{
    let mut value = first;
    for factor in factors {
        let right = factor_value(&factor.factor, site, changes);
        value = product(site, value, factor, right, at)?;
    }
    Ok(value)
}

#[cycle(expression)]
#[inline(never)]
#[tactic(auto, using(crate::proofs::Equations::factor_variable, crate::proofs::Equations::factor_call, crate::proofs::Equations::factor_number, crate::proofs::Equations::factor_text, crate::proofs::Equations::factor_nil, crate::proofs::Equations::factor_set, crate::proofs::Equations::factor_group, crate::proofs::Equations::factor_not))]
fn factor_value(
    factor: &Factor,
    site: &Site<'_>,
    changes: &mut Vec<Change>,
) -> Result<TypedValue, CheckFault>
    ensures { Answers result (λ v. (value_of v, changes.new.items))
        ((factor_operand (context_at site.now) (regions_at site.now) factor.now).value changes.old.items) }
{
    match factor {
        Factor::Variable(variable) => variable_value(variable, site, changes),
        Factor::Call(name, operands) => call_value(operands.as_slice(), site, changes, *name),
        Factor::Number(at) => Ok(number_value(site, *at)),
        Factor::Text(at) => text_value(site, *at),
        Factor::Nil(_) => Ok(TypedValue::Simple(Expr::Nil, Ty::Nil)),
        Factor::Set(_, members) => set_value(members.as_slice(), site, changes),
        Factor::Group(_, _, inner) => expr_value(inner.get(), site, changes),
        Factor::Not(_, inner) => negated_value(inner.get(), site, changes),
    }
}

/// The value of the negation of a factor (6.7.2.3).
#[cycle(expression)]
#[inline(never)]
#[tactic(auto, using(crate::proofs::Judgement::negation_value))]
fn negated_value(
    factor: &Factor,
    site: &Site<'_>,
    changes: &mut Vec<Change>,
) -> Result<TypedValue, CheckFault>
    ensures { Answers result (λ v. (value_of v, changes.new.items))
        (negation (factor_operand (context_at site.now) (regions_at site.now) factor.now) changes.old.items) }
{
    let at = factor.first_token();
    match factor_value(factor, site, changes) {
        Ok(operand) => negated(site.alloc, operand, at),
        Err(fault) => Err(fault),
    }
}
