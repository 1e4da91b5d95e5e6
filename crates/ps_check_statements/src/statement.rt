//! Statements (ISO 7185, 6.8).

ghost use Rattle.std.specs.Prelude.{◌≡◌, ◌++◌, [], map, IfOk};
ghost use Rattle.ps_tree.specs.View.{expr_of, statement_of, statements_of};
ghost use Rattle.ps_check_judgement.specs.Judged.{Answers};
ghost use Rattle.ps_check_expressions.specs.View.{context_at, regions_at};
ghost use Rattle.ps_check_statements.specs.Statements as spec;
ghost use Rattle.ps_check_statements.specs.View.{element_of};

use crate::assignment::assignment;
use crate::case_constants::case_labels;
use crate::for_statements::{for_head, repeated};
use crate::procedure::procedure_statement;
use crate::with_statements::open_all;
use indexmap::IndexSet;
use ps_check_expressions::expression::expr_value;
use ps_check_expressions::function::ordinal_of;
use ps_check_expressions::site::Site;
use ps_check_expressions::value::{TypedValue, is_boolean};
use ps_check_judgement::answer::{boxed_answer, broken, paired, push_answer};
use ps_check_judgement::change::Change;
use ps_check_judgement::refusal::{CheckFault, Rule};
use ps_check_names::scope::{Scope, nest_within, wides_within};
use ps_syntax::{Direction as Way, Element, Expr as SyntaxExpr, Statement as Syntax, Variable};
use ps_text::Span;
use ps_tree::names::Seed;
use ps_tree::tree::{CaseElement, Expr, Statement};
use ps_tree::types::Ordinal;

/// A condition, which must be Boolean (6.8.3.3).
#[tactic(auto, unfolding(crate::specs::Structured::condition, ps_check_expressions::specs::View::value_of))]
fn condition_at(
    expression: &SyntaxExpr,
    site: &Site<'_>,
    changes: &mut Vec<Change>,
) -> Result<Expr, CheckFault>
    ensures { Answers result (λ e. (expr_of e, changes.new.items))
        (spec.condition_at (context_at site.now) (regions_at site.now) expression.now changes.old.items) }
{
    let at = expression.first_token();
    match expr_value(expression, site, changes)? {
        TypedValue::Simple(value, ty) => {
            let is_right = is_boolean(&ty);
            drop(ty);
            if is_right {
                Ok(value)
            } else {
                Err(broken(Rule::WrongType, at))
            }
        }
        value @ (TypedValue::Set(..) | TypedValue::Structure(..)) => {
            drop(value);
            Err(broken(Rule::WrongType, at))
        }
    }
}

/// An index, which must be of an ordinal type: of a `case` statement (6.8.3.5), or of an array in pack and unpack
/// (6.6.5.4).
pub(crate) fn index_at(
    expression: &SyntaxExpr,
    site: &Site<'_>,
    changes: &mut Vec<Change>,
) -> Result<(Expr, Ordinal), CheckFault>
    ensures { Answers result (λ v. ((expr_of v.0, v.1), changes.new.items))
        (spec.index_at (context_at site.now) (regions_at site.now) expression.now changes.old.items) }
{
    let value = expr_value(expression, site, changes)?;
    ordinal_of(value, expression.first_token())
}

/// A statement.
#[cycle(statement)]
#[tactic(auto, using(crate::proofs::Equations::at_empty, crate::proofs::Equations::at_assign, crate::proofs::Equations::at_call, crate::proofs::Equations::at_compound, crate::proofs::Equations::at_if, crate::proofs::Equations::at_if_else, crate::proofs::Equations::at_case, crate::proofs::Equations::at_while, crate::proofs::Equations::at_repeat, crate::proofs::Equations::at_for, crate::proofs::Equations::at_with), unfolding(ps_tree::specs::View::statement_of))]
fn statement(
    syntax: &Syntax,
    site: &Site<'_>,
    changes: &mut Vec<Change>,
) -> Result<Statement, CheckFault>
    ensures { Answers result (λ s. (statement_of s, changes.new.items))
        (spec.statement syntax.now (context_at site.now) (regions_at site.now) changes.old.items) }
{
    match syntax {
        Syntax::Empty => Ok(Statement::Empty),
        Syntax::Assign(variable, at, value) => assignment(
            variable,
            site,
            changes,
            *at,
            value.get(),
        ),
        Syntax::Call(name, parameters) => procedure_statement(
            parameters.as_slice(),
            site,
            changes,
            *name,
        ),
        Syntax::Compound(list) => Ok(Statement::Compound(statements(
            list.as_slice(),
            site,
            changes,
        )?)),
        Syntax::If(condition, body) => {
            let (condition, body) = governed(body.get(), site, changes, condition.get())?;
            Ok(Statement::If { condition, body })
        }
        Syntax::IfElse(condition, body, otherwise) => {
            if_else_statement(body.get(), otherwise.get(), site, changes, condition.get())
        }
        Syntax::Case(at, index, elements) => case_statement(
            elements.as_slice(),
            site,
            changes,
            *at,
            index.get(),
        ),
        Syntax::While(condition, body) => {
            let (condition, body) = governed(body.get(), site, changes, condition.get())?;
            Ok(Statement::While { condition, body })
        }
        Syntax::Repeat(list, condition) => repeat_statement(
            list.as_slice(),
            site,
            changes,
            condition.get(),
        ),
        Syntax::For {
            variable,
            first,
            direction,
            last,
            body,
        } => for_statement(
            body.get(),
            site,
            changes,
            *variable,
            first.get(),
            *direction,
            last.get(),
        ),
        Syntax::With(records, body) => with_statement(
            body.get(),
            site,
            changes,
            records.as_slice(),
        ),
    }
}

#[cycle(statement)]
fn boxed(
    syntax: &Syntax,
    site: &Site<'_>,
    changes: &mut Vec<Change>,
) -> Result<Box<Statement>, CheckFault>
    ensures { Answers result (λ s. (statement_of s.value, changes.new.items))
        (spec.statement syntax.now (context_at site.now) (regions_at site.now) changes.old.items) }
{
    boxed_answer(site.alloc, statement(syntax, site, changes))
}

/// A sequence of statements (6.8.3.2). The error is that of the faulty statement.
#[cycle(statement)]
pub fn statements(
    list: &[Syntax],
    site: &Site<'_>,
    changes: &mut Vec<Change>,
) -> Result<Vec<Statement>, CheckFault>
    ensures { Answers result (λ s. (statements_of s.items, changes.new.items))
        (spec.statements (context_at site.now) (regions_at site.now) list.now changes.old.items) }
{
    let mut typed = Vec::with_capacity(site.alloc, list.len())?;
    for syntax in list {
        push_answer(&mut typed, statement(syntax, site, changes))?;
    }
    Ok(typed)
}

/// A condition and the statement that it governs.
#[cycle(statement)]
fn governed(
    body: &Syntax,
    site: &Site<'_>,
    changes: &mut Vec<Change>,
    condition: &SyntaxExpr,
) -> Result<(Expr, Box<Statement>), CheckFault>
    ensures { Answers result (λ p. ((expr_of p.0, statement_of p.1.value), changes.new.items))
        (spec.governed (context_at site.now) (regions_at site.now) condition.now
        (spec.statement body.now) changes.old.items) }
{
    let condition = condition_at(condition, site, changes);
    let body = boxed(body, site, changes);
    paired(condition, body)
}

#[cycle(statement)]
#[tactic(auto, unfolding(ps_tree::specs::View::statement_of))]
fn if_else_statement(
    body: &Syntax,
    otherwise: &Syntax,
    site: &Site<'_>,
    changes: &mut Vec<Change>,
    condition: &SyntaxExpr,
) -> Result<Statement, CheckFault>
    ensures { Answers result (λ s. (statement_of s, changes.new.items))
        (spec.if_else_statement (context_at site.now) (regions_at site.now) condition.now (spec.statement body.now)
        (spec.statement otherwise.now) changes.old.items) }
{
    let first = governed(body, site, changes, condition);
    let otherwise = boxed(otherwise, site, changes);
    let ((condition, body), otherwise) = paired(first, otherwise)?;
    Ok(Statement::IfElse {
        condition,
        body,
        otherwise,
    })
}

#[cycle(statement)]
#[tactic(auto, unfolding(ps_tree::specs::View::statement_of))]
fn repeat_statement(
    list: &[Syntax],
    site: &Site<'_>,
    changes: &mut Vec<Change>,
    condition: &SyntaxExpr,
) -> Result<Statement, CheckFault>
    ensures { Answers result (λ s. (statement_of s, changes.new.items))
        (spec.repeat_statement (context_at site.now) (regions_at site.now)
        (spec.statements (context_at site.now) (regions_at site.now) list.now) condition.now changes.old.items) }
{
    let body = statements(list, site, changes);
    let condition = condition_at(condition, site, changes);
    let (body, condition) = paired(body, condition)?;
    Ok(Statement::Repeat { body, condition })
}

/// A `case` statement (6.8.3.5), with its `case` and its index.
#[cycle(statement)]
#[tactic(auto, using(crate::proofs::Equations::elements_listed), unfolding(ps_tree::specs::View::statement_of))]
fn case_statement(
    list: &[Element],
    site: &Site<'_>,
    changes: &mut Vec<Change>,
    at: Span,
    index: &SyntaxExpr,
) -> Result<Statement, CheckFault>
    ensures { Answers result (λ s. (statement_of s, changes.new.items))
        (spec.case_statement (context_at site.now) (regions_at site.now) at index.now
        (map spec.element list.now) changes.old.items) }
{
    let (index, ordinal) = index_at(index, site, changes)?;
    let elements = elements(list, site, changes, ordinal);
    let (index, elements) = paired(Ok(index), elements)?;
    Ok(Statement::Case {
        index,
        elements,
        line: site.reading.line(at.from),
    })
}

/// The elements of a `case` statement, whose constants must be distinct.
#[cycle(statement)]
fn elements(
    list: &[Element],
    site: &Site<'_>,
    changes: &mut Vec<Change>,
    index: Ordinal,
) -> Result<Vec<CaseElement>, CheckFault>
    ensures { Answers result (λ es. (map element_of es.items, changes.new.items))
        (spec.elements (context_at site.now) (regions_at site.now) index
        (map spec.element list.now) changes.old.items) }
{
    let mut seen = IndexSet::with_hasher(site.alloc, site.reading.seed);
    let mut typed = Vec::with_capacity(site.alloc, list.len())?;
    for syntax in list {
        push_answer(&mut typed, element(syntax, site, changes, index, &mut seen))?;
    }
    Ok(typed)
}

/// A case element, whose constants are added to those seen in the elements before it.
#[cycle(statement)]
#[tactic(auto, using(crate::proofs::Equations::element_at))]
fn element(
    element: &Element,
    site: &Site<'_>,
    changes: &mut Vec<Change>,
    index: Ordinal,
    seen: &mut IndexSet<i32, Seed>,
) -> Result<CaseElement, CheckFault>
    ensures element { Answers result (λ e. (element_of e, changes.new.items))
        (spec.element element.now (context_at site.now)
        (regions_at site.now) index seen.old.keys changes.old.items) }
    ensures seen { IfOk result (λ e. seen.new.keys ≡ seen.old.keys ++ (element_of e).0) }
{
    let constants = case_labels(site, index, seen, element.constants.as_slice());
    let body = statement(&element.statement, site, changes);
    let (constants, body) = paired(constants, body)?;
    Ok(CaseElement { constants, body })
}

/// A `for` statement (6.8.3.9), with its control variable's name, its bounds and its direction.
#[cycle(statement)]
fn for_statement(
    body: &Syntax,
    site: &Site<'_>,
    changes: &mut Vec<Change>,
    name: Span,
    first: &SyntaxExpr,
    way: Way,
    last: &SyntaxExpr,
) -> Result<Statement, CheckFault>
    ensures { Answers result (λ s. (statement_of s, changes.new.items))
        (spec.for_statement (context_at site.now) (regions_at site.now) name first.now way last.now
        (spec.statement body.now) changes.old.items) }
{
    let head = for_head(site, changes, name, first, way, last)?;
    let body = boxed(body, &site.with_controls(head.controls.as_slice()), changes);
    let (head, body) = paired(Ok(head), body)?;
    Ok(repeated(head, body, name.from))
}

/// A `with` statement (6.8.3.10), with its records.
#[cycle(statement)]
#[tactic(auto, unfolding(ps_check_names::specs::Views::scope_of, ps_check_names::specs::Views::opened_in, ps_tree::specs::View::statement_of))]
fn with_statement(
    body: &Syntax,
    site: &Site<'_>,
    changes: &mut Vec<Change>,
    records: &[Variable],
) -> Result<Statement, CheckFault>
    ensures { Answers result (λ s. (statement_of s, changes.new.items))
        (spec.with_behind (context_at site.now) ([], regions_at site.now) records.now
        (spec.statement body.now) changes.old.items) }
{
    let wides = wides_within(site.scope, site.reading.wides);
    let (places, opened) = open_all(records, site, wides, changes)?;
    let (nest, outer) = nest_within(site.alloc, site.scope, site.reading.wides, &opened)?;
    let scope = Scope::Nested { nest: &nest, outer };
    let body = boxed(body, &site.within(&scope), changes)?;
    Ok(Statement::With { places, body })
}
