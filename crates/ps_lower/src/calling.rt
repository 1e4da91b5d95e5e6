// Whether the code of a part of the tree calls a routine, of the program or of the run-time library. Only sixteen
// levels of the part are examined.

ghost use Rattle.std.specs.Prelude.{◌≡◌, ◌||◌, map, suc};
ghost use Rattle.ps_lower_code.specs.Calling.{place_calls_in, selectors_call_in, selector_calls_in, expr_calls_in};
ghost use Rattle.ps_lower_code.specs.Calling.{steps_call_in, operands_call_in, asked_calls_in, place_calls};
ghost use Rattle.ps_lower_code.specs.Calling.{selectors_call, expr_calls, steps_call, operands_call, asked_calls};
ghost use Rattle.ps_lower_code.specs.Calling.{structure_calls, width_calls, places_call, statement_calls_in};
ghost use Rattle.ps_lower_code.specs.Calling.{statements_call_in, elements_call_in, statement_calls};
ghost use Rattle.ps_tree.specs.View.{place_of, selector_of, selectors_of, expr_of, arithmetic_of, operands_of, set_of};
ghost use Rattle.ps_tree.specs.View.{structure_of, width_of, statement_of, statements_of, elements_of};

use ps_tree::tree::{
    ArithmeticStep, CaseElement, Expr, Place, Selector, SetExpr, Statement, Structure, Width,
};

/// How many levels are examined. The limit keeps the time linear: a part is examined only for the sixteen levels around
/// it.
const LEVELS: u32 = 16;

/// Whether the code of a variable calls.
pub fn place_calls(place: &Place) -> bool
    ensures { result ≡ place_calls (place_of place.now) }
{
    place_calls_in(place, LEVELS)
}

/// Whether the code of selectors calls.
pub fn selectors_call(selectors: &[Selector]) -> bool
    ensures { result ≡ selectors_call (selectors_of selectors.now) }
{
    selectors_call_in(selectors, LEVELS)
}

/// Whether the code of an expression calls.
pub fn expr_calls(e: &Expr) -> bool
    ensures { result ≡ expr_calls (expr_of e.now) }
{
    expr_calls_in(e, LEVELS)
}

/// Whether the code of the steps of a chain calls.
pub fn steps_call(steps: &[ArithmeticStep]) -> bool
    ensures { result ≡ steps_call (arithmetic_of steps.now) }
{
    steps_call_in(steps, LEVELS)
}

/// Whether the code of the operands after the first calls.
pub fn operands_call(operands: &[Expr]) -> bool
    ensures { result ≡ operands_call (operands_of operands.now) }
{
    operands_call_in(operands, LEVELS)
}

/// Whether the code that computes the address of a set calls: a variable's set stays where it is.
pub fn asked_calls(set: &SetExpr) -> bool
    ensures { result ≡ asked_calls (set_of set.now) }
{
    asked_calls_in(set, LEVELS)
}

#[cycle(calling)]
fn place_calls_in(place: &Place, levels: u32) -> bool
    ensures { result ≡ place_calls_in levels (place_of place.now) }
{
    selectors_call_in(&place.selectors, levels)
}

#[cycle(calling)]
fn selectors_call_in(selectors: &[Selector], levels: u32) -> bool
    ensures { result ≡ selectors_call_in levels (selectors_of selectors.now) }
{
    for selector in selectors {
        if selector_calls_in(selector, levels) {
            return true;
        }
    }
    false
}

#[cycle(calling)]
#[tactic(auto, unfolding(ps_tree::specs::View::selector_of))]
fn selector_calls_in(selector: &Selector, levels: u32) -> bool
    ensures { result ≡ selector_calls_in levels (selector_of selector.now) }
{
    match selector {
        Selector::Element { index, .. } => expr_calls_in(index, levels),
        Selector::Field { .. } | Selector::Target { .. } => false,
    }
}

#[cycle(calling)]
#[tactic(auto, using(crate::proofs::Searches::expr_too_deep, crate::proofs::Searches::expr_a_level_down))]
fn expr_calls_in(e: &Expr, levels: u32) -> bool
    ensures { result ≡ expr_calls_in levels (expr_of e.now) }
{
    if levels == 0 {
        return true;
    }
    part_calls(e, levels - 1)
}

/// Whether the code of an expression calls; `levels` levels of it are examined.
#[cycle(calling)]
#[tactic(auto, using(ps_tree::proofs::TreeLemmas::expr_of_Load, ps_tree::proofs::TreeLemmas::expr_of_Call, ps_tree::proofs::TreeLemmas::expr_of_CallFormal), unfolding(ps_tree::specs::View::expr_of))]
fn part_calls(e: &Expr, levels: u32) -> bool
    ensures { result ≡ expr_calls_in (suc levels) (expr_of e.now) }
{
    match e {
        Expr::Number(_) | Expr::Nil => false,
        Expr::Load(place) => place_calls_in(place, levels),
        Expr::Plus(operand)
        | Expr::Minus { operand, .. }
        | Expr::Not(operand)
        | Expr::Apply { operand, .. } => expr_calls_in(operand, levels),
        Expr::Arithmetic { first, steps } => {
            expr_calls_in(first, levels) || steps_call_in(steps, levels)
        }
        Expr::Logic { first, rest, .. } => {
            expr_calls_in(first, levels) || operands_call_in(rest, levels)
        }
        Expr::Compare { left, right, .. } | Expr::ComparePointers { left, right, .. } => {
            expr_calls_in(left, levels) || expr_calls_in(right, levels)
        }
        Expr::In { left, right } => expr_calls_in(left, levels) || asked_calls_in(right, levels),
        Expr::CompareSets { .. }
        | Expr::CompareStrings { .. }
        | Expr::Eof
        | Expr::Eoln { .. }
        | Expr::Call { .. }
        | Expr::CallFormal { .. } => true,
    }
}

#[cycle(calling)]
fn steps_call_in(steps: &[ArithmeticStep], levels: u32) -> bool
    ensures { result ≡ steps_call_in levels (arithmetic_of steps.now) }
{
    for step in steps {
        if expr_calls_in(&step.operand, levels) {
            return true;
        }
    }
    false
}

/// Whether the code of the operands after the first calls.
#[cycle(calling)]
fn operands_call_in(operands: &[Expr], levels: u32) -> bool
    ensures { result ≡ operands_call_in levels (operands_of operands.now) }
{
    for operand in operands {
        if expr_calls_in(operand, levels) {
            return true;
        }
    }
    false
}

/// Whether the code that computes the address of a set calls: a variable's set stays where it is.
#[cycle(calling)]
#[tactic(auto, using(ps_tree::proofs::TreeLemmas::set_of_Load), unfolding(ps_tree::specs::View::set_of))]
fn asked_calls_in(set: &SetExpr, levels: u32) -> bool
    ensures { result ≡ asked_calls_in levels (set_of set.now) }
{
    match set {
        SetExpr::Load(place) => place_calls_in(place, levels),
        SetExpr::Constructor(_) | SetExpr::Combine { .. } => true,
    }
}

/// Whether the code of a width calls.
#[tactic(auto, unfolding(ps_tree::specs::View::width_of))]
pub fn width_calls(width: &Width) -> bool
    ensures { result ≡ width_calls (width_of width.now) }
{
    match width {
        Width::Default => false,
        Width::Given { value, .. } => expr_calls(value),
    }
}

/// Whether the code of a structure calls.
#[tactic(auto, using(ps_tree::proofs::TreeLemmas::structure_of_Contents), unfolding(ps_tree::specs::View::structure_of))]
pub fn structure_calls(e: &Structure) -> bool
    ensures { result ≡ structure_calls (structure_of e.now) }
{
    match e {
        Structure::Literal(_) => false,
        Structure::Contents { place, .. } => place_calls(place),
    }
}

fn places_call(places: &[Place]) -> bool
    ensures { result ≡ places_call (map place_of places.now) }
{
    for place in places {
        if place_calls(place) {
            return true;
        }
    }
    false
}

/// Whether the code of a statement calls.
pub fn statement_calls(statement: &Statement) -> bool
    ensures { result ≡ statement_calls (statement_of statement.now) }
{
    statement_calls_in(statement, LEVELS)
}

#[cycle(calling_statements)]
#[tactic(auto, using(crate::proofs::Searches::statement_too_deep, crate::proofs::Searches::statement_a_level_down))]
fn statement_calls_in(statement: &Statement, levels: u32) -> bool
    ensures { result ≡ statement_calls_in levels (statement_of statement.now) }
{
    if levels == 0 {
        return true;
    }
    action_calls(statement, levels - 1)
}

/// Whether the code of a statement calls; `levels` levels of it are examined.
#[cycle(calling_statements)]
#[tactic(auto, using(ps_tree::proofs::StatementLemmas::statement_of_Compound, ps_tree::proofs::StatementLemmas::statement_of_Repeat, ps_tree::proofs::StatementLemmas::statement_of_Case), unfolding(ps_tree::specs::View::statement_of))]
fn action_calls(statement: &Statement, levels: u32) -> bool
    ensures { result ≡ statement_calls_in (suc levels) (statement_of statement.now) }
{
    match statement {
        Statement::Empty => false,
        Statement::Assign { target, value, .. } => place_calls(target) || expr_calls(value),
        Statement::Compound(body) => statements_call_in(body, levels),
        Statement::If { condition, body } | Statement::While { condition, body } => {
            expr_calls(condition) || statement_calls_in(body, levels)
        }
        Statement::IfElse {
            condition,
            body,
            otherwise,
        } => {
            expr_calls(condition)
                || statement_calls_in(body, levels)
                || statement_calls_in(otherwise, levels)
        }
        Statement::Case {
            index,
            elements,
            ..
        } => expr_calls(index) || elements_call_in(elements, levels),
        Statement::Repeat { body, condition } => {
            statements_call_in(body, levels) || expr_calls(condition)
        }
        Statement::For { from, to, body, .. } => {
            expr_calls(from) || expr_calls(to) || statement_calls_in(body, levels)
        }
        Statement::With { places, body } => {
            places_call(places) || statement_calls_in(body, levels)
        }
        Statement::AssignSet { .. }
        | Statement::AssignStructure { .. }
        | Statement::Call { .. }
        | Statement::CallFormal { .. }
        | Statement::New { .. }
        | Statement::Pack { .. }
        | Statement::Unpack { .. }
        | Statement::Read { .. }
        | Statement::Readln { .. }
        | Statement::Write { .. }
        | Statement::Writeln { .. } => true,
    }
}

#[cycle(calling_statements)]
fn statements_call_in(statements: &[Statement], levels: u32) -> bool
    ensures { result ≡ statements_call_in levels (statements_of statements.now) }
{
    for statement in statements {
        if statement_calls_in(statement, levels) {
            return true;
        }
    }
    false
}

#[cycle(calling_statements)]
fn elements_call_in(elements: &[CaseElement], levels: u32) -> bool
    ensures { result ≡ elements_call_in levels (elements_of elements.now) }
{
    for element in elements {
        if statement_calls_in(&element.body, levels) {
            return true;
        }
    }
    false
}

/// Whether the code of opened records, or of the statement within them, calls.
pub fn with_calls(body: &Statement, places: &[Place]) -> bool
    ensures { result ≡ (statement_calls (statement_of body.now) || places_call (map place_of places.now)) }
{
    statement_calls(body) || places_call(places)
}
