// A lower bound on the number of instructions in the code of a part of the tree.

ghost use Rattle.std.specs.Prelude.{map};
ghost use Rattle.ps_tree.specs.View.{place_of, selector_of, selectors_of, expr_of, arithmetic_of, operands_of, set_of};
ghost use Rattle.ps_tree.specs.View.{set_steps_of, member_of, members_of, structure_of, argument_of, arguments_of};
ghost use Rattle.ps_tree.specs.View.{read_of, width_of, write_of, statement_of, statements_of, elements_of};
ghost use Rattle.ps_lower_least.specs.Fewest.{place_fewest, selector_fewest, selectors_fewest, expr_fewest};
ghost use Rattle.ps_lower_least.specs.Fewest.{steps_fewest, operands_fewest, set_fewest, set_steps_fewest};
ghost use Rattle.ps_lower_least.specs.Fewest.{member_fewest, members_fewest, structure_fewest, argument_fewest};
ghost use Rattle.ps_lower_least.specs.Fewest.{arguments_fewest, places_fewest, read_fewest, reads_fewest, width_fewest};
ghost use Rattle.ps_lower_least.specs.Fewest.{write_fewest, writes_fewest, statement_fewest, statements_fewest};
ghost use Rattle.ps_lower_least.specs.Fewest.{elements_fewest};
ghost use Rattle.ps_lower_least.specs.Counted.{Adds};

use ps_tree::tree::{
    Argument, ArithmeticStep, CaseElement, Expr, Member, Place, ReadVariable, Selector, SetExpr,
    SetStep, Statement, Structure, Width, WriteParameter,
};

/// The least number for a comparison of two sets, besides their parts.
const COMPARED_SETS: u64 = 21;

/// The least number for a set that is passed by value, besides its parts.
const PASSED_SET: u64 = 10;

/// The least number for a structure that is passed by value, besides its parts.
const PASSED_STRUCTURE: u64 = 5;

/// Adds a number, up to the greatest that a count can hold.
fn add(count: &mut u64, number: u64)
    ensures { Adds count.old count.new number }
{
    *count = count.saturating_add(number);
}

#[cycle(parts)]
fn add_place(place: &Place, count: &mut u64)
    ensures { Adds count.old count.new (place_fewest (place_of place.now)) }
{
    add_selectors(&place.selectors, count);
}

#[cycle(parts)]
fn add_selectors(selectors: &[Selector], count: &mut u64)
    ensures { Adds count.old count.new (selectors_fewest (selectors_of selectors.now)) }
{
    for selector in selectors {
        add_selector(selector, count);
    }
}

#[cycle(parts)]
fn add_selector(selector: &Selector, count: &mut u64)
    ensures { Adds count.old count.new (selector_fewest (selector_of selector.now)) }
{
    match selector {
        Selector::Element { index, .. } => add_expr(index, count),
        Selector::Field { .. } => {}
        Selector::Target { .. } => {}
    }
}

#[cycle(parts)]
fn add_expr(e: &Expr, count: &mut u64)
    ensures { Adds count.old count.new (expr_fewest (expr_of e.now)) }
{
    match e {
        Expr::Number(_) | Expr::Nil | Expr::Eof | Expr::Eoln { .. } => {}
        Expr::Load(place) => add_place(place, count),
        Expr::Plus(operand)
        | Expr::Minus { operand, .. }
        | Expr::Not(operand)
        | Expr::Apply { operand, .. } => add_expr(operand, count),
        Expr::Arithmetic { first, steps } => {
            add_expr(first, count);
            add_arithmetic(steps, count);
        }
        Expr::Logic { first, rest, .. } => {
            add_expr(first, count);
            add_operands(rest, count);
        }
        Expr::Compare { left, right, .. } | Expr::ComparePointers { left, right, .. } => {
            add_expr(left, count);
            add_expr(right, count);
        }
        Expr::CompareSets { left, right, .. } => {
            add(count, COMPARED_SETS);
            add_set(left, count);
            add_set(right, count);
        }
        Expr::CompareStrings { left, right, .. } => {
            add_structure(left, count);
            add_structure(right, count);
        }
        Expr::In { left, right } => {
            add_expr(left, count);
            add_set(right, count);
        }
        Expr::Call {
            routine,
            arguments,
            ..
        } => {
            add(count, 1);
            add_arguments(arguments, count);
        }
        Expr::CallFormal { arguments, .. } => {
            add(count, 1);
            add_arguments(arguments, count);
        }
    }
}

#[cycle(parts)]
fn add_arithmetic(steps: &[ArithmeticStep], count: &mut u64)
    ensures { Adds count.old count.new (steps_fewest (arithmetic_of steps.now)) }
{
    for step in steps {
        add_expr(&step.operand, count);
    }
}

#[cycle(parts)]
fn add_operands(operands: &[Expr], count: &mut u64)
    ensures { Adds count.old count.new (operands_fewest (operands_of operands.now)) }
{
    for operand in operands {
        add_expr(operand, count);
    }
}

#[cycle(parts)]
fn add_set(e: &SetExpr, count: &mut u64)
    ensures { Adds count.old count.new (set_fewest (set_of e.now)) }
{
    match e {
        SetExpr::Load(place) => add_place(place, count),
        SetExpr::Constructor(members) => add_members(members, count),
        SetExpr::Combine { first, steps } => {
            add_set(first, count);
            add_set_steps(steps, count);
        }
    }
}

#[cycle(parts)]
fn add_set_steps(steps: &[SetStep], count: &mut u64)
    ensures { Adds count.old count.new (set_steps_fewest (set_steps_of steps.now)) }
{
    for step in steps {
        add_set(&step.operand, count);
    }
}

#[cycle(parts)]
fn add_members(members: &[Member], count: &mut u64)
    ensures { Adds count.old count.new (members_fewest (members_of members.now)) }
{
    for member in members {
        add_member(member, count);
    }
}

#[cycle(parts)]
fn add_member(member: &Member, count: &mut u64)
    ensures { Adds count.old count.new (member_fewest (member_of member.now)) }
{
    match member {
        Member::One { value, .. } => add_expr(value, count),
        Member::Range { from, to, .. } => {
            add_expr(from, count);
            add_expr(to, count);
        }
    }
}

#[cycle(parts)]
fn add_structure(e: &Structure, count: &mut u64)
    ensures { Adds count.old count.new (structure_fewest (structure_of e.now)) }
{
    match e {
        Structure::Literal(_) => {}
        Structure::Contents { place, .. } => add_place(place, count),
    }
}

#[cycle(parts)]
fn add_argument(argument: &Argument, count: &mut u64)
    ensures { Adds count.old count.new (argument_fewest (argument_of argument.now)) }
{
    match argument {
        Argument::Value { value, .. } => add_expr(value, count),
        Argument::Set { value, .. } => {
            add(count, PASSED_SET);
            add_set(value, count);
        }
        Argument::Copy { value, .. } => {
            add(count, PASSED_STRUCTURE);
            add_structure(value, count);
        }
        Argument::Variable(place) => add_place(place, count),
        Argument::Routine { routine, .. } => add(count, 1),
        Argument::Formal { .. } => {}
    }
}

#[cycle(parts)]
fn add_arguments(arguments: &[Argument], count: &mut u64)
    ensures { Adds count.old count.new (arguments_fewest (arguments_of arguments.now)) }
{
    for argument in arguments {
        add_argument(argument, count);
    }
}

fn add_places(places: &[Place], count: &mut u64)
    ensures { Adds count.old count.new (places_fewest (map place_of places.now)) }
{
    for place in places {
        add_place(place, count);
    }
}

fn add_read(variable: &ReadVariable, count: &mut u64)
    ensures { Adds count.old count.new (read_fewest (read_of variable.now)) }
{
    match variable {
        ReadVariable::Char { place, .. } | ReadVariable::Integer { place, .. } => {
            add_place(place, count)
        }
    }
}

fn add_reads(variables: &[ReadVariable], count: &mut u64)
    ensures { Adds count.old count.new (reads_fewest (map read_of variables.now)) }
{
    for variable in variables {
        add_read(variable, count);
    }
}

fn add_width(width: &Width, count: &mut u64)
    ensures { Adds count.old count.new (width_fewest (width_of width.now)) }
{
    match width {
        Width::Default => {}
        Width::Given { value, .. } => add_expr(value, count),
    }
}

fn add_write(parameter: &WriteParameter, count: &mut u64)
    ensures { Adds count.old count.new (write_fewest (write_of parameter.now)) }
{
    match parameter {
        WriteParameter::Integer { value, width }
        | WriteParameter::Char { value, width }
        | WriteParameter::Boolean { value, width } => {
            add_expr(value, count);
            add_width(width, count);
        }
        WriteParameter::Text { value, width } => {
            add_structure(value, count);
            add_width(width, count);
        }
    }
}

fn add_writes(parameters: &[WriteParameter], count: &mut u64)
    ensures { Adds count.old count.new (writes_fewest (map write_of parameters.now)) }
{
    for parameter in parameters {
        add_write(parameter, count);
    }
}

#[cycle(statements)]
fn add_statement(statement: &Statement, count: &mut u64)
    ensures { Adds count.old count.new (statement_fewest (statement_of statement.now)) }
{
    match statement {
        Statement::Empty => {}
        Statement::Assign { target, value, .. } => {
            add_place(target, count);
            add_expr(value, count);
        }
        Statement::AssignSet { target, value, .. } => {
            add_place(target, count);
            add_set(value, count);
        }
        Statement::AssignStructure { target, value } => {
            add_place(target, count);
            add_structure(value, count);
        }
        Statement::Call {
            routine,
            arguments,
            ..
        } => {
            add(count, 1);
            add_arguments(arguments, count);
        }
        Statement::CallFormal { arguments, .. } => {
            add(count, 1);
            add_arguments(arguments, count);
        }
        Statement::Compound(body) => add_statements(body, count),
        Statement::If { condition, body } | Statement::While { condition, body } => {
            add_expr(condition, count);
            add_statement(body, count);
        }
        Statement::IfElse {
            condition,
            body,
            otherwise,
        } => {
            add_expr(condition, count);
            add_statement(body, count);
            add_statement(otherwise, count);
        }
        Statement::Case {
            index,
            elements,
            ..
        } => {
            add_expr(index, count);
            add_elements(elements, count);
        }
        Statement::Repeat { body, condition } => {
            add_statements(body, count);
            add_expr(condition, count);
        }
        Statement::For { from, to, body, .. } => {
            add_expr(from, count);
            add_expr(to, count);
            add_statement(body, count);
        }
        Statement::With { places, body } => {
            add_places(places, count);
            add_statement(body, count);
        }
        Statement::New { place, .. } => add_place(place, count),
        Statement::Pack {
            from,
            index,
            to,
            ..
        } => {
            add_place(from, count);
            add_expr(index, count);
            add_place(to, count);
        }
        Statement::Unpack {
            from,
            to,
            index,
            ..
        } => {
            add_place(from, count);
            add_place(to, count);
            add_expr(index, count);
        }
        Statement::Read { variables } | Statement::Readln { variables, .. } => {
            add_reads(variables, count)
        }
        Statement::Write { parameters } | Statement::Writeln { parameters } => {
            add_writes(parameters, count)
        }
    }
}

#[cycle(statements)]
pub(crate) fn add_statements(statements: &[Statement], count: &mut u64)
    ensures { Adds count.old count.new (statements_fewest (statements_of statements.now)) }
{
    for statement in statements {
        add_statement(statement, count);
    }
}

#[cycle(statements)]
fn add_elements(elements: &[CaseElement], count: &mut u64)
    ensures { Adds count.old count.new (elements_fewest (elements_of elements.now)) }
{
    for element in elements {
        add_statement(&element.body, count);
    }
}
