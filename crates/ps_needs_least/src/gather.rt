// What a block does with routines, in the order of the text.

ghost use Rattle.std.specs.Prelude.{◌≡◌, map, IfOk};
ghost use Rattle.ps_tree.specs.View.{place_of, selector_of, selectors_of, expr_of, arithmetic_of, operands_of, set_of};
ghost use Rattle.ps_tree.specs.View.{set_steps_of, member_of, members_of, structure_of, argument_of, arguments_of};
ghost use Rattle.ps_tree.specs.View.{read_of, width_of, write_of, statement_of, statements_of, elements_of};
ghost use Rattle.ps_needs_least.specs.Uses.{place_uses, selector_uses, selectors_uses, expr_uses, steps_uses};
ghost use Rattle.ps_needs_least.specs.Uses.{operands_uses, set_uses, set_steps_uses, member_uses, members_uses};
ghost use Rattle.ps_needs_least.specs.Uses.{structure_uses, argument_uses, arguments_uses, places_uses, read_uses};
ghost use Rattle.ps_needs_least.specs.Uses.{reads_uses, width_uses, write_uses, writes_uses, statement_uses};
ghost use Rattle.ps_needs_least.specs.Uses.{statements_uses, elements_uses};
ghost use Rattle.ps_needs_least.specs.Gathered.{Adds};

use crate::uses::{Found, Use};
use ps_tree::tree::{
    Argument, ArithmeticStep, CaseElement, Expr, Member, Place, ReadVariable, Routine, Selector,
    SetExpr, SetStep, Statement, Structure, Width, WriteParameter,
};
use std::alloc::{AllocError, Global};

#[cycle(parts)]
fn add_place(place: &Place, found: &mut Found)
    ensures { Adds found.old found.new (place_uses (place_of place.now)) }
{
    add_selectors(&place.selectors, found);
}

#[cycle(parts)]
fn add_selectors(selectors: &[Selector], found: &mut Found)
    ensures { Adds found.old found.new (selectors_uses (selectors_of selectors.now)) }
{
    for selector in selectors {
        add_selector(selector, found);
    }
}

#[cycle(parts)]
fn add_selector(selector: &Selector, found: &mut Found)
    ensures { Adds found.old found.new (selector_uses (selector_of selector.now)) }
{
    match selector {
        Selector::Element { index, .. } => add_expr(index, found),
        Selector::Field { .. } => {}
        Selector::Target { .. } => {}
    }
}

#[cycle(parts)]
fn add_expr(e: &Expr, found: &mut Found)
    ensures { Adds found.old found.new (expr_uses (expr_of e.now)) }
{
    match e {
        Expr::Number(_) | Expr::Nil | Expr::Eof | Expr::Eoln { .. } => {}
        Expr::Load(place) => add_place(place, found),
        Expr::Plus(operand)
        | Expr::Minus { operand, .. }
        | Expr::Not(operand)
        | Expr::Apply { operand, .. } => add_expr(operand, found),
        Expr::Arithmetic { first, steps } => {
            add_expr(first, found);
            add_arithmetic(steps, found);
        }
        Expr::Logic { first, rest, .. } => {
            add_expr(first, found);
            add_operands(rest, found);
        }
        Expr::Compare { left, right, .. } | Expr::ComparePointers { left, right, .. } => {
            add_expr(left, found);
            add_expr(right, found);
        }
        Expr::CompareSets { left, right, .. } => {
            add_set(left, found);
            add_set(right, found);
        }
        Expr::CompareStrings { left, right, .. } => {
            add_structure(left, found);
            add_structure(right, found);
        }
        Expr::In { left, right } => {
            add_expr(left, found);
            add_set(right, found);
        }
        Expr::Call {
            routine,
            arguments,
            ..
        } => {
            found.add(Use::Called(*routine));
            add_arguments(arguments, found);
        }
        Expr::CallFormal { arguments, .. } => {
            found.add(Use::ParameterCalled);
            add_arguments(arguments, found);
        }
    }
}

#[cycle(parts)]
fn add_arithmetic(steps: &[ArithmeticStep], found: &mut Found)
    ensures { Adds found.old found.new (steps_uses (arithmetic_of steps.now)) }
{
    for step in steps {
        add_expr(&step.operand, found);
    }
}

#[cycle(parts)]
fn add_operands(operands: &[Expr], found: &mut Found)
    ensures { Adds found.old found.new (operands_uses (operands_of operands.now)) }
{
    for operand in operands {
        add_expr(operand, found);
    }
}

#[cycle(parts)]
fn add_set(e: &SetExpr, found: &mut Found)
    ensures { Adds found.old found.new (set_uses (set_of e.now)) }
{
    match e {
        SetExpr::Load(place) => add_place(place, found),
        SetExpr::Constructor(members) => add_members(members, found),
        SetExpr::Combine { first, steps } => {
            add_set(first, found);
            add_set_steps(steps, found);
        }
    }
}

#[cycle(parts)]
fn add_set_steps(steps: &[SetStep], found: &mut Found)
    ensures { Adds found.old found.new (set_steps_uses (set_steps_of steps.now)) }
{
    for step in steps {
        add_set(&step.operand, found);
    }
}

#[cycle(parts)]
fn add_members(members: &[Member], found: &mut Found)
    ensures { Adds found.old found.new (members_uses (members_of members.now)) }
{
    for member in members {
        add_member(member, found);
    }
}

#[cycle(parts)]
fn add_member(member: &Member, found: &mut Found)
    ensures { Adds found.old found.new (member_uses (member_of member.now)) }
{
    match member {
        Member::One { value, .. } => add_expr(value, found),
        Member::Range { from, to, .. } => {
            add_expr(from, found);
            add_expr(to, found);
        }
    }
}

#[cycle(parts)]
fn add_structure(e: &Structure, found: &mut Found)
    ensures { Adds found.old found.new (structure_uses (structure_of e.now)) }
{
    match e {
        Structure::Literal(_) => {}
        Structure::Contents { place, .. } => add_place(place, found),
    }
}

#[cycle(parts)]
fn add_argument(argument: &Argument, found: &mut Found)
    ensures { Adds found.old found.new (argument_uses (argument_of argument.now)) }
{
    match argument {
        Argument::Value { value, .. } => add_expr(value, found),
        Argument::Set { value, .. } => add_set(value, found),
        Argument::Copy { value, .. } => add_structure(value, found),
        Argument::Variable(place) => add_place(place, found),
        Argument::Routine { routine, .. } => found.add(Use::Passed(*routine)),
        Argument::Formal { .. } => {}
    }
}

#[cycle(parts)]
fn add_arguments(arguments: &[Argument], found: &mut Found)
    ensures { Adds found.old found.new (arguments_uses (arguments_of arguments.now)) }
{
    for argument in arguments {
        add_argument(argument, found);
    }
}

fn add_places(places: &[Place], found: &mut Found)
    ensures { Adds found.old found.new (places_uses (map place_of places.now)) }
{
    for place in places {
        add_place(place, found);
    }
}

fn add_read(variable: &ReadVariable, found: &mut Found)
    ensures { Adds found.old found.new (read_uses (read_of variable.now)) }
{
    match variable {
        ReadVariable::Char { place, .. } | ReadVariable::Integer { place, .. } => {
            add_place(place, found)
        }
    }
}

fn add_reads(variables: &[ReadVariable], found: &mut Found)
    ensures { Adds found.old found.new (reads_uses (map read_of variables.now)) }
{
    for variable in variables {
        add_read(variable, found);
    }
}

fn add_width(width: &Width, found: &mut Found)
    ensures { Adds found.old found.new (width_uses (width_of width.now)) }
{
    match width {
        Width::Default => {}
        Width::Given { value, .. } => add_expr(value, found),
    }
}

fn add_write(parameter: &WriteParameter, found: &mut Found)
    ensures { Adds found.old found.new (write_uses (write_of parameter.now)) }
{
    match parameter {
        WriteParameter::Integer { value, width }
        | WriteParameter::Char { value, width }
        | WriteParameter::Boolean { value, width } => {
            add_expr(value, found);
            add_width(width, found);
        }
        WriteParameter::Text { value, width } => {
            add_structure(value, found);
            add_width(width, found);
        }
    }
}

fn add_writes(parameters: &[WriteParameter], found: &mut Found)
    ensures { Adds found.old found.new (writes_uses (map write_of parameters.now)) }
{
    for parameter in parameters {
        add_write(parameter, found);
    }
}

#[cycle(statements)]
fn add_statement(statement: &Statement, found: &mut Found)
    ensures { Adds found.old found.new (statement_uses (statement_of statement.now)) }
{
    match statement {
        Statement::Empty => {}
        Statement::Assign { target, value, .. } => {
            add_place(target, found);
            add_expr(value, found);
        }
        Statement::AssignSet { target, value, .. } => {
            add_place(target, found);
            add_set(value, found);
        }
        Statement::AssignStructure { target, value } => {
            add_place(target, found);
            add_structure(value, found);
        }
        Statement::Call {
            routine,
            arguments,
            ..
        } => {
            found.add(Use::Called(*routine));
            add_arguments(arguments, found);
        }
        Statement::CallFormal { arguments, .. } => {
            found.add(Use::ParameterCalled);
            add_arguments(arguments, found);
        }
        Statement::Compound(body) => add_statements(body, found),
        Statement::If { condition, body } | Statement::While { condition, body } => {
            add_expr(condition, found);
            add_statement(body, found);
        }
        Statement::IfElse {
            condition,
            body,
            otherwise,
        } => {
            add_expr(condition, found);
            add_statement(body, found);
            add_statement(otherwise, found);
        }
        Statement::Case {
            index,
            elements,
            ..
        } => {
            add_expr(index, found);
            add_elements(elements, found);
        }
        Statement::Repeat { body, condition } => {
            add_statements(body, found);
            add_expr(condition, found);
        }
        Statement::For { from, to, body, .. } => {
            add_expr(from, found);
            add_expr(to, found);
            add_statement(body, found);
        }
        Statement::With { places, body } => {
            add_places(places, found);
            add_statement(body, found);
        }
        Statement::New { place, .. } => add_place(place, found),
        Statement::Pack {
            from,
            index,
            to,
            ..
        } => {
            add_place(from, found);
            add_expr(index, found);
            add_place(to, found);
        }
        Statement::Unpack {
            from,
            to,
            index,
            ..
        } => {
            add_place(from, found);
            add_place(to, found);
            add_expr(index, found);
        }
        Statement::Read { variables } | Statement::Readln { variables, .. } => {
            add_reads(variables, found)
        }
        Statement::Write { parameters } | Statement::Writeln { parameters } => {
            add_writes(parameters, found)
        }
    }
}

#[cycle(statements)]
fn add_statements(statements: &[Statement], found: &mut Found)
    ensures { Adds found.old found.new (statements_uses (statements_of statements.now)) }
{
    for statement in statements {
        add_statement(statement, found);
    }
}

#[cycle(statements)]
fn add_elements(elements: &[CaseElement], found: &mut Found)
    ensures { Adds found.old found.new (elements_uses (elements_of elements.now)) }
{
    for element in elements {
        add_statement(&element.body, found);
    }
}

/// What the block of a routine does with routines, in the order of the text.
pub fn uses_of(alloc: Global, routine: &Routine) -> Result<Vec<Use>, AllocError>
    ensures { IfOk result (λ uses. uses.items ≡ statements_uses (statements_of routine.now.body.items)) }
{
    let mut found = Found {
        list: Vec::new(alloc),
        lost: false,
    };
    add_statements(&routine.body, &mut found);
    let Found { list, lost } = found;
    if lost { Err(AllocError) } else { Ok(list) }
}
