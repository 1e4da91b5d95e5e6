//! The height of a tree.

ghost use Rattle.std.specs.Prelude.{◌≡◌, map, max, min};
ghost use Rattle.ps_syntax.specs.Height.{greatest, height_of, height_of_expr, height_of_factor, height_of_member};
ghost use Rattle.ps_syntax.specs.Height.{height_of_selector, height_of_simple, height_of_term, height_of_added};
ghost use Rattle.ps_syntax.specs.Height.{height_of_multiplied, height_of_variable, height_of_parameter};
ghost use Rattle.ps_syntax.specs.Height.{height_of_statement, height_of_element, height_of_type, height_of_structure};
ghost use Rattle.ps_syntax.specs.Height.{height_of_fields, height_of_heading, height_of_formals, height_of_section};
ghost use Rattle.ps_syntax.specs.Height.{height_of_types, height_of_variables, height_of_routine, height_of_block};

use crate::expression::{
    AddedTerm, Expr, Factor, Member, MultipliedFactor, Selector, Simple, Term, Variable,
};
use crate::program::{
    Block, Fields, Heading, Program, Routine, Section, Structure, TypeDefinition, TypeDenoter,
    Variables,
};
use crate::statement::{Element, Parameter, Statement};
use sqlite_items::Boxed;

/// The height of a program's tree, or `u32::MAX` if it is higher: the greatest number of blocks, formal lists, types,
/// index and base ordinals, statements, expressions and factors after `not` that are nested in one another. Variables,
/// terms, and the `begin` and `end` of a block don't count.
pub fn height(program: &Program) -> u32
    ensures { result ≡ min (height_of program.now) u32.MAX }
{
    block_height(&program.block)
}

#[cycle(expression_height)]
fn expr_height(expr: &Expr) -> u32
    ensures { result ≡ min (height_of_expr expr.now) u32.MAX }
{
    match expr {
        Expr::Simple(only) => simple_height(only).saturating_add(1),
        Expr::Compare(left, _, _, right) => {
            simple_height(left)
                .max(simple_height(right.get()))
                .saturating_add(1)
        }
    }
}

#[cycle(expression_height)]
fn simple_height(simple: &Simple) -> u32
    ensures { result ≡ min (height_of_simple simple.now) u32.MAX }
{
    term_height(&simple.first).max(added_height(simple.more.as_slice()))
}

#[cycle(expression_height)]
fn added_height(terms: &[AddedTerm]) -> u32
    ensures { result ≡ min (greatest (map height_of_added terms.now)) u32.MAX }
{
    let mut most = 0;
    for added in terms {
        most = most.max(term_height(&added.term));
    }
    most
}

#[cycle(expression_height)]
fn term_height(term: &Term) -> u32
    ensures { result ≡ min (height_of_term term.now) u32.MAX }
{
    factor_height(&term.first).max(multiplied_height(term.more.as_slice()))
}

#[cycle(expression_height)]
fn multiplied_height(factors: &[MultipliedFactor]) -> u32
    ensures { result ≡ min (greatest (map height_of_multiplied factors.now)) u32.MAX }
{
    let mut most = 0;
    for multiplied in factors {
        most = most.max(factor_height(&multiplied.factor));
    }
    most
}

#[cycle(expression_height)]
fn factor_height(factor: &Factor) -> u32
    ensures { result ≡ min (height_of_factor factor.now) u32.MAX }
{
    match factor {
        Factor::Variable(variable) => variable_height(variable),
        Factor::Call(_, parameters) => exprs_height(parameters.as_slice()),
        Factor::Number(_) | Factor::Text(_) | Factor::Nil(_) => 0,
        Factor::Set(_, members) => members_height(members.as_slice()),
        Factor::Group(_, redundant, inner) => expr_height(inner.get()).saturating_add(*redundant),
        Factor::Not(_, inner) => factor_height(inner.get()).saturating_add(1),
    }
}

#[cycle(expression_height)]
fn exprs_height(exprs: &[Expr]) -> u32
    ensures { result ≡ min (greatest (map height_of_expr exprs.now)) u32.MAX }
{
    let mut most = 0;
    for expr in exprs {
        most = most.max(expr_height(expr));
    }
    most
}

#[cycle(expression_height)]
fn member_height(member: &Member) -> u32
    ensures { result ≡ min (height_of_member member.now) u32.MAX }
{
    match member {
        Member::One(only) => expr_height(only.get()),
        Member::Range(low, high) => expr_height(low.get()).max(expr_height(high.get())),
    }
}

#[cycle(expression_height)]
fn members_height(members: &[Member]) -> u32
    ensures { result ≡ min (greatest (map height_of_member members.now)) u32.MAX }
{
    let mut most = 0;
    for member in members {
        most = most.max(member_height(member));
    }
    most
}

#[cycle(expression_height)]
fn variable_height(variable: &Variable) -> u32
    ensures { result ≡ min (height_of_variable variable.now) u32.MAX }
{
    selectors_height(variable.selectors.as_slice())
}

#[cycle(expression_height)]
fn selector_height(selector: &Selector) -> u32
    ensures { result ≡ min (height_of_selector selector.now) u32.MAX }
{
    match selector {
        Selector::Index(indices) => exprs_height(indices.as_slice()),
        Selector::Field(_) | Selector::Content(_) => 0,
    }
}

#[cycle(expression_height)]
fn selectors_height(selectors: &[Selector]) -> u32
    ensures { result ≡ min (greatest (map height_of_selector selectors.now)) u32.MAX }
{
    let mut most = 0;
    for selector in selectors {
        most = most.max(selector_height(selector));
    }
    most
}

fn parameter_height(parameter: &Parameter) -> u32
    ensures { result ≡ min (height_of_parameter parameter.now) u32.MAX }
{
    match parameter {
        Parameter::Plain(value) => expr_height(value),
        Parameter::Width(value, width) => expr_height(value).max(expr_height(width.get())),
    }
}

fn parameters_height(parameters: &[Parameter]) -> u32
    ensures { result ≡ min (greatest (map height_of_parameter parameters.now)) u32.MAX }
{
    let mut most = 0;
    for parameter in parameters {
        most = most.max(parameter_height(parameter));
    }
    most
}

fn variables_height(variables: &[Variable]) -> u32
    ensures { result ≡ min (greatest (map height_of_variable variables.now)) u32.MAX }
{
    let mut most = 0;
    for variable in variables {
        most = most.max(variable_height(variable));
    }
    most
}

/// The height of an expression, or the other height if that is greater.
fn beside(expr: &Boxed<Expr>, other: u32) -> u32
    ensures { result ≡ max (min (height_of_expr expr.now) u32.MAX) other }
{
    expr_height(expr.get()).max(other)
}

#[cycle(statement_height)]
fn statement_height(statement: &Statement) -> u32
    ensures { result ≡ min (height_of_statement statement.now) u32.MAX }
{
    let inner = match statement {
        Statement::Empty => 0,
        Statement::Assign(variable, _, value) => variable_height(variable).max(expr_height(
            value.get(),
        )),
        Statement::Call(_, parameters) => parameters_height(parameters.as_slice()),
        Statement::Compound(statements) => statements_height(statements.as_slice()),
        Statement::If(condition, chosen) => beside(condition, statement_height(chosen.get())),
        Statement::IfElse(condition, chosen, other) => {
            let either = statement_height(chosen.get()).max(statement_height(other.get()));
            expr_height(condition.get()).max(either)
        }
        Statement::Case(_, index, elements) => beside(index, elements_height(elements.as_slice())),
        Statement::While(condition, body) => beside(condition, statement_height(body.get())),
        Statement::Repeat(statements, condition) => statements_height(statements.as_slice()).max(
            expr_height(condition.get()),
        ),
        Statement::For {
            first,
            last,
            body,
            ..
        } => {
            let bounds = expr_height(first.get()).max(expr_height(last.get()));
            bounds.max(statement_height(body.get()))
        }
        Statement::With(records, body) => variables_height(records.as_slice()).max(statement_height(
            body.get(),
        )),
    };
    inner.saturating_add(1)
}

#[cycle(statement_height)]
fn statements_height(statements: &[Statement]) -> u32
    ensures { result ≡ min (greatest (map height_of_statement statements.now)) u32.MAX }
{
    let mut most = 0;
    for statement in statements {
        most = most.max(statement_height(statement));
    }
    most
}

#[cycle(statement_height)]
fn elements_height(elements: &[Element]) -> u32
    ensures { result ≡ min (greatest (map height_of_element elements.now)) u32.MAX }
{
    let mut most = 0;
    for element in elements {
        most = most.max(statement_height(&element.statement));
    }
    most
}

#[cycle(type_height)]
fn type_height(denoter: &TypeDenoter) -> u32
    ensures { result ≡ min (height_of_type denoter.now) u32.MAX }
{
    match denoter {
        TypeDenoter::Ordinal(_) | TypeDenoter::Pointer(..) => 1,
        TypeDenoter::Structure(structure) | TypeDenoter::Packed(_, structure) => {
            structure_height(structure).saturating_add(1)
        }
    }
}

#[cycle(type_height)]
fn structure_height(structure: &Structure) -> u32
    ensures { result ≡ min (height_of_structure structure.now) u32.MAX }
{
    match structure {
        Structure::Array(_, _, component) => type_height(component.get()).max(1),
        Structure::Record(_, fields) => fields_height(fields.as_slice()),
        Structure::Set(..) => 1,
    }
}

#[cycle(type_height)]
fn fields_height(sections: &[Fields]) -> u32
    ensures { result ≡ min (greatest (map height_of_fields sections.now)) u32.MAX }
{
    let mut most = 0;
    for fields in sections {
        most = most.max(type_height(&fields.ty));
    }
    most
}

#[cycle(heading_height)]
fn heading_height(heading: &Heading) -> u32
    ensures { result ≡ min (height_of_heading heading.now) u32.MAX }
{
    match heading {
        Heading::Procedure(_, formals) | Heading::Function(_, formals, _) => formals_height(
            formals.as_slice(),
        ),
    }
}

#[cycle(heading_height)]
fn formals_height(sections: &[Section]) -> u32
    ensures { result ≡ min (height_of_formals sections.now) u32.MAX }
{
    if sections.is_empty() {
        return 0;
    }
    sections_height(sections).saturating_add(1)
}

#[cycle(heading_height)]
fn sections_height(sections: &[Section]) -> u32
    ensures { result ≡ min (greatest (map height_of_section sections.now)) u32.MAX }
{
    let mut most = 0;
    for section in sections {
        most = most.max(section_height(section));
    }
    most
}

#[cycle(heading_height)]
fn section_height(section: &Section) -> u32
    ensures { result ≡ min (height_of_section section.now) u32.MAX }
{
    match section {
        Section::Value(..) | Section::Variable(..) => 0,
        Section::Routine(heading) => heading_height(heading),
    }
}

#[cycle(block_height)]
fn routine_height(routine: &Routine) -> u32
    ensures { result ≡ min (height_of_routine routine.now) u32.MAX }
{
    match routine {
        Routine::Whole(heading, block) => heading_height(heading).max(block_height(block)),
        Routine::Forward(heading) => heading_height(heading),
        Routine::Completion(_, block) => block_height(block),
    }
}

#[cycle(block_height)]
fn routines_height(routines: &[Routine]) -> u32
    ensures { result ≡ min (greatest (map height_of_routine routines.now)) u32.MAX }
{
    let mut most = 0;
    for routine in routines {
        most = most.max(routine_height(routine));
    }
    most
}

fn types_height(definitions: &[TypeDefinition]) -> u32
    ensures { result ≡ min (height_of_types definitions.now) u32.MAX }
{
    let mut most = 0;
    for definition in definitions {
        most = most.max(type_height(&definition.ty));
    }
    most
}

fn declared_height(declarations: &[Variables]) -> u32
    ensures { result ≡ min (height_of_variables declarations.now) u32.MAX }
{
    let mut most = 0;
    for declaration in declarations {
        most = most.max(type_height(&declaration.ty));
    }
    most
}

#[cycle(block_height)]
fn block_height(block: &Block) -> u32
    ensures { result ≡ min (height_of_block block.now) u32.MAX }
{
    let types = types_height(block.types.as_slice());
    let declared = declared_height(block.variables.as_slice());
    let routines = routines_height(block.routines.as_slice());
    let statements = statements_height(block.statements.as_slice());
    types
        .max(declared)
        .max(routines.max(statements))
        .saturating_add(1)
}
