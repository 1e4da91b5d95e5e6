// The nodes of a part of the tree, and the cells that it takes.

ghost use Rattle.std.specs.Prelude.{◌≡◌, ℕ, map};
ghost use Rattle.ps_tree.specs.Types.{DataType};
ghost use Rattle.ps_tree.specs.Counts.{capped, ◌⊕◌, nothing, node, copy_of, place_extent, selector_extent};
ghost use Rattle.ps_tree.specs.Counts.{selectors_extent, expr_extent, arithmetic_extent, operands_extent, set_extent};
ghost use Rattle.ps_tree.specs.Counts.{set_steps_extent, member_extent, members_extent, structure_extent};
ghost use Rattle.ps_tree.specs.Counts.{argument_extent, arguments_extent, places_extent, read_extent, reads_extent};
ghost use Rattle.ps_tree.specs.Counts.{width_extent, write_extent, writes_extent, statement_extent, statements_extent};
ghost use Rattle.ps_tree.specs.Counts.{elements_extent};
ghost use Rattle.ps_tree.specs.View.{type_of, place_of, selector_of, selectors_of, expr_of, arithmetic_of, operands_of};
ghost use Rattle.ps_tree.specs.View.{set_of, set_steps_of, member_of, members_of, structure_of, argument_of};
ghost use Rattle.ps_tree.specs.View.{arguments_of, read_of, width_of, write_of, statement_of, statements_of};
ghost use Rattle.ps_tree.specs.View.{elements_of};

use crate::tree::{
    Argument, ArithmeticStep, CaseElement, Expr, Member, Place, ReadVariable, Selector, SetExpr,
    SetStep, Statement, Structure, Width, WriteParameter,
};
use crate::types::Ty;

/// The number of nodes in a part of the tree, and of cells for its variables and the copies at its calls.
#[derive(Clone, Copy)]
pub struct Extent {
    pub nodes: u64,
    pub taken: u64,
}

pub const NOTHING: Extent = Extent { nodes: 0, taken: 0 };

const NODE: Extent = Extent { nodes: 1, taken: 0 };

/// The extent of two parts.
pub fn both(a: Extent, b: Extent) -> Extent
    ensures { (x : Extent) (y : Extent) → a ≡ capped x → b ≡ capped y → result ≡ capped (x ⊕ y) }
{
    Extent {
        nodes: a.nodes.saturating_add(b.nodes),
        taken: a.taken.saturating_add(b.taken),
    }
}

/// The extent of a node and a part.
fn with_node(a: Extent) -> Extent
    ensures { (x : Extent) → a ≡ capped x → result ≡ capped (node ⊕ x) }
{
    both(NODE, a)
}

/// The extent of two operands and their operator.
fn binary(a: Extent, b: Extent) -> Extent
    ensures { (x : Extent) (y : Extent) → a ≡ capped x → b ≡ capped y → result ≡ capped (x ⊕ node ⊕ y) }
{
    both(both(a, NODE), b)
}

/// The extent of two nodes and a part.
fn with_nodes(a: Extent) -> Extent
    ensures { (x : Extent) → a ≡ capped x → result ≡ capped (node ⊕ node ⊕ x) }
{
    both(Extent { nodes: 2, taken: 0 }, a)
}

/// The extent of a node and two parts.
fn two(a: Extent, b: Extent) -> Extent
    ensures { (x : Extent) (y : Extent) → a ≡ capped x → b ≡ capped y → result ≡ capped (node ⊕ x ⊕ y) }
{
    both(with_node(a), b)
}

/// The extent of a node and three parts.
fn three(a: Extent, b: Extent, c: Extent) -> Extent
    ensures { (x : Extent) (y : Extent) (z : Extent) → a ≡ capped x → b ≡ capped y → c ≡ capped z → result ≡ capped
        (node ⊕ x ⊕ y ⊕ z) }
{
    both(two(a, b), c)
}

/// The cells of a variable, or of a copy.
pub fn copy(ty: &Ty) -> Extent
    ensures { result ≡ capped (copy_of (type_of ty.now)) }
{
    Extent {
        nodes: 0,
        taken: ty.cells(),
    }
}

#[cycle(extents)]
fn count_place(place: &Place) -> Extent
    ensures { result ≡ capped (place_extent (place_of place.now)) }
{
    with_node(count_selectors(&place.selectors))
}

#[cycle(extents)]
fn count_selectors(selectors: &[Selector]) -> Extent
    ensures { result ≡ capped (selectors_extent (selectors_of selectors.now)) }
{
    let mut total = NOTHING;
    for selector in selectors {
        total = both(total, count_selector(selector));
    }
    total
}

#[cycle(extents)]
#[tactic(auto, unfolding(crate::specs::View::selector_of, crate::specs::Counts::selector_extent))]
fn count_selector(selector: &Selector) -> Extent
    ensures { result ≡ capped (selector_extent (selector_of selector.now)) }
{
    match selector {
        Selector::Element { index, .. } => with_node(count_expr(index)),
        Selector::Field { .. } | Selector::Target { .. } => NODE,
    }
}

#[cycle(extents)]
#[tactic(auto, using(crate::proofs::TreeLemmas::expr_of_Load, crate::proofs::TreeLemmas::expr_of_Call, crate::proofs::TreeLemmas::expr_of_CallFormal), unfolding(crate::specs::View::expr_of, crate::specs::Counts::expr_extent))]
fn count_expr(e: &Expr) -> Extent
    ensures { result ≡ capped (expr_extent (expr_of e.now)) }
{
    match e {
        Expr::Number(_) | Expr::Nil | Expr::Eof | Expr::Eoln { .. } => NODE,
        Expr::Load(place) => count_place(place),
        Expr::Plus(operand) | Expr::Minus { operand, .. } | Expr::Not(operand) => {
            with_node(count_expr(operand))
        }
        Expr::Apply { operand, .. } => with_nodes(count_expr(operand)),
        Expr::Arithmetic { first, steps } => both(count_expr(first), count_arithmetic(steps)),
        Expr::Logic { first, rest, .. } => both(count_expr(first), count_operands(rest)),
        Expr::Compare { left, right, .. } | Expr::ComparePointers { left, right, .. } => binary(
            count_expr(left),
            count_expr(right),
        ),
        Expr::CompareSets { left, right, .. } => binary(count_set(left), count_set(right)),
        Expr::CompareStrings { left, right, .. } => {
            binary(count_structure(left), count_structure(right))
        }
        Expr::In { left, right } => binary(count_expr(left), count_set(right)),
        Expr::Call { arguments, .. } => with_node(count_arguments(arguments)),
        Expr::CallFormal { arguments, .. } => with_node(count_arguments(arguments)),
    }
}

#[cycle(extents)]
fn count_arithmetic(steps: &[ArithmeticStep]) -> Extent
    ensures { result ≡ capped (arithmetic_extent (arithmetic_of steps.now)) }
{
    let mut total = NOTHING;
    for step in steps {
        total = both(total, with_node(count_expr(&step.operand)));
    }
    total
}

#[cycle(extents)]
fn count_operands(operands: &[Expr]) -> Extent
    ensures { result ≡ capped (operands_extent (operands_of operands.now)) }
{
    let mut total = NOTHING;
    for operand in operands {
        total = both(total, with_node(count_expr(operand)));
    }
    total
}

#[cycle(extents)]
#[tactic(auto, using(crate::proofs::TreeLemmas::set_of_Load, crate::proofs::TreeLemmas::set_of_Constructor), unfolding(crate::specs::View::set_of, crate::specs::Counts::set_extent))]
fn count_set(e: &SetExpr) -> Extent
    ensures { result ≡ capped (set_extent (set_of e.now)) }
{
    match e {
        SetExpr::Load(place) => count_place(place),
        SetExpr::Constructor(members) => with_node(count_members(members)),
        SetExpr::Combine { first, steps } => both(count_set(first), count_set_steps(steps)),
    }
}

#[cycle(extents)]
fn count_set_steps(steps: &[SetStep]) -> Extent
    ensures { result ≡ capped (set_steps_extent (set_steps_of steps.now)) }
{
    let mut total = NOTHING;
    for step in steps {
        total = both(total, with_node(count_set(&step.operand)));
    }
    total
}

#[cycle(extents)]
fn count_members(members: &[Member]) -> Extent
    ensures { result ≡ capped (members_extent (members_of members.now)) }
{
    let mut total = NOTHING;
    for member in members {
        total = both(total, count_member(member));
    }
    total
}

#[cycle(extents)]
#[tactic(auto, unfolding(crate::specs::View::member_of, crate::specs::Counts::member_extent))]
fn count_member(member: &Member) -> Extent
    ensures { result ≡ capped (member_extent (member_of member.now)) }
{
    match member {
        Member::One { value, .. } => with_node(count_expr(value)),
        Member::Range { from, to, .. } => two(count_expr(from), count_expr(to)),
    }
}

#[cycle(extents)]
#[tactic(auto, using(crate::proofs::TreeLemmas::structure_of_Contents), unfolding(crate::specs::View::structure_of, crate::specs::Counts::structure_extent))]
fn count_structure(e: &Structure) -> Extent
    ensures { result ≡ capped (structure_extent (structure_of e.now)) }
{
    match e {
        Structure::Literal(_) => NODE,
        Structure::Contents { place, .. } => count_place(place),
    }
}

#[cycle(extents)]
#[tactic(auto, using(crate::proofs::TreeLemmas::argument_of_Variable), unfolding(crate::specs::View::argument_of, crate::specs::Counts::argument_extent))]
fn count_argument(argument: &Argument) -> Extent
    ensures { result ≡ capped (argument_extent (argument_of argument.now)) }
{
    match argument {
        Argument::Value { value, .. } => with_node(count_expr(value)),
        Argument::Set { value, .. } => with_node(count_set(value)),
        Argument::Copy { value, ty } => two(count_structure(value), copy(ty)),
        Argument::Variable(place) => with_node(count_place(place)),
        Argument::Routine { .. } | Argument::Formal { .. } => NODE,
    }
}

fn count_places(places: &[Place]) -> Extent
    ensures { result ≡ capped (places_extent (map place_of places.now)) }
{
    let mut total = NOTHING;
    for place in places {
        total = both(total, count_place(place));
    }
    total
}

#[cycle(extents)]
fn count_arguments(arguments: &[Argument]) -> Extent
    ensures { result ≡ capped (arguments_extent (arguments_of arguments.now)) }
{
    let mut total = NOTHING;
    for argument in arguments {
        total = both(total, count_argument(argument));
    }
    total
}

#[tactic(auto, unfolding(crate::specs::View::read_of, crate::specs::Counts::read_extent))]
fn count_read(variable: &ReadVariable) -> Extent
    ensures { result ≡ capped (read_extent (read_of variable.now)) }
{
    match variable {
        ReadVariable::Char { place, .. } | ReadVariable::Integer { place, .. } => {
            with_node(count_place(place))
        }
    }
}

fn count_reads(variables: &[ReadVariable]) -> Extent
    ensures { result ≡ capped (reads_extent (map read_of variables.now)) }
{
    let mut total = NOTHING;
    for variable in variables {
        total = both(total, count_read(variable));
    }
    total
}

#[tactic(auto, unfolding(crate::specs::View::width_of, crate::specs::Counts::width_extent))]
fn count_width(width: &Width) -> Extent
    ensures { result ≡ capped (width_extent (width_of width.now)) }
{
    match width {
        Width::Default => NOTHING,
        Width::Given { value, .. } => count_expr(value),
    }
}

#[tactic(auto, unfolding(crate::specs::View::write_of, crate::specs::Counts::write_extent))]
fn count_write(parameter: &WriteParameter) -> Extent
    ensures { result ≡ capped (write_extent (write_of parameter.now)) }
{
    match parameter {
        WriteParameter::Integer { value, width }
        | WriteParameter::Char { value, width }
        | WriteParameter::Boolean { value, width } => two(count_expr(value), count_width(width)),
        WriteParameter::Text { value, width } => two(count_structure(value), count_width(width)),
    }
}

fn count_writes(parameters: &[WriteParameter]) -> Extent
    ensures { result ≡ capped (writes_extent (map write_of parameters.now)) }
{
    let mut total = NOTHING;
    for parameter in parameters {
        total = both(total, count_write(parameter));
    }
    total
}

#[cycle(statements)]
#[tactic(auto, using(crate::proofs::StatementLemmas::statement_of_Compound, crate::proofs::StatementLemmas::statement_of_Repeat, crate::proofs::StatementLemmas::statement_of_Case), unfolding(crate::specs::View::statement_of, crate::specs::Counts::statement_extent))]
fn count_statement(statement: &Statement) -> Extent
    ensures { result ≡ capped (statement_extent (statement_of statement.now)) }
{
    match statement {
        Statement::Empty => NODE,
        Statement::Assign { target, value, .. } => two(count_place(target), count_expr(value)),
        Statement::AssignSet { target, value, .. } => two(count_place(target), count_set(value)),
        Statement::AssignStructure { target, value } => {
            two(count_place(target), count_structure(value))
        }
        Statement::Call { arguments, .. } => with_node(count_arguments(arguments)),
        Statement::CallFormal { arguments, .. } => with_node(count_arguments(arguments)),
        Statement::Compound(body) => with_node(count_statements(body)),
        Statement::If { condition, body } => two(count_expr(condition), count_statement(body)),
        Statement::IfElse {
            condition,
            body,
            otherwise,
        } => three(
            count_expr(condition),
            count_statement(body),
            count_statement(otherwise),
        ),
        Statement::Case {
            index,
            elements,
            ..
        } => two(count_expr(index), count_elements(elements)),
        Statement::While { condition, body } => two(count_expr(condition), count_statement(body)),
        Statement::Repeat { body, condition } => two(count_statements(body), count_expr(condition)),
        Statement::For { from, to, body, .. } => three(
            with_node(count_expr(from)),
            count_expr(to),
            count_statement(body),
        ),
        Statement::With { places, body } => two(count_places(places), count_statement(body)),
        Statement::New { place, .. } => with_nodes(count_place(place)),
        Statement::Pack {
            from,
            index,
            to,
            ..
        } => three(
            with_node(count_place(from)),
            with_node(count_expr(index)),
            with_node(count_place(to)),
        ),
        Statement::Unpack {
            from,
            to,
            index,
            ..
        } => three(
            with_node(count_place(from)),
            with_node(count_place(to)),
            with_node(count_expr(index)),
        ),
        Statement::Read { variables } => with_node(count_reads(variables)),
        Statement::Readln { variables, .. } => with_node(count_reads(variables)),
        Statement::Write { parameters } => with_node(count_writes(parameters)),
        Statement::Writeln { parameters } => with_node(count_writes(parameters)),
    }
}

#[cycle(statements)]
pub fn count_statements(statements: &[Statement]) -> Extent
    ensures { result ≡ capped (statements_extent (statements_of statements.now)) }
{
    let mut total = NOTHING;
    for statement in statements {
        total = both(total, count_statement(statement));
    }
    total
}

#[cycle(statements)]
fn count_elements(elements: &[CaseElement]) -> Extent
    ensures { result ≡ capped (elements_extent (elements_of elements.now)) }
{
    let mut total = NOTHING;
    for element in elements {
        total = both(total, count_statement(&element.body));
    }
    total
}
