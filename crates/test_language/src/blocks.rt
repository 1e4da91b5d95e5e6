//! What the layers of the checker make of the block of a program, each called separately. Of the required names only
//! `integer`, `char` and `Boolean` are known here.

use crate::types::{put_fields, put_relation, put_sizes};
use ps_check_declarations::declarations::declarations;
use ps_check_declarations::frame::{Declared, Frame, Parts};
use ps_check_declarations::points::add_block;
use ps_check_expressions::expression::expr_value;
use ps_check_expressions::inner::Inner;
use ps_check_expressions::site::Site;
use ps_check_expressions::value::TypedValue;
use ps_check_expressions::variables::variable_place;
use ps_check_judgement::change::Change;
use ps_check_judgement::refusal::CheckFault;
use ps_check_names::constants::{BOOLEAN, CHAR, INTEGER};
use ps_check_names::meaning::Meaning;
use ps_check_names::reading::Reading;
use ps_check_names::scope::Scope;
use ps_check_names::wides::Wides;
use ps_check_statements::statement::statements;
use ps_syntax::{Block, Expr, Statement, Variable};
use ps_text::{LineTable, Source};
use ps_tree::names::{Names, Seed};
use ps_tree::tree::{Expr as Typed, Statement as Checked};
use ps_tree::types::{Ordinal, Ty};
use std::alloc::{AllocError, Global};
use test_tables::Line;

/// The question about a block.
#[derive(Clone, Copy)]
pub enum BlockQuery {
    /// How many names, domain types and variables it declares.
    Declarations,
    /// The sizes of its variables' types.
    Sizes,
    /// The fields of its first variable's type.
    Fields,
    /// How the type of the expression in its first statement is related to the type of the variable there.
    Types,
    /// What the expression in its first statement is.
    Expressions,
    /// What its statements are.
    Statements,
}

// The names of the required types that are known.
const REQUIRED: &[(&str, Ordinal)] = &[("integer", INTEGER), ("char", CHAR), ("boolean", BOOLEAN)];

/// What is known of a block: the required names and what they denote, its own names, and the results of its
/// declarations.
#[derive(Drop)]
struct Known {
    required: Names,
    meanings: Vec<Meaning>,
    names: Names,
    declared: Declared,
}

fn nothing(alloc: Global, seed: Seed) -> Known {
    Known {
        required: Names::new(alloc, seed),
        meanings: Vec::new(alloc),
        names: Names::new(alloc, seed),
        declared: Declared {
            known: Vec::new(alloc),
            domains: Vec::new(alloc),
            pending: Vec::new(alloc),
            variables: Vec::new(alloc),
            wides: Wides::new(alloc, seed),
        },
    }
}

/// Adds the required types.
fn add_required(alloc: Global, known: &mut Known) -> Result<(), AllocError> {
    for (name, ordinal) in REQUIRED {
        known
            .required
            .add(Vec::from_slice(alloc, name.as_bytes())?)?;
        known.meanings.push(Meaning::Type(Ty::Simple(*ordinal)))?;
    }
    Ok(())
}

fn put_counts(line: &mut Line, declared: &Declared) {
    line.numbered("names ", declared.known.len() as u64);
    line.numbered(", domains ", declared.domains.len() as u64);
    line.numbered(", variables ", declared.variables.len() as u64);
}

/// The variable and the expression of the first statement, if it is an assignment.
fn assignment(written: &[Statement]) -> Option<(&Variable, &Expr)> {
    match written.first() {
        Some(Statement::Assign(variable, _, value)) => Some((variable, value.get())),
        _ => None,
    }
}

fn type_of(value: &TypedValue) -> &Ty {
    match value {
        TypedValue::Simple(_, ty) => ty,
        TypedValue::Set(_, ty) => ty,
        TypedValue::Structure(_, ty) => ty,
    }
}

fn put_relation_in(
    line: &mut Line,
    site: &Site<'_>,
    variable: &Variable,
    value: &Expr,
) -> Result<(), CheckFault> {
    let mut changes = Vec::new(site.alloc);
    let variable = variable_place(variable, site, &mut changes)?;
    let end = put_relation_to(line, site, value, &variable.ty);
    drop(variable);
    end
}

fn put_relation_to(
    line: &mut Line,
    site: &Site<'_>,
    value: &Expr,
    ty: &Ty,
) -> Result<(), CheckFault> {
    let mut changes = Vec::new(site.alloc);
    let value = expr_value(value, site, &mut changes)?;
    put_relation(line, type_of(&value), ty);
    drop(value);
    Ok(())
}

fn form_of(value: &TypedValue) -> &'static str {
    match value {
        TypedValue::Simple(Typed::Arithmetic { .. }, _) => "arithmetic",
        TypedValue::Simple(_, _) => "simple",
        TypedValue::Set(_, _) => "set",
        TypedValue::Structure(_, _) => "structure",
    }
}

fn put_form(line: &mut Line, site: &Site<'_>, value: &Expr) -> Result<(), CheckFault> {
    let mut changes = Vec::new(site.alloc);
    let value = expr_value(value, site, &mut changes)?;
    line.word(form_of(&value));
    drop(value);
    Ok(())
}

fn put_statements(
    line: &mut Line,
    site: &Site<'_>,
    written: &[Statement],
) -> Result<(), CheckFault> {
    let mut changes: Vec<Change> = Vec::new(site.alloc);
    for statement in &statements(written, site, &mut changes)? {
        let is_empty = matches!(statement, Checked::Empty);
        line.space();
        line.word(if is_empty { "empty" } else { "other" });
    }
    line.none_if_empty();
    Ok(())
}

fn put_asked(
    line: &mut Line,
    asked: BlockQuery,
    declared: &Declared,
    site: &Site<'_>,
    written: &[Statement],
) -> Result<(), CheckFault> {
    match (asked, assignment(written)) {
        (BlockQuery::Declarations, _) => put_counts(line, declared),
        (BlockQuery::Sizes, _) => put_sizes(line, &declared.variables),
        (BlockQuery::Fields, _) => put_fields(line, &declared.variables),
        (BlockQuery::Statements, _) => return put_statements(line, site, written),
        (_, None) => line.word("no assignment"),
        (BlockQuery::Types, Some((variable, value))) => {
            return put_relation_in(line, site, variable, value);
        }
        (BlockQuery::Expressions, Some((_, value))) => return put_form(line, site, value),
    }
    Ok(())
}

fn parts_of(block: &Block) -> Parts<'_> {
    Parts {
        constants: block.constants.as_slice(),
        types: block.types.as_slice(),
        variables: block.variables.as_slice(),
    }
}

/// Adds the declarations of a block.
fn declare(
    around: Site<'_>,
    block: &Block,
    names: &Names,
    declared: &mut Declared,
) -> Result<(), CheckFault> {
    let begun = Names::new(around.alloc, around.reading.seed);
    let frame = Frame {
        reading: around.reading,
        routine: 0,
        names,
        begun: &begun,
        outer: around.scope,
    };
    declarations(&frame, around.alloc, 0, declared, &parts_of(block))
}

/// Puts the answer about a block whose names and declarations are known.
fn put_declared<'a>(
    line: &mut Line,
    around: Site<'a>,
    block: &Block,
    asked: BlockQuery,
    names: &'a Names,
    declared: &'a Declared,
) -> Result<(), CheckFault> {
    let scope = Scope::Block {
        routine: 0,
        names,
        known: &declared.known,
        outer: around.scope,
    };
    let reading = Reading {
        source: around.reading.source,
        lines: around.reading.lines,
        seed: around.reading.seed,
        domains: &declared.domains,
        wides: &declared.wides,
        has_input: false,
        has_output: false,
    };
    let site = Site {
        alloc: around.alloc,
        reading: &reading,
        scope: &scope,
        controls: around.controls,
        inner: around.inner,
    };
    put_asked(line, asked, declared, &site, block.statements.as_slice())
}

/// Puts the answer about a block whose names are known.
fn put_below(
    line: &mut Line,
    around: Site<'_>,
    block: &Block,
    asked: BlockQuery,
    names: &Names,
    declared: &mut Declared,
) -> Result<(), CheckFault> {
    declare(around, block, names, declared)?;
    put_declared(line, around, block, asked, names, declared)
}

/// Puts the answer about a block.
fn put_within(
    line: &mut Line,
    reading: &Reading,
    alloc: Global,
    block: &Block,
    asked: BlockQuery,
    known: &mut Known,
) -> Result<(), CheckFault> {
    add_required(alloc, known)?;
    add_block(reading, alloc, &mut known.names, &parts_of(block))?;
    let scope = Scope::Block {
        routine: 0,
        names: &known.required,
        known: &known.meanings,
        outer: &Scope::Outside,
    };
    let inner = Inner::new(alloc, &[])?;
    let around = Site {
        alloc,
        reading,
        scope: &scope,
        controls: &[],
        inner: &inner,
    };
    put_below(
        line,
        around,
        block,
        asked,
        &known.names,
        &mut known.declared,
    )
}

fn put_fault(line: &mut Line, fault: CheckFault) {
    match fault {
        CheckFault::OutOfMemory => line.fall_short(),
        CheckFault::Broken { rule, at } => {
            line.numbered("", rule.number() as u64);
            line.valued(" ", &rule);
            line.numbered(" at byte ", u64::from(at));
        }
    }
}

/// Puts the answer about the block of a text, or the rule that it breaks.
pub(crate) fn answer(
    alloc: Global,
    line: &mut Line,
    source: &Source,
    block: &Block,
    asked: BlockQuery,
) {
    let Ok(lines) = LineTable::new(alloc, source) else {
        return line.fall_short();
    };
    let seed = Seed::of(source.bytes());
    let none = Wides::new(alloc, seed);
    let reading = Reading {
        source,
        lines: &lines,
        seed,
        domains: &[],
        wides: &none,
        has_input: false,
        has_output: false,
    };
    let mut known = nothing(alloc, reading.seed);
    let end = put_within(line, &reading, alloc, block, asked, &mut known);
    drop(known);
    if let Err(fault) = end {
        put_fault(line, fault);
    }
}
