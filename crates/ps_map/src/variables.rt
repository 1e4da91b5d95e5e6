//! The variables of routines: their names, their types as the text writes them, and where they are in a frame.

use crate::places::small;
use indexmap::IndexMap;
use ps_diagnose_outline::{Outline, Part, Point, PointKind, Type};
use ps_text::Span;
use ps_tree::tree::{Formal, Routine};
use std::alloc::{AllocError, Global};

/// The role of a variable in its routine.
#[derive(Clone, Copy)]
pub enum Role {
    /// The result of a function.
    Result,
    Value,
    /// A variable parameter: its place has the address of the variable passed.
    Reference,
    /// A procedural or functional parameter: its place has the routine's address and the frame that encloses it.
    Routine,
    /// A variable of the block.
    Own,
}

/// A variable of a routine, or its result, or a parameter.
#[derive(Drop)]
pub struct Variable {
    /// As it is written where it is declared.
    pub name: String,
    pub role: Role,
    /// Where it begins among the words of its routine's variables, in bytes.
    pub home: u32,
    /// How many bytes it has there.
    pub bytes: u32,
    /// Its type as the text writes it; empty if it isn't known.
    pub denoter: String,
}

// An entry of a frame without its name.
#[derive(Clone, Copy)]
struct Entry {
    role: Role,
    home: u32,
    bytes: u32,
}

// The entries of a routine's frame, in their order: its result, its parameters, its variables. The first word of a
// frame belongs to none of them.
fn entries_of(alloc: Global, routine: &Routine) -> Result<Vec<Entry>, AllocError> {
    let mut entries = Vec::new(alloc);
    let mut home: u32 = 4;
    if let Some(ty) = &routine.result {
        home = add_entry(&mut entries, Role::Result, home, ty.bytes())?;
    }
    for formal in routine.formals.iter() {
        let (role, bytes) = formal_told(formal);
        home = add_entry(&mut entries, role, home, bytes)?;
    }
    for ty in routine.variables.iter() {
        home = add_entry(&mut entries, Role::Own, home, ty.bytes())?;
    }
    Ok(entries)
}

// Adds an entry, and returns where the next one is.
fn add_entry(
    entries: &mut Vec<Entry>,
    role: Role,
    home: u32,
    bytes: u32,
) -> Result<u32, AllocError> {
    entries.push(Entry { role, home, bytes })?;
    Ok(home.saturating_add(bytes))
}

fn formal_told(formal: &Formal) -> (Role, u32) {
    match formal {
        Formal::Value(ty) => (Role::Value, ty.bytes()),
        Formal::Variable(_) => (Role::Reference, 4),
        Formal::Routine { .. } => (Role::Routine, 8),
    }
}

// Whether a point of a routine's region is an entry of its frame.
fn is_entry(point: Point) -> bool {
    matches!(
        point.kind,
        PointKind::ValueParameter
            | PointKind::VariableParameter
            | PointKind::ProcedureParameter
            | PointKind::FunctionParameter
            | PointKind::Variable
    )
}

// The points of the entries of a routine's frame, in their order: the routine's own, if it has a result, and those of
// its parameters and variables.
fn points_of(
    alloc: Global,
    outline: &Outline<'_>,
    region: u32,
    is_function: bool,
) -> Result<Vec<Point>, AllocError> {
    let mut points = Vec::new(alloc);
    if is_function {
        if let Some(own) = outline.routine_of(region) {
            if let Some(point) = outline.point(own) {
                points.push(point)?;
            }
        }
    }
    for number in outline.points_of(region) {
        match outline.point(*number) {
            Some(point) if is_entry(point) => points.push(point)?,
            _ => {}
        }
    }
    Ok(points)
}

/// Where the denoters met so far are, by the offsets at which they begin. (Many variables may share a long one.)
pub type Denoters = IndexMap<u32, Span>;

// The span of the denoter that begins at an offset.
fn extent_of(
    outline: &Outline<'_>,
    denoters: &mut Denoters,
    from: u32,
) -> Result<Span, AllocError> {
    if let Some(span) = denoters.get(&from) {
        return Ok(*span);
    }
    let span = outline.extent(from, Part::Denoter);
    match denoters.insert(from, span) {
        Ok(_) => Ok(span),
        Err(_) => Err(AllocError),
    }
}

// The name of a required type.
fn required_name(ty: Option<Type>) -> &'static str {
    match ty {
        Some(Type::Integer) => "integer",
        Some(Type::Boolean) => "Boolean",
        Some(Type::Char) => "char",
        _ => "",
    }
}

// A type as the text writes it.
fn denoter_of(
    alloc: Global,
    outline: &Outline<'_>,
    denoters: &mut Denoters,
    ty: Option<Type>,
) -> Result<String, AllocError> {
    let from = match ty {
        Some(ty) => outline.denoter_at(ty),
        None => None,
    };
    match from {
        Some(from) => {
            let span = extent_of(outline, denoters, from)?;
            outline.text(alloc, span)
        }
        None => String::from_str(alloc, required_name(ty)),
    }
}

/// A name as it is written.
pub fn name_of(alloc: Global, outline: &Outline<'_>, name: Span) -> Result<String, AllocError> {
    String::from_str(alloc, str::from_utf8(outline.bytes(name)).unwrap_or(""))
}

/// The number of the last of a routine's variables whose home is at or before a place. The homes follow one another.
pub fn variable_before(variables: &[Variable], place: u32) -> Option<usize> {
    variables
        .partition_point(|variable| variable.home <= place)
        .checked_sub(1)
}

/// The variables of the routine whose block has its `begin` at an offset, if the outline has as many as the tree.
pub fn variables_of(
    alloc: Global,
    outline: &Outline<'_>,
    denoters: &mut Denoters,
    begin: u32,
    routine: &Routine,
) -> Result<Vec<Variable>, AllocError> {
    let region = outline.block_at(begin);
    let entries = entries_of(alloc, routine)?;
    let points = points_of(alloc, outline, region, routine.result.is_some())?;
    let mut variables = Vec::new(alloc);
    if small(points.len()) != small(entries.len()) {
        return Ok(variables);
    }
    for (entry, point) in entries.iter().zip(points.iter()) {
        variables.push(Variable {
            name: name_of(alloc, outline, point.name)?,
            role: entry.role,
            home: entry.home,
            bytes: entry.bytes,
            denoter: denoter_of(alloc, outline, denoters, point.ty)?,
        })?;
    }
    Ok(variables)
}
