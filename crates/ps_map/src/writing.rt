//! A map as text.

use crate::map::{Map, Owner, Routine, Row};
use crate::places::Place;
use crate::variables::{Role, Variable};
use std::alloc::{AllocError, Global};

/// The first line of each map.
const HEAD: &str = "pascal map 1\n";

// Adds a place, as `57:42`, or `-` if there is none.
fn add_place(out: &mut String, place: Option<Place>) -> Result<(), AllocError> {
    match place {
        None => out.push_str(" -"),
        Some(Place { line, column }) => { write!(out, " {line}:{column}") }
    }
}

fn add_routine(out: &mut String, number: usize, routine: &Routine) -> Result<(), AllocError> {
    let Place { line, column } = routine.begin;
    let entry = routine.entry;
    let frame = routine.frame;
    let name = routine.name.as_str();
    write!(
        out,
        "routine {number} {entry} {frame} {line}:{column} {name}\n"
    )?;
    for variable in routine.variables.iter() {
        add_variable(out, number, variable)?;
    }
    Ok(())
}

// The word for a role.
fn role_word(role: Role) -> &'static str {
    match role {
        Role::Result => "result",
        Role::Value => "value",
        Role::Reference => "reference",
        Role::Routine => "routine",
        Role::Own => "own",
    }
}

fn add_variable(out: &mut String, routine: usize, variable: &Variable) -> Result<(), AllocError> {
    let role = role_word(variable.role);
    let home = variable.home;
    let bytes = variable.bytes;
    let name = variable.name.as_str();
    let denoter = variable.denoter.as_str();
    write!(
        out,
        "variable {routine} {home} {bytes} {role} {name} {denoter}\n"
    )
}

fn add_owner(out: &mut String, owner: Owner) -> Result<(), AllocError> {
    match owner {
        Owner::Start => out.push_str(" start"),
        Owner::Strings => out.push_str(" strings"),
        Owner::Routine(number) => { write!(out, " routine {number}") }
        Owner::RunTime(number) => { write!(out, " run-time {number}") }
    }
}

fn add_row(out: &mut String, row: &Row) -> Result<(), AllocError> {
    let word = row.word;
    write!(out, "word {word}")?;
    add_owner(out, row.owner)?;
    match row.owner {
        Owner::Routine(_) => {
            add_place(out, row.statement)?;
            add_place(out, row.token)?;
        }
        Owner::Start => add_place(out, row.token)?,
        Owner::RunTime(_) | Owner::Strings => {}
    }
    out.push_str("\n")
}

/// A map as text, a line for each routine and for each row:
///
/// - `pascal map 1`, the first line;
/// - `routine NUMBER WORD BYTES LINE:COLUMN NAME` for each routine of the program: its number, its first word, where
///   its variables begin in an activation, where the `begin` of its block is, and its name;
/// - after it `variable NUMBER HOME BYTES ROLE NAME TYPE` for each of its variables: the routine's number, where it
///   begins among the routine's variables, how many bytes it has there, its role (`result`, `value`, `reference`,
///   `routine` or `own`), its name, and its type as the text writes it;
/// - `word WORD OWNER` for each row: the first of the words, by its number in the code, and their owner: `start TOKEN`,
///   `routine NUMBER STATEMENT TOKEN`, `run-time NUMBER` or `strings`. `STATEMENT` and `TOKEN` are `LINE:COLUMN`, or
///   `-` if there is none.
pub fn written(alloc: Global, map: &Map) -> Result<String, AllocError> {
    let mut out = String::from_str(alloc, HEAD)?;
    for (number, routine) in map.routines.iter().enumerate() {
        add_routine(&mut out, number, routine)?;
    }
    for row in map.rows.iter() {
        add_row(&mut out, row)?;
    }
    Ok(out)
}
