//! What has been read so far.

use crate::chain::Finished;
use ps_check_judgement::change::Change;
use ps_check_names::meaning::Meaning;
use ps_check_names::wides::Wides;
use ps_tree::line::Line;
use ps_tree::names::Names;
use ps_tree::tree::Statement;
use ps_tree::types::Ty;

/// The whole program so far: the domain types of its pointer types and its routines, both by number, and its wide
/// record types. Routines are numbered in the order of their first headings. A routine whose block is still to come, or
/// is being read, is missing.
#[derive(Drop)]
pub struct Gathered {
    pub domains: Vec<Ty>,
    pub routines: Vec<Option<Finished>>,
    pub wides: Wides,
}

/// The start of a block: the names that its region has before its own (formal parameters, or the files of a program
/// heading) with their meanings, and the entry of its first variable.
#[derive(Drop)]
pub struct Start {
    pub names: Names,
    pub known: Vec<Meaning>,
    pub first: u32,
}

/// What is known of a block so far: the meanings of its names, in the same order, and what the routines in it change,
/// as the block sees it.
#[derive(Drop)]
pub struct Local {
    pub known: Vec<Meaning>,
    pub changes: Vec<Change>,
}

/// The result of reading a block: the types of its variables, its statements, the line of its `begin`, and what it and
/// the routines within it change, as the block sees it.
#[derive(Drop)]
pub struct Done {
    pub variables: Vec<Ty>,
    pub body: Vec<Statement>,
    pub line: Line,
    pub changes: Vec<Change>,
}
