// What is to become of a routine's body: the certificate, as data.

use crate::table::{Action, Rows};

/// An instruction that is put in.
#[derive(Clone, Copy)]
pub enum Put {
    /// A word is stored by what holds it.
    Clean(u32),
    /// A word is loaded into a new temporary.
    Fetch(u32, u32),
}

/// What is to become of a place of the old code.
#[derive(Drop)]
pub struct Step {
    /// What is claimed there, at the target of a jump; otherwise what the place before leaves.
    pub join: Option<Rows>,
    /// What is put in before the instruction.
    pub puts: Vec<Put>,
    /// What becomes of the instruction. It is ignored if no instruction follows, and for jumps.
    pub action: Action,
}

/// What is to become of a body.
#[derive(Drop)]
pub struct Plan {
    /// The words of the own frame that are kept in mind, by number.
    pub minded: Vec<u32>,
    /// What is claimed at the begin.
    pub begin: Rows,
    /// By the places of the old code.
    pub steps: Vec<Step>,
}
