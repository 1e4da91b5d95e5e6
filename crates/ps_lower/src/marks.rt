//! Which part of a text each instruction belongs to. No contract mentions it: it only serves to show places.

/// The part of the text that an instruction belongs to.
#[derive(Clone, Copy)]
pub struct Mark {
    /// The statement, by its number among those of its routine in the order of the text, from 1; 0 for what a routine
    /// does before and after its statements.
    pub statement: u32,
    /// The offset of the token at which its error or its call is reported; `None` if it has neither.
    pub at: Option<u32>,
}

/// Whether instructions are marked.
#[derive(Clone, Copy)]
pub enum Marking {
    /// Each instruction has a mark.
    On,
    /// There are no marks, which would take 12 bytes for each instruction.
    Off,
}

/// The marks of the routines of a program, one routine after the other.
#[derive(Drop)]
pub struct MarkLists {
    pub marking: Marking,
    /// For each routine a mark for each of its instructions, or none.
    pub lists: Vec<Vec<Mark>>,
}
