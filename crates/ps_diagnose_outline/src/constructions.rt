//! The constructions of a text, by the numbers of their tokens.

use ps_scan::Kind;

/// What a construction is.
#[derive(Clone, Copy)]
pub enum Construct {
    Program,
    Routine,
    Record,
    Compound,
    Repeat,
    Case,
    If,
    While,
    For,
    With,
}

/// A construction of a text. Tokens are given by their numbers from 0, constructions by theirs in the order of the
/// text; the program's is 0.
#[derive(Clone, Copy)]
pub struct Construction {
    pub construct: Construct,
    /// Its word.
    pub first: usize,
    /// The first token after its last `then`, `else`, `do` or `until`, or after its word.
    pub body: usize,
    /// The first token after it.
    pub end: usize,
    /// Whether its `else` or its `until` has come.
    pub has_turned: bool,
    /// The construction that contains it; for the program itself, the program.
    pub within: usize,
    /// The nearest enclosing one that has several statements; the program if there is none.
    pub list: usize,
    /// The region that it is in.
    pub(crate) around: u32,
    /// How many variables are open in its last part by `with`.
    pub(crate) opened: u32,
}

/// What begins with a token.
pub(crate) fn begun_by(kind: Kind) -> Option<Construct> {
    match kind {
        Kind::Procedure | Kind::Function => Some(Construct::Routine),
        Kind::Record => Some(Construct::Record),
        Kind::Begin => Some(Construct::Compound),
        Kind::Repeat => Some(Construct::Repeat),
        Kind::Case => Some(Construct::Case),
        Kind::If => Some(Construct::If),
        Kind::While => Some(Construct::While),
        Kind::For => Some(Construct::For),
        Kind::With => Some(Construct::With),
        _ => None,
    }
}

impl Construction {
    /// Whether it has a list of statements.
    pub fn is_list(&self) -> bool {
        matches!(self.construct, Construct::Compound | Construct::Repeat)
    }

    // Whether it has several statements.
    pub(crate) fn has_statements(&self) -> bool {
        matches!(
            self.construct,
            Construct::Compound | Construct::Repeat | Construct::Case
        )
    }

    /// Whether it ends with a statement, which no word of its own ends.
    pub fn is_prefix(&self) -> bool {
        matches!(
            self.construct,
            Construct::If | Construct::While | Construct::For | Construct::With
        )
    }

    // Whether the token that ends a statement in it ends it too.
    pub(crate) fn is_ended_by(&self, kind: Kind) -> bool {
        match self.construct {
            Construct::If => self.has_turned || !matches!(kind, Kind::Else),
            Construct::Repeat => self.has_turned,
            Construct::While | Construct::For | Construct::With => true,
            _ => false,
        }
    }

    // Whether it can contain declarations.
    pub(crate) fn has_declarations(&self) -> bool {
        matches!(
            self.construct,
            Construct::Program | Construct::Routine | Construct::Record
        )
    }
}
