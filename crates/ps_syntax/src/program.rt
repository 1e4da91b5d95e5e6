//! Programs, blocks, routines and types.

ghost use Rattle.std.specs.Prelude.{◌≡◌};
ghost use Rattle.ps_syntax.specs.First.{first_of_ordinal, first_of_structure, first_of_type};

use crate::statement::{Constant, Statement};
use ps_text::Span;
use sqlite_items::{Boxed, Items};

/// A type whose values have ordinals.
#[derive(Drop)]
pub enum Ordinal {
    Name(Span),
    /// The parenthesis, and the names.
    Enumeration(Span, Items<Span>),
    Subrange(Constant, Constant),
}

/// A type denoter (6.4.1).
#[cycle(ty)]
#[derive(Drop)]
pub enum TypeDenoter {
    Ordinal(Ordinal),
    /// The `^`, and the name of the domain.
    Pointer(Span, Span),
    Structure(Structure),
    /// The `packed`, and the structure.
    Packed(Span, Structure),
}

/// A structured type (6.4.3).
#[cycle(ty)]
#[derive(Drop)]
pub enum Structure {
    /// The `array`, the indices and the component. Several indices are those of nested arrays.
    Array(Span, Items<Ordinal>, Boxed<TypeDenoter>),
    /// The `record`, and the fields.
    Record(Span, Items<Fields>),
    /// The `set`, and the base.
    Set(Span, Ordinal),
}

/// Fields of one type.
#[cycle(ty)]
#[derive(Drop)]
pub struct Fields {
    pub names: Items<Span>,
    pub ty: TypeDenoter,
}

/// A constant definition (6.3).
#[derive(Drop)]
pub struct ConstantDefinition {
    pub name: Span,
    pub value: Constant,
}

/// A type definition (6.4.1).
#[derive(Drop)]
pub struct TypeDefinition {
    pub name: Span,
    pub ty: TypeDenoter,
}

/// A declaration of variables of one type (6.5.1).
#[derive(Drop)]
pub struct Variables {
    pub names: Items<Span>,
    pub ty: TypeDenoter,
}

/// A section of formal parameters.
#[cycle(heading)]
#[derive(Drop)]
pub enum Section {
    Value(Items<Span>, Span),
    Variable(Items<Span>, Span),
    Routine(Heading),
}

/// The name, the formal parameters, and the result type of a function.
#[cycle(heading)]
#[derive(Drop)]
pub enum Heading {
    Procedure(Span, Items<Section>),
    Function(Span, Items<Section>, Span),
}

/// A procedure or function declaration (6.6.1, 6.6.2).
#[cycle(block)]
#[derive(Drop)]
pub enum Routine {
    Whole(Heading, Block),
    /// Its block comes later.
    Forward(Heading),
    /// The block of a function whose heading came before.
    Completion(Span, Block),
}

/// A block (6.2.1).
#[cycle(block)]
#[derive(Drop)]
pub struct Block {
    pub constants: Items<ConstantDefinition>,
    pub types: Items<TypeDefinition>,
    pub variables: Items<Variables>,
    pub routines: Items<Routine>,
    /// The `begin`.
    pub begin: Span,
    pub statements: Items<Statement>,
}

/// A program: its name, the names of its parameters, and its block (6.10).
#[derive(Drop)]
pub struct Program {
    pub name: Span,
    pub parameters: Items<Span>,
    pub block: Block,
}

impl Ordinal {
    /// Where the first token begins.
    pub fn first_token(&self) -> u32
        ensures { result ≡ first_of_ordinal self.now }
    {
        match self {
            Ordinal::Name(at) | Ordinal::Enumeration(at, _) => at.from,
            Ordinal::Subrange(low, _) => low.first_token(),
        }
    }
}

impl Structure {
    /// Where the first token begins.
    pub fn first_token(&self) -> u32
        ensures { result ≡ first_of_structure self.now }
    {
        match self {
            Structure::Array(at, ..) | Structure::Record(at, _) | Structure::Set(at, _) => at.from,
        }
    }
}

impl TypeDenoter {
    /// Where the first token begins.
    pub fn first_token(&self) -> u32
        ensures { result ≡ first_of_type self.now }
    {
        match self {
            TypeDenoter::Ordinal(ordinal) => ordinal.first_token(),
            TypeDenoter::Structure(structure) => structure.first_token(),
            TypeDenoter::Pointer(at, _) | TypeDenoter::Packed(at, _) => at.from,
        }
    }
}
