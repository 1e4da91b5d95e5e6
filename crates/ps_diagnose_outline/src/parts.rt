//! What an outline is made of.

use ps_text::Span;

/// What a name denotes.
#[derive(Clone, Copy)]
pub enum PointKind {
    Constant,
    /// A constant of an enumeration.
    Member,
    Type,
    Variable,
    ValueParameter,
    VariableParameter,
    Field,
    Procedure,
    Function,
    ProcedureParameter,
    FunctionParameter,
}

/// A type, as far as it can be put into words.
#[derive(Clone, Copy)]
pub enum Type {
    Integer,
    Boolean,
    Char,
    /// The type of `nil`.
    Nil,
    /// The type of a string of this many characters in the text.
    Text(u32),
    /// The type of a set constructor.
    Members,
    /// The type written by a denoter, by the denoter's number.
    Told(u32),
}

/// What a type is, with all its names and ranges resolved.
#[derive(Clone, Copy)]
pub enum Form {
    Integer,
    Boolean,
    Char,
    Nil,
    Text(u32),
    /// By the number of its denoter.
    Enumeration(u32),
    Array {
        is_packed: bool,
        index: Option<Type>,
        component: Option<Type>,
    },
    /// By the number of the region that has its fields.
    Record(u32),
    /// A set and its base, if that is known.
    Set(Option<Type>),
    /// A pointer and its domain.
    Pointer(Option<Type>),
}

/// The shape that a denoter writes.
#[derive(Clone, Copy)]
pub enum Shape {
    /// The type that a name denotes.
    Same(Option<Type>),
    Enumeration,
    /// The values from one to another of a type.
    Range {
        host: Option<Type>,
        low: Option<i64>,
        high: Option<i64>,
    },
    /// The name of the domain.
    Pointer(Span),
    Array {
        index: Option<Type>,
        component: Option<Type>,
    },
    /// The region that has the fields.
    Record(u32),
    Set(Option<Type>),
}

/// A type denoter (ISO 7185, 6.4.1), or what represents one: for `array [A, B] of T` the type of a component.
#[derive(Clone, Copy)]
pub struct Denoter {
    /// Where it begins, if it is in the text as it is.
    pub from: Option<u32>,
    pub is_packed: bool,
    pub shape: Shape,
}

/// A defining point (6.2.2).
#[derive(Clone, Copy)]
pub struct Point {
    /// Its number among those of the text, in the order of the text.
    pub number: u32,
    /// Where the declared name is.
    pub name: Span,
    /// The number of its spelling.
    pub spelling: u32,
    /// The region that it is of.
    pub region: u32,
    pub kind: PointKind,
    /// The type that it denotes, or that of its value; of a function that of its result.
    pub ty: Option<Type>,
    /// The value of a constant, as a number.
    pub value: Option<i64>,
    /// Of a routine the region that begins with its parameters.
    pub formals: Option<u32>,
    /// How many parameters a routine has.
    pub count: u32,
    /// Whether it was declared by `forward`.
    pub is_forward: bool,
}

/// What a part of the text is, for looking up names.
#[derive(Clone, Copy)]
pub enum RegionKind {
    Program,
    /// A routine's block, with its parameters.
    Routine,
    /// The statement within a `with`, and the region that has the fields of the record.
    Opened(u32),
    /// A record. Its names are found only after a point, and by `with`.
    Record,
    /// The parameters of a heading that has no block of its own there.
    Heading,
}

/// A part of the text that has names of its own.
#[derive(Clone, Copy)]
pub struct Region {
    pub from: u32,
    /// The region around; of the program itself.
    pub around: u32,
    pub kind: RegionKind,
    /// The defining point of the routine.
    pub routine: Option<u32>,
    /// Of a `with`, where its record variable begins.
    pub variable: Option<u32>,
}

/// A region and its defining points in their order.
#[derive(Drop)]
pub(crate) struct Held {
    pub(crate) region: Region,
    /// The region whose points are names in it, if there is one.
    pub(crate) scope: u32,
    /// The nearest region around it that has a scope.
    pub(crate) beyond: u32,
    pub(crate) points: Vec<u32>,
}

/// Two numbers as one, in the order of the first and then of the second.
pub(crate) fn pair(first: u32, second: u32) -> u64 {
    u64::from(first) * 4_294_967_296 + u64::from(second)
}

/// A count as a number of 32 bits.
pub fn small(count: usize) -> u32 {
    u32::try_from(count).unwrap_or(u32::MAX)
}
