//! Kinds of tokens, by what they are for.

use ps_scan::Kind;

/// What compares.
pub(crate) const COMPARES: &[Kind] = &[
    Kind::Equal,
    Kind::NotEqual,
    Kind::Less,
    Kind::Greater,
    Kind::LessEqual,
    Kind::GreaterEqual,
    Kind::In,
];

/// What compares, adds, or joins by `or`.
pub(crate) const COMPARES_OR_ADDS: &[Kind] = &[
    Kind::Equal,
    Kind::NotEqual,
    Kind::Less,
    Kind::Greater,
    Kind::LessEqual,
    Kind::GreaterEqual,
    Kind::In,
    Kind::Plus,
    Kind::Minus,
    Kind::Or,
];

/// The operators between two operands.
pub(crate) const OPERATORS: &[Kind] = &[
    Kind::Equal,
    Kind::NotEqual,
    Kind::Less,
    Kind::Greater,
    Kind::LessEqual,
    Kind::GreaterEqual,
    Kind::In,
    Kind::Plus,
    Kind::Minus,
    Kind::Or,
    Kind::Star,
    Kind::Slash,
    Kind::Div,
    Kind::Mod,
    Kind::And,
];

/// The operators before which a second one may be written.
pub(crate) const ADDS_OR_MULTIPLIES: &[Kind] = &[
    Kind::Plus,
    Kind::Minus,
    Kind::Star,
    Kind::Slash,
    Kind::Div,
    Kind::Mod,
];

/// What comes before an operand.
pub(crate) const BEFORE_OPERAND: &[Kind] = &[
    Kind::Assign,
    Kind::LeftParen,
    Kind::LeftBracket,
    Kind::Comma,
    Kind::Plus,
    Kind::Minus,
    Kind::Equal,
    Kind::NotEqual,
    Kind::If,
    Kind::While,
    Kind::Until,
    Kind::To,
    Kind::Downto,
];

/// What joins two conditions.
pub(crate) const JOINS: &[Kind] = &[Kind::And, Kind::Or];

/// What a value may end with.
pub(crate) const ENDS_VALUE: &[Kind] = &[
    Kind::Name,
    Kind::Number,
    Kind::Text,
    Kind::Nil,
    Kind::RightParen,
    Kind::RightBracket,
    Kind::Caret,
];

/// What begins a statement, and nothing else.
pub(crate) const BEGINS_STATEMENT: &[Kind] = &[
    Kind::If,
    Kind::While,
    Kind::For,
    Kind::Repeat,
    Kind::Case,
    Kind::With,
];

/// What ends a statement.
pub(crate) const ENDS_STATEMENT: &[Kind] = &[Kind::Semicolon, Kind::End, Kind::Else, Kind::Until];

/// What an expression ends before, or begins after.
pub(crate) const BOUNDS_EXPRESSION: &[Kind] = &[
    Kind::Semicolon,
    Kind::Comma,
    Kind::Colon,
    Kind::Assign,
    Kind::DotDot,
    Kind::If,
    Kind::While,
    Kind::For,
    Kind::Repeat,
    Kind::Case,
    Kind::With,
    Kind::Array,
    Kind::Begin,
    Kind::Const,
    Kind::End,
    Kind::File,
    Kind::Function,
    Kind::Label,
    Kind::Packed,
    Kind::Procedure,
    Kind::Program,
    Kind::Record,
    Kind::Set,
    Kind::Type,
    Kind::Var,
    Kind::Do,
    Kind::Downto,
    Kind::Else,
    Kind::Goto,
    Kind::Of,
    Kind::Then,
    Kind::To,
    Kind::Until,
];

/// The words of the language.
pub(crate) const WORDS: &[Kind] = &[
    Kind::And,
    Kind::Array,
    Kind::Begin,
    Kind::Case,
    Kind::Const,
    Kind::Div,
    Kind::Do,
    Kind::Downto,
    Kind::Else,
    Kind::End,
    Kind::File,
    Kind::For,
    Kind::Function,
    Kind::Goto,
    Kind::If,
    Kind::In,
    Kind::Label,
    Kind::Mod,
    Kind::Nil,
    Kind::Not,
    Kind::Of,
    Kind::Or,
    Kind::Packed,
    Kind::Procedure,
    Kind::Program,
    Kind::Record,
    Kind::Repeat,
    Kind::Set,
    Kind::Then,
    Kind::To,
    Kind::Type,
    Kind::Until,
    Kind::Var,
    Kind::While,
    Kind::With,
];

/// What begins a part of declarations.
pub(crate) const PARTS: &[Kind] = &[Kind::Const, Kind::Type, Kind::Var];

/// What a part of declarations ends before.
pub(crate) const ENDS_PART: &[Kind] = &[
    Kind::Const,
    Kind::Type,
    Kind::Var,
    Kind::Procedure,
    Kind::Function,
    Kind::Begin,
    Kind::Label,
];

/// Procedures and functions.
pub(crate) const ROUTINES: &[Kind] = &[Kind::Procedure, Kind::Function];

/// What a declaration part declares, in words.
pub(crate) fn declared_by(kind: Option<Kind>) -> &'static str {
    match kind {
        Some(Kind::Const) => "constants",
        Some(Kind::Type) => "types",
        Some(Kind::Var) => "variables",
        Some(Kind::Label) => "labels",
        _ => "procedures and functions",
    }
}
