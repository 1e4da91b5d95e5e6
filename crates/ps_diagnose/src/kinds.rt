//! The kinds of tokens, and how each is written.

use ps_scan::Kind;

/// How many kinds of tokens there are.
pub const KIND_COUNT: usize = 59;

/// All kinds.
pub(crate) const ALL: [Kind; KIND_COUNT] = [
    Kind::Name,
    Kind::Number,
    Kind::Text,
    Kind::And,
    Kind::Array,
    Kind::Begin,
    Kind::Case,
    Kind::Const,
    Kind::Div,
    Kind::Do,
    Kind::Downto,
    Kind::Else,
    Kind::End,
    Kind::File,
    Kind::For,
    Kind::Function,
    Kind::Goto,
    Kind::If,
    Kind::In,
    Kind::Label,
    Kind::Mod,
    Kind::Nil,
    Kind::Not,
    Kind::Of,
    Kind::Or,
    Kind::Packed,
    Kind::Procedure,
    Kind::Program,
    Kind::Record,
    Kind::Repeat,
    Kind::Set,
    Kind::Then,
    Kind::To,
    Kind::Type,
    Kind::Until,
    Kind::Var,
    Kind::While,
    Kind::With,
    Kind::Plus,
    Kind::Minus,
    Kind::Star,
    Kind::Slash,
    Kind::Equal,
    Kind::NotEqual,
    Kind::Less,
    Kind::Greater,
    Kind::LessEqual,
    Kind::GreaterEqual,
    Kind::LeftBracket,
    Kind::RightBracket,
    Kind::LeftParen,
    Kind::RightParen,
    Kind::Dot,
    Kind::DotDot,
    Kind::Comma,
    Kind::Colon,
    Kind::Semicolon,
    Kind::Caret,
    Kind::Assign,
];

// The word-symbol of a kind, if it is one.
fn word_of(kind: Kind) -> Option<&'static str> {
    let word = match kind {
        Kind::And => "and",
        Kind::Array => "array",
        Kind::Begin => "begin",
        Kind::Case => "case",
        Kind::Const => "const",
        Kind::Div => "div",
        Kind::Do => "do",
        Kind::Downto => "downto",
        Kind::Else => "else",
        Kind::End => "end",
        Kind::File => "file",
        Kind::For => "for",
        Kind::Function => "function",
        Kind::Goto => "goto",
        Kind::If => "if",
        Kind::In => "in",
        Kind::Label => "label",
        Kind::Mod => "mod",
        Kind::Nil => "nil",
        Kind::Not => "not",
        Kind::Of => "of",
        Kind::Or => "or",
        Kind::Packed => "packed",
        Kind::Procedure => "procedure",
        Kind::Program => "program",
        Kind::Record => "record",
        Kind::Repeat => "repeat",
        Kind::Set => "set",
        Kind::Then => "then",
        Kind::To => "to",
        Kind::Type => "type",
        Kind::Until => "until",
        Kind::Var => "var",
        Kind::While => "while",
        Kind::With => "with",
        _ => return None,
    };
    Some(word)
}

// The sign of a kind, if it is one.
fn sign_of(kind: Kind) -> Option<&'static str> {
    let sign = match kind {
        Kind::Plus => "+",
        Kind::Minus => "-",
        Kind::Star => "*",
        Kind::Slash => "/",
        Kind::Equal => "=",
        Kind::NotEqual => "<>",
        Kind::Less => "<",
        Kind::Greater => ">",
        Kind::LessEqual => "<=",
        Kind::GreaterEqual => ">=",
        Kind::LeftBracket => "[",
        Kind::RightBracket => "]",
        Kind::LeftParen => "(",
        Kind::RightParen => ")",
        Kind::Dot => ".",
        Kind::DotDot => "..",
        Kind::Comma => ",",
        Kind::Colon => ":",
        Kind::Semicolon => ";",
        Kind::Caret => "^",
        Kind::Assign => ":=",
        _ => return None,
    };
    Some(sign)
}

/// How tokens of a kind are written, where all are written alike: neither names, numbers nor strings are.
pub fn written(kind: Kind) -> Option<&'static str> {
    match word_of(kind) {
        Some(word) => Some(word),
        None => sign_of(kind),
    }
}
