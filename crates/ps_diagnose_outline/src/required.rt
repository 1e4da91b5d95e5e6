//! What the required names denote.

use crate::parts::Type;
use ps_diagnose::RequiredName;

/// What a required name denotes.
#[derive(Clone, Copy)]
pub enum RequiredKind {
    Type(Type),
    /// Its type and its value.
    Constant(Type, i64),
    Function,
    Procedure,
    /// A program parameter.
    File,
    /// What the profile leaves out.
    LeftOut,
}

/// A required name, and what it denotes.
#[derive(Clone, Copy)]
pub struct Required {
    pub name: RequiredName,
    pub kind: RequiredKind,
    /// The type of a function's result, if it is the same of all parameters.
    pub(crate) result: Option<Type>,
}

// All of them, in the order of their spellings' numbers.
const REQUIRED: &[Required] = &[
    Required {
        name: RequiredName::Integer,
        kind: RequiredKind::Type(Type::Integer),
        result: None,
    },
    Required {
        name: RequiredName::Char,
        kind: RequiredKind::Type(Type::Char),
        result: None,
    },
    Required {
        name: RequiredName::Boolean,
        kind: RequiredKind::Type(Type::Boolean),
        result: None,
    },
    Required {
        name: RequiredName::Maxint,
        kind: RequiredKind::Constant(Type::Integer, 2_147_483_647),
        result: None,
    },
    Required {
        name: RequiredName::False,
        kind: RequiredKind::Constant(Type::Boolean, 0),
        result: None,
    },
    Required {
        name: RequiredName::True,
        kind: RequiredKind::Constant(Type::Boolean, 1),
        result: None,
    },
    Required {
        name: RequiredName::Abs,
        kind: RequiredKind::Function,
        result: Some(Type::Integer),
    },
    Required {
        name: RequiredName::Sqr,
        kind: RequiredKind::Function,
        result: Some(Type::Integer),
    },
    Required {
        name: RequiredName::Odd,
        kind: RequiredKind::Function,
        result: Some(Type::Boolean),
    },
    Required {
        name: RequiredName::Chr,
        kind: RequiredKind::Function,
        result: Some(Type::Char),
    },
    Required {
        name: RequiredName::Ord,
        kind: RequiredKind::Function,
        result: Some(Type::Integer),
    },
    Required {
        name: RequiredName::Succ,
        kind: RequiredKind::Function,
        result: None,
    },
    Required {
        name: RequiredName::Pred,
        kind: RequiredKind::Function,
        result: None,
    },
    Required {
        name: RequiredName::Eof,
        kind: RequiredKind::Function,
        result: Some(Type::Boolean),
    },
    Required {
        name: RequiredName::Eoln,
        kind: RequiredKind::Function,
        result: Some(Type::Boolean),
    },
    Required {
        name: RequiredName::Read,
        kind: RequiredKind::Procedure,
        result: None,
    },
    Required {
        name: RequiredName::Readln,
        kind: RequiredKind::Procedure,
        result: None,
    },
    Required {
        name: RequiredName::Write,
        kind: RequiredKind::Procedure,
        result: None,
    },
    Required {
        name: RequiredName::Writeln,
        kind: RequiredKind::Procedure,
        result: None,
    },
    Required {
        name: RequiredName::New,
        kind: RequiredKind::Procedure,
        result: None,
    },
    Required {
        name: RequiredName::Pack,
        kind: RequiredKind::Procedure,
        result: None,
    },
    Required {
        name: RequiredName::Unpack,
        kind: RequiredKind::Procedure,
        result: None,
    },
    Required {
        name: RequiredName::Input,
        kind: RequiredKind::File,
        result: None,
    },
    Required {
        name: RequiredName::Output,
        kind: RequiredKind::File,
        result: None,
    },
    Required {
        name: RequiredName::Real,
        kind: RequiredKind::LeftOut,
        result: None,
    },
    Required {
        name: RequiredName::Text,
        kind: RequiredKind::LeftOut,
        result: None,
    },
    Required {
        name: RequiredName::Trunc,
        kind: RequiredKind::LeftOut,
        result: None,
    },
    Required {
        name: RequiredName::Round,
        kind: RequiredKind::LeftOut,
        result: None,
    },
    Required {
        name: RequiredName::Sin,
        kind: RequiredKind::LeftOut,
        result: None,
    },
    Required {
        name: RequiredName::Cos,
        kind: RequiredKind::LeftOut,
        result: None,
    },
    Required {
        name: RequiredName::Exp,
        kind: RequiredKind::LeftOut,
        result: None,
    },
    Required {
        name: RequiredName::Ln,
        kind: RequiredKind::LeftOut,
        result: None,
    },
    Required {
        name: RequiredName::Sqrt,
        kind: RequiredKind::LeftOut,
        result: None,
    },
    Required {
        name: RequiredName::Arctan,
        kind: RequiredKind::LeftOut,
        result: None,
    },
    Required {
        name: RequiredName::Get,
        kind: RequiredKind::LeftOut,
        result: None,
    },
    Required {
        name: RequiredName::Put,
        kind: RequiredKind::LeftOut,
        result: None,
    },
    Required {
        name: RequiredName::Reset,
        kind: RequiredKind::LeftOut,
        result: None,
    },
    Required {
        name: RequiredName::Rewrite,
        kind: RequiredKind::LeftOut,
        result: None,
    },
    Required {
        name: RequiredName::Page,
        kind: RequiredKind::LeftOut,
        result: None,
    },
    Required {
        name: RequiredName::Dispose,
        kind: RequiredKind::LeftOut,
        result: None,
    },
    Required {
        name: RequiredName::Forward,
        kind: RequiredKind::LeftOut,
        result: None,
    },
];

/// The required names, with what they denote, in the order of their spellings' numbers.
pub fn required_names() -> &'static [Required] {
    REQUIRED
}
