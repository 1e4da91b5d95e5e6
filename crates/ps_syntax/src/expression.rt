//! Expressions. Names, numbers and strings are spans of the text.

ghost use Rattle.std.specs.Prelude.{◌≡◌};
ghost use Rattle.ps_syntax.specs.First.{sign_or, first_of_factor, first_of_term, first_of_simple, first_of_expr};
ghost use Rattle.ps_syntax.specs.First.{first_of_member};

use ps_text::Span;
use sqlite_items::{Boxed, Items};

/// A relational operator (ISO 7185, 6.7.2.5).
#[derive(Clone, Copy)]
pub enum Relational {
    Equal,
    NotEqual,
    Less,
    Greater,
    LessEqual,
    GreaterEqual,
    In,
}

/// The sign of a term or of a constant.
#[derive(Clone, Copy)]
pub enum Sign {
    Plus,
    Minus,
}

/// An adding operator (6.7.2.1).
#[derive(Clone, Copy)]
pub enum Adding {
    Plus,
    Minus,
    Or,
}

/// A multiplying operator (6.7.2.1).
#[derive(Clone, Copy)]
pub enum Multiplying {
    Times,
    Div,
    Mod,
    And,
}

/// A simple expression, or two with a relation between them.
#[cycle(expression)]
#[derive(Drop)]
pub enum Expr {
    Simple(Simple),
    Compare(Simple, Relational, Span, Boxed<Simple>),
}

/// Terms with operators between them. A sign in front applies to the first term.
#[cycle(expression)]
#[derive(Drop)]
pub struct Simple {
    pub sign: Option<(Sign, Span)>,
    pub first: Term,
    pub more: Items<AddedTerm>,
}

/// An adding operator, its place, and the term after it.
#[cycle(expression)]
#[derive(Drop)]
pub struct AddedTerm {
    pub operator: Adding,
    pub at: Span,
    pub term: Term,
}

/// Factors with operators between them.
#[cycle(expression)]
#[derive(Drop)]
pub struct Term {
    pub first: Factor,
    pub more: Items<MultipliedFactor>,
}

#[cycle(expression)]
#[derive(Drop)]
pub struct MultipliedFactor {
    pub operator: Multiplying,
    pub at: Span,
    pub factor: Factor,
}

/// A factor (6.7.1). Each kind but a variable begins at its span.
#[cycle(expression)]
#[derive(Drop)]
pub enum Factor {
    Variable(Variable),
    Call(Span, Items<Expr>),
    Number(Span),
    Text(Span),
    Nil(Span),
    /// The bracket, and the members.
    Set(Span, Items<Member>),
    /// Of parentheses directly within one another: the outermost, how many are within it, and the expression in the
    /// innermost. That is not itself a group, so a text has one tree.
    Group(Span, u32, Boxed<Expr>),
    Not(Span, Boxed<Factor>),
}

/// A name, and what selects a part of what it denotes (6.5).
#[cycle(expression)]
#[derive(Drop)]
pub struct Variable {
    pub name: Span,
    pub selectors: Items<Selector>,
}

/// An index, a field or what a pointer identifies (6.5.3, 6.5.4).
#[cycle(expression)]
#[derive(Drop)]
pub enum Selector {
    /// Several indices are those of nested arrays.
    Index(Items<Expr>),
    Field(Span),
    /// The `^`.
    Content(Span),
}

/// A member of a set, or those from the first to the last.
#[cycle(expression)]
#[derive(Drop)]
pub enum Member {
    One(Boxed<Expr>),
    Range(Boxed<Expr>, Boxed<Expr>),
}

/// Where a part that may have a sign in front begins.
pub(crate) fn after_sign(sign: &Option<(Sign, Span)>, at: u32) -> u32
    ensures { result ≡ sign_or sign.now at }
{
    match sign {
        None => at,
        Some((_, sign)) => sign.from,
    }
}

impl Expr {
    /// Where the first token begins.
    pub fn first_token(&self) -> u32
        ensures { result ≡ first_of_expr self.now }
    {
        match self {
            Expr::Simple(only) => only.first_token(),
            Expr::Compare(left, ..) => left.first_token(),
        }
    }
}

impl Simple {
    /// Where the first token begins.
    pub fn first_token(&self) -> u32
        ensures { result ≡ first_of_simple self.now }
    {
        after_sign(&self.sign, self.first.first_token())
    }
}

impl Term {
    /// Where the first token begins.
    pub fn first_token(&self) -> u32
        ensures { result ≡ first_of_term self.now }
    {
        self.first.first_token()
    }
}

impl Factor {
    /// Where the first token begins.
    pub fn first_token(&self) -> u32
        ensures { result ≡ first_of_factor self.now }
    {
        match self {
            Factor::Variable(variable) => variable.name.from,
            Factor::Call(at, _)
            | Factor::Number(at)
            | Factor::Text(at)
            | Factor::Nil(at)
            | Factor::Set(at, _)
            | Factor::Group(at, ..)
            | Factor::Not(at, _) => at.from,
        }
    }
}

impl Member {
    /// Where the first token begins.
    pub fn first_token(&self) -> u32
        ensures { result ≡ first_of_member self.now }
    {
        match self {
            Member::One(only) => only.get().first_token(),
            Member::Range(low, _) => low.get().first_token(),
        }
    }
}
