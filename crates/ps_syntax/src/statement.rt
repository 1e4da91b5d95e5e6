//! Statements.

ghost use Rattle.std.specs.Prelude.{◌≡◌};
ghost use Rattle.ps_syntax.specs.First.{first_of_constant};

use crate::expression::{Expr, Sign, Variable, after_sign};
use ps_text::Span;
use sqlite_items::{Boxed, Items};

/// A constant as it is written.
#[derive(Clone, Copy)]
pub enum Constant {
    Number(Option<(Sign, Span)>, Span),
    Name(Option<(Sign, Span)>, Span),
    Text(Span),
}

/// Which way a `for` statement counts: `to` or `downto`.
#[derive(Clone, Copy)]
pub enum Direction {
    Up,
    Down,
}

/// An actual parameter, alone or with a width.
#[derive(Drop)]
pub enum Parameter {
    Plain(Expr),
    Width(Expr, Boxed<Expr>),
}

/// A statement (6.8).
#[cycle(statement)]
#[derive(Drop)]
pub enum Statement {
    Empty,
    /// The variable, the `:=` and the value.
    Assign(Variable, Span, Boxed<Expr>),
    /// The routine's name and its parameters.
    Call(Span, Items<Parameter>),
    Compound(Items<Statement>),
    If(Boxed<Expr>, Boxed<Statement>),
    IfElse(Boxed<Expr>, Boxed<Statement>, Boxed<Statement>),
    /// The `case`, the index and the elements.
    Case(Span, Boxed<Expr>, Items<Element>),
    While(Boxed<Expr>, Boxed<Statement>),
    Repeat(Items<Statement>, Boxed<Expr>),
    For {
        variable: Span,
        first: Boxed<Expr>,
        direction: Direction,
        last: Boxed<Expr>,
        body: Boxed<Statement>,
    },
    With(Items<Variable>, Boxed<Statement>),
}

/// The statement that some constants select.
#[cycle(statement)]
#[derive(Drop)]
pub struct Element {
    pub constants: Items<Constant>,
    pub statement: Statement,
}

impl Constant {
    /// Where the first token begins.
    pub fn first_token(&self) -> u32
        ensures { result ≡ first_of_constant self.now }
    {
        match self {
            Constant::Number(sign, at) | Constant::Name(sign, at) => after_sign(sign, at.from),
            Constant::Text(at) => at.from,
        }
    }
}
