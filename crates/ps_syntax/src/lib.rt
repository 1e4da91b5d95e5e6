//! Code: the syntax tree of a program (ISO 7185, 6.2 to 6.10), and its height.
//!
//! Names, numbers and strings are spans of the text.
//!
//! Contracts see a tree as plain data: its lists are `Items` and its single children `Boxed`, whose values have no
//! pointer and no capacity, so two trees that read alike are equal.
#![tactic(auto)]

mod expression;
mod heights;
mod program;
mod statement;

pub use expression::{
    AddedTerm, Adding, Expr, Factor, Member, MultipliedFactor, Multiplying, Relational, Selector,
    Sign, Simple, Term, Variable,
};
pub use heights::height;
pub use program::{
    Block, ConstantDefinition, Fields, Heading, Ordinal, Program, Routine, Section, Structure,
    TypeDefinition, TypeDenoter, Variables,
};
pub use sqlite_items::{Boxed, Items};
pub use statement::{Constant, Direction, Element, Parameter, Statement};
