//! Code: checks variables, expressions and actual parameters, and returns their types (ISO 7185, 6.5 to 6.7).
#![tactic(auto)]

pub mod alone;
pub mod calls;
pub mod changed;
pub mod expression;
pub mod function;
pub mod inner;
pub mod members;
pub mod operators;
pub mod parameter;
pub mod place;
pub mod site;
pub mod value;
pub mod variables;
