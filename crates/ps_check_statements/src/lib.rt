//! Code: checks statements, and returns them with each name resolved (ISO 7185, 6.8 and 6.9).
#![tactic(auto)]

mod argument;
mod assignment;
mod case_constants;
mod file;
mod for_statements;
mod heap;
mod procedure;
pub mod statement;
mod text;
mod with_statements;
