//! Code: the warnings for a text that is accepted: where it hardly does what it was meant to do.
#![tactic(auto)]

mod all;
mod comments;
mod directives;
mod empty;
mod finding;
mod hidden;
mod indented;
mod lost;
mod nested;
mod outside;
mod reading;
mod rows;
mod tell;
mod text;
mod unchanged;
mod unreached;
mod uses;
mod values;

pub use all::warnings;
pub use finding::Warning;
