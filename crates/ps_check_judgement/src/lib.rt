//! Code: why the checker refuses a program, and results that state what a judgement of the language says.
#![tactic(auto)]

pub mod answer;
pub mod change;
pub mod refusal;
