//! Code: the parser, from a text's tokens to the tree that derives from them (ISO 7185, 6.2 to 6.10).
#![tactic(auto)]

mod answer;
mod error;
mod expression;
mod fault;
mod laws;
mod left_out;
mod parser;
mod program;
mod public;
mod statement;
mod types;

pub use error::{ParseFault, ParseRefusal};
pub use laws::refusals_are_one;
pub use public::{parse, release};
