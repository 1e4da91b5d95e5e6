//! Code: the scanner, from a text to its tokens with their kinds and spans (ISO 7185, 6.1).
#![tactic(auto)]

mod laws;
mod lexeme;
mod refusal;
mod scanner;
mod token;
mod values;
mod words;

pub use laws::{each_text_is_scanned, faults_stand_within, tokens_stand_in_order};
pub use refusal::{ScanFault, ScanRefusal};
pub use scanner::scan;
pub use token::{Kind, Token, is};
pub use values::{
    OutOfMemory, is_same_name, name_spelling, number_value, string_length, string_value,
};

/// The largest number that a literal denotes.
pub const MAX_NUMBER: u32 = 2_147_483_647;
