//! Code: what a call of the command receives and reports: its words, what it reads and writes, its statuses and its
//! messages.
#![tactic(auto)]

mod ahead;
mod console;
mod counted;
mod report;
mod session;
mod transfer;

pub use ahead::Ahead;
pub use console::BlockConsole;
pub use report::{Lines, OutOfMemory, lines_of, message, status};
pub use session::{
    COMMAND_LINE, FAILED, STANDARD_ERROR, STANDARD_INPUT, STANDARD_OUTPUT, TEXT_LIMIT, asked,
    asks_version, cannot, cannot_at, is_standard, out_of_memory, read_all, read_at, read_file,
    read_standard_input, read_text, report_end, shown_words, tell, texts, words,
};
pub use transfer::{Counted, ReadFault, put_all, put_at_once, read_up_to};
