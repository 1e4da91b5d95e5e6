//! Code: the words of the command line: the job that they request, and what their options say about the report.
#![tactic(auto)]

mod job;
mod options;

pub use job::{
    CommandFault, DEFAULT_HEAP, DEFAULT_STACK, DEFAULT_STEPS, Job, MAX_BUDGET, MAX_STEPS,
    NumberFault, Task, Watch, command,
};
pub use options::{OptionFault, Options, Part, Telling, Traces, options_of, plain_words};
