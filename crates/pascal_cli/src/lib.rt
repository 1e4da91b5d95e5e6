//! Code: the command `pascal`: what it does for its words.
#![tactic(auto)]

mod believed;
mod call;
mod certificates;
mod checks;
mod explain;
mod failures;
mod image_file;
mod jobs;
mod need_lines;
mod needs;
mod runs;
mod version;
mod watched;

pub use call::run;
pub use explain::{pages_on, titles};
pub use image_file::{FileNumber, Way, WriteFault, rights_of, way_of, write_image};
pub use runs::{
    counts_through, end_through, go_through, run_through, trace_through, usage_through,
};
pub use version::VERSION;
