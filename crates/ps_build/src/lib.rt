//! Code: the public functions that build programs, list them and run images, with the promises of the whole compiler.
#![tactic(auto)]

mod built;
pub mod laws;
mod listing;
mod making;
pub mod names;
mod outcome;
mod refusal;
mod run;
mod slices;

pub use built::{
    Built, Mapped, accepted, build, build_and_leave, build_mapped, build_placed, build_with,
    code_of_text,
};
pub use listing::list;
pub use making::Variables;
pub use outcome::{FaultKind, Outcome};
pub use ps_check_judgement::refusal::Rule;
pub use ps_parse::ParseFault;
pub use ps_scan::ScanFault;
pub use refusal::{Place, Refusal};
pub use risc_emit_trail::Trail;
pub use risc_load::Budget;
pub use run::{go, outcome_of, run_image};
pub use slices::{Ended, Paced, go_in_slices, run_image_in_slices, run_image_to_end};
