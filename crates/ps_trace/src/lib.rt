//! Code: observed runs: how much they take, how often each statement is executed, where the steps go, and each
//! statement as it is executed.
//!
//! An observed run is the same run as an unobserved one. What is reported of it is advisory: no contract depends on it.
#![tactic(auto)]

mod accesses;
mod counts;
mod cover;
mod heads;
mod naming;
mod notes;
mod prepared;
mod profile;
mod sites;
mod telling;
mod traced;
mod tracer;
mod usage;
mod watch;

pub use counts::{Counts, no_counts, run_counted};
pub use cover::{coverage_report, lcov_report};
pub use prepared::Prepared;
pub use profile::profile_report;
pub use traced::{Traced, Tracing, run_traced};
pub use tracer::{Choice, Teller};
pub use usage::{Measured, Usage, run_measured, usage_line};
pub use watch::{Watch, run_image_watched};
