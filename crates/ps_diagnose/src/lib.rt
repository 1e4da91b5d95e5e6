//! Code: what a diagnostic reports besides the place of a refusal: the kinds of tokens that could come there, names
//! with similar spellings, how the required names are spelled, changes of the text, and a message while it is put
//! together.
#![tactic(auto)]

mod begun;
mod changes;
mod draft;
mod expected;
mod groups;
mod kinds;
mod near;
mod required;
mod telling;

pub use begun::{Answer, begins};
pub use changes::changed;
pub use draft::{Draft, ReportedFault, Trial};
pub use expected::{could_stand, expected_at};
pub use groups::grouped;
pub use kinds::{KIND_COUNT, written};
pub use near::nearest;
pub use required::RequiredName;
pub use telling::{Telling, Text, place_of, put_shown};
