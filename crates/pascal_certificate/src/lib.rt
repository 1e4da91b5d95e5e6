//! Code: certificates, which say what was proved of a Pascal text and an image.
#![tactic(auto)]

mod compare;
mod comparison;
mod damage;
mod fact;
mod form;
mod made;
mod read;
mod verdict;

pub use compare::{Change, changes};
pub use comparison::{Comparison, Evidence, compared};
pub use damage::{Damage, damage_of};
pub use fact::{FACTS, Fact, NOT_KNOWN, fits, label};
pub use made::{Seal, certificate_of, seal_of};
pub use read::parse;
pub use verdict::{Names, verdict_text};
