//! Code: what is reported for a refusal by the scanner or the parser, made from the tokens around its place.
#![tactic(auto)]

mod assigned;
mod bounds;
mod compared;
mod context;
mod declaring;
mod ended;
mod habits;
mod kinds;
mod layout;
mod left_out;
mod letters;
mod lists;
mod missing;
mod other;
mod parts;
mod places;
mod reals;
mod reasons;
mod rows;
mod rule;
mod scanned;
mod signs;
mod slashes;
mod slips;
mod spelled;
mod spread;
mod table;
mod tell;
mod telling;
mod tests;
mod underscores;
mod walk;

pub use reasons::{drafted, missing_before, part_at};
pub use rows::{Part, Row, other_pascal};
