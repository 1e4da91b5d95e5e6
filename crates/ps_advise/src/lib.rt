//! Code: everything that is reported for a text: its refusal in words, mends that were tried, further faults, warnings.
#![tactic(auto)]

mod answer;
mod blank;
mod budget;
mod candidates;
mod drafts;
mod faults;
mod foreign;
mod layers;
mod mends;
mod places;
mod possible;
mod reduced;
mod rest;
mod routines;
mod steps;
mod text_of;
mod trial;
mod warned;

pub use answer::{Advice, Wants, advised};
pub use trial::{Verdict, tried, verdict_on};
