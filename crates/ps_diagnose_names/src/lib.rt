//! Code: what is reported for a fault of names, types and routines.
#![tactic(auto)]

mod assigning;
mod comparing;
mod context;
mod controls;
mod counts;
mod declared;
mod facts;
mod hidden;
mod kinds;
mod operators;
mod packing;
mod passed;
mod ranges;
mod refusals;
mod routines;
mod selected;
mod spot;
mod tell;
mod twice;
mod undeclared;
mod unknown;
mod uses;
mod walk;
mod why;
mod wrong_type;

pub use refusals::drafted;
