//! Code: which routines the blocks of a checked program may call, and the least stack that holds each path of calls.
#![tactic(auto)]

mod depths;
mod gather;
mod least;
mod nodes;
mod order;
mod path;
pub mod uses;

pub use least::{Need, least_stack};
