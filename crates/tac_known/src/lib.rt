//! Code: what is known of temporaries at each place of three-address code, and tests that can't fail.
#![tactic(auto)]

pub mod again;
pub mod claims;
pub mod kind;
pub mod laws;
pub mod lean;
pub mod order;
pub mod walk;
