//! Code: checks the declarations of a block, and gives the names of its region (ISO 7185, 6.3 to 6.6).
#![tactic(auto)]

pub mod declarations;
pub mod denoters;
pub mod frame;
pub mod headings;
pub mod hiding;
pub mod points;
