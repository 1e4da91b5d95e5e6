//! Code: the loader, from an image and a budget to a machine in the loaded state.
#![tactic(auto)]

mod budget;
mod loading;

pub use budget::{Budget, LoadRefusal};
pub use loading::load;
