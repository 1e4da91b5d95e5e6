//! Laws: the code of each construct does what the construct means.
//!
//! The functions do nothing when called; each exists for its contract.
#![tactic(auto)]

ghost use Rattle.ps_lower_constructs.specs.Tasks.{EveryFuel};

/// With every fuel, the code of a block, of another round of a loop and of another iteration does what they mean.
#[tactic(auto, using(crate::proofs::Execute::execute_runs))]
pub fn every_fuel()
    ensures { EveryFuel }
{}
