// What chooses homes.

ghost use Rattle.std.specs.Prelude.{◌≡◌, ◌++◌, IfOk, OnOk};
ghost use Rattle.tac_code.specs.Meaning.{routines};
ghost use Rattle.risc_alloc.specs.Slots.{own_slots, every_slot};
ghost use Rattle.risc_alloc.specs.Valid.{Valid};

use crate::homes::Home;
use crate::placement::{Placement, count_of_routines};
use std::alloc::Global;
use tac_code::code::OutOfMemory;
use tac_code::tac::Tac;

/// Chooses homes for the temporaries of any code.
pub trait Placer {
    /// A placement that is valid for this code.
    fn place(&self, alloc: Global, tac: &Tac) -> Result<Placement, OutOfMemory>
        ensures valid { IfOk result (λ placement. Valid tac.now placement) };
}

/// Gives each temporary the slot of its number.
#[derive(Clone, Copy, Drop)]
pub struct EverySlot;

impl Placer for EverySlot {
    fn place(&self, alloc: Global, tac: &Tac) -> Result<Placement, OutOfMemory>
        ensures valid { IfOk result (λ placement. Valid tac.now placement) }
        ensures homes { IfOk result (λ placement. placement ≡ every_slot (routines tac.now)) }
    {
        tac.keeps_invariant();
        Ok(Placement::of_homes(slots_of(alloc, tac)?))
    }
}

pub(crate) fn add_slots(homes: &mut Vec<Home>, temporaries: u32) -> Result<(), OutOfMemory>
    ensures { OnOk result (homes.new.items ≡ homes.old.items ++ own_slots temporaries) }
{
    for slot in 0..temporaries {
        homes.push(Home::Slot(slot))?;
    }
    Ok(())
}

fn slots_of(alloc: Global, tac: &Tac) -> Result<Vec<Home>, OutOfMemory>
    ensures { IfOk result (λ homes. homes.items ≡ every_slot (routines tac.now)) }
{
    let mut homes = Vec::new(alloc);
    for number in 0..count_of_routines(tac) {
        add_slots(&mut homes, tac.routine(number).temporaries)?;
    }
    Ok(homes)
}
