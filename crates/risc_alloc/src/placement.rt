// Tested placements.

use crate::groups::{Groups, MOST_VISITS};
use crate::homes::{Home, PlaceRefusal, Raw};
use crate::routine::is_placed;
use std::alloc::Global;
use std::marker::Model;
use tac_code::code::OutOfMemory;
use tac_code::tac::Tac;

/// A home for each temporary of a code. A contract sees them as a list.
#[derive(Drop)]
pub struct Placement {
    raw: Raw,
}

impl Model for Placement {
    ghost use Rattle.std.specs.Prelude.{List};
    ghost use Rattle.risc_alloc.specs.declared.homes.Home.{Home as Place};

    ghost Value = { List Place };

    ghost view = { λ p. p.raw.homes.items };
}

ghost use Rattle.std.specs.Prelude.{◌≡◌, ◌≢◌, false, length, IsTrue, IfOk, IfErr};
ghost use Rattle.tac_code.specs.Meaning.{routines};
ghost use Rattle.risc_alloc.specs.declared.homes.PlaceRefusal.TheVariants.{BadPlacement};
ghost use Rattle.risc_alloc.specs.Slots.{every_slot};
ghost use Rattle.risc_alloc.specs.Valid.{Valid};

impl Placement {
    /// The placement with these homes, if whatever is alive has its home to itself and has a slot across calls. A
    /// placement that gives each temporary the slot of its own number is never refused as bad.
    pub fn new(alloc: Global, tac: &Tac, raw: Raw) -> Result<Placement, PlaceRefusal>
        ensures valid { IfOk result (λ placement. Valid tac.now placement) }
        ensures homes { IfOk result (λ placement. placement ≡ raw.homes.items) }
        ensures refused { IfErr result (λ refusal. refusal ≡ BadPlacement → raw.homes.items ≢ every_slot
            (routines tac.now)) }
    {
        match are_placed(alloc, tac, raw.homes.as_slice(), &[]) {
            Ok(true) => Ok(Placement { raw }),
            Ok(false) => Err(PlaceRefusal::BadPlacement),
            Err(_) => Err(PlaceRefusal::OutOfMemory),
        }
    }

    /// Its parts.
    pub fn raw(&self) -> &Raw
        ensures { result.now.homes.items ≡ self.now }
    {
        &self.raw
    }

    // Homes that are known to be right.
    pub(crate) fn of_homes(homes: Vec<Home>) -> Placement
        ensures { result ≡ homes.items }
    {
        Placement { raw: Raw { homes } }
    }
}

// The routines of both lists.
pub(crate) fn count_of_routines(tac: &Tac) -> usize
    ensures { result ≡ length (routines tac.now) }
{
    tac.program().len() + tac.run_time().len()
}

// What was found for a routine, if that is given.
fn groups_of(groups: &[Option<Groups>], number: usize) -> Option<&Groups> {
    if number < groups.len() {
        match &groups[number] {
            Some(found) => Some(found),
            None => None,
        }
    } else {
        None
    }
}

// Whether these are homes that fit each routine. Which temporaries are alive at the targets of jumps may be given,
// which saves walks, and is tested.
pub(crate) fn are_placed(
    alloc: Global,
    tac: &Tac,
    homes: &[Home],
    groups: &[Option<Groups>],
) -> Result<bool, OutOfMemory>
    ensures valid { IfOk result (λ placed. IsTrue placed → Valid tac.now homes.now) }
    ensures refused { IfOk result (λ placed. placed ≡ false → homes.now ≢ every_slot (routines tac.now)) }
{
    tac.keeps_invariant();
    let mut from = 0;
    let mut left = MOST_VISITS;
    for number in 0..count_of_routines(tac) {
        let routine = tac.routine(number);
        let temporaries = routine.temporaries as usize;
        if homes.len() - from < temporaries {
            return Ok(false);
        }
        let next = from + temporaries;
        let told = groups_of(groups, number);
        if !is_placed(alloc, routine, &homes[from..next], told, &mut left)? {
            return Ok(false);
        }
        from = next;
    }
    Ok(from == homes.len())
}
