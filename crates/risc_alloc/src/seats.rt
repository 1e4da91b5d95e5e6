// Homes as numbers of seats: the twelve registers, and after them the slots.

ghost use Rattle.std.specs.Prelude.{IfSome, IfOk};
ghost use Rattle.risc_alloc.specs.Seats.{IsSeatOf, AreSeatsOf};

use crate::homes::Home;
use std::alloc::Global;
use tac_code::code::OutOfMemory;

/// The registers that hold temporaries.
pub(crate) const REGISTERS: usize = 12;

// `None` if a routine with this many temporaries has no such home.
fn seat_of(home: Home, temporaries: usize) -> Option<usize>
    ensures { IfSome result (IsSeatOf temporaries home) }
{
    match home {
        Home::Reg(register) if (register as usize) < REGISTERS => Some(register as usize),
        Home::Slot(slot) if (slot as usize) < temporaries => Some(REGISTERS + slot as usize),
        _ => None,
    }
}

// The seats of a routine's temporaries.
pub(crate) fn seats_of(alloc: Global, homes: &[Home]) -> Result<Option<Vec<usize>>, OutOfMemory>
    ensures { IfOk result (λ seats. IfSome seats (λ list. AreSeatsOf homes.now list.items)) }
{
    let mut seats = Vec::with_capacity(alloc, homes.len())?;
    for home in homes {
        match seat_of(*home, homes.len()) {
            Some(seat) => seats.push(seat)?,
            None => return Ok(None),
        }
    }
    Ok(Some(seats))
}
