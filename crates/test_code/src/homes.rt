//! Homes for the temporaries of three-address code.

use risc_alloc::homes::{Home, PlaceRefusal, Raw};
use risc_alloc::placement::Placement;
use std::alloc::{AllocError, Global};
use tac_code::tac::Tac;
use test_tables::Line;
use test_tables::words::{u8_of, u32_of};

/// The home that a word names: `r5` is a register, `s5` a slot.
pub(crate) fn home_of(word: &str) -> Home {
    match word.strip_prefix("r") {
        Some(digits) => Home::Reg(u8_of(digits)),
        None => Home::Slot(u32_of(word.strip_prefix("s").unwrap_or(""))),
    }
}

/// Puts whether homes are taken.
pub(crate) fn put_verdict(
    alloc: Global,
    line: &mut Line,
    tac: &Tac,
    homes: &[Home],
) -> Result<(), AllocError> {
    let raw = Raw {
        homes: Vec::from_slice(alloc, homes)?,
    };
    line.word(match Placement::new(alloc, tac, raw) {
        Ok(_) => "taken",
        Err(PlaceRefusal::BadPlacement) => "refused",
        Err(PlaceRefusal::OutOfMemory) => "out of memory",
    });
    Ok(())
}

fn put_home(line: &mut Line, home: Home) {
    match home {
        Home::Slot(slot) => line.numbered("s", u64::from(slot)),
        Home::Reg(register) => line.numbered("r", u64::from(register)),
    }
    line.word(" ");
}

/// Puts the homes of a placement, and whether a copy of them is taken.
pub(crate) fn put_placement(
    alloc: Global,
    line: &mut Line,
    tac: &Tac,
    placement: &Placement,
) -> Result<(), AllocError> {
    let homes = &placement.raw().homes;
    for home in homes {
        put_home(line, *home);
    }
    put_verdict(alloc, line, tac, homes)
}
