// What the placers of temporaries make of a text: for each, how many words the code of its image has, and whether a
// copy of its homes is accepted.

use pascal_session::{TEXT_LIMIT, read_standard_input};
use ps_build::{Refusal, code_of_text};
use risc_alloc::homes::Raw;
use risc_alloc::placement::Placement;
use risc_alloc::placer::{EverySlot, Placer};
use risc_alloc::scan::Scan;
use risc_emit::emit::emit;
use std::alloc::Global;
use tac_code::tac::Tac;

const DONE: u8 = 0;

const REFUSED: u8 = 1;

/// The result of the homes that a placer chose.
#[derive(Clone, Copy)]
struct Placed {
    words: usize,
    is_copy_taken: bool,
}

fn is_copy_taken(alloc: Global, tac: &Tac, placement: &Placement) -> Result<bool, Refusal> {
    let homes = placement.raw().homes.as_slice().to_vec(alloc)?;
    Ok(Placement::new(alloc, tac, Raw { homes }).is_ok())
}

fn placed_by<P: Placer>(alloc: Global, tac: &Tac, placer: &P) -> Result<Placed, Refusal> {
    let placement = placer.place(alloc, tac)?;
    let is_copy_taken = is_copy_taken(alloc, tac, &placement)?;
    let parts = emit(alloc, tac, &placement)?;
    Ok(Placed {
        words: parts.code.len(),
        is_copy_taken,
    })
}

// With a slot of the frame for each temporary, and with registers.
fn placed_twice(alloc: Global, text: &[u8]) -> Result<(Placed, Placed), Refusal> {
    let tac = code_of_text(alloc, text)?;
    let slots = placed_by(alloc, &tac, &EverySlot)?;
    let registers = placed_by(alloc, &tac, &Scan)?;
    Ok((slots, registers))
}

fn tell<R: Print>(rt: &R, name: &str, placed: Placed) {
    let copy = if placed.is_copy_taken {
        "taken"
    } else {
        "refused"
    };
    let _ = println!(rt; "{name} {} {copy}", placed.words);
}

/// Reports for the text of standard input, on a line for each placer, how many words its code has and whether a copy of
/// its homes is accepted. The status is 0, or 1 if the text is refused or cannot be read.
pub fn tell_of_standard_input<R: Print + Eprint + Input + AllocGlobal>(rt: &R) -> u8 {
    let text = match read_standard_input(rt, TEXT_LIMIT) {
        Ok(text) => text,
        Err(status) => return status,
    };
    match placed_twice(rt.alloc(), &text) {
        Ok((slots, registers)) => {
            tell(rt, "slots", slots);
            tell(rt, "registers", registers);
            DONE
        }
        Err(_) => REFUSED,
    }
}
