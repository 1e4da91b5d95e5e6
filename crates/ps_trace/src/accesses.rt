//! What happens at the steps of a run.

use ps_map::{Access, access_in};
use risc_image::ImageView;
use risc_machine::Machine;
use risc_machine::limits::ADDRESSES;
use std::alloc::{AllocError, Global};

// The address at which a byte is read and written.
const CONSOLE: u32 = 0xFF_FFC8;

/// What happens at a step.
#[derive(Clone, Copy)]
pub(crate) enum Event {
    Nothing,
    /// Bytes of memory are stored, from an address on.
    Stored { at: u32, bytes: u32 },
    Put(u8),
    /// A byte is requested: after the step the register with this number has it, or a number greater than all bytes if
    /// there is none.
    Taken(u8),
}

/// What each word of an image does to memory, by its number.
pub(crate) fn accesses_of(alloc: Global, image: &ImageView<'_>) -> Result<Vec<Access>, AllocError> {
    let mut accesses = Vec::new(alloc);
    for at in 0..image.words() {
        accesses.push(access_in(image.word(at).unwrap_or(0)))?;
    }
    Ok(accesses)
}

// The address that is the sum of a register and an offset.
fn address_on(machine: &Machine, base: u8, offset: i32) -> u32 {
    content_of(machine, base).wrapping_add(offset.cast_unsigned()) % ADDRESSES
}

/// The content of the register with this number.
pub(crate) fn content_of(machine: &Machine, register: u8) -> u32 {
    if register < 16 {
        machine.reg(register)
    } else {
        0
    }
}

/// What will happen at the next step.
#[inline(always)]
pub(crate) fn event_at(machine: &Machine, access: Access) -> Event {
    match access {
        Access::Nothing | Access::Go => Event::Nothing,
        Access::Load { to, base, offset } => {
            if address_on(machine, base, offset) == CONSOLE {
                Event::Taken(to)
            } else {
                Event::Nothing
            }
        }
        Access::Store {
            from,
            base,
            offset,
            bytes,
        } => stored(
            address_on(machine, base, offset),
            bytes,
            content_of(machine, from),
        ),
    }
}

// What a store is.
fn stored(at: u32, bytes: u32, word: u32) -> Event {
    if at == CONSOLE {
        Event::Put((word % 256) as u8)
    } else {
        Event::Stored { at, bytes }
    }
}
