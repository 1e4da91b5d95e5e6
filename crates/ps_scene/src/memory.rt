//! Words and bytes of a machine's memory.

use risc_machine::Machine;

/// The byte at an address, if memory has it.
pub(crate) fn byte_at(machine: &Machine, at: u32) -> Option<u8> {
    if at < machine.size() {
        Some(machine.byte(at))
    } else {
        None
    }
}

/// The word at an address, if memory has it.
pub fn word_at(machine: &Machine, at: u32) -> Option<u32> {
    let bytes = [
        byte_at(machine, at),
        byte_at(machine, at.saturating_add(1)),
        byte_at(machine, at.saturating_add(2)),
        byte_at(machine, at.saturating_add(3)),
    ];
    match bytes {
        [Some(a), Some(b), Some(c), Some(d)] => Some(u32::from_le_bytes([a, b, c, d])),
        _ => None,
    }
}
