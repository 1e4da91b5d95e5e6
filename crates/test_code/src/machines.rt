//! Machines, and what they hold.

use risc_machine::{Flags, Fused, Machine, OutOfMemory};
use std::alloc::Global;
use std::fmt::Write;
use test_tables::Line;

/// A console with no input and no room.
pub(crate) fn closed(alloc: Global) -> Result<Fused, OutOfMemory> {
    Fused::new(alloc, b"", 0, 0, 0)
}

/// The machine with these words of code, at most 256, and this many bytes of globals.
pub(crate) fn machine_of(
    alloc: Global,
    words: &[u32],
    globals: u32,
) -> Result<Machine, OutOfMemory> {
    let mut code = Vec::new(alloc);
    for word in words {
        code.extend_from_slice(&word.to_le_bytes())?;
    }
    let front = code.len().min(1024);
    Machine::start(alloc, &code[..front], globals.min(1024), 0, 0)
}

/// The registers and the memory of a machine.
#[derive(Clone, Copy)]
pub(crate) struct State<'a> {
    registers: [u32; 16],
    memory: &'a [u8],
}

/// Registers that hold 0, and no memory.
pub(crate) const NOTHING: State<'static> = State {
    registers: [0; 16],
    memory: &[],
};

/// The memory of a machine.
pub(crate) fn memory_of(alloc: Global, machine: &Machine) -> Result<Vec<u8>, OutOfMemory> {
    let mut memory = Vec::new(alloc);
    for address in 0..machine.size() {
        memory.push(machine.byte(address))?;
    }
    Ok(memory)
}

/// The contents of a machine, whose memory this is.
pub(crate) fn state_of<'a>(machine: &Machine, memory: &'a [u8]) -> State<'a> {
    let mut registers = [0; 16];
    for number in 0..16u8 {
        registers[usize::from(number)] = machine.reg(number);
    }
    State { registers, memory }
}

/// Puts flags as a word like `N-CV`.
fn put_flags(line: &mut Line, flags: Flags) {
    for (is_set, letter) in [
        (flags.negative, 'N'),
        (flags.equal, 'Z'),
        (flags.carry, 'C'),
        (flags.overflow, 'V'),
    ] {
        line.letter(if is_set { letter } else { '-' });
    }
}

fn put_registers(line: &mut Line, before: State<'_>, machine: &Machine) {
    for number in 0..16u8 {
        let value = machine.reg(number);
        if number == 0 || before.registers[usize::from(number)] != value {
            line.numbered(" R", u64::from(number));
            line.coded(" ", value);
        }
    }
}

fn put_memory(line: &mut Line, before: State<'_>, machine: &Machine) {
    for address in 0..machine.size() {
        let byte = machine.byte(address);
        if before.memory.get(address as usize).copied().unwrap_or(0) != byte {
            let _ = write!(line, " [{address}] {byte:02X}");
        }
    }
}

/// Puts what a machine holds: the flags, H, R0, and the other registers and the bytes of memory that are not as before.
pub(crate) fn put_held(line: &mut Line, before: State<'_>, machine: &Machine) {
    put_flags(line, machine.flags());
    line.coded(" H ", machine.high());
    put_registers(line, before, machine);
    put_memory(line, before, machine);
}
