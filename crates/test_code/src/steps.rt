//! Single steps of the processor.

use crate::machines::{closed, machine_of, memory_of, put_held, state_of};
use crate::texts::{hexadecimal, word};
use risc_machine::{Machine, run};
use std::alloc::{AllocError, Global};
use std::str::SplitWhitespace;
use test_tables::Line;
use test_tables::words::u32_of;

// The word at address 4.
const DATA: u32 = 0x8765_4380;

// What H holds before the step.
const HIGH: u32 = 0x0BAD_CAFE;

// MOVH, which puts the upper half of a number into a register.
fn upper(register: u32, number: u32) -> u32 {
    0x6000_0000 | register << 24 | number >> 16
}

// IOR, which puts the lower half of a number into a register after MOVH.
fn lower(register: u32, number: u32) -> u32 {
    0x4006_0000 | register << 24 | register << 20 | number & 0xFFFF
}

// Two numbers whose sum sets C and V so.
fn carrying(carry: bool, overflow: bool) -> (u32, u32) {
    match (carry, overflow) {
        (false, false) => (0, 0),
        (true, false) => (0xFFFF_FFFF, 1),
        (false, true) => (0x7FFF_FFFF, 1),
        (true, true) => (0x8000_0000, 0x8000_0000),
    }
}

// MOV R5, of a number that sets N and Z so; no number sets both.
fn signing(negative: bool, equal: bool) -> u32 {
    if equal {
        0x4500_0000
    } else if negative {
        0x5500_FFFF
    } else {
        0x4500_0001
    }
}

// The code begins with a branch over the word at address 4, which is DATA, and then sets H by a quotient whose
// remainder is HIGH, and C and V by a sum.
fn put_start(words: &mut Vec<u32>, flags: &str) -> Result<(), AllocError> {
    let (left, right) = carrying(flags.contains('C'), flags.contains('V'));
    words.extend_from_slice(&[
        0xE700_0001,
        DATA,
        upper(3, HIGH),
        lower(3, HIGH),
        upper(4, 0x7FFF_FFFF),
        lower(4, 0x7FFF_FFFF),
        0x033B_0004,
        upper(3, left),
        lower(3, left),
        upper(4, right),
        lower(4, right),
        0x0338_0004,
    ])
}

// Registers are written as `1=0000000A`.
fn put_registers(words: &mut Vec<u32>, told: &mut SplitWhitespace) -> Result<(), AllocError> {
    for register in told {
        let (name, held) = register.split_once('=').unwrap_or(("", ""));
        let (register, number) = (u32_of(name), hexadecimal(held));
        words.extend_from_slice(&[upper(register, number), lower(register, number)])?;
    }
    Ok(())
}

// The code that brings a machine to the step of a word, and that word.
fn put_code(words: &mut Vec<u32>, row: &str) -> Result<(), AllocError> {
    let mut told = row.split_whitespace();
    let last = hexadecimal(word(&mut told));
    let flags = word(&mut told);
    put_start(words, flags)?;
    put_registers(words, &mut told)?;
    words.push(signing(flags.contains('N'), flags.contains('Z')))?;
    words.push(last)?;
    Ok(())
}

/// A machine that is about to make the step of a word, after code that brings it there. R3, R4 and R5 are used on the
/// way.
fn machine_at(alloc: Global, row: &str) -> Result<Machine, AllocError> {
    let mut words = Vec::new(alloc);
    put_code(&mut words, row)?;
    // neither DATA nor the last word is a step on the way
    let steps = words.len().saturating_sub(2);
    let mut console = closed(alloc)?;
    let mut machine = machine_of(alloc, &words, 0)?;
    let _ = run(&mut machine, &mut console, steps as u64);
    drop(console);
    Ok(machine)
}

// Puts where a machine continues that was at a place.
fn put_place(line: &mut Line, before: u32, after: u32) {
    if after == before {
        return line.word("here ");
    }
    match after.checked_sub(before) {
        Some(1) => line.word("next "),
        Some(words) => {
            line.valued("", &words);
            line.word(" on ");
        }
        None => {
            line.valued("at ", &after);
            line.word(" ");
        }
    }
}

// Makes a step, and puts how it ends, where the machine continues, and its contents then.
fn put_step_of(alloc: Global, line: &mut Line, machine: &mut Machine) -> Result<(), AllocError> {
    let memory = memory_of(alloc, machine)?;
    let before = state_of(machine, &memory);
    let at = machine.pc();
    let stop = machine.step(&mut closed(alloc)?);
    if let Some(stop) = stop {
        line.seen("", &stop);
        line.word(" ");
    }
    put_place(line, at, machine.pc());
    put_held(line, before, machine);
    Ok(())
}

/// Puts what the step of a word does. The row has the word, the flags before it, and what registers hold before it; H
/// holds 0BADCAFE, and the word at address 4 is 87654380.
pub(crate) fn put_step(alloc: Global, line: &mut Line, row: &str) -> Result<(), AllocError> {
    let mut machine = machine_at(alloc, row)?;
    let end = put_step_of(alloc, line, &mut machine);
    drop(machine);
    end
}
