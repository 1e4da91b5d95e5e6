//! Windows: twelve seats at a time, so that a walk tracks at most twelve temporaries at a place.

ghost use Rattle.std.specs.Prelude.{◌≡◌, ℕ, ◌+◌, ◌<◌, ◌≤◌, false, length, slice_index, IsTrue, IfSome, IfOk};
ghost use Rattle.risc_alloc.specs.Windows.{IsWindow, IsMarked, MarksStrangers};

use crate::seats::REGISTERS;
use std::alloc::Global;
use tac_code::code::OutOfMemory;

/// The seats of a window: the registers, or as many slots.
pub(crate) const SEATS: usize = REGISTERS;

const ELSEWHERE: u8 = 12;

/// For each temporary of a routine its seat among those of a window, or 12 if it sits elsewhere.
#[derive(Drop)]
pub(crate) struct Window {
    seats: Vec<u8>,
    // Whether these are the registers.
    registers: bool,
}

// A seat by its distance from the first of a window.
fn seat_from(seat: usize, from: usize) -> u8
    ensures { (s : ℕ) → seat ≡ from + s → s < 12 → result ≡ s }
{
    if from <= seat && seat - from < SEATS {
        (seat - from) as u8
    } else {
        ELSEWHERE
    }
}

impl Window {
    /// The window of the seats from one on.
    pub(crate) fn new(alloc: Global, seats: &[usize], from: usize) -> Result<Window, OutOfMemory>
        ensures { IfOk result (IsWindow seats.now from) }
    {
        let mut here = Vec::with_capacity(alloc, seats.len())?;
        for seat in seats {
            here.push(seat_from(*seat, from))?;
        }
        Ok(Window {
            seats: here,
            registers: from < REGISTERS,
        })
    }

    /// The seat of a temporary, 12 for one elsewhere; `None` for what is not a temporary of the routine.
    pub(crate) fn seat(&self, temporary: u32) -> Option<usize>
        ensures there { IfSome result (λ s. temporary < length self.now.seats.items) }
        ensures number { IfSome result (λ s. s ≡ slice_index self.now.seats.items temporary) }
    {
        let index = temporary as usize;
        if index < self.seats.len() {
            Some(self.seats[index] as usize)
        } else {
            None
        }
    }

    /// Whether a temporary sits elsewhere.
    pub(crate) fn is_elsewhere(&self, temporary: u32) -> bool
        ensures { IsTrue result → 12 ≤ slice_index self.now.seats.items temporary }
    {
        match self.seat(temporary) {
            Some(seat) => seat >= SEATS,
            None => false,
        }
    }

    /// Whether its seats are the registers.
    pub(crate) fn has_registers(&self) -> bool
        ensures { result ≡ self.now.registers }
    {
        self.registers
    }
}

// Whether a temporary sits in the slot of its number.
fn sits_in_its_own(seat: usize, temporary: usize) -> bool
    ensures { IsTrue result → seat ≡ 12 + temporary }
{
    seat >= REGISTERS && seat - REGISTERS == temporary
}

/// Marks each of `count` seats in which a temporary sits outside its own slot: two sit in one only if it is marked.
pub(crate) fn marks_of_strangers(
    alloc: Global,
    seats: &[usize],
    count: usize,
) -> Result<Vec<bool>, OutOfMemory>
    ensures long { IfOk result (λ marks. length marks.items ≡ count) }
    ensures marked { IfOk result (λ marks. MarksStrangers seats.now marks.items) }
{
    let mut marks = vec![in alloc; false; count]?;
    for (temporary, seat) in seats.iter().enumerate() {
        if !sits_in_its_own(*seat, temporary) && *seat < marks.len() {
            marks[*seat] = true;
        }
    }
    Ok(marks)
}

/// Whether one of the twelve seats from a place on is marked.
pub(crate) fn is_marked(marks: &[bool], from: usize) -> bool
    ensures { result ≡ false → (seat : ℕ) → from ≤ seat → seat < from + 12 → IsMarked marks.now seat → ⊥ }
{
    let mut seat = from;
    while seat < marks.len() && seat - from < SEATS {
        if marks[seat] {
            return true;
        }
        seat += 1;
    }
    false
}
