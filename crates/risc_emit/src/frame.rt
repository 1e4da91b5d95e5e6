// A routine that is being written.

use crate::layout::offsets_of;
use crate::location::Location;
use risc_alloc::homes::Home;
use risc_word::Register;
use std::marker::Model;
use tac_code::code::TacRoutine;
use tac_code::tac::Tac;

/// Offsets in a frame are below it, and so is what an activation is charged for, so that sums of them fit.
pub(crate) const OFFSET_LIMIT: u64 = 1_099_511_627_776;

/// Offsets in the frame of a routine, in bytes: of its link, its slots, its frame block and its scratch block; of the
/// frame block of the program block in its own frame; and what an activation is charged for.
#[derive(Clone, Copy)]
pub(crate) struct Offsets {
    pub link: u32,
    pub slots: u32,
    pub frame: u64,
    pub scratch: u64,
    pub program: u64,
    pub cost: u64,
}

/// A routine of the code, with the homes of all temporaries and its own.
#[derive(Drop)]
pub(crate) struct Frame<'a> {
    tac: &'a Tac,
    homes: &'a [Home],
    number: usize,
    own: &'a [Home],
    offsets: Offsets,
}

impl<'a> Model for Frame<'a> {
    ghost use Rattle.risc_emit.specs.Frames.{Place, AreOffsets, AreHomes};

    ghost Value = { Place };

    ghost view = { λ f. record { code = f.tac.now; homes = f.homes.now; number = f.number } };

    ghost invariant = { λ f. AreOffsets f.tac.now f.number f.offsets
        × AreHomes f.tac.now f.homes.now f.number f.own.now };
}

ghost use Rattle.std.specs.Prelude.{◌≡◌, ℕ, ◌+◌, ◌<◌, ◌≤◌, length, take, drop, slice_get, Some, pos, ◌≤ℤ◌};
ghost use Rattle.risc_emit_relation.specs.Context.{home, slot_at, is_program};
ghost use Rattle.risc_emit.specs.Meant.{home_of_location};
ghost use Rattle.risc_emit.specs.Layout.{object_cost};
ghost use Rattle.risc_emit.specs.Frames.{place_of, context_of};
ghost use Rattle.tac_code.specs.Meaning.{routines};
ghost use Rattle.tac_code.specs.Sound.{IsSound};
ghost use Rattle.risc_alloc.specs.declared.homes.Home.TheVariants.{Reg};
ghost use Rattle.risc_alloc.specs.Homes.{temporaries_before, home_in};
ghost use Rattle.risc_alloc.specs.Valid.{Valid};

// `count` homes from one on.
fn homes_from(homes: &[Home], first: usize, count: u32) -> &[Home]
    requires { first + count ≤ length homes.now }
    ensures { result.now ≡ take count (drop first homes.now) }
{
    let next = first + count as usize;
    &homes[first..next]
}

// The home of a temporary among its routine's. What is not a temporary counts as being in register 0.
fn home_in(homes: &[Home], temporary: u32) -> Home
    ensures { result ≡ home_in homes.now temporary }
{
    match homes.get(temporary as usize) {
        Some(home) => *home,
        None => Home::Reg(0),
    }
}

// A home whose register is known to exist.
fn location_of(home: Home) -> Location
    requires { (q : ℕ) → home ≡ Reg q → q < 12 }
    ensures { home_of_location result ≡ home }
{
    match home {
        Home::Slot(slot) => Location::Slot(slot),
        Home::Reg(number) => Location::Register(Register::new(number)),
    }
}

impl Frame<'_> {
    /// A routine whose temporaries' homes begin with this one.
    pub(crate) fn new<'a>(tac: &'a Tac, homes: &'a [Home], number: usize, first: usize) -> Frame<'a>
        requires exists { number < length (routines tac.now) }
        requires homes { Valid tac.now homes.now }
        requires first { first ≡ temporaries_before (routines tac.now) number }
        ensures { result ≡ place_of tac.now homes.now number }
    {
        Frame {
            tac,
            homes,
            number,
            own: homes_from(homes, first, tac.routine(number).temporaries),
            offsets: offsets_of(tac, number),
        }
    }

    /// The routine.
    pub(crate) fn routine(&self) -> &TacRoutine
        ensures { slice_get (routines self.now.code) self.now.number ≡ Some result.now }
    {
        self.tac.routine(self.number)
    }

    /// Every fact of the code's invariant.
    pub(crate) fn keeps_invariant(&self)
        ensures { IsSound self.now.code }
    {
        self.tac.keeps_invariant();
    }

    pub(crate) fn number(&self) -> usize
        ensures { result ≡ self.now.number }
    {
        self.number
    }

    /// Where a temporary lives.
    pub(crate) fn location(&self, temporary: u32) -> Location
        ensures { home_of_location result ≡ home (context_of self.now) self.now.number temporary }
    {
        location_of(home_in(self.own, temporary))
    }

    /// The offset of a slot.
    pub(crate) fn slot_at(&self, slot: u32) -> u64
        ensures { result ≡ slot_at (context_of self.now) self.now.number slot }
    {
        u64::from(self.offsets.slots) + 4 * u64::from(slot)
    }

    pub(crate) fn frame_at(&self) -> u64
        ensures offset { result ≡ (context_of self.now).frame_at self.now.number }
        ensures small { result < OFFSET_LIMIT }
    {
        self.offsets.frame
    }

    pub(crate) fn scratch_at(&self) -> u64
        ensures offset { result ≡ (context_of self.now).scratch_at self.now.number }
        ensures small { result < OFFSET_LIMIT }
    {
        self.offsets.scratch
    }

    /// The offset of the program block's frame block in its own frame.
    pub(crate) fn program_at(&self) -> u64
        ensures offset { result ≡ (context_of self.now).frame_at 0 }
        ensures small { result < OFFSET_LIMIT }
    {
        self.offsets.program
    }

    pub(crate) fn link_at(&self) -> i32
        ensures offset { result ≡ pos ((context_of self.now).link_at self.now.number) }
        ensures low { pos 0 ≤ℤ result }
        ensures high { result ≤ℤ pos 40 }
    {
        self.offsets.link as i32
    }

    /// The bytes of an activation.
    pub(crate) fn cost(&self) -> u64
        ensures offset { result ≡ (context_of self.now).costs self.now.number }
        ensures small { result < OFFSET_LIMIT }
    {
        self.offsets.cost
    }

    /// Whether it is a routine of the program.
    pub(crate) fn is_of_program(&self) -> bool
        ensures { result ≡ is_program (context_of self.now) self.now.number }
    {
        self.number < self.tac.program().len()
    }

    /// Whether another routine is one of the program.
    pub(crate) fn calls_program(&self, routine: u32) -> bool
        ensures { result ≡ is_program (context_of self.now) routine }
    {
        (routine as usize) < self.tac.program().len()
    }

    /// The bytes that an object of a type takes.
    pub(crate) fn object_bytes(&self, object_type: u32) -> u32
        ensures { result ≡ (context_of self.now).sizes object_type }
    {
        match self.tac.objects().get(object_type as usize) {
            None => 0,
            Some(bytes) => object_cost(*bytes),
        }
    }
}

/// No object is without bytes, so no two have the same address.
pub(crate) fn object_cost(bytes: u32) -> u32
    ensures { result ≡ object_cost bytes }
{
    if bytes < 4 { 4 } else { bytes }
}
