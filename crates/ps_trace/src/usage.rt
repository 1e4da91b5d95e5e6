//! How much a run took: its steps, and the most stack and heap, in bytes.

ghost use Rattle.std.specs.Prelude.{◌≡◌, IfOk, IfErr, IfSome, IfNone, OnErr, true};
ghost use Rattle.ps_build.specs.Runs.{RunsImage, IsRunRefused};
ghost use Rattle.ps_build.specs.Slices.{IsImageLeft};

use crate::watch::{Watch, run_image_watched};
use ps_build::{Budget, Ended, Paced, Refusal};
use ps_scene::word_at;
use risc_machine::{Machine, Stop};
use std::alloc::{AllocError, Global};

// Where the heap begins, at the start of a run.
const HEAP: u8 = 0;

// The register in which an entry has the new frame, until that becomes the innermost one.
const NEW: u8 = 12;

// The frame of the program block; before that is made, the start of the globals.
const PROGRAM: u8 = 13;

// The innermost frame; before there is one, the end of memory.
const FRAME: u8 = 14;

// Where the frame of the program block has the heap's next address.
const NEXT: u32 = 272;

// The words by which a new frame, for which room was found, becomes that of the program block, and the innermost one.
const PROGRAM_IS_NEW: u32 = 0x0D00_000C;

const FRAME_IS_NEW: u32 = 0x0E00_000C;

/// How much a run took.
#[derive(Clone, Copy)]
pub struct Usage {
    /// The steps that were made, including the one at which the run stopped.
    pub steps: u64,
    /// The most bytes of frames at once: with a stack of this size the run is the same, and with a smaller one it stops
    /// for stack.
    pub stack: u32,
    /// The bytes of all objects: with a heap of this size the run is the same, and with a smaller one it stops for
    /// heap.
    pub heap: u32,
}

/// Measures how much a run takes.
#[derive(Clone, Copy)]
struct Gauge {
    steps: u64,
    heap: u32,
    globals: u32,
    end: u32,
    /// The lowest frame so far.
    lowest: u32,
    /// The heap's next address at the end.
    next: u32,
}

impl Gauge {
    fn new() -> Gauge {
        Gauge {
            steps: 0,
            heap: 0,
            globals: 0,
            end: 0,
            lowest: 0,
            next: 0,
        }
    }

    fn lower(&mut self, frame: u32) {
        if frame < self.lowest {
            self.lowest = frame;
        }
    }

    // A frame for which room was found but which isn't the innermost one yet, when the steps were used up.
    fn look_at_entry(&mut self, machine: &Machine) {
        match word_at(machine, machine.pc() * 4) {
            Some(PROGRAM_IS_NEW | FRAME_IS_NEW) => self.lower(machine.reg(NEW)),
            _ => {}
        }
        let program = machine.reg(PROGRAM);
        if program != self.globals && program >= self.heap {
            self.lower(program);
        }
    }

    fn usage(&self) -> Usage {
        Usage {
            steps: self.steps,
            stack: self.end.saturating_sub(self.lowest),
            heap: self.next.saturating_sub(self.heap),
        }
    }
}

impl Watch for Gauge {
    fn begin(&mut self, machine: &Machine) {
        self.heap = machine.reg(HEAP);
        self.globals = machine.reg(PROGRAM);
        self.end = machine.reg(FRAME);
        self.lowest = self.end;
    }

    fn see(&mut self, machine: &Machine) {
        self.steps = self.steps.saturating_add(1);
        self.lower(machine.reg(FRAME));
    }

    fn end(&mut self, machine: &Machine, stop: Option<Stop>) {
        let _ = stop;
        self.lower(machine.reg(FRAME));
        self.look_at_entry(machine);
        let place = machine.reg(PROGRAM).saturating_add(NEXT);
        if self.lowest < self.end {
            self.next = word_at(machine, place).unwrap_or(0);
        }
    }
}

/// How a run ended, and how much it took.
#[derive(Drop)]
pub struct Measured {
    pub ended: Ended,
    pub usage: Usage,
}

/// Runs an image as `run_image_to_end` does, and returns how much the run took.
///
/// # Errors
///
/// Those of `run_image_to_end`.
pub fn run_measured<C: Paced>(
    alloc: Global,
    image: &[u8],
    budget: Budget,
    console: &mut C,
    max_steps: u64,
) -> Result<Measured, Refusal>
    ensures runs { IfOk result (λ measured. IfSome measured.ended.outcome
        (RunsImage image.now budget max_steps (C.world console.old) (C.world console.new))) }
    ensures left { IfOk result (λ measured. IfNone measured.ended.outcome
        (IsImageLeft image.now budget max_steps (C.world console.old) (C.world console.new))) }
    ensures failed { IfOk result (λ measured. IfNone measured.ended.outcome (C.has_failed console.new ≡ true)) }
    ensures refused { IfErr result (IsRunRefused image.now budget) }
    ensures unchanged { OnErr result (C.world console.new ≡ C.world console.old) }
{
    let mut gauge = Gauge::new();
    match run_image_watched(alloc, image, budget, console, &mut gauge, max_steps) {
        Ok(ended) => Ok(Measured {
            ended,
            usage: gauge.usage(),
        }),
        Err(refusal) => Err(refusal),
    }
}

/// How much a run took, as a line.
pub fn usage_line(alloc: Global, usage: Usage) -> Result<String, AllocError> {
    let Usage { steps, stack, heap } = usage;
    format!(in alloc; "steps {steps}, most stack {stack} bytes, most heap {heap} bytes\n")
}
