//! Which of a routine's first temporaries are alive at the targets of jumps: a word for each place, however many there
//! are. Nothing is proved about it: what is chosen with it is tested.

use crate::flow::{Exit, exit_of};
use crate::walk::WALKS;
use std::alloc::Global;
use tac_code::code::{Base, Instruction, Operand, OutOfMemory};

/// The number of temporaries of a routine that are considered, those with the lowest numbers. A group of them is a
/// word, with a bit for each.
pub(crate) const CONSIDERED: u32 = 64;

/// How many blocks may be visited in all routines together until nothing new is found, but those of each routine at
/// least [`WALKS`] times: each loop within another takes one walk more.
pub(crate) const MOST_VISITS: usize = 1_048_576;

/// The group of one temporary, which is empty if the temporary isn't considered.
pub(crate) fn group_of(temporary: u32) -> u64 {
    if temporary < CONSIDERED {
        1u64.wrapping_shl(temporary)
    } else {
        0
    }
}

fn group_of_operand(operand: Operand) -> u64 {
    match operand {
        Operand::Temporary(t) => group_of(t),
        Operand::Number(_) => 0,
    }
}

fn group_of_base(base: Base) -> u64 {
    match base {
        Base::Temporary(t) => group_of(t),
        Base::Frame | Base::Scratch | Base::Program => 0,
    }
}

fn group_of_all(list: &[u32]) -> u64 {
    let mut group = 0;
    for temporary in list {
        group |= group_of(*temporary);
    }
    group
}

/// The groups of those that an instruction reads, and of what it writes.
#[derive(Clone, Copy)]
pub(crate) struct Effect {
    pub read: u64,
    pub written: u64,
}

// It writes one, and reads a group.
fn writes(to: u32, read: u64) -> Effect {
    Effect {
        read,
        written: group_of(to),
    }
}

// It only reads a group.
fn reads(read: u64) -> Effect {
    Effect { read, written: 0 }
}

/// What [`written`](crate::flow::written), `read_first`, `read_second` and `read_passed` find one by one, by a single
/// match, since this is asked at each step of each walk.
#[inline(always)]
pub(crate) fn effect_of(instruction: &Instruction) -> Effect {
    match instruction {
        Instruction::Literal { to, .. }
        | Instruction::Text { to, .. }
        | Instruction::RoutineValue { to, .. }
        | Instruction::Take { to }
        | Instruction::New { to, .. } => writes(*to, 0),
        Instruction::Copy { to, from } => writes(*to, group_of(*from)),
        Instruction::Return { from }
        | Instruction::Put { from }
        | Instruction::CheckRange { value: from, .. }
        | Instruction::CheckPointer { pointer: from, .. } => reads(group_of(*from)),
        Instruction::Arithmetic {
            to,
            left,
            right,
            ..
        }
        | Instruction::Bits {
            to,
            left,
            right,
            ..
        }
        | Instruction::Compare {
            to,
            left,
            right,
            ..
        } => writes(*to, group_of(*left) | group_of_operand(*right)),
        Instruction::Branch { left, right, .. } | Instruction::BranchBack { left, right, .. } => {
            reads(group_of(*left) | group_of_operand(*right))
        }
        Instruction::Offset { to, base, .. }
        | Instruction::Load { to, base, .. }
        | Instruction::LoadByte { to, base, .. } => writes(*to, group_of_base(*base)),
        Instruction::Store { base, from, .. } | Instruction::StoreByte { base, from, .. } => {
            reads(group_of_base(*base) | group_of(*from))
        }
        Instruction::Index {
            to,
            base,
            index,
            ..
        } => writes(*to, group_of_base(*base) | group_of(*index)),
        Instruction::Call { to, operands, .. } => writes(*to, group_of_all(operands.as_slice())),
        Instruction::CallValue {
            to,
            callee,
            operands,
            ..
        } => writes(*to, group_of(*callee) | group_of_all(operands.as_slice())),
        Instruction::Jump { .. }
        | Instruction::JumpBack { .. }
        | Instruction::Trap { .. }
        | Instruction::End => reads(0),
    }
}

/// Whether an instruction may lead elsewhere than to the next place. Most don't.
pub(crate) fn is_exit(instruction: &Instruction) -> bool {
    matches!(
        instruction,
        Instruction::Jump { .. }
            | Instruction::JumpBack { .. }
            | Instruction::Branch { .. }
            | Instruction::BranchBack { .. }
            | Instruction::Return { .. }
            | Instruction::Trap { .. }
            | Instruction::End
    )
}

/// Which are found alive at each place that a jump leads to.
#[derive(Drop)]
pub(crate) struct Groups {
    // of each place the number of its group
    numbers: Vec<u32>,
    // the first is that of the places that no jump leads to, and stays empty
    found: Vec<u64>,
    // whether a jump leads to its own place or to one before it: without such, one walk finds all
    has_loops: bool,
}

impl Groups {
    /// No temporary is alive at the targets of a body's jumps.
    pub(crate) fn new(alloc: Global, body: &[Instruction]) -> Result<Groups, OutOfMemory> {
        let mut groups = Groups {
            numbers: vec![in alloc; 0; body.len()]?,
            found: vec![in alloc; 0; 1]?,
            has_loops: false,
        };
        for (place, instruction) in body.iter().enumerate() {
            if is_exit(instruction)
                && let Some(exit) = exit_of(instruction, place, body.len())
                && let Some(target) = exit.target
            {
                groups.add(target)?;
                groups.has_loops |= target <= place;
            }
        }
        Ok(groups)
    }

    // A jump leads to a place.
    fn add(&mut self, place: usize) -> Result<(), OutOfMemory> {
        if place < self.numbers.len() && self.numbers[place] == 0 {
            self.numbers[place] = u32::try_from(self.found.len()).unwrap_or(0);
            self.found.push(0)?;
        }
        Ok(())
    }

    /// For each place the number of its group, which is 0 if no jump leads there.
    pub(crate) fn numbers(&self) -> &[u32] {
        &self.numbers
    }

    /// The groups by number.
    pub(crate) fn found(&self) -> &[u64] {
        &self.found
    }

    /// Whether there are loops.
    pub(crate) fn has_loops(&self) -> bool {
        self.has_loops
    }

    // The number of a place's group, or 0.
    fn number(&self, place: usize) -> u32 {
        if place < self.numbers.len() {
            self.numbers[place]
        } else {
            0
        }
    }

    // The group of a number.
    fn numbered(&self, number: u32) -> u64 {
        let index = number as usize;
        if index < self.found.len() {
            self.found[index]
        } else {
            0
        }
    }

    // Records which are alive at the places of a number; true if it isn't 0 and there are more than were found.
    fn record(&mut self, number: u32, alive: u64) -> bool {
        let index = number as usize;
        if index == 0 || index >= self.found.len() || alive & !self.found[index] == 0 {
            return false;
        }
        self.found[index] = alive;
        true
    }

    /// Those found at a place, if a jump leads there.
    pub(crate) fn get(&self, place: usize) -> u64 {
        self.numbered(self.number(place))
    }

    /// Records which are alive at a place, if a jump leads there.
    pub(crate) fn meet(&mut self, place: usize, alive: u64) {
        let _ = self.record(self.number(place), alive);
    }

    // Walks once over all blocks, from the end of a body to its beginning; true if more is found.
    fn walk(&mut self, blocks: &[Block]) -> bool {
        let mut alive = 0;
        let mut grew = false;
        for block in blocks.iter().rev() {
            alive = block.before(alive, self.numbered(block.target));
            grew |= self.record(block.number, alive);
        }
        grew
    }

    /// Those that are alive at the targets of a body's jumps, as far as the visits that are left suffice to find them.
    pub(crate) fn settled(
        alloc: Global,
        body: &[Instruction],
        left: &mut usize,
    ) -> Result<Groups, OutOfMemory> {
        let mut groups = Groups::new(alloc, body)?;
        let _ = groups.settle(alloc, body, left)?;
        Ok(groups)
    }

    /// Walks over a body's blocks until nothing new is found, and takes the visits from those that are left; false if
    /// the walks keep finding more. Without loops nothing is looked for, since one walk over the instructions finds all.
    pub(crate) fn settle(
        &mut self,
        alloc: Global,
        body: &[Instruction],
        left: &mut usize,
    ) -> Result<bool, OutOfMemory> {
        if !self.has_loops {
            return Ok(true);
        }
        let blocks = blocks_of(alloc, self, body)?;
        let walks = left.checked_div(blocks.len()).unwrap_or(0);
        for _ in 0..walks.max(WALKS as usize) {
            *left = left.saturating_sub(blocks.len());
            if !self.walk(blocks.as_slice()) {
                return Ok(true);
            }
        }
        Ok(false)
    }
}

/// Instructions that are executed one after another: jumps lead only to the first of them, and only the last may jump.
/// What walks need of them is all here, since going to the instructions themselves takes most of a walk's time.
#[derive(Clone, Copy)]
struct Block {
    // the number of the group at the first of them
    number: u32,
    // and of that at the target of the last, if it jumps
    target: u32,
    // whether the last may lead to the next place
    falls: bool,
    // those read that are not written before
    read: u64,
    written: u64,
}

impl Block {
    fn new(number: u32) -> Block {
        Block {
            number,
            target: 0,
            falls: true,
            read: 0,
            written: 0,
        }
    }

    fn add(&mut self, instruction: &Instruction) {
        let effect = effect_of(instruction);
        self.read |= effect.read & !self.written;
        self.written |= effect.written;
    }

    // The last of them leads elsewhere than to the next place.
    fn end(&mut self, groups: &Groups, exit: Option<Exit>) {
        self.falls = false;
        if let Some(exit) = exit {
            self.falls = exit.falls;
            if let Some(target) = exit.target {
                self.target = groups.number(target);
            }
        }
    }

    // Those alive before the block, of those alive at the next place and at the target.
    fn before(&self, next: u64, target: u64) -> u64 {
        let behind = if self.falls { next | target } else { target };
        behind & !self.written | self.read
    }
}

// The blocks of a body, in order.
fn blocks_of(
    alloc: Global,
    groups: &Groups,
    body: &[Instruction],
) -> Result<Vec<Block>, OutOfMemory> {
    let mut blocks = Vec::new(alloc);
    let mut block = Block::new(groups.number(0));
    let mut first = 0;
    for (place, instruction) in body.iter().enumerate() {
        if first < place && groups.number(place) != 0 {
            blocks.push(block)?;
            block = Block::new(groups.number(place));
            first = place;
        }
        block.add(instruction);
        if is_exit(instruction) {
            block.end(groups, exit_of(instruction, place, body.len()));
            blocks.push(block)?;
            first = place.saturating_add(1);
            block = Block::new(groups.number(first));
        }
    }
    if first < body.len() {
        blocks.push(block)?;
    }
    Ok(blocks)
}
