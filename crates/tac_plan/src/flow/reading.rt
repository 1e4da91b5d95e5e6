// What an instruction reads, and its result.

use crate::flow::{Kind, NO_WAY, Way};
use crate::sets::{CONSIDERED, set_of};
use tac_code::code::{Base, Instruction, Operand};
use tac_pass::operands::own_word;

fn set_of_operand(operand: Operand) -> u64 {
    match operand {
        Operand::Temporary(temporary) => set_of(temporary),
        Operand::Number(_) => 0,
    }
}

fn set_of_base(base: Base) -> u64 {
    match base {
        Base::Temporary(temporary) => set_of(temporary),
        _ => 0,
    }
}

fn set_of_list(list: &[u32]) -> u64 {
    let mut set = 0;
    for temporary in list {
        set |= set_of(*temporary);
    }
    set
}

fn give(way: &mut Way, to: u32, reads: u64, kind: Kind) {
    way.writes = set_of(to);
    way.reads = reads;
    way.kind = kind;
}

fn lead(way: &mut Way, reads: u64, target: Option<usize>, falls: bool) {
    way.reads = reads;
    way.falls = falls;
    if let Some(target) = target {
        way.target = target;
    }
}

fn place_ahead(place: usize, forward: u64) -> Option<usize> {
    place.checked_add(1)?.checked_add(forward as usize)
}

fn place_behind(place: usize, back: u64) -> Option<usize> {
    place.checked_sub(back as usize)
}

// A load or a store, maybe of a word.
fn read_memory(way: &mut Way, base: Base, offset: u32) {
    way.kind = Kind::Memory;
    if let Some(word) = own_word(base, offset) {
        way.kind = Kind::Own;
        way.word = word;
    }
}

fn read_turn(way: &mut Way, instruction: &Instruction, place: usize) {
    match instruction {
        Instruction::Jump { forward } => lead(way, 0, place_ahead(place, *forward), false),
        Instruction::JumpBack { back } => lead(way, 0, place_behind(place, *back), false),
        Instruction::Branch {
            left,
            right,
            forward,
            ..
        } => {
            let reads = set_of(*left) | set_of_operand(*right);
            lead(way, reads, place_ahead(place, *forward), true);
        }
        Instruction::BranchBack {
            left,
            right,
            back,
            ..
        } => {
            let reads = set_of(*left) | set_of_operand(*right);
            lead(way, reads, place_behind(place, *back), true);
        }
        Instruction::Return { from } => lead(way, set_of(*from), None, false),
        _ => lead(way, 0, None, false),
    }
}

fn read_call(way: &mut Way, instruction: &Instruction) {
    match instruction {
        Instruction::Call { to, operands, .. } => {
            give(way, *to, set_of_list(operands.as_slice()), Kind::Call);
        }
        Instruction::CallValue {
            to,
            callee,
            operands,
            ..
        } => {
            let reads = set_of(*callee) | set_of_list(operands.as_slice());
            give(way, *to, reads, Kind::Call);
        }
        _ => {}
    }
}

// What an instruction reads and writes, and where it leads, if nothing was known yet.
pub(super) fn read(way: &mut Way, instruction: &Instruction, place: usize) {
    match instruction {
        Instruction::Literal { to, .. }
        | Instruction::Text { to, .. }
        | Instruction::RoutineValue { to, .. }
        | Instruction::Take { to }
        | Instruction::New { to, .. } => way.writes = set_of(*to),
        Instruction::Copy { to, from } => {
            give(way, *to, set_of(*from), Kind::Address);
            way.copies = true;
        }
        Instruction::Arithmetic {
            to,
            left,
            right,
            ..
        }
        | Instruction::Bits {
            to,
            left,
            right,
            ..
        }
        | Instruction::Compare {
            to,
            left,
            right,
            ..
        } => {
            way.writes = set_of(*to);
            way.reads = set_of(*left) | set_of_operand(*right);
        }
        Instruction::CheckRange { value, .. } => way.reads = set_of(*value),
        Instruction::Put { from } => way.reads = set_of(*from),
        Instruction::CheckPointer { pointer, .. } => {
            way.reads = set_of(*pointer);
            way.kind = Kind::Address;
        }
        Instruction::Offset { to, base, .. } => {
            give(way, *to, set_of_base(*base), Kind::Address);
        }
        Instruction::Index {
            to,
            base,
            index,
            ..
        } => give(way, *to, set_of_base(*base) | set_of(*index), Kind::Address),
        Instruction::Load { to, base, offset } => {
            give(way, *to, set_of_base(*base), Kind::Memory);
            read_memory(way, *base, *offset);
        }
        Instruction::LoadByte { to, base, .. } => {
            give(way, *to, set_of_base(*base), Kind::Memory);
        }
        Instruction::Store { base, offset, from } => {
            way.reads = set_of_base(*base) | set_of(*from);
            read_memory(way, *base, *offset);
        }
        Instruction::StoreByte { base, from, .. } => {
            way.reads = set_of_base(*base) | set_of(*from);
            way.kind = Kind::Memory;
        }
        Instruction::Call { .. } | Instruction::CallValue { .. } => read_call(way, instruction),
        _ => read_turn(way, instruction, place),
    }
}

/// How many temporaries the instructions need: one more than the highest that they name.
pub fn named_in(body: &[Instruction]) -> u32 {
    let mut named = 0u64;
    for instruction in body {
        let mut way = NO_WAY;
        read(&mut way, instruction, 0);
        named |= way.reads | way.writes;
    }
    CONSIDERED.saturating_sub(named.leading_zeros())
}
