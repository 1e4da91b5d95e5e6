//! Which words of the code store and load.

use risc_word::{Condition, Instr, Width, decode};

/// What a word does to memory. Registers are given by their numbers.
#[derive(Clone, Copy)]
pub enum Access {
    Nothing,
    /// It only jumps elsewhere.
    Go,
    Load {
        to: u8,
        base: u8,
        offset: i32,
    },
    Store {
        from: u8,
        base: u8,
        offset: i32,
        bytes: u32,
    },
}

fn bytes_of(width: Width) -> u32 {
    match width {
        Width::Word => 4,
        Width::Byte => 1,
    }
}

// What a branch does: one that comes back later, or depends on a condition, does more than jump elsewhere.
fn go_of(condition: Condition, link: bool) -> Access {
    match condition {
        Condition::Always if !link => Access::Go,
        _ => Access::Nothing,
    }
}

fn access_of(instr: Instr) -> Access {
    match instr {
        Instr::Load {
            width: _,
            to,
            base,
            offset,
        } => Access::Load {
            to: to.number(),
            base: base.number(),
            offset: offset.value(),
        },
        Instr::Store {
            width,
            from,
            base,
            offset,
        } => Access::Store {
            from: from.number(),
            base: base.number(),
            offset: offset.value(),
            bytes: bytes_of(width),
        },
        Instr::Branch {
            condition,
            link,
            target: _,
        } => go_of(condition, link),
        _ => Access::Nothing,
    }
}

/// What a word does.
pub fn access_in(word: u32) -> Access {
    match decode(word) {
        Some(instr) => access_of(instr),
        None => Access::Nothing,
    }
}
