// A plan by which copies are left out, whose source holds what they give as long as it is used, and numbers that
// nothing uses. Nothing is proved of it: what is chosen is tested.

use crate::flow::{Flow, NONE, Way, lives_at, way_at};
use crate::sets::{has, short};
use std::alloc::Global;
use tac_code::code::{Instruction, OutOfMemory};
use tac_pass::plan::{Plan, Step};
use tac_pass::table::{Action, Known, Reach, Rows};

// Within how many places the result of a copy may be used.
const FAR: usize = 48;

// Whether nothing uses the result of a copy after the next places, and the source holds it that long.
fn is_vain(ways: &[Way], place: usize) -> bool {
    let copy = way_at(ways, place);
    if copy.reads == copy.writes {
        return true;
    }
    let first = place.saturating_add(1);
    for next in first..first.saturating_add(FAR) {
        if lives_at(ways, next) & copy.writes == 0 {
            return true;
        }
        let way = way_at(ways, next);
        if way.is_join() || (way.target != NONE && lives_at(ways, way.target) & copy.writes != 0) {
            return false;
        }
        if !way.falls || way.writes == copy.writes {
            return true;
        }
        if way.calls() || way.writes == copy.reads {
            return lives_at(ways, next.saturating_add(1)) & copy.writes == 0;
        }
    }
    false
}

// Each temporary in itself, as far as it is alive.
fn in_itself(
    alloc: Global,
    temporaries: u32,
    lives: u64,
    reach: Reach,
) -> Result<Rows, OutOfMemory> {
    let mut list = Vec::with_capacity(alloc, temporaries as usize)?;
    for temporary in 0..temporaries {
        list.push(Known {
            holder: if has(lives, temporary) {
                Some(temporary)
            } else {
                None
            },
            reach,
        })?;
    }
    Ok(Rows::new(list, Vec::new(alloc)))
}

fn action_of(ways: &[Way], place: usize, instruction: &Instruction) -> Action {
    let writes = way_at(ways, place).writes;
    let is_spared = match instruction {
        Instruction::Copy { .. } => is_vain(ways, place),
        Instruction::CheckRange { error, .. } => *error == 0,
        Instruction::CheckPointer { error, .. } => *error == 0,
        Instruction::Literal { .. } => lives_at(ways, place.saturating_add(1)) & writes == 0,
        _ => false,
    };
    if is_spared {
        Action::Spare
    } else if writes == 0 {
        Action::Keep(0)
    } else {
        Action::Keep(writes.trailing_zeros())
    }
}

/// A plan for a body of `temporaries` temporaries, all of which are considered.
pub fn spares_of(
    alloc: Global,
    temporaries: u32,
    body: &[Instruction],
) -> Result<Option<Plan>, OutOfMemory> {
    let Some(flow) = Flow::of(alloc, body)? else {
        return Ok(None);
    };
    let ways = flow.ways.as_slice();
    let mut steps = Vec::with_capacity(alloc, body.len())?;
    for (place, instruction) in body.iter().enumerate() {
        let way = way_at(ways, place);
        let join = if way.is_join() {
            Some(in_itself(alloc, temporaries, way.lives, Reach::Anywhere)?)
        } else {
            None
        };
        steps.push(Step {
            join,
            puts: Vec::new(alloc),
            action: action_of(ways, place, instruction),
        })?;
    }
    Ok(Some(Plan {
        minded: Vec::new(alloc),
        begin: in_itself(alloc, temporaries, u64::MAX, Reach::Within(0, 0))?,
        steps,
    }))
}
