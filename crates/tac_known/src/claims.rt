// What may be claimed at the targets of jumps in a body. Nothing is proved about the choice: the walk tests it.

mod bounds;
mod meetings;

use crate::claims::bounds::{Bounds, bounds_of, note_compared};
use crate::claims::meetings::{Meeting, begin_all_again, meetings_of, settle_all};
use crate::kind::Kinds;
use crate::lean::{fall, orders_fall};
use crate::order::{Orders, no_orders, orders_where, sharp};
use std::alloc::Global;
use tac_code::code::{Instruction, OutOfMemory};

// How many sweeps over a body there may be; six were enough for all bodies that were tried.
const SWEEPS: usize = 10;

// How many places a body may have: the sweeps over a longer one might take longer than everything else.
const MOST: usize = 1024;

fn ahead(place: usize, distance: u64) -> usize {
    (place as u64).saturating_add(1).saturating_add(distance) as usize
}

fn back(place: usize, distance: u64) -> usize {
    (place as u64).saturating_sub(distance) as usize
}

// Where an instruction jumps to.
fn target(place: usize, instruction: &Instruction) -> Option<usize> {
    match instruction {
        Instruction::Jump { forward } => Some(ahead(place, *forward)),
        Instruction::Branch { forward, .. } => Some(ahead(place, *forward)),
        Instruction::JumpBack { back: distance } => Some(back(place, *distance)),
        Instruction::BranchBack { back: distance, .. } => Some(back(place, *distance)),
        _ => None,
    }
}

// Whether an instruction goes on to the next place.
fn goes_on(instruction: &Instruction) -> bool {
    match instruction {
        Instruction::Jump { .. }
        | Instruction::JumpBack { .. }
        | Instruction::Return { .. }
        | Instruction::Trap { .. }
        | Instruction::End => false,
        _ => true,
    }
}

// What goes on to the next place, and what goes to the target of the instruction.
fn pass_by(
    meetings: &mut [Option<Meeting>],
    bounds: &mut Bounds,
    kinds: &mut Kinds,
    orders: Orders,
    place: usize,
    instruction: &Instruction,
) -> Result<(), OutOfMemory> {
    let Some(there) = target(place, instruction) else {
        fall(kinds, orders, instruction);
        return Ok(());
    };
    if there >= meetings.len() {
        return Ok(());
    }
    let Some(meeting) = &mut meetings[there] else {
        return Ok(());
    };
    match instruction {
        Instruction::Branch {
            relation,
            left,
            right,
            ..
        }
        | Instruction::BranchBack {
            relation,
            left,
            right,
            ..
        } => {
            note_compared(bounds, kinds, *relation, *left, *right)?;
            let was = kinds.kind(*left);
            kinds.relate(sharp(orders, *relation, *left, *right), *left, *right);
            meeting.arrive(kinds, orders_where(orders, *relation, *left, *right));
            kinds.learn(*left, was);
            fall(kinds, orders, instruction);
        }
        _ => meeting.arrive(kinds, orders),
    }
    Ok(())
}

fn sweep(
    alloc: Global,
    meetings: &mut [Option<Meeting>],
    bounds: &mut Bounds,
    temporaries: usize,
    body: &[Instruction],
) -> Result<(), OutOfMemory> {
    let mut kinds = Kinds::new(alloc, temporaries)?;
    let mut orders = no_orders();
    let mut is_reached = true;
    for place in 0..body.len() {
        if place < meetings.len()
            && let Some(meeting) = &mut meetings[place]
        {
            if is_reached {
                meeting.arrive(&kinds, orders);
            }
            is_reached = meeting.enter(&mut kinds);
            orders = meeting.orders();
        }
        if is_reached {
            let next = orders_fall(&kinds, orders, &body[place]);
            pass_by(meetings, bounds, &mut kinds, orders, place, &body[place])?;
            orders = next;
        }
        is_reached = is_reached && goes_on(&body[place]);
    }
    Ok(())
}

/// What may be claimed at the targets of jumps, by the places of a body: about temporaries, and about their order.
#[derive(Drop)]
pub struct Claimed {
    pub kinds: Vec<Option<Kinds>>,
    pub orders: Vec<Option<Orders>>,
}

impl Claimed {
    fn new(alloc: Global, count: usize) -> Result<Claimed, OutOfMemory> {
        Ok(Claimed {
            kinds: Vec::with_capacity(alloc, count)?,
            orders: Vec::with_capacity(alloc, count)?,
        })
    }
}

/// What may be claimed in a body. `None` if it isn't found in a few sweeps, or the body is too long.
pub fn claims(
    alloc: Global,
    temporaries: usize,
    body: &[Instruction],
) -> Result<Option<Claimed>, OutOfMemory> {
    if body.len() > MOST {
        return Ok(None);
    }
    let mut meetings = meetings_of(alloc, temporaries, body)?;
    let mut bounds = bounds_of(alloc, temporaries, body)?;
    let mut is_settled = false;
    for _ in 0..SWEEPS {
        if !is_settled {
            sweep(
                alloc,
                meetings.as_mut_slice(),
                &mut bounds,
                temporaries,
                body,
            )?;
            is_settled = !settle_all(alloc, meetings.as_mut_slice(), &bounds)?;
            begin_all_again(meetings.as_mut_slice(), is_settled);
        }
    }
    if !is_settled {
        return Ok(None);
    }
    sweep(
        alloc,
        meetings.as_mut_slice(),
        &mut bounds,
        temporaries,
        body,
    )?;
    let mut claims = Claimed::new(alloc, body.len())?;
    for meeting in meetings {
        claims.add(alloc, temporaries, meeting)?;
    }
    Ok(Some(claims))
}
