// Registers for temporaries, by what each would save.

use crate::groups::{Groups, MOST_VISITS, group_of};
use crate::homes::Home;
use crate::lives::{Candidate, Lives, lives_of};
use crate::placement::{Placement, are_placed, count_of_routines};
use crate::placer::{EverySlot, Placer, add_slots};
use crate::seats::REGISTERS;
use std::alloc::Global;
use tac_code::code::{OutOfMemory, TacRoutine};
use tac_code::tac::Tac;

/// Scans each routine, and gives registers 0 to 11 to its temporaries, a pair at a time: the temporary and the free
/// register that save the most words at calls. A temporary that spans a call, or finds no register free, has the slot
/// of its number.
#[derive(Clone, Copy, Drop)]
pub struct Scan;

impl Placer for Scan {
    // What is chosen is tested like any other placement. Should it fail, which is known for no code, slots are given.
    fn place(&self, alloc: Global, tac: &Tac) -> Result<Placement, OutOfMemory> {
        let Findings { homes, groups } = scanned(alloc, tac)?;
        if are_placed(alloc, tac, homes.as_slice(), groups.as_slice())? {
            return Ok(Placement::of_homes(homes));
        }
        EverySlot.place(alloc, tac)
    }
}

// A register for a temporary, and the words that it saves.
#[derive(Clone, Copy)]
struct Choice {
    temporary: u32,
    register: u8,
    words: i64,
}

fn spares_more(words: i64, best: Option<Choice>) -> bool {
    match best {
        Some(choice) => choice.words < words,
        None => true,
    }
}

// The best choice for a temporary, in a register that none of those it meets holds.
fn best_for(candidate: &Candidate, held: &[u64; REGISTERS]) -> Option<Choice> {
    let mut best = None;
    for register in 0..12u8 {
        let words = candidate.votes[register as usize];
        if held[register as usize] & candidate.meets == 0 && spares_more(words, best) {
            best = Some(Choice {
                temporary: candidate.temporary,
                register,
                words,
            });
        }
    }
    best
}

// The best choice for each temporary that is alive somewhere, but not across a call.
fn bests_of(
    alloc: Global,
    candidates: &[Candidate],
    held: &[u64; REGISTERS],
) -> Result<Vec<Option<Choice>>, OutOfMemory> {
    let mut bests = Vec::with_capacity(alloc, candidates.len())?;
    for candidate in candidates {
        bests.push(if candidate.meets != 0 && !candidate.spans {
            best_for(candidate, held)
        } else {
            None
        })?;
    }
    Ok(bests)
}

fn best_of(bests: &[Option<Choice>]) -> Option<Choice> {
    let mut best = None;
    for choice in bests {
        if let Some(choice) = choice
            && spares_more(choice.words, best)
        {
            best = Some(*choice);
        }
    }
    best
}

// A temporary that got a register is no longer a candidate, and those that it meets choose again if they had chosen the
// same register.
fn choose_anew(
    bests: &mut [Option<Choice>],
    candidates: &[Candidate],
    held: &[u64; REGISTERS],
    given: Choice,
) {
    for at in 0..bests.len() {
        if let Some(choice) = bests[at]
            && at < candidates.len()
        {
            if choice.temporary == given.temporary {
                bests[at] = None;
            } else if choice.register == given.register
                && candidates[at].meets & group_of(given.temporary) != 0
            {
                bests[at] = best_for(&candidates[at], held);
            }
        }
    }
}

fn give(homes: &mut [Home], held: &mut [u64; REGISTERS], choice: Choice) {
    let index = choice.temporary as usize;
    let register = choice.register as usize;
    if index < homes.len() && register < REGISTERS {
        homes[index] = Home::Reg(choice.register);
        held[register] |= group_of(choice.temporary);
    }
}

// Gives registers in the order of what they save.
fn give_registers(
    alloc: Global,
    homes: &mut [Home],
    candidates: &[Candidate],
) -> Result<(), OutOfMemory> {
    let mut held = [0; REGISTERS];
    let mut bests = bests_of(alloc, candidates, &held)?;
    for _ in candidates {
        let Some(choice) = best_of(bests.as_slice()) else {
            return Ok(());
        };
        give(homes, &mut held, choice);
        choose_anew(bests.as_mut_slice(), candidates, &held, choice);
    }
    Ok(())
}

// What is chosen for all routines, and which temporaries were found alive where the jumps of each lead.
#[derive(Drop)]
struct Findings {
    homes: Vec<Home>,
    groups: Vec<Option<Groups>>,
}

// Adds a routine's homes, for which so many visits of blocks are left.
fn scan_routine(
    alloc: Global,
    scanned: &mut Findings,
    routine: &TacRoutine,
    left: &mut usize,
) -> Result<(), OutOfMemory> {
    let mut chosen = Vec::new(alloc);
    add_slots(&mut chosen, routine.temporaries)?;
    let mut found = None;
    if let Some(lives) = lives_of(alloc, routine, left)? {
        let Lives { candidates, groups } = lives;
        give_registers(alloc, chosen.as_mut_slice(), candidates.as_slice())?;
        found = Some(groups);
    }
    scanned.groups.push(found)?;
    scanned.homes.extend_from_slice(chosen.as_slice())
}

fn scanned(alloc: Global, tac: &Tac) -> Result<Findings, OutOfMemory> {
    let mut scanned = Findings {
        homes: Vec::new(alloc),
        groups: Vec::new(alloc),
    };
    let mut left = MOST_VISITS;
    for number in 0..count_of_routines(tac) {
        scan_routine(alloc, &mut scanned, tac.routine(number), &mut left)?;
    }
    Ok(scanned)
}
