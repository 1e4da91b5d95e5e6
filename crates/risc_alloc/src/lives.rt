// Which of a routine's temporaries are alive together, and what each register would save. Nothing is proved about it:
// what is chosen by it is tested.

use crate::flow::{exit_of, is_call, read_passed};
use crate::groups::{CONSIDERED, Effect, Groups, effect_of, group_of, is_exit};
use crate::seats::REGISTERS;
use std::alloc::Global;
use tac_code::code::{Instruction, OutOfMemory, TacRoutine};

/// A temporary that may get a register.
#[derive(Clone, Copy)]
pub(crate) struct Candidate {
    pub temporary: u32,
    /// Those that are alive where it is alive or written, including itself. No other of them may share a register with
    /// it.
    pub meets: u64,
    /// Whether it is alive across a call.
    pub spans: bool,
    /// The words that each register saves, weighted by a guess of how often they are executed; negative for those that
    /// it costs.
    pub votes: [i64; REGISTERS],
}

// How many operands come in registers.
const CARRIED: usize = 8;

// What a parameter in its own register saves: a store and a load at each entry of the routine, which happens somewhat
// more often than all of its places are executed.
const ENTERED: i64 = 3;

// How many nested loops around a place are counted, since a product over all would soon be too large.
const MOST_LOOPS: u32 = 3;

fn unmet(alloc: Global, temporaries: u32) -> Result<Vec<Candidate>, OutOfMemory> {
    let mut candidates = Vec::new(alloc);
    for temporary in 0..temporaries {
        if temporary < CONSIDERED {
            candidates.push(Candidate {
                temporary,
                meets: 0,
                spans: false,
                votes: [0; REGISTERS],
            })?;
        }
    }
    Ok(candidates)
}

// Each of a group meets some, and is alive across a call if `spans` says so.
fn mark(candidates: &mut [Candidate], group: u64, meets: u64, spans: bool) {
    let mut rest = group;
    for _ in 0..CONSIDERED {
        if rest == 0 {
            return;
        }
        let index = rest.trailing_zeros() as usize;
        if index < candidates.len() {
            let candidate = &mut candidates[index];
            candidate.meets |= meets;
            candidate.spans |= spans;
        }
        rest &= rest.wrapping_sub(1);
    }
}

// Whoever meets another is met by it.
fn meet_back(candidates: &mut [Candidate]) {
    for index in 0..candidates.len() {
        let candidate = candidates[index];
        mark(
            candidates,
            candidate.meets,
            group_of(candidate.temporary),
            false,
        );
    }
}

// All of a group are alive across a call.
fn span(candidates: &mut [Candidate], group: u64) {
    mark(candidates, group, 0, true);
}

// A register saves a temporary this many words.
fn vote(candidates: &mut [Candidate], temporary: u32, register: usize, words: i64) {
    let index = temporary as usize;
    if index < candidates.len() && register < REGISTERS {
        let candidate = &mut candidates[index];
        candidate.votes[register] = candidate.votes[register].saturating_add(words);
    }
}

// Operand j, of `carried` that are passed in registers, saves a word in register j. In a later register it costs one
// more word, since that one is taken before its turn.
fn vote_operand(
    candidates: &mut [Candidate],
    temporary: u32,
    j: usize,
    carried: usize,
    words: i64,
) {
    vote(candidates, temporary, j, words);
    for register in j..carried {
        if register != j {
            vote(candidates, temporary, register, words.wrapping_neg());
        }
    }
}

fn vote_operands(candidates: &mut [Candidate], list: &[u32], words: i64) {
    let carried = list.len().min(CARRIED);
    for (j, temporary) in list.iter().enumerate() {
        if j < carried {
            vote_operand(candidates, *temporary, j, carried, words);
        }
    }
}

// A returned value goes in register 0, and so does the result of a call.
fn vote_result(candidates: &mut [Candidate], instruction: &Instruction, words: i64) {
    match instruction {
        Instruction::Return { from } => vote(candidates, *from, 0, words),
        Instruction::Call { to, .. } | Instruction::CallValue { to, .. } => vote(
            candidates, *to, 0, words,
        ),
        _ => {}
    }
}

// Only these have an operand or a result in a register of their own.
fn is_voter(instruction: &Instruction) -> bool {
    matches!(
        instruction,
        Instruction::Call { .. } | Instruction::CallValue { .. } | Instruction::Return { .. }
    )
}

fn vote_parameters(candidates: &mut [Candidate], parameters: u32) {
    for parameter in 0..CARRIED as u32 {
        if parameter < parameters {
            vote(candidates, parameter, parameter as usize, ENTERED);
        }
    }
}

/// Where a walk over a body is, from its end to its beginning.
#[derive(Drop)]
struct Survey {
    candidates: Vec<Candidate>,
    // which are alive there
    alive: u64,
    // which met last: of any two among them, one is marked as meeting the other
    met: u64,
    // how many loops are around
    loops: u32,
    // how many loops begin at each place, if there are loops
    begins: Vec<u32>,
}

impl Survey {
    fn new(alloc: Global, routine: &TacRoutine, groups: &Groups) -> Result<Survey, OutOfMemory> {
        let places = routine.body.as_slice().len();
        Ok(Survey {
            candidates: unmet(alloc, routine.temporaries)?,
            alive: 0,
            met: 0,
            loops: 0,
            begins: vec![in alloc; 0; if groups.has_loops() { places } else { 0 }]?,
        })
    }

    // A jump to a place, which ends a loop if it isn't one ahead.
    fn end_loop(&mut self, place: usize, target: usize) {
        if target <= place && target < self.begins.len() {
            self.begins[target] = self.begins[target].saturating_add(1);
            self.loops = self.loops.saturating_add(1);
        }
    }

    fn begin_loops(&mut self, place: usize) {
        if place < self.begins.len() {
            self.loops = self.loops.saturating_sub(self.begins[place]);
        }
    }

    // From what is alive at the next place to what is alive after an instruction.
    fn go_behind(
        &mut self,
        groups: &Groups,
        instruction: &Instruction,
        place: usize,
        places: usize,
    ) {
        if !is_exit(instruction) {
            return;
        }
        let Some(exit) = exit_of(instruction, place, places) else {
            return;
        };
        if !exit.falls {
            self.alive = 0;
        }
        if let Some(target) = exit.target {
            self.end_loop(place, target);
            self.alive |= groups.get(target);
        }
    }

    // All of a group are alive together. Only those that didn't meet last are marked.
    fn meet(&mut self, group: u64) {
        let fresh = group & !self.met;
        if fresh != 0 {
            self.met = group;
            mark(self.candidates.as_mut_slice(), fresh, group, false);
        }
    }

    // Each loop multiplies executions by four.
    fn weight(&self) -> i64 {
        1i64.wrapping_shl(self.loops.min(MOST_LOOPS).wrapping_mul(2))
    }

    // What a call or a return tells of registers; `across` are alive across a call.
    fn vote(&mut self, instruction: &Instruction, across: u64) {
        let weight = self.weight();
        let candidates = self.candidates.as_mut_slice();
        if is_call(instruction) {
            span(candidates, across);
        }
        vote_result(candidates, instruction, weight);
        vote_operands(candidates, read_passed(instruction), weight);
    }

    fn go_before(&mut self, instruction: &Instruction) {
        let Effect { read, written } = effect_of(instruction);
        self.meet(self.alive | written);
        if is_voter(instruction) {
            self.vote(instruction, self.alive & !written);
        }
        self.alive = self.alive & !written | read;
        self.meet(self.alive);
    }
}

// All parameters arrive at the entry, along with what is alive there.
fn enter(survey: &mut Survey, parameters: u32) {
    let mut group = survey.alive;
    for parameter in 0..CONSIDERED {
        if parameter < parameters {
            group |= group_of(parameter);
        }
    }
    let candidates = survey.candidates.as_mut_slice();
    mark(candidates, group, group, false);
    meet_back(candidates);
    vote_parameters(candidates, parameters);
}

// One walk from the end of a body to its beginning. Without loops it finds what is alive at the targets of jumps, too.
fn surveyed(
    alloc: Global,
    routine: &TacRoutine,
    groups: &mut Groups,
) -> Result<Survey, OutOfMemory> {
    let mut survey = Survey::new(alloc, routine, groups)?;
    let body = routine.body.as_slice();
    for place in (0..body.len()).rev() {
        let instruction = &body[place];
        survey.go_behind(groups, instruction, place, body.len());
        survey.go_before(instruction);
        groups.meet(place, survey.alive);
        survey.begin_loops(place);
    }
    enter(&mut survey, routine.parameters);
    Ok(survey)
}

/// A routine's temporaries that may get registers, in their order, and which are alive at the targets of jumps.
#[derive(Drop)]
pub(crate) struct Lives {
    pub candidates: Vec<Candidate>,
    pub groups: Groups,
}

/// What is found for a routine, if so many visits of blocks are left. `None` if the walks keep finding more.
pub(crate) fn lives_of(
    alloc: Global,
    routine: &TacRoutine,
    left: &mut usize,
) -> Result<Option<Lives>, OutOfMemory> {
    let body = routine.body.as_slice();
    let mut groups = Groups::new(alloc, body)?;
    if !groups.settle(alloc, body, left)? {
        return Ok(None);
    }
    let survey = surveyed(alloc, routine, &mut groups)?;
    let candidates = survey.candidates;
    Ok(Some(Lives { candidates, groups }))
}
