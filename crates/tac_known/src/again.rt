// Addresses of components, sums and words that are computed or loaded more than once.

mod holders;
mod jumps;
mod marks;
mod same;

ghost use Rattle.std.specs.Prelude.{◌≡◌, true, IsTrue, IfOk};
ghost use Rattle.tac_known.specs.Again as specs;
ghost use Rattle.tac_known.specs.Walk.{goes_on_to_next};

use crate::again::holders::{lasting, no_facts};
use crate::again::jumps::at_begin;
use crate::again::marks::{Mark, forward_of, leads_to_marks, mark_at, marks_of};
use crate::walk::goes_on;
pub use holders::holder_by;
use std::alloc::Global;
use tac_code::code::{Base, Instruction, Operand, Operator, OutOfMemory};

/// A component of an array, whose address a temporary holds.
#[derive(Clone, Copy)]
pub struct Component {
    /// What its address is counted from.
    pub base: Base,
    /// The temporary that holds the index.
    pub index: u32,
    /// The lowest index.
    pub low: i32,
    /// The highest index.
    pub high: i32,
    /// The bytes of a component.
    pub width: u32,
    /// The temporary that holds the address.
    pub holder: u32,
}

/// A sum or a difference, which a temporary holds.
#[derive(Clone, Copy)]
pub struct Sum {
    /// Whether it is a sum or a difference.
    pub operator: Operator,
    /// The temporary that holds the left operand.
    pub left: u32,
    /// The right operand.
    pub right: Operand,
    /// The error if it is not an integer.
    pub error: u8,
    /// The temporary that holds the sum.
    pub holder: u32,
}

/// A word of memory, which a temporary holds.
#[derive(Clone, Copy)]
pub struct Word {
    /// What its address is counted from.
    pub base: Base,
    /// This many bytes from there.
    pub offset: u32,
    /// The temporary that holds what it holds.
    pub holder: u32,
}

/// What is known of a temporary.
#[derive(Clone, Copy)]
pub enum Fact {
    /// Nothing about any.
    Empty,
    /// It holds the address of a component.
    Pointed(Component),
    /// It holds a sum.
    Summed(Sum),
    /// It holds the content of a word of memory.
    Loaded(Word),
}

/// What is known.
#[derive(Clone, Copy)]
pub struct Facts {
    pub first: Fact,
    pub second: Fact,
    pub third: Fact,
    pub fourth: Fact,
    pub fifth: Fact,
    pub sixth: Fact,
    pub seventh: Fact,
    pub eighth: Fact,
    pub ninth: Fact,
    pub tenth: Fact,
    pub eleventh: Fact,
    pub twelfth: Fact,
}

/// What is known at a forward jump that is the only one to its target.
#[derive(Clone, Copy)]
pub struct Later {
    /// The place of the jump.
    pub from: usize,
    pub facts: Facts,
}

/// The jumps that were passed last.
#[derive(Clone, Copy)]
pub struct Waiting {
    pub first: Later,
    pub second: Later,
    pub third: Later,
    pub fourth: Later,
}

/// What is known at a place, and for places further on.
#[derive(Clone, Copy)]
pub struct Standing {
    pub facts: Facts,
    pub waiting: Waiting,
}

/// What an instruction computes, if that is an address, a sum or a word.
pub fn given_by(instruction: &Instruction) -> Fact
    ensures { result ≡ specs.given_by instruction.now }
{
    match instruction {
        Instruction::Index {
            to,
            base,
            index,
            low,
            high,
            width,
            ..
        } => Fact::Pointed(Component {
            base: *base,
            index: *index,
            low: *low,
            high: *high,
            width: *width,
            holder: *to,
        }),
        Instruction::Arithmetic {
            operator,
            to,
            left,
            right,
            error,
            ..
        } => Fact::Summed(Sum {
            operator: *operator,
            left: *left,
            right: *right,
            error: *error,
            holder: *to,
        }),
        Instruction::Load { to, base, offset } => Fact::Loaded(Word {
            base: *base,
            offset: *offset,
            holder: *to,
        }),
        _ => Fact::Empty,
    }
}

// A copy of the temporary that holds it.
fn copy_of(given: Fact, holder: Option<u32>) -> Option<Instruction>
    ensures { result ≡ specs.copy_of given holder }
{
    let from = holder?;
    match given {
        Fact::Empty => None,
        Fact::Pointed(component) => Some(Instruction::Copy {
            to: component.holder,
            from,
        }),
        Fact::Summed(sum) => Some(Instruction::Copy {
            to: sum.holder,
            from,
        }),
        Fact::Loaded(word) => Some(Instruction::Copy {
            to: word.holder,
            from,
        }),
    }
}

// Makes an instruction that computes an address, a sum or a word a copy, if a temporary already holds that.
fn take_copy(given: Fact, holder: Option<u32>, instruction: &mut Instruction)
    ensures { instruction.new ≡ specs.or_itself (specs.copy_of given holder) instruction.old }
{
    if let Some(copy) = copy_of(given, holder) {
        *instruction = copy;
    }
}

// After an instruction that puts this into a temporary: if the temporary already holds it, nothing changes.
fn go_behind(facts: &mut Facts, to: u32, given: Fact)
    ensures { facts.new ≡ specs.after_given facts.old to given }
{
    match facts.holder_of(given) {
        Some(holder) => {
            if holder != to {
                facts.forget(to);
            }
        }
        None => {
            facts.forget(to);
            facts.add(lasting(given));
        }
    }
}

// What is known after an instruction that goes on to the next place.
fn go_over(facts: &mut Facts, instruction: &Instruction)
    ensures { facts.new ≡ specs.held_behind facts.old instruction.now }
{
    match instruction {
        Instruction::Index { to, .. }
        | Instruction::Arithmetic { to, .. }
        | Instruction::Load { to, .. } => {
            go_behind(facts, *to, given_by(instruction));
        }
        Instruction::Literal { to, .. }
        | Instruction::Copy { to, .. }
        | Instruction::Bits { to, .. }
        | Instruction::Compare { to, .. }
        | Instruction::Text { to, .. }
        | Instruction::Offset { to, .. }
        | Instruction::RoutineValue { to, .. }
        | Instruction::LoadByte { to, .. }
        | Instruction::Take { to } => facts.forget(*to),
        Instruction::New { to, .. } => {
            facts.lose_words();
            facts.forget(*to);
        }
        Instruction::Store { .. } | Instruction::StoreByte { .. } => facts.lose_words(),
        Instruction::CheckRange { .. }
        | Instruction::CheckPointer { .. }
        | Instruction::Put { .. }
        | Instruction::Branch { .. }
        | Instruction::BranchBack { .. } => {}
        _ => *facts = no_facts(),
    }
}

// What is known at the next place, according to the mark there.
fn enter(mark: Mark, waiting: &Waiting, facts: &mut Facts, instruction: &Instruction)
    ensures { facts.new ≡ specs.next_facts mark waiting.now (goes_on_to_next instruction.now)
        (specs.held_behind facts.old instruction.now) }
{
    match mark {
        Mark::Clear => go_over(facts, instruction),
        Mark::Often => *facts = no_facts(),
        Mark::Once(from) => {
            *facts = if goes_on(instruction) {
                no_facts()
            } else {
                waiting.facts_from(from)
            };
        }
    }
}

// Goes on to the next place. False if a jump leads nowhere.
fn go_on(marks: &[Mark], standing: &mut Standing, place: usize, instruction: &Instruction) -> bool
    ensures { IsTrue result → standing.new ≡ specs.step marks.now place instruction.now standing.old }
{
    let Some(next) = place.checked_add(1) else {
        return false;
    };
    let forward = forward_of(instruction);
    if !standing
        .waiting
        .wait(marks, place, forward, &standing.facts)
    {
        return false;
    }
    let mark = mark_at(marks, next);
    enter(mark, &standing.waiting, &mut standing.facts, instruction);
    true
}

// One place; false if it jumps to a place whose mark doesn't allow it.
fn again_place(
    marks: &[Mark],
    standing: &mut Standing,
    place: usize,
    instruction: &mut Instruction,
) -> bool
    ensures well { IsTrue result → specs.leads_to_marks marks.now place instruction.old ≡ true }
    ensures made { IsTrue result → instruction.new ≡ specs.again standing.old.facts instruction.old }
    ensures taken { IsTrue result → standing.new ≡ specs.step marks.now place instruction.old standing.old }
{
    if !leads_to_marks(marks, place, instruction) {
        return false;
    }
    let given = given_by(instruction);
    let holder = standing.facts.holder_of(given);
    if !go_on(marks, standing, place, instruction) {
        return false;
    }
    take_copy(given, holder, instruction);
    true
}

/// Replaces computations and loads of addresses, sums and words that temporaries already hold by copies. If it returns
/// false, the body is of no use.
pub fn again_body(alloc: Global, body: &mut [Instruction]) -> Result<bool, OutOfMemory>
    ensures { IfOk result (λ done. IsTrue done → specs.AgainBody body.old body.new) }
{
    let marks = marks_of(alloc, body)?;
    let mut standing = at_begin();
    for place in 0..body.len() {
        if !again_place(marks.as_slice(), &mut standing, place, &mut body[place]) {
            return Ok(false);
        }
    }
    Ok(true)
}
