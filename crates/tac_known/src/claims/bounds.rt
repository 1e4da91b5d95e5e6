// Numbers in a body that bound what is claimed of a temporary.

use crate::kind::{Kind, Kinds};
use std::alloc::Global;
use tac_code::code::{Instruction, Operand, Operator, OutOfMemory, Relation};

// A number with which a temporary is compared, or which it may not exceed, and where the one noted before it is.
#[derive(Clone, Copy)]
struct Bound {
    number: i32,
    // whether it is the bound of a range that is tested
    is_tested: bool,
    before: Option<usize>,
}

// How many bounds of a temporary, the last ones noted, are examined: this is done at each comparison in each sweep.
const MOST_EXAMINED: usize = 64;

// The bounds in a body, and for each temporary the last that was noted.
#[derive(Drop)]
pub(super) struct Bounds {
    list: Vec<Bound>,
    last: Vec<Option<usize>>,
}

impl Bounds {
    fn add(&mut self, temporary: u32, number: i32, is_tested: bool) -> Result<(), OutOfMemory> {
        let of = temporary as usize;
        if of < self.last.len() {
            let before = self.last[of];
            self.last[of] = Some(self.list.len());
            self.list.push(Bound {
                number,
                is_tested,
                before,
            })?;
        }
        Ok(())
    }

    fn note(&mut self, temporary: u32, number: i32) -> Result<(), OutOfMemory> {
        self.add(temporary, number, false)
    }

    fn note_range(&mut self, temporary: u32, low: i32, high: i32) -> Result<(), OutOfMemory> {
        self.add(temporary, low, true)?;
        self.add(temporary, high, true)
    }

    // The next bound of a temporary, among those examined, that is as low.
    fn lower(&self, temporary: usize, number: i32) -> i32 {
        let mut found = i32::MIN;
        let mut next = last_of(self.last.as_slice(), temporary);
        for _ in 0..MOST_EXAMINED {
            let Some(bound) = bound_at(self.list.as_slice(), next) else {
                return found;
            };
            if bound.number <= number {
                found = found.max(bound.number);
            }
            next = bound.before;
        }
        found
    }

    // The next one that is as high.
    fn higher(&self, temporary: usize, number: i32) -> i32 {
        let mut found = i32::MAX;
        let mut next = last_of(self.last.as_slice(), temporary);
        for _ in 0..MOST_EXAMINED {
            let Some(bound) = bound_at(self.list.as_slice(), next) else {
                return found;
            };
            if bound.number >= number {
                found = found.min(bound.number);
            }
            next = bound.before;
        }
        found
    }
}

fn last_of(last: &[Option<usize>], temporary: usize) -> Option<usize> {
    if temporary < last.len() {
        last[temporary]
    } else {
        None
    }
}

fn bound_at(list: &[Bound], at: Option<usize>) -> Option<Bound> {
    let place = at?;
    if place < list.len() {
        Some(list[place])
    } else {
        None
    }
}

fn note_related(bounds: &mut Bounds, left: u32, right: Operand) -> Result<(), OutOfMemory> {
    if let Operand::Number(number) = right {
        bounds.note(left, number.saturating_sub(1))?;
        bounds.note(left, number)?;
        bounds.note(left, number.saturating_add(1))?;
    }
    Ok(())
}

// The same for a number known so far to bound what a temporary is compared with, unless it was noted.
fn note_known(bounds: &mut Bounds, left: u32, number: i32) -> Result<(), OutOfMemory> {
    if bounds.lower(left as usize, number) == number {
        return Ok(());
    }
    note_related(bounds, left, Operand::Number(number))
}

// What is known so far of the value with which a temporary is compared, on the sides of the relation.
pub(super) fn note_compared(
    bounds: &mut Bounds,
    kinds: &Kinds,
    relation: Relation,
    left: u32,
    right: Operand,
) -> Result<(), OutOfMemory> {
    let Operand::Temporary(temporary) = right else {
        return Ok(());
    };
    let Kind::Between(low, high) = kinds.kind(temporary) else {
        return Ok(());
    };
    match relation {
        Relation::Less | Relation::LessEqual => note_known(bounds, left, high),
        Relation::Greater | Relation::GreaterEqual => note_known(bounds, left, low),
        _ => {
            note_known(bounds, left, low)?;
            note_known(bounds, left, high)
        }
    }
}

fn note_bounds(bounds: &mut Bounds, instruction: &Instruction) -> Result<(), OutOfMemory> {
    match instruction {
        Instruction::Literal { to, value } => bounds.note(*to, *value),
        Instruction::Branch { left, right, .. } => note_related(bounds, *left, *right),
        Instruction::BranchBack { left, right, .. } => note_related(bounds, *left, *right),
        Instruction::CheckRange {
            value,
            low,
            high,
            ..
        } => bounds.note_range(*value, *low, *high),
        Instruction::Index {
            index,
            low,
            high,
            ..
        } => bounds.note_range(*index, *low, *high),
        _ => Ok(()),
    }
}

// How many bounds of an operand, the last ones noted, are also bounds of what is computed from it.
const MOST_SHIFTED: usize = 8;

// The bounds of one temporary, shifted by a number, are bounds of another; or only those of ranges.
fn note_shifted(
    bounds: &mut Bounds,
    to: u32,
    from: u32,
    more: i32,
    is_of_ranges: bool,
) -> Result<(), OutOfMemory> {
    if to == from {
        return Ok(());
    }
    let mut next = last_of(bounds.last.as_slice(), from as usize);
    for _ in 0..MOST_SHIFTED {
        let Some(bound) = bound_at(bounds.list.as_slice(), next) else {
            return Ok(());
        };
        if bound.is_tested || !is_of_ranges {
            bounds.note(to, bound.number.saturating_add(more))?;
        }
        next = bound.before;
    }
    Ok(())
}

// The sum or difference of a temporary and a number has the temporary's bounds, shifted, and a copy has those of its
// ranges.
fn note_computed(bounds: &mut Bounds, instruction: &Instruction) -> Result<(), OutOfMemory> {
    match instruction {
        Instruction::Copy { to, from } => note_shifted(bounds, *to, *from, 0, true),
        Instruction::Arithmetic {
            operator: Operator::Add,
            to,
            left,
            right: Operand::Number(number),
            ..
        } => note_shifted(bounds, *to, *left, *number, false),
        Instruction::Arithmetic {
            operator: Operator::Subtract,
            to,
            left,
            right: Operand::Number(number),
            ..
        } => note_shifted(bounds, *to, *left, 0i32.saturating_sub(*number), false),
        _ => Ok(()),
    }
}

// What is claimed of a temporary in the next sweep, if more arrived: bounds from the list twice, then all integers, and
// finally nothing.
pub(super) fn widen(bounds: &Bounds, temporary: usize, widened: u8, was: Kind, come: Kind) -> Kind {
    let Kind::Between(low, high) = was else {
        return Kind::Unknown;
    };
    let Kind::Between(from, to) = come else {
        return Kind::Unknown;
    };
    let (least, greatest) = match widened {
        0 | 1 => (bounds.lower(temporary, from), bounds.higher(temporary, to)),
        2 | 3 => (i32::MIN, i32::MAX),
        _ => return Kind::Unknown,
    };
    Kind::Between(
        if from < low { least } else { low },
        if to > high { greatest } else { high },
    )
}

pub(super) fn bounds_of(
    alloc: Global,
    temporaries: usize,
    body: &[Instruction],
) -> Result<Bounds, OutOfMemory> {
    let mut bounds = Bounds {
        list: Vec::new(alloc),
        last: vec![in alloc; None; temporaries]?,
    };
    for instruction in body {
        note_bounds(&mut bounds, instruction)?;
    }
    for instruction in body {
        note_computed(&mut bounds, instruction)?;
    }
    Ok(bounds)
}
