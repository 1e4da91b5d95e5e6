//! The value that an error found, decoded from the words of its test.
//!
//! The test of a range subtracts the lowest number, unless that is 0, and compares the difference as an unsigned
//! number. So the words before a stop show the register and both bounds. A modulus is shown by the word before, and so
//! are a sum, and a product together with H; the value of a `case` by its last test. What a word put into the free
//! register, or into that of links, is lost at the stop, which uses them: then what was loaded into it shows the value,
//! or the word's operands do.

use crate::memory::word_at;
use crate::words::{Act, Operated, Right, act_at};
use risc_image::ImageView;
use risc_machine::Machine;
use risc_machine::limits::SIGN_BIT;
use risc_word::{Condition, Operation};

// The register that is free between instructions, and the link register.
const FREE: u8 = 12;

const LINK: u8 = 15;

// How many words before the stop for a product the multiplication is.
const PRODUCT: usize = 6;

// How many words before its use a register that the stop uses is written at most: the other one may be loaded in
// between, in two words.
const FETCH: usize = 3;

// The error of `read` that is tested before that of a number which is no integer of 32 bits.
const NO_INTEGER: u32 = 10;

// The only quotient that is not an integer, that of the least integer by -1.
const QUOTIENT: i64 = 2_147_483_648;

/// The least and the greatest number of a range.
#[derive(Clone, Copy)]
pub struct Bounds {
    pub low: i64,
    pub high: i64,
}

/// The value that an error found, and the range that it is outside of, if the error is one of a range.
#[derive(Clone, Copy)]
pub struct FaultValue {
    pub value: i64,
    pub bounds: Option<Bounds>,
}

// A number that words load into a register, or that is an operand, and how many words that takes.
#[derive(Clone, Copy)]
struct Number {
    value: i64,
    words: usize,
}

fn operated_at(image: &ImageView<'_>, at: Option<usize>) -> Option<Operated> {
    match act_at(image, at) {
        Act::Operate(operated) => Some(operated),
        _ => None,
    }
}

// The subtraction at a place whose result goes to a register.
fn subtraction_at(image: &ImageView<'_>, at: Option<usize>, to: u8) -> Option<Operated> {
    match operated_at(image, at) {
        Some(operated) if operated.to == to => match operated.operation {
            Operation::Sub => Some(operated),
            _ => None,
        },
        _ => None,
    }
}

// The upper half of a number that the word at a place loads into the link register.
fn top_at(image: &ImageView<'_>, at: Option<usize>) -> Option<i64> {
    match act_at(image, at) {
        Act::Top { to, top } if to == LINK => Some(top),
        _ => None,
    }
}

// The number that the word at a place adds to the link register.
fn added_at(image: &ImageView<'_>, at: usize) -> Option<i64> {
    match operated_at(image, Some(at)) {
        Some(operated) if operated.to == LINK => match (operated.operation, operated.right) {
            (Operation::Add, Right::Number(low)) => Some(low),
            _ => None,
        },
        _ => None,
    }
}

// The number that the two words up to a place load into the link register: first its upper half, then its lower half.
fn exact_at(image: &ImageView<'_>, at: usize) -> Option<i64> {
    match (top_at(image, at.checked_sub(1)), added_at(image, at)) {
        (Some(top), Some(low)) => Some(top.saturating_mul(65_536).saturating_add(low)),
        _ => None,
    }
}

// The register that the comparison at a place tests, and how far it may be above the lowest number.
fn most_at(image: &ImageView<'_>, at: usize, condition: Condition) -> Option<(u8, Number)> {
    let Some(compared) = subtraction_at(image, Some(at), LINK) else {
        return None;
    };
    match (compared.right, condition) {
        (Right::Number(limit), Condition::CarryClear) => {
            let value = limit.saturating_sub(1);
            Some((compared.left, Number { value, words: 1 }))
        }
        (Right::Content(register), Condition::CarrySet) => {
            match exact_at(image, at.saturating_sub(1)) {
                Some(value) => Some((register, Number { value, words: 3 })),
                None => None,
            }
        }
        _ => None,
    }
}

// The lowest number of a range, which the word at a place subtracts into the free register; 0 if it doesn't.
fn low_at(image: &ImageView<'_>, at: Option<usize>, above: u8) -> i64 {
    if above != FREE {
        return 0;
    }
    let Some(taken) = subtraction_at(image, at, FREE) else {
        return 0;
    };
    match taken.right {
        Right::Number(low) => low,
        Right::Content(_) => match exact_at(image, at.unwrap_or(0).saturating_sub(1)) {
            Some(number) => signed(number),
            None => 0,
        },
    }
}

// An unsigned number of 32 bits as a signed one; it may be 2^32 too large.
fn signed(value: i64) -> i64 {
    let word = if value >= 4_294_967_296 {
        value - 4_294_967_296
    } else {
        value
    };
    if word >= i64::from(SIGN_BIT) {
        word - 4_294_967_296
    } else {
        word
    }
}

// The content of a register as a signed number, unless the stop used the register.
fn kept(machine: &Machine, register: u8) -> Option<i64> {
    if register == FREE || register >= LINK {
        None
    } else {
        Some(signed(i64::from(machine.reg(register))))
    }
}

// The register that an act writes.
fn written_by(act: Act) -> Option<u8> {
    match act {
        Act::Move { to, .. } | Act::Load { to, .. } => Some(to),
        Act::Top { to, .. } | Act::Put { to } => Some(to),
        Act::Operate(operated) => Some(operated.to),
        Act::Branch { .. } | Act::Other => None,
    }
}

// The word before a place that wrote a register last.
fn writer_before(image: &ImageView<'_>, at: usize, register: u8) -> Option<usize> {
    for back in 0..FETCH {
        let Some(before) = at.checked_sub(back.saturating_add(1)) else {
            return None;
        };
        if written_by(act_at(image, Some(before))) == Some(register) {
            return Some(before);
        }
    }
    None
}

// The word in a frame that is this far from the address in a register.
fn loaded(machine: &Machine, base: u8, offset: i64) -> Option<i64> {
    if base == FREE || base >= LINK {
        return None;
    }
    let at = machine
        .reg(base)
        .saturating_add(u32::try_from(offset).unwrap_or(u32::MAX));
    match word_at(machine, at) {
        Some(word) => Some(signed(i64::from(word))),
        None => None,
    }
}

// What a register had for the word at a place. If the stop used it, what was loaded into it.
fn content(image: &ImageView<'_>, machine: &Machine, at: usize, register: u8) -> Option<i64> {
    if register != FREE && register < LINK {
        return kept(machine, register);
    }
    let Some(writer) = writer_before(image, at, register) else {
        return None;
    };
    match act_at(image, Some(writer)) {
        Act::Load { base, offset, .. } => loaded(machine, base, offset),
        Act::Move {
            from: Right::Number(number),
            ..
        } => Some(number),
        _ => match exact_at(image, writer) {
            Some(number) => Some(signed(number)),
            None => None,
        },
    }
}

// The value that was tested in a register by the words from a place on. If the word before subtracted the lowest number
// from it, into the free register, it is that word's operand.
fn tested(image: &ImageView<'_>, machine: &Machine, test: usize, register: u8) -> Option<i64> {
    let before = test.checked_sub(1);
    match subtraction_at(image, before, FREE) {
        Some(taken) if register == FREE => content(image, machine, before.unwrap_or(0), taken.left),
        _ => content(image, machine, test, register),
    }
}

// What the test of a range found, the last word of which is before a place.
fn outside(
    image: &ImageView<'_>,
    machine: &Machine,
    stop: usize,
    condition: Condition,
) -> Option<FaultValue> {
    let Some(at) = stop.checked_sub(1) else {
        return None;
    };
    let Some((register, most)) = most_at(image, at, condition) else {
        return None;
    };
    let test = stop.saturating_sub(most.words);
    let low = low_at(image, test.checked_sub(1), register);
    match tested(image, machine, test, register) {
        Some(value) => Some(FaultValue {
            value,
            bounds: Some(Bounds {
                low,
                high: low.saturating_add(most.value),
            }),
        }),
        None => None,
    }
}

// The first operand of the subtraction of a number at a place, whose result is in the free register.
fn subtracted(image: &ImageView<'_>, machine: &Machine, at: Option<usize>) -> Option<i64> {
    let (Some(at), Some(taken)) = (at, subtraction_at(image, at, FREE)) else {
        return None;
    };
    match taken.right {
        Right::Content(register) if register != LINK => None,
        _ => content(image, machine, at, taken.left),
    }
}

// The operands of the operation at a place whose result was lost.
fn operands(
    image: &ImageView<'_>,
    machine: &Machine,
    at: usize,
    operated: Operated,
) -> Option<(i64, i64)> {
    let right = match operated.right {
        Right::Number(number) => Some(number),
        Right::Content(register) => content(image, machine, at, register),
    };
    match (content(image, machine, at, operated.left), right) {
        (Some(left), Some(right)) => Some((left, right)),
        _ => None,
    }
}

// The exact value of a sum that overflowed 32 bits: its upper bit is not its sign.
fn past(kept: i64) -> i64 {
    let missing = if kept < 0 {
        4_294_967_296
    } else {
        -4_294_967_296
    };
    kept.saturating_add(missing)
}

// Whether an operation negates the quotient by a negative divisor: no other has these operands.
fn negates_quotient(operated: Operated) -> bool {
    match operated.right {
        Right::Content(register) => operated.left == LINK && register == FREE,
        Right::Number(_) => false,
    }
}

// The exact sum or difference at a place, whose result was lost.
fn sum_of(image: &ImageView<'_>, machine: &Machine, at: usize, operated: Operated) -> Option<i64> {
    if negates_quotient(operated) {
        return Some(QUOTIENT);
    }
    match (operated.operation, operands(image, machine, at, operated)) {
        (Operation::Add, Some((left, right))) => Some(left.saturating_add(right)),
        (Operation::Sub, Some((left, right))) => Some(left.saturating_sub(right)),
        _ => None,
    }
}

// The exact sum or difference at a place, which needs more than 32 bits: from its register, if that still has it.
fn sum(image: &ImageView<'_>, machine: &Machine, at: Option<usize>) -> Option<i64> {
    let (Some(at), Some(operated)) = (at, operated_at(image, at)) else {
        return None;
    };
    match (operated.operation, kept(machine, operated.to)) {
        (Operation::Add | Operation::Sub, Some(kept)) => Some(past(kept)),
        _ => sum_of(image, machine, at, operated),
    }
}

// The exact product at a place, which needs more than 32 bits; H has the upper ones.
fn product(image: &ImageView<'_>, machine: &Machine, at: Option<usize>) -> Option<i64> {
    let (Some(at), Some(operated)) = (at, operated_at(image, at)) else {
        return None;
    };
    match (operated.operation, kept(machine, operated.to)) {
        (Operation::Mul, Some(low)) => {
            let low = if low < 0 {
                low.saturating_add(4_294_967_296)
            } else {
                low
            };
            let high = signed(i64::from(machine.high()));
            Some(high.saturating_mul(4_294_967_296).saturating_add(low))
        }
        (Operation::Mul, None) => match operands(image, machine, at, operated) {
            Some((left, right)) => Some(left.saturating_mul(right)),
            None => None,
        },
        _ => None,
    }
}

// Whether the word at a place branches to another.
fn leads(image: &ImageView<'_>, at: usize, to: usize) -> bool {
    match act_at(image, Some(at)) {
        Act::Branch {
            condition: _,
            distance: Some(distance),
        } => {
            let next = i64::try_from(at).unwrap_or(0).saturating_add(1);
            next.saturating_add(distance) == i64::try_from(to).unwrap_or(-1)
        }
        _ => false,
    }
}

// The number that the words up to a place left in a register with its sign and whether it is 0, so that a comparison
// with 0 is a branch alone.
fn flagged(image: &ImageView<'_>, machine: &Machine, at: Option<usize>) -> Option<i64> {
    let act = match (act_at(image, at), at) {
        (
            Act::Branch {
                condition: Condition::OverflowSet,
                ..
            },
            Some(at),
        ) => act_at(image, at.checked_sub(1)),
        (act, _) => act,
    };
    match written_by(act) {
        Some(register) => kept(machine, register),
        None => None,
    }
}

// The value of a `case`, whose last test goes to a place if the value is none of its constants.
fn case_value(image: &ImageView<'_>, machine: &Machine, stop: usize) -> Option<i64> {
    for back in 1..stop {
        let at = stop.saturating_sub(back);
        if leads(image, at, stop) {
            let before = at.checked_sub(1);
            return subtracted(image, machine, before).or(flagged(image, machine, before));
        }
    }
    None
}

// Whether what was tested before a stop is no value of the program, but what the routine of `read` returned for a
// number that is too large. Its test takes one word, or two with a load.
fn is_unread(image: &ImageView<'_>, stop: usize) -> bool {
    for words in 1..3 {
        let link = u32::try_from(stop.saturating_sub(words).saturating_mul(4)).unwrap_or(0);
        match image.trap_of(link) {
            Some(row) if row.error == NO_INTEGER => return true,
            _ => {}
        }
    }
    false
}

/// The value that an error with this number found, at a stop with this link; `None` if the words before it don't show
/// it.
pub fn found_at(
    image: &ImageView<'_>,
    machine: &Machine,
    link: u32,
    number: u32,
) -> Option<FaultValue> {
    let Some(stop) = (link as usize / 4).checked_sub(1) else {
        return None;
    };
    let Act::Branch {
        condition,
        distance: _,
    } = act_at(image, Some(stop))
    else {
        return None;
    };
    let before = stop.checked_sub(1);
    let value = match (number, condition) {
        (1 | 4, Condition::OverflowSet) => sum(image, machine, before),
        (1, _) => product(image, machine, stop.checked_sub(PRODUCT)),
        (3, _) => subtracted(image, machine, before),
        (7, _) => case_value(image, machine, stop),
        (4, _) if is_unread(image, stop) => None,
        (4 | 5 | 8 | 11, _) => return outside(image, machine, stop, condition),
        _ => None,
    };
    match value {
        Some(value) => Some(FaultValue {
            value,
            bounds: None,
        }),
        None => None,
    }
}
