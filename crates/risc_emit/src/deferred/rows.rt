// Rows of instructions whose addresses are folded into their offsets.

ghost use Rattle.std.specs.Prelude.{◌≡◌, ◌≤◌, ◌≤ℤ◌, neg_ℤ, pos, slice_get, Some, IfSome};
ghost use Rattle.risc_emit_relation.specs.Context.{home};
ghost use Rattle.risc_emit_forms.specs.Peephole.{both_short, is_apart, row_near};
ghost use Rattle.risc_emit_forms.specs.Peephole.{row_from, defer_row, row, deferred};
ghost use Rattle.risc_emit.specs.Frames.{context_of};

use crate::deferred::{back, defer_load, offset_of};
use crate::frame::{Frame, OFFSET_LIMIT};
use crate::location::Location;
use risc_machine::limits::ADDRESSES;
use risc_word::Register;
use tac_code::code::{Base, Instruction, NUMBER_LIMIT};

// An offset with that of an index that goes on from the same register.
pub(super) fn both_short(offset: i64, further: Option<i64>) -> Option<i64>
    requires least { neg_ℤ (pos ADDRESSES) ≤ℤ offset }
    requires most { offset ≤ℤ pos OFFSET_LIMIT }
    requires further_least { IfSome further (λ more. neg_ℤ (pos ADDRESSES) ≤ℤ more) }
    requires further_most { IfSome further (λ more. more ≤ℤ pos 0) }
    ensures is { result ≡ both_short offset further }
    ensures least { IfSome result (λ whole. neg_ℤ (pos NUMBER_LIMIT) ≤ℤ whole) }
    ensures most { IfSome result (λ whole. whole ≤ℤ pos OFFSET_LIMIT) }
{
    match further {
        Some(more) => Some(offset + more),
        None => None,
    }
}

// Whether a temporary lives elsewhere than in a register.
fn is_apart(frame: &Frame<'_>, temporary: u32, register: Register) -> bool
    ensures { result ≡ is_apart (home (context_of frame.now) frame.now.number temporary) register }
{
    match frame.location(temporary) {
        Location::Register(other) => other.number() != register.number(),
        Location::Slot(_) => true,
    }
}

// A register is short of an offset, if an index with another home goes on from it to what a load takes.
fn row_near(
    frame: &Frame<'_>,
    offset: i64,
    index: u32,
    found: Option<(Register, i64)>,
) -> Option<(Register, i64)>
    requires most { offset ≤ℤ pos OFFSET_LIMIT }
    ensures is { result ≡ row_near offset (home (context_of frame.now) frame.now.number index) found }
    ensures least { IfSome result (λ deferred. neg_ℤ (pos ADDRESSES) ≤ℤ deferred.1) }
    ensures most { IfSome result (λ deferred. deferred.1 ≤ℤ pos OFFSET_LIMIT) }
{
    match found {
        Some((register, _)) => {
            if offset < -i64::from(ADDRESSES) {
                return None;
            }
            if is_apart(frame, index, register) {
                Some((register, offset))
            } else {
                None
            }
        }
        None => None,
    }
}

fn row_from(
    frame: &Frame<'_>,
    to: u32,
    short: Option<i64>,
    index: u32,
    further: Option<i64>,
    body: &[Instruction],
    third: usize,
) -> Option<(Register, i64)>
    requires least { IfSome short (λ offset. neg_ℤ (pos ADDRESSES) ≤ℤ offset) }
    requires most { IfSome short (λ offset. offset ≤ℤ pos OFFSET_LIMIT) }
    requires further_least { IfSome further (λ more. neg_ℤ (pos ADDRESSES) ≤ℤ more) }
    requires further_most { IfSome further (λ more. more ≤ℤ pos 0) }
    ensures is { result ≡ row_from (context_of frame.now) frame.now.number to short
        (home (context_of frame.now) frame.now.number index) further (slice_get body.now third) }
    ensures least { IfSome result (λ deferred. neg_ℤ (pos ADDRESSES) ≤ℤ deferred.1) }
    ensures most { IfSome result (λ deferred. deferred.1 ≤ℤ pos OFFSET_LIMIT) }
{
    match short {
        Some(offset) => {
            let whole = both_short(offset, further);
            let found = defer_load(frame, to, whole, body, third);
            row_near(frame, offset, index, found)
        }
        None => None,
    }
}

// The address of an index, if an instruction goes on from it with an index into the same temporary.
fn row_by(
    frame: &Frame<'_>,
    to: u32,
    short: Option<i64>,
    instruction: &Instruction,
    body: &[Instruction],
    third: usize,
) -> Option<(Register, i64)>
    requires least { IfSome short (λ offset. neg_ℤ (pos ADDRESSES) ≤ℤ offset) }
    requires most { IfSome short (λ offset. offset ≤ℤ pos OFFSET_LIMIT) }
    ensures is { result ≡ defer_row (context_of frame.now) frame.now.number to short (Some instruction.now)
        (slice_get body.now third) }
    ensures least { IfSome result (λ deferred. neg_ℤ (pos ADDRESSES) ≤ℤ deferred.1) }
    ensures most { IfSome result (λ deferred. deferred.1 ≤ℤ pos OFFSET_LIMIT) }
{
    match instruction {
        Instruction::Index {
            to: other,
            base: Base::Temporary(address),
            index,
            low,
            high,
            width,
            error,
            ..
        } => {
            if *address == to && *other == to {
                let further = back(Base::Temporary(*address), *low, *high, *width, *error);
                row_from(frame, to, short, *index, further, body, third)
            } else {
                None
            }
        }
        _ => None,
    }
}

fn defer_row(
    frame: &Frame<'_>,
    to: u32,
    short: Option<i64>,
    body: &[Instruction],
    place: usize,
    third: usize,
) -> Option<(Register, i64)>
    requires least { IfSome short (λ offset. neg_ℤ (pos ADDRESSES) ≤ℤ offset) }
    requires most { IfSome short (λ offset. offset ≤ℤ pos OFFSET_LIMIT) }
    ensures is { result ≡ defer_row (context_of frame.now) frame.now.number to short (slice_get body.now place)
        (slice_get body.now third) }
    ensures least { IfSome result (λ deferred. neg_ℤ (pos ADDRESSES) ≤ℤ deferred.1) }
    ensures most { IfSome result (λ deferred. deferred.1 ≤ℤ pos OFFSET_LIMIT) }
{
    match body.get(place) {
        Some(instruction) => row_by(frame, to, short, instruction, body, third),
        None => None,
    }
}

pub(super) fn row(
    frame: &Frame<'_>,
    instruction: &Instruction,
    body: &[Instruction],
    place: usize,
    third: usize,
) -> Option<(Register, i64)>
    ensures is { result ≡ row (context_of frame.now) frame.now.number (Some instruction.now)
        (slice_get body.now place) (slice_get body.now third) }
    ensures least { IfSome result (λ deferred. neg_ℤ (pos ADDRESSES) ≤ℤ deferred.1) }
    ensures most { IfSome result (λ deferred. deferred.1 ≤ℤ pos OFFSET_LIMIT) }
{
    match instruction {
        Instruction::Index {
            to,
            base,
            low,
            high,
            width,
            error,
            ..
        } => {
            let short = offset_of(frame, *base, *low, *high, *width, *error);
            defer_row(frame, *to, short, body, place, third)
        }
        _ => None,
    }
}
