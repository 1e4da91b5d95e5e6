// Where a register is short of the offset of a block: between an index and the load by it.

mod rows;

ghost use Rattle.std.specs.Prelude.{◌≡◌, ◌<◌, ◌≤◌, ◌≤ℤ◌, neg_ℤ, pos, slice_get, get_or, true, Some, IfSome};
ghost use Rattle.std.specs.Prelude.{ℕ, ℤ, false, Option, None};
ghost use Rattle.tac_code.specs.declared.code.Instruction.{Instruction as Element};
ghost use Rattle.risc_emit_relation.specs.Context.{Context, home};
ghost use Rattle.risc_emit_forms.specs.Peephole.{jumped, block_at, fold_near, fold_by, folded, short_of, back_near};
ghost use Rattle.risc_emit_forms.specs.Peephole.{back_by};
ghost use Rattle.risc_emit_forms.specs.Peephole.{back, offset_of, defer_near, defer_in};
ghost use Rattle.risc_emit_forms.specs.Peephole.{defer_load, row, row_deferred, start, defer, load_deferred, deferred};
ghost use Rattle.risc_emit.specs.Frames.{context_of};

use crate::deferred::rows::{both_short, row};
use crate::frame::{Frame, OFFSET_LIMIT};
use crate::location::Location;
use risc_machine::limits::ADDRESSES;
use risc_word::Register;
use tac_code::code::{Base, Instruction, NUMBER_LIMIT};

// The offset of a base's block from the register of its frame.
fn block_at(frame: &Frame<'_>, base: Base) -> Option<u64>
    ensures is { result ≡ block_at (context_of frame.now) frame.now.number base }
    ensures small { IfSome result (λ offset. offset < OFFSET_LIMIT) }
{
    match base {
        Base::Frame => Some(frame.frame_at()),
        Base::Scratch => Some(frame.scratch_at()),
        Base::Program => Some(frame.program_at()),
        Base::Temporary(_) => None,
    }
}

// What is left of the offset of a block without `first` steps of a width, if `last` steps are no more than a product
// can be.
fn fold_near(first: u32, last: u32, width: u32, offset: u64) -> Option<u64>
    ensures is { result ≡ fold_near first last width offset }
    ensures small { IfSome result (λ rest. rest ≤ offset) }
{
    let taken = u64::from(first) * u64::from(width);
    let most = u64::from(last) * u64::from(width);
    if taken <= offset && most < u64::from(NUMBER_LIMIT) {
        Some(offset - taken)
    } else {
        None
    }
}

fn fold_by(low: i32, high: i32, width: u32, offset: u64) -> Option<u64>
    ensures is { result ≡ fold_by low high width offset }
    ensures small { IfSome result (λ rest. rest ≤ offset) }
{
    if low < 0 {
        return None;
    }
    if high < 0 {
        return None;
    }
    fold_near(low.unsigned_abs(), high.unsigned_abs(), width, offset)
}

/// The offset of a block that includes the lowest index, if an index isn't tested.
pub(crate) fn folded(
    frame: &Frame<'_>,
    base: Base,
    low: i32,
    high: i32,
    width: u32,
    error: u8,
) -> Option<u64>
    ensures is { result ≡ folded (context_of frame.now) frame.now.number base low high width error }
    ensures small { IfSome result (λ offset. offset < OFFSET_LIMIT) }
{
    match block_at(frame, base) {
        Some(offset) if error == 0 => fold_by(low, high, width, offset),
        _ => None,
    }
}

// That offset, otherwise the offset of the block.
fn frame_offset(
    frame: &Frame<'_>,
    base: Base,
    low: i32,
    high: i32,
    width: u32,
    error: u8,
) -> Option<u64>
    ensures is { result ≡ short_of (folded (context_of frame.now) frame.now.number base low high width error)
        (block_at (context_of frame.now) frame.now.number base) }
    ensures small { IfSome result (λ offset. offset < OFFSET_LIMIT) }
{
    match folded(frame, base, low, high, width, error) {
        Some(rest) => Some(rest),
        None => block_at(frame, base),
    }
}

// How far a register is ahead of an address in a temporary: `first` steps of a width, if `last` steps are no more than
// a product can be.
fn back_near(first: u32, last: u32, width: u32) -> Option<i64>
    ensures is { result ≡ back_near first last width }
    ensures least { IfSome result (λ offset. neg_ℤ (pos ADDRESSES) ≤ℤ offset) }
    ensures most { IfSome result (λ offset. offset ≤ℤ pos 0) }
{
    let ahead = u64::from(first) * u64::from(width);
    let highest = u64::from(last) * u64::from(width);
    if ahead < u64::from(ADDRESSES) && highest < u64::from(NUMBER_LIMIT) {
        Some(-(ahead as i64))
    } else {
        None
    }
}

fn back_by(low: i32, high: i32, width: u32) -> Option<i64>
    ensures is { result ≡ back_by low high width }
    ensures least { IfSome result (λ offset. neg_ℤ (pos ADDRESSES) ≤ℤ offset) }
    ensures most { IfSome result (λ offset. offset ≤ℤ pos 0) }
{
    if low < 0 {
        return None;
    }
    if high < 0 {
        return None;
    }
    back_near(low.unsigned_abs(), high.unsigned_abs(), width)
}

fn back(base: Base, low: i32, high: i32, width: u32, error: u8) -> Option<i64>
    ensures is { result ≡ back base low high width error }
    ensures least { IfSome result (λ offset. neg_ℤ (pos ADDRESSES) ≤ℤ offset) }
    ensures most { IfSome result (λ offset. offset ≤ℤ pos 0) }
{
    match base {
        Base::Temporary(_) if error == 0 => back_by(low, high, width),
        _ => None,
    }
}

// What the register of a base and the distance of a component are short of.
fn offset_of(
    frame: &Frame<'_>,
    base: Base,
    low: i32,
    high: i32,
    width: u32,
    error: u8,
) -> Option<i64>
    ensures is { result ≡ offset_of (context_of frame.now) frame.now.number base low high width error }
    ensures least { IfSome result (λ offset. neg_ℤ (pos ADDRESSES) ≤ℤ offset) }
    ensures most { IfSome result (λ offset. offset ≤ℤ pos OFFSET_LIMIT) }
{
    match back(base, low, high, width, error) {
        Some(ahead) => Some(ahead),
        None => match frame_offset(frame, base, low, high, width, error) {
            Some(offset) => Some(offset as i64),
            None => None,
        },
    }
}

// A register is short of an offset, if a load `behind` bytes after it can include both.
fn defer_near(register: Register, behind: u32, offset: i64) -> Option<(Register, i64)>
    requires least { neg_ℤ (pos NUMBER_LIMIT) ≤ℤ offset }
    requires most { offset ≤ℤ pos OFFSET_LIMIT }
    ensures { result ≡ defer_near register behind offset }
{
    let whole = offset + i64::from(behind);
    if whole < -524288 {
        return None;
    }
    if whole < 524288 {
        Some((register, offset))
    } else {
        None
    }
}

// The same for the register of a temporary.
fn defer_in(frame: &Frame<'_>, to: u32, behind: u32, short: Option<i64>) -> Option<(Register, i64)>
    requires least { IfSome short (λ offset. neg_ℤ (pos NUMBER_LIMIT) ≤ℤ offset) }
    requires most { IfSome short (λ offset. offset ≤ℤ pos OFFSET_LIMIT) }
    ensures { result ≡ defer_in (home (context_of frame.now) frame.now.number to) behind short }
{
    match frame.location(to) {
        Location::Register(register) => match short {
            Some(offset) => defer_near(register, behind, offset),
            None => None,
        },
        Location::Slot(_) => None,
    }
}

// The address of an index, if an instruction loads from it into the same temporary.
fn defer_by(
    frame: &Frame<'_>,
    to: u32,
    short: Option<i64>,
    instruction: &Instruction,
) -> Option<(Register, i64)>
    requires least { IfSome short (λ offset. neg_ℤ (pos NUMBER_LIMIT) ≤ℤ offset) }
    requires most { IfSome short (λ offset. offset ≤ℤ pos OFFSET_LIMIT) }
    ensures { result ≡ defer_load (context_of frame.now) frame.now.number to short (Some instruction.now) }
{
    match instruction {
        Instruction::Load {
            to: other,
            base: Base::Temporary(address),
            offset,
        } => {
            if *other == to && *address == to {
                defer_in(frame, to, *offset, short)
            } else {
                None
            }
        }
        _ => None,
    }
}

// The same for the instruction at a place.
fn defer_load(
    frame: &Frame<'_>,
    to: u32,
    short: Option<i64>,
    body: &[Instruction],
    place: usize,
) -> Option<(Register, i64)>
    requires least { IfSome short (λ offset. neg_ℤ (pos NUMBER_LIMIT) ≤ℤ offset) }
    requires most { IfSome short (λ offset. offset ≤ℤ pos OFFSET_LIMIT) }
    ensures { result ≡ defer_load (context_of frame.now) frame.now.number to short (slice_get body.now place) }
{
    match body.get(place) {
        Some(instruction) => defer_by(frame, to, short, instruction),
        None => None,
    }
}

// Whether a jump leads to a place, or there is no instruction.
#[tactic(auto, using(crate::proofs::Peephole::get_end, crate::proofs::Peephole::get_inside))]
fn is_jumped(marks: &[bool], place: usize) -> bool
    ensures { result ≡ get_or marks.now place true }
{
    if place >= marks.len() {
        return true;
    }
    marks[place]
}

// The address of a row, short of an offset that the next two instructions take.
#[inline(never)]
#[tactic(auto, using(crate::proofs::Peephole::row_jumped))]
fn row_deferred(
    frame: &Frame<'_>,
    body: &[Instruction],
    marks: &[bool],
    place: usize,
) -> Option<(Register, i64)>
    requires { marks.now ≡ jumped body.now }
    ensures is { result ≡ row_deferred (context_of frame.now) frame.now.number body.now place }
    ensures least { IfSome result (λ deferred. neg_ℤ (pos ADDRESSES) ≤ℤ deferred.1) }
    ensures most { IfSome result (λ deferred. deferred.1 ≤ℤ pos OFFSET_LIMIT) }
{
    if place == 0 || marks.len() <= place || marks[place] {
        return None;
    }
    let third = place + 1;
    if is_jumped(marks, third) {
        return None;
    }
    match body.get(place - 1) {
        Some(instruction) => row(frame, instruction, body, place, third),
        None => None,
    }
}

// What an index leaves a register short of, which may be so already.
fn start(
    frame: &Frame<'_>,
    before: Option<(Register, i64)>,
    base: Base,
    low: i32,
    high: i32,
    width: u32,
    error: u8,
) -> Option<i64>
    requires least { IfSome before (λ deferred. neg_ℤ (pos ADDRESSES) ≤ℤ deferred.1) }
    requires most { IfSome before (λ deferred. deferred.1 ≤ℤ pos OFFSET_LIMIT) }
    ensures is { result ≡ start (context_of frame.now) frame.now.number before base low high width error }
    ensures least { IfSome result (λ offset. neg_ℤ (pos NUMBER_LIMIT) ≤ℤ offset) }
    ensures most { IfSome result (λ offset. offset ≤ℤ pos OFFSET_LIMIT) }
{
    match before {
        Some((_, offset)) => both_short(offset, back(base, low, high, width, error)),
        None => offset_of(frame, base, low, high, width, error),
    }
}

fn defer(
    frame: &Frame<'_>,
    before: Option<(Register, i64)>,
    instruction: &Instruction,
    body: &[Instruction],
    place: usize,
) -> Option<(Register, i64)>
    requires least { IfSome before (λ deferred. neg_ℤ (pos ADDRESSES) ≤ℤ deferred.1) }
    requires most { IfSome before (λ deferred. deferred.1 ≤ℤ pos OFFSET_LIMIT) }
    ensures { result ≡ defer (context_of frame.now) frame.now.number before (Some instruction.now)
        (slice_get body.now place) }
{
    match instruction {
        Instruction::Index {
            to,
            base,
            low,
            high,
            width,
            error,
            ..
        } => {
            let short = start(frame, before, *base, *low, *high, *width, *error);
            defer_load(frame, *to, short, body, place)
        }
        _ => None,
    }
}

// The address of a component, which the next instruction loads.
#[inline(never)]
fn load_deferred(
    frame: &Frame<'_>,
    body: &[Instruction],
    marks: &[bool],
    place: usize,
) -> Option<(Register, i64)>
    requires { marks.now ≡ jumped body.now }
    ensures { result ≡ load_deferred (context_of frame.now) frame.now.number body.now place }
{
    if place == 0 || place >= marks.len() || marks[place] {
        return None;
    }
    let before = row_deferred(frame, body, marks, place - 1);
    match body.get(place - 1) {
        Some(instruction) => defer(frame, before, instruction, body, place),
        None => None,
    }
}

// Whether an instruction is an index. Only after an index is a register short of an offset.
fn is_index(instruction: &Instruction) -> bool
    ensures row { result ≡ false → (c : Context) (r : ℕ) (next third : Option Element)
        → row c r (Some instruction.now) next third ≡ None }
    ensures defer { result ≡ false → (c : Context) (r : ℕ) (before : Option (ℕ × ℤ)) (next : Option Element)
        → defer c r before (Some instruction.now) next ≡ None }
{
    match instruction {
        Instruction::Index { .. } => true,
        _ => false,
    }
}

// Whether an index comes before a place.
fn is_behind_index(body: &[Instruction], place: usize) -> bool
    ensures { result ≡ false → (c : Context) (r : ℕ) → None ≡ deferred c r body.now place }
{
    if place == 0 {
        return false;
    }
    match body.get(place - 1) {
        Some(instruction) => is_index(instruction),
        None => false,
    }
}

/// The register that is short of an offset at a place, if one is. The answer for most places is part of the loop that
/// asks.
#[inline(always)]
pub(crate) fn deferred(
    frame: &Frame<'_>,
    body: &[Instruction],
    marks: &[bool],
    place: usize,
) -> Option<(Register, i64)>
    requires { marks.now ≡ jumped body.now }
    ensures { result ≡ deferred (context_of frame.now) frame.now.number body.now place }
{
    // most places come after another instruction, and what follows need not be examined
    if !is_behind_index(body, place) {
        return None;
    }
    match row_deferred(frame, body, marks, place) {
        Some(found) => Some(found),
        None => load_deferred(frame, body, marks, place),
    }
}
