// Addresses, loads and stores.

ghost use Rattle.std.specs.Prelude.{◌≡◌, ◌++◌, pos, ◌≤ℤ◌, OnOk, IfOk};
ghost use Rattle.risc_emit_relation.specs.Context.{home};
ghost use Rattle.risc_emit_forms.specs.Forms as form;
ghost use Rattle.risc_emit.specs.Frames.{context_of};
ghost use Rattle.risc_emit.specs.Meant.{label_of};
ghost use Rattle.risc_emit.specs.Passes.{IsNear};

use crate::frame::Frame;
use crate::numbers::{is_near, put_constant};
use crate::operands::{fetch, finish, save, target};
use crate::pieces::{Label, Piece, Pieces};
use crate::words::{computed, constant, loaded, r12, r13, r14, r15, stored};
use risc_word::{Operand as Right, Operation, Register, Width};
use tac_code::code::{Base, OutOfMemory};

// The register of a base, with the words that fetch it.
fn put_base(frame: &Frame<'_>, pieces: &mut Pieces, base: Base) -> Result<Register, OutOfMemory>
    ensures words { OnOk result (pieces.new ≡ pieces.old ++ form.base_code
        (context_of frame.now) frame.now.number base) }
    ensures register { IfOk result (λ q. q ≡ form.base_register (context_of frame.now) frame.now.number base) }
{
    match base {
        Base::Frame | Base::Scratch => Ok(r14()),
        Base::Program => Ok(r13()),
        Base::Temporary(temporary) => fetch(frame, pieces, r12(), temporary),
    }
}

/// That register, fetched or not.
pub(crate) fn base_register(frame: &Frame<'_>, base: Base) -> Register
    ensures { result ≡ form.base_register (context_of frame.now) frame.now.number base }
{
    match base {
        Base::Frame | Base::Scratch => r14(),
        Base::Program => r13(),
        Base::Temporary(temporary) => target(frame, temporary),
    }
}

/// The register that is short of a block's offset, or an address in a register.
pub(crate) fn put_near_base(
    frame: &Frame<'_>,
    pieces: &mut Pieces,
    base: Base,
) -> Result<Register, OutOfMemory>
    ensures words { OnOk result (pieces.new ≡ pieces.old ++ form.near_code
        (context_of frame.now) frame.now.number base) }
    ensures register { IfOk result (λ q. q ≡ form.near_register (context_of frame.now) frame.now.number base) }
{
    match base {
        Base::Frame | Base::Scratch => Ok(r14()),
        Base::Program => Ok(r13()),
        Base::Temporary(temporary) => fetch(frame, pieces, r15(), temporary),
    }
}

// The offset of an address from that register.
fn base_offset(frame: &Frame<'_>, base: Base, bytes: u32) -> u64
    ensures { result ≡ form.base_offset (context_of frame.now) frame.now.number base bytes }
{
    match base {
        Base::Frame => frame.frame_at() + u64::from(bytes),
        Base::Scratch => frame.scratch_at() + u64::from(bytes),
        Base::Program => frame.program_at() + u64::from(bytes),
        Base::Temporary(_) => u64::from(bytes),
    }
}

// A register and an offset that a load or a store can take.
fn put_reach(
    frame: &Frame<'_>,
    pieces: &mut Pieces,
    base: Base,
    bytes: u32,
) -> Result<(Register, i32), OutOfMemory>
    ensures words { OnOk result (pieces.new ≡ pieces.old ++ form.reach
        (context_of frame.now) frame.now.number base bytes) }
    ensures register { IfOk result (λ r. r.0 ≡ form.reach_register (context_of frame.now) frame.now.number base bytes) }
    ensures offset { IfOk result (λ r. r.1 ≡ pos (form.reach_offset
        (context_of frame.now) frame.now.number base bytes)) }
    ensures low { IfOk result (λ r. pos 0 ≤ℤ r.1) }
    ensures high { IfOk result (λ r. r.1 ≤ℤ pos 524287) }
{
    let register = put_base(frame, pieces, base)?;
    let offset = base_offset(frame, base, bytes);
    if is_near(offset) {
        return Ok((register, offset as i32));
    }
    put_constant(pieces, r15(), offset)?;
    pieces.plain(computed(Operation::Add, r12(), register, Right::Content(r15())))?;
    Ok((r12(), 0))
}

/// A word at an offset from a base, or from a register that is short of an offset.
pub(crate) fn put_word_form(
    frame: &Frame<'_>,
    pieces: &mut Pieces,
    deferred: Option<(Register, i64)>,
    to: u32,
    base: Base,
    bytes: u32,
) -> Result<(), OutOfMemory>
    requires near { IsNear deferred bytes }
    ensures { OnOk result (pieces.new ≡ pieces.old ++ form.word_form
        (context_of frame.now) frame.now.number deferred to base bytes) }
{
    match deferred {
        Some((register, offset)) => {
            let whole = (offset + i64::from(bytes)) as i32;
            pieces.plain(loaded(Width::Word, register, register, whole))
        }
        None => put_load_form(frame, pieces, Width::Word, to, base, bytes),
    }
}

pub(crate) fn put_load_form(
    frame: &Frame<'_>,
    pieces: &mut Pieces,
    width: Width,
    to: u32,
    base: Base,
    bytes: u32,
) -> Result<(), OutOfMemory>
    ensures { OnOk result (pieces.new ≡ pieces.old ++ form.load_form
        (context_of frame.now) frame.now.number width to base bytes) }
{
    let (register, offset) = put_reach(frame, pieces, base, bytes)?;
    let load = loaded(width, target(frame, to), register, offset);
    finish(frame, pieces, &[Piece::Plain(load)], to)
}

pub(crate) fn put_store_form(
    frame: &Frame<'_>,
    pieces: &mut Pieces,
    width: Width,
    base: Base,
    bytes: u32,
    from: u32,
) -> Result<(), OutOfMemory>
    ensures { OnOk result (pieces.new ≡ pieces.old ++ form.store_form
        (context_of frame.now) frame.now.number width base bytes from) }
{
    let (register, offset) = put_reach(frame, pieces, base, bytes)?;
    let value = fetch(frame, pieces, r15(), from)?;
    pieces.plain(stored(width, value, register, offset))
}

// A register takes the address `bytes` bytes after a base.
fn put_address(
    frame: &Frame<'_>,
    pieces: &mut Pieces,
    to: Register,
    base: Base,
    bytes: u32,
) -> Result<(), OutOfMemory>
    ensures { OnOk result (pieces.new ≡ pieces.old ++ form.address
        (context_of frame.now) frame.now.number to base bytes) }
{
    let register = put_base(frame, pieces, base)?;
    let offset = base_offset(frame, base, bytes);
    if offset < 65536 {
        return pieces.plain(computed(Operation::Add, to, register, constant(offset as i32)));
    }
    put_constant(pieces, r15(), offset)?;
    pieces.plain(computed(Operation::Add, to, register, Right::Content(r15())))
}

pub(crate) fn put_offset(
    frame: &Frame<'_>,
    pieces: &mut Pieces,
    to: u32,
    base: Base,
    bytes: u32,
) -> Result<(), OutOfMemory>
    ensures { OnOk result (pieces.new ≡ pieces.old
        ++ (form.address (context_of frame.now) frame.now.number
        (form.target (context_of frame.now) frame.now.number (home (context_of frame.now) frame.now.number to)) base
        bytes ++ form.save (context_of frame.now) frame.now.number (home (context_of frame.now) frame.now.number to))) }
{
    put_address(frame, pieces, target(frame, to), base, bytes)?;
    save(frame, pieces, to)
}

/// R15 takes the address a number of bytes after what a register holds.
pub(crate) fn put_sum(
    frame: &Frame<'_>,
    pieces: &mut Pieces,
    register: Register,
    bytes: u64,
) -> Result<(), OutOfMemory>
    ensures { OnOk result (pieces.new ≡ pieces.old ++ form.sum (context_of frame.now) frame.now.number register bytes) }
{
    let _ = frame;
    if bytes < 65536 {
        return pieces.plain(computed(Operation::Add, r15(), register, constant(bytes as i32)));
    }
    put_constant(pieces, r15(), bytes)?;
    pieces.plain(computed(Operation::Add, r15(), register, Right::Content(r15())))
}

/// The address of a base, in place or in R15. Returns the register.
pub(crate) fn put_base_address(
    frame: &Frame<'_>,
    pieces: &mut Pieces,
    base: Base,
) -> Result<Register, OutOfMemory>
    ensures words { OnOk result (pieces.new ≡ pieces.old ++ form.base_address
        (context_of frame.now) frame.now.number base) }
    ensures register { IfOk result (λ q. q ≡ form.address_register (context_of frame.now) frame.now.number base) }
{
    let (register, offset) = match base {
        Base::Frame => (r14(), frame.frame_at()),
        Base::Scratch => (r14(), frame.scratch_at()),
        Base::Program => (r13(), frame.program_at()),
        Base::Temporary(temporary) => return fetch(frame, pieces, r15(), temporary),
    };
    put_sum(frame, pieces, register, offset)?;
    Ok(r15())
}

/// The address of a label.
pub(crate) fn put_label(
    frame: &Frame<'_>,
    pieces: &mut Pieces,
    to: u32,
    label: Label,
) -> Result<(), OutOfMemory>
    ensures { OnOk result (pieces.new ≡ pieces.old ++ form.label_form (context_of frame.now) frame.now.number to
        (label_of label)) }
{
    let register = target(frame, to);
    let address = [Piece::High(register, label), Piece::Low(register, label)];
    finish(frame, pieces, &address, to)
}
