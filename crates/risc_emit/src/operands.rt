// Operands and results: where temporaries are, and the words that bring them into registers and back.

ghost use Rattle.std.specs.Prelude.{◌≡◌, ◌++◌, [], ◌∷◌, length, pos, ◌≤ℤ◌, OnOk, IfOk};
ghost use Rattle.risc_word.specs.declared.instr.Instr.TheVariants as word;
ghost use Rattle.tac_code.specs.declared.code.Operand.TheVariants as operand;
ghost use Rattle.risc_emit_relation.specs.Context.{home};
ghost use Rattle.risc_emit_forms.specs.Pieces as piece;
ghost use Rattle.risc_emit_forms.specs.Forms as form;
ghost use Rattle.risc_emit.specs.Frames.{context_of};
ghost use Rattle.risc_emit.specs.Meant.{all_meant, home_of_location};

use crate::frame::Frame;
use crate::location::Location;
use crate::numbers::{is_near, is_small, put_exact, put_load, put_number, put_store};
use crate::pieces::{Piece, Pieces};
use crate::words::{computed, constant, copied, r0, r12, r14, r15};
use risc_word::{Operand as Right, Operation, Register};
use tac_code::code::{Operand, OutOfMemory};

/// A temporary is in its register, or is loaded into one. Returns that register.
pub(crate) fn fetch(
    frame: &Frame<'_>,
    pieces: &mut Pieces,
    to: Register,
    temporary: u32,
) -> Result<Register, OutOfMemory>
    ensures words { OnOk result (pieces.new ≡ pieces.old ++ form.fetch (context_of frame.now) frame.now.number to
        (home (context_of frame.now) frame.now.number temporary)) }
    ensures register { IfOk result (λ q. q ≡ form.fetched (context_of frame.now) frame.now.number to
        (home (context_of frame.now) frame.now.number temporary)) }
{
    match frame.location(temporary) {
        Location::Register(register) => Ok(register),
        Location::Slot(slot) => {
            put_load(pieces, to, r14(), frame.slot_at(slot))?;
            Ok(to)
        }
    }
}

/// The words that `fetch` takes.
pub(crate) fn fetch_length(frame: &Frame<'_>, temporary: u32) -> i32
    ensures length { result ≡ pos (length (form.fetch (context_of frame.now) frame.now.number 12
        (home (context_of frame.now) frame.now.number temporary))) }
    ensures low { pos 0 ≤ℤ result }
    ensures high { result ≤ℤ pos 4 }
{
    match frame.location(temporary) {
        Location::Register(_) => 0,
        Location::Slot(slot) => if is_near(frame.slot_at(slot)) { 1 } else { 4 },
    }
}

fn bring_location(
    frame: &Frame<'_>,
    pieces: &mut Pieces,
    to: Register,
    location: Location,
) -> Result<(), OutOfMemory>
    ensures { OnOk result (pieces.new ≡ pieces.old ++ form.bring (context_of frame.now) frame.now.number to
        (home_of_location location)) }
{
    match location {
        Location::Register(register) => pieces.plain(copied(to, register)),
        Location::Slot(slot) => put_load(pieces, to, r14(), frame.slot_at(slot)),
    }
}

/// A register takes a temporary, wherever it is.
pub(crate) fn bring(
    frame: &Frame<'_>,
    pieces: &mut Pieces,
    to: Register,
    temporary: u32,
) -> Result<(), OutOfMemory>
    ensures { OnOk result (pieces.new ≡ pieces.old ++ form.bring (context_of frame.now) frame.now.number to
        (home (context_of frame.now) frame.now.number temporary)) }
{
    bring_location(frame, pieces, to, frame.location(temporary))
}

/// The register in which a result is made.
pub(crate) fn target(frame: &Frame<'_>, temporary: u32) -> Register
    ensures { result ≡ form.target (context_of frame.now) frame.now.number
        (home (context_of frame.now) frame.now.number temporary) }
{
    match frame.location(temporary) {
        Location::Register(register) => register,
        Location::Slot(_) => r12(),
    }
}

/// The result there goes to the temporary's slot.
pub(crate) fn save(
    frame: &Frame<'_>,
    pieces: &mut Pieces,
    temporary: u32,
) -> Result<(), OutOfMemory>
    ensures { OnOk result (pieces.new ≡ pieces.old ++ form.save (context_of frame.now) frame.now.number
        (home (context_of frame.now) frame.now.number temporary)) }
{
    match frame.location(temporary) {
        Location::Register(_) => Ok(()),
        Location::Slot(slot) => put_store(pieces, r12(), r14(), frame.slot_at(slot)),
    }
}

/// The last words of a result; what was made goes to the temporary's slot.
pub(crate) fn finish(
    frame: &Frame<'_>,
    pieces: &mut Pieces,
    words: &[Piece],
    temporary: u32,
) -> Result<(), OutOfMemory>
    ensures { OnOk result (pieces.new ≡ pieces.old
        ++ (all_meant words.now ++ form.save (context_of frame.now) frame.now.number
        (home (context_of frame.now) frame.now.number temporary))) }
{
    pieces.all(words)?;
    save(frame, pieces, temporary)
}

/// A result in R12 goes to its home.
pub(crate) fn receive(
    frame: &Frame<'_>,
    pieces: &mut Pieces,
    temporary: u32,
) -> Result<(), OutOfMemory>
    ensures { OnOk result (pieces.new ≡ pieces.old ++ form.receive (context_of frame.now) frame.now.number
        (home (context_of frame.now) frame.now.number temporary)) }
{
    match frame.location(temporary) {
        Location::Register(register) => pieces.plain(copied(register, r12())),
        Location::Slot(slot) => put_store(pieces, r12(), r14(), frame.slot_at(slot)),
    }
}

/// A register receives a temporary, unless it is its home.
pub(crate) fn put_into(
    frame: &Frame<'_>,
    pieces: &mut Pieces,
    to: Register,
    temporary: u32,
) -> Result<(), OutOfMemory>
    ensures { OnOk result (pieces.new ≡ pieces.old ++ form.into (context_of frame.now) frame.now.number to
        (home (context_of frame.now) frame.now.number temporary)) }
{
    match frame.location(temporary) {
        Location::Register(register) => {
            if register.number() == to.number() {
                return Ok(());
            }
            pieces.plain(copied(to, register))
        }
        Location::Slot(slot) => put_load(pieces, to, r14(), frame.slot_at(slot)),
    }
}

/// The result of a routine goes from R0 to its home.
pub(crate) fn accept(
    frame: &Frame<'_>,
    pieces: &mut Pieces,
    temporary: u32,
) -> Result<(), OutOfMemory>
    ensures { OnOk result (pieces.new ≡ pieces.old ++ form.accept (context_of frame.now) frame.now.number
        (home (context_of frame.now) frame.now.number temporary)) }
{
    match frame.location(temporary) {
        Location::Register(register) => {
            if register.number() == 0 {
                return Ok(());
            }
            pieces.plain(copied(register, r0()))
        }
        Location::Slot(slot) => put_store(pieces, r0(), r14(), frame.slot_at(slot)),
    }
}

/// A number as a right operand: an immediate, or in R15.
pub(crate) fn number_right(
    frame: &Frame<'_>,
    pieces: &mut Pieces,
    value: i32,
) -> Result<Right, OutOfMemory>
    ensures words { OnOk result (pieces.new ≡ pieces.old ++ form.right (context_of frame.now) frame.now.number
        (operand.Number value)) }
    ensures operand { IfOk result (λ o. o ≡ form.right_operand (context_of frame.now) frame.now.number
        (operand.Number value)) }
{
    let _ = frame;
    if is_small(value) {
        return Ok(constant(value));
    }
    put_exact(pieces, r15(), value.cast_unsigned())?;
    Ok(Right::Content(r15()))
}

/// The same for a nonnegative number.
pub(crate) fn natural_right(
    frame: &Frame<'_>,
    pieces: &mut Pieces,
    value: u32,
) -> Result<Right, OutOfMemory>
    ensures words { OnOk result (pieces.new ≡ pieces.old ++ form.right (context_of frame.now) frame.now.number
        (operand.Number (pos value))) }
    ensures operand { IfOk result (λ o. o ≡ form.right_operand (context_of frame.now) frame.now.number
        (operand.Number (pos value))) }
{
    let _ = frame;
    if value < 65536 {
        return Ok(constant(value as i32));
    }
    put_exact(pieces, r15(), value)?;
    Ok(Right::Content(r15()))
}

/// A right operand: a temporary's, an immediate, or a number in R15.
pub(crate) fn right(
    frame: &Frame<'_>,
    pieces: &mut Pieces,
    operand: Operand,
) -> Result<Right, OutOfMemory>
    ensures words { OnOk result (pieces.new ≡ pieces.old ++ form.right
        (context_of frame.now) frame.now.number operand) }
    ensures operand { IfOk result (λ o. o ≡ form.right_operand (context_of frame.now) frame.now.number operand) }
{
    match operand {
        Operand::Temporary(temporary) => Ok(Right::Content(fetch(
            frame,
            pieces,
            r15(),
            temporary,
        )?)),
        Operand::Number(value) => number_right(frame, pieces, value),
    }
}

/// An operation on two operands, its result in a register.
pub(crate) fn put_operation(
    frame: &Frame<'_>,
    pieces: &mut Pieces,
    operation: Operation,
    to: Register,
    left: u32,
    operand: Operand,
) -> Result<(), OutOfMemory>
    ensures { OnOk result (pieces.new ≡ pieces.old ++ form.both (context_of frame.now) frame.now.number left operand
        (piece.Plain (word.Operate operation to (form.fetched (context_of frame.now) frame.now.number 12
        (home (context_of frame.now) frame.now.number left))
        (form.right_operand (context_of frame.now) frame.now.number operand)) ∷ [])) }
{
    let a = fetch(frame, pieces, r12(), left)?;
    let b = right(frame, pieces, operand)?;
    pieces.plain(computed(operation, to, a, b))
}

/// A temporary takes another one.
pub(crate) fn put_copy(
    frame: &Frame<'_>,
    pieces: &mut Pieces,
    to: u32,
    from: u32,
) -> Result<(), OutOfMemory>
    ensures { OnOk result (pieces.new ≡ pieces.old ++ form.copy (context_of frame.now) frame.now.number
        (home (context_of frame.now) frame.now.number to) (home (context_of frame.now) frame.now.number from)) }
{
    match frame.location(to) {
        Location::Register(register) => bring(frame, pieces, register, from),
        Location::Slot(slot) => {
            let register = fetch(frame, pieces, r12(), from)?;
            put_store(pieces, register, r14(), frame.slot_at(slot))
        }
    }
}

/// R15 takes a right operand, with the flags.
pub(crate) fn put_divisor(
    frame: &Frame<'_>,
    pieces: &mut Pieces,
    operand: Operand,
) -> Result<(), OutOfMemory>
    ensures { OnOk result (pieces.new ≡ pieces.old ++ form.divisor (context_of frame.now) frame.now.number operand) }
{
    match operand {
        Operand::Temporary(temporary) => bring(frame, pieces, r15(), temporary),
        Operand::Number(value) => put_number(pieces, r15(), value),
    }
}

/// A modulus in a register: a temporary's where it is, or in R15. Returns the register.
pub(crate) fn put_modulus(
    frame: &Frame<'_>,
    pieces: &mut Pieces,
    operand: Operand,
) -> Result<Register, OutOfMemory>
    ensures words { OnOk result (pieces.new ≡ pieces.old ++ form.modulus
        (context_of frame.now) frame.now.number operand) }
    ensures register { IfOk result (λ q. q ≡ form.modulus_register (context_of frame.now) frame.now.number operand) }
{
    match operand {
        Operand::Temporary(temporary) => fetch(frame, pieces, r15(), temporary),
        Operand::Number(value) => {
            put_number(pieces, r15(), value)?;
            Ok(r15())
        }
    }
}

/// Whether N and Z are known to be those of a temporary's register.
pub(crate) fn is_flagged(frame: &Frame<'_>, flagged: Option<u32>, temporary: u32) -> bool
    ensures { result ≡ form.is_flagged (context_of frame.now) frame.now.number flagged temporary }
{
    match flagged {
        Some(it) => it == temporary && matches!(frame.location(temporary), Location::Register(_)),
        None => false,
    }
}
