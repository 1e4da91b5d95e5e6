// Numbers and words of a frame, near and far.

ghost use Rattle.std.specs.Prelude.{◌≡◌, ◌++◌, pos, OnOk};
ghost use Rattle.risc_emit_forms.specs.Forms as form;

use crate::pieces::{Piece, Pieces};
use crate::words::{computed, constant, loaded, r15, set, stored};
use risc_word::{Instr, Operand, Operation, Register, Width};
use tac_code::code::OutOfMemory;

/// Whether an offset fits a load or a store.
pub(crate) fn is_near(bytes: u64) -> bool
    ensures { result ≡ form.is_near bytes }
{
    bytes < 524288
}

/// Whether a number fits into the word of an operation.
pub(crate) fn is_small(value: i32) -> bool
    ensures { result ≡ form.is_small value }
{
    -65536 <= value && value < 65536
}

/// A register takes the lowest 32 bits of a number.
pub(crate) fn put_constant(pieces: &mut Pieces, to: Register, word: u64) -> Result<(), OutOfMemory>
    ensures { OnOk result (pieces.new ≡ pieces.old ++ form.constant to word) }
{
    pieces.all(&[
        Piece::Plain(Instr::MoveTop {
            to,
            top: (word / 65536 % 65536) as u16,
        }),
        Piece::Plain(computed(Operation::Add, to, to, constant((word % 65536) as i32))),
    ])
}

/// A register takes a word.
pub(crate) fn put_exact(pieces: &mut Pieces, to: Register, word: u32) -> Result<(), OutOfMemory>
    ensures { OnOk result (pieces.new ≡ pieces.old ++ form.exact to word) }
{
    pieces.all(&[
        Piece::Plain(Instr::MoveTop {
            to,
            top: (word / 65536) as u16,
        }),
        Piece::Plain(computed(Operation::Add, to, to, constant((word % 65536) as i32))),
    ])
}

/// A register takes a number.
pub(crate) fn put_number(pieces: &mut Pieces, to: Register, value: i32) -> Result<(), OutOfMemory>
    ensures { OnOk result (pieces.new ≡ pieces.old ++ form.number to value) }
{
    if is_small(value) {
        pieces.plain(set(to, value))
    } else {
        put_constant(pieces, to, u64::from(value.cast_unsigned()))
    }
}

/// A register takes a nonnegative number.
pub(crate) fn put_natural(pieces: &mut Pieces, to: Register, value: u64) -> Result<(), OutOfMemory>
    ensures { OnOk result (pieces.new ≡ pieces.old ++ form.number to (pos value)) }
{
    if value < 65536 {
        pieces.plain(set(to, value as i32))
    } else {
        put_constant(pieces, to, value)
    }
}

/// A register takes the word a number of bytes after the address in another one.
pub(crate) fn put_load(
    pieces: &mut Pieces,
    to: Register,
    base: Register,
    bytes: u64,
) -> Result<(), OutOfMemory>
    ensures { OnOk result (pieces.new ≡ pieces.old ++ form.load to base bytes) }
{
    if is_near(bytes) {
        return pieces.plain(loaded(Width::Word, to, base, bytes as i32));
    }
    put_constant(pieces, to, bytes)?;
    pieces.all(&[
        Piece::Plain(computed(Operation::Add, to, to, Operand::Content(base))),
        Piece::Plain(loaded(Width::Word, to, to, 0)),
    ])
}

/// The word there receives the content of a register.
pub(crate) fn put_store(
    pieces: &mut Pieces,
    from: Register,
    base: Register,
    bytes: u64,
) -> Result<(), OutOfMemory>
    ensures { OnOk result (pieces.new ≡ pieces.old ++ form.store from base bytes) }
{
    if is_near(bytes) {
        return pieces.plain(stored(Width::Word, from, base, bytes as i32));
    }
    put_constant(pieces, r15(), bytes)?;
    pieces.all(&[
        Piece::Plain(computed(Operation::Add, r15(), r15(), Operand::Content(base))),
        Piece::Plain(stored(Width::Word, from, r15(), 0)),
    ])
}
