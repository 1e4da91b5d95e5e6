// Calls and returns, devices and objects.

ghost use Rattle.std.specs.Prelude.{◌≡◌, ◌<◌, ◌≤◌, ◌++◌, length, ◌∷◌, pos, OnOk};
ghost use Rattle.risc_word.specs.declared.instr.Operation.TheVariants as op;
ghost use Rattle.risc_word.specs.declared.instr.Operand.TheVariants.{Content};
ghost use Rattle.risc_word.specs.declared.instr.Width.TheVariants.{Word};
ghost use Rattle.risc_word.specs.declared.instr.Instr.TheVariants as word;
ghost use Rattle.risc_emit_relation.specs.Context.{home};
ghost use Rattle.risc_emit_forms.specs.Pieces as piece;
ghost use Rattle.risc_emit_forms.specs.Forms as form;
ghost use Rattle.risc_emit.specs.Frames.{context_of};

use crate::frame::Frame;
use crate::location::Location;
use crate::numbers::put_natural;
use crate::operands::{accept, bring, fetch, finish, put_into, receive, target};
use crate::pieces::{Piece, Pieces};
use crate::words::{computed, copied, goes_to, loaded, r0, r12, r13, r14, r15, set, stored};
use risc_word::{Condition, Operand as Right, Operation, Register, Width};
use tac_code::code::OutOfMemory;

/// The base of the device page, and the offsets of the word that stops and of input and output.
const DEVICE: i32 = -64;

const STOP: i32 = 4;

const PORT: i32 = 8;

/// In the program block's frame: the stack's limit and the next address of the heap.
pub(crate) const LIMIT_AT: i32 = 268;

pub(crate) const NEXT_AT: i32 = 272;

/// The operands that come in registers have numbers below this one.
pub(crate) const CARRIED: u32 = 8;

// How many of the operands of a call come in registers.
fn carried(count: usize) -> usize
    ensures is { result ≡ form.carried count }
    ensures few { result ≤ 8 }
    ensures within { result ≤ count }
{
    if count < CARRIED as usize {
        count
    } else {
        CARRIED as usize
    }
}

// Whether the home of operand j of n is overwritten before its turn.
fn is_taken(frame: &Frame<'_>, n: usize, j: usize, operand: u32) -> bool
    ensures { result ≡ form.is_taken n j (home (context_of frame.now) frame.now.number operand) }
{
    match frame.location(operand) {
        Location::Register(register) => {
            let home = register.number() as usize;
            j < home && home < n
        }
        Location::Slot(_) => false,
    }
}

// Whether it goes through the frame.
fn is_stored(frame: &Frame<'_>, n: usize, j: usize, operand: u32) -> bool
    ensures { result ≡ form.is_stored n j (home (context_of frame.now) frame.now.number operand) }
{
    j >= n || is_taken(frame, n, j, operand)
}

// Its place there is after the first two words.
fn put_passed(
    frame: &Frame<'_>,
    pieces: &mut Pieces,
    n: usize,
    j: usize,
    operand: u32,
) -> Result<(), OutOfMemory>
    requires few { j < 65 }
    ensures { OnOk result (pieces.new ≡ pieces.old ++ form.pass_one (context_of frame.now) frame.now.number n j
        (home (context_of frame.now) frame.now.number operand)) }
{
    if !is_stored(frame, n, j, operand) {
        return Ok(());
    }
    let register = fetch(frame, pieces, r12(), operand)?;
    pieces.plain(stored(Width::Word, register, r14(), 8 + 4 * j as i32))
}

// The operands, n of which are carried, that go through the frame.
fn put_operands(
    frame: &Frame<'_>,
    pieces: &mut Pieces,
    n: usize,
    operands: &[u32],
) -> Result<(), OutOfMemory>
    requires few { length operands.now ≤ 65 }
    ensures { OnOk result (pieces.new ≡ pieces.old ++ form.pass
        (context_of frame.now) frame.now.number n 0 operands.now) }
{
    for j in 0..operands.len() {
        put_passed(frame, pieces, n, j, operands[j])?;
    }
    Ok(())
}

// Register j takes operand j of n.
fn put_carried(
    frame: &Frame<'_>,
    pieces: &mut Pieces,
    n: usize,
    j: usize,
    operand: u32,
) -> Result<(), OutOfMemory>
    requires few { j < 8 }
    ensures { OnOk result (pieces.new ≡ pieces.old ++ form.carry_one (context_of frame.now) frame.now.number n j
        (home (context_of frame.now) frame.now.number operand)) }
{
    let register = Register::new(j as u8);
    if is_taken(frame, n, j, operand) {
        return pieces.plain(loaded(Width::Word, register, r14(), 8 + 4 * j as i32));
    }
    put_into(frame, pieces, register, operand)
}

// The last of n operands goes to its register first.
fn put_carry(
    frame: &Frame<'_>,
    pieces: &mut Pieces,
    n: usize,
    operands: &[u32],
) -> Result<(), OutOfMemory>
    requires few { n ≤ 8 }
    requires within { n ≤ length operands.now }
    ensures { OnOk result (pieces.new ≡ pieces.old ++ form.carry
        (context_of frame.now) frame.now.number n n operands.now) }
{
    let mut j = n;
    while j > 0 {
        j -= 1;
        put_carried(frame, pieces, n, j, operands[j])?;
    }
    Ok(())
}

pub(crate) fn put_call(
    frame: &Frame<'_>,
    pieces: &mut Pieces,
    to: u32,
    routine: u32,
    operands: &[u32],
    line: u16,
) -> Result<(), OutOfMemory>
    requires few { length operands.now ≤ 65 }
    ensures { OnOk result (pieces.new ≡ pieces.old ++ form.call_form
        (context_of frame.now) frame.now.number to routine operands.now line) }
{
    let n = carried(operands.len());
    put_operands(frame, pieces, n, operands)?;
    put_carry(frame, pieces, n, operands)?;
    if frame.calls_program(routine) {
        pieces.push(Piece::Enters(routine, line))?;
    } else {
        pieces.push(Piece::Joins(routine))?;
    }
    accept(frame, pieces, to)
}

pub(crate) fn put_call_value(
    frame: &Frame<'_>,
    pieces: &mut Pieces,
    to: u32,
    callee: u32,
    operands: &[u32],
    line: u16,
) -> Result<(), OutOfMemory>
    requires few { length operands.now ≤ 65 }
    ensures { OnOk result (pieces.new ≡ pieces.old ++ form.call_value_form
        (context_of frame.now) frame.now.number to callee operands.now line) }
{
    let n = carried(operands.len());
    put_operands(frame, pieces, n, operands)?;
    bring(frame, pieces, r12(), callee)?;
    put_carry(frame, pieces, n, operands)?;
    pieces.push(Piece::EntersAt(r12(), line))?;
    accept(frame, pieces, to)
}

pub(crate) fn put_return(
    frame: &Frame<'_>,
    pieces: &mut Pieces,
    from: u32,
) -> Result<(), OutOfMemory>
    ensures { OnOk result (pieces.new ≡ pieces.old ++ form.return_form (context_of frame.now) frame.now.number from) }
{
    put_into(frame, pieces, r0(), from)?;
    if frame.is_of_program() {
        return pieces.all(&[
            Piece::Plain(loaded(Width::Word, r15(), r14(), 0)),
            Piece::Plain(loaded(Width::Word, r14(), r14(), 4)),
            Piece::Plain(goes_to(r15())),
        ]);
    }
    pieces.all(&[
        Piece::Plain(loaded(Width::Word, r15(), r14(), frame.link_at())),
        Piece::Plain(goes_to(r15())),
    ])
}

pub(crate) fn put_put(frame: &Frame<'_>, pieces: &mut Pieces, from: u32) -> Result<(), OutOfMemory>
    ensures { OnOk result (pieces.new ≡ pieces.old ++ form.put_form (context_of frame.now) frame.now.number from) }
{
    let register = fetch(frame, pieces, r12(), from)?;
    pieces.all(&[
        Piece::Plain(set(r15(), DEVICE)),
        Piece::Plain(stored(Width::Word, register, r15(), PORT)),
    ])
}

pub(crate) fn put_take(frame: &Frame<'_>, pieces: &mut Pieces, to: u32) -> Result<(), OutOfMemory>
    ensures { OnOk result (pieces.new ≡ pieces.old ++ form.take_form (context_of frame.now) frame.now.number to) }
{
    let taken = [
        Piece::Plain(set(r15(), DEVICE)),
        Piece::Plain(loaded(Width::Word, target(frame, to), r15(), PORT)),
    ];
    finish(frame, pieces, &taken, to)
}

pub(crate) fn put_end(frame: &Frame<'_>, pieces: &mut Pieces) -> Result<(), OutOfMemory>
    ensures { OnOk result (pieces.new ≡ pieces.old ++ form.end_form (context_of frame.now) frame.now.number) }
{
    let _ = frame;
    pieces.all(&[
        Piece::Plain(set(r12(), DEVICE)),
        Piece::Plain(set(r15(), 0)),
        Piece::Plain(stored(Width::Word, r15(), r12(), STOP)),
    ])
}

// R15 takes the room between the heap's next address and the stack's limit, and R12 the bytes.
fn put_room(pieces: &mut Pieces, bytes: u32) -> Result<(), OutOfMemory>
    ensures { OnOk result (pieces.new ≡ pieces.old
        ++ (piece.Plain (word.Load Word 15 13 (pos 268)) ∷ piece.Plain (word.Load Word 12 13 (pos 272)) ∷ piece.Plain
        (word.Operate op.Sub 15 15 (Content 12)) ∷ form.number 12 (pos bytes))) }
{
    pieces.all(&[
        Piece::Plain(loaded(Width::Word, r15(), r13(), LIMIT_AT)),
        Piece::Plain(loaded(Width::Word, r12(), r13(), NEXT_AT)),
        Piece::Plain(computed(Operation::Sub, r15(), r15(), Right::Content(r12()))),
    ])?;
    put_natural(pieces, r12(), u64::from(bytes))
}

/// The heap's next address, if there is room up to the stack's limit.
pub(crate) fn put_new(
    frame: &Frame<'_>,
    pieces: &mut Pieces,
    to: u32,
    bytes: u32,
    line: u16,
) -> Result<(), OutOfMemory>
    ensures { OnOk result (pieces.new ≡ pieces.old ++ form.new_form
        (context_of frame.now) frame.now.number to bytes line) }
{
    put_room(pieces, bytes)?;
    // What is left of the room sets the flags. The next address moves on by R12, which takes the address that it had.
    pieces.all(&[
        Piece::Plain(computed(Operation::Sub, r15(), r15(), Right::Content(r12()))),
        Piece::Fails(Condition::CarrySet, 13, line),
        Piece::Plain(loaded(Width::Word, r15(), r13(), NEXT_AT)),
        Piece::Plain(computed(Operation::Add, r12(), r12(), Right::Content(r15()))),
        Piece::Plain(stored(Width::Word, r12(), r13(), NEXT_AT)),
        Piece::Plain(copied(r12(), r15())),
    ])?;
    receive(frame, pieces, to)
}
