// Quotients and remainders (6.7.2.2), rounded as Pascal wants them.

ghost use Rattle.std.specs.Prelude.{◌≡◌, ◌+◌, ◌++◌, [], ◌∷◌, length, pos, ◌≤ℤ◌, true, false, if◌then◌else◌, nat_eq};
ghost use Rattle.std.specs.Prelude.{OnOk};
ghost use Rattle.risc_word.specs.declared.instr.Instr.TheVariants as word;
ghost use Rattle.risc_word.specs.declared.instr.Operand.TheVariants.{Content, Constant};
ghost use Rattle.risc_word.specs.declared.instr.Operation.TheVariants as op;
ghost use Rattle.risc_word.specs.declared.instr.Condition.TheVariants as on;
ghost use Rattle.risc_emit_relation.specs.Context.{home};
ghost use Rattle.risc_emit_forms.specs.Pieces as piece;
ghost use Rattle.risc_emit_forms.specs.Forms as form;
ghost use Rattle.risc_emit.specs.Frames.{context_of};
ghost use Rattle.risc_emit.specs.Meant.{meant};

use crate::arithmetic::{Operands, is_divisor};
use crate::frame::Frame;
use crate::operands::{
    fetch, fetch_length, finish, put_divisor, put_modulus, receive, right, save, target,
};
use crate::pieces::{Piece, Pieces};
use crate::words::{computed, constant, idle, r12, r15, set, skip};
use risc_word::{Condition, Instr, Operand as Right, Operation, Register};
use tac_code::code::{Operand, OutOfMemory};

// The floored quotient in a register rounded toward zero.
fn put_rounded(pieces: &mut Pieces, register: Register) -> Result<(), OutOfMemory>
    ensures { OnOk result (pieces.new ≡ pieces.old ++ form.rounded register) }
{
    pieces.all(&[
        Piece::Plain(skip(Condition::Plus, 3)),
        Piece::Plain(Instr::MoveHigh { to: r15() }),
        Piece::Plain(skip(Condition::Equal, 1)),
        Piece::Plain(computed(Operation::Add, register, register, constant(1))),
    ])
}

// The quotient by R15.
fn put_quotient(frame: &Frame<'_>, pieces: &mut Pieces, left: u32) -> Result<(), OutOfMemory>
    ensures { OnOk result (pieces.new ≡ pieces.old ++ form.quotient (context_of frame.now) frame.now.number left) }
{
    let dividend = fetch(frame, pieces, r12(), left)?;
    pieces.plain(computed(Operation::Div, r12(), dividend, Right::Content(r15())))?;
    put_rounded(pieces, r12())
}

// By the least integer: 1 or 0.
fn put_quotient_by_least(
    frame: &Frame<'_>,
    pieces: &mut Pieces,
    left: u32,
) -> Result<(), OutOfMemory>
    ensures { OnOk result (pieces.new ≡ pieces.old ++ form.quotient_by_least
        (context_of frame.now) frame.now.number left) }
{
    let dividend = fetch(frame, pieces, r12(), left)?;
    pieces.all(&[
        Piece::Plain(computed(Operation::Sub, r12(), dividend, Right::Content(r15()))),
        Piece::Plain(skip(Condition::Equal, 2)),
        Piece::Plain(set(r12(), 0)),
        Piece::Plain(skip(Condition::Always, 1)),
        Piece::Plain(set(r12(), 1)),
    ])
}

// How many words a quotient takes, and the two that a divisor below 0 needs.
fn quotient_length(frame: &Frame<'_>, left: u32) -> i32
    ensures length { result ≡ pos (length (form.quotient (context_of frame.now) frame.now.number left)) }
    ensures low { pos 0 ≤ℤ result }
    ensures high { result ≤ℤ pos 9 }
{
    fetch_length(frame, left) + 5
}

fn least_length(frame: &Frame<'_>, left: u32) -> i32
    ensures length { result ≡ pos (length (form.quotient_by_least (context_of frame.now) frame.now.number left)) }
    ensures low { pos 0 ≤ℤ result }
    ensures high { result ≤ℤ pos 9 }
{
    fetch_length(frame, left) + 5
}

fn negative_length(frame: &Frame<'_>, left: u32, error: u8, line: u16) -> i32
    ensures length { result ≡ pos (length (form.quotient_by_negative
        (context_of frame.now) frame.now.number left error line)) }
    ensures low { pos 0 ≤ℤ result }
    ensures high { result ≤ℤ pos 25 }
{
    let _ = (error, line);
    quotient_length(frame, left) + least_length(frame, left) + 7
}

// The divisor below 0 is negated, and then the quotient.
fn put_negated(frame: &Frame<'_>, pieces: &mut Pieces, left: u32) -> Result<(), OutOfMemory>
    ensures { OnOk result (pieces.new ≡ pieces.old
        ++ (piece.Plain (word.Move 12 (Constant (pos 0))) ∷ piece.Plain (word.Operate op.Sub 15 12 (Content 15))
        ∷ form.skip on.OverflowSet (length (form.quotient (context_of frame.now) frame.now.number left) + 4)
        ∷ form.quotient (context_of frame.now) frame.now.number left)) }
{
    pieces.all(&[
        Piece::Plain(set(r12(), 0)),
        Piece::Plain(computed(Operation::Sub, r15(), r12(), Right::Content(r15()))),
        Piece::Plain(skip(Condition::OverflowSet, quotient_length(frame, left) + 4)),
    ])?;
    put_quotient(frame, pieces, left)
}

// A negation that is not an integer is an error, unless there can't be one.
fn opposite_test(error: u8, line: u16) -> Piece
    ensures { meant result ≡ (if nat_eq error 0 then form.idle else piece.Fails on.OverflowSet error line) }
{
    if error == 0 {
        Piece::Plain(idle())
    } else {
        Piece::Fails(Condition::OverflowSet, error, line)
    }
}

// The quotient is negated; the least divisor has words of its own.
fn put_negated_back(
    frame: &Frame<'_>,
    pieces: &mut Pieces,
    left: u32,
    error: u8,
    line: u16,
) -> Result<(), OutOfMemory>
    ensures { OnOk result (pieces.new ≡ pieces.old
        ++ (piece.Plain (word.Move 15 (Constant (pos 0))) ∷ piece.Plain (word.Operate op.Sub 12 15 (Content 12))
        ∷ form.opposite_test (context_of frame.now) frame.now.number error line ∷ form.skip on.Always
        (length (form.quotient_by_least (context_of frame.now) frame.now.number left)) ∷ form.quotient_by_least
        (context_of frame.now) frame.now.number left)) }
{
    pieces.all(&[
        Piece::Plain(set(r15(), 0)),
        Piece::Plain(computed(Operation::Sub, r12(), r15(), Right::Content(r12()))),
        opposite_test(error, line),
        Piece::Plain(skip(Condition::Always, least_length(frame, left))),
    ])?;
    put_quotient_by_least(frame, pieces, left)
}

// By a divisor below 0.
fn put_quotient_by_negative(
    frame: &Frame<'_>,
    pieces: &mut Pieces,
    left: u32,
    error: u8,
    line: u16,
) -> Result<(), OutOfMemory>
    ensures { OnOk result (pieces.new ≡ pieces.old ++ form.quotient_by_negative
        (context_of frame.now) frame.now.number left error line) }
{
    put_negated(frame, pieces, left)?;
    put_negated_back(frame, pieces, left, error, line)
}

// By an immediate above 0.
fn put_division(
    frame: &Frame<'_>,
    pieces: &mut Pieces,
    to: Register,
    left: u32,
    operand: Operand,
) -> Result<(), OutOfMemory>
    requires { form.is_divisor operand ≡ true }
    ensures { OnOk result (pieces.new ≡ pieces.old
        ++ (form.fetch (context_of frame.now) frame.now.number 12 (home (context_of frame.now) frame.now.number left)
        ++ piece.Plain (word.Operate op.Div to (form.fetched (context_of frame.now) frame.now.number 12
        (home (context_of frame.now) frame.now.number left))
        (form.right_operand (context_of frame.now) frame.now.number operand)) ∷ [])) }
{
    let dividend = fetch(frame, pieces, r12(), left)?;
    let divisor = right(frame, pieces, operand)?;
    pieces.plain(computed(Operation::Div, to, dividend, divisor))
}

fn put_divide_by_any(
    frame: &Frame<'_>,
    pieces: &mut Pieces,
    operands: Operands,
    error: u8,
    line: u16,
) -> Result<(), OutOfMemory>
    requires { form.is_divisor operands.right ≡ false }
    ensures { OnOk result (pieces.new ≡ pieces.old ++ form.divide_form
        (context_of frame.now) frame.now.number operands.to operands.left operands.right error line) }
{
    put_divisor(frame, pieces, operands.right)?;
    pieces.all(&[
        Piece::Fails(Condition::Equal, 2, line),
        Piece::Plain(skip(Condition::Minus, quotient_length(frame, operands.left) + 1)),
    ])?;
    put_quotient(frame, pieces, operands.left)?;
    pieces.plain(skip(
        Condition::Always,
        negative_length(frame, operands.left, error, line),
    ))?;
    put_quotient_by_negative(frame, pieces, operands.left, error, line)?;
    receive(frame, pieces, operands.to)
}

pub(super) fn put_divide(
    frame: &Frame<'_>,
    pieces: &mut Pieces,
    operands: Operands,
    error: u8,
    line: u16,
) -> Result<(), OutOfMemory>
    ensures { OnOk result (pieces.new ≡ pieces.old ++ form.divide_form
        (context_of frame.now) frame.now.number operands.to operands.left operands.right error line) }
{
    if !is_divisor(operands.right) {
        return put_divide_by_any(frame, pieces, operands, error, line);
    }
    let register = target(frame, operands.to);
    put_division(frame, pieces, register, operands.left, operands.right)?;
    put_rounded(pieces, register)?;
    save(frame, pieces, operands.to)
}

fn put_modulo_by_any(
    frame: &Frame<'_>,
    pieces: &mut Pieces,
    operands: Operands,
    line: u16,
) -> Result<(), OutOfMemory>
    requires { form.is_divisor operands.right ≡ false }
    ensures { OnOk result (pieces.new ≡ pieces.old ++ form.modulo_form
        (context_of frame.now) frame.now.number operands.to operands.left operands.right line) }
{
    let modulus = put_modulus(frame, pieces, operands.right)?;
    pieces.all(&[
        Piece::Plain(computed(Operation::Sub, r12(), modulus, constant(1))),
        Piece::Fails(Condition::Less, 3, line),
    ])?;
    let dividend = fetch(frame, pieces, r12(), operands.left)?;
    let remainder = [
        Piece::Plain(computed(Operation::Div, r12(), dividend, Right::Content(modulus))),
        Piece::Plain(Instr::MoveHigh {
            to: target(frame, operands.to),
        }),
    ];
    finish(frame, pieces, &remainder, operands.to)
}

// What H holds after a division is Pascal's mod.
pub(super) fn put_modulo(
    frame: &Frame<'_>,
    pieces: &mut Pieces,
    operands: Operands,
    line: u16,
) -> Result<(), OutOfMemory>
    ensures { OnOk result (pieces.new ≡ pieces.old ++ form.modulo_form
        (context_of frame.now) frame.now.number operands.to operands.left operands.right line) }
{
    if !is_divisor(operands.right) {
        return put_modulo_by_any(frame, pieces, operands, line);
    }
    put_division(frame, pieces, r12(), operands.left, operands.right)?;
    let remainder = Instr::MoveHigh {
        to: target(frame, operands.to),
    };
    finish(frame, pieces, &[Piece::Plain(remainder)], operands.to)
}
