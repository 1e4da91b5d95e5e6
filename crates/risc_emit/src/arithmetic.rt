// Operations on numbers.

mod division;

ghost use Rattle.std.specs.Prelude.{◌≡◌, ◌+◌, ◌++◌, [], ◌∷◌};
ghost use Rattle.std.specs.Prelude.{OnOk};
ghost use Rattle.risc_word.specs.declared.instr.Condition.TheVariants as on;
ghost use Rattle.risc_emit_relation.specs.Context.{home};
ghost use Rattle.risc_emit_forms.specs.Pieces as piece;
ghost use Rattle.risc_emit_forms.specs.Forms as form;
ghost use Rattle.risc_emit.specs.Frames.{context_of};
ghost use Rattle.risc_emit.specs.Meant.{all_meant};

use crate::arithmetic::division::{put_divide, put_modulo};
use crate::frame::Frame;
use crate::operands::{finish, is_flagged, put_operation, save, target};
use crate::pieces::{Piece, Pieces};
use crate::words::{computed, constant, r12, r15, set, skip};
use risc_word::{Condition, Instr, Operation};
use tac_code::code::{BitOperator, Operand, Operator, OutOfMemory, Relation};

/// The operands of an operation, and the temporary for its result.
#[derive(Clone, Copy)]
pub(crate) struct Operands {
    pub(crate) to: u32,
    pub(crate) left: u32,
    pub(crate) right: Operand,
}

fn is_divisor(operand: Operand) -> bool
    ensures { result ≡ form.is_divisor operand }
{
    match operand {
        Operand::Temporary(_) => false,
        Operand::Number(value) => 0 < value && value < 65536,
    }
}

/// Whether a right operand is the number 0.
pub(crate) fn is_null(operand: Operand) -> bool
    ensures { result ≡ form.is_null operand }
{
    match operand {
        Operand::Temporary(_) => false,
        Operand::Number(value) => value == 0,
    }
}

fn bit_operation(operator: BitOperator) -> Operation
    ensures { result ≡ form.bit_operation operator }
{
    match operator {
        BitOperator::And => Operation::And,
        BitOperator::Or => Operation::Ior,
        BitOperator::AndNot => Operation::Ann,
        BitOperator::ShiftLeft => Operation::Lsl,
        BitOperator::Plus => Operation::Add,
    }
}

/// The condition under which a relation holds, after the left operand minus the right one.
pub(crate) fn condition_of(relation: Relation) -> Condition
    ensures { result ≡ form.condition relation }
{
    match relation {
        Relation::Equal => Condition::Equal,
        Relation::NotEqual => Condition::NotEqual,
        Relation::Less => Condition::Less,
        Relation::LessEqual => Condition::LessEqual,
        Relation::Greater => Condition::Greater,
        Relation::GreaterEqual => Condition::GreaterEqual,
    }
}

/// R12 takes the left operand less the right one, with the flags.
pub(crate) fn put_difference(
    frame: &Frame<'_>,
    pieces: &mut Pieces,
    left: u32,
    operand: Operand,
) -> Result<(), OutOfMemory>
    ensures { OnOk result (pieces.new ≡ pieces.old ++ form.both (context_of frame.now) frame.now.number left operand
        (form.difference (context_of frame.now) frame.now.number left operand ∷ [])) }
{
    put_operation(frame, pieces, Operation::Sub, r12(), left, operand)
}

fn put_operate(
    frame: &Frame<'_>,
    pieces: &mut Pieces,
    operation: Operation,
    operands: Operands,
) -> Result<(), OutOfMemory>
    ensures { OnOk result (pieces.new ≡ pieces.old ++ form.both (context_of frame.now) frame.now.number operands.left
        operands.right (form.operate (context_of frame.now) frame.now.number operation
        (home (context_of frame.now) frame.now.number operands.to) operands.left operands.right ∷ [])) }
{
    put_operation(
        frame,
        pieces,
        operation,
        target(frame, operands.to),
        operands.left,
        operands.right,
    )
}

pub(crate) fn put_bits(
    frame: &Frame<'_>,
    pieces: &mut Pieces,
    operator: BitOperator,
    operands: Operands,
) -> Result<(), OutOfMemory>
    ensures { OnOk result (pieces.new ≡ pieces.old ++ form.both (context_of frame.now) frame.now.number operands.left
        operands.right (form.operate (context_of frame.now) frame.now.number (form.bit_operation operator)
        (home (context_of frame.now) frame.now.number operands.to) operands.left operands.right ∷ form.save
        (context_of frame.now) frame.now.number (home (context_of frame.now) frame.now.number operands.to))) }
{
    put_operate(frame, pieces, bit_operation(operator), operands)?;
    save(frame, pieces, operands.to)
}

// Whether a temporary's register already holds its difference from 0, with N and Z.
fn is_own(frame: &Frame<'_>, flagged: Option<u32>, operands: Operands) -> bool
    ensures { result ≡ form.is_own (context_of frame.now) frame.now.number flagged operands.to operands.left
        operands.right }
{
    let Operands { to, left, right } = operands;
    is_flagged(frame, flagged, left) && (to == left && is_null(right))
}

// A difference that is not 0 becomes 1.
fn put_one(frame: &Frame<'_>, pieces: &mut Pieces, to: u32) -> Result<(), OutOfMemory>
    ensures { OnOk result (pieces.new ≡ pieces.old ++ form.unlike (context_of frame.now) frame.now.number to) }
{
    let different = [
        Piece::Plain(skip(Condition::Equal, 1)),
        Piece::Plain(set(target(frame, to), 1)),
    ];
    finish(frame, pieces, &different, to)
}

// Whether two values differ.
fn put_unlike(
    frame: &Frame<'_>,
    pieces: &mut Pieces,
    flagged: Option<u32>,
    operands: Operands,
) -> Result<(), OutOfMemory>
    ensures { OnOk result (pieces.new ≡ pieces.old ++ form.unlike_form
        (context_of frame.now) frame.now.number flagged operands.to operands.left operands.right) }
{
    if !is_own(frame, flagged, operands) {
        put_operate(frame, pieces, Operation::Sub, operands)?;
    }
    put_one(frame, pieces, operands.to)
}

// Whether a relation holds.
fn put_truth(
    frame: &Frame<'_>,
    pieces: &mut Pieces,
    relation: Relation,
    operands: Operands,
) -> Result<(), OutOfMemory>
    ensures { OnOk result (pieces.new ≡ pieces.old ++ form.truth_form
        (context_of frame.now) frame.now.number relation operands.to operands.left operands.right) }
{
    let register = target(frame, operands.to);
    put_difference(frame, pieces, operands.left, operands.right)?;
    let truth = [
        Piece::Plain(skip(condition_of(relation), 2)),
        Piece::Plain(set(register, 0)),
        Piece::Plain(skip(Condition::Always, 1)),
        Piece::Plain(set(register, 1)),
    ];
    finish(frame, pieces, &truth, operands.to)
}

pub(crate) fn put_compare(
    frame: &Frame<'_>,
    pieces: &mut Pieces,
    flagged: Option<u32>,
    relation: Relation,
    operands: Operands,
) -> Result<(), OutOfMemory>
    ensures { OnOk result (pieces.new ≡ pieces.old ++ form.compare_form
        (context_of frame.now) frame.now.number flagged relation operands.to operands.left operands.right) }
{
    match relation {
        Relation::NotEqual => put_unlike(frame, pieces, flagged, operands),
        Relation::Equal
        | Relation::Less
        | Relation::LessEqual
        | Relation::Greater
        | Relation::GreaterEqual => put_truth(frame, pieces, relation, operands),
    }
}

// The words of a test, unless it can't fail, and then what was made goes to the temporary's slot.
fn finish_tested(
    frame: &Frame<'_>,
    pieces: &mut Pieces,
    test: &[Piece],
    error: u8,
    to: u32,
) -> Result<(), OutOfMemory>
    ensures { OnOk result (pieces.new ≡ pieces.old ++ form.tested error (all_meant test.now)
        (form.save (context_of frame.now) frame.now.number (home (context_of frame.now) frame.now.number to))) }
{
    if error != 0 {
        pieces.all(test)?;
    }
    save(frame, pieces, to)
}

// A sum or a difference.
fn put_sum(
    frame: &Frame<'_>,
    pieces: &mut Pieces,
    operation: Operation,
    operands: Operands,
    error: u8,
    line: u16,
) -> Result<(), OutOfMemory>
    ensures { OnOk result (pieces.new ≡ pieces.old ++ form.both (context_of frame.now) frame.now.number operands.left
        operands.right (form.operate (context_of frame.now) frame.now.number operation
        (home (context_of frame.now) frame.now.number operands.to) operands.left operands.right ∷ form.tested error
        (piece.Fails on.OverflowSet error line ∷ []) (form.save (context_of frame.now) frame.now.number
        (home (context_of frame.now) frame.now.number operands.to)))) }
{
    put_operate(frame, pieces, operation, operands)?;
    let fails = Piece::Fails(Condition::OverflowSet, error, line);
    finish_tested(frame, pieces, &[fails], error, operands.to)
}

// The product in its home, after a test that it has 32 bits.
fn put_product(
    frame: &Frame<'_>,
    pieces: &mut Pieces,
    operands: Operands,
    error: u8,
    line: u16,
) -> Result<(), OutOfMemory>
    ensures { OnOk result (pieces.new ≡ pieces.old ++ form.multiply_form
        (context_of frame.now) frame.now.number operands.to operands.left operands.right error line) }
{
    put_operate(frame, pieces, Operation::Mul, operands)?;
    // R15 becomes 0 if the product has 32 bits: H is 0, or all ones above a negative low word.
    let beyond = [
        Piece::Plain(skip(Condition::Plus, 3)),
        Piece::Plain(Instr::MoveHigh { to: r15() }),
        Piece::Plain(computed(Operation::Add, r15(), r15(), constant(1))),
        Piece::Plain(skip(Condition::Always, 1)),
        Piece::Plain(Instr::MoveHigh { to: r15() }),
        Piece::Fails(Condition::NotEqual, error, line),
    ];
    finish_tested(frame, pieces, &beyond, error, operands.to)
}

pub(crate) fn put_arithmetic(
    frame: &Frame<'_>,
    pieces: &mut Pieces,
    operator: Operator,
    operands: Operands,
    error: u8,
    line: u16,
) -> Result<(), OutOfMemory>
    ensures { OnOk result (pieces.new ≡ pieces.old ++ form.arithmetic_form
        (context_of frame.now) frame.now.number operator operands.to operands.left operands.right error line) }
{
    match operator {
        Operator::Add => put_sum(frame, pieces, Operation::Add, operands, error, line),
        Operator::Subtract => put_sum(frame, pieces, Operation::Sub, operands, error, line),
        Operator::Multiply => put_product(frame, pieces, operands, error, line),
        Operator::Divide => put_divide(frame, pieces, operands, error, line),
        Operator::Modulo => put_modulo(frame, pieces, operands, line),
    }
}
