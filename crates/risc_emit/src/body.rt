// The words of each instruction.

ghost use Rattle.std.specs.Prelude.{◌≡◌, suc, ◌+◌, ◌-◌, ◌<◌, ◌≤◌, ◌++◌, OnOk};
ghost use Rattle.risc_emit_relation.specs.Context.{home};
ghost use Rattle.risc_emit_forms.specs.Peephole.{flagged_at, deferred_at};
ghost use Rattle.risc_emit_forms.specs.Pieces.{AtPlace, AtText};
ghost use Rattle.risc_emit_forms.specs.Forms as form;
ghost use Rattle.risc_emit.specs.Frames.{context_of};
ghost use Rattle.risc_emit.specs.Meant.{label_of};
ghost use Rattle.risc_emit.specs.Passes.{PassesFew, LoadsNear, AimsNear};

use crate::arithmetic::{
    Operands, condition_of, is_null, put_arithmetic, put_bits, put_compare, put_difference,
};
use crate::calls::{put_call, put_call_value, put_end, put_new, put_put, put_return, put_take};
use crate::checks::{Component, Destination, Test, put_check, put_index, put_pointer_check};
use crate::frame::Frame;
use crate::memory::{put_label, put_load_form, put_offset, put_store_form, put_word_form};
use crate::numbers::put_number;
use crate::operands::{is_flagged, put_copy, save, target};
use crate::pieces::{Label, Piece, Pieces, WORD_LIMIT};
use risc_word::{Condition, Register, Width};
use tac_code::code::{Instruction, Operand, OutOfMemory, Relation};

fn put_literal(
    frame: &Frame<'_>,
    pieces: &mut Pieces,
    to: u32,
    value: i32,
) -> Result<(), OutOfMemory>
    ensures { OnOk result (pieces.new ≡ pieces.old
        ++ (form.number (form.target (context_of frame.now) frame.now.number
        (home (context_of frame.now) frame.now.number to)) value ++ form.save (context_of frame.now) frame.now.number
        (home (context_of frame.now) frame.now.number to))) }
{
    put_number(pieces, target(frame, to), value)?;
    save(frame, pieces, to)
}

// The label of the constant of a place.
fn constant_of(routine: usize, place: usize) -> Label
    requires routine { routine < WORD_LIMIT }
    requires place { place < WORD_LIMIT }
    ensures { label_of result ≡ AtText routine place }
{
    Label::Text(routine as u32, place as u32)
}

// The label of the instruction `distance` on from the one after a place.
fn ahead(routine: usize, place: usize, distance: u64) -> Label
    requires routine { routine < WORD_LIMIT }
    requires place { suc place + distance < WORD_LIMIT }
    ensures { label_of result ≡ AtPlace routine (suc place + distance) }
{
    Label::Place(routine as u32, (place + 1 + distance as usize) as u32)
}

// The label of the instruction `distance` back from a place.
fn behind(routine: usize, place: usize, distance: u64) -> Label
    requires routine { routine < WORD_LIMIT }
    requires place { place < WORD_LIMIT }
    requires within { distance ≤ place }
    ensures { label_of result ≡ AtPlace routine (place - distance) }
{
    Label::Place(routine as u32, (place - distance as usize) as u32)
}

// The condition for a comparison with 0 by N and Z alone.
fn brief(relation: Relation) -> Option<Condition>
    ensures { result ≡ form.brief relation }
{
    match relation {
        Relation::Equal => Some(Condition::Equal),
        Relation::NotEqual => Some(Condition::NotEqual),
        Relation::Less => Some(Condition::Minus),
        Relation::GreaterEqual => Some(Condition::Plus),
        Relation::LessEqual | Relation::Greater => None,
    }
}

// The condition of a branch for which no difference is needed.
fn branch_choice(
    frame: &Frame<'_>,
    flagged: Option<u32>,
    relation: Relation,
    left: u32,
    right: Operand,
) -> Option<Condition>
    ensures { result ≡ form.branch_choice (context_of frame.now) frame.now.number flagged relation left right }
{
    if is_flagged(frame, flagged, left) && is_null(right) {
        brief(relation)
    } else {
        None
    }
}

fn put_branch(
    frame: &Frame<'_>,
    pieces: &mut Pieces,
    flagged: Option<u32>,
    relation: Relation,
    left: u32,
    right: Operand,
    label: Label,
) -> Result<(), OutOfMemory>
    ensures { OnOk result (pieces.new ≡ pieces.old ++ form.branch_form
        (context_of frame.now) frame.now.number flagged relation left right (label_of label)) }
{
    if let Some(condition) = branch_choice(frame, flagged, relation, left, right) {
        return pieces.push(Piece::Goes(condition, label));
    }
    put_difference(frame, pieces, left, right)?;
    pieces.push(Piece::Goes(condition_of(relation), label))
}

/// What is known at an instruction: its place, the temporary whose sign N and Z show, and the register that is short of
/// an offset, there and at the next place.
#[derive(Clone, Copy)]
pub(crate) struct Known {
    pub(crate) place: usize,
    pub(crate) flagged: Option<u32>,
    pub(crate) deferred: Option<(Register, i64)>,
    pub(crate) next: Option<(Register, i64)>,
}

/// The words of the instruction at a place, where N and Z may be those of a temporary's register, and a register may be
/// short of an offset, there or at the next place.
#[inline(always)]
pub(crate) fn put_instruction(
    frame: &Frame<'_>,
    pieces: &mut Pieces,
    known: Known,
    instruction: &Instruction,
) -> Result<(), OutOfMemory>
    requires routine { frame.now.number < WORD_LIMIT }
    requires place { known.place < WORD_LIMIT }
    requires aims { AimsNear known.place instruction.now }
    requires few { PassesFew instruction.now }
    requires flagged { known.flagged ≡ flagged_at (context_of frame.now) frame.now.number known.place }
    requires deferred { known.deferred ≡ deferred_at (context_of frame.now) frame.now.number known.place }
    requires next { known.next ≡ deferred_at (context_of frame.now) frame.now.number (suc known.place) }
    requires near { LoadsNear instruction.now known.deferred }
    ensures { OnOk result (pieces.new ≡ pieces.old ++ form.form
        (context_of frame.now) frame.now.number known.place instruction.now) }
{
    let Known {
        place,
        flagged,
        deferred,
        next,
    } = known;
    let r = frame.number();
    match instruction {
        Instruction::Literal { to, value } => put_literal(frame, pieces, *to, *value),
        Instruction::Copy { to, from } => put_copy(frame, pieces, *to, *from),
        Instruction::Arithmetic {
            operator,
            to,
            left,
            right,
            error,
            line,
        } => put_arithmetic(
            frame,
            pieces,
            *operator,
            Operands {
                to: *to,
                left: *left,
                right: *right,
            },
            *error,
            *line,
        ),
        Instruction::Bits {
            operator,
            to,
            left,
            right,
        } => put_bits(
            frame,
            pieces,
            *operator,
            Operands {
                to: *to,
                left: *left,
                right: *right,
            },
        ),
        Instruction::Compare {
            relation,
            to,
            left,
            right,
        } => put_compare(
            frame,
            pieces,
            flagged,
            *relation,
            Operands {
                to: *to,
                left: *left,
                right: *right,
            },
        ),
        Instruction::CheckRange {
            value,
            low,
            high,
            error,
            line,
        } => put_check(
            frame,
            pieces,
            *value,
            Test {
                low: *low,
                high: *high,
                error: *error,
                line: *line,
            },
        ),
        Instruction::CheckPointer {
            pointer,
            error,
            line,
        } => put_pointer_check(frame, pieces, flagged, *pointer, *error, *line),
        Instruction::Text { to, .. } => put_label(frame, pieces, *to, constant_of(r, place)),
        Instruction::Offset {
            to,
            base,
            bytes,
            ..
        } => put_offset(frame, pieces, *to, *base, *bytes),
        Instruction::Index {
            to,
            base,
            index,
            low,
            high,
            width,
            error,
            line,
        } => put_index(
            frame,
            pieces,
            Destination {
                deferred: next,
                to: *to,
            },
            Component {
                base: *base,
                index: *index,
                test: Test {
                    low: *low,
                    high: *high,
                    error: *error,
                    line: *line,
                },
                width: *width,
            },
        ),
        Instruction::RoutineValue { to, routine } => put_label(
            frame,
            pieces,
            *to,
            Label::Entry(*routine),
        ),
        Instruction::Load { to, base, offset } => put_word_form(
            frame, pieces, deferred, *to, *base, *offset,
        ),
        Instruction::Store { base, offset, from } => put_store_form(
            frame,
            pieces,
            Width::Word,
            *base,
            *offset,
            *from,
        ),
        Instruction::LoadByte { to, base, offset } => put_load_form(
            frame,
            pieces,
            Width::Byte,
            *to,
            *base,
            *offset,
        ),
        Instruction::StoreByte { base, offset, from } => put_store_form(
            frame,
            pieces,
            Width::Byte,
            *base,
            *offset,
            *from,
        ),
        Instruction::Jump { forward } => pieces.push(Piece::Goes(
            Condition::Always,
            ahead(r, place, *forward),
        )),
        Instruction::JumpBack { back } => pieces.push(Piece::Goes(
            Condition::Always,
            behind(r, place, *back),
        )),
        Instruction::Branch {
            relation,
            left,
            right,
            forward,
        } => put_branch(
            frame,
            pieces,
            flagged,
            *relation,
            *left,
            *right,
            ahead(r, place, *forward),
        ),
        Instruction::BranchBack {
            relation,
            left,
            right,
            back,
        } => put_branch(
            frame,
            pieces,
            flagged,
            *relation,
            *left,
            *right,
            behind(r, place, *back),
        ),
        Instruction::Call {
            to,
            routine,
            operands,
            line,
        } => put_call(frame, pieces, *to, *routine, operands.as_slice(), *line),
        Instruction::CallValue {
            to,
            callee,
            operands,
            line,
        } => put_call_value(frame, pieces, *to, *callee, operands.as_slice(), *line),
        Instruction::Return { from } => put_return(frame, pieces, *from),
        Instruction::Trap { error, line } => pieces.push(Piece::Fails(
            Condition::Always,
            *error,
            *line,
        )),
        Instruction::Take { to } => put_take(frame, pieces, *to),
        Instruction::Put { from } => put_put(frame, pieces, *from),
        Instruction::New {
            to,
            object_type,
            line,
        } => put_new(frame, pieces, *to, frame.object_bytes(*object_type), *line),
        Instruction::End => put_end(frame, pieces),
    }
}
