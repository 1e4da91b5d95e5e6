// The pieces of a whole code, with the words of its constants, and where each is.

ghost use Rattle.std.specs.Prelude.{◌≡◌, suc, ◌+◌, ◌*◌, ◌<◌, ◌≤◌, [], ◌∷◌, ◌++◌, length, take, slice_get, get_or};
ghost use Rattle.std.specs.Prelude.{nat_lt, false, Some, OnOk, IfOk, IfErr};
ghost use Rattle.std.specs.Int.{w32, from_le_bytes};
ghost use Rattle.tac_code.specs.Meaning.{routines};
ghost use Rattle.risc_alloc.specs.Valid.{Valid};
ghost use Rattle.risc_emit_forms.specs.Peephole.{flagged_at, deferred_at};
ghost use Rattle.risc_emit_forms.specs.Forms as form;
ghost use Rattle.risc_emit_laws.specs.Drawn.{program_pieces, routine_pieces, entry_place, text_words};
ghost use Rattle.risc_emit_laws.specs.Drawn.{instruction_texts, body_texts, routines_texts};
ghost use Rattle.risc_emit.specs.Frames.{context_of};
ghost use Rattle.risc_emit.specs.Layout.{laid_out};
ghost use Rattle.risc_emit.specs.Passes.{PassesFew, LoadsNear, AimsNear};
ghost use Rattle.risc_emit.specs.Marked.{mark_of, AreMarksOf, AreMarked};
ghost use Rattle.risc_emit.specs.Emitted.{code_words};
ghost use Rattle.risc_emit.specs.declared.emit.EmitRefusal.TheVariants.{CodeTooLarge};

use crate::body::{Known, put_instruction};
use crate::deferred::deferred;
use crate::emit::EmitRefusal;
use crate::entry::{put_entry, put_start};
use crate::flagged::{flagged, jumped_places};
use crate::frame::Frame;
use crate::marks::{Mark, Marks};
use crate::pieces::{Pieces, WORD_LIMIT};
use risc_alloc::homes::Home;
use risc_image::MAX_COUNT;
use std::alloc::Global;
use tac_code::code::{Instruction, OutOfMemory, TacRoutine};
use tac_code::tac::Tac;

/// The most words of an image's code, constants included.
const LIMIT: usize = MAX_COUNT as usize;

/// More than the words of any instruction.
const MOST_OVER: usize = 128;

/// What is written before the places of words are known: the pieces, the words of all constants, and the marks of each
/// routine.
#[derive(Drop)]
pub(crate) struct Draft {
    pub pieces: Pieces,
    pub texts: Vec<u32>,
    pub marks: Vec<Marks>,
}

/// Whether these pieces and these words of constants are more than an image holds.
pub(crate) fn is_too_large(pieces: &Pieces, texts: &[u32]) -> bool
    ensures { result ≡ nat_lt MAX_COUNT (length pieces.now + length texts.now) }
{
    pieces.len() > LIMIT || texts.len() > LIMIT - pieces.len()
}

// Word k, its lowest byte first.
fn word_at(bytes: &[u8], k: usize) -> u32
    requires { 4 * k + 4 ≤ length bytes.now }
    ensures { result ≡ from_le_bytes w32 (get_or bytes.now (4 * k) 0 ∷ get_or bytes.now (4 * k + 1) 0 ∷ get_or bytes.now
        (4 * k + 2) 0 ∷ get_or bytes.now (4 * k + 3) 0 ∷ []) }
{
    let at = 4 * k;
    u32::from_le_bytes([bytes[at], bytes[at + 1], bytes[at + 2], bytes[at + 3]])
}

// The words of a constant.
fn put_words(texts: &mut Vec<u32>, bytes: &[u8]) -> Result<(), OutOfMemory>
    ensures { OnOk result (texts.new.items ≡ texts.old.items ++ text_words bytes.now) }
{
    for k in 0..bytes.len() / 4 {
        texts.push(word_at(bytes, k))?;
    }
    Ok(())
}

fn put_text(texts: &mut Vec<u32>, instruction: &Instruction) -> Result<(), OutOfMemory>
    ensures { OnOk result (texts.new.items ≡ texts.old.items ++ instruction_texts instruction.now) }
{
    match instruction {
        Instruction::Text { bytes, .. } => put_words(texts, bytes.as_slice()),
        _ => Ok(()),
    }
}

// The mark of a place, with the words so far, which 32 bits hold as long as they are no more than an image holds.
fn mark_of(pieces: &Pieces, texts: &[u32]) -> Mark
    requires { length pieces.now + length texts.now ≤ MAX_COUNT }
    ensures { result ≡ mark_of (length pieces.now) (length texts.now) }
{
    Mark {
        site: pieces.len() as u32,
        text: texts.len() as u32,
    }
}

// The mark of a place, with the pieces and the constant's words of its instruction.
#[inline(always)]
fn put_place(
    frame: &Frame<'_>,
    pieces: &mut Pieces,
    texts: &mut Vec<u32>,
    places: &mut Vec<Mark>,
    known: Known,
    instruction: &Instruction,
) -> Result<(), OutOfMemory>
    requires room { length pieces.now + length texts.now.items ≤ MAX_COUNT }
    requires routine { frame.now.number < WORD_LIMIT }
    requires place { known.place < WORD_LIMIT }
    requires aims { AimsNear known.place instruction.now }
    requires few { PassesFew instruction.now }
    requires flagged { known.flagged ≡ flagged_at (context_of frame.now) frame.now.number known.place }
    requires deferred { known.deferred ≡ deferred_at (context_of frame.now) frame.now.number known.place }
    requires next { known.next ≡ deferred_at (context_of frame.now) frame.now.number (suc known.place) }
    requires near { LoadsNear instruction.now known.deferred }
    ensures pieces { OnOk result (pieces.new ≡ pieces.old ++ form.form
        (context_of frame.now) frame.now.number known.place instruction.now) }
    ensures texts { OnOk result (texts.new.items ≡ texts.old.items ++ instruction_texts instruction.now) }
    ensures mark { OnOk result (places.new.items ≡ places.old.items ++ mark_of (length pieces.old)
        (length texts.old.items) ∷ []) }
{
    places.push(mark_of(pieces, texts.as_slice()))?;
    put_instruction(frame, pieces, known, instruction)?;
    put_text(texts, instruction)
}

// Whether the number of a routine or one of its places is more than a label's 32 bits hold. So many instructions would
// take 200 GB, and the lowering refuses a program with more than 1,048,576.
fn is_past_labels(number: usize, body: &[Instruction]) -> bool
    ensures { result ≡ false → (number < WORD_LIMIT) × (length body.now ≤ WORD_LIMIT) }
{
    number >= WORD_LIMIT || body.len() > WORD_LIMIT
}

// A routine's pieces, its constants' words, and the marks of its places and of the one after the last. Constants are
// shared until here: few instructions may represent more words than memory can hold, so none is written once there are
// too many.
fn put_routine(
    alloc: Global,
    frame: &Frame<'_>,
    pieces: &mut Pieces,
    texts: &mut Vec<u32>,
    routine: &TacRoutine,
) -> Result<Marks, EmitRefusal>
    requires own { slice_get (routines frame.now.code) frame.now.number ≡ Some routine.now }
    requires entry { length pieces.now ≡ entry_place (context_of frame.now) frame.now.number }
    requires first { length texts.now.items ≡ length
        (routines_texts (take frame.now.number (routines frame.now.code))) }
    ensures pieces { OnOk result (pieces.new ≡ pieces.old ++ routine_pieces
        (context_of frame.now) frame.now.number routine.now) }
    ensures texts { OnOk result (texts.new.items ≡ texts.old.items ++ body_texts routine.now.body) }
    ensures marks { IfOk result (λ marks. AreMarksOf (context_of frame.now) frame.now.number routine.now marks) }
    ensures too_large { IfErr result (λ refusal. refusal ≡ CodeTooLarge → MAX_COUNT < length
        (program_pieces (context_of frame.now)) + length (routines_texts (routines frame.now.code))) }
{
    frame.keeps_invariant();
    let body = routine.body.as_slice();
    if is_past_labels(frame.number(), body) {
        return Err(EmitRefusal::OutOfMemory);
    }
    let entry = pieces.len();
    put_entry(frame, pieces, routine)?;
    let jumped = jumped_places(alloc, body)?;
    let marks = jumped.as_slice();
    let mut places = Vec::with_capacity(alloc, body.len().saturating_add(1))?;
    // what is deferred at the next place is asked for once, and carried there
    let mut here = deferred(frame, body, marks, 0);
    for place in 0..body.len() {
        if is_too_large(pieces, texts.as_slice()) {
            return Err(EmitRefusal::CodeTooLarge);
        }
        let flagged = flagged(body, marks, place);
        let next = deferred(frame, body, marks, place + 1);
        let known = Known {
            place,
            flagged,
            deferred: here,
            next,
        };
        here = known.next;
        put_place(frame, pieces, texts, &mut places, known, &body[place])?;
    }
    if is_too_large(pieces, texts.as_slice()) {
        return Err(EmitRefusal::CodeTooLarge);
    }
    places.push(mark_of(pieces, texts.as_slice()))?;
    Ok(Marks { entry, places })
}

// How many words there may be, so that they need not be moved as they grow: two for each place, but no more than an
// image holds and the words of one instruction, after which the code is refused.
fn expected_words(tac: &Tac) -> usize {
    let mut words = 0usize;
    for routine in tac.program() {
        words = words.saturating_add(routine.body.as_slice().len().saturating_mul(2));
    }
    words.min(LIMIT.saturating_add(MOST_OVER))
}

/// All pieces of a code, with homes that are a valid placement. If there are too many, it may be refused before all are
/// written.
pub(crate) fn draft_of(alloc: Global, tac: &Tac, homes: &[Home]) -> Result<Draft, EmitRefusal>
    requires valid { Valid tac.now homes.now }
    ensures pieces { IfOk result (λ draft. draft.pieces ≡ program_pieces (laid_out tac.now homes.now)) }
    ensures texts { IfOk result (λ draft. draft.texts.items ≡ routines_texts (routines tac.now)) }
    ensures marks { IfOk result (λ draft. AreMarked (laid_out tac.now homes.now) draft.marks.items) }
    ensures too_large { IfErr result (λ refusal. refusal ≡ CodeTooLarge → MAX_COUNT < code_words tac.now homes.now) }
{
    tac.keeps_invariant();
    let mut pieces = Pieces::with_capacity(alloc, expected_words(tac))?;
    let mut texts = Vec::new(alloc);
    let mut marks = Vec::new(alloc);
    put_start(&Frame::new(tac, homes, 0, 0), &mut pieces, tac.routine(0))?;
    let mut first = 0;
    for number in 0..tac.program().len() + tac.run_time().len() {
        let frame = Frame::new(tac, homes, number, first);
        let routine = tac.routine(number);
        marks.push(put_routine(alloc, &frame, &mut pieces, &mut texts, routine)?)?;
        first += routine.temporaries as usize;
    }
    Ok(Draft {
        pieces,
        texts,
        marks,
    })
}
