//! An image's parts for three-address code.

ghost use Rattle.std.specs.Prelude.{◌≡◌, ◌<◌, ◌≤◌, ◌+◌, ◌*◌, length, slice_get, IfOk, IfErr, OnOk};
ghost use Rattle.tac_code.specs.Meaning.{routines};
ghost use Rattle.risc_alloc.specs.Valid.{Valid};
ghost use Rattle.risc_emit_laws.specs.Emits.{Emits};
ghost use Rattle.risc_emit_laws.specs.Drawn.{program_pieces, entry_place, routines_texts, frame_rows_of};
ghost use Rattle.risc_emit_laws.specs.Drawn.{object_rows_of};
ghost use Rattle.risc_emit.specs.Layout.{frame_cost, object_cost_in, laid_out};
ghost use Rattle.risc_emit.specs.Marked.{AreMarked};
ghost use Rattle.risc_emit.specs.Placed.{entry_at, placed, AreNear, AreWordsOf};
ghost use Rattle.risc_emit.specs.Emitted.{code_words, HasBounds};
ghost use Rattle.risc_emit.specs.declared.emit.EmitRefusal.TheVariants.{CodeTooLarge};

use crate::draft::{Draft, draft_of, is_too_large};
use crate::frame::object_cost;
use crate::layout::{frame_at, frame_cost};
use crate::marks::{Marks, entry_at};
use crate::pieces::{Piece, WORD_LIMIT};
use crate::resolve::{call_rows, trap_rows, words_of};
use risc_alloc::homes::Home;
use risc_alloc::placement::Placement;
use risc_image::{FrameRow, MAX_COUNT, ObjectRow, Parts};
use std::alloc::{AllocError, AllocFailed, Global};
use tac_code::code::OutOfMemory;
use tac_code::tac::Tac;

/// Why there is no image.
#[derive(Clone, Copy)]
pub enum EmitRefusal {
    /// The code would have more words than an image holds.
    CodeTooLarge,
    /// There isn't enough memory. Code with more than 2^32 routines, or instructions in one of them, is refused like
    /// this, too.
    OutOfMemory,
}

impl From<AllocError> for EmitRefusal {
    ghost use Rattle.std.specs.Prelude.{◌≡◌};
    ghost use Rattle.risc_emit.specs.declared.emit.EmitRefusal.TheVariants.{OutOfMemory};

    ghost from_gives = { λ _ e. e ≡ OutOfMemory };

    fn from(_: AllocError) -> EmitRefusal {
        EmitRefusal::OutOfMemory
    }
}

impl<T: Drop> From<AllocFailed<T>> for EmitRefusal {
    ghost use Rattle.std.specs.Prelude.{◌≡◌};
    ghost use Rattle.risc_emit.specs.declared.emit.EmitRefusal.TheVariants.{OutOfMemory};

    ghost from_gives = { λ _ e. e ≡ OutOfMemory };

    fn from(_: AllocFailed<T>) -> EmitRefusal {
        EmitRefusal::OutOfMemory
    }
}

// The address of a routine's first word.
fn address_of(marks: &[Marks], number: usize) -> u32
    requires { entry_at marks.now number ≤ MAX_COUNT }
    ensures { result ≡ 4 * entry_at marks.now number }
{
    4 * entry_at(marks, number) as u32
}

// The bytes of an activation of a routine.
fn bytes_of(tac: &Tac, number: usize) -> u32
    requires exists { number < length (routines tac.now) }
    requires small { frame_cost tac.now number < WORD_LIMIT }
    ensures { result ≡ frame_cost tac.now number }
{
    frame_cost(tac, number) as u32
}

// The row of a routine of the program.
fn frame_row(tac: &Tac, homes: &[Home], marks: &[Marks], number: usize) -> FrameRow
    requires exists { number < length tac.now.program }
    requires marks { AreMarked (laid_out tac.now homes.now) marks.now }
    requires few { code_words tac.now homes.now ≤ MAX_COUNT }
    ensures entry { result.entry ≡ 4 * entry_place (laid_out tac.now homes.now) number }
    ensures bytes { result.bytes ≡ frame_cost tac.now number }
{
    let _ = homes;
    tac.keeps_invariant();
    FrameRow {
        entry: address_of(marks, number),
        bytes: bytes_of(tac, number),
    }
}

// A row for each routine of the program.
fn frame_rows(
    alloc: Global,
    tac: &Tac,
    homes: &[Home],
    marks: &[Marks],
) -> Result<Vec<FrameRow>, OutOfMemory>
    requires marks { AreMarked (laid_out tac.now homes.now) marks.now }
    requires few { code_words tac.now homes.now ≤ MAX_COUNT }
    ensures { IfOk result (λ rows. rows.items ≡ frame_rows_of (laid_out tac.now homes.now) 0 tac.now.program) }
{
    let mut rows = Vec::new(alloc);
    for number in 0..tac.program().len() {
        rows.push(frame_row(tac, homes, marks, number))?;
    }
    Ok(rows)
}

// The bytes of an object of a type.
fn object_bytes(tac: &Tac, number: usize) -> u32
    ensures { result ≡ object_cost_in (slice_get tac.now.objects number) }
{
    match tac.objects().get(number) {
        None => 0,
        Some(bytes) => object_cost(*bytes),
    }
}

// A row for each type of objects.
fn object_rows(alloc: Global, tac: &Tac, homes: &[Home]) -> Result<Vec<ObjectRow>, OutOfMemory>
    ensures { IfOk result (λ rows. rows.items ≡ object_rows_of (laid_out tac.now homes.now) 0 tac.now.objects) }
{
    let _ = homes;
    tac.keeps_invariant();
    let mut rows = Vec::new(alloc);
    for number in 0..tac.objects().len() {
        rows.push(ObjectRow {
            pointer_type: number as u32,
            bytes: object_bytes(tac, number),
        })?;
    }
    Ok(rows)
}

// The words of the pieces, and after them those of the constants.
fn code_of(
    alloc: Global,
    marks: &[Marks],
    pieces: &[Piece],
    texts: &[u32],
) -> Result<Vec<u32>, OutOfMemory>
    requires short { length pieces.now ≤ MAX_COUNT }
    requires near { AreNear marks.now (length pieces.now) }
    ensures { IfOk result (λ code. AreWordsOf (placed marks.now (length pieces.now)) pieces.now texts.now code.items) }
{
    let mut code = words_of(alloc, marks, pieces)?;
    code.extend_from_slice(texts)?;
    Ok(code)
}

// The parts of the image of a draft.
fn parts_of(alloc: Global, tac: &Tac, homes: &[Home], draft: &Draft) -> Result<Parts, OutOfMemory>
    requires valid { Valid tac.now homes.now }
    requires pieces { draft.now.pieces ≡ program_pieces (laid_out tac.now homes.now) }
    requires texts { draft.now.texts.items ≡ routines_texts (routines tac.now) }
    requires marks { AreMarked (laid_out tac.now homes.now) draft.now.marks.items }
    requires few { code_words tac.now homes.now ≤ MAX_COUNT }
    ensures emits { IfOk result (λ parts. Emits tac.now homes.now parts) }
    ensures bounds { IfOk result (λ parts. HasBounds tac.now parts) }
{
    tac.keeps_invariant();
    let marks = draft.marks.as_slice();
    let pieces = draft.pieces.as_slice();
    let code = code_of(alloc, marks, pieces, draft.texts.as_slice())?;
    let frames = frame_rows(alloc, tac, homes, marks)?;
    let objects = object_rows(alloc, tac, homes)?;
    let traps = trap_rows(alloc, pieces)?;
    let calls = call_rows(alloc, pieces)?;
    Ok(Parts {
        global: 0,
        code,
        frames,
        objects,
        traps,
        calls: Some(calls),
    })
}

/// The parts of an image; and to show places in a text, where the words of each routine are in its code, and where the
/// words of its variables begin in an activation of each routine of the program, in bytes.
#[derive(Drop)]
pub struct Emitted {
    pub parts: Parts,
    pub marks: Vec<Marks>,
    pub frames: Vec<u64>,
}

// Where the words of the variables begin in an activation of each routine of the program.
fn frames_in(alloc: Global, tac: &Tac) -> Result<Vec<u64>, OutOfMemory> {
    let mut frames = Vec::new(alloc);
    for number in 0..tac.program().len() {
        frames.push(frame_at(tac, number))?;
    }
    Ok(frames)
}

/// The parts of an image as `emit` makes them, and where the words of each routine and of its variables are.
pub fn emit_marked(alloc: Global, tac: &Tac, placement: &Placement) -> Result<Emitted, EmitRefusal>
    requires { Valid tac.now placement.now }
    ensures emits { IfOk result (λ emitted. Emits tac.now placement.now emitted.parts) }
    ensures bounds { IfOk result (λ emitted. HasBounds tac.now emitted.parts) }
    ensures fits { OnOk result (code_words tac.now placement.now ≤ MAX_COUNT) }
    ensures too_large { IfErr result (λ refusal. refusal ≡ CodeTooLarge → MAX_COUNT
        < code_words tac.now placement.now) }
{
    let homes = placement.raw().homes.as_slice();
    let draft = draft_of(alloc, tac, homes)?;
    if is_too_large(&draft.pieces, draft.texts.as_slice()) {
        return Err(EmitRefusal::CodeTooLarge);
    }
    let frames = frames_in(alloc, tac)?;
    let parts = parts_of(alloc, tac, homes, &draft)?;
    Ok(Emitted {
        parts,
        marks: draft.marks,
        frames,
    })
}

/// The parts of an image that does what the code means, with these homes for its temporaries. The code is refused as
/// too large if and only if its words and those of its constants are more than an image can hold.
pub fn emit(alloc: Global, tac: &Tac, placement: &Placement) -> Result<Parts, EmitRefusal>
    requires { Valid tac.now placement.now }
    ensures emits { IfOk result (λ parts. Emits tac.now placement.now parts) }
    ensures bounds { IfOk result (λ parts. HasBounds tac.now parts) }
    ensures fits { OnOk result (code_words tac.now placement.now ≤ MAX_COUNT) }
    ensures too_large { IfErr result (λ refusal. refusal ≡ CodeTooLarge → MAX_COUNT
        < code_words tac.now placement.now) }
{
    let emitted = emit_marked(alloc, tac, placement)?;
    Ok(emitted.parts)
}
