// The words before a routine's first instruction, and those before the program.

ghost use Rattle.std.specs.Prelude.{◌≡◌, ◌<◌, ◌++◌, [], ◌∷◌, pos, negsuc, true, OnOk};
ghost use Rattle.risc_word.specs.declared.instr.Operand.TheVariants.{Constant};
ghost use Rattle.risc_word.specs.declared.instr.Width.TheVariants.{Word};
ghost use Rattle.risc_word.specs.declared.instr.Condition.TheVariants as on;
ghost use Rattle.risc_word.specs.declared.instr.Instr.TheVariants as word;
ghost use Rattle.risc_emit_relation.specs.Context.{home};
ghost use Rattle.risc_emit_forms.specs.Forms as form;
ghost use Rattle.risc_emit_forms.specs.Pieces as piece;
ghost use Rattle.risc_emit_laws.specs.Emits.{start_form};
ghost use Rattle.risc_emit.specs.Frames.{context_of};

use crate::calls::{CARRIED, LIMIT_AT, NEXT_AT};
use crate::frame::{Frame, OFFSET_LIMIT};
use crate::location::Location;
use crate::numbers::{put_constant, put_load, put_store};
use crate::operands::{save, target};
use crate::pieces::{Label, Piece, Pieces};
use crate::words::{
    computed, constant, copied, loaded, r0, r1, r2, r11, r12, r13, r14, r15, set, skip, stored,
};
use risc_word::{Condition, Operand as Right, Operation, Register, Width};
use tac_code::code::{OutOfMemory, TacRoutine};

/// The first frame size that no stack holds.
const TOO_LARGE: u64 = 16777153;

/// No call passes more parameters than this.
const PARAMETERS: u32 = 65;

// Whether a parameter comes in its home.
fn stands(frame: &Frame<'_>, j: u32) -> bool
    ensures { result ≡ form.stands j (home (context_of frame.now) frame.now.number j) }
{
    match frame.location(j) {
        Location::Register(register) => u32::from(register.number()) == j && j < CARRIED,
        Location::Slot(_) => false,
    }
}

// How many of the parameters come in registers.
fn carried(count: u32) -> u32
    ensures { result ≡ form.carried count }
{
    if count < CARRIED { count } else { CARRIED }
}

// Whether its home receives a parameter directly: if none of the `carried` ones arrives there.
fn is_clear(frame: &Frame<'_>, carried: u32, j: u32) -> bool
    ensures { result ≡ form.is_clear carried j (home (context_of frame.now) frame.now.number j) }
{
    match frame.location(j) {
        Location::Register(register) => j < CARRIED && u32::from(register.number()) >= carried,
        Location::Slot(_) => j < CARRIED,
    }
}

fn is_direct(frame: &Frame<'_>, carried: u32, j: u32) -> bool
    ensures { result ≡ form.is_direct carried j (home (context_of frame.now) frame.now.number j) }
{
    stands(frame, j) || is_clear(frame, carried, j)
}

// The home of a parameter takes it from its register.
fn put_taken(frame: &Frame<'_>, pieces: &mut Pieces, j: u32) -> Result<(), OutOfMemory>
    requires { j < 8 }
    ensures { OnOk result (pieces.new ≡ pieces.old ++ form.take (context_of frame.now) frame.now.number j
        (home (context_of frame.now) frame.now.number j)) }
{
    let from = Register::new(j as u8);
    match frame.location(j) {
        Location::Register(register) => pieces.plain(copied(register, from)),
        Location::Slot(slot) => put_store(pieces, from, r14(), frame.slot_at(slot)),
    }
}

// A parameter that arrives in another register goes to its home, or to the caller's operands, `behind` bytes above the
// frame.
fn put_spill(
    frame: &Frame<'_>,
    pieces: &mut Pieces,
    carried: u32,
    behind: u64,
    j: u32,
) -> Result<(), OutOfMemory>
    requires { behind < OFFSET_LIMIT }
    ensures { OnOk result (pieces.new ≡ pieces.old ++ form.spill_one
        (context_of frame.now) frame.now.number carried behind j (home (context_of frame.now) frame.now.number j)) }
{
    if j < CARRIED && is_clear(frame, carried, j) {
        return put_taken(frame, pieces, j);
    }
    if j < CARRIED && !stands(frame, j) {
        put_store(
            pieces,
            Register::new(j as u8),
            r14(),
            behind + 8 + 4 * u64::from(j),
        )?;
    }
    Ok(())
}

fn put_spills(
    frame: &Frame<'_>,
    pieces: &mut Pieces,
    behind: u64,
    count: u32,
) -> Result<(), OutOfMemory>
    requires { behind < OFFSET_LIMIT }
    ensures { OnOk result (pieces.new ≡ pieces.old ++ form.spill (context_of frame.now) frame.now.number
        (form.carried count) behind 0 count) }
{
    for j in 0..count {
        put_spill(frame, pieces, carried(count), behind, j)?;
    }
    Ok(())
}

// And from there to its home.
fn put_parameter(
    frame: &Frame<'_>,
    pieces: &mut Pieces,
    carried: u32,
    behind: u64,
    j: u32,
) -> Result<(), OutOfMemory>
    requires { behind < OFFSET_LIMIT }
    ensures { OnOk result (pieces.new ≡ pieces.old ++ form.parameter
        (context_of frame.now) frame.now.number carried behind j (home (context_of frame.now) frame.now.number j)) }
{
    if is_direct(frame, carried, j) {
        return Ok(());
    }
    put_load(
        pieces,
        target(frame, j),
        r14(),
        behind + 8 + 4 * u64::from(j),
    )?;
    save(frame, pieces, j)
}

fn put_parameters(
    frame: &Frame<'_>,
    pieces: &mut Pieces,
    behind: u64,
    count: u32,
) -> Result<(), OutOfMemory>
    requires { behind < OFFSET_LIMIT }
    ensures { OnOk result (pieces.new ≡ pieces.old ++ form.parameters (context_of frame.now) frame.now.number
        (form.carried count) behind 0 count) }
{
    for j in 0..count {
        put_parameter(frame, pieces, carried(count), behind, j)?;
    }
    Ok(())
}

// All parameters go to their homes.
fn put_arrival(
    frame: &Frame<'_>,
    pieces: &mut Pieces,
    behind: u64,
    count: u32,
) -> Result<(), OutOfMemory>
    requires { behind < OFFSET_LIMIT }
    ensures { OnOk result (pieces.new ≡ pieces.old ++ form.arrive
        (context_of frame.now) frame.now.number behind count) }
{
    put_spills(frame, pieces, behind, count)?;
    put_parameters(frame, pieces, behind, count)
}

// R12 takes the new frame's address.
fn put_frame_below(frame: &Frame<'_>, pieces: &mut Pieces, bytes: u64) -> Result<(), OutOfMemory>
    ensures { OnOk result (pieces.new ≡ pieces.old ++ form.frame_below (context_of frame.now) frame.now.number bytes) }
{
    let _ = frame;
    if bytes < 65536 {
        return pieces.plain(computed(Operation::Sub, r12(), r14(), constant(bytes as i32)));
    }
    put_constant(pieces, r12(), bytes)?;
    pieces.plain(computed(Operation::Sub, r12(), r14(), Right::Content(r12())))
}

// The test of the stack, the frame and the parameters.
fn put_enter(
    frame: &Frame<'_>,
    pieces: &mut Pieces,
    routine: &TacRoutine,
) -> Result<(), OutOfMemory>
    requires { form.is_entered (context_of frame.now) frame.now.number routine.now ≡ true }
    ensures { OnOk result (pieces.new ≡ pieces.old ++ form.enter_form
        (context_of frame.now) frame.now.number routine.now) }
{
    put_frame_below(frame, pieces, frame.cost())?;
    pieces.all(&[
        Piece::Plain(loaded(Width::Word, r11(), r13(), LIMIT_AT)),
        Piece::Plain(computed(Operation::Sub, r11(), r12(), Right::Content(r11()))),
        Piece::Fails(Condition::Less, 12, routine.line),
        Piece::Plain(stored(Width::Word, r15(), r12(), 0)),
        Piece::Plain(stored(Width::Word, r14(), r12(), 4)),
        Piece::Plain(copied(r14(), r12())),
    ])?;
    put_arrival(frame, pieces, frame.cost(), routine.parameters)
}

// A run-time routine's frame is within its caller's.
fn put_join(frame: &Frame<'_>, pieces: &mut Pieces, routine: &TacRoutine) -> Result<(), OutOfMemory>
    ensures { OnOk result (pieces.new ≡ pieces.old ++ form.join_form
        (context_of frame.now) frame.now.number routine.now) }
{
    pieces.plain(stored(Width::Word, r15(), r14(), frame.link_at()))?;
    put_arrival(frame, pieces, 0, routine.parameters)
}

fn is_entered(frame: &Frame<'_>, routine: &TacRoutine) -> bool
    ensures { result ≡ form.is_entered (context_of frame.now) frame.now.number routine.now }
{
    frame.cost() < TOO_LARGE && routine.parameters <= PARAMETERS
}

/// A routine's entry.
pub(crate) fn put_entry(
    frame: &Frame<'_>,
    pieces: &mut Pieces,
    routine: &TacRoutine,
) -> Result<(), OutOfMemory>
    ensures { OnOk result (pieces.new ≡ pieces.old ++ form.entry_form
        (context_of frame.now) frame.now.number routine.now) }
{
    if !frame.is_of_program() {
        return put_join(frame, pieces, routine);
    }
    if !is_entered(frame, routine) {
        return pieces.push(Piece::Fails(Condition::Always, 12, routine.line));
    }
    put_enter(frame, pieces, routine)
}

// The stub of all stops, with a branch over it.
fn put_stub(pieces: &mut Pieces) -> Result<(), OutOfMemory>
    ensures { OnOk result (pieces.new ≡ pieces.old ++ form.skip on.Always 2 ∷ piece.Plain
        (word.Move 12 (Constant (negsuc 63))) ∷ piece.Plain (word.Store Word 15 12 (pos 4)) ∷ []) }
{
    pieces.all(&[
        Piece::Plain(skip(Condition::Always, 2)),
        Piece::Plain(set(r12(), -64)),
        Piece::Plain(stored(Width::Word, r15(), r12(), 4)),
    ])
}

/// The first words: the stub, and the test of the stack for the program block.
pub(crate) fn put_start(
    frame: &Frame<'_>,
    pieces: &mut Pieces,
    block: &TacRoutine,
) -> Result<(), OutOfMemory>
    requires { frame.now.number ≡ 0 }
    ensures { OnOk result (pieces.new ≡ pieces.old ++ start_form (context_of frame.now) block.now) }
{
    put_stub(pieces)?;
    if frame.cost() >= TOO_LARGE {
        return pieces.push(Piece::Fails(Condition::Always, 12, block.line));
    }
    put_frame_below(frame, pieces, frame.cost())?;
    pieces.all(&[
        Piece::Plain(computed(Operation::Sub, r2(), r12(), Right::Content(r1()))),
        Piece::Fails(Condition::Less, 12, block.line),
        Piece::Plain(stored(Width::Word, r1(), r12(), LIMIT_AT)),
        Piece::Plain(stored(Width::Word, r0(), r12(), NEXT_AT)),
        Piece::Plain(copied(r13(), r12())),
        Piece::Goes(Condition::Always, Label::Entry(0)),
    ])
}
