// Checks of ranges and pointers, and the addresses of components.

ghost use Rattle.std.specs.Prelude.{◌≡◌, ◌++◌, [], ◌∷◌, None, OnOk, IfOk};
ghost use Rattle.risc_word.specs.declared.instr.Condition.TheVariants as on;
ghost use Rattle.risc_emit_relation.specs.Context.{home};
ghost use Rattle.risc_emit_forms.specs.Pieces as piece;
ghost use Rattle.risc_emit_forms.specs.Peephole.{near_of};
ghost use Rattle.risc_emit_forms.specs.Forms as form;
ghost use Rattle.risc_emit.specs.Frames.{context_of};

use crate::deferred::folded;
use crate::frame::Frame;
use crate::memory::{base_register, put_base_address, put_near_base, put_sum};
use crate::numbers::put_exact;
use crate::operands::{bring, fetch, finish, is_flagged, natural_right, number_right, target};
use crate::pieces::{Piece, Pieces};
use crate::words::{computed, constant, idle, r12, r15};
use risc_word::{Condition, Operand as Right, Operation, Register};
use tac_code::code::{Base, OutOfMemory};

/// The numbers that a test lets through, the error that it reports and its line. Error 0 says that it can't fail.
#[derive(Clone, Copy)]
pub(crate) struct Test {
    pub(crate) low: i32,
    pub(crate) high: i32,
    pub(crate) error: u8,
    pub(crate) line: u16,
}

/// What an index chooses: one of the components at a base, each of `width` bytes.
#[derive(Clone, Copy)]
pub(crate) struct Component {
    pub(crate) base: Base,
    pub(crate) index: u32,
    pub(crate) test: Test,
    pub(crate) width: u32,
}

/// Where the address of a component goes: to the home of a temporary, unless it goes to a register, short of an offset.
#[derive(Clone, Copy)]
pub(crate) struct Destination {
    pub(crate) deferred: Option<(Register, i64)>,
    pub(crate) to: u32,
}

// How far the content of a register is above the lowest number of a range, modulo 2^32. Returns the register.
fn put_above(
    frame: &Frame<'_>,
    pieces: &mut Pieces,
    register: Register,
    low: i32,
) -> Result<Register, OutOfMemory>
    ensures words { OnOk result (pieces.new ≡ pieces.old ++ form.above
        (context_of frame.now) frame.now.number register low) }
    ensures register { IfOk result (λ q. q ≡ form.above_register (context_of frame.now) frame.now.number register low) }
{
    if low == 0 {
        return Ok(register);
    }
    let lowest = number_right(frame, pieces, low)?;
    pieces.plain(computed(Operation::Sub, r12(), register, lowest))?;
    Ok(r12())
}

// The comparison is unsigned: what is below the lowest number of a range is large.
fn put_at_most(
    frame: &Frame<'_>,
    pieces: &mut Pieces,
    register: Register,
    most: u32,
    error: u8,
    line: u16,
) -> Result<(), OutOfMemory>
    ensures { OnOk result (pieces.new ≡ pieces.old ++ form.at_most
        (context_of frame.now) frame.now.number register most error line) }
{
    let _ = frame;
    if most < 65535 {
        return pieces.all(&[
            Piece::Plain(computed(Operation::Sub, r15(), register, constant(most as i32 + 1))),
            Piece::Fails(Condition::CarryClear, error, line),
        ]);
    }
    put_exact(pieces, r15(), most)?;
    pieces.all(&[
        Piece::Plain(computed(Operation::Sub, r15(), r15(), Right::Content(register))),
        Piece::Fails(Condition::CarrySet, error, line),
    ])
}

// A number in its range, which may be empty. Returns the register that holds how far it is above the lowest number.
fn put_range(
    frame: &Frame<'_>,
    pieces: &mut Pieces,
    register: Register,
    test: Test,
) -> Result<Register, OutOfMemory>
    ensures words { OnOk result (pieces.new ≡ pieces.old ++ form.range_code
        (context_of frame.now) frame.now.number register test.low test.high test.error test.line) }
    ensures register { IfOk result (λ q. q ≡ form.above_register
        (context_of frame.now) frame.now.number register test.low) }
{
    if test.high < test.low {
        pieces.push(Piece::Fails(Condition::Always, test.error, test.line))?;
        return Ok(if test.low == 0 { register } else { r12() });
    }
    let above = put_above(frame, pieces, register, test.low)?;
    let most = test.high.abs_diff(test.low);
    put_at_most(frame, pieces, above, most, test.error, test.line)?;
    Ok(above)
}

/// A number in its range, if the test can fail; a test that can't is one idle word.
pub(crate) fn put_check(
    frame: &Frame<'_>,
    pieces: &mut Pieces,
    value: u32,
    test: Test,
) -> Result<(), OutOfMemory>
    ensures { OnOk result (pieces.new ≡ pieces.old ++ form.check_form
        (context_of frame.now) frame.now.number value test.low test.high test.error test.line) }
{
    if test.error == 0 {
        return pieces.plain(idle());
    }
    let register = fetch(frame, pieces, r12(), value)?;
    put_range(frame, pieces, register, test)?;
    Ok(())
}

/// A pointer that is not nil, if the test can fail; a test that can't is one idle word.
pub(crate) fn put_pointer_check(
    frame: &Frame<'_>,
    pieces: &mut Pieces,
    flagged: Option<u32>,
    pointer: u32,
    error: u8,
    line: u16,
) -> Result<(), OutOfMemory>
    ensures { OnOk result (pieces.new ≡ pieces.old ++ form.pointer_form
        (context_of frame.now) frame.now.number flagged pointer error line) }
{
    if error == 0 {
        return pieces.plain(idle());
    }
    if !is_flagged(frame, flagged, pointer) {
        bring(frame, pieces, r12(), pointer)?;
    }
    pieces.push(Piece::Fails(Condition::Equal, error, line))
}

// A number of steps times their width. Returns the register.
fn put_scaled(
    frame: &Frame<'_>,
    pieces: &mut Pieces,
    steps: Register,
    width: u32,
) -> Result<Register, OutOfMemory>
    ensures words { OnOk result (pieces.new ≡ pieces.old ++ form.scaled
        (context_of frame.now) frame.now.number steps width) }
    ensures register { IfOk result (λ q. q ≡ form.scaled_register (context_of frame.now) frame.now.number steps width) }
{
    if width == 1 {
        return Ok(steps);
    }
    let factor = natural_right(frame, pieces, width)?;
    pieces.plain(computed(Operation::Mul, r12(), steps, factor))?;
    Ok(r12())
}

// The address at the distance in a register from a base, or that address short of the offset of the base's block.
fn put_component(
    frame: &Frame<'_>,
    pieces: &mut Pieces,
    destination: Destination,
    base: Base,
    distance: Register,
) -> Result<(), OutOfMemory>
    ensures { OnOk result (pieces.new ≡ pieces.old ++ form.component
        (context_of frame.now) frame.now.number destination.deferred destination.to base distance) }
{
    if let Some((register, _)) = destination.deferred {
        let near = base_register(frame, base);
        let sum = computed(Operation::Add, register, near, Right::Content(distance));
        return pieces.plain(sum);
    }
    let address = put_base_address(frame, pieces, base)?;
    let sum = computed(
        Operation::Add,
        target(frame, destination.to),
        address,
        Right::Content(distance),
    );
    finish(frame, pieces, &[Piece::Plain(sum)], destination.to)
}

// The address at the number of steps in a register from a base.
fn put_steps(
    frame: &Frame<'_>,
    pieces: &mut Pieces,
    destination: Destination,
    base: Base,
    steps: Register,
    width: u32,
) -> Result<(), OutOfMemory>
    ensures { OnOk result (pieces.new ≡ pieces.old ++ form.steps_form
        (context_of frame.now) frame.now.number destination.deferred destination.to base steps width) }
{
    let distance = put_scaled(frame, pieces, steps, width)?;
    put_component(frame, pieces, destination, base, distance)
}

// How far an index is above the lowest one, after a test if that can fail. Returns the register.
fn put_index_steps(
    frame: &Frame<'_>,
    pieces: &mut Pieces,
    register: Register,
    test: Test,
) -> Result<Register, OutOfMemory>
    ensures words { OnOk result (pieces.new ≡ pieces.old ++ form.index_code
        (context_of frame.now) frame.now.number register test.low test.high test.error test.line) }
    ensures register { IfOk result (λ q. q ≡ form.above_register
        (context_of frame.now) frame.now.number register test.low) }
{
    if test.error != 0 {
        return put_range(frame, pieces, register, test);
    }
    put_above(frame, pieces, register, test.low)
}

// The address at the distance in a register from an offset that takes the lowest index in.
fn put_near_component(
    frame: &Frame<'_>,
    pieces: &mut Pieces,
    rest: u64,
    destination: Destination,
    base: Base,
    distance: Register,
) -> Result<(), OutOfMemory>
    ensures { OnOk result (pieces.new ≡ pieces.old ++ form.near_component
        (context_of frame.now) frame.now.number rest destination.deferred destination.to base distance) }
{
    if let Some((register, _)) = destination.deferred {
        let near = put_near_base(frame, pieces, base)?;
        let sum = computed(Operation::Add, register, near, Right::Content(distance));
        return pieces.plain(sum);
    }
    put_sum(frame, pieces, base_register(frame, base), rest)?;
    let sum = computed(
        Operation::Add,
        target(frame, destination.to),
        r15(),
        Right::Content(distance),
    );
    finish(frame, pieces, &[Piece::Plain(sum)], destination.to)
}

// The address of a component by the index itself.
fn put_near(
    frame: &Frame<'_>,
    pieces: &mut Pieces,
    rest: u64,
    destination: Destination,
    base: Base,
    index: Register,
    width: u32,
) -> Result<(), OutOfMemory>
    ensures { OnOk result (pieces.new ≡ pieces.old ++ (form.scaled (context_of frame.now) frame.now.number index width
        ++ form.near_component (context_of frame.now) frame.now.number rest destination.deferred destination.to base
        (form.scaled_register (context_of frame.now) frame.now.number index width))) }
{
    let distance = put_scaled(frame, pieces, index, width)?;
    put_near_component(frame, pieces, rest, destination, base, distance)
}

// The same by how far it is above the lowest one.
fn put_far(
    frame: &Frame<'_>,
    pieces: &mut Pieces,
    destination: Destination,
    component: Component,
) -> Result<(), OutOfMemory>
    ensures { OnOk result (pieces.new ≡ pieces.old ++ form.index_by
        (context_of frame.now) frame.now.number None destination.deferred destination.to component.base component.index
        component.test.low component.test.high component.width component.test.error component.test.line) }
{
    let register = fetch(frame, pieces, r12(), component.index)?;
    let steps = put_index_steps(frame, pieces, register, component.test)?;
    put_steps(
        frame,
        pieces,
        destination,
        component.base,
        steps,
        component.width,
    )
}

fn put_folded(
    frame: &Frame<'_>,
    pieces: &mut Pieces,
    rest: u64,
    destination: Destination,
    component: Component,
) -> Result<(), OutOfMemory>
    ensures { OnOk result (pieces.new ≡ pieces.old ++ (form.fetch (context_of frame.now) frame.now.number 12
        (home (context_of frame.now) frame.now.number component.index) ++ (form.scaled
        (context_of frame.now) frame.now.number (form.fetched (context_of frame.now) frame.now.number 12
        (home (context_of frame.now) frame.now.number component.index)) component.width ++ form.near_component
        (context_of frame.now) frame.now.number rest destination.deferred destination.to component.base
        (form.scaled_register (context_of frame.now) frame.now.number (form.fetched (context_of frame.now)
        frame.now.number 12 (home (context_of frame.now) frame.now.number component.index)) component.width)))) }
{
    let register = fetch(frame, pieces, r12(), component.index)?;
    put_near(
        frame,
        pieces,
        rest,
        destination,
        component.base,
        register,
        component.width,
    )
}

// Into a base in a temporary: if a load includes the lowest index, by the index itself from the base's address;
// otherwise by how far it is above the lowest one.
fn put_unfolded(
    frame: &Frame<'_>,
    pieces: &mut Pieces,
    destination: Destination,
    component: Component,
) -> Result<(), OutOfMemory>
    ensures { OnOk result (pieces.new ≡ pieces.old ++ form.index_by
        (context_of frame.now) frame.now.number (near_of destination.deferred component.base) destination.deferred
        destination.to component.base component.index component.test.low component.test.high component.width
        component.test.error component.test.line) }
{
    match component.base {
        Base::Temporary(_) if destination.deferred.is_some() => put_folded(
            frame,
            pieces,
            0,
            destination,
            component,
        ),
        _ => put_far(frame, pieces, destination, component),
    }
}

/// The address of a component.
pub(crate) fn put_index(
    frame: &Frame<'_>,
    pieces: &mut Pieces,
    destination: Destination,
    component: Component,
) -> Result<(), OutOfMemory>
    ensures { OnOk result (pieces.new ≡ pieces.old ++ form.index_form
        (context_of frame.now) frame.now.number destination.deferred destination.to component.base component.index
        component.test.low component.test.high component.width component.test.error component.test.line) }
{
    let test = component.test;
    match folded(
        frame,
        component.base,
        test.low,
        test.high,
        component.width,
        test.error,
    ) {
        Some(rest) => put_folded(frame, pieces, rest, destination, component),
        None => put_unfolded(frame, pieces, destination, component),
    }
}
