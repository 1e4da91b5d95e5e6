// Pieces as words, with the rows of the tables.

ghost use Rattle.std.specs.Prelude.{◌≡◌, ◌<◌, ◌≤◌, ◌+◌, ◌*◌, ◌/◌, ◌%◌, ◌++◌, pos, length, OnOk, IfOk};
ghost use Rattle.risc_word.specs.declared.instr.Operation.TheVariants.{Add};
ghost use Rattle.risc_word.specs.declared.instr.Operand.TheVariants.{Constant};
ghost use Rattle.risc_word.specs.declared.instr.Target.TheVariants.{Relative};
ghost use Rattle.risc_word.specs.declared.instr.Instr.TheVariants as word;
ghost use Rattle.risc_machine_laws.specs.Numbers.{distance};
ghost use Rattle.risc_emit_forms.specs.Pieces.{instr_at};
ghost use Rattle.risc_emit_laws.specs.Drawn.{trap_row_of, trap_rows_of, call_row_of, call_rows_of};
ghost use Rattle.risc_emit.specs.Meant.{meant, all_meant};
ghost use Rattle.risc_emit.specs.Placed.{placed, AreNear, AreWordsTo};

use crate::marks::{Marks, entry_at, label_place};
use crate::pieces::Piece;
use crate::words::{computed, constant};
use risc_image::{CallRow, MAX_COUNT, TrapRow};
use risc_word::{Condition, Displacement, Instr, Operation, Register, Target, encode};
use std::alloc::Global;
use tac_code::code::OutOfMemory;

/// Where the stub of all stops is.
const STUB: usize = 1;

// A branch from a place to another.
fn near(at: usize, place: usize, condition: Condition, link: bool) -> Instr
    requires at { at < MAX_COUNT }
    requires place { place ≤ MAX_COUNT }
    ensures { result ≡ word.Branch condition link (Relative (distance at place)) }
{
    Instr::Branch {
        condition,
        link,
        target: Target::Relative(Displacement::new(place as i32 - (at as i32 + 1))),
    }
}

fn high(register: Register, place: usize) -> Instr
    requires { place ≤ MAX_COUNT }
    ensures { result ≡ word.MoveTop register (4 * place / 65536) }
{
    Instr::MoveTop {
        to: register,
        top: (4 * place / 65536) as u16,
    }
}

fn low(register: Register, place: usize) -> Instr
    requires { place ≤ MAX_COUNT }
    ensures { result ≡ word.Operate Add register register (Constant (pos (4 * place % 65536))) }
{
    computed(
        Operation::Add,
        register,
        register,
        constant((4 * place % 65536) as i32),
    )
}

// The instruction that a piece is at a place.
fn instr_at(marks: &[Marks], constants: usize, at: usize, piece: Piece) -> Instr
    requires at { at < MAX_COUNT }
    requires near { AreNear marks.now constants }
    ensures { result ≡ instr_at (placed marks.now constants) at (meant piece) }
{
    match piece {
        Piece::Plain(instr) => instr,
        Piece::Goes(condition, label) => near(
            at,
            label_place(marks, constants, label),
            condition,
            false,
        ),
        Piece::Fails(condition, _, _) => near(at, STUB, condition, true),
        Piece::Enters(routine, _) | Piece::Joins(routine) => near(
            at,
            entry_at(marks, routine as usize),
            Condition::Always,
            true,
        ),
        Piece::EntersAt(register, _) => Instr::Branch {
            condition: Condition::Always,
            link: true,
            target: Target::Absolute(register),
        },
        Piece::High(register, label) => high(register, label_place(marks, constants, label)),
        Piece::Low(register, label) => low(register, label_place(marks, constants, label)),
    }
}

// The address after a word.
fn link_of(at: usize) -> u32
    requires { at < MAX_COUNT }
    ensures { result ≡ 4 * (at + 1) }
{
    4 * (at as u32 + 1)
}

/// The words of the pieces, with the constants' words after them.
pub(crate) fn words_of(
    alloc: Global,
    marks: &[Marks],
    pieces: &[Piece],
) -> Result<Vec<u32>, OutOfMemory>
    requires short { length pieces.now ≤ MAX_COUNT }
    requires near { AreNear marks.now (length pieces.now) }
    ensures { IfOk result (λ code. AreWordsTo (placed marks.now (length pieces.now)) pieces.now
        (length pieces.now) code.items) }
{
    let mut code = Vec::with_capacity(alloc, pieces.len())?;
    for at in 0..pieces.len() {
        code.push(encode(instr_at(marks, pieces.len(), at, pieces[at])))?;
    }
    Ok(code)
}

fn push_trap(rows: &mut Vec<TrapRow>, at: usize, piece: Piece) -> Result<(), OutOfMemory>
    requires { at < MAX_COUNT }
    ensures { OnOk result (rows.new.items ≡ rows.old.items ++ trap_row_of at (meant piece)) }
{
    if let Piece::Fails(_, error, line) = piece {
        rows.push(TrapRow {
            link: link_of(at),
            error: u32::from(error),
            line: u32::from(line),
        })?;
    }
    Ok(())
}

/// The rows of the words that may stop.
pub(crate) fn trap_rows(alloc: Global, pieces: &[Piece]) -> Result<Vec<TrapRow>, OutOfMemory>
    requires { length pieces.now ≤ MAX_COUNT }
    ensures { IfOk result (λ rows. rows.items ≡ trap_rows_of 0 (all_meant pieces.now)) }
{
    let mut rows = Vec::new(alloc);
    for at in 0..pieces.len() {
        push_trap(&mut rows, at, pieces[at])?;
    }
    Ok(rows)
}

fn push_call(rows: &mut Vec<CallRow>, at: usize, piece: Piece) -> Result<(), OutOfMemory>
    requires { at < MAX_COUNT }
    ensures { OnOk result (rows.new.items ≡ rows.old.items ++ call_row_of at (meant piece)) }
{
    if let Piece::Enters(_, line) | Piece::EntersAt(_, line) = piece {
        rows.push(CallRow {
            link: link_of(at),
            line: u32::from(line),
        })?;
    }
    Ok(())
}

/// The rows of the calls of the program's routines.
pub(crate) fn call_rows(alloc: Global, pieces: &[Piece]) -> Result<Vec<CallRow>, OutOfMemory>
    requires { length pieces.now ≤ MAX_COUNT }
    ensures { IfOk result (λ rows. rows.items ≡ call_rows_of 0 (all_meant pieces.now)) }
{
    let mut rows = Vec::new(alloc);
    for at in 0..pieces.len() {
        push_call(&mut rows, at, pieces[at])?;
    }
    Ok(rows)
}
