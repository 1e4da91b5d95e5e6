//! Three-address code: whether it keeps its invariant, its printed form, and the homes of its temporaries.

use crate::homes::{put_placement, put_verdict};
use crate::instructions::instruction;
use crate::settings::RowSettings;
use crate::texts::word;
use risc_alloc::placer::{EverySlot, Placer};
use risc_alloc::scan::Scan;
use std::alloc::{AllocError, Global};
use tac_code::code::{Body, TacRaw, TacRoutine};
use tac_code::print::print;
use tac_code::tac::Tac;
use test_tables::Line;
use test_tables::words::u32_of;

/// A routine with a frame of two words, which begins on line 3. The counts of its parameters, of its temporaries and of
/// the bytes of its scratch block come before a colon, its instructions after it, with `;` between them.
fn routine(alloc: Global, text: &str) -> Result<TacRoutine, AllocError> {
    let (head, list) = text.split_once(':').unwrap_or(("", text));
    let mut counts = head.split_whitespace();
    let mut instructions = Vec::new(alloc);
    for told in list.split(';') {
        instructions.push(instruction(alloc, &mut told.split_whitespace())?)?;
    }
    Ok(TacRoutine {
        parameters: u32_of(word(&mut counts)),
        temporaries: u32_of(word(&mut counts)),
        frame: 8,
        scratch: u32_of(word(&mut counts)),
        line: 3,
        body: Body::new(alloc, instructions)?,
    })
}

/// The code of these routines, with `/` between them, and of one type of objects of two words; `None` if they don't
/// keep the invariant.
fn code(alloc: Global, row: &str) -> Result<Option<Tac>, AllocError> {
    let mut program = Vec::new(alloc);
    for told in row.split('/') {
        if !told.is_empty() {
            program.push(routine(alloc, told)?)?;
        }
    }
    Ok(Tac::new(TacRaw {
        program,
        run_time: Vec::new(alloc),
        objects: Vec::from_array(alloc, [8])?,
    }))
}

/// The question about code.
#[derive(Clone, Copy)]
pub enum CodeQuery {
    /// Whether it is code at all.
    Kept,
    /// Its printed form.
    Printed,
    /// Whether the given homes are accepted.
    Tried,
    /// The homes of the placer that uses registers.
    Scanned,
    /// The homes of the placer that gives each temporary a slot.
    Slotted,
}

fn put_asked(
    alloc: Global,
    line: &mut Line,
    tac: &Tac,
    asked: CodeQuery,
    settings: &RowSettings,
) -> Result<(), AllocError> {
    match asked {
        CodeQuery::Kept => line.word("code"),
        CodeQuery::Printed => line.text(print(alloc, tac)),
        CodeQuery::Tried => return put_verdict(alloc, line, tac, &settings.homes),
        CodeQuery::Scanned => return put_placement(alloc, line, tac, &Scan.place(alloc, tac)?),
        CodeQuery::Slotted => return put_placement(alloc, line, tac, &EverySlot.place(alloc, tac)?),
    }
    Ok(())
}

/// Puts the answer about the code of a row.
pub(crate) fn answer(
    alloc: Global,
    line: &mut Line,
    row: &str,
    asked: CodeQuery,
    settings: &RowSettings,
) -> Result<(), AllocError> {
    let Some(tac) = code(alloc, row)? else {
        line.word("no code");
        return Ok(());
    };
    put_asked(alloc, line, &tac, asked, settings)
}
