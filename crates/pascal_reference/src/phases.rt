// The phases of the compiler, one after another, up to one of them: `bench/phases` finds their shares of the time by
// it.

use pascal_session::{TEXT_LIMIT, read_standard_input};
use ps_build::{Refusal, accepted, code_of_text};
use ps_parse::release;
use ps_scan::scan;
use ps_text::Source;
use risc_alloc::placer::Placer;
use risc_alloc::scan::Scan;
use risc_emit::emit::emit;
use risc_image::{Parts, write};
use std::alloc::Global;
use tac_code::tac::Tac;
use tac_plan::pass::pass;
use test_language::parsed;

const DONE: u8 = 0;

const REFUSED: u8 = 1;

/// The last phase of a text.
#[derive(Clone, Copy)]
enum Phase {
    Read,
    Scan,
    Parse,
    Check,
    Lower,
    Pass,
    Place,
    Emit,
    Write,
}

// The phase that a word names; all of them where it names none.
fn phase_named(word: &str) -> Phase {
    match word {
        "read" => Phase::Read,
        "scan" => Phase::Scan,
        "parse" => Phase::Parse,
        "check" => Phase::Check,
        "lower" => Phase::Lower,
        "pass" => Phase::Pass,
        "place" => Phase::Place,
        "emit" => Phase::Emit,
        _ => Phase::Write,
    }
}

// The phases before the checker: the text, its tokens and its tree.
fn take_before_checker(alloc: Global, text: &[u8], last: Phase) -> Result<(), Refusal> {
    let source = Source::new(text)?;
    match last {
        Phase::Scan => drop(scan(alloc, &source)?),
        Phase::Parse => release(parsed(alloc, &source)?),
        _ => {}
    }
    Ok(())
}

// The phases after the checker: the code, and what a pass makes of it.
fn take_past_checker(alloc: Global, text: &[u8], last: Phase) -> Result<(), Refusal> {
    let tac = code_of_text(alloc, text)?;
    if matches!(last, Phase::Lower) {
        return Ok(());
    }
    match pass(alloc, &tac)? {
        Some(passed) => take_past_pass(alloc, &passed.tac, last),
        None => take_past_pass(alloc, &tac, last),
    }
}

// The phases after the pass: homes of temporaries, the parts of an image, and its bytes.
fn take_past_pass(alloc: Global, tac: &Tac, last: Phase) -> Result<(), Refusal> {
    if matches!(last, Phase::Pass) {
        return Ok(());
    }
    let placement = Scan.place(alloc, tac)?;
    if matches!(last, Phase::Place) {
        return Ok(());
    }
    let parts = emit(alloc, tac, &placement)?;
    let end = take_parts(alloc, &parts, last);
    drop(parts);
    end
}

fn take_parts(alloc: Global, parts: &Parts, last: Phase) -> Result<(), Refusal> {
    if matches!(last, Phase::Write) {
        write(alloc, parts)?;
    }
    Ok(())
}

fn take(alloc: Global, text: &[u8], last: Phase) -> Result<(), Refusal> {
    match last {
        Phase::Read | Phase::Scan | Phase::Parse => take_before_checker(alloc, text, last)?,
        Phase::Check => accepted(alloc, text)?,
        Phase::Lower | Phase::Pass | Phase::Place | Phase::Emit | Phase::Write => {
            take_past_checker(alloc, text, last)?
        }
    }
    Ok(())
}

/// Takes the text of standard input through the phases up to the one that a word names, and returns the status: 0, or 1
/// if the text is refused or cannot be read.
pub fn take_standard_input<R: Eprint + Input + AllocGlobal>(rt: &R, word: &str) -> u8 {
    let text = match read_standard_input(rt, TEXT_LIMIT) {
        Ok(text) => text,
        Err(status) => return status,
    };
    match take(rt.alloc(), &text, phase_named(word)) {
        Ok(()) => DONE,
        Err(_) => REFUSED,
    }
}
