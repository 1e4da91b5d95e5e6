//! The check of a program.

ghost use Rattle.std.specs.Prelude.{◌≡◌, [], IfOk, codes};
ghost use Rattle.ps_tree.specs.Checked.{program_in};
ghost use Rattle.ps_check_judgement.specs.Judged.{Answers};
ghost use Rattle.ps_check_names.specs.Spelling.{has};
ghost use Rattle.ps_check_names.specs.Views.{context_of, scope_of};
ghost use Rattle.ps_check.specs.Checked.{refusal_of, IsChecked};
ghost use Rattle.ps_check.specs.Blocks.{block};
ghost use Rattle.ps_check.specs.Programs.{nothing_gathered, program_chain, program_with, program};
ghost use Rattle.ps_check.specs.Views.{files_of, gathered_of, start_of, done_of};

use crate::blocks::block;
use crate::chain::Chain;
use crate::program::{Files, list_files, program_of, required};
use crate::state::{Done, Gathered, Start};
use ps_check_judgement::answer::paired;
use ps_check_judgement::refusal::{CheckFault, CheckRefusal};
use ps_check_names::reading::Reading;
use ps_check_names::scope::Scope;
use ps_check_names::wides::Wides;
use ps_syntax::Program;
use ps_text::{LineTable, Source};
use ps_tree::names::Seed;
use ps_tree::program::Checked;
use std::alloc::{AllocError, Global};

/// The block of a program within this region, and everything that is read with it.
fn read_program(
    alloc: Global,
    reading: &Reading,
    outer: &Scope,
    start: &mut Start,
    written: &Program,
) -> Result<(Done, Gathered), CheckFault>
    ensures { Answers result (λ read. done_of read.0 read.1)
        (block (context_of reading.now) written.now.block (scope_of outer.now)
        (start_of program_chain start.old) nothing_gathered) }
{
    let (chain, mut gathered) = paired(
        Chain::program(alloc),
        nothing_gathered(alloc, reading.seed),
    )?;
    let done = block(
        &written.block,
        reading,
        outer,
        alloc,
        &chain,
        start,
        &mut gathered,
    )?;
    Ok((done, gathered))
}

/// The checked tree of a program whose heading lists these files.
#[tactic(auto, unfolding(crate::specs::Programs::program_with, ps_check_names::specs::Views::scope_of))]
fn check_block(
    alloc: Global,
    reading: &Reading,
    files: Files,
    written: &Program,
) -> Result<Checked, CheckFault>
    requires input { reading.now.has_input ≡ has files.names (codes "input") }
    requires output { reading.now.has_output ≡ has files.names (codes "output") }
    requires domains { reading.now.domains.now ≡ [] }
    ensures { Answers result (λ checked. program_in checked)
        (program_with reading.now.source.now written.now (files_of files)) }
{
    let around = required(alloc, reading.seed)?;
    let outer = Scope::Block {
        routine: 0,
        names: &around.names,
        known: &around.known,
        outer: &Scope::Outside,
    };
    let mut start = Start {
        names: files.names,
        known: files.known,
        first: 0,
    };
    let read = read_program(alloc, reading, &outer, &mut start, written);
    // They are dropped before the fault is passed on, so that this happens in one place.
    drop(around);
    drop(start);
    let (done, gathered) = read?;
    program_of(alloc, done, gathered, written.name.from)
}

/// The state before any of the program is read: routine 0 is that of the program block.
fn nothing_gathered(alloc: Global, seed: Seed) -> Result<Gathered, AllocError>
    ensures { IfOk result (λ g. gathered_of g ≡ nothing_gathered) }
{
    let mut routines = Vec::new(alloc);
    routines.push(None)?;
    Ok(Gathered {
        domains: Vec::new(alloc),
        routines,
        wides: Wides::new(alloc, seed),
    })
}

/// The checked tree of a program, given a reading of the text in which its heading lists no file.
#[tactic(auto, unfolding(crate::specs::Programs::program))]
fn check_text(alloc: Global, heading: &Reading, written: &Program) -> Result<Checked, CheckFault>
    ensures { Answers result (λ checked. program_in checked) (program heading.now.source.now written.now) }
{
    let files = list_files(heading, alloc, written.parameters.as_slice())?;
    let reading = Reading {
        source: heading.source,
        lines: heading.lines,
        seed: heading.seed,
        domains: &[],
        wides: heading.wides,
        has_input: files.names.contains(b"input"),
        has_output: files.names.contains(b"output"),
    };
    check_block(alloc, &reading, files, written)
}

/// The checked tree of a program, or why it is refused, exactly as the judgement of programs says.
///
/// `Broken` has the rule that the program breaks and the token at which it is reported: the first fault of the text, in
/// the judgement's order. `OutOfMemory` is returned if the allocator refused memory.
pub fn check(alloc: Global, source: &Source, written: &Program) -> Result<Checked, CheckRefusal>
    ensures { IsChecked source.now (program source.now written.now) result }
{
    let lines = match LineTable::new(alloc, source) {
        Err(_) => return Err(CheckRefusal::OutOfMemory),
        Ok(lines) => lines,
    };
    let seed = Seed::of(source.bytes());
    let none = Wides::new(alloc, seed);
    let heading = Reading {
        source: &*source,
        lines: &lines,
        seed,
        domains: &[],
        wides: &none,
        has_input: false,
        has_output: false,
    };
    match check_text(alloc, &heading, written) {
        Ok(checked) => Ok(checked),
        Err(fault) => Err(refusal(&heading, fault)),
    }
}

/// The refusal of a fault, with the line of its token.
fn refusal(reading: &Reading, fault: CheckFault) -> CheckRefusal
    ensures { result ≡ refusal_of reading.now.source.now fault }
{
    match fault {
        CheckFault::OutOfMemory => CheckRefusal::OutOfMemory,
        CheckFault::Broken { rule, at } => CheckRefusal::Broken {
            rule,
            at,
            line: u32::from(reading.line(at).number),
        },
    }
}
