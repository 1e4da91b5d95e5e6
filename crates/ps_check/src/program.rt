//! The region around the program, the files that its heading lists, and the program of its routines.

ghost use Rattle.std.specs.Prelude.{◌≡◌, ◌++◌, ◌∷◌, [], not, IfOk, OnOk, map};
ghost use Rattle.ps_tree.specs.View.{routine_of};
ghost use Rattle.ps_tree.specs.Checked.{program_in};
ghost use Rattle.ps_check_judgement.specs.Judged.{Answers, provided, some_or, steps, traverse};
ghost use Rattle.ps_check_judgement.specs.declared.refusal.Rule.TheVariants.{Limit, Twice};
ghost use Rattle.ps_check_names.specs.Spelling.{has};
ghost use Rattle.ps_check_names.specs.Regions.{BlockRegion, FileMeaning};
ghost use Rattle.ps_check_names.specs.Views.{meaning_of};
ghost use Rattle.ps_check.specs.Programs.{required, add_required, add_all_required, file_named, list_file, no_files};
ghost use Rattle.ps_check.specs.Programs.{assembled, program_routine, program_of};
ghost use Rattle.ps_check.specs.declared.state.Gathered.{Gathered};
ghost use Rattle.ps_check.specs.Views.{standard_meaning, files_of, finished_of, gathered_of, done_of};

use crate::chain::{Chain, Finished};
use crate::routines::put;
use crate::state::{Done, Gathered};
use ps_check_judgement::answer::{broken, paired};
use ps_check_judgement::refusal::{CheckFault, Rule};
use ps_check_names::constants::{BOOLEAN, CHAR, INTEGER};
use ps_check_names::meaning::{File, Meaning, Required};
use ps_check_names::reading::Reading;
use ps_text::Span;
use ps_tree::names::{Names, Seed};
use ps_tree::program::Checked;
use ps_tree::tree::Routine;
use ps_tree::types::Ty;
use std::alloc::{AllocError, Global};

/// What a required name denotes.
#[derive(Clone, Copy)]
enum Standard {
    Type(ps_tree::types::Ordinal),
    Constant(ps_tree::types::Ordinal, i32),
    Routine(Required),
    LeftOut,
}

/// The names of the region around the program.
const REQUIRED: [(&[u8], Standard); 38] = [
    (b"integer", Standard::Type(INTEGER)),
    (b"char", Standard::Type(CHAR)),
    (b"boolean", Standard::Type(BOOLEAN)),
    (b"maxint", Standard::Constant(INTEGER, i32::MAX)),
    (b"false", Standard::Constant(BOOLEAN, 0)),
    (b"true", Standard::Constant(BOOLEAN, 1)),
    (b"abs", Standard::Routine(Required::Abs)),
    (b"sqr", Standard::Routine(Required::Sqr)),
    (b"odd", Standard::Routine(Required::Odd)),
    (b"chr", Standard::Routine(Required::Chr)),
    (b"ord", Standard::Routine(Required::Ord)),
    (b"succ", Standard::Routine(Required::Succ)),
    (b"pred", Standard::Routine(Required::Pred)),
    (b"eof", Standard::Routine(Required::Eof)),
    (b"eoln", Standard::Routine(Required::Eoln)),
    (b"read", Standard::Routine(Required::Read)),
    (b"readln", Standard::Routine(Required::Readln)),
    (b"write", Standard::Routine(Required::Write)),
    (b"writeln", Standard::Routine(Required::Writeln)),
    (b"new", Standard::Routine(Required::New)),
    (b"pack", Standard::Routine(Required::Pack)),
    (b"unpack", Standard::Routine(Required::Unpack)),
    (b"real", Standard::LeftOut),
    (b"text", Standard::LeftOut),
    (b"trunc", Standard::LeftOut),
    (b"round", Standard::LeftOut),
    (b"sin", Standard::LeftOut),
    (b"cos", Standard::LeftOut),
    (b"exp", Standard::LeftOut),
    (b"ln", Standard::LeftOut),
    (b"sqrt", Standard::LeftOut),
    (b"arctan", Standard::LeftOut),
    (b"get", Standard::LeftOut),
    (b"put", Standard::LeftOut),
    (b"reset", Standard::LeftOut),
    (b"rewrite", Standard::LeftOut),
    (b"page", Standard::LeftOut),
    (b"dispose", Standard::LeftOut),
];

/// What a required name denotes, as a value to keep.
#[tactic(auto, unfolding(crate::specs::Views::standard_meaning, ps_check_names::specs::Views::meaning_of, ps_tree::specs::View::type_of))]
fn meaning(standard: Standard) -> Meaning
    ensures { meaning_of result ≡ standard_meaning standard }
{
    match standard {
        Standard::Type(ordinal) => Meaning::Type(Ty::Simple(ordinal)),
        Standard::Constant(ordinal, value) => Meaning::Constant { ordinal, value },
        Standard::Routine(routine) => Meaning::Required(routine),
        Standard::LeftOut => Meaning::LeftOut,
    }
}

/// Names with what they denote.
#[derive(Drop)]
pub struct Files {
    pub names: Names,
    pub known: Vec<Meaning>,
}

/// One more name, unless it is present.
#[tactic(auto, unfolding(crate::specs::Programs::add_required))]
fn add_required(
    alloc: Global,
    region: &mut Files,
    name: &[u8],
    standard: Standard,
) -> Result<(), AllocError>
    ensures { OnOk result (files_of region.new ≡ add_required (files_of region.old)
        (name.now, standard_meaning standard)) }
{
    let spelling = Vec::from_slice(alloc, name)?;
    if region.names.add(spelling)? {
        region.known.push(meaning(standard))?;
    }
    Ok(())
}

/// More names.
fn add_all_required(
    alloc: Global,
    region: &mut Files,
    mut table: &[(&[u8], Standard)],
) -> Result<(), AllocError>
    ensures { OnOk result (files_of region.new ≡ add_all_required (files_of region.old)
        (map (λ e. (e.0.now, standard_meaning e.1)) table.entry.now)) }
{
    while let [entry, rest @ ..] = table {
        add_required(alloc, region, entry.0, entry.1)?;
        table = rest;
    }
    Ok(())
}

/// The names of the region around the program.
pub fn required(alloc: Global, seed: Seed) -> Result<Files, AllocError>
    ensures { IfOk result (λ all. required ≡ BlockRegion 0 all.names (map meaning_of all.known.items)) }
{
    let mut region = Files {
        names: Names::new(alloc, seed),
        known: Vec::new(alloc),
    };
    add_all_required(alloc, &mut region, &REQUIRED)?;
    Ok(region)
}

/// The file that a program parameter names; the parameter is at an offset.
fn file_named(name: &[u8], at: u32) -> Result<File, CheckFault>
    ensures { Answers result (λ file. FileMeaning file) (file_named at name.now) }
{
    if name == b"input".as_slice() {
        Ok(File::Input)
    } else if name == b"output".as_slice() {
        Ok(File::Output)
    } else {
        Err(broken(Rule::NotInProfile, at))
    }
}

/// One more file, whose name, at an offset, is new.
#[tactic(auto, unfolding(ps_check_names::specs::Views::meaning_of))]
fn add_file(files: &mut Files, name: Vec<u8>, file: File, at: u32) -> Result<(), CheckFault>
    ensures { Answers result (λ _. files_of files.new)
        (provided (not (has files.old.names name.items)) Twice at
        (record {
          names = files.old.names ++ name.items ∷ [];
          known = map meaning_of files.old.known.items
              ++ FileMeaning file ∷ [];
        })) }
{
    if !files.names.add(name)? {
        return Err(broken(Rule::Twice, at));
    }
    files.known.push(Meaning::File(file))?;
    Ok(())
}

/// One more program parameter.
#[tactic(auto, unfolding(crate::specs::Programs::list_file))]
fn list_file(
    reading: &Reading,
    alloc: Global,
    files: &mut Files,
    at: Span,
) -> Result<(), CheckFault>
    ensures { Answers result (λ _. files_of files.new) (list_file reading.now.source.now (files_of files.old) at) }
{
    let name = reading.name(alloc, at)?;
    let file = file_named(&name, at.from)?;
    add_file(files, name, file, at.from)
}

/// The files that a program heading lists.
#[tactic(auto, using(ps_check_judgement::proofs::Lists::stepped_start, ps_check_judgement::proofs::Lists::stepped_next, ps_check_judgement::proofs::Lists::stepped_fault, ps_check_judgement::proofs::Lists::stepped_end))]
pub fn list_files(
    reading: &Reading,
    alloc: Global,
    parameters: &[Span],
) -> Result<Files, CheckFault>
    ensures { Answers result (λ files. files_of files)
        (steps (list_file reading.now.source.now) no_files parameters.now) }
{
    let mut files = Files {
        names: Names::new(alloc, reading.seed),
        known: Vec::new(alloc),
    };
    for at in parameters {
        list_file(reading, alloc, &mut files, *at)?;
    }
    Ok(files)
}

/// The routines in the order of their numbers, if each has its block. The program's name is at `at`.
fn all_routines(
    alloc: Global,
    gathered: Vec<Option<Finished>>,
    at: u32,
) -> Result<Vec<Routine>, CheckFault>
    ensures { Answers result (λ routines. map routine_of routines.items)
        (traverse (some_or Limit at) (map finished_of gathered.items)) }
{
    let mut routines = Vec::new(alloc);
    for finished in gathered {
        match finished {
            None => return Err(broken(Rule::Limit, at)),
            Some(Finished { routine }) => routines.push(routine)?,
        }
    }
    Ok(routines)
}

/// The program with these parts, if each routine has its block and the program keeps the limits. The program's name is
/// at `at`.
#[tactic(auto, using(crate::proofs::Collected::limited_is), unfolding(crate::specs::Programs::assembled))]
fn assembled(alloc: Global, gathered: Gathered, at: u32) -> Result<Checked, CheckFault>
    ensures { Answers result (λ checked. program_in checked) (assembled at (gathered_of gathered)) }
{
    let Gathered {
        routines,
        domains,
        ..
    } = gathered;
    let routines = all_routines(alloc, routines, at);
    let (routines, domains) = paired(routines, Ok(domains))?;
    Checked::new(routines, domains).ok_or(broken(Rule::Limit, at))
}

/// The program block as a routine.
#[tactic(auto, using(crate::proofs::FormalLemmas::no_formals))]
fn program_routine(alloc: Global, block: Done) -> Result<Finished, AllocError>
    ensures { IfOk result (λ finished. (g : Gathered) → routine_of finished.routine ≡ program_routine
        (done_of block g)) }
{
    let chain = Chain::program(alloc)?.into_numbers();
    Ok(Finished {
        routine: Routine {
            chain,
            formals: Vec::new(alloc),
            result: None,
            variables: block.variables,
            body: block.body,
            line: block.line,
        },
    })
}

/// The program of a program block and the routines in it. The program's name is at `at`.
#[tactic(auto, unfolding(crate::specs::Programs::program_of))]
pub fn program_of(
    alloc: Global,
    block: Done,
    mut gathered: Gathered,
    at: u32,
) -> Result<Checked, CheckFault>
    ensures { Answers result (λ checked. program_in checked) (program_of at (done_of block gathered)) }
{
    let finished = program_routine(alloc, block)?;
    put(&mut gathered, 0, finished);
    assembled(alloc, gathered, at)
}
