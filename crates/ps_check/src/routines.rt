//! The names of a block's routines, forward headings, and what is done before and after a routine's block is read.

ghost use Rattle.std.specs.Prelude.{◌≡◌, [], Some, IfOk, OnOk, map, option_map, slice_get, slice_set, if◌then◌else◌};
ghost use Rattle.ps_tree.specs.View.{type_of, routine_of};
ghost use Rattle.ps_check_judgement.specs.Judged.{Answers, provided};
ghost use Rattle.ps_check_judgement.specs.declared.refusal.Rule.TheVariants.{Unknown, UsedBefore, Limit};
ghost use Rattle.ps_check_names.specs.Regions.{Context};
ghost use Rattle.ps_check_names.specs.Spelling.{spelled, has};
ghost use Rattle.ps_check_names.specs.Views.{meaning_of, heading_of, context_of};
ghost use Rattle.ps_check_declarations.specs.Points.{add_name};
ghost use Rattle.ps_check_declarations.specs.Views.{frame_of};
ghost use Rattle.ps_check.specs.Forwards.{add_routine, add_routines, is_open, is_waiting, one_complete, all_complete};
ghost use Rattle.ps_check.specs.Entries.{start, add_sections, add_names, first_entry};
ghost use Rattle.ps_check.specs.Blocks.{known_as, unheaded, headed, introduce, introduced, heading_at, routine_tree};
ghost use Rattle.ps_check.specs.Blocks.{is_small_routine, finished, routine};
ghost use Rattle.ps_check.specs.declared.state.Gathered.{Gathered};
ghost use Rattle.ps_check.specs.Views.{finished_of, gathered_of, routines_of, entries_of, start_of, done_of};

use crate::chain::{Chain, Finished};
use crate::changes::assigns;
use crate::formals::{add_sections, copy_result, first_entry, formals_of};
use crate::headings::{heading_name, is_bare, new_heading};
use crate::state::{Done, Gathered, Local, Start};
use ps_check_declarations::frame::Frame;
use ps_check_judgement::answer::{broken, paired};
use ps_check_judgement::refusal::{CheckFault, Rule};
use ps_check_names::meaning::{Heading, Meaning};
use ps_check_names::reading::Reading;
use ps_syntax::Routine;
use ps_text::Span;
use ps_tree::limits::{MAX_CELLS, MAX_NODES};
use ps_tree::names::{Names, Seed};
use ps_tree::tree::Routine as RoutineTree;
use std::alloc::{AllocError, Global};

/// The name of a routine.
#[tactic(auto, using(crate::proofs::Equations::routine_Whole, crate::proofs::Equations::routine_Forward, crate::proofs::Equations::routine_Completion))]
pub fn routine_name(written: &Routine) -> Span
    ensures { (c : Context) → result ≡ (routine c written.now).name }
{
    match written {
        Routine::Whole(heading, _) | Routine::Forward(heading) => heading_name(heading),
        Routine::Completion(name, _) => *name,
    }
}

/// Adds the name of a routine unless it is present; a heading defines it.
#[tactic(auto, using(crate::proofs::Equations::routine_Whole, crate::proofs::Equations::routine_Forward, crate::proofs::Equations::routine_Completion), unfolding(crate::specs::Forwards::add_routine))]
fn add_routine(
    reading: &Reading,
    alloc: Global,
    names: &mut Names,
    written: &Routine,
) -> Result<(), AllocError>
    ensures { OnOk result (names.new ≡ add_routine reading.now.source.now names.old
        (routine (context_of reading.now) written.now)) }
{
    match written {
        Routine::Completion(..) => Ok(()),
        Routine::Whole(heading, _) | Routine::Forward(heading) => {
            names.add(reading.name(alloc, heading_name(heading))?)?;
            Ok(())
        }
    }
}

/// The names of a block's routines, after those already present.
#[tactic(auto, using(crate::proofs::Lists::headed_start, crate::proofs::Lists::headed_next, crate::proofs::Lists::headed_end))]
pub fn add_routines(
    reading: &Reading,
    alloc: Global,
    names: &mut Names,
    list: &[Routine],
) -> Result<(), AllocError>
    ensures { OnOk result (names.new ≡ add_routines reading.now.source.now names.old
        (map (routine (context_of reading.now)) list.now)) }
{
    for written in list {
        add_routine(reading, alloc, names, written)?;
    }
    Ok(())
}

/// What a name of the block denotes, if that is known.
fn known_as<'k>(
    frame: &Frame,
    alloc: Global,
    known: &'k [Meaning],
    name: Span,
) -> Result<Option<&'k Meaning>, AllocError>
    ensures { IfOk result (λ found. option_map (λ m. meaning_of m.now) found ≡ known_as (frame_of frame.now)
        (map meaning_of known.now) (spelled frame.now.reading.now.source.now name)) }
{
    let spelling = frame.reading.spelling(alloc, name)?;
    match frame.names.find(spelling.as_slice()) {
        None => Ok(None),
        Some(index) => Ok(known.get(index)),
    }
}

/// Whether the routine with this number has no block yet.
fn is_open(gathered: &Gathered, heading: &Heading) -> bool
    ensures { result ≡ is_open (gathered_of gathered.now) (heading_of heading.now) }
{
    match gathered.routines.get(heading.number as usize) {
        Some(None) => true,
        Some(Some(_)) | None => false,
    }
}

/// Whether the meaning is that of a forward heading without its block, which this routine completes.
#[tactic(auto, using(crate::proofs::Equations::routine_Whole, crate::proofs::Equations::routine_Forward, crate::proofs::Equations::routine_Completion), unfolding(crate::specs::Forwards::is_waiting, ps_check_names::specs::Views::meaning_of))]
fn is_waiting(gathered: &Gathered, written: &Routine, meaning: &Meaning) -> bool
    ensures { (c : Context) → result ≡ is_waiting (gathered_of gathered.now) (routine c written.now)
        (meaning_of meaning.now) }
{
    match meaning {
        Meaning::Routine(heading) => {
            is_open(gathered, heading)
                && match written {
                    Routine::Whole(written, _) => is_bare(written) && heading.result.is_none(),
                    Routine::Forward(_) => false,
                    Routine::Completion(..) => heading.result.is_some(),
                }
        }
        Meaning::Constant { .. }
        | Meaning::Text(_)
        | Meaning::Type(_)
        | Meaning::Variable { .. }
        | Meaning::Parameter { .. }
        | Meaning::RoutineParameter { .. }
        | Meaning::File(_)
        | Meaning::Required(_)
        | Meaning::LeftOut => false,
    }
}

/// Checks that a routine of the block has its block.
#[tactic(auto, unfolding(crate::specs::Forwards::one_complete, ps_check_names::specs::Views::meaning_of))]
fn one_complete(gathered: &Gathered, meaning: &Meaning) -> Result<(), CheckFault>
    ensures { Answers result (λ _. tt) (one_complete (gathered_of gathered.now) tt (meaning_of meaning.now)) }
{
    match meaning {
        Meaning::Routine(heading) => {
            if is_open(gathered, heading) {
                return Err(broken(Rule::ForwardOpen, heading.at));
            }
            Ok(())
        }
        Meaning::Constant { .. }
        | Meaning::Text(_)
        | Meaning::Type(_)
        | Meaning::Variable { .. }
        | Meaning::Parameter { .. }
        | Meaning::RoutineParameter { .. }
        | Meaning::File(_)
        | Meaning::Required(_)
        | Meaning::LeftOut => Ok(()),
    }
}

/// Checks that all routines of the block have their blocks.
#[tactic(auto, using(ps_check_declarations::proofs::Steps::mapped_start, ps_check_declarations::proofs::Steps::mapped_next, ps_check_declarations::proofs::Steps::mapped_fault, ps_check_declarations::proofs::Steps::mapped_end), unfolding(crate::specs::Forwards::all_complete))]
pub fn all_complete(gathered: &Gathered, known: &[Meaning]) -> Result<(), CheckFault>
    ensures { Answers result (λ _. tt) (all_complete (gathered_of gathered.now) (map meaning_of known.now)) }
{
    for meaning in known {
        one_complete(gathered, meaning)?;
    }
    Ok(())
}

/// The rule broken by `function` with a name that is not that of a forward heading.
fn unheaded(frame: &Frame, alloc: Global, name: Span) -> Result<Rule, AllocError>
    ensures { IfOk result (λ rule. rule ≡ (if has frame.now.names.now (spelled frame.now.reading.now.source.now name)
        then UsedBefore else Unknown)) }
{
    let spelling = frame.reading.spelling(alloc, name)?;
    Ok(if frame.names.contains(spelling.as_slice()) {
        Rule::UsedBefore
    } else {
        Rule::Unknown
    })
}

/// A new heading of a routine, not the continuation of a forward one.
#[tactic(auto, using(crate::proofs::Equations::routine_Whole, crate::proofs::Equations::routine_Forward, crate::proofs::Equations::routine_Completion))]
fn add_heading(
    written: &Routine,
    frame: &Frame,
    alloc: Global,
    local: &mut Local,
    gathered: &mut Gathered,
) -> Result<(), CheckFault>
    ensures { Answers result (λ _. routines_of local.new gathered.new)
        (introduce (frame_of frame.now) (routine (context_of frame.now.reading.now) written.now)
        (routines_of local.old gathered.old) None) }
{
    match written {
        Routine::Whole(heading, _) => new_heading(heading, false, frame, alloc, local, gathered),
        Routine::Forward(heading) => new_heading(heading, true, frame, alloc, local, gathered),
        Routine::Completion(name, _) => {
            let rule = unheaded(frame, alloc, *name)?;
            Err(broken(rule, name.from))
        }
    }
}

/// Whether a routine completes a forward heading; `None` if its name is not known.
fn completes(
    written: &Routine,
    frame: &Frame,
    alloc: Global,
    known: &[Meaning],
    gathered: &Gathered,
) -> Result<Option<bool>, AllocError>
    ensures { IfOk result (λ waits. (c : Context) → waits ≡ option_map
        (is_waiting (gathered_of gathered.now) (routine c written.now))
        (known_as (frame_of frame.now) (map meaning_of known.now)
        (spelled frame.now.reading.now.source.now (routine c written.now).name))) }
{
    match known_as(frame, alloc, known, routine_name(written))? {
        None => Ok(None),
        Some(meaning) => Ok(Some(is_waiting(gathered, written, meaning))),
    }
}

/// The heading of a routine: a new one, unless it completes a forward one.
pub fn introduce(
    written: &Routine,
    frame: &Frame,
    alloc: Global,
    local: &mut Local,
    gathered: &mut Gathered,
) -> Result<(), CheckFault>
    ensures { Answers result (λ _. routines_of local.new gathered.new)
        (introduced (frame_of frame.now) (routine (context_of frame.now.reading.now) written.now)
        (routines_of local.old gathered.old)) }
{
    match completes(written, frame, alloc, &local.known, gathered)? {
        Some(true) => Ok(()),
        Some(false) => Err(broken(Rule::Twice, routine_name(written).from)),
        None => add_heading(written, frame, alloc, local, gathered),
    }
}

/// The heading of a routine of the block, by its name.
#[tactic(auto, unfolding(crate::specs::Blocks::heading_at, ps_check_names::specs::Views::meaning_of))]
pub fn heading_of_routine<'k>(
    frame: &Frame,
    alloc: Global,
    known: &'k [Meaning],
    name: Span,
) -> Result<&'k Heading, CheckFault>
    ensures { Answers result (λ heading. heading_of heading.now)
        (heading_at name.from (known_as (frame_of frame.now) (map meaning_of known.now)
        (spelled frame.now.reading.now.source.now name))) }
{
    match known_as(frame, alloc, known, name)? {
        Some(Meaning::Routine(heading)) => Ok(heading),
        _ => Err(broken(Rule::WrongKind, name.from)),
    }
}

/// One more name, unless it is present.
fn add_name(names: &mut Names, name: &[u8], alloc: Global) -> Result<(), AllocError>
    ensures { OnOk result (names.new ≡ add_name names.old name.now) }
{
    names.add(Vec::from_slice(alloc, name)?)?;
    Ok(())
}

/// These names, each once.
#[tactic(auto, using(crate::proofs::Lists::named_start, crate::proofs::Lists::named_next, crate::proofs::Lists::named_end))]
fn names_of(list: &[Vec<u8>], seed: Seed, alloc: Global) -> Result<Names, AllocError>
    ensures { IfOk result (λ names. names ≡ add_names [] (map (λ name. name.items) list.now)) }
{
    let mut names = Names::new(alloc, seed);
    for name in list {
        add_name(&mut names, name.as_slice(), alloc)?;
    }
    Ok(names)
}

/// The names of a heading's formal parameters and their meanings, and the entry after theirs. The routine's name is at
/// `at`.
fn parameters(heading: &Heading, seed: Seed, alloc: Global, at: u32) -> Result<Start, CheckFault>
    ensures names { IfOk result (λ s. s.names ≡ add_names [] (heading_of heading.now).names) }
    ensures entries { Answers result (λ s. entries_of s.first s.known.items)
        (add_sections at (entries_of (first_entry (heading_of heading.now).result) [])
        (heading_of heading.now).sections) }
{
    let names = names_of(&heading.names, seed, alloc)?;
    let mut known = Vec::new(alloc);
    let entry = first_entry(&heading.result);
    let first = add_sections(heading.sections.as_slice(), entry, &mut known, at)?;
    Ok(Start {
        names,
        known,
        first,
    })
}

/// What the block of a routine begins with. Its name is at `at`.
#[tactic(auto, unfolding(crate::specs::Entries::start))]
pub fn start(
    heading: &Heading,
    chain: &Chain,
    seed: Seed,
    alloc: Global,
    at: u32,
) -> Result<(Chain, Start), CheckFault>
    ensures { Answers result (λ s. start_of s.0 s.1) (start at chain.now (heading_of heading.now)) }
{
    let inner = chain.inner(alloc, heading.number, at);
    paired(inner, parameters(heading, seed, alloc, at))
}

/// Replaces the item at this place, if there is one.
fn put_at<A: Drop>(list: &mut Vec<A>, index: usize, item: A)
    ensures { list.new.items ≡ slice_set list.old.items index item }
{
    if let Some(place) = list.get_mut(index) {
        *place = item;
    }
}

/// Puts a routine at its number.
pub fn put(gathered: &mut Gathered, number: u32, routine: Finished)
    ensures domains { gathered.new.domains ≡ gathered.old.domains }
    ensures routines { map finished_of gathered.new.routines.items ≡ slice_set
        (map finished_of gathered.old.routines.items) number (Some (routine_of routine.routine)) }
{
    put_at(&mut gathered.routines, number as usize, Some(routine));
}

/// The routine of a heading and a block.
#[tactic(auto, unfolding(crate::specs::Blocks::routine_tree))]
fn routine_tree(
    heading: &Heading,
    chain: Chain,
    block: Done,
    alloc: Global,
) -> Result<Finished, AllocError>
    ensures { IfOk result (λ finished. (g : Gathered) → routine_of finished.routine ≡ routine_tree chain
        (heading_of heading.now) (done_of block g)) }
{
    let (formals, result) = paired(
        formals_of(heading.sections.as_slice(), alloc),
        copy_result(&heading.result),
    )?;
    Ok(Finished {
        routine: RoutineTree {
            chain: chain.into_numbers(),
            formals,
            result,
            variables: block.variables,
            body: block.body,
            line: block.line,
        },
    })
}

/// Whether the routine keeps the limits on cells and nodes.
#[tactic(auto, unfolding(crate::specs::Blocks::is_small_routine))]
fn is_small(routine: &RoutineTree) -> bool
    ensures { result ≡ is_small_routine (routine_of routine.now) }
{
    routine.cells() <= MAX_CELLS && routine.nodes() <= MAX_NODES
}

/// Puts a routine at its number, if it keeps the limits. The routine's name is at `at`.
fn put_small(
    gathered: &mut Gathered,
    number: u32,
    routine: Finished,
    at: u32,
) -> Result<(), CheckFault>
    ensures { Answers result (λ _. gathered_of gathered.new)
        (provided (is_small_routine (routine_of routine.routine)) Limit at
        (record {
          domains = map type_of gathered.old.domains.items;
          routines = slice_set
              (map finished_of gathered.old.routines.items) number (Some (routine_of routine.routine));
        })) }
{
    if is_small(&routine.routine) {
        put(gathered, number, routine);
        Ok(())
    } else {
        drop(routine);
        Err(broken(Rule::Limit, at))
    }
}

/// Completes the routine of a heading and a block. The routine's name is at `at`.
#[tactic(auto, unfolding(crate::specs::Blocks::finished))]
pub fn finish(
    heading: &Heading,
    chain: Chain,
    block: Done,
    gathered: &mut Gathered,
    alloc: Global,
    at: u32,
) -> Result<(), CheckFault>
    ensures { Answers result (λ _. gathered_of gathered.new)
        (finished at (heading_of heading.now) chain (done_of block gathered.old)) }
{
    if !assigns(&heading.result, &block.changes) {
        drop(block);
        return Err(broken(Rule::NoResultAssigned, at));
    }
    let finished = routine_tree(heading, chain, block, alloc)?;
    put_small(gathered, heading.number, finished, at)
}
