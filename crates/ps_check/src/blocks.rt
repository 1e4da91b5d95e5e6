//! Blocks and the routines in them.

ghost use Rattle.std.specs.Prelude.{◌≡◌, ◌∷◌, [], Some, OnOk, map};
ghost use Rattle.ps_syntax.specs.declared.program.Block.{out-Block};
ghost use Rattle.ps_tree.specs.View.{type_of, statements_of};
ghost use Rattle.ps_check_judgement.specs.Judged.{Answers, steps};
ghost use Rattle.ps_check_names.specs.Regions.{BlockRegion};
ghost use Rattle.ps_check_names.specs.Views.{meaning_of, context_of, scope_of};
ghost use Rattle.ps_check_declarations.specs.Views.{frame_of};
ghost use Rattle.ps_check_statements.specs.Statements.{statements};
ghost use Rattle.ps_check.specs.Readings.{RoutineReading};
ghost use Rattle.ps_check.specs.Forwards.{block_names};
ghost use Rattle.ps_check.specs.Blocks.{of_statements, one_routine, read_block, declared, block_body, block, routine};
ghost use Rattle.ps_check.specs.Blocks.{layer};
ghost use Rattle.ps_check.specs.Views.{gathered_of, start_of, done_of, routines_of};

use crate::chain::Chain;
use crate::changes::add_outward;
use crate::routines::{
    add_routines, all_complete, finish, heading_of_routine, introduce, routine_name, start,
};
use crate::state::{Done, Gathered, Local, Start};
use ps_check_declarations::declarations::declarations;
use ps_check_declarations::frame::{Declared, Frame, Parts};
use ps_check_declarations::points::add_block;
use ps_check_expressions::inner::Inner;
use ps_check_expressions::site::Site;
use ps_check_judgement::change::Change;
use ps_check_judgement::refusal::CheckFault;
use ps_check_names::meaning::Meaning;
use ps_check_names::reading::Reading;
use ps_check_names::scope::Scope;
use ps_check_names::wides::Wides;
use ps_check_statements::statement::statements;
use ps_syntax::{Block, Routine, Statement};
use ps_text::Span;
use ps_tree::names::Names;
use ps_tree::tree::Statement as StatementTree;
use ps_tree::types::Ty;
use std::alloc::{AllocError, Global};
use std::mem;

/// The same reading, with these domain types and these wide types known.
fn reading_with<'a>(reading: &Reading<'a>, domains: &'a [Ty], wides: &'a Wides) -> Reading<'a>
    ensures { context_of result ≡ of_statements (context_of reading.now) (map type_of domains.now) [] }
{
    Reading {
        source: reading.source,
        lines: reading.lines,
        seed: reading.seed,
        domains,
        wides,
        has_input: reading.has_input,
        has_output: reading.has_output,
    }
}

/// The regions that enclose a place in a block whose names have these meanings so far.
#[tactic(auto, unfolding(ps_check_names::specs::Views::scope_of))]
fn scope_within<'a>(frame: &'a Frame<'a>, known: &'a [Meaning]) -> Scope<'a>
    ensures { scope_of result ≡ BlockRegion frame.now.routine frame.now.names.now (map meaning_of known.now)
        ∷ scope_of frame.now.outer.now }
{
    Scope::Block {
        routine: frame.routine,
        names: frame.names,
        known,
        outer: frame.outer,
    }
}

/// The statements of a block and what they change, given the meanings of its names and the changes made by its
/// routines.
fn read_statements(
    list: &[Statement],
    frame: &Frame,
    alloc: Global,
    local: &Local,
    domains: &[Ty],
    wides: &Wides,
) -> Result<(Vec<StatementTree>, Vec<Change>), CheckFault>
    ensures { Answers result (λ read. (statements_of read.0.items, read.1.items))
        (statements (of_statements (context_of frame.now.reading.now) (map type_of domains.now) local.now.changes.items)
        (BlockRegion frame.now.routine frame.now.names.now (map meaning_of local.now.known.items)
        ∷ scope_of frame.now.outer.now) list.now []) }
{
    let reading = reading_with(frame.reading, domains, wides);
    let scope = scope_within(frame, &local.known);
    let inner = Inner::new(alloc, &local.changes)?;
    let site = Site {
        alloc,
        reading: &reading,
        scope: &scope,
        controls: &[],
        inner: &inner,
    };
    let mut changes = Vec::new(alloc);
    let body = statements(list, &site, &mut changes)?;
    Ok((body, changes))
}

/// The declarations of a block.
fn parts_of<'a>(written: &'a Block) -> Parts<'a>
    ensures constants { result.constants.now ≡ (out-Block written.now).constants }
    ensures types { result.types.now ≡ (out-Block written.now).types }
    ensures variables { result.variables.now ≡ (out-Block written.now).variables }
{
    Parts {
        constants: written.constants.as_slice(),
        types: written.types.as_slice(),
        variables: written.variables.as_slice(),
    }
}

/// The names of a block's region, after those already present.
fn add_block_names(
    written: &Block,
    reading: &Reading,
    alloc: Global,
    names: &mut Names,
) -> Result<(), AllocError>
    ensures { OnOk result (names.new ≡ block_names reading.now.source.now
        (layer (context_of reading.now) written.now) names.old) }
{
    add_block(reading, alloc, names, &parts_of(written))?;
    add_routines(reading, alloc, names, written.routines.as_slice())
}

/// The declarations of a block: the meanings of its names, after those already present, and the types of its variables.
fn declare(
    written: &Block,
    frame: &Frame,
    alloc: Global,
    start: (Vec<Meaning>, u32),
    gathered: &mut Gathered,
) -> Result<(Local, Vec<Ty>), CheckFault>
    ensures { Answers result (λ made. (routines_of made.0 gathered.new, map type_of made.1.items))
        (declared (frame_of frame.now) (layer (context_of frame.now.reading.now) written.now) start.1
        (map meaning_of start.0.items) (gathered_of gathered.old)) }
{
    let (known, first) = start;
    let mut declared = Declared {
        known,
        domains: mem::replace(&mut gathered.domains, Vec::new(alloc)),
        pending: Vec::new(alloc),
        variables: Vec::new(alloc),
        wides: mem::replace(&mut gathered.wides, Wides::new(alloc, frame.reading.seed)),
    };
    declarations(frame, alloc, first, &mut declared, &parts_of(written))?;
    let Declared {
        known,
        domains,
        variables,
        wides,
        ..
    } = declared;
    gathered.domains = domains;
    gathered.wides = wides;
    let local = Local {
        known,
        changes: Vec::new(alloc),
    };
    Ok((local, variables))
}

/// The statements of a block, and what they change. All of its routines must have their blocks.
#[tactic(auto, unfolding(crate::specs::Blocks::block_body))]
fn read_body(
    written: &Block,
    frame: &Frame,
    alloc: Global,
    local: &Local,
    gathered: &Gathered,
) -> Result<(Vec<StatementTree>, Vec<Change>), CheckFault>
    ensures { Answers result (λ read. (statements_of read.0.items, read.1.items))
        (block_body (context_of frame.now.reading.now) (frame_of frame.now)
        (layer (context_of frame.now.reading.now) written.now) (routines_of local.now gathered.now)) }
{
    all_complete(gathered, &local.known)?;
    let list = written.statements.as_slice();
    let wides = &gathered.wides;
    read_statements(list, frame, alloc, local, &gathered.domains, wides)
}

/// A block, and the routines within it. The names of its region and their meanings are added to those that it begins
/// with.
#[cycle(block)]
#[tactic(auto, using(crate::proofs::Equations::block_is), unfolding(crate::specs::Blocks::block_step))]
pub fn block(
    written: &Block,
    reading: &Reading,
    outer: &Scope,
    alloc: Global,
    chain: &Chain,
    start: &mut Start,
    gathered: &mut Gathered,
) -> Result<Done, CheckFault>
    ensures { Answers result (λ done. done_of done gathered.new)
        (block (context_of reading.now) written.now (scope_of outer.now) (start_of chain.now start.old)
        (gathered_of gathered.old)) }
{
    add_block_names(written, reading, alloc, &mut start.names)?;
    let known = mem::replace(&mut start.known, Vec::new(alloc));
    let begun = Names::new(alloc, reading.seed);
    let frame = Frame {
        reading: &*reading,
        routine: chain.own_number(),
        names: &start.names,
        begun: &begun,
        outer: &*outer,
    };
    let declared = declare(written, &frame, alloc, (known, start.first), gathered)?;
    let (mut local, variables) = declared;
    read_routines(
        written.routines.as_slice(),
        &frame,
        alloc,
        chain,
        &mut local,
        gathered,
    )?;
    let (body, own) = read_body(written, &frame, alloc, &local, gathered)?;
    let mut changes = local.changes;
    changes.extend_from_slice(&own)?;
    Ok(Done {
        variables,
        body,
        line: reading.line(written.begin.from),
        changes,
    })
}

/// The routines of a block, in their order.
#[cycle(block)]
#[tactic(auto, using(ps_check_declarations::proofs::Steps::mapped_start, ps_check_declarations::proofs::Steps::mapped_next, ps_check_declarations::proofs::Steps::mapped_fault, ps_check_declarations::proofs::Steps::mapped_end))]
fn read_routines(
    list: &[Routine],
    frame: &Frame,
    alloc: Global,
    chain: &Chain,
    local: &mut Local,
    gathered: &mut Gathered,
) -> Result<(), CheckFault>
    ensures { Answers result (λ _. routines_of local.new gathered.new)
        (steps (one_routine (frame_of frame.now) chain.now) (routines_of local.old gathered.old)
        (map (routine (context_of frame.now.reading.now)) list.now)) }
{
    for written in list {
        read_routine(written, frame, alloc, chain, local, gathered)?;
    }
    Ok(())
}

/// A routine.
#[cycle(block)]
#[tactic(auto, using(crate::proofs::Equations::routine_Whole, crate::proofs::Equations::routine_Forward, crate::proofs::Equations::routine_Completion), unfolding(crate::specs::Blocks::one_routine, crate::specs::Blocks::read_block))]
fn read_routine(
    written: &Routine,
    frame: &Frame,
    alloc: Global,
    chain: &Chain,
    local: &mut Local,
    gathered: &mut Gathered,
) -> Result<(), CheckFault>
    ensures { Answers result (λ _. routines_of local.new gathered.new)
        (one_routine (frame_of frame.now) chain.now (routines_of local.old gathered.old)
        (routine (context_of frame.now.reading.now) written.now)) }
{
    introduce(written, frame, alloc, local, gathered)?;
    let name = routine_name(written);
    match written {
        Routine::Forward(_) => Ok(()),
        Routine::Whole(_, block) | Routine::Completion(_, block) => {
            read_block(block, frame, alloc, chain, local, name, gathered)
        }
    }
}

/// The block of the routine with this name, whose heading is known.
#[cycle(block)]
#[tactic(auto, unfolding(crate::specs::Blocks::read_block))]
fn read_block(
    written: &Block,
    frame: &Frame,
    alloc: Global,
    chain: &Chain,
    local: &mut Local,
    name: Span,
    gathered: &mut Gathered,
) -> Result<(), CheckFault>
    ensures { (x : RoutineReading) → x.name ≡ name → Answers result (λ _. routines_of local.new gathered.new)
        (read_block (frame_of frame.now) chain.now x (routines_of local.old gathered.old)
        (Some (block (context_of frame.now.reading.now) written.now))) }
{
    let heading = heading_of_routine(frame, alloc, &local.known, name)?;
    let (inner, mut start) = start(heading, chain, frame.reading.seed, alloc, name.from)?;
    let outer = scope_within(&*frame, &local.known);
    let done = block(
        written,
        frame.reading,
        &outer,
        alloc,
        &inner,
        &mut start,
        gathered,
    );
    // It is dropped before the fault is passed on, so that this happens in one place.
    drop(start);
    let done = done?;
    add_outward(&done.changes, &mut local.changes)?;
    finish(heading, inner, done, gathered, alloc, name.from)
}
