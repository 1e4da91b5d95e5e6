// The names of routines, by their numbers.

use ps_syntax::{Block, Heading, Program, Routine};
use ps_text::{Source, Span};
use ps_tree::names::{Names, Seed};
use std::alloc::{AllocError, Global};

// A text, and the seed of the hashes of its names.
#[derive(Clone, Copy)]
struct Text<'a> {
    source: &'a Source<'a>,
    seed: Seed,
}

// The name in a heading.
fn heading_name(heading: &Heading) -> Span {
    match heading {
        Heading::Procedure(name, _) | Heading::Function(name, _, _) => *name,
    }
}

// A name as it is compared: in lower case.
fn spelled(alloc: Global, source: &Source<'_>, name: Span) -> Result<Vec<u8>, AllocError> {
    let mut spelling = Vec::new(alloc);
    if name.from <= name.to && name.to <= source.len() {
        for byte in source.slice(name) {
            spelling.push(byte.to_ascii_lowercase())?;
        }
    }
    Ok(spelling)
}

// Adds the name of a routine with its block, unless the block belongs to a heading declared by `forward`.
fn add_whole(
    alloc: Global,
    source: &Source<'_>,
    name: Span,
    forward: &Names,
    names: &mut Vec<Span>,
) -> Result<(), AllocError> {
    let spelling = spelled(alloc, source, name)?;
    if !forward.contains(&spelling) {
        names.push(name)?;
    }
    Ok(())
}

// Adds the name of a heading whose block comes later.
fn add_forward(
    alloc: Global,
    source: &Source<'_>,
    name: Span,
    forward: &mut Names,
    names: &mut Vec<Span>,
) -> Result<(), AllocError> {
    names.push(name)?;
    let spelling = spelled(alloc, source, name)?;
    forward.add(spelling)?;
    Ok(())
}

#[cycle(blocks)]
fn add_routine(
    alloc: Global,
    text: Text<'_>,
    routine: &Routine,
    forward: &mut Names,
    names: &mut Vec<Span>,
) -> Result<(), AllocError> {
    match routine {
        Routine::Whole(heading, block) => {
            add_whole(alloc, text.source, heading_name(heading), forward, names)?;
            add_block(alloc, text, block, names)
        }
        Routine::Forward(heading) => {
            add_forward(alloc, text.source, heading_name(heading), forward, names)
        }
        Routine::Completion(_, block) => add_block(alloc, text, block, names),
    }
}

#[cycle(blocks)]
fn add_block(
    alloc: Global,
    text: Text<'_>,
    block: &Block,
    names: &mut Vec<Span>,
) -> Result<(), AllocError> {
    let mut forward = Names::new(alloc, text.seed);
    for routine in block.routines.as_slice() {
        add_routine(alloc, text, routine, &mut forward, names)?;
    }
    Ok(())
}

/// Where the names of a program's routines are: the program's own, followed by those of the headings in the order of
/// the text, which is the order of the routines' numbers.
pub(crate) fn names_of(
    alloc: Global,
    source: &Source<'_>,
    program: &Program,
) -> Result<Vec<Span>, AllocError> {
    let mut names = Vec::new(alloc);
    names.push(program.name)?;
    let text = Text {
        source,
        seed: Seed::of(source.bytes()),
    };
    add_block(alloc, text, &program.block, &mut names)?;
    Ok(names)
}
