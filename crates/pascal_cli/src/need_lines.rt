//! The lines that `pascal needs` writes.

ghost use Rattle.std.specs.Prelude.{◌≡◌, ◌++◌, IfOk, OnOk, decimal, flat_map, get_or, take};
ghost use Rattle.std.specs.List.{position_or_len};
ghost use Rattle.pascal_cli.specs.NeedLines.{bytes_of, endless_line, frame_text, heap_line, is_routine, least_line};
ghost use Rattle.pascal_cli.specs.NeedLines.{more_text, name_of, needed_lines, next_frame, next_name, others_text};
ghost use Rattle.pascal_cli.specs.NeedLines.{part_of, path_text, turn_bytes, turn_line, turn_name, with_name};
ghost use Rattle.pascal_cli.specs.NeedLines.{with_number};

use ps_needs_image::Needed;
use ps_needs_least::Need;
use ps_text::Span;
use std::alloc::{AllocError, Global};

// A text and what its image needs.
#[derive(Clone, Copy)]
struct Shown<'a> {
    alloc: Global,
    text: &'a [u8],
    needed: &'a Needed,
}

// How many routines are named after the first.
const MOST_NAMED: usize = 15;

// ---- routines

// The part of a text.
fn part_of<'a>(text: &'a [u8], span: Span) -> &'a [u8]
    ensures { result.now ≡ part_of text.now span }
{
    if span.to < span.from || text.len() < span.to as usize {
        b"?"
    } else {
        &text[span.from as usize..span.to as usize]
    }
}

// The name of a routine as it is written in its heading.
fn name_of<'a>(told: Shown<'a>, routine: u32) -> &'a [u8]
    ensures { result.now ≡ name_of told.entry.text.now told.entry.needed.now routine }
{
    match told.needed.names.get(routine as usize) {
        Some(name) => part_of(told.text, *name),
        None => b"?",
    }
}

// The bytes of a routine's frame.
fn frame_of(told: Shown<'_>, routine: u32) -> u64
    ensures { result ≡ get_or told.entry.needed.now.frames.items routine 0 }
{
    match told.needed.frames.get(routine as usize) {
        Some(bytes) => *bytes as u64,
        None => 0,
    }
}

// The bytes of the frames of several routines.
fn bytes_of(told: Shown<'_>, routines: &[u32]) -> u64
    ensures { result ≡ bytes_of told.entry.needed.now routines.now }
{
    let mut bytes: u64 = 0;
    for routine in routines {
        bytes = bytes.saturating_add(frame_of(told, *routine));
    }
    bytes
}

// The first of these routines, which are named.
fn named(routines: &[u32]) -> &[u32]
    ensures { result.now ≡ take 15 routines.now }
{
    if routines.len() <= MOST_NAMED {
        routines
    } else {
        &routines[..MOST_NAMED]
    }
}

// ---- parts of lines

fn put(out: &mut Vec<u8>, text: &str) -> Result<(), AllocError>
    ensures { OnOk result (out.new.items ≡ out.old.items ++ text.now) }
{
    out.extend_from_slice(text.as_bytes())
}

// Adds a number in decimal.
fn put_number(out: &mut Vec<u8>, told: Shown<'_>, number: u64) -> Result<(), AllocError>
    ensures { OnOk result (out.new.items ≡ out.old.items ++ decimal number) }
{
    let text = format!(in told.alloc; "{number}")?;
    put(out, text.as_str())
}

// Adds a number between two texts.
#[tactic(auto, unfolding(crate::specs::NeedLines::with_number))]
fn put_with_number(
    out: &mut Vec<u8>,
    told: Shown<'_>,
    before: &str,
    number: u64,
    behind: &str,
) -> Result<(), AllocError>
    ensures { OnOk result (out.new.items ≡ out.old.items ++ with_number before.now number behind.now) }
{
    put(out, before)?;
    put_number(out, told, number)?;
    put(out, behind)
}

// Adds the name of a routine between two texts.
#[tactic(auto, unfolding(crate::specs::NeedLines::with_name))]
fn put_with_name(
    out: &mut Vec<u8>,
    told: Shown<'_>,
    before: &str,
    routine: u32,
    behind: &str,
) -> Result<(), AllocError>
    ensures { OnOk result (out.new.items ≡ out.old.items
        ++ with_name before.now (name_of told.entry.text.now told.entry.needed.now routine) behind.now) }
{
    put(out, before)?;
    out.extend_from_slice(name_of(told, routine))?;
    put(out, behind)
}

// Adds how many more there are, if there are more than are named.
fn put_more(
    out: &mut Vec<u8>,
    told: Shown<'_>,
    between: &str,
    routines: &[u32],
) -> Result<(), AllocError>
    ensures { OnOk result (out.new.items ≡ out.old.items ++ more_text between.now routines.now) }
{
    if routines.len() <= MOST_NAMED {
        return Ok(());
    }
    let more = (routines.len() - MOST_NAMED) as u64;
    put_with_number(out, told, between, more, " more")
}

// ---- a stack with a bound

// Adds the name of a routine with the bytes of its frame.
fn put_frame(out: &mut Vec<u8>, told: Shown<'_>, routine: u32) -> Result<(), AllocError>
    ensures { OnOk result (out.new.items ≡ out.old.items
        ++ frame_text told.entry.text.now told.entry.needed.now routine) }
{
    out.extend_from_slice(name_of(told, routine))?;
    put(out, " ")?;
    put_number(out, told, frame_of(told, routine))
}

// Adds routines after the first.
fn put_frames(out: &mut Vec<u8>, told: Shown<'_>, routines: &[u32]) -> Result<(), AllocError>
    ensures { OnOk result (out.new.items ≡ out.old.items
        ++ flat_map (next_frame told.entry.text.now told.entry.needed.now) routines.now) }
{
    let [routine, behind @ ..] = routines else {
        return Ok(());
    };
    put(out, " + ")?;
    put_frame(out, told, *routine)?;
    put_frames(out, told, behind)
}

// Adds a path of calls.
fn put_path(out: &mut Vec<u8>, told: Shown<'_>, path: &[u32]) -> Result<(), AllocError>
    ensures { OnOk result (out.new.items ≡ out.old.items
        ++ path_text told.entry.text.now told.entry.needed.now path.now) }
{
    let [routine, behind @ ..] = path else {
        return Ok(());
    };
    put_frame(out, told, *routine)?;
    put_frames(out, told, named(behind))?;
    put_more(out, told, " + ", behind)
}

// Adds the line of a program whose stack has a bound.
fn put_least(out: &mut Vec<u8>, told: Shown<'_>, bytes: u64, path: &[u32]) -> Result<(), AllocError>
    ensures { OnOk result (out.new.items ≡ out.old.items
        ++ least_line told.entry.text.now told.entry.needed.now bytes path.now) }
{
    put_with_number(out, told, "stack ", bytes, " bytes, proved: ")?;
    put_path(out, told, path)?;
    put(out, "\n")
}

// ---- a stack without a known bound

// Adds the routines through which a routine may call itself, after the first.
fn put_names(out: &mut Vec<u8>, told: Shown<'_>, routines: &[u32]) -> Result<(), AllocError>
    ensures { OnOk result (out.new.items ≡ out.old.items
        ++ flat_map (next_name told.entry.text.now told.entry.needed.now) routines.now) }
{
    let [routine, behind @ ..] = routines else {
        return Ok(());
    };
    put_with_name(out, told, ", `", *routine, "`")?;
    put_names(out, told, behind)
}

// Adds the routines through which a routine may call itself, if there are others.
fn put_others(out: &mut Vec<u8>, told: Shown<'_>, others: &[u32]) -> Result<(), AllocError>
    ensures { OnOk result (out.new.items ≡ out.old.items
        ++ others_text told.entry.text.now told.entry.needed.now others.now) }
{
    let [routine, behind @ ..] = others else {
        return Ok(());
    };
    put_with_name(out, told, " through `", *routine, "`")?;
    put_names(out, told, named(behind))?;
    put_more(out, told, " and ", behind)
}

// Adds which routine may call itself.
fn put_turn_name(
    out: &mut Vec<u8>,
    told: Shown<'_>,
    routine: u32,
    others: &[u32],
) -> Result<(), AllocError>
    ensures { OnOk result (out.new.items ≡ out.old.items
        ++ turn_name told.entry.text.now told.entry.needed.now routine others.now) }
{
    put_with_name(
        out,
        told,
        "stack without a known bound: `",
        routine,
        "` may call itself",
    )?;
    put_others(out, told, others)
}

// Adds the bytes of the calls before it, and of those from it to itself.
fn put_turn_bytes(
    out: &mut Vec<u8>,
    told: Shown<'_>,
    before: &[u32],
    turn: &[u32],
) -> Result<(), AllocError>
    ensures { OnOk result (out.new.items ≡ out.old.items ++ turn_bytes told.entry.needed.now before.now turn.now) }
{
    put_with_number(out, told, "; ", bytes_of(told, before), " bytes")?;
    put_with_number(
        out,
        told,
        " + ",
        bytes_of(told, turn),
        " for each open call of it\n",
    )
}

// Adds the line of calls that come back to the first of them.
fn put_turn(
    out: &mut Vec<u8>,
    told: Shown<'_>,
    before: &[u32],
    turn: &[u32],
) -> Result<(), AllocError>
    ensures { OnOk result (out.new.items ≡ out.old.items
        ++ turn_line told.entry.text.now told.entry.needed.now before.now turn.now) }
{
    let [routine, others @ ..] = turn else {
        return Ok(());
    };
    put_turn_name(out, told, *routine, others)?;
    put_turn_bytes(out, told, before, turn)
}

// The first place of a routine among these.
fn place_of(routine: u32, routines: &[u32]) -> usize
    ensures { result ≡ position_or_len (is_routine routine) routines.now }
{
    let mut place: usize = 0;
    while place < routines.len() && routines[place] != routine {
        place += 1;
    }
    place
}

// Adds the line of a program whose calls come back to the last routine of a path.
fn put_endless(out: &mut Vec<u8>, told: Shown<'_>, path: &[u32]) -> Result<(), AllocError>
    ensures { OnOk result (out.new.items ≡ out.old.items
        ++ endless_line told.entry.text.now told.entry.needed.now path.now) }
{
    let [open @ .., last] = path else {
        return Ok(());
    };
    let (before, turn) = open.split_at(place_of(*last, open));
    put_turn(out, told, before, turn)
}

// ---- all lines

// Adds the line about the heap.
fn put_heap(out: &mut Vec<u8>, makes_objects: bool) -> Result<(), AllocError>
    ensures { OnOk result (out.new.items ≡ out.old.items ++ heap_line makes_objects) }
{
    if makes_objects {
        put(out, "heap not known: the text has `new`\n")
    } else {
        put(out, "heap 0 bytes: no `new`\n")
    }
}

/// The lines that say how much the image of a text needs.
pub(crate) fn needed_lines(
    alloc: Global,
    text: &[u8],
    needed: &Needed,
) -> Result<Vec<u8>, AllocError>
    ensures { IfOk result (λ lines. lines.items ≡ needed_lines text.now needed.now) }
{
    let mut out = Vec::new(alloc);
    let told = Shown {
        alloc,
        text,
        needed,
    };
    match &needed.need {
        Need::Least { bytes, path } => put_least(&mut out, told, *bytes, path.as_slice())?,
        Need::Endless { path } => put_endless(&mut out, told, path.as_slice())?,
    }
    put_heap(&mut out, needed.makes_objects)?;
    Ok(out)
}
