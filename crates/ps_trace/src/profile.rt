//! Where the steps of runs went.

use crate::counts::Counts;
use crate::prepared::Prepared;
use ps_diagnostic::printable;
use ps_map::{Map, Owner, Row, line_at, lines_of, readable, run_time_description, small};
use std::alloc::{AllocError, Global};

// Steps of a routine, or of a line, by its number.
#[derive(Clone, Copy)]
struct Part {
    number: usize,
    steps: u64,
}

// The number of the owner of a row's words: the start, then the routines of the program, then those of the library.
fn number_of(map: &Map, owner: Owner) -> usize {
    match owner {
        Owner::Start | Owner::Strings => 0,
        Owner::Routine(number) => (number as usize).saturating_add(1),
        Owner::RunTime(number) => (number as usize)
            .saturating_add(1)
            .saturating_add(map.routines.len()),
    }
}

// The owner with this number.
fn name_of<'a>(map: &'a Map, number: usize) -> &'a str {
    let Some(routine) = number.checked_sub(1) else {
        return "start of the program";
    };
    match map.routines.get(routine) {
        Some(routine) => routine.name.as_str(),
        None => run_time_description(small(routine.saturating_sub(map.routines.len()))),
    }
}

// The line of the `begin` of the owner of a row's words; 0 if there is none.
fn begin_of(map: &Map, owner: Owner) -> usize {
    match owner {
        Owner::Routine(number) => match map.routines.get(number as usize) {
            Some(routine) => routine.begin.line as usize,
            None => 0,
        },
        _ => 0,
    }
}

// The line at which a row's words are counted; 0 if there is none.
fn line_of(map: &Map, row: Row) -> usize {
    match (row.statement, row.token) {
        (Some(place), _) | (None, Some(place)) => place.line as usize,
        (None, None) => begin_of(map, row.owner),
    }
}

// Adds steps to those of a number.
fn add(steps: &mut Vec<u64>, number: usize, more: u64) -> Result<(), AllocError> {
    if more == 0 {
        return Ok(());
    }
    if steps.len() <= number {
        steps.resize(number.saturating_add(1), 0)?;
    }
    if let Some(found) = steps.get_mut(number) {
        *found = found.saturating_add(more);
    }
    Ok(())
}

// The row of a word.
fn row_of(map: &Map, counts: &Counts, word: usize) -> Option<Row> {
    match counts.sites.words.get(word) {
        Some(site) => map.rows.get(site.row as usize).copied(),
        None => None,
    }
}

// The steps of each routine.
fn by_routine(alloc: Global, map: &Map, counts: &Counts) -> Result<Vec<u64>, AllocError> {
    let mut steps = Vec::new(alloc);
    for (word, count) in counts.words.iter().enumerate() {
        if let Some(row) = row_of(map, counts, word) {
            add(&mut steps, number_of(map, row.owner), *count)?;
        }
    }
    Ok(steps)
}

// The steps of each line; those of the library count at the lines that call it.
fn by_line(alloc: Global, map: &Map, counts: &Counts) -> Result<Vec<u64>, AllocError> {
    let mut steps = Vec::new(alloc);
    for (word, (count, served)) in counts.words.iter().zip(counts.served.iter()).enumerate() {
        if let Some(row) = row_of(map, counts, word) {
            if !matches!(row.owner, Owner::RunTime(_)) {
                add(&mut steps, line_of(map, row), count.saturating_add(*served))?;
            }
        }
    }
    Ok(steps)
}

// Those that have steps, the one with most steps first.
fn ranked(alloc: Global, steps: &[u64]) -> Result<Vec<Part>, AllocError> {
    let mut parts = Vec::new(alloc);
    for (number, steps) in steps.iter().enumerate() {
        if *steps > 0 {
            parts.push(Part {
                number,
                steps: *steps,
            })?;
        }
    }
    parts.sort_by_key(|part| u64::MAX - part.steps)?;
    Ok(parts)
}

// A share of a whole in percent, with one decimal place.
fn share_told(alloc: Global, part: u64, whole: u64) -> Result<String, AllocError> {
    let thousandths = part.saturating_mul(1000).checked_div(whole).unwrap_or(0);
    let units = thousandths / 10;
    let tenths = thousandths % 10;
    format!(in alloc; "{units}.{tenths}")
}

// Adds a line with steps and their share.
fn put_part(
    alloc: Global,
    out: &mut String,
    steps: u64,
    all: u64,
    name: &str,
) -> Result<(), AllocError> {
    let share = share_told(alloc, steps, all)?;
    let share = share.as_str();
    write!(out, "{steps:>14} {share:>6}  {name}\n")
}

// Adds the lines of the routines.
fn put_routines(
    alloc: Global,
    out: &mut String,
    map: &Map,
    counts: &Counts,
) -> Result<(), AllocError> {
    let steps = by_routine(alloc, map, counts)?;
    for part in ranked(alloc, steps.as_slice())?.iter() {
        put_part(
            alloc,
            out,
            part.steps,
            counts.steps,
            name_of(map, part.number),
        )?;
    }
    Ok(())
}

// Adds the rows for the lines of the text.
fn put_lines(
    alloc: Global,
    out: &mut String,
    text: &[u8],
    map: &Map,
    counts: &Counts,
) -> Result<(), AllocError> {
    let text = readable(alloc, text)?;
    let lines = lines_of(alloc, text.as_str())?;
    let steps = by_line(alloc, map, counts)?;
    for part in ranked(alloc, steps.as_slice())?.iter() {
        let number = small(part.number);
        let line = printable(alloc, line_at(lines.as_slice(), number))?;
        let line = line.as_str();
        let told = format!(in alloc; "{number:>5}  {line}")?;
        put_part(alloc, out, part.steps, counts.steps, told.as_str())?;
    }
    Ok(())
}

/// The steps of the runs by routine, including those of the run-time library, and then by line, where the steps of the
/// library count at the line that calls it. Both add up to all steps, which the first line has. What isn't printable in
/// a line is shown as `?`, as in messages.
pub fn profile_report(
    alloc: Global,
    text: &[u8],
    prepared: &Prepared,
    counts: &Counts,
) -> Result<String, AllocError> {
    let steps = counts.steps;
    let mut out = format!(in alloc; "{steps:>14} steps\n         steps      %  routine\n")?;
    put_routines(alloc, &mut out, &prepared.text.map, counts)?;
    out.push_str("         steps      %   line\n")?;
    put_lines(alloc, &mut out, text, &prepared.text.map, counts)?;
    Ok(out)
}
