//! Coverage: how often each statement was executed, next to the lines of the text.

use crate::counts::Counts;
use crate::prepared::Prepared;
use crate::sites::Statement;
use ps_diagnostic::printable;
use ps_map::{Routine, lines_of, readable, small};
use std::alloc::{AllocError, Global};

// The statements on a line, which come first among those left.
fn statements_on(rest: &[Statement], line: u32) -> usize {
    rest.partition_point(|statement| statement.place.line <= line)
}

// Whether all counts are the same.
fn are_same(counts: &[u64]) -> bool {
    for count in counts {
        if counts.first() != Some(count) {
            return false;
        }
    }
    true
}

// A count alone.
fn count_told(alloc: Global, count: u64) -> Result<String, AllocError> {
    if count == 0 {
        String::from_str(alloc, "never")
    } else {
        format!(in alloc; "{count}")
    }
}

// The counts of the statements on a line, as they are shown: a single one if all are the same.
fn counts_told(alloc: Global, counts: &[u64]) -> Result<String, AllocError> {
    let Some(first) = counts.first() else {
        return Ok(String::new(alloc));
    };
    if are_same(counts) {
        return count_told(alloc, *first);
    }
    let mut out = String::new(alloc);
    for (at, count) in counts.iter().enumerate() {
        let between = if at == 0 { "" } else { " " };
        write!(out, "{between}{count}")?;
    }
    Ok(out)
}

// The mark of a line: whether a statement on it was never executed.
fn mark_of(counts: &[u64]) -> &'static str {
    if counts.contains(&0) { "!" } else { "|" }
}

// Adds a line with the counts of the statements on it.
fn put_line(alloc: Global, out: &mut String, line: &str, counts: &[u64]) -> Result<(), AllocError> {
    let told = counts_told(alloc, counts)?;
    let line = printable(alloc, line)?;
    let (told, line) = (told.as_str(), line.as_str());
    let mark = mark_of(counts);
    write!(out, "{told:>12} {mark} {line}\n")
}

// How many statements were never executed.
fn never_done(counts: &Counts) -> u64 {
    let mut never: u64 = 0;
    for count in counts.done.iter() {
        if *count == 0 {
            never = never.saturating_add(1);
        }
    }
    never
}

// The last line: how many statements there are, and how many of them were never executed.
fn put_sum(out: &mut String, counts: &Counts) -> Result<(), AllocError> {
    let all = counts.done.len();
    let never = never_done(counts);
    let runs = counts.runs;
    if runs == 1 {
        write!(out, "{all} statements, {never} never done\n")
    } else {
        write!(out, "{all} statements, {never} never done in {runs} runs\n")
    }
}

/// The lines of a text, each with how often the statements that begin on it were executed, and in the last line how
/// many statements there are and how many were never executed. A line with a statement that was never executed has a
/// `!`.
///
/// A statement without code of its own, such as an empty one or `begin` with its `end`, has no count. What isn't
/// printable in a line is shown as `?`, as in messages.
pub fn coverage_report(alloc: Global, text: &[u8], counts: &Counts) -> Result<String, AllocError> {
    let text = readable(alloc, text)?;
    let lines = lines_of(alloc, text.as_str())?;
    let mut out = String::new(alloc);
    let mut statements = counts.sites.statements.as_slice();
    let mut done = counts.done.as_slice();
    for (at, line) in lines.iter().enumerate() {
        let here = statements_on(statements, small(at).saturating_add(1));
        put_line(alloc, &mut out, *line, done.get(..here).unwrap_or(&[]))?;
        statements = statements.get(here..).unwrap_or(&[]);
        done = done.get(here..).unwrap_or(&[]);
    }
    put_sum(&mut out, counts)?;
    Ok(out)
}

// How often a routine was entered.
fn entered(counts: &Counts, routine: &Routine) -> u64 {
    counts
        .words
        .get(routine.entry as usize)
        .copied()
        .unwrap_or(0)
}

// Adds the records of the routines.
fn put_routines(out: &mut String, routines: &[Routine], counts: &Counts) -> Result<(), AllocError> {
    let mut hit: u64 = 0;
    for routine in routines {
        let line = routine.begin.line;
        let name = routine.name.as_str();
        let count = entered(counts, routine);
        write!(out, "FN:{line},{name}\nFNDA:{count},{name}\n")?;
        if count > 0 {
            hit = hit.saturating_add(1);
        }
    }
    let all = routines.len();
    write!(out, "FNF:{all}\nFNH:{hit}\n")
}

// How often the most executed statement of a line was executed; the first of these statements is the first one on the
// line.
fn most_done(statements: &[Statement], done: &[u64], line: u32) -> u64 {
    let here = statements_on(statements, line);
    let mut most: u64 = 0;
    for count in done.get(..here).unwrap_or(&[]) {
        most = most.max(*count);
    }
    most
}

// Adds the records of the lines that have statements.
fn put_lines(out: &mut String, counts: &Counts) -> Result<(), AllocError> {
    let mut found: u64 = 0;
    let mut hit: u64 = 0;
    let mut line: u32 = 0;
    let statements = counts.sites.statements.as_slice();
    for (at, statement) in statements.iter().enumerate() {
        if statement.place.line == line {
            continue;
        }
        line = statement.place.line;
        let rest = statements.get(at..).unwrap_or(&[]);
        let most = most_done(rest, counts.done.get(at..).unwrap_or(&[]), line);
        write!(out, "DA:{line},{most}\n")?;
        found = found.saturating_add(1);
        if most > 0 {
            hit = hit.saturating_add(1);
        }
    }
    write!(out, "LF:{found}\nLH:{hit}\n")
}

/// The same in the form that `lcov` and `genhtml` read. `name` is the path of the text; what isn't printable in it is
/// shown as `?`, so it takes one line. A line with several statements has the count of the one executed most often.
pub fn lcov_report(
    alloc: Global,
    name: &str,
    prepared: &Prepared,
    counts: &Counts,
) -> Result<String, AllocError> {
    let name = printable(alloc, name)?;
    let name = name.as_str();
    let mut out = format!(in alloc; "TN:\nSF:{name}\n")?;
    put_routines(&mut out, prepared.text.map.routines.as_slice(), counts)?;
    put_lines(&mut out, counts)?;
    out.push_str("end_of_record\n")?;
    Ok(out)
}
