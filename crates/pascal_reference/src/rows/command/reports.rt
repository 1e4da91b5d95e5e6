//! Statuses and messages.

use pascal_session::{message, status};
use ps_build::{FaultKind, Outcome, Place, Refusal, Rule, Trail};
use std::alloc::Global;
use test_tables::Line;
use test_tables::words::number;

fn refusal(name: &str, line: u32) -> Refusal {
    match name {
        "WrongType" => Refusal::Check {
            rule: Rule::WrongType,
            place: Place {
                line,
                from: 0,
                to: 0,
            },
        },
        "Truncated" => Refusal::Truncated,
        _ => Refusal::OutOfMemory,
    }
}

/// The lines of calls in the words after the first three; `None` if there are no such words.
fn trail_of(row: &str) -> Option<Trail> {
    let mut trail = None;
    for word in row.split(' ').skip(3) {
        let mut lines = trail.unwrap_or(Trail::new());
        if lines.len() < 16 {
            lines.push(number(Some(word)));
        }
        trail = Some(lines);
    }
    trail
}

/// The end that a row describes: a word, and numbers.
fn end_of(row: &str) -> Result<Outcome, Refusal> {
    let mut words = row.split(' ');
    let kind = words.next().unwrap_or("");
    let first = words.next();
    let line = number(words.next());
    match kind {
        "normal" => Ok(Outcome::Normal),
        "error" => Ok(Outcome::Error {
            number: number(first),
            line,
            trail: trail_of(row),
        }),
        "stack" => Ok(Outcome::Stack {
            number: number(first),
            line,
        }),
        "heap" => Ok(Outcome::Heap {
            number: number(first),
            line,
        }),
        "steps" => Ok(Outcome::Steps),
        "input-fault" => Ok(Outcome::InputFault),
        "output-fault" => Ok(Outcome::OutputFault),
        "bad-word" => Ok(Outcome::Fault(FaultKind::BadWord)),
        _ => Err(refusal(first.unwrap_or(""), line)),
    }
}

/// Puts the status of an end, and its message, in brackets.
pub(crate) fn put_report(alloc: Global, line: &mut Line, row: &str) {
    let end = end_of(row);
    line.numbered("", u64::from(status(&end)));
    line.word(" [");
    line.text(message(alloc, &end));
    line.word("]");
}
