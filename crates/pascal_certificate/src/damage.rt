//! What is wrong with a text that is not a certificate. This is advisory: no contract says which.

use crate::fact::FACTS;
use crate::form::{LAST_LINES, head};
use crate::read::{behind, first_line, value_line};

/// Why a text is not a certificate of this form.
#[derive(Clone, Copy)]
pub enum Damage {
    /// It doesn't begin as certificates do.
    NoCertificate,
    /// It is a certificate of a form that this program doesn't read.
    OtherForm,
    /// It has a byte 13 in this line.
    CarriageReturn(usize),
    /// This line is not as the form has it.
    Line(usize),
    /// It ends in this line, or before it.
    Cut(usize),
    /// There is something after its last line.
    Behind,
}

// What the first line of certificates begins with.
const TITLE: &[u8] = b"fonkjuld certificate ";

// How many lines a text ends.
fn lines_in(text: &[u8]) -> usize {
    let mut count: usize = 0;
    for byte in text.iter() {
        if *byte == b'\n' {
            count = count.saturating_add(1);
        }
    }
    count
}

// The first line with a byte 13.
fn carriage_line(text: &[u8]) -> Option<usize> {
    let mut line: usize = 1;
    for byte in text.iter() {
        match *byte {
            b'\r' => return Some(line),
            b'\n' => line = line.saturating_add(1),
            _ => {}
        }
    }
    None
}

// The damage at the beginning of this line, after which this is left.
fn stopped(rest: &[u8], line: usize) -> Damage {
    match first_line(rest) {
        Some(_) => Damage::Line(line),
        None => Damage::Cut(line),
    }
}

// How many bytes two texts begin with alike.
fn alike(one: &[u8], other: &[u8]) -> usize {
    let mut count: usize = 0;
    for (a, b) in one.iter().zip(other.iter()) {
        if *a != *b {
            break;
        }
        count = count.saturating_add(1);
    }
    count
}

// The damage after the lines of the facts, which end before this line.
fn damage_of_tail(rest: &[u8], line: usize) -> Damage {
    let count = alike(rest, LAST_LINES.as_bytes());
    let (same, other) = rest.split_at(count.min(rest.len()));
    if count >= LAST_LINES.len() {
        return Damage::Behind;
    }
    stopped(other, line.saturating_add(lines_in(same)))
}

// The damage after the first line.
fn damage_of_lines(text: &[u8]) -> Damage {
    let mut rest = text;
    let mut line: usize = 2;
    for fact in FACTS.iter() {
        let Some((_, behind)) = value_line(rest, *fact) else {
            return stopped(rest, line);
        };
        rest = behind;
        line = line.saturating_add(1);
    }
    damage_of_tail(rest, line)
}

/// What is wrong with a text that is not a certificate, and in which line.
pub fn damage_of(text: &[u8]) -> Damage {
    if behind(text, TITLE).is_none() {
        return Damage::NoCertificate;
    }
    if let Some(line) = carriage_line(text) {
        return Damage::CarriageReturn(line);
    }
    match behind(text, head()) {
        Some(rest) => damage_of_lines(rest),
        None => Damage::OtherForm,
    }
}
