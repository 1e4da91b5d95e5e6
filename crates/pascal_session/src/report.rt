// How the end of a run is reported: the status of the program, and the lines of standard error.

ghost use Rattle.std.specs.Prelude.{◌≡◌, ◌++◌, IfOk, Some, string_bytes};
ghost use Rattle.std.specs.Fmt.{DisplaysOnOk};
ghost use Rattle.ps_build.specs.Refusals.{number_of, name_of, line_of};
ghost use Rattle.pascal_session.specs.Report.{status_of, end_of, message_of, words_of, fault_name, error_text};
ghost use Rattle.pascal_session.specs.Report.{calls_text, trail_text, refusal_text};

use ps_build::{FaultKind, Outcome, Refusal, Trail};
use std::alloc::{AllocError, Global};
use std::fmt;

/// A growth of memory was refused.
pub type OutOfMemory = AllocError;

/// The program's status after a run, or a refusal.
pub fn status(end: &Result<Outcome, Refusal>) -> u8
    ensures { result ≡ status_of end.now }
{
    match end {
        Ok(Outcome::Normal) => 0,
        Err(_) | Ok(Outcome::InputFault | Outcome::OutputFault) => 1,
        Ok(Outcome::Error { .. }) => 2,
        Ok(Outcome::Stack { .. } | Outcome::Heap { .. }) => 3,
        Ok(Outcome::Steps) => 4,
        Ok(Outcome::Fault(_)) => 5,
    }
}

// The words for an error of the language, or for a stop.
fn words_of(number: u32) -> &'static str
    ensures { result.now ≡ words_of number }
{
    match number {
        1 => "integer overflow",
        2 => "division by zero",
        3 => "modulus below one",
        4 => "value out of range",
        5 => "index out of range",
        6 => "nil pointer",
        7 => "no case constant",
        8 => "set member out of range",
        9 => "end of input",
        10 => "not an integer",
        11 => "field width below one",
        12 => "out of stack",
        _ => "out of heap",
    }
}

fn fault_name(kind: FaultKind) -> &'static str
    ensures { result.now ≡ fault_name kind }
{
    match kind {
        FaultKind::BadWord => "BadWord",
        FaultKind::BadAddress => "BadAddress",
        FaultKind::BadDivisor => "BadDivisor",
        FaultKind::BadJump => "BadJump",
        FaultKind::UnknownTrap => "UnknownTrap",
    }
}

// Writes the line of a refusal.
fn write_refusal<W: fmt::Write>(refusal: Refusal, f: &mut fmt::Formatter<W>) -> fmt::Result
    ensures { DisplaysOnOk W.write_str_gives f.old result
        (Some (refusal_text (line_of refusal) (number_of refusal) (name_of refusal))) f.new }
{
    let number = refusal.number();
    let name = refusal.name();
    match refusal.line() {
        Some(line) => write!(f, "refused at line {line}: {number} {name}\n"),
        None => write!(f, "refused: {number} {name}\n"),
    }
}

// Writes the line of an error, or of a stop.
fn write_error<W: fmt::Write>(number: u32, line: u32, f: &mut fmt::Formatter<W>) -> fmt::Result
    ensures { DisplaysOnOk W.write_str_gives f.old result (Some (error_text number line)) f.new }
{
    let words = words_of(number);
    write!(f, "line {line}: {words}\n")
}

// Writes a line for each of the calls that were open.
fn write_calls<W: fmt::Write>(trail: &Trail, f: &mut fmt::Formatter<W>) -> fmt::Result
    ensures { DisplaysOnOk W.write_str_gives f.old result (Some (calls_text trail.now)) f.new }
{
    for k in 0..trail.len() {
        let line = trail.line(k);
        write!(f, "called at line {line}\n")?;
    }
    Ok(())
}

// Writes the line of an error, and those of the calls that were open at it.
fn write_failure<W: fmt::Write>(
    number: u32,
    line: u32,
    trail: Option<Trail>,
    f: &mut fmt::Formatter<W>,
) -> fmt::Result
    ensures { DisplaysOnOk W.write_str_gives f.old result (Some (error_text number line ++ trail_text trail)) f.new }
{
    write_error(number, line, f)?;
    match trail {
        Some(trail) => write_calls(&trail, f),
        None => Ok(()),
    }
}

/// The lines of standard error after a run, or a refusal, each ended by byte 10; empty after a normal end. The line of
/// an error is followed by one for each of the calls in its outcome, innermost first.
///
/// They are displayed without memory of their own.
#[derive(Clone, Copy)]
pub struct Lines<'a> {
    end: &'a Result<Outcome, Refusal>,
}

impl fmt::Display for Lines<'_> {
    ghost output = { λ lines. Some (message_of (end_of lines)) };

    fn fmt<W: fmt::Write>(&self, f: &mut fmt::Formatter<W>) -> fmt::Result {
        match *self.end {
            Err(refusal) => write_refusal(refusal, f),
            Ok(Outcome::Normal) => Ok(()),
            Ok(
                Outcome::Error {
                    number,
                    line,
                    trail,
                },
            ) => write_failure(number, line, trail, f),
            Ok(Outcome::Stack { number, line } | Outcome::Heap { number, line }) => {
                write_error(number, line, f)
            }
            Ok(Outcome::Steps) => f.write_str("step limit\n"),
            Ok(Outcome::InputFault) => f.write_str("input fault\n"),
            Ok(Outcome::OutputFault) => f.write_str("output fault\n"),
            Ok(Outcome::Fault(kind)) => {
                let name = fault_name(kind);
                write!(f, "machine fault: {name}\n")
            }
        }
    }
}

/// The lines that report an end.
pub fn lines_of(end: &Result<Outcome, Refusal>) -> Lines<'_>
    ensures { end_of result ≡ end.now }
{
    Lines { end }
}

/// The lines that report an end, as a text.
pub fn message(alloc: Global, end: &Result<Outcome, Refusal>) -> Result<String, OutOfMemory>
    ensures { IfOk result (λ s. string_bytes s ≡ message_of end.now) }
{
    lines_of(end).to_string(alloc)
}
