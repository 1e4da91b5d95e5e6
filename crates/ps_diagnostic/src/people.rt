//! A diagnostic in lines for people.

ghost use Rattle.std.specs.Prelude.{◌≡◌, ◌++◌, ℕ, List, codes, decimal, string_bytes, IfOk, OnOk};
ghost use Rattle.ps_diagnostic.specs.Head.{head, kind_text, place_text};

use crate::marks::put_source;
use crate::shown::{printable, put_all, put_text};
use crate::view::View;
use crate::{Diagnostic, Expected, Mend, Outcome, word_of};
use ps_text::Span;
use std::alloc::{AllocError, Global};

// Puts a number.
fn put_number(alloc: Global, out: &mut String, number: usize) -> Result<(), AllocError>
    ensures { OnOk result (string_bytes out.new ≡ string_bytes out.old ++ decimal number) }
{
    let text = number.to_string(alloc)?;
    out.push_str(text.as_str())
}

// A place as editors read it.
fn place_told(alloc: Global, line: usize, column: usize) -> Result<String, AllocError>
    ensures { IfOk result (λ text. string_bytes text ≡ codes ":" ++ decimal line ++ codes ":" ++ decimal column) }
{
    let mut out = String::from_str(alloc, ":")?;
    put_number(alloc, &mut out, line)?;
    out.push_str(":")?;
    put_number(alloc, &mut out, column)?;
    Ok(out)
}

// The place as editors read it, if there is one.
fn place_text(alloc: Global, view: &View<'_>, span: Option<Span>) -> Result<String, AllocError>
    ensures { IfOk result (λ text. string_bytes text ≡ place_text view.now span) }
{
    match span {
        None => Ok(String::new(alloc)),
        Some(span) => {
            let place = view.place_of(span.from);
            place_told(alloc, place.line, place.column)
        }
    }
}

// What it is: its severity, its number and its name.
fn kind_text(alloc: Global, diagnostic: &Diagnostic) -> Result<String, AllocError>
    ensures { IfOk result (λ text. string_bytes text ≡ kind_text diagnostic.now) }
{
    let mut out = String::from_str(alloc, word_of(diagnostic.severity))?;
    out.push_str(" ")?;
    put_number(alloc, &mut out, diagnostic.number as usize)?;
    out.push_str(" ")?;
    out.push_str(diagnostic.name)?;
    Ok(out)
}

// The first line, with the place in the form in which editors find it.
fn head(
    alloc: Global,
    file: &str,
    view: &View<'_>,
    diagnostic: &Diagnostic,
) -> Result<String, AllocError>
    ensures { IfOk result (λ text. string_bytes text ≡ head file.now view.now diagnostic.now) }
{
    let mut out = printable(alloc, file)?;
    let place = place_text(alloc, view, diagnostic.place)?;
    out.push_str(place.as_str())?;
    out.push_str(": ")?;
    let kind = kind_text(alloc, diagnostic)?;
    out.push_str(kind.as_str())?;
    out.push_str(": ")?;
    put_text(&mut out, diagnostic.text.as_str())?;
    out.push_str("\n")?;
    Ok(out)
}

// Puts one of the things that could come at the place.
fn put_expected(out: &mut String, expected: Expected) -> Result<(), AllocError> {
    match expected {
        Expected::Token(text) => put_all(out, &["`", text, "`"]),
        Expected::Group(text) => out.push_str(text),
    }
}

// Puts what comes between one of several and the next.
fn put_between(out: &mut String, at: usize, count: usize) -> Result<(), AllocError> {
    out.push_str(match at {
        0 => "",
        _ if at.saturating_add(1) == count => " or ",
        _ => ", ",
    })
}

// Puts the line of what could come at the place, if there is anything.
fn put_all_expected(out: &mut String, expected: &[Expected]) -> Result<(), AllocError> {
    if expected.is_empty() {
        return Ok(());
    }
    out.push_str("  expected: ")?;
    let count = expected.len();
    for (at, each) in expected.iter().enumerate() {
        put_between(out, at, count)?;
        put_expected(out, *each)?;
    }
    out.push('\n')
}

// Puts a line with its word.
fn put_remark(out: &mut String, word: &str, text: &str) -> Result<(), AllocError> {
    put_all(out, &["  ", word, ": "])?;
    put_text(out, text)?;
    out.push('\n')
}

// Puts the line of a mend.
fn put_mend(alloc: Global, out: &mut String, mend: &Mend) -> Result<(), AllocError> {
    let text = mend.text.as_str();
    let told = match mend.outcome {
        Outcome::Accepted => format!(in alloc; "{text} (tried: the text is then accepted)")?,
        Outcome::FaultAt(line) => {
            format!(in alloc; "{text} (tried: the first fault is then at line {line})")?
        }
    };
    put_remark(out, "mend", told.as_str())
}

// Puts a line for each text.
fn put_remarks(out: &mut String, word: &str, texts: &[String]) -> Result<(), AllocError> {
    for text in texts.iter() {
        put_remark(out, word, text.as_str())?;
    }
    Ok(())
}

// Everything after the first line.
fn rest(alloc: Global, view: &View<'_>, diagnostic: &Diagnostic) -> Result<String, AllocError> {
    let mut out = String::new(alloc);
    put_source(alloc, &mut out, view, diagnostic)?;
    put_all_expected(&mut out, diagnostic.expected.as_slice())?;
    for mend in diagnostic.mends.iter() {
        put_mend(alloc, &mut out, mend)?;
    }
    put_remarks(&mut out, "note", diagnostic.notes.as_slice())?;
    put_remarks(&mut out, "help", diagnostic.helps.as_slice())?;
    Ok(out)
}

/// What is reported for the text in lines for people: the first one with the file and the place, lines of the source
/// with marks below them, followed by what could come there, mends, notes and help.
///
/// All of it is printable: in the file's name, in the source and in what is said of it a `?` stands for each control, for
/// each character that ends a line or turns the direction, and for bytes that are not characters. A tab counts as one
/// column and is kept in the line of a mark too, a wide character counts as two. A line of at most 120 bytes is shown
/// whole. Of a longer one pieces of at most 100 bytes are shown, each from 40 bytes before what is marked or changed
/// there, or the last ones of the line, with `...` at a side where the line goes on; a mark ends with its piece. For the
/// first mend the lines of its first eight changes are shown.
pub fn render(
    alloc: Global,
    file: &str,
    view: &View<'_>,
    diagnostic: &Diagnostic,
) -> Result<String, AllocError>
    ensures { IfOk result (λ text. (more : List ℕ)
        × (string_bytes text ≡ head file.now view.now diagnostic.now ++ more)) }
{
    let mut out = head(alloc, file, view, diagnostic)?;
    let rest = rest(alloc, view, diagnostic)?;
    out.push_str(rest.as_str())?;
    Ok(out)
}
