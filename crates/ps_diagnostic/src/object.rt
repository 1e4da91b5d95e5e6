//! A diagnostic as an object of JSON for programs.

use crate::view::View;
use crate::{Diagnostic, Edit, Expected, Label, Mend, Outcome, word_of};
use ps_text::Span;
use serde::Serialize;
use serde_json::Error;
use std::alloc::{AllocError, Global};

// A second place: offsets in bytes from 0, line and column from 1.
#[derive(Drop, Serialize)]
struct NoteObject<'a> {
    from: u32,
    to: u32,
    line: usize,
    column: usize,
    text: &'a str,
}

#[derive(Drop, Serialize)]
struct EditObject<'a> {
    from: u32,
    to: u32,
    put: &'a str,
}

#[derive(Drop, Serialize)]
struct MendObject<'a> {
    text: &'a str,
    edits: Vec<EditObject<'a>>,
    accepted: bool,
}

#[derive(Drop, Serialize)]
struct DiagnosticObject<'a> {
    file: &'a str,
    #[serde(skip_serializing_if = "Option::is_none")]
    from: Option<u32>,
    #[serde(skip_serializing_if = "Option::is_none")]
    to: Option<u32>,
    #[serde(skip_serializing_if = "Option::is_none")]
    line: Option<usize>,
    #[serde(skip_serializing_if = "Option::is_none")]
    column: Option<usize>,
    severity: &'a str,
    number: u8,
    name: &'a str,
    text: &'a str,
    notes: Vec<NoteObject<'a>>,
    helps: Vec<&'a str>,
    expected: Vec<&'a str>,
    mends: Vec<MendObject<'a>>,
}

fn notes_of<'a>(
    alloc: Global,
    view: &View<'_>,
    labels: &'a [Label],
) -> Result<Vec<NoteObject<'a>>, AllocError> {
    let mut notes = Vec::new(alloc);
    for label in labels.iter() {
        let place = view.place_of(label.span.from);
        notes.push(NoteObject {
            from: label.span.from,
            to: label.span.to,
            line: place.line,
            column: place.column,
            text: label.text.as_str(),
        })?;
    }
    Ok(notes)
}

fn edits_of(alloc: Global, edits: &[Edit]) -> Result<Vec<EditObject<'_>>, AllocError> {
    let mut objects = Vec::new(alloc);
    for edit in edits.iter() {
        objects.push(EditObject {
            from: edit.span.from,
            to: edit.span.to,
            put: edit.put.as_str(),
        })?;
    }
    Ok(objects)
}

fn mends_of(alloc: Global, mends: &[Mend]) -> Result<Vec<MendObject<'_>>, AllocError> {
    let mut objects = Vec::new(alloc);
    for mend in mends.iter() {
        objects.push(MendObject {
            text: mend.text.as_str(),
            edits: edits_of(alloc, mend.edits.as_slice())?,
            accepted: match mend.outcome {
                Outcome::Accepted => true,
                Outcome::FaultAt(_) => false,
            },
        })?;
    }
    Ok(objects)
}

fn add_texts<'a>(texts: &mut Vec<&'a str>, all: &'a [String]) -> Result<(), AllocError> {
    for text in all.iter() {
        texts.push(text.as_str())?;
    }
    Ok(())
}

// Notes without a place, and help.
fn helps_of(alloc: Global, diagnostic: &Diagnostic) -> Result<Vec<&'_ str>, AllocError> {
    let mut texts = Vec::new(alloc);
    add_texts(&mut texts, diagnostic.notes.as_slice())?;
    add_texts(&mut texts, diagnostic.helps.as_slice())?;
    Ok(texts)
}

fn expected_of(alloc: Global, expected: &[Expected]) -> Result<Vec<&'static str>, AllocError> {
    let mut texts = Vec::new(alloc);
    for each in expected.iter() {
        match *each {
            Expected::Token(text) | Expected::Group(text) => texts.push(text)?,
        }
    }
    Ok(texts)
}

// Where a diagnostic is reported, each part separately.
#[derive(Clone, Copy)]
struct Told {
    from: Option<u32>,
    to: Option<u32>,
    line: Option<usize>,
    column: Option<usize>,
}

fn told_at(view: &View<'_>, span: Option<Span>) -> Told {
    let Some(span) = span else {
        return Told {
            from: None,
            to: None,
            line: None,
            column: None,
        };
    };
    let place = view.place_of(span.from);
    Told {
        from: Some(span.from),
        to: Some(span.to),
        line: Some(place.line),
        column: Some(place.column),
    }
}

fn diagnostic_object<'a>(
    alloc: Global,
    file: &'a str,
    view: &View<'_>,
    diagnostic: &'a Diagnostic,
) -> Result<DiagnosticObject<'a>, AllocError> {
    let at = told_at(view, diagnostic.place);
    Ok(DiagnosticObject {
        file,
        from: at.from,
        to: at.to,
        line: at.line,
        column: at.column,
        severity: word_of(diagnostic.severity),
        number: diagnostic.number,
        name: diagnostic.name,
        text: diagnostic.text.as_str(),
        notes: notes_of(alloc, view, diagnostic.labels.as_slice())?,
        helps: helps_of(alloc, diagnostic)?,
        expected: expected_of(alloc, diagnostic.expected.as_slice())?,
        mends: mends_of(alloc, diagnostic.mends.as_slice())?,
    })
}

/// The diagnostic as a JSON object, without an end of line in it. Its members are `file`, `from`, `to`, `line`,
/// `column`, `severity`, `number`, `name`, `text`, `notes`, `helps`, `expected` and `mends`; without a place `from`,
/// `to`, `line` and `column` are missing.
pub fn object_of(
    alloc: Global,
    file: &str,
    view: &View<'_>,
    diagnostic: &Diagnostic,
) -> Result<String, Error> {
    let object = diagnostic_object(alloc, file, view, diagnostic)?;
    serde_json::to_string(alloc, &object)
}
