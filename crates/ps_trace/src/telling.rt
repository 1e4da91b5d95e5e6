//! Lines of a trace, for people and as JSON.

use ps_diagnostic::printable;
use std::alloc::{AllocError, Global};

/// A variable that a statement changed, and its value afterwards.
#[derive(Drop)]
pub(crate) struct Change {
    pub(crate) name: String,
    /// Its address.
    pub(crate) at: u32,
    pub(crate) value: String,
}

/// How far a statement has come that a line of a trace reports.
#[derive(Clone, Copy)]
pub(crate) enum Extent {
    /// It is done, or a part of it that is reported by itself.
    Finished,
    /// It has written or read something, and is reported again after what it calls.
    Calling,
    /// The run ended within it.
    BrokenOff,
}

/// What a line of a trace reports: a statement that was executed, or a part of one.
#[derive(Drop)]
pub(crate) struct Done<'a> {
    pub(crate) line: u32,
    pub(crate) column: u32,
    pub(crate) routine: String,
    /// How many calls are open around it.
    pub(crate) depth: usize,
    /// How many steps had been made by then.
    pub(crate) steps: u64,
    pub(crate) head: String,
    pub(crate) changes: Vec<Change>,
    pub(crate) written: &'a [u8],
    pub(crate) taken: &'a [u8],
    /// Whether the end of the input was reached.
    pub(crate) at_end: bool,
    pub(crate) extent: Extent,
}

// The most characters of a head in a line for people.
const MOST: usize = 60;

/// The last line of a trace that is cut, for people.
pub(crate) const CUT: &str = ".. the trace is cut here: out of memory\n";

/// The same as a JSON object.
pub(crate) const CUT_OBJECT: &str = "{\"cut\":\"out of memory\"}\n";

// Lines are indented by two spaces for each open call, up to this many calls.
const MOST_CALLS: usize = 16;

// Whether a byte is a printable character.
fn is_shown(byte: u8) -> bool {
    b' ' <= byte && byte <= b'~'
}

fn put_byte(out: &mut String, byte: u8) -> Result<(), AllocError> {
    out.push_str(str::from_utf8(&[byte]).unwrap_or("?"))
}

// ---- for people

// What comes before a byte, depending on whether it and the byte before it are within quotes.
fn between(is_first: bool, was_quoted: bool, is_quoted: bool) -> &'static str {
    match (was_quoted, is_quoted) {
        (true, true) => "",
        (true, false) => "', ",
        (false, true) => if is_first { "'" } else { ", '" },
        (false, false) => if is_first { "" } else { ", " },
    }
}

// Adds a byte to a line for people; a byte that isn't printable by its number.
fn put_told(out: &mut String, byte: u8) -> Result<(), AllocError> {
    match byte {
        b'\n' => out.push_str("end of line"),
        b'\'' => out.push_str("''"),
        _ if is_shown(byte) => put_byte(out, byte),
        _ => write!(out, "chr({byte})"),
    }
}

// Adds bytes as a list of strings, ends of lines and characters that aren't printable.
fn put_bytes(out: &mut String, bytes: &[u8]) -> Result<(), AllocError> {
    let mut was_quoted = false;
    for (at, byte) in bytes.iter().enumerate() {
        let is_quoted = is_shown(*byte);
        out.push_str(between(at == 0, was_quoted, is_quoted))?;
        put_told(out, *byte)?;
        was_quoted = is_quoted;
    }
    if was_quoted {
        out.push_str("'")?;
    }
    Ok(())
}

// Adds a head, or only its beginning if it is long.
fn put_head(out: &mut String, head: &str) -> Result<(), AllocError> {
    for (at, character) in head.chars().enumerate() {
        if at == MOST {
            return out.push_str("..");
        }
        out.push(character)?;
    }
    Ok(())
}

// What comes before the notes of a line.
fn front_told(alloc: Global, done: &Done<'_>) -> Result<String, AllocError> {
    let mut out = String::new(alloc);
    let head = printable(alloc, done.head.as_str())?;
    let (line, routine) = (done.line, done.routine.as_str());
    write!(out, "{line:>5} {routine:<10} ")?;
    for _ in 0..done.depth.min(MOST_CALLS) {
        out.push_str("  ")?;
    }
    put_head(&mut out, head.as_str())?;
    Ok(out)
}

// Adds the separator of two notes.
fn put_between(out: &mut String) -> Result<(), AllocError> {
    if out.is_empty() {
        Ok(())
    } else {
        out.push_str("; ")
    }
}

// Adds the values of the variables that were changed.
fn put_changes(out: &mut String, changes: &[Change]) -> Result<(), AllocError> {
    for change in changes {
        put_between(out)?;
        let (name, value) = (change.name.as_str(), change.value.as_str());
        write!(out, "{name} = {value}")?;
    }
    Ok(())
}

// Adds what was written or read.
fn put_passed(out: &mut String, verb: &str, bytes: &[u8]) -> Result<(), AllocError> {
    if bytes.is_empty() {
        return Ok(());
    }
    put_between(out)?;
    out.push_str(verb)?;
    put_bytes(out, bytes)
}

/// A line for people, with its end.
pub(crate) fn told(alloc: Global, done: &Done<'_>) -> Result<String, AllocError> {
    let mut notes = String::new(alloc);
    put_passed(&mut notes, "reads ", done.taken)?;
    if done.at_end {
        put_between(&mut notes)?;
        notes.push_str("meets the end of the input")?;
    }
    put_changes(&mut notes, done.changes.as_slice())?;
    put_passed(&mut notes, "writes ", done.written)?;
    if matches!(done.extent, Extent::BrokenOff) {
        put_between(&mut notes)?;
        notes.push_str("broken off")?;
    }
    let front = front_told(alloc, done)?;
    let (front, notes) = (front.as_str(), notes.as_str());
    if notes.is_empty() {
        format!(in alloc; "{front}\n")
    } else {
        format!(in alloc; "{front:<48}  {notes}\n")
    }
}

// ---- as JSON

// Adds a byte of a string.
fn put_escaped(out: &mut String, byte: u8) -> Result<(), AllocError> {
    match byte {
        b'"' => out.push_str("\\\""),
        b'\\' => out.push_str("\\\\"),
        b'\n' => out.push_str("\\n"),
        _ if is_shown(byte) => put_byte(out, byte),
        _ => write!(out, "\\u{byte:04x}"),
    }
}

// Adds bytes as a string, each as the character with its number.
fn put_string(out: &mut String, bytes: &[u8]) -> Result<(), AllocError> {
    out.push_str("\"")?;
    for byte in bytes {
        put_escaped(out, *byte)?;
    }
    out.push_str("\"")
}

// Adds a character of a text; a JSON string requires escapes for only three kinds.
fn put_character(out: &mut String, character: char) -> Result<(), AllocError> {
    match u8::try_from(u32::from(character)) {
        Ok(byte) if byte < 127 => put_escaped(out, byte),
        _ => {
            out.push(character)?;
            Ok(())
        }
    }
}

// Whether a JSON string has a text as it is.
fn is_plain(text: &str) -> bool {
    for byte in text.as_bytes() {
        if !is_shown(*byte) || *byte == b'"' || *byte == b'\\' {
            return false;
        }
    }
    true
}

// Adds the characters of a text to a string.
fn put_characters(out: &mut String, text: &str) -> Result<(), AllocError> {
    for character in text.chars() {
        put_character(out, character)?;
    }
    Ok(())
}

// Adds a text as a string.
fn put_text(out: &mut String, text: &str) -> Result<(), AllocError> {
    out.push_str("\"")?;
    if is_plain(text) {
        out.push_str(text)?;
    } else {
        put_characters(out, text)?;
    }
    out.push_str("\"")
}

// Adds the variables that were changed.
fn put_changed(out: &mut String, changes: &[Change]) -> Result<(), AllocError> {
    for (at, change) in changes.iter().enumerate() {
        out.push_str(if at == 0 { "{\"name\":" } else { ",{\"name\":" })?;
        put_text(out, change.name.as_str())?;
        out.push_str(",\"value\":")?;
        put_text(out, change.value.as_str())?;
        out.push_str("}")?;
    }
    Ok(())
}

/// The same as a JSON object on one line, with its end.
pub(crate) fn object_told(alloc: Global, done: &Done<'_>) -> Result<String, AllocError> {
    let (line, column, depth, steps) = (done.line, done.column, done.depth, done.steps);
    let mut out = format!(in alloc; "{{\"line\":{line},\"column\":{column},\"routine\":")?;
    put_text(&mut out, done.routine.as_str())?;
    write!(out, ",\"depth\":{depth},\"steps\":{steps},\"statement\":")?;
    put_text(&mut out, done.head.as_str())?;
    out.push_str(",\"changed\":[")?;
    put_changed(&mut out, done.changes.as_slice())?;
    out.push_str("],\"written\":")?;
    put_string(&mut out, done.written)?;
    out.push_str(",\"read\":")?;
    put_string(&mut out, done.taken)?;
    let (at_end, is_done) = (done.at_end, matches!(done.extent, Extent::Finished));
    write!(out, ",\"at_end\":{at_end},\"done\":{is_done}}}\n")?;
    Ok(out)
}
