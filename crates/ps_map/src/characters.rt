//! Texts whose bytes need not be UTF-8, their lines, and names as reports show them.

use ps_diagnose::put_shown;
use std::alloc::{AllocError, Global};

/// A text as UTF-8, with its lines as they are. Bytes that aren't UTF-8 become U+FFFD.
pub fn readable(alloc: Global, text: &[u8]) -> Result<String, AllocError> {
    let mut out = String::new(alloc);
    for chunk in text.utf8_chunks() {
        out.push_str(chunk.valid())?;
        if !chunk.invalid().is_empty() {
            out.push_str("\u{FFFD}")?;
        }
    }
    Ok(out)
}

/// The lines of a text, without their ends: LF, or CR and LF.
pub fn lines_of(alloc: Global, text: &str) -> Result<Vec<&str>, AllocError> {
    let mut lines = Vec::new(alloc);
    for line in text.split('\n') {
        lines.push(line.strip_suffix('\r').unwrap_or(line))?;
    }
    if lines.last() == Some(&"") {
        lines.pop();
    }
    Ok(lines)
}

/// The line of a text with this number, from 1 on.
pub fn line_at<'a>(lines: &[&'a str], number: u32) -> &'a str {
    match (number as usize).checked_sub(1) {
        Some(at) => lines.get(at).copied().unwrap_or(""),
        None => "",
    }
}

/// A name as reports show it: one of more than 100 bytes as it begins, followed by `..`.
pub fn shown_name(alloc: Global, name: &str) -> Result<String, AllocError> {
    let mut out = String::new(alloc);
    put_shown(&mut out, name)?;
    Ok(out)
}
