//! A text by its lines.

ghost use Rattle.std.specs.Prelude.{◌≡◌, ◌<◌, ◌≤◌, ◌+◌, ◌^◌, ℕ, List, length, IfOk};
ghost use Rattle.ps_text.specs.Lines.{line_at};
ghost use Rattle.ps_diagnostic.specs.Head.{step, behind_line_end, column_at, within as end_of};

use ps_text::{LineTable, Source, Span};
use std::alloc::{AllocError, Global};
use std::marker::Model;

/// A text with the offsets of all its lines. A contract sees it as the list of its bytes.
#[derive(Drop)]
pub struct View<'a> {
    bytes: &'a [u8],
    lines: LineTable<'a>,
    // where lines begin, from the second on
    starts: Vec<usize>,
}

impl<'a> Model for View<'a> {
    ghost Value = { List ℕ };

    ghost view = { λ v. v.bytes.now };

    ghost invariant = { λ v. v.lines ≡ v.bytes.now };
}

/// A place of a text: its line and its column, both from 1 on. Columns count bytes.
#[derive(Clone, Copy)]
pub(crate) struct Place {
    pub(crate) line: usize,
    pub(crate) column: usize,
}

/// A part of a line: its bytes from one on up to before another one, counted from the line's first.
#[derive(Clone, Copy)]
pub(crate) struct Reach {
    pub(crate) line: usize,
    pub(crate) from: usize,
    pub(crate) to: usize,
}

// The offsets after the line ends of a text.
fn starts_of(alloc: Global, bytes: &[u8]) -> Result<Vec<usize>, AllocError> {
    let mut starts = Vec::new(alloc);
    for (offset, byte) in bytes.iter().enumerate() {
        if *byte == b'\n' {
            starts.push(offset.saturating_add(1))?;
        }
    }
    Ok(starts)
}

// One more byte of a line, or none of the next one.
fn step(count: usize, byte: u8) -> usize
    requires { count + 1 < 2 ^ 64 }
    ensures { result ≡ step count byte }
{
    if byte == b'\n' { 0 } else { count + 1 }
}

// How many of the bytes come after the last line end among them.
fn behind_last_end(bytes: &[u8]) -> usize
    ensures value { result ≡ behind_line_end 0 bytes.now }
    ensures few { result ≤ length bytes.now }
{
    let mut count = 0;
    for byte in bytes.iter() {
        count = step(count, *byte);
    }
    count
}

impl<'a> View<'a> {
    /// The view of a text.
    pub fn new(alloc: Global, source: &Source<'a>) -> Result<View<'a>, AllocError>
        ensures { IfOk result (λ view. view ≡ source.now) }
    {
        let bytes = source.bytes();
        let lines = LineTable::new(alloc, source)?;
        let starts = starts_of(alloc, bytes)?;
        Ok(View {
            bytes,
            lines,
            starts,
        })
    }

    // An offset as one within the text.
    fn within(&self, offset: u32) -> u32
        ensures value { result ≡ end_of self.now offset }
        ensures bound { result ≤ length self.now }
    {
        let end = self.bytes.len();
        if (offset as usize) < end {
            offset
        } else {
            end as u32
        }
    }

    /// The line of an offset, from 1 on. An offset past the text is on its last line.
    pub(crate) fn line_of(&self, offset: u32) -> usize
        ensures { result ≡ line_at self.now (end_of self.now offset) }
    {
        self.lines.line_of(self.within(offset)) as usize
    }

    // Where a line begins.
    fn start_of(&self, line: usize) -> usize {
        match line.checked_sub(2) {
            Some(at) => self.starts.get(at).copied().unwrap_or(self.bytes.len()),
            None => 0,
        }
    }

    // The column of an offset, from 1 on.
    fn column_of(&self, offset: u32) -> usize
        ensures { result ≡ column_at self.now (end_of self.now offset) }
    {
        let offset = self.within(offset) as usize;
        behind_last_end(&self.bytes[..offset]) + 1
    }

    /// The place of an offset.
    pub(crate) fn place_of(&self, offset: u32) -> Place
        ensures line { result.line ≡ line_at self.now (end_of self.now offset) }
        ensures column { result.column ≡ column_at self.now (end_of self.now offset) }
    {
        Place {
            line: self.line_of(offset),
            column: self.column_of(offset),
        }
    }

    /// A line without its end.
    pub(crate) fn line(&self, line: usize) -> &'a [u8] {
        let from = self.start_of(line);
        let to = match self.starts.get(line.saturating_sub(1)) {
            Some(next) => next.saturating_sub(1),
            None => self.bytes.len(),
        };
        let text = self.bytes.get(from..to).unwrap_or(&[]);
        text.strip_suffix(b"\r").unwrap_or(text)
    }

    /// The part of its first line that a span has.
    pub(crate) fn reach_of(&self, span: Span) -> Reach {
        let Place { line, column } = self.place_of(span.from);
        let end = self.line(line).len();
        let from = column.saturating_sub(1).min(end);
        let length = (span.to.saturating_sub(span.from) as usize).min(end.saturating_sub(from));
        Reach {
            line,
            from,
            to: from.saturating_add(length),
        }
    }
}
