//! Code: source texts within the limits, spans of them, and their lines.
#![tactic(auto)]

ghost use Rattle.std.specs.Prelude.{◌≡◌, ◌<◌, ◌≤◌, ◌+◌, ◌↔◌, ℕ, List, IsTrue, length, count_by, slice_range, IfOk};
ghost use Rattle.std.specs.Prelude.{IsOk};
ghost use Rattle.ps_text.specs.Lines.{is_line_end, line_count, line_at, IsSource};
ghost use Rattle.ps_text.specs.Refusals.{number_of};

mod table;

use std::marker::Model;
pub use table::{LineTable, OutOfMemory};
use thiserror::Error;

/// The greatest number of bytes in a text.
pub const MAX_LENGTH: usize = 1_048_576;

/// The greatest number of lines in a text.
pub const MAX_LINES: usize = 65_535;

/// Byte 10, which ends a line.
const LINE_END: u8 = b'\n';

/// Of how many bytes the line ends are counted in one go.
const PIECE: usize = 128;

/// A part of a text, from the offset of its first byte to the one after its last.
#[derive(Clone, Copy)]
pub struct Span {
    pub from: u32,
    pub to: u32,
}

/// Why bytes are not a source text.
#[derive(Clone, Copy, Debug, Error)]
pub enum TextRefusal {
    /// The text has more than `MAX_LENGTH` bytes.
    #[error("TooLong")]
    TooLong,
    /// The text has more than `MAX_LINES` lines. This is reported only of a text that isn't too long.
    #[error("TooManyLines")]
    TooManyLines,
}

impl TextRefusal {
    /// The refusal's number.
    pub fn number(self) -> u32
        ensures { result ≡ number_of self }
    {
        match self {
            TextRefusal::TooLong => 1,
            TextRefusal::TooManyLines => 2,
        }
    }
}

/// A source text: borrowed bytes within the limits. A contract sees it as the list of its bytes.
#[derive(Drop)]
pub struct Source<'a> {
    bytes: &'a [u8],
}

impl<'a> Model for Source<'a> {
    ghost Value = { List ℕ };

    ghost view = { λ s. s.bytes.now };

    ghost invariant = { λ s. IsSource s.bytes.now };
}

impl<'a> Source<'a> {
    /// The text of these bytes. It allocates nothing.
    pub fn new(bytes: &'a [u8]) -> Result<Source<'a>, TextRefusal>
        ensures source { IfOk result (λ source. source ≡ bytes.now) }
        ensures accepted { IsOk result ↔ IsSource bytes.now }
        ensures too_long { (result ≡ Err TextRefusal.TooLong) ↔ (MAX_LENGTH < length bytes.now) }
        ensures too_many_lines { (result ≡ Err TextRefusal.TooManyLines)
            ↔ ((length bytes.now ≤ MAX_LENGTH) × (MAX_LINES < line_count bytes.now)) }
    {
        if bytes.len() > MAX_LENGTH {
            return Err(TextRefusal::TooLong);
        }
        if lines_of(bytes) as usize > MAX_LINES {
            return Err(TextRefusal::TooManyLines);
        }
        Ok(Source { bytes })
    }

    /// The length of the text, in bytes.
    pub fn len(&self) -> u32
        ensures length { result ≡ length self.now }
        ensures limits { IsSource self.now }
    {
        self.bytes.len() as u32
    }

    /// Whether the text is empty.
    pub fn is_empty(&self) -> bool
        ensures { IsTrue result ↔ (length self.now ≡ 0) }
    {
        self.bytes.is_empty()
    }

    /// The text's bytes.
    pub fn bytes(&self) -> &'a [u8]
        ensures bytes { result.now ≡ self.now }
        ensures limits { IsSource self.now }
    {
        self.bytes
    }

    /// The bytes of a span.
    pub fn slice(&self, span: Span) -> &'a [u8]
        requires ordered { span.from ≤ span.to }
        requires within { span.to ≤ length self.now }
        ensures { result.now ≡ slice_range self.now span.from span.to }
    {
        &self.bytes[span.from as usize..span.to as usize]
    }

    /// The line of an offset, counted from 1: 1 plus the number of bytes 10 before it.
    pub fn line_of(&self, offset: u32) -> u32
        requires { offset ≤ length self.now }
        ensures line { result ≡ line_at self.now offset }
        ensures range { (1 ≤ result) × (result ≤ MAX_LINES) }
    {
        lines_of(&self.bytes[..offset as usize])
    }
}

/// The number of lines in the bytes.
#[tactic(auto, using(crate::proofs::Pieces::few_lines, crate::proofs::Pieces::no_more))]
fn lines_of(bytes: &[u8]) -> u32
    requires { length bytes.now ≤ MAX_LENGTH }
    ensures { result ≡ line_count bytes.now }
{
    let mut lines = 1;
    let mut rest = bytes;
    while !rest.is_empty() {
        let length = rest.len().min(PIECE);
        lines += u32::from(ends_in(&rest[..length]));
        rest = &rest[length..];
    }
    lines
}

/// The number of line ends in a few bytes. It fits a byte, and bytes are compared and counted many at a time.
fn ends_in(bytes: &[u8]) -> u8
    requires { length bytes.now ≤ PIECE }
    ensures { result ≡ count_by is_line_end bytes.now }
{
    let mut ends = 0;
    for byte in bytes {
        if *byte == LINE_END {
            ends += 1;
        }
    }
    ends
}
