//! A text with its outline, and where its tokens are on its lines.

use ps_diagnose_outline::{Construction, Outline};
use ps_scan::Kind;
use ps_text::Span;
use std::alloc::{AllocError, Global};

/// A text, its outline, and where its lines begin.
#[derive(Drop)]
pub(crate) struct Text<'a> {
    pub(crate) bytes: &'a [u8],
    pub(crate) outline: &'a Outline<'a>,
    // of the first line too
    starts: Vec<u32>,
    // where the leading blanks of the lines end
    leads: Vec<u32>,
}

/// Whether one line is indented further than another: it begins with the same blanks, and more. If one has spaces and
/// the other tabs, neither is.
pub(crate) fn is_deeper(lead: &[u8], other: &[u8]) -> bool {
    lead.len() > other.len() && lead.starts_with(other)
}

impl<'a> Text<'a> {
    /// A text with its outline.
    pub(crate) fn new(
        alloc: Global,
        bytes: &'a [u8],
        outline: &'a Outline<'a>,
    ) -> Result<Text<'a>, AllocError> {
        let mut text = Text {
            bytes,
            outline,
            starts: Vec::new(alloc),
            leads: Vec::new(alloc),
        };
        text.read_lines()?;
        Ok(text)
    }

    // A line begins at an offset.
    fn begin_line(&mut self, offset: u32) -> Result<(), AllocError> {
        self.starts.push(offset)?;
        self.leads.push(offset)?;
        Ok(())
    }

    // Reads where the lines begin, and where their blanks end.
    fn read_lines(&mut self) -> Result<(), AllocError> {
        self.begin_line(0)?;
        let mut offset: u32 = 0;
        let mut is_blank = true;
        for byte in self.bytes {
            offset = offset.saturating_add(1);
            is_blank = is_blank && matches!(*byte, b' ' | b'\t') || *byte == b'\n';
            if *byte == b'\n' {
                self.begin_line(offset)?;
            } else if is_blank {
                if let Some(lead) = self.leads.last_mut() {
                    *lead = offset;
                }
            }
        }
        Ok(())
    }

    /// Whether a token is of this kind.
    pub(crate) fn is(&self, at: usize, kind: Kind) -> bool {
        self.outline.is(at, kind)
    }

    /// The span of a token.
    pub(crate) fn span(&self, at: usize) -> Span {
        self.outline.span(at)
    }

    /// A span as it is written.
    pub(crate) fn written(&self, span: Span) -> &'a str {
        str::from_utf8(self.outline.bytes(span)).unwrap_or("{$")
    }

    /// The text between a token and the one before it.
    pub(crate) fn gap(&self, at: usize) -> Span {
        let from = match at.checked_sub(1) {
            Some(before) => self.span(before).to,
            None => 0,
        };
        Span {
            from,
            to: self.span(at).from,
        }
    }

    /// The line of an offset, from 1 on.
    pub(crate) fn line(&self, offset: u32) -> usize {
        match self.starts.as_slice().binary_search(&offset) {
            Ok(at) => at.saturating_add(1),
            Err(at) => at,
        }
    }

    /// The line of a token, from 1 on.
    pub(crate) fn line_at(&self, at: usize) -> usize {
        self.line(self.span(at).from)
    }

    /// Where the line of an offset begins.
    pub(crate) fn start_of(&self, offset: u32) -> u32 {
        let line = self.line(offset).saturating_sub(1);
        self.starts.get(line).copied().unwrap_or(0)
    }

    // Where the leading blanks of the line of an offset end.
    fn lead_end(&self, offset: u32) -> u32 {
        let at = self.line(offset).saturating_sub(1);
        self.leads.get(at).copied().unwrap_or(0)
    }

    /// The blanks that the line of a token begins with.
    pub(crate) fn lead(&self, at: usize) -> &'a [u8] {
        let offset = self.span(at).from;
        self.outline.bytes(Span {
            from: self.start_of(offset),
            to: self.lead_end(offset),
        })
    }

    /// Whether there are only blanks on its line before a token.
    pub(crate) fn is_first(&self, at: usize) -> bool {
        let offset = self.span(at).from;
        self.lead_end(offset) == offset
    }

    /// Whether a construction is in a list of statements, perhaps as the end of another one.
    pub(crate) fn is_listed(&self, part: &Construction) -> bool {
        match self.outline.constructions().get(part.list) {
            Some(around) => around.is_list(),
            None => false,
        }
    }
}
