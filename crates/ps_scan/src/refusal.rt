//! Why a text has no tokens, and where.

ghost use Rattle.std.specs.Prelude.{◌≡◌};
ghost use Rattle.ps_scan.specs.Refusals.{number_of_fault, number_of, line_of, place_of};

use ps_text::Span;
use std::fmt;
use thiserror::Error;

/// What is in a text where neither a token nor a separator is (ISO 7185, 6.1). It is displayed as its name.
#[derive(Clone, Copy, Debug)]
pub enum ScanFault {
    /// A byte that begins no token and no separator.
    BadByte,
    /// A comment that is not closed. Its place is that of its opening.
    OpenComment,
    /// A string that reaches the end of its line or of the text. Its place is that of its opening.
    OpenString,
    /// An empty string.
    EmptyString,
    /// A name or a word-symbol that touches the number before it.
    SeparatorMissing,
    /// A number above `MAX_NUMBER`.
    NumberTooLarge,
    /// A real literal.
    RealNumber,
}

impl fmt::Display for ScanFault {
    fn fmt<W: fmt::Write>(&self, f: &mut fmt::Formatter<W>) -> fmt::Result {
        f.write_str(match self {
            ScanFault::BadByte => "BadByte",
            ScanFault::OpenComment => "OpenComment",
            ScanFault::OpenString => "OpenString",
            ScanFault::EmptyString => "EmptyString",
            ScanFault::SeparatorMissing => "SeparatorMissing",
            ScanFault::NumberTooLarge => "NumberTooLarge",
            ScanFault::RealNumber => "RealNumber",
        })
    }
}

impl ScanFault {
    /// The number of the refusal that reports the fault.
    pub fn number(self) -> u32
        ensures { result ≡ number_of_fault self }
    {
        match self {
            ScanFault::BadByte => 10,
            ScanFault::OpenComment => 11,
            ScanFault::OpenString => 12,
            ScanFault::EmptyString => 13,
            ScanFault::SeparatorMissing => 14,
            ScanFault::NumberTooLarge => 15,
            ScanFault::RealNumber => 16,
        }
    }
}

/// Why a text has no tokens: its first fault, with the offsets of the first reported byte and of the one after the
/// last, and the line of the first. It is displayed as the fault's name.
#[derive(Clone, Copy, Debug, Error)]
pub enum ScanRefusal {
    /// The allocator refused memory.
    OutOfMemory,
    /// The text's first fault.
    Faulty {
        fault: ScanFault,
        line: u32,
        from: u32,
        to: u32,
    },
}

impl fmt::Display for ScanRefusal {
    fn fmt<W: fmt::Write>(&self, f: &mut fmt::Formatter<W>) -> fmt::Result {
        match self {
            ScanRefusal::OutOfMemory => f.write_str("OutOfMemory"),
            ScanRefusal::Faulty { fault, .. } => fault.fmt(f),
        }
    }
}

impl ScanRefusal {
    /// The refusal's number.
    pub fn number(self) -> u32
        ensures { result ≡ number_of self }
    {
        match self {
            ScanRefusal::OutOfMemory => 9,
            ScanRefusal::Faulty { fault, .. } => fault.number(),
        }
    }

    /// The line of the fault, or 0 if out of memory.
    pub fn line(self) -> u32
        ensures { result ≡ line_of self }
    {
        match self {
            ScanRefusal::OutOfMemory => 0,
            ScanRefusal::Faulty { line, .. } => line,
        }
    }

    /// The place of the fault in the text, or `None` if out of memory.
    pub fn place(self) -> Option<Span>
        ensures { result ≡ place_of self }
    {
        match self {
            ScanRefusal::OutOfMemory => None,
            ScanRefusal::Faulty { from, to, .. } => Some(Span { from, to }),
        }
    }
}
