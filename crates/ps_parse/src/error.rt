//! Why tokens are not a program, and where.

ghost use Rattle.std.specs.Prelude.{◌≡◌};
ghost use Rattle.ps_parse.specs.Refusals.{number_of_fault, number_of, line_of, place_of};

use ps_text::Span;
use std::alloc::AllocError;
use std::fmt;
use thiserror::Error;

/// Why no program of a height of at most `MAX_HEIGHT` continues with a token. It is displayed as its name.
#[derive(Clone, Copy, Debug)]
pub enum ParseFault {
    /// No program at all does, and the token does not belong to a construction that the profile leaves out.
    NotAProgram,
    /// A higher program does.
    TooDeep,
    /// The token belongs to a construction that the profile leaves out.
    NotInProfile,
}

impl fmt::Display for ParseFault {
    fn fmt<W: fmt::Write>(&self, f: &mut fmt::Formatter<W>) -> fmt::Result {
        f.write_str(match self {
            ParseFault::NotAProgram => "NotAProgram",
            ParseFault::TooDeep => "TooDeep",
            ParseFault::NotInProfile => "NotInProfile",
        })
    }
}

impl ParseFault {
    /// The number of the refusal that reports the fault.
    pub fn number(self) -> u32
        ensures { result ≡ number_of_fault self }
    {
        match self {
            ParseFault::NotAProgram => 20,
            ParseFault::TooDeep => 21,
            ParseFault::NotInProfile => 22,
        }
    }
}

/// Why tokens are not a program of a height of at most `MAX_HEIGHT`: the fault of the first token that no derivation
/// accepts. It is displayed as the fault's name.
#[derive(Clone, Copy, Debug, Error)]
pub enum ParseRefusal {
    /// The allocator refused memory.
    OutOfMemory,
    /// The fault, with the line of the token, counted from 1, the token's number, counted from 0, and the offsets of
    /// its first byte and of the one after its last. The end counts as a token, at the end of the text.
    Faulty {
        fault: ParseFault,
        line: u32,
        token: u32,
        from: u32,
        to: u32,
    },
}

impl fmt::Display for ParseRefusal {
    fn fmt<W: fmt::Write>(&self, f: &mut fmt::Formatter<W>) -> fmt::Result {
        match self {
            ParseRefusal::OutOfMemory => f.write_str("OutOfMemory"),
            ParseRefusal::Faulty { fault, .. } => fault.fmt(f),
        }
    }
}

impl ParseRefusal {
    /// The refusal's number.
    pub fn number(self) -> u32
        ensures { result ≡ number_of self }
    {
        match self {
            ParseRefusal::OutOfMemory => 9,
            ParseRefusal::Faulty { fault, .. } => fault.number(),
        }
    }

    /// The line at which it is reported, if it has one.
    pub fn line(self) -> Option<u32>
        ensures { result ≡ line_of self }
    {
        match self {
            ParseRefusal::OutOfMemory => None,
            ParseRefusal::Faulty { line, .. } => Some(line),
        }
    }

    /// The place in the text at which it is reported, if it has one.
    pub fn place(self) -> Option<Span>
        ensures { result ≡ place_of self }
    {
        match self {
            ParseRefusal::OutOfMemory => None,
            ParseRefusal::Faulty { from, to, .. } => Some(Span { from, to }),
        }
    }
}

/// Why a part of the parser read nothing: out of memory, or it can't accept a token, which is given by the number of
/// tokens left from it on.
#[derive(Clone, Copy)]
pub enum ReadFailure {
    OutOfMemory,
    Unexpected(usize),
}

impl From<AllocError> for ReadFailure {
    ghost use Rattle.std.specs.Prelude.{◌≡◌};
    ghost use Rattle.ps_parse.specs.declared.error.ReadFailure.TheVariants.{OutOfMemory};

    ghost from_gives = { λ _ e. e ≡ OutOfMemory };

    fn from(_: AllocError) -> ReadFailure {
        ReadFailure::OutOfMemory
    }
}
