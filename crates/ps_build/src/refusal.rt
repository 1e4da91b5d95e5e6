//! Why a text, an image or a budget is refused.

ghost use Rattle.std.specs.Prelude.{◌≡◌};
ghost use Rattle.ps_build.specs.Refusals.{number_of, name_of, name_of_scan, name_of_parse, name_of_rule, place_of};
ghost use Rattle.ps_build.specs.Refusals.{line_of, end_of_token, of_text, of_scan, of_parse, of_check, of_lower};
ghost use Rattle.ps_build.specs.Refusals.{of_emit, of_image, of_load};
ghost use Rattle.ps_build.specs.declared.refusal.Refusal.TheVariants.{OutOfMemory};

use ps_check_judgement::refusal::{CheckRefusal, Rule};
use ps_lower::refusal::LowerRefusal;
use ps_parse::{ParseFault, ParseRefusal};
use ps_scan::{ScanFault, ScanRefusal, Token};
use ps_text::TextRefusal;
use risc_emit::emit::EmitRefusal;
use risc_image::ImageRefusal;
use risc_load::LoadRefusal;
use std::alloc::{AllocError, AllocFailed};
use std::fmt;
use thiserror::Error;

/// Where a fault of a text is reported: the bytes from one offset up to another, and the line of the first of them,
/// counted from 1.
#[derive(Clone, Copy, Debug, PartialEq, Eq)]
pub struct Place {
    pub line: u32,
    pub from: u32,
    pub to: u32,
}

/// Why a text, an image or a budget is refused. It is displayed as its name.
#[derive(Clone, Copy, Debug, Error)]
pub enum Refusal {
    /// A text of more than 1,048,576 bytes.
    TooLong,
    /// A text of more than 65,535 lines that isn't too long.
    TooManyLines,
    /// A growth of memory was refused.
    OutOfMemory,
    /// The text's first fault among tokens and separators (10 to 16).
    Scan {
        fault: ScanFault,
        place: Place,
    },
    /// The first token that no derivation accepts, by its number, counted from 0, and why (20 to 22). The end counts as
    /// a token.
    Parse {
        fault: ParseFault,
        token: u32,
        place: Place,
    },
    /// A rule of the language or a limit that the program breaks, at the token at which it is reported (22 and 30 to
    /// 45).
    Check {
        rule: Rule,
        place: Place,
    },
    /// Code of more than 1,048,576 words.
    CodeTooLarge,
    /// A placement of temporaries that isn't valid.
    BadPlacement,
    /// An image that doesn't begin as one.
    Magic,
    /// An image with fewer bytes than it states.
    Truncated,
    /// An image with more bytes than it states.
    Trailing,
    /// An image, or a count in it, above its limit.
    TooLarge,
    /// An image with a wrong number in its header or its tables.
    BadTable,
    /// Code, globals, heap and stack of more than 16,777,152 bytes.
    BudgetTooLarge,
    /// A stack or a heap that isn't a multiple of 4.
    BudgetUneven,
}

impl fmt::Display for Refusal {
    fn fmt<W: fmt::Write>(&self, f: &mut fmt::Formatter<W>) -> fmt::Result {
        f.write_str(self.name())
    }
}

// The name of the refusal that reports a fault of the tokens.
fn name_of_scan(fault: ScanFault) -> &'static str
    ensures { result.now ≡ name_of_scan fault }
{
    match fault {
        ScanFault::BadByte => "BadByte",
        ScanFault::OpenComment => "OpenComment",
        ScanFault::OpenString => "OpenString",
        ScanFault::EmptyString => "EmptyString",
        ScanFault::SeparatorMissing => "SeparatorMissing",
        ScanFault::NumberTooLarge => "NumberTooLarge",
        ScanFault::RealNumber => "RealNumber",
    }
}

// The name of the refusal that reports why no derivation accepts a token.
fn name_of_parse(fault: ParseFault) -> &'static str
    ensures { result.now ≡ name_of_parse fault }
{
    match fault {
        ParseFault::NotAProgram => "NotAProgram",
        ParseFault::TooDeep => "TooDeep",
        ParseFault::NotInProfile => "NotInProfile",
    }
}

// The name of the refusal that reports that a rule is broken.
fn name_of_rule(rule: Rule) -> &'static str
    ensures { result.now ≡ name_of_rule rule }
{
    match rule {
        Rule::NotInProfile => "NotInProfile",
        Rule::Unknown => "Unknown",
        Rule::Twice => "Twice",
        Rule::UsedBefore => "UsedBefore",
        Rule::WrongKind => "WrongKind",
        Rule::WrongType => "WrongType",
        Rule::NotAssignable => "NotAssignable",
        Rule::BadSubrange => "BadSubrange",
        Rule::SetBase => "SetBase",
        Rule::CaseTwice => "CaseTwice",
        Rule::ControlVariable => "ControlVariable",
        Rule::PackedVariable => "PackedVariable",
        Rule::NotCongruous => "NotCongruous",
        Rule::ForwardOpen => "ForwardOpen",
        Rule::NoResultAssigned => "NoResultAssigned",
        Rule::NoInputOutput => "NoInputOutput",
        Rule::Limit => "Limit",
    }
}

impl Refusal {
    /// The refusal's number.
    pub fn number(self) -> u8
        ensures { result ≡ number_of self }
    {
        match self {
            Refusal::TooLong => 1,
            Refusal::TooManyLines => 2,
            Refusal::OutOfMemory => 9,
            Refusal::Scan { fault, .. } => fault.number() as u8,
            Refusal::Parse { fault, .. } => fault.number() as u8,
            Refusal::Check { rule, .. } => rule.number() as u8,
            Refusal::CodeTooLarge => 50,
            Refusal::BadPlacement => 51,
            Refusal::Magic => 60,
            Refusal::Truncated => 61,
            Refusal::Trailing => 62,
            Refusal::TooLarge => 63,
            Refusal::BadTable => 64,
            Refusal::BudgetTooLarge => 70,
            Refusal::BudgetUneven => 71,
        }
    }

    /// The refusal's name.
    pub fn name(self) -> &'static str
        ensures { result.now ≡ name_of self }
    {
        match self {
            Refusal::TooLong => "TooLong",
            Refusal::TooManyLines => "TooManyLines",
            Refusal::OutOfMemory => "OutOfMemory",
            Refusal::Scan { fault, .. } => name_of_scan(fault),
            Refusal::Parse { fault, .. } => name_of_parse(fault),
            Refusal::Check { rule, .. } => name_of_rule(rule),
            Refusal::CodeTooLarge => "CodeTooLarge",
            Refusal::BadPlacement => "BadPlacement",
            Refusal::Magic => "Magic",
            Refusal::Truncated => "Truncated",
            Refusal::Trailing => "Trailing",
            Refusal::TooLarge => "TooLarge",
            Refusal::BadTable => "BadTable",
            Refusal::BudgetTooLarge => "BudgetTooLarge",
            Refusal::BudgetUneven => "BudgetUneven",
        }
    }

    /// The place in the text, for those refusals that have one: 10 to 45.
    pub fn place(self) -> Option<Place>
        ensures { result ≡ place_of self }
    {
        match self {
            Refusal::Scan { place, .. } => Some(place),
            Refusal::Parse { place, .. } => Some(place),
            Refusal::Check { place, .. } => Some(place),
            _ => None,
        }
    }

    /// The line of the text, for the same refusals.
    pub fn line(self) -> Option<u32>
        ensures { result ≡ line_of self }
    {
        match self.place() {
            Some(place) => Some(place.line),
            None => None,
        }
    }
}

impl From<AllocError> for Refusal {
    ghost from_gives = { λ _ r. r ≡ OutOfMemory };

    fn from(_error: AllocError) -> Refusal {
        Refusal::OutOfMemory
    }
}

impl<T: Drop> From<AllocFailed<T>> for Refusal {
    ghost from_gives = { λ _ r. r ≡ OutOfMemory };

    fn from(_error: AllocFailed<T>) -> Refusal {
        Refusal::OutOfMemory
    }
}

impl From<TextRefusal> for Refusal {
    ghost from_gives = { λ e r. r ≡ of_text e };

    fn from(refusal: TextRefusal) -> Refusal {
        match refusal {
            TextRefusal::TooLong => Refusal::TooLong,
            TextRefusal::TooManyLines => Refusal::TooManyLines,
        }
    }
}

impl From<ScanRefusal> for Refusal {
    ghost from_gives = { λ e r. r ≡ of_scan e };

    fn from(refusal: ScanRefusal) -> Refusal {
        match refusal {
            ScanRefusal::OutOfMemory => Refusal::OutOfMemory,
            ScanRefusal::Faulty {
                fault,
                line,
                from,
                to,
            } => Refusal::Scan {
                fault,
                place: Place { line, from, to },
            },
        }
    }
}

impl From<ParseRefusal> for Refusal {
    ghost from_gives = { λ e r. r ≡ of_parse e };

    fn from(refusal: ParseRefusal) -> Refusal {
        match refusal {
            ParseRefusal::OutOfMemory => Refusal::OutOfMemory,
            ParseRefusal::Faulty {
                fault,
                line,
                token,
                from,
                to,
            } => Refusal::Parse {
                fault,
                token,
                place: Place { line, from, to },
            },
        }
    }
}

// The end of the token that begins at an offset.
fn end_of_token(mut tokens: &[Token], at: u32) -> u32
    ensures { result ≡ end_of_token tokens.entry.now at }
{
    while let [token, rest @ ..] = tokens {
        if token.span.from == at {
            return token.span.to;
        }
        tokens = rest;
    }
    at
}

impl Refusal {
    /// What the checker refuses, reported at the whole token that begins at the fault's offset.
    pub fn of_check(refusal: CheckRefusal, tokens: &[Token]) -> Refusal
        ensures { result ≡ of_check tokens.now refusal }
    {
        match refusal {
            CheckRefusal::OutOfMemory => Refusal::OutOfMemory,
            CheckRefusal::Broken { rule, at, line } => Refusal::Check {
                rule,
                place: Place {
                    line,
                    from: at,
                    to: end_of_token(tokens, at),
                },
            },
        }
    }
}

impl From<LowerRefusal> for Refusal {
    ghost from_gives = { λ e r. r ≡ of_lower e };

    fn from(refusal: LowerRefusal) -> Refusal {
        match refusal {
            LowerRefusal::OutOfMemory => Refusal::OutOfMemory,
            LowerRefusal::CodeTooLarge => Refusal::CodeTooLarge,
        }
    }
}

impl From<EmitRefusal> for Refusal {
    ghost from_gives = { λ e r. r ≡ of_emit e };

    fn from(refusal: EmitRefusal) -> Refusal {
        match refusal {
            EmitRefusal::CodeTooLarge => Refusal::CodeTooLarge,
            EmitRefusal::OutOfMemory => Refusal::OutOfMemory,
        }
    }
}

impl From<ImageRefusal> for Refusal {
    ghost from_gives = { λ e r. r ≡ of_image e };

    fn from(refusal: ImageRefusal) -> Refusal {
        match refusal {
            ImageRefusal::Magic => Refusal::Magic,
            ImageRefusal::Truncated => Refusal::Truncated,
            ImageRefusal::Trailing => Refusal::Trailing,
            ImageRefusal::TooLarge => Refusal::TooLarge,
            ImageRefusal::BadTable => Refusal::BadTable,
        }
    }
}

impl From<LoadRefusal> for Refusal {
    ghost from_gives = { λ e r. r ≡ of_load e };

    fn from(refusal: LoadRefusal) -> Refusal {
        match refusal {
            LoadRefusal::OutOfMemory => Refusal::OutOfMemory,
            LoadRefusal::BudgetTooLarge => Refusal::BudgetTooLarge,
            LoadRefusal::BudgetUneven => Refusal::BudgetUneven,
        }
    }
}
