//! Why a program is refused.

ghost use Rattle.std.specs.Prelude.{◌≡◌};
ghost use Rattle.ps_check_judgement.specs.Refusal.{number_of, number_of_rule, line_of};

use std::alloc::{AllocError, AllocFailed};
use std::fmt;
use thiserror::Error;

/// A rule of the language that a program breaks. It is displayed as its name.
#[derive(Clone, Copy, Debug, PartialEq, Eq)]
pub enum Rule {
    /// A required name that the profile leaves out, or a program parameter other than input and output.
    NotInProfile,
    /// A name without a defining point.
    Unknown,
    /// Two defining points of a name in a region.
    Twice,
    /// A use before the name's defining point in its region, or within the name's own definition.
    UsedBefore,
    /// A name of a kind that its place doesn't allow.
    WrongKind,
    /// An operand, index, condition or parameter of a wrong type.
    WrongType,
    /// An expression that isn't assignment-compatible.
    NotAssignable,
    /// A subrange whose lowest value is greater than its highest.
    BadSubrange,
    /// A set whose base type has ordinals outside 0..255.
    SetBase,
    /// A case constant that occurs twice.
    CaseTwice,
    /// A control variable that is not declared in the variable part of the closest block, or is threatened.
    ControlVariable,
    /// A packed variable's component passed as a variable parameter.
    PackedVariable,
    /// Parameter lists that aren't congruous, or the wrong number of actual parameters.
    NotCongruous,
    /// A forward heading without its block.
    ForwardOpen,
    /// A function whose block assigns no result.
    NoResultAssigned,
    /// Input or output, named or implied, that the program heading doesn't list.
    NoInputOutput,
    /// A limit of this compiler is exceeded.
    Limit,
}

impl fmt::Display for Rule {
    fn fmt<W: fmt::Write>(&self, f: &mut fmt::Formatter<W>) -> fmt::Result {
        fmt::Debug::fmt(self, f)
    }
}

impl Rule {
    /// The number of the refusal that reports this rule.
    pub fn number(self) -> u32
        ensures { result ≡ number_of_rule self }
    {
        match self {
            Rule::NotInProfile => 22,
            Rule::Unknown => 30,
            Rule::Twice => 31,
            Rule::UsedBefore => 32,
            Rule::WrongKind => 33,
            Rule::WrongType => 34,
            Rule::NotAssignable => 35,
            Rule::BadSubrange => 36,
            Rule::SetBase => 37,
            Rule::CaseTwice => 38,
            Rule::ControlVariable => 39,
            Rule::PackedVariable => 40,
            Rule::NotCongruous => 41,
            Rule::ForwardOpen => 42,
            Rule::NoResultAssigned => 43,
            Rule::NoInputOutput => 44,
            Rule::Limit => 45,
        }
    }
}

/// Why a program is refused.
#[derive(Clone, Copy, Debug, Error)]
pub enum CheckRefusal {
    /// The allocator refused memory.
    #[error("OutOfMemory")]
    OutOfMemory,
    /// The program breaks a rule, reported at the token that begins at the offset `at`, on this line.
    #[error("{rule}")]
    Broken { rule: Rule, at: u32, line: u32 },
}

impl CheckRefusal {
    /// The refusal's number.
    pub fn number(self) -> u32
        ensures { result ≡ number_of self }
    {
        match self {
            CheckRefusal::OutOfMemory => 9,
            CheckRefusal::Broken { rule, .. } => rule.number(),
        }
    }

    /// The line at which it is reported, if it has one.
    pub fn line(self) -> Option<u32>
        ensures { result ≡ line_of self }
    {
        match self {
            CheckRefusal::OutOfMemory => None,
            CheckRefusal::Broken { line, .. } => Some(line),
        }
    }
}

/// The same, with the offset `at` of the token at which it is reported.
#[derive(Clone, Copy)]
pub enum CheckFault {
    OutOfMemory,
    Broken { rule: Rule, at: u32 },
}

impl From<AllocError> for CheckFault {
    ghost use Rattle.std.specs.Prelude.{◌≡◌};
    ghost use Rattle.ps_check_judgement.specs.declared.refusal.CheckFault.TheVariants.{OutOfMemory};

    ghost from_gives = { λ _ e. e ≡ OutOfMemory };

    fn from(_: AllocError) -> CheckFault {
        CheckFault::OutOfMemory
    }
}

impl<T: Drop> From<AllocFailed<T>> for CheckFault {
    ghost use Rattle.std.specs.Prelude.{◌≡◌};
    ghost use Rattle.ps_check_judgement.specs.declared.refusal.CheckFault.TheVariants.{OutOfMemory};

    ghost from_gives = { λ _ e. e ≡ OutOfMemory };

    fn from(_: AllocFailed<T>) -> CheckFault {
        CheckFault::OutOfMemory
    }
}
