// The run-time routines by name.

ghost use Rattle.std.specs.Prelude.{◌≡◌, ◌≤◌};
ghost use Rattle.tac_rt.specs.Numbers.{run_time_number};

/// A run-time routine, in the order of their numbers.
#[derive(Clone, Copy)]
pub enum RunTime {
    /// Words, one after another, from the lowest on.
    CopyWords,
    /// Adds the members from one to another to a set (6.7.1).
    AddRange,
    /// The union of two sets (6.7.2.4).
    UniteSets,
    /// The difference of two sets (6.7.2.4).
    SubtractSet,
    /// The intersection of two sets (6.7.2.4).
    IntersectSets,
    /// Whether each member of a set is one of another (6.7.2.5).
    IsIncluded,
    /// Whether an integer is a member of a set (6.7.2.5).
    IsMember,
    /// The difference of the first bytes of two strings that differ (6.7.2.5).
    CompareBytes,
    /// Words to bytes (6.6.5.4).
    PackBytes,
    /// Bytes to words (6.6.5.4).
    UnpackBytes,
    /// Writes an integer (6.9.3.2).
    WriteNumber,
    /// Writes a character (6.9.3.3).
    WriteCharacter,
    /// Writes a string (6.9.3.6).
    WriteString,
    /// What comes next in the input (6.6.6.5).
    LookAhead,
    /// Reads a character (6.9.1).
    ReadCharacter,
    /// Reads an integer (6.9.1).
    ReadNumber,
    /// Skips the rest of a line and its end (6.9.2).
    ReadLine,
}

impl RunTime {
    /// The routine's number among the run-time routines.
    pub fn number(self) -> u32
        ensures value { result ≡ run_time_number self }
        ensures small { result ≤ 16 }
    {
        match self {
            RunTime::CopyWords => 0,
            RunTime::AddRange => 1,
            RunTime::UniteSets => 2,
            RunTime::SubtractSet => 3,
            RunTime::IntersectSets => 4,
            RunTime::IsIncluded => 5,
            RunTime::IsMember => 6,
            RunTime::CompareBytes => 7,
            RunTime::PackBytes => 8,
            RunTime::UnpackBytes => 9,
            RunTime::WriteNumber => 10,
            RunTime::WriteCharacter => 11,
            RunTime::WriteString => 12,
            RunTime::LookAhead => 13,
            RunTime::ReadCharacter => 14,
            RunTime::ReadNumber => 15,
            RunTime::ReadLine => 16,
        }
    }
}
