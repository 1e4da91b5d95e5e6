// Laws of the run-time routines. Each is the contract of a function that does nothing when called.

ghost use Rattle.tac_rt.specs.Laws.{RoutinesAreSound, AddsMembers, ComparesBytes, ReadsLines, PacksBytes, UnpacksBytes};
ghost use Rattle.tac_rt.specs.Laws.{JoinedSets, IncludesSets, FindsMembers, WritesNumbers, WritesCharacters};
ghost use Rattle.tac_rt.specs.Laws.{WritesStrings, LooksAhead, ReadsCharacters, CopiesWords, ReadsNumbers};

/// The routine that writes a string writes it as the meaning says: right-aligned in its field, or its first characters
/// (6.9.3.6).
#[tactic(auto, using(crate::proofs::Strings::writes_strings))]
pub fn writes_strings()
    ensures { WritesStrings }
{}

/// A look finds the next character, and marks it at the first look alone (6.6.6.5).
#[tactic(auto, using(crate::proofs::Looks::looks_ahead))]
pub fn looks_ahead()
    ensures { LooksAhead }
{}

/// A character is read as the meaning says, a line end as a space (6.9.1).
#[tactic(auto, using(crate::proofs::Characters::reads_characters))]
pub fn reads_characters()
    ensures { ReadsCharacters }
{}

/// Words are copied one after another, from the lowest on.
#[tactic(auto, using(crate::proofs::Copies::copies_words))]
pub fn copies_words()
    ensures { CopiesWords }
{}

/// The routine that writes an integer writes its decimal digits right-aligned in the field (6.9.3.2).
#[tactic(auto, using(crate::proofs::Numbers::writes_numbers))]
pub fn writes_numbers()
    ensures { WritesNumbers }
{}

/// The routine that writes a character writes the byte that an integer stands for, right-aligned (6.9.3.3).
#[tactic(auto, using(crate::proofs::Letters::writes_characters))]
pub fn writes_characters()
    ensures { WritesCharacters }
{}

/// The routines keep the invariant of three-address code after any program, and make no calls.
pub fn routines_are_sound()
    ensures { RoutinesAreSound }
{}

/// The routine that compares strings returns the first bytes that differ, left minus right, or 0 (6.7.2.5).
#[tactic(auto, using(crate::proofs::Comparisons::compares_bytes))]
pub fn compares_bytes()
    ensures { ComparesBytes }
{}

/// Words that hold bytes are packed one after another, from the lowest on (6.6.5.4).
#[tactic(auto, using(crate::proofs::Packs::packs_bytes))]
pub fn packs_bytes()
    ensures { PacksBytes }
{}

/// Bytes are unpacked to words one after another, from the lowest on (6.6.5.4).
#[tactic(auto, using(crate::proofs::Unpacks::unpacks_bytes))]
pub fn unpacks_bytes()
    ensures { UnpacksBytes }
{}

/// Union, difference and intersection combine the words of two sets (6.7.2.4).
#[tactic(auto, using(crate::proofs::Joins::joined_sets))]
pub fn joined_sets()
    ensures { JoinedSets }
{}

/// The rest of a line is skipped up to and including its end, or the end of the input (6.9.2).
#[tactic(auto, using(crate::proofs::Lines::reads_lines))]
pub fn reads_lines()
    ensures { ReadsLines }
{}

/// A set is included in another if no bit of its words is missing in the other's (6.7.2.5).
#[tactic(auto, using(crate::proofs::Inclusions::includes_sets))]
pub fn includes_sets()
    ensures { IncludesSets }
{}

/// An integer is a member of a set if it is in 0..255 and its bit is set (6.7.2.5).
#[tactic(auto, using(crate::proofs::Members::finds_members))]
pub fn finds_members()
    ensures { FindsMembers }
{}

/// The members from one to another are added to a set, none if the first is greater than the last (6.7.1).
#[tactic(auto, using(crate::proofs::Additions::adds_members))]
pub fn adds_members()
    ensures { AddsMembers }
{}

/// An integer is read as the meaning says: blanks are skipped, a sign and digits are taken, and what comes after them
/// is looked at (6.9.1).
pub fn reads_numbers()
    ensures { ReadsNumbers }
{}
