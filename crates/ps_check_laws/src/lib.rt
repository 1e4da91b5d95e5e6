//! Laws: what each name of a checked program denotes, stated over paths in the whole tree (ISO 7185, 6.2.2), and what
//! its statements change (6.8.3.9).
//!
//! The functions do nothing when called; each exists for its contract.
#![tactic(auto)]

ghost use Rattle.ps_check_laws.specs.Read.{NamesMeanTheirPoints};
ghost use Rattle.ps_check_laws.specs.Rule.{CheckedProgramsAreRead, ReadProgramsAreChecked, OneProgramIsRead};
ghost use Rattle.ps_check_laws.specs.Forward.{ForwardHeadingsHaveBlocks};
ghost use Rattle.ps_check_laws.specs.Threats.{WhatIsThreatenedIsChanged};
ghost use Rattle.ps_check_laws.specs.Safe.{ControlVariablesAreSafe};
ghost use Rattle.ps_check_laws.specs.Uses.{UsesFindWhatTheyDenote, WhatIsDenotedIsFound, OnePointIsDenoted};

/// If a program has a checked tree, each of its blocks is read in the regions that enclose it, where the names known
/// are the defining points before it, and each has the meaning that its own definition gives it. The checked routines
/// are the result.
pub fn names_mean_their_points()
    ensures { NamesMeanTheirPoints }
{}

/// The use of a name finds the defining point in the innermost region that defines it, before the use.
pub fn uses_find_what_they_denote()
    ensures { UsesFindWhatTheyDenote }
{}

/// In an accepted program each forward heading has its block later in its routine part, and of two routines with the
/// same name the second is the block of the first (6.6.1, 6.6.2).
pub fn forward_headings_have_blocks()
    ensures { ForwardHeadingsHaveBlocks }
{}

/// The search through the regions at a place finds what a name denotes there.
pub fn what_is_denoted_is_found()
    ensures { WhatIsDenotedIsFound }
{}

/// A name denotes at most one defining point of the blocks.
pub fn one_point_is_denoted()
    ensures { OnePointIsDenoted }
{}

/// A tree that has a checked program is read as that program, block by block: each defining point has one meaning, the
/// one that its definition gives it, and each block keeps the rules under those meanings.
pub fn checked_programs_are_read()
    ensures { CheckedProgramsAreRead }
{}

/// It is read as no other program: if the checker has none, the tree is read as no program.
pub fn read_programs_are_checked()
    ensures { ReadProgramsAreChecked }
{}

/// A tree is read as at most one program.
pub fn one_program_is_read()
    ensures { OneProgramIsRead }
{}

/// What the statements of a block are said to change is what the checked statements threaten (6.8.3.9), stated for the
/// finished tree alone.
pub fn what_is_threatened_is_changed()
    ensures { WhatIsThreatenedIsChanged }
{}

/// In an accepted program, neither the statement that a `for` statement repeats nor a routine within its block
/// threatens the control variable (6.8.3.9), stated for the checked program alone.
pub fn control_variables_are_safe()
    ensures { ControlVariablesAreSafe }
{}
