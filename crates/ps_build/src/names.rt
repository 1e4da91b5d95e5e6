//! Laws about what names denote in texts that are built and in texts that are refused, as the contracts of functions
//! that do nothing when called.

ghost use Rattle.ps_build.specs.Names.{NamesOfBuiltTexts, NamesOfRefusedTexts};

/// In a text that was built each name that is used denotes its defining point (ISO 7185, 6.2.2): its tree is read as
/// the one checked program, each block in the regions of the blocks that enclose it.
pub fn names_are_meant()
    ensures { NamesOfBuiltTexts }
{}

/// A text that breaks a rule has a tree, which is read as no program.
pub fn refused_names_are_not_meant()
    ensures { NamesOfRefusedTexts }
{}
