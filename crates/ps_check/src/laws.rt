//! Laws of the definitions: what a block's region is, apart from how it is computed.

ghost use Rattle.ps_check.specs.RegionNames.{NamesArePoints};
ghost use Rattle.ps_check.specs.Paths.{BlocksAreEnclosed};

/// The names of a block's region are the spellings of its defining points in the text, each once: those of constants,
/// types and variables in the order in which their definitions end, and then those of routines.
pub fn region_names()
    ensures { NamesArePoints }
{}

/// If a program has a checked tree, each of its blocks is read in the regions that enclose it in the whole tree, each
/// with all its defining points.
pub fn enclosing_regions()
    ensures { BlocksAreEnclosed }
{}
