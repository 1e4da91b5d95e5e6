//! Definitions: the grammar (ISO 7185, 6.2 to 6.10): which tree derives from a list of tokens.
#![tactic(auto)]

ghost use Rattle.ps_parse_grammar.specs.Trees.{LevelsAreHeights};
ghost use Rattle.ps_parse_grammar.specs.Places.{PartsBeginAtFirst};

/// The greatest height of a program's tree.
pub const MAX_HEIGHT: u32 = 500;

/// The law that relates derivations to heights: a tree derives within n levels if and only if it derives and is at most
/// n high.
pub fn level_law()
    ensures { LevelsAreHeights }
{}

/// The law of places: each part of a tree begins where the first of the tokens that it derives from begins.
pub fn place_law()
    ensures { PartsBeginAtFirst }
{}
