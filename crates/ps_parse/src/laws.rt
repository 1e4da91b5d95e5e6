//! Laws of the refusals.

ghost use Rattle.ps_parse.specs.Untaken.{RefusalsAreOne};

/// Only one refusal is reported for tokens that have no tree, except out of memory: the tokens and the text determine
/// its fault, its line and its place.
pub fn refusals_are_one()
    ensures { RefusalsAreOne }
{}
