//! Definitions: how the variables of a program are laid out in memory: shapes, the words of values, paths and frames.
#![tactic(auto)]

ghost use Rattle.ps_lower_layout.specs.Laws.{WordsAreCounted};

/// Every value has as many words as the shape of its variable.
#[tactic(auto, using(crate::proofs::Counted::counted))]
pub fn words_are_counted()
    ensures { WordsAreCounted }
{}
