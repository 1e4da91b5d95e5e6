//! Laws of tokens and faults. Each is the contract of a function that does nothing when called.

ghost use Rattle.ps_scan.specs.Laws.{EachTextIsScanned, TokensStandInOrder, FaultsStandWithin};

/// Each text has either tokens or a first fault, never both, and only one of either.
#[tactic(auto, using(crate::proofs::OneAnswer::each_text_is_scanned))]
pub fn each_text_is_scanned()
    ensures { EachTextIsScanned }
{}

/// The tokens of a text come one after the other within it, and each has at least one byte.
#[tactic(auto, using(crate::proofs::Places::tokens_stand_in_order))]
pub fn tokens_stand_in_order()
    ensures { TokensStandInOrder }
{}

/// The place of a text's first fault lies within the text, and has at least one byte.
#[tactic(auto, using(crate::proofs::Places::faults_stand_within))]
pub fn faults_stand_within()
    ensures { FaultsStandWithin }
{}
