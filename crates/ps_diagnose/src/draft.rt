//! A message before its mends are tried.

use ps_diagnostic::{Edit, Label};
use ps_scan::Token;
use ps_text::{Source, Span};
use std::alloc::Global;

/// What a message is made from: the text, its tokens (those before the place where the scanner refuses it), and the
/// number and the place of the refusal.
#[derive(Clone, Copy)]
pub struct ReportedFault<'a> {
    pub source: &'a Source<'a>,
    pub tokens: &'a [Token],
    pub number: u8,
    pub place: Span,
}

/// Changes that are worth a trial: each in words, and how far it is from what was meant. Those that cost less are tried
/// first.
#[derive(Drop)]
pub struct Trial {
    pub text: String,
    pub edits: Vec<Edit>,
    pub cost: u32,
}

/// What is reported for a fault, before its mends are tried.
#[derive(Drop)]
pub struct Draft {
    /// What was found and what was expected, as one sentence.
    pub text: String,
    /// Second places.
    pub labels: Vec<Label>,
    /// Whether the tokens that could come at the place are shown.
    pub expects: bool,
    pub trials: Vec<Trial>,
    pub notes: Vec<String>,
    pub helps: Vec<String>,
}

impl Draft {
    /// An empty draft.
    pub fn new(alloc: Global) -> Draft {
        Draft {
            text: String::new(alloc),
            labels: Vec::new(alloc),
            expects: false,
            trials: Vec::new(alloc),
            notes: Vec::new(alloc),
            helps: Vec::new(alloc),
        }
    }
}
