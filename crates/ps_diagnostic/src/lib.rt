//! Code: what is reported for a text, as data, and how it is shown: in lines for people, and as a JSON object for
//! programs.
#![tactic(auto)]

mod marks;
mod object;
mod people;
mod shown;
mod view;

ghost use Rattle.std.specs.Prelude.{◌≡◌};
ghost use Rattle.ps_diagnostic.specs.Head.{word};

pub use object::object_of;
pub use people::render;
use ps_text::Span;
pub use shown::{printable, printable_bytes};
pub use view::View;

/// How grave it is.
#[derive(Clone, Copy)]
pub enum Severity {
    /// The text is refused.
    Error,
    /// The text is accepted.
    Warning,
}

/// A second place in a text, and what is there.
#[derive(Drop)]
pub struct Label {
    pub span: Span,
    pub text: String,
}

/// What could come at a place.
#[derive(Clone, Copy)]
pub enum Expected {
    /// A token as it is written.
    Token(&'static str),
    /// What a person calls several tokens by, with its article, as `a statement`.
    Group(&'static str),
}

/// A change of a text: what replaces a span, which may be empty.
#[derive(Drop)]
pub struct Edit {
    pub span: Span,
    pub put: String,
}

/// What became of a text that was changed.
#[derive(Clone, Copy)]
pub enum Outcome {
    /// It is accepted.
    Accepted,
    /// Its first fault is at this line.
    FaultAt(u32),
}

/// Changes that were tried together: in words, each, and what became of the text.
#[derive(Drop)]
pub struct Mend {
    pub text: String,
    pub edits: Vec<Edit>,
    pub outcome: Outcome,
}

/// What is reported for a text. Texts are sentences without a full stop, with pieces of the source between backticks.
#[derive(Drop)]
pub struct Diagnostic {
    pub severity: Severity,
    /// The number and the name of the refusal, or of the warning.
    pub number: u8,
    pub name: &'static str,
    pub text: String,
    /// Where it is reported, if it has a place.
    pub place: Option<Span>,
    pub labels: Vec<Label>,
    pub expected: Vec<Expected>,
    /// The best first.
    pub mends: Vec<Mend>,
    pub notes: Vec<String>,
    pub helps: Vec<String>,
}

/// The word of a severity.
pub(crate) fn word_of(severity: Severity) -> &'static str
    ensures { result.now ≡ word severity }
{
    match severity {
        Severity::Error => "error",
        Severity::Warning => "warning",
    }
}
