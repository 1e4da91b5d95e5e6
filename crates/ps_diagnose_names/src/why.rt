//! What is reported for a refusal, before it is put into words.
//!
//! Its texts are forms: a letter after `@` represents what is put there. `@x`, `@y` and `@z` are the spans of the
//! reason, `@t` and `@u` its types, `@n` and `@m` its numbers, `@N` and `@M` the same as counts (0 is `none`), `@w` its
//! word, `@k` its kind of name, `@p` is the place, and `@l` line and column of the second span. `@a` and `@b` are spans
//! of the help or the change itself; for a string at `@a`, `@i` is the text between the apostrophes, and `@s` the
//! spaces that fill it up.

use ps_diagnose_outline::{PointKind, Type};
use ps_text::Span;

/// A second place.
#[derive(Clone, Copy)]
pub(crate) enum Mark {
    None,
    /// Where the name at the start of a span is declared.
    Declared(Span),
    /// The same, if the span is an entire variable.
    Variable(Span),
    /// A declared name where it is declared.
    Here(Span),
    /// A place with its words.
    At(&'static str, Span),
    /// A type, and what it is the type of.
    TypeOf(Span, Span),
}

/// A help as a form, with spans of its own.
#[derive(Clone, Copy)]
pub(crate) enum Help {
    None,
    Is(&'static str),
    Of(&'static str, Span),
    Both(&'static str, Span, Span),
}

/// A change that is tried.
#[derive(Clone, Copy)]
pub(crate) enum Change {
    None,
    /// A form that replaces a span.
    For(Span, &'static str),
    /// A form that replaces a span, with a further span in it.
    With(Span, Span, &'static str),
    /// A form after a span, with what is between them.
    Behind(Span, &'static str, &'static str),
    /// A form before a span, with what is between them.
    Before(Span, &'static str, &'static str),
    /// The string of a span, filled with this many spaces.
    Filled(Span, u32),
    /// The text without a span.
    Without(Span),
    /// A form wherever the name at the place occurs.
    Everywhere(&'static str),
    /// A comparison for each operand of `or` after a relation.
    EachCompared,
    /// A comma for each `+` of the sum at the place.
    Commas,
}

/// What is reported for a refusal. The functions that search for a reason fill it in if they find one, and return
/// whether they did.
#[derive(Clone, Copy)]
pub(crate) struct Why {
    /// The sentence.
    pub(crate) form: &'static str,
    pub(crate) text: Span,
    pub(crate) other: Span,
    pub(crate) third: Span,
    pub(crate) ty: Type,
    pub(crate) second: Type,
    pub(crate) number: i64,
    pub(crate) further: i64,
    pub(crate) word: &'static str,
    pub(crate) kind: PointKind,
    pub(crate) mark: Mark,
    pub(crate) next_mark: Mark,
    pub(crate) change: Change,
    pub(crate) next_change: Change,
    pub(crate) help: Help,
    pub(crate) next_help: Help,
    pub(crate) note: &'static str,
}

/// A span that is not in the text.
pub(crate) const NOWHERE: Span = Span { from: 0, to: 0 };

impl Why {
    /// An empty reason.
    pub(crate) fn new() -> Why {
        Why {
            form: "",
            text: NOWHERE,
            other: NOWHERE,
            third: NOWHERE,
            ty: Type::Nil,
            second: Type::Nil,
            number: 0,
            further: 0,
            word: "",
            kind: PointKind::Variable,
            mark: Mark::None,
            next_mark: Mark::None,
            change: Change::None,
            next_change: Change::None,
            help: Help::None,
            next_help: Help::None,
            note: "",
        }
    }

    /// Adds a change.
    pub(crate) fn add_change(&mut self, change: Change) {
        match self.change {
            Change::None => self.change = change,
            _ => self.next_change = change,
        }
    }

    /// Adds a help.
    pub(crate) fn add_help(&mut self, help: Help) {
        match self.help {
            Help::None => self.help = help,
            _ => self.next_help = help,
        }
    }
}
