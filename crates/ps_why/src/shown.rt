//! Lines of a text with a mark below a token.

use ps_diagnostic::{Diagnostic, Severity, View, render};
use ps_text::{Source, Span};
use std::alloc::{AllocError, Global};

/// The line of a text with a span, and below it one with its mark, as in messages.
pub(crate) fn marked(alloc: Global, source: &Source<'_>, span: Span) -> Result<String, AllocError> {
    let view = View::new(alloc, source)?;
    let diagnostic = Diagnostic {
        severity: Severity::Error,
        number: 0,
        name: "",
        text: String::new(alloc),
        place: Some(span),
        labels: Vec::new(alloc),
        expected: Vec::new(alloc),
        mends: Vec::new(alloc),
        notes: Vec::new(alloc),
        helps: Vec::new(alloc),
    };
    let shown = render(alloc, "", &view, &diagnostic)?;
    match shown.as_str().split_once('\n') {
        Some((_, lines)) => String::from_str(alloc, lines),
        None => Ok(String::new(alloc)),
    }
}
