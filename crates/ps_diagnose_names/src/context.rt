//! What is known where a reason is searched for, and how forms are put into words.

use crate::spot::{Passed, Seen, Spot, seen_among};
use crate::why::Why;
use ps_diagnose::{ReportedFault, Text};
use ps_diagnose_outline::{Outline, PointKind, Type};
use ps_text::Span;
use std::alloc::Global;

/// What is known of a refusal and of its text.
#[derive(Drop)]
pub(crate) struct Context<'a> {
    pub(crate) alloc: Global,
    pub(crate) fault: ReportedFault<'a>,
    pub(crate) outline: Outline<'a>,
    /// The control variables of the `for` statements around the place, from the inside out.
    pub(crate) controls: Vec<Span>,
    /// Where else the undeclared name occurs.
    pub(crate) uses: Vec<Span>,
}

/// The place of a refusal. What it may be the place of is not in the context: otherwise the type that most functions
/// here take would lead to those of the whole tree, and each proof would be longer.
#[derive(Drop)]
pub(crate) struct Place<'a> {
    pub(crate) context: Context<'a>,
    /// What it may be the place of, from the outside in.
    pub(crate) spots: Vec<Spot<'a>>,
}

/// What a form has of its own: spans, how many spaces are filled in, and whether spans are put as they are.
#[derive(Clone, Copy)]
pub(crate) struct Own {
    pub(crate) text: Span,
    pub(crate) part: Span,
    pub(crate) spaces: u32,
    pub(crate) is_exact: bool,
}

// The most bytes of a part of the text that an edit puts: with a longer one it is too long, and is left out.
const MOST_EXACT: usize = 16_384;

/// The word of a kind of name, with its article.
fn kind_words(kind: PointKind) -> &'static str {
    match kind {
        PointKind::Constant => "a constant",
        PointKind::Member => "a constant of an enumeration",
        PointKind::Type => "a type",
        PointKind::Variable => "a variable",
        PointKind::ValueParameter => "a value parameter",
        PointKind::VariableParameter => "a variable parameter",
        PointKind::Field => "a field",
        PointKind::Procedure => "a procedure",
        PointKind::Function => "a function",
        PointKind::ProcedureParameter => "a procedure that is a parameter",
        PointKind::FunctionParameter => "a function that is a parameter",
    }
}

/// A count as a number that may be negative.
pub(crate) fn long(count: usize) -> i64 {
    i64::try_from(count).unwrap_or(i64::MAX)
}

// The text between the apostrophes of a string.
fn inner(literal: &[u8]) -> &str {
    match literal {
        [b'\'', inner @ .., b'\''] => str::from_utf8(inner).unwrap_or(""),
        _ => "",
    }
}

// Puts this many spaces.
fn put_spaces(out: &mut Text, count: u32) {
    for _ in 0..count {
        out.put_sign(' ');
    }
}

impl<'a> Place<'a> {
    /// What it may be the place of, by kinds.
    pub(crate) fn seen(&self) -> Seen<'a> {
        seen_among(self.spots.as_slice())
    }

    /// The parameter at the place.
    pub(crate) fn passed(&self) -> Option<Passed<'a>> {
        self.seen().passed
    }

    /// Whether the place is a control variable.
    pub(crate) fn is_control(&self) -> bool {
        self.seen().is_control
    }
}

impl<'a> Context<'a> {
    /// Puts the text of a span.
    pub(crate) fn put_text(&self, out: &mut Text, span: Span) {
        out.put_made(self.outline.text(self.alloc, span));
    }

    // Puts the text of a span, unchanged in an edit. There a long one isn't even read: an edit may have many of them.
    fn put_span(&self, out: &mut Text, span: Span, own: Own) {
        if !own.is_exact {
            return self.put_text(out, span);
        }
        let bytes = self.outline.bytes(span);
        if bytes.len() > MOST_EXACT {
            out.is_cut = true;
        } else {
            out.put(str::from_utf8(bytes).unwrap_or("?"));
        }
    }

    // Puts the words of a type.
    fn put_type(&self, out: &mut Text, ty: Type) {
        match self.outline.words(self.alloc, ty) {
            Ok(Some(words)) => out.put(words.as_str()),
            Ok(None) => out.put("of another type"),
            Err(_) => out.has_failed = true,
        }
    }

    // Puts what a letter represents.
    fn put_slot(&self, out: &mut Text, letter: char, why: &Why, own: Own) {
        match letter {
            'x' => self.put_span(out, why.text, own),
            'y' => self.put_span(out, why.other, own),
            'z' => self.put_span(out, why.third, own),
            'a' => self.put_span(out, own.text, own),
            'b' => self.put_span(out, own.part, own),
            'p' => self.put_span(out, self.fault.place, own),
            't' => self.put_type(out, why.ty),
            'u' => self.put_type(out, why.second),
            'N' if why.number == 0 => out.put("none"),
            'M' if why.further == 0 => out.put("none"),
            'n' | 'N' => out.put_number(why.number),
            'm' | 'M' => out.put_number(why.further),
            'w' => out.put(why.word),
            'k' => out.put(kind_words(why.kind)),
            'l' => out.put_place(self.fault.source.bytes(), why.other.from),
            'i' => out.put(inner(self.outline.bytes(own.text))),
            's' => put_spaces(out, own.spaces),
            _ => {}
        }
    }

    /// Puts a form.
    pub(crate) fn put_form(&self, out: &mut Text, form: &str, why: &Why, own: Own) {
        let mut is_slot = false;
        for letter in form.chars() {
            if is_slot {
                self.put_slot(out, letter, why, own);
            } else if letter != '@' {
                out.put_sign(letter);
            }
            is_slot = !is_slot && letter == '@';
        }
    }
}
