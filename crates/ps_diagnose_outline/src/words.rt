//! Types and parts in the words of the text.

use crate::extent::Part;
use crate::outline::Outline;
use crate::parts::{PointKind, Shape, Type};
use crate::required::{Required, RequiredKind};
use ps_diagnose::put_shown;
use ps_text::Span;
use std::alloc::{AllocError, Global};

// The most characters of a part that are shown.
const MOST: usize = 40;

// More bytes of a token than are shown, by which it is seen to be long: the rest isn't read at each use.
const ENOUGH: usize = 200;

// What is said of a type: words, a part of the text, and what comes after that.
#[derive(Clone, Copy)]
struct Phrase {
    before: &'static str,
    part: Span,
    behind: &'static str,
}

// A type without a denoter of its own, except the length of a string.
fn fixed(ty: Type) -> Phrase {
    let before = match ty {
        Type::Integer => "an integer",
        Type::Boolean => "a Boolean",
        Type::Char => "a char",
        Type::Nil => "nil",
        Type::Members => "a set",
        Type::Text(_) | Type::Told(_) => "a string",
    };
    Phrase {
        before,
        part: Span { from: 0, to: 0 },
        behind: "",
    }
}

// Whether words that begin so have `an` as their article.
fn begins_with_vowel(words: &[u8]) -> bool {
    matches!(
        words,
        [
            b'a' | b'e' | b'i' | b'o' | b'u' | b'A' | b'E' | b'I' | b'O' | b'U',
            ..
        ]
    )
}

// A token, or the beginning of a long one.
fn begun(token: &[u8]) -> &str {
    let Some(first) = token.get(..ENOUGH) else {
        return str::from_utf8(token).unwrap_or("?");
    };
    match first.utf8_chunks().next() {
        Some(chunk) => chunk.valid(),
        None => "?",
    }
}

impl<'a> Outline<'a> {
    /// The text of a span, on one line and cut after 40 bytes; a token of more than 100 bytes as it begins, followed by
    /// `..`.
    pub fn text(&self, alloc: Global, span: Span) -> Result<String, AllocError> {
        let mut out = String::new(alloc);
        let mut behind = span.from;
        for token in self.tokens_from(span.from) {
            if token.span.from >= span.to {
                break;
            }
            if out.len() > MOST {
                out.push_str(" ..")?;
                break;
            }
            if behind < token.span.from {
                out.push_str(" ")?;
            }
            put_shown(&mut out, begun(self.bytes(token.span)))?;
            behind = token.span.to;
        }
        Ok(out)
    }

    // A type's name with its article.
    fn name_phrase(&self, name: Span) -> Phrase {
        let is_vowel = begins_with_vowel(self.bytes(name));
        Phrase {
            before: if is_vowel { "an `" } else { "a `" },
            part: name,
            behind: "`",
        }
    }

    // The words of the type that a name denotes which a denoter is.
    fn same_phrase(&self, from: u32) -> Phrase {
        let name = self.span(self.token_at(from));
        match self.required(name) {
            Some(
                Required {
                    kind: RequiredKind::Type(ty),
                    ..
                },
            ) => fixed(ty),
            _ => self.name_phrase(name),
        }
    }

    // The words of a denoter that no type definition names, with its article.
    fn phrase_of(&self, shape: Shape, from: u32) -> Phrase {
        let before = match shape {
            Shape::Same(_) => return self.same_phrase(from),
            Shape::Range { .. } => "a range ",
            Shape::Enumeration => "an enumeration ",
            Shape::Pointer(_) => "a pointer ",
            _ if begins_with_vowel(self.bytes(self.span(self.token_at(from)))) => "an ",
            _ => "a ",
        };
        Phrase {
            before,
            part: self.extent(from, Part::Denoter),
            behind: "",
        }
    }

    // The words of a type, except the length of a string, if they are known.
    fn phrase(&self, ty: Type) -> Option<Phrase> {
        let Type::Told(number) = ty else {
            return Some(fixed(ty));
        };
        if let Some(name) = self.type_name(number) {
            return Some(self.name_phrase(name));
        }
        let denoter = self.denoter(number)?;
        Some(self.phrase_of(denoter.shape, denoter.from?))
    }

    // The name of the type that a denoter defines, if it is one of a type definition.
    fn type_name(&self, denoter: u32) -> Option<Span> {
        for point in self.points() {
            if let (PointKind::Type, Some(Type::Told(number))) = (point.kind, point.ty) {
                if number == denoter {
                    return Some(point.name);
                }
            }
        }
        None
    }

    /// A type in the words of the text, with `a` or `an`.
    pub fn words(&self, alloc: Global, ty: Type) -> Result<Option<String>, AllocError> {
        if let Type::Text(length) = ty {
            return Ok(Some(format!(in alloc; "a string of {length} characters")?));
        }
        let Some(phrase) = self.phrase(ty) else {
            return Ok(None);
        };
        let part = self.text(alloc, phrase.part)?;
        let (before, part, behind) = (phrase.before, part.as_str(), phrase.behind);
        Ok(Some(format!(in alloc; "{before}{part}{behind}")?))
    }
}
