//! Words of the language that are spelled otherwise.

use crate::context::Context;
use crate::tell::exchange;
use ps_diagnose::{RequiredName, Telling, Text, nearest};
use ps_scan::Kind;
use std::alloc::AllocError;

// The words that statements and declarations are made of.
const WORDS: [&str; 27] = [
    "and",
    "array",
    "begin",
    "case",
    "const",
    "div",
    "downto",
    "else",
    "end",
    "for",
    "function",
    "mod",
    "not",
    "packed",
    "procedure",
    "program",
    "record",
    "repeat",
    "set",
    "then",
    "type",
    "until",
    "var",
    "while",
    "with",
    "do",
    "of",
];

// The most letters of a name that is compared with them.
const MOST: usize = 12;

// The one of these words that is similar to a name, if there is one.
fn word_near(
    cx: &Context<'_>,
    name: &[u8],
    words: &[&'static str],
) -> Result<Option<&'static str>, AllocError> {
    let mut small = Text::new(cx.alloc);
    for byte in name.iter() {
        small.put_sign(byte.to_ascii_lowercase() as char);
    }
    if small.has_failed {
        return Err(AllocError);
    }
    match nearest(cx.alloc, small.string.as_str(), words)? {
        Some(number) => Ok(words.get(number).copied()),
        None => Ok(None),
    }
}

// Whether a token may be a word that is spelled otherwise: a name that is declared nowhere.
fn may_be_word(cx: &Context<'_>, at: usize) -> bool {
    let length = cx.text(at).len();
    let fits = length >= 3 && length <= MOST;
    fits && cx.is_of(at, &[Kind::Name]) && !cx.seems_declared(at)
}

// Proposes the one of some words that a token is near by spelling.
fn propose_near(cx: &Context<'_>, to: &mut Telling, at: usize, words: &[&'static str]) {
    match word_near(cx, cx.text(at), words) {
        Ok(Some(word)) => exchange(cx, to, 3, cx.span(at), word),
        Ok(None) => {}
        Err(AllocError) => to.has_failed = true,
    }
}

// Proposes the word of the language that a token is near by spelling.
fn propose_word(cx: &Context<'_>, to: &mut Telling, at: usize) {
    if may_be_word(cx, at) {
        propose_near(cx, to, at, WORDS.as_slice());
    }
}

/// Proposes `input` or `output` for the name at the place.
pub(crate) fn propose_file(cx: &Context<'_>, to: &mut Telling) {
    let files = [
        RequiredName::Input.spelling(),
        RequiredName::Output.spelling(),
    ];
    propose_near(cx, to, cx.at, files.as_slice());
}

/// Proposes words of the language for the token at the place and the one before it.
pub(crate) fn propose_words(cx: &Context<'_>, to: &mut Telling) {
    propose_word(cx, to, cx.at);
    if let Some(before) = cx.at.checked_sub(1) {
        propose_word(cx, to, before);
    }
}
