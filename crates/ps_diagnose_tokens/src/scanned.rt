//! What is reported if the scanner refuses a text.

use crate::context::Context;
use crate::letters::{Class, byte_at, byte_before, end_of, is_in, span_at, start_of, trimmed_end};
use crate::rows::Part;
use crate::rule::Place::Back;
use crate::rule::Step::{
    Advice, Also, CloseLine, Fails, Found, Help, InPart, Is, IsNot, NotInPart, Or, Put, Rule, Run,
    Says, Spelled, Stands, Tell,
};
use crate::rule::{Fact, More, Steps};
use crate::signs::rule_of_byte;
use crate::slashes::exchange_slashes;
use crate::tell::{add_change, exchange, exchange_text, joined, shown, take_away};
use crate::telling::advise;
use crate::tests::{first_of, is_named};
use ps_diagnose::{RequiredName, Telling};
use ps_scan::Kind;
use ps_text::Span;

// A comment that is never closed.
const COMMENT: Steps = &[
    // `{ ..`
    Rule,
    Stands("{"),
    Says("this comment is never closed"),
    CloseLine("}", " }"),
    Tell(More::InnerComment),

    // `(* ..`
    Rule,
    Says("this comment is never closed"),
    CloseLine("*)", " *)"),
    Tell(More::InnerComment),
];

// A string that is not closed on its line.
const STRING: Steps = &[
    Rule,
    Says("this string is not closed on its line"),
    Tell(More::InnerApostrophe),
    Tell(More::StringBefore),
    Tell(More::StringEnd),
];

// A string without a character.
const EMPTY: Steps = &[
    Rule,
    Says("a string has at least one character"),
    Tell(More::EmptyString),
];

// What declares the name after it.
const DECLARES: &[Kind] = &[
    Kind::Program,
    Kind::Procedure,
    Kind::Function,
    Kind::Var,
    Kind::Const,
    Kind::Type,
];

// A word that touches the number before it.
const SEPARATOR: Steps = &[
    // `0x1F`
    Rule,
    Stands("x"),
    Spelled(Back(1), "0"),
    Says("`0"),
    Run(Class::Name),
    Put("` is not a number of Pascal"),
    Help("numbers are decimal"),

    // `10a`
    Rule,
    Says("`"),
    Run(Class::Name),
    Put("` touches the number before it"),
    Also,
    Is(Back(2), DECLARES),
    Help("a name begins with a letter"),
    Also,
    IsNot(Back(2), DECLARES),
    Tell(More::Separators),
];

// A number above the largest one.
const NUMBER: Steps = &[
    Rule,
    Says("`"),
    Run(Class::Digit),
    Put("` is above 2147483647, the largest integer"),
];

// What comes before a bound.
const BEFORE_BOUND: &[Kind] = &[Kind::LeftBracket, Kind::Colon, Kind::Of];

// A real number.
const REAL: Steps = &[
    // `array [1.3]`
    Rule,
    Is(Back(1), BEFORE_BOUND),
    Fails(Fact::Statements),
    NotInPart(&[Kind::Const]),
    Or,
    Is(Back(1), &[Kind::Equal]),
    InPart(&[Kind::Type]),
    Says("`..` goes between two bounds"),
    Tell(More::Bounds),

    // `1.5`
    Rule,
    Says("`"),
    Found,
    Put("` is a real number, and this compiler has none"),
    Tell(More::Reals),
    Advice(Part::StatementsLeftOut, "1 . 5"),
];

/// The rule of a refusal by the scanner.
pub(crate) fn rule_of_scanner(cx: &Context<'_>, number: u8) -> Option<Steps> {
    match number {
        10 => rule_of_byte(cx),
        11 => first_of(cx, COMMENT),
        12 => first_of(cx, STRING),
        13 => first_of(cx, EMPTY),
        14 => first_of(cx, SEPARATOR),
        15 => first_of(cx, NUMBER),
        _ => first_of(cx, REAL),
    }
}

// The word that ends before an offset, or the one sign there.
fn word_before<'a>(cx: &Context<'a>, end: usize) -> &'a str {
    let start = start_of(cx.bytes, end, Class::Name);
    let start = start.min(end.saturating_sub(1));
    shown(cx.bytes.get(start..end).unwrap_or(&[]))
}

/// The piece of the text of this class that begins at an offset, as it is shown.
pub(crate) fn shown_from<'a>(cx: &Context<'a>, from: usize, class: Class) -> &'a str {
    let end = end_of(cx.bytes, from, class);
    shown(cx.bytes.get(from..end).unwrap_or(&[]))
}

// Proposes to put something at an offset, after the word there.
fn put_behind_word(
    cx: &Context<'_>,
    to: &mut Telling,
    cost: u32,
    at: usize,
    told: &str,
    put: &str,
) {
    let words = ["put `", told, "` after `", word_before(cx, at), "` at "];
    add_change(cx, to, cost, span_at(at, at), put, &words);
}

// The span of what seems to begin a comment within an open one.
fn comment_within(bytes: &[u8], from: usize) -> Option<Span> {
    for at in from..bytes.len() {
        let is_long = at > from && byte_before(bytes, at) == b'(';
        match byte_at(bytes, at) {
            b'{' => return Some(span_at(at, at.saturating_add(1))),
            b'*' if is_long => {
                return Some(span_at(at.saturating_sub(1), at.saturating_add(1)));
            }
            _ => {}
        }
    }
    None
}

/// Reports what seems to begin a comment within the open one at the place.
pub(crate) fn label_comment(cx: &Context<'_>, to: &mut Telling) {
    let from = cx.place.from as usize;
    let length = if byte_at(cx.bytes, from) == b'{' {
        1
    } else {
        2
    };
    match comment_within(cx.bytes, from.saturating_add(length)) {
        Some(span) => to.label(span, joined(cx, &["a comment seems to begin here"])),
        None => {}
    }
}

// The comment in braces at an offset, if another one seems to begin in it.
fn comment_with_another(cx: &Context<'_>, at: usize) -> Option<Span> {
    let end = end_of(cx.bytes, at, Class::Comment);
    let inner = comment_within(cx.bytes, at.saturating_add(1))?;
    if (inner.from as usize) < end {
        Some(span_at(at, end))
    } else {
        None
    }
}

// The first brace before a token that begins a comment, after the token before it.
fn brace_before(cx: &Context<'_>, at: usize) -> Option<usize> {
    let from = match at.checked_sub(1) {
        Some(before) => cx.span(before).to,
        None => 0,
    };
    for brace in from as usize..cx.span(at).from as usize {
        if byte_at(cx.bytes, brace) == b'{' {
            return Some(brace);
        }
    }
    None
}

// The first comment in braces before the place, after the token before it, if another one seems to begin in it.
fn long_comment(cx: &Context<'_>) -> Option<Span> {
    comment_with_another(cx, brace_before(cx, cx.at)?)
}

/// Reports where a comment before the place begins and ends, if another one seems to begin in it.
pub(crate) fn comment_before(cx: &Context<'_>, to: &mut Telling) {
    let Some(comment) = long_comment(cx) else {
        return;
    };
    let mut text = joined(cx, &["the comment that begins at "]);
    text.put_place(cx.bytes, comment.from);
    text.put(" ends at ");
    text.put_place(cx.bytes, comment.to);
    text.put(", at the first `}` after it");
    to.note(text);
}

/// Proposes to put something after the line of the place.
pub(crate) fn close_line(cx: &Context<'_>, to: &mut Telling, told: &str, put: &str) {
    let end = trimmed_end(cx.bytes, cx.place.from as usize);
    put_behind_word(cx, to, 0, end, told, put);
}

// Whether an apostrophe is between two letters, or after a backslash.
fn is_between_letters(bytes: &[u8], at: usize) -> bool {
    let before = byte_before(bytes, at);
    byte_at(bytes, at) == b'\''
        && (before == b'\\' || before.is_ascii_alphabetic())
        && byte_at(bytes, at.saturating_add(1)).is_ascii_alphabetic()
}

// The first apostrophe of a line, before an offset, that is between two letters.
fn inner_apostrophe(bytes: &[u8], at: usize) -> Option<usize> {
    for other in start_of(bytes, at, Class::Line)..at.saturating_add(1) {
        if is_between_letters(bytes, other) {
            return Some(other);
        }
    }
    None
}

// The offset before the signs that end the line of an offset: parentheses, commas, semicolons and spaces.
fn before_signs(bytes: &[u8], from: usize) -> usize {
    let end = trimmed_end(bytes, from);
    start_of(bytes, end, Class::Closing).max(from.saturating_add(1))
}

/// Proposes to write an apostrophe within a string twice, if there is one.
pub(crate) fn double_apostrophe(cx: &Context<'_>, to: &mut Telling) {
    let Some(at) = inner_apostrophe(cx.bytes, cx.place.from as usize) else {
        return;
    };
    to.note(joined(cx, &["an apostrophe within a string is written twice"]));
    let is_escaped = byte_before(cx.bytes, at) == b'\\';
    let from = if is_escaped { at.saturating_sub(1) } else { at };
    exchange(cx, to, 0, span_at(from, at.saturating_add(1)), "''");
}

/// Proposes two points instead of the one of a real number that is meant as a bound.
pub(crate) fn exchange_point(cx: &Context<'_>, to: &mut Telling) {
    let from = cx.place.from as usize;
    let point = end_of(cx.bytes, from, Class::Digit);
    let behind = point.saturating_add(1);
    let end = end_of(cx.bytes, behind, Class::Digit);
    if byte_at(cx.bytes, point) == b'.' && !is_in(Class::Name, byte_at(cx.bytes, end)) {
        let first = shown_from(cx, from, Class::Digit);
        let last = shown_from(cx, behind, Class::Digit);
        exchange_text(cx, to, span_at(from, end), joined(cx, &[first, "..", last]));
    }
}

/// Proposes to double the apostrophe that ended the string before the place, and to add one after what follows.
pub(crate) fn propose_closed(cx: &Context<'_>, to: &mut Telling) {
    let last = cx.span(cx.at.saturating_sub(1)).to;
    let from = last.saturating_sub(1);
    let end = before_signs(cx.bytes, cx.place.from as usize);
    let at = span_at(end, end);
    let mut words = joined(cx, &["write `''` instead of `'` at "]);
    words.put_place(cx.bytes, from);
    words.put_all(&[", and put `'` after `", word_before(cx, end), "` at "]);
    words.put_place(cx.bytes, at.from);
    to.propose(cx.alloc, 0, words);
    to.change(Span { from, to: last }, joined(cx, &["''"]));
    to.change(at, joined(cx, &["'"]));
}

// Whether the token before the place begins at an offset, and is a name that the text seems to declare.
fn names_value(cx: &Context<'_>, start: usize) -> bool {
    let name = cx.at.saturating_sub(1);
    cx.is_of(name, &[Kind::Name]) && cx.span(name).from as usize == start && cx.seems_declared(name)
}

/// Proposes an apostrophe before what a string that seems to begin too late has before it; after a name that the text
/// seems to declare, the text without the apostrophe.
pub(crate) fn open_earlier(cx: &Context<'_>, to: &mut Telling) {
    let from = cx.place.from as usize;
    let behind = start_of(cx.bytes, from, Class::Item);
    let is_listed = matches!(byte_before(cx.bytes, behind), b'(' | b',');
    if !is_in(Class::Name, byte_before(cx.bytes, from)) || !is_listed {
        return;
    }
    let start = end_of(cx.bytes, behind, Class::Blank);
    if names_value(cx, start) {
        return take_away(cx, to, 0, span_at(from, from.saturating_add(1)));
    }
    let word = shown_from(cx, start, Class::Name);
    let words = ["put `'` before `", word, "` at "];
    add_change(cx, to, 0, span_at(start, start), "'", &words);
}

/// Proposes an apostrophe before the signs that end the line of an open string.
pub(crate) fn close_string(cx: &Context<'_>, to: &mut Telling) {
    let end = before_signs(cx.bytes, cx.place.from as usize);
    put_behind_word(cx, to, 1, end, "'", "'");
}

// The parentheses around an empty string that is the only parameter of `writeln`.
fn alone_in_line(cx: &Context<'_>, end: usize) -> Option<Span> {
    let paren = cx.at.checked_sub(1)?;
    let name = cx.at.checked_sub(2)?;
    let is_alone = cx.is_of(paren, &[Kind::LeftParen]) && byte_at(cx.bytes, end) == b')';
    if !is_alone || !is_named(cx.text(name), &[RequiredName::Writeln]) {
        return None;
    }
    Some(Span {
        from: cx.span(paren).from,
        to: span_at(end, end.saturating_add(1)).to,
    })
}

/// Proposes to take a string without a character away, or a space in it.
pub(crate) fn fill_string(cx: &Context<'_>, to: &mut Telling) {
    let from = cx.place.from as usize;
    let end = from.saturating_add(2);
    if let Some(span) = alone_in_line(cx, end) {
        take_away(cx, to, 0, span);
    }
    exchange(cx, to, 1, span_at(from, end), "' '");
}

/// Proposes what separates the word at the place from the number before it.
pub(crate) fn separate(cx: &Context<'_>, to: &mut Telling) {
    let from = cx.place.from;
    let at = Span { from, to: from };
    let word = shown_from(cx, from as usize, Class::Name);
    add_change(cx, to, 1, at, "*", &["put `*` before `", word, "` at "]);
    add_change(cx, to, 0, at, " ", &["put a space before `", word, "` at "]);
}

// The two slashes before the place in its line, after which other languages have a comment.
fn slashes_before(cx: &Context<'_>) -> Option<usize> {
    let first = start_of(cx.bytes, cx.place.from as usize, Class::Line);
    for at in (0..cx.at).rev() {
        if (cx.span(at).from as usize) < first {
            return None;
        }
        let are_slashes = cx.is_of(at, &[Kind::Slash])
            && cx.is_of(at.saturating_add(1), &[Kind::Slash]);
        if are_slashes && cx.touches_next(at) {
            return Some(at);
        }
    }
    None
}

/// What is reported in addition if there are two slashes before the place.
pub(crate) fn comment_of_line(cx: &Context<'_>, to: &mut Telling) {
    let Some(at) = slashes_before(cx) else {
        return;
    };
    to.draft.trials.clear();
    to.draft.notes.clear();
    let span = cx.span_of(at, at.saturating_add(1));
    to.label(span, joined(cx, &["`//` does not begin a comment"]));
    advise(cx, to, Part::Statements, "/ /");
    exchange_slashes(cx, to);
}
