//! What is reported for a byte that begins no token.

use crate::context::Context;
use crate::letters::{Class, byte_at, byte_before, end_of, is_in, letter_at, span_at};
use crate::rows::Part;
use crate::rule::Place::{Back, Here};
use crate::rule::Reach::One;
use crate::rule::Step::{
    Advice, Byte, Code, ExchangeSign, Fails, Has, Help, Holds, Is, IsSign, Letter, Or, Origin, Put,
    Rule, Says, Stands, TakeAway, Tell,
};
use crate::rule::{Fact, More, Steps};
use crate::table::{SIGNS_OF_PROGRAMS, SIGNS_OF_STATEMENTS};
use crate::tell::{exchange, exchange_text, joined, shown};
use crate::tests::first_of;
use ps_diagnose::{Telling, Text};
use ps_scan::Kind;

/// What a sign that begins no token is.
#[derive(Clone, Copy, PartialEq, Eq)]
pub(crate) enum Sign {
    SlantedQuote,
    SlantedDouble,
    DoubleQuote,
    Underscore,
    Space,
    Dash,
    Letter,
    Control,
    Other,
}

// What a sign is, by its number.
fn sign_of(letter: char) -> Sign {
    match letter {
        '\u{2018}'..='\u{201B}' | '\u{2032}' | '\u{B4}' | '\u{60}' => Sign::SlantedQuote,
        '\u{201C}'..='\u{201F}' | '\u{AB}' | '\u{BB}' => Sign::SlantedDouble,
        '"' => Sign::DoubleQuote,
        '_' => Sign::Underscore,
        '\u{A0}' | '\u{2000}'..='\u{200B}' | '\u{202F}' | '\u{3000}' | '\u{FEFF}' => Sign::Space,
        '\u{2010}'..='\u{2015}' | '\u{2212}' => Sign::Dash,
        '\0'..='\u{1F}' | '\u{7F}'..='\u{9F}' => Sign::Control,
        '\u{200C}'..='\u{200F}' | '\u{202A}'..='\u{202E}' | '\u{2060}'..='\u{206F}' =>
            Sign::Control,
        _ if letter.is_alphabetic() => Sign::Letter,
        _ => Sign::Other,
    }
}

// The first character of a text.
fn letter_of(text: &str) -> char {
    match text.chars().next() {
        Some(letter) => letter,
        None => '\0',
    }
}

/// The character at the place, as it is written; nothing if the bytes there are not a character.
pub(crate) fn letter_here<'a>(cx: &Context<'a>) -> &'a str {
    letter_at(cx.bytes, cx.place.from as usize).unwrap_or("")
}

/// What the sign at the place is.
pub(crate) fn sign_here(cx: &Context<'_>) -> Sign {
    sign_of(letter_of(letter_here(cx)))
}

// Quotes, underscores, spaces, dashes, letters, bytes that are not signs, and comments after `#`.
const KNOWN: Steps = &[
    // quotes of typography
    Rule,
    IsSign(Sign::SlantedQuote),
    Or,
    IsSign(Sign::SlantedDouble),
    Says("the slanted quote `"),
    Letter,
    Put("` ("),
    Code,
    Put(") is not an apostrophe"),
    Tell(More::Quotes),

    // `"`
    Rule,
    IsSign(Sign::DoubleQuote),
    Says("`\"` is not used in standard Pascal: it comes from "),
    Origin(Part::Statements, "\""),
    Advice(Part::Statements, "\""),
    Tell(More::Quotes),

    // `my_name`
    Rule,
    IsSign(Sign::Underscore),
    Says("a name has only letters and digits, and no `_`"),
    Advice(Part::Statements, "_"),
    Tell(More::Underscores),

    // spaces of another kind
    Rule,
    IsSign(Sign::Space),
    Says("this is a space of another kind ("),
    Code,
    Put(")"),
    Tell(More::Spaces),

    // dashes of typography
    Rule,
    IsSign(Sign::Dash),
    Says("the dash `"),
    Letter,
    Put("` ("),
    Code,
    Put(") is not a minus sign"),
    Tell(More::Minus),

    // letters that can't be in a name
    Rule,
    IsSign(Sign::Letter),
    Says("`"),
    Letter,
    Put("` ("),
    Code,
    Put(") cannot be part of a name"),
    Help("names are made of the letters a to z and of digits"),

    // `a$`
    Rule,
    Stands("$"),
    Holds(Fact::BehindLetter),
    Says("a name has only letters and digits, and no `$`"),
    Help("choose another name"),

    // `read(&a)`
    Rule,
    Stands("&"),
    Is(Back(1), &[Kind::LeftParen, Kind::Comma]),
    Says("`&` is not used in standard Pascal: it comes from C"),
    Help("A `var` parameter takes the variable itself."),
    TakeAway(0, One(Here)),

    // controls, and bytes that are not characters
    Rule,
    IsSign(Sign::Control),
    Says("the byte "),
    Byte,
    Put(" cannot stand here"),

    // `# a comment`
    Rule,
    Stands("# "),
    Or,
    Stands("#"),
    Has(Back(1)),
    Fails(Fact::Digit),
    Says("`#` is not used in standard Pascal: it comes from Python"),
    Help("A comment is written between `{` and `}`."),
    Tell(More::Hash),
];

// Signs of mathematics, the end of a comment, and all other signs.
const OTHERS: Steps = &[
    // `}` after a comment that ended before
    Rule,
    Stands("}"),
    Says("there is no open comment for this `}` to end"),
    Help("a comment ends at its first `}` or `*)`, even if another one begins inside it"),

    // the sign of less or equal
    Rule,
    Stands("\u{2264}"),
    Says("`\u{2264}` is not used in standard Pascal"),
    ExchangeSign("\u{2264}", "<="),

    // the sign of greater or equal
    Rule,
    Stands("\u{2265}"),
    Says("`\u{2265}` is not used in standard Pascal"),
    ExchangeSign("\u{2265}", ">="),

    // the sign of not equal
    Rule,
    Stands("\u{2260}"),
    Says("`\u{2260}` is not used in standard Pascal"),
    ExchangeSign("\u{2260}", "<>"),

    // the sign of products
    Rule,
    Stands("\u{D7}"),
    Says("`\u{D7}` is not used in standard Pascal"),
    ExchangeSign("\u{D7}", "*"),

    // the sign of quotients
    Rule,
    Stands("\u{F7}"),
    Says("`\u{F7}` is not used in standard Pascal"),
    ExchangeSign("\u{F7}", "div"),

    // another sign
    Rule,
    Says("`"),
    Letter,
    Put("` is not used in standard Pascal"),
];

/// The rule of a byte that begins no token.
pub(crate) fn rule_of_byte(cx: &Context<'_>) -> Option<Steps> {
    let of_table = if cx.tokens.is_empty() {
        SIGNS_OF_PROGRAMS
    } else {
        SIGNS_OF_STATEMENTS
    };
    first_of(cx, KNOWN)
        .or(first_of(cx, of_table))
        .or(first_of(cx, OTHERS))
}

/// Puts the number of the character at the place, as U+2018.
pub(crate) fn put_code(cx: &Context<'_>, out: &mut Text) {
    let code = letter_of(letter_here(cx)) as u32;
    if write!(out.string, "U+{code:04X}").is_err() {
        out.has_failed = true;
    }
}

// The offset of the next sign of a kind in the line, with the sign.
fn next_like<'a>(bytes: &'a [u8], from: usize, sign: Sign) -> Option<(usize, &'a str)> {
    let end = end_of(bytes, from, Class::Line);
    for at in from..end {
        if let Some(text) = letter_at(bytes, at)
            && sign_of(letter_of(text)) == sign
        {
            return Some((at, text));
        }
    }
    None
}

// Puts the replacement of a quote by an apostrophe.
fn put_exchange(cx: &Context<'_>, out: &mut Text, quote: &str, at: usize) {
    out.put_all(&["write `'` instead of `", quote, "` at "]);
    out.put_place(cx.bytes, span_at(at, at).from);
}

// Adds the exchange of a quote by an apostrophe.
fn change_quote(cx: &Context<'_>, to: &mut Telling, quote: &str, at: usize) {
    let span = span_at(at, at.saturating_add(quote.len()));
    to.change(span, joined(cx, &["'"]));
}

/// Proposes apostrophes for the quote at the place and the next of its kind in the line.
pub(crate) fn exchange_quotes(cx: &Context<'_>, to: &mut Telling) {
    let at = cx.place.from as usize;
    let quote = letter_here(cx);
    let second = next_like(cx.bytes, at.saturating_add(quote.len()), sign_here(cx));
    let mut words = Text::new(cx.alloc);
    put_exchange(cx, &mut words, quote, at);
    if let Some((next, other)) = second {
        words.put(", and ");
        put_exchange(cx, &mut words, other, next);
        words.put(words_of_apostrophes(cx, at, next));
    }
    to.propose(cx.alloc, 0, words);
    change_quote(cx, to, quote, at);
    if let Some((next, other)) = second {
        double_between(cx, to, at, next);
        change_quote(cx, to, other, next);
    }
}

// What is reported for the apostrophes between two quotes.
fn words_of_apostrophes(cx: &Context<'_>, from: usize, to: usize) -> &'static str {
    if cx.bytes.get(from..to).unwrap_or(&[]).contains(&b'\'') {
        ", and write each apostrophe between them twice"
    } else {
        ""
    }
}

// Adds the change of each apostrophe between two quotes: it is written twice.
fn double_between(cx: &Context<'_>, to: &mut Telling, from: usize, end: usize) {
    for at in from..end {
        if byte_at(cx.bytes, at) == b'\'' {
            to.change(span_at(at, at.saturating_add(1)), joined(cx, &["''"]));
        }
    }
}

// Whether there is a text at an offset.
fn stands_at(bytes: &[u8], at: usize, text: &str) -> bool {
    bytes.get(at..at.saturating_add(text.len())) == Some(text.as_bytes())
}

// How often a text occurs from the place on.
fn count_of(cx: &Context<'_>, text: &str) -> u32 {
    let mut count: u32 = 0;
    for at in cx.place.from as usize..cx.bytes.len() {
        if stands_at(cx.bytes, at, text) {
            count = count.saturating_add(1);
        }
    }
    count
}

// What is reported for the replacement of this many spaces.
fn words_of_spaces(cx: &Context<'_>, count: u32) -> Text {
    if count <= 1 {
        return joined(cx, &["write a plain space instead"]);
    }
    let mut words = joined(cx, &["write plain spaces instead of it and the others, "]);
    words.put_number(i64::from(count));
    words.put(" in all");
    words
}

/// Proposes plain spaces for all of the kind at the place.
pub(crate) fn exchange_spaces(cx: &Context<'_>, to: &mut Telling) {
    let text = letter_here(cx);
    to.propose(cx.alloc, 0, words_of_spaces(cx, count_of(cx, text)));
    for at in cx.place.from as usize..cx.bytes.len() {
        if stands_at(cx.bytes, at, text) {
            let span = span_at(at, at.saturating_add(text.len()));
            to.change(span, joined(cx, &[" "]));
        }
    }
}

/// Proposes a minus sign for the dash at the place.
pub(crate) fn exchange_dash(cx: &Context<'_>, to: &mut Telling) {
    let at = cx.place.from as usize;
    let end = at.saturating_add(letter_here(cx).len());
    exchange(cx, to, 0, span_at(at, end), "-");
}

// A space if a sign would touch a name.
fn space_beside(byte: u8) -> &'static str {
    if is_in(Class::Name, byte) { " " } else { "" }
}

/// Proposes what replaces a sign, with spaces where it would touch a name.
pub(crate) fn exchange_sign(cx: &Context<'_>, to: &mut Telling, sign: &str, put: &str) {
    let at = cx.place.from as usize;
    let end = at.saturating_add(sign.len());
    let before = space_beside(byte_before(cx.bytes, at));
    let behind = space_beside(byte_at(cx.bytes, end));
    let mut words = joined(cx, &["write `", put, "` instead of `", sign, "` at "]);
    words.put_place(cx.bytes, cx.place.from);
    to.propose(cx.alloc, 0, words);
    let mut spaced = joined(cx, &[before]);
    spaced.put(put);
    spaced.put(behind);
    to.change(span_at(at, end), spaced);
}

/// Proposes `chr(65)` for `#65`.
pub(crate) fn exchange_code(cx: &Context<'_>, to: &mut Telling) {
    let at = cx.place.from as usize;
    let first = at.saturating_add(1);
    let end = end_of(cx.bytes, first, Class::Digit);
    if first == end {
        return;
    }
    let digits = shown(cx.piece(span_at(first, end)));
    exchange_text(cx, to, span_at(at, end), joined(cx, &["chr(", digits, ")"]));
}

/// Proposes the decimal number for `$FF`.
pub(crate) fn exchange_hexadecimal(cx: &Context<'_>, to: &mut Telling) {
    let at = cx.place.from as usize;
    let first = at.saturating_add(1);
    let end = end_of(cx.bytes, first, Class::Hexadecimal);
    let digits = shown(cx.piece(span_at(first, end)));
    let Ok(number) = u32::from_str_radix(digits, 16) else {
        return;
    };
    let mut put = Text::new(cx.alloc);
    put.put_number(i64::from(number));
    exchange_text(cx, to, span_at(at, end), put);
}
