//! What is reported for a missing `until`, constant or operator, and for the beginning of a construction that lacks a
//! word or a sign.

use crate::context::Context;
use crate::kinds::{BEGINS_STATEMENT, ENDS_VALUE};
use crate::rule::Place::{
    Back, BehindEnd, Chosen, ExpressionEnd, Here, NextChoice, NextEnd, NextUntil, Start, Top,
};
use crate::rule::Reach::One;
use crate::rule::Step::{
    Also, Enclose, Has, Help, Holds, InBody, InHead, Is, IsNot, Label, No, NotBefore, Or, Put,
    PutBefore, Rule, Same, Tell, Token, Why,
};
use crate::rule::{Fact, More, Steps};
use crate::tests::first_of;
use ps_scan::Kind;

// Loops, and `with`.
const LOOPS: &[Kind] = &[Kind::While, Kind::For, Kind::With];

/// What is reported if there is a comment instead of statements.
pub(crate) const BRACES: &str =
    "anything between `{` and `}` is a comment; statements go between `begin` and `end`";

// What began the construction that is not closed by a sign.
const NO_PARENTHESIS: Steps = &[
    Rule,
    Is(Top, &[Kind::LeftParen]),
    Label(One(Top), "this `"),
    Token(Top),
    Put("` is not closed"),
];

const NO_BRACKET: Steps = &[
    Rule,
    Is(Top, &[Kind::LeftBracket]),
    Label(One(Top), "this `"),
    Token(Top),
    Put("` is not closed"),
];

// What began the construction that no `end` ends.
const NO_END: Steps = &[
    Rule,
    Is(Top, &[Kind::Begin, Kind::Case, Kind::Record]),
    Label(One(Top), "this `"),
    Token(Top),
    Put("` is not ended"),
];

// What began the construction that lacks a word or a sign of its head; also, if there is a comment instead of
// statements.
const NO_THEN: Steps = &[
    Rule,
    InHead(&[Kind::If]),
    Label(One(Top), "the `then` of this `"),
    Token(Top),
    Put("`"),
    Also,
    Holds(Fact::Brace),
    Help(BRACES),
];

const NO_OF: Steps = &[
    Rule,
    InHead(&[Kind::Case]),
    Label(One(Top), "the `of` of this `"),
    Token(Top),
    Put("`"),
];

const NO_DO: Steps = &[
    Rule,
    InHead(LOOPS),
    Label(One(Top), "the `do` of this `"),
    Token(Top),
    Put("`"),
    Also,
    Holds(Fact::Brace),
    Help(BRACES),
];

const NO_TO: Steps = &[
    Rule,
    InHead(LOOPS),
    Label(One(Top), "the `to` of this `"),
    Token(Top),
    Put("`"),
];

const NO_ASSIGN: Steps = &[
    Rule,
    InHead(LOOPS),
    Label(One(Top), "the `:=` of this `"),
    Token(Top),
    Put("`"),
];

// What may begin a statement that follows another one.
const BEGINS: &[Kind] = &[
    Kind::Name,
    Kind::Begin,
    Kind::If,
    Kind::While,
    Kind::For,
    Kind::Repeat,
    Kind::Case,
    Kind::With,
];

// What is missing, seen from what comes after the place.
const IN_STATEMENTS: Steps = &[
    // `repeat a b`, and no `until` after it
    Rule,
    Is(Top, &[Kind::Repeat]),
    Is(Here, BEGINS),
    Is(Back(1), ENDS_VALUE),
    NotBefore(NextUntil, NextEnd),
    Or,
    Is(Top, &[Kind::Repeat]),
    Is(Here, BEGINS),
    Is(Back(1), &[Kind::End]),
    NotBefore(NextUntil, NextEnd),
    Why("`;` or the `until` of a `repeat` is missing before it"),
    Label(One(Top), "the `repeat`"),
    Help("a `repeat` ends with `until` and a condition"),
    Tell(More::Words),

    // A statement in a `case` without a constant before it.

    // `case n of 1: a; b`
    Rule,
    InBody(&[Kind::Case]),
    Same(Start, Here),
    Is(Here, BEGINS_STATEMENT),
    Or,
    InBody(&[Kind::Case]),
    Same(Start, Here),
    Is(Here, &[Kind::Begin]),
    Or,
    Holds(Fact::BehindConstant),
    Is(Back(1), &[Kind::Name]),
    Is(
        Here,
        &[
            Kind::Assign,
            Kind::LeftParen,
            Kind::LeftBracket,
            Kind::Semicolon,
            Kind::Caret,
        ],
    ),
    Why("in a `case`, constants and `:` come before a statement"),
    Help("put several statements of one constant between `begin` and `end`"),
    Also,
    No(NextChoice),
    Is(BehindEnd, &[Kind::Dot]),
    Label(One(Top), "this `case` is not ended"),
    PutBefore(Start, "end;", "end; "),
    Also,
    No(NextChoice),
    IsNot(BehindEnd, &[Kind::Dot]),
    Label(One(Top), "the `case`"),
    PutBefore(Start, "end;", "end; "),
    Enclose(Chosen, NextEnd),
    Also,
    Has(NextChoice),
    Label(One(Top), "the `case`"),
    Enclose(Chosen, NextChoice),

    // `if a b then`
    Rule,
    InHead(&[Kind::If, Kind::While]),
    Is(Back(1), ENDS_VALUE),
    Is(
        Here,
        &[Kind::Name, Kind::Number, Kind::Text, Kind::Nil, Kind::Not],
    ),
    Is(ExpressionEnd, &[Kind::Then, Kind::Do]),
    Holds(Fact::OneLine),
    Why("an operator is missing before it"),
];

/// The rule for the beginning of the construction that lacks a word or a sign at the place.
pub(crate) fn rule_of_missing(cx: &Context<'_>, token: &str) -> Option<Steps> {
    let rules = match token {
        ")" => NO_PARENTHESIS,
        "]" => NO_BRACKET,
        "end" => NO_END,
        "then" => NO_THEN,
        "of" => NO_OF,
        "do" => NO_DO,
        "to" => NO_TO,
        ":=" => NO_ASSIGN,
        _ => return None,
    };
    first_of(cx, rules)
}

/// The first rule that fits, of those for what is missing, seen from what comes after the place.
pub(crate) fn in_statements(cx: &Context<'_>) -> Option<Steps> {
    first_of(cx, IN_STATEMENTS)
}
