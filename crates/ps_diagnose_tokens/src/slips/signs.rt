//! Rules for what is written among statements instead of another sign or word, or is superfluous.

use crate::context::Context;
use crate::kinds::{BEFORE_OPERAND, BEGINS_STATEMENT, ENDS_VALUE};
use crate::rows::Part;
use crate::rule::Place::{Ahead, Back, BeforeTop, Here, Innermost, Start, Top};
use crate::rule::Reach::{One, To};
use crate::rule::Step::{
    Advice, Also, Exchange, Fails, Help, Holds, InBody, InHead, Is, IsNot, Label, No, Or, Put,
    Rule, Same, TakeAway, Token, Touches, Why,
};
use crate::rule::{Fact, Steps};
use crate::tests::first_of;
use ps_scan::Kind;

// The heads of statements, and what comes after `:=`.
const OF_HEADS: Steps = &[
    // `while a; do`
    Rule,
    Is(Here, &[Kind::Semicolon]),
    Is(Ahead(1), &[Kind::Do, Kind::Then, Kind::Of]),
    InHead(HEADED),
    Why("no `;` goes before `"),
    Token(Ahead(1)),
    Put("`"),
    TakeAway(0, One(Here)),

    // `until a do`
    Rule,
    Is(Here, &[Kind::Do, Kind::Then]),
    Is(Start, &[Kind::Until]),
    Is(Back(1), ENDS_VALUE),
    Why("only a condition comes after `until`"),
    Also,
    Is(Ahead(1), &[Kind::Semicolon, Kind::End]),
    TakeAway(0, One(Here)),
    Also,
    IsNot(Ahead(1), &[Kind::Semicolon, Kind::End]),
    Exchange(One(Here), ";"),

    // `a :=`, and a statement on the next line
    Rule,
    Is(Here, BEGINS_STATEMENT),
    Is(Back(1), &[Kind::Assign]),
    Fails(Fact::OneLine),
    Why("a value is missing before it"),

    // `a := if b`
    Rule,
    Is(Here, &[Kind::If]),
    Is(Back(1), &[Kind::Assign]),
    Why("an `if` is a statement, and has no value"),
    Help("assign in both parts: `if i > j then n := i else n := j`"),

    // `a := case b of`
    Rule,
    Is(Here, &[Kind::Case]),
    Is(Back(1), &[Kind::Assign]),
    Why("a `case` is a statement, and has no value"),
    Help("assign in each part of it"),
];

// Pointers, indices, bounds and numbers.
const OF_COMPONENTS: Steps = &[
    // `^a := 1`, `*a := 1`
    Rule,
    Is(Here, &[Kind::Caret, Kind::Star]),
    Is(Ahead(1), &[Kind::Name]),
    Holds(Fact::Statements),
    Same(Start, Here),
    Or,
    Is(Here, &[Kind::Caret]),
    Is(Ahead(1), &[Kind::Name]),
    Holds(Fact::Statements),
    Is(Back(1), BEFORE_OPERAND),
    Or,
    Is(Here, &[Kind::Star]),
    Is(Ahead(1), &[Kind::Name]),
    Holds(Fact::Statements),
    Is(Back(1), &[Kind::Assign, Kind::Comma]),
    Why("what a pointer points to is `"),
    Token(Ahead(1)),
    Put("^`"),
    Exchange(To(Here, Ahead(1)), ""),
    Token(Ahead(1)),
    Put("^"),

    // `a.1`
    Rule,
    Is(Here, &[Kind::Number]),
    Is(Back(1), &[Kind::Dot]),
    Is(Back(2), ENDS_VALUE),
    Holds(Fact::Statements),
    Why("an index is written between `[` and `]`"),
    Exchange(To(Back(1), Here), "["),
    Token(Here),
    Put("]"),

    // `a[]`
    Rule,
    Is(Here, &[Kind::RightBracket]),
    Is(Back(1), &[Kind::LeftBracket]),
    Holds(Fact::Statements),
    Why("an index is missing before it"),

    // `1...3`
    Rule,
    Is(Here, &[Kind::Dot]),
    Is(Back(1), &[Kind::DotDot]),
    Why("`..` goes between two bounds"),
    TakeAway(0, One(Here)),

    // `.5`
    Rule,
    Is(Here, &[Kind::Dot]),
    Is(Ahead(1), &[Kind::Number]),
    Touches(Here),
    IsNot(Back(1), ENDS_VALUE),
    Why("this compiler has no real numbers"),
    Advice(Part::StatementsLeftOut, "1 . 5"),
];

// The constants of a `case`, and signs that do not belong where they are.
const OF_CONSTANTS: Steps = &[
    // `a => 1`
    Rule,
    Is(Here, &[Kind::Equal]),
    Is(Ahead(1), &[Kind::Greater]),
    Touches(Here),
    Holds(Fact::Statements),
    Holds(Fact::BehindVariable),
    Why("an assignment is `:=`"),
    Exchange(To(Here, Ahead(1)), ":="),

    // `case n of 1 => a`
    Rule,
    Holds(Fact::BehindConstant),
    Is(Here, &[Kind::Equal, Kind::Minus]),
    Is(Ahead(1), &[Kind::Greater]),
    Touches(Here),
    Why("`:` comes after the constants of a `case`"),
    Exchange(To(Here, Ahead(1)), ":"),

    // `case n of 1; 2: a`
    Rule,
    Holds(Fact::BehindConstant),
    Is(Here, &[Kind::Semicolon]),
    Is(Back(1), &[Kind::Number, Kind::Text]),
    Is(Ahead(2), &[Kind::Colon, Kind::Comma]),
    Why("`,` goes between the constants of a `case`"),
    Exchange(One(Here), ","),

    // `case n of case 1: a`
    Rule,
    InBody(&[Kind::Case]),
    Same(Start, Here),
    Is(Here, &[Kind::Case]),
    Is(Ahead(2), &[Kind::Colon, Kind::Comma]),
    Why("the constants of a `case` are written without it"),
    TakeAway(0, One(Here)),

    // `case n of begin 1: a`
    Rule,
    Is(Here, &[Kind::Begin]),
    Is(Back(1), &[Kind::Of]),
    Is(Top, &[Kind::Case]),
    Why("a `case` has no `begin`"),
    Label(One(Top), "the `case`"),
    TakeAway(0, One(Here)),

    // `p(a := 1)`
    Rule,
    Is(Here, &[Kind::Assign]),
    Holds(Fact::Statements),
    Is(Top, &[Kind::LeftParen]),
    Is(BeforeTop, &[Kind::Name]),
    Is(Back(1), &[Kind::Name]),
    Is(Back(2), &[Kind::LeftParen, Kind::Comma]),
    Why("parameters are given by their order, without names"),
    TakeAway(0, To(Back(1), Here)),

    // `for a[1] := 1 to 3`
    Rule,
    InHead(&[Kind::For]),
    Is(Here, &[Kind::LeftBracket, Kind::Dot, Kind::Caret]),
    Same(Back(2), Top),
    Why("a `for` counts with a whole variable, not with a part of one"),
    Help("declare a variable for it, and assign that within the loop"),

    // `(* a } *)`
    Rule,
    Is(Here, &[Kind::Star]),
    Is(Ahead(1), &[Kind::RightParen]),
    Touches(Here),
    No(Innermost(Kind::LeftParen)),
    Why("there is no open comment for `*)` to end"),
    Help("a comment ends at its first `}` or `*)`, even if another one begins inside it"),
];

// What has a head.
const HEADED: &[Kind] = &[Kind::If, Kind::While, Kind::For, Kind::With, Kind::Case];

/// The first rule that fits of those of signs and words.
pub(super) fn of_signs(cx: &Context<'_>) -> Option<Steps> {
    first_of(cx, OF_HEADS)
        .or(first_of(cx, OF_COMPONENTS))
        .or(first_of(cx, OF_CONSTANTS))
}
