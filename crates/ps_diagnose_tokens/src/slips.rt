//! What is reported for words, signs and operators among statements that are near the right ones.

mod between;
mod signs;
mod values;

use crate::context::Context;
use crate::kinds::{ADDS_OR_MULTIPLIES, COMPARES, ENDS_STATEMENT, ENDS_VALUE, JOINS};
use crate::lists::TRANSPUT;
use crate::rule::Place::{
    Ahead, Assigned, Back, ExpressionEnd, ExpressionStart, First, HeadName, Here, NextAssign,
    Start, Top,
};
use crate::rule::Reach::{Between, One, To, UpTo};
use crate::rule::Step::{
    Alike, Exchange, Expects, Fails, Has, Help, Holds, InHead, Is, IsNot, Label, Names, No, Or,
    Put, PutBefore, Rule, Same, SeemsDeclared, Spelled, TakeAway, Token, Tokens, Touches, Why,
};
use crate::rule::{Fact, Steps};
use crate::tests::first_of;
use ps_scan::Kind;

// What is assigned to, if it is not written as a variable.
const ASSIGNED_TO: Steps = &[
    // `f(n) := 1` in a function `f`
    Rule,
    Is(Here, &[Kind::Assign]),
    Is(Back(1), &[Kind::RightParen]),
    Holds(Fact::Statements),
    Holds(Fact::InFunction),
    No(Assigned),
    Alike(Start, HeadName),
    Why("a function's result is assigned to its name alone"),
    TakeAway(0, To(First(Kind::LeftParen), Back(1))),

    // `a(1) := 2`
    Rule,
    Is(Here, &[Kind::Assign]),
    Is(Back(1), &[Kind::RightParen]),
    Holds(Fact::Statements),
    Fails(Fact::Inside),
    No(Assigned),
    Is(Start, &[Kind::Name]),
    Why("an index is written between `[` and `]`"),
    Exchange(To(First(Kind::LeftParen), Back(1)), "["),
    Tokens(Between(First(Kind::LeftParen), Back(1))),
    Put("]"),

    // `s.add(1)`, `r.a(1)`
    Rule,
    Is(Here, &[Kind::LeftParen]),
    Is(Back(1), &[Kind::Name]),
    Is(Back(2), &[Kind::Dot]),
    Holds(Fact::Statements),
    Why("a field takes no parameters"),
    Help("an index is written between `[` and `]`, and a call has no `.` before its name"),

    // `a, b := 1`
    Rule,
    Is(Here, &[Kind::Comma]),
    Holds(Fact::Statements),
    Holds(Fact::BehindVariable),
    Has(NextAssign),
    Why("a statement assigns to one variable"),
    Help("write a statement for each, with `;` between them"),
];

// Signs and words that do not belong where they are.
const SUPERFLUOUS: Steps = &[
    // `then:`
    Rule,
    Is(Here, &[Kind::Colon]),
    Is(Back(1), BEFORE_STATEMENT),
    Why("a statement comes after `"),
    Token(Back(1)),
    Put("`"),
    TakeAway(0, One(Here)),

    // `1,000`
    Rule,
    Is(Here, &[Kind::Comma]),
    Is(Back(1), &[Kind::Number]),
    Is(Ahead(1), &[Kind::Number]),
    Touches(Back(1)),
    Touches(Here),
    Why("a number has only digits"),
    Exchange(To(Back(1), Ahead(1)), ""),
    Token(Back(1)),
    Token(Ahead(1)),

    // `p(var a)`
    Rule,
    Is(Here, &[Kind::Var]),
    Holds(Fact::Statements),
    Is(Top, &[Kind::LeftParen]),
    Why("it belongs only in the heading"),
    TakeAway(0, One(Here)),

    // `then (writeln)`
    Rule,
    Is(Here, &[Kind::LeftParen]),
    Is(Back(1), BEFORE_STATEMENT),
    Why("a statement is not written in parentheses"),
    Help("put several statements between `begin` and `end`"),
];

// Signs and words of other languages.
const OF_OTHER_LANGUAGES: Steps = &[
    // `while a od`
    Rule,
    InHead(&[Kind::While, Kind::For, Kind::With]),
    Spelled(Here, "od"),
    Expects("`"),
    Token(Here),
    Put("` cannot stand here"),
    Exchange(One(Here), "do"),

    // `down to`
    Rule,
    Spelled(Here, "down"),
    Is(Ahead(1), &[Kind::To]),
    Why("`downto` is one word"),
    Exchange(To(Here, Ahead(1)), "downto"),

    // `for i from 1 to 3`
    Rule,
    InHead(&[Kind::For]),
    Spelled(Here, "from"),
    Same(Back(2), Top),
    Why("a `for` begins with `"),
    Token(Back(1)),
    Put(" := ..`"),
    Exchange(One(Here), ":="),

    // `x == 5;`
    Rule,
    Is(Here, &[Kind::Equal]),
    Is(Ahead(1), &[Kind::Equal]),
    Touches(Here),
    Holds(Fact::Statements),
    Holds(Fact::BehindVariable),
    Why("an assignment is `:=`"),
    Exchange(To(Here, Ahead(1)), ":="),

    // `writeln[x]`
    Rule,
    Is(Here, ENDS_STATEMENT),
    Is(Back(1), &[Kind::RightBracket]),
    Names(Start, TRANSPUT),
    Holds(Fact::Statements),
    Fails(Fact::Inside),
    Why("parameters are written between `(` and `)`"),
    Exchange(To(First(Kind::LeftBracket), Back(1)), "("),
    Tokens(Between(First(Kind::LeftBracket), Back(1))),
    Put(")"),

    // `if a:`
    Rule,
    Is(Here, &[Kind::Colon]),
    InHead(&[Kind::If]),
    Is(Back(1), ENDS_VALUE),
    Why("an `if` has `then`"),
    Label(One(Top), "the `if`"),
    Exchange(One(Here), " then"),

    // `while a:`
    Rule,
    Is(Here, &[Kind::Colon]),
    InHead(&[Kind::While, Kind::For, Kind::With]),
    Is(Back(1), ENDS_VALUE),
    IsNot(Back(2), &[Kind::For]),
    Why("a `"),
    Token(Top),
    Put("` has `do`"),
    Label(One(Top), "the `"),
    Token(Top),
    Put("`"),
    Exchange(One(Here), " do"),
];

// Operators that are missing or written in a wrong way.
const OF_OPERATORS: Steps = &[
    // `2^3`, `x^n`
    Rule,
    Is(Here, &[Kind::Caret]),
    Is(Back(1), &[Kind::Number, Kind::RightParen]),
    Is(Ahead(1), &[Kind::Name, Kind::Number, Kind::LeftParen]),
    Holds(Fact::Statements),
    Or,
    Is(Here, &[Kind::Number]),
    Is(Back(1), &[Kind::Caret]),
    Is(Back(2), ENDS_VALUE),
    Or,
    Is(Here, &[Kind::Name]),
    Is(Back(1), &[Kind::Caret]),
    Is(Back(2), &[Kind::Name]),
    Holds(Fact::OneLine),
    SeemsDeclared(Here),
    Is(
        Ahead(1),
        &[
            Kind::Semicolon,
            Kind::End,
            Kind::RightParen,
            Kind::Star,
            Kind::Plus,
            Kind::Minus,
        ],
    ),
    Why("there is no operator for powers"),
    Help("multiply, in a loop if needed; the square is `sqr(i)`"),

    // `2 a`, `2 (a + 1)`
    Rule,
    Is(Here, &[Kind::Name]),
    Is(Back(1), &[Kind::Number, Kind::RightParen]),
    Holds(Fact::Statements),
    Holds(Fact::OneLine),
    SeemsDeclared(Here),
    Has(Assigned),
    No(NextAssign),
    IsNot(Ahead(1), &[Kind::LeftParen]),
    Or,
    Is(Here, &[Kind::LeftParen]),
    Is(Back(1), &[Kind::Number, Kind::RightParen]),
    Holds(Fact::Statements),
    Has(Assigned),
    Is(Ahead(1), &[Kind::Name, Kind::Number, Kind::LeftParen]),
    Why("an operator is missing before it"),
    Help("a product is written with `*`"),
    PutBefore(Here, "*", "* "),

    // `3 * -2`
    Rule,
    Is(Here, &[Kind::Plus, Kind::Minus]),
    Is(Back(1), ADDS_OR_MULTIPLIES),
    Is(Ahead(1), &[Kind::Name, Kind::Number]),
    Holds(Fact::Statements),
    Why("after an operator, a sign needs parentheses"),
    Exchange(To(Here, Ahead(1)), "("),
    Token(Here),
    Token(Ahead(1)),
    Put(")"),

    // `x > 1 and < 5`
    Rule,
    Is(Here, COMPARES),
    Is(Back(1), JOINS),
    Holds(Fact::Statements),
    Why("a value is missing before it"),
    Help("each comparison has two sides: `(a > 1) and (a < 5)`"),

    // `x not in s`
    Rule,
    Is(Here, &[Kind::Not]),
    Is(Ahead(1), &[Kind::In]),
    Holds(Fact::Statements),
    Why("`not` comes before the whole comparison"),
    Exchange(UpTo(ExpressionStart, ExpressionEnd), "not ("),
    Tokens(UpTo(ExpressionStart, Here)),
    Put(" "),
    Tokens(Between(Here, ExpressionEnd)),
    Put(")"),
];

// What comes before a statement.
const BEFORE_STATEMENT: &[Kind] = &[Kind::Then, Kind::Do, Kind::Else, Kind::Begin, Kind::Repeat];

/// The first rule that fits of those of words, signs and operators.
pub(crate) fn in_statements(cx: &Context<'_>) -> Option<Steps> {
    first_of(cx, ASSIGNED_TO)
        .or(first_of(cx, SUPERFLUOUS))
        .or(first_of(cx, OF_OTHER_LANGUAGES))
        .or(first_of(cx, OF_OPERATORS))
}

/// The first rule that fits, of those for further words and signs.
pub(crate) fn further(cx: &Context<'_>) -> Option<Steps> {
    signs::of_signs(cx)
        .or(between::of_what_is_between(cx))
        .or(values::of_values(cx))
}
