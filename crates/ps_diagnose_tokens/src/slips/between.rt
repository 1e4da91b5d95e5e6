//! Rules for what is missing between two values, statements or parameters, or is written there instead of another sign.

use crate::context::Context;
use crate::kinds::ENDS_VALUE;
use crate::rule::Place::{
    Ahead, Assigned, Back, BeforeTop, FirstComparison, Here, NextAssign, NextExpressionEnd, Start,
    Top, TopEnd, WordsEnd,
};
use crate::rule::Reach::{Between, One, To, UpTo};
use crate::rule::Step::{
    Also, Exchange, Expects, Fails, Has, Help, Holds, InBody, InHead, Is, IsNot, IsShown, Names,
    No, Or, Put, PutBehind, Rule, Same, SeemsDeclared, Spelled, TakeAway, Tell, Token, Tokens, Why,
};
use crate::rule::{Fact, More, Steps};
use crate::tests::first_of;
use ps_diagnose::RequiredName;
use ps_scan::Kind;

// Required functions with a parameter.
const FUNCTIONS: &[RequiredName] = &[
    RequiredName::Abs,
    RequiredName::Sqr,
    RequiredName::Odd,
    RequiredName::Chr,
    RequiredName::Ord,
    RequiredName::Succ,
    RequiredName::Pred,
];

// What comes between parameters, and around them.
const OF_PARAMETERS: Steps = &[
    // `abs n`
    Rule,
    Is(Here, &[Kind::Name, Kind::Number, Kind::Text]),
    Names(Back(1), FUNCTIONS),
    IsNot(Back(2), &[Kind::Dot]),
    Holds(Fact::Statements),
    Holds(Fact::OneLine),
    // `f n`
    Or,
    Is(Here, &[Kind::Name, Kind::Number, Kind::Text]),
    Holds(Fact::Function),
    Has(Assigned),
    Holds(Fact::Statements),
    Holds(Fact::OneLine),
    Or,
    Is(Here, &[Kind::Name, Kind::Number, Kind::Text]),
    Holds(Fact::Function),
    Holds(Fact::Inside),
    Holds(Fact::Statements),
    Holds(Fact::OneLine),
    Why("a parameter is written between `(` and `)`"),
    Exchange(To(Back(1), Here), ""),
    Token(Back(1)),
    Put("("),
    Token(Here),
    Put(")"),

    // `writeln(a b)`
    Rule,
    Is(Here, &[Kind::Name]),
    Is(Back(1), &[Kind::Name]),
    Is(Top, &[Kind::LeftParen]),
    Is(BeforeTop, &[Kind::Name]),
    Holds(Fact::Statements),
    Holds(Fact::OneLine),
    SeemsDeclared(Here),
    SeemsDeclared(Back(1)),
    Why("`,` is missing before it"),
    PutBehind(0, Back(1), ",", ","),

    // `writeln(a dvi 2)`
    Rule,
    Is(Here, &[Kind::Name]),
    Is(Back(1), &[Kind::Name]),
    Is(Top, &[Kind::LeftParen]),
    Holds(Fact::Statements),
    SeemsDeclared(Back(1)),
    Expects("`"),
    Token(Here),
    Put("` cannot stand here"),
    Tell(More::Words),

    // `writeln(hello world)`
    Rule,
    Is(Here, &[Kind::Name]),
    Is(Back(1), &[Kind::Name]),
    Is(Top, &[Kind::LeftParen]),
    Names(BeforeTop, &[RequiredName::Write, RequiredName::Writeln]),
    Holds(Fact::OneLine),
    Why("a string is written between apostrophes"),
    Also,
    Is(TopEnd, &[Kind::RightParen]),
    IsShown(Between(Top, WordsEnd)),
    Exchange(Between(Top, WordsEnd), "'"),
    Tokens(Between(Top, WordsEnd)),
    Put("'"),
    Tell(More::Words),
];

// What comes between statements, and in conditions.
const OF_STATEMENTS: Steps = &[
    // `a := 1, b := 2`
    Rule,
    Is(Here, &[Kind::Comma, Kind::Colon, Kind::Dot]),
    Holds(Fact::Statements),
    Fails(Fact::Inside),
    Has(Assigned),
    Is(Back(1), ENDS_VALUE),
    Is(Ahead(1), BEHIND_STATEMENT),
    Why("`;` goes between two statements"),
    Exchange(One(Here), ";"),

    // `set a := 1`
    Rule,
    Is(Here, &[Kind::Set]),
    Is(Ahead(1), &[Kind::Name]),
    Holds(Fact::Statements),
    Same(Start, Here),
    Why("an assignment needs no word before it"),
    TakeAway(0, One(Here)),

    // `if n = 1, 2 then`
    Rule,
    Is(Here, &[Kind::Comma]),
    InHead(&[Kind::If, Kind::While]),
    Is(Back(1), ENDS_VALUE),
    Why("a condition is one value"),
    Help("compare values one by one, with `or` between, or all at once with `in [1, 2]`"),
    Also,
    Is(FirstComparison, &[Kind::Equal]),
    IsShown(Between(FirstComparison, NextExpressionEnd)),
    Exchange(UpTo(FirstComparison, NextExpressionEnd), "in ["),
    Tokens(Between(FirstComparison, NextExpressionEnd)),
    Put("]"),

    // `if (a then)`
    Rule,
    Is(Here, &[Kind::Then, Kind::Do]),
    Is(Top, &[Kind::LeftParen]),
    Is(Ahead(1), &[Kind::RightParen]),
    Is(Back(1), ENDS_VALUE),
    Why("it comes after the `)`"),
    Exchange(To(Here, Ahead(1)), ") "),
    Token(Here),
];

// What comes between operands, and characters without apostrophes.
const OF_OPERANDS: Steps = &[
    // `n := 10 : 2`
    Rule,
    Is(Here, &[Kind::Colon]),
    Is(Ahead(1), &[Kind::Number]),
    Is(Back(1), ENDS_VALUE),
    Holds(Fact::Statements),
    Fails(Fact::Inside),
    Has(Assigned),
    No(NextAssign),
    Why("a quotient is written with `div`"),
    Exchange(One(Here), "div"),

    // `n := n x m`
    Rule,
    Spelled(Here, "x"),
    Is(Back(1), ENDS_VALUE),
    Is(Ahead(1), &[Kind::Name, Kind::Number]),
    Holds(Fact::Statements),
    Holds(Fact::OneLine),
    Has(Assigned),
    No(NextAssign),
    Why("a product is written with `*`"),
    Exchange(One(Here), "*"),

    // `for := 1 to 10`
    Rule,
    Is(Here, &[Kind::Assign]),
    Is(Back(1), &[Kind::For]),
    Why("the variable that counts is missing before it"),

    // `case c of +: a`, `if c = + then`
    Rule,
    Holds(Fact::BehindConstant),
    Is(Here, &[Kind::Colon, Kind::Comma]),
    Is(Back(1), &[Kind::Plus, Kind::Minus]),
    Or,
    Holds(Fact::Statements),
    Is(Here, &[Kind::Then, Kind::Do, Kind::RightParen]),
    Is(Back(1), &[Kind::Plus, Kind::Minus]),
    Is(Back(2), &[Kind::Equal, Kind::NotEqual]),
    Why("a character is written between apostrophes"),
    Exchange(One(Back(1)), "'"),
    Token(Back(1)),
    Put("'"),

    // `case c of *: a`, `if c = * then`
    Rule,
    InBody(&[Kind::Case]),
    Same(Start, Here),
    Is(Here, &[Kind::Star, Kind::Slash]),
    Is(Ahead(1), &[Kind::Colon, Kind::Comma]),
    Or,
    Holds(Fact::Statements),
    Is(Here, &[Kind::Star, Kind::Slash]),
    Is(Back(1), &[Kind::Equal, Kind::NotEqual]),
    Is(Ahead(1), &[Kind::Then, Kind::Do, Kind::RightParen]),
    Why("a character is written between apostrophes"),
    Exchange(One(Here), "'"),
    Token(Here),
    Put("'"),
];

// What begins a statement after another one, or comes after the last one.
const BEHIND_STATEMENT: &[Kind] = &[
    Kind::Name,
    Kind::Begin,
    Kind::If,
    Kind::While,
    Kind::For,
    Kind::Repeat,
    Kind::Case,
    Kind::With,
    Kind::End,
];

/// The first rule that fits of those for what comes between.
pub(super) fn of_what_is_between(cx: &Context<'_>) -> Option<Steps> {
    first_of(cx, OF_PARAMETERS)
        .or(first_of(cx, OF_STATEMENTS))
        .or(first_of(cx, OF_OPERANDS))
}
