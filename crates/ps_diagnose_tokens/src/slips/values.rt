//! Rules for operators in a wrong place, parameters without parentheses, and values that are not statements.

use crate::context::Context;
use crate::kinds::{ADDS_OR_MULTIPLIES, BEFORE_OPERAND, COMPARES, ENDS_STATEMENT, ENDS_VALUE};
use crate::rule::Place::{
    Ahead, Back, BeforeTop, ExpressionEnd, HeadName, Here, NextAssign, Start, StatementEnd, Top,
    TopEnd,
};
use crate::rule::Reach::{One, To, UpTo};
use crate::rule::Step::{
    Also, Exchange, Help, Holds, Is, IsNot, IsShown, No, Put, Rule, Same, SeemsDeclared, TakeAway,
    Token, Tokens, Why,
};
use crate::rule::{Fact, Steps};
use crate::tests::first_of;
use ps_scan::Kind;

// Operators in a wrong place, and parameters.
const OF_OPERANDS: Steps = &[
    // `p(a; b)`
    Rule,
    Is(Here, &[Kind::Semicolon]),
    Is(Top, &[Kind::LeftParen]),
    Is(BeforeTop, &[Kind::Name]),
    Is(TopEnd, &[Kind::RightParen]),
    Is(Back(1), ENDS_VALUE),
    Holds(Fact::Statements),
    Holds(Fact::OneLine),
    Why("`,` goes between parameters"),
    Exchange(One(Here), ","),

    // `n not = 5`
    Rule,
    Is(Here, &[Kind::Not]),
    Is(Ahead(1), &[Kind::Equal]),
    Is(Back(1), ENDS_VALUE),
    Holds(Fact::Statements),
    Why("not equal is written `<>`"),
    Exchange(To(Here, Ahead(1)), "<>"),

    // `n < or = 5`
    Rule,
    Is(Here, &[Kind::Or]),
    Is(Back(1), &[Kind::Less, Kind::Greater]),
    Is(Ahead(1), &[Kind::Equal]),
    Holds(Fact::Statements),
    Why("both are written as one sign: `"),
    Token(Back(1)),
    Put("=`"),
    Exchange(To(Back(1), Ahead(1)), ""),
    Token(Back(1)),
    Put("="),

    // `a[1..3] := 0`
    Rule,
    Is(Here, &[Kind::DotDot]),
    Is(Top, &[Kind::LeftBracket]),
    Is(BeforeTop, &[Kind::Name]),
    Holds(Fact::Statements),
    Why("an index is one value"),
    Help("the components of an array are reached one by one, in a loop"),

    // `mod(a, b)`
    Rule,
    Is(Here, &[Kind::Div, Kind::Mod, Kind::And, Kind::Or]),
    Is(Ahead(1), &[Kind::LeftParen]),
    Is(Back(1), BEFORE_OPERAND),
    Holds(Fact::Statements),
    Why("it goes between its two operands"),
    Also,
    Is(Ahead(3), &[Kind::Comma]),
    Is(Ahead(5), &[Kind::RightParen]),
    Exchange(To(Here, Ahead(5)), ""),
    Token(Ahead(2)),
    Put(" "),
    Token(Here),
    Put(" "),
    Token(Ahead(4)),
];

// Values that are not statements, and signs of two pieces.
const OF_STATEMENTS: Steps = &[
    // `'hello';`
    Rule,
    Is(Here, &[Kind::Text]),
    Holds(Fact::Statements),
    Same(Start, Here),
    No(NextAssign),
    Why("a value is not a statement"),
    Help("`writeln` writes it"),
    Exchange(UpTo(Here, StatementEnd), "writeln("),
    Tokens(UpTo(Here, StatementEnd)),
    Put(")"),

    // `5;`
    Rule,
    Is(Here, &[Kind::Number]),
    Holds(Fact::Statements),
    Same(Start, Here),
    No(NextAssign),
    Is(Ahead(1), &[Kind::Semicolon]),
    Why("a value is not a statement"),
    TakeAway(0, To(Here, Ahead(1))),

    // `n + 1;`
    Rule,
    Is(Here, ADDS_OR_MULTIPLIES),
    Holds(Fact::Statements),
    Same(Start, Back(1)),
    SeemsDeclared(Back(1)),
    No(NextAssign),
    Is(ExpressionEnd, ENDS_STATEMENT),
    Why("what is computed is assigned by `:=`"),
    Also,
    IsShown(UpTo(Start, StatementEnd)),
    Exchange(UpTo(Start, StatementEnd), ""),
    Token(Start),
    Put(" := "),
    Tokens(UpTo(Start, StatementEnd)),
    Also,
    Holds(Fact::InFunction),
    IsShown(UpTo(Start, StatementEnd)),
    Exchange(UpTo(Start, StatementEnd), ""),
    Token(HeadName),
    Put(" := "),
    Tokens(UpTo(Start, StatementEnd)),

    // `n > 5;`
    Rule,
    Is(Here, COMPARES),
    IsNot(Here, &[Kind::Equal]),
    Holds(Fact::Statements),
    Holds(Fact::BehindVariable),
    No(NextAssign),
    Is(ExpressionEnd, ENDS_STATEMENT),
    Why("a condition is not a statement"),
    Help("it belongs in an `if`, a `while` or an `until`"),

    // `a = > b`
    Rule,
    Is(Here, &[Kind::Greater]),
    Is(Back(1), &[Kind::Equal]),
    Holds(Fact::Statements),
    Why("at least is `>=`"),
    Exchange(To(Back(1), Here), ">="),

    // `a = < b`
    Rule,
    Is(Here, &[Kind::Less]),
    Is(Back(1), &[Kind::Equal]),
    Holds(Fact::Statements),
    Why("at most is `<=`"),
    Exchange(To(Back(1), Here), "<="),
];

/// The first rule that fits of those of operators and values.
pub(super) fn of_values(cx: &Context<'_>) -> Option<Steps> {
    first_of(cx, OF_OPERANDS).or(first_of(cx, OF_STATEMENTS))
}
