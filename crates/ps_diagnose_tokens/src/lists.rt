//! What is reported for parentheses, for what is in them, and for the heading of a routine.

use crate::context::Context;
use crate::kinds::OPERATORS;
use crate::rule::Place::{
    Ahead, Assigned, Back, Closing, Head, Here, Innermost, NextAssign, Start, StatementEnd, Top,
};
use crate::rule::Reach::{Between, One, To, UpTo};
use crate::rule::Step::{
    Also, Exchange, Fails, Help, Holds, InPart, Is, IsNot, IsShown, Label, Names, NamesType, No,
    NotSpelled, Or, Put, PutBefore, PutBehind, Rule, Same, SeemsDeclared, Spelled, TakeAway, Token,
    Tokens, Why,
};
use crate::rule::{Fact, Steps};
use crate::tests::{READS, first_of};
use ps_diagnose::RequiredName;
use ps_scan::Kind;

// What comes before a value.
const BEFORE_VALUE: &[Kind] = &[
    Kind::If,
    Kind::Case,
    Kind::While,
    Kind::Until,
    Kind::To,
    Kind::Downto,
    Kind::Assign,
    Kind::Not,
];

// What no value begins with.
const BEGINS_NONE: &[Kind] = &[
    Kind::Semicolon,
    Kind::RightParen,
    Kind::RightBracket,
    Kind::Comma,
    Kind::Then,
    Kind::Do,
    Kind::Of,
    Kind::End,
    Kind::Else,
    Kind::Until,
    Kind::To,
    Kind::Downto,
];

// Parentheses and values.
const OF_VALUES: Steps = &[
    // `n := read()`
    Rule,
    Is(Here, &[Kind::RightParen]),
    Is(Back(1), &[Kind::LeftParen]),
    Names(Back(2), READS),
    Same(Back(3), Assigned),
    IsShown(UpTo(Start, Assigned)),
    Why("`"),
    Token(Back(2)),
    Put("` is a procedure, and has no value"),
    Exchange(To(Start, Here), ""),
    Token(Back(2)),
    Put("("),
    Tokens(UpTo(Start, Assigned)),
    Put(")"),
    Help("it gives a variable its value, as a statement: `"),
    Token(Back(2)),
    Put("(n)`"),

    // `f()`
    Rule,
    Is(Here, &[Kind::RightParen]),
    Is(Back(1), &[Kind::LeftParen]),
    Is(Back(2), &[Kind::Name]),
    Why("without parameters there are no parentheses"),
    TakeAway(0, To(Back(1), Here)),

    // `)` that closes nothing
    Rule,
    Is(Here, &[Kind::RightParen]),
    No(Innermost(Kind::LeftParen)),
    Why("no `(` before it is open"),
    TakeAway(0, One(Here)),

    // `]` that closes nothing
    Rule,
    Is(Here, &[Kind::RightBracket]),
    No(Innermost(Kind::LeftBracket)),
    Why("no `[` before it is open"),
    TakeAway(0, One(Here)),

    // `a + ;`, `if then`, `f(a, )`
    Rule,
    Holds(Fact::Statements),
    Is(Here, BEGINS_NONE),
    Is(Back(1), OPERATORS),
    Or,
    Holds(Fact::Statements),
    Is(Here, BEGINS_NONE),
    Is(Back(1), BEFORE_VALUE),
    Or,
    Holds(Fact::Statements),
    Is(Here, BEGINS_NONE),
    Is(Back(1), &[Kind::Comma]),
    Is(Top, &[Kind::LeftParen]),
    Why("a value is missing before it"),
    Also,
    Holds(Fact::Brace),
    Help("anything between `{` and `}` is a comment; a set is written between `[` and `]`"),
];

// What comes before a parameter.
const BEFORE_PARAMETER: &[Kind] = &[Kind::LeftParen, Kind::Semicolon, Kind::Var];

/// The required procedures that read and write.
pub(crate) const TRANSPUT: &[RequiredName] = &[
    RequiredName::Write,
    RequiredName::Writeln,
    RequiredName::Read,
    RequiredName::Readln,
];

// The bounds of an array.
const OF_BOUNDS: Steps = &[
    // `array (1..10)`
    Rule,
    Is(Here, &[Kind::LeftParen]),
    Is(Back(1), &[Kind::Array]),
    Why("the bounds of an array are written between `[` and `]`"),
    Also,
    Is(Closing, &[Kind::RightParen]),
    Exchange(To(Here, Closing), "["),
    Tokens(Between(Here, Closing)),
    Put("]"),

    // `array [10]`
    Rule,
    Is(Here, &[Kind::RightBracket]),
    Is(Back(1), &[Kind::Number]),
    Is(Back(2), &[Kind::LeftBracket]),
    Is(Back(3), &[Kind::Array]),
    Why("an array has two bounds, as `1..10`"),
    PutBefore(Back(1), "1..", "1.."),
];

// Parameters and variables, with their types.
const OF_DECLARED: Steps = &[
    // `procedure p(a)`
    Rule,
    Holds(Fact::Parameters),
    Is(Here, &[Kind::RightParen, Kind::Semicolon]),
    Is(Back(1), &[Kind::Name]),
    IsNot(Back(2), &[Kind::Colon]),
    Why("the type of the parameters is missing before it"),
    Help("a parameter is declared as `n: integer`"),
    PutBehind(0, Back(1), ": integer", ": integer"),

    // `procedure p(integer n)`
    Rule,
    Holds(Fact::Parameters),
    Is(Here, &[Kind::Name]),
    Is(Back(1), &[Kind::Name]),
    Is(Back(2), BEFORE_PARAMETER),
    NamesType(Back(1)),
    Why("`:` goes between a parameter and its type"),
    Help("a parameter is declared as `n: integer`"),
    Also,
    Spelled(Back(1), "int"),
    Exchange(To(Back(1), Here), ""),
    Token(Here),
    Put(": integer"),
    Also,
    NotSpelled(Back(1), "int"),
    Exchange(To(Back(1), Here), ""),
    Token(Here),
    Put(": "),
    Token(Back(1)),

    // `procedure p(n integer)`
    Rule,
    Holds(Fact::Parameters),
    Is(Here, &[Kind::Name]),
    Is(Back(1), &[Kind::Name]),
    Is(Back(2), BEFORE_PARAMETER),
    NamesType(Here),
    Why("`:` goes between a parameter and its type"),
    Help("a parameter is declared as `n: integer`"),

    // `var integer n`
    Rule,
    InPart(&[Kind::Var]),
    Holds(Fact::Declarations),
    Is(Here, &[Kind::Name]),
    Is(Back(1), &[Kind::Name]),
    Is(Back(2), &[Kind::Var, Kind::Semicolon]),
    NamesType(Back(1)),
    // `record integer n`
    Or,
    Is(Top, &[Kind::Record]),
    Holds(Fact::Declarations),
    Is(Here, &[Kind::Name]),
    Is(Back(1), &[Kind::Name]),
    Is(Back(2), &[Kind::Record, Kind::Semicolon]),
    NamesType(Back(1)),
    Why("`:` goes between a variable and its type"),
    Help("a variable is declared as `n: integer`"),
    Also,
    Spelled(Back(1), "int"),
    IsShown(UpTo(Here, StatementEnd)),
    Exchange(UpTo(Back(1), StatementEnd), ""),
    Tokens(UpTo(Here, StatementEnd)),
    Put(": integer"),
    Also,
    NotSpelled(Back(1), "int"),
    IsShown(UpTo(Here, StatementEnd)),
    Exchange(UpTo(Back(1), StatementEnd), ""),
    Tokens(UpTo(Here, StatementEnd)),
    Put(": "),
    Token(Back(1)),
];

// The result of a routine.
const OF_RESULTS: Steps = &[
    // `function f;`
    Rule,
    Is(Here, &[Kind::Semicolon]),
    Holds(Fact::BehindHeading),
    Holds(Fact::InFunction),
    Why("the type of the function's result is missing before it"),
    Help("a function is declared as `function f(n: integer): integer;`"),
    Also,
    Is(Ahead(1), &[Kind::Name]),
    Is(Ahead(2), &[Kind::Semicolon]),
    Exchange(One(Here), ":"),
    Also,
    PutBehind(0, Back(1), ": integer", ": integer"),

    // `procedure p: integer;`
    Rule,
    Is(Here, &[Kind::Colon]),
    Holds(Fact::BehindHeading),
    Fails(Fact::InFunction),
    Why("a procedure has no result, but a function has one"),
    Label(One(Head), "this `procedure`"),
    Exchange(One(Head), "function"),
];

// The parameters of a call.
const OF_CALLS: Steps = &[
    // `writeln 'a'`, `p 1`
    Rule,
    Same(Start, Back(1)),
    Is(Back(1), &[Kind::Name]),
    Holds(Fact::Statements),
    Is(Here, &[Kind::Text, Kind::Number]),
    Names(Back(1), TRANSPUT),
    Or,
    Same(Start, Back(1)),
    Is(Back(1), &[Kind::Name]),
    Holds(Fact::Statements),
    Is(Here, &[Kind::Name]),
    Names(Back(1), TRANSPUT),
    Holds(Fact::OneLine),
    Or,
    Same(Start, Back(1)),
    Is(Back(1), &[Kind::Name]),
    Holds(Fact::Statements),
    Is(Here, &[Kind::Text, Kind::Number]),
    Holds(Fact::Procedure),
    Or,
    Same(Start, Back(1)),
    Is(Back(1), &[Kind::Name]),
    Holds(Fact::Statements),
    Is(Here, &[Kind::Name]),
    Holds(Fact::Procedure),
    Holds(Fact::OneLine),
    SeemsDeclared(Here),
    No(NextAssign),
    Why("parameters are written between `(` and `)`"),
    Also,
    IsShown(UpTo(Here, StatementEnd)),
    Exchange(UpTo(Here, StatementEnd), "("),
    Tokens(UpTo(Here, StatementEnd)),
    Put(")"),
];

/// The first rule that fits of those of parentheses and values, and of headings and lists.
pub(crate) fn of_lists(cx: &Context<'_>) -> Option<Steps> {
    first_of(cx, OF_VALUES)
        .or(first_of(cx, OF_BOUNDS))
        .or(first_of(cx, OF_DECLARED))
        .or(first_of(cx, OF_RESULTS))
        .or(first_of(cx, OF_CALLS))
}
