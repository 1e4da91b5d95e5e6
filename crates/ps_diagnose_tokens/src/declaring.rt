//! What is reported for declarations by the habits of other languages, and for what beginners take for Pascal.

use crate::context::Context;
use crate::kinds::{ENDS_PART, PARTS, WORDS};
use crate::missing::BRACES;
use crate::rule::Place::{
    Ahead, Back, BeforeTop, BehindNames, Here, Routines, StatementEnd, Top, TopEnd,
};
use crate::rule::Reach::{Between, One, To, UpTo};
use crate::rule::Step::{
    Also, Exchange, Fails, Has, Help, Holds, InPart, Is, IsNot, IsShown, Label, NamesType, No,
    NotInPart, Or, Put, PutBefore, PutBehind, Rule, Tell, Token, Tokens, Why,
};
use crate::rule::{Fact, More, Steps};
use crate::tests::first_of;
use ps_scan::Kind;

/// What a type begins with.
pub(crate) const BEGINS_TYPE: &[Kind] = &[
    Kind::Array,
    Kind::Record,
    Kind::Set,
    Kind::Packed,
    Kind::Caret,
];

// What begins a type and is not a name.
const BEGINS_OTHER_TYPE: &[Kind] = &[
    Kind::Array,
    Kind::Record,
    Kind::Set,
    Kind::Packed,
    Kind::File,
    Kind::Caret,
    Kind::LeftParen,
    Kind::Number,
    Kind::Text,
    Kind::Minus,
];

// What begins a type with components.
const STRUCTURES: &[Kind] = &[Kind::Array, Kind::Record, Kind::Set, Kind::Packed];

// What a constant is.
const CONSTANT: &str =
    "a constant is a number, a string or a name; a variable gets its value by a statement";

// Variables outside the `var` part.
const OUTSIDE_VAR: Steps = &[
    // `a: integer;` after procedures and functions
    Rule,
    Is(Here, &[Kind::Name]),
    Is(Back(1), &[Kind::Semicolon]),
    Is(BehindNames, &[Kind::Colon]),
    Holds(Fact::Declarations),
    No(Top),
    NotInPart(PARTS),
    Has(Routines),
    Why("variables are declared before procedures and functions"),
    Label(One(Routines), "the first of them"),
    Tell(More::Variables),

    // `a: integer;` at the beginning
    Rule,
    Is(Here, &[Kind::Name]),
    Is(Back(1), &[Kind::Semicolon]),
    Is(BehindNames, &[Kind::Colon]),
    Holds(Fact::Declarations),
    No(Top),
    NotInPart(PARTS),
    Why("`var` is missing before it"),
    PutBefore(Here, "var", "var "),

    // `a, b: integer;` after constants or types
    Rule,
    Is(Here, &[Kind::Comma]),
    Is(Back(1), &[Kind::Name]),
    Is(Back(2), &[Kind::Semicolon]),
    Is(BehindNames, &[Kind::Colon]),
    InPart(&[Kind::Const, Kind::Type]),
    No(Top),
    // `a: integer;`
    Or,
    Is(Here, &[Kind::Colon]),
    Is(Back(1), &[Kind::Name]),
    Is(Back(2), &[Kind::Semicolon]),
    Is(Ahead(1), &[Kind::Name]),
    Is(Ahead(2), &[Kind::Semicolon]),
    InPart(&[Kind::Const, Kind::Type]),
    No(Top),
    // `a: array ..;`
    Or,
    Is(Here, &[Kind::Colon]),
    Is(Back(1), &[Kind::Name]),
    Is(Back(2), &[Kind::Semicolon]),
    Is(Ahead(1), BEGINS_TYPE),
    InPart(&[Kind::Const, Kind::Type]),
    No(Top),
    Why("`var` is missing before `"),
    Token(Back(1)),
    Put("`"),
    PutBefore(Back(1), "var", "var "),
];

// Constants that have several values.
const OF_CONSTANTS: Steps = &[
    // `const a: array [1..3] of integer = (1, 2, 3);`
    Rule,
    Is(Here, &[Kind::Colon]),
    Is(Back(1), &[Kind::Name]),
    Is(Ahead(1), BEGINS_TYPE),
    InPart(&[Kind::Const]),
    Why("`=` defines a constant"),
    Help(CONSTANT),

    // `const a = (1, 2, 3);`
    Rule,
    Is(Here, &[Kind::LeftParen, Kind::LeftBracket]),
    Is(Back(1), &[Kind::Equal]),
    InPart(&[Kind::Const]),
    Why("a constant has one value"),
    Help(CONSTANT),
];

// Arrays as other languages declare them.
const OF_ARRAYS: Steps = &[
    // `array [1..3][1..3] of`
    Rule,
    Is(Here, &[Kind::LeftBracket]),
    Is(Back(1), &[Kind::RightBracket]),
    Fails(Fact::Statements),
    Why("an array with two indices is written `array [1..3, 1..3]`"),
    Exchange(To(Back(1), Here), ", "),

    // `a: integer[10]`
    Rule,
    Is(Here, &[Kind::LeftBracket]),
    Is(Back(1), &[Kind::Name]),
    Is(Back(2), &[Kind::Colon]),
    Fails(Fact::Statements),
    Is(Ahead(2), &[Kind::RightBracket]),
    Why("an array is declared as `array [1..10] of integer`"),
    Exchange(To(Back(1), Ahead(2)), "array [1.."),
    Token(Ahead(1)),
    Put("] of "),
    Token(Back(1)),

    // `a[10]: integer`
    Rule,
    Is(Here, &[Kind::LeftBracket]),
    Is(Back(1), &[Kind::Name]),
    InPart(&[Kind::Var]),
    Holds(Fact::Declarations),
    Is(Ahead(2), &[Kind::RightBracket]),
    Is(Ahead(3), &[Kind::Colon]),
    Why("an array is declared as `array [1..10] of integer`"),
    Exchange(To(Here, Ahead(3)), ": array [1.."),
    Token(Ahead(1)),
    Put("] of"),

    // `array [1 to 10]`, `array [1 - 10]`
    Rule,
    Is(Here, &[Kind::To, Kind::Minus, Kind::Comma, Kind::Colon]),
    Is(Top, &[Kind::LeftBracket]),
    Is(Back(1), &[Kind::Number]),
    Is(Back(2), &[Kind::LeftBracket]),
    Is(Ahead(1), &[Kind::Name, Kind::Number]),
    Fails(Fact::Statements),
    Why("`..` goes between two bounds"),
    Exchange(One(Here), ".."),
];

// Names and their types as other languages have them.
const OF_NAMES: Steps = &[
    // `*integer`
    Rule,
    Is(Here, &[Kind::Star]),
    Is(Back(1), &[Kind::Colon, Kind::Equal, Kind::Of]),
    Is(Ahead(1), &[Kind::Name]),
    Fails(Fact::Statements),
    Why("a pointer type begins with `^`"),
    Exchange(One(Here), "^"),

    // `my-number`
    Rule,
    Is(Here, &[Kind::Minus]),
    Is(Back(1), &[Kind::Name]),
    Is(
        Back(2),
        &[
            Kind::Var,
            Kind::Semicolon,
            Kind::Comma,
            Kind::Program,
            Kind::Procedure,
            Kind::Function,
            Kind::Const,
            Kind::Type,
            Kind::LeftParen,
        ],
    ),
    Is(Ahead(1), &[Kind::Name, Kind::Number]),
    Fails(Fact::Statements),
    Why("a name has only letters and digits"),
    Help("choose another name"),

    // `integer: a, b;`
    Rule,
    Is(Here, &[Kind::Comma, Kind::Semicolon]),
    Is(Back(1), &[Kind::Name]),
    Is(Back(2), &[Kind::Colon]),
    NamesType(Back(3)),
    InPart(&[Kind::Var]),
    Holds(Fact::Declarations),
    Why("a variable comes before `:`, and its type after it"),
    Exchange(UpTo(Back(3), StatementEnd), ""),
    Tokens(UpTo(Back(1), StatementEnd)),
    Put(": "),
    Token(Back(3)),

    // `type r = begin`
    Rule,
    Is(Here, &[Kind::Begin]),
    Is(Back(1), &[Kind::Equal, Kind::Colon, Kind::Of]),
    Holds(Fact::Declarations),
    Why("a record begins with `record`"),
    Exchange(One(Here), "record"),

    // `var a;`
    Rule,
    Is(Here, &[Kind::Semicolon]),
    Is(Back(1), &[Kind::Name]),
    Is(Back(2), &[Kind::Var, Kind::Comma, Kind::Semicolon]),
    InPart(&[Kind::Var]),
    Holds(Fact::Declarations),
    Why("the type of the variables is missing before it"),
    Help("a variable is declared as `n: integer`"),
    Also,
    Is(Ahead(1), &[Kind::Name]),
    Exchange(One(Here), ","),
    Also,
    PutBehind(1, Back(1), ": integer", ": integer"),
];

// What is missing in a heading, between brackets or after a type.
const MISSING: Steps = &[
    // `program p var`, `procedure p begin`
    Rule,
    Is(Here, ENDS_PART),
    Is(Back(1), &[Kind::Name, Kind::RightParen]),
    Fails(Fact::Headed),
    Fails(Fact::InFunction),
    No(Top),
    // `function f: integer begin`
    Or,
    Is(Here, ENDS_PART),
    Is(Back(1), &[Kind::Name]),
    Is(Back(2), &[Kind::Colon]),
    Fails(Fact::Headed),
    No(Top),
    Why("`;` is missing before it"),
    Also,
    Fails(Fact::Brace),
    PutBehind(0, Back(1), ";", ";"),
    Also,
    Holds(Fact::Brace),
    Help(BRACES),

    // `function f(n: integer) begin`
    Rule,
    Is(Here, ENDS_PART),
    Holds(Fact::BehindHeading),
    Holds(Fact::InFunction),
    Why("the type of the function's result is missing before it"),
    Help("a function is declared as `function f(n: integer): integer;`"),
    PutBehind(0, Back(1), ": integer;", ": integer;"),

    // `array [] of integer`
    Rule,
    Is(Here, &[Kind::RightBracket]),
    Is(Back(1), &[Kind::LeftBracket]),
    Is(Back(2), &[Kind::Array]),
    Why("the bounds of an array are missing before it"),
    Help("an array is declared as `array [1..10] of integer`"),

    // `a: integer, b: char`, also in a record or a list of parameters
    Rule,
    Is(Here, &[Kind::Comma]),
    Is(Back(1), &[Kind::Name]),
    Is(Back(2), &[Kind::Colon]),
    Is(BehindNames, &[Kind::Colon]),
    Fails(Fact::Statements),
    Or,
    Is(Here, &[Kind::Comma]),
    Is(Back(1), &[Kind::Name]),
    Is(Back(2), &[Kind::Colon]),
    Is(Ahead(1), &[Kind::Var]),
    Fails(Fact::Statements),
    Why("`;` comes after a type"),
    Exchange(One(Here), ";"),
];

// Enumerations and records.
const OF_NEW_TYPES: Steps = &[
    // `('red', 'green')`
    Rule,
    Is(Here, &[Kind::Text]),
    Is(Back(1), &[Kind::LeftParen]),
    Is(Back(2), &[Kind::Equal, Kind::Colon, Kind::Of]),
    Fails(Fact::Statements),
    Why("the constants of an enumeration are names, without apostrophes"),
    Help("an enumeration is written as `(red, green, blue)`"),

    // `type t = red, green, blue;`
    Rule,
    Is(Here, &[Kind::Comma]),
    Is(Back(1), &[Kind::Name]),
    Is(Back(2), &[Kind::Equal]),
    InPart(&[Kind::Type]),
    Is(BehindNames, &[Kind::Semicolon]),
    Why("the constants of an enumeration are written in parentheses"),
    Also,
    IsShown(UpTo(Back(1), BehindNames)),
    Exchange(UpTo(Back(1), BehindNames), "("),
    Tokens(UpTo(Back(1), BehindNames)),
    Put(")"),

    // `(x: integer; y: integer)`
    Rule,
    Is(Here, &[Kind::Colon]),
    Is(Top, &[Kind::LeftParen]),
    Is(BeforeTop, &[Kind::Equal, Kind::Colon, Kind::Of]),
    InPart(&[Kind::Type, Kind::Var]),
    Is(TopEnd, &[Kind::RightParen]),
    Why("the fields of a record go between `record` and `end`"),
    Also,
    IsShown(Between(Top, TopEnd)),
    Exchange(To(Top, TopEnd), "record "),
    Tokens(Between(Top, TopEnd)),
    Put(" end"),
];

// A type, a value or a name that is missing.
const LEFT_EMPTY: Steps = &[
    // `a: ;`
    Rule,
    Is(Here, &[Kind::Semicolon, Kind::RightParen, Kind::End]),
    Is(Back(1), &[Kind::Colon]),
    Fails(Fact::Statements),
    Or,
    Is(Here, &[Kind::Semicolon]),
    Is(Back(1), &[Kind::Equal]),
    InPart(&[Kind::Type]),
    Why("a type is missing before it"),

    // `const a = ;`
    Rule,
    Is(Here, &[Kind::Semicolon]),
    Is(Back(1), &[Kind::Equal]),
    InPart(&[Kind::Const]),
    Why("a value is missing before it"),

    // `procedure (a: integer)`
    Rule,
    Is(Here, &[Kind::LeftParen, Kind::Semicolon, Kind::Colon]),
    Is(Back(1), &[Kind::Program, Kind::Procedure, Kind::Function]),
    Why("a name is missing before it"),
    Also,
    Is(Back(1), &[Kind::Program]),
    PutBefore(Here, "name", "name"),
];

// The types of parameters and results.
const OF_HEADINGS: Steps = &[
    // `function f: array [1..3] of integer`
    Rule,
    Is(Here, BEGINS_OTHER_TYPE),
    Is(Back(1), &[Kind::Colon]),
    Holds(Fact::InFunction),
    Fails(Fact::Headed),
    No(Top),
    Why("the type of a result is a name"),
    Also,
    Is(Here, STRUCTURES),
    Help("an array, a record or a set is given back through a `var` parameter"),
    Also,
    IsNot(Here, STRUCTURES),
    Help("declare the type in the `type` part, and write its name here"),

    // `function f: integer, integer;`
    Rule,
    Is(Here, &[Kind::Comma]),
    Is(Back(1), &[Kind::Name]),
    Is(Back(2), &[Kind::Colon]),
    Holds(Fact::InFunction),
    Fails(Fact::Headed),
    No(Top),
    Why("a function has one result"),
    Help("several values are given back through `var` parameters"),

    // `procedure p(s: set of char)`
    Rule,
    Is(Here, BEGINS_OTHER_TYPE),
    Is(Back(1), &[Kind::Colon]),
    Holds(Fact::Parameters),
    Or,
    Is(Here, &[Kind::DotDot]),
    Is(Back(2), &[Kind::Colon]),
    Holds(Fact::Parameters),
    Why("the type of a parameter is a name"),
    Help("declare the type in the `type` part, and write its name here"),

    // `function f(n: integer) = integer`
    Rule,
    Is(Here, &[Kind::Equal, Kind::Assign]),
    Holds(Fact::BehindHeading),
    Holds(Fact::InFunction),
    Why("`:` comes before the type of a result"),
    Exchange(One(Here), ":"),

    // `function f(n: integer) -> integer`
    Rule,
    Is(Here, &[Kind::Minus]),
    Is(Ahead(1), &[Kind::Greater]),
    Holds(Fact::BehindHeading),
    Holds(Fact::InFunction),
    Why("`:` comes before the type of a result"),
    Exchange(To(Here, Ahead(1)), ":"),
];

// A name of two words.
const OF_SPACES: Steps = &[
    // `var a b: integer`
    Rule,
    Is(Here, &[Kind::Name]),
    Is(Back(1), &[Kind::Name]),
    Is(Back(2), &[Kind::Var, Kind::Comma, Kind::Semicolon]),
    InPart(&[Kind::Var]),
    Holds(Fact::Declarations),
    Is(BehindNames, &[Kind::Colon]),
    Why("`,` is missing before it"),
    Help("a name is one word, without spaces"),
    PutBehind(0, Back(1), ",", ","),

    // `program my program`
    Rule,
    Is(Here, &[Kind::Name]),
    Is(Back(1), &[Kind::Name]),
    Is(Back(2), &[Kind::Program, Kind::Procedure]),
    Or,
    Is(Here, WORDS),
    Is(Back(1), &[Kind::Name]),
    Is(Back(2), &[Kind::Program]),
    Why("a name is one word, without spaces"),
    Exchange(To(Back(1), Here), ""),
    Token(Back(1)),
    Token(Here),
];

/// The first that fits of those of declarations.
pub(crate) fn in_declarations(cx: &Context<'_>) -> Option<Steps> {
    first_of(cx, OUTSIDE_VAR)
        .or(first_of(cx, OF_CONSTANTS))
        .or(first_of(cx, OF_ARRAYS))
        .or(first_of(cx, OF_NAMES))
}

/// The first rule that fits, of those for what is missing in a declaration or stands in for a type.
pub(crate) fn of_types(cx: &Context<'_>) -> Option<Steps> {
    first_of(cx, MISSING)
        .or(first_of(cx, OF_NEW_TYPES))
        .or(first_of(cx, LEFT_EMPTY))
        .or(first_of(cx, OF_HEADINGS))
}

/// The rule of a name of two words.
pub(crate) fn of_spaces(cx: &Context<'_>) -> Option<Steps> {
    first_of(cx, OF_SPACES)
}
