//! What is reported for `=`, `:=` and `:` if another one of them is meant.

use crate::context::Context;
use crate::kinds::OPERATORS;
use crate::rows::Part;
use crate::rule::Place::{
    Ahead, Assigned, Back, ExpressionEnd, Here, Last, NextAssign, Start, Top,
};
use crate::rule::Reach::{One, To, UpTo};
use crate::rule::Step::{
    Advice, Also, Apart, Exchange, Fails, Has, Help, Holds, InHead, InPart, Is, IsNot, IsShown,
    Label, No, Or, Put, PutBefore, Rule, Same, Token, Tokens, Touches, Why,
};
use crate::rule::{Fact, Steps};
use crate::tests::first_of;
use ps_scan::Kind;

// The first pieces of signs.
const PIECES: &[Kind] = &[Kind::Colon, Kind::Less, Kind::Greater];

// A sign that is written in two pieces.
const IN_PIECES: Steps = &[
    // `: =`, at its first piece
    Rule,
    Holds(Fact::Statements),
    Is(Here, PIECES),
    Is(Ahead(1), &[Kind::Equal]),
    Or,
    Holds(Fact::Statements),
    Is(Here, &[Kind::Less]),
    Is(Ahead(1), &[Kind::Greater]),
    Why("`"),
    Token(Here),
    Token(Ahead(1)),
    Put("` is one sign, without a space"),
    Exchange(To(Here, Ahead(1)), ""),
    Token(Here),
    Token(Ahead(1)),

    // `: =`, at its second piece
    Rule,
    Holds(Fact::Statements),
    Is(Back(1), PIECES),
    Is(Here, &[Kind::Equal]),
    Or,
    Holds(Fact::Statements),
    Is(Back(1), &[Kind::Less]),
    Is(Here, &[Kind::Greater]),
    Why("`"),
    Token(Back(1)),
    Token(Here),
    Put("` is one sign, without a space"),
    Exchange(To(Back(1), Here), ""),
    Token(Back(1)),
    Token(Here),
];

// What should be the head of a statement.
const IN_HEADS: Steps = &[
    // `for i = 1`
    Rule,
    InHead(&[Kind::For]),
    Is(Here, &[Kind::Equal, Kind::Colon]),
    Same(Back(2), Top),
    Why("a `for` begins with `"),
    Token(Back(1)),
    Put(" := ..`"),
    Exchange(One(Here), ":="),

    // `for i := 1..10`
    Rule,
    InHead(&[Kind::For]),
    Is(Here, &[Kind::DotDot, Kind::Comma]),
    Has(Assigned),
    Why("`to` or `downto` goes between the values of a `for`"),
    Exchange(One(Here), " to "),

    // `x > 1 then`
    Rule,
    Is(Here, OPERATORS),
    Holds(Fact::Statements),
    Holds(Fact::BehindVariable),
    Is(ExpressionEnd, &[Kind::Then]),
    Why("`if` is missing before the condition"),
    PutBefore(Start, "if", "if "),

    // `x > 1 do`
    Rule,
    Is(Here, OPERATORS),
    Holds(Fact::Statements),
    Holds(Fact::BehindVariable),
    Is(ExpressionEnd, &[Kind::Do]),
    Why("`while` is missing before the condition"),
    PutBefore(Start, "while", "while "),
];

// What assigns, or should.
const OF_ASSIGNMENTS: Steps = &[
    // `x =+ 1`
    Rule,
    Is(Here, &[Kind::Equal]),
    Is(Ahead(1), &[Kind::Plus]),
    Touches(Here),
    Apart(Ahead(1)),
    Holds(Fact::Statements),
    Holds(Fact::BehindVariable),
    Why("the variable comes again after `:=`"),
    IsShown(UpTo(Start, Here)),
    Exchange(To(Here, Ahead(1)), ":= "),
    Tokens(UpTo(Start, Here)),
    Put(" "),
    Token(Ahead(1)),

    // `x = 1`
    Rule,
    Is(Here, &[Kind::Equal]),
    Holds(Fact::Statements),
    Holds(Fact::BehindVariable),
    Why("it compares, and `:=` assigns"),
    Exchange(One(Here), ":="),

    // `if x := 1 then`, `until x := 1`
    Rule,
    Is(Here, &[Kind::Assign]),
    Holds(Fact::Statements),
    IsNot(Top, &[Kind::LeftBracket]),
    Holds(Fact::Inside),
    Or,
    Is(Here, &[Kind::Assign]),
    Holds(Fact::Statements),
    IsNot(Top, &[Kind::LeftBracket]),
    Is(Start, &[Kind::Until]),
    Why("it assigns, and `=` compares"),
    Exchange(One(Here), "="),

    // `x := y := 1`
    Rule,
    Is(Here, &[Kind::Assign]),
    Holds(Fact::Statements),
    Fails(Fact::Inside),
    Has(Assigned),
    Why("a statement assigns once"),
    Label(One(Assigned), "the first `:=`"),
    Help("write two statements with `;` between them; to compare, use `=`"),
    Also,
    Is(Back(1), &[Kind::RightParen]),
    Exchange(One(Here), "="),

    // `1 := x`, `x + 1 := y`
    Rule,
    Holds(Fact::Statements),
    Is(Here, &[Kind::Number, Kind::Text]),
    Same(Start, Here),
    Has(NextAssign),
    Or,
    Holds(Fact::Statements),
    Is(Here, OPERATORS),
    Holds(Fact::BehindVariable),
    Has(NextAssign),
    Why("what is assigned comes after `:=`"),
    Also,
    Same(Last(2), NextAssign),
    Is(Last(1), &[Kind::Name]),
    Exchange(To(Start, Last(1)), ""),
    Token(Last(1)),
    Put(" := "),
    Tokens(UpTo(Start, NextAssign)),
];

// What comes before the name with which a declaration begins.
const BEFORE_NAME: &[Kind] = &[Kind::Const, Kind::Type, Kind::Var, Kind::Semicolon];

// What defines and declares.
const IN_DECLARATIONS: Steps = &[
    // `:=` or `:` in the definition of a constant.

    // `const a := 1`

    // `const a := 1`
    Rule,
    Is(Here, &[Kind::Assign]),
    InPart(&[Kind::Const]),
    Holds(Fact::Declarations),
    No(Top),
    Is(Back(1), &[Kind::Name]),
    Is(Back(2), BEFORE_NAME),
    Why("it assigns, and `=` defines a constant"),
    Exchange(One(Here), "="),

    // `const a: 1`

    // `const a: 1`
    Rule,
    Is(Here, &[Kind::Colon]),
    InPart(&[Kind::Const]),
    Holds(Fact::Declarations),
    No(Top),
    Is(Back(1), &[Kind::Name]),
    Is(Back(2), BEFORE_NAME),
    Why("`=` defines a constant"),
    Exchange(One(Here), "="),

    // `type t := integer`
    Rule,
    Is(Here, &[Kind::Assign]),
    InPart(&[Kind::Type]),
    Holds(Fact::Declarations),
    No(Top),
    Is(Back(1), &[Kind::Name]),
    Is(Back(2), BEFORE_NAME),
    Why("it assigns, and `=` defines a type"),
    Exchange(One(Here), "="),

    // `type t: integer`
    Rule,
    Is(Here, &[Kind::Colon]),
    InPart(&[Kind::Type]),
    Holds(Fact::Declarations),
    No(Top),
    Is(Back(1), &[Kind::Name]),
    Is(Back(2), BEFORE_NAME),
    Why("`=` defines a type"),
    Exchange(One(Here), "="),

    // `var a = integer`, `a = integer` in a record
    Rule,
    Is(Here, &[Kind::Equal]),
    Holds(Fact::Declarations),
    InPart(&[Kind::Var]),
    Is(Back(1), &[Kind::Name]),
    IsNot(Back(2), &[Kind::Colon, Kind::Of]),
    IsNot(Ahead(1), &[Kind::Number, Kind::Text]),
    Or,
    Is(Here, &[Kind::Equal]),
    Holds(Fact::Declarations),
    Is(Top, &[Kind::Record]),
    Is(Back(1), &[Kind::Name]),
    IsNot(Back(2), &[Kind::Colon]),
    IsNot(Ahead(1), &[Kind::Number, Kind::Text]),
    Why("`:` goes between a variable and its type"),
    Exchange(One(Here), ":"),
    Also,
    Is(Ahead(1), &[Kind::Record, Kind::LeftParen]),
    Help("a type is declared in the `type` part, before the variables"),

    // `var a: integer := 1`
    Rule,
    Is(Here, &[Kind::Assign, Kind::Equal]),
    InPart(&[Kind::Var]),
    Holds(Fact::Declarations),
    Is(Back(1), &[Kind::End]),
    Or,
    Is(Here, &[Kind::Assign, Kind::Equal]),
    InPart(&[Kind::Var]),
    Holds(Fact::Declarations),
    Is(Back(2), &[Kind::Colon, Kind::Of, Kind::Var]),
    Why("a variable gets its value by a statement"),
    Advice(Part::Declarations, "NAME ="),
];

/// The first rule that fits of those of what assigns in statements, and of what defines and declares.
pub(crate) fn assigned(cx: &Context<'_>) -> Option<Steps> {
    first_of(cx, IN_PIECES)
        .or(first_of(cx, IN_HEADS))
        .or(first_of(cx, OF_ASSIGNMENTS))
        .or(first_of(cx, IN_DECLARATIONS))
}
