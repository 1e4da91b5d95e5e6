//! What is reported for declarations in a wrong place, and for words instead of a name.

use crate::context::Context;
use crate::kinds::{BEGINS_STATEMENT, ENDS_PART, OPERATORS, PARTS, ROUTINES, WORDS};
use crate::lists::TRANSPUT;
use crate::rows::Part;
use crate::rule::Place::{
    Ahead, Back, Begun, Here, LastDeclared, LastOfPart, Later, List, NextAssign, NextEnd, Routines,
    SamePart, Top,
};
use crate::rule::Reach::One;
use crate::rule::Step::{
    Advice, Also, Declares, Fails, Has, Help, Holds, InPart, Is, IsNot, Label, Move, Names, No,
    NotInPart, Or, Put, PutBefore, PutBehind, Rule, Same, SeemsDeclared, TakeAway, Tell, Token,
    Why,
};
use crate::rule::{Fact, More, Steps};
use crate::tests::first_of;
use ps_diagnose::RequiredName;
use ps_scan::Kind;

// Declarations among statements.
const AMONG: &str = "declarations come before `begin`";

const BEGIN_MISSING: &str = "`begin` is missing before the statements";

// What comes before the last token of a type, or before a type of one token.
const BEFORE_TYPE: &[Kind] = &[Kind::Colon, Kind::Of, Kind::DotDot, Kind::Caret];

// Parts of declarations.
const IN_DECLARATIONS: Steps = &[
    // `var` after procedures and functions
    Rule,
    Is(Here, PARTS),
    Is(Back(1), &[Kind::Semicolon]),
    Holds(Fact::Declarations),
    No(Top),
    Has(Routines),
    Why(""),
    Declares(Here),
    Put(" are declared before procedures and functions"),
    Label(One(Routines), "the first of them"),
    Move(LastOfPart, Later),

    // `const` after `var`

    // `const` after `var`
    Rule,
    Is(Here, PARTS),
    Is(Back(1), &[Kind::Semicolon]),
    Holds(Fact::Declarations),
    No(Top),
    Has(Later),
    Why(""),
    Declares(Here),
    Put(" are declared before "),
    Declares(Later),
    Label(One(Later), "the `"),
    Token(Later),
    Put("` part"),
    Move(LastOfPart, Later),

    // `var` for the second time
    Rule,
    Is(Here, PARTS),
    Is(Back(1), &[Kind::Semicolon]),
    Holds(Fact::Declarations),
    No(Top),
    Has(SamePart),
    Why("the `"),
    Token(Here),
    Put("` part is already above"),
    Label(One(SamePart), "it begins here"),
    TakeAway(0, One(Here)),

    // A formula, or a record that has no end, among declarations.
    // an operator in a constant

    // `const a = b + 1`

    // `const a = b + 1`
    Rule,
    Is(Here, OPERATORS),
    IsNot(Here, &[Kind::Equal]),
    Is(Back(1), &[Kind::Name, Kind::Number, Kind::Text]),
    Holds(Fact::Declarations),
    Why("a constant is a number, a string or a name, not a formula"),
    Help("write the result as a number; a formula belongs in a statement"),

    // `record begin`
    Rule,
    Is(Here, &[Kind::Begin]),
    Is(Back(1), &[Kind::Record]),
    Why("a record has no `begin`"),
    TakeAway(0, One(Here)),

    // `record var`
    Rule,
    Is(Here, PARTS),
    Is(Back(1), &[Kind::Record]),
    Why("the fields of a record are written without it"),
    TakeAway(0, One(Here)),

    // `begin` after a record that has no end
    Rule,
    Is(Top, &[Kind::Record]),
    Is(Here, ENDS_PART),
    Is(Back(1), &[Kind::Semicolon, Kind::RightParen, Kind::End]),
    Or,
    Is(Top, &[Kind::Record]),
    Is(Here, ENDS_PART),
    Is(Back(2), BEFORE_TYPE),
    Why("`end` is missing before it"),
    Label(One(Top), "this `record` is not ended"),
    PutBefore(Here, "end;", "end; "),
];

// What comes after a name being declared.
const BEHIND_DECLARED: &[Kind] = &[Kind::Comma, Kind::Colon, Kind::Equal];

// Words instead of names, and declarations among statements.
const IN_STATEMENTS: Steps = &[
    // a word of the language instead of a name
    Rule,
    Is(Here, WORDS),
    Is(Back(1), PARTS),
    Is(Ahead(1), BEHIND_DECLARED),
    Or,
    Is(Here, WORDS),
    Is(Back(1), &[Kind::Program, Kind::Procedure, Kind::Function]),
    Is(Ahead(1), &[Kind::LeftParen, Kind::Semicolon, Kind::Colon]),
    Or,
    Is(Here, WORDS),
    Is(Ahead(1), &[Kind::Assign]),
    // A word of the language where a name is listed.
    Or,
    Is(Here, WORDS),
    Is(Back(1), &[Kind::Semicolon]),
    Fails(Fact::Statements),
    Is(Ahead(1), BEHIND_DECLARED),
    Or,
    Is(Here, WORDS),
    Is(Back(1), &[Kind::Comma, Kind::LeftParen]),
    Is(Ahead(1), &[Kind::Comma, Kind::RightParen, Kind::Colon]),
    Why("it is a word of the language, not a name"),
    Help("choose another name"),

    // `var begin`
    Rule,
    Is(Back(1), PARTS),
    Is(Here, ENDS_PART),
    No(Top),
    Holds(Fact::Declarations),
    Why("the `"),
    Token(Back(1)),
    Put("` part before it declares nothing"),
    TakeAway(0, One(Back(1))),

    // `var` among statements
    Rule,
    Is(Here, PARTS),
    Holds(Fact::Statements),
    Why(AMONG),
    Label(One(Begun), "the `begin`"),
    Move(LastDeclared, Later),
    Also,
    Same(Back(1), Begun),
    IsNot(NextEnd, &[Kind::End]),
    TakeAway(1, One(Begun)),
    Also,
    Is(Here, &[Kind::Var]),
    Advice(Part::Statements, "var"),

    // `procedure show(3)` for a call
    Rule,
    Is(Here, ROUTINES),
    Holds(Fact::Statements),
    SeemsDeclared(Ahead(1)),
    Why("a procedure is called by its name alone"),
    TakeAway(0, One(Here)),

    // `procedure` among the statements of the program
    Rule,
    Is(Here, ROUTINES),
    Holds(Fact::Statements),
    Fails(Fact::InRoutine),
    Same(List, Begun),
    Why(AMONG),
    Label(One(Begun), "the `begin`"),
    Help("the `begin` of the program comes after its procedures and functions"),
    TakeAway(1, One(Begun)),

    // `procedure` among statements
    Rule,
    Is(Here, ROUTINES),
    Holds(Fact::Statements),
    Why(AMONG),
    Label(One(List), "this `begin` is not ended"),
    Also,
    Is(Back(1), &[Kind::Semicolon]),
    PutBefore(Here, "end;", "end; "),
    Also,
    IsNot(Back(1), &[Kind::Semicolon]),
    PutBehind(0, Back(1), "end;", " end;"),
];

// What comes before a statement that is written instead of a declaration.
const BEFORE_START: &[Kind] = &[Kind::Semicolon, Kind::Var, Kind::Type, Kind::Const];

// Statements among declarations.
const AMONG_DECLARATIONS: Steps = &[
    // `a.b := 1;` among variables, with a `begin` after it
    Rule,
    Holds(Fact::Declarations),
    No(Top),
    Is(Back(1), &[Kind::Name]),
    Is(Back(2), BEFORE_START),
    Is(
        Here,
        &[Kind::Dot, Kind::Caret, Kind::LeftBracket, Kind::Assign],
    ),
    InPart(&[Kind::Var]),
    SeemsDeclared(Back(1)),
    Has(NextAssign),
    IsNot(NextEnd, &[Kind::End]),
    Why("a variable gets its value by a statement"),
    Help("statements come after the `begin` of the block"),

    // `writeln(a);` among variables, with a `begin` after it
    Rule,
    Holds(Fact::Declarations),
    No(Top),
    Names(Back(1), TRANSPUT),
    Is(Back(2), BEFORE_START),
    Is(Here, &[Kind::LeftParen, Kind::Semicolon]),
    IsNot(NextEnd, &[Kind::End]),
    Why("statements come after the `begin` of the block"),

    // a statement that begins at the place
    Rule,
    Holds(Fact::Declarations),
    No(Top),
    Is(Back(1), &[Kind::Semicolon]),
    Is(Here, BEGINS_STATEMENT),
    Or,
    Holds(Fact::Declarations),
    No(Top),
    Is(Back(1), &[Kind::Semicolon]),
    Is(Here, &[Kind::Name]),
    NotInPart(PARTS),
    IsNot(Ahead(1), &[Kind::Name]),
    Why(BEGIN_MISSING),
    PutBefore(Here, "begin", "begin "),
    Tell(More::Words),

    // a statement that goes on at the place
    Rule,
    Holds(Fact::Declarations),
    No(Top),
    Is(Back(1), &[Kind::Name]),
    Is(Back(2), BEFORE_START),
    Is(Here, &[Kind::Assign]),
    IsNot(Back(2), &[Kind::Var]),
    SeemsDeclared(Back(1)),
    // A statement among declarations that goes on at the place.
    Or,
    Holds(Fact::Declarations),
    No(Top),
    Is(Back(1), &[Kind::Name]),
    Is(Back(2), BEFORE_START),
    Is(Here, &[Kind::LeftParen, Kind::LeftBracket]),
    Or,
    Holds(Fact::Declarations),
    No(Top),
    Is(Back(1), &[Kind::Name]),
    Is(Back(2), BEFORE_START),
    Is(Here, &[Kind::Dot, Kind::Caret]),
    InPart(&[Kind::Var]),
    Or,
    Holds(Fact::Declarations),
    No(Top),
    Is(Back(1), &[Kind::Name]),
    Is(Back(2), BEFORE_START),
    Is(Here, &[Kind::Semicolon]),
    Names(Back(1), &[RequiredName::Writeln, RequiredName::Readln]),
    Why(BEGIN_MISSING),
    PutBefore(Back(1), "begin", "begin "),
    Tell(More::Words),
];

/// The first rule that fits, of those for parts of declarations, and for declarations and statements in each other's
/// place.
pub(crate) fn of_parts(cx: &Context<'_>) -> Option<Steps> {
    first_of(cx, IN_DECLARATIONS).or(first_of(cx, IN_STATEMENTS))
}

/// The first that fits of those of statements among declarations.
pub(crate) fn begin_missing(cx: &Context<'_>) -> Option<Steps> {
    first_of(cx, AMONG_DECLARATIONS)
}
