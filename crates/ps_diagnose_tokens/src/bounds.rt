//! What is reported at the ends of a text: a wrong beginning, an end that comes too early, and anything after the end.

use crate::context::Context;
use crate::rule::Place::{Ahead, Back, Begun, Ended, Here, List, Point, StatementEnd, TextEnd};
use crate::rule::Reach::{One, To};
use crate::rule::Step::{
    Also, Exchange, Expects, Fails, Help, Holds, Is, IsShown, Label, No, NotBefore, Put, PutBefore,
    PutBehind, Rule, Same, Says, SeemsDeclared, Spelled, TakeAway, Tell, Token, Touches, Why,
};
use crate::rule::{Fact, More, Steps};
use crate::tell::{joined, put_behind};
use crate::tests::first_of;
use crate::walk::{Open, Stage};
use ps_diagnose::{Telling, Text};
use ps_scan::Kind;

// What a program may begin with whose heading is missing.
const BEGINS: &[Kind] = &[
    Kind::Begin,
    Kind::Const,
    Kind::Type,
    Kind::Var,
    Kind::Procedure,
    Kind::Function,
];

// What begins a declaration, or several.
const DECLARES: &[Kind] = &[
    Kind::Const,
    Kind::Type,
    Kind::Var,
    Kind::Procedure,
    Kind::Function,
];

// The ends of a text: if it ends too early, doesn't begin with a heading, or continues after its end.
const AT_THE_ENDS: Steps = &[
    // nothing
    Rule,
    Same(Here, TextEnd),
    No(Back(1)),
    Says("the text is empty"),

    // the end of the text after the last `end`
    Rule,
    Same(Here, TextEnd),
    Same(Back(1), Ended),
    Expects("the text ends here: `.` is missing after the last `end`"),
    PutBehind(0, Ended, ".", "."),

    // the end of the text within something
    Rule,
    Same(Here, TextEnd),
    Expects("the text ends here, and this `"),
    Token(List),
    Put("` is not ended"),
    Label(One(List), "this `"),
    Token(List),
    Put("`"),
    Tell(More::Ends),
    Also,
    No(Begun),
    Holds(Fact::InRoutine),
    Help("its statements go between `begin` and `end;`"),
    Also,
    No(Begun),
    Fails(Fact::InRoutine),
    Help("its statements go between `begin` and `end.`"),

    // `10 print`
    Rule,
    No(Back(1)),
    Is(Here, &[Kind::Number]),
    Why("the lines of a program have no numbers"),

    // statements or declarations without a heading
    Rule,
    No(Back(1)),
    Why("the heading of the program is missing"),
    Tell(More::Beginning),
    Also,
    Spelled(Here, "uses"),
    Is(StatementEnd, &[Kind::Semicolon]),
    IsShown(To(Here, StatementEnd)),
    Holds(Fact::Reads),
    Exchange(To(Here, StatementEnd), "program name(input, output);"),
    Also,
    Spelled(Here, "uses"),
    Is(StatementEnd, &[Kind::Semicolon]),
    IsShown(To(Here, StatementEnd)),
    Fails(Fact::Reads),
    Exchange(To(Here, StatementEnd), "program name(output);"),
    Also,
    Is(Here, BEGINS),
    Holds(Fact::Reads),
    PutBefore(
        Here,
        "program name(input, output);",
        "program name(input, output); ",
    ),
    Also,
    Is(Here, BEGINS),
    Fails(Fact::Reads),
    PutBefore(Here, "program name(output);", "program name(output); "),
    Also,
    Is(Here, &[Kind::Name]),
    Is(Ahead(1), &[Kind::Name]),
    Is(Ahead(2), &[Kind::LeftParen, Kind::Semicolon]),
    Exchange(One(Here), "program"),

    // something after the end of the program
    Rule,
    NotBefore(Back(1), Point),
    Is(Point, &[Kind::Dot]),
    Why("the program ended before it"),
    Label(To(Ended, Point), "it ends here"),
    Also,
    Is(Here, DECLARES),
    Help("declarations come before the `begin` of the program"),
    Also,
    Same(Ahead(1), TextEnd),
    TakeAway(0, One(Here)),

    // `'n = 'n`
    Rule,
    Is(Back(1), &[Kind::Text]),
    SeemsDeclared(Here),
    Is(Ahead(1), &[Kind::Comma, Kind::Colon, Kind::RightParen]),
    Expects("`"),
    Token(Here),
    Put("` cannot stand here"),

    // `'don't'`
    Rule,
    Is(Back(1), &[Kind::Text]),
    Is(Here, &[Kind::Name]),
    Touches(Back(1)),
    Why("the string before it ended at its apostrophe"),
    Label(One(Back(1)), "this string"),
    Help("an apostrophe within a string is written twice"),
    Tell(More::Apostrophe),
];

// Puts what ends all that is open.
fn put_ends(cx: &Context<'_>, out: &mut Text) {
    let mut is_first = true;
    for open in cx.opened.opens.iter().rev() {
        if matches!(open.kind, Kind::Begin | Kind::Case | Kind::Record) {
            out.put(if is_first { "end" } else { " end" });
            is_first = false;
        }
    }
    out.put(".");
}

// Whether no more than an `end` is missing of a construction.
fn wants_end_alone(open: &Open) -> bool {
    match open.kind {
        Kind::Begin | Kind::Case | Kind::Record => true,
        Kind::LeftParen | Kind::LeftBracket | Kind::Repeat => false,
        _ => !matches!(open.stage, Stage::Head),
    }
}

// Whether the program would end if everything open got its `end`, and something is open.
fn ends_by_end(cx: &Context<'_>) -> bool {
    let mut has_end = false;
    for open in cx.opened.opens.iter() {
        if !wants_end_alone(open) {
            return false;
        }
        has_end = has_end || open.has_end();
    }
    has_end && cx.opened.blocks.len() == 1
}

/// Proposes to end all that is open.
pub(crate) fn propose_ends(cx: &Context<'_>, to: &mut Telling) {
    if !ends_by_end(cx) {
        return;
    }
    let mut put = joined(cx, &["\n"]);
    put_ends(cx, &mut put);
    let told = put.string.as_str().trim_ascii();
    put_behind(
        cx,
        to,
        0,
        cx.at.saturating_sub(1),
        told,
        put.string.as_str(),
    );
    to.has_failed = to.has_failed || put.has_failed;
}

/// The first rule that fits of those of the ends of a text.
pub(crate) fn at_the_ends(cx: &Context<'_>) -> Option<Steps> {
    first_of(cx, AT_THE_ENDS)
}
