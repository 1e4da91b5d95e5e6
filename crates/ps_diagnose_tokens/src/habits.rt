//! What is reported for lists, `case` statements and declarations among statements, by the habits of other languages.

use crate::context::Context;
use crate::declaring::BEGINS_TYPE;
use crate::kinds::{COMPARES, OPERATORS};
use crate::places::number_of;
use crate::rule::Place::{Ahead, Back, BeforeTop, Begun, BehindNames, Here, Start, Top, TopEnd};
use crate::rule::Reach::{Between, One, To};
use crate::rule::Step::{
    Exchange, Help, Holds, InBody, Is, Label, NamesType, Or, Put, Rule, Same, Spelled, TakeAway,
    Tell, Tokens, Why,
};
use crate::rule::{Fact, More, Place, Steps};
use crate::spread::statement_end;
use crate::tell::{joined, move_up};
use crate::tests::first_of;
use ps_diagnose::Telling;
use ps_scan::Kind;
use ps_text::Span;

// What is reported for a declaration among statements.
const AMONG: &str = "declarations come before `begin`";

// Lists, `case` statements and declarations among statements.
const IN_STATEMENTS: Steps = &[
    // `in (1, 2)`
    Rule,
    Is(Here, &[Kind::Comma]),
    Is(Top, &[Kind::LeftParen]),
    Is(BeforeTop, &[Kind::In]),
    Is(TopEnd, &[Kind::RightParen]),
    Why("a set is written between `[` and `]`"),
    Exchange(To(Top, TopEnd), "["),
    Tokens(Between(Top, TopEnd)),
    Put("]"),

    // `:= (1, 2)`
    Rule,
    Is(Here, &[Kind::Comma]),
    Is(Top, &[Kind::LeftParen]),
    Is(BeforeTop, &[Kind::Assign]),
    Why("one value is assigned, not a list"),
    Help("assign the components of an array or a record one by one"),
    Help("a set is written between `[` and `]`"),

    // `break;` in a `case`
    Rule,
    Holds(Fact::BehindConstant),
    Spelled(Back(1), "break"),
    Is(Back(2), &[Kind::Semicolon]),
    Why("a `case` does one statement, and needs no `break`"),
    TakeAway(0, To(Back(2), Back(1))),

    // `case n of n > 1:`
    Rule,
    Holds(Fact::BehindConstant),
    Is(Here, OPERATORS),
    Is(Back(2), BEFORE_CONSTANT),
    Or,
    InBody(&[Kind::Case]),
    Same(Start, Here),
    Is(Here, COMPARES),
    Is(Back(1), BEFORE_CONSTANT),
    Why("a `case` has constants, not conditions"),
    Help("conditions are tested by `if .. then .. else if ..`"),

    // `i: integer;`
    Rule,
    Is(Here, &[Kind::Colon]),
    Is(Top, &[Kind::Begin, Kind::Repeat]),
    Same(Start, Back(1)),
    Is(Back(1), &[Kind::Name]),
    Is(Ahead(1), &[Kind::Name]),
    Is(Ahead(2), &[Kind::Semicolon]),
    // `a: array ..;`
    Or,
    Is(Here, &[Kind::Colon]),
    Is(Top, &[Kind::Begin, Kind::Repeat]),
    Same(Start, Back(1)),
    Is(Back(1), &[Kind::Name]),
    Is(Ahead(1), BEGINS_TYPE),
    // `a, b: integer;`
    Or,
    Is(Here, &[Kind::Comma]),
    Is(Top, &[Kind::Begin, Kind::Repeat]),
    Same(Start, Back(1)),
    Is(BehindNames, &[Kind::Colon]),
    Why(AMONG),
    Label(One(Begun), "the `begin`"),
    Tell(More::Variables),

    // `integer i;`
    Rule,
    Is(Here, &[Kind::Name]),
    Holds(Fact::Statements),
    Same(Start, Back(1)),
    NamesType(Back(1)),
    Why(AMONG),
    Label(One(Begun), "the `begin`"),
    Help("in the `var` part a variable is declared as `n: integer`"),
];

// What comes before the constants of a `case`.
const BEFORE_CONSTANT: &[Kind] = &[Kind::Of, Kind::Semicolon];

/// Proposes to move the declaration of variables that begins the statement, or at the place, before the routines or the
/// statements of the block, with the word of their part if the block has none.
pub(crate) fn move_variables(cx: &Context<'_>, to: &mut Telling) {
    let block = cx.opened.block();
    let first = if block.begun.is_some() {
        cx.opened.start
    } else {
        cx.at
    };
    let last = statement_end(cx, cx.at);
    let is_ended = cx.is_of(last, &[Kind::Semicolon]);
    if let Some(before) = block.routines.or(block.begun)
        && is_ended
    {
        let word = if block.variables.is_some() {
            ""
        } else {
            "var "
        };
        let span = cx.span_of(first, last);
        move_up(cx, to, span, before, word, span);
    }
}

/// Proposes `begin` before a token, and `end` before another one.
pub(crate) fn enclose(cx: &Context<'_>, to: &mut Telling, first: &Place, behind: &Place) {
    let (Some(first), Some(behind)) = (number_of(cx, first), number_of(cx, behind)) else {
        return;
    };
    let (begin, end) = (cx.span(first).from, cx.span(behind).from);
    let mut words = joined(cx, &["put `begin` before `", cx.told(first), "` at "]);
    words.put_place(cx.bytes, begin);
    words.put_all(&[", and `end` before `", cx.told(behind), "` at "]);
    words.put_place(cx.bytes, end);
    to.propose(cx.alloc, 0, words);
    to.change(
        Span {
            from: begin,
            to: begin,
        },
        joined(cx, &["begin "]),
    );
    let put = if cx.is_of(behind, &[Kind::Semicolon]) {
        " end"
    } else {
        "end "
    };
    to.change(Span { from: end, to: end }, joined(cx, &[put]));
}

/// The first rule that fits of those of lists, `case` statements and declarations.
pub(crate) fn in_statements(cx: &Context<'_>) -> Option<Steps> {
    first_of(cx, IN_STATEMENTS)
}
