//! What is reported for `else`, `end`, `until` and for what comes after an `end`.

use crate::context::Context;
use crate::kinds::ENDS_VALUE;
use crate::rule::Place::{
    Ahead, Back, Bare, BeforeOutside, Begun, BehindEnd, BehindThen, Closed, ClosedHead, ClosedName,
    Ended, EndedIf, Here, Innermost, List, Outside, PastIf, Start, TextEnd, Top, Unbegun, Unended,
    WaitingIf,
};
use crate::rule::Reach::One;
use crate::rule::Step::{
    Also, Enclose, Exchange, Fails, Has, Help, Holds, InHead, Is, IsNot, Label, Line, No,
    NotBefore, Note, Or, Put, PutBefore, PutBehind, Routine, Rule, Same, TakeAway, Token, Where,
    Why,
};
use crate::rule::{Fact, Steps};
use crate::tests::first_of;
use ps_scan::Kind;

// A statement after the `end` of a routine that ended too early.
const BEHIND_ROUTINE: Steps = &[
    // a statement after the `end` of a routine that ended too early
    Rule,
    Is(Back(1), &[Kind::Semicolon]),
    Is(Back(2), &[Kind::End]),
    Holds(Fact::RoutineEnded),
    Has(Closed),
    Is(BehindEnd, &[Kind::Semicolon]),
    Why("the `end` before it ends the "),
    Routine,
    Put(" `"),
    Token(ClosedName),
    Put("`"),
    Label(One(Closed), "its `begin`"),
    TakeAway(1, One(Back(2))),
    Also,
    Has(Unbegun),
    PutBehind(0, Unbegun, "begin", " begin"),
    Also,
    NotBefore(Bare, Closed),
    Help("the `"),
    Token(Bare),
    Put("` at "),
    Where(Bare),
    Put(" has no `begin`"),
];

// An `else` with no `if` that waits for it.
const AT_ELSE: Steps = &[
    // `if a then b; else`
    Rule,
    Is(Here, &[Kind::Else]),
    Holds(Fact::Statements),
    Has(EndedIf),
    Is(Back(1), &[Kind::Semicolon]),
    Why("the `;` before it ended the `if`"),
    Label(One(EndedIf), "the `if`"),
    TakeAway(0, One(Back(1))),

    // `if a then; b else`
    Rule,
    Is(Here, &[Kind::Else]),
    Holds(Fact::Statements),
    Is(BehindThen, &[Kind::Semicolon]),
    Why("the `;` after `then` ended the `if`"),
    Label(One(PastIf), "the `if`"),
    TakeAway(0, One(BehindThen)),

    // `if a then b; c; else`: further statements between
    Rule,
    Is(Here, &[Kind::Else]),
    Holds(Fact::Statements),
    Has(PastIf),
    Why("the `if` before it ended at its `;`"),
    Label(One(PastIf), "the `if`"),
    Enclose(BehindThen, Here),
    Help("several statements count as one between `begin` and `end`"),

    // `else` without an `if` that waits for it
    Rule,
    Is(Here, &[Kind::Else]),
    Holds(Fact::Statements),
    No(WaitingIf),
    Fails(Fact::Inside),
    Why("no `if` before it needs one"),

    // `else` within a `begin` that has not ended, in an `if`
    Rule,
    Is(Here, &[Kind::Else]),
    Holds(Fact::Statements),
    Is(List, &[Kind::Begin]),
    NotBefore(List, WaitingIf),
    Why("`end` is missing before it"),
    Label(One(List), "this `begin` is not ended"),
    Also,
    Is(Back(1), &[Kind::Semicolon]),
    Exchange(One(Back(1)), " end"),
    Also,
    IsNot(Back(1), &[Kind::Semicolon]),
    PutBehind(0, Back(1), "end", " end"),
];

// What comes after the constants of a `case`, or after the first of them.
const BEHIND_CONSTANT: &[Kind] = &[Kind::Colon, Kind::Comma];

// The constants of a `case` after a `begin` in it that has no end.
const AT_CONSTANTS: Steps = &[
    // `case n of 1: begin a; 2: b`
    Rule,
    Is(Here, &[Kind::Number, Kind::Text]),
    Same(Start, Here),
    Is(Ahead(1), BEHIND_CONSTANT),
    Is(List, &[Kind::Begin]),
    NotBefore(List, Innermost(Kind::Case)),
    // `case n of 1: begin a`, and `2: b` on the next line
    Or,
    Is(Here, &[Kind::Number, Kind::Text]),
    Fails(Fact::OneLine),
    Is(Ahead(1), BEHIND_CONSTANT),
    Is(List, &[Kind::Begin]),
    NotBefore(List, Innermost(Kind::Case)),
    Why("`end` is missing before it"),
    Label(One(List), "this `begin` is not ended"),
    PutBefore(Here, "end;", "end; "),
];

// An `until` with no `repeat` that waits for it.
const AT_UNTIL: Steps = &[
    // `until` without a `repeat` that waits for it
    Rule,
    Is(Here, &[Kind::Until]),
    Holds(Fact::Statements),
    No(Innermost(Kind::Repeat)),
    Same(List, Begun),
    Or,
    Is(Here, &[Kind::Until]),
    Holds(Fact::Statements),
    No(Innermost(Kind::Repeat)),
    IsNot(List, &[Kind::Begin]),
    Why("no `repeat` before it needs one"),

    // `begin a until b`
    Rule,
    Is(Here, &[Kind::Until]),
    Holds(Fact::Statements),
    No(Innermost(Kind::Repeat)),
    Why("a `begin` ends with `end`, and a `repeat` with `until`"),
    Label(One(List), "the `begin`"),
    Exchange(One(List), "repeat"),

    // `until` within a `begin` that has not ended, in a `repeat`
    Rule,
    Is(Here, &[Kind::Until]),
    Holds(Fact::Statements),
    Is(List, &[Kind::Begin]),
    NotBefore(List, Innermost(Kind::Repeat)),
    Why("`end` is missing before it"),
    Label(One(List), "this `begin` is not ended"),
    PutBefore(Here, "end", "end "),
];

// What comes after the `end` of the program or of a routine.
const BEHIND_END: Steps = &[
    // something after the `end` that ended the program
    Rule,
    Same(Back(1), Ended),
    Has(Closed),
    Why("the `end` before it ends the program"),
    Label(One(Closed), "its `"),
    Token(Closed),
    Put("`"),
    Also,
    Has(Unbegun),
    PutBehind(0, Unbegun, "begin", " begin"),
    Also,
    NotBefore(Bare, Closed),
    Help("the `"),
    Token(Bare),
    Put("` at "),
    Where(Bare),
    Put(" has no `begin`"),
    Also,
    Same(Ahead(1), TextEnd),
    Exchange(One(Here), "."),
    Also,
    Is(Here, &[Kind::Name]),
    Is(Ahead(1), &[Kind::Dot]),
    TakeAway(0, One(Here)),
    Also,
    TakeAway(1, One(Ended)),

    // an `end` after that of a routine
    Rule,
    Is(Here, &[Kind::End]),
    Is(Back(1), &[Kind::End]),
    Has(Closed),
    Has(ClosedHead),
    Why("the `end` before it ends the "),
    Routine,
    Put(" `"),
    Token(ClosedName),
    Put("`"),
    Label(One(Closed), "its `begin`"),
    TakeAway(1, One(Here)),
    Also,
    Has(Unbegun),
    PutBehind(0, Unbegun, "begin", " begin"),
    Also,
    NotBefore(Bare, Closed),
    Help("the `"),
    Token(Bare),
    Put("` at "),
    Where(Bare),
    Put(" has no `begin`"),

    // a point after the `end` of a routine
    Rule,
    Is(Here, &[Kind::Dot]),
    Is(Back(1), &[Kind::End]),
    No(Ended),
    Has(Closed),
    Has(ClosedHead),
    Why("the `end` before it ends the "),
    Routine,
    Put(" `"),
    Token(ClosedName),
    Put("`"),
    Label(One(ClosedHead), "this `"),
    Routine,
    Put("`"),
    Exchange(One(Here), ";"),
];

// The `end` of something else.
const AT_INNER_END: Steps = &[
    // a point after the `end` of something else
    Rule,
    Is(Here, &[Kind::Dot]),
    Is(Back(1), &[Kind::End]),
    No(Ended),
    Has(Closed),
    Why("the `end` before it ends an inner `"),
    Token(Closed),
    Put("`"),
    Label(One(Closed), "its `"),
    Token(Closed),
    Put("`"),
    Also,
    Has(Outside),
    No(Unended),
    Note("line "),
    Line(Outside),
    Put(" is indented as if this `"),
    Token(Closed),
    Put("` had ended before it"),
    Also,
    Has(Unended),
    Note("line "),
    Line(Outside),
    Put(" is indented as if the `"),
    Token(Unended),
    Put("` at "),
    Where(Unended),
    Put(" had ended before it"),
    Also,
    Holds(Fact::InRoutine),
    Is(Closed, &[Kind::Begin]),
    PutBefore(Closed, "end;", "end; "),
    Also,
    Is(BeforeOutside, &[Kind::Semicolon]),
    PutBefore(Outside, "end;", "end; "),
    Also,
    Is(Outside, &[Kind::End]),
    IsNot(BeforeOutside, &[Kind::Semicolon]),
    PutBefore(Outside, "end", "end "),
    Also,
    No(Unended),
    Has(Back(2)),
    PutBehind(1, Back(2), "end", " end"),

    // `repeat a end`
    Rule,
    Is(Here, &[Kind::End]),
    Is(List, &[Kind::Repeat]),
    Why("a `repeat` ends with `until`"),
    Label(One(List), "the `repeat`"),
];

// The word of another construction, as `then` in a `while`.
const IN_HEADS: Steps = &[
    // `while a then`
    Rule,
    InHead(&[Kind::While, Kind::For, Kind::With]),
    Is(Here, &[Kind::Then]),
    Is(Back(1), ENDS_VALUE),
    Why("a `"),
    Token(Top),
    Put("` has `do`"),
    Label(One(Top), "the `"),
    Token(Top),
    Put("`"),
    Exchange(One(Here), "do"),

    // `if a do`
    Rule,
    InHead(&[Kind::If]),
    Is(Here, &[Kind::Do]),
    Is(Back(1), ENDS_VALUE),
    Why("an `if` has `then`"),
    Label(One(Top), "the `if`"),
    Exchange(One(Here), "then"),

    // `case a do`
    Rule,
    InHead(&[Kind::Case]),
    Is(Here, &[Kind::Do, Kind::Then]),
    Is(Back(1), ENDS_VALUE),
    Why("a `"),
    Token(Top),
    Put("` has `of`"),
    Label(One(Top), "the `"),
    Token(Top),
    Put("`"),
    Exchange(One(Here), "of"),
];

/// The rule of constants of a `case` after a `begin` in it that has no end, if it fits.
pub(crate) fn before_constants(cx: &Context<'_>) -> Option<Steps> {
    first_of(cx, AT_CONSTANTS)
}

/// The rule of a statement after the `end` of a routine, if it fits.
pub(crate) fn of_routine_before(cx: &Context<'_>) -> Option<Steps> {
    first_of(cx, BEHIND_ROUTINE)
}

/// The first rule that fits, of those for `else`, `until` and `end`.
pub(crate) fn at_the_end(cx: &Context<'_>) -> Option<Steps> {
    first_of(cx, AT_ELSE)
        .or(first_of(cx, AT_UNTIL))
        .or(first_of(cx, BEHIND_END))
        .or(first_of(cx, AT_INNER_END))
        .or(first_of(cx, IN_HEADS))
}
