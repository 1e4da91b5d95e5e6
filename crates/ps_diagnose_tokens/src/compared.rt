//! What is reported for comparisons: a second one in an expression, and what comes after `in`.

use crate::context::{Context, slice};
use crate::kinds::{COMPARES, ENDS_VALUE, JOINS};
use crate::rule::Place::{
    Back, ExpressionEnd, ExpressionStart, First, FirstComparison, Here, Joint, JointLeft,
    JointRight, NextExpressionEnd,
};
use crate::rule::Reach::{Between, One, UpTo};
use crate::rule::Step::{
    Alike, Also, Exchange, Has, Help, Holds, Is, IsShown, Label, Put, Rule, Tell, Token, Tokens,
    Why,
};
use crate::rule::{Fact, More, Steps};
use crate::spread::{expression_end, expression_start, first_between};
use crate::tell::{exchange_text, joined};
use crate::tests::first_of;
use ps_diagnose::{Telling, Text};
use ps_scan::Kind;

// The most bytes of a condition for which parentheses are proposed: the change shows it twice.
const MOST: u32 = 200;

// Comparisons that are not what they seem.
const COMPARED: Steps = &[
    // `a = 1 or b = 2`
    Rule,
    Is(Here, COMPARES),
    Holds(Fact::Statements),
    Is(Back(1), ENDS_VALUE),
    Has(Joint),
    Alike(FirstComparison, Here),
    Why("`"),
    Token(Joint),
    Put("` binds tighter than `"),
    Token(Here),
    Put("`"),
    Label(One(Joint), "this takes `"),
    Tokens(Between(JointLeft, Joint)),
    Put("` and `"),
    Tokens(Between(Joint, JointRight)),
    Put("`"),
    Tell(More::Parentheses),

    // `a < 1 and b = 2`: the second comparison has another sign
    Rule,
    Is(Here, COMPARES),
    Holds(Fact::Statements),
    Is(Back(1), ENDS_VALUE),
    Has(Joint),
    Why("`"),
    Token(Joint),
    Put("` binds tighter than `"),
    Token(FirstComparison),
    Put("` and `"),
    Token(Here),
    Put("`"),
    Label(One(Joint), "this takes `"),
    Tokens(Between(JointLeft, Joint)),
    Put("` and `"),
    Tokens(Between(Joint, JointRight)),
    Put("`"),
    Tell(More::Parentheses),

    // `a < b < c`
    Rule,
    Is(Here, COMPARES),
    Holds(Fact::Statements),
    Is(Back(1), ENDS_VALUE),
    Has(FirstComparison),
    Why("a comparison has two sides"),
    Label(One(FirstComparison), "the first comparison"),
    Help("join two comparisons like this: `(a < b) and (b < c)`"),
    Also,
    IsShown(UpTo(ExpressionStart, Here)),
    IsShown(Between(FirstComparison, ExpressionEnd)),
    Exchange(UpTo(ExpressionStart, ExpressionEnd), "("),
    Tokens(UpTo(ExpressionStart, Here)),
    Put(") and ("),
    Tokens(Between(FirstComparison, ExpressionEnd)),
    Put(")"),

    // `c in 'a'..'z'`
    Rule,
    Is(Here, &[Kind::DotDot]),
    Holds(Fact::Statements),
    Has(First(Kind::In)),
    Why("`in` needs a set after it"),
    Label(One(First(Kind::In)), "the `in`"),
    Exchange(Between(First(Kind::In), NextExpressionEnd), "["),
    Tokens(Between(First(Kind::In), NextExpressionEnd)),
    Put("]"),
];

// Puts a piece of a condition, in parentheses if it compares.
fn put_piece(cx: &Context<'_>, out: &mut Text, from: usize, to: usize) {
    let is_not = cx.is_of(from, &[Kind::Not]);
    let first = if is_not { from.saturating_add(1) } else { from };
    let compares = first_between(cx, first, to, COMPARES).is_some();
    let text = str::from_utf8(cx.piece(cx.span_of(first, to.saturating_sub(1)))).unwrap_or("");
    out.put(before_piece(is_not, compares));
    out.put(text);
    out.put(if compares { ")" } else { "" });
}

// What comes before a piece of a condition.
fn before_piece(is_not: bool, compares: bool) -> &'static str {
    match (is_not, compares) {
        (true, true) => "not (",
        (true, false) => "not ",
        (false, true) => "(",
        (false, false) => "",
    }
}

// The text between two tokens, with the first of them: an operator with the spaces around it.
fn joint_text<'a>(cx: &Context<'a>, joint: usize) -> &'a str {
    let from = cx.span(joint.saturating_sub(1)).to;
    let to = cx.span(joint.saturating_add(1)).from;
    str::from_utf8(slice(cx.bytes, from, to)).unwrap_or(" ")
}

// Puts a condition with parentheses around its comparisons.
fn put_condition(cx: &Context<'_>, out: &mut Text, start: usize, end: usize) {
    let mut from = start;
    for _ in start..end {
        let Some(joint) = first_between(cx, from, end, JOINS) else {
            break;
        };
        put_piece(cx, out, from, joint);
        out.put(joint_text(cx, joint));
        from = joint.saturating_add(1);
    }
    put_piece(cx, out, from, end);
}

/// Proposes parentheses around the comparisons of the condition at the place.
pub(crate) fn propose_parentheses(cx: &Context<'_>, to: &mut Telling) {
    let start = expression_start(cx, cx.at);
    let end = expression_end(cx, cx.at);
    let span = cx.span_of(start, end.saturating_sub(1));
    if span.to.saturating_sub(span.from) > MOST {
        to.help(joined(cx, &["put each comparison in parentheses"]));
        return;
    }
    let mut text = Text::new(cx.alloc);
    put_condition(cx, &mut text, start, end);
    if cx.piece(span).contains(&b'\n') {
        let mut words = joined(
            cx,
            &["put each comparison, from `", cx.told(start), "` at "],
        );
        words.put_place(cx.bytes, span.from);
        words.put(" on, in parentheses");
        to.propose(cx.alloc, 0, words);
        to.change(span, text);
    } else {
        exchange_text(cx, to, span, text);
    }
}

/// The first rule that fits of those of comparisons.
pub(crate) fn compared(cx: &Context<'_>) -> Option<Steps> {
    first_of(cx, COMPARED)
}
