//! What is reported for what this compiler leaves out.

use crate::context::Context;
use crate::ended::before_constants;
use crate::reals;
use crate::rows::{Part, other_pascal};
use crate::rule::Place::{Ahead, Back, Here, Start, Top};
use crate::rule::Reach::To;
use crate::rule::Step::{
    Advice, Also, Exchange, ExchangeSign, Fails, Help, Holds, Is, IsNot, Names, Or, Origin, Put,
    Rule, Same, Says, Tell, Token, Touches,
};
use crate::rule::{Fact, More, Steps};
use crate::tell::{exchange, joined};
use crate::tests::first_of;
use ps_diagnose::{RequiredName, Telling};
use ps_scan::Kind;

// What begins with a slash.
const OF_SLASHES: Steps = &[
    // `n // 2`
    Rule,
    Is(Here, &[Kind::Slash]),
    Is(Ahead(1), &[Kind::Slash]),
    Touches(Here),
    Holds(Fact::Divides),
    Says("`//` comes from Python"),
    Help("Quotient and remainder are `div` and `mod`."),
    ExchangeSign("//", "div"),

    // `// a comment`
    Rule,
    Is(Here, &[Kind::Slash]),
    Is(Ahead(1), &[Kind::Slash]),
    Touches(Here),
    Says("`//` comes from "),
    Origin(Part::Statements, "/ /"),
    Advice(Part::Statements, "/ /"),
    Tell(More::Braces),

    // `/* a comment */`
    Rule,
    Is(Here, &[Kind::Slash]),
    Is(Ahead(1), &[Kind::Star]),
    Touches(Here),
    Says("`/*` comes from "),
    Origin(Part::Statements, "/ *"),
    Advice(Part::Statements, "/ *"),
    Tell(More::Stars),

    // `if a =/= b`
    Rule,
    Is(Here, &[Kind::Slash]),
    Is(Ahead(1), &[Kind::Equal]),
    Is(Back(1), &[Kind::Equal]),
    Touches(Here),
    Says("`=/=` is written `<>`"),
    Exchange(To(Back(1), Ahead(1)), "<>"),

    // `if a /= b`
    Rule,
    Is(Here, &[Kind::Slash]),
    Is(Ahead(1), &[Kind::Equal]),
    Touches(Here),
    Fails(Fact::BehindVariable),
    Says("`/=` comes from Ada"),
    Help("Not equal is `<>`."),
    Exchange(To(Here, Ahead(1)), "<>"),

    // `a /= b`
    Rule,
    Is(Here, &[Kind::Slash]),
    Is(Ahead(1), &[Kind::Equal]),
    Touches(Here),
    Says("`/=` comes from "),
    Origin(Part::Statements, "/ ="),
    Advice(Part::Statements, "/ ="),
    Tell(More::Divided),
];

// Widths, labels, variant parts and program parameters.
const OF_CONSTRUCTS: Steps = &[
    // `writeln(a:1:2)`
    Rule,
    Is(Here, &[Kind::Colon]),
    Is(Top, &[Kind::LeftParen]),
    Says("a second width is for real numbers, and this compiler has none"),
    Tell(More::Reals),
    Advice(Part::StatementsLeftOut, ": 2"),

    // `1: a := 2`
    Rule,
    Is(Here, &[Kind::Number]),
    Same(Start, Here),
    Or,
    Is(Here, &[Kind::Colon]),
    Is(Back(1), &[Kind::Number]),
    Same(Start, Back(1)),
    Says("`"),
    Token(Start),
    Put("` is a label, and this compiler has none"),
    Advice(Part::StatementsLeftOut, "1 :"),

    // a variant part
    Rule,
    Is(Here, &[Kind::Case]),
    Fails(Fact::Statements),
    Says("a record has no variant part in this compiler"),
    Advice(Part::DeclarationsLeftOut, "case"),

    // a program parameter that is neither `input` nor `output`
    Rule,
    Is(Here, &[Kind::Name]),
    Is(Top, &[Kind::LeftParen]),
    Fails(Fact::InRoutine),
    Fails(Fact::Headed),
    Says("`"),
    Token(Here),
    Put("` is not a program parameter here: these are `input` and `output`"),
    Tell(More::Files),
    Help("other files are given on the command line: `pascal go p.pas < a.txt > b.txt`"),
];

// The files, and each other name, word or sign: the last rule fits each refusal.
const OF_NAMES: Steps = &[
    // `input` elsewhere than first in a list of parameters
    Rule,
    Is(Here, &[Kind::Name]),
    Names(Here, &[RequiredName::Input]),
    Says("`"),
    Token(Here),
    Put("` can only come first in `read`, `readln`, `eof` and `eoln`"),
    Also,
    Is(Ahead(1), &[Kind::Caret]),
    Advice(Part::StatementsLeftOut, "input ^"),
    Also,
    Is(Ahead(1), &[Kind::LeftParen]),
    Help("`read(n)` gives a variable what is read; write the question first, with `write`"),
    Also,
    IsNot(Ahead(1), &[Kind::Caret, Kind::LeftParen]),
    Help("the files are `input` and `output` alone, and no variable holds one"),

    // `output` elsewhere
    Rule,
    Is(Here, &[Kind::Name]),
    Names(Here, &[RequiredName::Output]),
    Says("`"),
    Token(Here),
    Put("` can only come first in `write` and `writeln`"),
    Also,
    Is(Ahead(1), &[Kind::Caret]),
    Advice(Part::StatementsLeftOut, "input ^"),
    Also,
    IsNot(Ahead(1), &[Kind::Caret]),
    Help("the files are `input` and `output` alone, and no variable holds one"),

    // another name, word or sign: this fits each refusal
    Rule,
    Says("`"),
    Token(Here),
    Put("` is left out of this compiler"),
    Tell(More::LeftOut),
    Also,
    Names(Here, reals::NAMES),
    Tell(More::Reals),
];

/// Adds the advice of the row of the token at the place, and what replaces the token.
pub(crate) fn advise_left_out(cx: &Context<'_>, to: &mut Telling) {
    let word = cx.told(cx.at);
    let row = other_pascal(Part::StatementsLeftOut, word);
    let Some(row) = row.or(other_pascal(Part::DeclarationsLeftOut, word)) else {
        return;
    };
    to.help(joined(cx, &[row.advice]));
    if let Some(put) = row.mend {
        exchange(cx, to, 0, cx.span(cx.at), put);
    }
}

/// The first rule that fits of those of what is left out; one fits each refusal.
pub(crate) fn rule_of_left_out(cx: &Context<'_>) -> Option<Steps> {
    first_of(cx, OF_SLASHES)
        .or(before_constants(cx))
        .or(first_of(cx, OF_CONSTRUCTS))
        .or(first_of(cx, OF_NAMES))
}
