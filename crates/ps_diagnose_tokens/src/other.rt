//! What is reported for words and signs that other Pascals and other languages have.

use crate::context::Context;
use crate::rows::{Part, Row, row_of};
use crate::rule::Place::{Ahead, Back, Here, NextExpressionEnd, TextEnd, Top};
use crate::rule::Step::{Fails, Fits, InPart, Is, IsNot, NotBefore, Or, Rule};
use crate::rule::{Fact, Steps};
use crate::spread::statement_end;
use crate::table::{numbers_of, text_at};
use crate::tell::{exchange, exchange_text, joined, refusal, shown, take_away};
use crate::tests::first_of;
use ps_diagnose::{Telling, Text};
use ps_scan::Kind;

/// The part of the table for the place.
pub(crate) fn part_here(cx: &Context<'_>) -> Part {
    let block = cx.opened.block();
    if cx.is_in_parameters() {
        Part::Parameters
    } else if !block.is_told && !block.is_routine {
        Part::Program
    } else if !block.is_told && block.is_function {
        Part::Result
    } else if !cx.is_in_statements() {
        Part::Declarations
    } else if block.is_function {
        Part::Function
    } else {
        Part::Statements
    }
}

// The part whose rows are reported too.
fn part_beside(part: Part) -> Part {
    match part {
        Part::Declarations => Part::Program,
        Part::Result => Part::Declarations,
        Part::Function => Part::Statements,
        _ => part,
    }
}

// Whether a token is a piece of a row.
fn is_piece(cx: &Context<'_>, at: usize, piece: &str) -> bool {
    if piece == "NAME" {
        cx.is_of(at, &[Kind::Name])
    } else {
        cx.is_spelled(at, piece)
    }
}

// Whether a piece is a sign.
fn is_sign(piece: &str) -> bool {
    match piece.as_bytes().first() {
        Some(byte) => !byte.is_ascii_alphanumeric(),
        None => true,
    }
}

// Whether the pieces of a row begin at a token; signs with nothing between them, except those after a colon.
fn stands_from(cx: &Context<'_>, row: &Row, from: usize) -> bool {
    let mut at = from;
    let mut was_sign = false;
    for piece in row.word.split(' ') {
        let is_apart = was_sign && is_sign(piece) && !cx.touches_next(at.saturating_sub(1));
        if is_apart || !is_piece(cx, at, piece) {
            return false;
        }
        was_sign = is_sign(piece) && piece != ":";
        at = at.saturating_add(1);
    }
    true
}

// How many pieces a row has.
fn count_of(row: &Row) -> usize {
    row.word.split(' ').count()
}

// The first token of a row that is at the place, if the row is there.
fn stands(cx: &Context<'_>, row: &Row) -> Option<usize> {
    let behind = if row.is_behind { 1 } else { 0 };
    for back in 0..count_of(row).saturating_add(behind) {
        let from = cx.at.checked_sub(back)?;
        if stands_from(cx, row, from) {
            return Some(from);
        }
    }
    None
}

// Whether what must enclose a row is there.
fn is_within(cx: &Context<'_>, row: &Row) -> bool {
    match cx.opened.top() {
        _ if row.within.is_empty() => true,
        Some(open) => cx.is_spelled(open.at, row.within),
        None => false,
    }
}

// A row that is meant only if a rule fits the tokens around the place.
struct Doubtful {
    word: &'static str,
    rule: Steps,
}

// The place is in a `for`.
const IN_FOR: Steps = &[Rule, Is(Top, &[Kind::For]), Fits];

// The rows that are meant only if a rule fits; those of words of blocks never, for which other reasons say more.
const DOUBTFUL: &[Doubtful] = &[
    Doubtful {
        word: "var",
        rule: &[],
    },
    Doubtful {
        word: "begin",
        rule: &[],
    },
    // no more than an `if` ends, as if it is reported what is ended
    Doubtful {
        word: "end if",
        rule: &[
            Rule,
            Is(Ahead(1), &[Kind::Semicolon, Kind::End, Kind::Else]),
            Or,
            NotBefore(Ahead(1), TextEnd),
            Fits,
        ],
    },
    Doubtful {
        word: "value",
        rule: &[
            Rule,
            Is(
                Ahead(1),
                &[Kind::Number, Kind::Text, Kind::Plus, Kind::Minus],
            ),
            Fits,
        ],
    },
    Doubtful {
        word: "step",
        rule: IN_FOR,
    },
    Doubtful {
        word: "by",
        rule: IN_FOR,
    },
    Doubtful {
        word: "= =",
        rule: &[Rule, Fails(Fact::BehindVariable), Fits],
    },
    // an arrow that doesn't assign, or comes after a constant of a `case`
    Doubtful {
        word: "= >",
        rule: &[
            Rule,
            Fails(Fact::BehindConstant),
            Fails(Fact::BehindVariable),
            Fits,
        ],
    },
    Doubtful {
        word: "- >",
        rule: &[Rule, Fails(Fact::BehindConstant), Fits],
    },
    Doubtful {
        word: "; do",
        rule: &[Rule, Is(Here, &[Kind::Do]), Fits],
    },
    // the `then` is not that of the `if` whose condition is open
    Doubtful {
        word: "and then",
        rule: &[
            Rule,
            IsNot(Top, &[Kind::If]),
            Or,
            Is(NextExpressionEnd, &[Kind::Then]),
            Fits,
        ],
    },
    // a constant is declared with a type
    Doubtful {
        word: "NAME :",
        rule: &[
            Rule,
            InPart(&[Kind::Const]),
            Is(Here, &[Kind::Colon]),
            Is(Ahead(1), &[Kind::Name]),
            Is(Ahead(2), &[Kind::Equal]),
            Fits,
        ],
    },
    // a value of a variable or a parameter after its type
    Doubtful {
        word: "NAME =",
        rule: &[
            Rule,
            Is(Here, &[Kind::Equal]),
            Is(Back(2), &[Kind::Colon]),
            Fits,
        ],
    },
];

// Whether a row that is at the place is meant there.
fn is_meant(cx: &Context<'_>, row: &Row) -> bool {
    for doubtful in DOUBTFUL.iter() {
        if doubtful.word == row.word {
            return first_of(cx, doubtful.rule).is_some();
        }
    }
    true
}

// Whether a row of this refusal is at the place.
fn fits(cx: &Context<'_>, row: &Row) -> bool {
    matches!(row.number, Some(20))
        && is_meant(cx, row)
        && is_within(cx, row)
        && stands(cx, row).is_some()
}

// The row of a text that is at the place.
fn row_in_text(cx: &Context<'_>, text: &'static str) -> Option<Row> {
    for line in text.split('\n') {
        let row = row_of(line);
        if fits(cx, &row) {
            return Some(row);
        }
    }
    None
}

// The row of a part that is at the place.
fn row_in_part(cx: &Context<'_>, part: Part) -> Option<Row> {
    let (first, end) = numbers_of(part);
    for number in first..end {
        if let Some(row) = row_in_text(cx, text_at(number)) {
            return Some(row);
        }
    }
    None
}

// The row of the table at the place.
fn row_here(cx: &Context<'_>) -> Option<Row> {
    let part = part_here(cx);
    match row_in_part(cx, part) {
        Some(row) => Some(row),
        None => row_in_part(cx, part_beside(part)),
    }
}

// Whether a row that begins at a token is something else: a name that the text seems to declare, or two signs of which
// the second belongs to a value.
fn is_else(cx: &Context<'_>, row: &Row, from: usize) -> bool {
    match row.word {
        "+ +" | "- -" => {
            let next = cx.at.saturating_add(1);
            cx.is_of(next, &[Kind::Name, Kind::Number, Kind::LeftParen])
        }
        word if word.starts_with("NAME ") => false,
        _ => cx.is_of(from, &[Kind::Name]) && cx.seems_declared(from),
    }
}

/// The row of the table that is at the place and is meant there, with its first token.
pub(crate) fn other_here(cx: &Context<'_>) -> Option<(Row, usize)> {
    let row = row_here(cx)?;
    let from = stands(cx, &row)?;
    if is_else(cx, &row, from) {
        return None;
    }
    Some((row, from))
}

// Puts the pieces of a row: signs with nothing between.
fn put_word(out: &mut Text, row: &Row) {
    let mut was_sign = true;
    let mut is_first = true;
    for piece in row.word.split(' ') {
        let is_sign = is_sign(piece);
        let is_apart = !is_first && !(was_sign && is_sign) && piece != "[";
        out.put(if is_apart { " " } else { "" });
        out.put(piece);
        was_sign = is_sign;
        is_first = false;
    }
}

// Puts what a row that begins at a token is.
fn put_row(cx: &Context<'_>, out: &mut Text, row: &Row, from: usize) {
    let is_all = from == cx.at && count_of(row) == 1;
    if !row.within.is_empty() {
        out.put_all(&["in a `", row.within, "` "]);
    }
    if is_all || row.word.starts_with("NAME ") {
        out.put_all(&["it comes from ", row.origin()]);
    } else if row.word.starts_with("; ") {
        out.put_all(&["where a statement begins, it comes from ", row.origin()]);
    } else {
        out.put("`");
        put_word(out, row);
        out.put_all(&["` comes from ", row.origin()]);
    }
}

// Adds the sentence of a row.
fn say_row(cx: &Context<'_>, to: &mut Telling, row: &Row, from: usize) {
    let mut text = refusal(cx);
    if row.word.starts_with(": ") && cx.is_in_parameters() {
        text.put("the type of a parameter is a name");
    } else {
        put_row(cx, &mut text, row, from);
    }
    to.draft.expects = true;
    to.say(text);
}

// Adds what encloses a row.
fn label_within(cx: &Context<'_>, to: &mut Telling, row: &Row) {
    if let Some(open) = cx.opened.top()
        && !row.within.is_empty()
    {
        to.label(cx.span(open.at), joined(cx, &["the `", row.within, "`"]));
    }
}

// Proposes what a row is exchanged for.
fn propose_mend(cx: &Context<'_>, to: &mut Telling, row: &Row, from: usize) {
    let last = from.saturating_add(count_of(row)).saturating_sub(1);
    let span = cx.span_of(from, last);
    match row.mend {
        Some("") => take_away(cx, to, 0, span),
        Some(put) => exchange(cx, to, 0, span, put),
        None => propose_by_word(cx, to, row, from),
    }
}

// What is proposed for a row by the tokens after it.
enum Proposal {
    /// To remove the word with what comes after it.
    Without,
    /// To assign the result of the function.
    Result,
    /// To assign without the word.
    Assigned,
    /// To assign what an operator makes of the variable and a value.
    Computed(&'static str),
    /// To assign one more or one less.
    Counted(&'static str),
}

// A row for which something is proposed by the tokens after it.
struct Proposed {
    word: &'static str,
    proposal: Proposal,
}

// These rows.
const PROPOSED: &[Proposed] = &[
    Proposed {
        word: "uses",
        proposal: Proposal::Without,
    },
    Proposed {
        word: "import",
        proposal: Proposal::Without,
    },
    Proposed {
        word: "inline",
        proposal: Proposal::Without,
    },
    Proposed {
        word: "overload",
        proposal: Proposal::Without,
    },
    Proposed {
        word: "return",
        proposal: Proposal::Result,
    },
    Proposed {
        word: "let",
        proposal: Proposal::Assigned,
    },
    Proposed {
        word: "+ =",
        proposal: Proposal::Computed(" + "),
    },
    Proposed {
        word: "- =",
        proposal: Proposal::Computed(" - "),
    },
    Proposed {
        word: "* =",
        proposal: Proposal::Computed(" * "),
    },
    Proposed {
        word: "+ +",
        proposal: Proposal::Counted(" + 1"),
    },
    Proposed {
        word: "- -",
        proposal: Proposal::Counted(" - 1"),
    },
];

// Proposes what depends on the tokens after a row.
fn propose_by_word(cx: &Context<'_>, to: &mut Telling, row: &Row, from: usize) {
    for proposed in PROPOSED.iter() {
        if proposed.word == row.word {
            propose(cx, to, &proposed.proposal, from);
        }
    }
}

// Proposes something for a row that begins at a token.
fn propose(cx: &Context<'_>, to: &mut Telling, proposal: &Proposal, from: usize) {
    match proposal {
        Proposal::Without => propose_without(cx, to, from),
        Proposal::Result => propose_result(cx, to, from),
        Proposal::Assigned => propose_assigned(cx, to, from),
        Proposal::Computed(sign) => propose_computed(cx, to, sign, from),
        Proposal::Counted(sign) => propose_counted(cx, to, sign, from),
    }
}

// Proposes to remove a word with what comes after it up to the next semicolon.
fn propose_without(cx: &Context<'_>, to: &mut Telling, from: usize) {
    let end = statement_end(cx, from);
    if cx.is_of(end, &[Kind::Semicolon]) {
        take_away(cx, to, 0, cx.span_of(from, end));
    }
}

// Proposes the assignment of a function's result for `return`.
fn propose_result(cx: &Context<'_>, to: &mut Telling, from: usize) {
    let block = cx.opened.block();
    if block.is_function {
        let name = cx.told(block.head.saturating_add(1));
        exchange_text(cx, to, cx.span(from), joined(cx, &[name, " :="]));
    }
}

// Proposes `n :=` for `let n =`.
fn propose_assigned(cx: &Context<'_>, to: &mut Telling, from: usize) {
    let sign = from.saturating_add(2);
    if cx.is_of(sign, &[Kind::Equal]) {
        let name = cx.told(from.saturating_add(1));
        exchange_text(cx, to, cx.span_of(from, sign), joined(cx, &[name, " :="]));
    }
}

// The assignment of what is made of a variable, which goes from the start of the statement to before a token.
fn assigned(cx: &Context<'_>, end: usize, sign: &str) -> Text {
    let span = cx.span_of(cx.opened.start, end.saturating_sub(1));
    let name = shown(cx.piece(span));
    let mut put = joined(cx, &[name, " := ", name]);
    put.put(sign);
    put
}

/// Proposes `n := n + 1` for `n += 1`.
pub(crate) fn propose_computed(cx: &Context<'_>, to: &mut Telling, sign: &str, from: usize) {
    let first = from.saturating_add(2);
    let last = statement_end(cx, first).saturating_sub(1);
    let start = cx.opened.start;
    if start >= from || last < first || (sign != " + " && last != first) {
        return;
    }
    let mut put = assigned(cx, from, sign);
    put.put(shown(cx.piece(cx.span_of(first, last))));
    exchange_text(cx, to, cx.span_of(start, last), put);
}

// Proposes `n := n + 1` for `n++`.
fn propose_counted(cx: &Context<'_>, to: &mut Telling, sign: &str, from: usize) {
    let start = cx.opened.start;
    if start < from && cx.opened.assigned.is_none() {
        let span = cx.span_of(start, from.saturating_add(1));
        exchange_text(cx, to, span, assigned(cx, from, sign));
    }
}

/// Reports everything for a row that begins at a token.
pub(crate) fn tell_row(cx: &Context<'_>, to: &mut Telling, row: &Row, from: usize) {
    say_row(cx, to, row, from);
    label_within(cx, to, row);
    to.help(joined(cx, &[row.advice]));
    propose_mend(cx, to, row, from);
}
