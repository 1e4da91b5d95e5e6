//! The report of a rule, put into a draft.

use crate::bounds::propose_ends;
use crate::compared::propose_parentheses;
use crate::context::Context;
use crate::habits::{enclose, move_variables};
use crate::kinds::declared_by;
use crate::left_out::advise_left_out;
use crate::letters::byte_at;
use crate::other::propose_computed;
use crate::places::{number_of, part_of, span_of};
use crate::reals::note_others;
use crate::rows::{Part, other_pascal};
use crate::rule::{More, Place, Step, Steps};
use crate::scanned::{
    close_line, close_string, double_apostrophe, exchange_point, fill_string, label_comment,
    open_earlier, propose_closed, separate, shown_from,
};
use crate::signs::{
    exchange_code, exchange_dash, exchange_hexadecimal, exchange_quotes, exchange_sign,
    exchange_spaces, letter_here, put_code,
};
use crate::slashes::{exchange_hash, exchange_slashes, exchange_stars};
use crate::spelled::{propose_file, propose_words};
use crate::tell::{
    exchange_text, joined, move_up, put_before, put_behind, refusal, shown, take_away,
};
use crate::tests::holds;
use crate::underscores::exchange_underscores;
use ps_diagnose::{Telling, Text, place_of};

/// Adds the report of a rule: the steps after its tests, up to the next rule.
pub(crate) fn tell_rule(cx: &Context<'_>, to: &mut Telling, steps: Steps) {
    let mut is_told = true;
    for (at, step) in steps.iter().enumerate() {
        match step {
            Step::Rule => return,
            Step::Also => is_told = true,
            _ if is_told => match holds(cx, step) {
                Some(holds) => is_told = holds,
                None => tell(
                    cx,
                    to,
                    step,
                    steps.get(at.saturating_add(1)..).unwrap_or(&[]),
                ),
            },
            _ => {}
        }
    }
}

// Adds one thing, with the pieces after it.
fn tell(cx: &Context<'_>, to: &mut Telling, step: &'static Step, pieces: Steps) {
    match step {
        Step::Why(text) => say_why(cx, to, text, pieces),
        Step::Says(text) => to.say(text_of(cx, text, pieces)),
        Step::Expects(text) => {
            to.draft.expects = true;
            to.say(text_of(cx, text, pieces));
        }
        Step::Label(reach, text) => to.label(span_of(cx, reach), text_of(cx, text, pieces)),
        Step::Note(text) => to.note(text_of(cx, text, pieces)),
        Step::Help(text) => to.help(text_of(cx, text, pieces)),
        Step::Advice(part, word) => advise(cx, to, *part, word),
        Step::Tell(more) => tell_more(cx, to, more),
        Step::Exchange(reach, text) => {
            exchange_text(cx, to, span_of(cx, reach), text_of(cx, text, pieces));
        }
        _ => propose(cx, to, step),
    }
}

// Proposes a change.
fn propose(cx: &Context<'_>, to: &mut Telling, step: &'static Step) {
    match step {
        Step::TakeAway(cost, reach) => take_away(cx, to, *cost, span_of(cx, reach)),
        Step::PutBefore(place, told, put) => {
            put_before(cx, to, at_or_here(cx, place), told, put)
        }
        Step::PutBehind(cost, place, told, put) => {
            put_behind(cx, to, *cost, at_or_here(cx, place), told, put)
        }
        Step::Move(last, before) => propose_move(cx, to, last, before),
        Step::Enclose(first, behind) => enclose(cx, to, first, behind),
        Step::ExchangeSign(sign, put) => exchange_sign(cx, to, sign, put),
        Step::CloseLine(told, put) => close_line(cx, to, told, put),
        _ => {}
    }
}

// Adds what only code can report.
fn tell_more(cx: &Context<'_>, to: &mut Telling, more: &More) {
    match more {
        More::Ends => propose_ends(cx, to),
        More::Beginning => advise_beginning(cx, to),
        More::Apostrophe => propose_closed(cx, to),
        More::Words => propose_words(cx, to),
        More::Files => propose_file(cx, to),
        More::Parentheses => propose_parentheses(cx, to),
        More::Braces => exchange_slashes(cx, to),
        More::Reals => note_others(cx, to),
        More::LeftOut => advise_left_out(cx, to),
        More::Variables => move_variables(cx, to),
        More::Divided => propose_computed(cx, to, " div ", cx.at),
        _ => tell_of_bytes(cx, to, more),
    }
}

// Adds what only code can report about bytes that are not tokens.
fn tell_of_bytes(cx: &Context<'_>, to: &mut Telling, more: &More) {
    match more {
        More::Quotes => exchange_quotes(cx, to),
        More::Underscores => exchange_underscores(cx, to),
        More::Spaces => exchange_spaces(cx, to),
        More::Minus => exchange_dash(cx, to),
        More::Character => exchange_code(cx, to),
        More::Decimal => exchange_hexadecimal(cx, to),
        More::InnerComment => label_comment(cx, to),
        More::InnerApostrophe => double_apostrophe(cx, to),
        More::StringBefore => open_earlier(cx, to),
        More::StringEnd => close_string(cx, to),
        More::EmptyString => fill_string(cx, to),
        More::Separators => separate(cx, to),
        More::Hash => exchange_hash(cx, to),
        More::Bounds => exchange_point(cx, to),
        More::Stars => exchange_stars(cx, to),
        _ => {}
    }
}

// The number of a token; that at the place, if there is none.
fn at_or_here(cx: &Context<'_>, place: &Place) -> usize {
    number_of(cx, place).unwrap_or(cx.at)
}

// Puts pieces one after another, up to a step that is not one.
fn put_pieces(cx: &Context<'_>, out: &mut Text, steps: Steps) {
    for step in steps.iter() {
        if !put_piece(cx, out, step) {
            return;
        }
    }
}

// Puts a step that is a piece, and returns whether it is.
fn put_piece(cx: &Context<'_>, out: &mut Text, step: &'static Step) -> bool {
    match step {
        Step::Put(text) => out.put(text),
        Step::Token(place) => out.put(cx.told(at_or_here(cx, place))),
        Step::Tokens(reach) => out.put(shown(cx.piece(span_of(cx, reach)))),
        Step::Where(place) => out.put_place(cx.bytes, cx.span(at_or_here(cx, place)).from),
        Step::Line(place) => {
            let (line, _) = place_of(cx.bytes, cx.span(at_or_here(cx, place)).from);
            out.put_number(i64::from(line));
        }
        Step::Declares(place) => out.put(declared_by(cx.kind(at_or_here(cx, place)))),
        Step::Routine => out.put(routine(cx)),
        Step::Origin(part, word) => out.put(origin(*part, word)),
        _ => return put_bytes(cx, out, step),
    }
    true
}

// Puts a piece of the bytes at the place.
fn put_bytes(cx: &Context<'_>, out: &mut Text, step: &'static Step) -> bool {
    match step {
        Step::Letter => out.put(letter_here(cx)),
        Step::Code => put_code(cx, out),
        Step::Byte => out.put_number(i64::from(byte_at(cx.bytes, cx.place.from as usize))),
        Step::Found => out.put(shown(cx.piece(cx.place))),
        Step::Run(class) => out.put(shown_from(cx, cx.place.from as usize, *class)),
        _ => return false,
    }
    true
}

// The word of the routine that the last `end` ended.
fn routine(cx: &Context<'_>) -> &'static str {
    match cx.opened.closed_block {
        Some(block) if block.is_function => "function",
        _ => "procedure",
    }
}

// Where a row of the table comes from.
fn origin(part: Part, word: &str) -> &'static str {
    match other_pascal(part, word) {
        Some(row) => row.origin(),
        None => "",
    }
}

// A text with the pieces after it.
fn text_of(cx: &Context<'_>, text: &str, pieces: Steps) -> Text {
    let mut out = joined(cx, &[text]);
    put_pieces(cx, &mut out, pieces);
    out
}

// Reports that the token cannot be there, and why.
fn say_why(cx: &Context<'_>, to: &mut Telling, text: &str, pieces: Steps) {
    let mut out = refusal(cx);
    out.put(text);
    put_pieces(cx, &mut out, pieces);
    to.draft.expects = true;
    to.say(out);
}

/// Adds the advice of a row of the table.
pub(crate) fn advise(cx: &Context<'_>, to: &mut Telling, part: Part, word: &str) {
    match other_pascal(part, word) {
        Some(row) => to.help(joined(cx, &[row.advice])),
        None => {}
    }
}

// Adds the advice on a text that begins with the token at the place.
fn advise_beginning(cx: &Context<'_>, to: &mut Telling) {
    let word = cx.told(cx.at);
    let known = other_pascal(Part::Program, word).is_some();
    advise(cx, to, Part::Program, if known { word } else { "begin" });
}

// Proposes to move declarations from the place up to a token; without their word, if their part is already above.
fn propose_move(cx: &Context<'_>, to: &mut Telling, last: &Place, before: &Place) {
    let (Some(last), Some(before)) = (number_of(cx, last), number_of(cx, before)) else {
        return;
    };
    let first = match part_of(cx.opened.block(), cx.kind(cx.at)) {
        Some(_) => cx.at.saturating_add(1),
        None => cx.at,
    };
    let piece = cx.span_of(first, last);
    move_up(cx, to, cx.span_of(cx.at, last), before, "", piece);
}
