//! Which rule fits: whether its tests hold.

use crate::context::Context;
use crate::kinds::{ENDS_VALUE, OPERATORS};
use crate::letters::{Class, byte_at, byte_before, is_in as is_of_class};
use crate::places::{number_of, span_of};
use crate::rule::{Fact, Place, Step, Steps};
use crate::signs::sign_here;
use crate::spread::next_of;
use crate::tell::shown;
use crate::walk::Stage;
use ps_diagnose::RequiredName;
use ps_scan::Kind;

// The required types.
const TYPES: &[RequiredName] = &[
    RequiredName::Integer,
    RequiredName::Char,
    RequiredName::Boolean,
    RequiredName::Real,
];

/// What reads.
pub(crate) const READS: &[RequiredName] = &[RequiredName::Read, RequiredName::Readln];

/// The report of the first rule that fits, if one does: the steps after its tests.
pub(crate) fn first_of(cx: &Context<'_>, rules: Steps) -> Option<Steps> {
    // the tests after the last `Rule` or `Or` hold so far; those before an `Or` did
    let mut fits = false;
    let mut has_fitted = false;
    for (at, step) in rules.iter().enumerate() {
        match step {
            Step::Rule => {
                fits = true;
                has_fitted = false;
            }
            Step::Or => {
                has_fitted = has_fitted || fits;
                fits = true;
            }
            _ if fits || has_fitted => match holds(cx, step) {
                Some(holds) => fits = fits && holds,
                None => return rules.get(at..),
            },
            _ => {}
        }
    }
    None
}

/// Whether a test holds; false for a step that is not a test.
pub(crate) fn holds(cx: &Context<'_>, step: &Step) -> Option<bool> {
    match step {
        Step::Holds(fact) => Some(is_so(cx, fact)),
        Step::Fails(fact) => Some(!is_so(cx, fact)),
        Step::Is(place, kinds) => Some(is_of(cx, place, kinds)),
        Step::IsNot(place, kinds) => Some(!is_of(cx, place, kinds)),
        Step::Spelled(place, words) => Some(is_one_of(text_at(cx, place), words)),
        Step::NotSpelled(place, words) => Some(!is_one_of(text_at(cx, place), words)),
        Step::Names(place, names) => Some(is_named(text_at(cx, place), names)),
        Step::NamesType(place) => Some(names_type(text_at(cx, place))),
        Step::Has(place) => Some(number_of(cx, place).is_some()),
        Step::No(place) => Some(number_of(cx, place).is_none()),
        Step::Same(a, b) => Some(are_same(cx, a, b)),
        Step::Alike(a, b) => Some(text_at(cx, a) == text_at(cx, b)),
        Step::NotBefore(later, earlier) => Some(is_from(cx, later, earlier)),
        _ => holds_further(cx, step),
    }
}

// Whether a test of another kind holds.
fn holds_further(cx: &Context<'_>, step: &Step) -> Option<bool> {
    match step {
        Step::SeemsDeclared(place) => Some(is_declared(cx, place)),
        Step::Touches(place) => Some(touches_next(cx, place)),
        Step::Apart(place) => Some(!touches_next(cx, place)),
        Step::IsShown(reach) => Some(shown(cx.piece(span_of(cx, reach))) != ".."),
        Step::InHead(kinds) => Some(is_in(cx, kinds, true)),
        Step::InBody(kinds) => Some(is_in(cx, kinds, false)),
        Step::InPart(kinds) => Some(is_in_part(cx, kinds)),
        Step::NotInPart(kinds) => Some(!is_in_part(cx, kinds)),
        Step::IsSign(sign) => Some(sign_here(cx) == *sign),
        Step::Stands(text) => Some(stands(cx, text)),
        _ => None,
    }
}

// Whether there is a text at the place.
fn stands(cx: &Context<'_>, text: &str) -> bool {
    let rest = cx.bytes.get(cx.place.from as usize..).unwrap_or(&[]);
    rest.starts_with(text.as_bytes())
}

// Whether a token is of one of some kinds.
fn is_of(cx: &Context<'_>, place: &Place, kinds: &[Kind]) -> bool {
    match number_of(cx, place) {
        Some(at) => cx.is_of(at, kinds),
        None => false,
    }
}

// The bytes of a token.
fn text_at<'a>(cx: &Context<'a>, place: &Place) -> &'a [u8] {
    match number_of(cx, place) {
        Some(at) => cx.text(at),
        None => &[],
    }
}

// Whether a text is one of some words, with a space between two. Capital and small letters count alike.
fn is_one_of(text: &[u8], words: &str) -> bool {
    for word in words.split(' ') {
        if text.eq_ignore_ascii_case(word.as_bytes()) {
            return true;
        }
    }
    false
}

/// Whether a text is one of some required names. Capital and small letters count alike.
pub(crate) fn is_named(text: &[u8], names: &[RequiredName]) -> bool {
    for name in names {
        if text.eq_ignore_ascii_case(name.spelling().as_bytes()) {
            return true;
        }
    }
    false
}

// Whether a text is the name of a type in most texts, of this Pascal or of another.
fn names_type(text: &[u8]) -> bool {
    is_named(text, TYPES) || is_one_of(text, "int bool string")
}

// Whether two tokens are one.
fn are_same(cx: &Context<'_>, a: &Place, b: &Place) -> bool {
    match (number_of(cx, a), number_of(cx, b)) {
        (Some(a), Some(b)) => a == b,
        _ => false,
    }
}

// Whether a token comes after another one, or is the same.
fn is_from(cx: &Context<'_>, later: &Place, earlier: &Place) -> bool {
    match (number_of(cx, later), number_of(cx, earlier)) {
        (Some(later), Some(earlier)) => later >= earlier,
        _ => false,
    }
}

// Whether a token is a name that the text seems to declare.
fn is_declared(cx: &Context<'_>, place: &Place) -> bool {
    match number_of(cx, place) {
        Some(at) => cx.is_of(at, &[Kind::Name]) && cx.seems_declared(at),
        None => false,
    }
}

// Whether there is nothing between a token and the one after it.
fn touches_next(cx: &Context<'_>, place: &Place) -> bool {
    match number_of(cx, place) {
        Some(at) => cx.touches_next(at),
        None => false,
    }
}

// Whether the place is in the head, or after the head, of a construction that begins with one of these kinds.
fn is_in(cx: &Context<'_>, kinds: &[Kind], is_head: bool) -> bool {
    match cx.opened.top() {
        Some(open) => matches!(open.stage, Stage::Head) == is_head && kinds.contains(&open.kind),
        None => false,
    }
}

// Whether the open part is one of some.
fn is_in_part(cx: &Context<'_>, kinds: &[Kind]) -> bool {
    match cx.opened.block().part {
        Some(part) => kinds.contains(&part),
        None => false,
    }
}

// Whether a fact is true.
fn is_so(cx: &Context<'_>, fact: &Fact) -> bool {
    match fact {
        Fact::Statements => cx.is_in_statements(),
        Fact::Declarations => cx.is_in_declarations(),
        Fact::Parameters => cx.is_in_parameters(),
        Fact::Headed => cx.opened.block().is_told,
        Fact::InRoutine => cx.opened.block().is_routine,
        Fact::InFunction => cx.opened.block().is_function,
        Fact::BehindHeading => is_behind_heading(cx),
        Fact::RoutineEnded => matches!(cx.opened.closed_block, Some(block) if block.is_routine),
        _ => is_so_before(cx, fact),
    }
}

// Whether a fact about the tokens before the place is true.
fn is_so_before(cx: &Context<'_>, fact: &Fact) -> bool {
    match fact {
        Fact::Inside => is_inside(cx),
        Fact::BehindVariable => is_behind_variable(cx),
        Fact::BehindConstant => is_behind_constant(cx),
        Fact::Reads => reads(cx),
        Fact::Procedure => seems_routine(cx, Kind::Procedure),
        Fact::Function => seems_routine(cx, Kind::Function),
        Fact::OneLine => !has_before(cx, b'\n'),
        Fact::Brace => has_before(cx, b'{'),
        Fact::Divides => divides(cx),
        Fact::Digit => byte_at(
            cx.bytes,
            (cx.place.from as usize).saturating_add(1),
        ).is_ascii_digit(),
        Fact::BehindLetter => {
            is_of_class(Class::Name, byte_before(cx.bytes, cx.place.from as usize))
        }
        _ => false,
    }
}

// Whether the heading of a routine is open at the place, after its name or its parameters.
fn is_behind_heading(cx: &Context<'_>) -> bool {
    let block = cx.opened.block();
    let Some(before) = cx.at.checked_sub(1) else {
        return false;
    };
    let is_behind_name = before == block.head.saturating_add(1);
    let is_open = block.is_routine && !block.is_told && cx.opened.top().is_none();
    is_open && (is_behind_name || cx.is_of(before, &[Kind::RightParen]))
}

// Whether the place is in parentheses or brackets, or in the head of a statement.
fn is_inside(cx: &Context<'_>) -> bool {
    match cx.opened.top() {
        Some(open) => match open.kind {
            Kind::LeftParen | Kind::LeftBracket => true,
            Kind::If | Kind::While | Kind::For | Kind::With | Kind::Case => {
                matches!(open.stage, Stage::Head)
            }
            _ => false,
        },
        None => false,
    }
}

// Whether the token before the place is a constant of a `case`, and the first one there.
fn is_behind_constant(cx: &Context<'_>) -> bool {
    is_in(cx, &[Kind::Case], false) && cx.opened.start.saturating_add(1) == cx.at
}

// Whether the tokens before the place are a variable that begins a statement.
fn is_behind_variable(cx: &Context<'_>) -> bool {
    let start = cx.opened.start;
    start < cx.at
        && cx.is_of(start, &[Kind::Name])
        && cx.opened.assigned.is_none()
        && next_of(cx, start, OPERATORS) >= cx.at
        && next_of(cx, start, &[Kind::Assign, Kind::Colon]) >= cx.at
        && !is_inside(cx)
}

// Whether the text seems to read.
fn reads(cx: &Context<'_>) -> bool {
    for at in 0..cx.tokens.len() {
        if cx.is_of(at, &[Kind::Name]) && is_named(cx.text(at), READS) {
            return true;
        }
    }
    false
}

// Whether the name before the place seems to be that of a procedure or of a function, by the word before it.
fn seems_routine(cx: &Context<'_>, word: Kind) -> bool {
    let name = cx.at.saturating_sub(1);
    for at in 1..name {
        if cx.are_alike(at, name) && cx.is_of(at.saturating_sub(1), &[word]) {
            return true;
        }
    }
    false
}

// Whether the two slashes at the place seem to divide: a value in their line by a number or a name that the text seems
// to declare, with no further words behind it.
fn divides(cx: &Context<'_>) -> bool {
    let divisor = cx.at.saturating_add(2);
    let is_divisor = cx.is_of(divisor, &[Kind::Number])
        || cx.is_of(divisor, &[Kind::Name]) && cx.seems_declared(divisor);
    is_divisor
        && (cx.opened.assigned.is_some() || is_inside(cx))
        && cx.is_of(cx.at.saturating_sub(1), ENDS_VALUE)
        && !cx.is_of(
            divisor.saturating_add(1),
            &[Kind::Name, Kind::Number, Kind::Text],
        )
        && !has_before(cx, b'\n')
}

// Whether there is a byte of this value between the token before the place and the place.
fn has_before(cx: &Context<'_>, byte: u8) -> bool {
    let from = cx.span(cx.at.saturating_sub(1)).to as usize;
    let to = cx.span(cx.at).from as usize;
    cx.bytes.get(from..to).unwrap_or(&[]).contains(&byte)
}
