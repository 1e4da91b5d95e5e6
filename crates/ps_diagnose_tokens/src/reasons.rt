//! What is reported for a refusal by the scanner or the parser.

ghost use Rattle.std.specs.Prelude.{◌↔◌, IsTrue, IsSome, IfOk};
ghost use Rattle.ps_diagnose_tokens.specs.Numbers.{IsOfTokens};

use crate::context::{Context, context_of};
use crate::missing::rule_of_missing;
use crate::other::{other_here, part_here, tell_row};
use crate::rows::Part;
use crate::rule::Place::Here;
use crate::rule::Step::{Expects, Put, Says, Tell, Token};
use crate::rule::{More, Steps};
use crate::scanned::{comment_before, comment_of_line, rule_of_scanner};
use crate::tell::refusal;
use crate::telling::tell_rule;
use crate::{
    assigned, bounds, compared, declaring, ended, habits, left_out, lists, missing, parts, slips,
};
use ps_diagnose::{Draft, ReportedFault, Telling};
use std::alloc::{AllocError, Global};
use std::mem::swap;

// What is reported for constructions that are nested too deeply.
const TOO_DEEP: Steps = &[Says("this is inside more than 500 constructions")];

// What is reported if nothing is known.
const PLAIN: Steps = &[
    Expects("`"),
    Token(Here),
    Put("` cannot stand here"),
    Tell(More::Words),
];

// The first rule that fits of those of what is written otherwise elsewhere.
fn rule_of_habits(cx: &Context<'_>) -> Option<Steps> {
    slips::in_statements(cx)
        .or(slips::further(cx))
        .or(habits::in_statements(cx))
        .or(declaring::of_types(cx))
        .or(declaring::in_declarations(cx))
}

// The first rule that fits of those of assignments, declarations and parts.
fn rule_of_parts(cx: &Context<'_>) -> Option<Steps> {
    assigned::assigned(cx)
        .or(parts::of_parts(cx))
        .or(ended::of_routine_before(cx))
        .or(parts::begin_missing(cx))
}

// The first rule that fits of those of statements and lists.
fn rule_of_statements(cx: &Context<'_>) -> Option<Steps> {
    ended::at_the_end(cx)
        .or(compared::compared(cx))
        .or(lists::of_lists(cx))
        .or(missing::in_statements(cx))
}

// The rule for a token that cannot be where it is, after those for the ends of the text and the table of other Pascals.
fn rule_of_tables(cx: &Context<'_>) -> Steps {
    ended::before_constants(cx)
        .or(rule_of_habits(cx))
        .or(rule_of_parts(cx))
        .or(rule_of_statements(cx))
        .or(declaring::of_spaces(cx))
        .unwrap_or(PLAIN)
}

// The rule for a refusal by the scanner or the parser; none if the table of other Pascals has a row for it.
fn rule_of(cx: &Context<'_>, number: u8) -> Option<Steps> {
    match number {
        20 => bounds::at_the_ends(cx),
        21 => Some(TOO_DEEP),
        22 => left_out::rule_of_left_out(cx),
        _ => rule_of_scanner(cx, number),
    }
}

// Reports a token that cannot be where it is, if it is not at an end of the text.
fn tell_not_a_program(cx: &Context<'_>, to: &mut Telling) {
    match other_here(cx) {
        Some((row, from)) => tell_row(cx, to, &row, from),
        None => tell_rule(cx, to, rule_of_tables(cx)),
    }
    comment_before(cx, to);
}

// Reports a refusal by the scanner or the parser.
fn tell(cx: &Context<'_>, to: &mut Telling, number: u8) {
    match rule_of(cx, number) {
        Some(rule) => tell_rule(cx, to, rule),
        None => tell_not_a_program(cx, to),
    }
    if number < 20 {
        comment_of_line(cx, to);
    }
}

// What is reported for a refusal by the scanner or the parser.
fn told(alloc: Global, fault: &ReportedFault<'_>) -> Result<Draft, AllocError> {
    let cx = context_of(alloc, fault)?;
    let mut to = Telling::new(alloc);
    tell(&cx, &mut to, fault.number);
    to.finished()
}

// Whether a refusal is one by the scanner or the parser.
fn is_of_tokens(number: u8) -> bool
    ensures { IsTrue result ↔ IsOfTokens number }
{
    if number <= 16 {
        return number >= 10;
    }
    number >= 20 && number <= 22
}

/// What is reported for a refusal by the scanner or the parser (10 to 16 and 20 to 22), made from the tokens around its
/// place; `None` for another number.
pub fn drafted(alloc: Global, fault: &ReportedFault<'_>) -> Result<Option<Draft>, AllocError>
    ensures { IfOk result (λ draft. IsSome draft ↔ IsOfTokens fault.now.number) }
{
    if !is_of_tokens(fault.number) {
        return Ok(None);
    }
    let draft = told(alloc, fault)?;
    Ok(Some(draft))
}

// Reports that a word or a sign is missing before the place.
fn tell_missing(cx: &Context<'_>, to: &mut Telling, token: &str) {
    let mut text = refusal(cx);
    text.put_all(&["`", token, "` is missing before it"]);
    to.draft.expects = true;
    to.say(text);
    if let Some(rule) = rule_of_missing(cx, token) {
        tell_rule(cx, to, rule);
    }
}

/// Reports that a word or a sign is missing before the place, with the beginning of its construction as a second place.
/// It replaces the sentence of a draft that says only that the token cannot be there.
pub fn missing_before(
    alloc: Global,
    fault: &ReportedFault<'_>,
    token: &str,
    draft: &mut Draft,
) -> Result<(), AllocError> {
    let cx = context_of(alloc, fault)?;
    let mut to = Telling::new(alloc);
    swap(&mut to.draft, draft);
    tell_missing(&cx, &mut to, token);
    *draft = to.finished()?;
    Ok(())
}

/// The part of the table of other Pascals that is reported at the place of a refusal.
pub fn part_at(alloc: Global, fault: &ReportedFault<'_>) -> Result<Part, AllocError> {
    let cx = context_of(alloc, fault)?;
    Ok(part_here(&cx))
}
