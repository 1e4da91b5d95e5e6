//! Which tokens the places of the rules are.

use crate::context::Context;
use crate::kinds::{COMPARES, COMPARES_OR_ADDS, ENDS_PART, JOINS, OPERATORS};
use crate::layout::{outside, past_if, unbegun, unended};
use crate::rule::{Place, Reach};
use crate::spread::{
    expression_end, expression_start, first_between, last_between, next_of, statement_end,
};
use crate::walk::{Block, Open, Stage};
use ps_scan::Kind;
use ps_text::Span;

/// The number of the token at a place of a rule, if there is one.
pub(crate) fn number_of(cx: &Context<'_>, place: &Place) -> Option<usize> {
    match place {
        Place::Here => Some(cx.at),
        Place::Ahead(count) => cx.at.checked_add(*count),
        Place::Back(count) => cx.at.checked_sub(*count),
        Place::TextEnd => Some(cx.tokens.len()),
        Place::Start => Some(cx.opened.start),
        Place::Assigned => cx.opened.assigned,
        Place::Ended => cx.opened.ended,
        Place::Point => behind(cx.opened.ended),
        Place::EndedIf => cx.opened.last_if,
        Place::PastIf => past_if(cx),
        _ => number_of_open(cx, place),
    }
}

// The number of the token after one.
fn behind(at: Option<usize>) -> Option<usize> {
    at?.checked_add(1)
}

// The number of the token that a construction begins with.
fn begin_of(open: Option<Open>) -> Option<usize> {
    match open {
        Some(open) => Some(open.at),
        None => None,
    }
}

// The number of a token of what is open, or has ended.
fn number_of_open(cx: &Context<'_>, place: &Place) -> Option<usize> {
    match place {
        Place::Top => begin_of(cx.opened.top()),
        Place::BeforeTop => begin_of(cx.opened.top())?.checked_sub(1),
        Place::TopEnd => Some(next_of(cx, cx.at, &[])),
        Place::WordsEnd => Some(words_end(cx)),
        Place::List => Some(list(cx)),
        Place::Innermost(_) | Place::WaitingIf => innermost(cx, place),
        Place::Closed => begin_of(cx.opened.closed),
        Place::Bare => bare(cx),
        Place::Unbegun => unbegun(cx)?.body.checked_sub(1),
        Place::ClosedHead => closed_head(cx),
        Place::ClosedName => behind(closed_head(cx)),
        _ => number_in_block(cx, place),
    }
}

// The construction that seems to want a `begin`, otherwise the last one that took a statement without one; if that is
// the statement after an `else`, the `else`.
fn bare(cx: &Context<'_>) -> Option<usize> {
    let mut last = None;
    for past in cx.opened.past.iter() {
        if past.is_bare {
            last = Some(past.open);
        }
    }
    let open = unbegun(cx).or(last)?;
    match open.stage {
        Stage::Else => open.body.checked_sub(1),
        _ => Some(open.at),
    }
}

// What ends the words at the place, if they are meant as a string in a list.
fn words_end(cx: &Context<'_>) -> usize {
    let comma = next_of(cx, cx.at, &[Kind::Comma]);
    let name = comma.saturating_add(1);
    if cx.is_of(comma, &[Kind::Comma]) && cx.is_of(name, &[Kind::Name]) && cx.seems_declared(name) {
        comma
    } else {
        next_of(cx, cx.at, &[])
    }
}

// Whether a construction is one of those among which a place means the innermost.
fn is_wanted(open: &Open, place: &Place) -> bool {
    match place {
        Place::WaitingIf => open.waits_for_else(),
        Place::Innermost(kind) => open.kind == *kind,
        _ => false,
    }
}

// The innermost construction that is open and wanted.
fn innermost(cx: &Context<'_>, place: &Place) -> Option<usize> {
    for open in cx.opened.opens.iter().rev() {
        if is_wanted(open, place) {
            return Some(open.at);
        }
    }
    None
}

// The innermost open construction with an end of its own, otherwise the block.
fn list(cx: &Context<'_>) -> usize {
    let block = cx.opened.block();
    let at = block.begun.unwrap_or(block.head);
    cx.opened.list().unwrap_or(at)
}

// The heading of the routine that the last `end` ended.
fn closed_head(cx: &Context<'_>) -> Option<usize> {
    match cx.opened.closed_block {
        Some(block) => Some(block.head),
        None => None,
    }
}

// The number of a token of the block.
fn number_in_block(cx: &Context<'_>, place: &Place) -> Option<usize> {
    let block = cx.opened.block();
    match place {
        Place::Head => Some(block.head),
        Place::HeadName => behind(Some(block.head)),
        Place::Begun => block.begun,
        Place::Routines => block.routines,
        Place::Later => later_part(block, cx.kind(cx.at))
            .or(block.routines)
            .or(block.begun),
        Place::SamePart => part_of(block, cx.kind(cx.at)),
        _ => number_further(cx, place),
    }
}

/// The token that the part of a kind begins with.
pub(crate) fn part_of(block: Block, kind: Option<Kind>) -> Option<usize> {
    match kind {
        Some(Kind::Const) => block.constants,
        Some(Kind::Type) => block.types,
        Some(Kind::Var) => block.variables,
        _ => None,
    }
}

// The first part of a block that comes after one of a kind.
fn later_part(block: Block, kind: Option<Kind>) -> Option<usize> {
    match kind {
        Some(Kind::Const) => block.types.or(block.variables),
        Some(Kind::Type) => block.variables,
        _ => None,
    }
}

// The number of a token further on, or further back.
fn number_further(cx: &Context<'_>, place: &Place) -> Option<usize> {
    let at = cx.at;
    match place {
        Place::StatementEnd => Some(statement_end(cx, at)),
        Place::Last(count) => statement_end(cx, at).checked_sub(*count),
        Place::NextAssign => first_between(cx, at, statement_end(cx, at), &[Kind::Assign]),
        Place::NextEnd => Some(next_end(cx, at)),
        Place::BehindThen => behind_then(cx),
        Place::BehindNames => Some(behind_names(cx)),
        Place::Chosen => chosen(cx),
        Place::NextChoice => next_choice(cx),
        Place::BehindEnd => next_end(cx, at).checked_add(1),
        Place::NextUntil => Some(next_of(cx, at, &[Kind::Until, Kind::Repeat])),
        Place::Closing => Some(next_of(cx, at.saturating_add(1), &[])),
        Place::LastOfPart => last_of_part(cx),
        Place::LastDeclared => last_declared(cx),
        Place::Outside => outside(cx),
        Place::BeforeOutside => outside(cx)?.checked_sub(1),
        Place::Unended => unended(cx),
        _ => number_in_expression(cx, place),
    }
}

// The token after the `then` of the past `if`.
fn behind_then(cx: &Context<'_>) -> Option<usize> {
    let first = behind(past_if(cx))?;
    behind(first_between(cx, first, cx.at, &[Kind::Then]))
}

// The token after the names, with commas between them, that begin at the place.
fn behind_names(cx: &Context<'_>) -> usize {
    let mut at = cx.at;
    for token in cx.tokens.get(cx.at..).unwrap_or(&[]).iter() {
        if !matches!(token.kind, Kind::Name | Kind::Comma) {
            break;
        }
        at = at.saturating_add(1);
    }
    at
}

// The depth after a token; none if the token ends what began before.
fn depth_behind(depth: usize, kind: Kind) -> Option<usize> {
    match kind {
        Kind::Begin | Kind::Case | Kind::Record => Some(depth.saturating_add(1)),
        Kind::End => depth.checked_sub(1),
        _ => Some(depth),
    }
}

/// The first `end` from a token on that ends nothing which begins there, or the end of the text.
pub(crate) fn next_end(cx: &Context<'_>, from: usize) -> usize {
    let mut depth = 0;
    let tokens = cx.tokens.get(from..).unwrap_or(&[]);
    for (count, token) in tokens.iter().enumerate() {
        match depth_behind(depth, token.kind) {
            Some(next) => depth = next,
            None => return from.saturating_add(count),
        }
    }
    cx.tokens.len()
}

// The depth after a token of statements; none if the token ends what began before.
fn depth_in_statements(depth: usize, kind: Kind) -> Option<usize> {
    match kind {
        Kind::Repeat | Kind::LeftParen | Kind::LeftBracket => Some(depth.saturating_add(1)),
        Kind::Until | Kind::RightParen | Kind::RightBracket => depth.checked_sub(1),
        _ => depth_behind(depth, kind),
    }
}

// The first `:` from a token on that is not within anything that begins there.
fn next_colon(cx: &Context<'_>, from: usize, end: usize) -> Option<usize> {
    let mut depth = 0;
    for (count, token) in cx.tokens.get(from..end)?.iter().enumerate() {
        if depth == 0 && token.kind == Kind::Colon {
            return from.checked_add(count);
        }
        depth = depth_in_statements(depth, token.kind)?;
    }
    None
}

// The token after the last `:` of the open `case` before the place.
fn chosen(cx: &Context<'_>) -> Option<usize> {
    let mut at = begin_of(cx.opened.top())?.saturating_add(1);
    for _ in at..cx.at {
        match next_colon(cx, at, cx.at) {
            Some(colon) => at = colon.saturating_add(1),
            None => break,
        }
    }
    Some(at)
}

// The `;` from the place on that comes before the next constants of the open `case`.
fn next_choice(cx: &Context<'_>) -> Option<usize> {
    let colon = next_colon(cx, cx.at, cx.tokens.len())?;
    let at = last_between(cx, cx.at, colon, &[Kind::Semicolon])?;
    if cx.is_of(at, &[Kind::Semicolon]) {
        Some(at)
    } else {
        None
    }
}

// The last token of the part that begins at the place, if it ends in the text.
fn last_of_part(cx: &Context<'_>) -> Option<usize> {
    let first = cx.at.saturating_add(1);
    let tokens = cx.tokens.get(first..).unwrap_or(&[]);
    for (count, token) in tokens.iter().enumerate() {
        if ENDS_PART.contains(&token.kind) {
            return cx.at.checked_add(count);
        }
    }
    None
}

// The last token of the declaration at the place, among statements: its `;`.
fn last_declared(cx: &Context<'_>) -> Option<usize> {
    let end = statement_end(cx, cx.at);
    match cx.kind(end) {
        Some(Kind::Semicolon) => Some(end),
        _ => None,
    }
}

// The number of a token of the expression at the place.
fn number_in_expression(cx: &Context<'_>, place: &Place) -> Option<usize> {
    let at = cx.at;
    match place {
        Place::ExpressionStart => Some(expression_start(cx, at)),
        Place::ExpressionEnd => Some(expression_end(cx, at)),
        Place::NextExpressionEnd => Some(expression_end(cx, at.saturating_add(1))),
        Place::First(kind) => first_between(cx, expression_start(cx, at), at, &[*kind]),
        Place::FirstComparison => first_comparison(cx),
        Place::Joint => joint(cx),
        Place::JointLeft => joint_left(cx),
        Place::JointRight => joint_right(cx),
        _ => None,
    }
}

// The first comparison of the expression before the place.
fn first_comparison(cx: &Context<'_>) -> Option<usize> {
    first_between(cx, expression_start(cx, cx.at), cx.at, COMPARES)
}

// The `and` or `or` after the first comparison.
fn joint(cx: &Context<'_>) -> Option<usize> {
    let first = first_comparison(cx)?;
    first_between(cx, first.saturating_add(1), cx.at, JOINS)
}

// The operator before the left operand of that.
fn joint_left(cx: &Context<'_>) -> Option<usize> {
    let first = first_comparison(cx)?;
    let joint = joint(cx)?;
    let bounds = match cx.kind(joint) {
        Some(Kind::Or) => COMPARES,
        _ => COMPARES_OR_ADDS,
    };
    Some(last_between(cx, first, joint, bounds).unwrap_or(first))
}

// The operator after its right operand.
fn joint_right(cx: &Context<'_>) -> Option<usize> {
    let next = joint(cx)?.saturating_add(1);
    Some(first_between(cx, next, cx.at, OPERATORS).unwrap_or(cx.at))
}

// The numbers of the first and of the last one of several tokens.
fn ends_of(cx: &Context<'_>, reach: &Reach) -> (Option<usize>, Option<usize>) {
    match reach {
        Reach::One(place) => (number_of(cx, place), number_of(cx, place)),
        Reach::To(first, last) => (number_of(cx, first), number_of(cx, last)),
        Reach::UpTo(first, end) => (number_of(cx, first), before(number_of(cx, end))),
        Reach::Between(start, end) => {
            let first = behind(number_of(cx, start));
            (first, before(number_of(cx, end)))
        }
    }
}

// The number of the token before one.
fn before(at: Option<usize>) -> Option<usize> {
    Some(at?.saturating_sub(1))
}

/// The span of tokens; that of the place, if there are none.
pub(crate) fn span_of(cx: &Context<'_>, reach: &Reach) -> Span {
    match ends_of(cx, reach) {
        (Some(first), Some(last)) => cx.span_of(first, last),
        _ => cx.place,
    }
}
