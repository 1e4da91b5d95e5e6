//! Why tokens are refused: some of them are read again, with the next token or with what could replace it.

ghost use Rattle.std.specs.Prelude.{◌≡◌, ◌≢◌, ◌+◌, ◌-◌, ◌≤◌, ◌↔◌, ◌++◌, true, length, IfOk};
ghost use Rattle.ps_parse.specs.declared.error.ReadFailure.TheVariants as faults;
ghost use Rattle.ps_parse.specs.Steps.{left_of, stop};
ghost use Rattle.ps_parse.specs.Reading.{reading};
ghost use Rattle.ps_parse.specs.Refusals.{refusal_at};
ghost use Rattle.ps_parse.specs.Begun.{Begins};
ghost use Rattle.ps_parse.specs.Untaken.{NoneTakesAt, IsLeftOut, IsFault, IsTold};

use crate::error::{ParseFault, ParseRefusal, ReadFailure};
use crate::left_out::{followed_by, in_place_of};
use crate::parser::Parser;
use ps_parse_grammar::MAX_HEIGHT;
use ps_scan::{Kind, Token};
use ps_text::{Source, Span};
use std::alloc::{AllocError, Global};

/// The refusal of a fault.
pub fn refusal_of(
    alloc: Global,
    source: &Source,
    tokens: &[Token],
    fault: ReadFailure,
) -> ParseRefusal
    requires stopped { fault ≢ faults.OutOfMemory → stop (reading source.now 500 tokens.now) ≡ left_of fault }
    requires untaken { fault ≢ faults.OutOfMemory → NoneTakesAt source.now tokens.now
        (length tokens.now - left_of fault) }
    ensures { IsTold source.now tokens.now result }
{
    let ReadFailure::Unexpected(left) = fault else {
        return ParseRefusal::OutOfMemory;
    };
    let at = tokens.len().saturating_sub(left);
    match fault_of(alloc, source.bytes(), &tokens[..at], &tokens[at..]) {
        Ok(fault) => refusal_at(source, tokens, at, fault),
        Err(_) => ParseRefusal::OutOfMemory,
    }
}

/// Why no derivation accepts the first of some tokens after those before it.
fn fault_of(
    alloc: Global,
    text: &[u8],
    before: &[Token],
    behind: &[Token],
) -> Result<ParseFault, AllocError>
    requires { stop (reading text.now 500 before.now) ≡ 0 }
    ensures { IfOk result (IsFault text.now before.now behind.now) }
{
    let [token, ..] = behind else {
        return Ok(ParseFault::NotAProgram);
    };
    if begins(alloc, text, before, &[*token])? {
        return Ok(ParseFault::TooDeep);
    }
    if is_left_out(alloc, text, before, behind)? {
        Ok(ParseFault::NotInProfile)
    } else {
        Ok(ParseFault::NotAProgram)
    }
}

/// Whether the first of some tokens after others belongs to a construction that the profile leaves out.
fn is_left_out(
    alloc: Global,
    text: &[u8],
    before: &[Token],
    behind: &[Token],
) -> Result<bool, AllocError>
    requires { stop (reading text.now 500 before.now) ≡ 0 }
    ensures { IfOk result (λ answer. (answer ≡ true) ↔ IsLeftOut text.now before.now behind.now) }
{
    let mut parser = Parser {
        alloc,
        rest: behind,
    };
    let Some(token) = parser.peek() else {
        return Ok(false);
    };
    parser.skip();
    match in_place_of(token.kind, parser.sees(Kind::Colon)) {
        Some(others) => begins(alloc, text, before, others),
        None => Ok(false),
    }
}

/// Whether a program of any height begins with some tokens and a few more. It is enough to allow as many extra levels.
fn begins(alloc: Global, text: &[u8], before: &[Token], more: &[Token]) -> Result<bool, AllocError>
    requires stopped { stop (reading text.now 500 before.now) ≡ 0 }
    requires few { length more.now ≤ 5 }
    ensures { IfOk result (λ answer. (answer ≡ true) ↔ Begins text.now (before.now ++ more.now)) }
{
    let tokens = followed_by(alloc, before, more)?;
    let mut parser = Parser {
        alloc,
        rest: &tokens,
    };
    match parser.program(text, MAX_HEIGHT + more.len() as u32) {
        Ok(program) => {
            drop(program);
            Ok(parser.left() == 0)
        }
        Err(ReadFailure::Unexpected(left)) => Ok(left == 0),
        Err(ReadFailure::OutOfMemory) => Err(AllocError),
    }
}

/// What is reported for the token with this number.
fn refusal_at(source: &Source, tokens: &[Token], at: usize, fault: ParseFault) -> ParseRefusal
    ensures { result ≡ refusal_at source.now tokens.now at fault }
{
    let end = source.len();
    let place = match tokens.get(at) {
        Some(token) => token.span,
        None => Span { from: end, to: end },
    };
    ParseRefusal::Faulty {
        fault,
        line: source.line_of(place.from.min(end)),
        token: u32::try_from(at).unwrap_or(u32::MAX),
        from: place.from,
        to: place.to,
    }
}
