//! Whether tokens begin a program.

ghost use Rattle.std.specs.Prelude.{◌<◌, ◌^◌, length, min, IfOk};
ghost use Rattle.ps_parse.specs.Untaken.{IsRefusedAt};
ghost use Rattle.ps_diagnose.specs.Begun.{Tells};

use ps_parse::{ParseFault, ParseRefusal, parse, release};
use ps_scan::Token;
use ps_text::Source;
use std::alloc::{AllocError, Global};

/// Whether tokens begin a program.
#[derive(Clone, Copy, PartialEq, Eq)]
pub enum Answer {
    /// With some tokens after them they form a program, however high it may be.
    Begun,
    /// No tokens after them complete them to a program.
    NotBegun,
    /// A construction in them, before the last token, is nested too deeply.
    Unknown,
}

/// Whether these tokens of a text begin a program (ISO 7185 6.2 to 6.10).
pub fn begins(alloc: Global, source: &Source, tokens: &[Token]) -> Result<Answer, AllocError>
    requires { length tokens.now < 2 ^ 32 }
    ensures { IfOk result (Tells source.now tokens.now) }
{
    match parse(alloc, source, tokens) {
        Ok(program) => {
            release(program);
            Ok(Answer::Begun)
        }
        Err(ParseRefusal::OutOfMemory) => Err(AllocError),
        Err(ParseRefusal::Faulty { fault, token, .. }) => {
            Ok(refused_at(source, tokens, token as usize, fault))
        }
    }
}

// What a refusal at a token shows: the end counts as a token.
fn refused_at(source: &Source, tokens: &[Token], at: usize, fault: ParseFault) -> Answer
    requires { IsRefusedAt source.now tokens.now at fault }
    ensures { Tells source.now tokens.now result }
{
    let _ = source;
    if at >= tokens.len() {
        return Answer::Begun;
    }
    match fault {
        ParseFault::NotAProgram => Answer::NotBegun,
        ParseFault::NotInProfile => Answer::NotBegun,
        ParseFault::TooDeep if at + 1 == tokens.len() => Answer::Begun,
        ParseFault::TooDeep => Answer::Unknown,
    }
}
