//! The scanner.

ghost use Rattle.std.specs.Prelude.{◌≡◌, ◌+◌, ◌≤◌, length};
ghost use Rattle.std.specs.Result.{MatchResult};
ghost use Rattle.ps_text.specs.Lines.{line_at, IsSource};
ghost use Rattle.ps_scan.specs.Lexis.{IsTokens};
ghost use Rattle.ps_scan.specs.Refusals.{IsTold};

use crate::lexeme::{FaultAhead, front};
use crate::refusal::ScanRefusal;
use crate::token::Token;
use ps_text::{Source, Span};
use std::alloc::Global;

/// The tokens of a text, or its first fault with the place (ISO 7185, 6.1).
///
/// Each text has exactly one of the two: `each_text_is_scanned`. Running out of memory says nothing about this.
pub fn scan(alloc: Global, source: &Source<'_>) -> Result<Vec<Token>, ScanRefusal>
    ensures { MatchResult result (λ tokens. IsTokens source.now tokens.items) (IsTold source.now) }
{
    let text = source.bytes();
    let mut tokens = Vec::new(alloc);
    let mut at = 0;
    while at < text.len() {
        let lexeme = match front(&text[at..]) {
            Ok(lexeme) => lexeme,
            Err(found) => return Err(refusal_of(source, at, found)),
        };
        let end = at + lexeme.length;
        if let Some(kind) = lexeme.kind {
            let span = Span {
                from: at as u32,
                to: end as u32,
            };
            if tokens.push(Token { kind, span }).is_err() {
                return Err(ScanRefusal::OutOfMemory);
            }
        }
        at = end;
    }
    Ok(tokens)
}

/// The refusal of a fault that was found at an offset, and begins there or after it.
fn refusal_of(source: &Source<'_>, at: usize, found: FaultAhead) -> ScanRefusal
    requires limits { IsSource source.now }
    requires within { at + found.ahead + found.length ≤ length source.now }
    ensures { let from = at + found.ahead in
        result ≡ ScanRefusal.Faulty found.fault (line_at source.now from) from (from + found.length) }
{
    let from = at + found.ahead;
    let to = from + found.length;
    ScanRefusal::Faulty {
        fault: found.fault,
        line: source.line_of(from as u32),
        from: from as u32,
        to: to as u32,
    }
}
