//! Which kinds of tokens could come at a place.

ghost use Rattle.std.specs.Prelude.{◌<◌, ◌+◌, ◌^◌, ◌≡◌, List, [], ◌∷◌, ◌++◌, length, IfOk, OnOk};
ghost use Rattle.std.specs.List.{Contains};
ghost use Rattle.ps_parse_grammar.specs.Symbols.{token};
ghost use Rattle.ps_diagnose.specs.Begun.{Tells, Asked, Expects, nowhere, one_more};
ghost use Rattle.ps_scan.specs.declared.token.Kind.{Kind};

use crate::begun::{Answer, begins};
use crate::kinds::ALL;
use ps_scan::{Kind, Token};
use ps_text::{Source, Span};
use std::alloc::{AllocError, Global};

// A token of a kind that is in no text.
fn made(kind: Kind) -> Token
    ensures { result ≡ token kind nowhere }
{
    Token {
        kind,
        span: Span {
            from: u32::MAX,
            to: u32::MAX,
        },
    }
}

/// Whether a token of this kind could come after these tokens of a text: with it they begin a program, or they don't.
pub fn could_stand(
    alloc: Global,
    source: &Source,
    before: &[Token],
    kind: Kind,
) -> Result<Answer, AllocError>
    requires { length before.now + 1 < 2 ^ 32 }
    ensures { IfOk result (Tells source.now (one_more before.now kind)) }
{
    let mut tokens = Vec::from_slice(alloc, before)?;
    tokens.push(made(kind))?;
    begins(alloc, source, tokens.as_slice())
}

// Adds a kind to those that could come there, if it could.
fn add_possible(
    alloc: Global,
    source: &Source,
    before: &[Token],
    kinds: &mut Vec<Kind>,
    kind: Kind,
) -> Result<(), AllocError>
    requires { length before.now + 1 < 2 ^ 32 }
    ensures { (asked : List Kind) → (Contains asked kind → ⊥)
        → OnOk result (Asked source.now before.now asked kinds.old.items
        → Asked source.now before.now (asked ++ kind ∷ []) kinds.new.items) }
{
    match could_stand(alloc, source, before, kind)? {
        Answer::Begun => {
            kinds.push(kind)?;
            Ok(())
        }
        Answer::NotBegun => Ok(()),
        Answer::Unknown => Ok(()),
    }
}

/// The kinds of tokens that could come after these tokens of a text, each once: with one more token of such a kind they
/// begin a program, and with one of any other kind they don't. (If a construction in them is nested too deeply, no
/// kinds are returned.)
pub fn expected_at(
    alloc: Global,
    source: &Source,
    before: &[Token],
) -> Result<Vec<Kind>, AllocError>
    requires { length before.now + 1 < 2 ^ 32 }
    ensures { IfOk result (λ kinds. Expects source.now before.now kinds.items) }
{
    let mut kinds = Vec::new(alloc);
    for at in 0..ALL.len() {
        add_possible(alloc, source, before, &mut kinds, ALL[at])?;
    }
    Ok(kinds)
}
