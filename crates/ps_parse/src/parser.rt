//! The tokens that are left, and the steps that every rule is made of.

ghost use Rattle.std.specs.Prelude.{◌≡◌, ◌≢◌, ◌⊎◌, length, Some, Ok, Err, IfOk, IfErr};
ghost use Rattle.ps_text.specs.declared.Span.{Span};
ghost use Rattle.ps_parse.specs.Steps as spec;
ghost use Rattle.ps_parse.specs.Steps.{Reads};
ghost use Rattle.ps_parse.specs.declared.error.ReadFailure.TheVariants.{OutOfMemory};

use crate::error::ReadFailure;
use ps_scan::{Kind, Token, is};
use ps_text::Span;
use std::alloc::Global;

/// The tokens of a text that are left to be read, and what allocates the tree.
#[derive(Drop)]
pub struct Parser<'a> {
    pub alloc: Global,
    pub rest: &'a [Token],
}

impl<'a> Parser<'a> {
    /// How many tokens are left.
    pub fn left(&self) -> usize
        ensures { result ≡ length self.now.rest.now }
    {
        self.rest.len()
    }

    /// The next token is one that no rule accepts here.
    pub fn refusal(&self) -> ReadFailure
        ensures left { spec.left_of result ≡ length self.now.rest.now }
        ensures memory { result ≢ OutOfMemory }
    {
        ReadFailure::Unexpected(self.rest.len())
    }

    /// The next token, if any is left. It isn't taken.
    pub fn peek(&self) -> Option<Token>
        ensures { result ≡ spec.first self.now.rest.now }
    {
        match self.rest {
            [token, ..] => Some(*token),
            [] => None,
        }
    }

    /// Skips the next token.
    pub fn skip(&mut self)
        ensures after { self.new.rest.now ≡ spec.rest self.old.rest.now }
    {
        if let [_, rest @ ..] = self.rest {
            self.rest = rest;
        }
    }

    /// Whether the next token is of this kind. It isn't taken.
    pub fn sees(&self, kind: Kind) -> bool
        ensures { result ≡ spec.sees kind self.now.rest.now }
    {
        match self.rest {
            [token, ..] => is(token.kind, kind),
            [] => false,
        }
    }

    /// Takes the next token if it is of this kind.
    #[tactic(auto, unfolding(crate::specs::Steps::eat))]
    pub fn eat(&mut self, kind: Kind) -> bool
        ensures found { result ≡ spec.sees kind self.old.rest.now }
        ensures after { self.new.rest.now ≡ spec.after kind self.old.rest.now }
    {
        match self.rest {
            [token, rest @ ..] if is(token.kind, kind) => {
                self.rest = rest;
                true
            }
            _ => false,
        }
    }

    /// Takes the next token if it is of this kind, and returns its place.
    #[tactic(auto, unfolding(crate::specs::Steps::accept))]
    pub fn accept(&mut self, kind: Kind) -> Option<Span>
        ensures read { spec.accept kind self.old.rest.now ≡ Ok (result, self.new.rest.now) }
    {
        match self.rest {
            [token, rest @ ..] if is(token.kind, kind) => {
                self.rest = rest;
                Some(token.span)
            }
            _ => None,
        }
    }

    /// Takes the next token, which must be of this kind.
    #[tactic(auto, unfolding(crate::specs::Steps::expect))]
    pub fn expect(&mut self, kind: Kind) -> Result<Span, ReadFailure>
        ensures read { Reads (spec.expect kind self.old.rest.now) result self.new.rest.now }
    {
        match self.rest {
            [token, rest @ ..] if is(token.kind, kind) => {
                self.rest = rest;
                Ok(token.span)
            }
            _ => Err(self.refusal()),
        }
    }

    /// What was read, if a token of this kind comes next, which is taken too.
    pub fn followed_by<A: Drop>(
        &mut self,
        kind: Kind,
        read: Result<A, ReadFailure>,
    ) -> Result<A, ReadFailure>
        ensures ok { IfOk result (λ value. (read ≡ Ok value) × (at : Span)
            × (spec.expect kind self.old.rest.now ≡ Ok (at, self.new.rest.now))) }
        ensures err { IfErr result (λ fault. fault ≢ OutOfMemory → (read ≡ Err fault)
            ⊎ ((value : A) × (read ≡ Ok value) × (spec.expect kind self.old.rest.now ≡ Err (spec.left_of fault)))) }
    {
        match read {
            Ok(value) => {
                let end = self.expect(kind);
                end.and(Ok(value))
            }
            Err(fault) => Err(fault),
        }
    }
}
