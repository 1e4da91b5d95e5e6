//! The text being read, and what is known about the whole program.

ghost use Rattle.std.specs.Prelude.{◌≡◌};

use crate::scope::{Found, Scope, denoted_at};
use crate::wides::Wides;
use ps_check_judgement::refusal::CheckFault;
use ps_scan::name_spelling;
use ps_text::{LineTable, Source, Span};
use ps_tree::line::Line;
use ps_tree::names::Seed;
use ps_tree::types::Ty;
use smallvec::SmallVec;
use std::alloc::{AllocError, Global};

/// The text being read, with its lines and the seed of its names' hashes, the domain types of the pointer types so far,
/// by their numbers, its wide record types, and which of input and output the program heading lists.
#[derive(Clone, Copy)]
pub struct Reading<'a> {
    pub source: &'a Source<'a>,
    pub lines: &'a LineTable<'a>,
    pub seed: Seed,
    pub domains: &'a [Ty],
    pub wides: &'a Wides,
    pub has_input: bool,
    pub has_output: bool,
    ghost one_text: { lines.now ≡ source.now },
}

/// The spelling of a name, in lower case. A spelling of at most 32 characters allocates nothing.
pub type Spelling = SmallVec<u8, 32>;

impl<'a> Reading<'a> {
    ghost use Rattle.std.specs.Prelude.{IfOk};
    ghost use Rattle.ps_check_judgement.specs.Judged.{Answers};
    ghost use Rattle.ps_check_names.specs.Spelling.{bytes_at, spelled, line_in};
    ghost use Rattle.ps_check_names.specs.Constants.{denoted};
    ghost use Rattle.ps_check_names.specs.Views.{scope_of, point_of};

    /// The bytes of a span; none if the span is not within the text.
    pub fn bytes(&self, at: Span) -> &'a [u8]
        ensures { result.now ≡ bytes_at self.now.source.now at }
    {
        if at.from <= at.to && at.to <= self.source.len() {
            self.source.slice(at)
        } else {
            &[]
        }
    }

    /// The line of an offset; past the end of the text, the line of the end.
    pub fn line(&self, at: u32) -> Line
        ensures { result.number ≡ line_in self.now.source.now at }
    {
        let number = self.lines.line_of(at.min(self.source.len()));
        Line {
            number: number as u16,
            at,
        }
    }

    /// The spelling of a name, to be kept.
    pub fn name(&self, alloc: Global, at: Span) -> Result<Vec<u8>, AllocError>
        ensures { IfOk result (λ name. name.items ≡ spelled self.now.source.now at) }
    {
        name_spelling(alloc, self.bytes(at))
    }

    /// The spelling of a name, to be looked up.
    pub fn spelling(&self, alloc: Global, at: Span) -> Result<Spelling, AllocError>
        ensures { IfOk result (λ name. name.items ≡ spelled self.now.source.now at) }
    {
        let bytes = self.bytes(at);
        let mut spelling: Spelling = SmallVec::new(alloc);
        for byte in bytes {
            spelling.push(byte.to_ascii_lowercase())?;
        }
        Ok(spelling)
    }

    /// The defining point that a name denotes.
    pub fn denoted<'s>(
        &self,
        alloc: Global,
        scope: &'s Scope<'s>,
        name: Span,
    ) -> Result<Found<'s>, CheckFault>
        ensures { Answers result (λ found. point_of found) (denoted self.now.source.now (scope_of scope.now) name) }
    {
        let spelling = self.spelling(alloc, name)?;
        denoted_at(scope, spelling.as_slice(), name.from)
    }
}
