//! A place in the program.

ghost use Rattle.std.specs.Prelude.{◌≡◌};
ghost use Rattle.ps_check_judgement.specs.Judged.{Answers};
ghost use Rattle.ps_check_names.specs.Views.{scope_of, point_of};
ghost use Rattle.ps_check_expressions.specs.Names.{denoted};
ghost use Rattle.ps_check_expressions.specs.View.{context_at, regions_at, with_controls};

use crate::inner::Inner;
use ps_check_judgement::refusal::CheckFault;
use ps_check_names::reading::Reading;
use ps_check_names::scope::{Found, Scope};
use ps_text::Span;
use std::alloc::Global;

/// What the typing of a place in the program needs: the text being read, the regions that enclose the place, the
/// control variables of the enclosing `for` statements by their entries, innermost first, and what the routines of its
/// block change.
#[derive(Clone, Copy)]
pub struct Site<'a> {
    pub alloc: Global,
    pub reading: &'a Reading<'a>,
    pub scope: &'a Scope<'a>,
    pub controls: &'a [u32],
    pub inner: &'a Inner<'a>,
}

impl<'a> Site<'a> {
    /// The defining point that a name denotes there.
    pub fn denoted(&self, name: Span) -> Result<Found<'a>, CheckFault>
        ensures { Answers result (λ found. point_of found)
            (denoted (context_at self.now) (regions_at self.now) name) }
    {
        self.reading.denoted(self.alloc, self.scope, name)
    }

    /// The same place within other regions.
    pub fn within<'b>(&self, scope: &'b Scope<'b>) -> Site<'b>
    where
        'a: 'b,
        ensures context { context_at result ≡ context_at self.now }
        ensures regions { regions_at result ≡ scope_of scope.now }
    {
        Site {
            alloc: self.alloc,
            reading: self.reading,
            scope,
            controls: self.controls,
            inner: self.inner,
        }
    }

    /// The same place within a `for` statement.
    pub fn with_controls<'b>(&self, controls: &'b [u32]) -> Site<'b>
    where
        'a: 'b,
        ensures context { context_at result ≡ with_controls (context_at self.now) controls.now }
        ensures regions { regions_at result ≡ regions_at self.now }
    {
        Site {
            alloc: self.alloc,
            reading: self.reading,
            scope: self.scope,
            controls,
            inner: self.inner,
        }
    }
}
