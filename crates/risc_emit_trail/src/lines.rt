//! Lines of calls.

ghost use Rattle.std.specs.Prelude.{◌≡◌, ◌<◌, ◌≤◌, ◌++◌, [], ◌∷◌, length, slice_index};

use std::fmt;
use std::marker::Model;

/// The most lines that are reported.
pub const MOST: usize = 16;

/// The lines of calls, innermost first: 16 at most. A clause sees them as a list.
#[derive(Clone, Copy, PartialEq, Eq)]
pub struct Trail {
    lines: [u32; 16],
    count: usize,
}

impl Model for Trail {
    ghost use Rattle.std.specs.Prelude.{List, ℕ};

    ghost Value = { List ℕ };

    ghost use Rattle.risc_emit_trail.specs.Lines.{lines_of, with_lines, given_back, IsFilled};

    ghost view = { lines_of };

    ghost inverse = { with_lines };

    ghost inverse_ok = { given_back };

    ghost invariant = { IsFilled };
}

impl Trail {
    /// No line.
    pub fn new() -> Trail
        ensures { result ≡ [] }
    {
        Trail {
            lines: [0; MOST],
            count: 0,
        }
    }

    /// Adds the line of a call further out, if there are fewer than 16.
    pub fn push(&mut self, line: u32)
        requires { length self.old < MOST }
        ensures { self.new ≡ self.old ++ line ∷ [] }
    {
        self.lines[self.count] = line;
        self.count += 1;
    }

    /// How many lines there are, 16 at most.
    pub fn len(&self) -> usize
        ensures value { result ≡ length self.now }
        ensures range { result ≤ 16 }
    {
        self.count
    }

    /// Line k, where k is below `len`: the innermost call's is line 0.
    pub fn line(&self, k: usize) -> u32
        requires { k < length self.now }
        ensures { result ≡ slice_index self.now k }
    {
        let told = &self.lines[..self.count];
        told[k]
    }
}

/// The lines, as a list.
impl fmt::Debug for Trail {
    fn fmt<W: fmt::Write>(&self, f: &mut fmt::Formatter<W>) -> fmt::Result {
        f.debug_list().entries(&self.lines[..self.count]).finish()
    }
}
