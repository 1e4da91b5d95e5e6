//! A table of the lines of a text.

ghost use Rattle.std.specs.Prelude.{◌≡◌, ◌≤◌, ◌<◌, ◌^◌, ℕ, true, false, List, length, nat_lt, IfOk};
ghost use Rattle.std.specs.List.Sorted.{IsNonDecreasing, IsPartitionPoint};
ghost use Rattle.ps_text.specs.declared.TheConstants.{MAX_LINES};
ghost use Rattle.ps_text.specs.Lines.{line_at, line_ends as ends_from, IsSource};

use crate::{LINE_END, Source};
use memchr::memchr_iter;
use std::alloc::{AllocError, Global};
use std::marker::Model;

/// The allocator refused memory.
pub type OutOfMemory = AllocError;

/// A text with the offsets of all its line ends, for many questions about lines. A contract sees it as the list of the
/// text's bytes.
#[derive(Drop)]
pub struct LineTable<'a> {
    text: &'a [u8],
    ends: Vec<u32>,
}

impl<'a> Model for LineTable<'a> {
    ghost Value = { List ℕ };

    ghost view = { λ t. t.text.now };

    ghost invariant = { λ t. (t.ends.items ≡ ends_from 0 t.text.now) × IsSource t.text.now };
}

impl<'a> LineTable<'a> {
    /// The table of a text.
    pub fn new(alloc: Global, source: &Source<'a>) -> Result<LineTable<'a>, OutOfMemory>
        ensures { IfOk result (λ table. table ≡ source.now) }
    {
        let text = source.bytes();
        let ends = line_ends(alloc, text)?;
        Ok(LineTable { text, ends })
    }

    /// The line of an offset, the same as `Source::line_of` returns.
    pub fn line_of(&self, offset: u32) -> u32
        requires { offset ≤ length self.now }
        ensures line { result ≡ line_at self.now offset }
        ensures range { (1 ≤ result) × (result ≤ MAX_LINES) }
    {
        1 + count_before(&self.ends, offset)
    }
}

/// The number of offsets, which are in rising order, that come before another.
fn count_before(ends: &[u32], offset: u32) -> u32
    requires rise { IsNonDecreasing ends.now }
    requires few { length ends.now < MAX_LINES }
    ensures point { IsPartitionPoint (λ end. nat_lt end offset ≡ true)
        (λ end. nat_lt end offset ≡ false) ends.now result }
    ensures within { result ≤ length ends.now }
{
    ends.partition_point(|end| *end < offset) as u32
}

/// The offsets of the bytes 10.
fn line_ends(alloc: Global, text: &[u8]) -> Result<Vec<u32>, OutOfMemory>
    requires { length text.now < 2 ^ 32 }
    ensures { IfOk result (λ ends. ends.items ≡ ends_from 0 text.now) }
{
    let mut ends = Vec::new(alloc);
    for offset in memchr_iter(LINE_END, text) {
        ends.push(offset as u32)?;
    }
    Ok(ends)
}
