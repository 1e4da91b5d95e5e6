//! The row of a link, found by bisection.

ghost use Rattle.std.specs.Prelude.{◌≡◌, ◌≢◌, ℕ, ◌+◌, ◌*◌, ◌/◌, ◌<◌, ◌≤◌, MatchOption, length, map, slice_index};
ghost use Rattle.std.specs.List.Sorted.{IsStrictlyIncreasing};
ghost use Rattle.risc_image.specs.Table.{words, trap_rows, call_rows_of, trap_at, call_at};
ghost use Rattle.risc_image.specs.Search.{KeysRise};

use crate::rows::{CallRow, TrapRow};
use crate::words::{call_count, read_call, read_trap, trap_count, word_at};

/// The row whose first word is this key, among `count` rows of `width` words with ascending first words.
pub fn row_of(table: &[u8], width: usize, count: usize, key: u32) -> Option<usize>
    requires wide { 0 < width }
    requires narrow { width < 4 }
    requires fits { 4 * (width * count) ≤ length table.now }
    requires rising { KeysRise width count (words table.now) }
    ensures { MatchOption result ((k : ℕ) → k < count → slice_index (words table.now) (width * k) ≢ key)
        (λ k. (k < count) × (slice_index (words table.now) (width * k) ≡ key)) }
{
    let mut low = 0;
    let mut high = count;
    while low < high {
        let middle = low + (high - low) / 2;
        let found = word_at(table, width * middle);
        if found == key {
            return Some(middle);
        }
        if found < key {
            low = middle + 1;
        } else {
            high = middle;
        }
    }
    None
}

/// The row of a link in a trap table whose links ascend.
pub fn find_trap(table: &[u8], link: u32) -> Option<TrapRow>
    requires { IsStrictlyIncreasing (map (λ row. row.link) (trap_rows (words table.now))) }
    ensures { result ≡ trap_at link (trap_rows (words table.now)) }
{
    match row_of(table, 3, trap_count(table), link) {
        None => None,
        Some(k) => Some(read_trap(table, k)),
    }
}

/// The row of a link in a call table whose links ascend.
pub fn find_call(table: &[u8], link: u32) -> Option<CallRow>
    requires { IsStrictlyIncreasing (map (λ row. row.link) (call_rows_of (words table.now))) }
    ensures { result ≡ call_at link (call_rows_of (words table.now)) }
{
    match row_of(table, 2, call_count(table), link) {
        None => None,
        Some(k) => Some(read_call(table, k)),
    }
}
