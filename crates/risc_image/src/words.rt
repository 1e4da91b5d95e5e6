//! Words and rows in bytes, the lowest byte of a word first.

ghost use Rattle.std.specs.Prelude.{◌≡◌, ℕ, ◌+◌, ◌*◌, ◌/◌, ◌<◌, ◌≤◌, Some, length, slice_index, slice_get};
ghost use Rattle.risc_image.specs.Table.{words, frame_rows, object_rows, trap_rows, call_rows_of};

use crate::rows::{CallRow, FrameRow, ObjectRow, TrapRow};

/// Word k.
#[tactic(auto, using(crate::proofs::Spelled::word_spelled))]
pub fn word_at(bytes: &[u8], k: usize) -> u32
    requires { 4 * k + 4 ≤ length bytes.now }
    ensures { result ≡ slice_index (words bytes.now) k }
{
    let at = 4 * k;
    u32::from_le_bytes([bytes[at], bytes[at + 1], bytes[at + 2], bytes[at + 3]])
}

/// How many words the bytes have.
#[tactic(auto, using(crate::proofs::Spelled::words_length))]
pub fn word_count(bytes: &[u8]) -> usize
    ensures words { result ≡ length (words bytes.now) }
    ensures bytes { result ≡ length bytes.now / 4 }
{
    bytes.len() / 4
}

/// Word k, if there is one.
#[tactic(auto, using(std::proofs::lemmas::Option::slice_get_past, std::proofs::lemmas::Option::slice_get_read, crate::proofs::Spelled::words_length))]
pub fn get_word(bytes: &[u8], k: usize) -> Option<u32>
    ensures { result ≡ slice_get (words bytes.now) k }
{
    if k < word_count(bytes) {
        Some(word_at(bytes, k))
    } else {
        None
    }
}

/// Row k of a frame table.
#[tactic(auto, using(crate::proofs::RowLemmas::frame_row_at, crate::proofs::Spelled::words_length))]
pub fn read_frame(table: &[u8], k: usize) -> FrameRow
    requires { 8 * k + 8 ≤ length table.now }
    ensures { slice_get (frame_rows (words table.now)) k ≡ Some result }
{
    FrameRow {
        entry: word_at(table, 2 * k),
        bytes: word_at(table, 2 * k + 1),
    }
}

/// Row k of an object table.
#[tactic(auto, using(crate::proofs::RowLemmas::object_row_at, crate::proofs::Spelled::words_length))]
pub fn read_object(table: &[u8], k: usize) -> ObjectRow
    requires { 8 * k + 8 ≤ length table.now }
    ensures { slice_get (object_rows (words table.now)) k ≡ Some result }
{
    ObjectRow {
        pointer_type: word_at(table, 2 * k),
        bytes: word_at(table, 2 * k + 1),
    }
}

/// Row k of a trap table.
#[tactic(auto, using(crate::proofs::RowLemmas::trap_row_at, crate::proofs::Spelled::words_length))]
pub fn read_trap(table: &[u8], k: usize) -> TrapRow
    requires { 12 * k + 12 ≤ length table.now }
    ensures { slice_get (trap_rows (words table.now)) k ≡ Some result }
{
    TrapRow {
        link: word_at(table, 3 * k),
        error: word_at(table, 3 * k + 1),
        line: word_at(table, 3 * k + 2),
    }
}

/// Row k of a call table.
#[tactic(auto, using(crate::proofs::RowLemmas::call_row_at, crate::proofs::Spelled::words_length))]
pub fn read_call(table: &[u8], k: usize) -> CallRow
    requires { 8 * k + 8 ≤ length table.now }
    ensures { slice_get (call_rows_of (words table.now)) k ≡ Some result }
{
    CallRow {
        link: word_at(table, 2 * k),
        line: word_at(table, 2 * k + 1),
    }
}

/// How many rows a frame table has.
#[tactic(auto, using(crate::proofs::RowLemmas::length_frame_rows, crate::proofs::Spelled::words_length))]
pub fn frame_count(table: &[u8]) -> usize
    ensures rows { result ≡ length (frame_rows (words table.now)) }
    ensures bytes { result ≡ length table.now / 8 }
{
    table.len() / 8
}

/// Row k of a frame table, if there is one.
#[tactic(auto, using(std::proofs::lemmas::Option::slice_get_past))]
pub fn get_frame(table: &[u8], k: usize) -> Option<FrameRow>
    ensures { result ≡ slice_get (frame_rows (words table.now)) k }
{
    if k < frame_count(table) {
        Some(read_frame(table, k))
    } else {
        None
    }
}

/// How many rows an object table has.
#[tactic(auto, using(crate::proofs::RowLemmas::length_object_rows, crate::proofs::Spelled::words_length))]
pub fn object_count(table: &[u8]) -> usize
    ensures rows { result ≡ length (object_rows (words table.now)) }
    ensures bytes { result ≡ length table.now / 8 }
{
    table.len() / 8
}

/// Row k of an object table, if there is one.
#[tactic(auto, using(std::proofs::lemmas::Option::slice_get_past))]
pub fn get_object(table: &[u8], k: usize) -> Option<ObjectRow>
    ensures { result ≡ slice_get (object_rows (words table.now)) k }
{
    if k < object_count(table) {
        Some(read_object(table, k))
    } else {
        None
    }
}

/// How many rows a trap table has.
#[tactic(auto, using(crate::proofs::RowLemmas::length_trap_rows, crate::proofs::Spelled::words_length))]
pub fn trap_count(table: &[u8]) -> usize
    ensures rows { result ≡ length (trap_rows (words table.now)) }
    ensures bytes { result ≡ length table.now / 12 }
{
    table.len() / 12
}

/// Row k of a trap table, if there is one.
#[tactic(auto, using(std::proofs::lemmas::Option::slice_get_past))]
pub fn get_trap(table: &[u8], k: usize) -> Option<TrapRow>
    ensures { result ≡ slice_get (trap_rows (words table.now)) k }
{
    if k < trap_count(table) {
        Some(read_trap(table, k))
    } else {
        None
    }
}

/// How many rows a call table has.
#[tactic(auto, using(crate::proofs::RowLemmas::length_call_rows, crate::proofs::Spelled::words_length))]
pub fn call_count(table: &[u8]) -> usize
    ensures rows { result ≡ length (call_rows_of (words table.now)) }
    ensures bytes { result ≡ length table.now / 8 }
{
    table.len() / 8
}

/// Row k of a call table, if there is one.
#[tactic(auto, using(std::proofs::lemmas::Option::slice_get_past))]
pub fn get_call(table: &[u8], k: usize) -> Option<CallRow>
    ensures { result ≡ slice_get (call_rows_of (words table.now)) k }
{
    if k < call_count(table) {
        Some(read_call(table, k))
    } else {
        None
    }
}
