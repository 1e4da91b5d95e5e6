//! The tests of an image's tables.

ghost use Rattle.std.specs.Prelude.{◌≡◌, ℕ, ◌+◌, ◌*◌, ◌%◌, ◌<◌, ◌≤◌, ◌↔◌, IsTrue, length};
ghost use Rattle.risc_image.specs.Image.{IsFrame, IsObject, IsLink, IsLine, IsTrap, IsCall, AreFrames, AreObjects};
ghost use Rattle.risc_image.specs.Image.{AreTraps, AreCalls};
ghost use Rattle.risc_image.specs.Cut.{AreTables};
ghost use Rattle.risc_image.specs.Table.{words, frame_rows, object_rows, trap_rows, call_rows_of};

use crate::cut::Pieces;
use crate::rows::{CallRow, FrameRow, ObjectRow, TrapRow};
use crate::words::{
    call_count, frame_count, object_count, read_call, read_frame, read_object, read_trap,
    trap_count,
};

fn is_frame(row: FrameRow, end: usize) -> bool
    ensures { IsTrue result ↔ IsFrame end row }
{
    row.entry % 4 == 0 && (row.entry as usize) < end && row.bytes % 4 == 0
}

fn is_object(row: ObjectRow) -> bool
    ensures { IsTrue result ↔ IsObject row }
{
    row.bytes % 4 == 0
}

fn is_link(link: u32, end: usize) -> bool
    ensures { IsTrue result ↔ IsLink end link }
{
    link % 4 == 0 && 4 <= link && link as usize <= end
}

fn is_line(line: u32) -> bool
    ensures { IsTrue result ↔ IsLine line }
{
    1 <= line && line <= 65535
}

fn is_trap(row: TrapRow, end: usize) -> bool
    ensures { IsTrue result ↔ IsTrap end row }
{
    is_link(row.link, end) && 1 <= row.error && row.error <= 13 && is_line(row.line)
}

fn is_call(row: CallRow, end: usize) -> bool
    ensures { IsTrue result ↔ IsCall end row }
{
    is_link(row.link, end) && is_line(row.line)
}

/// Whether the rows are a frame table for code that ends at this address.
pub fn are_frames(table: &[u8], end: usize) -> bool
    ensures { IsTrue result ↔ AreFrames end (frame_rows (words table.now)) }
{
    for k in 0..frame_count(table) {
        let row = read_frame(table, k);
        if !is_frame(row, end) {
            return false;
        }
        if k > 0 && read_frame(table, k - 1).entry >= row.entry {
            return false;
        }
    }
    true
}

/// Whether the rows are an object table.
pub fn are_objects(table: &[u8]) -> bool
    ensures { IsTrue result ↔ AreObjects (object_rows (words table.now)) }
{
    for k in 0..object_count(table) {
        let row = read_object(table, k);
        if !is_object(row) {
            return false;
        }
        if k > 0 && read_object(table, k - 1).pointer_type >= row.pointer_type {
            return false;
        }
    }
    true
}

/// Whether the rows are a trap table for code that ends at this address.
pub fn are_traps(table: &[u8], end: usize) -> bool
    ensures { IsTrue result ↔ AreTraps end (trap_rows (words table.now)) }
{
    for k in 0..trap_count(table) {
        let row = read_trap(table, k);
        if !is_trap(row, end) {
            return false;
        }
        if k > 0 && read_trap(table, k - 1).link >= row.link {
            return false;
        }
    }
    true
}

/// Whether the rows are a call table for code that ends at this address.
pub fn are_calls(table: &[u8], end: usize) -> bool
    ensures { IsTrue result ↔ AreCalls end (call_rows_of (words table.now)) }
{
    for k in 0..call_count(table) {
        let row = read_call(table, k);
        if !is_call(row, end) {
            return false;
        }
        if k > 0 && read_call(table, k - 1).link >= row.link {
            return false;
        }
    }
    true
}

/// Whether the globals, the code and the tables are as the format requires.
pub fn are_tables(global: u32, parts: Pieces) -> bool
    ensures { IsTrue result ↔ AreTables global parts.entry.code.now parts.entry.frames.now parts.entry.objects.now
        parts.entry.traps.now parts.entry.calls.now }
{
    let end = parts.code.len();
    end > 0
        && global % 4 == 0
        && are_frames(parts.frames, end)
        && are_objects(parts.objects)
        && are_traps(parts.traps, end)
        && are_calls(parts.calls, end)
}
