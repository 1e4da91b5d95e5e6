//! The magic and the header of an image, and the length that its counts require.

ghost use Rattle.std.specs.Prelude.{◌≡◌, ◌<◌, ◌≤◌, ◌+◌, ◌*◌, Bool, Some, None, length, OnOk, IfOk, IfErr, slice_index};
ghost use Rattle.risc_image.specs.Refusal.{begins_as_image, is_second, header_length, header_word, asked_calls};
ghost use Rattle.risc_image.specs.Refusal.{asked_length, is_too_large, first_fault};
ghost use Rattle.risc_image.specs.Header.{IsHeader, Passes};

use crate::refusal::ImageRefusal;
use crate::words::word_at;

/// The magic of the first version.
pub const FIRST_MAGIC: [u8; 4] = [0x50, 0x52, 0x49, 0x31];

/// The magic of the second version.
pub const SECOND_MAGIC: [u8; 4] = [0x50, 0x52, 0x49, 0x32];

/// The most bytes of globals, words of code, and rows of a table.
pub const MAX_COUNT: u32 = 1_048_576;

const LONGEST_FIRST: usize = 33554456;

const LONGEST_SECOND: usize = 41943068;

/// What the words of a header say.
#[derive(Clone, Copy)]
pub struct Header {
    pub global: u32,
    pub code: u32,
    pub frames: u32,
    pub objects: u32,
    pub traps: u32,
    pub calls: Option<u32>,
}

// Whether the first four bytes, as far as they are present, match a magic.
fn begins_as_image(bytes: &[u8]) -> bool
    ensures { result ≡ begins_as_image bytes.now }
{
    let front = &bytes[..bytes.len().min(4)];
    FIRST_MAGIC.starts_with(front) || SECOND_MAGIC.starts_with(front)
}

/// Whether the fourth byte is the second version's.
pub fn is_second(bytes: &[u8]) -> bool
    ensures { result ≡ is_second bytes.now }
{
    bytes.len() > 3 && bytes[3] == 0x32
}

/// The bytes of the magic and the header.
pub fn header_length(bytes: &[u8]) -> usize
    ensures { result ≡ header_length bytes.now }
{
    if is_second(bytes) { 28 } else { 24 }
}

// Word k of the header.
fn header_word(bytes: &[u8], k: usize) -> u32
    requires { 4 * k + 8 ≤ length bytes.now }
    ensures { result ≡ header_word bytes.now k }
{
    word_at(&bytes[4..], k)
}

fn read_header(bytes: &[u8]) -> Header
    requires { header_length bytes.now ≤ length bytes.now }
    ensures { IsHeader bytes.now result }
{
    Header {
        global: header_word(bytes, 0),
        code: header_word(bytes, 1),
        frames: header_word(bytes, 2),
        objects: header_word(bytes, 3),
        traps: header_word(bytes, 4),
        calls: if is_second(bytes) {
            Some(header_word(bytes, 5))
        } else {
            None
        },
    }
}

// Whether the file, the globals or a count is above its limit.
fn is_too_large(bytes: &[u8], header: Header) -> bool
    requires { IsHeader bytes.now header }
    ensures { result ≡ is_too_large bytes.now }
{
    let longest = if is_second(bytes) {
        LONGEST_SECOND
    } else {
        LONGEST_FIRST
    };
    bytes.len() > longest
        || header.global > MAX_COUNT
        || header.code > MAX_COUNT
        || header.frames > MAX_COUNT
        || header.objects > MAX_COUNT
        || header.traps > MAX_COUNT
        || header.calls.unwrap_or(0) > MAX_COUNT
}

// The bytes that the counts require.
fn asked_length(bytes: &[u8], header: Header) -> usize
    requires { IsHeader bytes.now header }
    ensures { result ≡ asked_length bytes.now }
{
    header_length(bytes)
        + 4 * header.code as usize
        + 8 * header.frames as usize
        + 8 * header.objects as usize
        + 12 * header.traps as usize
        + 8 * header.calls.unwrap_or(0) as usize
}

/// The header of bytes whose magic, header, limits and length are an image's, or the first check that fails.
pub fn checked_header(bytes: &[u8]) -> Result<Header, ImageRefusal>
    ensures header { IfOk result (λ header. IsHeader bytes.now header) }
    ensures passes { OnOk result (Passes bytes.now) }
    ensures err { IfErr result (λ refusal. first_fault bytes.now ≡ Some refusal) }
{
    if !begins_as_image(bytes) {
        return Err(ImageRefusal::Magic);
    }
    if bytes.len() < header_length(bytes) {
        return Err(ImageRefusal::Truncated);
    }
    let header = read_header(bytes);
    if is_too_large(bytes, header) {
        return Err(ImageRefusal::TooLarge);
    }
    if bytes.len() < asked_length(bytes, header) {
        return Err(ImageRefusal::Truncated);
    }
    if bytes.len() > asked_length(bytes, header) {
        return Err(ImageRefusal::Trailing);
    }
    Ok(header)
}
