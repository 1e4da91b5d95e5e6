//! Code: the listing of an image, a line for each word of its code, for people.
#![tactic(auto)]

ghost use Rattle.std.specs.Fmt.{digit_glyph};
ghost use Rattle.std.specs.Prelude.{◌≡◌, ◌++◌, ◌+◌, ◌<◌, ◌^◌, true, Some, IfOk, OnOk, map, slice_get};
ghost use Rattle.std.specs.List.Sorted.{IsStrictlyIncreasing};
ghost use Rattle.std.specs.String.{string_bytes};
ghost use Rattle.risc_image.specs.Image.{IsWellFormed};
ghost use Rattle.risc_image.specs.Table.{trap_at};
ghost use Rattle.risc_image.specs.declared.rows.TrapRow.{TrapRow};
ghost use Rattle.risc_image_list.specs.Listing.{hexadecimal, numbers_text, instruction_text, line_text, listing_line, listing};

use risc_image::{ImageView, TrapRow};
use risc_word::decode;
use std::alloc::{AllocError, Global};

/// Returned if the host refuses memory.
pub type OutOfMemory = AllocError;

// The digit of a number below 16, a capital.
fn digit(value: u32) -> char
    requires { value < 16 }
    ensures { result ≡ digit_glyph true value }
{
    let code = if value < 10 {
        b'0' + value as u8
    } else {
        b'A' - 10 + value as u8
    };
    code as char
}

// Adds the two digits of a byte. (Digits are added one by one, since a listing has millions of them.)
fn add_byte(text: &mut String, byte: u32) -> Result<(), OutOfMemory>
    requires { byte < 256 }
    ensures { OnOk result (string_bytes text.new ≡ string_bytes text.old ++ hexadecimal 2 byte) }
{
    text.push(digit(byte / 16))?;
    text.push(digit(byte % 16))
}

// Adds the six digits of an address, or more of one that has more.
fn add_address(text: &mut String, address: u32) -> Result<(), OutOfMemory>
    ensures { OnOk result (string_bytes text.new ≡ string_bytes text.old ++ hexadecimal 6 address) }
{
    if address >= 0x0100_0000 {
        return write!(text, "{address:06X}");
    }
    add_byte(text, address / 0x1_0000)?;
    add_byte(text, address / 0x100 % 0x100)?;
    add_byte(text, address % 0x100)
}

// Adds the eight digits of a word.
fn add_digits(text: &mut String, word: u32) -> Result<(), OutOfMemory>
    ensures { OnOk result (string_bytes text.new ≡ string_bytes text.old ++ hexadecimal 8 word) }
{
    add_byte(text, word / 0x0100_0000)?;
    add_byte(text, word / 0x1_0000 % 0x100)?;
    add_byte(text, word / 0x100 % 0x100)?;
    add_byte(text, word % 0x100)
}

// Adds an address and its word.
fn add_numbers(text: &mut String, address: u32, word: u32) -> Result<(), OutOfMemory>
    ensures { OnOk result (string_bytes text.new ≡ string_bytes text.old ++ numbers_text address word) }
{
    add_address(text, address)?;
    text.push_str(" ")?;
    add_digits(text, word)?;
    text.push_str(" ")
}

// Adds the instruction of a word, or that it is a mere word.
fn add_instruction(text: &mut String, word: u32) -> Result<(), OutOfMemory>
    ensures { OnOk result (string_bytes text.new ≡ string_bytes text.old ++ instruction_text word) }
{
    match decode(word) {
        Some(instr) => write!(text, "{instr}"),
        None => text.push_str("word"),
    }
}

// Adds the line of the program's text to which a trap with this row belongs.
fn add_line(text: &mut String, row: Option<TrapRow>) -> Result<(), OutOfMemory>
    ensures { OnOk result (string_bytes text.new ≡ string_bytes text.old ++ line_text row) }
{
    if let Some(row) = row {
        let line = row.line;
        write!(text, " ; line {line}")?;
    }
    Ok(())
}

// Whether a link comes after row k of the trap table.
fn is_behind(view: &ImageView<'_>, k: usize, link: u32) -> bool
    ensures { result ≡ true → (row : TrapRow) × (slice_get view.now.traps k ≡ Some row) × (row.link < link) }
{
    match view.trap(k) {
        Some(row) => row.link < link,
        None => false,
    }
}

// Whether a link comes before the row behind row k of the trap table, or there is none.
fn is_before_next(view: &ImageView<'_>, k: usize, link: u32) -> bool
    ensures { result ≡ true → (row : TrapRow) → slice_get view.now.traps (k + 1) ≡ Some row → link < row.link }
{
    let Some(next) = k.checked_add(1) else {
        return false;
    };
    match view.trap(next) {
        Some(row) => link < row.link,
        None => true,
    }
}

// The trap with a link, where row `last` of the table is expected to be the last one before it; goes on to the next
// row from there. (The words are asked for one after another, so that most links lie between these two, and no search
// is needed.)
fn next_trap(view: &ImageView<'_>, last: &mut usize, link: u32) -> Option<TrapRow>
    requires { IsStrictlyIncreasing (map (λ row. row.link) view.now.traps) }
    ensures { result ≡ trap_at link view.now.traps }
{
    if is_behind(view, *last, link) {
        if is_before_next(view, *last, link) {
            return None;
        }
        *last = last.saturating_add(1);
    }
    view.trap_of(link)
}

// Adds the line of one word of the code, whose address is given. Row `last` of the trap table is expected to be the
// last one before it.
fn add_word(
    text: &mut String,
    view: &ImageView<'_>,
    last: &mut usize,
    address: u32,
    word: u32,
) -> Result<(), OutOfMemory>
    requires small { address + 4 < 2 ^ 32 }
    requires rising { IsStrictlyIncreasing (map (λ row. row.link) view.now.traps) }
    ensures { OnOk result (string_bytes text.new ≡ string_bytes text.old ++ listing_line view.now.traps address word) }
{
    add_numbers(text, address, word)?;
    add_instruction(text, word)?;
    add_line(text, next_trap(view, last, address + 4))?;
    text.push_str("\n")
}

// How many bytes a line has, about: most have a few less.
const LINE_BYTES: usize = 32;

/// The listing of an image: for each word of its code a line with its address in six hexadecimal digits, the word in
/// eight, the printed instruction, or `word` if it isn't an instruction, and ` ; line 7` if a trap after it belongs to
/// that line. The image must be well formed, as every image that was read is.
pub fn list(alloc: Global, view: &ImageView<'_>) -> Result<String, OutOfMemory>
    requires { IsWellFormed view.now }
    ensures { IfOk result (λ text. string_bytes text ≡ listing view.now) }
{
    let mut text = String::with_capacity(alloc, view.words().saturating_mul(LINE_BYTES))?;
    let mut last = 0;
    let mut address = 0;
    for k in 0..view.words() {
        if let Some(word) = view.word(k) {
            add_word(&mut text, view, &mut last, address, word)?;
            address += 4;
        }
    }
    Ok(text)
}
