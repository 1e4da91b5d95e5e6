// Text: what reads look at and take, and what writes add.

ghost use Rattle.std.specs.Prelude.{replicate, ◌≡◌, ◌+◌, ◌-◌, ◌≤◌, ◌<◌, ◌++◌, ◌∷◌, [], ◌^◌, min, ℕ, pos, neg_ℤ, length};
ghost use Rattle.std.specs.Prelude.{drop, take_while, if◌then◌else◌, IfOk};
ghost use Rattle.ps_meaning.specs.Text.{next_character, looked_at, look_marks, taken, as_character, is_blank};
ghost use Rattle.ps_meaning.specs.Text.{after_blanks, is_digit, has_sign, after_sign, number_written, digits};
ghost use Rattle.ps_meaning.specs.Text.{scan_integer, has_line_end, after_line_end, after_line, line_marks};
ghost use Rattle.ps_meaning.specs.Text.{right_aligned, fitted, integer_text, boolean_text};
ghost use Rattle.behavior.specs.Transcripts.{mark};
ghost use Rattle.ps_meaning_runner.specs.Worlds.{input_of};
ghost use Rattle.ps_meaning_runner.specs.View.{IsNumber, IsReading};

use crate::world::Input;
use std::alloc::{AllocError, Global};

impl<'a> Input<'a> {
    /// The next character, if there is one: a line that was begun ends where the bytes end.
    pub fn next_character(&self) -> Option<u8>
        ensures { result ≡ next_character (input_of self.now) }
    {
        match self.left {
            [] => { if self.in_line { Some(10) } else { None } }
            [first, ..] => Some(*first),
        }
    }

    /// The input after a look at the next character.
    pub fn looked_at(self) -> Input<'a>
        ensures { input_of result ≡ looked_at (input_of self.entry) }
    {
        Input {
            left: self.left,
            looked: true,
            in_line: self.in_line,
        }
    }

    /// The input after the next character is taken.
    pub fn taken(self) -> Input<'a>
        ensures { input_of result ≡ taken (input_of self.entry) }
    {
        match self.left {
            [] => Input {
                left: self.left,
                looked: true,
                in_line: false,
            },
            [first, rest @ ..] => Input {
                left: rest,
                looked: false,
                in_line: *first != 10,
            },
        }
    }
}

/// A line end is read as a space.
pub fn as_character(byte: u8) -> u8
    ensures { result ≡ as_character byte }
{
    if byte == 10 { 32 } else { byte }
}

/// The bytes after spaces and line ends.
fn after_blanks(bytes: &[u8]) -> &[u8]
    ensures { result.now ≡ after_blanks bytes.now }
{
    let mut left = bytes;
    while let [first, rest @ ..] = left {
        if *first != 32 && *first != 10 {
            return left;
        }
        left = rest;
    }
    left
}

/// Whether the first byte is this sign.
fn has_sign(bytes: &[u8], sign: u8) -> bool
    ensures { result ≡ has_sign bytes.now sign }
{
    match bytes {
        [] => false,
        [first, ..] => *first == sign,
    }
}

/// The bytes after a sign, if there is one.
fn after_sign(bytes: &[u8]) -> &[u8]
    ensures { result.now ≡ after_sign bytes.now }
{
    if has_sign(bytes, 43) || has_sign(bytes, 45) {
        &bytes[1..]
    } else {
        bytes
    }
}

/// Whether the byte is a decimal digit.
fn is_digit(byte: u8) -> bool
    ensures { result ≡ is_digit byte }
{
    48 <= byte && byte <= 57
}

/// How many digits the bytes begin with.
#[tactic(auto, using(crate::proofs::Written::digit_more, crate::proofs::Written::digit_none, crate::proofs::Written::digits_past, crate::proofs::Written::digits_counted))]
fn digit_count(bytes: &[u8]) -> usize
    ensures { result ≡ length (take_while is_digit bytes.now) }
{
    let mut count = 0;
    while count < bytes.len() && is_digit(bytes[count]) {
        count += 1;
    }
    count
}

/// The number that digits write; numbers from 2^32 on are given as 2^32.
#[tactic(auto, using(crate::proofs::Written::written_next))]
fn magnitude(written: &[u8]) -> u64
    ensures { result ≡ min (number_written 0 written.now) (2 ^ 32) }
{
    let mut sum: u64 = 0;
    for digit in written {
        sum = (10 * sum + u64::from(digit.saturating_sub(48))).min(0x1_0000_0000);
    }
    sum
}

/// The decimal digits of a number of at most `count` digits.
#[tactic(auto, unfolding(ps_meaning::specs::Text::digits))]
fn digits(alloc: Global, count: u8, number: u32) -> Result<Vec<u8>, AllocError>
    ensures { IfOk result (λ v. v.items ≡ digits count number) }
{
    if count == 0 {
        return Ok(Vec::new(alloc));
    }
    if number < 10 {
        let mut text = Vec::new(alloc);
        text.push(48 + number as u8)?;
        return Ok(text);
    }
    let mut text = digits(alloc, count - 1, number / 10)?;
    text.push(48 + (number % 10) as u8)?;
    Ok(text)
}

/// An integer in decimal digits, with a sign if it is negative.
pub fn integer_text(alloc: Global, number: i32) -> Result<Vec<u8>, AllocError>
    ensures { IfOk result (λ v. v.items ≡ integer_text number) }
{
    if number >= 0 {
        return digits(alloc, 10, number as u32);
    }
    let mut text = Vec::new(alloc);
    text.push(45)?;
    let rest = digits(alloc, 10, number.unsigned_abs())?;
    text.extend_from_slice(rest.as_slice())?;
    Ok(text)
}

/// `true` or `false`.
pub fn boolean_text(truth: bool) -> &'static [u8]
    ensures { result.now ≡ boolean_text truth }
{
    if truth { b"true" } else { b"false" }
}

/// A text right-aligned in a field of `width` characters, wider if needed.
pub fn right_aligned(alloc: Global, width: u32, text: &[u8]) -> Result<Vec<u8>, AllocError>
    ensures { IfOk result (λ v. v.items ≡ right_aligned width text.now) }
{
    let mut field = Vec::new(alloc);
    for _space in 0..(width as usize).saturating_sub(text.len()) {
        field.push(32)?;
    }
    field.extend_from_slice(text)?;
    Ok(field)
}

/// A string right-aligned in a field of `width` characters, or its first characters.
pub fn fitted(alloc: Global, width: u32, text: &[u8]) -> Result<Vec<u8>, AllocError>
    ensures { IfOk result (λ v. v.items ≡ fitted width text.now) }
{
    let count = width as usize;
    if count < text.len() {
        Ok(Vec::from_slice(alloc, &text[..count])?)
    } else {
        right_aligned(alloc, width, text)
    }
}

/// An integer that was read; `None` for a number that is not an integer of the language.
#[derive(Clone, Copy)]
pub enum Reading {
    EndFound,
    NoInteger,
    Integer(Option<i32>),
}

/// The integer with a sign and a magnitude, if it is one of the language.
fn signed(is_negative: bool, magnitude: u64) -> Option<i32>
    ensures { (n : ℕ) → magnitude ≡ min n (2 ^ 32) → IsNumber (if is_negative then neg_ℤ (pos n) else pos n) result }
{
    if is_negative {
        if magnitude <= 2_147_483_648 {
            Some((0 - magnitude as i64) as i32)
        } else {
            None
        }
    } else if magnitude <= 2_147_483_647 {
        Some(magnitude as i32)
    } else {
        None
    }
}

/// The digits at the start of the bytes.
#[tactic(auto, using(crate::proofs::Written::digits_first, crate::proofs::Written::digits_within))]
fn digits_in(bytes: &[u8]) -> &[u8]
    ensures { result.now ≡ take_while is_digit bytes.now }
{
    &bytes[..digit_count(bytes)]
}

/// The bytes after the digits at their start.
#[tactic(auto, using(crate::proofs::Written::digits_within, crate::proofs::Written::whole_rest))]
fn after_digits(bytes: &[u8]) -> &[u8]
    ensures { result.now ≡ drop (length (take_while is_digit bytes.now)) bytes.now }
{
    &bytes[digit_count(bytes)..]
}

/// An integer in the bytes, after spaces and line ends, and what is left after it.
#[tactic(auto, using(crate::proofs::Written::no_bytes, crate::proofs::Written::some_bytes))]
pub fn scan_integer(bytes: &[u8]) -> (Reading, &[u8])
    ensures found { IsReading (scan_integer bytes.now).found result.0 }
    ensures rest { result.1.now ≡ (scan_integer bytes.now).rest }
{
    let start = after_blanks(bytes);
    let unsigned = after_sign(start);
    if start.len() == 0 {
        return (Reading::EndFound, start);
    }
    let written = digits_in(unsigned);
    if written.len() == 0 {
        return (Reading::NoInteger, unsigned);
    }
    let number = signed(has_sign(start, 45), magnitude(written));
    (Reading::Integer(number), after_digits(unsigned))
}

/// Whether the bytes have a line end.
fn has_line_end(bytes: &[u8]) -> bool
    ensures { result ≡ has_line_end bytes.now }
{
    let mut left = bytes;
    while let [first, rest @ ..] = left {
        if *first == 10 {
            return true;
        }
        left = rest;
    }
    false
}

/// The bytes after the first line end; none if there is no line end.
fn after_line_end(bytes: &[u8]) -> &[u8]
    ensures { result.now ≡ after_line_end bytes.now }
{
    let mut left = bytes;
    while let [first, rest @ ..] = left {
        left = rest;
        if *first == 10 {
            return left;
        }
    }
    left
}

impl<'a> Input<'a> {
    /// The input after the rest of a line, and its end, are taken.
    pub fn after_line(self) -> Input<'a>
        ensures { input_of result ≡ after_line (input_of self.entry) }
    {
        if has_line_end(self.left) {
            Input {
                left: after_line_end(self.left),
                looked: false,
                in_line: false,
            }
        } else {
            Input {
                left: &[],
                looked: true,
                in_line: false,
            }
        }
    }

    /// How many first looks it takes to look at all bytes up to and including the first of the rest, or at the end.
    pub fn looks_to(&self, rest: usize) -> usize
        ensures { result ≡ (length self.now.left.now - rest) + (if self.now.looked then 0 else 1) }
    {
        self.left.len().saturating_sub(rest) + if self.looked { 0 } else { 1 }
    }

    /// How many first looks it takes to look at the rest of a line and its end, or at the end.
    pub fn looks_to_line(&self) -> usize
        ensures { replicate result mark ≡ line_marks (input_of self.now) }
    {
        if has_line_end(self.left) {
            let taken = self
                .left
                .len()
                .saturating_sub(after_line_end(self.left).len());
            taken.saturating_sub(if self.looked { 1 } else { 0 })
        } else {
            self.looks_to(0)
        }
    }
}
