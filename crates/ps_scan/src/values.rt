//! What numbers, strings and names denote.

ghost use Rattle.std.specs.Prelude.{◌≡◌, ◌≤◌, ◌-◌, ◌↔◌, IsTrue, IfOk, length, slice_range};
ghost use Rattle.std.specs.Option.{SomeIff};
ghost use Rattle.ps_scan.specs.Lexemes.{digits_value};
ghost use Rattle.ps_scan.specs.Values.{number_of_digits, characters, spelling};

use crate::MAX_NUMBER;
use std::alloc::{AllocError, Global};

/// The allocator refused memory.
pub type OutOfMemory = AllocError;

/// The value of a number's digits, or `MAX_NUMBER` if they denote more, which no token's digits do.
pub fn number_value(digits: &[u8]) -> u32
    ensures { result ≡ number_of_digits digits.now }
{
    small_value(digits).unwrap_or(MAX_NUMBER)
}

/// The value of digits, if it is at most `MAX_NUMBER`.
pub fn small_value(digits: &[u8]) -> Option<u32>
    ensures { SomeIff result (digits_value digits.now ≤ MAX_NUMBER) (digits_value digits.now) }
{
    let mut value: u32 = 0;
    for digit in digits {
        let more = 10 * u64::from(value) + u64::from(digit.saturating_sub(b'0'));
        if more > u64::from(MAX_NUMBER) {
            return None;
        }
        value = more as u32;
    }
    Some(value)
}

/// The characters of a string, which is given with its apostrophes.
#[tactic(auto, unfolding(crate::specs::Values::characters))]
pub fn string_value(alloc: Global, literal: &[u8]) -> Result<Vec<u8>, OutOfMemory>
    ensures { IfOk result (λ found. found.items ≡ characters literal.now) }
{
    let mut found = Vec::new(alloc);
    let mut is_twin = false;
    for byte in between_apostrophes(literal) {
        if is_twin {
            is_twin = false;
            continue;
        }
        found.push(*byte)?;
        is_twin = *byte == b'\'';
    }
    Ok(found)
}

/// The number of characters in a string, which is given with its apostrophes.
#[tactic(auto, unfolding(crate::specs::Values::characters))]
pub fn string_length(literal: &[u8]) -> usize
    ensures { result ≡ length (characters literal.now) }
{
    let mut length = 0;
    let mut is_twin = false;
    for byte in between_apostrophes(literal) {
        if is_twin {
            is_twin = false;
            continue;
        }
        length += 1;
        is_twin = *byte == b'\'';
    }
    length
}

/// All bytes but the first and the last.
fn between_apostrophes(literal: &[u8]) -> &[u8]
    ensures { result.now ≡ slice_range literal.now 1 (length literal.now - 1) }
{
    if literal.len() < 2 {
        return &[];
    }
    &literal[1..literal.len() - 1]
}

/// A name's spelling in lower case, since case is not significant.
pub fn name_spelling(alloc: Global, name: &[u8]) -> Result<Vec<u8>, OutOfMemory>
    ensures { IfOk result (λ found. found.items ≡ spelling name.now) }
{
    name.iter()
        .map(|byte| byte.to_ascii_lowercase())
        .collect(alloc)
}

/// Whether two names are the same, ignoring case.
pub fn is_same_name(a: &[u8], b: &[u8]) -> bool
    ensures { IsTrue result ↔ (spelling a.now ≡ spelling b.now) }
{
    a.eq_ignore_ascii_case(b)
}
