//! Sets of numbers: a bit for each, 64 in a word.

ghost use Rattle.std.specs.Prelude.{◌≡◌, ◌<◌, ℕ, length, get_or, set, OnOk};
ghost use Rattle.std.specs.Int.{bit_at};
ghost use Rattle.ps_check_names.specs.Sets.{Holds};

use std::alloc::AllocError;

/// The number at a place, or 0.
#[tactic(auto, using(crate::proofs::WideLemmas::number_there, crate::proofs::WideLemmas::number_past))]
pub(crate) fn number_at(numbers: &[usize], index: usize) -> usize
    ensures { result ≡ get_or numbers.now index 0 }
{
    match numbers.get(index) {
        None => 0,
        Some(number) => *number,
    }
}

/// Adds zeros until there is a place.
#[tactic(auto, using(crate::proofs::WideLemmas::zero_start, crate::proofs::WideLemmas::zero_next))]
pub(crate) fn lengthen(numbers: &mut Vec<usize>, index: usize) -> Result<(), AllocError>
    ensures room { OnOk result (index < length numbers.new.items) }
    ensures same { OnOk result ((n : ℕ) → get_or numbers.new.items n 0 ≡ get_or numbers.old.items n 0) }
{
    while numbers.len() <= index {
        numbers.push(0)?;
    }
    Ok(())
}

/// Replaces a number by another.
pub(crate) fn put(numbers: &mut Vec<usize>, index: usize, number: usize)
    requires { index < length numbers.old.items }
    ensures { numbers.new.items ≡ set numbers.old.items index number }
{
    numbers[index] = number;
}

/// A word with one bit more.
fn with_bit(word: usize, bit: usize) -> usize
    requires { bit < 64 }
    ensures there { bit_at result bit ≡ 1 }
    ensures kept { (i : ℕ) → bit_at word i ≡ 1 → bit_at result i ≡ 1 }
{
    word | (1 << bit)
}

/// Adds a number to a set, which has a bit for each.
#[tactic(auto, using(crate::proofs::WideLemmas::inserted, crate::proofs::WideLemmas::insert_kept))]
pub(crate) fn insert(words: &mut Vec<usize>, number: usize) -> Result<(), AllocError>
    ensures kept { OnOk result ((n : ℕ) → Holds words.old.items n → Holds words.new.items n) }
    ensures there { OnOk result (Holds words.new.items number) }
{
    lengthen(words, number / 64)?;
    let word = number_at(words.as_slice(), number / 64);
    put(words, number / 64, with_bit(word, number % 64));
    Ok(())
}

/// Joins a word of a set with another.
#[tactic(auto, using(crate::proofs::WideLemmas::put_kept, crate::proofs::WideLemmas::put_there, crate::proofs::WideLemmas::put_as_long, crate::proofs::WideLemmas::or_first, crate::proofs::WideLemmas::or_second))]
fn join_at(words: &mut Vec<usize>, index: usize, other: usize)
    requires { index < length words.old.items }
    ensures long { length words.new.items ≡ length words.old.items }
    ensures kept { (n : ℕ) → Holds words.old.items n → Holds words.new.items n }
    ensures there { (i : ℕ) → bit_at other i ≡ 1 → bit_at (get_or words.new.items index 0) i ≡ 1 }
{
    let word = number_at(words.as_slice(), index);
    put(words, index, word | other);
}

/// Adds the members of another set to a set.
#[tactic(auto, using(crate::proofs::WideLemmas::joined_start, crate::proofs::WideLemmas::joined_next, crate::proofs::WideLemmas::joined_end, crate::proofs::WideLemmas::same_holds))]
pub(crate) fn join(words: &mut Vec<usize>, others: &[usize]) -> Result<(), AllocError>
    ensures kept { OnOk result ((n : ℕ) → Holds words.old.items n → Holds words.new.items n) }
    ensures there { OnOk result ((n : ℕ) → Holds others.now n → Holds words.new.items n) }
{
    lengthen(words, others.len())?;
    for index in 0..others.len() {
        join_at(words, index, number_at(others, index));
    }
    Ok(())
}
