//! Numbers of the names of a program's fields; with them a set can be seen for certain not to contain a name.

ghost use Rattle.std.specs.Prelude.{◌≡◌, ℕ, List, map, Some, OnOk, IsTrue};
ghost use Rattle.ps_tree.specs.Names.{place};
ghost use Rattle.ps_check_names.specs.Sets.{Holds};
ghost use Rattle.ps_check_names.specs.Marks.{number_of};

use crate::sets::{insert, number_at};
use ps_tree::names::Names;
use std::alloc::AllocError;

/// The number of a name: its place among the names of fields, or their count if it is not one of them.
pub(crate) fn number_of(fields: &Names, name: &[u8]) -> usize
    ensures { result ≡ number_of fields.now name.now }
{
    match fields.find(name) {
        None => fields.len(),
        Some(place) => place,
    }
}

/// Whether a number may be in a set.
pub(crate) fn is_in(number: usize, words: &[usize]) -> bool
    ensures { Holds words.now number → IsTrue result }
{
    (number_at(words, number / 64) >> (number % 64)) & 1 == 1
}

/// Adds the numbers of these names to a set.
#[tactic(auto, using(crate::proofs::MarkLemmas::marks_start))]
pub(crate) fn number_all(
    words: &mut Vec<usize>,
    fields: &Names,
    names: &[Vec<u8>],
) -> Result<(), AllocError>
    ensures kept { OnOk result ((n : ℕ) → Holds words.old.items n → Holds words.new.items n) }
    ensures there { OnOk result ((s : List ℕ) (m : ℕ) → place (map (λ v. v.items) names.now) s ≡ Some m → Holds
        words.new.items (number_of fields.now s)) }
{
    for name in names {
        insert(words, number_of(fields, name))?;
    }
    Ok(())
}
