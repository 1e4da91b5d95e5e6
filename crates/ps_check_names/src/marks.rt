//! Marks of names. A name's mark is a small number computed from it once; with it many sets can be seen at once not to
//! contain the name.

ghost use Rattle.std.specs.Prelude.{◌≡◌, ℕ, List, map, Some, OnOk, IfSome, IsTrue};
ghost use Rattle.ps_tree.specs.Names.{place};
ghost use Rattle.std.specs.Hash.FoldHasher.{finish};
ghost use Rattle.ps_check_names.specs.Sets.{Holds};
ghost use Rattle.ps_check_names.specs.Marks.{mark_of, IsMark};

use crate::sets::{insert, number_at};
use std::alloc::AllocError;
use std::hash::{FoldHasher, Hasher};

// How many marks there are: enough that the sets of the 490 `with` statements that can enclose a name, which share one
// text, stay sparse.
const MARKS: u64 = 16384;

/// The mark of a name, and the state in which its hash began.
#[derive(Clone, Copy)]
pub(crate) struct Mark {
    pub(crate) state: u64,
    pub(crate) number: usize,
}

/// The number of a name's mark, for hashes that begin in this state.
fn number_of(start: FoldHasher, name: &[u8]) -> usize
    ensures { result ≡ mark_of start name.now }
{
    let mut hasher = start;
    hasher.write(name);
    (hasher.finish() % MARKS) as usize
}

impl Mark {
    /// The mark of a name, for hashes that begin in this state: the known one if it began in the same state, else a new
    /// one.
    pub(crate) fn of(start: FoldHasher, name: &[u8], known: Option<Mark>) -> Mark
        requires { IfSome known (λ mark. IsMark mark.state mark.number name.now) }
        ensures mark { IsMark result.state result.number name.now }
        ensures own { result.state ≡ finish start }
    {
        let state = start.finish();
        match known {
            Some(mark) if mark.state == state => mark,
            _ => Mark {
                state,
                number: number_of(start, name),
            },
        }
    }

    /// Whether the mark may be in a set whose hashes began in this state.
    pub(crate) fn is_in(self, words: &[usize]) -> bool
        ensures { Holds words.now self.number → IsTrue result }
    {
        (number_at(words, self.number / 64) >> (self.number % 64)) & 1 == 1
    }
}

/// Adds the marks of these names to a set.
#[tactic(auto, using(crate::proofs::MarkLemmas::marks_start))]
pub(crate) fn mark_all(
    words: &mut Vec<usize>,
    start: FoldHasher,
    names: &[Vec<u8>],
) -> Result<(), AllocError>
    ensures kept { OnOk result ((n : ℕ) → Holds words.old.items n → Holds words.new.items n) }
    ensures there { OnOk result ((s : List ℕ) (m : ℕ) → place (map (λ v. v.items) names.now) s ≡ Some m → Holds
        words.new.items (mark_of start s)) }
{
    for name in names {
        insert(words, number_of(start, name))?;
    }
    Ok(())
}
