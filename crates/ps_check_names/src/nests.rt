//! `with` statements, each within the one before it.

ghost use Rattle.std.specs.Prelude.{◌≡◌, ◌≤◌, ◌+◌, ◌++◌, [], ◌∷◌, false, length, map, IfOk, IfSome, IsTrue};
ghost use Rattle.ps_check_names.specs.Opened.{NoneBehind};
ghost use Rattle.ps_check_names.specs.Nests.{levels_of, records_in, NumberedBy};
ghost use Rattle.ps_check_names.specs.Sets.{Apart};
ghost use Rattle.ps_check_names.specs.Wides.{kind_of};
ghost use Rattle.ps_check_names.specs.Marks.{mark_of, number_of, IsMark, Shown};
ghost use Rattle.std.specs.Hash.FoldHasher.{finish};

use crate::marks::Mark;
use crate::numbers::{is_in, number_of};
use crate::opened::Opened;
use crate::sets::join;
use crate::wides::{Wides, meet};
use std::alloc::{AllocError, Global};

// This many statements are skipped at once if none of them has a field of a name. The 490 that can enclose a name make
// 16 nests, and in the nest that has the name few statements have to be searched.
const MOST_LEVELS: usize = 32;

// A nest has at most twice this many records, so that they can be counted.
const MOST_RECORDS: usize = 1048576;

/// Some `with` statements, each within the one before it, from the inside out.
#[derive(Clone, Copy)]
pub enum Levels<'a> {
    /// The outermost.
    One {
        opened: &'a Opened<'a>,
    },
    Within {
        opened: &'a Opened<'a>,
        outer: &'a Levels<'a>,
    },
}

/// The records of some `with` statements, each within the one before it, and what is noted of all of them together: the
/// marks of their fields' names, and the set of their wide types. So a name that none of them has need not be looked up
/// in each.
#[derive(Drop)]
pub struct Nest<'a> {
    pub levels: Levels<'a>,
    // how many statements there are
    depth: usize,
    // the wide types, shared by all the statements
    pub wides: &'a Wides,
    // how many records there are
    pub(crate) count: usize,
    // the marks of the names of the fields of records that are not of a wide type, and their numbers
    marks: Vec<usize>,
    numbers: Vec<usize>,
    // the set of the wide types that are opened
    present: Vec<usize>,
    ghost counted: { count ≡ length (records_in (levels_of levels)) },
    ghost shown: { Shown (records_in (levels_of levels)) (mark_of wides.now.start) marks.items
        (kind_of wides.now.names (map (λ v. v.items) wides.now.kinds.items)) present.items },
    ghost listed: { Shown (records_in (levels_of levels)) (number_of wides.now.fields) numbers.items
        (kind_of wides.now.names (map (λ v. v.items) wides.now.kinds.items)) present.items },
    ghost own: { NumberedBy (levels_of levels) wides.now.fields },
}

impl<'a> Nest<'a> {
    /// One statement.
    #[tactic(auto, unfolding(crate::specs::Nests::levels_of))]
    pub(crate) fn new(alloc: Global, opened: &'a Opened<'a>) -> Result<Nest<'a>, AllocError>
        ensures { IfOk result (λ nest. levels_of nest.levels ≡ opened.now ∷ []) }
    {
        let marks = Vec::from_slice(alloc, opened.marks.as_slice())?;
        let numbers = Vec::from_slice(alloc, opened.numbers.as_slice())?;
        let present = Vec::from_slice(alloc, opened.present.as_slice())?;
        Ok(Nest {
            levels: Levels::One { opened },
            depth: 1,
            wides: opened.wides,
            count: opened.records.as_slice().len(),
            marks,
            numbers,
            present,
        })
    }

    /// Whether there is room for one more statement within these.
    pub(crate) fn has_room(&self, opened: &Opened<'_>) -> bool
        ensures { IsTrue result → self.now.count + length opened.now.records.items ≤ 2097152 }
    {
        let further = opened.records.as_slice().len();
        self.depth < MOST_LEVELS && self.count <= MOST_RECORDS && further <= MOST_RECORDS
    }

    /// One more statement, within these.
    #[tactic(auto, unfolding(crate::specs::Nests::levels_of))]
    pub(crate) fn with(
        &'a self,
        alloc: Global,
        opened: &'a Opened<'a>,
    ) -> Result<Nest<'a>, AllocError>
        requires wides { opened.now.wides.now ≡ self.now.wides.now }
        requires few { self.now.count + length opened.now.records.items ≤ 2097152 }
        ensures { IfOk result (λ nest. levels_of nest.levels ≡ levels_of self.now.levels ++ opened.now ∷ []) }
    {
        let mut marks = Vec::from_slice(alloc, self.marks.as_slice())?;
        join(&mut marks, opened.marks.as_slice())?;
        let mut numbers = Vec::from_slice(alloc, self.numbers.as_slice())?;
        join(&mut numbers, opened.numbers.as_slice())?;
        let mut present = Vec::from_slice(alloc, self.present.as_slice())?;
        join(&mut present, opened.present.as_slice())?;
        Ok(Nest {
            levels: Levels::Within {
                opened,
                outer: &self.levels,
            },
            depth: self.depth.saturating_add(1),
            wides: self.wides,
            count: self.count + opened.records.as_slice().len(),
            marks,
            numbers,
            present,
        })
    }

    /// Whether an opened record of a wide type may have a field of this name.
    #[tactic(auto, using(crate::proofs::WideLemmas::apart_none))]
    fn may_be_wide(&self, name: &[u8]) -> bool
        ensures { result ≡ false → Apart (kind_of self.now.wides.now.names
            (map (λ v. v.items) self.now.wides.now.kinds.items) name.now) self.now.present.items }
    {
        if self.present.as_slice().len() == 0 {
            return false;
        }
        meet(self.wides.kind(name), self.present.as_slice())
    }

    /// Whether a record that is not of a wide type may have a field of this name. Its number is looked up only if some
    /// field has the mark of the name.
    fn may_be_narrow(&self, name: &[u8], mark: Mark) -> bool
        requires mark { IsMark mark.state mark.number name.now }
        requires own { mark.state ≡ finish self.now.wides.now.start }
        ensures { result ≡ false → Apart (kind_of self.now.wides.now.names
            (map (λ v. v.items) self.now.wides.now.kinds.items) name.now) self.now.present.items
            → NoneBehind (records_in (levels_of self.now.levels)) 0 name.now }
    {
        if mark.is_in(self.marks.as_slice()) {
            is_in(self.number(name), self.numbers.as_slice())
        } else {
            false
        }
    }

    /// Whether a record may have a field of this name.
    pub(crate) fn may_have(&self, name: &[u8], mark: Mark) -> bool
        requires mark { IsMark mark.state mark.number name.now }
        requires own { mark.state ≡ finish self.now.wides.now.start }
        ensures { result ≡ false → NoneBehind (records_in (levels_of self.now.levels)) 0 name.now }
    {
        if self.may_be_narrow(name, mark) {
            return true;
        }
        self.may_be_wide(name)
    }

    /// The mark with which a name is looked up here: the known one, if it is the same.
    pub(crate) fn mark(&self, name: &[u8], known: Option<Mark>) -> Mark
        requires { IfSome known (λ mark. IsMark mark.state mark.number name.now) }
        ensures mark { IsMark result.state result.number name.now }
        ensures own { result.state ≡ finish self.now.wides.now.start }
    {
        Mark::of(self.wides.start, name, known)
    }

    /// The number with which a name is looked up here.
    pub(crate) fn number(&self, name: &[u8]) -> usize
        ensures { result ≡ number_of self.now.wides.now.fields name.now }
    {
        number_of(&self.wides.fields, name)
    }
}
