//! The records that a `with` opens (ISO 7185, 6.8.3.10).

ghost use Rattle.std.specs.Prelude.{◌≡◌, ◌≤◌, ◌<◌, ◌++◌, [], ◌∷◌, ℕ, List, length, map, set, get_or, slice_get};
ghost use Rattle.std.specs.Prelude.{IfOk, OnOk, Some, None, option_map};
ghost use Rattle.ps_tree.specs.Names.{place};
ghost use Rattle.ps_tree.specs.Types.{field_in};
ghost use Rattle.ps_tree.specs.View.{type_of};
ghost use Rattle.ps_check_names.specs.Regions.{fields_of};
ghost use Rattle.ps_check_names.specs.Opened.{HasField, Narrow, reach_of, Covers, Keeps, NoneBehind, StandsIn};
ghost use Rattle.ps_check_names.specs.Sets.{Holds, Reached};
ghost use Rattle.ps_check_names.specs.Wides.{kind_of};
ghost use Rattle.ps_check_names.specs.Marks.{mark_of, number_of, MarkedFor, Marked};

use crate::marks::mark_all;
use crate::numbers::{is_in, number_all, number_of};
use crate::sets::insert;
use crate::wides::{Wides, common_reach, larger, names_of, raise_at};
use ps_tree::names::{Names, Seed};
use ps_tree::types::Ty;
use std::alloc::{AllocError, Global};
use std::hash::FoldHasher;

/// The types of the records that a `with` opens one after the other, each within those before it. A type that is not a
/// record has no fields.
///
/// The names of their fields are noted, so that a name need not be looked up in each record. For a wide type that was
/// done when the type was made, and only the position of its last record is noted. The first record of a `with` is
/// searched itself unless its type is wide: most have only one. The numbers and the marks of the names that are not of
/// wide types are noted too, for a name within many `with` statements: most names without such a field have a mark that
/// is not among them, and none has a number that is.
#[derive(Drop)]
pub struct Opened<'a> {
    pub records: Vec<Ty>,
    // the wide types
    pub wides: &'a Wides,
    // how many of the records are searched themselves
    asked: usize,
    // the names of fields, and for each the number of records up to the last one that has the field
    names: Names,
    reaches: Vec<usize>,
    // the marks of the names of the fields of records that are not of a wide type, and their numbers
    pub(crate) marks: Vec<usize>,
    pub(crate) numbers: Vec<usize>,
    // the set of the wide types that are opened, and for each the number of records up to its last one
    pub(crate) present: Vec<usize>,
    latest: Vec<usize>,
    ghost covers: { Covers records.items asked names reaches.items (kind_of wides.now.names
        (map (λ v. v.items) wides.now.kinds.items)) present.items latest.items },
    ghost marked: { Marked records.items (kind_of wides.now.names (map (λ v. v.items) wides.now.kinds.items))
        present.items latest.items (mark_of wides.now.start) marks.items },
    ghost numbered: { Marked records.items (kind_of wides.now.names (map (λ v. v.items) wides.now.kinds.items))
        present.items latest.items (number_of wides.now.fields) numbers.items },
    ghost even: { length reaches.items ≡ length names },
}

/// The field of this name in a record type: its number and its type.
#[tactic(auto, unfolding(crate::specs::Regions::fields_of, ps_tree::specs::View::type_of))]
pub(crate) fn field_of<'a>(ty: &'a Ty, name: &[u8]) -> Option<(u32, &'a Ty)>
    ensures { option_map (λ f. (f.0, type_of f.1.now)) result ≡ field_in (fields_of (type_of ty.now)) name.now }
{
    match ty {
        Ty::Record { fields, .. } => fields.find(name),
        _ => None,
    }
}

/// Raises the number at a place to at least this one, and returns the result.
#[tactic(auto, using(crate::proofs::NoteLemmas::or_any))]
fn raise(numbers: &mut Vec<usize>, index: usize, least: usize) -> usize
    requires { index < length numbers.old.items }
    ensures put { numbers.new.items ≡ set numbers.old.items index result }
    ensures least { least ≤ result }
    ensures more { get_or numbers.old.items index 0 ≤ result }
{
    let raised = larger(least, numbers[index]);
    numbers[index] = raised;
    raised
}

/// Notes that the last of `reach` records has a field of this name, which is new.
#[tactic(auto, using(crate::proofs::NoteLemmas::more_even))]
fn note_new(
    alloc: Global,
    names: &mut Names,
    reaches: &mut Vec<usize>,
    name: &[u8],
    reach: usize,
) -> Result<(), AllocError>
    requires even { length reaches.old.items ≡ length names.old }
    requires new { place names.old name.now ≡ None }
    ensures even { OnOk result (length reaches.new.items ≡ length names.new) }
    ensures keeps { OnOk result (Keeps names.old reaches.old.items names.new reaches.new.items) }
    ensures noted { OnOk result (reach ≤ reach_of names.new reaches.new.items name.now) }
{
    let _added = names.add(Vec::from_slice(alloc, name)?)?;
    reaches.push(reach)?;
    Ok(())
}

/// Notes that the last of `reach` records has a field of this name.
#[tactic(auto, using(crate::proofs::NoteLemmas::further_keeps, crate::proofs::NoteLemmas::further_noted, crate::proofs::NoteLemmas::further_room, crate::proofs::NoteLemmas::further_even))]
fn note(
    alloc: Global,
    names: &mut Names,
    reaches: &mut Vec<usize>,
    name: &[u8],
    reach: usize,
) -> Result<(), AllocError>
    requires even { length reaches.old.items ≡ length names.old }
    ensures even { OnOk result (length reaches.new.items ≡ length names.new) }
    ensures keeps { OnOk result (Keeps names.old reaches.old.items names.new reaches.new.items) }
    ensures noted { OnOk result (reach ≤ reach_of names.new reaches.new.items name.now) }
{
    match names.find(name) {
        Some(index) => {
            let _raised = raise(reaches, index, reach);
            Ok(())
        }
        None => note_new(alloc, names, reaches, name, reach),
    }
}

/// Notes the names of the fields of a record.
#[tactic(auto, using(crate::proofs::NoteLemmas::keeps_same, crate::proofs::NoteLemmas::none_noted))]
fn note_all(
    alloc: Global,
    names: &mut Names,
    reaches: &mut Vec<usize>,
    fields: &[Vec<u8>],
    reach: usize,
) -> Result<(), AllocError>
    requires even { length reaches.old.items ≡ length names.old }
    ensures even { OnOk result (length reaches.new.items ≡ length names.new) }
    ensures keeps { OnOk result (Keeps names.old reaches.old.items names.new reaches.new.items) }
    ensures noted { OnOk result ((s : List ℕ) (m : ℕ) → place (map (λ v. v.items) fields.now) s ≡ Some m → reach
        ≤ reach_of names.new reaches.new.items s) }
{
    for name in fields {
        note(alloc, names, reaches, name, reach)?;
    }
    Ok(())
}

/// Notes the fields of the last of `reach` records, or that it is to be searched itself.
#[tactic(auto, using(crate::proofs::NoteLemmas::record_noted, crate::proofs::NoteLemmas::record_asked, crate::proofs::NoteLemmas::keeps_same))]
fn note_record(
    alloc: Global,
    asked: &mut usize,
    names: &mut Names,
    reaches: &mut Vec<usize>,
    reach: usize,
    ty: &Ty,
) -> Result<(), AllocError>
    requires even { length reaches.old.items ≡ length names.old }
    ensures even { OnOk result (length reaches.new.items ≡ length names.new) }
    ensures asked { OnOk result (asked.old ≤ asked.new) }
    ensures keeps { OnOk result (Keeps names.old reaches.old.items names.new reaches.new.items) }
    ensures noted { OnOk result ((s : List ℕ) → HasField ty.now s → asked.new < reach → reach ≤ reach_of names.new
        reaches.new.items s) }
{
    match names_of(ty) {
        Some(fields) if reach > 1 => note_all(alloc, names, reaches, fields, reach),
        _ => {
            *asked = larger(*asked, reach);
            Ok(())
        }
    }
}

/// Adds the marks of the names of a record's fields to a set.
#[tactic(auto, using(crate::proofs::MarkLemmas::none_marked))]
fn mark_record(words: &mut Vec<usize>, start: FoldHasher, ty: &Ty) -> Result<(), AllocError>
    ensures kept { OnOk result ((n : ℕ) → Holds words.old.items n → Holds words.new.items n) }
    ensures there { OnOk result (MarkedFor ty.now (mark_of start) words.new.items) }
{
    match names_of(ty) {
        None => Ok(()),
        Some(names) => mark_all(words, start, names),
    }
}

/// Adds the numbers of the names of a record's fields to a set.
#[tactic(auto, using(crate::proofs::MarkLemmas::none_marked))]
fn number_record(words: &mut Vec<usize>, fields: &Names, ty: &Ty) -> Result<(), AllocError>
    ensures kept { OnOk result ((n : ℕ) → Holds words.old.items n → Holds words.new.items n) }
    ensures there { OnOk result (MarkedFor ty.now (number_of fields.now) words.new.items) }
{
    match names_of(ty) {
        None => Ok(()),
        Some(names) => number_all(words, fields, names),
    }
}

/// The smaller of two.
fn smaller(a: usize, b: usize) -> usize
    ensures within { result ≤ b }
    ensures both { (k : ℕ) → k < a → k < b → k < result }
{
    if a < b { a } else { b }
}

impl<'a> Opened<'a> {
    /// No records, in a text with this seed and these wide types.
    #[tactic(auto, using(crate::proofs::NoteLemmas::covers_none, crate::proofs::MarkLemmas::marked_none))]
    pub fn new(alloc: Global, seed: Seed, wides: &'a Wides) -> Opened<'a>
        ensures records { result.records.items ≡ [] }
        ensures wides { result.wides.now ≡ wides.now }
    {
        Opened {
            records: Vec::new(alloc),
            wides,
            asked: 0,
            names: Names::new(alloc, seed),
            reaches: Vec::new(alloc),
            marks: Vec::new(alloc),
            numbers: Vec::new(alloc),
            present: Vec::new(alloc),
            latest: Vec::new(alloc),
        }
    }

    /// One more record, within these.
    pub fn with(self, alloc: Global, ty: Ty) -> Result<Opened<'a>, AllocError>
        ensures records { IfOk result (λ opened. opened.records.items ≡ self.entry.records.items ++ ty ∷ []) }
        ensures wides { IfOk result (λ opened. opened.wides.now ≡ self.entry.wides.now) }
    {
        match self.wides.number_of(&ty) {
            Some(number) => self.with_wide(ty, number),
            None => self.with_narrow(alloc, ty),
        }
    }

    /// The same for a record whose fields are noted with it.
    fn with_narrow(self, alloc: Global, ty: Ty) -> Result<Opened<'a>, AllocError>
        ensures records { IfOk result (λ opened. opened.records.items ≡ self.entry.records.items ++ ty ∷ []) }
        ensures wides { IfOk result (λ opened. opened.wides.now ≡ self.entry.wides.now) }
    {
        let Opened {
            mut records,
            wides,
            mut asked,
            mut names,
            mut reaches,
            mut marks,
            mut numbers,
            present,
            latest,
        } = self;
        let before = records.as_slice().len();
        note_record(alloc, &mut asked, &mut names, &mut reaches, before + 1, &ty)?;
        mark_record(&mut marks, wides.start, &ty)?;
        number_record(&mut numbers, &wides.fields, &ty)?;
        records.push(ty)?;
        Ok(Opened {
            records,
            wides,
            asked,
            names,
            reaches,
            marks,
            numbers,
            present,
            latest,
        })
    }

    /// The same for a record of the type with this number.
    fn with_wide(self, ty: Ty, number: usize) -> Result<Opened<'a>, AllocError>
        requires { StandsIn ty self.wides.now.types.items number }
        ensures records { IfOk result (λ opened. opened.records.items ≡ self.entry.records.items ++ ty ∷ []) }
        ensures wides { IfOk result (λ opened. opened.wides.now ≡ self.entry.wides.now) }
    {
        let Opened {
            mut records,
            wides,
            asked,
            names,
            reaches,
            marks,
            numbers,
            mut present,
            mut latest,
        } = self;
        let before = records.as_slice().len();
        insert(&mut present, number)?;
        raise_at(&mut latest, number, before + 1)?;
        records.push(ty)?;
        Ok(Opened {
            records,
            wides,
            asked,
            names,
            reaches,
            marks,
            numbers,
            present,
            latest,
        })
    }

    /// The number of records up to the last that has a field of this name, according to what is noted with the records.
    #[tactic(auto, using(crate::proofs::NoteLemmas::unnoted, crate::proofs::NoteLemmas::noted_past, crate::proofs::NoteLemmas::noted_to))]
    fn noted_reach(&self, name: &[u8]) -> usize
        ensures { (k : ℕ) → k < reach_of self.now.names self.now.reaches.items name.now → k < result }
    {
        let Some(index) = self.names.find(name) else {
            return 0;
        };
        match self.reaches.get(index) {
            None => 0,
            Some(reach) => *reach,
        }
    }

    /// The same according to what is noted of wide types.
    #[tactic(auto, using(crate::proofs::WideLemmas::none_reached))]
    fn wide_reach(&self, name: &[u8]) -> usize
        ensures { (k : ℕ) → Reached (kind_of self.now.wides.now.names
            (map (λ v. v.items) self.now.wides.now.kinds.items)
            name.now) self.now.present.items self.now.latest.items k → k < result }
    {
        if self.latest.as_slice().len() == 0 {
            return 0;
        }
        common_reach(
            self.wides.kind(name),
            self.present.as_slice(),
            self.latest.as_slice(),
        )
    }

    /// The same for the record with this number alone.
    #[tactic(auto, using(crate::proofs::NoteLemmas::no_field, crate::proofs::NoteLemmas::no_record))]
    fn asked_at(&self, name: &[u8], number: usize) -> usize
        ensures { (ty : Ty) → slice_get self.now.records.items number ≡ Some ty → HasField ty name.now
            → number < result }
    {
        let Some(record) = self.records.get(number) else {
            return 0;
        };
        match field_of(record, name) {
            None => 0,
            Some(_) => number + 1,
        }
    }

    /// The same for the first records, which are searched themselves.
    #[tactic(auto, using(crate::proofs::NoteLemmas::asked_start, crate::proofs::NoteLemmas::asked_next, crate::proofs::NoteLemmas::asked_end))]
    fn asked_reach(&self, name: &[u8]) -> usize
        ensures { (k : ℕ) (ty : Ty) → k < self.now.asked → slice_get self.now.records.items k ≡ Some ty
            → HasField ty name.now → k < result }
    {
        let mut reach = 0;
        for number in 0..self.asked {
            let here = self.asked_at(name, number);
            reach = larger(reach, here);
        }
        reach
    }

    /// The number of records up to the last that has a field of this name, after the last of each wide type that has
    /// it; 0 if no such field has the number of the name.
    fn narrow_reach(&self, name: &[u8], number: usize) -> usize
        requires { number ≡ number_of self.now.wides.now.fields name.now }
        ensures { Narrow self.now.records.items (kind_of self.now.wides.now.names
            (map (λ v. v.items) self.now.wides.now.kinds.items)) self.now.present.items self.now.latest.items name.now
            result }
    {
        if is_in(number, self.numbers.as_slice()) {
            larger(self.noted_reach(name), self.asked_reach(name))
        } else {
            0
        }
    }

    /// The number of records up to the last that may have a field of this name.
    pub(crate) fn reach(&self, name: &[u8], number: usize) -> usize
        requires { number ≡ number_of self.now.wides.now.fields name.now }
        ensures within { result ≤ length self.now.records.items }
        ensures none { NoneBehind self.now.records.items result name.now }
    {
        let reach = larger(self.narrow_reach(name, number), self.wide_reach(name));
        let count = self.records.as_slice().len();
        smaller(reach, count)
    }

    /// The number with which a name is looked up here.
    pub(crate) fn number(&self, name: &[u8]) -> usize
        ensures { result ≡ number_of self.now.wides.now.fields name.now }
    {
        number_of(&self.wides.fields, name)
    }
}
