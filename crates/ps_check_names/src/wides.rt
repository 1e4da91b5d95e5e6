//! The wide record types of a program, those with long lists of field names, and which of them have a field of a name.

ghost use Rattle.std.specs.Prelude.{◌≡◌, ◌+◌, ◌≤◌, ◌<◌, ℕ, List, [], length, map, get_or, Some, None, set, IfSome};
ghost use Rattle.std.specs.Prelude.{IfNone, OnOk, IsTrue, nat_lt, false};
ghost use Rattle.std.specs.Int.{bit_at};
ghost use Rattle.ps_tree.specs.Names.{place};
ghost use Rattle.ps_tree.specs.Types.{DataType, field_in};
ghost use Rattle.ps_tree.specs.View.{type_of};
ghost use Rattle.ps_check_names.specs.Regions.{fields_of};
ghost use Rattle.ps_check_names.specs.Opened.{HasField, IsLike, StandsIn, is_wide, written_length};
ghost use Rattle.ps_check_names.specs.Sets.{Holds, Reached, Apart};
ghost use Rattle.ps_check_names.specs.Wides.{kind_of, Listed, KeepsKinds};

use crate::sets::{insert, lengthen, number_at, put};
use ps_tree::names::{Names, Seed};
use ps_tree::types::{Fields, Ty};
use std::alloc::{AllocError, Global};
use std::hash::{BuildHasher, FoldHasher};

// A type whose field names, each with a comma, take more characters than this is noted once, when it is made: noting
// them each time such a record is opened would take longer than reading the text that opens it.
const MOST_NOTED: usize = 192;

// So are the first types whose names take more characters than this: in a short text, noting them each time would still
// take most of the time. Not all are, since a name within a `with` of many types that have it costs a step for each.
const MOST_SHORT: usize = 32;

// How many the first types are. Declaring so many takes 26 KB.
const FIRST_TYPES: usize = 512;

/// Whether names, each with a comma, take more characters than these.
fn are_longer(names: &[Vec<u8>], most: usize) -> bool
    ensures { result ≡ nat_lt most (written_length (map (λ v. v.items) names.now)) }
{
    let mut left = most;
    for name in names {
        if left <= name.len() {
            return true;
        }
        left -= name.len() + 1;
    }
    false
}

/// Whether names, each with a comma, take more characters than may be noted with each record.
fn are_long(names: &[Vec<u8>]) -> bool
    ensures { result ≡ nat_lt 192 (written_length (map (λ v. v.items) names.now)) }
{
    are_longer(names, MOST_NOTED)
}

/// Whether the names of a record's fields are so long together that they are noted once for the type.
#[tactic(auto, unfolding(crate::specs::Regions::fields_of, ps_tree::specs::View::type_of))]
fn is_wide(ty: &Ty) -> bool
    ensures { result ≡ is_wide (type_of ty.now) }
{
    match ty {
        Ty::Record { fields, .. } => are_long(fields.names().as_slice()),
        _ => false,
    }
}

/// Whether the names of a record's fields are so long together that they are noted once for one of the first types.
fn is_middling(ty: &Ty) -> bool {
    match ty {
        Ty::Record { fields, .. } => are_longer(fields.names().as_slice(), MOST_SHORT),
        _ => false,
    }
}

/// The names of these fields.
fn all_names(fields: &Fields) -> &[Vec<u8>]
    ensures { (s : List ℕ) (f : ℕ × DataType) → field_in fields.now s ≡ Some f → (m : ℕ)
        × (place (map (λ v. v.items) result.now) s ≡ Some m) }
{
    fields.names().as_slice()
}

/// The names of a record's fields.
#[tactic(auto, unfolding(crate::specs::Regions::fields_of, ps_tree::specs::View::type_of))]
pub(crate) fn names_of(ty: &Ty) -> Option<&[Vec<u8>]>
    ensures names { IfSome result (λ names. (s : List ℕ) → HasField ty.now s → (m : ℕ)
        × (place (map (λ v. v.items) names.now) s ≡ Some m)) }
    ensures none { IfNone result ((s : List ℕ) → field_in (fields_of (type_of ty.now)) s ≡ None) }
{
    match ty {
        Ty::Record { fields, .. } => Some(all_names(fields)),
        _ => None,
    }
}

/// Whether the type is that of the other record, so that both have the same fields.
fn is_like(ty: &Ty, other: &Ty) -> bool
    ensures { IsTrue result → IsLike ty.now other.now }
{
    match (ty, other) {
        (
            Ty::Record { at: x, fields, .. },
            Ty::Record {
                at: y,
                fields: others,
                ..
            },
        ) => *x == *y && fields.has_names_of(others),
        _ => false,
    }
}

/// Whether there is a type with this number, and it is the same type.
#[tactic(auto, using(crate::proofs::LikeLemmas::like_there))]
fn is_like_at(ty: &Ty, types: &[Ty], number: usize) -> bool
    ensures { IsTrue result → StandsIn ty.now types.now number }
{
    match types.get(number) {
        None => false,
        Some(other) => is_like(ty, other),
    }
}

/// The larger of two.
pub(crate) fn larger(a: usize, b: usize) -> usize
    ensures first { a ≤ result }
    ensures second { b ≤ result }
{
    if a < b { b } else { a }
}

/// Raises the number at a place to at least this one; where there is none, it counts as 0.
#[tactic(auto, using(crate::proofs::WideLemmas::raised, crate::proofs::WideLemmas::raise_kept))]
pub(crate) fn raise_at(
    numbers: &mut Vec<usize>,
    index: usize,
    least: usize,
) -> Result<(), AllocError>
    ensures kept { OnOk result ((n : ℕ) → get_or numbers.old.items n 0 ≤ get_or numbers.new.items n 0) }
    ensures least { OnOk result (least ≤ get_or numbers.new.items index 0) }
{
    lengthen(numbers, index)?;
    let before = number_at(numbers.as_slice(), index);
    put(numbers, index, larger(least, before));
    Ok(())
}

/// The greatest of the first 64 numbers.
#[tactic(auto, using(crate::proofs::WideLemmas::greatest_start, crate::proofs::WideLemmas::greatest_next, crate::proofs::WideLemmas::greatest_end))]
fn greatest(numbers: &[usize]) -> usize
    requires { 64 ≤ length numbers.now }
    ensures { (i : ℕ) → i < 64 → get_or numbers.now i 0 ≤ result }
{
    let mut reach = 0;
    for i in 0..64 {
        reach = larger(reach, numbers[i]);
    }
    reach
}

/// The greatest of the numbers whose bits are set in a word.
#[tactic(auto, using(crate::proofs::WideLemmas::left_start, crate::proofs::WideLemmas::left_end))]
fn greatest_of(word: usize, numbers: &[usize]) -> usize
    ensures { (i : ℕ) → bit_at word i ≡ 1 → get_or numbers.now i 0 ≤ result }
{
    let mut rest = word;
    let mut reach = 0;
    while rest != 0 {
        let Some(number) = numbers.get(rest.trailing_zeros() as usize) else {
            return reach;
        };
        reach = larger(reach, *number);
        rest &= rest - 1;
    }
    reach
}

/// The greatest of 64 numbers, from a place on, whose bits are set in a word.
#[tactic(auto, using(crate::proofs::WideLemmas::no_bit, crate::proofs::WideLemmas::dropped, crate::proofs::WideLemmas::dropped_all))]
fn greatest_in(word: usize, numbers: &[usize], from: usize) -> usize
    requires { from ≤ length numbers.now }
    ensures { (i : ℕ) → i < 64 → bit_at word i ≡ 1 → get_or numbers.now (from + i) 0 ≤ result }
{
    if word == 0 {
        return 0;
    }
    let those = &numbers[from..];
    if word == usize::MAX && 64 <= those.len() {
        greatest(those)
    } else {
        greatest_of(word, those)
    }
}

/// The greatest of the numbers of the members that two sets have in common.
#[tactic(auto, using(crate::proofs::WideLemmas::common_start, crate::proofs::WideLemmas::common_next, crate::proofs::WideLemmas::common_end))]
pub(crate) fn common_reach(kind: &[usize], present: &[usize], latest: &[usize]) -> usize
    ensures { (k : ℕ) → Reached kind.now present.now latest.now k → k < result }
{
    let count = latest.len() / 64 + 1;
    let mut reach = 0;
    for i in 0..count {
        let a = number_at(kind, i);
        let b = number_at(present, i);
        let here = greatest_in(a & b, latest, 64 * i);
        reach = larger(reach, here);
    }
    reach
}

/// Whether two sets may have a member in common.
#[tactic(auto, using(crate::proofs::WideLemmas::apart_start, crate::proofs::WideLemmas::apart_next, crate::proofs::WideLemmas::apart_end))]
pub(crate) fn meet(kind: &[usize], present: &[usize]) -> bool
    ensures { result ≡ false → Apart kind.now present.now }
{
    for i in 0..kind.len() {
        if number_at(kind, i) & number_at(present, i) != 0 {
            return true;
        }
    }
    false
}

/// Notes that the type with this number has a field of this name, which is new.
fn note_new(
    alloc: Global,
    names: &mut Names,
    kinds: &mut Vec<Vec<usize>>,
    name: &[u8],
    number: usize,
) -> Result<(), AllocError>
    requires even { length kinds.old.items ≡ length names.old }
    requires new { place names.old name.now ≡ None }
    ensures even { OnOk result (length kinds.new.items ≡ length names.new) }
    ensures keeps { OnOk result (KeepsKinds names.old (map (λ v. v.items) kinds.old.items) names.new
        (map (λ v. v.items) kinds.new.items)) }
    ensures noted { OnOk result (Holds (kind_of names.new (map (λ v. v.items) kinds.new.items) name.now) number) }
{
    let mut kind = Vec::new(alloc);
    insert(&mut kind, number)?;
    let _added = names.add(Vec::from_slice(alloc, name)?)?;
    kinds.push(kind)?;
    Ok(())
}

/// Adds a number to the set at a place.
fn insert_at(kinds: &mut Vec<Vec<usize>>, index: usize, number: usize) -> Result<(), AllocError>
    requires { index < length kinds.old.items }
    ensures { OnOk result ((kind : List ℕ) × (map (λ v. v.items) kinds.new.items
        ≡ set (map (λ v. v.items) kinds.old.items) index kind) × Holds kind number
        × ((n : ℕ) → Holds (get_or (map (λ v. v.items) kinds.old.items) index []) n → Holds kind n)) }
{
    insert(&mut kinds[index], number)
}

/// Notes that the type with this number has a field of this name.
fn note(
    alloc: Global,
    names: &mut Names,
    kinds: &mut Vec<Vec<usize>>,
    name: &[u8],
    number: usize,
) -> Result<(), AllocError>
    requires even { length kinds.old.items ≡ length names.old }
    ensures even { OnOk result (length kinds.new.items ≡ length names.new) }
    ensures keeps { OnOk result (KeepsKinds names.old (map (λ v. v.items) kinds.old.items) names.new
        (map (λ v. v.items) kinds.new.items)) }
    ensures noted { OnOk result (Holds (kind_of names.new (map (λ v. v.items) kinds.new.items) name.now) number) }
{
    match names.find(name) {
        Some(index) => insert_at(kinds, index, number),
        None => note_new(alloc, names, kinds, name, number),
    }
}

/// Notes the names of the fields of the type with this number.
fn note_all(
    alloc: Global,
    names: &mut Names,
    kinds: &mut Vec<Vec<usize>>,
    fields: &[Vec<u8>],
    number: usize,
) -> Result<(), AllocError>
    requires even { length kinds.old.items ≡ length names.old }
    ensures even { OnOk result (length kinds.new.items ≡ length names.new) }
    ensures keeps { OnOk result (KeepsKinds names.old (map (λ v. v.items) kinds.old.items) names.new
        (map (λ v. v.items) kinds.new.items)) }
    ensures noted { OnOk result ((s : List ℕ) (m : ℕ) → place (map (λ v. v.items) fields.now) s ≡ Some m → Holds
        (kind_of names.new (map (λ v. v.items) kinds.new.items) s) number) }
{
    for name in fields {
        note(alloc, names, kinds, name, number)?;
    }
    Ok(())
}

/// Adds a name, unless it is present.
fn add(alloc: Global, fields: &mut Names, name: &[u8]) -> Result<(), AllocError> {
    if !fields.contains(name) {
        let _added = fields.add(Vec::from_slice(alloc, name)?)?;
    }
    Ok(())
}

/// Adds those of these names that are not present.
fn add_all(alloc: Global, fields: &mut Names, names: &[Vec<u8>]) -> Result<(), AllocError> {
    for name in names {
        add(alloc, fields, name)?;
    }
    Ok(())
}

/// The bytes by which a type is found again: the offset of its denoter.
fn key_of(at: u32) -> [u8; 4] {
    at.to_le_bytes()
}

/// The wide record types of a program so far, by their numbers. Each is found by its own offset. For each field name
/// there is the set of the types that have it, so that no type has to be searched for a name. Of the other record types
/// only the names of their fields are kept.
#[derive(Drop)]
pub struct Wides {
    pub(crate) types: Vec<Ty>,
    keys: Names,
    pub(crate) names: Names,
    pub(crate) kinds: Vec<Vec<usize>>,
    // the names of the fields of the other record types; the place of a name is its number
    pub(crate) fields: Names,
    // the state in which the hashes of marks begin
    pub(crate) start: FoldHasher,
    ghost listed: { Listed types.items names (map (λ v. v.items) kinds.items) },
    ghost even: { length kinds.items ≡ length names },
}

impl Wides {
    /// No types, in a text with this seed.
    pub fn new(alloc: Global, seed: Seed) -> Wides {
        Wides {
            types: Vec::new(alloc),
            keys: Names::new(alloc, seed),
            names: Names::new(alloc, seed),
            kinds: Vec::new(alloc),
            fields: Names::new(alloc, seed),
            start: seed.build_hasher(),
        }
    }

    /// Whether the names of this type's fields are noted once, when it is made.
    fn takes(&self, ty: &Ty) -> bool {
        is_wide(ty) || self.types.as_slice().len() < FIRST_TYPES && is_middling(ty)
    }

    /// One more type: the names of its fields are noted.
    pub fn with(self, alloc: Global, ty: &Ty) -> Result<Wides, AllocError> {
        match ty {
            Ty::Record { at, .. } if self.takes(ty) => self.with_wide(alloc, ty, *at),
            Ty::Record { fields, .. } => self.with_fields(alloc, fields.names().as_slice()),
            _ => Ok(self),
        }
    }

    /// The names of some more fields, of a type that is not wide.
    fn with_fields(self, alloc: Global, more: &[Vec<u8>]) -> Result<Wides, AllocError> {
        let Wides {
            types,
            keys,
            names,
            kinds,
            mut fields,
            start,
        } = self;
        add_all(alloc, &mut fields, more)?;
        Ok(Wides {
            types,
            keys,
            names,
            kinds,
            fields,
            start,
        })
    }

    /// One more type, with this offset.
    fn with_wide(self, alloc: Global, ty: &Ty, at: u32) -> Result<Wides, AllocError> {
        let Some(own) = names_of(ty) else {
            return Ok(self);
        };
        let Wides {
            mut types,
            mut keys,
            mut names,
            mut kinds,
            fields,
            start,
        } = self;
        let number = types.as_slice().len();
        note_all(alloc, &mut names, &mut kinds, own, number)?;
        let _added = keys.add(Vec::from_slice(alloc, key_of(at).as_slice())?)?;
        let copy = ty.copy()?;
        types.push(copy)?;
        Ok(Wides {
            types,
            keys,
            names,
            kinds,
            fields,
            start,
        })
    }

    /// The number of a wide type.
    pub(crate) fn number_of(&self, ty: &Ty) -> Option<usize>
        ensures { IfSome result (λ number. StandsIn ty.now self.now.types.items number) }
    {
        let Ty::Record { at, .. } = ty else {
            return None;
        };
        if !is_middling(ty) {
            return None;
        }
        let number = self.keys.find(key_of(*at).as_slice())?;
        if is_like_at(ty, self.types.as_slice(), number) {
            Some(number)
        } else {
            None
        }
    }

    /// The set of the numbers of types that have a field of this name.
    pub(crate) fn kind(&self, name: &[u8]) -> &[usize]
        ensures { result.now ≡ kind_of self.now.names (map (λ v. v.items) self.now.kinds.items) name.now }
    {
        let Some(index) = self.names.find(name) else {
            return &[];
        };
        match self.kinds.get(index) {
            None => &[],
            Some(kind) => kind.as_slice(),
        }
    }
}
