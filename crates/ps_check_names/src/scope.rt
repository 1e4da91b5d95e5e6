//! The regions that enclose a place, and the search through them.

ghost use Rattle.std.specs.Prelude.{◌≡◌, ◌+◌, ◌<◌, ◌≤◌, ℕ, List, ◌∷◌, map, IfOk, IfErr, IfSome, IfNone};
ghost use Rattle.std.specs.Prelude.{if◌then◌else◌, nat_lt};
ghost use Rattle.ps_check_judgement.specs.Judged.{Answers};
ghost use Rattle.ps_check_judgement.specs.declared.refusal.Rule.TheVariants.{WrongKind, UsedBefore};
ghost use Rattle.ps_check_names.specs.Regions.{Region, BlockRegion, one_more, missing, find_past, find};
ghost use Rattle.ps_check_names.specs.Views.{meaning_of, opened_in, scope_of, point_of, found, wides_within};
ghost use Rattle.ps_check_names.specs.Nests.{levels_of, records_in, IsNumber};
ghost use Rattle.ps_check_names.specs.Denotes.{FindsWhatIsDenoted};
ghost use Rattle.ps_check_names.specs.Marks.{number_of, IsMark};
ghost use Rattle.std.specs.Hash.FoldHasher.{finish};

use crate::marks::Mark;
use crate::meaning::Meaning;
use crate::nests::{Levels, Nest};
use crate::opened::{Opened, field_of};
use crate::wides::Wides;
use ps_check_judgement::answer::broken;
use ps_check_judgement::refusal::{CheckFault, Rule};
use ps_tree::names::Names;
use ps_tree::types::Ty;
use std::alloc::{AllocError, Global};

/// The regions that enclose a place, from the inside out.
#[derive(Clone, Copy)]
pub enum Scope<'a> {
    Outside,
    /// A block: its routine's number, the names of all its defining points in the order in which their definitions end,
    /// and the meanings of the first of them, those before the place.
    Block {
        routine: u32,
        names: &'a Names,
        known: &'a [Meaning],
        outer: &'a Scope<'a>,
    },
    /// The records that a `with` opens one after the other, each within those before it. A type that is not a record
    /// has no fields.
    Opened {
        records: &'a Opened<'a>,
        outer: &'a Scope<'a>,
    },
    /// The records that some `with` statements open, each statement within the one before it.
    Nested {
        nest: &'a Nest<'a>,
        outer: &'a Scope<'a>,
    },
    /// A record within its own denoter, a list of formal parameters, or the variables of a declaration: their names,
    /// the first `defined` of which come before the place.
    Own {
        names: &'a Names,
        defined: usize,
        outer: &'a Scope<'a>,
    },
}

/// The defining point that a name denotes.
#[derive(Clone, Copy)]
pub enum Found<'a> {
    /// A name of a block that is `up` blocks out.
    Name {
        up: u32,
        meaning: &'a Meaning,
    },
    /// The field with this number of an opened record; the innermost is `which` 0.
    Field {
        which: u32,
        record: &'a Ty,
        number: u32,
        ty: &'a Ty,
    },
}

/// What a search through regions found: the defining point, or the rule that the use of the name breaks.
#[derive(Clone, Copy)]
pub enum Lookup<'a> {
    Found(Found<'a>),
    Broken(Rule),
}

/// One more, if a count can hold it.
pub fn one_more(count: u32) -> Option<u32>
    ensures { result ≡ one_more count }
{
    if count < u32::MAX {
        Some(count + 1)
    } else {
        None
    }
}

/// The number of blocks up to whatever encloses this one, if none of its defining points has the name; otherwise what
/// ends the search.
#[tactic(auto, unfolding(crate::specs::Regions::find_past))]
fn past_block<'a>(
    names: &Names,
    known: &'a [Meaning],
    up: u32,
    name: &[u8],
) -> Result<u32, Lookup<'a>>
    ensures ok { IfOk result (λ n. (which routine at : ℕ) (Γ : List Region) → find_past up which
        (BlockRegion routine names.now (map meaning_of known.now) ∷ Γ) name.now at ≡ find_past n which Γ name.now at) }
    ensures err { IfErr result (λ end. (which routine at : ℕ) (Γ : List Region) → find_past up which
        (BlockRegion routine names.now (map meaning_of known.now) ∷ Γ) name.now at ≡ found at end) }
{
    match names.find(name) {
        None => one_more(up).ok_or(Lookup::Broken(missing(name))),
        Some(index) => match known.get(index) {
            None => Err(Lookup::Broken(Rule::UsedBefore)),
            Some(meaning) => Err(Lookup::Found(Found::Name { up, meaning })),
        },
    }
}

/// This many more, if a count can hold it.
fn more(count: u32, further: usize) -> Option<u32>
    ensures some { IfSome result (λ all. all ≡ count + further) }
    ensures small { IfSome result (λ all. all ≤ 4294967295) }
    ensures none { IfNone result (4294967295 < count + further) }
{
    let all = further.checked_add(count as usize)?;
    if all <= u32::MAX as usize {
        Some(all as u32)
    } else {
        None
    }
}

/// The number of opened records up to whatever encloses these, the last of which is the innermost, if none of them has
/// a field of this name; otherwise what ends the search.
#[tactic(auto, using(crate::proofs::OpenedLemmas::behind_uncounted))]
fn past_opened<'a>(
    opened: &'a Opened<'a>,
    which: u32,
    name: &[u8],
    number: usize,
) -> Result<u32, Lookup<'a>>
    requires { number ≡ number_of opened.now.wides.now.fields name.now }
    ensures ok { IfOk result (λ n. (up at : ℕ) (Γ : List Region) → find_past up which
        (opened_in Γ opened.now.records.items) name.now at ≡ find_past up n Γ name.now at) }
    ensures err { IfErr result (λ end. (up at : ℕ) (Γ : List Region) → find_past up which
        (opened_in Γ opened.now.records.items) name.now at ≡ found at end) }
{
    let reach = opened.reach(name, number);
    let behind = opened.records.len() - reach;
    match more(which, behind) {
        None => Err(Lookup::Broken(missing(name))),
        Some(passed) => past_records(&opened.records[..reach], passed, name),
    }
}

/// The same for records by their types, the last of which is the innermost.
fn past_records<'a>(records: &'a [Ty], which: u32, name: &[u8]) -> Result<u32, Lookup<'a>>
    ensures ok { IfOk result (λ n. (up at : ℕ) (Γ : List Region) → find_past up which
        (opened_in Γ records.now) name.now at ≡ find_past up n Γ name.now at) }
    ensures err { IfErr result (λ end. (up at : ℕ) (Γ : List Region) → find_past up which
        (opened_in Γ records.now) name.now at ≡ found at end) }
{
    let mut left = records;
    let mut passed = which;
    while let Some((record, rest)) = left.split_last() {
        if let Some((number, ty)) = field_of(record, name) {
            return Err(Lookup::Found(Found::Field {
                which: passed,
                record,
                number,
                ty,
            }));
        }
        let Some(next) = one_more(passed) else {
            return Err(Lookup::Broken(missing(name)));
        };
        passed = next;
        left = rest;
    }
    Ok(passed)
}

/// The same for the records of statements, the last of which is the innermost.
fn past_levels<'a>(
    levels: &'a Levels<'a>,
    which: u32,
    name: &[u8],
    number: usize,
) -> Result<u32, Lookup<'a>>
    requires { IsNumber (levels_of levels.now) name.now number }
    ensures ok { IfOk result (λ n. (up at : ℕ) (Γ : List Region) → find_past up which
        (opened_in Γ (records_in (levels_of levels.now))) name.now at ≡ find_past up n Γ name.now at) }
    ensures err { IfErr result (λ end. (up at : ℕ) (Γ : List Region) → find_past up which
        (opened_in Γ (records_in (levels_of levels.now))) name.now at ≡ found at end) }
{
    let mut left = levels;
    let mut passed = which;
    loop {
        match left {
            Levels::One { opened } => return past_opened(opened, passed, name, number),
            Levels::Within { opened, outer } => {
                match past_opened(opened, passed, name, number) {
                    Ok(further) => passed = further,
                    Err(end) => return Err(end),
                }
                left = outer;
            }
        }
    }
}

/// The same for a nest of statements, which are skipped at once if none has a field of this name.
#[tactic(auto, using(crate::proofs::NestLemmas::nest_uncounted))]
fn past_nest<'a>(nest: &'a Nest<'a>, which: u32, name: &[u8], mark: Mark) -> Result<u32, Lookup<'a>>
    requires mark { IsMark mark.state mark.number name.now }
    requires own { mark.state ≡ finish nest.now.wides.now.start }
    ensures ok { IfOk result (λ n. (up at : ℕ) (Γ : List Region) → find_past up which
        (opened_in Γ (records_in (levels_of nest.now.levels))) name.now at ≡ find_past up n Γ name.now at) }
    ensures err { IfErr result (λ end. (up at : ℕ) (Γ : List Region) → find_past up which
        (opened_in Γ (records_in (levels_of nest.now.levels))) name.now at ≡ found at end) }
{
    if nest.may_have(name, mark) {
        return past_levels(&nest.levels, which, name, nest.number(name));
    }
    match more(which, nest.count) {
        None => Err(Lookup::Broken(missing(name))),
        Some(passed) => Ok(passed),
    }
}

/// The defining point that a name denotes at a place enclosed by these regions.
#[tactic(auto, unfolding(crate::specs::Regions::find_past, crate::specs::Views::scope_of))]
pub fn find<'a>(scope: &'a Scope<'a>, name: &[u8]) -> Lookup<'a>
    ensures { (at : ℕ) → found at result ≡ find (scope_of scope.now) name.now at }
{
    let mut here = scope;
    let mut up = 0;
    let mut which = 0;
    let mut known_mark = None;
    loop {
        match here {
            Scope::Outside => return Lookup::Broken(missing(name)),
            Scope::Block {
                names,
                known,
                outer,
                ..
            } => {
                match past_block(names, known, up, name) {
                    Ok(further) => up = further,
                    Err(end) => return end,
                }
                here = outer;
            }
            Scope::Opened { records, outer } => {
                let number = records.number(name);
                match past_opened(records, which, name, number) {
                    Ok(further) => which = further,
                    Err(end) => return end,
                }
                here = outer;
            }
            Scope::Nested { nest, outer } => {
                let mark = nest.mark(name, known_mark);
                match past_nest(nest, which, name, mark) {
                    Ok(further) => which = further,
                    Err(end) => return end,
                }
                known_mark = Some(mark);
                here = outer;
            }
            Scope::Own {
                names,
                defined,
                outer,
            } => {
                if let Some(index) = names.find(name) {
                    return Lookup::Broken(within_own(index, *defined));
                }
                here = outer;
            }
        }
    }
}

/// The rule broken by the use of a name within its own definition.
pub fn within_own(index: usize, defined: usize) -> Rule
    ensures { result ≡ (if nat_lt index defined then WrongKind else UsedBefore) }
{
    if index < defined {
        Rule::WrongKind
    } else {
        Rule::UsedBefore
    }
}

/// The defining point denoted by a name whose use begins at an offset.
pub(crate) fn denoted_at<'s>(
    scope: &'s Scope<'s>,
    name: &[u8],
    at: u32,
) -> Result<Found<'s>, CheckFault>
    ensures { Answers result (λ found. point_of found) (find (scope_of scope.now) name.now at) }
{
    match find(scope, name) {
        Lookup::Found(point) => Ok(point),
        Lookup::Broken(rule) => Err(broken(rule, at)),
    }
}

/// The rule broken by the use of a name without a defining point: input and output have one if the program heading
/// lists them.
fn missing(name: &[u8]) -> Rule
    ensures { result ≡ missing name.now }
{
    if name == b"input".as_slice() || name == b"output".as_slice() {
        Rule::NoInputOutput
    } else {
        Rule::Unknown
    }
}

/// A search finds the defining point that the name denotes, and finds none only if it denotes none.
pub fn scope_rules()
    ensures { FindsWhatIsDenoted }
{}

/// The wide types by which the records of a `with` within these regions are opened: those of the surrounding statement
/// if there is one, otherwise these.
#[tactic(auto, unfolding(crate::specs::Views::wides_within))]
pub fn wides_within<'a>(scope: &'a Scope<'a>, wides: &'a Wides) -> &'a Wides
    ensures { result.now ≡ wides_within scope.now wides.now }
{
    match scope {
        Scope::Nested { nest, .. } => nest.wides,
        _ => wides,
    }
}

/// The statements around the body of a `with` that opens these records within these regions, and the regions around
/// those.
#[tactic(auto, using(crate::proofs::NestLemmas::nest_more, crate::proofs::NestLemmas::nest_one), unfolding(crate::specs::Views::scope_of, crate::specs::Views::wides_within))]
pub fn nest_within<'a>(
    alloc: Global,
    scope: &'a Scope<'a>,
    wides: &'a Wides,
    opened: &'a Opened<'a>,
) -> Result<(Nest<'a>, &'a Scope<'a>), AllocError>
    requires { opened.now.wides.now ≡ wides_within scope.now wides.now }
    ensures { IfOk result (λ r. opened_in (scope_of r.1.now) (records_in (levels_of r.0.levels))
        ≡ opened_in (scope_of scope.now) opened.now.records.items) }
{
    match scope {
        Scope::Nested { nest, outer } if nest.has_room(opened) => {
            Ok((nest.with(alloc, opened)?, *outer))
        }
        _ => Ok((Nest::new(alloc, opened)?, scope)),
    }
}
