// The frames of a program's routines, laid out once.

ghost use Rattle.std.specs.Prelude.{◌≡◌, ◌+◌, ◌*◌, ◌≤◌, ◌++◌, ◌∷◌, [], length, true, map, option_map, slice_get, OnOk};
ghost use Rattle.std.specs.Prelude.{IfOk};
ghost use Rattle.ps_lower_layout.specs.Frames.{kind_of, result_kinds, listed_kinds, kinds_of, variable_kinds};
ghost use Rattle.ps_lower_layout.specs.Frames.{kind_words, words_of_all, entries, entry_offset, layout_of};
ghost use Rattle.ps_lower.specs.Levels.{is_reference_at};
ghost use Rattle.ps_lower.specs.Tables.{spot, spot_at, spots_from, contents_of, contents_in, AreTables};
ghost use Rattle.ps_tree.specs.Checked.{program_in};
ghost use Rattle.ps_tree.specs.Counts.{are_routines_within_limits};
ghost use Rattle.ps_tree.specs.Tree.{routine_at};
ghost use Rattle.ps_tree.specs.View.{type_of, formal_of, formals_of, routine_of};
ghost use Rattle.ps_tree.specs.declared.limits.TheConstants.{MAX_ROUTINES};

use crate::depth::MAX_NUMBER;
use crate::frame::{Spot, Table, words};
use ps_tree::program::Checked;
use ps_tree::tree::{Formal, Routine};
use ps_tree::types::Ty;
use std::alloc::{AllocError, Global};
use std::marker::Model;

/// The spot of an entry that does not exist.
const NOWHERE: Spot = Spot {
    offset: 0,
    reference: false,
};

/// Adds an entry of `words` words, and returns the place after it.
fn add(spots: &mut Vec<Spot>, place: u32, words: u32, reference: bool) -> Result<u32, AllocError>
    requires { 4 * (place + words) ≤ MAX_NUMBER }
    ensures spots { OnOk result (spots.new.items ≡ spots.old.items ++ spot place reference ∷ []) }
    ensures place { IfOk result (λ n. n ≡ place + words) }
{
    let offset = 4 * place;
    spots.push(Spot { offset, reference })?;
    Ok(place + words)
}

fn add_result(
    spots: &mut Vec<Spot>,
    place: u32,
    result_type: &Option<Ty>,
) -> Result<u32, AllocError>
    requires { 4 * (place + words_of_all (result_kinds (option_map type_of result_type.now))) ≤ MAX_NUMBER }
    ensures spots { OnOk result (spots.new.items ≡ spots.old.items ++ spots_from place
        (result_kinds (option_map type_of result_type.now))) }
    ensures place { IfOk result (λ n. n ≡ place + words_of_all (result_kinds (option_map type_of result_type.now))) }
{
    match result_type {
        None => Ok(place),
        Some(ty) => add(spots, place, words(ty), false),
    }
}

#[tactic(auto, unfolding(ps_tree::specs::View::formal_of))]
fn add_formal(spots: &mut Vec<Spot>, place: u32, formal: &Formal) -> Result<u32, AllocError>
    requires { 4 * (place + kind_words (kind_of (formal_of formal.now))) ≤ MAX_NUMBER }
    ensures spots { OnOk result (spots.new.items ≡ spots.old.items ++ spot_at place (kind_of (formal_of formal.now))
        ∷ []) }
    ensures place { IfOk result (λ n. n ≡ place + kind_words (kind_of (formal_of formal.now))) }
{
    match formal {
        Formal::Value(ty) => add(spots, place, words(ty), false),
        Formal::Variable(_) => add(spots, place, 1, true),
        Formal::Routine { .. } => add(spots, place, 2, false),
    }
}

fn add_formals(spots: &mut Vec<Spot>, place: u32, formals: &[Formal]) -> Result<u32, AllocError>
    requires { 4 * (place + words_of_all (listed_kinds (kinds_of (formals_of formals.now)))) ≤ MAX_NUMBER }
    ensures spots { OnOk result (spots.new.items ≡ spots.old.items ++ spots_from place
        (listed_kinds (kinds_of (formals_of formals.now)))) }
    ensures place { IfOk result (λ n. n ≡ place + words_of_all (listed_kinds (kinds_of (formals_of formals.now)))) }
{
    let mut end = place;
    for formal in formals {
        end = add_formal(spots, end, formal)?;
    }
    Ok(end)
}

fn add_variables(spots: &mut Vec<Spot>, place: u32, variables: &[Ty]) -> Result<u32, AllocError>
    requires { 4 * (place + words_of_all (variable_kinds (map type_of variables.now))) ≤ MAX_NUMBER }
    ensures spots { OnOk result (spots.new.items ≡ spots.old.items ++ spots_from place
        (variable_kinds (map type_of variables.now))) }
    ensures place { IfOk result (λ n. n ≡ place + words_of_all (variable_kinds (map type_of variables.now))) }
{
    let mut end = place;
    for ty in variables {
        end = add(spots, end, words(ty), false)?;
    }
    Ok(end)
}

/// The entries of a routine.
pub fn table(alloc: Global, routine: &Routine) -> Result<Table, AllocError>
    requires { 4 * (1 + words_of_all (entries (routine_of routine.now))) ≤ MAX_NUMBER }
    ensures { IfOk result (λ table. contents_in table ≡ contents_of (routine_of routine.now)) }
{
    let mut spots = Vec::new(alloc);
    let place = add_result(&mut spots, 1, &routine.result)?;
    let place = add_formals(&mut spots, place, &routine.formals)?;
    let words = add_variables(&mut spots, place, &routine.variables)?;
    Ok(Table { spots, words })
}

fn tables(alloc: Global, routines: &[Routine]) -> Result<Vec<Table>, AllocError>
    requires { are_routines_within_limits (map routine_of routines.now) ≡ true }
    ensures { IfOk result (λ list. AreTables list.items (map routine_of routines.now)) }
{
    let mut list = Vec::new(alloc);
    for routine in routines {
        list.push(table(alloc, routine)?)?;
    }
    Ok(list)
}

/// A checked program, with the entries of its routines.
#[derive(Drop)]
pub struct Frames<'a> {
    checked: &'a Checked,
    tables: Vec<Table>,
}

impl<'a> Model for Frames<'a> {
    ghost use Rattle.ps_tree.specs.Checked.{Parts, program_in};
    ghost use Rattle.ps_lower.specs.Tables.{AreFrames};

    ghost Value = { Parts };

    ghost use Rattle.std.specs.Coded.{codes};
    ghost use Rattle.ps_tree.specs.contracts.tree.statements.Formal as formal;
    ghost use Rattle.ps_tree.specs.contracts.tree.statements.Statement as statement;
    ghost use Rattle.ps_tree.specs.contracts.types.Ty as ty;

    ghost coded = { Prim.hlevel (codes, formal.the_row.coded, statement.the_row.coded, ty.the_row.coded) };

    ghost view = { λ f. f.checked.now };

    ghost invariant = { λ f. AreFrames f.tables.items f.checked.now };
}

impl<'a> Frames<'a> {
    /// The frames of a program.
    pub fn new(alloc: Global, checked: &'a Checked) -> Result<Frames<'a>, AllocError>
        ensures { IfOk result (λ frames. frames ≡ checked.now) }
    {
        let tables = tables(alloc, checked.routines())?;
        Ok(Frames { checked, tables })
    }

    /// How many routines there are.
    pub fn count(&self) -> u32
        ensures value { result ≡ length (program_in self.now).routines }
        ensures small { result ≤ MAX_ROUTINES }
    {
        self.checked.routines().len() as u32
    }

    /// The routines, by their numbers.
    pub fn routines(&self) -> &[Routine]
        ensures routines { result.now ≡ self.now.routines }
    {
        self.checked.routines()
    }

    /// The domain types of the pointer types, by their numbers.
    pub fn domains(&self) -> &[Ty]
        ensures domains { result.now ≡ self.now.domains }
    {
        self.checked.domains()
    }

    /// An entry of a routine; an entry that does not exist is at 0.
    pub fn entry(&self, number: u32, index: u32) -> Spot
        ensures offset { result.offset ≡ entry_offset (routine_at (program_in self.now) number) index }
        ensures reference { result.reference ≡ is_reference_at
            (slice_get (entries (routine_at (program_in self.now) number)) index) }
    {
        let Some(table) = self.tables.as_slice().get(number as usize) else {
            return NOWHERE;
        };
        let Some(spot) = table.spots.as_slice().get(index as usize) else {
            return NOWHERE;
        };
        *spot
    }

    /// The words up to the end of a routine's last entry; if there is no such routine, just the static link's.
    pub fn words(&self, number: u32) -> u32
        ensures value { result ≡ (layout_of (routine_at (program_in self.now) number)).input }
        ensures small { result ≤ 1000000 }
    {
        let Some(table) = self.tables.as_slice().get(number as usize) else {
            return 1;
        };
        table.words
    }
}
