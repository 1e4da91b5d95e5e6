//! Type denoters: the type that each makes, and what it defines for its block.

mod named;
mod ordinals;

ghost use Rattle.std.specs.Prelude.{[], ◌≡◌, ◌++◌, ◌∷◌, IfOk, OnOk, map};
ghost use Rattle.ps_tree.specs.Types.{ArrayType, RecordType, field_list};
ghost use Rattle.ps_tree.specs.View.{type_of, types_of};
ghost use Rattle.ps_check_judgement.specs.Judged.{Answers, steps};
ghost use Rattle.ps_check_declarations.specs.Points.{add_points, new_points};
ghost use Rattle.ps_check_declarations.specs.Denoters.{index_begins, pointer, small, begins, is_packed, index_type};
ghost use Rattle.ps_check_declarations.specs.Denoters.{array_of, fields_of_type, set_of, add_fields, record_names};
ghost use Rattle.ps_check_declarations.specs.Denoters.{array_type, record_type, set_type, denoter};
ghost use Rattle.ps_check_declarations.specs.Denoters.{structure, fields, section_names};
ghost use Rattle.ps_check_declarations.specs.Hiding.{Covers, HasAll};
ghost use Rattle.ps_check_declarations.specs.Views.{frame_of, declared_of, hidden_of};

use crate::denoters::named::pass_hidden;
use crate::denoters::ordinals::{ordinal, simple_type};
use crate::frame::{Declared, Frame, Hidden, Place};
use crate::hiding::HidingNames;
use crate::points::{add_points, new_points};
pub(crate) use named::{constant_in, type_in};
use ps_check_judgement::answer::broken;
use ps_check_judgement::refusal::{CheckFault, Rule};
use ps_check_names::wides::Wides;
use ps_syntax::{Fields, Ordinal as OrdinalDenoter, Structure, TypeDenoter};
use ps_text::Span;
use ps_tree::limits::{MAX_CELLS, MAX_ROUTINES};
use ps_tree::names::{Names, Seed};
use ps_tree::types::{Component, Fields as RecordFields, Ordinal, Packing, Ty};
use std::alloc::{AllocError, Global};
use std::mem;
use std::rc::Rc;

/// An enumerated type has fewer constants than this, so that the ordinal number of each is an integer.
pub const CONSTANT_LIMIT: usize = 2_147_483_648;

/// A pointer type, whose domain type is resolved later.
#[tactic(auto, unfolding(ps_tree::specs::View::type_of))]
fn pointer(
    place: &Place,
    hiding: &HidingNames,
    declared: &mut Declared,
    domain: Span,
) -> Result<Ty, CheckFault>
    requires { Covers hiding.now (hidden_of place.now.hidden) }
    ensures { Answers result (λ ty. (type_of ty, declared_of declared.new))
        (pointer (frame_of place.now.frame) (hidden_of place.now.hidden) (declared_of declared.old) domain) }
{
    let reading = place.frame.reading;
    pass_hidden(reading, place.alloc, &place.hidden, hiding, domain)?;
    let settled = declared.domains.len();
    let pending = declared.pending.len();
    if settled >= MAX_ROUTINES || pending >= MAX_ROUTINES - settled {
        return Err(broken(Rule::Limit, domain.from));
    }
    declared.pending.push((domain, declared.known.len()))?;
    Ok(Ty::Pointer {
        number: (settled + pending) as u32,
    })
}

/// A structured type of at most 100,000 cells.
fn small(ty: Ty, at: u32) -> Result<Ty, CheckFault>
    ensures { Answers result (λ same. type_of same) (small at (type_of ty)) }
{
    if ty.cells() <= MAX_CELLS {
        Ok(ty)
    } else {
        Err(broken(Rule::Limit, at))
    }
}

fn begins(packed: Option<u32>, at: u32) -> u32
    ensures { result ≡ begins packed at }
{
    packed.unwrap_or(at)
}

fn is_packed(packed: Option<u32>) -> bool
    ensures { result ≡ is_packed packed }
{
    packed.is_some()
}

/// One more index type.
fn index_type(
    place: &Place,
    hiding: &HidingNames,
    declared: &mut Declared,
    at: u32,
    done: &mut Vec<(u32, Ordinal)>,
    index: &OrdinalDenoter,
) -> Result<(), CheckFault>
    requires { Covers hiding.now (hidden_of place.now.hidden) }
    ensures { Answers result (λ _. (done.new.items, declared_of declared.new))
        (index_type (frame_of place.now.frame) (hidden_of place.now.hidden) at
        (done.old.items, declared_of declared.old) index.now) }
{
    let begin = index_begins(at, done.as_slice(), index);
    let ordinal = ordinal(place, hiding, declared, index)?;
    done.push((begin, ordinal))?;
    Ok(())
}

/// Where the array type of an index begins.
fn index_begins(at: u32, done: &[(u32, Ordinal)], index: &OrdinalDenoter) -> u32
    ensures { result ≡ index_begins at done.now index.now }
{
    match done {
        [] => at,
        [_, ..] => index.first_token(),
    }
}

/// The index types of an array type.
#[tactic(auto, using(ps_check_judgement::proofs::Lists::stepped_start, ps_check_judgement::proofs::Lists::stepped_next, ps_check_judgement::proofs::Lists::stepped_fault, ps_check_judgement::proofs::Lists::stepped_end))]
fn index_types(
    place: &Place,
    hiding: &HidingNames,
    declared: &mut Declared,
    at: u32,
    indices: &[OrdinalDenoter],
) -> Result<Vec<(u32, Ordinal)>, CheckFault>
    requires { Covers hiding.now (hidden_of place.now.hidden) }
    ensures { Answers result (λ done. (done.items, declared_of declared.new))
        (steps (index_type (frame_of place.now.frame) (hidden_of place.now.hidden) at)
        ([], declared_of declared.old) indices.now) }
{
    let mut done = Vec::new(place.alloc);
    for index in indices {
        index_type(place, hiding, declared, at, &mut done, index)?;
    }
    Ok(done)
}

/// An array of components of one type.
#[tactic(auto, unfolding(ps_tree::specs::View::type_of))]
fn one_array(
    alloc: Global,
    packed: bool,
    at: u32,
    index: Ordinal,
    component: Ty,
) -> Result<Ty, CheckFault>
    ensures { Answers result (λ ty. type_of ty) (small at (ArrayType at packed index (type_of component))) }
{
    let component = Rc::new(alloc, Component::new(component)?)?;
    small(
        Ty::Array {
            at,
            packed,
            index,
            component,
        },
        at,
    )
}

/// Nested arrays.
#[tactic(auto, using(crate::proofs::DenoterLemmas::arrays_start, crate::proofs::DenoterLemmas::arrays_inside, crate::proofs::DenoterLemmas::arrays_fault, crate::proofs::DenoterLemmas::arrays_done))]
fn array_of(
    alloc: Global,
    packed: bool,
    indices: &mut Vec<(u32, Ordinal)>,
    component: Ty,
) -> Result<Ty, CheckFault>
    ensures { Answers result (λ ty. type_of ty) (array_of packed indices.old.items (type_of component)) }
{
    let mut ty = component;
    while let Some((at, index)) = indices.pop() {
        ty = one_array(alloc, packed, at, index, ty)?;
    }
    Ok(ty)
}

/// The base of a set type, whose word `set` is at `word`; its ordinals are within 0..255.
#[tactic(auto, unfolding(ps_tree::specs::View::type_of))]
fn set_of(word: u32, at: u32, packed: bool, base: Ordinal) -> Result<Ty, CheckFault>
    ensures { Answers result (λ ty. type_of ty) (set_of word at packed base) }
{
    if 0 <= base.low && base.high <= 255 {
        Ok(Ty::Set {
            at: Some(at),
            packing: if packed {
                Packing::Packed
            } else {
                Packing::Unpacked
            },
            base,
        })
    } else {
        Err(broken(Rule::SetBase, word))
    }
}

#[tactic(auto, unfolding(crate::specs::Denoters::set_type))]
fn set_type(
    place: &Place,
    hiding: &HidingNames,
    declared: &mut Declared,
    packed: Option<u32>,
    at: u32,
    base: &OrdinalDenoter,
) -> Result<Ty, CheckFault>
    requires { Covers hiding.now (hidden_of place.now.hidden) }
    ensures { Answers result (λ ty. (type_of ty, declared_of declared.new))
        (set_type (frame_of place.now.frame) packed (hidden_of place.now.hidden)
        (declared_of declared.old) at base.now) }
{
    let base = ordinal(place, hiding, declared, base)?;
    set_of(at, begins(packed, at), is_packed(packed), base)
}

/// The type of a denoter.
#[cycle(denoter)]
#[tactic(auto, using(crate::proofs::FoldLemmas::denoter_Ordinal, crate::proofs::FoldLemmas::denoter_Pointer, crate::proofs::FoldLemmas::denoter_Structure, crate::proofs::FoldLemmas::denoter_Packed))]
pub(crate) fn denoter(
    ty: &TypeDenoter,
    place: &Place,
    hiding: &mut HidingNames,
    declared: &mut Declared,
) -> Result<Ty, CheckFault>
    requires { Covers hiding.old (hidden_of place.now.hidden) }
    ensures kept { OnOk result (hiding.new ≡ hiding.old) }
    ensures judged { Answers result (λ made. (type_of made, declared_of declared.new))
        (denoter (frame_of place.now.frame) ty.now (hidden_of place.now.hidden) (declared_of declared.old)) }
{
    match ty {
        TypeDenoter::Ordinal(ordinal) => simple_type(place, hiding, declared, ordinal),
        TypeDenoter::Pointer(_, domain) => pointer(place, hiding, declared, *domain),
        TypeDenoter::Structure(made) => structure(made, place, hiding, declared, None),
        TypeDenoter::Packed(at, made) => structure(made, place, hiding, declared, Some(at.from)),
    }
}

#[cycle(denoter)]
#[tactic(auto, using(crate::proofs::FoldLemmas::structure_Array, crate::proofs::FoldLemmas::structure_Record, crate::proofs::FoldLemmas::structure_Set))]
fn structure(
    made: &Structure,
    place: &Place,
    hiding: &mut HidingNames,
    declared: &mut Declared,
    packed: Option<u32>,
) -> Result<Ty, CheckFault>
    requires { Covers hiding.old (hidden_of place.now.hidden) }
    ensures kept { OnOk result (hiding.new ≡ hiding.old) }
    ensures judged { Answers result (λ ty. (type_of ty, declared_of declared.new))
        (structure (frame_of place.now.frame) made.now packed (hidden_of place.now.hidden) (declared_of declared.old)) }
{
    match made {
        Structure::Array(at, indices, component) => array_type(
            indices.as_slice(),
            component.get(),
            place,
            hiding,
            declared,
            packed,
            at.from,
        ),
        Structure::Record(at, sections) => {
            record_type(
                sections.as_slice(),
                place,
                hiding,
                declared,
                packed,
                at.from,
            )
        }
        Structure::Set(at, base) => set_type(place, hiding, declared, packed, at.from, base),
    }
}

#[cycle(denoter)]
#[tactic(auto, unfolding(crate::specs::Denoters::array_type))]
fn array_type(
    indices: &[OrdinalDenoter],
    component: &TypeDenoter,
    place: &Place,
    hiding: &mut HidingNames,
    declared: &mut Declared,
    packed: Option<u32>,
    at: u32,
) -> Result<Ty, CheckFault>
    requires { Covers hiding.old (hidden_of place.now.hidden) }
    ensures kept { OnOk result (hiding.new ≡ hiding.old) }
    ensures judged { Answers result (λ ty. (type_of ty, declared_of declared.new))
        (array_type (frame_of place.now.frame) packed (hidden_of place.now.hidden)
        (declared_of declared.old) at indices.now (denoter (frame_of place.now.frame) component.now)) }
{
    let mut indices = index_types(place, hiding, declared, begins(packed, at), indices)?;
    let component = denoter(component, place, hiding, declared)?;
    array_of(place.alloc, is_packed(packed), &mut indices, component)
}

/// The names of a record's fields.
#[tactic(auto, using(crate::proofs::Walks::walked_start, crate::proofs::Walks::walked_next, crate::proofs::DenoterLemmas::names_end))]
fn record_names(frame: &Frame, alloc: Global, sections: &[Fields]) -> Result<Names, AllocError>
    ensures { IfOk result (λ names. names ≡ record_names (frame_of frame.now)
        (map (fields (frame_of frame.now)) sections.now)) }
{
    let mut names = Names::new(alloc, frame.reading.seed);
    for section in sections {
        section_names(frame, alloc, &mut names, section)?;
    }
    Ok(names)
}

#[tactic(auto, unfolding(crate::specs::Denoters::section_names))]
fn section_names(
    frame: &Frame,
    alloc: Global,
    names: &mut Names,
    section: &Fields,
) -> Result<(), AllocError>
    ensures { OnOk result (names.new ≡ add_points frame.now.reading.now.source.now names.old
        (section_names (frame_of frame.now) section.now)) }
{
    add_points(frame.reading, alloc, names, section.names.as_slice())
}

/// Fields of one type.
#[tactic(auto, using(crate::proofs::DenoterLemmas::of_type_start, crate::proofs::DenoterLemmas::of_type_next, crate::proofs::DenoterLemmas::of_type_end))]
fn fields_of_type(done: &mut Vec<Ty>, ty: &Ty, names: &[Span]) -> Result<(), AllocError>
    ensures { OnOk result (map type_of done.new.items ≡ map type_of done.old.items ++ fields_of_type
        (type_of ty.now) names.now) }
{
    for _name in names {
        field_of_type(done, ty)?;
    }
    Ok(())
}

fn field_of_type(done: &mut Vec<Ty>, ty: &Ty) -> Result<(), AllocError>
    ensures { OnOk result (map type_of done.new.items ≡ map type_of done.old.items ++ type_of ty.now ∷ []) }
{
    let ty = ty.copy()?;
    done.push(ty)?;
    Ok(())
}

/// The points of a section of a record or a parameter list with these names, `count` of which come before the section.
/// Returns how many come before whatever follows.
pub(crate) fn own_points(
    place: &Place,
    names: &Names,
    count: usize,
    points: &[Span],
) -> Result<usize, CheckFault>
    ensures { Answers result (λ n. n) (new_points place.now.frame.reading.now.source.now names.now []
        count points.now) }
{
    let none = Names::new(place.alloc, place.frame.reading.seed);
    new_points(
        place.frame.reading,
        place.alloc,
        names,
        &none,
        count,
        points,
    )
}

/// One more section of fields of a record with these names.
#[cycle(denoter)]
#[tactic(auto, using(crate::proofs::HidingLemmas::covers_one_more), unfolding(crate::specs::Views::hidden_of))]
fn add_fields(
    section: &Fields,
    place: &Place,
    hiding: &mut HidingNames,
    declared: &mut Declared,
    names: &Names,
    done: &mut Vec<Ty>,
) -> Result<(), CheckFault>
    requires covers { Covers hiding.old (hidden_of place.now.hidden) }
    requires names { HasAll hiding.old names.now }
    ensures kept { OnOk result (hiding.new ≡ hiding.old) }
    ensures judged { Answers result (λ _. (map type_of done.new.items, declared_of declared.new))
        (add_fields (frame_of place.now.frame) names.now (hidden_of place.now.hidden)
        (map type_of done.old.items, declared_of declared.old) (fields (frame_of place.now.frame) section.now)) }
{
    let points = section.names.as_slice();
    let defined = own_points(place, names, done.len(), points)?;
    let inside = Place {
        alloc: place.alloc,
        frame: place.frame,
        hidden: Hidden::Own {
            names,
            defined,
            outer: &place.hidden,
        },
    };
    let ty = denoter(&section.ty, &inside, hiding, declared)?;
    fields_of_type(done, &ty, points)?;
    Ok(())
}

/// The types of the fields of a record with these names.
#[cycle(denoter)]
#[tactic(auto, using(crate::proofs::Steps::mapped_start, crate::proofs::Steps::mapped_next, crate::proofs::Steps::mapped_fault, crate::proofs::Steps::mapped_end, crate::proofs::HidingLemmas::covers_still, crate::proofs::HidingLemmas::has_still))]
fn all_fields(
    sections: &[Fields],
    place: &Place,
    hiding: &mut HidingNames,
    declared: &mut Declared,
    names: &Names,
) -> Result<Vec<Ty>, CheckFault>
    requires covers { Covers hiding.old (hidden_of place.now.hidden) }
    requires names { HasAll hiding.old names.now }
    ensures kept { OnOk result (hiding.new ≡ hiding.old) }
    ensures judged { Answers result (λ done. (map type_of done.items, declared_of declared.new))
        (steps (add_fields (frame_of place.now.frame) names.now (hidden_of place.now.hidden))
        ([], declared_of declared.old) (map (fields (frame_of place.now.frame)) sections.now)) }
{
    let mut done = Vec::new(place.alloc);
    for section in sections {
        add_fields(section, place, hiding, declared, names, &mut done)?;
    }
    Ok(done)
}

/// The same, if these names hide others in the record alone.
#[cycle(denoter)]
#[tactic(auto, using(crate::proofs::HidingLemmas::has_entered, crate::proofs::HidingLemmas::covers_entered))]
fn own_fields(
    sections: &[Fields],
    place: &Place,
    hiding: &mut HidingNames,
    declared: &mut Declared,
    names: &Names,
) -> Result<Vec<Ty>, CheckFault>
    requires { Covers hiding.old (hidden_of place.now.hidden) }
    ensures kept { OnOk result (hiding.new ≡ hiding.old) }
    ensures judged { Answers result (λ done. (map type_of done.items, declared_of declared.new))
        (steps (add_fields (frame_of place.now.frame) names.now (hidden_of place.now.hidden))
        ([], declared_of declared.old) (map (fields (frame_of place.now.frame)) sections.now)) }
{
    let outside = hiding.len();
    hiding.enter(place.alloc, names)?;
    let types = all_fields(sections, place, hiding, declared, names)?;
    hiding.leave(outside);
    Ok(types)
}

/// A record type whose fields have these names and types.
#[tactic(auto, unfolding(ps_tree::specs::View::type_of))]
fn one_record(
    alloc: Global,
    packed: bool,
    at: u32,
    names: Names,
    types: Vec<Ty>,
) -> Result<Ty, CheckFault>
    ensures { Answers result (λ ty. type_of ty)
        (small at (RecordType at packed (field_list names (types_of types.items)))) }
{
    let fields = Rc::new(alloc, RecordFields::new(alloc, names, types)?)?;
    small(Ty::Record { at, packed, fields }, at)
}

/// Notes a record type: a wide one by its number at each of its names, any other by its names alone.
fn note_type(alloc: Global, seed: Seed, declared: &mut Declared, ty: &Ty) -> Result<(), AllocError>
    ensures { OnOk result (declared_of declared.new ≡ declared_of declared.old) }
{
    let wides = mem::replace(&mut declared.wides, Wides::new(alloc, seed));
    declared.wides = wides.with(alloc, ty)?;
    Ok(())
}

#[cycle(denoter)]
#[tactic(auto, unfolding(crate::specs::Denoters::record_type))]
fn record_type(
    sections: &[Fields],
    place: &Place,
    hiding: &mut HidingNames,
    declared: &mut Declared,
    packed: Option<u32>,
    at: u32,
) -> Result<Ty, CheckFault>
    requires { Covers hiding.old (hidden_of place.now.hidden) }
    ensures kept { OnOk result (hiding.new ≡ hiding.old) }
    ensures judged { Answers result (λ ty. (type_of ty, declared_of declared.new))
        (record_type (frame_of place.now.frame) packed (hidden_of place.now.hidden) (declared_of declared.old) at
        (map (fields (frame_of place.now.frame)) sections.now)) }
{
    let names = record_names(&place.frame, place.alloc, sections)?;
    let types = own_fields(sections, place, hiding, declared, &names)?;
    let ty = one_record(
        place.alloc,
        is_packed(packed),
        begins(packed, at),
        names,
        types,
    )?;
    note_type(place.alloc, place.frame.reading.seed, declared, &ty)?;
    Ok(ty)
}
