//! The names of a block's region, collected before any of them is used.

ghost use Rattle.std.specs.Prelude.{◌≡◌, OnOk, map, ◌++◌};
ghost use Rattle.ps_check_judgement.specs.Judged.{Answers};
ghost use Rattle.ps_check_declarations.specs.Points.{all, ordinal_points, type_points, structure_points, fields_points};
ghost use Rattle.ps_check_declarations.specs.Points.{constant_points, definition_points, variables_points};
ghost use Rattle.ps_check_declarations.specs.Points.{block_points, add_point, add_points, is_later, new_point};
ghost use Rattle.ps_check_declarations.specs.Points.{new_points};

use crate::frame::Parts;
use ps_check_judgement::answer::broken;
use ps_check_judgement::refusal::{CheckFault, Rule};
use ps_check_names::reading::Reading;
use ps_syntax::{
    ConstantDefinition, Fields, Ordinal, Structure, TypeDefinition, TypeDenoter, Variables,
};
use ps_text::Span;
use ps_tree::names::Names;
use std::alloc::{AllocError, Global};

/// One more name, unless it is present.
fn add_point(
    reading: &Reading,
    alloc: Global,
    names: &mut Names,
    name: Span,
) -> Result<(), AllocError>
    ensures { OnOk result (names.new ≡ add_point reading.now.source.now names.old name) }
{
    let spelling = reading.name(alloc, name)?;
    let _is_added = names.add(spelling)?;
    Ok(())
}

/// More names, each once.
#[tactic(auto, using(crate::proofs::Walks::added_start, crate::proofs::Walks::added_next, crate::proofs::Walks::added_end))]
pub(crate) fn add_points(
    reading: &Reading,
    alloc: Global,
    names: &mut Names,
    points: &[Span],
) -> Result<(), AllocError>
    ensures { OnOk result (names.new ≡ add_points reading.now.source.now names.old points.now) }
{
    for point in points {
        add_point(reading, alloc, names, *point)?;
    }
    Ok(())
}

/// Whether a region has this name, but not among its first `count`.
#[tactic(auto, using(crate::proofs::NewLemmas::later_place))]
pub fn is_later(names: &Names, count: usize, name: &[u8]) -> bool
    ensures { result ≡ is_later names.now count name.now }
{
    match names.find(name) {
        None => false,
        Some(index) => count <= index,
    }
}

/// One more point of a region; a second point with the same name is reported. Returns how many names of the region come
/// before whatever follows, if `count` come before this one.
#[tactic(auto, using(crate::proofs::NewLemmas::none_later))]
fn new_point(
    reading: &Reading,
    alloc: Global,
    names: &Names,
    begun: &Names,
    count: usize,
    at: Span,
) -> Result<usize, CheckFault>
    ensures { Answers result (λ n. n) (new_point reading.now.source.now names.now begun.now count at) }
{
    let spelling = reading.spelling(alloc, at)?;
    let name = spelling.as_slice();
    // No name comes after the last one, so one more can be counted.
    if count < names.len() && is_later(names, count, name) && !begun.contains(name) {
        Ok(count + 1)
    } else {
        Err(broken(Rule::Twice, at.from))
    }
}

/// More points.
#[tactic(auto, using(ps_check_judgement::proofs::Lists::stepped_start, ps_check_judgement::proofs::Lists::stepped_next, ps_check_judgement::proofs::Lists::stepped_fault, ps_check_judgement::proofs::Lists::stepped_end), unfolding(crate::specs::Points::new_points))]
pub(crate) fn new_points(
    reading: &Reading,
    alloc: Global,
    names: &Names,
    begun: &Names,
    count: usize,
    points: &[Span],
) -> Result<usize, CheckFault>
    ensures { Answers result (λ n. n) (new_points reading.now.source.now names.now begun.now count points.now) }
{
    let mut defined = count;
    for point in points {
        defined = new_point(reading, alloc, names, begun, defined, *point)?;
    }
    Ok(defined)
}

/// The enumeration constants of an ordinal type.
#[tactic(auto, using(crate::proofs::Walks::added_none), unfolding(crate::specs::Points::ordinal_points))]
fn add_ordinal(
    reading: &Reading,
    alloc: Global,
    names: &mut Names,
    ordinal: &Ordinal,
) -> Result<(), AllocError>
    ensures { OnOk result (names.new ≡ add_points reading.now.source.now names.old (ordinal_points ordinal.now)) }
{
    match ordinal {
        Ordinal::Name(_) | Ordinal::Subrange(..) => Ok(()),
        Ordinal::Enumeration(_, constants) => add_points(
            reading,
            alloc,
            names,
            constants.as_slice(),
        ),
    }
}

#[tactic(auto, using(crate::proofs::Walks::walked_start, crate::proofs::Walks::walked_next, crate::proofs::Walks::walked_end))]
fn add_ordinals(
    reading: &Reading,
    alloc: Global,
    names: &mut Names,
    ordinals: &[Ordinal],
) -> Result<(), AllocError>
    ensures { OnOk result (names.new ≡ add_points reading.now.source.now names.old
        (all (map ordinal_points ordinals.now))) }
{
    for ordinal in ordinals {
        add_ordinal(reading, alloc, names, ordinal)?;
    }
    Ok(())
}

/// The enumeration constants of a type denoter.
#[cycle(points)]
#[tactic(auto, using(crate::proofs::Walks::added_none, crate::proofs::FoldLemmas::points_pointer))]
fn add_type(
    reading: &Reading,
    alloc: Global,
    names: &mut Names,
    ty: &TypeDenoter,
) -> Result<(), AllocError>
    ensures { OnOk result (names.new ≡ add_points reading.now.source.now names.old (type_points ty.now)) }
{
    match ty {
        TypeDenoter::Ordinal(ordinal) => add_ordinal(reading, alloc, names, ordinal),
        TypeDenoter::Pointer(..) => Ok(()),
        TypeDenoter::Structure(structure) | TypeDenoter::Packed(_, structure) => {
            add_structure(reading, alloc, names, structure)
        }
    }
}

#[cycle(points)]
fn add_structure(
    reading: &Reading,
    alloc: Global,
    names: &mut Names,
    structure: &Structure,
) -> Result<(), AllocError>
    ensures { OnOk result (names.new ≡ add_points reading.now.source.now names.old (structure_points structure.now)) }
{
    match structure {
        Structure::Array(_, indices, component) => add_array(
            reading,
            alloc,
            names,
            indices.as_slice(),
            component.get(),
        ),
        Structure::Record(_, fields) => add_fields(reading, alloc, names, fields.as_slice()),
        Structure::Set(_, base) => add_ordinal(reading, alloc, names, base),
    }
}

#[cycle(points)]
#[tactic(auto, using(crate::proofs::Walks::added_both))]
fn add_array(
    reading: &Reading,
    alloc: Global,
    names: &mut Names,
    indices: &[Ordinal],
    component: &TypeDenoter,
) -> Result<(), AllocError>
    ensures { OnOk result (names.new ≡ add_points reading.now.source.now names.old
        (all (map ordinal_points indices.now) ++ type_points component.now)) }
{
    add_ordinals(reading, alloc, names, indices)?;
    add_type(reading, alloc, names, component)
}

#[cycle(points)]
fn add_section(
    reading: &Reading,
    alloc: Global,
    names: &mut Names,
    fields: &Fields,
) -> Result<(), AllocError>
    ensures { OnOk result (names.new ≡ add_points reading.now.source.now names.old (fields_points fields.now)) }
{
    add_type(reading, alloc, names, &fields.ty)
}

#[cycle(points)]
#[tactic(auto, using(crate::proofs::Walks::walked_start, crate::proofs::Walks::walked_next, crate::proofs::Walks::walked_end))]
fn add_fields(
    reading: &Reading,
    alloc: Global,
    names: &mut Names,
    sections: &[Fields],
) -> Result<(), AllocError>
    ensures { OnOk result (names.new ≡ add_points reading.now.source.now names.old
        (all (map fields_points sections.now))) }
{
    for fields in sections {
        add_section(reading, alloc, names, fields)?;
    }
    Ok(())
}

/// The point of a constant definition.
#[tactic(auto, unfolding(crate::specs::Points::constant_points))]
fn add_constant(
    reading: &Reading,
    alloc: Global,
    names: &mut Names,
    definition: &ConstantDefinition,
) -> Result<(), AllocError>
    ensures { OnOk result (names.new ≡ add_points reading.now.source.now names.old (constant_points definition.now)) }
{
    add_points(reading, alloc, names, &[definition.name])
}

#[tactic(auto, using(crate::proofs::Walks::walked_start, crate::proofs::Walks::walked_next, crate::proofs::Walks::walked_end))]
fn add_constants(
    reading: &Reading,
    alloc: Global,
    names: &mut Names,
    definitions: &[ConstantDefinition],
) -> Result<(), AllocError>
    ensures { OnOk result (names.new ≡ add_points reading.now.source.now names.old
        (all (map constant_points definitions.now))) }
{
    for definition in definitions {
        add_constant(reading, alloc, names, definition)?;
    }
    Ok(())
}

/// The points of a type definition.
#[tactic(auto, using(crate::proofs::Walks::added_none, crate::proofs::Walks::added_both), unfolding(crate::specs::Points::definition_points))]
fn add_definition(
    reading: &Reading,
    alloc: Global,
    names: &mut Names,
    definition: &TypeDefinition,
) -> Result<(), AllocError>
    ensures { OnOk result (names.new ≡ add_points reading.now.source.now names.old (definition_points definition.now)) }
{
    add_type(reading, alloc, names, &definition.ty)?;
    add_points(reading, alloc, names, &[definition.name])
}

#[tactic(auto, using(crate::proofs::Walks::walked_start, crate::proofs::Walks::walked_next, crate::proofs::Walks::walked_end))]
fn add_definitions(
    reading: &Reading,
    alloc: Global,
    names: &mut Names,
    definitions: &[TypeDefinition],
) -> Result<(), AllocError>
    ensures { OnOk result (names.new ≡ add_points reading.now.source.now names.old
        (all (map definition_points definitions.now))) }
{
    for definition in definitions {
        add_definition(reading, alloc, names, definition)?;
    }
    Ok(())
}

/// The points of a declaration of variables.
#[tactic(auto, using(crate::proofs::Walks::added_none, crate::proofs::Walks::added_both), unfolding(crate::specs::Points::variables_points))]
fn add_declaration(
    reading: &Reading,
    alloc: Global,
    names: &mut Names,
    declaration: &Variables,
) -> Result<(), AllocError>
    ensures { OnOk result (names.new ≡ add_points reading.now.source.now names.old (variables_points declaration.now)) }
{
    add_type(reading, alloc, names, &declaration.ty)?;
    add_points(reading, alloc, names, declaration.names.as_slice())
}

#[tactic(auto, using(crate::proofs::Walks::walked_start, crate::proofs::Walks::walked_next, crate::proofs::Walks::walked_end))]
fn add_variables(
    reading: &Reading,
    alloc: Global,
    names: &mut Names,
    declarations: &[Variables],
) -> Result<(), AllocError>
    ensures { OnOk result (names.new ≡ add_points reading.now.source.now names.old
        (all (map variables_points declarations.now))) }
{
    for declaration in declarations {
        add_declaration(reading, alloc, names, declaration)?;
    }
    Ok(())
}

/// The names of a block's constants, types and variables, after those already present, in the order in which their
/// definitions end, each once.
#[tactic(auto, using(crate::proofs::Walks::added_both), unfolding(crate::specs::Points::block_points))]
pub fn add_block(
    reading: &Reading,
    alloc: Global,
    names: &mut Names,
    parts: &Parts,
) -> Result<(), AllocError>
    ensures { OnOk result (names.new ≡ add_points reading.now.source.now names.old
        (block_points parts.now.constants.now parts.now.types.now parts.now.variables.now)) }
{
    add_constants(reading, alloc, names, parts.constants)?;
    add_definitions(reading, alloc, names, parts.types)?;
    add_variables(reading, alloc, names, parts.variables)
}
