//! The headings of routines.

ghost use Rattle.std.specs.Prelude.{◌≡◌, ◌++◌, ◌∷◌, [], IfOk, OnOk, map};
ghost use Rattle.ps_tree.specs.View.{type_of};
ghost use Rattle.ps_check_judgement.specs.Judged.{Answers, steps};
ghost use Rattle.ps_check_names.specs.SectionViews.{section_of};
ghost use Rattle.ps_check_names.specs.Views.{meaning_of};
ghost use Rattle.ps_check_declarations.specs.Points.{add_points, new_points};
ghost use Rattle.ps_check_declarations.specs.Headings.{is_result, few, add_section, list_names, sections_of};
ghost use Rattle.ps_check_declarations.specs.Headings.{result_type, section, heading, section_points};
ghost use Rattle.ps_check_declarations.specs.Hiding.{Covers, HasAll};
ghost use Rattle.ps_check_declarations.specs.Views.{frame_of, hidden_of, signature_of};

use crate::denoters::{own_points, type_in};
use crate::frame::{Hidden, Place};
use crate::hiding::HidingNames;
use crate::points::add_points;
use ps_check_judgement::answer::broken;
use ps_check_judgement::refusal::{CheckFault, Rule};
use ps_check_names::meaning::Meaning;
use ps_check_names::sections::{Section, SectionList};
use ps_syntax::{Heading, Section as SectionDenoter};
use ps_text::Span;
use ps_tree::names::Names;
use ps_tree::types::Ty;
use std::alloc::AllocError;

/// The content of a heading: its sections, and a function's result.
#[derive(Drop)]
pub struct Signature {
    pub sections: Vec<Section>,
    pub result: Option<Ty>,
}

/// Checks that a heading has at most 32 formal parameters.
fn few(count: usize, at: u32) -> Result<u32, CheckFault>
    ensures { Answers result (λ same. same) (few at count) }
{
    if count <= 32 {
        Ok(count as u32)
    } else {
        Err(broken(Rule::Limit, at))
    }
}

#[tactic(auto, unfolding(crate::specs::Headings::is_result, ps_tree::specs::View::type_of))]
fn is_result(ty: &Ty) -> bool
    ensures { result ≡ is_result (type_of ty.now) }
{
    match ty {
        Ty::Simple(_) | Ty::Pointer { .. } => true,
        Ty::Nil
        | Ty::Set { .. }
        | Ty::EmptySet
        | Ty::Text { .. }
        | Ty::Array { .. }
        | Ty::Record { .. } => false,
    }
}

/// The type of a function's result, which is the name of an ordinal or pointer type.
fn result_type(
    place: &Place,
    hiding: &HidingNames,
    known: &[Meaning],
    name: Span,
) -> Result<Ty, CheckFault>
    requires { Covers hiding.now (hidden_of place.now.hidden) }
    ensures { Answers result (λ ty. type_of ty)
        (result_type (frame_of place.now.frame) (map meaning_of known.now) (hidden_of place.now.hidden) name) }
{
    let ty = type_in(place, hiding, known, name)?;
    if is_result(&ty) {
        Ok(ty)
    } else {
        Err(broken(Rule::WrongType, name.from))
    }
}

/// The content of a heading.
#[cycle(heading)]
#[tactic(auto, using(crate::proofs::HeadingLemmas::heading_Procedure, crate::proofs::HeadingLemmas::heading_Function, crate::proofs::HidingLemmas::covers_still))]
pub fn heading(
    written: &Heading,
    place: &Place,
    hiding: &mut HidingNames,
    known: &[Meaning],
) -> Result<Signature, CheckFault>
    requires { Covers hiding.old (hidden_of place.now.hidden) }
    ensures kept { OnOk result (hiding.new ≡ hiding.old) }
    ensures judged { Answers result (λ s. signature_of s)
        ((heading (frame_of place.now.frame) (map meaning_of known.now) written.now).1 (hidden_of place.now.hidden)) }
{
    match written {
        Heading::Procedure(name, list) => {
            let sections = sections(list.as_slice(), place, hiding, known, name.from)?;
            Ok(Signature {
                sections,
                result: None,
            })
        }
        Heading::Function(name, list, ty) => {
            let sections = sections(list.as_slice(), place, hiding, known, name.from)?;
            let ty = result_type(place, hiding, known, *ty)?;
            Ok(Signature {
                sections,
                result: Some(ty),
            })
        }
    }
}

/// The sections of a list whose parameters' names hide others. `at` is the offset of the routine's name.
#[cycle(heading)]
#[tactic(auto, unfolding(crate::specs::Headings::sections_of))]
fn sections(
    list: &[SectionDenoter],
    place: &Place,
    hiding: &mut HidingNames,
    known: &[Meaning],
    at: u32,
) -> Result<Vec<Section>, CheckFault>
    requires { Covers hiding.old (hidden_of place.now.hidden) }
    ensures kept { OnOk result (hiding.new ≡ hiding.old) }
    ensures judged { Answers result (λ done. map section_of done.items)
        (sections_of (frame_of place.now.frame) (map meaning_of known.now)
        (map (section (frame_of place.now.frame) (map meaning_of known.now)) list.now) at
        (hidden_of place.now.hidden)) }
{
    let names = list_names(list, place, known)?;
    let _count = few(names.len(), at)?;
    let (sections, _count) = own_sections(list, place, hiding, known, &names)?;
    Ok(sections)
}

/// The sections of a list whose parameters have these names, and their number.
#[cycle(heading)]
#[tactic(auto, using(crate::proofs::Steps::mapped_start, crate::proofs::Steps::mapped_next, crate::proofs::Steps::mapped_fault, crate::proofs::Steps::mapped_end, crate::proofs::HidingLemmas::covers_still, crate::proofs::HidingLemmas::has_still))]
fn all_sections(
    list: &[SectionDenoter],
    place: &Place,
    hiding: &mut HidingNames,
    known: &[Meaning],
    names: &Names,
) -> Result<(Vec<Section>, usize), CheckFault>
    requires covers { Covers hiding.old (hidden_of place.now.hidden) }
    requires names { HasAll hiding.old names.now }
    ensures kept { OnOk result (hiding.new ≡ hiding.old) }
    ensures judged { Answers result (λ done. (map section_of done.0.items, done.1))
        (steps (add_section (frame_of place.now.frame) (map meaning_of known.now) names.now
        (hidden_of place.now.hidden)) ([], 0) (map
        (section (frame_of place.now.frame) (map meaning_of known.now)) list.now)) }
{
    let mut done = Vec::new(place.alloc);
    let mut defined = 0;
    for written in list {
        defined = add_section(written, place, hiding, known, names, defined, &mut done)?;
    }
    Ok((done, defined))
}

/// The same, if these names hide others in the list alone.
#[cycle(heading)]
#[tactic(auto, using(crate::proofs::HidingLemmas::has_entered, crate::proofs::HidingLemmas::covers_entered))]
fn own_sections(
    list: &[SectionDenoter],
    place: &Place,
    hiding: &mut HidingNames,
    known: &[Meaning],
    names: &Names,
) -> Result<(Vec<Section>, usize), CheckFault>
    requires { Covers hiding.old (hidden_of place.now.hidden) }
    ensures kept { OnOk result (hiding.new ≡ hiding.old) }
    ensures judged { Answers result (λ done. (map section_of done.0.items, done.1))
        (steps (add_section (frame_of place.now.frame) (map meaning_of known.now) names.now
        (hidden_of place.now.hidden)) ([], 0) (map
        (section (frame_of place.now.frame) (map meaning_of known.now)) list.now)) }
{
    let outside = hiding.len();
    hiding.enter(place.alloc, names)?;
    let sections = all_sections(list, place, hiding, known, names)?;
    hiding.leave(outside);
    Ok(sections)
}

/// One more section, after those that have the first `count` names of the list. Returns how many come before whatever
/// follows.
#[cycle(heading)]
#[tactic(auto, using(crate::proofs::HidingLemmas::covers_one_more), unfolding(crate::specs::Headings::section_points, crate::specs::Views::hidden_of))]
fn add_section(
    written: &SectionDenoter,
    place: &Place,
    hiding: &mut HidingNames,
    known: &[Meaning],
    names: &Names,
    count: usize,
    done: &mut Vec<Section>,
) -> Result<usize, CheckFault>
    requires covers { Covers hiding.old (hidden_of place.now.hidden) }
    requires names { HasAll hiding.old names.now }
    ensures kept { OnOk result (hiding.new ≡ hiding.old) }
    ensures judged { Answers result (λ n. (map section_of done.new.items, n))
        (add_section (frame_of place.now.frame) (map meaning_of known.now) names.now (hidden_of place.now.hidden)
        (map section_of done.old.items, count) (section (frame_of place.now.frame)
        (map meaning_of known.now) written.now)) }
{
    let defined = section_points(written, place, known, names, count)?;
    let inside = Place {
        alloc: place.alloc,
        frame: place.frame,
        hidden: Hidden::Own {
            names,
            defined,
            outer: &place.hidden,
        },
    };
    let section = section(written, &inside, hiding, known)?;
    done.push(section)?;
    Ok(defined)
}

#[cycle(heading)]
#[tactic(auto, using(crate::proofs::HeadingLemmas::section_Value, crate::proofs::HeadingLemmas::section_Variable, crate::proofs::HeadingLemmas::section_Routine, crate::proofs::HeadingLemmas::routine_made), unfolding(ps_check_names::specs::SectionViews::section_of))]
fn section(
    written: &SectionDenoter,
    place: &Place,
    hiding: &mut HidingNames,
    known: &[Meaning],
) -> Result<Section, CheckFault>
    requires { Covers hiding.old (hidden_of place.now.hidden) }
    ensures kept { OnOk result (hiding.new ≡ hiding.old) }
    ensures judged { Answers result (λ s. section_of s)
        ((section (frame_of place.now.frame) (map meaning_of known.now) written.now).1 (hidden_of place.now.hidden)) }
{
    match written {
        SectionDenoter::Value(names, name) => {
            let count = few(names.len(), name.from)?;
            let ty = type_in(place, hiding, known, *name)?;
            Ok(Section::Value { count, ty })
        }
        SectionDenoter::Variable(names, name) => {
            let count = few(names.len(), name.from)?;
            let ty = type_in(place, hiding, known, *name)?;
            Ok(Section::Variable { count, ty })
        }
        SectionDenoter::Routine(inner) => {
            let Signature { sections, result } = heading(inner, place, hiding, known)?;
            Ok(Section::Routine {
                sections: SectionList::shared(place.alloc, sections)?,
                result,
            })
        }
    }
}

/// The points of a section of a list with these names, `count` of which come before the section. Returns how many come
/// before whatever follows.
#[tactic(auto, using(crate::proofs::HeadingLemmas::points_Value, crate::proofs::HeadingLemmas::points_Variable, crate::proofs::HeadingLemmas::points_Procedure, crate::proofs::HeadingLemmas::points_Function))]
fn section_points(
    written: &SectionDenoter,
    place: &Place,
    known: &[Meaning],
    names: &Names,
    count: usize,
) -> Result<usize, CheckFault>
    ensures { Answers result (λ n. n) (new_points place.now.frame.reading.now.source.now names.now [] count
        (section_points (frame_of place.now.frame) (map meaning_of known.now) written.now)) }
{
    let _known = known;
    match written {
        SectionDenoter::Value(points, _) | SectionDenoter::Variable(points, _) => {
            own_points(place, names, count, points.as_slice())
        }
        SectionDenoter::Routine(heading) => match heading {
            Heading::Procedure(name, _) | Heading::Function(name, ..) => {
                own_points(place, names, count, &[*name])
            }
        },
    }
}

/// The names of the parameters of a list.
#[tactic(auto, using(crate::proofs::Walks::walked_start, crate::proofs::Walks::walked_next, crate::proofs::HeadingLemmas::names_end))]
fn list_names(
    list: &[SectionDenoter],
    place: &Place,
    known: &[Meaning],
) -> Result<Names, AllocError>
    ensures { IfOk result (λ names. names ≡ list_names (frame_of place.now.frame) (map meaning_of known.now)
        (map (section (frame_of place.now.frame) (map meaning_of known.now)) list.now)) }
{
    let mut names = Names::new(place.alloc, place.frame.reading.seed);
    for written in list {
        add_names(written, place, known, &mut names)?;
    }
    Ok(names)
}

/// The names of the parameters of a section.
#[tactic(auto, using(crate::proofs::HeadingLemmas::points_Value, crate::proofs::HeadingLemmas::points_Variable, crate::proofs::HeadingLemmas::points_Procedure, crate::proofs::HeadingLemmas::points_Function))]
fn add_names(
    written: &SectionDenoter,
    place: &Place,
    known: &[Meaning],
    names: &mut Names,
) -> Result<(), AllocError>
    ensures { OnOk result (names.new ≡ add_points place.now.frame.reading.now.source.now names.old
        (section_points (frame_of place.now.frame) (map meaning_of known.now) written.now)) }
{
    let _known = known;
    let reading = place.frame.reading;
    match written {
        SectionDenoter::Value(points, _) | SectionDenoter::Variable(points, _) => {
            add_points(reading, place.alloc, names, points.as_slice())
        }
        SectionDenoter::Routine(heading) => match heading {
            Heading::Procedure(name, _) | Heading::Function(name, ..) => {
                add_points(reading, place.alloc, names, &[*name])
            }
        },
    }
}
