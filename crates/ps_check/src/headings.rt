//! New headings.

ghost use Rattle.std.specs.Prelude.{◌≡◌, [], ◌∷◌, ◌++◌, IfOk, OnOk, length, map, nat_lt};
ghost use Rattle.ps_check_judgement.specs.Judged.{Answers, provided};
ghost use Rattle.ps_check_judgement.specs.declared.refusal.Rule.TheVariants.{Limit};
ghost use Rattle.ps_check_names.specs.Regions.{RoutineMeaning};
ghost use Rattle.ps_check_names.specs.Spelling.{spelled};
ghost use Rattle.ps_check_names.specs.Views.{meaning_of};
ghost use Rattle.ps_check_declarations.specs.Points.{all};
ghost use Rattle.ps_check_declarations.specs.Headings.{heading, section_list, section_points};
ghost use Rattle.ps_check_declarations.specs.Views.{frame_of, signature_of};
ghost use Rattle.ps_check.specs.Readings.{heading_name, heading_list, is_bare};
ghost use Rattle.ps_check.specs.Blocks.{hidden_in_heading, new_heading};
ghost use Rattle.ps_check.specs.Views.{routines_of};

use crate::state::{Gathered, Local};
use ps_check_declarations::frame::{Frame, Hidden, Place};
use ps_check_declarations::headings::{Signature, heading};
use ps_check_declarations::hiding::HidingNames;
use ps_check_judgement::answer::broken;
use ps_check_judgement::refusal::{CheckFault, Rule};
use ps_check_names::meaning::{Heading, Meaning};
use ps_check_names::reading::Reading;
use ps_check_names::sections::SectionList;
use ps_syntax::{Heading as HeadingDenoter, Section};
use ps_text::Span;
use ps_tree::limits::MAX_ROUTINES;
use ps_tree::names::Names;
use std::alloc::{AllocError, Global};

/// The name of a heading's routine.
#[tactic(auto, using(crate::proofs::Equations::name_Procedure, crate::proofs::Equations::name_Function))]
pub fn heading_name(written: &HeadingDenoter) -> Span
    ensures { result ≡ heading_name written.now }
{
    match written {
        HeadingDenoter::Procedure(name, _) | HeadingDenoter::Function(name, ..) => *name,
    }
}

/// The sections of a heading.
#[tactic(auto, using(crate::proofs::Equations::list_Procedure, crate::proofs::Equations::list_Function))]
fn heading_list(written: &HeadingDenoter) -> &[Section]
    ensures { result.now ≡ heading_list written.now }
{
    match written {
        HeadingDenoter::Procedure(_, list) | HeadingDenoter::Function(_, list, _) => {
            list.as_slice()
        }
    }
}

/// Whether it is a procedure's heading that consists of the name alone.
#[tactic(auto, using(crate::proofs::Equations::bare_Procedure, crate::proofs::Equations::bare_Function))]
pub fn is_bare(written: &HeadingDenoter) -> bool
    ensures { result ≡ is_bare written.now }
{
    match written {
        HeadingDenoter::Procedure(_, list) => list.is_empty(),
        HeadingDenoter::Function(..) => false,
    }
}

/// The spellings of more names.
fn add_spellings(
    reading: &Reading,
    alloc: Global,
    names: &mut Vec<Vec<u8>>,
    points: &[Span],
) -> Result<(), AllocError>
    ensures { OnOk result (map (λ name. name.items) names.new.items ≡ map (λ name. name.items) names.old.items ++ map
        (spelled reading.now.source.now) points.now) }
{
    for point in points {
        names.push(reading.name(alloc, *point)?)?;
    }
    Ok(())
}

/// The spellings of the names of a section's parameters.
#[tactic(auto, using(ps_check_declarations::proofs::HeadingLemmas::points_Value, ps_check_declarations::proofs::HeadingLemmas::points_Variable, ps_check_declarations::proofs::HeadingLemmas::points_Procedure, ps_check_declarations::proofs::HeadingLemmas::points_Function))]
fn add_names(
    written: &Section,
    frame: &Frame,
    alloc: Global,
    known: &[Meaning],
    names: &mut Vec<Vec<u8>>,
) -> Result<(), AllocError>
    ensures { OnOk result (map (λ name. name.items) names.new.items ≡ map (λ name. name.items) names.old.items ++ map
        (spelled frame.now.reading.now.source.now)
        (section_points (frame_of frame.now) (map meaning_of known.now) written.now)) }
{
    let _known = known;
    match written {
        Section::Value(points, _) | Section::Variable(points, _) => {
            add_spellings(frame.reading, alloc, names, points.as_slice())
        }
        Section::Routine(heading) => match heading {
            HeadingDenoter::Procedure(name, _) | HeadingDenoter::Function(name, ..) => {
                add_spellings(frame.reading, alloc, names, &[*name])
            }
        },
    }
}

/// The spellings of the names of a heading's parameters.
fn parameter_names(
    list: &[Section],
    frame: &Frame,
    alloc: Global,
    known: &[Meaning],
) -> Result<Vec<Vec<u8>>, AllocError>
    ensures { IfOk result (λ names. map (λ name. name.items) names.items ≡ map
        (spelled frame.now.reading.now.source.now)
        (all (map (section_points (frame_of frame.now) (map meaning_of known.now)) list.now))) }
{
    let mut names = Vec::new(alloc);
    for written in list {
        add_names(written, frame, alloc, known, &mut names)?;
    }
    Ok(names)
}

/// The number of the next routine; there are at most `MAX_ROUTINES`.
fn next_number(gathered: &Gathered, at: u32) -> Result<u32, CheckFault>
    ensures { Answers result (λ number. number)
        (provided (nat_lt (length gathered.now.routines.items) MAX_ROUTINES) Limit at
        (length gathered.now.routines.items)) }
{
    if gathered.routines.len() < MAX_ROUTINES {
        Ok(gathered.routines.len() as u32)
    } else {
        Err(broken(Rule::Limit, at))
    }
}

/// The meaning of the name of a routine whose heading has this content.
#[tactic(auto, using(ps_check_declarations::proofs::HeadingLemmas::list_of_sections), unfolding(ps_check_names::specs::Views::meaning_of))]
fn routine_meaning(
    written: &HeadingDenoter,
    number: u32,
    signature: Signature,
    is_forward: bool,
    frame: &Frame,
    alloc: Global,
    known: &[Meaning],
) -> Result<Meaning, AllocError>
    ensures { IfOk result (λ meaning. meaning_of meaning ≡ RoutineMeaning
        (record {
          number = number;
          at = (heading_name written.now).from;
          sections = section_list
              (signature_of signature).0;
          result = (signature_of signature).1;
          names = map
              (spelled frame.now.reading.now.source.now)
              (all (map (section_points (frame_of frame.now) (map meaning_of known.now)) (heading_list written.now)));
          is_forward = is_forward;
        })) }
{
    let Signature { sections, result } = signature;
    let names = parameter_names(heading_list(written), frame, alloc, known)?;
    Ok(Meaning::Routine(Heading {
        number,
        at: heading_name(written).from,
        sections: SectionList::shared(alloc, sections)?,
        result,
        names,
        is_forward,
    }))
}

/// The routine's name, which hides others in its own heading.
fn own_name(written: &HeadingDenoter, frame: &Frame, alloc: Global) -> Result<Names, AllocError>
    ensures { IfOk result (λ names. names ≡ spelled frame.now.reading.now.source.now (heading_name written.now) ∷ []) }
{
    let mut names = Names::new(alloc, frame.reading.seed);
    names.add(frame.reading.name(alloc, heading_name(written))?)?;
    Ok(names)
}

/// The parameters and the result declared by a new heading.
#[tactic(auto, using(ps_check_declarations::proofs::HidingLemmas::covers_first), unfolding(ps_check_declarations::specs::Views::hidden_of))]
fn own_signature(
    written: &HeadingDenoter,
    frame: &Frame,
    alloc: Global,
    known: &[Meaning],
) -> Result<Signature, CheckFault>
    ensures { Answers result (λ s. signature_of s)
        ((heading (frame_of frame.now) (map meaning_of known.now) written.now).1
        (hidden_in_heading (frame_of frame.now) written.now)) }
{
    let own = own_name(written, frame, alloc)?;
    let place = Place {
        alloc,
        frame: *frame,
        hidden: Hidden::Own {
            names: &own,
            defined: 1,
            outer: &Hidden::Nothing,
        },
    };
    let mut hiding = HidingNames::new(alloc, frame.reading.seed);
    hiding.enter(alloc, &own)?;
    heading(written, &place, &mut hiding, known)
}

/// A new heading, with the next number.
#[tactic(auto, unfolding(crate::specs::Blocks::new_heading))]
pub fn new_heading(
    written: &HeadingDenoter,
    is_forward: bool,
    frame: &Frame,
    alloc: Global,
    local: &mut Local,
    gathered: &mut Gathered,
) -> Result<(), CheckFault>
    ensures { Answers result (λ _. routines_of local.new gathered.new)
        (new_heading (frame_of frame.now) is_forward (routines_of local.old gathered.old) written.now) }
{
    let number = next_number(gathered, heading_name(written).from)?;
    let signature = own_signature(written, frame, alloc, local.known.as_slice())?;
    let meaning = routine_meaning(
        written,
        number,
        signature,
        is_forward,
        frame,
        alloc,
        local.known.as_slice(),
    )?;
    local.known.push(meaning)?;
    gathered.routines.push(None)?;
    Ok(())
}
