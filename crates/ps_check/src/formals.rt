//! The formal parameters of a heading: as the checked tree has them, and as entries of their routine.

ghost use Rattle.std.specs.Prelude.{◌≡◌, ◌++◌, Some, None, IfOk, IfErr, OnOk, map, option_map, replicate};
ghost use Rattle.ps_tree.specs.Tree.{ValueFormal, VariableFormal};
ghost use Rattle.ps_tree.specs.View.{type_of, formal_of, formals_of};
ghost use Rattle.ps_check_names.specs.Regions as regions;
ghost use Rattle.ps_check_names.specs.Regions.{ParameterMeaning, one_more};
ghost use Rattle.ps_check_judgement.specs.Judged.{Answers, some_or};
ghost use Rattle.ps_check_judgement.specs.declared.refusal.Rule.TheVariants.{Limit};
ghost use Rattle.ps_check_names.specs.SectionViews.{section_of, sections_of};
ghost use Rattle.ps_check.specs.Entries.{add_entry, add_parameters, add_section, add_sections, first_entry};
ghost use Rattle.ps_check.specs.Formals.{section_formals};
ghost use Rattle.ps_check.specs.Views.{entries_of};

use ps_check_judgement::answer::{broken, paired};
use ps_check_judgement::refusal::{CheckFault, Rule};
use ps_check_names::meaning::Meaning;
use ps_check_names::scope::one_more;
use ps_check_names::sections::Section;
use ps_tree::tree::Formal;
use ps_tree::types::Ty;
use std::alloc::{AllocError, Global};
use std::rc::Rc;

/// A copy of a function's result type.
pub fn copy_result(ty: &Option<Ty>) -> Result<Option<Ty>, AllocError>
    ensures { IfOk result (λ copy. option_map type_of copy ≡ option_map type_of ty.now) }
{
    match ty {
        None => Ok(None),
        Some(ty) => Ok(Some(ty.copy()?)),
    }
}

/// More value parameters of a type.
fn add_values(count: u32, ty: &Ty, formals: &mut Vec<Formal>) -> Result<(), AllocError>
    ensures { OnOk result (map formal_of formals.new.items ≡ map formal_of formals.old.items ++ replicate count
        (ValueFormal (type_of ty.now))) }
{
    for _ in 0..count {
        formals.push(Formal::Value(ty.copy()?))?;
    }
    Ok(())
}

/// More variable parameters of a type.
fn add_variables(count: u32, ty: &Ty, formals: &mut Vec<Formal>) -> Result<(), AllocError>
    ensures { OnOk result (map formal_of formals.new.items ≡ map formal_of formals.old.items ++ replicate count
        (VariableFormal (type_of ty.now))) }
{
    for _ in 0..count {
        formals.push(Formal::Variable(ty.copy()?))?;
    }
    Ok(())
}

/// The formal parameters of one more section.
#[cycle(formals)]
#[tactic(auto, using(crate::proofs::FormalLemmas::routine_pushed), unfolding(crate::specs::Formals::section_formals, ps_check_names::specs::SectionViews::section_of))]
fn add_formals(
    section: &Section,
    alloc: Global,
    formals: &mut Vec<Formal>,
) -> Result<(), AllocError>
    ensures { OnOk result (map formal_of formals.new.items ≡ map formal_of formals.old.items ++ section_formals
        (section_of section.now)) }
{
    match section {
        Section::Value { count, ty } => add_values(*count, ty, formals),
        Section::Variable { count, ty } => add_variables(*count, ty, formals),
        Section::Routine { sections, result } => {
            let inner = formals_of(sections.as_slice(), alloc)?;
            formals.push(Formal::Routine {
                formals: inner,
                result: copy_result(result)?,
            })?;
            Ok(())
        }
    }
}

/// The formal parameters of sections, one for each name.
#[cycle(formals)]
pub fn formals_of(sections: &[Section], alloc: Global) -> Result<Vec<Formal>, AllocError>
    ensures { IfOk result (λ formals. formals_of formals.items ≡ regions.formals_of (sections_of sections.now)) }
{
    let mut formals = Vec::new(alloc);
    for section in sections {
        add_formals(section, alloc, &mut formals)?;
    }
    Ok(formals)
}

/// The number of the entry after this one, if there can be one.
fn entry_behind(entry: u32, at: u32) -> Result<u32, CheckFault>
    ensures { Answers result (λ next. next) (some_or Limit at (one_more entry)) }
{
    match one_more(entry) {
        None => Err(broken(Rule::Limit, at)),
        Some(next) => Ok(next),
    }
}

/// One more value or variable parameter.
#[tactic(auto, unfolding(ps_check_names::specs::Views::meaning_of))]
fn add_parameter(ty: &Ty, entry: u32, known: &mut Vec<Meaning>, at: u32) -> Result<u32, CheckFault>
    ensures { Answers result (λ next. entries_of next known.new.items)
        (add_entry at (λ i. ParameterMeaning i (type_of ty.now)) (entries_of entry known.old.items)) }
{
    let next = entry_behind(entry, at)?;
    known.push(Meaning::Parameter {
        entry,
        ty: ty.copy()?,
    })?;
    Ok(next)
}

/// Parameters of the same type.
fn add_parameters(
    ty: &Ty,
    count: u32,
    entry: u32,
    known: &mut Vec<Meaning>,
    at: u32,
) -> Result<u32, CheckFault>
    ensures { Answers result (λ next. entries_of next known.new.items)
        (add_parameters at (type_of ty.now) count (entries_of entry known.old.items)) }
{
    let mut next = entry;
    for _ in 0..count {
        next = add_parameter(ty, next, known, at)?;
    }
    Ok(next)
}

/// The entries of one more section.
#[tactic(auto, using(crate::proofs::FormalLemmas::routine_entered), unfolding(crate::specs::Entries::add_section, ps_check_names::specs::SectionViews::section_of, ps_check_names::specs::Views::meaning_of))]
fn add_section(
    section: &Section,
    entry: u32,
    known: &mut Vec<Meaning>,
    at: u32,
) -> Result<u32, CheckFault>
    ensures { Answers result (λ next. entries_of next known.new.items)
        (add_section at (entries_of entry known.old.items) (section_of section.now)) }
{
    match section {
        Section::Value { count, ty } | Section::Variable { count, ty } => {
            add_parameters(ty, *count, entry, known, at)
        }
        Section::Routine { sections, result } => {
            let next = entry_behind(entry, at)?;
            let (sections, result) = paired(Rc::clone(sections), copy_result(result))?;
            known.push(Meaning::RoutineParameter {
                entry,
                sections,
                result,
            })?;
            Ok(next)
        }
    }
}

/// The meanings of the formal parameters, whose entries begin with this one, and the entry after them. `at` is where a
/// fault is reported.
pub fn add_sections(
    sections: &[Section],
    entry: u32,
    known: &mut Vec<Meaning>,
    at: u32,
) -> Result<u32, CheckFault>
    ensures { Answers result (λ next. entries_of next known.new.items)
        (add_sections at (entries_of entry known.old.items) (sections_of sections.now)) }
{
    let mut next = entry;
    for section in sections {
        next = add_section(section, next, known, at)?;
    }
    Ok(next)
}

/// The first entry of a routine's parameters: a function's result is entry 0.
pub fn first_entry(result_type: &Option<Ty>) -> u32
    ensures { result ≡ first_entry (option_map type_of result_type.now) }
{
    match result_type {
        None => 0,
        Some(_) => 1,
    }
}
