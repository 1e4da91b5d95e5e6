//! Formal and actual parameters (ISO 7185, 6.6.3).

ghost use Rattle.std.specs.Prelude.{◌≡◌, ◌&&◌, ◌++◌, [], List, map, option_map, IfOk};
ghost use Rattle.ps_tree.specs.View.{type_of, set_of, argument_of};
ghost use Rattle.ps_check_judgement.specs.Judged.{Answers};
ghost use Rattle.ps_check_names.specs.Regions.{Section as SectionOf};
ghost use Rattle.ps_check_names.specs.SectionViews.{section_of, sections_of};
ghost use Rattle.ps_check_names.specs.Views.{point_of};
ghost use Rattle.ps_check_expressions.specs.Values.{SetValue};
ghost use Rattle.ps_check_expressions.specs.Calls.{are_one_type, congruous, are_alike, times, with_parameters};
ghost use Rattle.ps_check_expressions.specs.Calls.{parameters, by_value, by_variable, unlike_routine, by_routine};
ghost use Rattle.ps_check_expressions.specs.View.{value_of, variable_of};

use crate::operators::wrong_type;
use crate::value::{TypedPlace, TypedValue, range_of};
use ps_check_judgement::answer::broken;
use ps_check_judgement::refusal::{CheckFault, Rule};
use ps_check_names::constants::misplacement;
use ps_check_names::meaning::Meaning;
use ps_check_names::scope::Found;
use ps_check_names::sections::{Section, SectionList};
use ps_tree::line::Line;
use ps_tree::tree::{Argument, SetExpr};
use ps_tree::types::{Ty, assignable, same_type};
use std::alloc::{AllocError, Global};

fn are_one_type(a: &Option<Ty>, b: &Option<Ty>) -> bool
    ensures { result ≡ are_one_type (option_map type_of a.now) (option_map type_of b.now) }
{
    match (a, b) {
        (None, None) => true,
        (Some(a), Some(b)) => same_type(a, b),
        (None | Some(_), _) => false,
    }
}

/// Whether two lists of formal parameters are congruous (6.6.3.6), found by a walk over both.
#[cycle(congruity)]
fn congruous(a: &SectionList, b: &SectionList) -> bool
    ensures { result ≡ congruous a.now b.now }
{
    are_all_alike(a.as_slice(), b.as_slice())
}

#[cycle(congruity)]
#[tactic(auto, using(crate::proofs::ParameterLemmas::congruous_uneven))]
fn are_all_alike(a: &[Section], b: &[Section]) -> bool
    ensures { result ≡ congruous (sections_of a.now) (sections_of b.now) }
{
    if a.len() != b.len() {
        return false;
    }
    for i in 0..a.len() {
        if !are_alike(&a[i], &b[i]) {
            return false;
        }
    }
    true
}

#[cycle(congruity)]
#[tactic(auto, using(ps_check_names::proofs::ViewLemmas::section_of_Routine), unfolding(crate::specs::Calls::are_alike, ps_check_names::specs::SectionViews::section_of))]
fn are_alike(a: &Section, b: &Section) -> bool
    ensures { result ≡ are_alike (section_of a.now) (section_of b.now) }
{
    match a {
        Section::Value { count: m, ty: s } => match b {
            Section::Value { count: n, ty: t } => m == n && same_type(s, t),
            Section::Variable { .. } | Section::Routine { .. } => false,
        },
        Section::Variable { count: m, ty: s } => match b {
            Section::Variable { count: n, ty: t } => m == n && same_type(s, t),
            Section::Value { .. } | Section::Routine { .. } => false,
        },
        Section::Routine {
            sections: s,
            result: r,
        } => match b {
            Section::Routine {
                sections: t,
                result: q,
            } => congruous(s, t) && are_one_type(r, q),
            Section::Value { .. } | Section::Variable { .. } => false,
        },
    }
}

/// A set passed by value, which begins at `at`.
#[tactic(auto, unfolding(crate::specs::Calls::by_value, ps_tree::specs::View::type_of, ps_tree::specs::View::argument_of))]
fn set_by_value(
    ty: &Ty,
    value: SetExpr,
    from: Ty,
    line: Line,
    at: u32,
) -> Result<Argument, CheckFault>
    ensures { Answers result (λ a. argument_of a)
        (by_value at (type_of ty.now) (SetValue (set_of value) (type_of from)) line.number) }
{
    match ty {
        Ty::Set { base, .. } => {
            if !assignable(&from, ty) {
                drop(value);
                return Err(broken(Rule::NotAssignable, at));
            }
            Ok(Argument::Set {
                value,
                low: base.low,
                high: base.high,
                line,
            })
        }
        Ty::Simple(_)
        | Ty::Pointer { .. }
        | Ty::Nil
        | Ty::EmptySet
        | Ty::Text { .. }
        | Ty::Array { .. }
        | Ty::Record { .. } => {
            drop(value);
            Err(broken(Rule::NotAssignable, at))
        }
    }
}

/// An actual parameter passed by value, for a formal one of type `ty`.
#[inline(never)]
#[tactic(auto, unfolding(crate::specs::Calls::by_value, crate::specs::View::value_of, ps_tree::specs::View::type_of, ps_tree::specs::View::argument_of))]
pub fn by_value(ty: &Ty, value: TypedValue, line: Line, at: u32) -> Result<Argument, CheckFault>
    ensures { Answers result (λ a. argument_of a) (by_value at (type_of ty.now) (value_of value) line.number) }
{
    match value {
        TypedValue::Simple(value, from) => {
            if !assignable(&from, ty) {
                drop(value);
                return Err(broken(Rule::NotAssignable, at));
            }
            let range = range_of(ty);
            Ok(Argument::Value { value, range, line })
        }
        TypedValue::Set(value, from) => set_by_value(ty, value, from, line, at),
        TypedValue::Structure(value, from) => {
            if !assignable(&from, ty) {
                drop(value);
                return Err(broken(Rule::NotAssignable, at));
            }
            let ty = ty.copy()?;
            Ok(Argument::Copy { value, ty })
        }
    }
}

/// An actual variable parameter, for a formal one of type `ty`.
#[inline(never)]
#[tactic(auto, using(ps_tree::proofs::TreeLemmas::argument_of_Variable), unfolding(crate::specs::Calls::by_variable))]
pub fn by_variable(ty: &Ty, variable: TypedPlace, at: u32) -> Result<Argument, CheckFault>
    ensures { Answers result (λ a. argument_of a) (by_variable at (type_of ty.now) (variable_of variable)) }
{
    let TypedPlace {
        place,
        ty: from,
        in_packed,
    } = variable;
    if !same_type(&from, ty) {
        return Err(wrong_type(at));
    }
    if in_packed {
        return Err(broken(Rule::PackedVariable, at));
    }
    Ok(Argument::Variable(place))
}

/// Whether two lists of formal parameters are congruous (6.6.3.6). Nearly all lists that are have codes, and the same
/// ones, so that passing a routine with a long list takes only the time to compare some words.
#[tactic(auto, using(crate::proofs::CodeLemmas::one_code_congruous))]
fn are_congruous(a: &SectionList, b: &SectionList) -> bool
    ensures { result ≡ congruous a.now b.now }
{
    a.has_code_of(b) || congruous(a, b)
}

/// Whether a routine with the first formal parameters and result may be passed where the others are required (6.6.3.4,
/// 6.6.3.5).
fn are_exchangeable(
    sections: &SectionList,
    result_type: &Option<Ty>,
    others: &SectionList,
    other: &Option<Ty>,
) -> bool
    ensures { result ≡ (congruous sections.now others.now && are_one_type (option_map type_of result_type.now)
        (option_map type_of other.now)) }
{
    are_congruous(sections, others) && are_one_type(result_type, other)
}

/// The rule broken by a routine that can't be passed as a parameter: a procedure is of another kind than a function.
fn unlike_routine(a: &Option<Ty>, b: &Option<Ty>) -> Rule
    ensures { result ≡ unlike_routine (option_map type_of a.now) (option_map type_of b.now) }
{
    match (a, b) {
        (None, None) | (Some(_), Some(_)) => Rule::NotCongruous,
        (None, Some(_)) | (Some(_), None) => Rule::WrongKind,
    }
}

/// An actual procedural or functional parameter; its name is at `at`.
#[inline(never)]
#[tactic(auto, unfolding(crate::specs::Calls::by_routine, ps_check_names::specs::Views::meaning_of, ps_tree::specs::View::argument_of))]
pub fn by_routine(
    sections: &SectionList,
    result_type: &Option<Ty>,
    found: Found<'_>,
    at: u32,
) -> Result<Argument, CheckFault>
    ensures { Answers result (λ a. argument_of a)
        (by_routine at sections.now (option_map type_of result_type.now) (point_of found.entry)) }
{
    match found {
        Found::Field { .. } => Err(broken(misplacement(&found), at)),
        Found::Name { up, meaning } => match meaning {
            Meaning::Routine(heading) => {
                if !are_exchangeable(sections, result_type, &heading.sections, &heading.result) {
                    return Err(broken(unlike_routine(result_type, &heading.result), at));
                }
                Ok(Argument::Routine {
                    routine: heading.number,
                    up,
                })
            }
            Meaning::RoutineParameter {
                entry,
                sections: others,
                result: other,
            } => {
                if !are_exchangeable(sections, result_type, others, other) {
                    return Err(broken(unlike_routine(result_type, other), at));
                }
                Ok(Argument::Formal { up, index: *entry })
            }
            Meaning::Constant { .. }
            | Meaning::Text(_)
            | Meaning::Type(_)
            | Meaning::Variable { .. }
            | Meaning::Parameter { .. }
            | Meaning::Required(_)
            | Meaning::File(_)
            | Meaning::LeftOut => Err(broken(misplacement(&found), at)),
        },
    }
}

/// Adds a section to the list once for each of its names.
fn push_times<'a>(
    list: &mut Vec<&'a Section>,
    section: &'a Section,
    count: u32,
) -> Result<(), AllocError>
    ensures { IfOk result (λ _. map (λ s. section_of s.now) list.new.items ≡ map (λ s. section_of s.now) list.old.items
        ++ times count (section_of section.now) []) }
{
    for time in 0..count {
        list.push(section)?;
    }
    Ok(())
}

/// The number of a section's formal parameters.
#[tactic(auto, using(ps_check_names::proofs::ViewLemmas::section_of_Routine), unfolding(ps_check_names::specs::SectionViews::section_of))]
fn count_of(section: &Section) -> u32
    ensures { (rest : List SectionOf) → with_parameters (section_of section.now) rest ≡ times result
        (section_of section.now) rest }
{
    match section {
        Section::Value { count, .. } | Section::Variable { count, .. } => *count,
        Section::Routine { .. } => 1,
    }
}

fn listed<'a>(alloc: Global, sections: &'a [Section]) -> Result<Vec<&'a Section>, AllocError>
    ensures { IfOk result (λ list. map (λ s. section_of s.now) list.items ≡ parameters
        (sections_of sections.entry.now)) }
{
    let mut list = Vec::new(alloc);
    for section in sections {
        push_times(&mut list, section, count_of(section))?;
    }
    Ok(list)
}

/// The formal parameters of a list, each represented by its section.
pub fn parameters<'a>(
    alloc: Global,
    sections: &'a SectionList,
) -> Result<Vec<&'a Section>, AllocError>
    ensures { IfOk result (λ list. map (λ s. section_of s.now) list.items ≡ parameters sections.entry.now) }
{
    listed(alloc, sections.as_slice())
}
