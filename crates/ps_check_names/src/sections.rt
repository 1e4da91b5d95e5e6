//! The sections of formal parameter lists, with a code by which two long lists are compared quickly.

ghost use Rattle.std.specs.Prelude.{◌≡◌, ◌++◌, ◌≤◌, Some, None, IfOk, IfSome, IsTrue, if◌then◌else◌, option_map};
ghost use Rattle.std.specs.Option.{option_to_list};
ghost use Rattle.ps_tree.specs.TypeView.{type_of};
ghost use Rattle.ps_check_names.specs.SectionViews.{section_of, sections_of};
ghost use Rattle.ps_check_names.specs.Codes.{ordinal_number, form, number, has_number, hosts, fits_type, first_word};
ghost use Rattle.ps_check_names.specs.Codes.{type_words, fits_result, result_words, fits_section, section_words};
ghost use Rattle.ps_check_names.specs.Codes.{code_of, have_one_code};
ghost use Rattle.ps_check_names.specs.Regions.{RoutineSection};

use crate::code::Code;
use ps_tree::types::{Host, Ordinal, Ty};
use std::alloc::{AllocError, Global};
use std::marker::Model;
use std::rc::Rc;

/// A section of a formal parameter list (6.6.3.1); `count` is the number of its names.
#[derive(Drop)]
#[cycle(sections)]
pub enum Section {
    Value {
        count: u32,
        ty: Ty,
    },
    Variable {
        count: u32,
        ty: Ty,
    },
    /// A procedural parameter, or a functional one, which has a result.
    Routine {
        sections: Rc<SectionList>,
        result: Option<Ty>,
    },
}

/// The sections of a formal parameter list, and their code: a word or two for each. A list has no code if a type or a
/// number doesn't fit into the code's words.
#[derive(Drop)]
#[cycle(sections)]
pub struct SectionList {
    list: Vec<Section>,
    code: Code,
}

impl Model for SectionList {
    ghost use Rattle.ps_check_names.specs.Regions.{Sections};
    ghost use Rattle.ps_check_names.specs.SectionCode.{sections_code};

    ghost Value = { Sections };

    ghost coded = { sections_code };

    ghost use Rattle.std.specs.Prelude.{◌≡◌};
    ghost use Rattle.ps_check_names.specs.SectionViews.{sections_of};
    ghost use Rattle.ps_check_names.specs.Codes.{code_of};

    ghost view = { λ s. sections_of s.list.items };

    ghost invariant = { λ s. s.code ≡ code_of (sections_of s.list.items) };

    ghost use Rattle.ps_check_names.specs.SectionCode.{depth};

    ghost size = { depth };

    ghost use Rattle.ps_check_names.specs.SectionDepth.{deep_in_list};

    ghost size_decreases = { λ s h. deep_in_list s.list.items };
}

// In the code of a section with a type: a value parameter's, and a variable parameter's.
const VALUE: u32 = 0;

const VARIABLE: u32 = 8;
// The words before a procedural and a functional parameter, and the one after a list.
const PROCEDURE: u32 = 15;

const FUNCTION: u32 = 14;

const END: u32 = 7;

fn ordinal_number(ordinal: Ordinal) -> u64
    ensures { result ≡ ordinal_number ordinal.subrange ordinal.host }
{
    match (ordinal.subrange, ordinal.host) {
        (Some(at), Host::Integer) => u64::from(at) * 8,
        (Some(at), Host::Char) => u64::from(at) * 8 + 1,
        (Some(at), Host::Boolean) => u64::from(at) * 8 + 2,
        (Some(at), Host::Enumeration { .. }) => u64::from(at) * 8 + 3,
        (None, Host::Integer) => 4,
        (None, Host::Char) => 5,
        (None, Host::Boolean) => 6,
        (None, Host::Enumeration { at, .. }) => u64::from(at) * 8 + 7,
    }
}

/// A type's form and its number among those of the form.
#[tactic(auto, unfolding(ps_tree::specs::TypeView::type_of, crate::specs::Codes::form, crate::specs::Codes::number, crate::specs::Codes::has_number))]
fn form_and_number(ty: &Ty) -> Option<(u32, u64)>
    ensures value { result ≡ (if has_number (type_of ty.now) then Some (form (type_of ty.now), number (type_of ty.now))
        else None) }
    ensures small { IfSome result (λ pair. pair.0 ≤ 4) }
{
    match ty {
        Ty::Simple(ordinal) => Some((0, ordinal_number(*ordinal))),
        Ty::Pointer { number } => Some((1, u64::from(*number))),
        Ty::Set { at: Some(at), .. } => Some((2, u64::from(*at))),
        Ty::Array { at, .. } => Some((3, u64::from(*at))),
        Ty::Record { at, .. } => Some((4, u64::from(*at))),
        Ty::Set { at: None, .. } | Ty::Nil | Ty::EmptySet | Ty::Text { .. } => None,
    }
}

/// The denoter of the enumerated type of which the type is a subrange.
#[tactic(auto, unfolding(ps_tree::specs::TypeView::type_of, crate::specs::Codes::hosts))]
fn host(ty: &Ty) -> Option<u32>
    ensures { option_to_list result ≡ hosts (type_of ty.now) }
{
    match ty {
        Ty::Simple(
            Ordinal {
                host: Host::Enumeration { at, .. },
                subrange: Some(_),
                ..
            },
        ) => Some(*at),
        Ty::Simple(_)
        | Ty::Pointer { .. }
        | Ty::Nil
        | Ty::Set { .. }
        | Ty::EmptySet
        | Ty::Text { .. }
        | Ty::Array { .. }
        | Ty::Record { .. } => None,
    }
}

/// The word of `count` parameters of a type, if it fits.
fn first_word(ty: &Ty, count: u32, kind: u32) -> Option<u32>
    requires { kind ≤ 8 }
    ensures { result ≡ (if fits_type count (type_of ty.now) then Some (first_word count kind (type_of ty.now))
        else None) }
{
    let (form, number) = form_and_number(ty)?;
    if count == 0 || 32 < count || 8_388_608 <= number {
        return None;
    }
    Some((number as u32 * 32 + (count - 1)) * 16 + (form + kind))
}

/// Adds the words of `count` parameters of a type. Returns whether they fit.
fn add_type(ty: &Ty, count: u32, kind: u32, code: &mut Vec<u32>) -> Result<bool, AllocError>
    requires { kind ≤ 8 }
    ensures fits { IfOk result (λ fits. fits ≡ fits_type count (type_of ty.now)) }
    ensures words { IfOk result (λ fits. IsTrue fits → code.new.items ≡ code.old.items ++ type_words count kind
        (type_of ty.now)) }
{
    let Some(word) = first_word(ty, count, kind) else {
        return Ok(false);
    };
    code.push(word)?;
    if let Some(at) = host(ty) {
        code.push(at)?;
    }
    Ok(true)
}

/// Adds the words before the list of a routine with this result. Returns whether they fit.
fn add_result(result_type: &Option<Ty>, code: &mut Vec<u32>) -> Result<bool, AllocError>
    ensures fits { IfOk result (λ fits. fits ≡ fits_result (option_map type_of result_type.now)) }
    ensures words { IfOk result (λ fits. IsTrue fits → code.new.items ≡ code.old.items ++ result_words
        (option_map type_of result_type.now)) }
{
    match result_type {
        None => {
            code.push(PROCEDURE)?;
            Ok(true)
        }
        Some(ty) => {
            code.push(FUNCTION)?;
            add_type(ty, 1, VALUE, code)
        }
    }
}

/// Adds the words of a procedural or functional parameter. Returns whether they fit.
#[tactic(auto, using(crate::proofs::CodeLemmas::no_code, crate::proofs::CodeLemmas::some_code, crate::proofs::CodeLemmas::code_is), unfolding(crate::specs::Codes::fits_section, crate::specs::Codes::section_words))]
fn add_routine(
    sections: &SectionList,
    result_type: &Option<Ty>,
    code: &mut Vec<u32>,
) -> Result<bool, AllocError>
    ensures fits { IfOk result (λ fits. fits ≡ fits_section (RoutineSection sections.now
        (option_map type_of result_type.now))) }
    ensures words { IfOk result (λ fits. IsTrue fits → code.new.items ≡ code.old.items ++ section_words
        (RoutineSection sections.now (option_map type_of result_type.now))) }
{
    if sections.code().is_empty() {
        return Ok(false);
    }
    if !add_result(result_type, code)? {
        return Ok(false);
    }
    code.extend_from_slice(sections.code())?;
    Ok(true)
}

/// Adds a section's words. Returns whether they fit.
#[tactic(auto, unfolding(crate::specs::SectionViews::section_of, crate::specs::Codes::fits_section, crate::specs::Codes::section_words))]
fn add_section(section: &Section, code: &mut Vec<u32>) -> Result<bool, AllocError>
    ensures fits { IfOk result (λ fits. fits ≡ fits_section (section_of section.now)) }
    ensures words { IfOk result (λ fits. IsTrue fits → code.new.items ≡ code.old.items ++ section_words
        (section_of section.now)) }
{
    match section {
        Section::Value { count, ty } => add_type(ty, *count, VALUE, code),
        Section::Variable { count, ty } => add_type(ty, *count, VARIABLE, code),
        Section::Routine { sections, result } => add_routine(sections, result, code),
    }
}

/// The number of a section's words, if they fit.
fn word_count(section: &Section) -> usize {
    match section {
        Section::Value { ty, .. } | Section::Variable { ty, .. } => {
            if host(ty).is_some() { 2 } else { 1 }
        }
        Section::Routine { sections, .. } => sections.code().len().saturating_add(3),
    }
}

/// The number of the words of these sections, if they fit. A list within many others is copied for each of them, so
/// room must not be made for it twice.
fn word_counts(list: &[Section]) -> usize {
    let mut total: usize = 1;
    for section in list {
        total = total.saturating_add(word_count(section));
    }
    total
}

/// The code of these sections; no words if one doesn't fit.
fn code_of(alloc: Global, list: &[Section]) -> Result<Vec<u32>, AllocError>
    ensures { IfOk result (λ words. words.items ≡ code_of (sections_of list.now)) }
{
    let mut words = Vec::with_capacity(alloc, word_counts(list))?;
    for section in list {
        if !add_section(section, &mut words)? {
            return Ok(Vec::new(alloc));
        }
    }
    words.push(END)?;
    Ok(words)
}

impl SectionList {
    /// The list of these sections, in this order, to be shared.
    pub fn shared(alloc: Global, list: Vec<Section>) -> Result<Rc<SectionList>, AllocError>
        ensures { IfOk result (λ sections. sections.value ≡ sections_of list.items) }
    {
        let words = code_of(alloc, list.as_slice())?;
        let code = Code::new(alloc, words)?;
        let sections = Rc::new(alloc, SectionList { list, code })?;
        Ok(sections)
    }

    /// The sections, in their order.
    pub fn as_slice(&self) -> &[Section]
        ensures { sections_of result.now ≡ self.now }
    {
        self.list.as_slice()
    }

    fn code(&self) -> &[u32]
        ensures { result.now ≡ code_of self.now }
    {
        self.code.as_slice()
    }

    /// Whether both lists have a code, and it is the same. Such lists are congruous (6.6.3.6).
    #[tactic(auto, unfolding(crate::specs::Codes::have_one_code))]
    pub fn has_code_of(&self, other: &SectionList) -> bool
        ensures { result ≡ have_one_code self.now other.now }
    {
        !self.code().is_empty() && self.code.equals(&other.code)
    }
}
