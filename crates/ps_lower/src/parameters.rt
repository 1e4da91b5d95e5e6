// The parameters of a routine, moved from the temporaries in which they arrive to the frame.

ghost use Rattle.std.specs.Prelude.{ℕ, ◌≡◌, ◌++◌, ◌+◌, ◌*◌, ◌≤◌, [], ◌∷◌, suc, if◌then◌else◌, List, OnOk, IfOk};
ghost use Rattle.ps_lower_code.specs.Routines.{own_code, parameter_code, parameter_words, count_parameters};
ghost use Rattle.ps_lower_code.specs.Scopes.{Scope, beside, copy_code};
ghost use Rattle.ps_lower_layout.specs.Frames.{kind_of, kinds_of, kind_words, listed_kinds, words_of_all};
ghost use Rattle.ps_lower_layout.specs.Shapes.{shape_of, byte_count};
ghost use Rattle.ps_lower.specs.Firsts.{parameters_at};
ghost use Rattle.ps_lower.specs.Levels.{scope_of};
ghost use Rattle.ps_tree.specs.View.{type_of, formal_of, formals_of};
ghost use Rattle.tac_code.specs.declared.code.Base.TheVariants as base;
ghost use Rattle.tac_code.specs.declared.code.Instruction.TheVariants as i;

use crate::depth::{MAX_NUMBER, beside};
use crate::frame::words;
use crate::helpers::copy;
use crate::level::Level;
use crate::out::Code;
use crate::shapes::byte_count;
use ps_tree::tree::Formal;
use ps_tree::types::Ty;
use std::alloc::AllocError;
use tac_code::code::Base;

/// The number of words in which a parameter arrives.
#[tactic(auto, unfolding(ps_tree::specs::View::formal_of))]
fn parameter_words(formal: &Formal) -> u32
    ensures value { result ≡ parameter_words (kind_of (formal_of formal.now)) }
    ensures small { result ≤ 2 }
{
    match formal {
        Formal::Value(_) | Formal::Variable(_) => 1,
        Formal::Routine { .. } => 2,
    }
}

/// The words of a parameter's entry.
#[tactic(auto, unfolding(ps_tree::specs::View::formal_of))]
fn entry_words(formal: &Formal) -> u32
    requires { 4 * kind_words (kind_of (formal_of formal.now)) ≤ MAX_NUMBER }
    ensures { result ≡ kind_words (kind_of (formal_of formal.now)) }
{
    match formal {
        Formal::Value(ty) => words(ty),
        Formal::Variable(_) => 1,
        Formal::Routine { .. } => 2,
    }
}

/// A number of temporaries, plus the words of the next parameter.
fn with_parameter(count: u32, formal: &Formal) -> u32
    requires { count ≤ MAX_NUMBER }
    ensures { result ≡ count + parameter_words (kind_of (formal_of formal.now)) }
{
    count + parameter_words(formal)
}

/// The number of temporaries in which a routine's parameters arrive, its static link first.
pub fn count_parameters(formals: &[Formal]) -> u32
    requires { suc (count_parameters (kinds_of (formals_of formals.now))) ≤ MAX_NUMBER }
    ensures { result ≡ suc (count_parameters (kinds_of (formals_of formals.now))) }
{
    let mut count = 1;
    for formal in formals {
        count = with_parameter(count, formal);
    }
    count
}

/// Whether a value parameter is a word, not a structure or a set, which are passed by address.
#[tactic(auto, using(crate::proofs::Entering::array_comes), unfolding(ps_tree::specs::TypeView::type_of))]
fn is_word(ty: &Ty) -> bool
    ensures { (k : Scope) (t offset free : ℕ) → own_code k (shape_of (type_of ty.now)) t offset free
        ≡ (if result then i.Store base.Frame offset t ∷ []
        else (i.Offset free base.Frame offset (byte_count (shape_of (type_of ty.now))) ∷ copy_code k free t
        (beside free) (byte_count (shape_of (type_of ty.now))))) }
{
    match ty {
        Ty::Simple(_) | Ty::Pointer { .. } | Ty::Nil => true,
        Ty::Set { .. } | Ty::EmptySet | Ty::Text { .. } | Ty::Array { .. } | Ty::Record { .. } =>
            false,
    }
}

/// Copies a structure or a set, whose address is in t, to an entry.
fn copied(
    out: &mut Code,
    level: &Level,
    ty: &Ty,
    t: u32,
    offset: u32,
    free: u32,
) -> Result<(), AllocError>
    requires depth { free ≤ MAX_NUMBER }
    requires length { byte_count (shape_of (type_of ty.now)) ≤ MAX_NUMBER }
    ensures { OnOk result (out.new ≡ out.old ++ i.Offset free base.Frame offset (byte_count (shape_of (type_of ty.now)))
        ∷ copy_code (scope_of level.now) free t (beside free) (byte_count (shape_of (type_of ty.now)))) }
{
    let bytes = byte_count(ty);
    out.offset(free, Base::Frame, offset, bytes)?;
    copy(out, level, free, t, beside(free), bytes)
}

/// A value parameter.
fn own(
    out: &mut Code,
    level: &Level,
    ty: &Ty,
    t: u32,
    offset: u32,
    free: u32,
) -> Result<(), AllocError>
    requires depth { free ≤ MAX_NUMBER }
    requires length { byte_count (shape_of (type_of ty.now)) ≤ MAX_NUMBER }
    ensures { OnOk result (out.new ≡ out.old
        ++ own_code (scope_of level.now) (shape_of (type_of ty.now)) t offset free) }
{
    if is_word(ty) {
        return out.store(Base::Frame, offset, t);
    }
    copied(out, level, ty, t, offset, free)
}

/// A procedural or functional parameter: its routine, followed by its static link.
fn closure(out: &mut Code, t: u32, offset: u32) -> Result<(), AllocError>
    requires depth { t ≤ MAX_NUMBER }
    requires reach { offset ≤ MAX_NUMBER }
    ensures { OnOk result (out.new ≡ out.old ++ i.Store base.Frame offset t ∷ i.Store base.Frame (offset + 4) (suc t)
        ∷ []) }
{
    out.store(Base::Frame, offset, t)?;
    out.store(Base::Frame, offset + 4, t + 1)
}

/// Moves a parameter from the temporary t to an entry.
#[tactic(auto, unfolding(ps_tree::specs::View::formal_of))]
fn parameter(
    out: &mut Code,
    level: &Level,
    formal: &Formal,
    t: u32,
    offset: u32,
    free: u32,
) -> Result<(), AllocError>
    requires temporary { t ≤ MAX_NUMBER }
    requires free { free ≤ MAX_NUMBER }
    requires reach { offset ≤ MAX_NUMBER }
    requires words { 4 * kind_words (kind_of (formal_of formal.now)) ≤ MAX_NUMBER }
    ensures { OnOk result (out.new ≡ out.old ++ parameter_code (scope_of level.now)
        (kind_of (formal_of formal.now)) t offset free) }
{
    match formal {
        Formal::Value(ty) => own(out, level, ty, t, offset, free),
        Formal::Variable(_) => out.store(Base::Frame, offset, t),
        Formal::Routine { .. } => closure(out, t, offset),
    }
}

/// Moves a parameter from the temporary t to an entry at a word of the frame, and returns the word after it.
fn parameter_at(
    out: &mut Code,
    level: &Level,
    formal: &Formal,
    t: u32,
    place: u32,
    free: u32,
) -> Result<u32, AllocError>
    requires temporary { t ≤ MAX_NUMBER }
    requires free { free ≤ MAX_NUMBER }
    requires words { 4 * (place + kind_words (kind_of (formal_of formal.now))) ≤ MAX_NUMBER }
    ensures code { OnOk result
        (out.new ≡ out.old ++ parameter_code (scope_of level.now) (kind_of (formal_of formal.now)) t (4 * place) free) }
    ensures next { IfOk result (λ next. next ≡ place + kind_words (kind_of (formal_of formal.now))) }
{
    parameter(out, level, formal, t, 4 * place, free)?;
    Ok(place + entry_words(formal))
}

/// Moves the parameters of a routine to consecutive entries from a word of the frame on, and returns the word after
/// them.
pub fn parameters(
    out: &mut Code,
    level: &Level,
    formals: &[Formal],
    begin: u32,
    free: u32,
) -> Result<u32, AllocError>
    requires free { free ≤ MAX_NUMBER }
    requires total { suc (count_parameters (kinds_of (formals_of formals.now))) ≤ MAX_NUMBER }
    requires words { 4 * (begin + words_of_all (listed_kinds (kinds_of (formals_of formals.now)))) ≤ MAX_NUMBER }
    ensures code { OnOk result (out.new ≡ out.old ++ parameters_at (scope_of level.now)
        (kinds_of (formals_of formals.now)) 1 begin free) }
    ensures next { IfOk result (λ next. next ≡ begin + words_of_all
        (listed_kinds (kinds_of (formals_of formals.now)))) }
{
    let mut t = 1;
    let mut place = begin;
    for formal in formals {
        place = parameter_at(out, level, formal, t, place, free)?;
        t = with_parameter(t, formal);
    }
    Ok(place)
}
