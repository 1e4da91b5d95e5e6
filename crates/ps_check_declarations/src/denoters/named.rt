//! Types and constants named at places where no enclosing definition hides them.

ghost use Rattle.std.specs.Prelude.{map};
ghost use Rattle.ps_tree.specs.View.{type_of};
ghost use Rattle.ps_check_judgement.specs.Judged.{Answers};
ghost use Rattle.ps_check_names.specs.Spelling.{spelled};
ghost use Rattle.ps_check_names.specs.Constants.{constant};
ghost use Rattle.ps_check_names.specs.Views.{scope_of, point_of, meaning_of, constant_of};
ghost use Rattle.ps_check_declarations.specs.Denoters.{regions, passes, passes_in, type_at, type_named};
ghost use Rattle.ps_check_declarations.specs.Hiding.{Covers};
ghost use Rattle.ps_check_declarations.specs.Views.{frame_of, hidden_of};

use crate::frame::{Frame, Hidden, Place};
use crate::hiding::HidingNames;
use ps_check_judgement::answer::broken;
use ps_check_judgement::refusal::CheckFault;
use ps_check_names::constants::{ConstantValue, constant, misplacement};
use ps_check_names::meaning::Meaning;
use ps_check_names::reading::Reading;
use ps_check_names::scope::{Found, Scope, within_own};
use ps_syntax::Constant;
use ps_text::Span;
use ps_tree::types::Ty;
use std::alloc::Global;

/// Checks that a name at an offset is not hidden by a definition that encloses the place.
#[tactic(auto, unfolding(crate::specs::Denoters::passes, crate::specs::Views::hidden_of))]
fn passes(hidden: &Hidden, name: &[u8], at: u32) -> Result<(), CheckFault>
    ensures { Answers result (λ _. tt) (passes (hidden_of hidden.now) name.now at) }
{
    match hidden {
        Hidden::Nothing => Ok(()),
        Hidden::Own {
            names,
            defined,
            outer,
        } => match names.find(name) {
            None => passes(outer, name, at),
            Some(index) => Err(broken(within_own(index, *defined), at)),
        },
    }
}

/// The same, if these are the names that hide others: only a name among them is looked up in one region after another.
#[tactic(auto, using(crate::proofs::HidingLemmas::uncovered_passes))]
fn pass_hiding(
    hidden: &Hidden,
    hiding: &HidingNames,
    name: &[u8],
    at: u32,
) -> Result<(), CheckFault>
    requires { Covers hiding.now (hidden_of hidden.now) }
    ensures { Answers result (λ _. tt) (passes (hidden_of hidden.now) name.now at) }
{
    if hiding.contains(name) {
        passes(hidden, name, at)
    } else {
        Ok(())
    }
}

/// The same for the name at this span.
#[tactic(auto, unfolding(crate::specs::Denoters::passes, crate::specs::Views::hidden_of))]
pub(super) fn pass_hidden(
    reading: &Reading,
    alloc: Global,
    hidden: &Hidden,
    hiding: &HidingNames,
    name: Span,
) -> Result<(), CheckFault>
    requires { Covers hiding.now (hidden_of hidden.now) }
    ensures { Answers result (λ _. tt) (passes (hidden_of hidden.now) (spelled reading.now.source.now name) name.from) }
{
    match hidden {
        Hidden::Nothing => Ok(()),
        Hidden::Own { .. } => {
            let spelling = reading.spelling(alloc, name)?;
            pass_hiding(hidden, hiding, spelling.as_slice(), name.from)
        }
    }
}

/// The type denoted by a name for which this was found.
#[tactic(auto, unfolding(crate::specs::Denoters::type_at, ps_check_names::specs::Views::meaning_of))]
fn type_at(found: &Found, at: u32) -> Result<Ty, CheckFault>
    ensures { Answers result (λ ty. type_of ty) (type_at at (point_of found.now)) }
{
    match found {
        Found::Name { meaning, .. } => match meaning {
            Meaning::Type(ty) => Ok(ty.copy()?),
            Meaning::Constant { .. }
            | Meaning::Text(_)
            | Meaning::Variable { .. }
            | Meaning::Parameter { .. }
            | Meaning::RoutineParameter { .. }
            | Meaning::Routine(_)
            | Meaning::Required(_)
            | Meaning::File(_)
            | Meaning::LeftOut => Err(broken(misplacement(found), at)),
        },
        Found::Field { .. } => Err(broken(misplacement(found), at)),
    }
}

/// The type that a name denotes.
fn type_named(reading: &Reading, alloc: Global, scope: &Scope, name: Span) -> Result<Ty, CheckFault>
    ensures { Answers result (λ ty. type_of ty) (type_named reading.now.source.now (scope_of scope.now) name) }
{
    let found = reading.denoted(alloc, scope, name)?;
    type_at(&found, name.from)
}

/// The type that a name denotes at a place in a block.
#[tactic(auto, using(crate::proofs::HiddenLemmas::type_named_past), unfolding(ps_check_names::specs::Views::scope_of))]
pub(crate) fn type_in(
    place: &Place,
    hiding: &HidingNames,
    known: &[Meaning],
    name: Span,
) -> Result<Ty, CheckFault>
    requires { Covers hiding.now (hidden_of place.now.hidden) }
    ensures { Answers result (λ ty. type_of ty)
        (type_named place.now.frame.reading.now.source.now
        (regions (frame_of place.now.frame) (hidden_of place.now.hidden) (map meaning_of known.now)) name) }
{
    let Frame {
        reading,
        routine,
        names,
        outer,
        ..
    } = place.frame;
    pass_hidden(reading, place.alloc, &place.hidden, hiding, name)?;
    let scope = Scope::Block {
        routine,
        names,
        known,
        outer,
    };
    type_named(reading, place.alloc, &scope, name)
}

/// Checks that the constant is not one of the hidden names.
#[tactic(auto, unfolding(crate::specs::Denoters::passes_in))]
fn pass_hidden_in(
    reading: &Reading,
    alloc: Global,
    hidden: &Hidden,
    hiding: &HidingNames,
    written: Constant,
) -> Result<(), CheckFault>
    requires { Covers hiding.now (hidden_of hidden.now) }
    ensures { Answers result (λ _. tt) (passes_in reading.now.source.now (hidden_of hidden.now) written) }
{
    match written {
        Constant::Number(..) | Constant::Text(_) => Ok(()),
        Constant::Name(_, name) => pass_hidden(reading, alloc, hidden, hiding, name),
    }
}

/// A constant at a place in a block.
#[tactic(auto, using(crate::proofs::HiddenLemmas::constant_past), unfolding(ps_check_names::specs::Views::scope_of))]
pub(crate) fn constant_in(
    place: &Place,
    hiding: &HidingNames,
    known: &[Meaning],
    written: Constant,
) -> Result<ConstantValue, CheckFault>
    requires { Covers hiding.now (hidden_of place.now.hidden) }
    ensures { Answers result (λ value. constant_of value)
        (constant place.now.frame.reading.now.source.now
        (regions (frame_of place.now.frame) (hidden_of place.now.hidden) (map meaning_of known.now)) written) }
{
    let Frame {
        reading,
        routine,
        names,
        outer,
        ..
    } = place.frame;
    pass_hidden_in(reading, place.alloc, &place.hidden, hiding, written)?;
    let scope = Scope::Block {
        routine,
        names,
        known,
        outer,
    };
    constant(reading, place.alloc, &scope, written)
}
