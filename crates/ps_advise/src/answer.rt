//! Everything that is reported for a text.

ghost use Rattle.std.specs.Prelude.{◌≡◌, [], ℕ, IfOk, List, OnOk, false};
ghost use Rattle.ps_advise.specs.Trials.{Begins, HaveMendsOf, IsAdviceOn, IsFirst, IsPlaced, IsRestOf, MayBegin};
ghost use Rattle.ps_advise.specs.Trials.{Reports};
ghost use Rattle.ps_build.specs.Refusals.{number_of, place_of};

use crate::rest::{Rest, goes_on, tell_next};
use crate::warned::warned;
use ps_build::{Refusal, build};
use ps_diagnostic::{Diagnostic, Severity};
use ps_text::Span;
use std::alloc::{AllocError, Global};

// How many faults of a text are reported.
const MOST_FAULTS: u32 = 20;

/// What is wanted besides the first fault.
#[derive(Clone, Copy)]
pub struct Wants {
    /// No further faults.
    pub first: bool,
    /// Warnings, if the text is accepted.
    pub warnings: bool,
}

/// What is reported for a text.
#[derive(Drop)]
pub struct Advice {
    /// Whether its program can be built.
    pub is_accepted: bool,
    /// The refusal and further faults, or warnings.
    pub told: Vec<Diagnostic>,
}

// The sentence for a refusal without a place.
fn sentence(refusal: Refusal) -> &'static str {
    match refusal {
        Refusal::TooLong => "the text has more than 1,048,576 bytes",
        Refusal::TooManyLines => "the text has more than 65,535 lines",
        Refusal::CodeTooLarge => "the code would have more than 1,048,576 words",
        _ => "the compiler ran out of memory",
    }
}

// Where a refusal is reported, if it has a place.
fn place_told(refusal: Refusal) -> Option<Span>
    ensures { IsPlaced (number_of refusal) (place_of refusal) result }
{
    let place = refusal.place()?;
    Some(Span {
        from: place.from,
        to: place.to,
    })
}

// The report of a refusal of which nothing more is known.
fn plain(alloc: Global, refusal: Refusal) -> Result<Diagnostic, AllocError>
    ensures mends { IfOk result (λ told. told.mends.items ≡ []) }
    ensures reports { IfOk result (Reports refusal) }
{
    Ok(Diagnostic {
        severity: Severity::Error,
        number: refusal.number(),
        name: refusal.name(),
        text: String::from_str(alloc, sentence(refusal))?,
        place: place_told(refusal),
        labels: Vec::new(alloc),
        expected: Vec::new(alloc),
        mends: Vec::new(alloc),
        notes: Vec::new(alloc),
        helps: Vec::new(alloc),
    })
}

// Reports the next fault, and returns whether there is a further one to report.
fn tell_one(
    alloc: Global,
    rest: &mut Rest,
    all: &mut Vec<Diagnostic>,
    wants: Wants,
) -> Result<bool, AllocError>
    ensures told { (text : List ℕ) → IsRestOf text rest.old → HaveMendsOf text all.old.items
        → OnOk result (HaveMendsOf text all.new.items × IsRestOf text rest.new) }
    ensures first { (refusal : Refusal) → MayBegin refusal all.old.items
        → (all.old.items ≡ [] → IsFirst refusal rest.old)
        → IfOk result (λ is_next. MayBegin refusal all.new.items × (all.new.items ≡ [] → is_next ≡ false)) }
{
    let step = tell_next(alloc, rest, all)?;
    if wants.first {
        return Ok(false);
    }
    let is_next = goes_on(alloc, rest, step)?;
    Ok(is_next)
}

// Reports one fault after another.
fn tell_each(
    alloc: Global,
    rest: &mut Rest,
    all: &mut Vec<Diagnostic>,
    wants: Wants,
) -> Result<(), AllocError>
    ensures told { (text : List ℕ) → IsRestOf text rest.old → HaveMendsOf text all.old.items
        → OnOk result (HaveMendsOf text all.new.items) }
    ensures first { (refusal : Refusal) → MayBegin refusal all.old.items
        → (all.old.items ≡ [] → IsFirst refusal rest.old) → OnOk result (MayBegin refusal all.new.items) }
{
    for _ in 0..MOST_FAULTS {
        if !tell_one(alloc, rest, all, wants)? {
            return Ok(());
        }
    }
    Ok(())
}

// The reports of a refusal; if there are none, that it is a refusal.
fn with_one(
    alloc: Global,
    mut all: Vec<Diagnostic>,
    refusal: Refusal,
) -> Result<Vec<Diagnostic>, AllocError>
    ensures told { (text : List ℕ) → HaveMendsOf text all.items → IfOk result (λ told. HaveMendsOf text told.items) }
    ensures first { MayBegin refusal all.items → IfOk result (λ told. Begins refusal told.items) }
{
    if !all.is_empty() {
        return Ok(all);
    }
    let told = plain(alloc, refusal)?;
    all.push(told)?;
    Ok(all)
}

// The reports of a refusal and of the faults after it.
fn faults_of(
    alloc: Global,
    text: &[u8],
    refusal: Refusal,
    wants: Wants,
) -> Result<Vec<Diagnostic>, AllocError>
    ensures told { IfOk result (λ told. HaveMendsOf text.now told.items) }
    ensures first { IfOk result (λ told. Begins refusal told.items) }
{
    let mut all = Vec::new(alloc);
    let mut rest = Rest::new(alloc, text, refusal)?;
    tell_each(alloc, &mut rest, &mut all, wants)?;
    with_one(alloc, all, refusal)
}

// The reports for a text that can be built.
fn warnings_of(alloc: Global, text: &[u8], wants: Wants) -> Result<Vec<Diagnostic>, AllocError>
    ensures { IfOk result (λ told. HaveMendsOf text.now told.items) }
{
    if wants.warnings {
        warned(alloc, text)
    } else {
        Ok(Vec::new(alloc))
    }
}

/// What is reported for a text: the refusal of its program, with the place, what could come there and mends that were
/// tried, and the faults after it; or warnings, if it is accepted.
pub fn advised(alloc: Global, text: &[u8], wants: Wants) -> Result<Advice, AllocError>
    ensures { IfOk result (IsAdviceOn text.now) }
{
    match build(alloc, text) {
        Ok(built) => {
            drop(built);
            Ok(Advice {
                is_accepted: true,
                told: warnings_of(alloc, text, wants)?,
            })
        }
        Err(Refusal::OutOfMemory) => Err(AllocError),
        Err(refusal) => Ok(Advice {
            is_accepted: false,
            told: faults_of(alloc, text, refusal, wants)?,
        }),
    }
}
