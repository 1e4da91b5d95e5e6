//! The report of one refusal.

ghost use Rattle.std.specs.Prelude.{◌≡◌, ℕ, IfOk, IfSome, List, OnOk, Some};
ghost use Rattle.ps_advise.specs.Trials.{AreGradedOf, HasMendsOf, IsMendOf, Names};

use crate::budget::Budget;
use crate::candidates::Change;
use crate::drafts::{draft_of, is_plain, tell_missing};
use crate::mends::{Faulty, Found, Graded, best_of, is_meant, mends_of, nearest_mend};
use crate::possible::{Around, around_place, expected};
use crate::routines::{function_of, routine_around};
use crate::steps::step_of;
use ps_build::{ParseFault, Refusal, Rule};
use ps_diagnose::{Draft, ReportedFault, Trial};
use ps_diagnostic::{Diagnostic, Edit, Expected, Mend, Severity};
use ps_scan::Kind;
use ps_text::Span;
use std::alloc::{AllocError, Global};
use std::mem;

/// The report of a refusal, and the edits after which the text is examined further; none if it isn't.
#[derive(Drop)]
pub(crate) struct Told {
    pub(crate) diagnostic: Diagnostic,
    pub(crate) step: Vec<Edit>,
    /// Where the routine begins in whose block the fault is, or which it reports.
    pub(crate) home: u32,
}

// Whether a refusal reports a token that no program can have there.
fn is_of_grammar(refusal: Refusal) -> bool {
    matches!(
        refusal,
        Refusal::Parse {
            fault: ParseFault::NotAProgram,
            ..
        }
    )
}

// Whether the text is accepted with one of the mends.
fn has_accepted(mends: &[Graded]) -> bool {
    for mend in mends.iter() {
        if mend.reach == u32::MAX {
            return true;
        }
    }
    false
}

// The kind of a token that is inserted right before the place.
fn missing_kind(found: &Option<Found>, at: usize) -> Option<Kind> {
    match found {
        Some(found) => match found.candidate.change {
            Change::PutIn(kind) if found.candidate.at == at => Some(kind),
            _ => None,
        },
        None => None,
    }
}

// What is reported, and the mends that were found.
#[derive(Drop)]
struct Drafted {
    draft: Draft,
    mends: Vec<Graded>,
}

// Adds a change of one token to the trials of a draft, if no reason is known or only this change makes the text
// accepted, and no advice contradicts it.
fn take_in(drafted: &mut Drafted, found: Option<Found>, was_plain: bool) -> Result<(), AllocError>
    ensures { (text : List ℕ) → AreGradedOf text drafted.old.mends.items
        → IfSome found (λ found. IsMendOf text found.mend.mend)
        → OnOk result (AreGradedOf text drafted.new.mends.items) }
{
    if let Some(found) = found
        && (found.mend.reach == u32::MAX || was_plain)
        && drafted.draft.helps.is_empty()
    {
        drafted.mends.push(found.mend)?;
    }
    Ok(())
}

// The draft of a fault, and those of its trials that get further.
fn drafted_by_reason(
    alloc: Global,
    faulty: Faulty<'_>,
    fault: &ReportedFault<'_>,
    budget: &mut Budget,
) -> Result<Drafted, AllocError>
    ensures { IfOk result (λ drafted. AreGradedOf faulty.entry.source.now drafted.mends.items) }
{
    let mut draft = draft_of(alloc, fault)?;
    let trials: Vec<Trial> = mem::replace(&mut draft.trials, Vec::new(alloc));
    let mends = mends_of(alloc, faulty, trials, budget)?;
    Ok(Drafted { draft, mends })
}

// Reports which token is missing, if one is and no reason is known.
fn tell_kind(
    alloc: Global,
    fault: &ReportedFault<'_>,
    missing: Option<Kind>,
    draft: &mut Draft,
) -> Result<(), AllocError> {
    match missing {
        Some(kind) if is_plain(draft.text.as_str()) => tell_missing(alloc, fault, kind, draft),
        _ => Ok(()),
    }
}

// The draft of a fault of the grammar, and its mends.
fn drafted_by_grammar(
    alloc: Global,
    faulty: Faulty<'_>,
    fault: &ReportedFault<'_>,
    around: &Option<Around>,
    budget: &mut Budget,
) -> Result<Drafted, AllocError>
    ensures { IfOk result (λ drafted. AreGradedOf faulty.entry.source.now drafted.mends.items) }
{
    let mut drafted = drafted_by_reason(alloc, faulty, fault, budget)?;
    let Some(around) = around else {
        return Ok(drafted);
    };
    // (a change that contradicts the advice is not shown next to it)
    if has_accepted(drafted.mends.as_slice()) || !drafted.draft.helps.is_empty() {
        return Ok(drafted);
    }
    let found = nearest_mend(alloc, faulty, around, budget)?;
    let missing = missing_kind(&found, faulty.at);
    let was_plain = is_plain(drafted.draft.text.as_str());
    tell_kind(alloc, fault, missing, &mut drafted.draft)?;
    take_in(&mut drafted, found, was_plain)?;
    Ok(drafted)
}

// Puts the report together.
fn diagnostic_of(
    refusal: Refusal,
    place: Span,
    draft: Draft,
    mends: Vec<Mend>,
    expected: Vec<Expected>,
) -> Diagnostic
    ensures mends { result.mends ≡ mends }
    ensures names { Names refusal result }
    ensures place { result.place ≡ Some place }
{
    let Draft {
        text,
        labels,
        expects: _,
        trials,
        notes,
        helps,
    } = draft;
    drop(trials);
    Diagnostic {
        severity: Severity::Error,
        number: refusal.number(),
        name: refusal.name(),
        text,
        place: Some(place),
        labels,
        expected,
        mends,
        notes,
        helps,
    }
}

// Where the routine begins in whose block the place is, or which is reported there; no offset of the text if that is
// the program.
fn home_of(alloc: Global, faulty: Faulty<'_>) -> Result<u32, AllocError> {
    let word = match faulty.refusal {
        Refusal::Check {
            rule: Rule::NoResultAssigned,
            ..
        } => function_of(faulty.tokens, faulty.at),
        _ => routine_around(alloc, faulty.tokens, faulty.at)?,
    };
    let token = match word {
        Some(word) => faulty.tokens.get(word),
        None => None,
    };
    Ok(match token {
        Some(token) => token.span.from,
        None => u32::MAX,
    })
}

// The report of a fault of the grammar.
fn told_by_grammar(
    alloc: Global,
    faulty: Faulty<'_>,
    fault: &ReportedFault<'_>,
    budget: &mut Budget,
) -> Result<Told, AllocError>
    ensures mends { IfOk result (λ told. HasMendsOf faulty.entry.source.now told.diagnostic) }
    ensures names { IfOk result (λ told. Names faulty.entry.refusal told.diagnostic) }
    ensures place { IfOk result (λ told. told.diagnostic.place ≡ Some fault.now.place) }
{
    let around = around_place(alloc, faulty.source.bytes(), faulty.tokens, faulty.at)?;
    let Drafted { draft, mends } = drafted_by_grammar(alloc, faulty, fault, &around, budget)?;
    let is_meant = is_meant(mends.as_slice());
    let mends = best_of(alloc, faulty.source.bytes(), mends)?;
    let step = if is_meant {
        step_of(alloc, faulty, mends.as_slice())?
    } else {
        Vec::new(alloc)
    };
    let expected = match &around {
        Some(around) if draft.expects => expected(alloc, around, budget)?,
        _ => Vec::new(alloc),
    };
    Ok(Told {
        diagnostic: diagnostic_of(faulty.refusal, fault.place, draft, mends, expected),
        step,
        home: home_of(alloc, faulty)?,
    })
}

// The report of another fault.
fn told_by_reason(
    alloc: Global,
    faulty: Faulty<'_>,
    fault: &ReportedFault<'_>,
    budget: &mut Budget,
) -> Result<Told, AllocError>
    ensures mends { IfOk result (λ told. HasMendsOf faulty.entry.source.now told.diagnostic) }
    ensures names { IfOk result (λ told. Names faulty.entry.refusal told.diagnostic) }
    ensures place { IfOk result (λ told. told.diagnostic.place ≡ Some fault.now.place) }
{
    let Drafted { draft, mends } = drafted_by_reason(alloc, faulty, fault, budget)?;
    let mends = best_of(alloc, faulty.source.bytes(), mends)?;
    let step = step_of(alloc, faulty, mends.as_slice())?;
    let expected = Vec::new(alloc);
    Ok(Told {
        diagnostic: diagnostic_of(faulty.refusal, fault.place, draft, mends, expected),
        step,
        home: home_of(alloc, faulty)?,
    })
}

/// The report of a refusal that has a place.
pub(crate) fn told_of_fault(
    alloc: Global,
    faulty: Faulty<'_>,
    place: Span,
    budget: &mut Budget,
) -> Result<Told, AllocError>
    ensures mends { IfOk result (λ told. HasMendsOf faulty.entry.source.now told.diagnostic) }
    ensures names { IfOk result (λ told. Names faulty.entry.refusal told.diagnostic) }
    ensures place { IfOk result (λ told. told.diagnostic.place ≡ Some place) }
{
    let fault = ReportedFault {
        source: faulty.source,
        tokens: faulty.tokens,
        number: faulty.refusal.number(),
        place,
    };
    if is_of_grammar(faulty.refusal) {
        told_by_grammar(alloc, faulty, &fault, budget)
    } else {
        told_by_reason(alloc, faulty, &fault, budget)
    }
}
