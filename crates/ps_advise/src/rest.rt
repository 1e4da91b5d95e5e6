//! The faults of a text, one after another.

ghost use Rattle.std.specs.Prelude.{◌≡◌, [], ℕ, IfOk, IfSome, List, OnOk, Some, false, true};
ghost use Rattle.ps_advise.specs.Trials.{Begins, HasMendsOf, HaveMendsOf, IsFirst, IsRestOf, MayBegin, Reports};
ghost use Rattle.ps_build.specs.Refusals.{place_of};

use crate::budget::Budget;
use crate::drafts::is_plain;
use crate::faults::{Told, told_of_fault};
use crate::layers::Layers;
use crate::mends::Faulty;
use crate::places::{token_at, whole};
use crate::text_of::tokens_of;
use crate::trial::{Verdict, verdict_on};
use ps_build::{Place, Refusal};
use ps_diagnose::changed;
use ps_diagnostic::{Diagnostic, Edit, Mend, Outcome};
use ps_text::Source;
use std::alloc::{AllocError, Global};

/// A text after the faults that were reported, and its next one.
#[derive(Drop)]
pub(crate) struct Rest {
    text: Vec<u8>,
    // it is still the text that was given
    is_whole: bool,
    refusal: Refusal,
    layers: Layers,
    // what may be tried, and examined after faults
    budget: Budget,
    // where the routines from which a statement was removed began in the original, and those of the faults that were
    // reported
    parted: Vec<u32>,
    homes: Vec<u32>,
    home: u32,
}

impl Rest {
    /// A text and its first fault.
    pub(crate) fn new(alloc: Global, text: &[u8], refusal: Refusal) -> Result<Rest, AllocError>
        ensures whole { IfOk result (IsRestOf text.now) }
        ensures first { IfOk result (IsFirst refusal) }
    {
        Ok(Rest {
            text: Vec::from_slice(alloc, text)?,
            is_whole: true,
            refusal,
            layers: Layers::new(alloc),
            budget: Budget::new(text.len()),
            parted: Vec::new(alloc),
            homes: Vec::new(alloc),
            home: u32::MAX,
        })
    }
}

// The report of a refusal, in a text, that has a place.
fn told_at(
    alloc: Global,
    text: &[u8],
    refusal: Refusal,
    place: Place,
    budget: &mut Budget,
) -> Result<Option<Told>, AllocError>
    requires { place_of refusal ≡ Some place }
    ensures mends { IfOk result (λ found. IfSome found (λ told. HasMendsOf text.now told.diagnostic)) }
    ensures reports { IfOk result (λ found. IfSome found (λ told. Reports refusal told.diagnostic)) }
{
    let Ok(source) = Source::new(text) else {
        return Ok(None);
    };
    let tokens = tokens_of(alloc, &source)?;
    let faulty = Faulty {
        source: &source,
        tokens: tokens.as_slice(),
        at: token_at(tokens.as_slice(), place.from),
        refusal,
    };
    let told = told_of_fault(alloc, faulty, whole(text, refusal.number(), place), budget)?;
    Ok(Some(told))
}

// Moves a report on a changed text back to the places of the original. Mends are shown for the first fault alone: those
// of later ones were tried on a text that no longer has the earlier ones.
fn place_back(alloc: Global, layers: &Layers, told: &mut Diagnostic, is_whole: bool)
    ensures mends { (text : List ℕ) → (is_whole ≡ true → HasMendsOf text told.old) → HasMendsOf text told.new }
    ensures whole { is_whole ≡ true → told.new ≡ told.old }
{
    if is_whole {
        return;
    }
    if let Some(place) = told.place
        && let Some(span) = layers.span_of(place)
    {
        told.place = Some(span);
    }
    layers.move_labels(&mut told.labels);
    told.mends = Vec::new(alloc);
}

// Where the routine began in the original, if there is one.
fn first_home(layers: &Layers, home: u32) -> u32 {
    match home {
        u32::MAX => home,
        _ => layers.start_of(home).unwrap_or(u32::MAX),
    }
}

// Whether one sentence says what another one said. Where changes were left untried, one that says only that a token is
// refused stands for any that says why, too.
fn says_again(other: &str, told: &str, is_short: bool) -> bool {
    if is_short && is_plain(told) {
        other.starts_with(told)
    } else {
        other == told
    }
}

// Whether the same was reported before for a place in the same routine.
fn is_told(
    all: &[Diagnostic],
    homes: &[u32],
    told: &Diagnostic,
    home: u32,
    is_short: bool,
) -> bool {
    for (other, place) in all.iter().zip(homes.iter()) {
        if *place == home
            && other.number == told.number
            && says_again(other.text.as_str(), told.text.as_str(), is_short)
        {
            return true;
        }
    }
    false
}

// Whether a result may be unassigned only because a statement was removed.
fn is_doubtful(refusal: Refusal, parted: &[u32], home: u32) -> bool {
    refusal.number() == 43 && parted.contains(&home)
}

// Whether the best of these mends makes the text accepted.
fn is_accepted(mends: &[Mend]) -> bool {
    match mends.first() {
        Some(mend) => matches!(mend.outcome, Outcome::Accepted),
        None => false,
    }
}

// Whether a report is about something that a change put in, and so about nothing in the original.
fn is_about_change(layers: &Layers, told: &Diagnostic) -> bool {
    match told.place {
        Some(place) => layers.is_new(place.from),
        None => false,
    }
}

// Adds the report of the next fault, if that is certain and new, and returns the edits after which the text is examined
// further.
fn add_told(
    alloc: Global,
    rest: &mut Rest,
    all: &mut Vec<Diagnostic>,
    told: Told,
) -> Result<Vec<Edit>, AllocError>
    ensures told { (text : List ℕ) → HaveMendsOf text all.old.items
        → (rest.old.is_whole ≡ true → HasMendsOf text told.diagnostic)
        → OnOk result (HaveMendsOf text all.new.items) }
    ensures rest { (text : List ℕ) → IsRestOf text rest.old → IsRestOf text rest.new }
    ensures first { (refusal : Refusal) → MayBegin refusal all.old.items
        → (all.old.items ≡ [] → Reports refusal told.diagnostic × (rest.old.is_whole ≡ true))
        → OnOk result (Begins refusal all.new.items) }
{
    let Told {
        mut diagnostic,
        step,
        home,
    } = told;
    rest.home = first_home(&rest.layers, home);
    let is_about_change = is_about_change(&rest.layers, &diagnostic);
    // (the mend of the last fault makes the text accepted; what comes after a fault in something that was put in may be
    // a false one)
    let step = if is_about_change || is_accepted(diagnostic.mends.as_slice()) {
        Vec::new(alloc)
    } else {
        step
    };
    place_back(alloc, &rest.layers, &mut diagnostic, rest.is_whole);
    let is_known = is_told(
        all.as_slice(),
        rest.homes.as_slice(),
        &diagnostic,
        rest.home,
        rest.budget.is_short(),
    );
    let is_unsure = is_known
        || is_about_change
        || is_doubtful(rest.refusal, rest.parted.as_slice(), rest.home);
    // (the first one is always reported)
    if is_unsure && !all.is_empty() {
        return Ok(step);
    }
    all.push(diagnostic)?;
    rest.homes.push(rest.home)?;
    Ok(step)
}

/// Reports the next fault, if it has a place, and returns the edits after which the text is examined further.
pub(crate) fn tell_next(
    alloc: Global,
    rest: &mut Rest,
    all: &mut Vec<Diagnostic>,
) -> Result<Vec<Edit>, AllocError>
    ensures told { (text : List ℕ) → IsRestOf text rest.old → HaveMendsOf text all.old.items
        → OnOk result (HaveMendsOf text all.new.items) }
    ensures rest { (text : List ℕ) → IsRestOf text rest.old → IsRestOf text rest.new }
    ensures first { (refusal : Refusal) → MayBegin refusal all.old.items
        → (all.old.items ≡ [] → IsFirst refusal rest.old)
        → IfOk result (λ step. MayBegin refusal all.new.items × (all.new.items ≡ [] → step.items ≡ [])) }
{
    let Some(place) = rest.refusal.place() else {
        return Ok(Vec::new(alloc));
    };
    let refusal = rest.refusal;
    let found = told_at(
        alloc,
        rest.text.as_slice(),
        refusal,
        place,
        &mut rest.budget,
    )?;
    match found {
        Some(told) => add_told(alloc, rest, all, told),
        None => Ok(Vec::new(alloc)),
    }
}

// Whether a fault after another one is examined: one of the same phase, and for the grammar not in an earlier line, for
// tokens in a later one.
fn is_looked_at(refusal: Refusal, before: Refusal) -> bool {
    match (before, refusal) {
        (Refusal::Scan { place, .. }, Refusal::Scan { place: next, .. }) => next.line > place.line,
        (Refusal::Parse { place, .. }, Refusal::Parse { place: next, .. }) => {
            next.line >= place.line
        }
        (Refusal::Check { .. }, Refusal::Check { .. }) => true,
        _ => false,
    }
}

/// Goes on after a fault: returns whether there is a further one to examine.
pub(crate) fn goes_on(alloc: Global, rest: &mut Rest, step: Vec<Edit>) -> Result<bool, AllocError>
    ensures rest { (text : List ℕ) → IsRestOf text rest.old → OnOk result (IsRestOf text rest.new) }
    ensures end { IfOk result (λ is_next. step.items ≡ [] → is_next ≡ false) }
{
    if step.is_empty() || !rest.budget.takes(rest.text.len()) {
        return Ok(false);
    }
    let text = changed(alloc, rest.text.as_slice(), step.as_slice())?;
    let Verdict::Refused(refusal) = verdict_on(alloc, text.as_slice())? else {
        return Ok(false);
    };
    let is_next = is_looked_at(refusal, rest.refusal);
    rest.parted.push(rest.home)?;
    rest.layers.add(step)?;
    rest.text = text;
    rest.is_whole = false;
    rest.refusal = refusal;
    Ok(is_next)
}
