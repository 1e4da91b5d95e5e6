//! Mends: changes of a text that were tried and get further.

ghost use Rattle.std.specs.Prelude.{◌≡◌, ℕ, List, IfOk, IfSome, unwrap_or};
ghost use Rattle.ps_build.specs.Refusals.{line_of};
ghost use Rattle.ps_diagnose.specs.Changes.{changed_from};
ghost use Rattle.ps_advise.specs.Trials.{AreGradedOf, AreMendsOf, IsMendOf, Says, Tells};

use crate::blank::is_overclosed;
use crate::budget::Budget;
use crate::candidates::{
    Candidate, Change, NEAREST, PUT_HERE, candidates_near, edit_of, is_doubled, reach_of,
};
use crate::places::{kind_at, piece, position, slice, token_before};
use crate::possible::Around;
use crate::trial::{Verdict, tried};
use ps_build::Refusal;
use ps_diagnose::{Trial, written};
use ps_diagnostic::{Edit, Mend, Outcome};
use ps_scan::{Kind, Token};
use ps_text::{Source, Span};
use std::alloc::{AllocError, Global};

// How many changes of one token are tried on the whole text.
const MOST_TRIED: usize = 24;

// How many mends are shown.
const MOST_TOLD: usize = 2;

/// A text that is refused at the token with this number.
#[derive(Clone, Copy)]
pub(crate) struct Faulty<'a> {
    pub(crate) source: &'a Source<'a>,
    pub(crate) tokens: &'a [Token],
    pub(crate) at: usize,
    pub(crate) refusal: Refusal,
}

/// A mend, and how good it is: how far it gets, and how far it is from what was meant.
#[derive(Drop)]
pub(crate) struct Graded {
    pub(crate) mend: Mend,
    pub(crate) reach: u32,
    pub(crate) cost: u32,
}

// The phase of the front end that reports a refusal.
fn phase_of(refusal: Refusal) -> u32 {
    match refusal {
        Refusal::Scan { .. } => 1,
        Refusal::Parse { .. } => 2,
        Refusal::Check { .. } => 3,
        _ => 0,
    }
}

fn line_of(refusal: Refusal) -> u32
    ensures { result ≡ unwrap_or (line_of refusal) 0 }
{
    refusal.line().unwrap_or(0)
}

// How far a text gets: a later phase is further than any line.
fn reach_of_verdict(verdict: Verdict) -> u32 {
    match verdict {
        Verdict::Accepted => u32::MAX,
        Verdict::Refused(refusal) => phase_of(refusal)
            .saturating_mul(100_000)
            .saturating_add(line_of(refusal)),
    }
}

// How far a text gets at least that is refused later than this: in a later line, or in a later phase.
fn reach_behind(refusal: Refusal) -> u32 {
    reach_of_verdict(Verdict::Refused(refusal)).saturating_add(1)
}

// What is reported for a text that was tried.
fn outcome_of(verdict: Verdict) -> Outcome
    ensures { (text : List ℕ) → Says text verdict → Tells text result }
{
    match verdict {
        Verdict::Accepted => Outcome::Accepted,
        Verdict::Refused(refusal) => Outcome::FaultAt(line_of(refusal)),
    }
}

// The mend of these edits, given the front end's verdict on the resulting text.
fn mend_of(source: &[u8], text: String, edits: Vec<Edit>, verdict: Verdict) -> Mend
    requires { Says (changed_from source.now 0 edits.items) verdict }
    ensures { IsMendOf source.now result }
{
    let _ = source;
    Mend {
        text,
        edits,
        outcome: outcome_of(verdict),
    }
}

// Tries edits of a text that is refused, and keeps them if they get as far as this.
fn tried_mend(
    alloc: Global,
    source: &[u8],
    least: u32,
    trial: Trial,
) -> Result<Option<Graded>, AllocError>
    ensures { IfOk result (λ found. IfSome found (λ graded. IsMendOf source.now graded.mend)) }
{
    let Trial { text, edits, cost } = trial;
    let verdict = tried(alloc, source, edits.as_slice())?;
    let reach = reach_of_verdict(verdict);
    if reach < least {
        return Ok(None);
    }
    Ok(Some(Graded {
        mend: mend_of(source, text, edits, verdict),
        reach,
        cost,
    }))
}

/// Those of these changes that get further, as many as may be tried.
pub(crate) fn mends_of(
    alloc: Global,
    faulty: Faulty<'_>,
    trials: Vec<Trial>,
    budget: &mut Budget,
) -> Result<Vec<Graded>, AllocError>
    ensures { IfOk result (λ mends. AreGradedOf faulty.entry.source.now mends.items) }
{
    let mut mends = Vec::new(alloc);
    let source = faulty.source.bytes();
    let least = reach_behind(faulty.refusal);
    for trial in trials {
        if budget.takes(source.len())
            && let Some(mend) = tried_mend(alloc, source, least, trial)?
        {
            mends.push(mend)?;
        }
    }
    Ok(mends)
}

// Tries edits of a text that is accepted, and keeps them if the resulting text is accepted too.
fn kept(alloc: Global, source: &[u8], trial: Trial) -> Result<Option<Mend>, AllocError>
    ensures { IfOk result (λ found. IfSome found (λ mend. IsMendOf source.now mend)) }
{
    let Trial { text, edits, .. } = trial;
    match tried(alloc, source, edits.as_slice())? {
        Verdict::Accepted => Ok(Some(mend_of(source, text, edits, Verdict::Accepted))),
        Verdict::Refused(_) => Ok(None),
    }
}

/// Those of these changes of an accepted text that leave it accepted, as many as may be tried.
pub(crate) fn tried_mends(
    alloc: Global,
    source: &[u8],
    trials: Vec<Trial>,
    budget: &mut Budget,
) -> Result<Vec<Mend>, AllocError>
    ensures { IfOk result (λ mends. AreMendsOf source.now mends.items) }
{
    let mut mends = Vec::new(alloc);
    for trial in trials {
        if mends.len() < MOST_TOLD
            && budget.takes(source.len())
            && let Some(mend) = kept(alloc, source, trial)?
        {
            mends.push(mend)?;
        }
    }
    Ok(mends)
}

// A change of one token, in words.
fn words_of(alloc: Global, faulty: Faulty<'_>, candidate: Candidate) -> Result<String, AllocError> {
    match candidate.change {
        Change::LeaveOut => words_of_exchange(alloc, faulty, candidate.at, None),
        Change::Exchange(kind) => {
            let new = written(kind).unwrap_or("");
            words_of_exchange(alloc, faulty, candidate.at, Some(new))
        }
        Change::PutIn(kind) => words_of_put(alloc, faulty, candidate.at, kind),
    }
}

// What replaces a token, in words; if nothing does, the token is removed.
fn words_of_exchange(
    alloc: Global,
    faulty: Faulty<'_>,
    at: usize,
    new: Option<&str>,
) -> Result<String, AllocError> {
    let text = faulty.source.bytes();
    let (old, from) = match faulty.tokens.get(at) {
        Some(token) => (piece(text, token.span), token.span.from),
        None => ("", 0),
    };
    let place = position(alloc, text, from)?;
    match new {
        Some(new) => format!(in alloc; "write `{new}` instead of `{old}` at {place}"),
        None => format!(in alloc; "remove `{old}` at {place}"),
    }
}

// What is inserted before a token, in words: after the token before that.
fn words_of_put(
    alloc: Global,
    faulty: Faulty<'_>,
    at: usize,
    kind: Kind,
) -> Result<String, AllocError> {
    let text = faulty.source.bytes();
    let new = written(kind).unwrap_or("");
    match token_before(faulty.tokens, at) {
        Some(token) => {
            let old = piece(text, token.span);
            let place = position(alloc, text, token.span.to)?;
            format!(in alloc; "put `{new}` after `{old}` at {place}")
        }
        None => format!(in alloc; "put `{new}` at 1:1"),
    }
}

// Whether a line ends between a place and the token with this number after it.
fn is_lines_on(faulty: Faulty<'_>, around: &Around, reach: usize) -> bool {
    let Some(behind) = reach.checked_sub(around.before.len()) else {
        return false;
    };
    let last = faulty.at.saturating_add(behind);
    let (Some(first), Some(last)) = (faulty.tokens.get(faulty.at), faulty.tokens.get(last)) else {
        return behind > 0;
    };
    if behind >= around.behind.len() {
        return behind > 0;
    }
    let between = faulty
        .source
        .bytes()
        .get(first.span.from as usize..last.span.from as usize)
        .unwrap_or(&[]);
    between.contains(&b'\n')
}

// Whether a line ends between the token with this number and the one before it.
fn begins_line(faulty: Faulty<'_>) -> bool {
    let (Some(before), Some(token)) = (
        token_before(faulty.tokens, faulty.at),
        faulty.tokens.get(faulty.at),
    ) else {
        return false;
    };
    let between = Span {
        from: before.span.to,
        to: token.span.from,
    };
    slice(faulty.source.bytes(), between).contains(&b'\n')
}

// Whether a change separates a statement or a condition from what comes after it in the next line: that is missing,
// whatever else is wrong in that line.
fn parts_lines(faulty: Faulty<'_>, candidate: Candidate) -> bool {
    candidate.at == faulty.at
        && matches!(
            candidate.change,
            Change::PutIn(Kind::Semicolon | Kind::Then | Kind::Do)
        )
        && begins_line(faulty)
}

// Whether a change gets far enough to be tried on the whole text.
fn is_hopeful(faulty: Faulty<'_>, around: &Around, hopeful: Hopeful) -> bool {
    is_lines_on(faulty, around, hopeful.reach)
        || (hopeful.reach > around.before.len() && parts_lines(faulty, hopeful.candidate))
}

/// A change of one token that gets further, judged by the tokens, and how far.
#[derive(Clone, Copy)]
struct Hopeful {
    candidate: Candidate,
    reach: usize,
}

// Those of the changes of one token that get far enough, the furthest first.
fn hopefuls_near(
    alloc: Global,
    faulty: Faulty<'_>,
    around: &Around,
    budget: &mut Budget,
) -> Result<Vec<Hopeful>, AllocError> {
    let mut found = Vec::new(alloc);
    let Ok(source) = Source::new(around.text.as_slice()) else {
        return Ok(found);
    };
    let count = around.before.len().saturating_add(around.behind.len());
    let candidates = candidates_near(alloc, faulty.tokens, faulty.at)?;
    let most = budget.changes(candidates.len(), count);
    for candidate in candidates.iter().take(most) {
        let hopeful = Hopeful {
            candidate: *candidate,
            reach: reach_of(alloc, &source, around, faulty.at, *candidate)?,
        };
        if is_hopeful(faulty, around, hopeful) {
            found.push(hopeful)?;
        }
    }
    found.sort_by_key(|hopeful| usize::MAX.saturating_sub(hopeful.reach))?;
    Ok(found)
}

/// The change of one token that gets furthest, and its result.
#[derive(Drop)]
pub(crate) struct Found {
    pub(crate) mend: Graded,
    pub(crate) candidate: Candidate,
}

// A change of one token, in the form in which it is tried.
fn trial_of(alloc: Global, faulty: Faulty<'_>, candidate: Candidate) -> Result<Trial, AllocError> {
    let mut edits = Vec::new(alloc);
    edits.push(edit_of(alloc, faulty.tokens, candidate)?)?;
    Ok(Trial {
        text: words_of(alloc, faulty, candidate)?,
        edits,
        cost: candidate.cost,
    })
}

// Tries a change of one token, if the budget allows it.
fn try_candidate(
    alloc: Global,
    faulty: Faulty<'_>,
    candidate: Candidate,
    budget: &mut Budget,
) -> Result<Option<Graded>, AllocError>
    ensures { IfOk result (λ found. IfSome found (λ graded. IsMendOf faulty.entry.source.now graded.mend)) }
{
    if !budget.takes(faulty.source.bytes().len()) {
        return Ok(None);
    }
    let trial = trial_of(alloc, faulty, candidate)?;
    let least = least_reach(faulty, candidate);
    match tried_mend(alloc, faulty.source.bytes(), least, trial)? {
        Some(graded) if !is_doubtful(&graded, faulty, candidate) => Ok(Some(graded)),
        _ => Ok(None),
    }
}

// How far a change of one token has to get: past the line of the fault, unless it separates that line from the one
// before.
fn least_reach(faulty: Faulty<'_>, candidate: Candidate) -> u32 {
    if parts_lines(faulty, candidate) {
        reach_of_verdict(Verdict::Refused(faulty.refusal))
    } else {
        reach_behind(faulty.refusal)
    }
}

// Whether a change leaves the text refused and another one was more likely meant: the new fault is in the same line as
// before, or the change got further by what it removed or opened.
fn is_doubtful(graded: &Graded, faulty: Faulty<'_>, candidate: Candidate) -> bool {
    match graded.mend.outcome {
        Outcome::FaultAt(_) if parts_lines(faulty, candidate) => false,
        Outcome::FaultAt(line) => {
            line == line_of(faulty.refusal) || is_unlikely(faulty.tokens, candidate)
        }
        Outcome::Accepted => false,
    }
}

// Whether a change may get further without being what was meant: it removes something that isn't doubled, joins two
// statements, or opens something in which much can stand, without need.
fn is_unlikely(tokens: &[Token], candidate: Candidate) -> bool {
    let at = candidate.at;
    match candidate.change {
        Change::LeaveOut => !is_doubled(tokens, at),
        Change::Exchange(_) if matches!(kind_at(tokens, at), Some(Kind::Semicolon)) => true,
        Change::Exchange(Kind::End | Kind::Caret) => true,
        Change::PutIn(Kind::Begin) | Change::Exchange(Kind::Begin) => true,
        Change::PutIn(Kind::LeftParen) | Change::Exchange(Kind::LeftParen) => {
            !is_overclosed(tokens, at, Kind::LeftParen, Kind::RightParen)
        }
        Change::PutIn(Kind::LeftBracket) | Change::Exchange(Kind::LeftBracket) => {
            !is_overclosed(tokens, at, Kind::LeftBracket, Kind::RightBracket)
        }
        _ => false,
    }
}

// Whether a mend is better than what was found before.
fn is_better(mend: &Graded, found: &Option<Found>) -> bool {
    match found {
        Some(found) => mend.reach > found.mend.reach,
        None => true,
    }
}

/// The change of one token near the place that gets furthest, of as many as may be tried; if several make the text
/// accepted, the nearest of them.
pub(crate) fn nearest_mend(
    alloc: Global,
    faulty: Faulty<'_>,
    around: &Around,
    budget: &mut Budget,
) -> Result<Option<Found>, AllocError>
    ensures { IfOk result (λ found. IfSome found (λ found. IsMendOf faulty.entry.source.now found.mend.mend)) }
{
    let mut found = None;
    let hopefuls = hopefuls_near(alloc, faulty, around, budget)?;
    for hopeful in hopefuls.iter().take(MOST_TRIED) {
        let candidate = hopeful.candidate;
        if let Some(mend) = try_candidate(alloc, faulty, candidate, budget)?
            && is_better(&mend, &found)
        {
            let is_best = mend.reach == u32::MAX;
            found = Some(Found { mend, candidate });
            if is_best {
                break;
            }
        }
    }
    Ok(found)
}

/// Whether the best of these mends is surely what was meant, so that the faults after it are faults of the text: a
/// reason suggests it, or it inserts what is missing at the place.
pub(crate) fn is_meant(mends: &[Graded]) -> bool {
    let mut reach: u32 = 0;
    let mut cost: u32 = u32::MAX;
    for mend in mends.iter() {
        if mend.reach > reach || (mend.reach == reach && mend.cost < cost) {
            reach = mend.reach;
            cost = mend.cost;
        }
    }
    cost < NEAREST || cost == PUT_HERE
}

// Whether one more mend is shown after this many: next to a mend that makes the text accepted, none that doesn't.
fn is_shown(count: usize, reach: u32, is_accepted: bool) -> bool {
    count < MOST_TOLD && (reach == u32::MAX || !is_accepted)
}

/// The best of these mends of a text, in the order in which they are shown: next to one that makes the text accepted,
/// none that doesn't.
pub(crate) fn best_of(
    alloc: Global,
    source: &[u8],
    mut mends: Vec<Graded>,
) -> Result<Vec<Mend>, AllocError>
    requires { AreGradedOf source.now mends.items }
    ensures { IfOk result (λ told. AreMendsOf source.now told.items) }
{
    let _ = source;
    mends.sort_by_key(|mend| (u32::MAX.saturating_sub(mend.reach), mend.cost))?;
    let is_accepted = match mends.first() {
        Some(mend) => mend.reach == u32::MAX,
        None => false,
    };
    let mut told = Vec::new(alloc);
    for graded in mends {
        let Graded { mend, reach, .. } = graded;
        if is_shown(told.len(), reach, is_accepted) {
            told.push(mend)?;
        }
    }
    Ok(told)
}
