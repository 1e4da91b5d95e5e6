//! The reports for a text that is accepted.

ghost use Rattle.std.specs.Prelude.{IfOk};
ghost use Rattle.ps_advise.specs.Trials.{HasMendsOf, HaveMendsOf};

use crate::budget::Budget;
use crate::mends::tried_mends;
use crate::text_of::tokens_of;
use ps_diagnose::Draft;
use ps_diagnose_warnings::{Warning, warnings};
use ps_diagnostic::{Diagnostic, Severity};
use ps_parse::{ParseRefusal, parse, release};
use ps_scan::Token;
use ps_text::Source;
use std::alloc::{AllocError, Global};

// How many warnings of a text are shown.
const MOST_WARNINGS: usize = 20;

// The warnings of a text, before their mends are tried.
fn warnings_of(
    alloc: Global,
    source: &Source<'_>,
    tokens: &[Token],
) -> Result<Vec<Warning>, AllocError> {
    match parse(alloc, source, tokens) {
        Ok(program) => {
            let found = warnings(alloc, source, tokens, &program);
            release(program);
            found
        }
        Err(ParseRefusal::OutOfMemory) => Err(AllocError),
        Err(ParseRefusal::Faulty { .. }) => Ok(Vec::new(alloc)),
    }
}

// A warning with those of its mends that leave the text accepted.
fn told_of(
    alloc: Global,
    text: &[u8],
    warning: Warning,
    budget: &mut Budget,
) -> Result<Diagnostic, AllocError>
    ensures { IfOk result (HasMendsOf text.now) }
{
    let Warning {
        number,
        name,
        place,
        draft,
    } = warning;
    let Draft {
        text: sentence,
        labels,
        expects: _,
        trials,
        notes,
        helps,
    } = draft;
    Ok(Diagnostic {
        severity: Severity::Warning,
        number,
        name,
        text: sentence,
        place: Some(place),
        labels,
        expected: Vec::new(alloc),
        mends: tried_mends(alloc, text, trials, budget)?,
        notes,
        helps,
    })
}

/// The first warnings of a text that is accepted.
pub(crate) fn warned(alloc: Global, text: &[u8]) -> Result<Vec<Diagnostic>, AllocError>
    ensures { IfOk result (λ told. HaveMendsOf text.now told.items) }
{
    let mut told = Vec::new(alloc);
    let Ok(source) = Source::new(text) else {
        return Ok(told);
    };
    let tokens = tokens_of(alloc, &source)?;
    let mut budget = Budget::new(text.len());
    for warning in warnings_of(alloc, &source, tokens.as_slice())? {
        if told.len() < MOST_WARNINGS {
            told.push(told_of(alloc, text, warning, &mut budget)?)?;
        }
    }
    Ok(told)
}
