//! What is reported for a refusal before mends are tried.

use crate::foreign::draft_by_table;
use crate::places::piece;
use ps_diagnose::{Draft, ReportedFault, written};
use ps_parse::{ParseRefusal, parse, release};
use ps_scan::Kind;
use std::alloc::{AllocError, Global};

// The end of the sentence that says only that a token is refused.
const PLAIN: &str = "` cannot stand here";

// Whether a rule is broken, so that the text has a tree.
fn is_of_rules(number: u8) -> bool {
    number >= 30 || number == 22
}

// What the names of the text show, if it has a tree.
fn draft_of_names(alloc: Global, fault: &ReportedFault<'_>) -> Result<Option<Draft>, AllocError> {
    match parse(alloc, fault.source, fault.tokens) {
        Ok(program) => {
            let draft = ps_diagnose_names::drafted(alloc, fault, &program);
            release(program);
            draft
        }
        Err(ParseRefusal::OutOfMemory) => Err(AllocError),
        Err(ParseRefusal::Faulty { .. }) => Ok(None),
    }
}

// The sentence if no reason is known.
fn sentence(alloc: Global, fault: &ReportedFault<'_>) -> Result<String, AllocError> {
    let token = piece(fault.source.bytes(), fault.place);
    let told = match fault.number {
        20 => "cannot stand here",
        30 => "is not declared",
        31 => "is declared twice in this block",
        _ => "is refused here",
    };
    format!(in alloc; "`{token}` {told}")
}

fn plain_draft(alloc: Global, fault: &ReportedFault<'_>) -> Result<Draft, AllocError> {
    Ok(Draft {
        text: sentence(alloc, fault)?,
        labels: Vec::new(alloc),
        expects: fault.number == 20,
        trials: Vec::new(alloc),
        notes: Vec::new(alloc),
        helps: Vec::new(alloc),
    })
}

/// Whether a sentence says only that a token is refused.
pub(crate) fn is_plain(text: &str) -> bool {
    text.ends_with(PLAIN)
}

/// Reports that a token of this kind is missing before the place.
pub(crate) fn tell_missing(
    alloc: Global,
    fault: &ReportedFault<'_>,
    kind: Kind,
    draft: &mut Draft,
) -> Result<(), AllocError> {
    ps_diagnose_tokens::missing_before(alloc, fault, written(kind).unwrap_or(""), draft)
}

/// What is reported for a fault before mends are tried.
pub(crate) fn draft_of(alloc: Global, fault: &ReportedFault<'_>) -> Result<Draft, AllocError> {
    if let Some(draft) = ps_diagnose_tokens::drafted(alloc, fault)? {
        return Ok(draft);
    }
    if let Some(draft) = draft_by_table(alloc, fault)? {
        return Ok(draft);
    }
    if is_of_rules(fault.number)
        && let Some(draft) = draft_of_names(alloc, fault)?
    {
        return Ok(draft);
    }
    plain_draft(alloc, fault)
}
