//! The front end's verdict on a text, and on a changed one.

ghost use Rattle.std.specs.Prelude.{IfOk};
ghost use Rattle.ps_diagnose.specs.Changes.{changed_from};
ghost use Rattle.ps_advise.specs.Trials.{Says};

use ps_build::{Refusal, accepted};
use ps_diagnose::changed;
use ps_diagnostic::Edit;
use std::alloc::{AllocError, Global};

/// The front end's verdict on a text.
#[derive(Clone, Copy)]
pub enum Verdict {
    /// It is accepted.
    Accepted,
    /// It is refused.
    Refused(Refusal),
}

/// The front end's verdict on a text.
pub fn verdict_on(alloc: Global, text: &[u8]) -> Result<Verdict, AllocError>
    ensures { IfOk result (Says text.now) }
{
    match accepted(alloc, text) {
        Ok(()) => Ok(Verdict::Accepted),
        Err(Refusal::OutOfMemory) => Err(AllocError),
        Err(refusal) => Ok(Verdict::Refused(refusal)),
    }
}

/// The front end's verdict on a text changed by edits.
pub fn tried(alloc: Global, text: &[u8], edits: &[Edit]) -> Result<Verdict, AllocError>
    ensures { IfOk result (Says (changed_from text.now 0 edits.now)) }
{
    let text = changed(alloc, text, edits)?;
    verdict_on(alloc, text.as_slice())
}
