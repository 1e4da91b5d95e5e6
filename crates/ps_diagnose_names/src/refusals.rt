//! The sentence of a refusal.

use crate::context::{Context, Place};
use crate::spot::Spot;
use crate::uses::other_uses;
use crate::walk::Walk;
use crate::why::Why;
use ps_diagnose::{Draft, ReportedFault, Telling};
use ps_diagnose_outline::Outline;
use ps_syntax::Program;
use ps_text::Span;
use std::alloc::{AllocError, Global};

// What a place may be the place of, and the loops around it.
fn looked_for<'a>(
    alloc: Global,
    at: u32,
    program: &'a Program,
) -> Result<(Vec<Spot<'a>>, Vec<Span>), AllocError> {
    let mut walk = Walk {
        at,
        found: Vec::new(alloc),
        controls: Vec::new(alloc),
        is_short: false,
    };
    walk.block(&program.block);
    let Walk {
        at: _,
        found,
        controls,
        is_short,
    } = walk;
    if is_short {
        Err(AllocError)
    } else {
        Ok((found, controls))
    }
}

// What is known of the place of a refusal.
fn place_of<'a>(
    alloc: Global,
    fault: ReportedFault<'a>,
    program: &'a Program,
) -> Result<Place<'a>, AllocError> {
    let outline = Outline::new(alloc, fault.source, fault.tokens, program)?;
    let uses = match fault.number {
        30 => other_uses(alloc, &outline, fault.place)?,
        _ => Vec::new(alloc),
    };
    let (spots, controls) = looked_for(alloc, fault.place.from, program)?;
    let context = Context {
        alloc,
        fault,
        outline,
        controls,
        uses,
    };
    Ok(Place { context, spots })
}

impl<'a> Place<'a> {
    // Looks for the reason of a refusal.
    fn reason(&self, why: &mut Why) -> bool {
        match self.context.fault.number {
            31 => self.context.twice(why),
            32 => self.context.hidden(why) || self.context.used_before(why),
            33 => self.context.hidden(why) || self.wrong_kind(why),
            34 => self.wrong_type(why),
            35 => self.not_assignable(why),
            36 => self.bad_subrange(why),
            37 => self.set_base(why),
            38 => self.case_twice(why),
            39 => self.control_variable(why),
            40 => self.packed_variable(why),
            41 => self.not_congruous(why),
            42 => self.context.forward_open(why),
            43 => self.context.no_result(why),
            44 => self.context.no_file(why),
            45 => self.context.limit(why),
            _ => false,
        }
    }

    // Writes what is reported for a refusal, and returns whether anything is.
    fn write(&self, out: &mut Telling) -> Result<bool, AllocError> {
        if self.context.fault.number == 30 {
            self.unknown(out)?;
            return Ok(true);
        }
        let mut why = Why::new();
        let is_known = self.reason(&mut why);
        if is_known {
            self.tell(&why, out);
        }
        Ok(is_known)
    }
}

/// What is reported for a refusal with a number from 30 to 45, before its mends are tried; nothing if no reason is
/// known.
pub fn drafted(
    alloc: Global,
    fault: &ReportedFault<'_>,
    program: &Program,
) -> Result<Option<Draft>, AllocError> {
    let own = ReportedFault {
        source: &*fault.source,
        tokens: &*fault.tokens,
        number: fault.number,
        place: fault.place,
    };
    let place = place_of(alloc, own, &*program)?;
    let mut out = Telling::new(alloc);
    let is_told = place.write(&mut out)?;
    let draft = out.finished()?;
    Ok(if is_told { Some(draft) } else { None })
}
