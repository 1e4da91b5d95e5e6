//! How often words and statements were executed, in one run or in several.

ghost use Rattle.std.specs.Prelude.{◌≡◌, IfOk, IfErr, IfSome, IfNone, OnErr, true};
ghost use Rattle.ps_build.specs.Runs.{RunsImage, IsRunRefused};
ghost use Rattle.ps_build.specs.Slices.{IsImageLeft};

use crate::prepared::Prepared;
use crate::sites::{Site, Sites, sites_of};
use crate::watch::{Watch, run_image_watched};
use ps_build::{Budget, Outcome, Paced, Refusal};
use risc_machine::{Machine, Stop};
use std::alloc::{AllocError, Global};

/// What was counted in the runs so far.
#[derive(Drop)]
pub struct Counts {
    pub(crate) sites: Sites,
    pub(crate) runs: u64,
    /// The steps in all.
    pub(crate) steps: u64,
    /// How often each word was executed.
    pub(crate) words: Vec<u64>,
    /// How many steps the run-time library made for each word that called it.
    pub(crate) served: Vec<u64>,
    /// How often each statement was executed, by its number minus one.
    pub(crate) done: Vec<u64>,
    // The statement of the previous word, and the last word outside the library.
    before: u32,
    caller: usize,
}

// This many zeros.
fn zeros(alloc: Global, count: usize) -> Result<Vec<u64>, AllocError> {
    let mut all = Vec::new(alloc);
    all.resize(count, 0)?;
    Ok(all)
}

// Increments a count.
#[inline(always)]
fn count(counts: &mut Vec<u64>, at: usize) {
    if let Some(found) = counts.get_mut(at) {
        *found = found.saturating_add(1);
    }
}

/// The counts before any run.
pub fn no_counts(alloc: Global, prepared: &Prepared) -> Result<Counts, AllocError> {
    let count = prepared.text.mapped.built.bytes().len() / 4;
    let sites = sites_of(alloc, &prepared.text.map, count)?;
    let words = zeros(alloc, sites.words.len())?;
    let served = zeros(alloc, sites.words.len())?;
    let done = zeros(alloc, sites.statements.len())?;
    Ok(Counts {
        sites,
        runs: 0,
        steps: 0,
        words,
        served,
        done,
        before: 0,
        caller: 0,
    })
}

impl Counts {
    // The statements that begin at a word. The word at the end of a `repeat`, whose first statement begins there too,
    // leads back to that statement alone, and so do those of all loops.
    fn begin_at(&mut self, site: Site) {
        let Some(last) = (site.statement as usize).checked_sub(1) else {
            return;
        };
        let outermost = match self.sites.statements.get(last) {
            Some(statement) => statement.outermost,
            None => return,
        };
        let first = if outermost <= self.before && self.before <= site.statement {
            self.before.saturating_add(1)
        } else {
            outermost
        };
        for number in first..=site.statement {
            count(&mut self.done, (number as usize).wrapping_sub(1));
        }
    }

    // A word is executed.
    #[inline(always)]
    fn pass(&mut self, place: usize, site: Site) {
        count(&mut self.words, place);
        if site.is_library {
            count(&mut self.served, self.caller);
        } else {
            self.caller = place;
        }
        if site.begins {
            self.begin_at(site);
        }
        self.before = site.statement;
    }
}

impl Watch for Counts {
    fn begin(&mut self, machine: &Machine) {
        let _ = machine;
        self.runs = self.runs.saturating_add(1);
        self.before = 0;
        self.caller = 0;
    }

    fn see(&mut self, machine: &Machine) {
        let place = machine.pc() as usize;
        self.steps = self.steps.saturating_add(1);
        let Some(site) = self.sites.words.get(place).copied() else {
            return;
        };
        self.pass(place, site);
    }

    fn end(&mut self, machine: &Machine, stop: Option<Stop>) {
        let _ = machine;
        let _ = stop;
    }
}

/// Runs a program as `run_image_in_slices` runs its image, and counts. What was counted before is kept.
///
/// # Errors
///
/// Those of `run_image_in_slices`.
pub fn run_counted<C: Paced>(
    alloc: Global,
    prepared: &Prepared,
    counts: &mut Counts,
    budget: Budget,
    console: &mut C,
    max_steps: u64,
) -> Result<Option<Outcome>, Refusal>
    ensures runs { IfOk result (λ end. IfSome end
        (RunsImage prepared.now.text.mapped.built budget max_steps (C.world console.old) (C.world console.new))) }
    ensures left { IfOk result (λ end. IfNone end
        (IsImageLeft prepared.now.text.mapped.built budget max_steps (C.world console.old) (C.world console.new))) }
    ensures failed { IfOk result (λ end. IfNone end (C.has_failed console.new ≡ true)) }
    ensures refused { IfErr result (IsRunRefused prepared.now.text.mapped.built budget) }
    ensures unchanged { OnErr result (C.world console.new ≡ C.world console.old) }
{
    let image = prepared.text.mapped.built.bytes();
    match run_image_watched(alloc, image, budget, console, counts, max_steps) {
        Ok(ended) => Ok(ended.outcome),
        Err(refusal) => Err(refusal),
    }
}
