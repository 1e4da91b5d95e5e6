//! Follows a run statement by statement.

use crate::heads::{Head, head_told};
use crate::naming::{Frame, Frames, Named, Stretch, found_at};
use crate::notes::{Act, Notes};
use crate::sites::{Site, Sites, Statement};
use crate::telling::{CUT, CUT_OBJECT, Change, Done, Extent, object_told, told};
use crate::watch::Watch;
use ps_map::{Access, Owner, shown_name};
use ps_scene::{Surroundings, value_at};
use risc_machine::{Machine, Stop};
use std::alloc::{AllocError, Global};

/// Where the lines of a trace go.
pub trait Teller {
    /// Takes a line with its end, and returns whether it was passed on. It is called when memory has run out, too.
    fn tell(&mut self, line: &str) -> bool;
}

/// Which statements are reported, and how.
#[derive(Clone, Copy)]
pub struct Choice<'a> {
    /// The statements that are reported at these lines.
    pub from: u32,
    pub to: u32,
    /// The statements of the routine with this name, in upper or lower case; `None` for those of all routines.
    pub routine: Option<&'a str>,
    /// At most this many lines.
    pub first: u64,
    /// As JSON.
    pub json: bool,
}

// The register of the innermost frame.
const FRAME: u8 = 14;

// How many variables are reported for a statement at most.
const MOST_CHANGES: usize = 20;

/// Follows a run.
#[derive(Drop)]
pub(crate) struct Tracer<'a, T: Teller> {
    pub(crate) alloc: Global,
    pub(crate) around: Surroundings<'a>,
    pub(crate) sites: Sites,
    pub(crate) accesses: Vec<Access>,
    pub(crate) heads: Vec<Head>,
    pub(crate) choice: Choice<'a>,
    pub(crate) teller: T,
    pub(crate) notes: Notes,
}

impl<'a, T: Teller> Tracer<'a, T> {
    fn statement(&self, number: u32) -> Option<Statement> {
        match (number as usize).checked_sub(1) {
            Some(at) => self.sites.statements.get(at).copied(),
            None => None,
        }
    }

    // The part of a statement that is shown.
    fn head(&self, number: u32) -> Option<Head> {
        match (number as usize).checked_sub(1) {
            Some(at) => self.heads.get(at).copied(),
            None => None,
        }
    }

    // The name of a routine.
    fn routine_name(&self, routine: u32) -> &'a str {
        self.around.map.name_of(routine).unwrap_or("?")
    }

    // Whether lines are still made: none after the last that is wanted, after one that could not be passed on, or after
    // memory ran out.
    fn goes_on(&self) -> bool {
        self.notes.is_whole && !self.notes.is_cut && self.notes.lines < self.choice.first
    }

    // Passes a line on.
    fn pass(&mut self, line: &str) {
        if !self.teller.tell(line) {
            self.notes.is_whole = false;
        }
    }

    // Cuts the trace if something could not be noted or told while lines are wanted. The line that says so needs no
    // memory.
    fn keep(&mut self, noted: Result<(), AllocError>) {
        if noted.is_err() && self.goes_on() {
            self.notes.is_cut = true;
            self.pass(if self.choice.json { CUT_OBJECT } else { CUT });
        }
    }

    // Whether a part of a statement is reported.
    fn is_chosen(&self, routine: u32, head: Head) -> bool {
        let line = head.place.line;
        self.goes_on()
            && self.choice.from <= line
            && line <= self.choice.to
            && match self.choice.routine {
                Some(name) => name.eq_ignore_ascii_case(self.routine_name(routine)),
                None => true,
            }
    }

    // The frame of an act.
    fn frame(&self, act: Option<&Act>) -> Option<Frame> {
        let act = match act {
            Some(act) => act,
            None => return None,
        };
        let routine = match self.statement(act.statement) {
            Some(statement) => statement.routine,
            None => 0,
        };
        Some(Frame {
            at: act.frame,
            routine,
        })
    }

    // The innermost frame, and the one that contains an address. A nested frame is below the one around it.
    fn frames(&self, address: u32) -> Frames {
        let open = self.notes.open.as_slice();
        let holder = open.partition_point(|act| act.frame > address);
        Frames {
            innermost: self.frame(open.last()),
            holder: self.frame(open.get(holder)),
        }
    }

    // What is in a stretch of memory.
    fn found(&self, machine: &Machine, stretch: Stretch) -> Result<Option<Named<'a>>, AllocError> {
        found_at(
            self.alloc,
            &self.around,
            machine,
            self.frames(stretch.from),
            self.notes.objects.as_slice(),
            stretch,
        )
    }

    // Notes the objects that an act has created.
    fn learn(&mut self, machine: &Machine, act: Act) -> Result<(), AllocError> {
        self.notes.fresh = u32::MAX;
        if !self.notes.has_grown(machine) {
            return Ok(());
        }
        for at in act.stores..self.notes.stores.len() {
            let Some(stretch) = self.notes.stores.get(at).copied() else {
                break;
            };
            if let Some(found) = self.found(machine, stretch)? {
                self.notes.learn_of(machine, &found)?;
            }
        }
        Ok(())
    }

    // The variables that an act has changed.
    fn changes(&mut self, machine: &Machine, act: Act) -> Result<Vec<Change>, AllocError> {
        let mut changes: Vec<Change> = Vec::new(self.alloc);
        for at in act.stores..self.notes.stores.len() {
            match self.notes.stores.get(at).copied() {
                Some(stretch) if changes.len() < MOST_CHANGES => {
                    self.add_change(machine, stretch, &mut changes)?;
                }
                _ => break,
            }
        }
        Ok(changes)
    }

    // Adds the variable in a stretch of memory, unless it was added already.
    fn add_change(
        &mut self,
        machine: &Machine,
        stretch: Stretch,
        changes: &mut Vec<Change>,
    ) -> Result<(), AllocError> {
        let Some(Named { name, ty, at }) = self.found(machine, stretch)? else {
            return Ok(());
        };
        if self.notes.is_fresh(at) || is_told(changes.as_slice(), name.as_str(), at) {
            return Ok(());
        }
        let value = value_at(
            self.alloc,
            &self.around,
            machine,
            ty,
            at,
            &mut self.notes.objects,
        )?;
        changes.push(Change { name, at, value })?;
        Ok(())
    }

    // The line of an act.
    fn line(
        &mut self,
        machine: &Machine,
        act: Act,
        routine: u32,
        head: Head,
        extent: Extent,
    ) -> Result<String, AllocError> {
        let changes = self.changes(machine, act)?;
        let done = Done {
            line: head.place.line,
            column: head.place.column,
            routine: shown_name(self.alloc, self.routine_name(routine))?,
            depth: self.notes.open.len().saturating_sub(1),
            steps: act.steps,
            head: head_told(self.alloc, &self.around, head.span)?,
            changes,
            written: self.notes.written.get(act.written..).unwrap_or(&[]),
            taken: self.notes.taken.get(act.taken..).unwrap_or(&[]),
            at_end: act.at_end,
            extent,
        };
        if self.choice.json {
            object_told(self.alloc, &done)
        } else {
            told(self.alloc, &done)
        }
    }

    // Reports an act, the innermost one, as far as it has come.
    fn tell(&mut self, machine: &Machine, act: Act, extent: Extent) -> Result<(), AllocError> {
        self.learn(machine, act)?;
        let number = act.statement;
        let (Some(statement), Some(head)) = (self.statement(number), self.head(number)) else {
            return Ok(());
        };
        if act.acts && self.is_chosen(statement.routine, head) {
            let line = self.line(machine, act, statement.routine, head, extent)?;
            self.notes.lines = self.notes.lines.saturating_add(1);
            self.pass(line.as_str());
        }
        Ok(())
    }

    // Ends the innermost act.
    fn close(&mut self, machine: &Machine) {
        let Some(act) = self.notes.open.last().copied() else {
            return;
        };
        let noted = self.tell(machine, act, Extent::Finished);
        self.keep(noted);
        self.notes.forget(act);
        self.notes.open.pop();
    }

    // Ends all acts of frames that have been left.
    fn leave(&mut self, machine: &Machine, frame: u32) {
        for _ in 0..self.notes.open.len() {
            match self.notes.open.last() {
                Some(act) if act.frame < frame => {}
                _ => break,
            }
            self.close(machine);
        }
    }

    // Reports what an act has written and read before what it calls.
    fn tell_first(&mut self, machine: &Machine) {
        let Some(act) = self.notes.open.last().copied() else {
            return;
        };
        if self.notes.has_passed(act) {
            let noted = self.tell(machine, act, Extent::Calling);
            self.keep(noted);
            self.notes.forget(act);
        }
    }

    // A word of a statement in a frame is next.
    fn go_on(&mut self, machine: &Machine, frame: u32, statement: u32) {
        match self.notes.open.last().copied() {
            Some(act) if act.frame == frame && act.statement == statement => return,
            Some(act) if act.frame == frame => {
                self.notes.reach(frame);
                self.close(machine);
            }
            _ => self.tell_first(machine),
        }
        let noted = self.notes.begin_act(frame, statement);
        self.keep(noted);
    }

    // The machine has come to a word, whose site this returns: ends the acts that it belongs to no more.
    fn arrive(&mut self, machine: &Machine) -> Option<Site> {
        let noted = self.notes.settle(machine);
        self.keep(noted);
        let found = self.sites.words.get(machine.pc() as usize).copied();
        if let Some(site) = found {
            let frame = machine.reg(FRAME);
            if !site.is_library {
                self.leave(machine, frame);
                if site.statement > 0 {
                    self.go_on(machine, frame, site.statement);
                }
            }
            self.notes.reach(frame);
        }
        found
    }

    // Follows the step that is about to be made.
    fn follow(&mut self, machine: &Machine) {
        let Some(site) = self.arrive(machine) else {
            return;
        };
        if self.notes.is_of_act(site, machine.reg(FRAME)) {
            let place = machine.pc() as usize;
            let access = self.accesses.get(place).copied().unwrap_or(Access::Nothing);
            let noted = self.notes.note(machine, access);
            self.keep(noted);
        }
    }

    // Whether an act is done at a word in its frame: one after the last statement of its routine. Those before the first
    // one have a token, that of `begin`.
    fn is_done(&self, machine: &Machine, site: Site, act: Act) -> bool {
        let (Some(row), Some(statement)) = (
            self.around.map.rows.get(site.row as usize),
            self.statement(act.statement),
        ) else {
            return false;
        };
        act.frame == machine.reg(FRAME)
            && row.owner == Owner::Routine(statement.routine)
            && row.statement.is_none()
            && row.token.is_none()
    }

    // Reports the innermost act, in which the run ended. Those around it called what has not returned, and what they
    // did before was reported before the call.
    fn break_off(&mut self, machine: &Machine) {
        if let Some(act) = self.notes.open.last().copied() {
            let noted = self.tell(machine, act, Extent::BrokenOff);
            self.keep(noted);
        }
    }

    // Reports the innermost act of a run that was stopped between two steps. It may just be done.
    fn stop_between(&mut self, machine: &Machine) {
        let site = self.arrive(machine);
        match (site, self.notes.open.last().copied()) {
            (Some(site), Some(act)) if self.is_done(machine, site, act) => self.close(machine),
            _ => self.break_off(machine),
        }
    }
}

// Whether a variable is already reported. Two long names may be shown alike.
fn is_told(changes: &[Change], name: &str, at: u32) -> bool {
    for change in changes {
        if change.at == at && change.name.as_str() == name {
            return true;
        }
    }
    false
}

impl<'a, T: Teller> Watch for Tracer<'a, T> {
    fn begin(&mut self, machine: &Machine) {
        let _ = machine;
    }

    fn see(&mut self, machine: &Machine) {
        if self.goes_on() {
            self.follow(machine);
        }
        self.notes.steps = self.notes.steps.saturating_add(1);
    }

    fn end(&mut self, machine: &Machine, stop: Option<Stop>) {
        if !self.goes_on() {
            return;
        }
        match stop {
            Some(Stop::OutputFault) => {
                self.notes.written.pop();
            }
            Some(Stop::InputFault) => self.notes.awaited = None,
            _ => {}
        }
        match stop {
            Some(Stop::Normal) => self.leave(machine, u32::MAX),
            Some(Stop::Steps) | None => self.stop_between(machine),
            _ => {
                let noted = self.notes.settle(machine);
                self.keep(noted);
                self.break_off(machine);
            }
        }
    }
}
