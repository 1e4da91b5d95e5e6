//! The frames of open calls.

use crate::memory::word_at;
use crate::words::{Act, act_at};
use ps_map::{Map, Owner, Place, Row};
use risc_image::ImageView;
use risc_machine::{Machine, Stop};
use std::alloc::{AllocError, Global};

// The registers of the innermost frame and of links.
const FRAME: u8 = 14;

const LINK: u8 = 15;

// Where in its caller's frame a run-time routine keeps its link.
const LEAF_LINK: u32 = 40;

/// A frame in memory: where it begins, its routine, where that routine is in its code, and where it was called.
#[derive(Clone, Copy)]
pub struct Standing {
    pub frame: u32,
    pub routine: Option<u32>,
    /// `None` if that isn't known, as at a call for which the stack had no room.
    pub at: Option<Row>,
    pub called: Option<Place>,
    /// Whether its variables have values: the first words of the routine have been executed.
    pub has_begun: bool,
}

/// The frames of open calls.
#[derive(Drop)]
pub(crate) struct Frames {
    /// The innermost ones, followed by the outermost one.
    pub(crate) shown: Vec<Standing>,
    /// How many there are in all.
    pub(crate) count: u64,
    /// How many of them belong to each routine, by its number.
    pub(crate) counts: Vec<u64>,
}

/// What is examined: a machine that stopped, with the image that was loaded and its map.
#[derive(Clone, Copy)]
pub(crate) struct View<'a> {
    pub(crate) machine: &'a Machine,
    pub(crate) image: &'a ImageView<'a>,
    pub(crate) map: &'a Map,
}

// The routine of the program to which the words of a row belong.
pub(crate) fn routine_of(row: Option<Row>) -> Option<u32> {
    match row {
        Some(row) => match row.owner {
            Owner::Routine(routine) => Some(routine),
            _ => None,
        },
        None => None,
    }
}

fn token_of(row: Option<Row>) -> Option<Place> {
    match row {
        Some(row) => row.token,
        None => None,
    }
}

impl Frames {
    fn new(alloc: Global, routines: usize) -> Result<Frames, AllocError> {
        let mut counts = Vec::new(alloc);
        counts.resize(routines, 0)?;
        Ok(Frames {
            shown: Vec::new(alloc),
            count: 0,
            counts,
        })
    }

    // Adds the next frame outwards, which is shown if it is among the first ones.
    fn add(&mut self, standing: Standing, most: usize) -> Result<(), AllocError> {
        if self.shown.len() < most {
            self.shown.push(standing)?;
        }
        self.count = self.count.saturating_add(1);
        if let Some(routine) = standing.routine {
            if let Some(count) = self.counts.get_mut(routine as usize) {
                *count = count.saturating_add(1);
            }
        }
        Ok(())
    }

    // Adds the outermost frame, if it isn't shown yet.
    fn add_last(&mut self, last: Standing) -> Result<(), AllocError> {
        if (self.shown.len() as u64) < self.count {
            self.shown.push(last)?;
        }
        Ok(())
    }
}

impl<'a> View<'a> {
    // Where the machine is: at a stop of the program at the word before its link, at its end at its last word,
    // otherwise at the next word.
    fn row_at(&self, stop: Stop) -> Option<Row> {
        match stop {
            Stop::Trap(link) => self.map.row_of_link(link),
            Stop::Normal => self.map.row_of(self.machine.pc().saturating_sub(1)),
            _ => self.row_of_next(),
        }
    }

    // What the next word belongs to; in the stub, through which the program stops, what led there. Before the program
    // block begins, no link does.
    fn row_of_next(&self) -> Option<Row> {
        match self.map.row_of(self.machine.pc()) {
            Some(row) if matches!(row.owner, Owner::Start) => {
                self.map.row_of_link(self.machine.reg(LINK)).or(Some(row))
            }
            next => next,
        }
    }

    // Whether a row is that of a routine's entry, at which the frame may not be its own yet.
    fn is_entry(&self, row: Row) -> bool {
        match row.owner {
            Owner::Routine(number) => match self.map.routines.get(number as usize) {
                Some(routine) => row.word == routine.entry,
                None => false,
            },
            _ => false,
        }
    }

    // Whether a statement of a routine is at or before a row.
    fn has_begun(&self, row: Row) -> bool {
        for other in self.map.rows_up_to(row.word).iter().rev() {
            if other.owner != row.owner {
                return false;
            }
            if other.statement.is_some() {
                return true;
            }
        }
        false
    }

    // Where a link leads that is kept for a run-time routine; the routine may still have it in its register.
    fn row_of_leaf(&self, frame: u32) -> Option<Row> {
        let kept = match word_at(self.machine, frame.saturating_add(LEAF_LINK)) {
            Some(link) => self.map.row_of_link(link),
            None => None,
        };
        match kept {
            Some(row) if matches!(row.owner, Owner::Routine(_)) => Some(row),
            _ => self.map.row_of_link(self.machine.reg(LINK)),
        }
    }

    // The routine that the call before a link enters, if its word shows it.
    fn callee_at(&self, link: u32) -> Option<u32> {
        let Some(at) = (link / 4).checked_sub(1) else {
            return None;
        };
        match act_at(self.image, Some(at as usize)) {
            Act::Branch {
                condition: _,
                distance: Some(distance),
            } => {
                let to = distance.saturating_add(i64::from(link / 4));
                routine_of(self.map.row_of(u32::try_from(to).unwrap_or(0)))
            }
            _ => None,
        }
    }

    // The routine whose frames have this many bytes, if there is only one.
    fn routine_of_size(&self, bytes: u32) -> Option<u32> {
        let mut found = None;
        for number in 0..self.image.frames() {
            match self.image.frame(number) {
                Some(row) if row.bytes == bytes => {
                    if found.is_some() {
                        return None;
                    }
                    found = u32::try_from(number).ok();
                }
                _ => {}
            }
        }
        found
    }

    // The routine to which a frame belongs.
    fn owner_of(&self, frame: u32) -> Option<u32> {
        let (Some(link), Some(outer)) = (
            word_at(self.machine, frame),
            word_at(self.machine, frame.saturating_add(4)),
        ) else {
            return None;
        };
        if self.image.call_of(link).is_none() {
            return Some(0);
        }
        match self.callee_at(link) {
            Some(routine) => Some(routine),
            None => self.routine_of_size(outer.wrapping_sub(frame)),
        }
    }

    // Whether a word makes its frame the innermost one.
    fn takes_frame(&self, at: u32) -> bool {
        match act_at(self.image, Some(at as usize)) {
            Act::Move { to, from: _ } => to == FRAME,
            _ => false,
        }
    }

    // Whether the machine is past the word of a routine's entry that makes its frame the innermost one.
    fn is_entered(&self, row: Row) -> bool {
        for at in row.word..self.machine.pc() {
            if self.takes_frame(at) {
                return true;
            }
        }
        false
    }

    // The innermost frame when the machine is in a routine's entry: the routine's own, or its caller's.
    fn entering(&self, row: Row, frame: u32) -> Option<Standing> {
        if self.is_entered(row) {
            let mut standing = self.standing(frame, routine_of(Some(row)), None);
            standing.has_begun = false;
            return Some(standing);
        }
        match self.owner_of(frame) {
            Some(owner) => Some(self.standing(frame, Some(owner), None)),
            None => None,
        }
    }

    // The innermost frame when the machine is at a row.
    fn innermost_at(&self, row: Row) -> Option<Standing> {
        let frame = self.machine.reg(FRAME);
        match row.owner {
            Owner::Routine(_) if self.is_entry(row) => self.entering(row, frame),
            Owner::Routine(routine) => Some(self.standing(frame, Some(routine), Some(row))),
            Owner::RunTime(_) => {
                let row = self.row_of_leaf(frame);
                Some(self.standing(frame, routine_of(row), row))
            }
            Owner::Start | Owner::Strings => None,
        }
    }

    // The same at a stop. A program block that has ended has begun, even if it has no statement.
    fn innermost_of(&self, row: Row, stop: Stop) -> Option<Standing> {
        let Some(mut standing) = self.innermost_at(row) else {
            return None;
        };
        if matches!(stop, Stop::Normal) {
            standing.has_begun = true;
        }
        Some(standing)
    }

    /// The row at which the machine is, and the innermost frame with the row at which its routine is.
    pub(crate) fn innermost(&self, stop: Stop) -> (Option<Row>, Option<Standing>) {
        let here = self.row_at(stop);
        match here {
            Some(row) => (here, self.innermost_of(row, stop)),
            None => (None, None),
        }
    }

    // What a frame is, given its routine and its place, as far as they are known.
    fn standing(&self, frame: u32, routine: Option<u32>, at: Option<Row>) -> Standing {
        let called = match self.link_of(frame) {
            Some(link) => token_of(self.map.row_of_link(link)),
            None => None,
        };
        let has_begun = match at {
            Some(row) => self.has_begun(row),
            None => true,
        };
        Standing {
            frame,
            routine,
            at,
            called,
            has_begun,
        }
    }

    // The link of the call to which a frame belongs; `None` for the program block's.
    fn link_of(&self, frame: u32) -> Option<u32> {
        match word_at(self.machine, frame) {
            Some(link) if self.image.call_of(link).is_some() => Some(link),
            _ => None,
        }
    }

    // The caller's frame, if the frame belongs to a call.
    fn outer(&self, inner: Standing) -> Option<Standing> {
        let (Some(link), Some(frame)) = (
            self.link_of(inner.frame),
            word_at(self.machine, inner.frame.saturating_add(4)),
        ) else {
            return None;
        };
        if frame <= inner.frame {
            return None;
        }
        let row = self.map.row_of_link(link);
        Some(self.standing(frame, routine_of(row), row))
    }

    /// The frames of the open calls from one on, innermost first: at most this many of them, and the outermost one.
    pub(crate) fn frames(
        &self,
        alloc: Global,
        innermost: Standing,
        most: usize,
    ) -> Result<Frames, AllocError> {
        let mut frames = Frames::new(alloc, self.map.routines.len())?;
        let mut last = innermost;
        for _ in 0..self.machine.size() {
            frames.add(last, most)?;
            match self.outer(last) {
                Some(next) => last = next,
                None => break,
            }
        }
        frames.add_last(last)?;
        Ok(frames)
    }
}
