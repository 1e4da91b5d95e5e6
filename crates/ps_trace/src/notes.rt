//! What is noted of a run while it is followed: the statements in progress, and what they store, write and read.

use crate::accesses::{Event, content_of, event_at};
use crate::naming::{Named, Stretch};
use crate::sites::Site;
use ps_map::Access;
use ps_scene::{Object, word_at};
use ps_tree::types::Ty;
use risc_machine::Machine;
use std::alloc::{AllocError, Global};

// The register of the program block's frame, and where that frame has the heap's next address.
const PROGRAM: u8 = 13;

const NEXT: u32 = 272;

// How many stretches of memory are noted for a statement at most.
const MOST_STRETCHES: usize = 1_000;

/// What is in progress in a frame: a statement, or its own part between two others.
#[derive(Clone, Copy)]
pub(crate) struct Act {
    pub(crate) frame: u32,
    pub(crate) statement: u32,
    /// Whether it did more than jump elsewhere.
    pub(crate) acts: bool,
    /// How much was noted for those around it.
    pub(crate) stores: usize,
    pub(crate) written: usize,
    pub(crate) taken: usize,
    pub(crate) at_end: bool,
    /// How many steps had been made when its frame was last the innermost one.
    pub(crate) steps: u64,
}

/// What has been seen so far.
#[derive(Drop)]
pub(crate) struct Notes {
    /// What is in progress, beginning with the outermost frame.
    pub(crate) open: Vec<Act>,
    /// What they stored, wrote and read, each after those around it.
    pub(crate) stores: Vec<Stretch>,
    pub(crate) written: Vec<u8>,
    pub(crate) taken: Vec<u8>,
    /// The register that receives the byte that the last step requested.
    pub(crate) awaited: Option<u8>,
    /// The objects, in the order in which they were created.
    pub(crate) objects: Vec<Object>,
    /// The heap's next address when they were last examined.
    pub(crate) next: u32,
    /// Where the objects begin that were created by the act being reported; no address if there are none.
    pub(crate) fresh: u32,
    /// How many steps were made.
    pub(crate) steps: u64,
    pub(crate) lines: u64,
    /// Whether each line was passed on.
    pub(crate) is_whole: bool,
    /// Whether memory ran out while lines were wanted.
    pub(crate) is_cut: bool,
}

impl Notes {
    pub(crate) fn new(alloc: Global) -> Notes {
        Notes {
            open: Vec::new(alloc),
            stores: Vec::new(alloc),
            written: Vec::new(alloc),
            taken: Vec::new(alloc),
            awaited: None,
            objects: Vec::new(alloc),
            next: 0,
            fresh: u32::MAX,
            steps: 0,
            lines: 0,
            is_whole: true,
            is_cut: false,
        }
    }

    /// Notes a store: it extends the last stretch, or is a new one.
    pub(crate) fn note_store(&mut self, from: u32, bytes: u32) -> Result<(), AllocError> {
        let first = match self.open.last() {
            Some(act) => act.stores,
            None => return Ok(()),
        };
        let to = from.saturating_add(bytes);
        let count = self.stores.len();
        if first < count {
            if let Some(last) = self.stores.last_mut() {
                if last.to == from {
                    last.to = to;
                    return Ok(());
                }
                if last.from <= from && to <= last.to {
                    return Ok(());
                }
            }
        }
        if count < first.saturating_add(MOST_STRETCHES) {
            self.stores.push(Stretch { from, to })?;
        }
        Ok(())
    }

    /// The result of requesting a byte: a number greater than all bytes if there was none.
    pub(crate) fn note_taken(&mut self, value: u32) -> Result<(), AllocError> {
        match u8::try_from(value) {
            Ok(byte) => {
                self.taken.push(byte)?;
                Ok(())
            }
            Err(_) => {
                if let Some(act) = self.open.last_mut() {
                    act.at_end = true;
                }
                Ok(())
            }
        }
    }

    /// Something begins in a frame.
    pub(crate) fn begin_act(&mut self, frame: u32, statement: u32) -> Result<(), AllocError> {
        self.open.push(Act {
            frame,
            statement,
            acts: false,
            stores: self.stores.len(),
            written: self.written.len(),
            taken: self.taken.len(),
            at_end: false,
            steps: self.steps,
        })?;
        Ok(())
    }

    /// A step is about to be made in a frame.
    pub(crate) fn reach(&mut self, frame: u32) {
        let steps = self.steps;
        if let Some(act) = self.open.last_mut() {
            if act.frame == frame {
                act.steps = steps;
            }
        }
    }

    /// Forgets what was noted for an act.
    pub(crate) fn forget(&mut self, act: Act) {
        self.stores.truncate(act.stores);
        self.written.truncate(act.written);
        self.taken.truncate(act.taken);
        if let Some(last) = self.open.last_mut() {
            last.at_end = false;
        }
    }

    /// Whether an act has written or read something.
    pub(crate) fn has_passed(&self, act: Act) -> bool {
        act.at_end || act.written < self.written.len() || act.taken < self.taken.len()
    }

    /// Whether an address is in an object created by the act being reported. Its contents were not assigned.
    pub(crate) fn is_fresh(&self, at: u32) -> bool {
        self.fresh <= at && at < self.next
    }

    /// The heap has one more object.
    pub(crate) fn has_grown(&mut self, machine: &Machine) -> bool {
        let place = machine.reg(PROGRAM).saturating_add(NEXT);
        let next = word_at(machine, place).unwrap_or(0);
        if self.next == next {
            false
        } else {
            self.next = next;
            true
        }
    }

    /// Notes an object that a pointer leads to, if it is not known yet.
    pub(crate) fn learn_of(
        &mut self,
        machine: &Machine,
        found: &Named<'_>,
    ) -> Result<(), AllocError> {
        let (Ty::Pointer { number }, Some(address)) = (found.ty, word_at(machine, found.at)) else {
            return Ok(());
        };
        let last = match self.objects.last() {
            Some(last) => last.address,
            None => 0,
        };
        if last < address {
            self.fresh = self.fresh.min(address);
            self.objects.push(Object {
                address,
                pointer: *number,
            })?;
        }
        Ok(())
    }

    /// Whether a word belongs to the innermost act.
    pub(crate) fn is_of_act(&self, site: Site, frame: u32) -> bool {
        match self.open.last() {
            Some(act) => {
                act.frame == frame && (site.is_library || act.statement == site.statement)
            }
            None => false,
        }
    }

    /// Notes what a word of the innermost act does.
    pub(crate) fn note(&mut self, machine: &Machine, access: Access) -> Result<(), AllocError> {
        if !matches!(access, Access::Go) {
            if let Some(act) = self.open.last_mut() {
                act.acts = true;
            }
        }
        match event_at(machine, access) {
            Event::Nothing => Ok(()),
            Event::Stored { at, bytes } => self.note_store(at, bytes),
            Event::Put(byte) => {
                self.written.push(byte)?;
                Ok(())
            }
            Event::Taken(to) => {
                self.awaited = Some(to);
                Ok(())
            }
        }
    }

    /// The requested byte has arrived.
    pub(crate) fn settle(&mut self, machine: &Machine) -> Result<(), AllocError> {
        match self.awaited {
            Some(to) => {
                self.awaited = None;
                self.note_taken(content_of(machine, to))
            }
            None => Ok(()),
        }
    }
}
