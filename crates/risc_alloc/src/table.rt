// Who holds each seat of a window.

ghost use Rattle.std.specs.Prelude.{◌≡◌, ℕ, ◌+◌, ◌<◌, ◌≤◌, length, slice_index, IsTrue, IfSome};
ghost use Rattle.risc_alloc.specs.declared.window.Window.{Window};
ghost use Rattle.risc_alloc.specs.Windows.{Held, IsHeldHere, Keeps, KeepsBut, IsIn, IsFreeFor, IsEmptyBut};

use crate::window::{SEATS, Window};
use std::alloc::Global;
use tac_code::code::OutOfMemory;

/// Who holds each seat of a window at one point of a walk over a body: a temporary's number plus 1, or 0 for nobody. So
/// the temporaries alive are those that hold their seats, and two of them never share one.
#[derive(Drop)]
pub(crate) struct Table {
    holders: Vec<u32>,
}

/// The seat of a temporary, and the number that represents the temporary there.
#[derive(Clone, Copy)]
struct Entry {
    number: usize,
    holder: u32,
}

impl Table {
    /// The seats of a window, which nobody holds.
    pub(crate) fn new(alloc: Global) -> Result<Table, OutOfMemory> {
        let holders = vec![in alloc; 0; SEATS]?;
        Ok(Table { holders })
    }

    /// Everybody leaves.
    pub(crate) fn clear(&mut self) {
        for seat in 0..self.holders.len() {
            self.holders[seat] = 0;
        }
    }

    // `None` for a temporary that sits elsewhere.
    fn find(&self, window: &Window, temporary: u32) -> Option<Entry>
        ensures there { IfSome result (λ s. temporary < length window.now.seats.items) }
        ensures number { IfSome result (λ s. s.number ≡ slice_index window.now.seats.items temporary) }
        ensures here { IfSome result (λ s. s.number < 12) }
        ensures within { IfSome result (λ s. s.number < length self.now.holders.items) }
        ensures holder { IfSome result (λ s. s.holder ≡ temporary + 1) }
    {
        let number = window.seat(temporary)?;
        if number >= SEATS || number >= self.holders.len() {
            return None;
        }
        let holder = temporary.checked_add(1)?;
        Some(Entry { number, holder })
    }

    /// A temporary of the window takes its seat; false if another holds it.
    pub(crate) fn add(&mut self, window: &Window, temporary: u32) -> bool
        ensures kept { IsTrue result → Keeps window.now self.old.holders.items self.new.holders.items }
        ensures added { IsTrue result → IsHeldHere window.now self.new.holders.items temporary }
    {
        if window.is_elsewhere(temporary) {
            return true;
        }
        let Some(seat) = self.find(window, temporary) else {
            return false;
        };
        let holder = self.holders[seat.number];
        if holder == 0 {
            self.holders[seat.number] = seat.holder;
            return true;
        }
        holder == seat.holder
    }

    /// The same for a temporary, if there is one.
    pub(crate) fn add_some(&mut self, window: &Window, temporary: Option<u32>) -> bool
        ensures kept { IsTrue result → Keeps window.now self.old.holders.items self.new.holders.items }
        ensures added { IsTrue result → IfSome temporary (IsHeldHere window.now self.new.holders.items) }
    {
        match temporary {
            Some(t) => self.add(window, t),
            None => true,
        }
    }

    /// The same for each of a list.
    pub(crate) fn add_all(&mut self, window: &Window, list: &[u32]) -> bool
        ensures kept { IsTrue result → Keeps window.now self.old.holders.items self.new.holders.items }
        ensures added { IsTrue result → (u : ℕ) → IsIn list.now u → IsHeldHere window.now self.new.holders.items u }
    {
        for temporary in list {
            if !self.add(window, *temporary) {
                return false;
            }
        }
        true
    }

    /// Whether nobody else holds a temporary's seat.
    pub(crate) fn is_free_for(&self, window: &Window, temporary: u32) -> bool
        ensures { IsTrue result → IsFreeFor window.now self.now.holders.items temporary }
    {
        if window.is_elsewhere(temporary) {
            return true;
        }
        match self.find(window, temporary) {
            Some(seat) => {
                let holder = self.holders[seat.number];
                holder == 0 || holder == seat.holder
            }
            None => false,
        }
    }

    /// A temporary leaves its seat; false if another holds it.
    pub(crate) fn free(&mut self, window: &Window, temporary: u32) -> bool
        ensures was_free { IsTrue result → IsFreeFor window.now self.old.holders.items temporary }
        ensures kept { IsTrue result → KeepsBut window.now temporary self.old.holders.items self.new.holders.items }
    {
        if !self.is_free_for(window, temporary) {
            return false;
        }
        if let Some(seat) = self.find(window, temporary) {
            self.holders[seat.number] = 0;
        }
        true
    }

    /// Whether nobody else holds a seat.
    pub(crate) fn is_empty_but(&self, temporary: u32) -> bool
        ensures { IsTrue result → (window : Window) → IsEmptyBut window self.now.holders.items temporary }
    {
        for seat in 0..self.holders.len() {
            let holder = self.holders[seat];
            if holder != 0 && holder - 1 != temporary {
                return false;
            }
        }
        true
    }

    /// Whether all who hold a seat are in a list, which is in the order of seats.
    pub(crate) fn is_within(&self, list: &[u32]) -> bool
        ensures { IsTrue result → (window : Window) (u : ℕ) → Held window self.now.holders.items u → IsIn list.now u }
    {
        let mut next = 0;
        for seat in 0..self.holders.len() {
            let holder = self.holders[seat];
            if holder != 0 {
                next = seek(list, next, holder - 1);
                if next == list.len() {
                    return false;
                }
            }
        }
        true
    }

    // How many hold a seat.
    fn count(&self) -> usize {
        let mut count: usize = 0;
        for seat in 0..self.holders.len() {
            if self.holders[seat] != 0 {
                count = count.saturating_add(1);
            }
        }
        count
    }

    /// All who hold a seat, in the order of seats. There are many such lists, so each has just the room that it needs.
    pub(crate) fn members(&self, alloc: Global) -> Result<Vec<u32>, OutOfMemory> {
        let mut members = Vec::with_capacity(alloc, self.count())?;
        for seat in 0..self.holders.len() {
            let holder = self.holders[seat];
            if holder != 0 {
                members.push(holder - 1)?;
            }
        }
        Ok(members)
    }
}

// The first place of a number in a list, from a place on, or the list's length.
fn seek(list: &[u32], from: usize, wanted: u32) -> usize
    ensures within { from ≤ length list.now → result ≤ length list.now }
    ensures found { result < length list.now → slice_index list.now result ≡ wanted }
{
    let mut at = from;
    while at < list.len() && list[at] != wanted {
        at += 1;
    }
    at
}
