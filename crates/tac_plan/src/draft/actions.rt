// What a draft does at an instruction: what is put in before it, and what becomes of it.

use crate::addresses::Chain;
use crate::draft::{Draft, NOBODY, only};
use crate::flow::{NONE, Way, is_join, is_turn, lives_at, settles, way_at};
use crate::sets::{CONSIDERED, has, least, set_of};
use tac_code::code::OutOfMemory;
use tac_pass::plan::Put;
use tac_pass::table::Action;

impl<'a> Draft<'a> {
    // whether no call can have come before
    pub(super) fn is_early(&self, place: usize) -> bool {
        match self.region {
            Some(region) => self.first_call >= region.behind(),
            None => self.first_call >= place,
        }
    }

    fn clean(&mut self, puts: &mut Vec<Put>, at: usize) -> Result<(), OutOfMemory> {
        if at < self.words.len() && self.words[at].is_stale {
            puts.push(Put::Clean(self.words[at].word))?;
            self.words[at].is_stale = false;
        }
        Ok(())
    }

    // after a region, where a word may still be seen
    fn clean_behind(
        &mut self,
        puts: &mut Vec<Put>,
        place: usize,
        at: usize,
    ) -> Result<(), OutOfMemory> {
        if at < self.words.len() && place <= self.words[at].last {
            self.clean(puts, at)?;
        }
        Ok(())
    }

    fn clean_all(&mut self, puts: &mut Vec<Put>) -> Result<(), OutOfMemory> {
        for at in 0..self.words.len() {
            self.clean(puts, at)?;
        }
        Ok(())
    }

    fn fetch(&mut self, puts: &mut Vec<Put>, at: usize) -> Result<(), OutOfMemory> {
        if at < self.words.len() {
            let held = self.words[at];
            if held.holder != NOBODY && !held.is_held && !held.is_stale {
                puts.push(Put::Fetch(held.word, held.holder))?;
                self.words[at].is_held = true;
            }
        }
        Ok(())
    }

    // what waited is stored, if it is needed yet
    fn settle(&mut self, puts: &mut Vec<Put>, place: usize) -> Result<(), OutOfMemory> {
        for at in 0..self.words.len() {
            if at < self.words.len() {
                let held = self.words[at];
                if held.is_fixed && !self.is_dead(place, &held) {
                    self.clean(puts, at)?;
                }
            }
        }
        Ok(())
    }

    // what is needed where a place leads, except for the word that it loads or stores itself
    fn put_for(
        &mut self,
        puts: &mut Vec<Put>,
        target: usize,
        own: Option<usize>,
    ) -> Result<(), OutOfMemory> {
        let holds = self.holds(target);
        for at in 0..self.words.len() {
            if own != Some(at) && at < self.words.len() && !self.is_past(target, &self.words[at]) {
                if holds {
                    self.fetch(puts, at)?;
                } else if !self.is_dead(target, &self.words[at]) {
                    self.clean(puts, at)?;
                }
            }
        }
        Ok(())
    }

    pub(super) fn puts(
        &mut self,
        place: usize,
        way: &Way,
        own: Option<usize>,
    ) -> Result<Vec<Put>, OutOfMemory> {
        let mut puts = Vec::new(self.alloc);
        let Some(region) = self.region else {
            return Ok(puts);
        };
        if way.calls() {
            self.clean_all(&mut puts)?;
        }
        if self.settles > 0 && place == self.settles {
            self.settle(&mut puts, place)?;
        }
        if region.is_closed && place == region.exit() {
            for at in 0..self.words.len() {
                self.clean_behind(&mut puts, place, at)?;
            }
            self.leave();
            return Ok(puts);
        }
        if way.target != NONE {
            self.put_for(&mut puts, way.target, None)?;
        }
        let next = place.saturating_add(1);
        if way.falls && !way.calls() && (is_join(self.ways, next) || next >= region.behind()) {
            self.put_for(&mut puts, next, own)?;
        }
        Ok(puts)
    }

    // whether a value that is used after a place is in a temporary
    fn is_busy(&self, place: usize, temporary: u32, holder: u32) -> bool {
        let mut rest = lives_at(self.ways, place.saturating_add(1)) & !set_of(temporary);
        for _ in 0..CONSIDERED {
            if rest == 0 {
                return false;
            }
            if self.holder_of(rest.trailing_zeros()) == holder {
                return true;
            }
            rest &= rest.wrapping_sub(1);
        }
        false
    }

    // whether the value that is loaded at a place may be shared with the holder of the word
    fn may_share(&self, place: usize, way: &Way, at: usize) -> bool {
        if way.is_short {
            return true;
        }
        if !is_turn(self.ways, place, way) {
            return false;
        }
        let target = way_at(self.ways, place.saturating_add(1)).target;
        self.counted_at(target) == Some(at)
    }

    pub(super) fn load_action(&mut self, place: usize, way: &Way, at: usize) -> Action {
        let old = only(way.writes);
        let to = self.new_for(place, old);
        if at >= self.words.len() {
            return Action::Keep(to);
        }
        let held = self.words[at];
        if !self.may_share(place, way, at) {
            self.set_holder(old, to);
            return if held.is_held {
                Action::Move(to)
            } else {
                Action::Keep(to)
            };
        }
        self.set_holder(old, held.holder);
        if held.is_held {
            return Action::Spare;
        }
        if at < self.words.len() {
            self.words[at].is_held = true;
        }
        Action::Keep(held.holder)
    }

    // a word that another temporary may hold is loaded into its holder first
    pub(super) fn fetch_for_load(
        &mut self,
        puts: &mut Vec<Put>,
        place: usize,
        way: &Way,
        at: usize,
    ) -> Result<(), OutOfMemory> {
        if way.writes != 0
            && at < self.words.len()
            && self.words[at].is_elsewhere
            && self.may_share(place, way, at)
        {
            self.fetch(puts, at)?;
        }
        Ok(())
    }

    // whether words are not held after a place, at the target of a jump
    fn is_laid_bare(&self, place: usize) -> bool {
        let next = place.saturating_add(1);
        let behind = match self.region {
            Some(region) => region.behind(),
            None => 0,
        };
        (is_join(self.ways, next) || next >= behind) && !self.holds(next)
    }

    pub(super) fn store_action(&mut self, place: usize, way: &Way, at: usize) -> Action {
        let from = only(way.reads);
        if at >= self.words.len() {
            return Action::Keep(0);
        }
        let mut held = self.words[at];
        let is_there = self.holder_of(from) == held.holder;
        let is_busy = self.is_busy(place, from, held.holder);
        let waits = place < self.settles && (self.is_unseen || is_there) && !is_busy;
        if held.is_fixed && !waits {
            held.is_held = is_there;
            held.is_elsewhere = true;
            self.words[at] = held;
            return Action::Keep(0);
        }
        let is_lost = is_busy || self.is_laid_bare(place);
        held.is_held = !is_lost;
        held.is_elsewhere |= is_lost;
        held.is_stale = !is_lost;
        self.words[at] = held;
        if is_lost {
            Action::Keep(0)
        } else if is_there {
            Action::Spare
        } else {
            Action::Move(held.holder)
        }
    }

    // the word that is stored after a place where this is computed
    fn stored_behind(&self, place: usize, way: &Way) -> Option<usize> {
        if self.region.is_none() {
            return None;
        }
        let at = self.pinned(way.given)?;
        if at < self.words.len() && !self.is_busy(place, only(way.writes), self.words[at].holder) {
            Some(at)
        } else {
            None
        }
    }

    pub(super) fn give_action(&mut self, place: usize, way: &Way) -> Action {
        let old = only(way.writes);
        let holder = match self.stored_behind(place, way) {
            Some(at) if at < self.words.len() => {
                self.words[at].is_held = false;
                self.words[at].is_stale = false;
                self.words[at].holder
            }
            _ => self.new_for(place, old),
        };
        self.set_holder(old, holder);
        Action::Keep(holder)
    }

    // where the value of an old temporary goes: into itself, unless another value or a chain is there
    fn new_for(&mut self, place: usize, temporary: u32) -> u32 {
        let number = self.chains.number_at(place);
        if number < self.chains.list.len() {
            if self.chains.list[number].start == place {
                self.begun = number.saturating_add(1);
                if let Some(holder) = self.holder_for(place, temporary, self.chains.list[number]) {
                    self.chains.list[number].holder = holder;
                }
            }
            let holder = self.chains.list[number].holder;
            if holder != NOBODY {
                return holder;
            }
        }
        if has(self.moved, temporary) {
            self.place_for(place, temporary)
        } else {
            temporary
        }
    }

    // the temporary that is to hold what a chain computes
    fn holder_for(&self, place: usize, temporary: u32, chain: Chain) -> Option<u32> {
        if chain.fits {
            let found = least(self.free_at(place, temporary));
            if found.is_some() {
                return found;
            }
        }
        let taken = self.taken(place, temporary) | self.chains.reserved(self.begun, place);
        least(chain.idle & !taken)
    }

    // what values may be moved to at a place
    fn free_at(&self, place: usize, temporary: u32) -> u64 {
        self.open & !self.taken(place, temporary) & !self.chains.reserved(self.begun, place)
    }

    // the temporaries with the values that are used after a place, except one
    fn taken(&self, place: usize, temporary: u32) -> u64 {
        let mut set = 0;
        let mut rest = lives_at(self.ways, place.saturating_add(1)) & !set_of(temporary);
        for _ in 0..CONSIDERED {
            if rest == 0 {
                return set;
            }
            set |= set_of(self.holder_of(rest.trailing_zeros()));
            rest &= rest.wrapping_sub(1);
        }
        set
    }

    fn place_for(&self, place: usize, temporary: u32) -> u32 {
        let open = self.free_at(place, temporary);
        if has(open, temporary) {
            temporary
        } else {
            least(open).unwrap_or(temporary)
        }
    }

    // whether a word is stored that nobody sees
    pub(super) fn is_vain(&self, way: &Way) -> bool {
        let at = way.item;
        self.is_unseen && at < self.items.list.len() && self.items.list[at].is_vain()
    }
}
