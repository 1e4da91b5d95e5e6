// What a draft claims at the places of a body: which temporary holds a word, from where on, and up to where.

use crate::addresses::Chains;
use crate::draft::{Draft, Held, NOBODY, NOWHERE, Part, is_bare, known_by, only};
use crate::flow::{NONE, Way, is_counted, settles, way_at};
use crate::sets::{has, short};
use tac_code::code::OutOfMemory;
use tac_pass::table::{Known, Reach, Rows, Word};

impl<'a> Draft<'a> {
    pub(super) fn holder_of(&self, temporary: u32) -> u32 {
        let at = temporary as usize;
        if at < self.holders.len() {
            self.holders[at]
        } else {
            NOBODY
        }
    }

    pub(super) fn set_holder(&mut self, temporary: u32, holder: u32) {
        let at = temporary as usize;
        if at < self.holders.len() {
            self.holders[at] = holder;
        }
    }

    // the place of a word that the region holds
    pub(super) fn pinned(&self, item: usize) -> Option<usize> {
        if item >= self.items.list.len() {
            return None;
        }
        let at = self.items.list[item].minded;
        if at < self.words.len() && self.words[at].holder != NOBODY {
            Some(at)
        } else {
            None
        }
    }

    pub(super) fn enter(&mut self, part: &Part) -> Result<(), OutOfMemory> {
        self.region = Some(part.region);
        self.moved = part.pins.moved;
        self.open = part.pins.open;
        if !self.has_loops && !part.pins.is_seen {
            self.is_unseen = true;
            self.settles = NONE;
        }
        self.common = None;
        for at in 0..self.holders.len() {
            self.holders[at] = short(at);
        }
        for pin in part.pins.list.iter() {
            if pin.item < self.items.list.len() {
                let at = self.items.list[pin.item].minded;
                if at < self.words.len() {
                    self.words[at] = Held {
                        holder: pin.holder,
                        is_stored: pin.is_stored,
                        is_held: false,
                        is_elsewhere: true,
                        is_stale: false,
                        ..self.words[at]
                    };
                }
            }
        }
        self.chains = Chains::of(self.alloc, self.body, self.ways, part.region, &part.pins)?;
        self.begun = 0;
        self.kept = part.pins.kept.as_slice().to_vec(self.alloc)?;
        self.passed = 0;
        Ok(())
    }

    // after a region nothing is held
    pub(super) fn leave(&mut self) {
        self.region = None;
        for at in 0..self.words.len() {
            self.words[at].holder = NOBODY;
            self.words[at].is_held = false;
            self.words[at].is_stale = false;
        }
    }

    // whether the words are held at the target of a jump
    pub(super) fn holds(&self, place: usize) -> bool {
        match self.region {
            Some(region) => region.has(place) && !is_bare(self.ways, place),
            None => false,
        }
    }

    // whether nobody sees a word from a place on
    pub(super) fn is_dead(&self, place: usize, held: &Held) -> bool {
        if !self.has_loops {
            return place > held.last && (self.is_unseen || !way_at(self.ways, place).looks);
        }
        let is_inside = match self.region {
            Some(region) => place >= region.start && place < region.behind(),
            None => false,
        };
        place > held.last && !is_inside
    }

    // whether a body without loops has no use for what holds a word from a place on
    pub(super) fn is_past(&self, place: usize, held: &Held) -> bool {
        let is_kept = held.is_fixed && place > self.settles;
        !self.has_loops && place > held.last && (is_kept || self.is_dead(place, held))
    }

    // the word whose holder a control variable is counted on in
    pub(super) fn counted_at(&self, place: usize) -> Option<usize> {
        if !is_counted(self.ways, place) {
            return None;
        }
        let way = way_at(self.ways, place);
        let load = way_at(self.ways, way.last.saturating_sub(1));
        if way.first == way.last && load.item == way.given {
            self.pinned(way.given)
        } else {
            None
        }
    }

    // whether the store of a word that is held may be put off at the targets of jumps
    fn may_wait(&self, held: &Held, place: usize, way: &Way) -> bool {
        let is_unseen = self.is_unseen || !way.looks || place <= self.settles;
        held.is_stored || (held.is_fixed && self.settles > 0 && is_unseen)
    }

    // what is known at the targets of jumps; whether words are held in common
    fn set_claimed(&mut self, place: usize, way: &Way) -> bool {
        let holds = self.holds(place);
        for at in 0..self.words.len() {
            let held = self.words[at];
            let is_held = holds && held.holder != NOBODY && !self.is_past(place, &held);
            self.words[at].is_held = is_held;
            self.words[at].is_elsewhere = false;
            self.words[at].is_stale = is_held && self.may_wait(&held, place, way);
        }
        for at in 0..self.holders.len() {
            let temporary = short(at);
            self.holders[at] = if has(way.lives, temporary) {
                temporary
            } else {
                NOBODY
            };
        }
        let Some(at) = self.counted_at(place) else {
            return holds;
        };
        if at < self.words.len() {
            let holder = self.words[at].holder;
            self.set_holder(only(way.writes), holder);
        }
        false
    }

    // what is claimed at the target of a jump
    pub(super) fn claim(&mut self, place: usize, way: &Way) -> Result<Rows, OutOfMemory> {
        let is_kept = self.is_kept(place);
        if !self.set_claimed(place, way) || is_kept {
            return self.claimed(place);
        }
        if let Some(rows) = &self.common
            && self.has_loops
            && self.alive == way.lives
        {
            return rows.copied(self.alloc);
        }
        let rows = self.claimed(place)?;
        self.common = Some(rows.copied(self.alloc)?);
        self.alive = way.lives;
        Ok(rows)
    }

    fn claimed(&self, place: usize) -> Result<Rows, OutOfMemory> {
        let mut list = Vec::with_capacity(self.alloc, self.holders.len())?;
        for holder in self.holders.iter() {
            list.push(known_by(*holder, Reach::Anywhere))?;
        }
        self.set_reaches(place, list.as_mut_slice());
        let is_early = self.is_early(place);
        let mut words = Vec::with_capacity(self.alloc, self.words.len())?;
        for held in self.words.iter() {
            let holder = if held.is_held { held.holder } else { NOBODY };
            let reach = if held.is_fixed && is_early {
                NOWHERE
            } else {
                Reach::Anywhere
            };
            words.push(Word {
                value: known_by(holder, reach),
                stale: held.is_stale || self.is_dead(place, held),
                blank: false,
            })?;
        }
        Ok(Rows::new(list, words))
    }

    // what addresses are known to be at the targets of jumps
    fn set_reaches(&self, place: usize, list: &mut [Known]) {
        for at in self.passed..self.kept.len() {
            if at >= self.kept.len() || self.kept[at].place != place {
                return;
            }
            let kept = self.kept[at];
            let temporary = kept.temporary as usize;
            if temporary < list.len() {
                list[temporary].reach = Reach::Within(kept.low, kept.high);
            }
        }
    }

    // whether addresses are still known at the target of a jump
    fn is_kept(&mut self, place: usize) -> bool {
        for _ in self.passed..self.kept.len() {
            if self.passed < self.kept.len() && self.kept[self.passed].place < place {
                self.passed = self.passed.saturating_add(1);
            } else {
                break;
            }
        }
        self.passed < self.kept.len() && self.kept[self.passed].place == place
    }
}
