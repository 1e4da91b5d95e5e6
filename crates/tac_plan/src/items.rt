// The words of the own frame that a body loads and stores.

use crate::flow::{Kind, NONE, Way, is_join, mark_given};
use std::alloc::Global;
use tac_code::code::OutOfMemory;

// The most words of a body that are considered.
const MOST_WORDS: usize = 48;

// How many words can be distinguished by their last digits.
const SLOTS: usize = 256;

/// A word of the own frame.
#[derive(Clone, Copy)]
pub struct Item {
    /// Its number.
    pub word: u32,
    /// How many places store it.
    pub stores: u32,
    /// The first of them.
    pub first: usize,
    /// The temporary that is stored there.
    pub from: u64,
    /// The last place that loads it.
    pub last: usize,
    /// Its place among the words that are tracked; greater than all of these if it has none.
    pub minded: usize,
    // whether it is stored in this region
    pub(crate) is_stored: bool,
    // what loads and stores weigh that need no more be made
    pub(crate) won: u64,
    // the old temporaries that are not needed then
    pub(crate) soft: u64,
    // those among them that are counted on in the next turn
    pub(crate) turned: u64,
    // in a body without loops, how many calls there were when it was last loaded or stored, and when it was last
    // stored, plus one
    pub(crate) seen: u32,
    pub(crate) waits: u32,
}

impl Item {
    /// Whether the body never loads it.
    pub fn is_vain(&self) -> bool {
        self.last == 0
    }

    // In a body without loops, after `calls` calls, plus one: a store that was put off until a call had to be made
    // there.
    pub(crate) fn settle(&mut self, calls: u32) {
        if self.waits != 0 && self.waits < calls {
            self.won = self.won.saturating_sub(1);
        }
        self.waits = 0;
    }

    // It is loaded or stored there: a load after a call counts as a load.
    pub(crate) fn count(&mut self, calls: u32, is_store: bool) {
        if is_store {
            self.settle(calls);
            self.waits = calls;
        }
        if is_store || self.seen == calls {
            self.won = self.won.saturating_add(1);
        }
        self.seen = calls;
    }
}

/// The words of a body.
#[derive(Drop)]
pub struct Items {
    /// All that are distinguished.
    pub list: Vec<Item>,
    // by the last digits of the number, the place in the list and one
    slots: Vec<u8>,
}

fn slot_of(word: u32) -> usize {
    word as usize % SLOTS
}

impl Items {
    // the place of a word in the list
    fn find(&self, word: u32) -> Option<usize> {
        let slot = slot_of(word);
        if slot >= self.slots.len() {
            return None;
        }
        let at = (self.slots[slot] as usize).checked_sub(1)?;
        if at < self.list.len() && self.list[at].word == word {
            Some(at)
        } else {
            None
        }
    }

    // a word that is stored at a place for the first time
    fn add(&mut self, word: u32, from: u64, place: usize) -> Result<usize, OutOfMemory> {
        let slot = slot_of(word);
        let count = self.list.len();
        if count >= MOST_WORDS || slot >= self.slots.len() || self.slots[slot] != 0 {
            return Ok(NONE);
        }
        self.slots[slot] = (count as u8).saturating_add(1);
        self.list.push(Item {
            word,
            stores: 0,
            from,
            first: place,
            last: 0,
            minded: NONE,
            is_stored: false,
            won: 0,
            soft: 0,
            turned: 0,
            seen: 0,
            waits: 0,
        })?;
        Ok(count)
    }

    // a word is loaded or stored at a place; returns its place in the list, to which a new one may be added
    fn note(
        &mut self,
        word: u32,
        reads: u64,
        place: usize,
        stores: bool,
        may_add: bool,
    ) -> Result<usize, OutOfMemory> {
        let at = match self.find(word) {
            Some(at) => at,
            None if stores && may_add => self.add(word, reads, place)?,
            None => NONE,
        };
        if at < self.list.len() {
            if stores {
                self.list[at].stores = self.list[at].stores.saturating_add(1);
            } else {
                self.list[at].last = place;
            }
        }
        Ok(at)
    }

    // nothing is known yet of a region
    pub(crate) fn clear(&mut self) {
        for at in 0..self.list.len() {
            let item = self.list[at];
            self.list[at] = Item {
                is_stored: false,
                won: 0,
                soft: 0,
                turned: 0,
                seen: 0,
                waits: 0,
                ..item
            };
        }
    }
}

// Which word a place loads or stores.
fn tell_item(
    items: &mut Items,
    ways: &mut [Way],
    place: usize,
    may_add: bool,
) -> Result<(), OutOfMemory> {
    if place >= ways.len() || ways[place].kind != Kind::Own {
        return Ok(());
    }
    let (word, reads, stores) = (ways[place].word, ways[place].reads, ways[place].writes == 0);
    let at = items.note(word, reads, place, stores, may_add)?;
    ways[place].item = at;
    if stores && at != NONE {
        mark_given(ways, place);
    }
    Ok(())
}

/// The words that are stored before the first target of a jump: only these are held. Each place is marked with the one
/// that it loads or stores.
pub fn items_of(alloc: Global, ways: &mut [Way]) -> Result<Items, OutOfMemory> {
    let mut items = Items {
        list: Vec::new(alloc),
        slots: vec![in alloc; 0u8; SLOTS]?,
    };
    let mut is_straight = true;
    for place in 0..ways.len() {
        is_straight = is_straight && !is_join(ways, place);
        tell_item(&mut items, ways, place, is_straight)?;
    }
    Ok(items)
}
