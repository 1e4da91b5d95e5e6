// The plan of a routine, a place after the other. Nothing is proved of it: what comes out is tested.

mod actions;
mod claims;

use crate::addresses::Chains;
use crate::flow::{Way, is_join, settles, way_at};
use crate::items::Items;
use crate::look::{Kept, Site};
use crate::regions::Region;
use crate::sets::{all_below, short};
use crate::words::Pins;
use std::alloc::Global;
use std::mem;
use tac_code::code::{Instruction, OutOfMemory};
use tac_pass::plan::{Plan, Step};
use tac_pass::table::{Action, Known, Reach, Rows, Word};

// No temporary.
const NOBODY: u32 = u32::MAX;

const NOWHERE: Reach = Reach::Within(0, 0);

/// A region with what it holds.
#[derive(Drop)]
pub struct Part {
    pub region: Region,
    pub pins: Pins,
}

/// A word that is tracked, and what becomes of it at the draft's place.
#[derive(Clone, Copy)]
struct Held {
    word: u32,
    // its place in the list of words
    item: usize,
    // the temporary that is to hold it, if one is
    holder: u32,
    // whether the region stores it
    is_stored: bool,
    // whether it is stored only once in the routine
    is_fixed: bool,
    // the last place where it may be seen
    last: usize,
    // whether it is held here
    is_held: bool,
    // whether another temporary may hold it here
    is_elsewhere: bool,
    // whether the new frame may have something else
    is_stale: bool,
}

/// A plan that is being made.
#[derive(Drop)]
pub struct Draft<'a> {
    alloc: Global,
    body: &'a [Instruction],
    ways: &'a [Way],
    // the temporaries that may hold what others are given
    usable: u64,
    first_call: usize,
    // whether there are loops
    has_loops: bool,
    // the place before which stores of what never changes are put off, or none
    settles: usize,
    // whether nobody but the routine's own loads comes to words
    is_unseen: bool,
    items: &'a Items,
    words: Vec<Held>,
    // of each old temporary the new one that holds it
    holders: Vec<u32>,
    steps: Vec<Step>,
    region: Option<Region>,
    // the temporaries whose values may be in others, and those in which they may be
    moved: u64,
    open: u64,
    // what is computed again, and how many chains of that have begun
    chains: Chains,
    begun: usize,
    // what is known of addresses at the targets of jumps, and how much of that is already passed
    kept: Vec<Kept>,
    passed: usize,
    // what is claimed in the region if these are alive and words are held
    common: Option<Rows>,
    alive: u64,
}

fn known_by(holder: u32, reach: Reach) -> Known {
    Known {
        holder: if holder == NOBODY { None } else { Some(holder) },
        reach,
    }
}

// Whether a call goes on to the target of a jump: nothing is held there.
fn is_bare(ways: &[Way], place: usize) -> bool {
    match place.checked_sub(1) {
        Some(before) => way_at(ways, before).calls(),
        None => false,
    }
}

// The only temporary of a set.
fn only(set: u64) -> u32 {
    set.trailing_zeros()
}

// The words that are kept in mind, which nothing holds yet.
fn held_words(
    alloc: Global,
    site: Site<'_>,
    items: &Items,
    minded: &[usize],
) -> Result<Vec<Held>, OutOfMemory> {
    let mut words = Vec::with_capacity(alloc, minded.len())?;
    for at in minded {
        if *at < items.list.len() {
            let item = items.list[*at];
            words.push(Held {
                word: item.word,
                item: *at,
                holder: NOBODY,
                is_stored: false,
                is_fixed: item.stores == 1,
                last: if site.flow.has_loops {
                    item.last.max(site.flow.last_look)
                } else {
                    item.last
                },
                is_held: false,
                is_elsewhere: false,
                is_stale: false,
            })?;
        }
    }
    Ok(words)
}

impl<'a> Draft<'a> {
    /// Nothing yet.
    pub fn new(
        alloc: Global,
        site: Site<'a>,
        items: &'a Items,
        minded: &[usize],
    ) -> Result<Draft<'a>, OutOfMemory> {
        let words = held_words(alloc, site, items, minded)?;
        let mut holders = Vec::with_capacity(alloc, site.temporaries as usize)?;
        for temporary in 0..site.temporaries {
            holders.push(temporary)?;
        }
        Ok(Draft {
            alloc,
            body: site.routine.body.as_slice(),
            ways: site.flow.ways.as_slice(),
            usable: all_below(site.temporaries) & !site.flow.across,
            first_call: site.flow.first_call,
            has_loops: site.flow.has_loops,
            settles: settles(site.flow),
            is_unseen: false,
            items,
            words,
            holders,
            steps: Vec::with_capacity(alloc, site.flow.ways.len())?,
            region: None,
            moved: 0,
            open: 0,
            chains: Chains::none(alloc),
            begun: 0,
            kept: Vec::new(alloc),
            passed: 0,
            common: None,
            alive: 0,
        })
    }

    fn action(&mut self, place: usize, way: &Way, own: Option<usize>) -> Action {
        match own {
            Some(at) if way.writes != 0 => self.load_action(place, way, at),
            Some(at) => self.store_action(place, way, at),
            None if way.writes != 0 => self.give_action(place, way),
            None if self.is_vain(way) => Action::Spare,
            None => Action::Keep(0),
        }
    }

    fn go_over(&mut self, place: usize, way: &Way) -> Result<(), OutOfMemory> {
        let join = if way.is_join() {
            Some(self.claim(place, way)?)
        } else {
            None
        };
        let own = self.pinned(way.item);
        let mut puts = self.puts(place, way, own)?;
        let own = if self.region.is_none() { None } else { own };
        if let Some(at) = own {
            self.fetch_for_load(&mut puts, place, way, at)?;
        }
        let action = self.action(place, way, own);
        if way.calls() {
            for at in 0..self.words.len() {
                self.words[at].is_held = false;
                self.words[at].is_elsewhere = false;
            }
        }
        self.steps.push(Step { join, puts, action })?;
        Ok(())
    }

    // a place outside of all regions
    fn pass_over(&mut self, place: usize, way: &Way) -> Result<(), OutOfMemory> {
        let join = if way.is_join() {
            Some(self.claim(place, way)?)
        } else {
            None
        };
        let action = Action::Keep(if way.writes == 0 { 0 } else { only(way.writes) });
        self.steps.push(Step {
            join,
            puts: Vec::new(self.alloc),
            action,
        })?;
        Ok(())
    }

    fn begin(&self) -> Result<Rows, OutOfMemory> {
        let mut list = Vec::with_capacity(self.alloc, self.holders.len())?;
        for at in 0..self.holders.len() {
            list.push(known_by(short(at), NOWHERE))?;
        }
        let mut words = Vec::with_capacity(self.alloc, self.words.len())?;
        for _ in 0..self.words.len() {
            words.push(Word {
                value: known_by(NOBODY, NOWHERE),
                stale: false,
                blank: true,
            })?;
        }
        Ok(Rows::new(list, words))
    }

    /// Goes over the body.
    pub fn plan(&mut self, parts: &[Part]) -> Result<Plan, OutOfMemory> {
        let begin = self.begin()?;
        let ways = self.ways;
        let mut coming = 0;
        for (place, way) in ways.iter().enumerate() {
            if coming < parts.len() && parts[coming].region.start == place {
                self.enter(&parts[coming])?;
                coming = coming.saturating_add(1);
            }
            let Some(region) = self.region else {
                self.pass_over(place, way)?;
                continue;
            };
            self.go_over(place, way)?;
            if place.saturating_add(1) >= region.behind() {
                self.leave();
            }
        }
        let mut minded = Vec::with_capacity(self.alloc, self.words.len())?;
        for held in self.words.iter() {
            minded.push(held.word)?;
        }
        Ok(Plan {
            minded,
            begin,
            steps: mem::replace(&mut self.steps, Vec::new(self.alloc)),
        })
    }
}
