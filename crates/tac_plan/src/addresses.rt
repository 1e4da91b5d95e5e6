// Addresses, sums and words that are computed or loaded more than once in a straight stretch: the first result stays in
// a temporary of its own until its last use, so that it can be copied. Nothing is proved about this: what is chosen is
// tested.

mod numbering;

use crate::flow::{NONE, Way, is_turn, lives_at, way_at};
use crate::regions::Region;
use crate::sets::{CONSIDERED, set_of};
use crate::words::Pins;
use std::alloc::Global;
use tac_code::code::{Instruction, OutOfMemory};
use tac_known::again::Fact;

// How many of the last results are remembered.
const MOST_TERMS: usize = 12;

// The numbers of words come after those of temporaries; the first of them is the number for none.
const FIRST_WORD: usize = CONSIDERED as usize + 1;

// How many places after its start a chain ends at the latest.
const FAR: usize = 64;

// The most places of a chain after the first one; a quarter of that, and a sixteenth, if there is no room.
const MOST_LINKS: u32 = 16;

const ATTEMPTS: u32 = 3;

// How many of the chains that began last are examined.
const MOST_ACTIVE: usize = 16;

/// Places that compute the same, the first to the last one, and what holds it meanwhile.
#[derive(Clone, Copy)]
pub struct Chain {
    pub start: usize,
    /// The last place where the result is used.
    pub end: usize,
    /// The temporary that holds it, if one was found.
    pub holder: u32,
    /// Temporaries that hold nothing from the first to the last place, even if no values are moved.
    pub idle: u64,
    /// Whether there is room if values are moved.
    pub fits: bool,
}

// Where a chain ends, what is idle up to there, and whether there is room for it otherwise.
#[derive(Clone, Copy)]
struct End {
    place: usize,
    idle: u64,
    fits: bool,
}

// What a place computes, with numbers of values instead of temporaries.
#[derive(Clone, Copy)]
struct Term {
    place: usize,
    fact: Fact,
}

// The numbers of values. What begins in a straight stretch has a new one.
#[derive(Drop)]
struct Numbers {
    // of temporaries, and of words after them; 0 if none was computed in this stretch
    list: Vec<u32>,
    next: u32,
    terms: Vec<Term>,
    // the one among them that was remembered first
    oldest: usize,
}

/// The chains of a region.
#[derive(Drop)]
pub struct Chains {
    pub list: Vec<Chain>,
    // the region's first place, and by places from there on the chain that they belong to
    start: usize,
    at: Vec<usize>,
}

// How many temporaries of those that values may be moved to are needed.
#[derive(Drop)]
struct Needs {
    // by places of the region
    list: Vec<u32>,
    start: usize,
    room: u32,
}

impl Needs {
    fn fits(&self, place: usize, more: u32) -> bool {
        let at = place.wrapping_sub(self.start);
        at < self.list.len() && self.list[at].saturating_add(more) <= self.room
    }

    fn add(&mut self, place: usize, more: u32) {
        let at = place.wrapping_sub(self.start);
        if at < self.list.len() {
            self.list[at] = self.list[at].saturating_add(more);
        }
    }
}

impl Needs {
    fn new(alloc: Global, ways: &[Way], region: Region, pins: &Pins) -> Result<Needs, OutOfMemory> {
        let mut list = Vec::with_capacity(alloc, region.exit().saturating_sub(region.start))?;
        let mut shared = 0;
        for place in region.start..region.exit() {
            let way = way_at(ways, place);
            shared &= !way.writes;
            if is_shared(pins, ways, place, &way) {
                shared |= way.writes;
            }
            let alive = lives_at(ways, place.saturating_add(1)) | way.writes;
            list.push((alive & pins.moved & !shared).count_ones())?;
        }
        Ok(Needs {
            list,
            start: region.start,
            room: pins.open.count_ones(),
        })
    }
}

// The place of a word among those that are held.
fn pin_of(pins: &Pins, item: usize) -> usize {
    if item != NONE {
        for (at, pin) in pins.list.iter().enumerate() {
            if pin.item == item {
                return at;
            }
        }
    }
    NONE
}

// Whether the result of a place is in the holder of a word.
fn is_shared(pins: &Pins, ways: &[Way], place: usize, way: &Way) -> bool {
    way.writes != 0
        && (pin_of(pins, way.given) != NONE
            || ((way.is_short || is_turn(ways, place, way)) && pin_of(pins, way.item) != NONE))
}

// What chains are chosen by.
#[derive(Clone, Copy)]
struct View<'a> {
    ways: &'a [Way],
    pins: &'a Pins,
    region: Region,
    // by places of the region, the next place that computes the same
    next: &'a [usize],
}

// Where a chain is.
#[derive(Clone, Copy)]
struct Link {
    // the next place that computes the same
    wanted: usize,
    // the old temporary in which what was computed last is alive
    alive: u64,
    // how many more places may belong to it
    left: u32,
}

impl<'a> View<'a> {
    fn next_of(&self, place: usize) -> usize {
        let at = place.wrapping_sub(self.region.start);
        if at < self.next.len() {
            self.next[at]
        } else {
            NONE
        }
    }

    // whether the result of a place may be in any temporary
    fn may_move(&self, place: usize) -> bool {
        let way = way_at(self.ways, place);
        way.is_local && pin_of(self.pins, way.given) == NONE
    }

    // Whether a place of a chain puts its result into the chain's holder: not if the previous result is still used
    // after it.
    fn is_kept(&self, link: &Link, place: usize) -> bool {
        let behind = lives_at(self.ways, place.saturating_add(1));
        let old = link.alive & !way_at(self.ways, place).writes;
        self.may_move(place) && old & behind == 0
    }

    // goes on over a place; returns whether the chain ends there
    fn go_on(&self, link: &mut Link, place: usize) -> bool {
        let way = way_at(self.ways, place);
        let is_kept = self.is_kept(link, place);
        link.alive &= !way.writes;
        if place == link.wanted {
            if is_kept {
                link.alive = way.writes;
            }
            link.left = link.left.saturating_sub(1);
            link.wanted = if link.left == 0 {
                NONE
            } else {
                self.next_of(place)
            };
        }
        link.alive &= lives_at(self.ways, place.saturating_add(1));
        link.wanted == NONE && link.alive == 0
    }

    fn begin(&self, start: usize, left: u32) -> Link {
        Link {
            wanted: self.next_of(start),
            alive: way_at(self.ways, start).writes,
            left,
        }
    }

    // how many more temporaries it needs after a place
    fn more(&self, link: &Link) -> u32 {
        if link.alive & self.pins.moved == 0 {
            1
        } else {
            0
        }
    }

    // which temporaries hold nothing after a place
    fn idle_at(&self, place: usize) -> u64 {
        let alive = lives_at(self.ways, place.saturating_add(1));
        self.pins.others & !(alive | way_at(self.ways, place).writes)
    }

    // the end of a chain, if there is room for it, or more temporaries are idle than it uses
    fn end_of(&self, needs: &Needs, start: usize, left: u32, used: u32) -> Option<End> {
        let mut link = self.begin(start, left);
        let mut idle = self.idle_at(start);
        let mut fits = needs.fits(start, self.more(&link));
        let first = start.saturating_add(1);
        for place in first..first.saturating_add(FAR).min(self.region.exit()) {
            if !fits && idle.count_ones() <= used {
                return None;
            }
            if self.go_on(&mut link, place) {
                return Some(End { place, idle, fits });
            }
            idle &= self.idle_at(place);
            fits = fits && needs.fits(place, self.more(&link));
        }
        None
    }
}

impl Chains {
    /// No chains.
    pub fn none(alloc: Global) -> Chains {
        Chains {
            list: Vec::new(alloc),
            start: 0,
            at: Vec::new(alloc),
        }
    }

    // By places of a region, the next place that computes the same.
    fn next_in(
        alloc: Global,
        body: &[Instruction],
        ways: &[Way],
        region: Region,
        pins: &Pins,
    ) -> Result<Vec<usize>, OutOfMemory> {
        let mut next = vec![in alloc; NONE; region.exit().saturating_sub(region.start)]?;
        let mut numbers = Numbers::new(alloc, pins.list.len())?;
        for place in region.start..region.exit() {
            let way = way_at(ways, place);
            if way.is_join() {
                numbers.clear();
            }
            if place < body.len() {
                let word = pin_of(pins, way.item);
                let before = numbers.go_on(&body[place], place, &way, word)?;
                let at = before.wrapping_sub(region.start);
                if before != NONE && at < next.len() {
                    next[at] = place;
                }
            }
            if way.calls() {
                numbers.clear();
            }
        }
        Ok(next)
    }

    fn add(
        &mut self,
        view: &View<'_>,
        needs: &mut Needs,
        start: usize,
        end: End,
        left: u32,
    ) -> Result<(), OutOfMemory> {
        let number = self.list.len();
        self.list.push(Chain {
            start,
            end: end.place,
            holder: u32::MAX,
            idle: end.idle,
            fits: end.fits,
        })?;
        let mut link = view.begin(start, left);
        self.set(start, number);
        if end.fits {
            needs.add(start, view.more(&link));
        }
        for place in start.saturating_add(1)..end.place {
            if place == link.wanted && view.is_kept(&link, place) {
                self.set(place, number);
            }
            view.go_on(&mut link, place);
            if end.fits {
                needs.add(place, view.more(&link));
            }
        }
        Ok(())
    }

    // how many chains that aren't at an end have temporaries that were idle
    fn used_at(&self, place: usize) -> u32 {
        let mut used = 0u32;
        let many = self.list.len();
        for at in many.saturating_sub(MOST_ACTIVE)..many {
            if at < self.list.len() && !self.list[at].fits && place < self.list[at].end {
                used = used.saturating_add(1);
            }
        }
        used
    }

    // the longest chain that begins at a place and has room, or one of fewer places
    fn choose(
        &mut self,
        view: &View<'_>,
        needs: &mut Needs,
        start: usize,
    ) -> Result<(), OutOfMemory> {
        let mut left = MOST_LINKS;
        let used = self.used_at(start);
        for _ in 0..ATTEMPTS {
            if let Some(end) = view.end_of(needs, start, left, used) {
                return self.add(view, needs, start, end, left);
            }
            left /= 4;
        }
        Ok(())
    }

    fn set(&mut self, place: usize, number: usize) {
        let at = place.wrapping_sub(self.start);
        if at < self.at.len() {
            self.at[at] = number;
        }
    }

    /// The chain that a place belongs to.
    pub fn number_at(&self, place: usize) -> usize {
        let at = place.wrapping_sub(self.start);
        if at < self.at.len() {
            self.at[at]
        } else {
            NONE
        }
    }

    /// Those that began last.
    pub fn reserved(&self, begun: usize, place: usize) -> u64 {
        let mut set = 0;
        for at in begun.saturating_sub(MOST_ACTIVE)..begun {
            if at < self.list.len() {
                let chain = self.list[at];
                if chain.start < place && place < chain.end {
                    set |= set_of(chain.holder);
                }
            }
        }
        set
    }

    /// The chains of a region.
    pub fn of(
        alloc: Global,
        body: &[Instruction],
        ways: &[Way],
        region: Region,
        pins: &Pins,
    ) -> Result<Chains, OutOfMemory> {
        let next = Chains::next_in(alloc, body, ways, region, pins)?;
        let mut chains = Chains {
            list: Vec::new(alloc),
            start: region.start,
            at: vec![in alloc; NONE; next.len()]?,
        };
        let mut needs = Needs::new(alloc, ways, region, pins)?;
        let view = View {
            ways,
            pins,
            region,
            next: next.as_slice(),
        };
        for start in region.start..region.exit() {
            let is_again = view.next_of(start) != NONE;
            if (is_again || way_at(ways, start).writes & pins.across != 0)
                && chains.number_at(start) == NONE
                && view.may_move(start)
            {
                chains.choose(&view, &mut needs, start)?;
            }
        }
        Ok(chains)
    }
}
