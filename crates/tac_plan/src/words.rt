// Which words of the own frame a region holds, and in which temporaries. Nothing is proved of it: what is chosen is
// tested.

use crate::flow::{Way, is_turn, lives_at};
use crate::items::{Item, Items};
use crate::look::{Kept, Look, Site};
use crate::regions::Region;
use crate::sets::{CONSIDERED, all_below, has, least, set_of, short};
use std::alloc::Global;
use tac_code::code::{Instruction, OutOfMemory};

// The most words that a region holds.
const MOST_HELD: usize = 8;

// What is won by a word, if calls weigh so much.
fn worth_of(item: &Item, calls: u64) -> u64 {
    let lost = if item.is_stored {
        calls.saturating_mul(2)
    } else {
        calls
    };
    item.won.saturating_sub(lost)
}

// The word that is worth most of those that are not taken.
fn next_item(list: &[Item], taken: u64, calls: u64, least: u64) -> Option<usize> {
    let mut found = None;
    let mut most = least;
    for (at, item) in list.iter().enumerate() {
        let worth = worth_of(item, calls);
        if worth > most && !has(taken, short(at)) {
            most = worth;
            found = Some(at);
        }
    }
    found
}

// A choice of words, the one that is worth most first.
#[derive(Drop)]
struct Choice {
    list: Vec<usize>,
    taken: u64,
}

fn chosen(alloc: Global, items: &Items, look: &Look<'_>) -> Result<Choice, OutOfMemory> {
    let mut choice = Choice {
        list: Vec::with_capacity(alloc, MOST_HELD)?,
        taken: 0,
    };
    for _ in 0..CONSIDERED {
        if choice.list.len() >= MOST_HELD {
            break;
        }
        let list = items.list.as_slice();
        let Some(at) = next_item(list, choice.taken, look.calls, look.least()) else {
            break;
        };
        choice.taken |= set_of(short(at));
        if at < items.list.len()
            && !(items.list[at].is_stored && look.is_seen)
            && !look.is_met(items.list[at].word)
            && !(items.list[at].is_vain() && look.is_unseen())
        {
            choice.list.push(at)?;
        }
    }
    Ok(choice)
}

// The temporaries that are needed if the first words of a choice are held.
fn needed(items: &Items, held: &[usize], hard: u64) -> u64 {
    let mut set = hard;
    for (at, item) in items.list.iter().enumerate() {
        if !is_among(held, at) {
            set |= item.soft;
        }
    }
    set
}

fn is_among(list: &[usize], wanted: usize) -> bool {
    for at in list {
        if *at == wanted {
            return true;
        }
    }
    false
}

/// A word that a region holds.
#[derive(Clone, Copy)]
pub struct Pin {
    /// Its place in the list of words.
    pub item: usize,
    /// The temporary that holds it.
    pub holder: u32,
    /// Whether it is stored in the region.
    pub is_stored: bool,
}

// The temporaries that may hold words.
#[derive(Clone, Copy)]
struct Open {
    // at all places of the region
    free: u64,
    // those that parameters arrive in, which are stored at once
    passed: u64,
    // those among them in which a word that is held begins
    liked: u64,
}

// The parameters that are used.
fn parameters_of(look: &Look<'_>) -> u64 {
    all_below(look.routine.parameters) & lives_at(look.ways, 0)
}

// The temporary that a word begins in, if it is a parameter.
fn parameter_of(item: &Item, parameters: u64) -> u64 {
    item.from & parameters
}

// The place from which on all parameters are stored.
fn settled(items: &Items, parameters: u64) -> usize {
    let mut settled = 0;
    for item in items.list.iter() {
        if parameter_of(item, parameters) != 0 {
            settled = item.first.saturating_add(1).max(settled);
        }
    }
    settled
}

fn open_for(items: &Items, held: &[usize], look: &Look<'_>, open: u64) -> Open {
    let parameters = parameters_of(look);
    let start = look.region.start;
    let alive = lives_at(look.ways, start);
    let later = lives_at(look.ways, start.max(settled(items, parameters)));
    let passed = open & alive & parameters & !later;
    let mut liked = 0;
    for at in held {
        if *at < items.list.len() {
            liked |= parameter_of(&items.list[*at], parameters) & passed;
        }
    }
    Open {
        free: open & !alive,
        passed,
        liked,
    }
}

impl Open {
    // a holder for a word
    fn take(&mut self, item: &Item, parameters: u64) -> Option<u32> {
        let own = parameter_of(item, parameters);
        let first = if own & self.passed != 0 {
            own
        } else if self.free != 0 || own != 0 {
            self.free
        } else {
            self.passed & !self.liked
        };
        let holder = least(first)?;
        self.free &= !set_of(holder);
        self.passed &= !set_of(holder);
        Some(holder)
    }
}

// Holders for words, as many as there are. Parameters may stay where they arrived.
fn pins_of(
    alloc: Global,
    items: &Items,
    held: &[usize],
    look: &Look<'_>,
    open: u64,
) -> Result<Vec<Pin>, OutOfMemory> {
    let mut open = open_for(items, held, look, open);
    let parameters = parameters_of(look);
    let mut pins = Vec::with_capacity(alloc, held.len())?;
    for at in held {
        if *at < items.list.len()
            && let Some(holder) = open.take(&items.list[*at], parameters)
        {
            pins.push(Pin {
                item: *at,
                holder,
                is_stored: items.list[*at].is_stored,
            })?;
        }
    }
    Ok(pins)
}

/// What a region holds.
#[derive(Drop)]
pub struct Pins {
    /// The words.
    pub list: Vec<Pin>,
    /// The temporaries whose values may be in others.
    pub moved: u64,
    /// The temporaries in which these may be.
    pub open: u64,
    /// The other temporaries, except the holders.
    pub others: u64,
    /// Whether others, or an address, may come to words of the own frame.
    pub is_seen: bool,
    /// What is known of addresses at the targets of jumps, in order.
    pub kept: Vec<Kept>,
    /// The temporaries in which something is alive across a call.
    pub across: u64,
}

impl Pins {
    fn none(alloc: Global, is_seen: bool) -> Pins {
        Pins {
            list: Vec::new(alloc),
            moved: 0,
            open: 0,
            others: 0,
            is_seen,
            kept: Vec::new(alloc),
            across: 0,
        }
    }
}

fn holders_of(pins: &[Pin]) -> u64 {
    let mut set = 0;
    for pin in pins {
        set |= set_of(pin.holder);
    }
    set
}

// The temporaries with values that can't be moved, if these words are held.
fn unmoved(items: &Items, held: &[usize], look: &Look<'_>) -> u64 {
    let mut set = look.fixed | lives_at(look.ways, look.region.behind());
    for (at, item) in items.list.iter().enumerate() {
        if !is_among(held, at) {
            set |= item.turned;
        }
    }
    set
}

// Whether the result of a place is in the holder of a word that is held.
fn is_shared(held: &[usize], ways: &[Way], place: usize, way: &Way) -> bool {
    is_among(held, way.given)
        || (is_among(held, way.item) && (way.is_short || is_turn(ways, place, way)))
}

// Whether the values that are moved have room wherever they are alive.
fn has_room(held: &[usize], look: &Look<'_>, holders: u64, moved: u64, open: u64) -> bool {
    let room = open.count_ones();
    let mut shared = lives_at(look.ways, look.region.start) & holders;
    for place in look.region.start..look.region.behind() {
        if place < look.ways.len() {
            let way = look.ways[place];
            shared &= !way.writes;
            if way.writes != 0 && is_shared(held, look.ways, place, &way) {
                shared |= way.writes;
            }
            let alive = lives_at(look.ways, place.saturating_add(1)) | way.writes;
            if (alive & moved & !shared).count_ones() > room {
                return false;
            }
        }
    }
    true
}

// Holders for words, with values that are in the way moved to other temporaries. `None` if there aren't enough.
fn moved_pins(
    alloc: Global,
    items: &Items,
    held: &[usize],
    look: &Look<'_>,
    usable: u64,
) -> Result<Option<Pins>, OutOfMemory> {
    let open = usable & !unmoved(items, held, look);
    let list = pins_of(alloc, items, held, look, open)?;
    if list.len() != held.len() {
        return Ok(None);
    }
    let holders = holders_of(list.as_slice());
    let begun = open_for(items, held, look, open);
    let moved = begun.free | begun.passed;
    let rest = moved & !holders;
    if !has_room(held, look, holders, moved, rest) {
        return Ok(None);
    }
    Ok(Some(Pins {
        list,
        moved,
        open: rest,
        others: usable & !moved & !holders,
        is_seen: look.may_see(),
        kept: look.kept.as_slice().to_vec(alloc)?,
        across: look.across,
    }))
}

// Whether all parameters that are held stay where they arrived.
fn are_in_place(items: &Items, pins: &[Pin], look: &Look<'_>) -> bool {
    let parameters = parameters_of(look);
    for pin in pins {
        if pin.item < items.list.len() {
            let own = parameter_of(&items.list[pin.item], parameters);
            if own != 0 && own != set_of(pin.holder) {
                return false;
            }
        }
    }
    true
}

// Holders for the first words of a choice; `None` if there aren't enough.
fn held_pins(
    alloc: Global,
    items: &Items,
    held: &[usize],
    look: &Look<'_>,
    usable: u64,
) -> Result<Option<Pins>, OutOfMemory> {
    let open = usable & !needed(items, held, look.hard);
    let list = pins_of(alloc, items, held, look, open)?;
    if list.len() != held.len() {
        return moved_pins(alloc, items, held, look, usable);
    }
    if !look.has_loops && !are_in_place(items, list.as_slice(), look) {
        let other = moved_pins(alloc, items, held, look, usable)?;
        if let Some(pins) = other
            && are_in_place(items, pins.list.as_slice(), look)
        {
            return Ok(Some(pins));
        }
    }
    let start = lives_at(look.ways, look.region.start);
    let holders = holders_of(list.as_slice());
    let open = usable & !unmoved(items, held, look) & !start & !holders;
    Ok(Some(Pins {
        list,
        moved: open,
        open,
        others: usable & !open & !holders,
        is_seen: look.may_see(),
        kept: look.kept.as_slice().to_vec(alloc)?,
        across: look.across,
    }))
}

// Holders for as many of the first words of a choice as there are holders.
fn most_pins(
    alloc: Global,
    items: &Items,
    list: &[usize],
    look: &Look<'_>,
    usable: u64,
) -> Result<Pins, OutOfMemory> {
    let mut many = list.len();
    for _ in 0..list.len() {
        if many <= list.len() {
            let held = &list[..many];
            if let Some(pins) = held_pins(alloc, items, held, look, usable)? {
                return Ok(pins);
            }
        }
        many = many.saturating_sub(1);
    }
    Ok(Pins::none(alloc, look.may_see()))
}

/// Chooses what a region holds, the word that is worth most first.
pub fn pins_in(
    alloc: Global,
    site: &Site<'_>,
    items: &mut Items,
    region: Region,
) -> Result<Pins, OutOfMemory> {
    items.clear();
    let body = site.routine.body.as_slice();
    let ways = site.flow.ways.as_slice();
    let usable = all_below(site.temporaries) & !site.flow.across;
    let mut look = Look::new(alloc, site, region)?;
    for place in region.start..region.behind() {
        if place < body.len() && place < ways.len() {
            look.look(items, &body[place], place, &ways[place])?;
        }
    }
    look.settle(items);
    if look.is_lost {
        return Ok(Pins::none(alloc, true));
    }
    let choice = chosen(alloc, items, &look)?;
    most_pins(alloc, items, choice.list.as_slice(), &look, usable)
}
