// What instructions read and write, where they lead, and what is alive. Nothing is proved about it: what is chosen with
// it is tested.

mod reading;

use crate::flow::reading::read;
pub use reading::named_in;
use std::alloc::Global;
use tac_code::code::{Instruction, OutOfMemory};

// The most walks over a body until one finds nothing new.
const WALKS: u32 = 6;

/// No place, or no place in a list.
pub const NONE: usize = usize::MAX;

/// What matters of an instruction besides what it reads and writes.
#[derive(Clone, Copy, PartialEq, Eq)]
pub enum Kind {
    /// Nothing.
    Plain,
    /// It loads or stores a word of the own frame.
    Own,
    /// It loads or stores something else.
    Memory,
    /// It passes on an address, or finds one to be that of an object.
    Address,
    /// It is a call.
    Call,
}

/// What an instruction reads and writes, and where it leads; and the facts about the body that matter there.
#[derive(Clone, Copy)]
pub struct Way {
    /// The temporaries that are read.
    pub reads: u64,
    /// The temporary that is written.
    pub writes: u64,
    /// The temporaries that are alive before it.
    pub lives: u64,
    /// The place that is jumped to.
    pub target: usize,
    /// The first place that jumps here.
    pub first: usize,
    /// The last one; less than the first one if there is none.
    pub last: usize,
    /// How many loops begin here.
    pub loops: u32,
    /// The word of the own frame that is loaded or stored.
    pub word: u32,
    /// Its place among those that are distinguished.
    pub item: usize,
    /// The word in which the result is stored next, perhaps after a test of its range, and not used otherwise: its
    /// place among those that are distinguished.
    pub given: usize,
    pub kind: Kind,
    /// Whether it is a copy.
    pub copies: bool,
    /// Whether the next place may follow.
    pub falls: bool,
    /// Whether a call, or a load through an address, may come from here on; known only for bodies without loops.
    pub looks: bool,
    /// Whether the result is used only before any target of a jump, any call and any store of a word.
    pub is_short: bool,
    /// The same, whatever is stored.
    pub is_local: bool,
}

impl Way {
    /// Whether jumps lead here.
    pub fn is_join(&self) -> bool {
        self.first <= self.last
    }

    /// Whether it is a call.
    pub fn calls(&self) -> bool {
        self.kind == Kind::Call
    }

    /// Whether words of its own frame may be seen here by others, or through an address.
    pub fn is_look(&self) -> bool {
        self.calls() || (self.kind == Kind::Memory && self.writes != 0)
    }
}

// Past the end of a body: nothing is read or written, and it leads nowhere.
const NO_WAY: Way = Way {
    reads: 0,
    writes: 0,
    lives: 0,
    target: NONE,
    first: NONE,
    last: 0,
    loops: 0,
    word: 0,
    item: NONE,
    given: NONE,
    kind: Kind::Plain,
    copies: false,
    falls: false,
    looks: false,
    is_short: false,
    is_local: false,
};

/// What is known of a place.
pub fn way_at(ways: &[Way], place: usize) -> Way {
    if place < ways.len() {
        ways[place]
    } else {
        NO_WAY
    }
}

/// Whether jumps lead to a place.
pub fn is_join(ways: &[Way], place: usize) -> bool {
    place < ways.len() && ways[place].is_join()
}

/// What is alive before a place.
pub fn lives_at(ways: &[Way], place: usize) -> u64 {
    if place < ways.len() {
        ways[place].lives
    } else {
        0
    }
}

/// What is known of a body.
#[derive(Drop)]
pub struct Flow {
    pub ways: Vec<Way>,
    /// The first call, or no place.
    pub first_call: usize,
    /// The last call, or load through an address.
    pub last_look: usize,
    /// The temporaries in which something is alive across a call.
    pub across: u64,
    /// Whether there are loops.
    pub has_loops: bool,
}

/// Whether a body has a loop.
pub fn has_loop(body: &[Instruction]) -> bool {
    for instruction in body {
        if matches!(
            instruction,
            Instruction::JumpBack { .. } | Instruction::BranchBack { .. }
        ) {
            return true;
        }
    }
    false
}

// A place jumps to another.
fn arrive(ways: &mut [Way], target: usize, place: usize) {
    if target < ways.len() {
        ways[target].first = ways[target].first.min(place);
        ways[target].last = ways[target].last.max(place);
        if target <= place {
            ways[target].loops = ways[target].loops.saturating_add(1);
        }
    }
}

// What a walk back finds.
#[derive(Clone, Copy)]
struct Back {
    // whether more is alive at the starts of loops than was known
    grew: bool,
    across: u64,
}

// What is alive after a place; which of it goes on to the target of a jump or over a call, and which of that also over
// a store of a word; and whether words may be seen there.
#[derive(Clone, Copy)]
struct Behind {
    alive: u64,
    far: u64,
    bound: u64,
    looks: bool,
}

fn behind_place(ways: &[Way], way: &Way, next: Behind, is_next_join: bool) -> Behind {
    let mut alive = 0;
    let mut far = 0;
    let mut bound = 0;
    let mut looks = false;
    if way.falls {
        alive = next.alive;
        looks = next.looks;
        far = if is_next_join { next.alive } else { next.far };
        bound = if is_next_join { next.alive } else { next.bound };
    }
    if way.target != NONE {
        let there = lives_at(ways, way.target);
        alive |= there;
        far |= there;
        bound |= there;
        looks = looks || way_at(ways, way.target).looks;
    }
    if way.calls() {
        far |= alive;
    }
    let is_store = way.kind == Kind::Own && way.writes == 0;
    if is_store || way.calls() {
        bound |= alive;
    }
    Behind {
        alive,
        far,
        bound,
        looks,
    }
}

fn walk_back(ways: &mut [Way]) -> Back {
    let mut back = Back {
        grew: false,
        across: 0,
    };
    let mut next = Behind {
        alive: 0,
        far: 0,
        bound: 0,
        looks: false,
    };
    let mut is_next_join = false;
    for place in (0..ways.len()).rev() {
        let way = ways[place];
        let found = behind_place(ways, &way, next, is_next_join);
        if way.calls() {
            back.across |= found.alive & !way.writes;
        }
        let alive = (found.alive & !way.writes) | way.reads;
        if way.loops > 0 && alive != way.lives {
            back.grew = true;
        }
        ways[place].lives = alive;
        let looks = found.looks || way.is_look();
        ways[place].looks = looks;
        ways[place].is_short = found.bound & way.writes == 0;
        ways[place].is_local = found.far & way.writes == 0;
        next = Behind {
            alive,
            far: found.far & !way.writes,
            bound: found.bound & !way.writes,
            looks,
        };
        is_next_join = way.is_join();
    }
    back
}

impl Flow {
    fn new(alloc: Global, body: &[Instruction]) -> Result<Flow, OutOfMemory> {
        let nothing = Way {
            falls: true,
            ..NO_WAY
        };
        let mut flow = Flow {
            ways: vec![in alloc; nothing; body.len()]?,
            first_call: NONE,
            last_look: 0,
            across: 0,
            has_loops: false,
        };
        for (place, instruction) in body.iter().enumerate() {
            if place < flow.ways.len() {
                read(&mut flow.ways[place], instruction, place);
            }
            flow.note(place);
        }
        Ok(flow)
    }

    fn note(&mut self, place: usize) {
        if place >= self.ways.len() {
            return;
        }
        let way = &self.ways[place];
        let calls = way.calls();
        if calls {
            self.first_call = self.first_call.min(place);
        }
        if way.is_look() {
            self.last_look = place;
        }
        self.has_loops = self.has_loops || way.target <= place;
    }

    fn arrive_all(&mut self) {
        let ways = self.ways.as_mut_slice();
        for place in 0..ways.len() {
            let target = way_at(ways, place).target;
            if target != NONE {
                arrive(ways, target, place);
            }
        }
    }

    /// What is known of a body. `None` if the walks keep finding more.
    pub fn of(alloc: Global, body: &[Instruction]) -> Result<Option<Flow>, OutOfMemory> {
        let mut flow = Flow::new(alloc, body)?;
        flow.arrive_all();
        for _ in 0..WALKS {
            let back = walk_back(flow.ways.as_mut_slice());
            if !back.grew {
                flow.across = back.across;
                return Ok(Some(flow));
            }
        }
        Ok(None)
    }
}

// The way on from a branch, if the other way leads to where nobody sees words any more.
fn way_on(ways: &[Way], place: usize) -> Option<usize> {
    let next = place.saturating_add(1);
    let target = way_at(ways, place).target;
    let other = way_at(ways, target);
    if !other.looks {
        return Some(next);
    }
    let is_alone = other.first == place
        && other.last == place
        && !way_at(ways, target.saturating_sub(1)).falls;
    if is_alone && !way_at(ways, next).looks {
        Some(target)
    } else {
        None
    }
}

/// The place after the branches at the start of a body that have a way to where nobody sees words any more: the start
/// of the other way; 0 if there are none. Stores before it are put off until there.
pub fn settles(flow: &Flow) -> usize {
    let mut settled = 0usize;
    if flow.has_loops {
        return settled;
    }
    let ways = flow.ways.as_slice();
    let mut place = 0usize;
    for _ in 0..ways.len() {
        let way = way_at(ways, place);
        if (way.is_join() && place != settled) || way.is_look() || !way.falls {
            break;
        }
        place = place.saturating_add(1);
        if way.target != NONE {
            let Some(next) = way_on(ways, place.saturating_sub(1)) else {
                break;
            };
            settled = next;
            place = next;
        }
    }
    settled
}

// Whether a place tests what is stored after it, and nothing else.
fn is_test(way: &Way, store: &Way) -> bool {
    way.kind == Kind::Plain
        && way.writes == 0
        && way.reads == store.reads
        && way.target == NONE
        && way.falls
        && !way.is_join()
}

/// Marks the places whose values are stored at another, in a word that is distinguished, and not used otherwise.
pub fn mark_given(ways: &mut [Way], place: usize) {
    let store = way_at(ways, place);
    if store.is_join() || lives_at(ways, place.saturating_add(1)) & store.reads != 0 {
        return;
    }
    let Some(mut before) = place.checked_sub(1) else {
        return;
    };
    if is_test(&way_at(ways, before), &store) {
        before = before.saturating_sub(1);
    }
    if before < ways.len() && ways[before].writes == store.reads {
        ways[before].given = store.item;
        tell_copied(ways, before);
    }
}

// The same for the place before, if this one copies its result, which is not used otherwise.
fn tell_copied(ways: &mut [Way], place: usize) {
    let copy = way_at(ways, place);
    let is_last = lives_at(ways, place.saturating_add(1)) & copy.reads == 0;
    if copy.copies
        && is_last
        && !copy.is_join()
        && let Some(before) = place.checked_sub(1)
        && before < ways.len()
        && ways[before].writes == copy.reads
    {
        ways[before].given = copy.given;
    }
}

/// Whether a control variable is counted on at a place, which only jumps back lead to.
pub fn is_counted(ways: &[Way], place: usize) -> bool {
    let way = way_at(ways, place);
    way.is_join()
        && way.first > place
        && way.reads == way.writes
        && way.writes != 0
        && !way_at(ways, place.saturating_sub(1)).falls
}

/// Whether the result of a place is used only by the jump back after it, and by the step of the control variable there.
pub fn is_turn(ways: &[Way], place: usize, way: &Way) -> bool {
    let next = place.saturating_add(1);
    let jump = way_at(ways, next);
    jump.target < place
        && !jump.is_join()
        && is_counted(ways, jump.target)
        && way_at(ways, jump.target).writes == way.writes
        && lives_at(ways, next.saturating_add(1)) & way.writes == 0
}
