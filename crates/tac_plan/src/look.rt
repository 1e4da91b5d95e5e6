// A look over a region: what may come to the words of the own frame, and what holding each of them would win. Nothing
// is proved of it: what is chosen by it is tested.

use crate::flow::{Flow, Kind, NONE, Way, is_join, is_turn, lives_at, settles, way_at};
use crate::items::Items;
use crate::regions::Region;
use crate::sets::{CONSIDERED, has, set_of};
use std::alloc::Global;
use tac_code::code::{Base, Instruction, OutOfMemory, TacRoutine};

// How many of the loops around a place are counted; each multiplies the count by eight.
const MOST_LOOPS: u32 = 5;

// The most ranges of the frame that are distinguished.
const MOST_RANGES: usize = 8;

/// What is known of a routine.
#[derive(Clone, Copy)]
pub struct Site<'a> {
    pub number: usize,
    pub routine: &'a TacRoutine,
    /// How many temporaries it may have.
    pub temporaries: u32,
    pub flow: &'a Flow,
}

/// Part of the own frame, in bytes.
#[derive(Clone, Copy)]
struct Range {
    low: u64,
    high: u64,
}

impl Range {
    fn meets(&self, word: u32) -> bool {
        let low = 4 * u64::from(word);
        low < self.high && self.low < low.saturating_add(4)
    }
}

// Where a temporary points.
#[derive(Clone, Copy)]
struct Point {
    temporary: u32,
    range: Range,
}

/// A temporary whose address is still known at the targets of jumps.
#[derive(Clone, Copy)]
pub struct Kept {
    pub place: usize,
    pub temporary: u32,
    /// The offsets in its own frame of which it may be the address, below the second one; none if both are the same.
    pub low: u32,
    pub high: u32,
}

/// What a look over a region finds.
#[derive(Drop)]
pub(crate) struct Look<'a> {
    pub(crate) routine: &'a TacRoutine,
    pub(crate) ways: &'a [Way],
    pub(crate) region: Region,
    number: usize,
    // whether a call may have come before, or comes here
    is_after_call: bool,
    // the temporaries that may hold any address, and those that hold one of the own frame
    wild: u64,
    own: u64,
    // where the latter point
    points: Vec<Point>,
    // by temporaries, the place after the one that computed the address that each holds, or no place
    given: Vec<usize>,
    // what is still known at the targets of jumps
    pub(crate) kept: Vec<Kept>,
    // what addresses come to
    ranges: Vec<Range>,
    // whether an address that may be any is stored through, or loaded through
    pub(crate) is_lost: bool,
    pub(crate) is_seen: bool,
    // the temporaries that are needed whatever is held
    pub(crate) hard: u64,
    // those of them with values that go on to the target of a jump, or come from a call
    pub(crate) fixed: u64,
    // the loops around
    depth: u32,
    // what calls weigh
    pub(crate) calls: u64,
    // how many there were, plus one
    met: u32,
    // the place before which stores of what never changes wait
    settles: usize,
    // the temporaries in which something is alive across one
    pub(crate) across: u64,
    pub(crate) has_loops: bool,
}

// How many steps there are above the lowest index.
fn steps_above(low: i32, high: i32) -> u64 {
    if high < low {
        return 0;
    }
    (i64::from(high) - i64::from(low)) as u64
}

fn weight_of(depth: u32) -> u64 {
    1u64.wrapping_shl(depth.min(MOST_LOOPS).saturating_mul(3))
}

impl<'a> Look<'a> {
    pub(crate) fn new(
        alloc: Global,
        site: &Site<'a>,
        region: Region,
    ) -> Result<Look<'a>, OutOfMemory> {
        Ok(Look {
            routine: site.routine,
            ways: site.flow.ways.as_slice(),
            region,
            number: site.number,
            is_after_call: site.flow.first_call < region.behind(),
            wild: 0,
            own: 0,
            points: Vec::new(alloc),
            given: vec![in alloc; NONE; CONSIDERED as usize]?,
            kept: Vec::new(alloc),
            ranges: Vec::new(alloc),
            is_lost: false,
            is_seen: false,
            hard: 0,
            fixed: 0,
            depth: 0,
            calls: 0,
            met: 1,
            settles: settles(site.flow),
            across: site.flow.across,
            has_loops: site.flow.has_loops,
        })
    }

    fn forget(&mut self, temporaries: u64) {
        self.wild &= !temporaries;
        self.own &= !temporaries;
    }

    // the place of what is known of a temporary
    fn point_of(&self, temporary: u32) -> Option<usize> {
        for (at, point) in self.points.iter().enumerate() {
            if point.temporary == temporary {
                return Some(at);
            }
        }
        None
    }

    fn point(&mut self, temporary: u32, range: Range) -> Result<(), OutOfMemory> {
        self.own |= set_of(temporary);
        match self.point_of(temporary) {
            Some(at) if at < self.points.len() => self.points[at].range = range,
            _ => self.points.push(Point { temporary, range })?,
        }
        Ok(())
    }

    // where a base points; none if that is not in its own frame
    fn range_of(&self, base: Base) -> Option<Range> {
        match base {
            Base::Frame => Some(Range { low: 0, high: 1 }),
            Base::Program if self.number == 0 => Some(Range { low: 0, high: 1 }),
            Base::Temporary(temporary) if has(self.own, temporary) => {
                let at = self.point_of(temporary)?;
                if at < self.points.len() {
                    Some(self.points[at].range)
                } else {
                    None
                }
            }
            _ => None,
        }
    }

    fn is_wild(&self, base: Base) -> bool {
        match base {
            Base::Temporary(temporary) => has(self.wild, temporary),
            _ => false,
        }
    }

    // an address in its own frame, `least` to `most` bytes further
    fn go_further(
        &mut self,
        to: u32,
        base: Base,
        least: u64,
        most: u64,
    ) -> Result<(), OutOfMemory> {
        let wild = self.is_wild(base);
        let range = self.range_of(base);
        self.forget(set_of(to));
        if wild {
            self.wild |= set_of(to);
        }
        if let Some(range) = range {
            self.point(
                to,
                Range {
                    low: range.low.saturating_add(least),
                    high: range.high.saturating_add(most),
                },
            )?;
        }
        Ok(())
    }

    // memory is read or written `offset` bytes after a base
    fn touch(&mut self, base: Base, offset: u32, writes: bool) -> Result<(), OutOfMemory> {
        if self.is_wild(base) {
            self.is_lost = self.is_lost || writes;
            self.is_seen = true;
        }
        let Some(range) = self.range_of(base) else {
            return Ok(());
        };
        let further = u64::from(offset);
        let met = Range {
            low: range.low.saturating_add(further),
            high: range.high.saturating_add(further),
        };
        if self.ranges.len() < MOST_RANGES {
            self.ranges.push(met)?;
            return Ok(());
        }
        let last = self.ranges.len().saturating_sub(1);
        if last < self.ranges.len() {
            let other = self.ranges[last];
            self.ranges[last] = Range {
                low: other.low.min(met.low),
                high: other.high.max(met.high),
            };
        }
        Ok(())
    }

    fn follow_address(&mut self, instruction: &Instruction) -> Result<(), OutOfMemory> {
        match instruction {
            Instruction::Offset {
                to,
                base,
                bytes,
                ..
            } => {
                self.go_further(*to, *base, u64::from(*bytes), u64::from(*bytes))?;
            }
            Instruction::Index {
                to,
                base,
                low,
                high,
                width,
                ..
            } => {
                let most = steps_above(*low, *high).saturating_mul(u64::from(*width));
                self.go_further(*to, *base, 0, most)?;
            }
            Instruction::CheckPointer { pointer, .. } => self.forget(set_of(*pointer)),
            Instruction::Copy { to, from } => {
                self.go_further(*to, Base::Temporary(*from), 0, 0)?;
            }
            _ => {}
        }
        Ok(())
    }

    // of loads and stores
    fn follow(&mut self, instruction: &Instruction, way: &Way) -> Result<(), OutOfMemory> {
        match instruction {
            Instruction::Load { base, offset, .. } => {
                self.touch(*base, *offset, false)?;
                self.own &= !way.writes;
                self.wild |= way.writes;
            }
            Instruction::LoadByte { base, offset, .. } => {
                self.touch(*base, *offset, false)?;
                self.forget(way.writes);
            }
            Instruction::Store { base, offset, .. } | Instruction::StoreByte { base, offset, .. } =>
                self.touch(*base, *offset, true)?,
            _ => {}
        }
        Ok(())
    }

    // the word at a place of the list is loaded or stored
    fn count(&mut self, items: &mut Items, place: usize, way: &Way) {
        let at = way.item;
        if at >= items.list.len() {
            return;
        }
        if self.has_loops {
            let weight = weight_of(self.depth);
            items.list[at].won = items.list[at].won.saturating_add(weight);
        } else {
            items.list[at].count(self.met, way.writes == 0);
        }
        let stores = items.list[at].stores;
        if way.writes == 0 {
            items.list[at].is_stored = items.list[at].is_stored || stores > 1;
            return;
        }
        self.forget(way.writes);
        if stores > 1 || self.is_after_call {
            self.wild |= way.writes;
        }
        if way.is_short {
            items.list[at].soft |= way.writes;
        } else if is_turn(self.ways, place, way) {
            items.list[at].soft |= way.writes;
            items.list[at].turned |= way.writes;
        } else {
            self.need(way);
        }
    }

    // the result of a place needs its temporary
    fn need(&mut self, way: &Way) {
        self.hard |= way.writes;
        if !way.is_local {
            self.fixed |= way.writes;
        }
    }

    // what is not known to be a word
    fn follow_way(
        &mut self,
        items: &mut Items,
        instruction: &Instruction,
        way: &Way,
    ) -> Result<(), OutOfMemory> {
        match way.kind {
            Kind::Plain => self.forget(way.writes),
            Kind::Call => {
                if self.has_loops {
                    self.calls = self.calls.saturating_add(weight_of(self.depth));
                }
                self.met = self.met.saturating_add(1);
                self.own &= !way.writes;
                self.wild |= way.writes;
            }
            Kind::Address => self.follow_address(instruction)?,
            Kind::Memory => self.follow(instruction, way)?,
            Kind::Own => {
                self.own &= !way.writes;
                self.wild |= way.writes;
            }
        }
        if way.given < items.list.len() {
            items.list[way.given].soft |= way.writes;
        } else {
            self.need(way);
        }
        Ok(())
    }

    pub(crate) fn look(
        &mut self,
        items: &mut Items,
        instruction: &Instruction,
        place: usize,
        way: &Way,
    ) -> Result<(), OutOfMemory> {
        if way.is_join() {
            self.join(place, way)?;
        }
        self.depth = self.depth.saturating_add(way.loops);
        if way.item == NONE {
            self.follow_way(items, instruction, way)?;
        } else {
            self.count(items, place, way);
        }
        self.note_given(place, way);
        if way.target <= place {
            self.depth = self.depth.saturating_sub(1);
        }
        Ok(())
    }

    // which place computed the content of a temporary, if that is an address, or found it to be that of an object
    fn note_given(&mut self, place: usize, way: &Way) {
        let at = way.writes.trailing_zeros() as usize;
        if way.writes != 0 && at < self.given.len() {
            self.given[at] = if way.kind == Kind::Address {
                place.saturating_add(1)
            } else {
                NONE
            };
        }
        let tested = way.reads.trailing_zeros() as usize;
        if way.writes == 0 && way.kind == Kind::Address && tested < self.given.len() {
            self.given[tested] = place.saturating_add(1);
        }
    }

    // At the target of a jump: what is alive there may be any address, unless everything that leads there comes from
    // after the place that computed it.
    fn join(&mut self, place: usize, way: &Way) -> Result<(), OutOfMemory> {
        let mut rest = way.lives;
        for _ in 0..CONSIDERED {
            if rest == 0 {
                return Ok(());
            }
            let temporary = rest.trailing_zeros();
            if !self.keep(place, way, temporary)? {
                self.wild |= set_of(temporary);
                self.own &= !set_of(temporary);
            }
            rest &= rest.wrapping_sub(1);
        }
        Ok(())
    }

    // whether an address is known yet
    fn keep(&mut self, place: usize, way: &Way, temporary: u32) -> Result<bool, OutOfMemory> {
        let at = temporary as usize;
        let given = if at < self.given.len() {
            self.given[at]
        } else {
            NONE
        };
        if has(self.wild, temporary) || way.first < given || way.last >= place {
            return Ok(false);
        }
        let range = match self.range_of(Base::Temporary(temporary)) {
            Some(range) => range,
            None => Range { low: 0, high: 0 },
        };
        let most = u64::from(u32::MAX);
        if range.low > most || range.high > most {
            return Ok(false);
        }
        self.kept.push(Kept {
            place,
            temporary,
            low: range.low as u32,
            high: range.high as u32,
        })?;
        Ok(true)
    }

    // what was put off until a call, or until a branch whose other way comes to none
    pub(crate) fn settle(&self, items: &mut Items) {
        for at in 0..items.list.len() {
            items.list[at].settle(self.met);
            if items.list[at].stores == 1 && items.list[at].first < self.settles {
                items.list[at].won = items.list[at].won.saturating_add(1);
            }
        }
    }

    // whether others, or an address, may come to words of the own frame
    pub(crate) fn may_see(&self) -> bool {
        self.is_after_call || self.is_seen || self.ranges.len() > 0
    }

    // whether words that are never loaded needn't be stored
    pub(crate) fn is_unseen(&self) -> bool {
        !self.has_loops && !self.may_see()
    }

    // what is won by a word has to be more
    pub(crate) fn least(&self) -> u64 {
        if self.has_loops { 7 } else { 0 }
    }

    pub(crate) fn is_met(&self, word: u32) -> bool {
        for range in self.ranges.iter() {
            if range.meets(word) {
                return true;
            }
        }
        false
    }
}
