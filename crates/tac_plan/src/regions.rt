// The parts of a body in which words are held: its outermost loops, with what leads straight into them. Nothing is
// proved of it: what is chosen by it is tested.

use crate::flow::{Flow, NONE, Way, is_join, way_at};
use std::alloc::Global;
use tac_code::code::OutOfMemory;

// The most regions of a body.
const MOST: usize = 32;

/// A part of a body.
#[derive(Clone, Copy)]
pub struct Region {
    /// Its first place.
    pub start: usize,
    /// The place where its last loop jumps back.
    pub end: usize,
    /// Whether only the region leads to the place after the last one, so that words may still be held there.
    pub is_closed: bool,
}

impl Region {
    /// The first place after the loop.
    pub fn exit(&self) -> usize {
        self.end.saturating_add(1)
    }

    /// Whether words may be held at the target of a jump: not where the region is entered.
    pub fn has(&self, place: usize) -> bool {
        place > self.start && (place <= self.end || (self.is_closed && place == self.exit()))
    }

    /// The first place that doesn't belong to it any more.
    pub fn behind(&self) -> usize {
        if self.is_closed {
            self.exit().saturating_add(1)
        } else {
            self.exit()
        }
    }
}

// The outermost loops, the last one first.
fn loops_of(alloc: Global, ways: &[Way]) -> Result<Vec<Region>, OutOfMemory> {
    let mut loops: Vec<Region> = Vec::new(alloc);
    for place in (0..ways.len()).rev() {
        let target = ways[place].target;
        if target > place {
            continue;
        }
        let found = loops.len();
        match found.checked_sub(1) {
            Some(at) if at < loops.len() && loops[at].start <= place => {
                loops[at].start = loops[at].start.min(target);
            }
            _ if found < MOST => loops.push(Region {
                start: target,
                end: place,
                is_closed: false,
            })?,
            _ => {}
        }
    }
    Ok(loops)
}

// Whether the place before a region may belong to it: it leads there, and nowhere else.
fn leads_into(ways: &[Way], region: &Region, before: usize) -> bool {
    let way = way_at(ways, before);
    if way.calls() {
        return false;
    }
    if way.target == NONE {
        return way.falls;
    }
    way.target > before && way.target <= region.exit()
}

// The region extended by one place, from which words can be held at the start of its first loop.
fn entered(ways: &[Way], region: Region, floor: usize) -> Region {
    let way = way_at(ways, region.start);
    let before = region.start.saturating_sub(1);
    let way_before = way_at(ways, before);
    let is_met = way.is_join() && way.first >= region.start;
    if region.start > floor && is_met && way_before.falls && !way_before.calls() {
        return Region {
            start: before,
            ..region
        };
    }
    region
}

// The region extended by what leads straight into it, after a place.
fn extended(ways: &[Way], region: Region, floor: usize) -> Region {
    let mut wider = region;
    for _ in 0..region.start {
        let way = way_at(ways, wider.start);
        if wider.start <= floor || (way.is_join() && way.first < wider.start) {
            break;
        }
        let before = wider.start.saturating_sub(1);
        if !leads_into(ways, &wider, before) {
            break;
        }
        wider.start = before;
    }
    let wider = entered(ways, wider, floor);
    let exit = way_at(ways, wider.exit());
    let is_met = is_join(ways, wider.exit());
    Region {
        is_closed: !is_met || (exit.first >= wider.start && exit.last <= wider.end),
        ..wider
    }
}

// A body without loops, as a region.
fn whole(ways: &[Way]) -> Region {
    Region {
        start: 0,
        end: ways.len().saturating_sub(1),
        is_closed: true,
    }
}

/// The regions of a body, in order: the whole body if there is no loop.
pub fn regions_of(alloc: Global, flow: &Flow) -> Result<Vec<Region>, OutOfMemory> {
    let ways = flow.ways.as_slice();
    let mut regions: Vec<Region> = Vec::new(alloc);
    if !flow.has_loops {
        regions.push(whole(ways))?;
        return Ok(regions);
    }
    let loops = loops_of(alloc, ways)?;
    let mut floor = 0;
    for at in (0..loops.len()).rev() {
        let region = extended(ways, loops[at], floor);
        floor = region.behind();
        if region.start < region.end {
            regions.push(region)?;
        }
    }
    Ok(regions)
}
