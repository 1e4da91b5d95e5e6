// A plan for a routine, or none. Nothing is proved about it: what is chosen is tested.

use crate::draft::{Draft, Part};
use crate::flow::{Flow, NONE, Way, way_at};
use crate::items::{Items, items_of};
use crate::look::Site;
use crate::regions::{Region, regions_of};
use crate::room::most_temporaries;
use crate::sets::CONSIDERED;
use crate::words::{Pins, pins_in};
use std::alloc::Global;
use tac_code::code::{OutOfMemory, TacRoutine};
use tac_pass::plan::Plan;

// Whether there are words that are never loaded.
fn has_vain(items: &Items) -> bool {
    for item in items.list.iter() {
        if item.is_vain() {
            return true;
        }
    }
    false
}

// Whether words that are never loaded need not be stored in a region: in a body without loops, whose words nobody else
// can see.
fn is_unseen(site: &Site<'_>, pins: &Pins) -> bool {
    !site.flow.has_loops && !pins.is_seen
}

// The regions that hold something, or in which stores are left out.
fn parts_of(
    alloc: Global,
    site: &Site<'_>,
    items: &mut Items,
    regions: &[Region],
) -> Result<Vec<Part>, OutOfMemory> {
    let mut parts = Vec::with_capacity(alloc, regions.len())?;
    for region in regions {
        let pins = pins_in(alloc, site, items, *region)?;
        if pins.list.len() > 0 || (is_unseen(site, &pins) && has_vain(items)) {
            parts.push(Part {
                region: *region,
                pins,
            })?;
        }
    }
    Ok(parts)
}

fn mind(minded: &mut Vec<usize>, items: &mut Items, at: usize) -> Result<(), OutOfMemory> {
    if at < items.list.len() && items.list[at].minded == NONE {
        items.list[at].minded = minded.len();
        minded.push(at)?;
    }
    Ok(())
}

// The words that are loaded in a region and stored once, which may be addresses.
fn mind_fixed(
    minded: &mut Vec<usize>,
    items: &mut Items,
    ways: &[Way],
    region: &Region,
) -> Result<(), OutOfMemory> {
    for place in region.start..region.behind() {
        let at = way_at(ways, place).item;
        if at < items.list.len() && items.list[at].stores == 1 {
            mind(minded, items, at)?;
        }
    }
    Ok(())
}

// The words that are never loaded.
fn mind_vain(minded: &mut Vec<usize>, items: &mut Items) -> Result<(), OutOfMemory> {
    for at in 0..items.list.len() {
        if at < items.list.len() && items.list[at].is_vain() {
            mind(minded, items, at)?;
        }
    }
    Ok(())
}

// The words that some region holds, those that may be addresses there, and those whose stores are left out.
fn minded_of(
    alloc: Global,
    site: &Site<'_>,
    items: &mut Items,
    parts: &[Part],
) -> Result<Vec<usize>, OutOfMemory> {
    let mut minded = Vec::new(alloc);
    for part in parts {
        for pin in part.pins.list.iter() {
            mind(&mut minded, items, pin.item)?;
        }
        if is_unseen(site, &part.pins) {
            mind_vain(&mut minded, items)?;
        }
        if site.flow.first_call >= part.region.behind() {
            mind_fixed(&mut minded, items, site.flow.ways.as_slice(), &part.region)?;
        }
    }
    Ok(minded)
}

// The plan of a routine in which regions hold something.
fn drafted(
    alloc: Global,
    site: Site<'_>,
    items: &mut Items,
    parts: &[Part],
) -> Result<Plan, OutOfMemory> {
    let minded = minded_of(alloc, &site, items, parts)?;
    let mut draft = Draft::new(alloc, site, items, minded.as_slice())?;
    draft.plan(parts)
}

// A plan for a routine that has such words, if some region holds one.
fn planned(alloc: Global, site: Site<'_>, items: &mut Items) -> Result<Option<Plan>, OutOfMemory> {
    let regions = regions_of(alloc, site.flow)?;
    let parts = parts_of(alloc, &site, items, regions.as_slice())?;
    if parts.len() == 0 {
        return Ok(None);
    }
    let plan = drafted(alloc, site, items, parts.as_slice())?;
    Ok(Some(plan))
}

/// A plan for a routine. `None` if nothing is gained, or none is found.
pub fn plan_of(
    alloc: Global,
    number: usize,
    routine: &TacRoutine,
) -> Result<Option<Plan>, OutOfMemory> {
    let body = routine.body.as_slice();
    if routine.frame == 0 || routine.temporaries > CONSIDERED || body.len() < 2 {
        return Ok(None);
    }
    let Some(mut flow) = Flow::of(alloc, body)? else {
        return Ok(None);
    };
    let mut items = items_of(alloc, flow.ways.as_mut_slice())?;
    if items.list.len() == 0 {
        return Ok(None);
    }
    let site = Site {
        number,
        routine,
        temporaries: most_temporaries(routine),
        flow: &flow,
    };
    planned(alloc, site, &mut items)
}
