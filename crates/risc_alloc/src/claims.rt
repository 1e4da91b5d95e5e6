// What is claimed to be alive at the places that jumps lead to.

ghost use Rattle.std.specs.Prelude.{◌≡◌, slice_get};
ghost use Rattle.std.specs.Option.{option_copied};
ghost use Rattle.risc_alloc.specs.Walk.{claim_at, list_in};

use crate::groups::{CONSIDERED, Groups};
use crate::table::Table;
use crate::window::Window;
use std::alloc::Global;
use tac_code::code::OutOfMemory;

/// What is claimed to be alive at each target of a jump, in the order of seats. A walk that finds nothing beyond what
/// is claimed shows that each claim covers at least what is alive there.
#[derive(Drop)]
pub(crate) struct Claims {
    // of each place the number of its list
    numbers: Vec<u32>,
    // the first is that of the places that no jump leads to
    lists: Vec<Option<Vec<u32>>>,
}

fn list_of(lists: &[Option<Vec<u32>>], number: usize) -> Option<&[u32]>
    ensures { option_copied result ≡ list_in (slice_get lists.now number) }
{
    if number < lists.len() {
        match &lists[number] {
            Some(list) => Some(list.as_slice()),
            None => None,
        }
    } else {
        None
    }
}

impl Claims {
    /// What was found to be alive is claimed, as far as it sits in a window.
    pub(crate) fn new(
        alloc: Global,
        table: &mut Table,
        window: &Window,
        groups: &Groups,
    ) -> Result<Claims, OutOfMemory> {
        let found = groups.found();
        let mut lists = Vec::with_capacity(alloc, found.len())?;
        for number in 0..found.len() {
            lists.push(match number {
                0 => None,
                _ => Some(members_of(alloc, table, window, found[number])?),
            })?;
        }
        let numbers = groups.numbers().to_vec(alloc)?;
        Ok(Claims { numbers, lists })
    }

    /// What is claimed at a place; `None` if no jump leads there.
    pub(crate) fn get(&self, place: usize) -> Option<&[u32]>
        ensures { option_copied result ≡ claim_at self.now place }
    {
        if place < self.numbers.len() {
            list_of(&self.lists, self.numbers[place] as usize)
        } else {
            None
        }
    }

    /// Changes the claim at the target of a jump.
    pub(crate) fn put(&mut self, place: usize, list: Vec<u32>) {
        if place < self.numbers.len() {
            let number = self.numbers[place] as usize;
            if number < self.lists.len() {
                self.lists[number] = Some(list);
            }
        }
    }
}

// Those of a group that sit in a window, in the order of seats.
fn members_of(
    alloc: Global,
    table: &mut Table,
    window: &Window,
    group: u64,
) -> Result<Vec<u32>, OutOfMemory> {
    table.clear();
    let mut rest = group;
    for _ in 0..CONSIDERED {
        if rest == 0 {
            break;
        }
        let _ = table.add(window, rest.trailing_zeros());
        rest &= rest.wrapping_sub(1);
    }
    table.members(alloc)
}
