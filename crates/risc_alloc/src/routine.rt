// The test of one routine's homes.

ghost use Rattle.std.specs.Prelude.{◌≡◌, ◌↔◌, ◌+◌, ◌≤◌, false, length, IsTrue, IfOk};
ghost use Rattle.risc_alloc.specs.declared.homes.Home.TheVariants.{Slot};
ghost use Rattle.risc_alloc.specs.Fits.{RoutineFits, SeatsFit};
ghost use Rattle.risc_alloc.specs.Slots.{IsOwn, ReadsBelow};
ghost use Rattle.risc_alloc.specs.Walk.{IsSettled};
ghost use Rattle.risc_alloc.specs.Windows.{MarksStrangers};

use crate::groups::Groups;
use crate::homes::Home;
use crate::seats::{REGISTERS, seats_of};
use crate::table::Table;
use crate::walk::{are_free_for, settle};
use crate::window::{SEATS, Window, is_marked, marks_of_strangers};
use std::alloc::Global;
use tac_code::code::{OutOfMemory, TacRoutine};

fn is_slot(home: Home, number: usize) -> bool
    ensures { IsTrue result ↔ (home ≡ Slot number) }
{
    match home {
        Home::Slot(slot) => slot as usize == number,
        Home::Reg(_) => false,
    }
}

// Whether each temporary has a slot of its own number.
fn is_own(homes: &[Home]) -> bool
    ensures { IsTrue result ↔ IsOwn homes.now }
{
    for (number, home) in homes.iter().enumerate() {
        if !is_slot(*home, number) {
            return false;
        }
    }
    true
}

// Whether walks with a window come to an end, and leave the parameters their seats.
fn is_settled(
    alloc: Global,
    routine: &TacRoutine,
    window: &Window,
    groups: &Groups,
) -> Result<bool, OutOfMemory>
    ensures { IfOk result (λ settled. IsTrue settled → IsSettled window.now routine.now.body routine.now.parameters) }
{
    let mut table = Table::new(alloc)?;
    let found = settle(alloc, &mut table, window, routine.body.as_slice(), groups)?;
    match found {
        Some(_) => Ok(are_free_for(&table, window, routine.parameters)),
        None => Ok(false),
    }
}

// Whether temporaries that are alive together have different seats among the twelve from one on, as far as walks can
// tell. A temporary in the slot of its own number shares it with none unless the slot is marked. So walks are made for
// the registers, and only for slots with other temporaries in them.
fn is_apart_from(
    alloc: Global,
    routine: &TacRoutine,
    seats: &[usize],
    marks: &[bool],
    from: usize,
    groups: &Groups,
) -> Result<bool, OutOfMemory>
    requires { MarksStrangers seats.now marks.now }
    ensures { IfOk result (λ apart. IsTrue apart → SeatsFit routine.now seats.now (length marks.now) from (from + 12)) }
{
    if from >= REGISTERS && !is_marked(marks, from) {
        return Ok(true);
    }
    let window = Window::new(alloc, seats, from)?;
    is_settled(alloc, routine, &window, groups)
}

// The same for `count` seats, twelve at a time.
fn are_apart(
    alloc: Global,
    routine: &TacRoutine,
    seats: &[usize],
    count: usize,
    groups: &Groups,
) -> Result<bool, OutOfMemory>
    requires { count ≤ 4294967307 }
    ensures { IfOk result (λ apart. IsTrue apart → SeatsFit routine.now seats.now count 0 count) }
{
    let marks = marks_of_strangers(alloc, seats, count)?;
    let mut from = 0;
    while from < count {
        if !is_apart_from(alloc, routine, seats, marks.as_slice(), from, groups)? {
            return Ok(false);
        }
        from += SEATS;
    }
    Ok(true)
}

// Whether whatever is alive has its home to itself, as far as walks can tell.
fn is_apart(
    alloc: Global,
    routine: &TacRoutine,
    homes: &[Home],
    groups: &Groups,
) -> Result<bool, OutOfMemory>
    requires { length homes.now ≡ routine.now.temporaries }
    ensures { IfOk result (λ apart. IsTrue apart → RoutineFits routine.now homes.now) }
{
    let count = REGISTERS + routine.temporaries as usize;
    match seats_of(alloc, homes)? {
        Some(seats) => are_apart(alloc, routine, seats.as_slice(), count, groups),
        None => Ok(false),
    }
}

/// Whether the homes of a routine's temporaries fit it. Slots of their own always do, and need no walk.
/// For others it is looked for which temporaries are alive at the targets of jumps, with the visits of blocks that are
/// left, unless that is given.
pub(crate) fn is_placed(
    alloc: Global,
    routine: &TacRoutine,
    homes: &[Home],
    groups: Option<&Groups>,
    left: &mut usize,
) -> Result<bool, OutOfMemory>
    requires count { length homes.now ≡ routine.now.temporaries }
    requires reads { ReadsBelow routine.now.temporaries routine.now.body }
    ensures fits { IfOk result (λ placed. IsTrue placed → RoutineFits routine.now homes.now) }
    ensures refused { IfOk result (λ placed. placed ≡ false → IsOwn homes.now → ⊥) }
{
    if is_own(homes) {
        return Ok(true);
    }
    if let Some(found) = groups {
        return is_apart(alloc, routine, homes, found);
    }
    let found = Groups::settled(alloc, routine.body.as_slice(), left)?;
    is_apart(alloc, routine, homes, &found)
}
