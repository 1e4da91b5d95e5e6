// How the frame of a routine is laid out.

ghost use Rattle.std.specs.Prelude.{◌≡◌, ◌<◌, ◌≤◌, length};
ghost use Rattle.tac_code.specs.Meaning.{routines};
ghost use Rattle.risc_emit.specs.Layout.{link_at, slots_at, frame_at, scratch_at, frame_cost};
ghost use Rattle.risc_emit.specs.Frames.{AreOffsets};

use crate::frame::Offsets;
use tac_code::tac::Tac;

/// After the link, the caller's frame, 65 operands, and the stack's limit and the heap's next address.
const SLOTS: u32 = 276;

/// Within its caller's frame, after 8 operands.
const LEAF_LINK: u32 = 40;

const LEAF_SLOTS: u32 = 44;

// The slots of a routine, and its link.
fn slots_at(tac: &Tac, number: usize) -> u32
    ensures offset { result ≡ slots_at tac.now number }
    ensures small { result ≤ 276 }
{
    if number < tac.program().len() {
        SLOTS
    } else {
        LEAF_SLOTS
    }
}

fn link_at(tac: &Tac, number: usize) -> u32
    ensures { result ≡ link_at tac.now number }
{
    if number < tac.program().len() {
        0
    } else {
        LEAF_LINK
    }
}

/// Where the words of the variables begin in an activation of a routine.
pub(crate) fn frame_at(tac: &Tac, number: usize) -> u64
    requires { number < length (routines tac.now) }
    ensures offset { result ≡ frame_at tac.now number }
    ensures small { result < 17179869460 }
{
    u64::from(slots_at(tac, number)) + 4 * u64::from(tac.routine(number).temporaries)
}

fn scratch_at(tac: &Tac, number: usize) -> u64
    requires { number < length (routines tac.now) }
    ensures offset { result ≡ scratch_at tac.now number }
    ensures small { result < 21474836756 }
{
    frame_at(tac, number) + u64::from(tac.routine(number).frame)
}

/// The bytes of an activation of a routine. Those of the run-time library are within their callers' frames.
pub(crate) fn frame_cost(tac: &Tac, number: usize) -> u64
    requires { number < length (routines tac.now) }
    ensures bytes { result ≡ frame_cost tac.now number }
    ensures small { result < 25769804052 }
{
    if number < tac.program().len() {
        scratch_at(tac, number) + u64::from(tac.routine(number).scratch)
    } else {
        0
    }
}

/// The layout of a routine's frame.
pub(crate) fn offsets_of(tac: &Tac, number: usize) -> Offsets
    requires { number < length (routines tac.now) }
    ensures { AreOffsets tac.now number result }
{
    tac.keeps_invariant();
    Offsets {
        link: link_at(tac, number),
        slots: slots_at(tac, number),
        frame: frame_at(tac, number),
        scratch: scratch_at(tac, number),
        program: frame_at(tac, 0),
        cost: frame_cost(tac, number),
    }
}
