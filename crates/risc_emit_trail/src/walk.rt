//! The walk over the frames of open calls.

ghost use Rattle.std.specs.Prelude.{◌≡◌, ◌+◌, ◌<◌, ◌≤◌, None, IfSome, if◌then◌else◌, length};
ghost use Rattle.risc_machine.specs.Step.{reg, word_at};
ghost use Rattle.risc_emit_relation.specs.Walk.{is_frame, walk};
ghost use Rattle.risc_emit_laws.specs.Outcome.{line_of};
ghost use Rattle.risc_emit_trail.specs.Told.{trail_of};

use crate::lines::{MOST, Trail};
use risc_image::ImageView;
use risc_machine::Machine;
use risc_machine::limits::ADDRESSES;

// The register with the address of the innermost frame.
const FRAME: u8 = 14;

// Whether a memory of `size` bytes holds the first two words of a frame: its link, and where the caller's frame begins.
fn is_frame(size: u32, frame: u32) -> bool
    ensures { result ≡ is_frame size frame }
{
    frame % 4 == 0 && u64::from(frame) + 8 <= u64::from(size)
}

// The word at an address below the device page.
fn word(machine: &Machine, at: u32) -> u32
    requires within { at + 4 ≤ length machine.now.memory }
    requires near { at < ADDRESSES }
    ensures { result ≡ word_at machine.now.memory at }
{
    let low = u32::from(machine.byte(at)) + u32::from(machine.byte(at + 1)) * 256;
    let high = u32::from(machine.byte(at + 2)) + u32::from(machine.byte(at + 3)) * 256;
    low + high * 65536
}

// The line of the call that comes back to a link.
fn line_of(image: &ImageView<'_>, link: u32) -> Option<u32>
    ensures { result ≡ line_of image.now link }
{
    match image.call_of(link) {
        None => None,
        Some(row) => Some(row.line),
    }
}

// The line of the call to which a frame belongs, if the frame is within memory.
fn line_at(machine: &Machine, image: &ImageView<'_>, frame: u32) -> Option<u32>
    ensures line { result ≡ (if is_frame (length machine.now.memory) frame then line_of image.now
        (word_at machine.now.memory frame) else None) }
    ensures held { IfSome result (λ _. frame + 8 ≤ length machine.now.memory) }
    ensures near { IfSome result (λ _. frame + 8 < ADDRESSES) }
{
    let size = machine.size();
    if is_frame(size, frame) {
        line_of(image, word(machine, frame))
    } else {
        None
    }
}

// The lines of at most `most` open calls, from the innermost frame on.
fn walked(machine: &Machine, image: &ImageView<'_>, most: usize) -> Trail
    requires { most ≤ MOST }
    ensures { result ≡ walk (line_of image.now) (length machine.now.memory) most (word_at machine.now.memory)
        (reg machine.now 14) }
{
    let mut trail = Trail::new();
    let mut frame = machine.reg(FRAME);
    for _ in 0..most {
        let Some(line) = line_at(machine, image, frame) else {
            return trail;
        };
        trail.push(line);
        frame = word(machine, frame + 4);
    }
    trail
}

/// The lines of the calls that are open in a machine that stopped, innermost first, at most 16; `None` if the image is
/// of the first version, which has no call table.
///
/// The walk begins at the frame that R14 points to. A frame's first word is the link of its call, whose line is in the
/// table, and its second the address of the caller's frame. It ends at a link that is not in the table, and at an
/// address that is not a multiple of 4 or whose eight bytes are not all within memory. It allocates no memory, and is
/// safe on any machine and any image.
pub fn trail(machine: &Machine, image: &ImageView<'_>) -> Option<Trail>
    ensures { result ≡ trail_of image.now machine.now }
{
    match image.calls() {
        None => None,
        Some(_) => Some(walked(machine, image, MOST)),
    }
}
