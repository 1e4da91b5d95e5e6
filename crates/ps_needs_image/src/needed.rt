// How much stack and heap the image of a text needs.

ghost use Rattle.std.specs.Prelude.{◌≡◌, ◌≢◌, ℕ, ◌<◌, length, get_or, slice_get, slice_index, IfSome, IfOk, IfErr};
ghost use Rattle.std.specs.Prelude.{false, true};
ghost use Rattle.ps_tree.specs.Checked.{program_in};
ghost use Rattle.ps_needs_least.specs.Answers.{IsAnswer};
ghost use Rattle.ps_build.specs.Headline.{DoesAsMeant};
ghost use Rattle.risc_image.specs.declared.rows.FrameRow.{FrameRow};
ghost use Rattle.risc_load.specs.Shows.{frame_bytes};
ghost use Rattle.ps_build.specs.Accepts.{IsRefused};
ghost use Rattle.ps_needs_image.specs.Laws.{MakesNoObject};
ghost use Rattle.ps_needs_image.specs.Needed.{IsNeeded};

use crate::again::{Again, read_again};
use crate::laws::{never_out_of_heap, never_out_of_stack};
use ps_build::{Refusal, build};
use ps_needs_least::{Need, least_stack};
use ps_text::Span;
use ps_tree::program::Checked;
use risc_image::ImageView;
use std::alloc::{AllocError, Global};

// A text is a list of bytes.
fn is_of_bytes(text: &[u8])
    ensures { (k : ℕ) → slice_index text.now k < 256 }
{
    let _ = text;
}

// The number of a stop for heap.
const OUT_OF_HEAP: u32 = 13;

/// How much stack and heap the image that `build` makes of a text needs.
#[derive(Drop)]
pub struct Needed {
    /// The least stack with which no run of the image is stopped for stack, or that there is none.
    pub need: Need,
    /// The bytes of the routines' frames, by their numbers.
    pub frames: Vec<u32>,
    /// Where the names of the routines are in the text, by the routines' numbers: 0 is the program.
    pub names: Vec<Span>,
    /// Whether the image may create variables by `new`. An image that creates none is never stopped for heap.
    pub makes_objects: bool,
}

// The bytes of a routine's frame.
fn frame_of(image: &ImageView<'_>, routine: usize) -> u32
    requires { routine < length image.now.frames }
    ensures { (d : FrameRow) → result ≡ (get_or image.now.frames routine d).bytes }
{
    match image.frame(routine) {
        Some(row) => row.bytes,
        None => 0,
    }
}

fn frames_of(alloc: Global, image: &ImageView<'_>) -> Result<Vec<u32>, AllocError>
    ensures { IfOk result (λ frames. frames.items ≡ frame_bytes image.now) }
{
    let mut frames = Vec::new(alloc);
    for routine in 0..image.frames() {
        frames.push(frame_of(image, routine))?;
    }
    Ok(frames)
}

// Whether a row of the trap table is one for a stop for heap.
fn is_of_heap(image: &ImageView<'_>, k: usize) -> bool
    ensures none { result ≡ false → IfSome (slice_get image.now.traps k) (λ row. row.error ≢ 13) }
    ensures some { result ≡ true → MakesNoObject image.now → ⊥ }
{
    match image.trap(k) {
        Some(row) => row.error == OUT_OF_HEAP,
        None => false,
    }
}

fn makes_objects(image: &ImageView<'_>) -> bool
    ensures none { result ≡ false → MakesNoObject image.now }
    ensures some { result ≡ true → MakesNoObject image.now → ⊥ }
{
    for k in 0..image.traps() {
        if is_of_heap(image, k) {
            return true;
        }
    }
    false
}

// The least stack that holds each path of calls of a program, with the frames of an image that does what the program
// means.
fn need_of(
    alloc: Global,
    image: &ImageView<'_>,
    frames: &[u32],
    checked: &Checked,
) -> Result<Need, AllocError>
    requires does { DoesAsMeant (program_in checked.now) image.now }
    requires frames { frames.now ≡ frame_bytes image.now }
    ensures { IfOk result (IsAnswer (program_in checked.now) (frame_bytes image.now)) }
{
    let _ = image;
    least_stack(alloc, checked, frames)
}

/// How much stack and heap the image of a text needs. A text that `build` refuses is refused in the same way.
pub fn needs_of(alloc: Global, text: &[u8]) -> Result<Needed, Refusal>
    ensures needed { IfOk result (IsNeeded text.now) }
    ensures refused { IfErr result (IsRefused text.now) }
{
    let built = build(alloc, text)?;
    let Ok(image) = ImageView::read(built.bytes()) else {
        return Err(Refusal::OutOfMemory);
    };
    let Some(again) = read_again(alloc, text) else {
        return Err(Refusal::OutOfMemory);
    };
    let Again { checked, names } = again;
    is_of_bytes(text);
    never_out_of_stack();
    never_out_of_heap();
    let frames = frames_of(alloc, &image)?;
    let need = need_of(alloc, &image, &frames, &checked)?;
    let makes_objects = makes_objects(&image);
    Ok(Needed {
        need,
        frames,
        names,
        makes_objects,
    })
}
