//! Programs as images.

ghost use Rattle.std.specs.Prelude.{◌≡◌, ◌⊎◌, ℕ, ◌<◌, slice_index, IfOk, IfErr, OnOk};
ghost use Rattle.risc_image.specs.Format.{IsImage};
ghost use Rattle.ps_lower_accepted.specs.Formed.{IsFormed};
ghost use Rattle.ps_lower_laws.specs.Fits.{ProgramFits};
ghost use Rattle.ps_tree.specs.Checked.{program_in};
ghost use Rattle.tac_plan.specs.Roomy.{HasRoom};
ghost use Rattle.ps_build.specs.Accepts.{IsProgramOf, IsAccepted, IsCodeOfText, IsRefused, IsFaulty, IsNotAccepted};
ghost use Rattle.ps_build.specs.Headline.{Compiles};
ghost use Rattle.ps_build.specs.Made.{IsBuilt};
ghost use Rattle.ps_build.specs.declared.refusal.Refusal.TheVariants.{OutOfMemory};

use crate::making::{Memory, Variables, code_made, image_made};
use crate::refusal::Refusal;
use ps_check::check;
use ps_lower::marks::{Mark, Marking};
use ps_lower_accepted::{accepted_are_formed, accepted_fit};
use ps_parse::{parse, release};
use ps_scan::scan;
use ps_syntax::Program;
use ps_text::Source;
use ps_tree::program::Checked;
use risc_alloc::placer::Placer;
use risc_alloc::scan::Scan;
use risc_emit::marks::Marks;
use risc_image::ImageView;
use std::alloc::Global;
use std::marker::Model;
use std::mem::forget;
use tac_code::tac::Tac;

/// A program that was built: its image. A contract sees it as the list of its bytes.
#[derive(Drop)]
pub struct Built {
    bytes: Vec<u8>,
}

impl Model for Built {
    ghost use Rattle.std.specs.Prelude.{List, ℕ};
    ghost use Rattle.ps_build.specs.Listed.{AreImage};

    ghost Value = { List ℕ };

    ghost view = { λ built. built.bytes.items };

    ghost invariant = { λ built. AreImage built.bytes.items };
}

impl Built {
    /// The bytes of the image.
    pub fn bytes(&self) -> &[u8]
        ensures { result.now ≡ self.now }
    {
        &self.bytes
    }

    // The image that the bytes encode.
    pub(crate) fn view(&self) -> ImageView<'_>
        ensures { IsImage self.now result }
    {
        match ImageView::read(&self.bytes) {
            Ok(view) => view,
            Err(_) => unreachable!(),
        }
    }
}

// Frees a syntax tree that is no longer needed, or leaves it in memory.
fn let_go(tree: Program, memory: Memory) {
    match memory {
        Memory::Released => release(tree),
        Memory::Left => forget(tree),
    }
}

// The checked program of a text.
fn program_of(alloc: Global, text: &[u8], memory: Memory) -> Result<Checked, Refusal>
    ensures ok { IfOk result (λ checked. IsProgramOf text.now (program_in checked)) }
    ensures err { IfErr result (IsRefused text.now) }
    ensures faulty { IfErr result (λ refusal. IsFaulty refusal ⊎ (refusal ≡ OutOfMemory)) }
{
    let source = Source::new(text)?;
    let tokens = scan(alloc, &source)?;
    let tree = match parse(alloc, &source, &tokens) {
        Ok(tree) => tree,
        Err(refusal) => return Err(Refusal::from(refusal)),
    };
    let checked = check(alloc, &source, &tree);
    let_go(tree, memory);
    match checked {
        Ok(checked) => Ok(checked),
        Err(refusal) => Err(Refusal::of_check(refusal, &tokens)),
    }
}

// A text is a list of bytes.
fn is_of_bytes(text: &[u8])
    ensures { (k : ℕ) → slice_index text.now k < 256 }
{
    let _ = text;
}

// The program that a text is accepted as has everything that the lowering needs.
fn has_what_is_needed(text: &[u8], checked: &Checked)
    requires { IsProgramOf text.now (program_in checked.now) }
    ensures fits { ProgramFits (program_in checked.now) }
    ensures formed { IsFormed (program_in checked.now) }
{
    let _ = checked;
    is_of_bytes(text);
    accepted_fit();
    accepted_are_formed();
}

/// A program that was built, with its checked tree and the places in the text to which its words belong. No contract
/// mentions the places; they only serve to be shown.
#[derive(Drop)]
pub struct Mapped {
    pub built: Built,
    pub checked: Checked,
    /// For each routine of the program a mark for each of its instructions.
    pub marks: Vec<Vec<Mark>>,
    /// For each of these routines, where the words of its variables begin in an activation, in bytes.
    pub frames: Vec<u64>,
    /// For each routine of the program, followed by the run-time routines, where its words are.
    pub words: Vec<Marks>,
}

// The program of a text, built, with its map. Its instructions have marks if they are asked for.
fn mapped_with<P: Placer>(
    alloc: Global,
    text: &[u8],
    placer: &P,
    variables: Variables,
    marking: Marking,
    memory: Memory,
) -> Result<Mapped, Refusal>
    ensures compiles { IfOk result (λ mapped. Compiles text.now mapped.built) }
    ensures built { IfOk result (λ mapped. IsBuilt text.now mapped.built) }
    ensures refused { IfErr result (IsRefused text.now) }
{
    let checked = program_of(alloc, text, memory)?;
    has_what_is_needed(text, &checked);
    let made = image_made(alloc, &checked, placer, variables, marking, memory)?;
    Ok(Mapped {
        built: Built { bytes: made.bytes },
        checked,
        marks: made.marks,
        frames: made.frames,
        words: made.words,
    })
}

/// Whether a text is accepted: it is read and checked as `build` does, but no code is made of it.
///
/// A text that isn't accepted is refused as `build` refuses it: with a refusal of 1, 2 or 10 to 45.
pub fn accepted(alloc: Global, text: &[u8]) -> Result<(), Refusal>
    ensures accepted { OnOk result (IsAccepted text.now) }
    ensures refused { IfErr result (IsRefused text.now) }
    ensures faulty { IfErr result (λ refusal. IsFaulty refusal ⊎ (refusal ≡ OutOfMemory)) }
    ensures accepts { IfErr result (λ refusal. IsFaulty refusal → IsNotAccepted text.now) }
{
    let accepted_as = program_of(alloc, text, Memory::Released)?;
    drop(accepted_as);
    Ok(())
}

/// The three-address code of the program of a text, from which its image is built.
///
/// A text that isn't accepted is refused as `build` refuses it, and so is a text whose code is too large whatever homes
/// its temporaries have.
pub fn code_of_text(alloc: Global, text: &[u8]) -> Result<Tac, Refusal>
    ensures code { IfOk result (IsCodeOfText text.now) }
    ensures room { IfOk result HasRoom }
    ensures refused { IfErr result (IsRefused text.now) }
    ensures accepts { IfErr result (λ refusal. IsFaulty refusal → IsNotAccepted text.now) }
{
    let program = program_of(alloc, text, Memory::Released)?;
    has_what_is_needed(text, &program);
    code_made(alloc, &program)
}

/// Builds the program of a text, with homes for its temporaries that a placer chooses, and its variables where
/// `variables` says: on every input and under every budget the image does what the program means.
///
/// A text that isn't accepted is refused, with 1, 2 or 10 to 45, and so is a text whose code would be too large.
pub fn build_placed<P: Placer>(
    alloc: Global,
    text: &[u8],
    placer: &P,
    variables: Variables,
) -> Result<Built, Refusal>
    ensures compiles { IfOk result (Compiles text.now) }
    ensures built { IfOk result (IsBuilt text.now) }
    ensures refused { IfErr result (IsRefused text.now) }
    ensures accepts { IfErr result (λ refusal. IsFaulty refusal → IsNotAccepted text.now) }
{
    let mapped = mapped_with(
        alloc,
        text,
        placer,
        variables,
        Marking::Off,
        Memory::Released,
    )?;
    Ok(mapped.built)
}

/// Builds the program of a text as `build_placed` does, with its variables in temporaries.
pub fn build_with<P: Placer>(alloc: Global, text: &[u8], placer: &P) -> Result<Built, Refusal>
    ensures compiles { IfOk result (Compiles text.now) }
    ensures built { IfOk result (IsBuilt text.now) }
    ensures refused { IfErr result (IsRefused text.now) }
    ensures accepts { IfErr result (λ refusal. IsFaulty refusal → IsNotAccepted text.now) }
{
    build_placed(alloc, text, placer, Variables::InTemporaries)
}

/// Builds the program of a text as `build_placed` does, with registers for the temporaries that find one, and returns
/// where its words belong in the text. A debugger finds its variables if they are in frames.
///
/// # Errors
///
/// Those of `build`.
pub fn build_mapped(alloc: Global, text: &[u8], variables: Variables) -> Result<Mapped, Refusal>
    ensures compiles { IfOk result (λ mapped. Compiles text.now mapped.built) }
    ensures built { IfOk result (λ mapped. IsBuilt text.now mapped.built) }
    ensures refused { IfErr result (IsRefused text.now) }
    ensures accepts { IfErr result (λ refusal. IsFaulty refusal → IsNotAccepted text.now) }
{
    let mapped = mapped_with(alloc, text, &Scan, variables, Marking::On, Memory::Released)?;
    Ok(mapped)
}

/// Builds the program of a text as `build_with` does, with registers for the temporaries that find one.
pub fn build(alloc: Global, text: &[u8]) -> Result<Built, Refusal>
    ensures compiles { IfOk result (Compiles text.now) }
    ensures built { IfOk result (IsBuilt text.now) }
    ensures refused { IfErr result (IsRefused text.now) }
    ensures accepts { IfErr result (λ refusal. IsFaulty refusal → IsNotAccepted text.now) }
{
    build_with(alloc, text, &Scan)
}

// The image alone. Everything else stays in memory, without being freed.
fn image_alone(mapped: Mapped) -> Built
    ensures { result ≡ mapped.built }
{
    let Mapped {
        built,
        checked,
        marks,
        frames,
        words,
    } = mapped;
    forget(checked);
    forget(marks);
    forget(frames);
    forget(words);
    built
}

/// Builds the program of a text as `build` does, for a caller that exits soon after: both trees and the code stay in
/// memory, since freeing them would take an eighth of the time.
///
/// # Errors
///
/// Those of `build`.
pub fn build_and_leave(alloc: Global, text: &[u8]) -> Result<Built, Refusal>
    ensures compiles { IfOk result (Compiles text.now) }
    ensures built { IfOk result (IsBuilt text.now) }
    ensures refused { IfErr result (IsRefused text.now) }
    ensures accepts { IfErr result (λ refusal. IsFaulty refusal → IsNotAccepted text.now) }
{
    let mapped = mapped_with(
        alloc,
        text,
        &Scan,
        Variables::InTemporaries,
        Marking::Off,
        Memory::Left,
    )?;
    Ok(image_alone(mapped))
}
