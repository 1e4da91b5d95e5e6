//! Where the words of instructions, routines and constants are.

ghost use Rattle.std.specs.Prelude.{◌≡◌, ◌≤◌, slice_get};
ghost use Rattle.risc_emit_forms.specs.Pieces.{label_place};
ghost use Rattle.risc_emit.specs.Meant.{label_of};
ghost use Rattle.risc_emit.specs.Placed.{site_of, text_of, site_at, text_at, entry_at, constant_at, placed, AreNear};

use crate::pieces::Label;
use risc_image::MAX_COUNT;

/// The first word of an instruction, and of its constant among the words of all constants. Both are at most the
/// greatest number of words, so that 32 bits hold them.
#[derive(Clone, Copy)]
pub struct Mark {
    pub site: u32,
    pub text: u32,
}

/// The first word of a routine, and the marks of its places and of the one after its last.
#[derive(Drop)]
pub struct Marks {
    pub entry: usize,
    pub places: Vec<Mark>,
}

fn site_in(places: &[Mark], place: usize) -> usize
    ensures { result ≡ site_of (slice_get places.now place) }
{
    match places.get(place) {
        None => 0,
        Some(mark) => mark.site as usize,
    }
}

fn text_in(places: &[Mark], place: usize) -> usize
    ensures { result ≡ text_of (slice_get places.now place) }
{
    match places.get(place) {
        None => 0,
        Some(mark) => mark.text as usize,
    }
}

fn site_at(marks: &[Marks], routine: usize, place: usize) -> usize
    ensures { result ≡ site_at marks.now routine place }
{
    match marks.get(routine) {
        None => 0,
        Some(marks) => site_in(marks.places.as_slice(), place),
    }
}

fn text_at(marks: &[Marks], routine: usize, place: usize) -> usize
    ensures { result ≡ text_at marks.now routine place }
{
    match marks.get(routine) {
        None => 0,
        Some(marks) => text_in(marks.places.as_slice(), place),
    }
}

/// The first word of a routine; 0 if there is none.
pub(crate) fn entry_at(marks: &[Marks], routine: usize) -> usize
    ensures { result ≡ entry_at marks.now routine }
{
    match marks.get(routine) {
        None => 0,
        Some(marks) => marks.entry,
    }
}

// The first word of a constant, given where the constants' words begin.
fn constant_at(marks: &[Marks], constants: usize, routine: usize, place: usize) -> usize
    requires { constant_at marks.now constants routine place ≤ MAX_COUNT }
    ensures { result ≡ constant_at marks.now constants routine place }
{
    constants + text_at(marks, routine, place)
}

/// The place of a label, given where the constants' words begin.
pub(crate) fn label_place(marks: &[Marks], constants: usize, label: Label) -> usize
    requires { AreNear marks.now constants }
    ensures { result ≡ label_place (placed marks.now constants) (label_of label) }
{
    match label {
        Label::Place(routine, place) => site_at(marks, routine as usize, place as usize),
        Label::Entry(routine) => entry_at(marks, routine as usize),
        Label::Text(routine, place) => constant_at(
            marks,
            constants,
            routine as usize,
            place as usize,
        ),
    }
}
