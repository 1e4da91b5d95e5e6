// The tested code.

use crate::check::{Limits, is_leaf, is_sound_routine};
use crate::code::{BLOCK_LIMIT, MAX_OBJECT_TYPES, TacRaw, TacRoutine};
use std::marker::Model;

/// Three-address code that keeps its invariant: each target and operand exists, and numbers are in their ranges.
pub struct Tac {
    raw: TacRaw,
}

impl Drop for Tac {
    fn drop(self) {
        let Tac { raw: _ } = self;
    }
}

impl Model for Tac {
    ghost use Rattle.tac_code.specs.Meaning.{Code};
    ghost use Rattle.tac_code.specs.Sound.{code_of, IsSound};

    ghost Value = { Code };

    ghost view = { λ t. code_of t.raw };

    ghost invariant = { λ t. IsSound (code_of t.raw) };
}

ghost use Rattle.std.specs.Prelude.{◌≡◌, ◌<◌, ◌↔◌, IsTrue, IsSome, IfSome, length, slice_get, Option, Some};
ghost use Rattle.tac_code.specs.Meaning.{routines};
ghost use Rattle.tac_code.specs.Sound.{code_of, limits_of, IsSound, IsObjectSize, AreSoundRoutines, AreLeaves};
ghost use Rattle.tac_code.specs.Sound.{AreObjectSizes};

impl Tac {
    /// The code with these parts, if they keep the invariant.
    pub fn new(raw: TacRaw) -> Option<Tac>
        ensures sound { IsSome result ↔ IsSound (code_of raw) }
        ensures parts { IfSome result (λ tac. tac ≡ code_of raw) }
    {
        if is_sound(&raw) {
            Some(Tac { raw })
        } else {
            None
        }
    }

    /// The code with these parts, which are known to keep the invariant: nothing is tested.
    pub fn known(raw: TacRaw) -> Tac
        requires { IsSound (code_of raw) }
        ensures { result ≡ code_of raw }
    {
        Tac { raw }
    }

    /// Every fact of the invariant.
    pub fn keeps_invariant(&self)
        ensures { IsSound self.now }
    {
        let _ = &self.raw;
    }

    /// The program's routines, the program block first.
    pub fn program(&self) -> &[TacRoutine]
        ensures { result.now ≡ self.now.program }
    {
        self.raw.program.as_slice()
    }

    /// The run-time routines, whose numbers follow the program's.
    pub fn run_time(&self) -> &[TacRoutine]
        ensures { result.now ≡ self.now.run_time }
    {
        self.raw.run_time.as_slice()
    }

    /// A routine by its number.
    pub fn routine(&self, number: usize) -> &TacRoutine
        requires { number < length (routines self.now) }
        ensures { slice_get (routines self.now) number ≡ Some result.now }
    {
        let split = self.raw.program.len();
        if number < split {
            &self.raw.program[number]
        } else {
            &self.raw.run_time[number - split]
        }
    }

    /// The bytes of an object of each type.
    pub fn objects(&self) -> &[u32]
        ensures { result.now ≡ self.now.objects }
    {
        self.raw.objects.as_slice()
    }
}

fn is_sound(raw: &TacRaw) -> bool
    ensures { IsTrue result ↔ IsSound (code_of raw.now) }
{
    if raw.program.len() == 0 {
        return false;
    }
    if !are_sound_routines(raw, raw.program.as_slice()) {
        return false;
    }
    if !are_sound_routines(raw, raw.run_time.as_slice()) {
        return false;
    }
    if !are_leaves(raw.run_time.as_slice()) {
        return false;
    }
    let objects = raw.objects.as_slice();
    are_sound_objects(objects) && objects.len() <= MAX_OBJECT_TYPES
}

fn limits(raw: &TacRaw, routine: &TacRoutine) -> Limits
    ensures { result ≡ limits_of (code_of raw.now) routine.now }
{
    Limits {
        temporaries: routine.temporaries,
        places: routine.body.as_slice().len(),
        routines: raw.program.len() + raw.run_time.len(),
        object_types: raw.objects.len(),
        scratch: routine.scratch,
    }
}

fn are_sound_routines(raw: &TacRaw, routines: &[TacRoutine]) -> bool
    ensures { IsTrue result ↔ AreSoundRoutines (code_of raw.now) routines.now }
{
    for routine in routines {
        if !is_sound_routine(limits(raw, routine), routine) {
            return false;
        }
    }
    true
}

fn are_leaves(routines: &[TacRoutine]) -> bool
    ensures { IsTrue result ↔ AreLeaves routines.now }
{
    for routine in routines {
        if !is_leaf(routine) {
            return false;
        }
    }
    true
}

fn is_object_size(bytes: u32) -> bool
    ensures { IsTrue result ↔ IsObjectSize bytes }
{
    bytes % 4 == 0 && bytes < BLOCK_LIMIT
}

fn are_sound_objects(objects: &[u32]) -> bool
    ensures { IsTrue result ↔ AreObjectSizes objects.now }
{
    for bytes in objects {
        if !is_object_size(*bytes) {
            return false;
        }
    }
    true
}
