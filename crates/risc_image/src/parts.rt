//! The parts of an image.

use crate::rows::{CallRow, FrameRow, ObjectRow, TrapRow};
use std::marker::Model;

/// The parts of an image that a file can hold. Clauses see them as an `Image`.
#[derive(Drop)]
pub struct Parts {
    /// The bytes of the globals.
    pub global: u32,
    /// The words of the code.
    pub code: Vec<u32>,
    pub frames: Vec<FrameRow>,
    pub objects: Vec<ObjectRow>,
    pub traps: Vec<TrapRow>,
    /// The call table of the second version of the format. `None` stands for the first version.
    pub calls: Option<Vec<CallRow>>,
}

impl Model for Parts {
    ghost use Rattle.std.specs.Prelude.{option_map};
    ghost use Rattle.risc_image.specs.Image.{Image, IsWellFormed, call_list};

    ghost Value = { Image };

    ghost view = { λ a. record {
      global = a.global;
      code = a.code.items;
      frames = a.frames.items;
      objects = a.objects.items;
      traps = a.traps.items;
      calls = call_list a.calls;
    } };

    ghost invariant = { λ a. IsWellFormed (record {
      global = a.global;
      code = a.code.items;
      frames = a.frames.items;
      objects = a.objects.items;
      traps = a.traps.items;
      calls = call_list a.calls;
    }) };
}
