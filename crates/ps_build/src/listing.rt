//! Listings of programs.

ghost use Rattle.std.specs.Prelude.{IfOk};
ghost use Rattle.std.specs.String.{string_bytes};
ghost use Rattle.ps_build.specs.Listed.{IsListed};

use crate::built::Built;
use std::alloc::{AllocError, Global};

/// The listing of a program's image, for people: a line for each word of its code, with the address, the word, the
/// instruction, and the line of the text to which a stop after it belongs, if any.
pub fn list(alloc: Global, built: &Built) -> Result<String, AllocError>
    ensures { IfOk result (λ text. IsListed built.now (string_bytes text)) }
{
    risc_image_list::list(alloc, &built.view())
}
