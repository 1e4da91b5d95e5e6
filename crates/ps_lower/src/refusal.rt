//! Why a program has no code.

ghost use Rattle.std.specs.Prelude.{◌≡◌, ◌++◌, List, OnOk};
ghost use Rattle.tac_code.specs.declared.code.Instruction.{Instruction};
ghost use Rattle.ps_lower.specs.Refused.{Adds};
ghost use Rattle.ps_lower.specs.declared.refusal.LowerRefusal.TheVariants.{OutOfMemory};

use crate::out::Code;
use std::alloc::{AllocError, AllocFailed};

/// The most instructions of a program. An image can't have more words, and each instruction takes at least one word.
pub const MOST_INSTRUCTIONS: usize = 1_048_576;

/// Why a program has no code.
#[derive(Clone, Copy)]
pub enum LowerRefusal {
    /// A growth of memory was refused.
    OutOfMemory,
    /// The code would have more words than an image can hold.
    CodeTooLarge,
}

impl From<AllocError> for LowerRefusal {
    ghost from_gives = { λ _ refusal. refusal ≡ OutOfMemory };

    fn from(_error: AllocError) -> LowerRefusal {
        LowerRefusal::OutOfMemory
    }
}

impl<T: Drop> From<AllocFailed<T>> for LowerRefusal {
    ghost from_gives = { λ _ refusal. refusal ≡ OutOfMemory };

    fn from(_error: AllocFailed<T>) -> LowerRefusal {
        LowerRefusal::OutOfMemory
    }
}

/// The result of adding code, which fails only when out of memory, as a result that may also refuse code that is too
/// large.
pub fn lifted(added: Result<(), AllocError>) -> Result<(), LowerRefusal>
    ensures { (old new code : List Instruction) → OnOk added (new ≡ old ++ code) → Adds result old new code }
{
    added?;
    Ok(())
}

/// Refuses code that no image can hold. Each statement ends with this test, so that code that is too large is reported
/// before it takes much more memory than the largest that fits into an image.
pub fn limited(out: &Code) -> Result<(), LowerRefusal>
    ensures { (old code : List Instruction) → out.now ≡ old ++ code → Adds result old out.now code }
{
    if out.place() > MOST_INSTRUCTIONS {
        return Err(LowerRefusal::CodeTooLarge);
    }
    Ok(())
}
