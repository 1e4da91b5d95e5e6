// Why a part of a run stops.

ghost use Rattle.std.specs.Prelude.{◌≡◌};

use crate::ending::Ending;
use std::alloc::AllocError;

/// Why a part of a run stops: the run ended, with the lines of the calls that are open; a growth was refused; or it
/// needs more levels than it was allowed.
#[derive(Drop)]
pub enum Halt {
    Ended { ending: Ending, calls: Vec<u32> },
    OutOfMemory,
    TooDeep,
}

impl From<AllocError> for Halt {
    ghost use Rattle.std.specs.Prelude.{◌≡◌};
    ghost use Rattle.ps_meaning_runner.specs.declared.stop.Halt.TheVariants.{OutOfMemory};

    ghost from_gives = { λ _ e. e ≡ OutOfMemory };

    fn from(_: AllocError) -> Halt {
        Halt::OutOfMemory
    }
}
