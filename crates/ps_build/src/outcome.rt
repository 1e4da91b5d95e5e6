//! How a run of an image ends.

ghost use Rattle.std.specs.Prelude.{◌≡◌};
ghost use Rattle.risc_machine.specs.Exec.{fault_kind};
ghost use Rattle.ps_build.specs.Faults.{kind_told};

use risc_emit_trail::Trail;
use risc_machine::Fault;

/// What the processor could not do, or a stop whose link isn't in the trap table.
#[derive(Clone, Copy, Debug)]
pub enum FaultKind {
    BadWord,
    BadAddress,
    BadDivisor,
    BadJump,
    UnknownTrap,
}

/// How a run ended. Errors and stops have their number and their line of the text.
#[derive(Clone, Copy, Debug)]
pub enum Outcome {
    /// The program reached its end.
    Normal,
    /// An error of the program, 1 to 11, with the lines of the calls that were open at it, innermost first, at most 16.
    /// An image of the first version of the format has no call table and reports no lines.
    Error {
        number: u32,
        line: u32,
        trail: Option<Trail>,
    },
    /// The frames would have exceeded the stack: 12, at the `begin` of the block that would have been entered.
    Stack {
        number: u32,
        line: u32,
    },
    /// The objects would have exceeded the heap: 13, at the name `new`.
    Heap {
        number: u32,
        line: u32,
    },
    /// The steps were used up.
    Steps,
    /// The console gave no byte.
    InputFault,
    /// The console took no byte.
    OutputFault,
    /// The processor could not go on. No image that `build` makes reaches this (`laws::never_faults`).
    Fault(FaultKind),
}

impl From<Fault> for FaultKind {
    ghost from_gives = { λ fault kind. kind ≡ kind_told (fault_kind fault) };

    fn from(fault: Fault) -> FaultKind {
        match fault {
            Fault::BadWord => FaultKind::BadWord,
            Fault::BadAddress => FaultKind::BadAddress,
            Fault::BadDivisor => FaultKind::BadDivisor,
            Fault::BadJump => FaultKind::BadJump,
        }
    }
}
