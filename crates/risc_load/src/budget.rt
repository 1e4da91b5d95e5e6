//! What a run may use, and why a load is refused.

ghost use Rattle.std.specs.Prelude.{◌≡◌};
ghost use Rattle.risc_load.specs.Refusal.{number_of};

use thiserror::Error;

/// The bytes of stack and heap that a run may use.
#[derive(Clone, Copy)]
pub struct Budget {
    pub stack: u32,
    pub heap: u32,
}

/// Why an image is not loaded.
#[derive(Clone, Copy, Debug, Error)]
pub enum LoadRefusal {
    /// Out of memory.
    #[error("OutOfMemory")]
    OutOfMemory,
    /// Code, globals, heap and stack are above 16,777,152 bytes.
    #[error("BudgetTooLarge")]
    BudgetTooLarge,
    /// Stack or heap is not a multiple of 4. Reported before `BudgetTooLarge`.
    #[error("BudgetUneven")]
    BudgetUneven,
}

impl LoadRefusal {
    /// The number of the refusal.
    pub fn number(self) -> u32
        ensures { result ≡ number_of self }
    {
        match self {
            LoadRefusal::OutOfMemory => 9,
            LoadRefusal::BudgetTooLarge => 70,
            LoadRefusal::BudgetUneven => 71,
        }
    }
}
