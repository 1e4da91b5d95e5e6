// Homes, and the parts of an untested placement.

/// Where a temporary lives while its routine runs.
#[derive(Clone, Copy)]
pub enum Home {
    /// A slot of its routine's frame, by number, below the count of the routine's temporaries.
    Slot(u32),
    /// A register, 0 to 11.
    Reg(u8),
}

/// The parts of a `Placement`, untested: a home for each temporary, in the order of routines and their temporaries.
#[derive(Drop)]
pub struct Raw {
    pub homes: Vec<Home>,
}

/// Why a placement was refused.
#[derive(Clone, Copy)]
pub enum PlaceRefusal {
    /// Two temporaries that may be alive at once share a home, one lives in a register across a call, or a home does
    /// not exist.
    BadPlacement,
    OutOfMemory,
}
