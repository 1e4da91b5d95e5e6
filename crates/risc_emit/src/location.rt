// Homes whose registers are known to exist.

use risc_word::Register;

/// Where a temporary lives: a slot of the frame, or a register.
#[derive(Clone, Copy)]
pub(crate) enum Location {
    Slot(u32),
    Register(Register),
}
