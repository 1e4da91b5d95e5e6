// How a run ends.

/// What an instruction could not do. The machine is left as before it.
#[derive(Clone, Copy, Debug)]
pub enum Fault {
    /// The word at PC is not an instruction.
    BadWord,
    /// A word's address that is not a multiple of 4, an address past memory, or one of the device page that does not
    /// serve this access.
    BadAddress,
    /// A division by 0 or by a negative number.
    BadDivisor,
    /// PC is past memory.
    BadJump,
}

/// Why a run stopped.
#[derive(Clone, Copy, Debug)]
pub enum Stop {
    /// The program stored 0 at FFFFC4H.
    Normal,
    /// The program stored this word, which is not 0, at FFFFC4H.
    Trap(u32),
    /// The requested steps were made, and the machine has not stopped.
    Steps,
    /// The console did not supply the requested byte.
    InputFault,
    /// The console did not accept the byte that was put.
    OutputFault,
    /// An instruction could not be executed.
    Fault(Fault),
}
