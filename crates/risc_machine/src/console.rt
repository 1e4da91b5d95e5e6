// Where a machine gets its input and sends its output.

ghost use Rattle.std.specs.Prelude.{MatchResult};
ghost use Rattle.risc_machine.specs.Console.{World, Took, Wrote, Failed};

/// A device failed to give or take its byte.
#[derive(Clone, Copy, Debug)]
pub struct DeviceFault;

/// A console: bytes come one at a time, and go one at a time.
///
/// Its meaning is a world: a count of faults and, if the console reports its bytes, the input left and the output so
/// far.
pub trait Console {
    ghost world: { Self → World };

    /// Removes and returns the first byte left, or returns `None` if there is none.
    ///
    /// A fault moves no byte, and the count of faults rises by one (at 18446744073709551615 it stays).
    fn take(&mut self) -> Result<Option<u8>, DeviceFault>
        ensures { MatchResult result (λ byte. Took byte (world self.old) (world self.new))
            (λ _. Failed (world self.old) (world self.new)) };

    /// Appends a byte to the output.
    ///
    /// A fault moves no byte, and the count of faults rises by one (at 18446744073709551615 it stays).
    fn put(&mut self, byte: u8) -> Result<(), DeviceFault>
        ensures { MatchResult result (λ _. Wrote byte (world self.old) (world self.new))
            (λ _. Failed (world self.old) (world self.new)) };
}
