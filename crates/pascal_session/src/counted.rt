// Readers and writers with the number of their failures. Outside this file the number grows only through a read, a look
// or a write that fails.

ghost use Rattle.std.specs.Prelude.{◌≡◌, ◌<◌, length, option_map, IfOk, MatchResult};
ghost use Rattle.std.specs.Io.{ReadsAtMost, WritesAtMost};
ghost use Rattle.std.specs.Io.KnownBytes.{Keeps, ReadConsumes, WriteAppends};
ghost use Rattle.risc_machine.specs.Console.{Gives, one_more};
ghost use Rattle.pascal_session.specs.Transfers.{device_of, faults_of, Counts};

use risc_machine::DeviceFault;
use std::io::{BufRead, Read, Write};

/// A reader or a writer with the number of its failures: each error, and each write of no byte.
#[derive(Drop)]
pub struct Counted<D> {
    device: D,
    faults: u64,
}

impl<D> Counted<D> {
    /// The device, with no failure counted.
    pub fn new(device: D) -> Counted<D>
        ensures device { device_of result ≡ device }
        ensures faults { faults_of result ≡ 0 }
    {
        Counted { device, faults: 0 }
    }

    // Counts a failure.
    fn fault(&mut self) -> DeviceFault
        ensures device { device_of self.new ≡ device_of self.old }
        ensures faults { faults_of self.new ≡ one_more (faults_of self.old) }
    {
        self.faults = self.faults.saturating_add(1);
        DeviceFault
    }
}

impl<R: Read> Counted<R> {
    /// One read.
    pub(crate) fn read(&mut self, buffer: &mut [u8]) -> Result<usize, DeviceFault>
        ensures bound { ReadsAtMost result buffer.new }
        ensures bytes { ReadConsumes (R.remaining (device_of self.old))
            (R.remaining (device_of self.new)) result buffer.new }
        ensures counted { Counts result (faults_of self.old) (faults_of self.new) }
    {
        match self.device.read(buffer) {
            Ok(count) => Ok(count),
            Err(_) => Err(self.fault()),
        }
    }
}

// The next byte that a reader shows, with the number of bytes that it shows.
fn shown_byte<R: BufRead>(reader: &mut R) -> Result<Option<(u8, usize)>, DeviceFault>
    ensures { MatchResult result (λ shown. Gives (option_map (λ s. s.0) shown) (R.remaining reader.old)
        (R.remaining reader.new)) (λ _. Keeps (R.remaining reader.old) (R.remaining reader.new)) }
{
    let Ok(shown) = reader.fill_buf() else {
        return Err(DeviceFault);
    };
    let Some(byte) = shown.first() else {
        return Ok(None);
    };
    let (byte, count) = (*byte, shown.len());
    reader.consume(1);
    Ok(Some((byte, count)))
}

impl<R: BufRead> Counted<R> {
    /// Takes the next byte that the reader shows, with the number of bytes that it shows.
    pub(crate) fn shown_byte(&mut self) -> Result<Option<(u8, usize)>, DeviceFault>
        ensures bytes { MatchResult result (λ shown. Gives (option_map (λ s. s.0) shown)
            (R.remaining (device_of self.old)) (R.remaining (device_of self.new)))
            (λ _. Keeps (R.remaining (device_of self.old)) (R.remaining (device_of self.new))) }
        ensures counted { Counts result (faults_of self.old) (faults_of self.new) }
    {
        match shown_byte(&mut self.device) {
            Ok(shown) => Ok(shown),
            Err(_) => Err(self.fault()),
        }
    }
}

impl<W: Write> Counted<W> {
    /// One write, of some bytes.
    pub(crate) fn write(&mut self, bytes: &[u8]) -> Result<usize, DeviceFault>
        requires { 0 < length bytes.now }
        ensures bound { WritesAtMost result bytes.now }
        ensures some { IfOk result (λ count. 0 < count) }
        ensures bytes { WriteAppends (W.contents (device_of self.old))
            (W.contents (device_of self.new)) result bytes.now }
        ensures counted { Counts result (faults_of self.old) (faults_of self.new) }
    {
        match self.device.write(bytes) {
            Ok(0) => Err(self.fault()),
            Ok(count) => Ok(count),
            Err(_) => Err(self.fault()),
        }
    }
}
