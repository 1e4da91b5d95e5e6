// A console over a reader and a writer.

ghost use Rattle.std.specs.Prelude.{◌≡◌};
ghost use Rattle.risc_machine.specs.Streams.{reader_of, writer_of, faults_of};
ghost use Rattle.risc_machine.specs.Console.{one_more};

use crate::console::{Console, DeviceFault};
use std::io::{Read, Write};

/// A console over any reader and any writer, with its count of faults.
///
/// It requests one byte per call, and buffers none. Any error is a device fault, and so is a write of no byte. If the
/// reader and the writer report their bytes, these are its input and output.
#[derive(Drop)]
pub struct Streams<R, W> {
    reader: R,
    writer: W,
    faults: u64,
}

impl<R, W> Streams<R, W> {
    /// The console over these two, with no fault counted.
    pub fn new(reader: R, writer: W) -> Streams<R, W>
        ensures reader { reader_of result ≡ reader }
        ensures writer { writer_of result ≡ writer }
        ensures faults { faults_of result ≡ 0 }
    {
        Streams {
            reader,
            writer,
            faults: 0,
        }
    }

    /// The reader and the writer as they are now.
    pub fn into_parts(self) -> (R, W)
        ensures reader { result.0 ≡ reader_of self }
        ensures writer { result.1 ≡ writer_of self }
    {
        (self.reader, self.writer)
    }

    // Counts a device fault.
    fn fault(&mut self) -> DeviceFault
        ensures reader { reader_of self.new ≡ reader_of self.old }
        ensures writer { writer_of self.new ≡ writer_of self.old }
        ensures faults { faults_of self.new ≡ one_more (faults_of self.old) }
    {
        self.faults = self.faults.saturating_add(1);
        DeviceFault
    }
}

impl<R: Read, W: Write> Console for Streams<R, W> {
    ghost use Rattle.risc_machine.specs.Streams.{streams_world};

    ghost world = { streams_world R.remaining W.contents };

    fn take(&mut self) -> Result<Option<u8>, DeviceFault> {
        let mut byte = [0];
        match self.reader.read(&mut byte) {
            Ok(0) => Ok(None),
            Ok(_) => Ok(Some(byte[0])),
            Err(_) => Err(self.fault()),
        }
    }

    fn put(&mut self, byte: u8) -> Result<(), DeviceFault> {
        match self.writer.write(&[byte]) {
            Ok(1) => Ok(()),
            _ => Err(self.fault()),
        }
    }
}
