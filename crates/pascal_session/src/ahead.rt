//! Input that is read ahead of what is requested, and given back if that is possible.

ghost use Rattle.std.specs.Prelude.{◌≡◌, [], Some, MatchResult, OnOk};
ghost use Rattle.std.specs.Io.KnownBytes.{IsAtEnd, Keeps};
ghost use Rattle.risc_machine.specs.Console.{Gives};
ghost use Rattle.pascal_session.specs.Ahead.{counted_of, reader_of, unread_of, ahead_bytes};
ghost use Rattle.pascal_session.specs.Transfers.{faults_of, Counts};

use crate::counted::Counted;
use risc_machine::DeviceFault;
use std::io::BufRead;

// The bytes of a block.
const BLOCK: usize = 4096;

// How bytes are read ahead.
#[derive(Clone, Copy)]
enum Kind {
    // nothing has been read yet
    Unknown,
    // the reader shows the next bytes, and keeps them
    Shown,
    // in blocks
    Blocks,
}

/// A reader of single bytes that reads ahead.
///
/// A reader that shows more than one byte ahead keeps what isn't taken, and gives it back when it is dropped: standard
/// input does that if it is a file. Any other reader is read in blocks, each with what is available when a byte is
/// requested.
#[derive(Drop)]
pub struct Ahead<R> {
    reader: Counted<R>,
    kind: Kind,
    // the block, and where the bytes not taken yet begin and end in it
    block: [u8; BLOCK],
    next: usize,
    end: usize,
}

impl<R> Ahead<R> {
    /// The reader, before anything is read.
    pub fn new(reader: R) -> Ahead<R>
        ensures reader { reader_of result ≡ reader }
        ensures unread { unread_of result ≡ [] }
        ensures faults { faults_of (counted_of result) ≡ 0 }
    {
        Ahead {
            reader: Counted::new(reader),
            kind: Kind::Unknown,
            block: [0; BLOCK],
            next: 0,
            end: 0,
        }
    }

    // The next byte of the block, if there is one.
    fn pop(&mut self) -> Option<u8>
        ensures reader { counted_of self.new ≡ counted_of self.old }
        ensures bytes { Gives result (Some (unread_of self.old)) (Some (unread_of self.new)) }
    {
        if self.next >= self.end {
            return None;
        }
        let byte = *self.block.get(self.next)?;
        self.next += 1;
        Some(byte)
    }
}

impl<R: BufRead> Ahead<R> {
    // Reads a block.
    fn fill(&mut self) -> Result<(), DeviceFault>
        requires { unread_of self.old ≡ [] }
        ensures kept { Keeps (ahead_bytes R.remaining self.old) (ahead_bytes R.remaining self.new) }
        ensures end { OnOk result (unread_of self.new ≡ [] → IsAtEnd (R.remaining (reader_of self.new))) }
        ensures counted { Counts result (faults_of (counted_of self.old)) (faults_of (counted_of self.new)) }
    {
        self.next = 0;
        self.end = 0;
        let Ok(count) = self.reader.read(&mut self.block) else {
            return Err(DeviceFault);
        };
        self.end = count;
        Ok(())
    }

    // The next byte, from a new block.
    fn next_of_block(&mut self) -> Result<Option<u8>, DeviceFault>
        requires { unread_of self.old ≡ [] }
        ensures bytes { MatchResult result (λ byte. Gives byte (ahead_bytes R.remaining self.old)
            (ahead_bytes R.remaining self.new)) (λ _. Keeps (ahead_bytes R.remaining self.old)
            (ahead_bytes R.remaining self.new)) }
        ensures counted { Counts result (faults_of (counted_of self.old)) (faults_of (counted_of self.new)) }
    {
        self.fill()?;
        Ok(self.pop())
    }

    // The next byte that the reader shows. The first one determines how bytes are read ahead.
    fn next_shown(&mut self) -> Result<Option<u8>, DeviceFault>
        requires { unread_of self.old ≡ [] }
        ensures bytes { MatchResult result (λ byte. Gives byte (ahead_bytes R.remaining self.old)
            (ahead_bytes R.remaining self.new)) (λ _. Keeps (ahead_bytes R.remaining self.old)
            (ahead_bytes R.remaining self.new)) }
        ensures counted { Counts result (faults_of (counted_of self.old)) (faults_of (counted_of self.new)) }
    {
        let Some((byte, count)) = self.reader.shown_byte()? else {
            return Ok(None);
        };
        if let Kind::Unknown = self.kind {
            self.kind = if count > 1 { Kind::Shown } else { Kind::Blocks };
        }
        Ok(Some(byte))
    }

    /// The next byte, or `None` at the end. It fails only if the reader does.
    pub fn take(&mut self) -> Result<Option<u8>, DeviceFault>
        ensures bytes { MatchResult result (λ byte. Gives byte (ahead_bytes R.remaining self.old)
            (ahead_bytes R.remaining self.new)) (λ _. Keeps (ahead_bytes R.remaining self.old)
            (ahead_bytes R.remaining self.new)) }
        ensures counted { Counts result (faults_of (counted_of self.old)) (faults_of (counted_of self.new)) }
    {
        if let Some(byte) = self.pop() {
            return Ok(Some(byte));
        }
        match self.kind {
            Kind::Blocks => self.next_of_block(),
            Kind::Unknown | Kind::Shown => self.next_shown(),
        }
    }
}
