//! The console of a run: bytes are read one by one, and bytes that are put are buffered and written in blocks.

ghost use Rattle.std.specs.Prelude.{◌≡◌, ◌≤◌, [], ◌∷◌, drop, length, MatchResult, OnOk, OnErr, true, false};
ghost use Rattle.std.specs.Io.KnownBytes.{Appends, Keeps};
ghost use Rattle.risc_machine.specs.Console.{Gives, one_more};
ghost use Rattle.risc_machine.specs.Console as devices;
ghost use Rattle.pascal_session.specs.Ahead as ahead;
ghost use Rattle.pascal_session.specs.Transfers as transfer;
ghost use Rattle.pascal_session.specs.Console.{input_of, writer_of, held_of, has_failed, faults_of, output_of};
ghost use Rattle.pascal_session.specs.Console.{console_world, read_faults_of, write_faults_of, CountsOne};

use crate::ahead::Ahead;
use crate::counted::Counted;
use crate::transfer::put_all;
use ps_build::Paced;
use risc_machine::{Console, DeviceFault};
use std::alloc::Global;
use std::io::{BufRead, Write};

/// A console over a reader, which is read ahead, and a writer. Output is buffered and written in blocks: before each
/// look at the input, at each pause of the run, when the buffer is full, and when `write_out` is called.
///
/// Its output is what the writer has, followed by what is buffered. After a write has failed, nothing more is written.
#[derive(Drop)]
pub struct BlockConsole<R, W> {
    input: Ahead<R>,
    writer: Counted<W>,
    held: Vec<u8>,
    has_failed: bool,
    faults: u64,
}

// The most bytes that are buffered.
const ROOM: usize = 32_768;

// Removes this many bytes at the front.
fn remove_front(bytes: &mut Vec<u8>, count: usize)
    requires { count ≤ length bytes.old.items }
    ensures { bytes.new.items ≡ drop count bytes.old.items }
{
    let len = bytes.len();
    bytes.as_mut_slice().copy_within(count..len, 0);
    bytes.truncate(len - count);
}

impl<R, W> BlockConsole<R, W> {
    /// The console over these two. The buffer is empty, and no fault is counted.
    pub fn new(alloc: Global, reader: R, writer: W) -> BlockConsole<R, W>
        ensures reader { ahead.reader_of (input_of result) ≡ reader }
        ensures unread { ahead.unread_of (input_of result) ≡ [] }
        ensures writer { transfer.device_of (writer_of result) ≡ writer }
        ensures held { held_of result ≡ [] }
        ensures failed { has_failed result ≡ false }
        ensures faults { faults_of result ≡ 0 }
    {
        BlockConsole {
            input: Ahead::new(reader),
            writer: Counted::new(writer),
            held: Vec::new(alloc),
            has_failed: false,
            faults: 0,
        }
    }

    // Counts a device fault.
    fn fault(&mut self) -> DeviceFault
        ensures input { input_of self.new ≡ input_of self.old }
        ensures writer { writer_of self.new ≡ writer_of self.old }
        ensures held { held_of self.new ≡ held_of self.old }
        ensures failed { has_failed self.new ≡ has_failed self.old }
        ensures faults { faults_of self.new ≡ one_more (faults_of self.old) }
    {
        self.faults = self.faults.saturating_add(1);
        DeviceFault
    }
}

impl<R: BufRead, W> BlockConsole<R, W> {
    // Reads a byte of the input. The buffer must be empty.
    fn look(&mut self) -> Result<Option<u8>, DeviceFault>
        requires { held_of self.old ≡ [] }
        ensures input { MatchResult result (λ byte. Gives byte (ahead.ahead_bytes R.remaining (input_of self.old))
            (ahead.ahead_bytes R.remaining (input_of self.new)))
            (λ _. Keeps (ahead.ahead_bytes R.remaining (input_of self.old))
            (ahead.ahead_bytes R.remaining (input_of self.new))) }
        ensures counted { transfer.Counts result (read_faults_of self.old) (read_faults_of self.new) }
        ensures writer { writer_of self.new ≡ writer_of self.old }
        ensures held { held_of self.new ≡ [] }
        ensures failed { has_failed self.new ≡ has_failed self.old }
        ensures faults { MatchResult result (λ _. faults_of self.new ≡ faults_of self.old)
            (λ _. faults_of self.new ≡ one_more (faults_of self.old)) }
    {
        match self.input.take() {
            Ok(byte) => Ok(byte),
            Err(_) => Err(self.fault()),
        }
    }
}

impl<R, W: Write> BlockConsole<R, W> {
    /// Writes everything that is buffered, unless a write has failed before. It fails only if a write did, now or
    /// before.
    pub fn write_out(&mut self) -> Result<(), DeviceFault>
        ensures input { input_of self.new ≡ input_of self.old }
        ensures output { Keeps (output_of W.contents self.old) (output_of W.contents self.new) }
        ensures all { OnOk result (held_of self.new ≡ []) }
        ensures failed { MatchResult result (λ _. has_failed self.new ≡ false) (λ _. has_failed self.new ≡ true) }
        ensures once { has_failed self.old ≡ true → (writer_of self.new ≡ writer_of self.old)
            × (has_failed self.new ≡ true) }
        ensures counted { has_failed self.old ≡ false → transfer.Counts result
            (write_faults_of self.old) (write_faults_of self.new) }
        ensures faults { faults_of self.new ≡ faults_of self.old }
    {
        if self.has_failed {
            return Err(DeviceFault);
        }
        match put_all(&mut self.writer, self.held.as_slice()) {
            Ok(()) => {
                self.held.clear();
                Ok(())
            }
            Err(written) => {
                remove_front(&mut self.held, written);
                self.has_failed = true;
                Err(DeviceFault)
            }
        }
    }

    // Writes a byte after everything that was buffered before.
    fn write_through(&mut self, byte: u8) -> Result<(), DeviceFault>
        requires { held_of self.old ≡ [] }
        ensures input { input_of self.new ≡ input_of self.old }
        ensures output { MatchResult result (λ _. Appends (output_of W.contents self.old)
            (output_of W.contents self.new) (byte ∷ []))
            (λ _. Keeps (output_of W.contents self.old) (output_of W.contents self.new)) }
        ensures counted { transfer.Counts result (write_faults_of self.old) (write_faults_of self.new) }
        ensures faults { faults_of self.new ≡ faults_of self.old }
    {
        match put_all(&mut self.writer, &[byte]) {
            Ok(()) => Ok(()),
            Err(_) => {
                self.has_failed = true;
                Err(DeviceFault)
            }
        }
    }

    // Buffers a byte, or writes it if there is no memory to buffer it. The buffer must be empty.
    fn put_first(&mut self, byte: u8) -> Result<(), DeviceFault>
        requires { held_of self.old ≡ [] }
        ensures input { input_of self.new ≡ input_of self.old }
        ensures output { MatchResult result (λ _. Appends (output_of W.contents self.old)
            (output_of W.contents self.new) (byte ∷ []))
            (λ _. Keeps (output_of W.contents self.old) (output_of W.contents self.new)) }
        ensures counted { transfer.Counts result (write_faults_of self.old) (write_faults_of self.new) }
        ensures faults { faults_of self.new ≡ faults_of self.old }
    {
        match self.held.push(byte) {
            Ok(()) => Ok(()),
            Err(_) => self.write_through(byte),
        }
    }

    // Writes what is buffered, and then adds a byte.
    #[cold]
    fn put_behind(&mut self, byte: u8) -> Result<(), DeviceFault>
        ensures input { input_of self.new ≡ input_of self.old }
        ensures output { MatchResult result (λ _. Appends (output_of W.contents self.old)
            (output_of W.contents self.new) (byte ∷ []))
            (λ _. Keeps (output_of W.contents self.old) (output_of W.contents self.new)) }
        ensures once { has_failed self.old ≡ true → (writer_of self.new ≡ writer_of self.old)
            × (has_failed self.new ≡ true) }
        ensures counted { has_failed self.old ≡ false → transfer.Counts result
            (write_faults_of self.old) (write_faults_of self.new) }
        ensures faults { MatchResult result (λ _. faults_of self.new ≡ faults_of self.old)
            (λ _. faults_of self.new ≡ one_more (faults_of self.old)) }
    {
        if self.write_out().is_err() {
            return Err(self.fault());
        }
        match self.put_first(byte) {
            Ok(()) => Ok(()),
            Err(_) => Err(self.fault()),
        }
    }
}

impl<R: BufRead, W: Write> Console for BlockConsole<R, W> {
    ghost use Rattle.pascal_session.specs.Console.{console_world};

    ghost world = { console_world R.remaining W.contents };

    fn take(&mut self) -> Result<Option<u8>, DeviceFault>
        ensures moved { MatchResult result
            (λ byte. devices.Took byte (console_world R.remaining W.contents self.old)
            (console_world R.remaining W.contents self.new))
            (λ _. devices.Failed (console_world R.remaining W.contents self.old)
            (console_world R.remaining W.contents self.new)) }
        ensures failed { OnOk result (has_failed self.new ≡ false) }
        ensures once { has_failed self.old ≡ true → (input_of self.new ≡ input_of self.old)
            × (writer_of self.new ≡ writer_of self.old) × (has_failed self.new ≡ true) }
        ensures counted { has_failed self.old ≡ false → CountsOne result self.old self.new }
    {
        let handed_on = self.write_out();
        if handed_on.is_err() {
            return Err(self.fault());
        }
        self.look()
    }

    #[inline(always)]
    fn put(&mut self, byte: u8) -> Result<(), DeviceFault>
        ensures moved { MatchResult result
            (λ _. devices.Wrote byte (console_world R.remaining W.contents self.old)
            (console_world R.remaining W.contents self.new))
            (λ _. devices.Failed (console_world R.remaining W.contents self.old)
            (console_world R.remaining W.contents self.new)) }
        ensures input { input_of self.new ≡ input_of self.old }
        ensures once { has_failed self.old ≡ true → (writer_of self.new ≡ writer_of self.old)
            × (has_failed self.new ≡ true) }
        ensures counted { has_failed self.old ≡ false → transfer.Counts result
            (write_faults_of self.old) (write_faults_of self.new) }
    {
        if self.held.len() < ROOM && self.held.push(byte).is_ok() {
            return Ok(());
        }
        self.put_behind(byte)
    }
}

impl<R: BufRead, W: Write> Paced for BlockConsole<R, W> {
    ghost use Rattle.pascal_session.specs.Console.{has_failed};

    ghost has_failed = { has_failed };

    fn pause(&mut self) -> Result<(), DeviceFault>
        ensures failed { OnErr result (has_failed self.new ≡ true) }
        ensures input { Keeps (console_world R.remaining W.contents self.old).input
            (console_world R.remaining W.contents self.new).input }
        ensures output { Keeps (console_world R.remaining W.contents self.old).output
            (console_world R.remaining W.contents self.new).output }
        ensures faults { (console_world R.remaining W.contents self.new).faults
            ≡ (console_world R.remaining W.contents self.old).faults }
        ensures all { OnOk result (held_of self.new ≡ []) }
        ensures counted { has_failed self.old ≡ false → transfer.Counts result
            (write_faults_of self.old) (write_faults_of self.new) }
    {
        self.write_out()
    }
}
