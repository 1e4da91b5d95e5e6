// Whole texts and images from readers and to writers, in a bounded number of reads and writes.

ghost use Rattle.std.specs.Prelude.{◌≡◌, ℕ, ◌+◌, ◌^◌, ◌<◌, ◌≤◌, length, take, OnOk, OnErr, IfOk, IfErr, vec_len};
ghost use Rattle.std.specs.Io.KnownBytes.{Appends, Consumes, IsAtEnd};
ghost use Rattle.pascal_session.specs.declared.transfer.ReadFault.TheVariants.{OutOfMemory};
ghost use Rattle.pascal_session.specs.Transfers.{device_of, faults_of, AppendsFront, Counts, CountsRead, TakesUpTo};

pub use crate::counted::Counted;
use risc_machine::DeviceFault;
use std::alloc::{AllocError, AllocFailed, Global};
use std::io::{Read, Write};

/// Why a text or an image was not read.
#[derive(Clone, Copy)]
pub enum ReadFault {
    /// The reader failed.
    Device,
    /// A growth was refused.
    OutOfMemory,
}

impl From<AllocError> for ReadFault {
    ghost from_gives = { λ _ r. r ≡ OutOfMemory };

    fn from(_error: AllocError) -> ReadFault {
        ReadFault::OutOfMemory
    }
}

// How many bytes one read requests at most.
const CHUNK: usize = 8192;

/// Reads to the end, or to `limit` bytes if there are more. Each read takes at least one byte or reaches the end, so
/// there are at most `limit` reads, and one more for the end.
///
/// It returns `Device` only if a read failed, once.
pub fn read_up_to<R: Read>(
    alloc: Global,
    reader: &mut Counted<R>,
    limit: usize,
) -> Result<Vec<u8>, ReadFault>
    requires { limit < 2 ^ 32 }
    ensures bound { IfOk result (λ bytes. vec_len bytes ≤ limit) }
    ensures taken { IfOk result (λ bytes.
        Consumes (R.remaining (device_of reader.old)) (R.remaining (device_of reader.new)) bytes.items) }
    ensures whole { IfOk result (λ bytes. vec_len bytes < limit → IsAtEnd (R.remaining (device_of reader.new))) }
    ensures failed { IfErr result (λ fault. TakesUpTo fault limit (R.remaining (device_of reader.old))
        (R.remaining (device_of reader.new))) }
    ensures counted { CountsRead result (faults_of reader.old) (faults_of reader.new) }
{
    let mut bytes = Vec::new(alloc);
    let mut chunk = [0u8; CHUNK];
    // each iteration but the last adds a byte, so the list is full before the iterations are used up
    for _turn in 0..=limit {
        let room = (limit - bytes.len()).min(CHUNK);
        let Ok(count) = reader.read(&mut chunk[..room]) else {
            return Err(ReadFault::Device);
        };
        if count == 0 {
            return Ok(bytes);
        }
        bytes.extend_from_slice(&chunk[..count])?;
    }
    unreachable!()
}

/// Writes all the bytes. `Err(k)` says that just the first k bytes were written: a write of no byte or an error ended
/// it. Each iteration writes at least one byte.
pub fn put_all<W: Write>(writer: &mut Counted<W>, bytes: &[u8]) -> Result<(), usize>
    ensures ok { OnOk result (Appends (W.contents (device_of writer.old))
        (W.contents (device_of writer.new)) bytes.now) }
    ensures err { IfErr result (λ k. Appends (W.contents (device_of writer.old)) (W.contents (device_of writer.new))
        (take k bytes.now)) }
    ensures short { IfErr result (λ k. k < length bytes.now) }
    ensures counted { Counts result (faults_of writer.old) (faults_of writer.new) }
{
    let mut done = 0;
    for _turn in 0..bytes.len() {
        if done == bytes.len() {
            break;
        }
        let Ok(written) = writer.write(&bytes[done..]) else {
            return Err(done);
        };
        done += written;
    }
    Ok(())
}

/// Writes all the bytes by one write. After an error some of the first of them may have been written, or the writer
/// failed: a second write after a short one might exceed a limit on the size of files.
pub fn put_at_once<W: Write>(writer: &mut Counted<W>, bytes: &[u8]) -> Result<(), DeviceFault>
    ensures ok { OnOk result (Appends (W.contents (device_of writer.old))
        (W.contents (device_of writer.new)) bytes.now) }
    ensures err { OnErr result (AppendsFront (W.contents (device_of writer.old)) (W.contents (device_of writer.new))
        bytes.now (faults_of writer.old) (faults_of writer.new)) }
{
    if bytes.is_empty() {
        return Ok(());
    }
    match writer.write(bytes) {
        Ok(written) if written == bytes.len() => Ok(()),
        _ => Err(DeviceFault),
    }
}
