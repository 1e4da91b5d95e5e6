//! Readers and writers that move few bytes at a time, or fail.

use std::io::{self, Error, ErrorKind, Read, Write};

/// A reader of this many spaces, one for each read, that then fails or is at its end.
#[derive(Drop)]
pub(crate) struct Drip {
    pub(crate) left: usize,
    pub(crate) turns: usize,
    pub(crate) fails: bool,
}

impl Read for Drip {
    fn read(&mut self, buffer: &mut [u8]) -> io::Result<usize> {
        self.turns = self.turns.saturating_add(1);
        if self.left == 0 && self.fails {
            return Err(Error::from(ErrorKind::Other));
        }
        if self.left == 0 || buffer.is_empty() {
            return Ok(0);
        }
        self.left -= 1;
        buffer[0] = b' ';
        Ok(1)
    }
}

/// A writer that takes three bytes at a time, has room for some bytes, and then takes none or fails.
#[derive(Drop)]
pub(crate) struct Narrow {
    pub(crate) taken: Vec<u8>,
    pub(crate) room: usize,
    pub(crate) fails: bool,
}

impl Write for Narrow {
    fn write(&mut self, bytes: &[u8]) -> io::Result<usize> {
        let room = self.room.saturating_sub(self.taken.len());
        let count = bytes.len().min(3).min(room);
        if count == 0 && self.fails {
            return Err(Error::from(ErrorKind::Other));
        }
        self.taken.extend_from_slice(&bytes[..count])?;
        Ok(count)
    }

    fn flush(&mut self) -> io::Result<()> {
        Ok(())
    }
}
