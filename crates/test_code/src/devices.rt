//! A console over a reader and a writer that fail in mid-stream.

use risc_machine::{Console, Streams};
use std::io::{self, ErrorKind, Read, Write};
use test_tables::Line;

/// Its second read is an error; its second write takes no byte, and its fourth is an error.
#[derive(Drop)]
struct Failing {
    calls: u8,
}

impl Read for Failing {
    fn read(&mut self, buf: &mut [u8]) -> io::Result<usize> {
        self.calls = self.calls.saturating_add(1);
        if self.calls == 2 {
            return Err(ErrorKind::Interrupted.into());
        }
        if buf.is_empty() {
            return Ok(0);
        }
        buf[0] = self.calls;
        Ok(1)
    }
}

impl Write for Failing {
    fn write(&mut self, buf: &[u8]) -> io::Result<usize> {
        self.calls = self.calls.saturating_add(1);
        match self.calls {
            2 => Ok(0),
            4 => Err(ErrorKind::BrokenPipe.into()),
            _ => Ok(buf.len()),
        }
    }

    fn flush(&mut self) -> io::Result<()> {
        Ok(())
    }
}

/// Puts the result of a console at each `take` of the row, and of each `put` of a byte 7; and how often its reader and
/// its writer are called.
pub(crate) fn put_called(line: &mut Line, row: &str) {
    let mut console = Streams::new(Failing { calls: 0 }, Failing { calls: 0 });
    for word in row.split_whitespace() {
        if word == "take" {
            line.seen("", &console.take());
        } else {
            line.seen("", &console.put(7));
        }
        line.word(" ");
    }
    let (reader, writer) = console.into_parts();
    line.numbered("", u64::from(reader.calls));
    line.numbered(" reads ", u64::from(writer.calls));
    line.word(" writes");
}
