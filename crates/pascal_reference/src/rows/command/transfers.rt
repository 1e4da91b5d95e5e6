//! Whole texts and images, read and written.

use crate::rows::command::devices::{Drip, Narrow};
use crate::rows::command::programs::put_end;
use pascal_session::{Counted, ReadFault, put_all, read_up_to};
use ps_build::{Budget, go};
use risc_machine::Streams;
use std::alloc::Global;
use std::io;
use test_tables::Line;
use test_tables::words::{number, u32_of};

/// Puts what a writer takes of ten digits. The row has the writer's room, and whether it then fails or takes no byte.
pub(crate) fn put_taken(alloc: Global, line: &mut Line, row: &str) {
    let mut words = row.split(' ');
    let mut writer = Narrow {
        taken: Vec::new(alloc),
        room: number(words.next()) as usize,
        fails: words.next() == Some("fails"),
    };
    match put_all(&mut Counted::new(&mut writer), b"0123456789") {
        Ok(()) => line.word("all"),
        Err(count) => line.valued("", &count),
    }
    line.word(" ");
    line.bracketed(&writer.taken);
}

/// Puts what is read from a reader that returns one byte for each read. The row has how many bytes it returns, the
/// limit, and whether the reader then fails or is at its end.
pub(crate) fn put_read(alloc: Global, line: &mut Line, row: &str) {
    let mut words = row.split(' ');
    let left = number(words.next()) as usize;
    let limit = number(words.next()) as usize;
    let mut reader = Drip {
        left,
        turns: 0,
        fails: words.next() == Some("fails"),
    };
    match read_up_to(alloc, &mut Counted::new(&mut reader), limit) {
        Ok(bytes) => {
            line.numbered("", bytes.len() as u64);
            line.numbered(" bytes in ", reader.turns as u64);
            line.word(" turns");
        }
        Err(ReadFault::Device) => line.word("device fault"),
        Err(ReadFault::OutOfMemory) => line.fall_short(),
    }
}

/// Puts how the run of a text of this many spaces ends that is read byte by byte, up to one byte more than the longest
/// text.
pub(crate) fn put_gone(alloc: Global, line: &mut Line, row: &str) {
    let left = u32_of(row) as usize;
    let mut reader = Drip {
        left,
        turns: 0,
        fails: false,
    };
    match read_up_to(alloc, &mut Counted::new(&mut reader), 1_048_577) {
        Ok(text) => put_text_gone(alloc, line, &text),
        Err(_) => line.word("not read"),
    }
}

fn put_text_gone(alloc: Global, line: &mut Line, text: &[u8]) {
    let writer = Narrow {
        taken: Vec::new(alloc),
        room: 0,
        fails: true,
    };
    let mut streams = Streams::new(io::empty(), writer);
    let budget = Budget { stack: 0, heap: 0 };
    let end = go(alloc, text, budget, &mut streams, 1);
    drop(streams);
    line.numbered("", text.len() as u64);
    line.word(" bytes: ");
    put_end(line, end);
}
