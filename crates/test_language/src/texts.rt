//! Texts within the limits, their lines, and slices of them.

use ps_text::{LineTable, Source, Span};
use std::alloc::Global;
use test_tables::Line;
use test_tables::words::{letters, number, u8_of};

/// Puts whether a text that repeats one byte is within the limits. The row has the byte's code, and how many there are.
pub(crate) fn put_length(alloc: Global, line: &mut Line, row: &[u8]) {
    let mut words = letters(row).split(' ');
    let byte = u8_of(words.next().unwrap_or(""));
    let count = number(words.next()) as usize;
    let Ok(bytes) = vec![in alloc; byte; count] else {
        return line.fall_short();
    };
    match Source::new(&bytes) {
        Ok(_) => line.word("accepted"),
        Err(refusal) => {
            line.numbered("", u64::from(refusal.number()));
            line.valued(" ", &refusal);
        }
    }
}

/// Puts how many bytes a text has and holds, and the line of each of its offsets and of its end: as the text counts
/// them, and from a table.
pub(crate) fn put_lines(alloc: Global, line: &mut Line, text: &[u8]) {
    let Ok(source) = Source::new(text) else {
        return line.word("no source");
    };
    line.word_if("empty, ", source.is_empty());
    line.numbered("", u64::from(source.len()));
    line.numbered(" bytes, ", source.bytes().len() as u64);
    line.word(" held, lines");
    put_counted(line, &source);
    line.word(", by the table");
    put_found(alloc, line, &source);
}

/// Puts the lines of offsets as the text counts them.
fn put_counted(line: &mut Line, source: &Source) {
    for offset in 0..=source.len() {
        line.listed(u64::from(source.line_of(offset)));
    }
}

/// Puts the lines of offsets as a table finds them.
fn put_found(alloc: Global, line: &mut Line, source: &Source) {
    let Ok(table) = LineTable::new(alloc, source) else {
        return line.fall_short();
    };
    for offset in 0..=source.len() {
        line.listed(u64::from(table.line_of(offset)));
    }
}

/// Puts a slice of a text, in brackets. The row has where it begins, where it ends, and the text.
pub(crate) fn put_slice(line: &mut Line, row: &[u8]) {
    let mut words = letters(row).splitn(3, ' ');
    let (from, to) = (number(words.next()), number(words.next()));
    let text = words.next().unwrap_or("").as_bytes();
    line.bracketed(slice_of(text, from, to));
}

/// A slice of a text, empty if there is none.
fn slice_of(text: &[u8], from: u32, to: u32) -> &[u8] {
    match Source::new(text) {
        Ok(source) if from <= to && to <= source.len() => source.slice(Span { from, to }),
        _ => &[],
    }
}
