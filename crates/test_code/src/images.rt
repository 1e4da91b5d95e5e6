//! Images, read, written and loaded.

use crate::runs::put_machine;
use crate::settings::RowSettings;
use risc_image::{CallRow, FrameRow, ImageView, Parts, write};
use risc_load::{Budget, load};
use std::alloc::{AllocError, Global};
use test_tables::Line;

/// Puts the parts of an image: its counts, a row of each table, what is found by a link, and the bytes of its code; or
/// the number of its refusal.
pub(crate) fn put_read(line: &mut Line, bytes: &[u8], settings: &RowSettings) {
    match ImageView::read(bytes) {
        Ok(image) => {
            put_counts(line, &image);
            put_rows(line, &image, settings.row as usize);
            put_found(line, &image, settings.link);
            line.bracketed(image.code());
        }
        Err(refusal) => line.numbered("refused ", u64::from(refusal.number())),
    }
}

fn put_counts(line: &mut Line, image: &ImageView) {
    line.valued("", &image.global());
    line.valued(" ", &image.words());
    line.valued(" ", &image.frames());
    line.valued(" ", &image.objects());
    line.valued(" ", &image.traps());
    line.seen(" ", &image.calls());
}

fn put_rows(line: &mut Line, image: &ImageView, row: usize) {
    line.seen("; ", &image.word(row));
    line.seen(" ", &image.frame(row));
    line.seen(" ", &image.object(row));
    line.seen(" ", &image.trap(row));
    line.seen(" ", &image.call(row));
}

fn put_found(line: &mut Line, image: &ImageView, link: u32) {
    line.seen("; found ", &image.trap_of(link));
    line.seen(" ", &image.call_of(link));
    line.word("; ");
}

// The parts of an image of two words of code, 4 bytes of globals, a frame and a call.
fn few_parts(alloc: Global) -> Result<Parts, AllocError> {
    let code = vec![in alloc; 0xE7FFFFFF, 0x40000000]?;
    let frames = vec![in alloc; FrameRow { entry: 4, bytes: 8 }]?;
    let calls = vec![in alloc; CallRow { link: 8, line: 3 }]?;
    Ok(Parts {
        global: 4,
        code,
        frames,
        objects: Vec::new(alloc),
        traps: Vec::new(alloc),
        calls: Some(calls),
    })
}

/// Puts the image of two words of code, 4 bytes of globals, a frame and a call.
pub(crate) fn put_written(alloc: Global, line: &mut Line) -> Result<(), AllocError> {
    let parts = few_parts(alloc)?;
    let bytes = write(alloc, &parts);
    drop(parts);
    line.word("bytes ");
    line.bracketed(&bytes?);
    Ok(())
}

/// Puts what the machine of a loaded image holds, or the number of the load's refusal.
pub(crate) fn put_loaded(alloc: Global, line: &mut Line, bytes: &[u8], settings: &RowSettings) {
    let Ok(image) = ImageView::read(bytes) else {
        return line.word("no image");
    };
    let budget = Budget {
        stack: settings.stack,
        heap: settings.heap,
    };
    match load(alloc, &image, budget) {
        Ok(machine) => {
            put_machine(line, &machine);
            drop(machine);
        }
        Err(refusal) => line.numbered("refused ", u64::from(refusal.number())),
    }
}
