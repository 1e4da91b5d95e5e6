//! The bytes of an image, cut after the header and each table.

ghost use Rattle.std.specs.Prelude.{take};
ghost use Rattle.risc_image.specs.Refusal.{header_length};
ghost use Rattle.risc_image.specs.Header.{IsHeader, Passes};
ghost use Rattle.risc_image.specs.Cut.{IsCut};

use crate::header::{Header, header_length};

/// The bytes of the code and of each table. The first version has no bytes of calls.
#[derive(Clone, Copy)]
pub struct Pieces<'a> {
    pub code: &'a [u8],
    pub frames: &'a [u8],
    pub objects: &'a [u8],
    pub traps: &'a [u8],
    pub calls: &'a [u8],
}

/// Cuts the bytes by the counts of their header.
pub fn pieces_of<'a>(bytes: &'a [u8], header: Header) -> Pieces<'a>
    requires passes { Passes bytes.now }
    requires header { IsHeader bytes.now header }
    ensures { IsCut bytes.now (take (header_length bytes.now) bytes.now) result.code.now result.frames.now
        result.objects.now result.traps.now result.calls.now }
{
    let (_, rest) = bytes.split_at(header_length(bytes));
    let (code, rest) = rest.split_at(4 * header.code as usize);
    let (frames, rest) = rest.split_at(8 * header.frames as usize);
    let (objects, rest) = rest.split_at(8 * header.objects as usize);
    let (traps, calls) = rest.split_at(12 * header.traps as usize);
    Pieces {
        code,
        frames,
        objects,
        traps,
        calls,
    }
}
