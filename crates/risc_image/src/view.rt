//! An image within the bytes of its file.

ghost use Rattle.std.specs.Prelude.{◌≡◌, ℕ, ◌*◌, List, Option, Some, None, length, slice_get, option_map};
ghost use Rattle.std.specs.Prelude.{option_copied, if◌then◌else◌, IfOk, IfErr, IsOkAnd};
ghost use Rattle.risc_image.specs.Format.{IsImage, word_bytes};
ghost use Rattle.risc_image.specs.Refusal.{IsRefused, is_second};
ghost use Rattle.risc_image.specs.Image.{Image, call_rows};
ghost use Rattle.risc_image.specs.Table.{trap_at, call_at};

use crate::cut::pieces_of;
use crate::header::{checked_header, is_second};
use crate::refusal::ImageRefusal;
use crate::rows::{CallRow, FrameRow, ObjectRow, TrapRow};
use crate::search::{find_call, find_trap};
use crate::tables::are_tables;
use crate::words::{
    call_count, frame_count, get_call, get_frame, get_object, get_trap, get_word, object_count,
    trap_count, word_count,
};
use std::marker::Model;

/// An image whose code and tables are slices of the file's bytes. Clauses see it as an `Image`.
#[derive(Drop)]
pub struct ImageView<'a> {
    global: u32,
    code: &'a [u8],
    frames: &'a [u8],
    objects: &'a [u8],
    traps: &'a [u8],
    calls: Option<&'a [u8]>,
}

impl<'a> Model for ImageView<'a> {
    ghost use Rattle.risc_image.specs.Image.{Image, IsWellFormed};

    ghost Value = { Image };

    ghost use Rattle.risc_image.specs.View.{image_of, IsSound};

    ghost view = { image_of };

    ghost invariant = { IsSound };
}

// The call table, which the second version has.
fn call_part<'a>(bytes: &[u8], calls: &'a [u8]) -> Option<&'a [u8]>
    ensures { option_copied result ≡ (if is_second bytes.now then Some calls.now else None) }
{
    if is_second(bytes) { Some(calls) } else { None }
}

impl<'a> ImageView<'a> {
    /// The image that the bytes are, or the first check that they fail. Allocates no memory; linear in the bytes.
    pub fn read(bytes: &'a [u8]) -> Result<ImageView<'a>, ImageRefusal>
        ensures ok { IfOk result (λ view. IsImage bytes.now view) }
        ensures err { IfErr result (λ refusal. IsRefused bytes.now refusal) }
        ensures exact { (image : Image) → IsImage bytes.now image → IsOkAnd result (λ view. view ≡ image) }
    {
        let header = checked_header(bytes)?;
        let parts = pieces_of(bytes, header);
        if !are_tables(header.global, parts) {
            return Err(ImageRefusal::BadTable);
        }
        Ok(ImageView {
            global: header.global,
            code: parts.code,
            frames: parts.frames,
            objects: parts.objects,
            traps: parts.traps,
            calls: call_part(bytes, parts.calls),
        })
    }

    /// The bytes of the globals.
    pub fn global(&self) -> u32
        ensures { result ≡ self.now.global }
    {
        self.global
    }

    /// The bytes of the code, four for each word, lowest first.
    #[tactic(auto, using(crate::proofs::Spelled::word_bytes_length))]
    pub fn code(&self) -> &'a [u8]
        ensures bytes { result.now ≡ word_bytes self.now.code }
        ensures length { length result.now ≡ 4 * length self.now.code }
    {
        self.code
    }

    /// Word k of the code, if there is one.
    pub fn word(&self, k: usize) -> Option<u32>
        ensures { result ≡ slice_get self.now.code k }
    {
        get_word(self.code, k)
    }

    /// How many words the code has.
    pub fn words(&self) -> usize
        ensures { result ≡ length self.now.code }
    {
        word_count(self.code)
    }

    /// How many rows the frame table has.
    pub fn frames(&self) -> usize
        ensures { result ≡ length self.now.frames }
    {
        frame_count(self.frames)
    }

    /// The row of routine k, if there is one.
    pub fn frame(&self, k: usize) -> Option<FrameRow>
        ensures { result ≡ slice_get self.now.frames k }
    {
        get_frame(self.frames, k)
    }

    /// How many rows the object table has.
    pub fn objects(&self) -> usize
        ensures { result ≡ length self.now.objects }
    {
        object_count(self.objects)
    }

    /// The row of pointer type k, if there is one.
    pub fn object(&self, k: usize) -> Option<ObjectRow>
        ensures { result ≡ slice_get self.now.objects k }
    {
        get_object(self.objects, k)
    }

    /// How many rows the trap table has.
    pub fn traps(&self) -> usize
        ensures { result ≡ length self.now.traps }
    {
        trap_count(self.traps)
    }

    /// Row k of the trap table, if there is one.
    pub fn trap(&self, k: usize) -> Option<TrapRow>
        ensures { result ≡ slice_get self.now.traps k }
    {
        get_trap(self.traps, k)
    }

    /// How many rows the call table has. `None` in the first version, which has no call table.
    pub fn calls(&self) -> Option<usize>
        ensures { result ≡ option_map (λ rows. length rows) self.now.calls }
    {
        match self.calls {
            None => None,
            Some(table) => Some(call_count(table)),
        }
    }

    /// Row k of the call table, if there is one.
    pub fn call(&self, k: usize) -> Option<CallRow>
        ensures { result ≡ slice_get (call_rows self.now) k }
    {
        match self.calls {
            None => None,
            Some(table) => get_call(table, k),
        }
    }

    /// What the trap with this link means: the row of the link in the trap table, found by bisection.
    pub fn trap_of(&self, link: u32) -> Option<TrapRow>
        ensures { result ≡ trap_at link self.now.traps }
    {
        find_trap(self.traps, link)
    }

    /// Where the call is that returns to this link: the row of the link in the call table, found by bisection. `None`
    /// in the first version.
    pub fn call_of(&self, link: u32) -> Option<CallRow>
        ensures { result ≡ call_at link (call_rows self.now) }
    {
        match self.calls {
            None => None,
            Some(table) => find_call(table, link),
        }
    }
}
