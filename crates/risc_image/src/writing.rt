//! Parts as the bytes of an image.

ghost use Rattle.std.specs.Prelude.{◌≡◌, ℕ, ◌<◌, ◌≤◌, ◌^◌, ◌∷◌, [], ◌++◌, List, length, All, OnOk, IfOk};
ghost use Rattle.std.specs.Int.{w32, to_le_bytes};
ghost use Rattle.std.specs.List.{flat_map};
ghost use Rattle.risc_image.specs.Image.{call_rows};
ghost use Rattle.risc_image.specs.Format.{IsImage, AreWords, word_bytes, magic_of, header, frame_words, object_words};
ghost use Rattle.risc_image.specs.Format.{trap_words, call_words};

use crate::header::{FIRST_MAGIC, SECOND_MAGIC};
use crate::parts::Parts;
use crate::rows::{CallRow, FrameRow, ObjectRow, TrapRow};
use std::alloc::{AllocError, Global};

/// Out of memory.
pub type OutOfMemory = AllocError;

fn put_word(out: &mut Vec<u8>, word: u32) -> Result<(), AllocError>
    ensures { OnOk result (out.new.items ≡ out.old.items ++ to_le_bytes w32 word) }
{
    out.extend_from_slice(&word.to_le_bytes())
}

fn put_words(out: &mut Vec<u8>, words: &[u32]) -> Result<(), AllocError>
    ensures bytes { OnOk result (out.new.items ≡ out.old.items ++ word_bytes words.now) }
    ensures numbers { AreWords words.now }
{
    for word in words {
        put_word(out, *word)?;
    }
    Ok(())
}

fn put_frames(out: &mut Vec<u8>, rows: &[FrameRow]) -> Result<(), AllocError>
    ensures bytes { OnOk result (out.new.items ≡ out.old.items ++ flat_map
        (λ row. word_bytes (frame_words row)) rows.now) }
    ensures numbers { OnOk result (All (λ row. AreWords (frame_words row)) rows.now) }
{
    for row in rows {
        put_words(out, &[row.entry, row.bytes])?;
    }
    Ok(())
}

fn put_objects(out: &mut Vec<u8>, rows: &[ObjectRow]) -> Result<(), AllocError>
    ensures bytes { OnOk result (out.new.items ≡ out.old.items ++ flat_map
        (λ row. word_bytes (object_words row)) rows.now) }
    ensures numbers { OnOk result (All (λ row. AreWords (object_words row)) rows.now) }
{
    for row in rows {
        put_words(out, &[row.pointer_type, row.bytes])?;
    }
    Ok(())
}

fn put_traps(out: &mut Vec<u8>, rows: &[TrapRow]) -> Result<(), AllocError>
    ensures bytes { OnOk result (out.new.items ≡ out.old.items ++ flat_map
        (λ row. word_bytes (trap_words row)) rows.now) }
    ensures numbers { OnOk result (All (λ row. AreWords (trap_words row)) rows.now) }
{
    for row in rows {
        put_words(out, &[row.link, row.error, row.line])?;
    }
    Ok(())
}

fn put_calls(out: &mut Vec<u8>, rows: &[CallRow]) -> Result<(), AllocError>
    ensures bytes { OnOk result (out.new.items ≡ out.old.items ++ flat_map
        (λ row. word_bytes (call_words row)) rows.now) }
    ensures numbers { OnOk result (All (λ row. AreWords (call_words row)) rows.now) }
{
    for row in rows {
        put_words(out, &[row.link, row.line])?;
    }
    Ok(())
}

// The magic and the header.
fn put_header(out: &mut Vec<u8>, parts: &Parts) -> Result<(), AllocError>
    ensures { OnOk result (out.new.items ≡ out.old.items ++
        (magic_of parts.now.calls ++ word_bytes (header parts.now))) }
{
    let magic = if parts.calls.is_some() {
        &SECOND_MAGIC
    } else {
        &FIRST_MAGIC
    };
    out.extend_from_slice(magic)?;
    put_words(
        out,
        &[
            parts.global,
            parts.code.len() as u32,
            parts.frames.len() as u32,
            parts.objects.len() as u32,
            parts.traps.len() as u32,
        ],
    )?;
    if let Some(calls) = &parts.calls {
        put_word(out, calls.len() as u32)?;
    }
    Ok(())
}

// The rows of the call table, none if there is no table.
fn rows_of_calls(parts: &Parts) -> &[CallRow]
    ensures { result.now ≡ call_rows parts.now }
{
    match &parts.calls {
        None => &[],
        Some(rows) => rows,
    }
}

/// The image of the parts, in the second version of the format if they have a call table.
pub fn write(alloc: Global, parts: &Parts) -> Result<Vec<u8>, OutOfMemory>
    ensures { IfOk result (λ bytes. IsImage bytes.items parts.now) }
{
    let mut out = Vec::new(alloc);
    put_header(&mut out, parts)?;
    put_words(&mut out, &parts.code)?;
    put_frames(&mut out, &parts.frames)?;
    put_objects(&mut out, &parts.objects)?;
    put_traps(&mut out, &parts.traps)?;
    put_calls(&mut out, rows_of_calls(parts))?;
    Ok(out)
}
