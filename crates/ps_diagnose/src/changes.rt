//! Changes of a text.

ghost use Rattle.std.specs.Prelude.{◌≡◌, ◌++◌, IfOk, OnOk};
ghost use Rattle.ps_diagnose.specs.Changes.{part, changed_from};

use ps_diagnostic::Edit;
use std::alloc::{AllocError, Global};

// Puts the part of a text from one offset up to another, if both are in the text and in order.
fn put_part(out: &mut Vec<u8>, text: &[u8], from: usize, to: usize) -> Result<(), AllocError>
    ensures { OnOk result (out.new.items ≡ out.old.items ++ part text.now from to) }
{
    if from <= to && to <= text.len() {
        out.extend_from_slice(&text[from..to])?;
    }
    Ok(())
}

// Puts what is left of a text from an offset on, with the edits.
#[tactic(auto, using(crate::proofs::Added::three_added))]
fn put_changed(out: &mut Vec<u8>, text: &[u8], at: usize, edits: &[Edit]) -> Result<(), AllocError>
    ensures { OnOk result (out.new.items ≡ out.old.items ++ changed_from text.now at edits.now) }
{
    match edits {
        [] => put_part(out, text, at, text.len()),
        [edit, rest @ ..] => {
            put_part(out, text, at, edit.span.from as usize)?;
            out.extend_from_slice(edit.put.as_bytes())?;
            put_changed(out, text, edit.span.to as usize, rest)
        }
    }
}

/// The text in which each edit's span is replaced by what the edit puts. Edits come in the order of their spans, which
/// don't overlap; an edit before the end of the previous one, or past the end of the text, is left out.
pub fn changed(alloc: Global, text: &[u8], edits: &[Edit]) -> Result<Vec<u8>, AllocError>
    ensures { IfOk result (λ out. out.items ≡ changed_from text.now 0 edits.now) }
{
    let mut out = Vec::new(alloc);
    put_changed(&mut out, text, 0, edits)?;
    Ok(out)
}
