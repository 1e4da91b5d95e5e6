//! Offsets in a changed text, as offsets in the original text.

use ps_diagnostic::{Edit, Label};
use ps_text::Span;
use std::alloc::{AllocError, Global};

// What a byte of a text with some edits was in the text without them.
#[derive(Clone, Copy)]
enum Origin {
    // The byte at this offset.
    Kept(u32),
    // Nothing: an edit of this span put it in, as its first byte or another one.
    Put { span: Span, is_first: bool },
}

// What the byte at an offset after some edits was before them.
fn origin_of(edits: &[Edit], offset: u32) -> Origin {
    // how far the bytes read have moved, forward and back
    let mut put: u32 = 0;
    let mut taken: u32 = 0;
    for edit in edits.iter() {
        let from = edit.span.from.saturating_add(put).saturating_sub(taken);
        let length = edit.put.len().min(u32::MAX as usize) as u32;
        if offset < from {
            break;
        }
        if offset < from.saturating_add(length) {
            return Origin::Put {
                span: edit.span,
                is_first: offset == from,
            };
        }
        put = put.saturating_add(length);
        taken = taken.saturating_add(edit.span.to.saturating_sub(edit.span.from));
    }
    Origin::Kept(offset.saturating_add(taken).saturating_sub(put))
}

// Where something that begins with this byte began before the edits; `None` if nothing was there. (What is within a
// replacement is taken for all that was replaced.)
fn start_of(origin: Origin) -> Option<u32> {
    match origin {
        Origin::Kept(offset) => Some(offset),
        Origin::Put { span, .. } if span.from < span.to => Some(span.from),
        Origin::Put { .. } => None,
    }
}

// Where something that ends with this byte ended before the edits.
fn end_of(origin: Origin) -> u32 {
    match origin {
        Origin::Kept(offset) => offset.saturating_add(1),
        Origin::Put { span, .. } => span.to,
    }
}

/// Changes made one after another, each to the result of the one before.
#[derive(Drop)]
pub(crate) struct Layers {
    edits: Vec<Vec<Edit>>,
}

impl Layers {
    /// No changes.
    pub(crate) fn new(alloc: Global) -> Layers {
        Layers {
            edits: Vec::new(alloc),
        }
    }

    /// Adds one more change.
    pub(crate) fn add(&mut self, edits: Vec<Edit>) -> Result<(), AllocError> {
        self.edits.push(edits)?;
        Ok(())
    }

    /// Where something that begins at an offset of the changed text begins in the original; `None` if nothing was
    /// there.
    pub(crate) fn start_of(&self, offset: u32) -> Option<u32> {
        let mut at = offset;
        for edits in self.edits.iter().rev() {
            at = start_of(origin_of(edits.as_slice(), at))?;
        }
        Some(at)
    }

    /// Whether nothing in the original corresponds to what begins at an offset of the changed text: it was inserted, or
    /// is within a replacement. (What comes first in a replacement corresponds to what was replaced.)
    pub(crate) fn is_new(&self, offset: u32) -> bool {
        let mut at = offset;
        for edits in self.edits.iter().rev() {
            at = match origin_of(edits.as_slice(), at) {
                Origin::Kept(offset) => offset,
                Origin::Put {
                    span,
                    is_first: true,
                } if span.from < span.to => span.from,
                Origin::Put { .. } => return true,
            };
        }
        false
    }

    // Where something that ends at an offset of the changed text ends in the original, by its last byte: what comes
    // after that may have been removed.
    fn end_of(&self, offset: u32) -> u32 {
        let mut at = offset;
        for edits in self.edits.iter().rev() {
            at = end_of(origin_of(edits.as_slice(), at.saturating_sub(1)));
        }
        at
    }

    /// Where a span of the changed text is in the original; `None` if it begins with something that was inserted.
    pub(crate) fn span_of(&self, span: Span) -> Option<Span> {
        let from = self.start_of(span.from)?;
        let to = if span.from < span.to {
            self.end_of(span.to).max(from)
        } else {
            from
        };
        Some(Span { from, to })
    }

    /// Moves labels to where their spans are in the original, and removes those of what was inserted.
    pub(crate) fn move_labels(&self, labels: &mut Vec<Label>) {
        labels.retain(|label| self.span_of(label.span).is_some());
        for label in labels.iter_mut() {
            if let Some(span) = self.span_of(label.span) {
                label.span = span;
            }
        }
    }
}
