//! The tokens of a text, as far as it has them.

use ps_scan::{ScanRefusal, Token, scan};
use ps_text::Source;
use std::alloc::{AllocError, Global};

/// The tokens of a text, or of the part before its first fault among tokens.
pub(crate) fn tokens_of(alloc: Global, source: &Source<'_>) -> Result<Vec<Token>, AllocError> {
    match scan(alloc, source) {
        Ok(tokens) => Ok(tokens),
        Err(ScanRefusal::OutOfMemory) => Err(AllocError),
        Err(ScanRefusal::Faulty { from, .. }) => tokens_before(alloc, source, from),
    }
}

// The tokens before an offset, all of which are whole.
fn tokens_before(
    alloc: Global,
    source: &Source<'_>,
    offset: u32,
) -> Result<Vec<Token>, AllocError> {
    let front = source.bytes().get(..offset as usize).unwrap_or(&[]);
    let Ok(front) = Source::new(front) else {
        return Ok(Vec::new(alloc));
    };
    match scan(alloc, &front) {
        Ok(tokens) => Ok(tokens),
        Err(ScanRefusal::OutOfMemory) => Err(AllocError),
        Err(ScanRefusal::Faulty { .. }) => Ok(Vec::new(alloc)),
    }
}
