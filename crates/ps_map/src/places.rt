//! Places in a text.

use std::alloc::{AllocError, Global};

/// A place in a text: its line and its column, both from 1 on. Columns count bytes.
#[derive(Clone, Copy, PartialEq, Eq)]
pub struct Place {
    pub line: u32,
    pub column: u32,
}

/// Where the lines of a text begin, from the second one on.
#[derive(Drop)]
pub struct Lines {
    starts: Vec<u32>,
}

impl Lines {
    /// The lines of a text.
    pub fn new(alloc: Global, text: &[u8]) -> Result<Lines, AllocError> {
        let mut starts = Vec::new(alloc);
        for (offset, byte) in text.iter().enumerate() {
            if *byte == b'\n' {
                starts.push(small(offset).saturating_add(1))?;
            }
        }
        Ok(Lines { starts })
    }

    /// The place of an offset.
    pub fn place_of(&self, offset: u32) -> Place {
        let ends = self.starts.partition_point(|start| *start <= offset);
        let start = match ends.checked_sub(1) {
            Some(last) => self.starts.get(last).copied().unwrap_or(0),
            None => 0,
        };
        Place {
            line: small(ends).saturating_add(1),
            column: offset.saturating_sub(start).saturating_add(1),
        }
    }

    /// The offset of a place.
    pub fn offset_of(&self, place: Place) -> u32 {
        let start = match (place.line as usize).checked_sub(2) {
            Some(before) => self.starts.get(before).copied().unwrap_or(0),
            None => 0,
        };
        start.saturating_add(place.column.saturating_sub(1))
    }
}

/// A count as a number of 32 bits.
pub fn small(count: usize) -> u32 {
    u32::try_from(count).unwrap_or(u32::MAX)
}
