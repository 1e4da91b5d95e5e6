//! The sentences about endings.

use crate::targets::Meant;
use ps_map::{Map, small};
use ps_scan::Token;
use ps_scene::{FaultValue, Scene, Text, ordinal_in};
use ps_text::Source;
use risc_image::ImageView;
use std::alloc::{AllocError, Global};

// How many routines with several open calls are mentioned.
const MOST_ROUTINES: usize = 3;

/// What is said if so many values are shown that parts of others, or other variables, are left out.
pub(crate) const CUT: &str =
    "values are shortened after 4000000 bytes, and variables left out after 100000";

/// The words for an error of the language, or for a stop, by its number.
pub(crate) fn words_of(number: u32) -> &'static str {
    match number {
        1 => "integer overflow",
        2 => "division by zero",
        3 => "modulus below one",
        4 => "value out of range",
        5 => "index out of range",
        6 => "nil pointer",
        7 => "no case constant",
        8 => "set member out of range",
        9 => "end of input",
        10 => "not an integer",
        11 => "field width below one",
        12 => "out of stack",
        _ => "out of heap",
    }
}

/// What is said of the value that an error found, and of its range; or, if it is a step from one that has no neighbour,
/// of that one.
pub(crate) fn found_told<'a>(
    alloc: Global,
    source: &'a Source<'a>,
    tokens: &'a [Token],
    meant: Meant,
    found: FaultValue,
) -> Result<String, AllocError> {
    let text = Text { source, tokens };
    let value = found.value.saturating_sub(meant.step);
    let mut out = ordinal_in(alloc, text, meant.host, value)?;
    if meant.step > 0 {
        out.push_str(" has no successor")?;
    } else if meant.step < 0 {
        out.push_str(" has no predecessor")?;
    } else if let Some(bounds) = found.bounds {
        let low = ordinal_in(alloc, text, meant.host, bounds.low)?;
        let high = ordinal_in(alloc, text, meant.host, bounds.high)?;
        let (low, high) = (low.as_str(), high.as_str());
        write!(out, " is not within {low}..{high}")?;
    }
    Ok(out)
}

// The routine with the most open calls, two or more, except those already mentioned.
fn most_open(counts: &[u64], told: &[usize]) -> Option<usize> {
    let mut found = None;
    let mut most = 1;
    for (routine, count) in counts.iter().enumerate() {
        if *count > most && !told.contains(&routine) {
            found = Some(routine);
            most = *count;
        }
    }
    found
}

/// The map, and the image that has the sizes of its frames.
#[derive(Clone, Copy)]
pub(crate) struct Sizes<'a> {
    pub(crate) alloc: Global,
    pub(crate) map: &'a Map,
    pub(crate) image: &'a ImageView<'a>,
}

impl<'a> Sizes<'a> {
    // The name of a routine, and the bytes of its frame.
    fn told(&self, routine: usize) -> (&'a str, u32) {
        let name = self.map.name_of(small(routine)).unwrap_or("?");
        match self.image.frame(routine) {
            Some(row) => (name, row.bytes),
            None => (name, 0),
        }
    }

    // Adds how many calls of a routine are open.
    fn put_calls(
        &self,
        out: &mut String,
        routine: usize,
        count: u64,
        is_first: bool,
    ) -> Result<(), AllocError> {
        let (name, bytes) = self.told(routine);
        if is_first {
            write!(out, ", {count} calls of `{name}` open ({bytes} bytes each)")
        } else {
            write!(out, ", {count} of `{name}` ({bytes} bytes each)")
        }
    }

    // Adds which routines have several open calls. Returns whether there are any.
    fn put_open(&self, out: &mut String, counts: &[u64]) -> Result<bool, AllocError> {
        let mut told: Vec<usize> = Vec::new(self.alloc);
        for number in 0..MOST_ROUTINES {
            let Some(routine) = most_open(counts, told.as_slice()) else {
                break;
            };
            let count = counts.get(routine).copied().unwrap_or(0);
            self.put_calls(out, routine, count, number == 0)?;
            told.push(routine)?;
        }
        Ok(!told.is_empty())
    }

    /// What is said if the stack had no room: the routines with several open calls, or the size of the frame for which
    /// there was no room.
    pub(crate) fn stack(&self, scene: &Scene) -> Result<String, AllocError> {
        let mut out = String::from_str(self.alloc, words_of(12))?;
        if !self.put_open(&mut out, scene.counts.as_slice())? {
            let (name, bytes) = self.told(scene.routine.unwrap_or(0) as usize);
            write!(out, ", `{name}` takes {bytes} bytes")?;
        }
        out.push_str("; `--stack` gives more")?;
        Ok(out)
    }
}

/// What is said if the heap had no room; this many bytes of it are taken.
pub(crate) fn heap(alloc: Global, taken: Option<u32>) -> Result<String, AllocError> {
    let words = words_of(13);
    match taken {
        Some(taken) => format!(in alloc; "{words}, {taken} bytes taken; `--heap` gives more"),
        None => format!(in alloc; "{words}; `--heap` gives more"),
    }
}
