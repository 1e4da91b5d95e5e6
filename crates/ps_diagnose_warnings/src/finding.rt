//! What is found in a text, before it is reported.

use ps_diagnose::Draft;
use ps_text::Span;

/// What is reported for a text that is accepted.
#[derive(Drop)]
pub struct Warning {
    /// Its number and its name.
    pub number: u8,
    pub name: &'static str,
    pub place: Span,
    pub draft: Draft,
}

/// The most names that are reported.
pub(crate) const MOST: usize = 8;

/// Some names, by the tokens at which they are.
#[derive(Clone, Copy)]
pub(crate) struct Names {
    pub(crate) tokens: [usize; MOST],
    pub(crate) count: usize,
}

/// What is reported for a place. A row has the words for it.
#[derive(Clone, Copy)]
pub(crate) struct Finding {
    pub(crate) row: usize,
    /// The offset by which it is ordered.
    pub(crate) order: u32,
    pub(crate) place: Span,
    /// The part that is shown as it is written.
    pub(crate) word: Span,
    /// The second place.
    pub(crate) label: Span,
    /// The third one, whose line and column are shown.
    pub(crate) at: u32,
    pub(crate) names: Names,
    /// The variable whose first value is shown.
    pub(crate) point: u32,
    /// The least and the greatest value of what is reported.
    pub(crate) range: (i64, i64),
}

impl Names {
    /// No names.
    pub(crate) fn none() -> Names {
        Names {
            tokens: [0; MOST],
            count: 0,
        }
    }

    /// Adds a name, if there is room for it.
    pub(crate) fn add(&mut self, token: usize) {
        if let Some(free) = self.tokens.get_mut(self.count) {
            *free = token;
            self.count = self.count.saturating_add(1);
        }
    }

    /// The tokens at which they are.
    pub(crate) fn tokens(&self) -> &[usize] {
        self.tokens.get(..self.count).unwrap_or(&[])
    }
}

impl Finding {
    /// What is reported for a place by a row, with a word.
    pub(crate) fn new(row: usize, place: Span, word: Span) -> Finding {
        Finding {
            row,
            order: place.from,
            place,
            word,
            label: place,
            at: place.from,
            names: Names::none(),
            point: 0,
            range: (0, 0),
        }
    }
}
