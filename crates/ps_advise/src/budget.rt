//! How much may be examined besides a text.

// The most texts that are examined.
const MOST_TEXTS: u32 = 400;

// The bytes of all of them, minus twice the bytes of the text itself.
const MOST_BYTES: usize = 192_000;

// The tokens that are parsed in all, to find what could stand at places and how far changes of one token lead.
const MOST_TOKENS: usize = 800_000;

// The tokens that are parsed to choose among the changes at one place.
const MOST_HERE: usize = 100_000;

/// What may still be examined: how many texts, how many bytes together, and how many tokens at places of faults.
#[derive(Drop)]
pub(crate) struct Budget {
    texts: u32,
    bytes: usize,
    tokens: usize,
    is_short: bool,
}

impl Budget {
    /// What may be examined besides a text of this many bytes: changes of it, and what comes after its faults. A long
    /// text may be examined once more.
    pub(crate) fn new(length: usize) -> Budget {
        let bytes = MOST_BYTES.saturating_sub(length.saturating_mul(2));
        Budget {
            texts: MOST_TEXTS,
            bytes: bytes.max(length),
            tokens: MOST_TOKENS,
            is_short: false,
        }
    }

    /// Whether one more text of this many bytes may be examined, which is then subtracted.
    pub(crate) fn takes(&mut self, length: usize) -> bool {
        let texts = self.texts.checked_sub(1);
        let bytes = self.bytes.checked_sub(length);
        match (texts, bytes) {
            (Some(texts), Some(bytes)) => {
                self.texts = texts;
                self.bytes = bytes;
                true
            }
            _ => {
                self.is_short = true;
                false
            }
        }
    }

    /// How many changes may be parsed with so many tokens each, which are then subtracted: at most an eighth of the
    /// tokens that are left.
    pub(crate) fn changes(&mut self, wanted: usize, count: usize) -> usize {
        let most = (self.tokens / 8).min(MOST_HERE) / count.max(1);
        let changes = wanted.min(most);
        let parsed = changes.saturating_mul(count);
        self.tokens = self.tokens.saturating_sub(parsed);
        self.is_short = self.is_short || changes < wanted;
        changes
    }

    /// Whether so many tokens may be parsed to find what could stand at a place, which are then subtracted.
    pub(crate) fn parses(&mut self, count: usize) -> bool {
        match self.tokens.checked_sub(count) {
            Some(tokens) => {
                self.tokens = tokens;
                true
            }
            None => false,
        }
    }

    /// Whether too little was left for a text or for changes at a place, so that a mend may not have been found.
    pub(crate) fn is_short(&self) -> bool {
        self.is_short
    }
}
