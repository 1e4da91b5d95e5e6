//! What a program does with its variables.

use std::alloc::{AllocError, Global};

// What is noted of the text as a whole.

/// The names of declared routines where they are called or passed.
pub(crate) const CALLS: u32 = 0;
/// The names of `read` and `readln`.
pub(crate) const INPUTS: u32 = 0x1000_0000;
/// The names of variables through which what a pointer identifies is changed.
pub(crate) const CONTENTS: u32 = 0x2000_0000;
/// The names of fields of what a `with` opens that are changed.
pub(crate) const FIELDS: u32 = 0x3000_0000;
/// The changes of variables that go by another name, or may go by one.
pub(crate) const DISTANT: u32 = 0x4000_0000;
/// Where the outermost loops begin.
pub(crate) const LOOPS: u32 = 0x5000_0000;
/// The tokens after them.
pub(crate) const LOOP_ENDS: u32 = 0x6000_0000;

// What is noted of each variable.

/// It may have another value after the token.
pub(crate) const CHANGED: u32 = 0x8000_0000;
/// It gets a value by an assignment, or a part of it does.
pub(crate) const ASSIGNED: u32 = 0x9000_0000;
/// It gets one from `read`, `readln` or `new`.
pub(crate) const GIVEN: u32 = 0xA000_0000;
/// Its value is used, and not for its own next one alone.
pub(crate) const READ: u32 = 0xB000_0000;
/// A `with` has its fields as names.
pub(crate) const OPENED: u32 = 0xC000_0000;

/// The statements of a block by their tokens, and the region that the block is.
#[derive(Clone, Copy)]
pub(crate) struct Body {
    pub(crate) first: usize,
    pub(crate) end: usize,
    pub(crate) region: u32,
}

/// What a program does with its variables, as one sorted list: of each note what it is, the variable that it is of, and
/// a token.
#[derive(Drop)]
pub(crate) struct Uses {
    keys: Vec<u64>,
    // whether out of memory
    has_failed: bool,
}

// A note and a token as one number.
fn key(about: u32, at: usize) -> u64 {
    let at = u32::try_from(at).unwrap_or(u32::MAX);
    u64::from(about) * 4_294_967_296 + u64::from(at)
}

impl Uses {
    /// Nothing is noted yet.
    pub(crate) fn new(alloc: Global) -> Uses {
        Uses {
            keys: Vec::new(alloc),
            has_failed: false,
        }
    }

    /// Notes something at a token.
    pub(crate) fn add(&mut self, about: u32, at: usize) {
        let is_kept = self.keys.push(key(about, at)).is_ok();
        self.has_failed = self.has_failed || !is_kept;
    }

    /// Notes something of a variable at a token.
    pub(crate) fn add_of(&mut self, about: u32, point: u32, at: usize) {
        self.add(about.saturating_add(point), at);
    }

    /// Prepares it for queries.
    pub(crate) fn sort(&mut self) -> Result<(), AllocError> {
        if self.has_failed {
            return Err(AllocError);
        }
        self.keys.sort()
    }

    // How many notes come before one.
    fn before(&self, about: u32, at: usize) -> usize {
        match self.keys.as_slice().binary_search(&key(about, at)) {
            Ok(next) | Err(next) => next,
        }
    }

    // The token of a note, if it is of this.
    fn token(&self, number: usize, about: u32) -> Option<usize> {
        match self.keys.get(number) {
            Some(key) if *key / 4_294_967_296 == u64::from(about) => {
                Some((*key % 4_294_967_296) as usize)
            }
            _ => None,
        }
    }

    /// The first token from one on at which something is noted.
    pub(crate) fn next(&self, about: u32, from: usize) -> Option<usize> {
        self.token(self.before(about, from), about)
    }

    /// The last token before one at which something is noted.
    pub(crate) fn last(&self, about: u32, end: usize) -> Option<usize> {
        match self.before(about, end).checked_sub(1) {
            Some(number) => self.token(number, about),
            None => None,
        }
    }

    /// Whether something is noted at one of the tokens from one up to another.
    pub(crate) fn has(&self, about: u32, from: usize, to: usize) -> bool {
        match self.next(about, from) {
            Some(at) => at < to,
            None => false,
        }
    }

    /// Whether something is noted of a variable at one of the tokens from one up to another.
    pub(crate) fn has_of(&self, about: u32, point: u32, from: usize, to: usize) -> bool {
        self.has(about.saturating_add(point), from, to)
    }

    /// Whether something is noted of a variable.
    pub(crate) fn has_any(&self, about: u32, point: u32) -> bool {
        self.has_of(about, point, 0, usize::MAX)
    }
}
