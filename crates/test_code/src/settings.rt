//! The settings of a row.

use crate::homes::home_of;
use risc_alloc::homes::Home;
use std::alloc::{AllocError, Global};
use test_tables::words::{u16_of, u32_of, u64_of};

/// The settings of a row, given by lines before it.
#[derive(Drop)]
pub struct RowSettings {
    /// The input of a run.
    pub(crate) input: Vec<u8>,
    /// The limits of the runs of one machine, in their order.
    pub(crate) limits: Vec<u64>,
    /// Whether each step of the processor is made by a call of its own.
    pub(crate) is_stepped: bool,
    /// How many bytes a console takes.
    pub(crate) room: u16,
    /// The call of `take` that fails.
    pub(crate) take: u64,
    /// The call of `put` that fails.
    pub(crate) put: u64,
    /// Bytes of memory.
    pub(crate) globals: u32,
    pub(crate) heap: u32,
    pub(crate) stack: u32,
    /// The row of an image's tables that is shown, and the link that is looked up.
    pub(crate) row: u32,
    pub(crate) link: u32,
    pub(crate) homes: Vec<Home>,
}

/// A row without settings.
pub fn defaults(alloc: Global) -> RowSettings {
    RowSettings {
        input: Vec::new(alloc),
        limits: Vec::new(alloc),
        is_stepped: false,
        room: 0,
        take: 0,
        put: 0,
        globals: 0,
        heap: 0,
        stack: 0,
        row: 0,
        link: 0,
        homes: Vec::new(alloc),
    }
}

impl RowSettings {
    /// Takes a setting from a line.
    pub fn set(&mut self, word: &str, rest: &str, text: Vec<u8>) -> Result<(), AllocError> {
        match word {
            "input" => self.input = text,
            "steps" => return self.tell_limits(rest),
            "homes" => return self.tell_homes(rest),
            "singly" => self.is_stepped = true,
            "room" => self.room = u16_of(rest),
            "take" => self.take = u64_of(rest),
            "put" => self.put = u64_of(rest),
            _ => self.tell_number(word, u32_of(rest)),
        }
        Ok(())
    }

    fn tell_number(&mut self, word: &str, number: u32) {
        match word {
            "globals" => self.globals = number,
            "heap" => self.heap = number,
            "stack" => self.stack = number,
            "row" => self.row = number,
            "link" => self.link = number,
            _ => {}
        }
    }

    fn tell_limits(&mut self, rest: &str) -> Result<(), AllocError> {
        for word in rest.split_whitespace() {
            self.limits.push(u64_of(word))?;
        }
        Ok(())
    }

    fn tell_homes(&mut self, rest: &str) -> Result<(), AllocError> {
        for word in rest.split_whitespace() {
            self.homes.push(home_of(word))?;
        }
        Ok(())
    }

    /// The first limit; none is 0.
    pub(crate) fn limit(&self) -> u64 {
        self.limits.first().copied().unwrap_or(0)
    }
}
