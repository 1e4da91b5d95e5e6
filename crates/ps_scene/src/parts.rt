//! Parts of a report, for crates that report runs themselves.

use crate::names::Text;
use crate::scene::{Surroundings, printer_of};
use crate::values::{Length, Object, ordinal_in};
use ps_tree::types::{Host, Ty};
use risc_machine::Machine;
use std::alloc::{AllocError, Global};
use std::mem::swap;

// After this many bytes of a value by itself, parts of it are left out: the record in which something was stored may
// have twelve fields at each of three levels.
const MOST_OF_A_VALUE: usize = 1_000;

impl<'a> Surroundings<'a> {
    pub(crate) fn text(&self) -> Text<'a> {
        Text {
            source: self.source,
            tokens: self.tokens,
        }
    }

    /// The name of the field with this number of the record type whose denoter begins at an offset.
    pub fn field(&self, denoter: u32, number: usize) -> &'a str {
        let text = self.text();
        text.field(self.fields, denoter, number)
    }
}

/// A value of an ordinal type.
pub fn ordinal_text(
    alloc: Global,
    around: &Surroundings<'_>,
    host: Host,
    value: i64,
) -> Result<String, AllocError> {
    ordinal_in(alloc, around.text(), host, value)
}

/// The value of a variable of a type at an address, in short; of a long one parts are left out. An object is shown by
/// its number in a list, in the order of the list; an object that isn't in the list is added.
pub fn value_at<'a>(
    alloc: Global,
    around: &Surroundings<'a>,
    machine: &'a Machine,
    ty: &Ty,
    at: u32,
    objects: &mut Vec<Object>,
) -> Result<String, AllocError> {
    let mut printer = printer_of(alloc, around, machine, Length::Short, MOST_OF_A_VALUE);
    swap(&mut printer.objects, objects);
    let put = printer.put_variable(ty, at);
    swap(&mut printer.objects, objects);
    put?;
    Ok(printer.take())
}
