//! Lists of numbers that are told apart by where they lie, before their numbers are compared.

ghost use Rattle.std.specs.Prelude.{◌≡◌, ◌↔◌, IsTrue};

use std::cell::Cell;

/// A list of numbers that doesn't change, with a mark by which it is known again.
#[derive(Drop)]
pub struct Marked {
    mark: Cell<bool>,
    pub list: Vec<u32>,
}

impl Marked {
    /// The list of these numbers, in this order.
    pub fn new(list: Vec<u32>) -> Marked
        ensures { result.list ≡ list }
    {
        Marked {
            mark: Cell::new(false),
            list,
        }
    }

    /// Whether both are one, and so have the same numbers.
    // Pointers into two blocks may not be compared, so this writes through one mark and then through the other: if they
    // are one mark, the first has changed. The proof is by hand.
    pub fn is_same(&self, other: &Marked) -> bool
        ensures { IsTrue result → self.now.list.items ≡ other.now.list.items }
    {
        let one = (&raw const self.mark).cast::<bool>().cast_mut();
        let two = (&raw const other.mark).cast::<bool>().cast_mut();
        unsafe {
            *one = true;
            *two = false;
            !*one
        }
    }

    /// Whether both have the same numbers. If both are one, no number is looked at.
    pub(crate) fn equals(&self, other: &Marked) -> bool
        ensures { IsTrue result ↔ self.now.list.items ≡ other.now.list.items }
    {
        self.is_same(other) || self.list.as_slice() == other.list.as_slice()
    }
}
